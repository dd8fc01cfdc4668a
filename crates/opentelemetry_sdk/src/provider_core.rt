//! The state of a provider: everything but its views, readers and callbacks.

ghost use Rattle.std.specs.Prelude.{◌≡◌, true, false, map};
ghost use Rattle.otel_model.specs.Calls as model;
ghost use Rattle.otel_model.specs.Demands.{Views};
ghost use Rattle.otel_model.specs.Machine.{new_state};
ghost use Rattle.otel_model.specs.Steps.{Step};
ghost use Rattle.otel_model.specs.Lawful.{Balances, IsLawful};
ghost use Rattle.opentelemetry_sdk.specs.Correspondence.{reply_to};
ghost use Rattle.opentelemetry_sdk.specs.Readers.{AreReached, ShutsDown};
ghost use Rattle.otel_stream.specs.Requests.{wanted_by};

pub(crate) mod asking;
pub(crate) mod builds;
pub(crate) mod checks;
pub(crate) mod collections;
pub(crate) mod each_pipeline;
pub(crate) mod handles;
pub(crate) mod instrument;
pub(crate) mod instrument_checks;
pub(crate) mod new_readers;
pub(crate) mod records;
pub(crate) mod steps;

use crate::pipeline::Pipeline;
use crate::provider_core::instrument::Instrument;
use crate::provider_core::new_readers::NewReaders;
use indexmap::IndexSet;
use otel_aggregate::links::Links;
use otel_aggregate::value_map::hashing::SetHashBuilder;
use otel_common::faults::{Fault, OTelSdkResult};
use otel_common::resource::Resource;
use otel_common::scopes::InstrumentationScope;
use otel_stream::each_reader::{flush_all, shut_all};
use otel_stream::reader::MetricReader;
use std::alloc::Global;
use std::marker::Model;

/// Whether the provider was shut down, its resource, identity, meters, instruments and live handles, and the streams of
/// each reader.
///
/// The streams balance, modulo 2^64: what a stream has recorded is what it has exported plus what is pending, except
/// for observed sums; and it is what the instruments that feed it have accepted, unless they are observed. Here a sum
/// counts values, a histogram counts records, and a last value counts nothing.
#[derive(Drop)]
pub struct Core {
    pub(crate) alloc: Global,
    /// Hashes sets of attributes in the maps of all streams.
    pub(crate) hasher: SetHashBuilder,
    pub(crate) shut: bool,
    pub(crate) resource: Resource,
    pub(crate) identity: u64,
    pub(crate) meters: IndexSet<InstrumentationScope>,
    pub(crate) instruments: Vec<Instrument>,
    pub(crate) pipelines: Vec<Pipeline>,
    /// The instrument of each live handle.
    pub(crate) handles: Links,
    /// How many handles were bound.
    pub(crate) next: u64,
}

impl Model for Core {
    ghost use Rattle.opentelemetry_sdk.specs.States.{CoreContents, IsSound};

    ghost Value = { CoreContents };

    ghost use Rattle.opentelemetry_sdk.specs.Cores.{contents_in, state_in};

    ghost view = { contents_in };

    ghost invariant = { λ c. IsSound (state_in c) };
}

impl Core {
    /// Makes the core of a provider before its first call. Takes no memory.
    ///
    /// The maps of its streams hash sets with this hasher, on whose seed no result depends. The map of handles has a fixed
    /// one, since its keys are the provider's own.
    pub fn new(
        alloc: Global,
        hasher: SetHashBuilder,
        resource: Resource,
        identity: u64,
        readers: NewReaders,
    ) -> Core
        ensures state { result.state ≡ new_state resource identity readers }
        ensures seeded { result.hash_seed ≡ hasher.seed }
    {
        let NewReaders { pipelines } = readers;
        Core {
            alloc,
            hasher,
            shut: false,
            resource,
            identity,
            meters: IndexSet::new(alloc),
            instruments: Vec::new(alloc),
            pipelines,
            handles: Links::new(alloc, SetHashBuilder::default()),
            next: 0,
        }
    }

    /// Does nothing. Its clauses say that the streams balance, and that the state is lawful, whatever was called before.
    #[inline(always)]
    pub fn law_of_state(&self)
        ensures balances { Balances self.now.state }
        ensures lawful { IsLawful self.now.state }
    {
        let _ = &self.pipelines;
    }

    /// Returns the identity.
    pub fn identity(&self) -> u64
        ensures { result ≡ self.now.state.shared.identity }
    {
        self.identity
    }

    /// Asks each reader to flush, unless the provider was shut down.
    pub fn force_flush<R: MetricReader>(&mut self, readers: &mut [R]) -> OTelSdkResult
        ensures step { (views : Views) → Step views self.old.state model.Call.Flush (reply_to result) self.new.state }
        ensures asked { AreReached R.flushes self.old.state.shared.shut readers.old readers.new result }
        ensures shut { self.new.state.shared.shut ≡ self.old.state.shared.shut }
        ensures seeded { self.new.hash_seed ≡ self.old.hash_seed }
        ensures wants { map (wanted_by R.preference R.limit R.aggregation) readers.new ≡ map (wanted_by R.preference R.limit R.aggregation) readers.old }
    {
        if self.shut {
            return Err(Fault::AlreadyShutdown);
        }
        flush_all(readers)
    }

    /// Shuts the provider down and asks each reader to shut down, unless it was shut down before.
    pub fn shutdown<R: MetricReader>(&mut self, readers: &mut [R]) -> OTelSdkResult
        ensures step { (views : Views) → Step views self.old.state model.Call.Shutdown (reply_to result) self.new.state }
        ensures asked { AreReached (ShutsDown R.shuts) self.old.state.shared.shut readers.old readers.new result }
        ensures shut { self.new.state.shared.shut ≡ true }
        ensures seeded { self.new.hash_seed ≡ self.old.hash_seed }
        ensures wants { map (wanted_by R.preference R.limit R.aggregation) readers.new ≡ map (wanted_by R.preference R.limit R.aggregation) readers.old }
    {
        if self.shut {
            return Err(Fault::AlreadyShutdown);
        }
        self.shut = true;
        shut_all(readers)
    }
}
