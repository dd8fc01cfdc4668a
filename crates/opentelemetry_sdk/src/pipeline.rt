//! One reader's part of a provider: its answers, its streams, and what feeds them.

ghost use Rattle.std.specs.Prelude.{◌≡◌, [], true, false, ℕ, IfOk, OnOk, OnErr, IsOk, IsOkUnless, map};
ghost use Rattle.std.specs.List.{AllByRecursion as EachOf};
ghost use Rattle.otel_model.specs.Calls as model;
ghost use Rattle.otel_model.specs.Machine.{part_after_call};
ghost use Rattle.otel_model.specs.Places.{Listed, IsPlaced};
ghost use Rattle.opentelemetry_sdk.specs.pipeline.Collections.{IsCollectedFrom};
ghost use Rattle.opentelemetry_sdk.specs.pipeline.Handles.{AreObservableFor, StandsFor};
ghost use Rattle.opentelemetry_sdk.specs.pipeline.Known.{is_known_at};
ghost use Rattle.opentelemetry_sdk.specs.pipeline.Observations.{AreTypedFor, observed_of};
ghost use Rattle.opentelemetry_sdk.specs.pipeline.Pipelines.{part_of, changed_by, has_stream_at, number_of, FeedsType, IsAlike, IsLawful, IsReadyFor};
ghost use Rattle.opentelemetry_sdk.specs.pipeline.Streams.{contents_after, contents_prepared};
ghost use Rattle.otel_aggregate.specs.Any.{is_signed_value};

use crate::pipeline::about::About;
use crate::pipeline::change::Change;
use crate::pipeline::each_stream::{change_each, prepare_each, prepare_known_each, streams_fed};
use crate::pipeline::metric_stream::MetricStream;
use crate::pipeline::observing::collect_observed;
use indexmap::IndexSet;
use otel_aggregate::value_map::hashed_key::GivenAttributes;
use otel_aggregate::value_map::hashing::SetHashBuilder;
use otel_common::faults::Fault;
use otel_common::lists::Items;
use otel_common::resource::Resource;
use otel_common::scopes::InstrumentationScope;
use otel_data::collections::ResourceMetrics;
use otel_data::numbers::NumberValue;
use otel_stream::answers::Answers;
use otel_stream::demand::Identity;
use otel_stream::laws::kind_laws;
use otel_stream::observation::Observed;
use std::alloc::{AllocError, Global};
use std::marker::Model;

pub mod about;
pub(crate) mod aggregations;
mod building;
pub(crate) mod change;
mod collecting;
pub mod defaults;
pub mod demands;
mod each_stream;
mod metric_stream;
mod observing;
mod vectors;

/// What one reader answered, its streams in order of making, and, for each instrument, the streams that it feeds.
pub struct Pipeline {
    pub(crate) alloc: Global,
    /// What sets of attributes are hashed with, as the last build said.
    pub(crate) hasher: SetHashBuilder,
    pub(crate) answers: Answers,
    pub(crate) identities: IndexSet<Identity>,
    /// A demand that drops has a place here too, so that its identity is known; nothing feeds it, and no collection
    /// shows it.
    pub(crate) streams: Vec<MetricStream>,
    feeds: Vec<Items<usize>>,
}

impl Model for Pipeline {
    ghost use Rattle.std.specs.Prelude.{◌≡◌, All};
    ghost use Rattle.std.specs.List.{AllByRecursion};
    ghost use Rattle.opentelemetry_sdk.specs.pipeline.Pipelines.{Piped, AreNumbers, AreAnswered, AreFedOnce, stream_identities};

    ghost Value = { Piped };

    ghost view = { λ p. record {
      answers = p.answers;
      streams = p.streams.items;
      feeds = p.feeds.items;
      hash_seed = p.hasher.seed;
    } };

    ghost invariant = { λ p. (p.identities.keys ≡ stream_identities p.streams.items) × All (AreNumbers p.streams.items) p.feeds.items × AreAnswered p.answers p.streams.items × AllByRecursion AreFedOnce p.feeds.items };
}

impl Drop for Pipeline {
    /// A function of its own, so that no proof about who lets one go looks into it.
    fn drop(self) {
        let Pipeline {
            alloc: _,
            hasher: _,
            answers: _answers,
            identities: _identities,
            streams: _streams,
            feeds: _feeds,
        } = self;
    }
}

impl Pipeline {
    /// Makes the pipeline of a reader with these answers, without streams. Takes no memory.
    pub fn new(alloc: Global, hasher: SetHashBuilder, answers: Answers) -> Pipeline
        ensures answers { result.answers ≡ answers }
        ensures streams { result.streams ≡ [] }
        ensures feeds { result.feeds ≡ [] }
    {
        Pipeline {
            alloc,
            hasher,
            answers,
            identities: IndexSet::new(alloc),
            streams: Vec::new(alloc),
            feeds: Vec::new(alloc),
        }
    }

    /// Does nothing. Its clause says that each stream is told by its identity.
    #[inline(always)]
    fn law_of_identities(&self)
        ensures { IsLawful self.now }
    {
        kind_laws();
        let _ = self.identities.len();
    }

    /// Whether an instrument feeds a stream of this reader.
    pub fn has_stream(&self, instrument: usize) -> bool
        ensures { result ≡ has_stream_at instrument (part_of self.now) }
    {
        !streams_fed(&self.feeds, instrument).is_empty()
    }

    /// Prepares a record with these attributes or, if `binds`, a bind, in the streams that the instrument feeds; for a
    /// bind it makes room for the handle there too. What the reader has stays unchanged.
    ///
    /// Looks the attributes up in each of these streams; `AggregateStream::prepare` tells when that takes memory.
    #[inline(always)]
    pub fn prepare(
        &mut self,
        instrument: usize,
        attributes: &GivenAttributes,
        binds: bool,
    ) -> Result<(), AllocError>
        ensures same { part_of self.new ≡ part_of self.old }
        ensures ready { OnOk result (IsReadyFor binds instrument attributes.now self.new) }
        ensures known { binds ≡ false → is_known_at instrument attributes.now (part_of self.old) ≡ true → IsOk result }
    {
        self.law_of_identities();
        prepare_each(
            &mut self.streams,
            streams_fed(&self.feeds, instrument),
            attributes,
            binds,
        )
    }

    /// Carries a change out in the streams that the instrument feeds, and returns the place of the handle that it bound in
    /// one of them; 0 if it bound none. Takes no memory, and looks no set up.
    #[inline(always)]
    pub fn change(&mut self, instrument: usize, change: Change<'_>) -> usize
        requires { IsAlike change }
        ensures streams { self.new ≡ changed_by (contents_after change.entry) instrument self.old }
        ensures lawful { IsLawful self.old }
        ensures part { (next : ℕ) (call : model.Call) → StandsFor instrument change.entry next call self.old → part_of self.new ≡ part_after_call next call (part_of self.old) }
    {
        self.law_of_identities();
        let feeds = streams_fed(&self.feeds, instrument);
        if feeds.len() == 1 {
            return self.streams[feeds[0]].change(change);
        }
        change_each(&mut self.streams, feeds, change)
    }

    /// Makes a record with these attributes in all streams that the instrument feeds or in none, in one pass if it feeds
    /// one stream. Out of line, so that a record without attributes is short.
    #[inline(never)]
    pub fn record(
        &mut self,
        instrument: usize,
        value: NumberValue,
        attributes: &GivenAttributes,
    ) -> Result<(), AllocError>
        requires { FeedsType instrument (is_signed_value value) (part_of self.old) }
        ensures ok { OnOk result (part_of self.new ≡ part_after_call 0 (model.Call.Record instrument (number_of value) attributes.now) (part_of self.old)) }
        ensures err { OnErr result (part_of self.new ≡ part_of self.old) }
        ensures known { is_known_at instrument attributes.now (part_of self.old) ≡ true → IsOk result }
    {
        self.law_of_identities();
        let feeds = streams_fed(&self.feeds, instrument);
        if feeds.len() == 1 {
            return self.streams[feeds[0]].record(value, attributes);
        }
        self.record_each(instrument, value, attributes)
    }

    /// Makes a record with these attributes in all streams that the instrument feeds or in none, in two passes. Hashes
    /// them once if several streams look them up.
    #[inline(never)]
    fn record_each(
        &mut self,
        instrument: usize,
        value: NumberValue,
        attributes: &GivenAttributes,
    ) -> Result<(), AllocError>
        requires { FeedsType instrument (is_signed_value value) (part_of self.old) }
        ensures ok { OnOk result (part_of self.new ≡ part_after_call 0 (model.Call.Record instrument (number_of value) attributes.now) (part_of self.old)) }
        ensures err { OnErr result (part_of self.new ≡ part_of self.old) }
        ensures known { is_known_at instrument attributes.now (part_of self.old) ≡ true → IsOk result }
    {
        let streams = streams_fed(&self.feeds, instrument).len();
        let given = attributes.hashed_for(streams, self.hasher);
        self.prepare(instrument, &given, false)?;
        self.change(instrument, Change::Prepared(value));
        Ok(())
    }

    /// Prepares a record with these attributes in the streams that the instrument feeds, beside those that are prepared, if
    /// the streams know the attributes, and answers whether they all do. What the reader has stays unchanged.
    pub fn prepare_known(&mut self, instrument: usize, attributes: &GivenAttributes) -> bool
        ensures ready { result ≡ true → self.new ≡ changed_by (contents_prepared attributes.now) instrument self.old }
        ensures known { result ≡ true → is_known_at instrument attributes.now (part_of self.old) ≡ true }
        ensures placed { result ≡ true → EachOf (IsPlaced (part_of self.old).feeds (Listed instrument attributes.now)) (part_of self.old).streams }
        ensures same { part_of self.new ≡ part_of self.old }
    {
        self.law_of_identities();
        let feeds = streams_fed(&self.feeds, instrument);
        prepare_known_each(&mut self.streams, feeds, attributes)
    }

    /// Takes in what was observed, and makes a collection at the moment `now`, in nanoseconds since 1970, for the
    /// resource and by the scopes of these meters. After that, the streams that reset start again, and those of
    /// observed sums are empty. If it fails, the observations are undone.
    ///
    /// Goes once over streams, points and meters. Copies the resource and the scopes, and also the entries of each
    /// stream that takes an observation in, for a draft. Shares the sets that are shown, and copies none.
    pub fn collect(
        &mut self,
        resource: &Resource,
        meters: &IndexSet<InstrumentationScope>,
        observations: &[Observed],
        now: u64,
    ) -> Result<ResourceMetrics, Fault>
        requires typed { AreTypedFor observations.now (part_of self.old) }
        requires observable { AreObservableFor observations.now (part_of self.old) }
        ensures collection { IfOk result (λ c. IsCollectedFrom resource.now meters.now.keys now (map observed_of observations.now) (part_of self.old) c) }
        ensures ok { OnOk result ((r : ℕ) → part_of self.new ≡ part_after_call 0 (model.Call.Collect r now (map observed_of observations.now)) (part_of self.old)) }
        ensures err { OnErr result (part_of self.new ≡ part_of self.old) }
        ensures only_memory { IsOkUnless result Fault.OutOfMemory }
    {
        self.law_of_identities();
        collect_observed(
            self.alloc,
            &mut self.streams,
            &self.feeds,
            resource,
            meters,
            observations,
            now,
        )
    }
}
