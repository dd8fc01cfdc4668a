//! Builders of instruments.

ghost use Rattle.std.specs.Prelude.{◌≡◌, Some, None, Err, IfOk, map};
ghost use Rattle.std.specs.String.{string_bytes};
ghost use Rattle.otel_model.specs.Calls as model;
ghost use Rattle.otel_model.specs.Laws.{KeepsReaders};
ghost use Rattle.otel_model.specs.Steps.{Step};
ghost use Rattle.otel_model.specs.Lawful.{Balances};
ghost use Rattle.opentelemetry_sdk.specs.Correspondence.{about, reply_from};
ghost use Rattle.opentelemetry_sdk.specs.Providers.{state_of, hash_seed_of, views_of, provider_readers, provider_views, callbacks_of};
ghost use Rattle.opentelemetry_sdk.specs.Typed.{IsMeterOf, IsInstrumentOf, meter_number, meter_of, about_of, build_reply};

use crate::parts::Parts;
use crate::pipeline::about::About;
use crate::provider::Provider;
use crate::provider_core::Core;
use crate::values::meters::Meter;
use crate::values::sorts::InstrumentSort;
use crate::values::synchronous::{HistogramKind, Synchronous};
use otel_common::faults::Fault;
use otel_common::lists::Items;
use otel_common::strings::StringValue;
use otel_stream::view::View;
use std::marker::PhantomData;

/// Builds an instrument of the kind that `K` marks, with values of type `T` (Metrics API, "Instrument").
#[derive_where(Debug)]
pub struct InstrumentBuilder<K, T> {
    pub(crate) meter: Meter,
    sort: InstrumentSort,
    name: StringValue,
    description: Option<StringValue>,
    unit: Option<StringValue>,
    boundaries: Option<Items<i64>>,
    of: PhantomData<(K, T)>,
}

impl<K, T> Drop for InstrumentBuilder<K, T> {
    /// A function of its own, so that no proof about who lets one go looks into it.
    fn drop(self) {
        let InstrumentBuilder {
            meter: _meter,
            sort: _,
            name: _name,
            description: _description,
            unit: _unit,
            boundaries: _boundaries,
            of: _,
        } = self;
    }
}

/// Builds a histogram.
pub type HistogramBuilder<T> = InstrumentBuilder<HistogramKind, T>;

impl<K, T> InstrumentBuilder<K, T> {
    /// Makes a builder in which only the name is set.
    pub(crate) fn new(meter: Meter, sort: InstrumentSort, name: String) -> InstrumentBuilder<K, T>
        ensures meter { meter_of result ≡ meter }
        ensures about { about_of result ≡ about sort (string_bytes name) None None None }
    {
        InstrumentBuilder {
            meter,
            sort,
            name: name.into(),
            description: None,
            unit: None,
            boundaries: None,
            of: PhantomData,
        }
    }

    /// Sets the instrument's description, in place of an earlier one. Takes no memory.
    pub fn with_description(self, description: String) -> Self
        ensures meter { meter_of result ≡ meter_of self }
        ensures about { about_of result ≡ record (about_of self) { description = Some (string_bytes description) } }
    {
        let mut builder = self;
        builder.description = Some(description.into());
        builder
    }

    /// Sets the instrument's unit, in place of an earlier one: at most 63 ASCII characters, otherwise the instrument
    /// ignores its records. Takes no memory.
    pub fn with_unit(self, unit: String) -> Self
        ensures meter { meter_of result ≡ meter_of self }
        ensures about { about_of result ≡ record (about_of self) { unit = Some (string_bytes unit) } }
    {
        let mut builder = self;
        builder.unit = Some(unit.into());
        builder
    }

    /// Makes the instrument at the moment `now`, in nanoseconds since 1970, as `step` does with `Call::Build` and at
    /// the same cost.
    ///
    /// Refused with `UnknownMeter` if the meter belongs to a provider of another identity, before anything else is
    /// checked, or if the provider has no such meter; otherwise only for want of memory. A refused call changes
    /// nothing.
    pub fn build<P: Parts>(
        self,
        provider: &mut Provider<P>,
        now: u64,
    ) -> Result<Synchronous<K, T>, Fault>
        ensures step { IsMeterOf (meter_of self) provider.old → Step (views_of P.View.answer provider.old) (state_of provider.old) (model.Call.Build (meter_number (meter_of self)) (about_of self) now) (build_reply result) (state_of provider.new) }
        ensures foreign { ¬ IsMeterOf (meter_of self) provider.old → (result ≡ Err Fault.UnknownMeter) × (state_of provider.new ≡ state_of provider.old) }
        ensures own { IfOk result (λ i. IsInstrumentOf i provider.new) }
        ensures balances { Balances (state_of provider.new) }
        ensures seeded { hash_seed_of provider.new ≡ hash_seed_of provider.old }
        ensures readers { KeepsReaders (state_of provider.old) (state_of provider.new) }
        ensures kept { provider_readers provider.new ≡ provider_readers provider.old }
        ensures views { provider_views provider.new ≡ provider_views provider.old }
        ensures callbacks { callbacks_of provider.new ≡ callbacks_of provider.old }
    {
        let number = self.make(&mut provider.core, &provider.views, now)?;
        Ok(Synchronous {
            identity: self.meter.identity,
            number,
            of: PhantomData,
        })
    }

    /// Makes the instrument and returns its number.
    pub(crate) fn make<V: View>(
        &self,
        core: &mut Core,
        views: &[V],
        now: u64,
    ) -> Result<usize, Fault>
        ensures step { (meter_of self.now).identity ≡ core.old.state.shared.identity → Step (map V.answer views.now) core.old.state (model.Call.Build (meter_number (meter_of self.now)) (about_of self.now) now) (reply_from model.Reply.Instrument result) core.new.state }
        ensures foreign { ¬ ((meter_of self.now).identity ≡ core.old.state.shared.identity) → (result ≡ Err Fault.UnknownMeter) × (core.new.state ≡ core.old.state) }
        ensures identity { core.new.state.shared.identity ≡ core.old.state.shared.identity }
        ensures balances { Balances core.new.state }
        ensures seeded { core.new.hash_seed ≡ core.old.hash_seed }
        ensures readers { KeepsReaders core.old.state core.new.state }
    {
        let about = About {
            kind: self.sort.kind(),
            signed: self.sort.is_signed(),
            name: &self.name,
            description: &self.description,
            unit: &self.unit,
            bounds: &self.boundaries,
        };
        let Meter { identity, number } = self.meter;
        let built = core.build(views, identity, number, self.sort, &about, now);
        core.law_of_state();
        built
    }
}

impl<T> InstrumentBuilder<HistogramKind, T> {
    /// Sets the bounds of the histogram's buckets, in its unit, in place of earlier ones and of the default ones. Each
    /// must be greater than the one before it, otherwise the histogram ignores its records. Takes no memory.
    pub fn with_boundaries(self, boundaries: Vec<i64>) -> Self
        ensures meter { meter_of result ≡ meter_of self }
        ensures about { about_of result ≡ record (about_of self) { bounds = Some boundaries.items } }
    {
        let mut builder = self;
        builder.boundaries = Some(Items::from(boundaries));
        builder
    }
}
