//! Meters, and how a provider hands them out.

ghost use Rattle.std.specs.Prelude.{◌≡◌, [], None, true, IfOk, IsOk, IsOkUnless};
ghost use Rattle.std.specs.String.{string_bytes};
ghost use Rattle.otel_model.specs.Calls as model;
ghost use Rattle.otel_model.specs.Laws.{KeepsReaders};
ghost use Rattle.otel_model.specs.Sent.{has_scope};
ghost use Rattle.otel_model.specs.Steps.{Step};
ghost use Rattle.otel_model.specs.Lawful.{Balances};
ghost use Rattle.opentelemetry_sdk.specs.Correspondence.{about};
ghost use Rattle.opentelemetry_sdk.specs.Providers.{state_of, hash_seed_of, views_of, provider_readers, provider_views, callbacks_of};
ghost use Rattle.opentelemetry_sdk.specs.Typed.{IsMeterOf, meter_number, named_scope, meter_of, about_of, meter_observed, about_observed, builder_callbacks, meter_reply};
ghost use Rattle.opentelemetry_sdk.specs.declared.values.sorts.InstrumentSort.{InstrumentSort};

use crate::parts::Parts;
use crate::provider::Provider;
use crate::values::async_builders::AsyncInstrumentBuilder;
use crate::values::asynchronous::{
    ObservableCounterKind, ObservableGaugeKind, ObservableUpDownCounterKind,
};
use crate::values::builders::{HistogramBuilder, InstrumentBuilder};
use crate::values::sorts::InstrumentSort;
use crate::values::synchronous::{CounterKind, GaugeKind, UpDownCounterKind};
use otel_common::faults::Fault;
use otel_common::scopes::InstrumentationScope;
use std::alloc::Global;

/// A meter, which makes the instruments of a scope (Metrics API, "Meter").
///
/// It is the number of a meter and the identity of its provider: small plain data, of which a copy is the same meter. A
/// meter that a provider gives after a shutdown has no number, and its instruments ignore their records.
#[derive(Clone, Copy, Debug)]
pub struct Meter {
    pub(crate) identity: u64,
    pub(crate) number: Option<usize>,
}

/// Makes the scope of a name, with nothing else.
fn scope_named(alloc: Global, name: String) -> Result<InstrumentationScope, Fault>
    ensures scope { IfOk result (λ s. s ≡ named_scope (string_bytes name)) }
    ensures only_memory { IsOkUnless result Fault.OutOfMemory }
{
    InstrumentationScope::builder(alloc, name).build()
}

impl Meter {
    /// Returns a builder of a counter of `u64`, which adds values that are never negative. Takes no memory.
    pub fn u64_counter(&self, name: String) -> InstrumentBuilder<CounterKind, u64>
        ensures meter { meter_of result ≡ self.now }
        ensures about { about_of result ≡ about InstrumentSort.U64Counter (string_bytes name) None None None }
    {
        InstrumentBuilder::new(*self, InstrumentSort::U64Counter, name)
    }

    /// Returns a builder of a counter of `i64`, which adds values of either sign. Takes no memory.
    pub fn i64_up_down_counter(&self, name: String) -> InstrumentBuilder<UpDownCounterKind, i64>
        ensures meter { meter_of result ≡ self.now }
        ensures about { about_of result ≡ about InstrumentSort.I64UpDownCounter (string_bytes name) None None None }
    {
        InstrumentBuilder::new(*self, InstrumentSort::I64UpDownCounter, name)
    }

    /// Returns a builder of a gauge of `u64`, which keeps the last value. Takes no memory.
    pub fn u64_gauge(&self, name: String) -> InstrumentBuilder<GaugeKind, u64>
        ensures meter { meter_of result ≡ self.now }
        ensures about { about_of result ≡ about InstrumentSort.U64Gauge (string_bytes name) None None None }
    {
        InstrumentBuilder::new(*self, InstrumentSort::U64Gauge, name)
    }

    /// Returns a builder of a gauge of `i64`, which keeps the last value. Takes no memory.
    pub fn i64_gauge(&self, name: String) -> InstrumentBuilder<GaugeKind, i64>
        ensures meter { meter_of result ≡ self.now }
        ensures about { about_of result ≡ about InstrumentSort.I64Gauge (string_bytes name) None None None }
    {
        InstrumentBuilder::new(*self, InstrumentSort::I64Gauge, name)
    }

    /// Returns a builder of a histogram of `u64`, which tells how values are distributed. Takes no memory.
    pub fn u64_histogram(&self, name: String) -> HistogramBuilder<u64>
        ensures meter { meter_of result ≡ self.now }
        ensures about { about_of result ≡ about InstrumentSort.U64Histogram (string_bytes name) None None None }
    {
        InstrumentBuilder::new(*self, InstrumentSort::U64Histogram, name)
    }

    /// Returns a builder of an observable counter of `u64`, whose callbacks observe totals that never fall. Takes no
    /// memory.
    pub fn u64_observable_counter<P: Parts>(
        &self,
        name: String,
    ) -> AsyncInstrumentBuilder<ObservableCounterKind, u64, P>
        ensures meter { meter_observed result ≡ self.now }
        ensures about { about_observed result ≡ about InstrumentSort.U64ObservableCounter (string_bytes name) None None None }
        ensures callbacks { builder_callbacks result ≡ [] }
    {
        AsyncInstrumentBuilder::new(*self, InstrumentSort::U64ObservableCounter, name)
    }

    /// Returns a builder of an observable counter of `i64`, whose callbacks observe totals. Takes no memory.
    pub fn i64_observable_up_down_counter<P: Parts>(
        &self,
        name: String,
    ) -> AsyncInstrumentBuilder<ObservableUpDownCounterKind, i64, P>
        ensures meter { meter_observed result ≡ self.now }
        ensures about { about_observed result ≡ about InstrumentSort.I64ObservableUpDownCounter (string_bytes name) None None None }
        ensures callbacks { builder_callbacks result ≡ [] }
    {
        AsyncInstrumentBuilder::new(*self, InstrumentSort::I64ObservableUpDownCounter, name)
    }

    /// Returns a builder of an observable gauge of `u64`, whose callbacks observe values that don't add up. Takes no
    /// memory.
    pub fn u64_observable_gauge<P: Parts>(
        &self,
        name: String,
    ) -> AsyncInstrumentBuilder<ObservableGaugeKind, u64, P>
        ensures meter { meter_observed result ≡ self.now }
        ensures about { about_observed result ≡ about InstrumentSort.U64ObservableGauge (string_bytes name) None None None }
        ensures callbacks { builder_callbacks result ≡ [] }
    {
        AsyncInstrumentBuilder::new(*self, InstrumentSort::U64ObservableGauge, name)
    }

    /// Returns a builder of an observable gauge of `i64`, whose callbacks observe values that don't add up. Takes no
    /// memory.
    pub fn i64_observable_gauge<P: Parts>(
        &self,
        name: String,
    ) -> AsyncInstrumentBuilder<ObservableGaugeKind, i64, P>
        ensures meter { meter_observed result ≡ self.now }
        ensures about { about_observed result ≡ about InstrumentSort.I64ObservableGauge (string_bytes name) None None None }
        ensures callbacks { builder_callbacks result ≡ [] }
    {
        AsyncInstrumentBuilder::new(*self, InstrumentSort::I64ObservableGauge, name)
    }
}

impl<P: Parts> Provider<P> {
    /// Returns the meter of a scope (Metrics API, "Get a Meter"), as `step` does with `Call::Meter`. Equal scopes have
    /// one meter.
    ///
    /// Looks up the scope. A new one is copied and added; a known one takes no memory. Refused only for want of memory;
    /// then nothing changes. A provider that was shut down gives a meter without a number (`shut`), and adds none.
    pub fn meter_with_scope(&mut self, scope: InstrumentationScope) -> Result<Meter, Fault>
        ensures step { Step (views_of P.View.answer self.old) (state_of self.old) (model.Call.Meter scope) (meter_reply result) (state_of self.new) }
        ensures own { IfOk result (λ m. IsMeterOf m self.new) }
        ensures shut { (state_of self.old).shared.shut ≡ true → IfOk result (λ m. meter_number m ≡ None) }
        ensures known { has_scope scope (state_of self.old).shared.meters ≡ true → IsOk result }
        ensures balances { Balances (state_of self.new) }
        ensures seeded { hash_seed_of self.new ≡ hash_seed_of self.old }
        ensures readers { KeepsReaders (state_of self.old) (state_of self.new) }
        ensures kept { provider_readers self.new ≡ provider_readers self.old }
        ensures views { provider_views self.new ≡ provider_views self.old }
        ensures callbacks { callbacks_of self.new ≡ callbacks_of self.old }
    {
        let given = self.core.meter(&scope);
        self.core.law_of_state();
        Ok(Meter {
            identity: self.core.identity(),
            number: given?,
        })
    }

    /// Returns the meter of the scope that has this name and no version, schema URL or attributes. The empty name is a
    /// name like any other.
    ///
    /// The same as `meter_with_scope`, except that it also takes memory for the scope.
    pub fn meter(&mut self, name: &str) -> Result<Meter, Fault>
        ensures step { Step (views_of P.View.answer self.old) (state_of self.old) (model.Call.Meter (named_scope name.now)) (meter_reply result) (state_of self.new) }
        ensures own { IfOk result (λ m. IsMeterOf m self.new) }
        ensures shut { (state_of self.old).shared.shut ≡ true → IfOk result (λ m. meter_number m ≡ None) }
        ensures balances { Balances (state_of self.new) }
        ensures seeded { hash_seed_of self.new ≡ hash_seed_of self.old }
        ensures readers { KeepsReaders (state_of self.old) (state_of self.new) }
        ensures kept { provider_readers self.new ≡ provider_readers self.old }
        ensures views { provider_views self.new ≡ provider_views self.old }
        ensures callbacks { callbacks_of self.new ≡ callbacks_of self.old }
    {
        self.core.law_of_state();
        let alloc = *self.views.allocator();
        let name = String::from_str(alloc, name)?;
        let scope = scope_named(alloc, name)?;
        self.meter_with_scope(scope)
    }
}
