//! Builders of observable instruments.

ghost use Rattle.std.specs.Prelude.{◌≡◌, ◌≤◌, ◌+◌, ◌++◌, ◌∷◌, [], length, map, vec_len, vec_capacity, Some, None, Err, IfOk, OnErr, IsOkUnless};
ghost use Rattle.std.specs.String.{string_bytes};
ghost use Rattle.otel_stream.specs.declared.registered.Callback.TheVariants.{U64, I64};
ghost use Rattle.otel_model.specs.Calls as model;
ghost use Rattle.otel_model.specs.Laws.{KeepsReaders};
ghost use Rattle.otel_model.specs.Steps.{Step};
ghost use Rattle.otel_model.specs.Lawful.{Balances};
ghost use Rattle.opentelemetry_sdk.specs.Callbacks.{registered_callback, added_callbacks};
ghost use Rattle.opentelemetry_sdk.specs.Correspondence.{about};
ghost use Rattle.opentelemetry_sdk.specs.Providers.{state_of, hash_seed_of, views_of, provider_readers, provider_views, callbacks_of};
ghost use Rattle.opentelemetry_sdk.specs.Typed.{IsMeterOf, IsObservableOf, meter_number, meter_observed, about_observed, builder_callbacks, observable_number, observed_reply};

use crate::parts::Parts;
use crate::provider::Provider;
use crate::values::asynchronous::Asynchronous;
use crate::values::builders::InstrumentBuilder;
use crate::values::meters::Meter;
use crate::values::sorts::InstrumentSort;
use otel_common::faults::Fault;
use otel_stream::registered::{Callback, Registered};
use std::marker::PhantomData;

/// Builds an observable instrument of the kind that `K` marks, with values of type `T`, at a provider with the parts
/// `P` (Metrics API, "Asynchronous Instrument API").
pub struct AsyncInstrumentBuilder<K, T, P: Parts> {
    builder: InstrumentBuilder<K, T>,
    callbacks: Vec<Callback<P::ObserveU64, P::ObserveI64>>,
}

impl<K, T, P: Parts> Drop for AsyncInstrumentBuilder<K, T, P> {
    /// A function of its own, so that no proof about who lets one go looks into it.
    fn drop(self) {
        let AsyncInstrumentBuilder {
            builder: _builder,
            callbacks: _callbacks,
        } = self;
    }
}

/// Registers the callbacks of an instrument. There must be room for them.
fn register<U: Drop, I: Drop>(
    into: &mut Vec<Registered<U, I>>,
    instrument: usize,
    callbacks: Vec<Callback<U, I>>,
)
    requires { vec_len into.old + length callbacks.items ≤ vec_capacity into.old }
    ensures { into.new.items ≡ into.old.items ++ map (registered_callback instrument) callbacks.items }
{
    for callback in callbacks {
        into.push_reserved(Registered {
            instrument,
            callback,
        });
    }
}

impl<K, T, P: Parts> AsyncInstrumentBuilder<K, T, P> {
    /// Makes a builder in which only the name is set.
    pub(crate) fn new(
        meter: Meter,
        sort: InstrumentSort,
        name: String,
    ) -> AsyncInstrumentBuilder<K, T, P>
        ensures meter { meter_observed result ≡ meter }
        ensures about { about_observed result ≡ about sort (string_bytes name) None None None }
        ensures callbacks { builder_callbacks result ≡ [] }
    {
        let callbacks = Vec::new(*name.allocator());
        AsyncInstrumentBuilder {
            builder: InstrumentBuilder::new(meter, sort, name),
            callbacks,
        }
    }

    /// Sets the instrument's description, in place of an earlier one. Takes no memory.
    pub fn with_description(self, description: String) -> Self
        ensures meter { meter_observed result ≡ meter_observed self }
        ensures about { about_observed result ≡ record (about_observed self) { description = Some (string_bytes description) } }
        ensures callbacks { builder_callbacks result ≡ builder_callbacks self }
    {
        let AsyncInstrumentBuilder { builder, callbacks } = self;
        AsyncInstrumentBuilder {
            builder: builder.with_description(description),
            callbacks,
        }
    }

    /// Sets the instrument's unit, in place of an earlier one: at most 63 ASCII characters, otherwise the instrument
    /// ignores what is observed. Takes no memory.
    pub fn with_unit(self, unit: String) -> Self
        ensures meter { meter_observed result ≡ meter_observed self }
        ensures about { about_observed result ≡ record (about_observed self) { unit = Some (string_bytes unit) } }
        ensures callbacks { builder_callbacks result ≡ builder_callbacks self }
    {
        let AsyncInstrumentBuilder { builder, callbacks } = self;
        AsyncInstrumentBuilder {
            builder: builder.with_unit(unit),
            callbacks,
        }
    }

    /// Makes the instrument at the moment `now`, in nanoseconds since 1970, as `step` does with `Call::Build`.
    ///
    /// If at least one reader has a stream of the instrument, its callbacks are registered after those of instruments
    /// built before; otherwise they are dropped. Costs the same as that step, plus room for the callbacks and a look at
    /// what the instrument feeds at each reader.
    ///
    /// Refused with `UnknownMeter` if the meter belongs to a provider of another identity, before anything else is
    /// checked, or if the provider has no such meter; otherwise only for want of memory. A refused call changes
    /// nothing.
    pub fn build(self, provider: &mut Provider<P>, now: u64) -> Result<Asynchronous<K, T>, Fault>
        ensures step { IsMeterOf (meter_observed self) provider.old → Step (views_of P.View.answer provider.old) (state_of provider.old) (model.Call.Build (meter_number (meter_observed self)) (about_observed self) now) (observed_reply result) (state_of provider.new) }
        ensures foreign { ¬ IsMeterOf (meter_observed self) provider.old → (result ≡ Err Fault.UnknownMeter) × (state_of provider.new ≡ state_of provider.old) }
        ensures own { IfOk result (λ i. IsObservableOf i provider.new) }
        ensures registered { IfOk result (λ i. callbacks_of provider.new ≡ callbacks_of provider.old ++ added_callbacks (observable_number i) (state_of provider.new) (builder_callbacks self)) }
        ensures unregistered { OnErr result (callbacks_of provider.new ≡ callbacks_of provider.old) }
        ensures balances { Balances (state_of provider.new) }
        ensures seeded { hash_seed_of provider.new ≡ hash_seed_of provider.old }
        ensures readers { KeepsReaders (state_of provider.old) (state_of provider.new) }
        ensures kept { provider_readers provider.new ≡ provider_readers provider.old }
        ensures views { provider_views provider.new ≡ provider_views provider.old }
    {
        let AsyncInstrumentBuilder { builder, callbacks } = self;
        let Meter { identity, number } = builder.meter;
        provider.core.law_of_state();
        provider.core.check_meter(identity, number)?;
        provider.callbacks.reserve(callbacks.len())?;
        let number = builder.make(&mut provider.core, &provider.views, now)?;
        if provider.core.has_stream(number) {
            register(&mut provider.callbacks, number, callbacks);
        }
        Ok(Asynchronous {
            identity,
            number,
            of: PhantomData,
        })
    }
}

impl<K, P: Parts> AsyncInstrumentBuilder<K, u64, P> {
    /// Adds a callback, which a collection runs after those added before. Refused only for want of memory; then the
    /// builder is dropped.
    pub fn with_callback(self, callback: P::ObserveU64) -> Result<Self, Fault>
        ensures meter { IfOk result (λ b. meter_observed b ≡ meter_observed self) }
        ensures about { IfOk result (λ b. about_observed b ≡ about_observed self) }
        ensures callbacks { IfOk result (λ b. builder_callbacks b ≡ builder_callbacks self ++ U64 callback ∷ []) }
        ensures only_memory { IsOkUnless result Fault.OutOfMemory }
    {
        let AsyncInstrumentBuilder {
            builder,
            mut callbacks,
        } = self;
        callbacks.push(Callback::U64(callback))?;
        Ok(AsyncInstrumentBuilder { builder, callbacks })
    }
}

impl<K, P: Parts> AsyncInstrumentBuilder<K, i64, P> {
    /// Adds a callback, which a collection runs after those added before. Refused only for want of memory; then the
    /// builder is dropped.
    pub fn with_callback(self, callback: P::ObserveI64) -> Result<Self, Fault>
        ensures meter { IfOk result (λ b. meter_observed b ≡ meter_observed self) }
        ensures about { IfOk result (λ b. about_observed b ≡ about_observed self) }
        ensures callbacks { IfOk result (λ b. builder_callbacks b ≡ builder_callbacks self ++ I64 callback ∷ []) }
        ensures only_memory { IsOkUnless result Fault.OutOfMemory }
    {
        let AsyncInstrumentBuilder {
            builder,
            mut callbacks,
        } = self;
        callbacks.push(Callback::I64(callback))?;
        Ok(AsyncInstrumentBuilder { builder, callbacks })
    }
}
