//! Synchronous instruments: counters, gauges and histograms to which a program hands values.

ghost use Rattle.std.specs.Prelude.{◌≡◌, true, false, Err, IfErr};
ghost use Rattle.otel_model.specs.Calls as model;
ghost use Rattle.otel_model.specs.Laws.{KeepsReaders};
ghost use Rattle.otel_model.specs.Steps.{Step};
ghost use Rattle.otel_model.specs.Lawful.{Balances};
ghost use Rattle.opentelemetry_sdk.specs.Checks.{has_stream};
ghost use Rattle.opentelemetry_sdk.specs.Correspondence.{number_of};
ghost use Rattle.opentelemetry_sdk.specs.Known.{is_known};
ghost use Rattle.opentelemetry_sdk.specs.Providers.{state_of, hash_seed_of, views_of, provider_readers, provider_views, callbacks_of};
ghost use Rattle.opentelemetry_sdk.specs.States.{IsNamed};
ghost use Rattle.opentelemetry_sdk.specs.Typed.{IsInstrumentOf, instrument_number, instrument_identity, record_reply};

use crate::parts::Parts;
use crate::provider::Provider;
use otel_aggregate::value_map::hashed_key::GivenAttributes;
use otel_common::attributes::KeyValue;
use otel_common::faults::Fault;
use otel_data::numbers::NumberType;
use std::marker::PhantomData;

/// Marks counters.
pub struct CounterKind;

/// Marks up-down counters.
pub struct UpDownCounterKind;

/// Marks gauges.
pub struct GaugeKind;

/// Marks histograms.
pub struct HistogramKind;

/// Marks the kinds of instruments that add values.
pub trait Adds {}

impl Adds for CounterKind {}

impl Adds for UpDownCounterKind {}

/// Marks the kinds of instruments that record values.
pub trait Records {}

impl Records for GaugeKind {}

impl Records for HistogramKind {}

/// An instrument of the kind that `K` marks, with values of type `T` (Metrics API, "Synchronous Instrument API").
///
/// It is the number of an instrument and the identity of its provider: small plain data, of which a copy is the same
/// instrument.
#[derive_where(Clone, Copy, Debug)]
pub struct Synchronous<K, T> {
    pub(crate) identity: u64,
    pub(crate) number: usize,
    pub(crate) of: PhantomData<(K, T)>,
}

/// An instrument that adds values that are never negative (Metrics API, "Counter").
pub type Counter<T> = Synchronous<CounterKind, T>;

/// An instrument that adds values of either sign (Metrics API, "UpDownCounter").
pub type UpDownCounter<T> = Synchronous<UpDownCounterKind, T>;

/// An instrument that keeps the last value (Metrics API, "Gauge").
pub type Gauge<T> = Synchronous<GaugeKind, T>;

/// An instrument that tells how values are distributed (Metrics API, "Histogram").
pub type Histogram<T> = Synchronous<HistogramKind, T>;

impl<K, T> Synchronous<K, T> {
    /// The number of the instrument, which `Call::Record` and `Call::Bind` take.
    pub fn number(&self) -> usize
        ensures { result ≡ instrument_number self.now }
    {
        self.number
    }

    /// The identity of the provider that it belongs to.
    pub fn identity(&self) -> u64
        ensures { result ≡ instrument_identity self.now }
    {
        self.identity
    }

    /// Whether any reader has a stream that the instrument feeds (Metrics API, "Enabled"): if not, its records go nowhere,
    /// and a program need not make their attributes. An instrument whose name, unit or bounds are bad has none, and none
    /// has one that a view drops at each reader. It stays as the build of the instrument left it.
    ///
    /// False if the instrument belongs to a provider of another identity. Goes once over the readers.
    pub fn enabled<P: Parts>(&self, provider: &Provider<P>) -> bool
        ensures own { IsInstrumentOf self.now provider.now → result ≡ has_stream (instrument_number self.now) (state_of provider.now) }
        ensures foreign { ¬ IsInstrumentOf self.now provider.now → result ≡ false }
    {
        self.identity == provider.core.identity() && provider.core.has_stream(self.number)
    }
}

impl<K: Adds, T: NumberType> Synchronous<K, T> {
    /// Adds a value, in the instrument's unit, with attributes in any order, as `step` does with `Call::Record`.
    ///
    /// Costs the same as that step, except that the attributes are borrowed. `known` says that it is never refused for
    /// want of memory if it makes no entry: each stream has one of the attributes, or is past its limit and has the
    /// overflow entry.
    ///
    /// Refused with `UnknownInstrument` if the instrument belongs to a provider of another identity, before anything
    /// else is checked. If two providers of one identity mix up their instruments, the call is refused with
    /// `UnknownInstrument`, `WrongKind` or `WrongNumber`, or goes to the instrument of the same number. Otherwise it is
    /// refused only for want of memory, and without attributes not even for that. A refused call changes nothing.
    pub fn add<P: Parts>(
        &self,
        provider: &mut Provider<P>,
        value: T,
        attributes: &[KeyValue],
    ) -> Result<(), Fault>
        ensures step { IsInstrumentOf self.now provider.old → Step (views_of P.View.answer provider.old) (state_of provider.old) (model.Call.Record (instrument_number self.now) (number_of (T.value value)) attributes.now) (record_reply result) (state_of provider.new) }
        ensures foreign { ¬ IsInstrumentOf self.now provider.old → (result ≡ Err Fault.UnknownInstrument) × (state_of provider.new ≡ state_of provider.old) }
        ensures known { is_known (instrument_number self.now) attributes.now (state_of provider.old) ≡ true → IfErr result IsNamed }
        ensures balances { Balances (state_of provider.new) }
        ensures seeded { hash_seed_of provider.new ≡ hash_seed_of provider.old }
        ensures readers { KeepsReaders (state_of provider.old) (state_of provider.new) }
        ensures kept { provider_readers provider.new ≡ provider_readers provider.old }
        ensures views { provider_views provider.new ≡ provider_views provider.old }
        ensures callbacks { callbacks_of provider.new ≡ callbacks_of provider.old }
    {
        let given = GivenAttributes::new(attributes);
        let made = provider
            .core
            .record(self.identity, self.number, value.into_value(), &given);
        provider.core.law_of_state();
        made
    }
}

impl<K: Records, T: NumberType> Synchronous<K, T> {
    /// Records a value, in the instrument's unit, with attributes in any order. Costs the same as `add`, and is refused
    /// in the same cases.
    pub fn record<P: Parts>(
        &self,
        provider: &mut Provider<P>,
        value: T,
        attributes: &[KeyValue],
    ) -> Result<(), Fault>
        ensures step { IsInstrumentOf self.now provider.old → Step (views_of P.View.answer provider.old) (state_of provider.old) (model.Call.Record (instrument_number self.now) (number_of (T.value value)) attributes.now) (record_reply result) (state_of provider.new) }
        ensures foreign { ¬ IsInstrumentOf self.now provider.old → (result ≡ Err Fault.UnknownInstrument) × (state_of provider.new ≡ state_of provider.old) }
        ensures known { is_known (instrument_number self.now) attributes.now (state_of provider.old) ≡ true → IfErr result IsNamed }
        ensures balances { Balances (state_of provider.new) }
        ensures seeded { hash_seed_of provider.new ≡ hash_seed_of provider.old }
        ensures readers { KeepsReaders (state_of provider.old) (state_of provider.new) }
        ensures kept { provider_readers provider.new ≡ provider_readers provider.old }
        ensures views { provider_views provider.new ≡ provider_views provider.old }
        ensures callbacks { callbacks_of provider.new ≡ callbacks_of provider.old }
    {
        let given = GivenAttributes::new(attributes);
        let made = provider
            .core
            .record(self.identity, self.number, value.into_value(), &given);
        provider.core.law_of_state();
        made
    }
}
