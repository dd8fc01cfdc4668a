//! Observable instruments: counters and gauges whose values come from callbacks.

ghost use Rattle.std.specs.Prelude.{◌≡◌, false};
ghost use Rattle.opentelemetry_sdk.specs.Checks.{has_stream};
ghost use Rattle.opentelemetry_sdk.specs.Providers.{state_of};
ghost use Rattle.opentelemetry_sdk.specs.Typed.{IsObservableOf, observable_number};

use crate::parts::Parts;
use crate::provider::Provider;
use std::marker::PhantomData;

/// Marks observable counters.
pub struct ObservableCounterKind;

/// Marks observable up-down counters.
pub struct ObservableUpDownCounterKind;

/// Marks observable gauges.
pub struct ObservableGaugeKind;

/// An observable instrument of the kind that `K` marks, with values of type `T` (Metrics API, "Asynchronous Instrument
/// API").
///
/// It is the number of an instrument and the identity of its provider: small plain data, of which a copy is the same
/// instrument. It takes in no records; its callbacks observe its values.
#[derive_where(Clone, Copy, Debug)]
pub struct Asynchronous<K, T> {
    pub(crate) identity: u64,
    pub(crate) number: usize,
    pub(crate) of: PhantomData<(K, T)>,
}

/// An instrument whose callbacks observe totals that never fall (Metrics API, "Asynchronous Counter").
pub type ObservableCounter<T> = Asynchronous<ObservableCounterKind, T>;

/// An instrument whose callbacks observe totals (Metrics API, "Asynchronous UpDownCounter").
pub type ObservableUpDownCounter<T> = Asynchronous<ObservableUpDownCounterKind, T>;

/// An instrument whose callbacks observe values that don't add up (Metrics API, "Asynchronous Gauge").
pub type ObservableGauge<T> = Asynchronous<ObservableGaugeKind, T>;

impl<K, T> Asynchronous<K, T> {
    /// Whether any reader has a stream that the instrument feeds (Metrics API, "Enabled"): if not, its callbacks never run.
    /// An instrument whose name or unit is bad has none, and none has one that a view drops at each reader.
    ///
    /// False if the instrument belongs to a provider of another identity. Goes once over the readers.
    pub fn enabled<P: Parts>(&self, provider: &Provider<P>) -> bool
        ensures own { IsObservableOf self.now provider.now → result ≡ has_stream (observable_number self.now) (state_of provider.now) }
        ensures foreign { ¬ IsObservableOf self.now provider.now → result ≡ false }
    {
        self.identity == provider.core.identity() && provider.core.has_stream(self.number)
    }
}
