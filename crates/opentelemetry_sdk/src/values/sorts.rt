//! The sorts of instruments that builds make.

ghost use Rattle.std.specs.Prelude.{◌≡◌};
ghost use Rattle.otel_model.specs.Calls.{is_observable};
ghost use Rattle.opentelemetry_sdk.specs.Correspondence.{kind_of, is_signed};

use crate::pipeline::aggregations::is_observable;
use otel_stream::instrument::InstrumentKind;

/// What a build makes: an instrument of some kind, with values of some type (Metrics API, "Instrument").
#[derive(Clone, Copy, Debug, PartialEq, Eq, Hash)]
pub enum InstrumentSort {
    /// A counter of `u64`, which adds values that are never negative.
    U64Counter,
    /// An observable counter of `u64`, whose observed sums never fall.
    U64ObservableCounter,
    /// A counter of `i64`, which adds values of either sign.
    I64UpDownCounter,
    /// An observable counter of `i64`, whose observed sums may have either sign.
    I64ObservableUpDownCounter,
    /// A gauge of `u64`, which keeps the last value.
    U64Gauge,
    /// A gauge of `i64`, which keeps the last value.
    I64Gauge,
    /// An observable gauge of `u64`, which keeps the last value observed.
    U64ObservableGauge,
    /// An observable gauge of `i64`, which keeps the last value observed.
    I64ObservableGauge,
    /// A histogram of `u64`, which tells how values are distributed.
    U64Histogram,
}

impl InstrumentSort {
    /// Returns the kind of the instrument.
    pub fn kind(self) -> InstrumentKind
        ensures { result ≡ kind_of self }
    {
        match self {
            InstrumentSort::U64Counter => InstrumentKind::Counter,
            InstrumentSort::U64ObservableCounter => InstrumentKind::ObservableCounter,
            InstrumentSort::I64UpDownCounter => InstrumentKind::UpDownCounter,
            InstrumentSort::I64ObservableUpDownCounter => InstrumentKind::ObservableUpDownCounter,
            InstrumentSort::U64Gauge => InstrumentKind::Gauge,
            InstrumentSort::I64Gauge => InstrumentKind::Gauge,
            InstrumentSort::U64ObservableGauge => InstrumentKind::ObservableGauge,
            InstrumentSort::I64ObservableGauge => InstrumentKind::ObservableGauge,
            InstrumentSort::U64Histogram => InstrumentKind::Histogram,
        }
    }

    /// Returns whether its values are of type `i64`; otherwise they are of type `u64`.
    pub fn is_signed(self) -> bool
        ensures { result ≡ is_signed self }
    {
        match self {
            InstrumentSort::U64Counter => false,
            InstrumentSort::U64ObservableCounter => false,
            InstrumentSort::I64UpDownCounter => true,
            InstrumentSort::I64ObservableUpDownCounter => true,
            InstrumentSort::U64Gauge => false,
            InstrumentSort::I64Gauge => true,
            InstrumentSort::U64ObservableGauge => false,
            InstrumentSort::I64ObservableGauge => true,
            InstrumentSort::U64Histogram => false,
        }
    }

    /// Returns whether it is observed at collections; otherwise it takes in records.
    pub fn is_observable(self) -> bool
        ensures { result ≡ is_observable (kind_of self) }
    {
        is_observable(self.kind())
    }
}
