//! Meters, builders of instruments, synchronous instruments, and the checks of names, units and bounds.

pub use crate::laws::{copied_instruments, copied_meter, copied_observables, keeps_identity};
pub use crate::provider_core::instrument_checks::{
    validate_bucket_boundaries, validate_instrument_name, validate_instrument_unit,
};
pub use crate::values::async_builders::AsyncInstrumentBuilder;
pub use crate::values::asynchronous::{
    Asynchronous, ObservableCounter, ObservableCounterKind, ObservableGauge, ObservableGaugeKind,
    ObservableUpDownCounter, ObservableUpDownCounterKind,
};
pub use crate::values::bound::{Bound, Kept};
pub use crate::values::builders::{HistogramBuilder, InstrumentBuilder};
pub use crate::values::meters::Meter;
pub use crate::values::synchronous::{
    Adds, Counter, CounterKind, Gauge, GaugeKind, Histogram, HistogramKind, Records, Synchronous,
    UpDownCounter, UpDownCounterKind,
};
pub use otel_data::numbers::NumberType;
