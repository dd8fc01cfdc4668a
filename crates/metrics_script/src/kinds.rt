//! Kinds of instruments in a script.

ghost use Rattle.std.specs.Prelude.{◌≡◌};
ghost use Rattle.metrics_script.specs.Readers.{limit_name, aggregation_name};

use opentelemetry_sdk::metrics::InstrumentKind;

/// All kinds.
pub const KINDS: [InstrumentKind; 7] = [
    InstrumentKind::Counter,
    InstrumentKind::UpDownCounter,
    InstrumentKind::Histogram,
    InstrumentKind::ObservableCounter,
    InstrumentKind::ObservableUpDownCounter,
    InstrumentKind::Gauge,
    InstrumentKind::ObservableGauge,
];

/// Returns the name of the option for the kind's limit.
pub fn limit_name(kind: InstrumentKind) -> &'static str
    ensures { result.now ≡ limit_name kind }
{
    match kind {
        InstrumentKind::Counter => "limit:counter",
        InstrumentKind::UpDownCounter => "limit:updowncounter",
        InstrumentKind::Histogram => "limit:histogram",
        InstrumentKind::ObservableCounter => "limit:observablecounter",
        InstrumentKind::ObservableUpDownCounter => "limit:observableupdowncounter",
        InstrumentKind::Gauge => "limit:gauge",
        InstrumentKind::ObservableGauge => "limit:observablegauge",
    }
}

/// Returns the name of the option for the kind's aggregation.
pub fn aggregation_name(kind: InstrumentKind) -> &'static str
    ensures { result.now ≡ aggregation_name kind }
{
    match kind {
        InstrumentKind::Counter => "agg:counter",
        InstrumentKind::UpDownCounter => "agg:updowncounter",
        InstrumentKind::Histogram => "agg:histogram",
        InstrumentKind::ObservableCounter => "agg:observablecounter",
        InstrumentKind::ObservableUpDownCounter => "agg:observableupdowncounter",
        InstrumentKind::Gauge => "agg:gauge",
        InstrumentKind::ObservableGauge => "agg:observablegauge",
    }
}
