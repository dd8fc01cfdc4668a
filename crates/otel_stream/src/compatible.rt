//! Which aggregations can be used with a kind of instrument.

ghost use Rattle.std.specs.Prelude.{◌≡◌, IfErr, is_ok};
ghost use Rattle.otel_common.specs.Errors.{IsOther};
ghost use Rattle.otel_stream.specs.Compatible.{fits, incompatible_text};

use crate::instrument::InstrumentKind;
use otel_common::metrics::{Aggregation, MetricError};

const INCOMPATIBLE: &str = "incompatible aggregation";

/// Checks that an aggregation can be used with a kind of instrument: `Drop`, `Default` and histograms with all kinds,
/// `Sum` with all but gauges, `LastValue` with gauges alone (Metrics SDK, "Aggregation").
///
/// The error is `MetricError::Other`. Takes no memory.
pub fn is_aggregator_compatible(
    kind: InstrumentKind,
    aggregation: &Aggregation,
) -> Result<(), MetricError>
    ensures compatible { is_ok result ≡ fits kind aggregation.now }
    ensures fault { IfErr result (λ e. IsOther e incompatible_text) }
{
    if fits(kind, aggregation) {
        return Ok(());
    }
    Err(MetricError::Other(INCOMPATIBLE))
}

fn fits(kind: InstrumentKind, aggregation: &Aggregation) -> bool
    ensures { result ≡ fits kind aggregation.now }
{
    match aggregation {
        Aggregation::Drop => true,
        Aggregation::Default => true,
        Aggregation::ExplicitBucketHistogram { .. } => true,
        Aggregation::Sum => !is_gauge(kind),
        Aggregation::LastValue => is_gauge(kind),
    }
}

/// Whether the kind is a gauge, observable or not.
fn is_gauge(kind: InstrumentKind) -> bool
    ensures { result ≡ fits kind Aggregation.LastValue }
{
    match kind {
        InstrumentKind::Gauge => true,
        InstrumentKind::ObservableGauge => true,
        InstrumentKind::Counter => false,
        InstrumentKind::UpDownCounter => false,
        InstrumentKind::Histogram => false,
        InstrumentKind::ObservableCounter => false,
        InstrumentKind::ObservableUpDownCounter => false,
    }
}
