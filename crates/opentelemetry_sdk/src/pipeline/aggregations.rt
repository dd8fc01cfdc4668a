//! What a stream makes of its records, given its demand, and the tables of kinds that it follows.

ghost use Rattle.std.specs.Prelude.{◌≡◌, IfOk, IsOkUnless};
ghost use Rattle.otel_aggregate.specs.Any as any;
ghost use Rattle.otel_model.specs.Calls.{is_observable};
ghost use Rattle.otel_model.specs.Demands as demands;
ghost use Rattle.otel_model.specs.Demands.{resets};
ghost use Rattle.otel_model.specs.Streams.{aggregate_of, is_delta, is_drained, is_monotonic_kind};
ghost use Rattle.opentelemetry_sdk.specs.pipeline.Streams.{IsMakeable, asks_monotonic};

use otel_aggregate::aggregators::bounds::Bounds;
use otel_aggregate::settings::{AnySettings, HistogramSettings};
use otel_common::faults::Fault;
use otel_common::lists::SharedItems;
use otel_common::metrics::{Aggregation, Temporality};
use otel_stream::answers::Answers;
use otel_stream::demand::Demand;
use otel_stream::instrument::InstrumentKind;

/// Whether a demand with this aggregation drops its stream.
pub(crate) fn is_drop(aggregation: &Aggregation) -> bool
    ensures { result ≡ demands.is_drop aggregation.now }
{
    matches!(aggregation, Aggregation::Drop)
}

/// Whether an instrument of this kind is observable.
pub(crate) fn is_observable(kind: InstrumentKind) -> bool
    ensures { result ≡ is_observable kind }
{
    matches!(
        kind,
        InstrumentKind::ObservableCounter
            | InstrumentKind::ObservableUpDownCounter
            | InstrumentKind::ObservableGauge
    )
}

/// Whether the sums of a kind of instrument never fall.
fn is_monotonic(kind: InstrumentKind) -> bool
    ensures { result ≡ is_monotonic_kind kind }
{
    matches!(
        kind,
        InstrumentKind::Counter | InstrumentKind::Histogram | InstrumentKind::ObservableCounter
    )
}

/// The temporality of the stream of this demand at a reader with these answers. The last values of an asynchronous gauge
/// start again at each collection, whatever the reader answers.
pub(crate) fn temporality_of(answers: &Answers, demand: &Demand) -> Temporality
    ensures { resets result ≡ is_delta answers.now demand.now }
{
    match (&demand.aggregation, demand.identity.kind) {
        (Aggregation::LastValue, InstrumentKind::ObservableGauge) => Temporality::Delta,
        (_, kind) => answers.temporality(kind),
    }
}

/// What a stream of this demand makes of its records.
pub(crate) fn settings_of(demand: &Demand) -> Result<AnySettings, Fault>
    requires { IsMakeable demand.now }
    ensures aggregate { IfOk result (λ s. any.aggregate_of s ≡ aggregate_of demand.now) }
    ensures monotonic { IfOk result (λ s. any.is_monotonic_of s ≡ asks_monotonic demand.now) }
    ensures drains { IfOk result (λ s. any.drains_of s ≡ is_drained demand.now) }
    ensures only_memory { IsOkUnless result Fault.OutOfMemory }
{
    let kind = demand.identity.kind;
    match &demand.aggregation {
        Aggregation::LastValue => Ok(AnySettings::LastValue),
        Aggregation::ExplicitBucketHistogram {
            boundaries,
            record_min_max,
        } => {
            let boundaries = SharedItems::new(boundaries.clone()?.into_vec())?;
            let bounds = Bounds::new(boundaries).unwrap();
            Ok(AnySettings::Histogram(HistogramSettings {
                bounds,
                has_min_max: *record_min_max,
                has_sum: is_monotonic(kind) || matches!(kind, InstrumentKind::Gauge),
            }))
        }
        Aggregation::Sum
            if matches!(
                kind,
                InstrumentKind::ObservableCounter | InstrumentKind::ObservableUpDownCounter
            ) => {
            Ok(AnySettings::PrecomputedSum {
                is_monotonic: is_monotonic(kind),
            })
        }
        Aggregation::Sum | Aggregation::Drop | Aggregation::Default => Ok(AnySettings::Sum {
            is_monotonic: is_monotonic(kind),
        }),
    }
}
