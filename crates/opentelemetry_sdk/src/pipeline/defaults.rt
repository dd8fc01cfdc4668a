//! The aggregation of a stream if no view gives one (Metrics SDK, "MetricReader").

ghost use Rattle.std.specs.Prelude.{◌≡◌, IfOk, IsOkUnless};
ghost use Rattle.otel_model.specs.Demands.{is_valid, kind_default, reader_default};

use otel_common::bounds::is_rising;
use otel_common::faults::Fault;
use otel_common::laws::copied_aggregation;
use otel_common::lists::Items;
use otel_common::metrics::Aggregation;
use otel_stream::answers::Answers;
use otel_stream::compatible::is_aggregator_compatible;
use otel_stream::instrument::InstrumentKind;
use std::alloc::Global;

/// Whether the aggregation's bounds rise, if it has any.
pub fn is_valid(aggregation: &Aggregation) -> bool
    ensures { result ≡ is_valid aggregation.now }
{
    match aggregation {
        Aggregation::ExplicitBucketHistogram { boundaries, .. } => is_rising(boundaries.as_slice()),
        _ => true,
    }
}

/// The aggregation of a kind if nothing else is asked for. Takes memory for a histogram.
pub fn kind_default(alloc: Global, kind: InstrumentKind) -> Result<Aggregation, Fault>
    ensures aggregation { IfOk result (λ made. made ≡ kind_default kind) }
    ensures only_memory { IsOkUnless result Fault.OutOfMemory }
{
    match kind {
        InstrumentKind::Histogram => {
            let bounds = vec![in alloc;
                0i64, 5, 10, 25, 50, 75, 100, 250, 500, 750, 1000, 2500, 5000, 7500, 10000,
            ]?;
            Ok(Aggregation::ExplicitBucketHistogram {
                boundaries: Items::from(bounds),
                record_min_max: true,
            })
        }
        InstrumentKind::Gauge | InstrumentKind::ObservableGauge => Ok(Aggregation::LastValue),
        _ => Ok(Aggregation::Sum),
    }
}

/// The aggregation of a kind at a reader: what the reader wants, if that can be used, or else the kind's own.
pub fn reader_default(
    alloc: Global,
    answers: &Answers,
    kind: InstrumentKind,
) -> Result<Aggregation, Fault>
    ensures aggregation { IfOk result (λ made. made ≡ reader_default answers.now kind) }
    ensures only_memory { IsOkUnless result Fault.OutOfMemory }
{
    copied_aggregation();
    match answers.aggregation(kind) {
        None | Some(Aggregation::Default) => kind_default(alloc, kind),
        Some(wanted) if is_valid(wanted) && is_aggregator_compatible(kind, wanted).is_ok() => {
            Ok(wanted.clone()?)
        }
        Some(_) => kind_default(alloc, kind),
    }
}
