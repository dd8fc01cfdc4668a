//! Last values.

ghost use Rattle.std.specs.Prelude.{◌≡◌, false};
ghost use Rattle.otel_model_stream.specs.Folds.{LastValue as LastValueKind};
ghost use Rattle.otel_aggregate.specs.Data.{gauge_data};

use crate::aggregate_stream::AggregateStream;
use crate::aggregators::number::Number;
use crate::settings::AnySettings;
use crate::typed::{TypedAggregate, TypedStream};
use otel_common::faults::Fault;
use otel_data::gauges::Gauge;
use std::alloc::Global;

/// The last values of a stream's records, by set (Metrics SDK, "Last Value Aggregation"). There are no settings.
pub type LastValue<T> = TypedStream<T, LastValueAggregate>;

/// What keeps the last record.
pub struct LastValueAggregate {}

impl<T: Number + Drop> TypedAggregate<T> for LastValueAggregate {
    type Settings = ();

    type Data = Gauge<T>;

    ghost aggregate = { λ _. LastValueKind };

    ghost is_monotonic = { λ _. false };

    ghost collection = { λ now a. gauge_data T.of_bits T.of_wide now a };

    fn settings(_settings: ()) -> AnySettings {
        AnySettings::LastValue
    }

    fn collected(stream: &AggregateStream, alloc: Global, now: u64) -> Result<Gauge<T>, Fault> {
        stream.gauge_data(alloc, now)
    }
}
