//! Sums.

ghost use Rattle.std.specs.Prelude.{◌≡◌};
ghost use Rattle.otel_model_stream.specs.Folds.{Sum as SumKind};
ghost use Rattle.otel_aggregate.specs.Data.{sum_data};

use crate::aggregate_stream::AggregateStream;
use crate::aggregators::number::Number;
use crate::settings::AnySettings;
use crate::typed::{TypedAggregate, TypedStream};
use otel_common::faults::Fault;
use otel_data::sums::Sum as SumData;
use std::alloc::Global;

/// The sums of a stream's records, by set (Metrics SDK, "Sum Aggregation"). The settings say whether only values of at
/// least 0 are added.
pub type Sum<T> = TypedStream<T, SumAggregate>;

/// What adds records up.
pub struct SumAggregate {}

impl<T: Number + Drop> TypedAggregate<T> for SumAggregate {
    type Settings = bool;

    type Data = SumData<T>;

    ghost aggregate = { λ _. SumKind };

    ghost is_monotonic = { λ is_monotonic. is_monotonic };

    ghost collection = { λ now a. sum_data T.of_bits T.of_wide now a };

    fn settings(is_monotonic: bool) -> AnySettings {
        AnySettings::Sum { is_monotonic }
    }

    fn collected(stream: &AggregateStream, alloc: Global, now: u64) -> Result<SumData<T>, Fault> {
        stream.sum_data(alloc, now)
    }
}
