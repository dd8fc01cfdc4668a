//! Histograms.

ghost use Rattle.std.specs.Prelude.{◌≡◌, false};
ghost use Rattle.otel_model_stream.specs.Folds.{Histogram as HistogramKind};
ghost use Rattle.otel_aggregate.specs.Data.{histogram_data};

use crate::aggregate_stream::AggregateStream;
use crate::aggregators::number::Number;
use crate::settings::{AnySettings, HistogramSettings};
use crate::typed::{TypedAggregate, TypedStream};
use otel_common::faults::Fault;
use otel_data::histograms::Histogram as HistogramData;
use std::alloc::Global;

/// The histograms of a stream's records, by set (Metrics SDK, "Explicit Bucket Histogram Aggregation"). Without bounds
/// there are no buckets.
pub type Histogram<T> = TypedStream<T, HistogramAggregate>;

/// What counts records by bucket.
pub struct HistogramAggregate {}

impl<T: Number + Drop> TypedAggregate<T> for HistogramAggregate {
    type Settings = HistogramSettings;

    type Data = HistogramData<T>;

    ghost aggregate = { λ settings. HistogramKind settings.bounds settings.has_min_max settings.has_sum };

    ghost is_monotonic = { λ _. false };

    ghost collection = { λ now a. histogram_data T.of_bits T.of_wide now a };

    fn settings(settings: HistogramSettings) -> AnySettings {
        AnySettings::Histogram(settings)
    }

    fn collected(
        stream: &AggregateStream,
        alloc: Global,
        now: u64,
    ) -> Result<HistogramData<T>, Fault> {
        stream.histogram_data(alloc, now)
    }
}
