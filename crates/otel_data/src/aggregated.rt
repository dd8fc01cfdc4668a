//! The points of one metric, of any aggregation and number type.

ghost use Rattle.std.specs.Prelude.{◌≡◌};
ghost use Rattle.otel_data.specs.Values.{kinds_of, parts_of};

use crate::gauges::Gauge;
use crate::histograms::Histogram;
use crate::sums::Sum;

/// The points of one metric, by the aggregation of its stream (Metrics data model, "Metric points").
#[derive(Clone, Debug)]
pub enum MetricData<T> {
    /// Points of a stream that keeps the last value.
    Gauge(Gauge<T>),
    /// Points of a stream that adds values up.
    Sum(Sum<T>),
    /// Points of a stream that keeps the distribution of values.
    Histogram(Histogram<T>),
}

impl<T: Drop> Drop for MetricData<T> {
    /// A function of its own, so that no proof about who lets one go looks into it.
    fn drop(self) {
        match self {
            MetricData::Gauge(_gauge) => {}
            MetricData::Sum(_sum) => {}
            MetricData::Histogram(_histogram) => {}
        }
    }
}

impl<T> MetricData<T> {
    /// Consumes the points and returns them by their aggregation: a gauge, or else a sum, or else a histogram. Takes no
    /// memory.
    pub fn into_parts(self) -> (Option<Gauge<T>>, Option<Sum<T>>, Option<Histogram<T>>)
    where
        T: Drop,
        ensures { result ≡ kinds_of self }
    {
        match self {
            MetricData::Gauge(gauge) => (Some(gauge), None, None),
            MetricData::Sum(sum) => (None, Some(sum), None),
            MetricData::Histogram(histogram) => (None, None, Some(histogram)),
        }
    }
}

impl<T> From<Gauge<T>> for MetricData<T> {
    ghost use Rattle.otel_data.specs.declared.aggregated.MetricData.TheVariants as made;

    ghost from_gives = { λ gauge points. points ≡ made.Gauge gauge };

    fn from(gauge: Gauge<T>) -> MetricData<T> {
        MetricData::Gauge(gauge)
    }
}

impl<T> From<Sum<T>> for MetricData<T> {
    ghost use Rattle.otel_data.specs.declared.aggregated.MetricData.TheVariants as made;

    ghost from_gives = { λ sum points. points ≡ made.Sum sum };

    fn from(sum: Sum<T>) -> MetricData<T> {
        MetricData::Sum(sum)
    }
}

impl<T> From<Histogram<T>> for MetricData<T> {
    ghost use Rattle.otel_data.specs.declared.aggregated.MetricData.TheVariants as made;

    ghost from_gives = { λ histogram points. points ≡ made.Histogram histogram };

    fn from(histogram: Histogram<T>) -> MetricData<T> {
        MetricData::Histogram(histogram)
    }
}

/// The points of one metric, of either number type (Metrics data model, "Metric points").
#[derive(Clone, Debug)]
pub enum AggregatedMetrics {
    /// Points of unsigned 64-bit integers.
    U64(MetricData<u64>),
    /// Points of signed 64-bit integers.
    I64(MetricData<i64>),
}

impl Drop for AggregatedMetrics {
    /// A function of its own, so that no proof about who lets one go looks into it.
    fn drop(self) {
        match self {
            AggregatedMetrics::U64(_data) => {}
            AggregatedMetrics::I64(_data) => {}
        }
    }
}

impl AggregatedMetrics {
    /// Consumes the points and returns them by their number type: those of `u64`, or else those of `i64`. Takes no memory.
    pub fn into_parts(self) -> (Option<MetricData<u64>>, Option<MetricData<i64>>)
        ensures { result ≡ parts_of self }
    {
        match self {
            AggregatedMetrics::U64(data) => (Some(data), None),
            AggregatedMetrics::I64(data) => (None, Some(data)),
        }
    }
}

impl From<MetricData<u64>> for AggregatedMetrics {
    ghost use Rattle.otel_data.specs.declared.aggregated.AggregatedMetrics.TheVariants as made;

    ghost from_gives = { λ points metrics. metrics ≡ made.U64 points };

    fn from(points: MetricData<u64>) -> AggregatedMetrics {
        AggregatedMetrics::U64(points)
    }
}

impl From<MetricData<i64>> for AggregatedMetrics {
    ghost use Rattle.otel_data.specs.declared.aggregated.AggregatedMetrics.TheVariants as made;

    ghost from_gives = { λ points metrics. metrics ≡ made.I64 points };

    fn from(points: MetricData<i64>) -> AggregatedMetrics {
        AggregatedMetrics::I64(points)
    }
}
