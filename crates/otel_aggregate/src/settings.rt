//! What a stream makes of its records.

ghost use Rattle.std.specs.Prelude.{◌≡◌, ◌+◌, true, fold};
ghost use Rattle.otel_model_stream.specs.Data.{rises};
ghost use Rattle.otel_model_stream.specs.Folds.{bounds_of, empty_of, sample_of, wrap};
ghost use Rattle.otel_model_stream.specs.Totals.{size};
ghost use Rattle.otel_aggregate.specs.Any.{aggregate_of, amount_of, is_monotonic_of, drains_of};
ghost use Rattle.otel_aggregate.specs.AnyKept.{empty_for, sample_in};

use crate::aggregators::bounds::Bounds;
use crate::aggregators::buckets::BucketsConfig;
use crate::any_aggregator::{AnyConfig, AnyRecord};
use crate::values::bits_of;
use otel_data::numbers::NumberValue;

/// The bounds of a histogram's buckets, and what it keeps besides their counts.
#[derive(Drop)]
pub struct HistogramSettings {
    pub bounds: Bounds,
    /// Whether the least and the greatest value are kept.
    pub has_min_max: bool,
    /// Whether a sum is kept; if not, it is 0.
    pub has_sum: bool,
}

/// What a stream makes of its records (Metrics SDK, "Aggregation").
#[derive(Drop)]
pub enum AnySettings {
    /// Adds them up.
    Sum {
        /// Whether only values of at least 0 are added.
        is_monotonic: bool,
    },
    /// Keeps the last one of values that were already summed when they were observed, and forgets all at each
    /// collection.
    PrecomputedSum {
        /// Whether only values of at least 0 are added.
        is_monotonic: bool,
    },
    /// Keeps the last one.
    LastValue,
    /// Counts them by bucket.
    Histogram(HistogramSettings),
}

impl AnySettings {
    /// What the aggregator of a set is made from.
    pub(crate) fn config(&self) -> AnyConfig
        ensures { empty_for result ≡ empty_of (aggregate_of self.now) }
    {
        match self {
            AnySettings::Sum { is_monotonic: _ } => AnyConfig::Sum,
            AnySettings::PrecomputedSum { is_monotonic: _ } => AnyConfig::LastValue,
            AnySettings::LastValue => AnyConfig::LastValue,
            AnySettings::Histogram(settings) => AnyConfig::Histogram(BucketsConfig {
                number: settings.bounds.number_of_buckets(),
                has_min_max: settings.has_min_max,
                has_sum: settings.has_sum,
            }),
        }
    }

    /// The bounds of its buckets; none unless it is a histogram.
    pub(crate) fn bounds(&self) -> &[i64]
        ensures value { result.now ≡ bounds_of (aggregate_of self.now) }
        ensures rising { rises result.now ≡ true }
    {
        match self {
            AnySettings::Histogram(settings) => settings.bounds.as_slice(),
            _ => &[],
        }
    }

    /// The record that a value makes.
    #[inline(always)]
    pub(crate) fn record(&self, value: NumberValue) -> AnyRecord
        ensures { sample_in result ≡ sample_of (aggregate_of self.now) (amount_of value) }
    {
        let bucket = match self {
            AnySettings::Histogram(settings) => settings.bounds.bucket_of(value),
            _ => 0,
        };
        AnyRecord { value, bucket }
    }

    /// The total of the records once one of a value is made: it adds the value's bits, 1 in a histogram, or 0 to last
    /// values and observed sums.
    #[inline(always)]
    pub(crate) fn counted(&self, value: NumberValue, total: u64) -> u64
        ensures { result ≡ wrap (total + size (aggregate_of self.now) (amount_of value)) }
    {
        let size = match self {
            AnySettings::Sum { is_monotonic: _ } => bits_of(value),
            AnySettings::Histogram(_) => 1,
            _ => 0,
        };
        total.wrapping_add(size)
    }

    /// The total of the records once those of these values are made.
    pub(crate) fn counted_each(&self, values: &[NumberValue], total: u64) -> u64
        ensures { result ≡ fold (λ n value. wrap (n + size (aggregate_of self.now) (amount_of value))) total values.now }
    {
        let mut counted = total;
        for value in values {
            counted = self.counted(*value, counted);
        }
        counted
    }

    /// Whether it is a sum to which only values of at least 0 are added.
    pub(crate) fn is_monotonic(&self) -> bool
        ensures { result ≡ is_monotonic_of self.now }
    {
        match self {
            AnySettings::Sum { is_monotonic } => *is_monotonic,
            AnySettings::PrecomputedSum { is_monotonic } => *is_monotonic,
            _ => false,
        }
    }

    /// Whether each collection empties the stream.
    pub(crate) fn drains(&self) -> bool
        ensures { result ≡ drains_of self.now }
    {
        matches!(self, AnySettings::PrecomputedSum { .. })
    }
}
