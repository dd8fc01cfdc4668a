//! What is kept of the records of one set of attributes, whatever the aggregate.

ghost use Rattle.std.specs.Prelude.{◌≡◌, cond, fold, refl};
ghost use Rattle.otel_model_stream.specs.Folds.{record_fold, record_spread, clear_fold_no_spread};
ghost use Rattle.otel_model_stream.specs.Totals.{value_of};
ghost use Rattle.otel_aggregate.specs.Any.{aggregate_of, samples_of};
ghost use Rattle.otel_aggregate.specs.AnyKept.{spread_in, fold_in, empty_for, sample_in, least_with, greatest_with};
ghost use Rattle.otel_aggregate.specs.declared.any_aggregator.AnyConfig.TheVariants as config;

use crate::aggregators::aggregator::Aggregator;
use crate::aggregators::buckets::{Buckets, BucketsConfig, count_each};
use crate::settings::AnySettings;
use crate::values::{bits_of, range_of, sum_of, wide_of};
use otel_common::faults::Fault;
use otel_data::numbers::NumberValue;
use std::alloc::Global;

/// Records of either number type counted by bucket (Metrics SDK, "Explicit Bucket Histogram Aggregation").
#[derive(Drop)]
pub struct AnyBuckets {
    /// Whether the least and the greatest value are kept.
    pub has_min_max: bool,
    pub least: Option<i128>,
    pub greatest: Option<i128>,
    /// The counts, and the sum of the values' 64 bits.
    pub buckets: Buckets<u64>,
}

/// What is kept of the records of a set, as numbers of 64 bits: their sum, the last of them, or how they spread.
#[derive(Drop)]
pub enum AnyAggregator {
    Sum(u64),
    LastValue(u64),
    /// Boxed, so that a sum or a last value takes little room.
    Histogram(Box<AnyBuckets>),
}

/// What an aggregator is made from.
#[derive(Clone, Copy, Debug)]
pub enum AnyConfig {
    Sum,
    LastValue,
    Histogram(BucketsConfig),
}

/// A value with its bucket, which is the number of bounds that are less than the value.
#[derive(Clone, Copy, Debug)]
pub struct AnyRecord {
    pub value: NumberValue,
    pub bucket: usize,
}

impl AnyBuckets {
    /// Takes in one more record. Out of line, so that a sum's records are short.
    #[inline(never)]
    fn update(&mut self, value: NumberValue, bucket: usize)
        ensures { spread_in self.new ≡ record_spread (spread_in self.old) (sample_in (record { value = value; bucket = bucket })) }
    {
        let wide = wide_of(value);
        self.buckets.update((bits_of(value), bucket));
        if self.has_min_max {
            self.least = Some(self.least.map_or(wide, |least| least.min(wide)));
            self.greatest = Some(self.greatest.map_or(wide, |greatest| greatest.max(wide)));
        }
    }

    /// Takes in records of these values, one after another.
    #[inline(never)]
    fn update_each(&mut self, settings: &AnySettings, values: &[NumberValue])
        ensures { spread_in self.new ≡ fold record_spread (spread_in self.old) (samples_of (aggregate_of settings.now) values.now) }
    {
        let totals = &mut self.buckets;
        totals.count = totals.count.wrapping_add(values.len() as u64);
        if totals.has_sum {
            totals.sum = sum_of(values, totals.sum);
        }
        count_each(&mut totals.counts, settings.bounds(), values);
        self.update_range(values);
    }

    /// Takes these values into the least and the greatest, if these are kept.
    fn update_range(&mut self, values: &[NumberValue])
        ensures { self.new ≡ record self.old {
          least = cond self.old.has_min_max (least_with self.old.least values.now) self.old.least;
          greatest = cond self.old.has_min_max (greatest_with self.old.greatest values.now) self.old.greatest;
        } }
    {
        if !self.has_min_max {
            return;
        }
        if let Some((first, _)) = values.split_first() {
            let first = wide_of(*first);
            let least = self.least.unwrap_or(first);
            let greatest = self.greatest.unwrap_or(first);
            let (least, greatest) = range_of(values, least, greatest);
            self.least = Some(least);
            self.greatest = Some(greatest);
        }
    }
}

impl AnyAggregator {
    /// Takes in the records that these values make, one after another.
    pub(crate) fn update_each(&mut self, settings: &AnySettings, values: &[NumberValue])
        ensures { fold_in self.new ≡ fold record_fold (fold_in self.old) (samples_of (aggregate_of settings.now) values.now) }
    {
        match self {
            AnyAggregator::Sum(sum) => *sum = sum_of(values, *sum),
            AnyAggregator::LastValue(last) => {
                if let Some(value) = values.last() {
                    *last = bits_of(*value);
                }
            }
            AnyAggregator::Histogram(buckets) => buckets.update_each(settings, values),
        }
    }

    /// The 64 bits of a sum or of a last value; 0 for a histogram.
    pub(crate) fn bits(&self) -> u64
        ensures { result ≡ value_of (fold_in self.now) }
    {
        match self {
            AnyAggregator::Sum(sum) => *sum,
            AnyAggregator::LastValue(last) => *last,
            AnyAggregator::Histogram(_) => 0,
        }
    }
}

impl Aggregator for AnyAggregator {
    type InitConfig = AnyConfig;

    type PreComputedValue = AnyRecord;

    ghost meaning = { fold_in };

    ghost empty = { empty_for };

    ghost sample = { sample_in };

    ghost cleared_empty = { elim [ config.Sum ↦ refl | config.LastValue ↦ refl | config.Histogram c ↦ clear_fold_no_spread c.has_min_max c.has_sum c.number ] };

    fn create(alloc: Global, config: &AnyConfig) -> Result<AnyAggregator, Fault> {
        match config {
            AnyConfig::Sum => Ok(AnyAggregator::Sum(0)),
            AnyConfig::LastValue => Ok(AnyAggregator::LastValue(0)),
            AnyConfig::Histogram(config) => {
                let totals = BucketsConfig {
                    number: config.number,
                    has_min_max: false,
                    has_sum: config.has_sum,
                };
                let buckets = AnyBuckets {
                    has_min_max: config.has_min_max,
                    least: None,
                    greatest: None,
                    buckets: Buckets::create(alloc, &totals)?,
                };
                Ok(AnyAggregator::Histogram(Box::new(alloc, buckets)?))
            }
        }
    }

    #[inline(always)]
    fn update(&mut self, recorded: AnyRecord) {
        match self {
            AnyAggregator::Sum(sum) => *sum = sum.wrapping_add(bits_of(recorded.value)),
            AnyAggregator::LastValue(last) => *last = bits_of(recorded.value),
            AnyAggregator::Histogram(buckets) => buckets.update(recorded.value, recorded.bucket),
        }
    }

    fn copy(&self, alloc: Global) -> Result<AnyAggregator, Fault> {
        match self {
            AnyAggregator::Sum(sum) => Ok(AnyAggregator::Sum(*sum)),
            AnyAggregator::LastValue(last) => Ok(AnyAggregator::LastValue(*last)),
            AnyAggregator::Histogram(buckets) => {
                let copied = AnyBuckets {
                    has_min_max: buckets.has_min_max,
                    least: buckets.least,
                    greatest: buckets.greatest,
                    buckets: buckets.buckets.copy(alloc)?,
                };
                Ok(AnyAggregator::Histogram(Box::new(alloc, copied)?))
            }
        }
    }

    fn weight(&self) -> u64 {
        match self {
            AnyAggregator::Sum(sum) => *sum,
            AnyAggregator::LastValue(_) => 0,
            AnyAggregator::Histogram(buckets) => buckets.buckets.count,
        }
    }

    fn reset(&mut self) {
        match self {
            AnyAggregator::Sum(sum) => *sum = 0,
            AnyAggregator::LastValue(last) => *last = 0,
            AnyAggregator::Histogram(buckets) => {
                buckets.least = None;
                buckets.greatest = None;
                buckets.buckets.reset();
            }
        }
    }
}
