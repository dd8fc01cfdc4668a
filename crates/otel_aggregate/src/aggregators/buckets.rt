//! What a histogram keeps of the records of one set of attributes.

ghost use Rattle.std.specs.Prelude.{◌≡◌, ◌+◌, ℤ, Bool, true, List, ◌∷◌, Some, sum};
ghost use Rattle.std.specs.Option.{option_map};
ghost use Rattle.otel_model_stream.specs.Data.{rises};
ghost use Rattle.otel_model_stream.specs.Folds.{Spreads, Amount, Histogram, fold_of, wrap, lesser, greater, counted_in, no_spread, clear_fold_no_spread};
ghost use Rattle.otel_aggregate.specs.AnyKept.{counts_with};

use crate::aggregators::aggregator::Aggregator;
use crate::aggregators::bounds::bucket_among;
use crate::aggregators::number::Number;
use otel_common::faults::Fault;
use otel_data::numbers::NumberValue;
use std::alloc::Global;

/// The number of buckets, and what is kept besides their counts.
#[derive(Clone, Copy, Debug)]
pub struct BucketsConfig {
    pub number: usize,
    /// Whether the least and the greatest value are kept.
    pub has_min_max: bool,
    /// Whether a sum is kept; if not, it is 0.
    pub has_sum: bool,
}

/// The records counted by bucket (Metrics SDK, "Explicit Bucket Histogram Aggregation").
#[derive(Drop)]
pub struct Buckets<T> {
    pub has_min_max: bool,
    pub has_sum: bool,
    pub count: u64,
    pub sum: T,
    pub least: Option<T>,
    pub greatest: Option<T>,
    pub counts: Vec<u64>,
}

/// The lesser of the least value so far, if there is one, and this value.
fn lesser_of<T: Number>(least: Option<T>, value: T) -> T
    ensures { Some (T.wide result) ≡ lesser (option_map T.wide least) (T.wide value) }
{
    match least {
        Some(least) => { if value.is_less(least) { value } else { least } }
        None => value,
    }
}

/// The greater of the greatest value so far, if there is one, and this value.
fn greater_of<T: Number>(greatest: Option<T>, value: T) -> T
    ensures { Some (T.wide result) ≡ greater (option_map T.wide greatest) (T.wide value) }
{
    match greatest {
        Some(greatest) => {
            if value.is_less(greatest) {
                greatest
            } else {
                value
            }
        }
        None => value,
    }
}

/// Counts one more record in a bucket, if there is such a bucket.
#[tactic(auto, using(crate::proofs::aggregators::BoundLemmas::counted_set, crate::proofs::aggregators::BoundLemmas::counted_beyond))]
#[inline]
fn count_in(counts: &mut [u64], bucket: usize)
    ensures { counts.new ≡ counted_in counts.old bucket }
{
    if bucket < counts.len() {
        counts[bucket] = counts[bucket].wrapping_add(1);
    }
}

/// Counts these values, each in the bucket after the bounds that are less.
pub(crate) fn count_each(counts: &mut [u64], bounds: &[i64], values: &[NumberValue])
    requires { rises bounds.now ≡ true }
    ensures { counts.new ≡ counts_with bounds.now counts.old values.now }
{
    for value in values {
        count_in(counts, bucket_among(bounds, value));
    }
}

/// A record is a value with its bucket, which is the number of bounds that are less than the value.
impl<T: Number + Drop> Aggregator for Buckets<T> {
    type InitConfig = BucketsConfig;

    type PreComputedValue = (T, usize);

    ghost meaning = { λ buckets. Spreads (record {
      has_min_max = buckets.has_min_max;
      has_sum = buckets.has_sum;
      count = buckets.count;
      sum = T.bits buckets.sum;
      least = option_map T.wide buckets.least;
      greatest = option_map T.wide buckets.greatest;
      counts = buckets.counts.items;
    }) };

    ghost empty = { λ config. Spreads (no_spread config.has_min_max config.has_sum config.number) };

    ghost sample = { λ value. record { bits = T.bits value.0; wide = T.wide value.0; bucket = value.1 } };

    ghost cleared_empty = { λ config. clear_fold_no_spread config.has_min_max config.has_sum config.number };

    fn create(alloc: Global, config: &BucketsConfig) -> Result<Buckets<T>, Fault> {
        Ok(Buckets {
            has_min_max: config.has_min_max,
            has_sum: config.has_sum,
            count: 0,
            sum: T::zero(),
            least: None,
            greatest: None,
            counts: vec![in alloc; 0; config.number]?,
        })
    }

    fn update(&mut self, value: (T, usize)) {
        let (value, bucket) = value;
        self.count = self.count.wrapping_add(1);
        if self.has_sum {
            self.sum = self.sum.add(value);
        }
        if self.has_min_max {
            self.least = Some(lesser_of(self.least, value));
            self.greatest = Some(greater_of(self.greatest, value));
        }
        count_in(&mut self.counts, bucket);
    }

    fn copy(&self, _alloc: Global) -> Result<Buckets<T>, Fault> {
        Ok(Buckets {
            has_min_max: self.has_min_max,
            has_sum: self.has_sum,
            count: self.count,
            sum: self.sum,
            least: self.least,
            greatest: self.greatest,
            counts: self.counts.clone()?,
        })
    }

    fn weight(&self) -> u64 {
        self.count
    }

    fn reset(&mut self) {
        self.count = 0;
        self.sum = T::zero();
        self.least = None;
        self.greatest = None;
        self.counts.fill(0);
    }
}

/// The law that, where there is a bound, the counts of the buckets add up to the count, modulo 2^64.
pub fn counted_once<T: Number + Drop>(buckets: &Buckets<T>)
    ensures { (bound : ℤ) (bounds : List ℤ) (has_min_max has_sum : Bool) (values : List Amount) → ⟦<Buckets<T> as Aggregator>⟧.meaning buckets.now ≡ fold_of (Histogram (bound ∷ bounds) has_min_max has_sum) values
        → wrap (sum buckets.now.counts.items) ≡ buckets.now.count }
{
    let _ = buckets;
}
