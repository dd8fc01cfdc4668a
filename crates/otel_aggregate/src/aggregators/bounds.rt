//! The bounds of a histogram's buckets.

ghost use Rattle.std.specs.Prelude.{◌≡◌, cond, true, Some, None, IfOk, IsOkUnless};
ghost use Rattle.otel_model_stream.specs.Folds.{bounds_below, buckets_of};
ghost use Rattle.otel_model_stream.specs.Data.{rises};
ghost use Rattle.otel_aggregate.specs.Any.{amount_of};

use crate::values::{is_great, signed_bits_of, wide_of};
use otel_common::bounds::is_rising;
use otel_common::faults::Fault;
use otel_common::lists::SharedItems;
use otel_data::numbers::NumberValue;
use std::marker::Model;

/// The bounds of a histogram's buckets, each greater than the one before it (Metrics SDK, "Explicit Bucket Histogram
/// Aggregation").
#[derive(Drop)]
pub struct Bounds {
    items: SharedItems<i64>,
}

impl Model for Bounds {
    ghost use Rattle.std.specs.Prelude.{◌≡◌, true, List, ℤ};
    ghost use Rattle.otel_model_stream.specs.Data.{rises};

    ghost Value = { List ℤ };

    ghost view = { λ bounds. bounds.items };

    ghost invariant = { λ bounds. rises bounds.items ≡ true };
}

impl Bounds {
    /// Makes bounds of these numbers, or returns `None` unless each is greater than the one before it.
    pub fn new(items: SharedItems<i64>) -> Option<Bounds>
        ensures { result ≡ cond (rises items) (Some items) None }
    {
        if is_rising(items.as_slice()) {
            Some(Bounds { items })
        } else {
            None
        }
    }

    /// The bounds.
    pub fn as_slice(&self) -> &[i64]
        ensures value { result.now ≡ self.now }
        ensures rising { rises result.now ≡ true }
    {
        self.items.as_slice()
    }

    /// Another owner of the list of bounds. Copies nothing and takes no memory.
    pub fn share(&self) -> Result<SharedItems<i64>, Fault>
        ensures bounds { IfOk result (λ made. made ≡ self.now) }
        ensures only_memory { IsOkUnless result Fault.OutOfMemory }
    {
        Ok(self.items.share()?)
    }

    /// The number of buckets: one more than there are bounds, or 0 without bounds.
    pub fn number_of_buckets(&self) -> usize
        ensures { result ≡ buckets_of self.now }
    {
        let bounds = self.items.as_slice();
        if bounds.is_empty() {
            0
        } else {
            bounds.len() + 1
        }
    }

    /// The bucket of a value, which is the number of bounds that are less than the value. Out of line, so that a sum's
    /// records are short.
    #[inline(never)]
    pub fn bucket_of(&self, value: NumberValue) -> usize
        ensures { result ≡ bounds_below self.now (amount_of value).wide }
    {
        bucket_among(self.items.as_slice(), &value)
    }
}

/// The number of rising bounds that are less than a value.
#[inline]
pub(crate) fn bucket_among(bounds: &[i64], value: &NumberValue) -> usize
    requires { rises bounds.now ≡ true }
    ensures { result ≡ bounds_below bounds.now (amount_of value.now).wide }
{
    // A bound is compared sooner to another `i64` than to a wider number.
    if is_great(value) {
        number_below(bounds, wide_of(*value))
    } else {
        number_below(bounds, signed_bits_of(*value) as i128)
    }
}

/// The number of rising bounds that are less than a value, by steps that are powers of 2: the first is the greatest that
/// is no more than their number, and each of the others is half the one before.
#[inline(always)]
fn number_below(bounds: &[i64], value: i128) -> usize
    requires { rises bounds.now ≡ true }
    ensures { result ≡ bounds_below bounds.now value }
{
    if bounds.is_empty() {
        return 0;
    }
    let mut step = 1 << bounds.len().ilog2();
    // On either side of its bound as many numbers are left as the step, and some may be on both.
    let mut below = if (bounds[step - 1] as i128) < value {
        bounds.len() + 1 - step
    } else {
        0
    };
    step /= 2;
    while step > 0 {
        if (bounds[below + step - 1] as i128) < value {
            below += step;
        }
        step /= 2;
    }
    below
}
