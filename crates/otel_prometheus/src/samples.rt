//! Samples of a histogram's point: its buckets, its sum and its count.

ghost use Rattle.std.specs.Prelude.{◌≡◌, ◌++◌, [], ◌∷◌, ℕ, List, codes, OnOk};
ghost use Rattle.otel_prometheus.specs.Samples.{Pair, escaped, label_text, labels_text, sample_text};
ghost use Rattle.otel_prometheus.specs.Fronts.{IsFront, bucket_end};
ghost use Rattle.otel_prometheus.specs.Points.{are_natural, bound_text, bucket, buckets, meets_next, sample_unless, sum_samples, count_samples, histogram_samples, value_end};
ghost use Rattle.otel_prometheus.specs.Series.{samples_text};

use crate::headings::Kind;
use crate::text::escapes::push_escaped;
use crate::text::formats::Format;
use crate::text::numbers::Number;
use crate::text::samples::push_line;
use itoa::Buffer;
use otel_data::points::HistogramDataPoint;
use std::alloc::AllocError;
use std::num::nearest_i64_to_f64;

/// What a family of this type adds to its name in the names of values.
pub(crate) fn value_end(kind: Kind) -> &'static str
    ensures { result.now ≡ value_end kind }
{
    match kind {
        Kind::Counter => "_total",
        Kind::Gauge => "",
        Kind::Histogram => "",
    }
}

/// Appends a bound as the value of a label. In OpenMetrics it is written as a float.
fn push_bound(out: &mut Vec<u8>, format: Format, bound: i64) -> Result<(), AllocError>
    ensures { OnOk result (out.new.items ≡ out.old.items ++ escaped (bound_text format bound)) }
{
    let mut buffer = Buffer::new();
    push_escaped(out, buffer.format(bound).as_bytes())?;
    match format {
        Format::Prometheus => Ok(()),
        Format::OpenMetrics => out.extend_from_slice(b".0"),
    }
}

/// Appends spelled labels up to where one more can follow.
fn push_open(out: &mut Vec<u8>, spelled: &[u8]) -> Result<(), AllocError>
    ensures { (labels : List Pair) (more : Pair) → spelled.now ≡ labels_text labels → OnOk result (out.new.items ++ (label_text more ++ 125 ∷ []) ≡ out.old.items ++ labels_text (labels ++ more ∷ [])) }
{
    let Some((_, front)) = spelled.split_last() else {
        out.extend_from_slice(b"{")?;
        return Ok(());
    };
    out.extend_from_slice(front)?;
    out.extend_from_slice(b",")?;
    Ok(())
}

/// Makes the front of the samples of buckets: all up to the bound.
fn make_front(front: &mut Vec<u8>, name: &str, spelled: &[u8]) -> Result<(), AllocError>
    ensures { (labels : List Pair) → spelled.now ≡ labels_text labels → OnOk result (IsFront front.new.items name.now labels) }
{
    front.clear();
    front.extend_from_slice(name.as_bytes())?;
    front.extend_from_slice(b"_bucket")?;
    push_open(front, spelled)?;
    front.extend_from_slice(b"le=\"")?;
    Ok(())
}

/// Appends what follows the bound in the sample of a bucket.
fn push_bucket_end(out: &mut Vec<u8>, count: u64) -> Result<(), AllocError>
    ensures { OnOk result (out.new.items ≡ out.old.items ++ bucket_end count) }
{
    out.extend_from_slice(b"\"} ")?;
    count.push_to(out)?;
    out.extend_from_slice(b"\n")?;
    Ok(())
}

/// Appends the sample of a bucket with this front.
fn push_bucket(
    out: &mut Vec<u8>,
    format: Format,
    front: &[u8],
    bound: i64,
    count: u64,
) -> Result<(), AllocError>
    ensures { (name : List ℕ) (labels : List Pair) → IsFront front.now name labels → OnOk result (out.new.items ≡ out.old.items ++ sample_text (bucket name labels (bound_text format bound) count)) }
{
    out.extend_from_slice(front)?;
    push_bound(out, format, bound)?;
    push_bucket_end(out, count)?;
    Ok(())
}

/// Whether the bound is the same double as the first of those that follow it.
fn meets_next(bound: i64, following: &[i64]) -> bool
    ensures { result ≡ meets_next bound following.now }
{
    match following.split_first() {
        Some((next, _)) => nearest_i64_to_f64(bound) == nearest_i64_to_f64(*next),
        None => false,
    }
}

/// Appends the sample of a bucket with this front, unless its bound is the same double as the next one.
fn push_distinct_bucket(
    out: &mut Vec<u8>,
    format: Format,
    front: &[u8],
    bound: i64,
    following: &[i64],
    count: u64,
) -> Result<(), AllocError>
    ensures { (name : List ℕ) (labels : List Pair) → IsFront front.now name labels → OnOk result (out.new.items ≡ out.old.items ++ samples_text (sample_unless (meets_next bound following.now) (bucket name labels (bound_text format bound) count))) }
{
    if meets_next(bound, following) {
        return Ok(());
    }
    push_bucket(out, format, front, bound, count)?;
    Ok(())
}

/// Appends the sample of the bucket that has no bound, with this front.
fn push_last_bucket(out: &mut Vec<u8>, front: &[u8], count: u64) -> Result<(), AllocError>
    ensures { (name : List ℕ) (labels : List Pair) → IsFront front.now name labels → OnOk result (out.new.items ≡ out.old.items ++ sample_text (bucket name labels (codes "+Inf") count)) }
{
    out.extend_from_slice(front)?;
    out.extend_from_slice(b"+Inf")?;
    push_bucket_end(out, count)?;
    Ok(())
}

/// Appends the samples of the buckets that have bounds, with this front. Each counts the values of those before it too.
/// Of bounds that are one double the last has a bucket.
fn push_buckets(
    format: Format,
    out: &mut Vec<u8>,
    front: &[u8],
    bounds: &[i64],
    counts: &[u64],
) -> Result<(), AllocError>
    ensures { (name : List ℕ) (labels : List Pair) → IsFront front.now name labels → OnOk result (out.new.items ≡ out.old.items ++ samples_text (buckets format name labels 0 bounds.now counts.now)) }
{
    let mut before = 0u64;
    let mut bounds_left = bounds;
    let mut counts_left = counts;
    while let Some((bound, following)) = bounds_left.split_first() {
        let Some((count, rest)) = counts_left.split_first() else {
            return Ok(());
        };
        before = before.wrapping_add(*count);
        push_distinct_bucket(out, format, front, *bound, following, before)?;
        bounds_left = following;
        counts_left = rest;
    }
    Ok(())
}

/// Whether no bound is below 0.
fn are_natural(bounds: &[i64]) -> bool
    ensures { result ≡ are_natural bounds.now }
{
    for bound in bounds {
        let is_natural = 0 <= *bound;
        if !is_natural {
            return false;
        }
    }
    true
}

/// Appends the sample of a sum, if it is shown.
fn push_total<T: Number>(
    out: &mut Vec<u8>,
    name: &str,
    spelled: &[u8],
    sum: T,
    has_sum: bool,
) -> Result<(), AllocError>
    ensures { (labels : List Pair) → spelled.now ≡ labels_text labels → OnOk result (out.new.items ≡ out.old.items ++ samples_text (sum_samples has_sum name.now labels (T.integer sum))) }
{
    if !has_sum {
        return Ok(());
    }
    push_line(out, name, "_sum", spelled, sum)?;
    Ok(())
}

/// Appends the sample of a count. OpenMetrics has one only beside a sum.
fn push_count(
    format: Format,
    out: &mut Vec<u8>,
    name: &str,
    spelled: &[u8],
    count: u64,
    has_sum: bool,
) -> Result<(), AllocError>
    ensures { (labels : List Pair) → spelled.now ≡ labels_text labels → OnOk result (out.new.items ≡ out.old.items ++ samples_text (count_samples format has_sum name.now labels count)) }
{
    let is_shown = match format {
        Format::Prometheus => true,
        Format::OpenMetrics => has_sum,
    };
    if !is_shown {
        return Ok(());
    }
    push_line(out, name, "_count", spelled, count)?;
    Ok(())
}

/// Appends the samples of a point of a histogram, whose labels are given as they are spelled. The front of its buckets
/// is made in the first vector.
#[tactic(auto, using(crate::proofs::SeriesLemmas::samples_text_append))]
pub(crate) fn push_histogram_point<T: Number>(
    format: Format,
    front: &mut Vec<u8>,
    out: &mut Vec<u8>,
    name: &str,
    spelled: &[u8],
    point: &HistogramDataPoint<T>,
    has_sum: bool,
) -> Result<(), AllocError>
    ensures { (labels : List Pair) → spelled.now ≡ labels_text labels → OnOk result (out.new.items ≡ out.old.items ++ samples_text (histogram_samples T.integer format has_sum name.now labels point.now)) }
{
    let bounds = point.bounds().as_slice();
    let counts = point.bucket_counts().as_slice();
    let has_sum = has_sum && are_natural(bounds);
    make_front(front, name, spelled)?;
    push_buckets(format, out, front.as_slice(), bounds, counts)?;
    push_last_bucket(out, front.as_slice(), point.count())?;
    push_total(out, name, spelled, point.sum(), has_sum)?;
    push_count(format, out, name, spelled, point.count(), has_sum)?;
    Ok(())
}
