//! The bounds of a histogram's buckets.

ghost use Rattle.std.specs.Prelude.{◌≡◌, int_lt};
ghost use Rattle.otel_common.specs.Aggregations.{rises};

/// Returns whether each bound is greater than the one before it (Metrics SDK, "Explicit Bucket Histogram Aggregation").
/// An empty list rises too. Goes over the bounds once, and takes no memory.
pub fn is_rising(bounds: &[i64]) -> bool
    ensures { result ≡ rises bounds.now }
{
    bounds.is_sorted_by(
        |lower: &i64, upper: &i64| -> bool
            ensures { result ≡ int_lt lower.now upper.now }
        { lower < upper },
    )
}
