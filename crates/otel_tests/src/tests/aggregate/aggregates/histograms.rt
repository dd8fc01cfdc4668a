//! Histograms.

use super::super::scripts::assert_script;

/// A histogram that keeps only counts.
#[test]
fn check_buckets_are_selected_correctly(rt: HostRuntime) {
    let script = "
        counts of i64, limit 10, Cumulative: 1 3 6
        measure: 1
        measure: 2
        measure: 3
        measure: 4
        measure: 5
        measure: 6
        measure: 7
        measure: 8
        measure: 9
        measure: 10
        collect 200 => 100..200 Cumulative; -> (10, None, None, 0) [1, 3, 6] [1, 2, 3, 4]
    ";
    assert_script(&rt, rt.alloc(), script);
}

#[test]
fn explicit_bucket_histogram_aggregation(rt: HostRuntime) {
    // Cumulative.
    let script = "
        histogram of u64, limit 10, Cumulative: 1
        measure b=2: 3
        collect 200 => 100..200 Cumulative; b=2 -> (1, Some(3), Some(3), 3) [1] [0, 1]
    ";
    assert_script(&rt, rt.alloc(), script);
    // Delta.
    let script = "
        histogram of u64, limit 10, Delta: 1
        measure b=2: 3
        collect 200 => 100..200 Delta; b=2 -> (1, Some(3), Some(3), 3) [1] [0, 1]
    ";
    assert_script(&rt, rt.alloc(), script);
}

#[test]
fn histograms_of_signed_numbers(rt: HostRuntime) {
    // Signed values are compared as whole numbers.
    let script = "
        histogram of i64, limit 10, Cumulative: -5 0
        measure: 0
        measure: -4
        measure: -6
        measure: 1
        measure: -5
        collect 200 => 100..200 Cumulative; -> (5, Some(-6), Some(1), -14) [-5, 0] [2, 2, 1]
    ";
    assert_script(&rt, rt.alloc(), script);
    // A delta histogram starts again after a collection of two records.
    let script = "
        histogram of i64, limit 10, Delta: -5 0
        measure: -1
        measure: 1
        collect 200 => 100..200 Delta; -> (2, Some(-1), Some(1), 0) [-5, 0] [0, 1, 1]
        measure: 5
        collect 300 => 200..300 Delta; -> (1, Some(5), Some(5), 5) [-5, 0] [0, 0, 1]
    ";
    assert_script(&rt, rt.alloc(), script);
}
