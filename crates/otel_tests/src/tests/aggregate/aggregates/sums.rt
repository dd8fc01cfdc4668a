//! Sums.

use super::super::scripts::assert_script;
use super::super::steps::{Stepped, assert_steps};
use otel_aggregate::sum::Sum;
use otel_aggregate::value_map::hashing::SetHashBuilder;
use otel_common::faults::Fault;
use otel_common::metrics::Temporality;
use std::alloc::Global;
use std::process::Abort;

/// A cumulative sum of signed numbers wraps around, and stays from one collection to the next.
#[test]
fn row_13(rt: HostRuntime) {
    let script = "
        sum of i64, limit 10, Cumulative
        measure: 9223372036854775807
        measure: 1
        collect 200 => 100..200 Cumulative signed; -> -9223372036854775808
        collect 300 => 100..300 Cumulative signed; -> -9223372036854775808
    ";
    assert_script(&rt, rt.alloc(), script);
}

#[test]
fn sum_aggregation(rt: HostRuntime) {
    let script = "
        sum of u64, limit 10, Cumulative
        measure b=2: 3
        collect 200 => 100..200 Cumulative monotonic; b=2 -> 3
    ";
    assert_script(&rt, rt.alloc(), script);
    let script = "
        sum of u64, limit 10, Delta
        measure b=2: 3
        collect 200 => 100..200 Delta monotonic; b=2 -> 3
    ";
    assert_script(&rt, rt.alloc(), script);
}

/// Past the limit the overflow entry is used.
const OVERFLOW: &str = "
    sum of u64, limit 1, Cumulative
    measure x=1: 1
    measure y=1: 2
    measure z=1: 4
    measure x=1: 8
    collect 200 => 100..200 Cumulative monotonic; x=1 -> 9; otel.metric.overflow=true -> 6
    collect 200 => 100..200 Cumulative monotonic; x=1 -> 9; otel.metric.overflow=true -> 6
";

/// The empty set comes first and isn't counted.
const EMPTY_SET: &str = "
    sum of u64, limit 1, Cumulative
    collect 200 => 100..200 Cumulative monotonic
    measure x=1: 2
    measure: 1
    measure y=1: 4
    collect 200 => 100..200 Cumulative monotonic; -> 1; x=1 -> 2; otel.metric.overflow=true -> 4
";

/// The order of attributes doesn't matter.
const ORDER: &str = "
    sum of u64, limit 10, Cumulative
    measure b=1 a=2: 1
    measure a=2 b=1: 2
    measure a=2 a=9 b=1: 4
    collect 200 => 100..200 Cumulative monotonic; a=2 b=1 -> 7
";

/// A collection starts at the moment of the one before, even if that had no points.
const MOMENTS: &str = "
    sum of u64, limit 10, Delta
    collect 200 => 100..200 Delta monotonic
    measure: 1
    collect 300 => 200..300 Delta monotonic; -> 1
";

/// The same if the points of the one before add up to 0.
const ADDED_TO_NOTHING: &str = "
    sum of u64, limit 10, Delta
    measure x=1: 0
    collect 200 => 100..200 Delta monotonic; x=1 -> 0
    collect 300 => 200..300 Delta monotonic
";

/// An entry that a live handle holds stays and is counted until the handle ends.
const HELD: &str = "
    sum of u64, limit 1, Delta
    bind x=1: 3
    update 3: 5 => true
    collect 200 => 100..200 Delta monotonic; x=1 -> 5
    collect 300 => 200..300 Delta monotonic
    collect 400 => 300..400 Delta monotonic
    measure y=1: 2
    update 3: 7 => true
    collect 500 => 400..500 Delta monotonic; x=1 -> 7; otel.metric.overflow=true -> 2
    unbind 3
    update 3: 1 => false
    collect 600 => 500..600 Delta monotonic
    measure y=1: 4
    collect 700 => 600..700 Delta monotonic; y=1 -> 4
";

#[test]
fn sums(rt: HostRuntime) {
    let alloc = rt.alloc();
    assert_script(&rt, alloc, OVERFLOW);
    assert_script(&rt, alloc, EMPTY_SET);
    assert_script(&rt, alloc, ORDER);
    assert_script(&rt, alloc, MOMENTS);
    assert_script(&rt, alloc, ADDED_TO_NOTHING);
    assert_script(&rt, alloc, HELD);
}

#[test]
fn an_allow_list_drops_other_keys(rt: HostRuntime) {
    let script = "
        sum of u64 by keys, limit 10, Cumulative: b
        measure b=1 a=2: 1
        measure c=2 b=1: 2
        measure a=1: 4
        collect 200 => 100..200 Cumulative monotonic; -> 4; b=1 -> 3
    ";
    assert_script(&rt, rt.alloc(), script);
}

/// Makes a delta sum.
fn new_sum(alloc: Global) -> Result<Sum<u64>, Fault> {
    let hasher = SetHashBuilder::default();
    Sum::new(alloc, hasher, true, Temporality::Delta, None, 10, 100)
}

/// Does the step of a line. If memory is refused, does it again.
fn persist(rt: &impl Abort, alloc: Global, sum: &mut impl Stepped, line: &str) {
    if assert_steps(rt, alloc, sum, line).is_err() {
        assert_steps(rt, alloc, sum, line).expect(rt, line);
    }
}

/// Handles that are bound to sets of attributes, of which two are the same in another order, and what the sum answers if
/// one is refused.
const HANDLES: &[(&str, &str)] = &[
    ("bind y=1: 0", "update 0: 1 => false"),
    ("bind b=1 a=2: 1", "update 1: 1 => false"),
    ("bind: 2", "update 2: 1 => false"),
    ("bind z=1: 3", "update 3: 1 => false"),
    ("bind a=2 b=1: 4", "update 4: 1 => false"),
    ("bind x=1: 5", "update 5: 1 => false"),
    ("bind c=2 b=1: 6", "update 6: 1 => false"),
    ("bind k=v: 7", "update 7: 1 => false"),
];

/// Binds each handle. If memory is refused for one, asserts that it isn't live, and binds it again.
fn assert_bound(rt: &impl Abort, alloc: Global, sum: &mut impl Stepped) {
    for (line, refused) in HANDLES {
        if assert_steps(rt, alloc, sum, line).is_err() {
            persist(rt, alloc, sum, refused);
            persist(rt, alloc, sum, line);
        }
    }
}

/// A refused handle changes nothing: a handle is bound to each of several sets, and a record through each is counted.
/// This passes even if any one request for memory is refused.
#[test]
fn a_refused_handle_changes_nothing(rt: HostRuntime) {
    let alloc = rt.alloc();
    let mut sum = match new_sum(alloc) {
        Ok(sum) => sum,
        Err(_) => new_sum(alloc).expect(&rt, "a sum"),
    };
    persist(&rt, alloc, &mut sum, "measure x=1: 1");
    assert_bound(&rt, alloc, &mut sum);
    for handle in 0u64..8 {
        assert!(rt; sum.update_bound(handle, 0, 1), "{handle}");
    }
    let given = match sum.collect(alloc, 200) {
        Ok(given) => given,
        Err(_) => sum.collect(alloc, 200).expect(&rt, "a collection"),
    };
    let mut total = 0u64;
    for point in given.data_points() {
        total = total.wrapping_add(point.value());
    }
    assert_eq!(rt; (given.data_points().len(), total), (7, 9));
}
