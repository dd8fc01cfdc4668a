//! Aggregators, and the bounds of buckets.

use super::super::bounds;
use super::Written;
use otel_aggregate::aggregators::aggregator::{Increment, create_fold, reset_fold, update_fold};
use otel_aggregate::aggregators::assign::Assign;
use otel_aggregate::aggregators::buckets::{Buckets, BucketsConfig};
use otel_common::bounds::is_rising;
use otel_common::faults::Fault;
use otel_data::numbers::NumberValue;
use std::alloc::Global;
use std::process::Abort;

/// Asserts what is written of an aggregator, with its weight.
fn assert_written<A: Written>(rt: &impl Abort, alloc: Global, aggregator: &A, wanted: &str) {
    let mut text = String::new(alloc);
    aggregator.write(&mut text).expect(rt, wanted);
    let weight = aggregator.weight();
    write!(text, " of weight {weight}").expect(rt, wanted);
    assert!(rt; text.as_str() == wanted, "{wanted} and not {text}");
}

/// Takes in some records and a last one, and asserts what is then written of a copy, and after a reset of the
/// aggregator.
fn assert_folds<A: Written>(
    rt: &impl Abort,
    alloc: Global,
    config: &A::InitConfig,
    records: &[A::PreComputedValue],
    last: A::PreComputedValue,
    wanted: (&str, &str),
) {
    let (folded, left) = wanted;
    let mut aggregator: A = create_fold(alloc, config).expect(rt, folded);
    for record in records {
        update_fold(&mut aggregator, *record);
    }
    aggregator.update(last);
    let copy = aggregator.copy(alloc).expect(rt, folded);
    reset_fold(&mut aggregator);
    assert_written(rt, alloc, &copy, folded);
    assert_written(rt, alloc, &aggregator, left);
}

#[test]
fn an_increment_adds_up(rt: HostRuntime) {
    let alloc = rt.alloc();
    let wanted = ("7 of weight 7", "0 of weight 0");
    assert_folds::<Increment<u64>>(&rt, alloc, &(), &[3], 4, wanted);
    let wanted = ("-1 of weight 18446744073709551615", "0 of weight 0");
    assert_folds::<Increment<i64>>(&rt, alloc, &(), &[-4], 3, wanted);
}

#[test]
fn an_assign_keeps_the_last(rt: HostRuntime) {
    let alloc = rt.alloc();
    let wanted = ("3 of weight 0", "0 of weight 0");
    assert_folds::<Assign<u64>>(&rt, alloc, &(), &[4], 3, wanted);
    let wanted = ("-4 of weight 0", "0 of weight 0");
    assert_folds::<Assign<i64>>(&rt, alloc, &(), &[3], -4, wanted);
}

#[test]
fn buckets_count(rt: HostRuntime) {
    let config = BucketsConfig {
        number: 2,
        has_min_max: true,
        has_sum: true,
    };
    let wanted = (
        "(3, Some(-3), Some(4)) [1, 2] of weight 3",
        "(0, None, None) [0, 0] of weight 0",
    );
    let records = &[(-3, 0), (2, 1)];
    assert_folds::<Buckets<i64>>(&rt, rt.alloc(), &config, records, (4, 1), wanted);
}

/// Lists of numbers, and whether they rise.
const LISTS: &[(&[i64], bool)] = &[
    (&[], true),
    (&[-3, 0, 7], true),
    (&[0, 0], false),
    (&[1, 2, -3], false),
];

#[test]
fn bounds_rise(rt: HostRuntime) {
    for (numbers, rises) in LISTS {
        assert!(rt; is_rising(numbers) == *rises, "{numbers:?}");
    }
    assert!(rt; matches!(bounds(rt.alloc(), "1 1"), Err(Fault::WrongNumber)));
    let none = bounds(rt.alloc(), "").expect(&rt, "no bounds");
    assert!(rt; none.number_of_buckets() == 0);
}

#[test]
fn bounds_have_buckets(rt: HostRuntime) {
    let bounds = bounds(rt.alloc(), "1 3").expect(&rt, "two bounds");
    assert!(rt; bounds.as_slice() == [1, 3].as_slice());
    assert!(rt; bounds.number_of_buckets() == 3);
    assert!(rt; bounds.bucket_of(NumberValue::I64(1)) == 0);
    assert!(rt; bounds.bucket_of(NumberValue::U64(2)) == 1);
    assert!(rt; bounds.bucket_of(NumberValue::U64(u64::MAX)) == 2);
    let shared = bounds.share().expect(&rt, "another owner");
    assert!(rt; shared.as_slice() == [1, 3].as_slice());
}
