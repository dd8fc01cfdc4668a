//! Numbers of both types.

use otel_aggregate::aggregators::number::Number;

#[test]
fn numbers_wrap(rt: HostRuntime) {
    let zero: u64 = Number::zero();
    assert!(rt; zero == 0);
    assert!(rt; Number::add(u64::MAX, 2) == 1);
    assert!(rt; Number::subtract(1u64, 2) == u64::MAX);
    assert!(rt; 1u64.is_less(2));
    assert!(rt; !2u64.is_less(2));
    assert!(rt; 7u64.bits() == 7);
    assert!(rt; u64::MAX.wide() > 18446744073709551614);
    7u64.law_of_bits();
    Number::law_of_wide(1u64);
}

#[test]
fn signed_numbers_wrap(rt: HostRuntime) {
    let zero: i64 = Number::zero();
    assert!(rt; zero == 0);
    assert!(rt; Number::add(i64::MAX, 1) == i64::MIN);
    assert!(rt; Number::add(-5i64, 3) == -2);
    assert!(rt; Number::subtract(i64::MIN, 1) == i64::MAX);
    assert!(rt; Number::is_less(-1i64, 0));
    assert!(rt; !Number::is_less(0i64, -1));
    assert!(rt; Number::bits(-1i64) == u64::MAX);
    assert!(rt; Number::wide(-7i64) == -7);
    Number::law_of_bits(-1i64);
    Number::law_of_wide(-1i64);
}
