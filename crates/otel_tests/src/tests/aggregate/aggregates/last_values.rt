//! Last values.

use super::super::scripts::assert_script;

#[test]
fn last_value_aggregation(rt: HostRuntime) {
    let script = "
        last value of u64, limit 10, Cumulative
        measure b=2: 2
        collect 200 => Some(100)..200; b=2 -> 2
    ";
    assert_script(&rt, rt.alloc(), script);
}

/// A bound handle records under its attributes, and the last of two values is shown.
#[test]
fn bind_writes_through_bound_handle(rt: HostRuntime) {
    let script = "
        last value of u64, limit 100, Cumulative
        bind k=v: 0
        update 0: 7 => true
        update 0: 42 => true
        collect 200 => Some(100)..200; k=v -> 42
    ";
    assert_script(&rt, rt.alloc(), script);
}

/// What a handle recorded is shown exactly once after the handle's end.
#[test]
fn bound_handle_drop_decrements_bound_count(rt: HostRuntime) {
    let script = "
        last value of u64, limit 100, Delta
        bind k=v: 0
        update 0: 5 => true
        unbind 0
        update 0: 6 => false
        collect 200 => Some(100)..200; k=v -> 5
        collect 300 => Some(200)..300
        collect 400 => Some(300)..400
    ";
    assert_script(&rt, rt.alloc(), script);
}

#[test]
fn last_values_of_signed_numbers(rt: HostRuntime) {
    // The last of two values stays from one collection to the next.
    let script = "
        last value of i64, limit 10, Cumulative
        measure: 7
        measure: -3
        collect 200 => Some(100)..200; -> -3
        collect 300 => Some(100)..300; -> -3
    ";
    assert_script(&rt, rt.alloc(), script);
    // A delta value is shown once.
    let script = "
        last value of i64, limit 10, Delta
        measure x=1: 7
        collect 200 => Some(100)..200; x=1 -> 7
        collect 300 => Some(200)..300
    ";
    assert_script(&rt, rt.alloc(), script);
}
