//! Attributes with values of every kind.

use super::super::scripts::assert_script;

/// Records whose attributes have equal values share a point, whatever the kind of the values.
#[test]
fn points_by_value(rt: HostRuntime) {
    let script = "
        sum of u64, limit 2000, Cumulative
        measure key=true: 1
        measure key=false: 1
        measure key=1: 1
        measure key=0: 1
        measure key='1': 1
        measure key=[true]: 1
        measure key=[1]: 1
        measure key=['1']: 1
        measure key=[]: 1
        measure key=true: 1
        measure key=false: 1
        measure key=1: 1
        measure key=0: 1
        measure key='1': 1
        measure key=[true]: 1
        measure key=[1]: 1
        measure key=['1']: 1
        measure key=[]: 1
        collect 200 => 100..200 Cumulative monotonic; key=true -> 2; key=false -> 2; \
            key=1 -> 2; key=0 -> 2; key=1 -> 2; key=[true] -> 2; key=[1] -> 2; key=[1] -> 2; \
            key=[] -> 2
    ";
    assert_script(&rt, rt.alloc(), script);
}
