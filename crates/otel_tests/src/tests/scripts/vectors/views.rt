//! Views.

use super::super::{assert_bad, assert_prints};

/// Two views give a counter names that differ only in case: there is one stream, which counts once.
#[test]
fn row_11(rt: HostRuntime) {
    assert_prints(
        &rt,
        rt.alloc(),
        "row_11",
        "reader cumulative\n\
         view c name=Foo\n\
         view c name=foo\n\
         go\n\
         meter m\n\
         build 0 u64_counter c 100\n\
         record 0 u:1 -\n\
         collect 0 200\n",
        "meter 0\n\
         instrument 0\n\
         ok\n\
         collected 1\n\
         point m Foo sum cumulative monotonic 100 200 - 1\n",
    );
}

/// A view that drops the stream comes before one whose aggregation doesn't fit a counter.
#[test]
fn row_12(rt: HostRuntime) {
    assert_prints(
        &rt,
        rt.alloc(),
        "row_12",
        "reader cumulative\n\
         view c agg=drop\n\
         view c agg=lastvalue\n\
         go\n\
         meter m\n\
         build 0 u64_counter c 100\n\
         record 0 u:1 -\n\
         collect 0 200\n",
        "meter 0\n\
         instrument 0\n\
         ok\n\
         collected 0\n",
    );
}

/// Invalid limits, and the greatest valid one.
#[test]
fn row_16(rt: HostRuntime) {
    let script = "view c limit=18446744073709551614\ngo\n";
    assert_prints(&rt, rt.alloc(), "row_16", script, "");
    assert_bad(
        &rt,
        rt.alloc(),
        &[
            (b"view c limit=0\ngo\n", 1),
            (b"view c limit=18446744073709551615\ngo\n", 1),
        ],
    );
}

/// If the aggregation of the only view doesn't fit a counter, the counter has its own stream.
#[test]
fn row_23(rt: HostRuntime) {
    assert_prints(
        &rt,
        rt.alloc(),
        "row_23",
        "reader cumulative\n\
         view hits name=x agg=lastvalue\n\
         go\n\
         meter m\n\
         build 0 u64_counter hits 100\n\
         record 0 u:5 -\n\
         collect 0 200\n",
        "meter 0\n\
         instrument 0\n\
         ok\n\
         collected 1\n\
         point m hits sum cumulative monotonic 100 200 - 5\n",
    );
}

/// A view that keeps no keys of attributes.
#[test]
fn row_24(rt: HostRuntime) {
    assert_prints(
        &rt,
        rt.alloc(),
        "row_24",
        "reader cumulative\n\
         view c keys=\n\
         go\n\
         meter m\n\
         build 0 u64_counter c 100\n\
         record 0 u:1 x=i:1\n\
         record 0 u:2 y=i:1\n\
         collect 0 200\n",
        "meter 0\n\
         instrument 0\n\
         ok\n\
         ok\n\
         collected 1\n\
         point m c sum cumulative monotonic 100 200 - 3\n",
    );
}
