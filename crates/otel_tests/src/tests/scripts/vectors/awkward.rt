//! Input that few programs have: doubled keys, the set of the overflow point as a user's own, names that differ in case,
//! numbers and limits at the ends of their ranges.

use super::super::assert_prints;

/// Of two values of one key the first counts, also beside records that have just one.
#[test]
fn row_33(rt: HostRuntime) {
    assert_prints(
        &rt,
        rt.alloc(),
        "row_33",
        "reader cumulative\n\
         go\n\
         meter m\n\
         build 0 u64_counter c 100\n\
         record 0 u:1 a=i:1,a=i:2\n\
         record 0 u:2 a=i:1\n\
         record 0 u:4 a=i:2\n\
         collect 0 200\n",
        "meter 0\n\
         instrument 0\n\
         ok\n\
         ok\n\
         ok\n\
         collected 2\n\
         point m c sum cumulative monotonic 100 200 a=i:1 3\n\
         point m c sum cumulative monotonic 100 200 a=i:2 4\n",
    );
}

/// The overflow point's set takes a place if it comes first; later sets go there, and it keeps its place.
#[test]
fn row_34(rt: HostRuntime) {
    assert_prints(
        &rt,
        rt.alloc(),
        "row_34",
        "reader delta\n\
         view c limit=2\n\
         go\n\
         meter m\n\
         build 0 u64_counter c 100\n\
         record 0 u:1 otel.metric.overflow=b:true\n\
         record 0 u:2 x=i:1\n\
         record 0 u:4 y=i:1\n\
         collect 0 200\n\
         collect 0 300\n\
         record 0 u:8 y=i:1\n\
         record 0 u:16 z=i:1\n\
         collect 0 400\n",
        "meter 0\n\
         instrument 0\n\
         ok\n\
         ok\n\
         ok\n\
         collected 2\n\
         point m c sum delta monotonic 100 200 otel.metric.overflow=b:true 5\n\
         point m c sum delta monotonic 100 200 x=i:1 2\n\
         collected 0\n\
         ok\n\
         ok\n\
         collected 2\n\
         point m c sum delta monotonic 300 400 otel.metric.overflow=b:true 16\n\
         point m c sum delta monotonic 300 400 y=i:1 8\n",
    );
}

/// A record with the overflow point's set joins that point once the limit has made it, and it takes no place.
#[test]
fn row_35(rt: HostRuntime) {
    assert_prints(
        &rt,
        rt.alloc(),
        "row_35",
        "reader delta\n\
         view c limit=1\n\
         go\n\
         meter m\n\
         build 0 u64_counter c 100\n\
         record 0 u:1 x=i:1\n\
         record 0 u:2 y=i:1\n\
         record 0 u:4 otel.metric.overflow=b:true\n\
         collect 0 200\n\
         collect 0 300\n\
         record 0 u:8 otel.metric.overflow=b:true\n\
         record 0 u:16 z=i:1\n\
         collect 0 400\n",
        "meter 0\n\
         instrument 0\n\
         ok\n\
         ok\n\
         ok\n\
         collected 2\n\
         point m c sum delta monotonic 100 200 x=i:1 1\n\
         point m c sum delta monotonic 100 200 otel.metric.overflow=b:true 6\n\
         collected 0\n\
         ok\n\
         ok\n\
         collected 2\n\
         point m c sum delta monotonic 300 400 otel.metric.overflow=b:true 8\n\
         point m c sum delta monotonic 300 400 z=i:1 16\n",
    );
}

/// The overflow point's key with another value is a set as any other.
#[test]
fn row_36(rt: HostRuntime) {
    assert_prints(
        &rt,
        rt.alloc(),
        "row_36",
        "reader delta\n\
         view c limit=1\n\
         go\n\
         meter m\n\
         build 0 u64_counter c 100\n\
         record 0 u:1 otel.metric.overflow=b:false\n\
         record 0 u:2 x=i:1\n\
         collect 0 200\n",
        "meter 0\n\
         instrument 0\n\
         ok\n\
         ok\n\
         collected 2\n\
         point m c sum delta monotonic 100 200 otel.metric.overflow=b:false 1\n\
         point m c sum delta monotonic 100 200 otel.metric.overflow=b:true 2\n",
    );
}

/// Two counters whose names differ only in case share a stream, and an up-down counter of that name has its own.
#[test]
fn row_37(rt: HostRuntime) {
    assert_prints(
        &rt,
        rt.alloc(),
        "row_37",
        "reader cumulative\n\
         go\n\
         meter m\n\
         build 0 u64_counter Hits 100\n\
         build 0 u64_counter hITS 100\n\
         build 0 i64_up_down_counter hits 100\n\
         record 0 u:1 -\n\
         record 1 u:2 -\n\
         record 2 i:4 -\n\
         collect 0 200\n",
        "meter 0\n\
         instrument 0\n\
         instrument 1\n\
         instrument 2\n\
         ok\n\
         ok\n\
         ok\n\
         collected 2\n\
         point m Hits sum cumulative monotonic 100 200 - 3\n\
         point m hits sum cumulative plain 100 200 - 4\n",
    );
}

/// Values and bounds at the ends of their ranges are compared as whole numbers, and the sum wraps.
#[test]
fn row_38(rt: HostRuntime) {
    assert_prints(
        &rt,
        rt.alloc(),
        "row_38",
        "reader cumulative\n\
         go\n\
         meter m\n\
         build 0 u64_histogram h 100 bounds=9223372036854775807\n\
         record 0 u:18446744073709551615 -\n\
         record 0 u:9223372036854775807 -\n\
         collect 0 200\n",
        "meter 0\n\
         instrument 0\n\
         ok\n\
         ok\n\
         collected 1\n\
         point m h histogram cumulative 100 200 - 2 9223372036854775806 9223372036854775807 18446744073709551615 1,1\n",
    );
}

/// A bound below zero, and a histogram without bounds, which has no bucket counts.
#[test]
fn row_39(rt: HostRuntime) {
    assert_prints(
        &rt,
        rt.alloc(),
        "row_39",
        "reader cumulative\n\
         go\n\
         meter m\n\
         build 0 u64_histogram h 100 bounds=-5,0\n\
         build 0 u64_histogram i 100 bounds=\n\
         record 0 u:0 -\n\
         record 1 u:7 -\n\
         collect 0 200\n",
        "meter 0\n\
         instrument 0\n\
         instrument 1\n\
         ok\n\
         ok\n\
         collected 2\n\
         point m h histogram cumulative 100 200 - 1 0 0 0 0,1,0\n\
         point m i histogram cumulative 100 200 - 1 7 7 7 -\n",
    );
}

/// Nothing is reserved by a limit, also not by the greatest.
#[test]
fn row_41(rt: HostRuntime) {
    assert_prints(
        &rt,
        rt.alloc(),
        "row_41",
        "reader delta\n\
         view c limit=18446744073709551614\n\
         go\n\
         meter m\n\
         build 0 u64_counter c 100\n\
         record 0 u:1 x=i:1\n\
         collect 0 200\n",
        "meter 0\n\
         instrument 0\n\
         ok\n\
         collected 1\n\
         point m c sum delta monotonic 100 200 x=i:1 1\n",
    );
}
