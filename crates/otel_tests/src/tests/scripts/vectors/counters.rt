//! Counters and up-down counters: attributes, limits, temporality, shutdowns.

use super::super::{Case, RefusedCase, assert_each_prints_or, assert_prints};

/// Sets of attributes past the limit of a view go to the overflow point.
#[test]
fn row_3(rt: HostRuntime) {
    assert_prints(
        &rt,
        rt.alloc(),
        "row_3",
        "reader delta\n\
         view c limit=2\n\
         go\n\
         meter m\n\
         build 0 u64_counter c 100\n\
         record 0 u:1 x=i:1\n\
         record 0 u:2 y=i:1\n\
         record 0 u:4 z=i:1\n\
         record 0 u:8 x=i:1\n\
         collect 0 200\n",
        "meter 0\n\
         instrument 0\n\
         ok\n\
         ok\n\
         ok\n\
         ok\n\
         collected 3\n\
         point m c sum delta monotonic 100 200 x=i:1 9\n\
         point m c sum delta monotonic 100 200 y=i:1 2\n\
         point m c sum delta monotonic 100 200 otel.metric.overflow=b:true 4\n",
    );
}

/// A place is free again once its set had no records from one collection to the next.
#[test]
fn row_4(rt: HostRuntime) {
    assert_prints(
        &rt,
        rt.alloc(),
        "row_4",
        "reader delta\n\
         view c limit=1\n\
         go\n\
         meter m\n\
         build 0 u64_counter c 100\n\
         record 0 u:1 x=i:1\n\
         collect 0 200\n\
         record 0 u:2 y=i:1\n\
         collect 0 300\n\
         record 0 u:4 y=i:1\n\
         collect 0 400\n",
        "meter 0\n\
         instrument 0\n\
         ok\n\
         collected 1\n\
         point m c sum delta monotonic 100 200 x=i:1 1\n\
         ok\n\
         collected 1\n\
         point m c sum delta monotonic 200 300 otel.metric.overflow=b:true 2\n\
         ok\n\
         collected 1\n\
         point m c sum delta monotonic 300 400 y=i:1 4\n",
    );
}

/// Two delta readers, each of which gives what was recorded since its own last collection.
#[test]
fn row_6(rt: HostRuntime) {
    assert_prints(
        &rt,
        rt.alloc(),
        "row_6",
        "reader delta\n\
         reader delta\n\
         go\n\
         meter app\n\
         build 0 u64_counter requests 100\n\
         record 0 u:3 -\n\
         collect 0 200\n\
         record 0 u:4 -\n\
         collect 1 300\n\
         collect 0 400\n",
        "meter 0\n\
         instrument 0\n\
         ok\n\
         collected 1\n\
         point app requests sum delta monotonic 100 200 - 3\n\
         ok\n\
         collected 1\n\
         point app requests sum delta monotonic 100 300 - 7\n\
         collected 1\n\
         point app requests sum delta monotonic 200 400 - 4\n",
    );
}

/// A record with the attributes of the overflow point takes the only place for good.
#[test]
fn row_7(rt: HostRuntime) {
    assert_prints(
        &rt,
        rt.alloc(),
        "row_7",
        "reader delta\n\
         view c limit=1\n\
         go\n\
         meter m\n\
         build 0 u64_counter c 100\n\
         record 0 u:1 otel.metric.overflow=b:true\n\
         record 0 u:2 x=i:1\n\
         collect 0 200\n\
         collect 0 300\n\
         record 0 u:5 x=i:1\n\
         collect 0 400\n",
        "meter 0\n\
         instrument 0\n\
         ok\n\
         ok\n\
         collected 1\n\
         point m c sum delta monotonic 100 200 otel.metric.overflow=b:true 3\n\
         collected 0\n\
         ok\n\
         collected 1\n\
         point m c sum delta monotonic 300 400 otel.metric.overflow=b:true 5\n",
    );
}

/// The order of attributes doesn't matter, and if a key stands twice, its first value counts.
#[test]
fn row_10(rt: HostRuntime) {
    assert_prints(
        &rt,
        rt.alloc(),
        "row_10",
        "reader cumulative\n\
         go\n\
         meter app\n\
         build 0 u64_counter requests 100\n\
         record 0 u:1 b=i:1,a=i:2\n\
         record 0 u:2 a=i:2,b=i:1\n\
         record 0 u:4 a=i:2,a=i:9,b=i:1\n\
         collect 0 200\n",
        "meter 0\n\
         instrument 0\n\
         ok\n\
         ok\n\
         ok\n\
         collected 1\n\
         point app requests sum cumulative monotonic 100 200 a=i:2,b=i:1 7\n",
    );
}

/// A sum that exceeds the range of its type.
#[test]
fn row_13(rt: HostRuntime) {
    assert_prints(
        &rt,
        rt.alloc(),
        "row_13",
        "reader cumulative\n\
         go\n\
         meter app\n\
         build 0 i64_up_down_counter u 100\n\
         record 0 i:9223372036854775807 -\n\
         record 0 i:1 -\n\
         collect 0 200\n",
        "meter 0\n\
         instrument 0\n\
         ok\n\
         ok\n\
         collected 1\n\
         point app u sum cumulative plain 100 200 - -9223372036854775808\n",
    );
}

/// A delta collection without points moves the start too.
#[test]
fn row_14(rt: HostRuntime) {
    assert_prints(
        &rt,
        rt.alloc(),
        "row_14",
        "reader delta\n\
         go\n\
         meter app\n\
         build 0 u64_counter requests 100\n\
         collect 0 200\n\
         record 0 u:1 -\n\
         collect 0 300\n",
        "meter 0\n\
         instrument 0\n\
         collected 0\n\
         ok\n\
         collected 1\n\
         point app requests sum delta monotonic 200 300 - 1\n",
    );
}

/// What a provider answers after a shutdown.
#[test]
fn row_15(rt: HostRuntime) {
    assert_prints(
        &rt,
        rt.alloc(),
        "row_15",
        "reader cumulative\n\
         go\n\
         meter app\n\
         build 0 u64_counter hits 100\n\
         shutdown\n\
         collect 0 200\n\
         flush\n\
         shutdown\n\
         record 0 u:1 -\n\
         meter new\n\
         build none u64_counter hits 100\n\
         record 1 u:1 -\n",
        "meter 0\n\
         instrument 0\n\
         ok\n\
         refused 9 reader is shut down or not registered\n\
         refused 8 already shut down\n\
         refused 8 already shut down\n\
         ok\n\
         meter none\n\
         instrument 1\n\
         ok\n",
    );
}

/// The script of row 17, and what it may print if memory is refused.
const ROW_17: &[RefusedCase] = &[RefusedCase {
    case: Case {
        name: "row_17",
        script: "reader cumulative\n\
                 reader delta\n\
                 go\n\
                 meter app\n\
                 build 0 u64_counter requests 100\n\
                 record 0 u:1 a=i:1\n\
                 collect 0 200\n\
                 collect 1 200\n",
        lines: "meter 0\n\
                instrument 0\n\
                ok\n\
                collected 1\n\
                point app requests sum cumulative monotonic 100 200 a=i:1 1\n\
                collected 1\n\
                point app requests sum delta monotonic 100 200 a=i:1 1\n",
    },
    refused: &[
        "refused 1 out of memory\n\
         refused 2 unknown meter\n\
         refused 3 unknown instrument\n\
         collected 0\n\
         collected 0\n",
        "meter 0\n\
         refused 1 out of memory\n\
         refused 3 unknown instrument\n\
         collected 0\n\
         collected 0\n",
        "meter 0\n\
         instrument 0\n\
         refused 1 out of memory\n\
         collected 0\n\
         collected 0\n",
        "meter 0\n\
         instrument 0\n\
         ok\n\
         refused 1 out of memory\n\
         collected 1\n\
         point app requests sum delta monotonic 100 200 a=i:1 1\n",
        "meter 0\n\
         instrument 0\n\
         ok\n\
         collected 1\n\
         point app requests sum cumulative monotonic 100 200 a=i:1 1\n\
         refused 1 out of memory\n",
    ],
}];

/// If memory is refused for a record of a new set at two readers, neither has it. Here memory is refused by hand: `rt try
/// --test --fail-alloc N`. In the gate `tools/refuse_memory` refuses each request of such records in turn.
#[test]
fn row_17(rt: HostRuntime) {
    assert_each_prints_or(&rt, rt.alloc(), ROW_17);
}

/// A `lowmemory` reader gets a counter's sums since its last collection, and an up-down counter's since the build.
#[test]
fn row_19(rt: HostRuntime) {
    assert_prints(
        &rt,
        rt.alloc(),
        "row_19",
        "reader lowmemory\n\
         go\n\
         meter app\n\
         build 0 u64_counter c 100\n\
         build 0 i64_up_down_counter u 100\n\
         record 0 u:1 -\n\
         collect 0 200\n\
         collect 0 300\n\
         record 1 i:1 -\n\
         collect 0 400\n\
         collect 0 500\n",
        "meter 0\n\
         instrument 0\n\
         instrument 1\n\
         ok\n\
         collected 1\n\
         point app c sum delta monotonic 100 200 - 1\n\
         collected 0\n\
         ok\n\
         collected 1\n\
         point app u sum cumulative plain 100 400 - 1\n\
         collected 1\n\
         point app u sum cumulative plain 100 500 - 1\n",
    );
}

/// The empty set has a place apart from those that the limit counts.
#[test]
fn row_22(rt: HostRuntime) {
    assert_prints(
        &rt,
        rt.alloc(),
        "row_22",
        "reader delta\n\
         view c limit=1\n\
         go\n\
         meter m\n\
         build 0 u64_counter c 100\n\
         record 0 u:1 -\n\
         record 0 u:2 x=i:1\n\
         record 0 u:4 y=i:1\n\
         collect 0 200\n",
        "meter 0\n\
         instrument 0\n\
         ok\n\
         ok\n\
         ok\n\
         collected 3\n\
         point m c sum delta monotonic 100 200 - 1\n\
         point m c sum delta monotonic 100 200 x=i:1 2\n\
         point m c sum delta monotonic 100 200 otel.metric.overflow=b:true 4\n",
    );
}
