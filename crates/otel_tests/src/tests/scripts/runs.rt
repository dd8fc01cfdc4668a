//! Calls one after another: what refused calls change, instruments that ignore their records, shared streams, order and
//! limits.

use super::{Case, assert_each_prints, assert_prints};
use std::alloc::Global;
use std::process::Abort;

/// Scripts whose later lines show what the earlier ones did.
const RUNS: &[Case] = &[
    // Refused calls change nothing.
    Case {
        name: "refusals",
        script: "reader cumulative\n\
                 go\n\
                 build 0 u64_counter early 100\n\
                 record 0 u:1 -\n\
                 meter app\n\
                 build 0 u64_counter requests 100\n\
                 record 0 u:1 a=i:1\n\
                 build 1 u64_counter late 100\n\
                 record 1 u:2 a=i:1\n\
                 record 1 i:2 a=i:1\n\
                 record 0 i:4 a=i:1\n\
                 record 0 i:8 b=i:1\n\
                 collect 1 150\n\
                 collect 0 200\n",
        lines: "refused 2 unknown meter\n\
                refused 3 unknown instrument\n\
                meter 0\n\
                instrument 0\n\
                ok\n\
                refused 2 unknown meter\n\
                refused 3 unknown instrument\n\
                refused 3 unknown instrument\n\
                refused 6 wrong number type\n\
                refused 6 wrong number type\n\
                refused 5 unknown reader\n\
                collected 1\n\
                point app requests sum cumulative monotonic 100 200 a=i:1 1\n",
    },
    // An instrument without a meter or with a bad name ignores its records.
    Case {
        name: "ignored",
        script: "reader cumulative\n\
                 go\n\
                 meter app\n\
                 build none u64_counter requests 100\n\
                 build 0 u64_counter _requests 100\n\
                 build 0 u64_counter - 100\n\
                 record 0 u:1 -\n\
                 record 1 u:2 a=i:1\n\
                 record 2 i:4 -\n\
                 collect 0 200\n",
        lines: "meter 0\n\
                instrument 0\n\
                instrument 1\n\
                instrument 2\n\
                ok\n\
                ok\n\
                refused 6 wrong number type\n\
                collected 0\n",
    },
    // Builds whose names differ only in the case of ASCII letters share a stream, which has the spelling of the first.
    Case {
        name: "shared_streams",
        script: "reader cumulative\n\
                 go\n\
                 meter app\n\
                 build 0 u64_counter Requests 100\n\
                 build 0 u64_counter requestS 100\n\
                 record 1 u:1 a=i:1\n\
                 record 0 u:2 a=i:1\n\
                 collect 0 200\n\
                 record 1 u:4 -\n\
                 collect 0 300\n",
        lines: "meter 0\n\
                instrument 0\n\
                instrument 1\n\
                ok\n\
                ok\n\
                collected 1\n\
                point app Requests sum cumulative monotonic 100 200 a=i:1 3\n\
                ok\n\
                collected 2\n\
                point app Requests sum cumulative monotonic 100 300 - 4\n\
                point app Requests sum cumulative monotonic 100 300 a=i:1 3\n",
    },
    // Equal scopes give the same meter, and another version gives another one. A collection has scopes in the order of
    // their meters, metrics in the order in which they were made, and no metric without points.
    Case {
        name: "meters",
        script: "reader cumulative\n\
                 go\n\
                 meter b\n\
                 meter b 1\n\
                 meter a\n\
                 meter b\n\
                 build 2 u64_counter z 100\n\
                 build 2 u64_counter y 100\n\
                 build 2 u64_counter x 100\n\
                 build 1 u64_counter z 100\n\
                 build 0 u64_counter z 100\n\
                 record 2 u:1 -\n\
                 record 0 u:2 -\n\
                 record 4 u:4 -\n\
                 record 3 u:8 -\n\
                 collect 0 200\n",
        lines: "meter 0\n\
                meter 1\n\
                meter 2\n\
                meter 0\n\
                instrument 0\n\
                instrument 1\n\
                instrument 2\n\
                instrument 3\n\
                instrument 4\n\
                ok\n\
                ok\n\
                ok\n\
                ok\n\
                collected 4\n\
                point b z sum cumulative monotonic 100 200 - 4\n\
                point b z sum cumulative monotonic 100 200 - 8\n\
                point a z sum cumulative monotonic 100 200 - 2\n\
                point a x sum cumulative monotonic 100 200 - 1\n",
    },
];

/// What each call changes is seen in the calls after it.
#[test]
fn runs(rt: HostRuntime) {
    assert_each_prints(&rt, rt.alloc(), RUNS);
}

/// A script that records 1 for each of 2002 sets, then 4 for the first of them, and then collects.
fn many_sets(rt: &impl Abort, alloc: Global) -> String {
    let mut script = String::new(alloc);
    script
        .push_str("reader cumulative\ngo\nmeter app\nbuild 0 u64_counter requests 100\n")
        .expect(rt, "memory");
    for number in 0..2002u32 {
        writeln!(script, "record 0 u:1 number=i:{number}").expect(rt, "memory");
    }
    script
        .push_str("record 0 u:4 number=i:0\ncollect 0 200\n")
        .expect(rt, "memory");
    script
}

/// What that script prints: points of 2000 sets, and the overflow point.
fn many_points(rt: &impl Abort, alloc: Global) -> String {
    let mut printed = String::new(alloc);
    write!(printed, "meter 0\ninstrument 0\n").expect(rt, "memory");
    for _ in 0..2003u32 {
        writeln!(printed, "ok").expect(rt, "memory");
    }
    writeln!(printed, "collected 2001").expect(rt, "memory");
    let point = "point app requests sum cumulative monotonic 100 200";
    writeln!(printed, "{point} number=i:0 5").expect(rt, "memory");
    for number in 1..2000u32 {
        writeln!(printed, "{point} number=i:{number} 1").expect(rt, "memory");
    }
    writeln!(printed, "{point} otel.metric.overflow=b:true 2").expect(rt, "memory");
    printed
}

/// The 2001st set and those after it go to the overflow point; a set that has a point keeps it.
#[test]
fn overflow(rt: HostRuntime) {
    let script = many_sets(&rt, rt.alloc());
    let printed = many_points(&rt, rt.alloc());
    assert_prints(
        &rt,
        rt.alloc(),
        "overflow",
        script.as_str(),
        printed.as_str(),
    );
}
