//! Observable instruments, and the lines that say what was observed.

use super::{BadWords, Case, assert_bad, assert_bad_words, assert_each_prints};

/// Scripts with lines of observations.
const OBSERVED: &[Case] = &[
    // Each sort of observable instrument, at a cumulative reader.
    Case {
        name: "sorts",
        script: "reader cumulative\n\
                 go\n\
                 meter app\n\
                 build 0 u64_observable_counter c 1\n\
                 build 0 i64_observable_up_down_counter u 1\n\
                 build 0 u64_observable_gauge g 1\n\
                 build 0 i64_observable_gauge h 1\n\
                 observe 0 u:3 -\n\
                 observe 1 i:-4 a=i:1\n\
                 # a comment\n\
                 \n\
                 observe 2 u:5 -\n\
                 observe 2 u:6 -\n\
                 observe 3 i:-7 -\n\
                 collect 0 2\n\
                 observe 3 i:8 -\n\
                 observe 0 u:9 -\n\
                 collect 0 3\n",
        lines: "meter 0\n\
                instrument 0\n\
                instrument 1\n\
                instrument 2\n\
                instrument 3\n\
                collected 4\n\
                point app c sum cumulative monotonic 1 2 - 3\n\
                point app u sum cumulative plain 1 2 a=i:1 -4\n\
                point app g gauge 1 2 - 6\n\
                point app h gauge 1 2 - -7\n\
                collected 2\n\
                point app c sum cumulative monotonic 1 3 - 9\n\
                point app h gauge 2 3 - 8\n",
    },
    // Refusals: records at observable instruments, observations of other instruments, and more.
    Case {
        name: "refusals",
        script: "reader cumulative\n\
                 go\n\
                 meter app\n\
                 build 0 u64_observable_counter c 1\n\
                 build 0 u64_counter d 1\n\
                 record 0 u:1 -\n\
                 record 0 i:1 -\n\
                 observe 1 u:1 -\n\
                 collect 0 2\n\
                 observe 0 i:1 -\n\
                 observe 7 u:1 -\n\
                 collect 0 2\n\
                 observe 18446744073709551615 u:1 -\n\
                 collect 0 2\n\
                 observe 7 u:1 -\n\
                 collect 1 2\n\
                 collect 0 2\n\
                 shutdown\n\
                 observe 7 u:1 -\n\
                 collect 0 3\n",
        lines: "meter 0\n\
                instrument 0\n\
                instrument 1\n\
                refused 7 wrong instrument kind\n\
                refused 7 wrong instrument kind\n\
                refused 7 wrong instrument kind\n\
                refused 6 wrong number type\n\
                refused 3 unknown instrument\n\
                refused 5 unknown reader\n\
                collected 0\n\
                ok\n\
                refused 9 reader is shut down or not registered\n",
    },
];

/// Observations are made by the collection that follows them.
#[test]
fn observed(rt: HostRuntime) {
    assert_each_prints(&rt, rt.alloc(), OBSERVED);
}

/// Only further observations and skipped lines may come between observations and their collection.
#[test]
fn between(rt: HostRuntime) {
    assert_bad(
        &rt,
        rt.alloc(),
        &[
            (b"observe 0 u:1 -\ngo\ncollect 0 1\n", 1),
            (b"go\nobserve 0 u:1 -\n", 3),
            (b"go\nobserve 0 u:1 -", 3),
            (b"go\nobserve 0 u:1 -\n#\n \n", 5),
            (b"go\nobserve 0 u:1 -\nflush\ncollect 0 1\n", 3),
            (b"go\nobserve 0 u:1 -\nrecord 0 u:1 -\n", 3),
            (b"go\nobserve 0 u:1 -\nmeter a\n", 3),
            (b"go\nobserve 0 u:1 -\ngo\n", 3),
            (b"go\nobserve 0 u:1 -\ncollect 0\n", 3),
            (
                b"go\nobserve 0 u:1 -\ncollect 0 1\nflush\nobserve 0 u:1 -\nshutdown\n",
                6,
            ),
        ],
    );
}

/// Lines of observations that are bad.
const BAD_OBSERVATIONS: &[BadWords] = &[
    // Observations with too few or too many words, or with invalid ones.
    BadWords {
        before: "go\n",
        words: &[
            "observe",
            "observe 0",
            "observe 0 u:1",
            "observe 0 u:1 - -",
            "observe - u:1 -",
            "observe -1 u:1 -",
            "observe 18446744073709551616 u:1 -",
            "observe 0 1 -",
            "observe 0 u:-1 -",
            "observe 0 u:18446744073709551616 -",
            "observe 0 i:9223372036854775808 -",
            "observe 0 u:1 a",
            "observe 0 u:1 a=1",
            "Observe 0 u:1 -",
        ],
        after: "\ncollect 0 1\n",
        line: 2,
    },
];

/// A bad observation is a bad line.
#[test]
fn bad_words(rt: HostRuntime) {
    assert_bad_words(&rt, rt.alloc(), BAD_OBSERVATIONS);
}
