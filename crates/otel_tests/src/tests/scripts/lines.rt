//! Which lines are bad.

use super::{BadWords, assert_bad, assert_bad_words};

/// A script with these lines before `go`, and its first bad line.
#[test]
fn before_go(rt: HostRuntime) {
    assert_bad(
        &rt,
        rt.alloc(),
        &[
            (b"\n", 2),
            (b"# \xff\n   \n#go", 4),
            (b"reader cumulative", 2),
            (b"reader cumulative\ngone", 2),
            (b"reader gauge\ngo", 1),
            (b"reader\ngo", 1),
            (b"reader cumulative cumulative\ngo", 1),
            (b"meter app\ngo", 1),
            (b"go\r\n", 1),
            (b" # a comment\ngo", 1),
            (b"go\ngo\n", 2),
            // A line that isn't skipped must be UTF-8.
            (b"go\nmeter \xff\n", 2),
            (b"\xff\ngo\n", 1),
        ],
    );
}

/// An invalid line before `go`, and the empty input.
#[test]
fn script_s3(rt: HostRuntime) {
    assert_bad(&rt, rt.alloc(), &[(b"reader delta\ngone\n", 2), (b"", 1)]);
}

/// Words that make a line after `go` a bad one.
const BAD_WORDS: &[BadWords] = &[
    // Lines after `go` with too many or too few words, or with a word that doesn't belong there.
    BadWords {
        before: "go\n#\n",
        words: &[
            "reader cumulative",
            "meter",
            "meter a b c",
            "meters a",
            "build 0 u64_counter a",
            "build 0 u64_counter a 1 2",
            "build 0 u64_counter a 1 limit=1",
            "build 0 u64_counter a 1 unit",
            "build 0 u64_counter a 1 unit=s unit=s",
            "build 0 u64_counter a 1 description=%80",
            "build -1 u64_counter a 1",
            "record 0 u:1",
            "record 0 u:1 - -",
            "collect 0",
            "collect 0 -1",
            "flush 0",
            "shutdown 1",
            "meter %ff",
        ],
        after: "\ngo\n",
        line: 3,
    },
    // Words that are not sorts of instruments.
    BadWords {
        before: "go\nbuild 0 ",
        words: &[
            "i64_counter",
            "u64_up_down_counter",
            "i64_histogram",
            "f64_gauge",
            "u64_counters",
            "u64_gaug",
            "U64_gauge",
            "gauge",
            "-",
        ],
        after: " a 1\n",
        line: 2,
    },
    // Bounds that are invalid or given twice.
    BadWords {
        before: "go\nbuild 0 u64_histogram a 1 ",
        words: &[
            "bounds",
            "bounds:1",
            "Bounds=1",
            "bounds=-",
            "bounds=,",
            "bounds=1,",
            "bounds=,1",
            "bounds=1,,2",
            "bounds=+1",
            "bounds=1;2",
            "bounds=1.5",
            "bounds=i:1",
            "bounds=9223372036854775808",
            "bounds=-9223372036854775809",
            "bounds=1 bounds=1",
            "bounds= unit=s bounds=",
        ],
        after: "\n",
        line: 2,
    },
    // Numbers that are invalid or out of range.
    BadWords {
        before: "go\n",
        words: &[
            "record 0 1 -",
            "record 0 f:1 -",
            "record 0 u: -",
            "record 0 u:-0 -",
            "record 0 u:+1 -",
            "record 0 u:18446744073709551616 -",
            "record 0 i: -",
            "record 0 i:- -",
            "record 0 i:--1 -",
            "record 0 i:+1 -",
            "record 0 i:9223372036854775808 -",
            "record 0 i:-9223372036854775809 -",
            "record 18446744073709551616 u:1 -",
            "record +0 u:1 -",
            "collect 0 18446744073709551616",
            "collect 0 0x1",
        ],
        after: "\n",
        line: 2,
    },
    // Invalid attributes.
    BadWords {
        before: "go\nrecord 0 u:1 ",
        words: &[
            "a",
            "a=",
            "a=1",
            "a=i:",
            "a=i:1,",
            ",a=i:1",
            "a=i:1,,b=i:1",
            "-,a=i:1",
            "a=u:1",
            "a=b:yes",
            "a=b:True",
            "a=s",
            "a=s:%ff",
            "%ff=s:",
        ],
        after: "",
        line: 2,
    },
];

/// A line after `go` with one of these words is bad.
#[test]
fn bad_words(rt: HostRuntime) {
    assert_bad_words(&rt, rt.alloc(), BAD_WORDS);
}
