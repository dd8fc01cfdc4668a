//! Options of readers.

use super::{BadWords, Case, assert_bad_words, assert_each_prints};

/// Scripts whose readers have options.
const OPTIONS: &[Case] = &[
    // A limit for a kind wins, in whichever order the two limits stand. A reader's bounds may be any: if they do not rise,
    // the kind's own are taken.
    Case {
        name: "options",
        script: "reader delta limit:gauge=2 limit=18446744073709551614 agg:histogram=hist:2,1 agg:gauge=default\n\
                 reader delta limit:counter=2 limit=1 agg:histogram=hist: agg:gauge=drop\n\
                 go\n\
                 meter m\n\
                 build 0 u64_counter c 100\n\
                 build 0 u64_gauge g 100\n\
                 build 0 u64_histogram h 100\n\
                 record 0 u:1 x=i:1\n\
                 record 0 u:2 y=i:1\n\
                 record 0 u:4 z=i:1\n\
                 record 1 u:7 -\n\
                 record 2 u:5 x=i:1\n\
                 record 2 u:6 y=i:1\n\
                 collect 0 200\n\
                 collect 1 200\n",
        lines: "meter 0\n\
                instrument 0\n\
                instrument 1\n\
                instrument 2\n\
                ok\n\
                ok\n\
                ok\n\
                ok\n\
                ok\n\
                ok\n\
                collected 6\n\
                point m c sum delta monotonic 100 200 x=i:1 1\n\
                point m c sum delta monotonic 100 200 y=i:1 2\n\
                point m c sum delta monotonic 100 200 z=i:1 4\n\
                point m g gauge 100 200 - 7\n\
                point m h histogram delta 100 200 x=i:1 1 5 5 5 0,1,0,0,0,0,0,0,0,0,0,0,0,0,0,0\n\
                point m h histogram delta 100 200 y=i:1 1 6 6 6 0,0,1,0,0,0,0,0,0,0,0,0,0,0,0,0\n\
                collected 5\n\
                point m c sum delta monotonic 100 200 x=i:1 1\n\
                point m c sum delta monotonic 100 200 y=i:1 2\n\
                point m c sum delta monotonic 100 200 otel.metric.overflow=b:true 4\n\
                point m h histogram delta 100 200 x=i:1 1 5 5 5 -\n\
                point m h histogram delta 100 200 otel.metric.overflow=b:true 1 6 6 6 -\n",
    },
];

/// A reader collects as its options say.
#[test]
fn options(rt: HostRuntime) {
    assert_each_prints(&rt, rt.alloc(), OPTIONS);
}

/// Options of readers that are bad.
const BAD_OPTIONS: &[BadWords] = &[
    // Options that are invalid, given twice, or have invalid values.
    BadWords {
        before: "#\nreader delta ",
        words: &[
            "=1",
            "limit",
            "limit=",
            "limit=0",
            "limit=-1",
            "limit=+1",
            "limit=18446744073709551615",
            "limit=18446744073709551616",
            "Limit=1",
            "limit=1 limit=1",
            "limit:=1",
            "limit:counter",
            "limit:counter=0",
            "limit:counter=18446744073709551615",
            "limit:Counter=1",
            "limit:counters=1",
            "limit:counter:=1",
            "limit:counter=1 limit:gauge=1 limit:counter=2",
            "agg=sum",
            "agg:counter",
            "agg:counter=",
            "agg:counter=Sum",
            "agg:counter=sum:",
            "agg:counter=hist",
            "agg:counter=hist:1,",
            "agg:counter=bounds:1",
            "agg:counter=sum agg:counter=sum",
            "name=x",
        ],
        after: "\ngo\n",
        line: 2,
    },
];

/// A reader with bad options is a bad line.
#[test]
fn bad_options(rt: HostRuntime) {
    assert_bad_words(&rt, rt.alloc(), BAD_OPTIONS);
}
