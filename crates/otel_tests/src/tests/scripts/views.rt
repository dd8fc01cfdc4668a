//! Views.

use super::{BadWords, Case, assert_bad_words, assert_each_prints};

/// Scripts with more than one view.
const VIEWS: &[Case] = &[
    // If all that can be demanded drops, a counter has its own stream if an answer doesn't fit it: one counter's stream
    // drops, the other's identity was dropped before.
    Case {
        name: "own_stream_where_all_drop",
        script: "reader cumulative\n\
                 view a name=x agg=drop\n\
                 view b name=X\n\
                 view * name=y agg=lastvalue\n\
                 go\n\
                 meter m\n\
                 build 0 u64_counter a 100\n\
                 build 0 u64_counter b 100\n\
                 record 0 u:1 -\n\
                 record 1 u:2 -\n\
                 collect 0 200\n",
        lines: "meter 0\n\
                instrument 0\n\
                instrument 1\n\
                ok\n\
                ok\n\
                collected 2\n\
                point m a sum cumulative monotonic 100 200 - 1\n\
                point m b sum cumulative monotonic 100 200 - 2\n",
    },
    // Two views give a counter the same stream: the keys and the limit of the first hold, and it counts once.
    Case {
        name: "first_decides",
        script: "reader cumulative\n\
                 view c keys=a limit=1\n\
                 view c keys=b limit=2\n\
                 go\n\
                 meter m\n\
                 build 0 u64_counter c 100\n\
                 record 0 u:1 a=i:1,b=i:1\n\
                 record 0 u:2 a=i:2,b=i:1\n\
                 collect 0 200\n",
        lines: "meter 0\n\
                instrument 0\n\
                ok\n\
                ok\n\
                collected 2\n\
                point m c sum cumulative monotonic 100 200 a=i:1 1\n\
                point m c sum cumulative monotonic 100 200 otel.metric.overflow=b:true 2\n",
    },
    // A view's name is compared byte for byte. The word `*` stands for all instruments, and its escape for the name `*`.
    // Views are asked in the order of their lines, and readers may come between them.
    Case {
        name: "selectors",
        script: "view a%62 name=x\n\
                 view AB name=lost\n\
                 reader cumulative\n\
                 view %2A name=lost\n\
                 view - name=lost\n\
                 view * keys=k,=,- description=d unit=-\n\
                 go\n\
                 meter m\n\
                 build 0 u64_counter ab 100\n\
                 build 0 u64_counter b 110\n\
                 record 0 u:1 k=i:1,l=i:1\n\
                 record 1 u:2 -=i:2,%3D=i:3,k=i:4,l=i:5\n\
                 collect 0 200\n",
        lines: "meter 0\n\
                instrument 0\n\
                instrument 1\n\
                ok\n\
                ok\n\
                collected 3\n\
                point m x sum cumulative monotonic 100 200 k=i:1,l=i:1 1\n\
                point m ab sum cumulative monotonic 100 200 k=i:1 1\n\
                point m b sum cumulative monotonic 110 200 -=i:2,%3D=i:3,k=i:4 2\n",
    },
];

/// An instrument has the streams that its views ask for.
#[test]
fn views(rt: HostRuntime) {
    assert_each_prints(&rt, rt.alloc(), VIEWS);
}

/// Lines of views that are bad.
const BAD_VIEWS: &[BadWords] = &[
    // Options that are invalid, given twice, or have invalid values or bad settings.
    BadWords {
        before: "#\nview ",
        words: &[
            "",
            "%80",
            "c =x",
            "c name",
            "c Name=x",
            "c name=%ff",
            "c name=x unit= name=x",
            "c description=%80",
            "c description= description=",
            "c unit=%C3%B6",
            "c unit=s unit=s",
            "c limit=",
            "c limit=-1",
            "c limit=18446744073709551616",
            "c limit=1 limit=1",
            "c limit:counter=1",
            "c keys",
            "c keys=a,%80",
            "c keys= keys=",
            "c agg=",
            "c agg=Drop",
            "c agg=hist",
            "c agg=hist:,",
            "c agg=hist:2,1",
            "c agg=plain:1,1",
            "c agg=sum agg=sum",
            "c agg:counter=sum",
            "c bounds=1",
        ],
        after: "\ngo\n",
        line: 2,
    },
    // A view after `go`.
    BadWords {
        before: "go\n",
        words: &["view c"],
        after: "\n",
        line: 2,
    },
];

/// A view with bad options, or in the wrong place, is a bad line.
#[test]
fn bad_views(rt: HostRuntime) {
    assert_bad_words(&rt, rt.alloc(), BAD_VIEWS);
}
