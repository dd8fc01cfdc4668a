//! The scripts of `examples/` that show a part of the guide, and what they print.

use super::{Case, assert_each_prints};

/// The scripts, and what they print.
const EXAMPLES: &[Case] = &[
    // A histogram with its own bounds.
    Case {
        name: "histogram",
        script: "# How long requests took, in milliseconds, in buckets of the shop's own.\n\
                 reader cumulative\n\
                 go\n\
                 meter shop\n\
                 build 0 u64_histogram latency 100 unit=ms bounds=10,100\n\
                 record 0 u:7 path=s:/cart\n\
                 record 0 u:10 path=s:/cart\n\
                 record 0 u:250 path=s:/cart\n\
                 collect 0 200\n",
        lines: "meter 0\n\
                instrument 0\n\
                ok\n\
                ok\n\
                ok\n\
                collected 1\n\
                point shop latency histogram cumulative 100 200 path=s:/cart 3 267 7 250 2,0,1\n",
    },
    // Two readers, one of them delta.
    Case {
        name: "readers",
        script: "# Two readers of one counter: all that was counted, and what is new.\n\
                 reader cumulative\n\
                 reader delta\n\
                 go\n\
                 meter shop\n\
                 build 0 u64_counter visits 100\n\
                 record 0 u:3 -\n\
                 collect 0 200\n\
                 collect 1 300\n\
                 record 0 u:4 -\n\
                 collect 0 400\n\
                 collect 1 500\n",
        lines: "meter 0\n\
                instrument 0\n\
                ok\n\
                collected 1\n\
                point shop visits sum cumulative monotonic 100 200 - 3\n\
                collected 1\n\
                point shop visits sum delta monotonic 100 300 - 3\n\
                ok\n\
                collected 1\n\
                point shop visits sum cumulative monotonic 100 400 - 7\n\
                collected 1\n\
                point shop visits sum delta monotonic 300 500 - 4\n",
    },
    // What views can say about a stream.
    Case {
        name: "views",
        script: "# Views rename a stream, drop one, keep two attributes of five, set a limit, and change buckets.\n\
                 reader cumulative\n\
                 view requests name=shop.requests\n\
                 view debug agg=drop\n\
                 view orders keys=country,paid\n\
                 view users limit=1\n\
                 view latency agg=hist:10,100,1000\n\
                 go\n\
                 meter shop\n\
                 build 0 u64_counter requests 100\n\
                 build 0 u64_counter debug 100\n\
                 build 0 u64_counter orders 100\n\
                 build 0 u64_counter users 100\n\
                 build 0 u64_histogram latency 100\n\
                 record 0 u:1 -\n\
                 record 1 u:1 -\n\
                 record 2 u:1 cart=i:7,country=s:fr,item=s:pen,paid=b:true,user=i:1\n\
                 record 2 u:2 cart=i:8,country=s:fr,item=s:cup,paid=b:true,user=i:2\n\
                 record 3 u:1 user=i:1\n\
                 record 3 u:2 user=i:2\n\
                 record 3 u:3 user=i:3\n\
                 record 4 u:7 -\n\
                 record 4 u:70 -\n\
                 collect 0 200\n",
        lines: "meter 0\n\
                instrument 0\n\
                instrument 1\n\
                instrument 2\n\
                instrument 3\n\
                instrument 4\n\
                ok\n\
                ok\n\
                ok\n\
                ok\n\
                ok\n\
                ok\n\
                ok\n\
                ok\n\
                ok\n\
                collected 5\n\
                point shop shop.requests sum cumulative monotonic 100 200 - 1\n\
                point shop orders sum cumulative monotonic 100 200 country=s:fr,paid=b:true 3\n\
                point shop users sum cumulative monotonic 100 200 user=i:1 1\n\
                point shop users sum cumulative monotonic 100 200 otel.metric.overflow=b:true 5\n\
                point shop latency histogram cumulative 100 200 - 2 77 7 70 1,1,0,0\n",
    },
    // A reader's own limit and aggregation; what a delta collection frees.
    Case {
        name: "limits",
        script: "# A reader with a limit for counters, and buckets of its own for histograms. A delta\n\
                 # collection frees the places of sets that had no record since the one before.\n\
                 reader delta limit:counter=1 agg:histogram=hist:100\n\
                 go\n\
                 meter shop\n\
                 build 0 u64_counter users 100\n\
                 build 0 u64_histogram latency 100\n\
                 record 0 u:1 user=i:1\n\
                 record 0 u:2 user=i:2\n\
                 record 1 u:250 -\n\
                 collect 0 200\n\
                 record 0 u:4 user=i:2\n\
                 collect 0 300\n\
                 record 0 u:5 user=i:2\n\
                 collect 0 400\n",
        lines: "meter 0\n\
                instrument 0\n\
                instrument 1\n\
                ok\n\
                ok\n\
                ok\n\
                collected 3\n\
                point shop users sum delta monotonic 100 200 user=i:1 1\n\
                point shop users sum delta monotonic 100 200 otel.metric.overflow=b:true 2\n\
                point shop latency histogram delta 100 200 - 1 250 250 250 0,1\n\
                ok\n\
                collected 1\n\
                point shop users sum delta monotonic 200 300 otel.metric.overflow=b:true 4\n\
                ok\n\
                collected 1\n\
                point shop users sum delta monotonic 300 400 user=i:2 5\n",
    },
    // Calls after a shutdown.
    Case {
        name: "shutdown",
        script: "# What a provider answers once it was shut down.\n\
                 reader cumulative\n\
                 go\n\
                 meter shop\n\
                 build 0 u64_counter visits 100\n\
                 flush\n\
                 shutdown\n\
                 record 0 u:1 -\n\
                 meter shop\n\
                 collect 0 200\n\
                 flush\n",
        lines: "meter 0\n\
                instrument 0\n\
                ok\n\
                ok\n\
                ok\n\
                meter none\n\
                refused 9 reader is shut down or not registered\n\
                refused 8 already shut down\n",
    },
    // What is observed before each collection of a delta reader.
    Case {
        name: "observed",
        script: "# The bytes that a disk has written so far, observed before each collection of a delta reader.\n\
                 reader delta\n\
                 go\n\
                 meter disk\n\
                 build 0 u64_observable_counter written 100 unit=By\n\
                 observe 0 u:500 disk=s:a\n\
                 observe 0 u:70 disk=s:b\n\
                 collect 0 200\n\
                 observe 0 u:900 disk=s:a\n\
                 collect 0 300\n",
        lines: "meter 0\n\
                instrument 0\n\
                collected 2\n\
                point disk written sum delta monotonic 100 200 disk=s:a 500\n\
                point disk written sum delta monotonic 100 200 disk=s:b 70\n\
                collected 1\n\
                point disk written sum delta monotonic 200 300 disk=s:a 400\n",
    },
    // A handle, and its end.
    Case {
        name: "handles",
        script: "# A handle for requests that come again and again, and then its end.\n\
                 reader delta\n\
                 go\n\
                 meter shop\n\
                 build 0 u64_counter requests 100\n\
                 bind 0 path=s:/cart\n\
                 recordbound 0 u:1\n\
                 recordbound 0 u:2\n\
                 record 0 u:4 path=s:/cart\n\
                 collect 0 200\n\
                 unbind 0\n\
                 recordbound 0 u:1\n\
                 collect 0 300\n",
        lines: "meter 0\n\
                instrument 0\n\
                handle 0\n\
                ok\n\
                ok\n\
                ok\n\
                collected 1\n\
                point shop requests sum delta monotonic 100 200 path=s:/cart 7\n\
                ok\n\
                refused 4 unknown handle\n\
                collected 0\n",
    },
];

/// Each script of the guide prints what the guide says.
#[test]
fn examples(rt: HostRuntime) {
    assert_each_prints(&rt, rt.alloc(), EXAMPLES);
}
