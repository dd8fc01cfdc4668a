//! What collections of instruments of each sort give.

use super::{Case, assert_each_prints};

/// Scripts over one or more sorts.
const SORTS: &[Case] = &[
    // Gauges of either number type keep the last value: a cumulative reader sees it again, a delta reader only if it was
    // set since its last collection.
    Case {
        name: "gauges",
        script: "reader cumulative\n\
                 reader delta\n\
                 reader lowmemory\n\
                 go\n\
                 meter app\n\
                 build 0 u64_gauge g 1 unit=C\n\
                 build 0 i64_gauge g 2 unit=C\n\
                 record 0 u:18446744073709551615 -\n\
                 record 0 u:7 -\n\
                 record 1 i:5 a=i:1\n\
                 record 1 i:-9223372036854775808 a=i:1\n\
                 collect 0 10\n\
                 collect 1 10\n\
                 record 1 i:-7 a=i:1\n\
                 collect 0 20\n\
                 collect 1 20\n\
                 collect 2 20\n",
        lines: "meter 0\n\
                instrument 0\n\
                instrument 1\n\
                ok\n\
                ok\n\
                ok\n\
                ok\n\
                collected 2\n\
                point app g gauge 1 10 - 7\n\
                point app g gauge 2 10 a=i:1 -9223372036854775808\n\
                collected 2\n\
                point app g gauge 1 10 - 7\n\
                point app g gauge 2 10 a=i:1 -9223372036854775808\n\
                ok\n\
                collected 2\n\
                point app g gauge 1 20 - 7\n\
                point app g gauge 2 20 a=i:1 -7\n\
                collected 1\n\
                point app g gauge 10 20 a=i:1 -7\n\
                collected 2\n\
                point app g gauge 1 20 - 7\n\
                point app g gauge 2 20 a=i:1 -7\n",
    },
    // Up-down counters add numbers of either sign, and even a delta reader sees their sums since the build.
    Case {
        name: "up_down_counters",
        script: "reader cumulative\n\
                 reader delta\n\
                 go\n\
                 meter app\n\
                 build 0 i64_up_down_counter u 1\n\
                 record 0 i:-3 -\n\
                 record 0 i:-4 a=i:-1\n\
                 collect 1 10\n\
                 record 0 i:2 -\n\
                 collect 0 20\n\
                 collect 1 20\n",
        lines: "meter 0\n\
                instrument 0\n\
                ok\n\
                ok\n\
                collected 2\n\
                point app u sum cumulative plain 1 10 - -3\n\
                point app u sum cumulative plain 1 10 a=i:-1 -4\n\
                ok\n\
                collected 2\n\
                point app u sum cumulative plain 1 20 - -1\n\
                point app u sum cumulative plain 1 20 a=i:-1 -4\n\
                collected 2\n\
                point app u sum cumulative plain 1 20 - -1\n\
                point app u sum cumulative plain 1 20 a=i:-1 -4\n",
    },
    // Histograms count since the build or since the last collection. A value equal to a bound belongs to the bucket that
    // ends there.
    Case {
        name: "histograms",
        script: "reader cumulative\n\
                 reader delta\n\
                 go\n\
                 meter app\n\
                 build 0 u64_histogram h 1 bounds=-5,10,020 unit=ms\n\
                 record 0 u:10 -\n\
                 record 0 u:11 a=i:1\n\
                 record 0 u:21 a=i:1\n\
                 collect 0 2\n\
                 collect 1 2\n\
                 record 0 u:0 -\n\
                 collect 0 3\n\
                 collect 1 3\n",
        lines: "meter 0\n\
                instrument 0\n\
                ok\n\
                ok\n\
                ok\n\
                collected 2\n\
                point app h histogram cumulative 1 2 - 1 10 10 10 0,1,0,0\n\
                point app h histogram cumulative 1 2 a=i:1 2 32 11 21 0,0,1,1\n\
                collected 2\n\
                point app h histogram delta 1 2 - 1 10 10 10 0,1,0,0\n\
                point app h histogram delta 1 2 a=i:1 2 32 11 21 0,0,1,1\n\
                ok\n\
                collected 2\n\
                point app h histogram cumulative 1 3 - 2 10 0 10 0,2,0,0\n\
                point app h histogram cumulative 1 3 a=i:1 2 32 11 21 0,0,1,1\n\
                collected 1\n\
                point app h histogram delta 2 3 - 1 0 0 0 0,1,0,0\n",
    },
    // Bounds: none; one; those of the first of two builds; and those that do not rise, with which a histogram ignores its
    // records. For other instruments they don't matter.
    Case {
        name: "bounds",
        script: "reader cumulative\n\
                 go\n\
                 meter app\n\
                 build 0 u64_histogram none 1 bounds=\n\
                 build 0 u64_histogram one 1 bounds=9223372036854775807\n\
                 build 0 u64_histogram one 1 unit= bounds=1,2\n\
                 build 0 u64_histogram falling 1 bounds=1,-1\n\
                 build 0 u64_histogram same 1 bounds=1,1\n\
                 build 0 u64_counter c 1 bounds=1,-1\n\
                 record 0 u:7 -\n\
                 record 1 u:18446744073709551615 -\n\
                 record 2 u:9223372036854775807 -\n\
                 record 3 u:7 -\n\
                 record 4 u:7 -\n\
                 record 5 u:7 -\n\
                 collect 0 2\n",
        lines: "meter 0\n\
                instrument 0\n\
                instrument 1\n\
                instrument 2\n\
                instrument 3\n\
                instrument 4\n\
                instrument 5\n\
                ok\n\
                ok\n\
                ok\n\
                ok\n\
                ok\n\
                ok\n\
                collected 3\n\
                point app none histogram cumulative 1 2 - 1 7 7 7 -\n\
                point app one histogram cumulative 1 2 - 2 9223372036854775806 9223372036854775807 18446744073709551615 1,1\n\
                point app c sum cumulative monotonic 1 2 - 7\n",
    },
    // Numbers of another type than the instrument's, even at an instrument that ignores its records.
    Case {
        name: "wrong_numbers",
        script: "reader cumulative\n\
                 go\n\
                 meter app\n\
                 build 0 i64_up_down_counter a 1\n\
                 build 0 u64_gauge b 1\n\
                 build 0 i64_gauge c 1\n\
                 build 0 u64_histogram d 1\n\
                 build none i64_gauge e 1\n\
                 record 0 u:1 -\n\
                 record 1 i:1 -\n\
                 record 2 u:1 -\n\
                 record 3 i:1 -\n\
                 record 4 u:1 -\n\
                 record 4 i:1 -\n\
                 collect 0 2\n",
        lines: "meter 0\n\
                instrument 0\n\
                instrument 1\n\
                instrument 2\n\
                instrument 3\n\
                instrument 4\n\
                refused 6 wrong number type\n\
                refused 6 wrong number type\n\
                refused 6 wrong number type\n\
                refused 6 wrong number type\n\
                refused 6 wrong number type\n\
                ok\n\
                collected 0\n",
    },
    // Signed values go to the buckets of a histogram that a view asks for. Its sum is 0 for an up-down counter.
    Case {
        name: "signed_histograms",
        script: "reader cumulative\n\
                 view open agg=hist:-5,5\n\
                 view heat agg=hist:-5,5\n\
                 go\n\
                 meter app\n\
                 build 0 i64_up_down_counter open 1\n\
                 build 0 i64_gauge heat 2\n\
                 record 0 i:-7 -\n\
                 record 0 i:-5 -\n\
                 record 0 i:5 -\n\
                 record 0 i:9223372036854775807 -\n\
                 record 1 i:-7 -\n\
                 record 1 i:6 -\n\
                 collect 0 10\n",
        lines: "meter 0\n\
                instrument 0\n\
                instrument 1\n\
                ok\n\
                ok\n\
                ok\n\
                ok\n\
                ok\n\
                ok\n\
                collected 2\n\
                point app open histogram cumulative 1 10 - 4 0 -7 9223372036854775807 2,1,1\n\
                point app heat histogram cumulative 2 10 - 2 -1 -7 6 1,0,1\n",
    },
];

/// Each sort gives the points of its own.
#[test]
fn sorts(rt: HostRuntime) {
    assert_each_prints(&rt, rt.alloc(), SORTS);
}
