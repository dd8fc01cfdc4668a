//! Whole collections of observable instruments, and which records and observations are refused.

use super::collected::assert_collects;
use super::{Case, assert_each_prints};

/// Each sort of observable instrument at two readers.
const EACH_SORT: &str = "reader cumulative\n\
                         reader delta\n\
                         go\n\
                         meter app\n\
                         build 0 u64_observable_counter seen 100\n\
                         build 0 i64_observable_up_down_counter held 100 unit=1\n\
                         build 0 u64_observable_gauge load 100 unit=%\n\
                         build 0 i64_observable_gauge heat 100 unit=K\n\
                         observe 0 u:10 -\n\
                         observe 1 i:-7 -\n\
                         observe 2 u:5 -\n\
                         observe 3 i:-4 -\n\
                         collect 0 200\n\
                         observe 0 u:10 -\n\
                         observe 1 i:-7 -\n\
                         observe 2 u:5 -\n\
                         observe 3 i:-4 -\n\
                         collect 1 300\n\
                         observe 3 i:3 -\n\
                         observe 2 u:6 -\n\
                         observe 1 i:-9 -\n\
                         observe 0 u:12 -\n\
                         collect 0 400\n\
                         observe 3 i:3 -\n\
                         observe 2 u:6 -\n\
                         observe 1 i:-9 -\n\
                         observe 0 u:12 -\n\
                         collect 1 500\n\
                         collect 0 600\n\
                         collect 1 700\n";

/// What is printed if the only observation is refused.
const ONLY_REFUSED: &str = "meter 0\n\
                            instrument 0\n\
                            refused 7 wrong instrument kind\n\
                            collected 0\n";

/// Scripts that observe, and that record where they may not.
const OBSERVATIONS: &[Case] = &[
    // Each sort of observable instrument, at a cumulative and at a delta reader: a collection shows what was observed for
    // it, and no more.
    Case {
        name: "each_sort",
        script: EACH_SORT,
        lines: "meter 0\n\
                instrument 0\n\
                instrument 1\n\
                instrument 2\n\
                instrument 3\n\
                collected 4\n\
                point app seen sum cumulative monotonic 100 200 - 10\n\
                point app held sum cumulative plain 100 200 - -7\n\
                point app load gauge 100 200 - 5\n\
                point app heat gauge 100 200 - -4\n\
                collected 4\n\
                point app seen sum delta monotonic 100 300 - 10\n\
                point app held sum cumulative plain 100 300 - -7\n\
                point app load gauge 100 300 - 5\n\
                point app heat gauge 100 300 - -4\n\
                collected 4\n\
                point app seen sum cumulative monotonic 100 400 - 12\n\
                point app held sum cumulative plain 100 400 - -9\n\
                point app load gauge 200 400 - 6\n\
                point app heat gauge 200 400 - 3\n\
                collected 4\n\
                point app seen sum delta monotonic 300 500 - 2\n\
                point app held sum cumulative plain 100 500 - -9\n\
                point app load gauge 300 500 - 6\n\
                point app heat gauge 300 500 - 3\n\
                collected 0\n\
                collected 0\n",
    },
    // A record at an observable instrument is refused, whatever its number type.
    Case {
        name: "records_of_observables",
        script: "reader cumulative\n\
                 go\n\
                 meter app\n\
                 build 0 u64_observable_counter seen 100\n\
                 build 0 i64_observable_up_down_counter held 100\n\
                 build 0 u64_observable_gauge load 100\n\
                 build 0 i64_observable_gauge heat 100\n\
                 build 0 i64_observable_gauge _bad 100\n\
                 record 0 u:1 -\n\
                 record 0 i:1 -\n\
                 record 1 i:1 -\n\
                 record 2 u:1 -\n\
                 record 3 i:1 -\n\
                 record 4 i:1 -\n\
                 record 5 i:1 -\n\
                 collect 0 200\n",
        lines: "meter 0\n\
                instrument 0\n\
                instrument 1\n\
                instrument 2\n\
                instrument 3\n\
                instrument 4\n\
                refused 7 wrong instrument kind\n\
                refused 7 wrong instrument kind\n\
                refused 7 wrong instrument kind\n\
                refused 7 wrong instrument kind\n\
                refused 7 wrong instrument kind\n\
                refused 7 wrong instrument kind\n\
                refused 3 unknown instrument\n\
                collected 0\n",
    },
    // Nothing can be observed of an instrument that takes in records.
    Case {
        name: "observations_of_u64_counter",
        script: "reader cumulative\n\
                 go\n\
                 meter app\n\
                 build 0 u64_counter hits 100\n\
                 observe 0 u:1 -\n\
                 collect 0 200\n\
                 collect 0 300\n",
        lines: ONLY_REFUSED,
    },
    Case {
        name: "observations_of_i64_up_down_counter",
        script: "reader cumulative\n\
                 go\n\
                 meter app\n\
                 build 0 i64_up_down_counter hits 100\n\
                 observe 0 i:1 -\n\
                 collect 0 200\n\
                 collect 0 300\n",
        lines: ONLY_REFUSED,
    },
    Case {
        name: "observations_of_u64_gauge",
        script: "reader cumulative\n\
                 go\n\
                 meter app\n\
                 build 0 u64_gauge hits 100\n\
                 observe 0 u:1 -\n\
                 collect 0 200\n\
                 collect 0 300\n",
        lines: ONLY_REFUSED,
    },
    Case {
        name: "observations_of_i64_gauge",
        script: "reader cumulative\n\
                 go\n\
                 meter app\n\
                 build 0 i64_gauge hits 100\n\
                 observe 0 i:1 -\n\
                 collect 0 200\n\
                 collect 0 300\n",
        lines: ONLY_REFUSED,
    },
    Case {
        name: "observations_of_u64_histogram",
        script: "reader cumulative\n\
                 go\n\
                 meter app\n\
                 build 0 u64_histogram hits 100\n\
                 observe 0 u:1 -\n\
                 collect 0 200\n\
                 collect 0 300\n",
        lines: ONLY_REFUSED,
    },
    // The reader is checked first, then the provider, then each observation in turn: its instrument, its kind, its number
    // type. An instrument with a bad name is checked too.
    Case {
        name: "bad_observations",
        script: "reader cumulative\n\
                 go\n\
                 meter app\n\
                 build 0 u64_observable_counter _seen 100\n\
                 build 0 u64_counter hits 100\n\
                 observe 9 u:1 -\n\
                 collect 1 200\n\
                 observe 9 u:1 -\n\
                 collect 0 200\n\
                 observe 1 i:1 -\n\
                 collect 0 200\n\
                 observe 0 i:1 -\n\
                 collect 0 200\n\
                 observe 0 u:99 k=i:1\n\
                 observe 1 u:1 -\n\
                 collect 0 200\n\
                 observe 0 i:1 -\n\
                 observe 9 u:1 -\n\
                 collect 0 200\n\
                 observe 9 u:1 -\n\
                 observe 0 i:1 -\n\
                 collect 0 200\n\
                 observe 0 u:1 -\n\
                 collect 0 200\n\
                 shutdown\n\
                 observe 9 u:1 -\n\
                 collect 1 300\n\
                 observe 9 u:1 -\n\
                 collect 0 300\n",
        lines: "meter 0\n\
                instrument 0\n\
                instrument 1\n\
                refused 5 unknown reader\n\
                refused 3 unknown instrument\n\
                refused 7 wrong instrument kind\n\
                refused 6 wrong number type\n\
                refused 7 wrong instrument kind\n\
                refused 6 wrong number type\n\
                refused 3 unknown instrument\n\
                collected 0\n\
                ok\n\
                refused 5 unknown reader\n\
                refused 9 reader is shut down or not registered\n",
    },
];

/// A collection shows what was observed for it, unless that is refused.
#[test]
fn observations(rt: HostRuntime) {
    assert_each_prints(&rt, rt.alloc(), OBSERVATIONS);
}

/// What is collected of each sort besides its points.
#[test]
fn collected(rt: HostRuntime) {
    assert_collects(
        &rt,
        rt.alloc(),
        EACH_SORT,
        "resource None attributes=0\n\
         scope app None None attributes=0\n\
         metric seen description= unit= u64 points=1\n\
         metric held description= unit=1 i64 points=1\n\
         metric load description= unit=% u64 points=1\n\
         metric heat description= unit=K i64 points=1\n\
         resource None attributes=0\n\
         scope app None None attributes=0\n\
         metric seen description= unit= u64 points=1\n\
         metric held description= unit=1 i64 points=1\n\
         metric load description= unit=% u64 points=1\n\
         metric heat description= unit=K i64 points=1\n\
         resource None attributes=0\n\
         scope app None None attributes=0\n\
         metric seen description= unit= u64 points=1\n\
         metric held description= unit=1 i64 points=1\n\
         metric load description= unit=% u64 points=1\n\
         metric heat description= unit=K i64 points=1\n\
         resource None attributes=0\n\
         scope app None None attributes=0\n\
         metric seen description= unit= u64 points=1\n\
         metric held description= unit=1 i64 points=1\n\
         metric load description= unit=% u64 points=1\n\
         metric heat description= unit=K i64 points=1\n\
         resource None attributes=0\n\
         resource None attributes=0\n",
    );
}
