//! Each sort of instrument: its whole collections, the number types that it takes, and the settings with which it
//! ignores its records.

use super::collected::assert_collects;
use super::{Case, assert_each_prints};

/// Each sort of instrument at two readers.
const EACH_SORT: &str = "reader cumulative\n\
                         reader delta\n\
                         go\n\
                         meter app\n\
                         build 0 u64_counter hits 100\n\
                         build 0 i64_up_down_counter open 100 unit=1\n\
                         build 0 u64_gauge load 100 unit=%\n\
                         build 0 i64_gauge heat 100 unit=K\n\
                         build 0 u64_histogram size 100 unit=By bounds=-1,5\n\
                         record 0 u:18446744073709551613 -\n\
                         record 0 u:2 -\n\
                         record 1 i:3 -\n\
                         record 1 i:-10 -\n\
                         record 2 u:1 -\n\
                         record 2 u:9223372036854775809 -\n\
                         record 3 i:4 -\n\
                         record 3 i:-9223372036854775808 -\n\
                         record 4 u:5 -\n\
                         record 4 u:18446744073709551615 -\n\
                         collect 0 200\n\
                         collect 1 300\n\
                         record 1 i:-1 -\n\
                         record 3 i:-2 -\n\
                         record 4 u:6 -\n\
                         collect 0 400\n\
                         collect 1 500\n";

/// Scripts that tell the sorts of instruments apart.
const KINDS: &[Case] = &[
    // Each sort of instrument at a cumulative and at a delta reader. The values tell apart the sorts and the number types.
    Case {
        name: "sorts",
        script: EACH_SORT,
        lines: "meter 0\n\
                instrument 0\n\
                instrument 1\n\
                instrument 2\n\
                instrument 3\n\
                instrument 4\n\
                ok\n\
                ok\n\
                ok\n\
                ok\n\
                ok\n\
                ok\n\
                ok\n\
                ok\n\
                ok\n\
                ok\n\
                collected 5\n\
                point app hits sum cumulative monotonic 100 200 - 18446744073709551615\n\
                point app open sum cumulative plain 100 200 - -7\n\
                point app load gauge 100 200 - 9223372036854775809\n\
                point app heat gauge 100 200 - -9223372036854775808\n\
                point app size histogram cumulative 100 200 - 2 4 5 18446744073709551615 0,1,1\n\
                collected 5\n\
                point app hits sum delta monotonic 100 300 - 18446744073709551615\n\
                point app open sum cumulative plain 100 300 - -7\n\
                point app load gauge 100 300 - 9223372036854775809\n\
                point app heat gauge 100 300 - -9223372036854775808\n\
                point app size histogram delta 100 300 - 2 4 5 18446744073709551615 0,1,1\n\
                ok\n\
                ok\n\
                ok\n\
                collected 5\n\
                point app hits sum cumulative monotonic 100 400 - 18446744073709551615\n\
                point app open sum cumulative plain 100 400 - -8\n\
                point app load gauge 100 400 - 9223372036854775809\n\
                point app heat gauge 100 400 - -2\n\
                point app size histogram cumulative 100 400 - 3 10 5 18446744073709551615 0,1,2\n\
                collected 3\n\
                point app open sum cumulative plain 100 500 - -8\n\
                point app heat gauge 300 500 - -2\n\
                point app size histogram delta 300 500 - 1 6 6 6 0,0,1\n",
    },
    // A number of the other type is refused and changes nothing.
    Case {
        name: "wrong_numbers",
        script: "reader cumulative\n\
                 go\n\
                 meter app\n\
                 build 0 u64_counter hits 100\n\
                 build 0 i64_up_down_counter open 100\n\
                 build 0 u64_gauge load 100\n\
                 build 0 i64_gauge heat 100\n\
                 build 0 u64_histogram size 100\n\
                 record 0 i:1 -\n\
                 record 1 u:1 -\n\
                 record 2 i:1 -\n\
                 record 3 u:1 -\n\
                 record 4 i:1 -\n\
                 collect 0 200\n",
        lines: "meter 0\n\
                instrument 0\n\
                instrument 1\n\
                instrument 2\n\
                instrument 3\n\
                instrument 4\n\
                refused 6 wrong number type\n\
                refused 6 wrong number type\n\
                refused 6 wrong number type\n\
                refused 6 wrong number type\n\
                refused 6 wrong number type\n\
                collected 0\n",
    },
    // An instrument with a bad name, a bad unit or, for a histogram, bad bounds ignores its records. The bounds of other
    // instruments are not checked.
    Case {
        name: "bad_settings",
        script: "reader cumulative\n\
                 go\n\
                 meter app\n\
                 build 0 u64_gauge _load 100\n\
                 build 0 i64_up_down_counter open 100 unit=%C3%B6\n\
                 build 0 u64_histogram size 100 bounds=1,1\n\
                 record 0 u:1 -\n\
                 record 1 i:-2 -\n\
                 record 2 u:4 -\n\
                 collect 0 200\n\
                 build 0 u64_counter hits 100 bounds=1,1\n\
                 record 3 u:8 -\n\
                 collect 0 300\n",
        lines: "meter 0\n\
                instrument 0\n\
                instrument 1\n\
                instrument 2\n\
                ok\n\
                ok\n\
                ok\n\
                collected 0\n\
                instrument 3\n\
                ok\n\
                collected 1\n\
                point app hits sum cumulative monotonic 100 300 - 8\n",
    },
];

/// Each sort has its own points, number type and settings.
#[test]
fn kinds(rt: HostRuntime) {
    assert_each_prints(&rt, rt.alloc(), KINDS);
}

/// A histogram of each sort, by a view or as the reader wants it.
const AS_HISTOGRAMS: &str = "reader cumulative agg:gauge=hist:0 agg:observablecounter=hist:0 \
                             agg:observableupdowncounter=hist:0 agg:observablegauge=hist:0\n\
                             view hits agg=hist:0\n\
                             view open agg=hist:0\n\
                             view size agg=hist:0\n\
                             view full agg=plain:0\n\
                             go\n\
                             meter app\n\
                             build 0 u64_counter hits 100\n\
                             build 0 i64_up_down_counter open 100\n\
                             build 0 u64_gauge load 100\n\
                             build 0 i64_gauge heat 100\n\
                             build 0 u64_histogram size 100\n\
                             build 0 u64_observable_counter seen 100\n\
                             build 0 i64_observable_up_down_counter held 100\n\
                             build 0 u64_observable_gauge full 100\n\
                             build 0 i64_observable_gauge cold 100\n\
                             record 0 u:1 -\n\
                             record 1 i:2 -\n\
                             record 2 u:3 -\n\
                             record 3 i:-4 -\n\
                             record 4 u:5 -\n\
                             observe 5 u:6 -\n\
                             observe 6 i:-7 -\n\
                             observe 7 u:8 -\n\
                             observe 8 i:-9 -\n\
                             collect 0 200\n";

/// What is collected of each sort besides its points. Up-down counters and observable gauges keep no sums as histograms.
#[test]
fn collected(rt: HostRuntime) {
    assert_collects(
        &rt,
        rt.alloc(),
        AS_HISTOGRAMS,
        "resource None attributes=0\n\
         scope app None None attributes=0\n\
         metric hits description= unit= u64 points=1 sums=true bounds=[0]\n\
         metric open description= unit= i64 points=1 sums=false bounds=[0]\n\
         metric load description= unit= u64 points=1 sums=true bounds=[0]\n\
         metric heat description= unit= i64 points=1 sums=true bounds=[0]\n\
         metric size description= unit= u64 points=1 sums=true bounds=[0]\n\
         metric seen description= unit= u64 points=1 sums=true bounds=[0]\n\
         metric held description= unit= i64 points=1 sums=false bounds=[0]\n\
         metric full description= unit= u64 points=1 sums=false bounds=[0]\n\
         metric cold description= unit= i64 points=1 sums=false bounds=[0]\n",
    );
    assert_collects(
        &rt,
        rt.alloc(),
        EACH_SORT,
        "resource None attributes=0\n\
         scope app None None attributes=0\n\
         metric hits description= unit= u64 points=1\n\
         metric open description= unit=1 i64 points=1\n\
         metric load description= unit=% u64 points=1\n\
         metric heat description= unit=K i64 points=1\n\
         metric size description= unit=By u64 points=1 sums=true bounds=[-1, 5]\n\
         resource None attributes=0\n\
         scope app None None attributes=0\n\
         metric hits description= unit= u64 points=1\n\
         metric open description= unit=1 i64 points=1\n\
         metric load description= unit=% u64 points=1\n\
         metric heat description= unit=K i64 points=1\n\
         metric size description= unit=By u64 points=1 sums=true bounds=[-1, 5]\n\
         resource None attributes=0\n\
         scope app None None attributes=0\n\
         metric hits description= unit= u64 points=1\n\
         metric open description= unit=1 i64 points=1\n\
         metric load description= unit=% u64 points=1\n\
         metric heat description= unit=K i64 points=1\n\
         metric size description= unit=By u64 points=1 sums=true bounds=[-1, 5]\n\
         resource None attributes=0\n\
         scope app None None attributes=0\n\
         metric open description= unit=1 i64 points=1\n\
         metric heat description= unit=K i64 points=1\n\
         metric size description= unit=By u64 points=1 sums=true bounds=[-1, 5]\n",
    );
}
