//! Options of readers.

use super::super::assert_prints;
use super::super::collected::assert_collects;

/// One of two readers has a limit for counters.
#[test]
fn row_42(rt: HostRuntime) {
    assert_prints(
        &rt,
        rt.alloc(),
        "row_42",
        "reader delta limit:counter=1\n\
         reader delta\n\
         go\n\
         meter m\n\
         build 0 u64_counter c 100\n\
         record 0 u:1 x=i:1\n\
         record 0 u:2 y=i:1\n\
         collect 0 200\n\
         collect 1 300\n",
        "meter 0\n\
         instrument 0\n\
         ok\n\
         ok\n\
         collected 2\n\
         point m c sum delta monotonic 100 200 x=i:1 1\n\
         point m c sum delta monotonic 100 200 otel.metric.overflow=b:true 2\n\
         collected 2\n\
         point m c sum delta monotonic 100 300 x=i:1 1\n\
         point m c sum delta monotonic 100 300 y=i:1 2\n",
    );
}

/// A view's limit wins over a reader's.
#[test]
fn row_43(rt: HostRuntime) {
    assert_prints(
        &rt,
        rt.alloc(),
        "row_43",
        "reader delta limit:counter=1\n\
         view c limit=2\n\
         go\n\
         meter m\n\
         build 0 u64_counter c 100\n\
         record 0 u:1 x=i:1\n\
         record 0 u:2 y=i:1\n\
         collect 0 200\n",
        "meter 0\n\
         instrument 0\n\
         ok\n\
         ok\n\
         collected 2\n\
         point m c sum delta monotonic 100 200 x=i:1 1\n\
         point m c sum delta monotonic 100 200 y=i:1 2\n",
    );
}

/// A limit for counters does not apply to an up-down counter.
#[test]
fn row_44(rt: HostRuntime) {
    assert_prints(
        &rt,
        rt.alloc(),
        "row_44",
        "reader delta limit:counter=1\n\
         go\n\
         meter m\n\
         build 0 i64_up_down_counter c 100\n\
         record 0 i:1 x=i:1\n\
         record 0 i:2 y=i:1\n\
         collect 0 200\n",
        "meter 0\n\
         instrument 0\n\
         ok\n\
         ok\n\
         collected 2\n\
         point m c sum cumulative plain 100 200 x=i:1 1\n\
         point m c sum cumulative plain 100 200 y=i:1 2\n",
    );
}

/// The limit for a kind wins over the one for all kinds.
#[test]
fn row_45(rt: HostRuntime) {
    assert_prints(
        &rt,
        rt.alloc(),
        "row_45",
        "reader delta limit=1 limit:counter=2\n\
         go\n\
         meter m\n\
         build 0 u64_counter c 100\n\
         record 0 u:1 x=i:1\n\
         record 0 u:2 y=i:1\n\
         collect 0 200\n",
        "meter 0\n\
         instrument 0\n\
         ok\n\
         ok\n\
         collected 2\n\
         point m c sum delta monotonic 100 200 x=i:1 1\n\
         point m c sum delta monotonic 100 200 y=i:1 2\n",
    );
}

/// One of two readers drops counters.
#[test]
fn row_46(rt: HostRuntime) {
    assert_prints(
        &rt,
        rt.alloc(),
        "row_46",
        "reader cumulative agg:counter=drop\n\
         reader cumulative\n\
         go\n\
         meter m\n\
         build 0 u64_counter c 100\n\
         record 0 u:5 -\n\
         collect 0 200\n\
         collect 1 300\n",
        "meter 0\n\
         instrument 0\n\
         ok\n\
         collected 0\n\
         collected 1\n\
         point m c sum cumulative monotonic 100 300 - 5\n",
    );
}

/// Two readers want different things of histograms.
#[test]
fn row_47(rt: HostRuntime) {
    assert_prints(
        &rt,
        rt.alloc(),
        "row_47",
        "reader cumulative agg:histogram=sum\n\
         reader cumulative agg:histogram=plain:10\n\
         go\n\
         meter m\n\
         build 0 u64_histogram h 100\n\
         record 0 u:10 -\n\
         record 0 u:11 -\n\
         collect 0 200\n\
         collect 1 300\n",
        "meter 0\n\
         instrument 0\n\
         ok\n\
         ok\n\
         collected 1\n\
         point m h sum cumulative monotonic 100 200 - 21\n\
         collected 1\n\
         point m h histogram cumulative 100 300 - 2 21 none none 1,1\n",
    );
}

/// A histogram's own bounds win over a reader's, but the reader says whether the least and the greatest value are kept.
#[test]
fn row_48(rt: HostRuntime) {
    let script = "reader cumulative agg:histogram=sum\n\
                  reader cumulative agg:histogram=plain:10\n\
                  go\n\
                  meter m\n\
                  build 0 u64_histogram h 100 bounds=5\n\
                  record 0 u:10 -\n\
                  record 0 u:11 -\n\
                  collect 0 200\n\
                  collect 1 300\n";
    assert_prints(
        &rt,
        rt.alloc(),
        "row_48",
        script,
        "meter 0\n\
         instrument 0\n\
         ok\n\
         ok\n\
         collected 1\n\
         point m h sum cumulative monotonic 100 200 - 21\n\
         collected 1\n\
         point m h histogram cumulative 100 300 - 2 21 none none 0,2\n",
    );
    assert_collects(
        &rt,
        rt.alloc(),
        script,
        "resource None attributes=0\n\
         scope m None None attributes=0\n\
         metric h description= unit= u64 points=1\n\
         resource None attributes=0\n\
         scope m None None attributes=0\n\
         metric h description= unit= u64 points=1 sums=true bounds=[5]\n",
    );
}

/// A view that asks for the default aggregation gets the reader's bounds, not the instrument's.
#[test]
fn row_49(rt: HostRuntime) {
    let script = "reader cumulative agg:histogram=sum\n\
                  reader cumulative agg:histogram=plain:10\n\
                  view h agg=default\n\
                  go\n\
                  meter m\n\
                  build 0 u64_histogram h 100 bounds=5\n\
                  record 0 u:10 -\n\
                  record 0 u:11 -\n\
                  collect 0 200\n\
                  collect 1 300\n";
    assert_prints(
        &rt,
        rt.alloc(),
        "row_49",
        script,
        "meter 0\n\
         instrument 0\n\
         ok\n\
         ok\n\
         collected 1\n\
         point m h sum cumulative monotonic 100 200 - 21\n\
         collected 1\n\
         point m h histogram cumulative 100 300 - 2 21 none none 1,1\n",
    );
    assert_collects(
        &rt,
        rt.alloc(),
        script,
        "resource None attributes=0\n\
         scope m None None attributes=0\n\
         metric h description= unit= u64 points=1\n\
         resource None attributes=0\n\
         scope m None None attributes=0\n\
         metric h description= unit= u64 points=1 sums=true bounds=[10]\n",
    );
}

/// A reader that wants an aggregation that doesn't fit counters gets sums.
#[test]
fn row_50(rt: HostRuntime) {
    assert_prints(
        &rt,
        rt.alloc(),
        "row_50",
        "reader cumulative agg:counter=lastvalue\n\
         go\n\
         meter m\n\
         build 0 u64_counter c 100\n\
         record 0 u:2 -\n\
         record 0 u:3 -\n\
         collect 0 200\n",
        "meter 0\n\
         instrument 0\n\
         ok\n\
         ok\n\
         collected 1\n\
         point m c sum cumulative monotonic 100 200 - 5\n",
    );
}

/// A counter may be kept as a histogram.
#[test]
fn row_52(rt: HostRuntime) {
    assert_prints(
        &rt,
        rt.alloc(),
        "row_52",
        "reader cumulative agg:counter=hist:10\n\
         go\n\
         meter m\n\
         build 0 u64_counter c 100\n\
         record 0 u:10 -\n\
         record 0 u:11 -\n\
         collect 0 200\n",
        "meter 0\n\
         instrument 0\n\
         ok\n\
         ok\n\
         collected 1\n\
         point m c histogram cumulative 100 200 - 2 21 10 11 1,1\n",
    );
}
