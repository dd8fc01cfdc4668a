//! Observable instruments.

use super::super::assert_prints;

/// A delta reader gets the amount by which an observed sum rose since the previous collection.
#[test]
fn row_5(rt: HostRuntime) {
    assert_prints(
        &rt,
        rt.alloc(),
        "row_5",
        "reader delta\n\
         go\n\
         meter app\n\
         build 0 u64_observable_counter c 100\n\
         observe 0 u:10 k=s:v\n\
         collect 0 200\n\
         observe 0 u:15 k=s:v\n\
         collect 0 300\n\
         collect 0 400\n\
         observe 0 u:20 k=s:v\n\
         collect 0 500\n",
        "meter 0\n\
         instrument 0\n\
         collected 1\n\
         point app c sum delta monotonic 100 200 k=s:v 10\n\
         collected 1\n\
         point app c sum delta monotonic 200 300 k=s:v 5\n\
         collected 0\n\
         collected 1\n\
         point app c sum delta monotonic 400 500 k=s:v 20\n",
    );
}

/// Observations past the limit of a view.
#[test]
fn row_21(rt: HostRuntime) {
    assert_prints(
        &rt,
        rt.alloc(),
        "row_21",
        "reader delta\n\
         view c limit=1\n\
         go\n\
         meter app\n\
         build 0 u64_observable_counter c 100\n\
         observe 0 u:10 x=i:1\n\
         observe 0 u:20 y=i:1\n\
         observe 0 u:30 z=i:1\n\
         collect 0 200\n\
         observe 0 u:10 x=i:1\n\
         observe 0 u:20 y=i:1\n\
         observe 0 u:30 z=i:1\n\
         collect 0 300\n",
        "meter 0\n\
         instrument 0\n\
         collected 2\n\
         point app c sum delta monotonic 100 200 x=i:1 10\n\
         point app c sum delta monotonic 100 200 otel.metric.overflow=b:true 30\n\
         collected 2\n\
         point app c sum delta monotonic 200 300 x=i:1 0\n\
         point app c sum delta monotonic 200 300 otel.metric.overflow=b:true 0\n",
    );
}

/// What is observed for one reader doesn't reach the other.
#[test]
fn row_25(rt: HostRuntime) {
    assert_prints(
        &rt,
        rt.alloc(),
        "row_25",
        "reader delta\n\
         reader delta\n\
         go\n\
         meter app\n\
         build 0 u64_observable_counter c 100\n\
         observe 0 u:5 k=s:v\n\
         collect 1 200\n\
         observe 0 u:8 k=s:v\n\
         collect 0 300\n\
         observe 0 u:9 k=s:v\n\
         collect 1 400\n\
         collect 0 500\n",
        "meter 0\n\
         instrument 0\n\
         collected 1\n\
         point app c sum delta monotonic 100 200 k=s:v 5\n\
         collected 1\n\
         point app c sum delta monotonic 100 300 k=s:v 8\n\
         collected 1\n\
         point app c sum delta monotonic 200 400 k=s:v 4\n\
         collected 0\n",
    );
}

/// A refused collection changes nothing: even what was observed before the bad observation goes nowhere.
#[test]
fn row_40(rt: HostRuntime) {
    assert_prints(
        &rt,
        rt.alloc(),
        "row_40",
        "reader delta\n\
         go\n\
         meter app\n\
         build 0 u64_observable_counter seen 100\n\
         build 0 u64_counter hits 100\n\
         observe 0 u:10 k=s:v\n\
         collect 0 200\n\
         observe 0 u:99 k=s:v\n\
         observe 1 u:1 -\n\
         collect 0 300\n\
         observe 0 u:15 k=s:v\n\
         collect 0 400\n",
        "meter 0\n\
         instrument 0\n\
         instrument 1\n\
         collected 1\n\
         point app seen sum delta monotonic 100 200 k=s:v 10\n\
         refused 7 wrong instrument kind\n\
         collected 1\n\
         point app seen sum delta monotonic 200 400 k=s:v 5\n",
    );
}

/// One of two readers drops what observable counters observe.
#[test]
fn row_51(rt: HostRuntime) {
    assert_prints(
        &rt,
        rt.alloc(),
        "row_51",
        "reader delta agg:observablecounter=drop\n\
         reader delta\n\
         go\n\
         meter app\n\
         build 0 u64_observable_counter c 100\n\
         observe 0 u:7 k=s:v\n\
         collect 0 200\n\
         observe 0 u:9 k=s:v\n\
         collect 1 300\n\
         observe 0 u:12 k=s:v\n\
         collect 1 400\n",
        "meter 0\n\
         instrument 0\n\
         collected 0\n\
         collected 1\n\
         point app c sum delta monotonic 100 300 k=s:v 9\n\
         collected 1\n\
         point app c sum delta monotonic 300 400 k=s:v 3\n",
    );
}
