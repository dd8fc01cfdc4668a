//! Bound handles.

use super::super::assert_prints;

/// A handle bound past the limit stays with the overflow point, even once its attributes have a place.
#[test]
fn row_8(rt: HostRuntime) {
    assert_prints(
        &rt,
        rt.alloc(),
        "row_8",
        "reader delta\n\
         view c limit=1\n\
         go\n\
         meter m\n\
         build 0 u64_counter c 100\n\
         record 0 u:1 x=i:1\n\
         bind 0 y=i:1\n\
         collect 0 200\n\
         collect 0 300\n\
         record 0 u:2 y=i:1\n\
         recordbound 0 u:4\n\
         collect 0 400\n",
        "meter 0\n\
         instrument 0\n\
         ok\n\
         handle 0\n\
         collected 1\n\
         point m c sum delta monotonic 100 200 x=i:1 1\n\
         collected 0\n\
         ok\n\
         ok\n\
         collected 2\n\
         point m c sum delta monotonic 300 400 otel.metric.overflow=b:true 4\n\
         point m c sum delta monotonic 300 400 y=i:1 2\n",
    );
}

/// A handle has a point at a cumulative reader even without records.
#[test]
fn row_9(rt: HostRuntime) {
    assert_prints(
        &rt,
        rt.alloc(),
        "row_9",
        "reader cumulative\n\
         go\n\
         meter m\n\
         build 0 u64_histogram h 100\n\
         bind 0 k=s:v\n\
         collect 0 200\n",
        "meter 0\n\
         instrument 0\n\
         handle 0\n\
         collected 1\n\
         point m h histogram cumulative 100 200 k=s:v 0 0 none none 0,0,0,0,0,0,0,0,0,0,0,0,0,0,0,0\n",
    );
}

/// A handle of a gauge, which can be ended only once; its number is not used again.
#[test]
fn row_27(rt: HostRuntime) {
    assert_prints(
        &rt,
        rt.alloc(),
        "row_27",
        "reader cumulative\n\
         go\n\
         meter m\n\
         build 0 u64_gauge g 100\n\
         bind 0 k=s:v\n\
         recordbound 0 u:7\n\
         recordbound 0 u:42\n\
         collect 0 200\n\
         unbind 0\n\
         unbind 0\n\
         recordbound 0 u:1\n\
         bind 0 -\n",
        "meter 0\n\
         instrument 0\n\
         handle 0\n\
         ok\n\
         ok\n\
         collected 1\n\
         point m g gauge 100 200 k=s:v 42\n\
         ok\n\
         refused 4 unknown handle\n\
         refused 4 unknown handle\n\
         handle 1\n",
    );
}
