//! Histograms with their own and with the usual bounds.

use super::super::assert_prints;
use super::super::collected::assert_collects;

/// A histogram with its own bounds.
#[test]
fn row_1(rt: HostRuntime) {
    assert_prints(
        &rt,
        rt.alloc(),
        "row_1",
        "reader cumulative\n\
         go\n\
         meter app\n\
         build 0 u64_histogram h 100 bounds=1,3,6\n\
         record 0 u:1 -\n\
         record 0 u:2 -\n\
         record 0 u:3 -\n\
         record 0 u:4 -\n\
         record 0 u:5 -\n\
         record 0 u:6 -\n\
         record 0 u:7 -\n\
         record 0 u:8 -\n\
         record 0 u:9 -\n\
         record 0 u:10 -\n\
         collect 0 200\n",
        "meter 0\n\
         instrument 0\n\
         ok\n\
         ok\n\
         ok\n\
         ok\n\
         ok\n\
         ok\n\
         ok\n\
         ok\n\
         ok\n\
         ok\n\
         collected 1\n\
         point app h histogram cumulative 100 200 - 10 55 1 10 1,2,3,4\n",
    );
}

/// A histogram without its own bounds has the fifteen usual ones.
#[test]
fn row_2(rt: HostRuntime) {
    let script = "reader delta\n\
                  go\n\
                  meter app\n\
                  build 0 u64_histogram h 100\n\
                  record 0 u:0 -\n\
                  record 0 u:5 -\n\
                  record 0 u:6 -\n\
                  record 0 u:10001 -\n\
                  collect 0 200\n\
                  collect 0 300\n";
    assert_prints(
        &rt,
        rt.alloc(),
        "row_2",
        script,
        "meter 0\n\
         instrument 0\n\
         ok\n\
         ok\n\
         ok\n\
         ok\n\
         collected 1\n\
         point app h histogram delta 100 200 - 4 10012 0 10001 1,1,1,0,0,0,0,0,0,0,0,0,0,0,0,1\n\
         collected 0\n",
    );
    assert_collects(
        &rt,
        rt.alloc(),
        script,
        "resource None attributes=0\n\
         scope app None None attributes=0\n\
         metric h description= unit= u64 points=1 sums=true \
         bounds=[0, 5, 10, 25, 50, 75, 100, 250, 500, 750, 1000, 2500, 5000, 7500, 10000]\n\
         resource None attributes=0\n",
    );
}
