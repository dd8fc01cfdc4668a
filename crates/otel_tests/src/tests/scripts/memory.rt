//! Scripts during which memory is refused, by hand: `rt try --test --fail-alloc N`.

use super::{Case, RefusedCase, assert_each_prints_or};

/// Scripts, and what else each may print.
const REFUSED: &[RefusedCase] = &[
    // A call for which memory is refused has no effect, whichever call it is; a record through a handle takes none. Memory
    // is refused by hand: `rt try --test --fail-alloc N`.
    RefusedCase {
        case: Case {
            name: "refused_memory",
            script: "reader cumulative\n\
                     go\n\
                     meter app\n\
                     build 0 u64_counter requests 100\n\
                     record 0 u:1 a=i:1\n\
                     record 0 u:2 -\n\
                     record 0 u:4 b=i:1\n\
                     bind 0 c=i:1\n\
                     recordbound 0 u:8\n\
                     collect 0 200\n",
            lines: "meter 0\n\
                    instrument 0\n\
                    ok\n\
                    ok\n\
                    ok\n\
                    handle 0\n\
                    ok\n\
                    collected 4\n\
                    point app requests sum cumulative monotonic 100 200 - 2\n\
                    point app requests sum cumulative monotonic 100 200 a=i:1 1\n\
                    point app requests sum cumulative monotonic 100 200 b=i:1 4\n\
                    point app requests sum cumulative monotonic 100 200 c=i:1 8\n",
        },
        refused: &[
            "refused 1 out of memory\n\
             refused 2 unknown meter\n\
             refused 3 unknown instrument\n\
             refused 3 unknown instrument\n\
             refused 3 unknown instrument\n\
             refused 3 unknown instrument\n\
             refused 4 unknown handle\n\
             collected 0\n",
            "meter 0\n\
             refused 1 out of memory\n\
             refused 3 unknown instrument\n\
             refused 3 unknown instrument\n\
             refused 3 unknown instrument\n\
             refused 3 unknown instrument\n\
             refused 4 unknown handle\n\
             collected 0\n",
            "meter 0\n\
             instrument 0\n\
             refused 1 out of memory\n\
             ok\n\
             ok\n\
             handle 0\n\
             ok\n\
             collected 3\n\
             point app requests sum cumulative monotonic 100 200 - 2\n\
             point app requests sum cumulative monotonic 100 200 b=i:1 4\n\
             point app requests sum cumulative monotonic 100 200 c=i:1 8\n",
            "meter 0\n\
             instrument 0\n\
             ok\n\
             ok\n\
             refused 1 out of memory\n\
             handle 0\n\
             ok\n\
             collected 3\n\
             point app requests sum cumulative monotonic 100 200 - 2\n\
             point app requests sum cumulative monotonic 100 200 a=i:1 1\n\
             point app requests sum cumulative monotonic 100 200 c=i:1 8\n",
            "meter 0\n\
             instrument 0\n\
             ok\n\
             ok\n\
             ok\n\
             refused 1 out of memory\n\
             refused 4 unknown handle\n\
             collected 3\n\
             point app requests sum cumulative monotonic 100 200 - 2\n\
             point app requests sum cumulative monotonic 100 200 a=i:1 1\n\
             point app requests sum cumulative monotonic 100 200 b=i:1 4\n",
            "meter 0\n\
             instrument 0\n\
             ok\n\
             ok\n\
             ok\n\
             handle 0\n\
             ok\n\
             refused 1 out of memory\n",
        ],
    },
    // The same of a build that copies the bounds that a reader wants for counters.
    RefusedCase {
        case: Case {
            name: "refused_bounds",
            script: "reader cumulative agg:counter=hist:10\n\
                     go\n\
                     meter app\n\
                     build 0 u64_counter requests 100\n\
                     record 0 u:11 -\n\
                     collect 0 200\n",
            lines: "meter 0\n\
                    instrument 0\n\
                    ok\n\
                    collected 1\n\
                    point app requests histogram cumulative 100 200 - 1 11 11 11 0,1\n",
        },
        refused: &[
            "refused 1 out of memory\n\
             refused 2 unknown meter\n\
             refused 3 unknown instrument\n\
             collected 0\n",
            "meter 0\n\
             refused 1 out of memory\n\
             refused 3 unknown instrument\n\
             collected 0\n",
            "meter 0\n\
             instrument 0\n\
             ok\n\
             refused 1 out of memory\n",
        ],
    },
    // A collection for which memory is refused has no effect: what was observed for it is not kept. Memory is refused by
    // hand: `rt try --test --fail-alloc N`.
    RefusedCase {
        case: Case {
            name: "refused_observations",
            script: "reader delta\n\
                     go\n\
                     meter app\n\
                     build 0 u64_observable_counter seen 100\n\
                     observe 0 u:10 a=i:1\n\
                     collect 0 200\n\
                     observe 0 u:15 a=i:1\n\
                     collect 0 300\n\
                     collect 0 400\n",
            lines: "meter 0\n\
                    instrument 0\n\
                    collected 1\n\
                    point app seen sum delta monotonic 100 200 a=i:1 10\n\
                    collected 1\n\
                    point app seen sum delta monotonic 200 300 a=i:1 5\n\
                    collected 0\n",
        },
        refused: &[
            "refused 1 out of memory\n\
             refused 2 unknown meter\n\
             refused 3 unknown instrument\n\
             refused 3 unknown instrument\n\
             collected 0\n",
            "meter 0\n\
             refused 1 out of memory\n\
             refused 3 unknown instrument\n\
             refused 3 unknown instrument\n\
             collected 0\n",
            "meter 0\n\
             instrument 0\n\
             refused 1 out of memory\n\
             collected 1\n\
             point app seen sum delta monotonic 100 300 a=i:1 15\n\
             collected 0\n",
            "meter 0\n\
             instrument 0\n\
             collected 1\n\
             point app seen sum delta monotonic 100 200 a=i:1 10\n\
             refused 1 out of memory\n\
             collected 0\n",
            "meter 0\n\
             instrument 0\n\
             collected 1\n\
             point app seen sum delta monotonic 100 200 a=i:1 10\n\
             collected 1\n\
             point app seen sum delta monotonic 200 300 a=i:1 5\n\
             refused 1 out of memory\n",
        ],
    },
];

/// A call for which memory is refused has no effect.
#[test]
fn refused_memory(rt: HostRuntime) {
    assert_each_prints_or(&rt, rt.alloc(), REFUSED);
}
