//! Bound handles.

use super::{Case, assert_each_prints};

/// Scripts that bind attributes.
const HANDLES: &[Case] = &[
    // What is refused: observable instruments, values of another number type, and instruments and handles that don't
    // exist.
    Case {
        name: "refused",
        script: "reader cumulative\n\
                 go\n\
                 meter m\n\
                 build 0 u64_counter c 100\n\
                 build 0 u64_observable_counter o 100\n\
                 bind 2 -\n\
                 bind 1 -\n\
                 bind 0 -\n\
                 recordbound 0 i:1\n\
                 recordbound 1 u:1\n\
                 unbind 1\n",
        lines: "meter 0\n\
                instrument 0\n\
                instrument 1\n\
                refused 3 unknown instrument\n\
                refused 7 wrong instrument kind\n\
                handle 0\n\
                refused 6 wrong number type\n\
                refused 4 unknown handle\n\
                refused 4 unknown handle\n",
    },
    // Two handles: each has its instrument and its attributes, and the end of one leaves the other one live.
    Case {
        name: "apart",
        script: "reader cumulative\n\
                 go\n\
                 meter m\n\
                 build 0 u64_counter c 100\n\
                 build 0 u64_counter d 100\n\
                 bind 0 x=i:1\n\
                 bind 1 y=i:2\n\
                 recordbound 1 u:5\n\
                 recordbound 0 u:3\n\
                 unbind 1\n\
                 recordbound 0 u:4\n\
                 recordbound 1 u:1\n\
                 collect 0 200\n",
        lines: "meter 0\n\
                instrument 0\n\
                instrument 1\n\
                handle 0\n\
                handle 1\n\
                ok\n\
                ok\n\
                ok\n\
                ok\n\
                refused 4 unknown handle\n\
                collected 2\n\
                point m c sum cumulative monotonic 100 200 x=i:1 7\n\
                point m d sum cumulative monotonic 100 200 y=i:2 5\n",
    },
];

/// What records through handles give, and which calls are refused.
#[test]
fn handles(rt: HostRuntime) {
    assert_each_prints(&rt, rt.alloc(), HANDLES);
}
