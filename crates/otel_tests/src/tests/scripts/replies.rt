//! What the program prints.

use super::{Case, assert_each_prints, assert_outcome, assert_prints, outcome_of};

/// One meter, one counter, and two records of one set of attributes.
#[test]
fn script_s1(rt: HostRuntime) {
    assert_prints(
        &rt,
        rt.alloc(),
        "script_s1",
        "reader cumulative\n\
         go\n\
         meter app\n\
         build 0 u64_counter requests 100\n\
         record 0 u:3 b=s:y,a=i:1\n\
         record 0 u:4 a=i:1,b=s:y\n\
         collect 0 200\n",
        "meter 0\n\
         instrument 0\n\
         ok\n\
         ok\n\
         collected 1\n\
         point app requests sum cumulative monotonic 100 200 a=i:1,b=s:y 7\n",
    );
}

/// A histogram with a view, refusals of each kind, a shutdown, and a collection after it.
#[test]
fn script_s2(rt: HostRuntime) {
    assert_prints(
        &rt,
        rt.alloc(),
        "script_s2",
        "reader delta\n\
         view lat limit=1 agg=hist:10\n\
         go\n\
         meter app 1.0\n\
         build 0 u64_histogram lat 5\n\
         record 0 u:10 x=b:true\n\
         record 0 u:11 y=s:\n\
         record 0 i:1 -\n\
         collect 0 9\n\
         collect 1 9\n\
         shutdown\n\
         collect 0 10\n",
        "meter 0\n\
         instrument 0\n\
         ok\n\
         ok\n\
         refused 6 wrong number type\n\
         collected 2\n\
         point app lat histogram delta 5 9 x=b:true 1 10 10 10 1,0\n\
         point app lat histogram delta 5 9 otel.metric.overflow=b:true 1 11 11 11 0,1\n\
         refused 5 unknown reader\n\
         ok\n\
         refused 9 reader is shut down or not registered\n",
    );
}

/// Numbers at the end of their range, leading zeros, and words between runs of spaces.
#[test]
fn numbers(rt: HostRuntime) {
    let script = b"#\xff\n\
                   reader   cumulative \n\
                   \n\
                   go\n\
                   meter app 1\n\
                   build 00 u64_counter a 0000000000000000000000000000000000000000007\n\
                   \x20 record  0  u:18446744073709551615  -\n\
                   record 0 u:3 -\n\
                   collect 0 18446744073709551615";
    let lines = "meter 0\n\
                 instrument 0\n\
                 ok\n\
                 ok\n\
                 collected 1\n\
                 point app a sum cumulative monotonic 7 18446744073709551615 - 2\n";
    let outcome = outcome_of(rt.alloc(), script);
    assert_outcome(&rt, "numbers", &outcome, 0, lines, "");
}

/// Scripts with each reply, and each word that is printed.
const REPLIES: &[Case] = &[
    // Calls after a shutdown.
    Case {
        name: "shutdowns",
        script: "reader delta\n\
                 go\n\
                 flush\n\
                 shutdown\n\
                 shutdown\n\
                 flush\n\
                 meter app\n\
                 build none u64_counter hits 5\n",
        lines: "ok\n\
                ok\n\
                refused 8 already shut down\n\
                refused 8 already shut down\n\
                meter none\n\
                instrument 0\n",
    },
    // The script `examples/requests.script`, and what `examples/requests.out` says that it prints.
    Case {
        name: "example",
        script: "# A shop counts its requests, and collects twice.\n\
                 reader cumulative\n\
                 go\n\
                 meter shop 1.0\n\
                 build 0 u64_counter requests 100 unit=1\n\
                 record 0 u:3 path=s:/cart,ok=b:true\n\
                 record 0 u:4 ok=b:true,path=s:/cart\n\
                 collect 0 200\n\
                 record 0 u:1 -\n\
                 record 0 i:1 -\n\
                 record 7 u:1 -\n\
                 collect 0 300\n",
        lines: "meter 0\n\
                instrument 0\n\
                ok\n\
                ok\n\
                collected 1\n\
                point shop requests sum cumulative monotonic 100 200 ok=b:true,path=s:/cart 7\n\
                ok\n\
                refused 6 wrong number type\n\
                refused 3 unknown instrument\n\
                collected 2\n\
                point shop requests sum cumulative monotonic 100 300 - 1\n\
                point shop requests sum cumulative monotonic 100 300 ok=b:true,path=s:/cart 7\n",
    },
    // Escapes, and the special word for a name. There are four meters, since an absent version is not an empty one.
    Case {
        name: "texts",
        script: "reader cumulative\n\
                 go\n\
                 meter -\n\
                 meter %2D\n\
                 meter a%2C%20b%zz\r\n\
                 meter -\n\
                 meter - -\n\
                 build 0 u64_counter a 1\n\
                 build 1 u64_counter a 2\n\
                 build 2 u64_counter a 3 unit= description=-\n\
                 record 0 u:1 -\n\
                 record 1 u:1 -\n\
                 record 2 u:1 -\n\
                 collect 0 9\n",
        lines: "meter 0\n\
                meter 1\n\
                meter 2\n\
                meter 0\n\
                meter 3\n\
                instrument 0\n\
                instrument 1\n\
                instrument 2\n\
                ok\n\
                ok\n\
                ok\n\
                collected 3\n\
                point - a sum cumulative monotonic 1 9 - 1\n\
                point %2D a sum cumulative monotonic 2 9 - 1\n\
                point a%2C%20b%25zz%0D a sum cumulative monotonic 3 9 - 1\n",
    },
    // Attributes as they are read, printed in the order of their keys.
    Case {
        name: "attributes",
        script: "reader cumulative\n\
                 go\n\
                 meter app\n\
                 build 0 u64_counter a 1\n\
                 record 0 u:1 =s:,-=s:-,a=s:x=y,b=b:true,c=b:false\n\
                 record 0 u:2 z=i:-0,y=i:-9223372036854775808,y=s:lost\n\
                 record 0 u:3 %c3%A9=s:%7e%2c%3D,~=s:%25!%7f\n\
                 collect 0 2\n",
        lines: "meter 0\n\
                instrument 0\n\
                ok\n\
                ok\n\
                ok\n\
                collected 3\n\
                point app a sum cumulative monotonic 1 2 =s:,-=s:-,a=s:x%3Dy,b=b:true,c=b:false 1\n\
                point app a sum cumulative monotonic 1 2 y=i:-9223372036854775808,z=i:0 2\n\
                point app a sum cumulative monotonic 1 2 ~=s:%25!%7F,%C3%A9=s:~%2C%3D 3\n",
    },
    // Refused calls change nothing, and the status stays 0.
    Case {
        name: "refused_calls",
        script: "reader cumulative\n\
                 go\n\
                 meter app\n\
                 build 1 u64_counter a 1\n\
                 build 0 u64_counter a 1\n\
                 build none u64_counter a 1\n\
                 record 0 i:1 -\n\
                 record 1 i:-1 -\n\
                 record 1 u:1 -\n\
                 record 18446744073709551615 u:1 -\n\
                 collect 0 2\n\
                 collect 1 2\n",
        lines: "meter 0\n\
                refused 2 unknown meter\n\
                instrument 0\n\
                instrument 1\n\
                refused 6 wrong number type\n\
                refused 6 wrong number type\n\
                ok\n\
                refused 3 unknown instrument\n\
                collected 0\n\
                refused 5 unknown reader\n",
    },
    // Readers of each temporality, in any case of letters: each gives the sums in its own way.
    Case {
        name: "readers",
        script: "reader DELTA\n\
                 reader cumulative\n\
                 reader LowMemory\n\
                 go\n\
                 meter app\n\
                 build 0 u64_counter requests 100\n\
                 record 0 u:3 -\n\
                 collect 0 200\n\
                 record 0 u:4 -\n\
                 collect 0 300\n\
                 collect 1 300\n\
                 collect 2 300\n\
                 collect 2 400\n\
                 collect 3 400\n",
        lines: "meter 0\n\
                instrument 0\n\
                ok\n\
                collected 1\n\
                point app requests sum delta monotonic 100 200 - 3\n\
                ok\n\
                collected 1\n\
                point app requests sum delta monotonic 200 300 - 4\n\
                collected 1\n\
                point app requests sum cumulative monotonic 100 300 - 7\n\
                collected 1\n\
                point app requests sum delta monotonic 100 300 - 7\n\
                collected 0\n\
                refused 5 unknown reader\n",
    },
    // A provider without readers.
    Case {
        name: "only_go",
        script: "go",
        lines: "",
    },
    // Calls to a provider without readers.
    Case {
        name: "no_reader",
        script: "go\nmeter app\nbuild 0 u64_counter a 1\nrecord 0 u:1 -\ncollect 0 2\n",
        lines: "meter 0\ninstrument 0\nok\nrefused 5 unknown reader\n",
    },
    // A unit and a description are part of an instrument's identity; an absent one is the empty text.
    Case {
        name: "options",
        script: "reader cumulative\n\
                 go\n\
                 meter app\n\
                 build 0 u64_counter a 1\n\
                 build 0 u64_counter a 2 unit=%73 description=x%20y\n\
                 build 0 u64_counter a 3 description=x%20y unit=s\n\
                 build 0 u64_counter a 4 unit=- description=\n\
                 record 0 u:1 -\n\
                 record 1 u:2 -\n\
                 record 2 u:4 -\n\
                 record 3 u:8 -\n\
                 collect 0 9\n",
        lines: "meter 0\n\
                instrument 0\n\
                instrument 1\n\
                instrument 2\n\
                instrument 3\n\
                ok\n\
                ok\n\
                ok\n\
                ok\n\
                collected 2\n\
                point app a sum cumulative monotonic 1 9 - 9\n\
                point app a sum cumulative monotonic 2 9 - 6\n",
    },
];

/// Each reply is printed as a line.
#[test]
fn replies(rt: HostRuntime) {
    assert_each_prints(&rt, rt.alloc(), REPLIES);
}
