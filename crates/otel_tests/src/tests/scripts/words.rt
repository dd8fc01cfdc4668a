//! What each word of a line is for, where another reading would print something else.

use super::{Case, assert_bad, assert_each_prints, assert_prints};

/// Scripts that print something else if a word is read in another way.
const WORDS: &[Case] = &[
    // A description may be any text, a unit may not, and both tell streams apart.
    Case {
        name: "descriptions_and_units",
        script: "reader cumulative\n\
                 go\n\
                 meter app\n\
                 build 0 u64_counter a 100 description=%C3%B6 unit=s\n\
                 build 0 u64_counter b 110 description=s unit=%C3%B6\n\
                 build 0 u64_counter c 120 unit=s description=x\n\
                 build 0 u64_counter c 130 unit=s description=y\n\
                 build 0 u64_counter c 140 unit=t description=x\n\
                 build 0 u64_counter c 150 description=x unit=s\n\
                 record 0 u:1 -\n\
                 record 1 u:2 -\n\
                 record 2 u:4 -\n\
                 record 3 u:8 -\n\
                 record 4 u:16 -\n\
                 record 5 u:32 -\n\
                 collect 0 200\n",
        lines: "meter 0\n\
                instrument 0\n\
                instrument 1\n\
                instrument 2\n\
                instrument 3\n\
                instrument 4\n\
                instrument 5\n\
                ok\n\
                ok\n\
                ok\n\
                ok\n\
                ok\n\
                ok\n\
                collected 4\n\
                point app a sum cumulative monotonic 100 200 - 1\n\
                point app c sum cumulative monotonic 120 200 - 36\n\
                point app c sum cumulative monotonic 130 200 - 8\n\
                point app c sum cumulative monotonic 140 200 - 16\n",
    },
    // The first word of a meter is its name, the second its version.
    Case {
        name: "names_and_versions",
        script: "reader delta\n\
                 reader lowmemory\n\
                 reader cumulative\n\
                 go\n\
                 meter app 1.0\n\
                 meter 1.0 app\n\
                 meter app 2.0\n\
                 meter app 1.0\n\
                 build 2 u64_counter c 100\n\
                 build 1 u64_counter b 110\n\
                 build 0 u64_counter a 120\n\
                 record 0 u:1 -\n\
                 record 1 u:2 -\n\
                 record 2 u:4 -\n\
                 collect 0 200\n\
                 collect 1 210\n\
                 collect 2 220\n\
                 collect 1 230\n\
                 collect 2 240\n",
        lines: "meter 0\n\
                meter 1\n\
                meter 2\n\
                meter 0\n\
                instrument 0\n\
                instrument 1\n\
                instrument 2\n\
                ok\n\
                ok\n\
                ok\n\
                collected 3\n\
                point app a sum delta monotonic 120 200 - 4\n\
                point 1.0 b sum delta monotonic 110 200 - 2\n\
                point app c sum delta monotonic 100 200 - 1\n\
                collected 3\n\
                point app a sum delta monotonic 120 210 - 4\n\
                point 1.0 b sum delta monotonic 110 210 - 2\n\
                point app c sum delta monotonic 100 210 - 1\n\
                collected 3\n\
                point app a sum cumulative monotonic 120 220 - 4\n\
                point 1.0 b sum cumulative monotonic 110 220 - 2\n\
                point app c sum cumulative monotonic 100 220 - 1\n\
                collected 0\n\
                collected 3\n\
                point app a sum cumulative monotonic 120 240 - 4\n\
                point 1.0 b sum cumulative monotonic 110 240 - 2\n\
                point app c sum cumulative monotonic 100 240 - 1\n",
    },
    // A tab is a byte of a word: it does not separate words.
    Case {
        name: "tabs",
        script: "go\nmeter a\tb\nmeter a b\nmeter a\tb\n",
        lines: "meter 0\nmeter 1\nmeter 0\n",
    },
];

/// Each word is read for what it stands for.
#[test]
fn words(rt: HostRuntime) {
    assert_each_prints(&rt, rt.alloc(), WORDS);
}

/// A tab is a byte of a word: it neither separates words nor makes a line empty.
#[test]
fn tabs(rt: HostRuntime) {
    assert_bad(
        &rt,
        rt.alloc(),
        &[
            (b"\t\ngo\n", 1),
            (b" \t \ngo\n", 1),
            (b"reader\tcumulative\ngo\n", 1),
            (b"go\t\n", 1),
            (b"go\n\t\n", 2),
            (b"go\nmeter\ta\n", 2),
        ],
    );
}

/// Names, texts and lists of any length are accepted.
#[test]
fn long_lines(rt: HostRuntime) {
    let alloc = rt.alloc();
    let name = "n".repeat(alloc, 255).expect(&rt, "a name");
    let scope = "s".repeat(alloc, 5000).expect(&rt, "a scope");
    let description = "d".repeat(alloc, 5000).expect(&rt, "a description");
    let unit = "u".repeat(alloc, 63).expect(&rt, "a unit");
    let value = "v".repeat(alloc, 5000).expect(&rt, "a value");
    let mut pairs = format!(in alloc; "a=s:{}", value.as_str()).expect(&rt, "a pair");
    for number in 1000..1300 {
        write!(pairs, ",k{number}=i:{number}").expect(&rt, "pairs");
    }
    let script = format!(in alloc;
        "reader cumulative\ngo\nmeter {} {}\nbuild 0 u64_counter {} 1 description={} unit={}\nrecord 0 u:7 {}\ncollect 0 2\n",
        scope.as_str(),
        scope.as_str(),
        name.as_str(),
        description.as_str(),
        unit.as_str(),
        pairs.as_str()
    )
    .expect(&rt, "a script");
    let printed = format!(in alloc;
        "meter 0\ninstrument 0\nok\ncollected 1\npoint {} {} sum cumulative monotonic 1 2 {} 7\n",
        scope.as_str(),
        name.as_str(),
        pairs.as_str()
    )
    .expect(&rt, "lines");
    assert_prints(&rt, alloc, "long_lines", script.as_str(), printed.as_str());
}
