//! What is said of scripts with bad lines, and that nothing is said of others.

use super::commands::{arguments, outcome_of_bytes};
use super::failing::{FailingReader, FailingWriter};
use super::{Outcome, assert_bad, assert_outcome};
use metrics_script::commands::obey;
use std::alloc::Global;
use std::io::ErrorKind;
use std::process::Abort;

/// A script that isn't good, its first bad line, and what is said of it.
struct BadScript {
    script: &'static [u8],
    first: u64,
    said: &'static str,
}

/// What is said of this script.
fn explained(rt: &impl Abort, alloc: Global, script: &[u8]) -> Outcome {
    let given = arguments(rt, alloc, &["explain"]);
    outcome_of_bytes(alloc, Ok(given), script)
}

/// Asserts of each script that this is said of it, and that otherwise its first bad line is named.
fn assert_each_says(rt: &impl Abort, alloc: Global, scripts: &[BadScript]) {
    for bad in scripts {
        let outcome = explained(rt, alloc, bad.script);
        let name = str::from_utf8(bad.script).unwrap_or("a script that isn't UTF-8");
        assert_outcome(rt, name, &outcome, 2, "", bad.said);
        assert_bad(rt, alloc, &[(bad.script, bad.first)]);
    }
}

/// Lines that begin with a wrong word, have too few or too many, or stand where they may not.
const LINES: &[BadScript] = &[
    BadScript {
        script: b"go\nmeters shop\n",
        first: 2,
        said: "line 2: \"meters\": no command is called that\n",
    },
    BadScript {
        script: b"go\nrecord 0 u:1\n",
        first: 2,
        said: "line 2: \"record\": a word is missing\n",
    },
    BadScript {
        script: b"reader delta\ngo\n\n# the reader has no number\ncollect\n",
        first: 5,
        said: "line 5: \"collect\": a word is missing\n",
    },
    BadScript {
        script: b"reader\nview\ngo\n",
        first: 1,
        said: "line 1: \"reader\": a word is missing\n\
               line 2: \"view\": a word is missing\n",
    },
    BadScript {
        script: b"go\nmeter shop 1.0 beta gamma\n",
        first: 2,
        said: "line 2: \"beta\": one word too many\n",
    },
    BadScript {
        script: b"meter shop\ngo\nmeter shop\n",
        first: 1,
        said: "line 1: \"meter\": a call may only come behind the line \"go\"\n",
    },
    BadScript {
        script: b"go\nreader delta\ngo\n",
        first: 2,
        said: "line 2: \"reader\": that may not come behind the line \"go\"\n\
               line 3: \"go\": that may not come behind the line \"go\"\n",
    },
    BadScript {
        script: b"go\nobserve 0 u:1 -\nflush\ncollect 0 1\n",
        first: 3,
        said: "line 3: \"flush\": only \"observe\" and \"collect\" may come behind \"observe\"\n",
    },
    BadScript {
        script: b"go\nobserve 0 u:1 -\n",
        first: 3,
        said: "behind the last \"observe\" the line \"collect\" is missing\n",
    },
    BadScript {
        script: b"reader delta\nreader cumulative",
        first: 3,
        said: "the line \"go\" is missing\n",
    },
    BadScript {
        script: b"",
        first: 1,
        said: "the line \"go\" is missing\n",
    },
    BadScript {
        script: b"go\r\n",
        first: 1,
        said: "line 1: \"go\\r\": no command is called that\n\
               the line \"go\" is missing\n",
    },
    BadScript {
        script: b"go\nmeter \xff\nmeter shop\n",
        first: 2,
        said: "line 2: the line is not UTF-8\n",
    },
    // Each bad line is named, those between them are good.
    BadScript {
        script: b"reader gauge\nreader delta\ngo\nmeter\nmeter shop\nflush now\ncollect x 1\n",
        first: 1,
        said: "line 1: \"gauge\": no temporality is called that\n\
               line 4: \"meter\": a word is missing\n\
               line 6: \"now\": one word too many\n\
               line 7: \"x\": not a whole number from 0 to 2^64 - 1, in digits\n",
    },
];

/// Lines with a word, or a part of one, that stands for nothing.
const WORDS: &[BadScript] = &[
    BadScript {
        script: b"go\ncollect 0 18446744073709551616\nunbind -1\nrecord 0 u:+1 -\n",
        first: 2,
        said: "line 2: \"18446744073709551616\": not a whole number from 0 to 2^64 - 1, in digits\n\
               line 3: \"-1\": not a whole number from 0 to 2^64 - 1, in digits\n\
               line 4: \"+1\": not a whole number from 0 to 2^64 - 1, in digits\n",
    },
    BadScript {
        script: b"go\nrecord 0 i:9223372036854775808 -\n",
        first: 2,
        said: "line 2: \"9223372036854775808\": not a whole number from -2^63 to 2^63 - 1, in digits, perhaps behind \"-\"\n",
    },
    BadScript {
        script: b"go\nrecord 0 1 -\n",
        first: 2,
        said: "line 2: \"1\": neither \"u:\" nor \"i:\" and a number\n",
    },
    BadScript {
        script: b"go\nmeter shop\nbuild 0 latency_ms a 1\n",
        first: 3,
        said: "line 3: \"latency_ms\": no sort of instrument is called that\n",
    },
    BadScript {
        script: b"reader minimum\ngo\n",
        first: 1,
        said: "line 1: \"minimum\": no temporality is called that\n",
    },
    BadScript {
        script: b"view * agg=average\nreader delta agg:gauge=hist\ngo\n",
        first: 1,
        said: "line 1: \"average\": no aggregation is called that\n\
               line 2: \"hist\": no aggregation is called that\n",
    },
    BadScript {
        script: b"view * agg=hist:1,x\ngo\nbuild 0 u64_histogram a 1 bounds=1,,2\n",
        first: 1,
        said: "line 1: \"x\": not a whole number from -2^63 to 2^63 - 1, in digits, perhaps behind \"-\"\n\
               line 3: \"\": not a whole number from -2^63 to 2^63 - 1, in digits, perhaps behind \"-\"\n",
    },
    BadScript {
        script: b"view * agg=plain:1,2,2\ngo\n",
        first: 1,
        said: "line 1: \"plain:1,2,2\": the bounds of a view have to rise\n",
    },
    BadScript {
        script: b"view * unit=%C3%B6\ngo\n",
        first: 1,
        said: "line 1: \"%C3%B6\": the unit of a view has at most 63 bytes, all ASCII\n",
    },
    BadScript {
        script: b"reader delta limit=0\nview * limit=18446744073709551615\ngo\n",
        first: 1,
        said: "line 1: \"0\": a limit is a number from 1 to 2^64 - 2\n\
               line 2: \"18446744073709551615\": a limit is a number from 1 to 2^64 - 2\n",
    },
    BadScript {
        script: b"reader delta limit:latency=5\ngo\nbuild 0 u64_counter a 1 limit=1\n",
        first: 1,
        said: "line 1: \"limit:latency=5\": no option of this line begins so\n\
               line 3: \"limit=1\": no option of this line begins so\n",
    },
    BadScript {
        script: b"view * name=a unit\ngo\nbuild 0 u64_counter a 1 unit\n",
        first: 1,
        said: "line 1: \"unit\": no option of this line begins so\n\
               line 3: \"unit\": no option of this line begins so\n",
    },
    BadScript {
        script: b"reader delta limit=1 agg:gauge=drop limit=2\ngo\nbuild 0 u64_counter a 1 unit=s unit=t\n",
        first: 1,
        said: "line 1: \"limit=2\": this option was given before\n\
               line 3: \"unit=t\": this option was given before\n",
    },
    BadScript {
        script: b"go\nmeter a%ff\nbuild 0 u64_counter a 1 description=%80\n",
        first: 2,
        said: "line 2: \"a%ff\": the bytes that it stands for are not UTF-8\n\
               line 3: \"%80\": the bytes that it stands for are not UTF-8\n",
    },
    BadScript {
        script: b"go\nrecord 0 u:1 a=i:1,b\nrecord 0 u:1 a=1\nrecord 0 u:1 a=u:1\nrecord 0 u:1 a=b:yes\n",
        first: 2,
        said: "line 2: \"b\": not a key, \"=\" and a value\n\
               line 3: \"1\": neither \"b:\" nor \"i:\" nor \"s:\" and a value\n\
               line 4: \"u:1\": neither \"b:\" nor \"i:\" nor \"s:\" and a value\n\
               line 5: \"yes\": neither \"true\" nor \"false\"\n",
    },
];

/// Each bad line is told, with the word that is wrong.
#[test]
fn bad_scripts(rt: HostRuntime) {
    assert_each_says(&rt, rt.alloc(), LINES);
    assert_each_says(&rt, rt.alloc(), WORDS);
}

/// Nothing is said of a good script, and nothing is run.
#[test]
fn good_scripts(rt: HostRuntime) {
    let scripts = [
        "go",
        "reader delta limit=1\nview * agg=drop\ngo\nmeter shop\ncollect 0 1\n",
        "go\nobserve 0 u:1 -\ncollect 7 1\nshutdown\n",
    ];
    for script in scripts {
        let outcome = explained(&rt, rt.alloc(), script.as_bytes());
        assert_outcome(&rt, script, &outcome, 0, "", "");
    }
}

/// A read that fails has its status. A write to standard error that fails changes none.
#[test]
fn explain_fails(rt: HostRuntime) {
    let alloc = rt.alloc();
    let input = FailingReader::new("go\n", ErrorKind::Other);
    let mut output = Vec::new(alloc);
    let mut errors = Vec::new(alloc);
    let given = arguments(&rt, alloc, &["explain"]);
    let status = obey(alloc, Ok(given), input, &mut output, &mut errors);
    assert_eq!(rt; status, 4);
    assert!(rt; errors.as_slice() == b"input or output failed\n".as_slice());
    let full = FailingWriter::new(alloc, 0, false);
    let given = arguments(&rt, alloc, &["explain"]);
    let status = obey(alloc, Ok(given), b"gone\n".as_slice(), &mut output, full);
    assert_eq!(rt; status, 2);
    assert!(rt; output.is_empty());
}
