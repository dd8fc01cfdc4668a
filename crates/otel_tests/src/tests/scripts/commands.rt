//! What the program does with its arguments.

use super::failing::{FailingReader, FailingWriter};
use super::{Outcome, assert_outcome};
use metrics_script::commands::obey;
use std::alloc::Global;
use std::env::Args;
use std::io;
use std::io::ErrorKind;
use std::process::Abort;

/// The arguments of the program, of which the first is its name.
pub(super) fn arguments(rt: &impl Abort, alloc: Global, words: &[&str]) -> Args {
    let mut all = Vec::new(alloc);
    for word in ["metrics_run"].iter().chain(words) {
        let word = String::from_str(alloc, word).expect(rt, "memory");
        all.push(word).expect(rt, "memory");
    }
    all.into_iter()
}

/// What the program does with these arguments and this script.
pub(super) fn outcome_of(alloc: Global, arguments: io::Result<Args>, script: &str) -> Outcome {
    outcome_of_bytes(alloc, arguments, script.as_bytes())
}

/// The same for a script that may not be UTF-8.
pub(super) fn outcome_of_bytes(
    alloc: Global,
    arguments: io::Result<Args>,
    input: &[u8],
) -> Outcome {
    let mut output = Vec::new(alloc);
    let mut errors = Vec::new(alloc);
    let status = obey(alloc, arguments, input, &mut output, &mut errors);
    Outcome {
        status,
        output,
        errors,
    }
}

/// Two readers, of which the last one isn't the first. Reader 0 is asked three times, the last time in vain.
const SCRIPT: &str = "reader cumulative\n\
                      reader cumulative\n\
                      go\n\
                      meter shop\n\
                      build 0 u64_counter hits 100\n\
                      record 0 u:1 -\n\
                      collect 0 200\n\
                      record 0 u:2 -\n\
                      collect 0 300\n\
                      record 0 u:4 -\n\
                      collect 1 400\n\
                      shutdown\n\
                      collect 0 500\n";

/// What is said of arguments that ask for nothing.
const USAGE: &str =
    "usage: metrics_run [--help | explain | (prometheus | openmetrics | otlp) [last]], with the script on standard input\n";

/// Arguments, and what the program then writes to standard output.
const COMMANDS: &[(&[&str], &str)] = &[
    (
        &[],
        "meter 0\n\
         instrument 0\n\
         ok\n\
         collected 1\n\
         point shop hits sum cumulative monotonic 100 200 - 1\n\
         ok\n\
         collected 1\n\
         point shop hits sum cumulative monotonic 100 300 - 3\n\
         ok\n\
         collected 1\n\
         point shop hits sum cumulative monotonic 100 400 - 7\n\
         ok\n\
         refused 9 reader is shut down or not registered\n",
    ),
    (
        &["prometheus"],
        "# TYPE hits_total counter\n\
         hits_total{otel_scope_name=\"shop\"} 1\n\
         # TYPE hits_total counter\n\
         hits_total{otel_scope_name=\"shop\"} 3\n\
         # TYPE hits_total counter\n\
         hits_total{otel_scope_name=\"shop\"} 7\n",
    ),
    (
        &["prometheus", "last"],
        "# TYPE hits_total counter\n\
         hits_total{otel_scope_name=\"shop\"} 3\n",
    ),
    (
        &["openmetrics", "last"],
        "# TYPE hits counter\n\
         hits_total{otel_scope_name=\"shop\"} 3\n\
         # EOF\n",
    ),
    (
        &["otlp", "last"],
        "{\"resourceMetrics\":[{\"resource\":{\"attributes\":[]},\"scopeMetrics\":[{\
         \"scope\":{\"name\":\"shop\",\"attributes\":[]},\"metrics\":[{\
         \"name\":\"hits\",\"description\":\"\",\"unit\":\"\",\"sum\":{\"dataPoints\":[{\
         \"attributes\":[],\"startTimeUnixNano\":\"100\",\"timeUnixNano\":\"300\",\"asInt\":\"3\"}],\
         \"aggregationTemporality\":2,\"isMonotonic\":true}}]}]}]}\n",
    ),
    (&["--help"], USAGE),
];

#[test]
fn commands(rt: HostRuntime) {
    for (words, wanted) in COMMANDS {
        let arguments = arguments(&rt, rt.alloc(), words);
        let outcome = outcome_of(rt.alloc(), Ok(arguments), SCRIPT);
        let name = words.first().copied().unwrap_or("no argument");
        assert_outcome(&rt, name, &outcome, 0, wanted, "");
    }
}

/// Arguments that ask for nothing, one that isn't UTF-8, and no memory for them.
#[test]
fn bad_arguments(rt: HostRuntime) {
    let all: &[&[&str]] = &[
        &["text"],
        &["Prometheus"],
        &[""],
        &["last"],
        &["otlp", "first"],
        &["last", "otlp"],
        &["--help", "last"],
        &["explain", "last"],
        &["explain", "explain"],
        &["Explain"],
        &["otlp", "last", "last"],
    ];
    for words in all {
        let arguments = arguments(&rt, rt.alloc(), words);
        let outcome = outcome_of(rt.alloc(), Ok(arguments), SCRIPT);
        assert_outcome(&rt, "bad arguments", &outcome, 2, "", USAGE);
    }
    let outcome = outcome_of(rt.alloc(), Err(ErrorKind::InvalidData.into()), SCRIPT);
    assert_outcome(&rt, "no text", &outcome, 2, "", USAGE);
    let outcome = outcome_of(rt.alloc(), Err(ErrorKind::OutOfMemory.into()), SCRIPT);
    assert_outcome(&rt, "no memory", &outcome, 3, "", "out of memory\n");
}

/// Whatever is asked for, a bad line, a read that fails and an output that is full have their status, and nothing goes
/// to standard output but what was taken.
#[test]
fn commands_fail(rt: HostRuntime) {
    let alloc = rt.alloc();
    for (words, _) in COMMANDS {
        if words.first() != Some(&"--help") {
            let given = arguments(&rt, alloc, words);
            let outcome = outcome_of(alloc, Ok(given), "go\ngone\n");
            assert_outcome(&rt, "a bad line", &outcome, 2, "", "line 2: bad command\n");
            let input = FailingReader::new(SCRIPT, ErrorKind::Other);
            let mut output = Vec::new(alloc);
            let mut errors = Vec::new(alloc);
            let given = arguments(&rt, alloc, words);
            let status = obey(alloc, Ok(given), input, &mut output, &mut errors);
            assert_eq!(rt; status, 4);
            assert!(rt; output.is_empty());
        }
        let mut full = FailingWriter::new(alloc, 10, false);
        let mut errors = Vec::new(alloc);
        let given = arguments(&rt, alloc, words);
        let status = obey(alloc, Ok(given), SCRIPT.as_bytes(), &mut full, &mut errors);
        assert_eq!(rt; status, 4);
        assert!(rt; errors.as_slice() == b"input or output failed\n".as_slice());
    }
}

/// A script, and what is said on standard error of each collection that leaves out points.
const LEFT_OUT: &[(&str, &str)] = &[
    (
        "reader delta\n\
         go\n\
         meter shop\n\
         build 0 u64_counter hits 100\n\
         record 0 u:1 -\n\
         collect 0 200\n\
         record 0 u:1 -\n\
         record 0 u:1 a=i:1\n\
         collect 0 300\n",
        "left out: 1 delta point\n\
         left out: 2 delta points\n",
    ),
    (
        "reader cumulative\n\
         go\n\
         meter shop\n\
         build 0 u64_counter hits 100\n\
         build 0 u64_gauge hits.total 100\n\
         record 0 u:1 a.b=s:x\n\
         record 0 u:1 a_b=s:x\n\
         record 0 u:1 a-b=s:x\n\
         record 1 u:1 -\n\
         collect 0 200\n",
        "left out: 1 conflicting point, 2 doubled points\n",
    ),
];

/// The status stays, and so does what is printed where standard error takes nothing. A line of OTLP leaves out nothing.
#[test]
fn what_is_left_out_is_said(rt: HostRuntime) {
    let alloc = rt.alloc();
    for (script, wanted) in LEFT_OUT {
        let given = arguments(&rt, alloc, &["prometheus"]);
        let outcome = outcome_of(alloc, Ok(given), script);
        assert_eq!(rt; outcome.status, 0);
        assert!(rt; outcome.errors.as_slice() == wanted.as_bytes());
        let mut output = Vec::new(alloc);
        let full = FailingWriter::new(alloc, 0, false);
        let given = arguments(&rt, alloc, &["prometheus"]);
        let status = obey(alloc, Ok(given), script.as_bytes(), &mut output, full);
        assert_eq!(rt; status, 0);
        assert!(rt; output.as_slice() == outcome.output.as_slice());
        let given = arguments(&rt, alloc, &["otlp"]);
        let outcome = outcome_of(alloc, Ok(given), script);
        assert!(rt; outcome.errors.is_empty());
    }
}
