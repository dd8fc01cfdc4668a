//! Scripts, in memory: their lines, what they print and their status.

use metrics_script::script::script;
use std::alloc::Global;
use std::process::Abort;

mod batches;
mod collected;
mod commands;
mod explained;
mod exports;
mod failing;
mod guide;
mod handles;
mod kinds;
mod lines;
mod memory;
mod observations;
mod observed;
mod points;
mod readers;
mod replies;
mod runs;
mod sorts;
mod vectors;
mod views;
mod words;

use batches::assert_prints_by_worker;
use collected::assert_is_full;

/// What the program wrote, and the status that it returned.
#[derive(Drop)]
struct Outcome {
    status: u8,
    output: Vec<u8>,
    errors: Vec<u8>,
}

/// Runs the program on this input.
fn outcome_of(alloc: Global, input: &[u8]) -> Outcome {
    let mut output = Vec::new(alloc);
    let mut errors = Vec::new(alloc);
    let status = script(alloc, input, &mut output, &mut errors);
    Outcome {
        status,
        output,
        errors,
    }
}

/// Asserts that these bytes are this text.
fn assert_text(rt: &impl Abort, name: &str, bytes: &[u8], wanted: &str) {
    let text = str::from_utf8(bytes).expect(rt, name);
    assert_eq!(rt; text, wanted, "{name}");
}

/// Asserts that the program returned this status and wrote these texts.
fn assert_outcome(
    rt: &impl Abort,
    name: &str,
    outcome: &Outcome,
    status: u8,
    output: &str,
    errors: &str,
) {
    assert_text(rt, name, outcome.errors.as_slice(), errors);
    assert_text(rt, name, outcome.output.as_slice(), output);
    assert_eq!(rt; outcome.status, status, "{name}");
}

/// Asserts that the program runs this script and prints these lines, as it would if a worker handed in the records, and
/// that no collection has a scope without metrics or a metric without points.
fn assert_prints(rt: &impl Abort, alloc: Global, name: &str, script: &str, lines: &str) {
    let outcome = outcome_of(alloc, script.as_bytes());
    assert_outcome(rt, name, &outcome, 0, lines, "");
    assert_is_full(rt, alloc, name, script);
    assert_prints_by_worker(rt, alloc, name, script, lines);
}

/// A script, and the lines that it prints. A failure gives the name.
struct Case {
    name: &'static str,
    script: &'static str,
    lines: &'static str,
}

/// Asserts that each script prints its lines.
fn assert_each_prints(rt: &impl Abort, alloc: Global, cases: &[Case]) {
    for case in cases {
        assert_prints(rt, alloc, case.name, case.script, case.lines);
    }
}

/// A script, and what it may print instead if memory was refused once.
struct RefusedCase {
    case: Case,
    refused: &'static [&'static str],
}

/// Asserts that each script prints its lines. If memory was refused once, it may end early or print one of the other
/// texts, but then a second run prints the lines.
fn assert_each_prints_or(rt: &impl Abort, alloc: Global, cases: &[RefusedCase]) {
    for RefusedCase { case, refused } in cases {
        let outcome = outcome_of(alloc, case.script.as_bytes());
        let output = outcome.output.as_slice();
        if outcome.status == 0 && !refused.iter().any(|known| output == known.as_bytes()) {
            assert_outcome(rt, case.name, &outcome, 0, case.lines, "");
        } else {
            assert_prints(rt, alloc, case.name, case.script, case.lines);
        }
    }
}

/// Asserts of each script that this is its first bad line, and that nothing is run.
fn assert_bad(rt: &impl Abort, alloc: Global, scripts: &[(&[u8], u64)]) {
    for (script, line) in scripts {
        let name = str::from_utf8(script).unwrap_or("a script that isn't UTF-8");
        let message = format!(in alloc; "line {line}: bad command\n").expect(rt, name);
        let outcome = outcome_of(alloc, script);
        assert_outcome(rt, name, &outcome, 2, "", message.as_str());
    }
}

/// Words each of which makes a line of a script bad if it stands between these texts.
struct BadWords {
    before: &'static str,
    words: &'static [&'static str],
    after: &'static str,
    line: u64,
}

/// Asserts that each of these words makes its line the first bad one.
fn assert_bad_words(rt: &impl Abort, alloc: Global, all: &[BadWords]) {
    for bad in all {
        for word in bad.words {
            let script = format!(in alloc; "{}{word}{}", bad.before, bad.after).expect(rt, word);
            assert_bad(rt, alloc, &[(script.as_bytes(), bad.line)]);
        }
    }
}
