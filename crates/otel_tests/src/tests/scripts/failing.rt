//! Readers and writers that fail.

use super::{Outcome, assert_outcome, assert_prints};
use metrics_script::script::script;
use std::alloc::Global;
use std::io;
use std::io::{ErrorKind, Read, Write};
use std::process::Abort;

/// Gives some bytes and then fails.
#[derive(Drop)]
pub struct FailingReader<'a> {
    bytes: &'a [u8],
    kind: ErrorKind,
}

impl<'a> FailingReader<'a> {
    pub fn new(text: &'a str, kind: ErrorKind) -> FailingReader<'a> {
        FailingReader {
            bytes: text.as_bytes(),
            kind,
        }
    }
}

impl Read for FailingReader<'_> {
    fn read(&mut self, buf: &mut [u8]) -> io::Result<usize> {
        if self.bytes.is_empty() {
            return Err(self.kind.into());
        }
        self.bytes.read(buf)
    }
}

/// Takes some bytes, and fails on a write that it has no room for.
#[derive(Drop)]
pub struct FailingWriter {
    taken: Vec<u8>,
    room: usize,
    /// Whether `flush` fails.
    is_stuck: bool,
    has_failed: bool,
    /// Whether a call came after one that failed.
    was_called_again: bool,
}

impl FailingWriter {
    pub fn new(alloc: Global, room: usize, is_stuck: bool) -> FailingWriter {
        FailingWriter {
            taken: Vec::new(alloc),
            room,
            is_stuck,
            has_failed: false,
            was_called_again: false,
        }
    }
}

impl Write for FailingWriter {
    fn write(&mut self, buf: &[u8]) -> io::Result<usize> {
        self.was_called_again |= self.has_failed;
        if self.room < buf.len() {
            self.has_failed = true;
            return Err(ErrorKind::BrokenPipe.into());
        }
        self.room -= buf.len();
        self.taken.extend_from_slice(buf)?;
        Ok(buf.len())
    }

    fn flush(&mut self) -> io::Result<()> {
        self.was_called_again |= self.has_failed;
        if self.is_stuck {
            self.has_failed = true;
            return Err(ErrorKind::BrokenPipe.into());
        }
        Ok(())
    }
}

const SCRIPT: &str = "go\nmeter a\nmeter b\n";

/// Asserts that the program ends with this status and this message, and runs nothing, if a read fails in mid-stream.
fn assert_read_fails(rt: &impl Abort, alloc: Global, kind: ErrorKind, status: u8, message: &str) {
    let input = FailingReader::new(SCRIPT, kind);
    let mut output = Vec::new(alloc);
    let mut errors = Vec::new(alloc);
    let ended = script(alloc, input, &mut output, &mut errors);
    let outcome = Outcome {
        status: ended,
        output,
        errors,
    };
    assert_outcome(rt, message, &outcome, status, "", message);
}

/// If a read fails in mid-stream, nothing is run.
#[test]
fn read_fails(rt: HostRuntime) {
    let kind = ErrorKind::Other;
    assert_read_fails(&rt, rt.alloc(), kind, 4, "input or output failed\n");
    let kind = ErrorKind::OutOfMemory;
    assert_read_fails(&rt, rt.alloc(), kind, 3, "out of memory\n");
}

/// A writer, and how many bytes it has taken when it fails.
struct Failing {
    room: usize,
    is_stuck: bool,
    least: usize,
    most: usize,
}

/// Asserts that the writer failed, wasn't called again, and took the beginning of this output.
fn assert_took(rt: &impl Abort, writer: &FailingWriter, whole: &str, case: &Failing) {
    assert!(rt; writer.has_failed && !writer.was_called_again);
    let taken = writer.taken.as_slice();
    assert!(rt; whole.as_bytes().starts_with(taken));
    assert!(rt; case.least <= taken.len() && taken.len() <= case.most);
}

/// Asserts that this script prints this output, and that with each writer it ends with the status of a failed write, and
/// standard error says so.
fn assert_writes_fail(rt: &impl Abort, alloc: Global, input: &str, whole: &str, cases: &[Failing]) {
    assert_prints(rt, alloc, "no write fails", input, whole);
    for case in cases {
        let mut writer = FailingWriter::new(alloc, case.room, case.is_stuck);
        let mut errors = Vec::new(alloc);
        let status = script(alloc, input.as_bytes(), &mut writer, &mut errors);
        assert_took(rt, &writer, whole, case);
        let outcome = Outcome {
            status,
            output: Vec::new(alloc),
            errors,
        };
        assert_outcome(
            rt,
            "a write fails",
            &outcome,
            4,
            "",
            "input or output failed\n",
        );
    }
}

/// If the first write fails, nothing is written. If the writer fails to pass on what it took, all of it was written.
#[test]
fn write_fails(rt: HostRuntime) {
    let cases = &[
        Failing {
            room: 3,
            is_stuck: false,
            least: 0,
            most: 0,
        },
        Failing {
            room: 100,
            is_stuck: true,
            least: 16,
            most: 16,
        },
    ];
    assert_writes_fail(&rt, rt.alloc(), SCRIPT, "meter 0\nmeter 1\n", cases);
}

/// If a later write fails, what was written before it is the beginning of the output, which is longer than two of the
/// program's buffers.
#[test]
fn later_write_fails(rt: HostRuntime) {
    let mut script = String::new(rt.alloc());
    let mut output = String::new(rt.alloc());
    script.push_str("go\n").expect(&rt, "memory");
    for number in 0..2000u32 {
        writeln!(script, "meter a{number}").expect(&rt, "memory");
        writeln!(output, "meter {number}").expect(&rt, "memory");
    }
    assert!(rt; output.len() > 18_000);
    let cases = &[
        Failing {
            room: 10_000,
            is_stuck: false,
            least: 1,
            most: 10_000,
        },
        Failing {
            room: 18_000,
            is_stuck: false,
            least: 1,
            most: 18_000,
        },
    ];
    assert_writes_fail(&rt, rt.alloc(), script.as_str(), output.as_str(), cases);
}

/// If nothing can be written to standard error, the status is the same.
#[test]
fn error_write_fails(rt: HostRuntime) {
    let mut output = Vec::new(rt.alloc());
    let mut errors = FailingWriter::new(rt.alloc(), 0, false);
    let status = script(rt.alloc(), b"gone".as_slice(), &mut output, &mut errors);
    assert_eq!(rt; status, 2);
    assert!(rt; output.is_empty());
}
