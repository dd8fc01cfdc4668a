//! Bytes into writers, with a count of those that are written.

ghost use Rattle.std.specs.Prelude.{◌≡◌, ◌≤◌, ◌<◌, ◌≢◌, ◌++◌, [], if◌then◌else◌, length, take, drop, vec_len, IfOk, OnErr, OnOk};
ghost use Rattle.std.specs.Io.KnownBytes.{Appends, Keeps, WriteAppends};
ghost use Rattle.std.specs.List.{All};
ghost use Rattle.otel_export.specs.Outboxes.{AreLines, ended, line_break};

use std::alloc::AllocError;
use std::io::{self, ErrorKind, Write};

/// Writes a part of the bytes, again where the writer was interrupted.
fn write_part<W: Write>(out: &mut W, bytes: &[u8]) -> io::Result<usize>
    ensures bound { IfOk result (λ count. count ≤ length bytes.now) }
    ensures written { WriteAppends (W.contents out.old) (W.contents out.new) result bytes.now }
{
    for _ in 0..u64::MAX {
        match out.write(bytes) {
            Err(error) if error.kind() == ErrorKind::Interrupted => {}
            answer => return answer,
        }
    }
    Err(io::Error::from(ErrorKind::Interrupted))
}

/// Writes bytes until all are written or the writer fails, and returns how many are written.
pub(crate) fn write_most<W: Write>(out: &mut W, bytes: &[u8]) -> (usize, io::Result<()>)
    ensures bound { result.0 ≤ length bytes.now }
    ensures written { Appends (W.contents out.old) (W.contents out.new) (take result.0 bytes.now) }
    ensures whole { OnOk result.1 (result.0 ≡ length bytes.now) }
    ensures part { OnErr result.1 (result.0 < length bytes.now) }
{
    let mut written = 0;
    while written < bytes.len() {
        match write_part(out, &bytes[written..]) {
            Ok(0) => return (written, Err(io::Error::from(ErrorKind::WriteZero))),
            Ok(count) => written += count,
            Err(error) => return (written, Err(error)),
        }
    }
    (written, Ok(()))
}

/// Writes a line break if a line is cut.
pub(crate) fn close_line<W: Write>(out: &mut W, is_cut: bool) -> io::Result<()>
    ensures closed { OnOk result (Appends (W.contents out.old) (W.contents out.new) (if is_cut then line_break else [])) }
    ensures unchanged { OnErr result (Keeps (W.contents out.old) (W.contents out.new)) }
{
    if !is_cut {
        return Ok(());
    }
    let (_, answer) = write_most(out, b"\n");
    answer
}

/// How many bytes there are up to the last line break.
pub(crate) fn whole_lines(bytes: &[u8]) -> usize
    ensures bound { result ≤ length bytes.now }
    ensures lines { AreLines (take result bytes.now) }
    ensures rest { All (λ byte. byte ≢ 10) (drop result bytes.now) }
{
    let mut end = bytes.len();
    while end > 0 && bytes[end - 1] != b'\n' {
        end -= 1;
    }
    end
}

/// Puts a line behind others, with a line break at its end.
pub(crate) fn add_line(lines: &mut Vec<u8>, line: &[u8]) -> Result<(), AllocError>
    ensures added { OnOk result (lines.new.items ≡ lines.old.items ++ ended line.now) }
    ensures unchanged { OnErr result (lines.new.items ≡ lines.old.items) }
{
    let before = lines.len();
    lines.extend_from_slice(line)?;
    if !line.ends_with(b"\n") && lines.push(b'\n').is_err() {
        lines.truncate(before);
        return Err(AllocError);
    }
    Ok(())
}

/// Takes bytes away in front.
pub(crate) fn remove_front(lines: &mut Vec<u8>, count: usize)
    requires { count ≤ vec_len lines.old }
    ensures { lines.new.items ≡ drop count lines.old.items }
{
    lines.drain(..count);
}
