//! Escapes in values of labels.

ghost use Rattle.std.specs.Prelude.{◌≡◌, ◌++◌, MatchOption, OnOk};
ghost use Rattle.otel_prometheus.specs.Samples.{escaped_byte, escaped, is_special, IsSplit};

use crate::text::plain::is_plain;
use std::alloc::AllocError;

/// Whether the byte can't stand for itself in a value.
#[inline(always)]
pub(crate) fn is_special(byte: u8) -> bool
    ensures { result ≡ is_special byte }
{
    byte == b'\\' || byte == b'"' || byte == b'\n'
}

/// Splits a text at its first byte that can't stand for itself in a value; none if each byte can.
fn split_special(text: &[u8]) -> Option<(&[u8], u8, &[u8])>
    ensures { MatchOption result (escaped text.now ≡ text.now) (λ s. IsSplit text.now s.0.now s.1 s.2.now) }
{
    for (index, byte) in text.iter().enumerate() {
        if is_special(*byte) {
            let (plain, rest) = text.split_at(index);
            let (_, rest) = rest.split_first()?;
            return Some((plain, *byte, rest));
        }
    }
    None
}

/// Appends a byte of a value: a backslash goes before a backslash and a quote, and the end of a line is `\n`.
fn push_escaped_byte(out: &mut Vec<u8>, byte: u8) -> Result<(), AllocError>
    ensures { OnOk result (out.new.items ≡ out.old.items ++ escaped_byte byte) }
{
    match byte {
        b'\\' => out.extend_from_slice(b"\\\\"),
        b'"' => out.extend_from_slice(b"\\\""),
        b'\n' => out.extend_from_slice(b"\\n"),
        _ => out.extend_from_slice(&[byte]),
    }
}

/// Appends a value. What stands between two escapes is copied whole.
#[inline(never)]
fn push_runs(out: &mut Vec<u8>, text: &[u8]) -> Result<(), AllocError>
    ensures { OnOk result (out.new.items ≡ out.old.items ++ escaped text.now) }
{
    let mut rest = text;
    while let Some((plain, byte, behind)) = split_special(rest) {
        out.extend_from_slice(plain)?;
        push_escaped_byte(out, byte)?;
        rest = behind;
    }
    out.extend_from_slice(rest)
}

/// Appends a value, which may be any bytes, or a part of one. Most need no escape, and are copied whole. Refused only
/// for want of memory.
#[inline(always)]
pub fn push_escaped(out: &mut Vec<u8>, text: &[u8]) -> Result<(), AllocError>
    ensures { OnOk result (out.new.items ≡ out.old.items ++ escaped text.now) }
{
    if is_plain(text) {
        return out.extend_from_slice(text);
    }
    push_runs(out, text)
}
