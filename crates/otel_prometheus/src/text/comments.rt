//! Help texts and types of names, and the end of a text.

ghost use Rattle.std.specs.Prelude.{◌≡◌, ◌++◌, OnOk};
ghost use Rattle.otel_prometheus.specs.declared.text.formats.Format.{Format};
ghost use Rattle.otel_prometheus.specs.Lines.{help, kind, finish, help_byte, help_text, spelled};

use crate::text::formats::Format;
use std::alloc::AllocError;

/// Appends a byte of a help text: a backslash goes before a backslash, and in OpenMetrics before a quote, and the end
/// of a line is `\n`.
fn push_help_byte(out: &mut Vec<u8>, format: Format, byte: u8) -> Result<(), AllocError>
    ensures { OnOk result (out.new.items ≡ out.old.items ++ help_byte format byte) }
{
    match byte {
        b'\\' => out.extend_from_slice(b"\\\\"),
        b'\n' => out.extend_from_slice(b"\\n"),
        b'"' => match format {
            Format::OpenMetrics => out.extend_from_slice(b"\\\""),
            Format::Prometheus => out.extend_from_slice(b"\""),
        },
        _ => out.extend_from_slice(&[byte]),
    }
}

/// Appends a help text.
fn push_help_text(out: &mut Vec<u8>, format: Format, text: &[u8]) -> Result<(), AllocError>
    ensures { OnOk result (out.new.items ≡ out.old.items ++ help_text format text.now) }
{
    for byte in text {
        push_help_byte(out, format, *byte)?;
    }
    Ok(())
}

/// Appends the line of the help text of a name, which may be any text. Refused only for want of memory.
pub fn push_help(
    out: &mut Vec<u8>,
    format: Format,
    name: &str,
    text: &str,
) -> Result<(), AllocError>
    ensures { OnOk result (out.new.items ≡ out.old.items ++ spelled format (help name.now text.now)) }
{
    out.extend_from_slice(b"# HELP ")?;
    out.extend_from_slice(name.as_bytes())?;
    out.extend_from_slice(b" ")?;
    push_help_text(out, format, text.as_bytes())?;
    out.extend_from_slice(b"\n")
}

/// Appends the line of the type of a name. Refused only for want of memory.
pub fn push_kind(out: &mut Vec<u8>, name: &str, word: &str) -> Result<(), AllocError>
    ensures { (format : Format) → OnOk result (out.new.items ≡ out.old.items ++ spelled format (kind name.now word.now)) }
{
    out.extend_from_slice(b"# TYPE ")?;
    out.extend_from_slice(name.as_bytes())?;
    out.extend_from_slice(b" ")?;
    out.extend_from_slice(word.as_bytes())?;
    out.extend_from_slice(b"\n")
}

/// Appends the line that ends a text of OpenMetrics. Refused only for want of memory.
pub fn push_finish(out: &mut Vec<u8>) -> Result<(), AllocError>
    ensures { (format : Format) → OnOk result (out.new.items ≡ out.old.items ++ spelled format finish) }
{
    out.extend_from_slice(b"# EOF\n")
}
