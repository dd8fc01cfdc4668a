//! Any text as the name of a label or a metric.

ghost use Rattle.std.specs.Prelude.{◌≡◌, ◌<◌, ◌++◌, [], ◌∷◌, true, IfOk, OnOk};
ghost use Rattle.std.specs.String.{string_bytes};
ghost use Rattle.otel_prometheus.specs.Names.{test_of, is_gap, name_byte, name_bytes, needs_front, name_of, without_end, without_gap};
ghost use Rattle.otel_prometheus.specs.Samples.{is_label_byte, is_metric_byte, IsLabelName, IsMetricName};

use std::alloc::{AllocError, Global};

/// Whether the byte may stand in the name of a label.
fn is_label_byte(byte: u8) -> bool
    ensures { result ≡ is_label_byte byte }
{
    byte.is_ascii_alphabetic() || byte == b'_' || byte.is_ascii_digit()
}

/// Whether the byte may stand in a name, of a metric or else of a label.
fn may_stand(byte: u8, is_metric: bool) -> bool
    ensures { result ≡ test_of is_metric byte }
{
    if is_metric {
        is_label_byte(byte) || byte == b':'
    } else {
        is_label_byte(byte)
    }
}

/// Appends a byte, which is ASCII.
fn push_ascii(out: &mut String, byte: u8) -> Result<(), AllocError>
    requires { byte < 128 }
    ensures { OnOk result (string_bytes out.new ≡ string_bytes out.old ++ byte ∷ []) }
{
    out.push(char::from(byte))
}

/// Appends what stands for a byte, after a `_` or not. Returns whether that is a `_`.
fn push_byte(out: &mut String, byte: u8, is_metric: bool, after: bool) -> Result<bool, AllocError>
    ensures bytes { OnOk result (string_bytes out.new ≡ string_bytes out.old ++ name_byte (test_of is_metric) after byte) }
    ensures gap { IfOk result (λ gap. gap ≡ is_gap (test_of is_metric) byte) }
{
    if byte != b'_' && may_stand(byte, is_metric) {
        push_ascii(out, byte)?;
        return Ok(false);
    }
    if !after {
        push_ascii(out, b'_')?;
    }
    Ok(true)
}

/// Appends a text, after a `_` or not, with one `_` for each run of `_` and of bytes that may not stand in a name.
fn push_bytes(
    out: &mut String,
    text: &[u8],
    is_metric: bool,
    behind: bool,
) -> Result<(), AllocError>
    ensures { OnOk result (string_bytes out.new ≡ string_bytes out.old ++ name_bytes (test_of is_metric) behind text.now) }
{
    let mut after = behind;
    for byte in text {
        after = push_byte(out, *byte, is_metric, after)?;
    }
    Ok(())
}

/// Whether a `_` has to stand in front of a name.
fn needs_front(text: &[u8]) -> bool
    ensures { result ≡ needs_front text.now }
{
    match text.split_first() {
        None => true,
        Some((byte, _)) => byte.is_ascii_digit(),
    }
}

/// Makes a name of a text.
fn name_of(alloc: Global, text: &[u8], is_metric: bool) -> Result<String, AllocError>
    ensures { IfOk result (λ name. string_bytes name ≡ name_of (test_of is_metric) text.now) }
{
    let mut name = String::with_capacity(alloc, text.len())?;
    if needs_front(text) {
        push_ascii(&mut name, b'_')?;
    }
    push_bytes(&mut name, text, is_metric, false)?;
    Ok(name)
}

/// Makes of a text what stands behind a `_` in the name of a label.
pub(crate) fn name_behind(alloc: Global, text: &[u8]) -> Result<String, AllocError>
    ensures { IfOk result (λ name. string_bytes name ≡ name_bytes is_label_byte true text.now) }
{
    let mut name = String::with_capacity(alloc, text.len())?;
    push_bytes(&mut name, text, false, true)?;
    Ok(name)
}

/// The text without this end, if it has it.
pub(crate) fn without_end<'a>(text: &'a [u8], end: &[u8]) -> &'a [u8]
    ensures { result.now ≡ without_end end.now text.now }
{
    if text.ends_with(end) {
        return &text[..text.len() - end.len()];
    }
    text
}

/// The text without a `_` at its end.
pub(crate) fn without_gap(text: &[u8]) -> &[u8]
    ensures { result.now ≡ without_gap text.now }
{
    without_end(text, b"_")
}

/// Makes the name of a label of a text: each run of `_` and of bytes outside `[a-zA-Z0-9_]` is one `_`, and a `_` stands
/// in front of a digit (Prometheus and OpenMetrics Compatibility, "Metric Attributes"). Refused only for want of memory.
pub fn label_name(alloc: Global, text: &[u8]) -> Result<String, AllocError>
    ensures name { IfOk result (λ name. string_bytes name ≡ name_of is_label_byte text.now) }
    ensures valid { IfOk result (λ name. IsLabelName (string_bytes name)) }
{
    name_of(alloc, text, false)
}

/// Makes the name of a metric of a text, by the same rule, but that `:` may stand in it (Prometheus and OpenMetrics
/// Compatibility, "Metric Metadata"). Refused only for want of memory.
pub fn metric_name(alloc: Global, text: &[u8]) -> Result<String, AllocError>
    ensures name { IfOk result (λ name. string_bytes name ≡ name_of is_metric_byte text.now) }
    ensures valid { IfOk result (λ name. IsMetricName (string_bytes name)) }
{
    name_of(alloc, text, true)
}
