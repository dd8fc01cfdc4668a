//! Units in names of metrics.

ghost use Rattle.std.specs.Prelude.{◌≡◌, ◌++◌, ◌==◌, ◌&&◌, ◌<◌, [], ◌∷◌, false, cond, not, OnOk, IfOk, IfSome, length, map, position};
ghost use Rattle.std.specs.Option.{option_map};
ghost use Rattle.otel_prometheus.specs.Units.{word_at, rates, unit_word, behind, worded, ratio, unit_parts, is_in_note, without_notes, suffix_of, unit_suffix};

use crate::text::names::{name_behind, without_gap};
use std::alloc::{AllocError, Global};

/// Units and their words: of time, of size with steps of 1,000 and of 1,024, and of other quantities.
const UNITS: [(&str, &str); 25] = [
    ("d", "days"),
    ("h", "hours"),
    ("min", "minutes"),
    ("s", "seconds"),
    ("ms", "milliseconds"),
    ("us", "microseconds"),
    ("ns", "nanoseconds"),
    ("By", "bytes"),
    ("KBy", "kilobytes"),
    ("MBy", "megabytes"),
    ("GBy", "gigabytes"),
    ("TBy", "terabytes"),
    ("KiBy", "kibibytes"),
    ("MiBy", "mebibytes"),
    ("GiBy", "gibibytes"),
    ("TiBy", "tibibytes"),
    ("m", "meters"),
    ("V", "volts"),
    ("A", "amperes"),
    ("J", "joules"),
    ("W", "watts"),
    ("g", "grams"),
    ("Cel", "celsius"),
    ("Hz", "hertz"),
    ("%", "percent"),
];

/// Units behind `per` and their words.
const RATES: [(&str, &str); 7] = [
    ("s", "second"),
    ("m", "minute"),
    ("h", "hour"),
    ("d", "day"),
    ("w", "week"),
    ("mo", "month"),
    ("y", "year"),
];

/// The word for a unit in a table of units and their words.
fn word_at(table: &[(&'static str, &'static str)], unit: &[u8]) -> Option<&'static str>
    ensures { option_map (λ w. w.now) result ≡ word_at (map (λ e. (e.0.now, e.1.now)) table.now) unit.now }
{
    for entry in table {
        if unit == entry.0.as_bytes() {
            return Some(entry.1);
        }
    }
    None
}

/// The word for a unit.
fn unit_word(unit: &[u8]) -> Option<&'static str>
    ensures { option_map (λ w. w.now) result ≡ unit_word unit.now }
{
    word_at(&UNITS, unit)
}

/// The word for a unit behind `per`.
fn rate_word(unit: &[u8]) -> Option<&'static str>
    ensures { option_map (λ w. w.now) result ≡ word_at rates unit.now }
{
    word_at(&RATES, unit)
}

/// Appends a word behind a front, if there is a word.
fn push_behind(out: &mut Vec<u8>, front: &[u8], word: &[u8]) -> Result<(), AllocError>
    ensures { OnOk result (out.new.items ≡ out.old.items ++ behind front.now word.now) }
{
    if word.is_empty() {
        return Ok(());
    }
    out.extend_from_slice(front)?;
    out.extend_from_slice(word)
}

/// Appends a unit behind a front, by its word or else as a part of a name. `1` has no word.
fn push_worded(
    alloc: Global,
    out: &mut Vec<u8>,
    front: &[u8],
    word: Option<&'static str>,
    unit: &[u8],
) -> Result<(), AllocError>
    ensures { OnOk result (out.new.items ≡ out.old.items ++ worded front.now (option_map (λ w. w.now) word.entry) unit.now) }
{
    if unit == b"1".as_slice() {
        return Ok(());
    }
    match word {
        Some(word) => push_behind(out, front, word.as_bytes()),
        None => {
            let name = name_behind(alloc, unit)?;
            push_behind(out, front, without_gap(name.as_str().as_bytes()))
        }
    }
}

/// The index of the first slash.
fn slash(unit: &[u8]) -> Option<usize>
    ensures found { result ≡ position (λ b. b == 47) unit.now }
    ensures within { IfSome result (λ i. i < length unit.now) }
{
    unit.iter().position(|byte| *byte == b'/')
}

/// Appends a unit and the unit that it is counted by.
fn push_ratio(alloc: Global, out: &mut Vec<u8>, over: &[u8], under: &[u8]) -> Result<(), AllocError>
    ensures { OnOk result (out.new.items ≡ out.old.items ++ ratio over.now under.now) }
{
    push_worded(alloc, out, b"_", unit_word(over), over)?;
    push_worded(alloc, out, b"_per_", rate_word(under), under)
}

/// Appends what a unit adds to a name.
fn push_parts(alloc: Global, out: &mut Vec<u8>, unit: &[u8]) -> Result<(), AllocError>
    ensures { OnOk result (out.new.items ≡ out.old.items ++ unit_parts unit.now (position (λ b. b == 47) unit.now)) }
{
    match slash(unit) {
        Some(index) => push_ratio(alloc, out, &unit[..index], &unit[index + 1..]),
        None => push_worded(alloc, out, b"_", unit_word(unit), unit),
    }
}

/// Appends a byte of a unit, unless it is of a note in braces, which may be open before it. Returns whether one is open
/// behind it.
fn push_noted(out: &mut Vec<u8>, byte: u8, is_open: bool) -> Result<bool, AllocError>
    ensures bytes { OnOk result (out.new.items ≡ out.old.items ++ cond (is_in_note is_open byte) [] (byte ∷ [])) }
    ensures opened { IfOk result (λ opened. opened ≡ (is_in_note is_open byte && not (byte == 125))) }
{
    if is_open || byte == b'{' {
        return Ok(byte != b'}');
    }
    out.extend_from_slice(&[byte])?;
    Ok(false)
}

/// Returns a unit without its notes in braces.
fn without_notes(alloc: Global, unit: &[u8]) -> Result<Vec<u8>, AllocError>
    ensures { IfOk result (λ plain. plain.items ≡ without_notes false unit.now) }
{
    let mut plain = Vec::new(alloc);
    let mut is_open = false;
    for byte in unit {
        is_open = push_noted(&mut plain, *byte, is_open)?;
    }
    Ok(plain)
}

/// Returns what a unit without notes adds to a name.
fn suffix_of(alloc: Global, unit: &[u8], is_last_value: bool) -> Result<Vec<u8>, AllocError>
    ensures { IfOk result (λ suffix. suffix.items ≡ suffix_of is_last_value unit.now) }
{
    let mut suffix = Vec::new(alloc);
    if is_last_value && unit == b"1".as_slice() {
        suffix.extend_from_slice(b"_ratio")?;
        return Ok(suffix);
    }
    push_parts(alloc, &mut suffix, unit)?;
    Ok(suffix)
}

/// Returns what a unit adds to a name.
pub(crate) fn unit_suffix(
    alloc: Global,
    unit: &[u8],
    is_last_value: bool,
) -> Result<Vec<u8>, AllocError>
    ensures { IfOk result (λ suffix. suffix.items ≡ unit_suffix is_last_value unit.now) }
{
    let plain = without_notes(alloc, unit)?;
    suffix_of(alloc, plain.as_slice(), is_last_value)
}
