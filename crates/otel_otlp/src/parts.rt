//! Parts of texts in JSON.

ghost use Rattle.std.specs.Prelude.{◌≡◌, ◌++◌, [], ◌∷◌, OnOk, map};
ghost use Rattle.otel_otlp.specs.Parts.{part_token};

use json::Writer;
use std::alloc::AllocError;

/// A part of a text in JSON, with numbers that are not spelled yet.
#[derive(Clone, Copy)]
pub(crate) enum Part<'a> {
    BeginObject,
    EndObject,
    BeginArray,
    EndArray,
    /// The name of a member.
    Key(&'a str),
    /// A string.
    Text(&'a str),
    /// A boolean.
    Truth(bool),
    /// An unsigned number.
    Natural(u64),
}

/// Writes a part.
fn write_part(out: &mut Writer, part: Part<'_>) -> Result<(), AllocError>
    ensures tokens { OnOk result (out.new.tokens ≡ out.old.tokens ++ part_token part.entry ∷ []) }
    ensures before { out.new.before ≡ out.old.before }
{
    match part {
        Part::BeginObject => out.begin_object(),
        Part::EndObject => out.end_object(),
        Part::BeginArray => out.begin_array(),
        Part::EndArray => out.end_array(),
        Part::Key(name) => out.key(name),
        Part::Text(text) => out.string(text),
        Part::Truth(truth) => out.boolean(truth),
        Part::Natural(number) => out.u64(number),
    }
}

/// Writes parts, one after another.
pub(crate) fn write_parts(out: &mut Writer, parts: &[Part<'_>]) -> Result<(), AllocError>
    ensures tokens { OnOk result (out.new.tokens ≡ out.old.tokens ++ map part_token parts.now) }
    ensures before { out.new.before ≡ out.old.before }
{
    for part in parts {
        write_part(out, *part)?;
    }
    Ok(())
}
