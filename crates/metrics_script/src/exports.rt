//! Prints the collections of a script as exporters do, with any writers.

ghost use Rattle.std.specs.Prelude.{◌≡◌, ◌≢◌, ◌⊎◌, IfErr, IfNone, IfSome, IsOkUnless, OnOk, flat_map};
ghost use Rattle.std.specs.Io.KnownBytes.{Appends};
ghost use Rattle.metrics_script.specs.Commands.{form_word};
ghost use Rattle.metrics_script.specs.Exports.{printed_text, reply_text};

use crate::failures::Failure;
use crate::script::Answers;
use opentelemetry_sdk::exporter::otlp::request_line;
use opentelemetry_sdk::exporter::prometheus::{Format, LeftOut, Settings, exposition_of};
use opentelemetry_sdk::metrics::data::ResourceMetrics;
use opentelemetry_sdk::metrics::provider::{Call, Reply};
use std::alloc::Global;
use std::io;
use std::io::Write;

/// How a collection is printed.
#[derive(Clone, Copy, Debug)]
pub enum Form {
    /// As text for Prometheus.
    Text(Format),
    /// As a request of the OpenTelemetry protocol, on a line.
    Request,
}

impl Form {
    /// The form that a word names: `prometheus`, `openmetrics` or `otlp`.
    pub fn of_word(word: &str) -> Option<Form>
        ensures named { IfSome result (λ form. word.now ≡ form_word form) }
        ensures unnamed { IfNone result ((form : Form) → word.now ≢ form_word form) }
    {
        match word {
            "prometheus" => Some(Form::Text(Format::Prometheus)),
            "openmetrics" => Some(Form::Text(Format::OpenMetrics)),
            "otlp" => Some(Form::Request),
            _ => None,
        }
    }
}

/// Prints each collection among the replies, one behind the other.
pub(crate) fn print_collections<W: Write, E: Write>(
    alloc: Global,
    form: Form,
    replies: &[Reply],
    output: &mut W,
    errors: &mut E,
) -> Result<(), Failure>
    ensures whole { OnOk result (Appends (W.contents output.old) (W.contents output.new) (flat_map (reply_text form) replies.now)) }
    ensures refused { IfErr result (λ failure. (failure ≡ Failure.OutOfMemory) ⊎ (failure ≡ Failure.InputOrOutput)) }
{
    for reply in replies {
        if let Reply::Collected(collected) = reply {
            print_collection(alloc, form, collected, output, errors)?;
        }
    }
    Ok(())
}

/// Prints the last collection of reader 0, if it has one.
pub(crate) fn print_last_collection<W: Write, E: Write>(
    alloc: Global,
    form: Form,
    answers: &Answers,
    output: &mut W,
    errors: &mut E,
) -> Result<(), Failure>
    ensures refused { IfErr result (λ failure. (failure ≡ Failure.OutOfMemory) ⊎ (failure ≡ Failure.InputOrOutput)) }
{
    let mut last = None;
    for (call, reply) in answers.calls.iter().zip(answers.replies.iter()) {
        if let (Call::Collect { reader: 0, .. }, Reply::Collected(collected)) = (call, reply) {
            last = Some(collected);
        }
    }
    match last {
        Some(collected) => print_collection(alloc, form, collected, output, errors),
        None => Ok(()),
    }
}

/// Prints a collection, and says on standard error how many points are left out. If that can't be said, nothing
/// changes.
fn print_collection<W: Write, E: Write>(
    alloc: Global,
    form: Form,
    collected: &ResourceMetrics,
    output: &mut W,
    errors: &mut E,
) -> Result<(), Failure>
    ensures whole { OnOk result (Appends (W.contents output.old) (W.contents output.new) (printed_text form collected.now)) }
    ensures refused { IfErr result (λ failure. (failure ≡ Failure.OutOfMemory) ⊎ (failure ≡ Failure.InputOrOutput)) }
{
    match form {
        Form::Request => print_text(output, request_line(alloc, collected)?.as_slice()),
        Form::Text(format) => {
            let exposition = exposition_of(alloc, Settings::new(format), collected)?;
            print_text(output, exposition.text.as_slice())?;
            let _ = say_left_out(errors, exposition.left_out);
            Ok(())
        }
    }
}

/// Prints a whole text.
fn print_text<W: Write>(output: &mut W, text: &[u8]) -> Result<(), Failure>
    ensures whole { OnOk result (Appends (W.contents output.old) (W.contents output.new) text.now) }
    ensures refused { IsOkUnless result Failure.InputOrOutput }
{
    match output.write_all(text) {
        Ok(()) => Ok(()),
        Err(_) => Err(Failure::InputOrOutput),
    }
}

/// Writes a line with how many points a text leaves out, if it leaves out any.
fn say_left_out<E: Write>(errors: &mut E, left_out: LeftOut) -> io::Result<()> {
    let counts = [
        ("delta", left_out.delta),
        ("conflicting", left_out.conflicting),
        ("doubled", left_out.doubled),
    ];
    let mut front = "left out: ";
    for (why, count) in counts {
        if count > 0 {
            let points = if count == 1 { "point" } else { "points" };
            write!(errors, "{front}{count} {why} {points}")?;
            front = ", ";
        }
    }
    if front == ", " {
        writeln!(errors)?;
    }
    Ok(())
}
