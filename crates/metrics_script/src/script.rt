//! Reads a script, runs it and prints its replies, with any reader and writers.

ghost use Rattle.std.specs.Prelude.{◌≡◌, ◌≢◌, ◌⊎◌, IfErr, IsOkUnless};
ghost use Rattle.metrics_script.specs.Failures.{status_of};

use crate::failures::Failure;
use crate::printing::write_reply;
use crate::script_lines::{Script, script_of};
use opentelemetry_sdk::metrics::SdkMeterProvider;
use opentelemetry_sdk::metrics::provider::{Call, Reply};
use std::alloc::Global;
use std::io::{BufWriter, ErrorKind, Read, Write};

/// Reads a script, runs it and prints the replies. All input is read and all lines are checked before anything is run.
///
/// Returns the status: 0 if the script ran to its end, even if calls were refused; 2 for a bad line; 3 for want of
/// memory for something other than a call's reply; 4 for a read or a write that failed.
pub fn script<R: Read + Drop, W: Write + Drop, E: Write + Drop>(
    alloc: Global,
    input: R,
    output: W,
    mut errors: E,
) -> u8 {
    match run_script(alloc, input, output) {
        Ok(()) => 0,
        Err(failure) => say_failure(&failure, &mut errors),
    }
}

/// Writes why a script ends early, and returns the status that it ends with.
pub(crate) fn say_failure<E: Write>(failure: &Failure, errors: &mut E) -> u8
    ensures { result ≡ status_of failure.now }
{
    // If this fails, the status stays the same.
    let _ = writeln!(errors, "{failure}");
    failure.status()
}

/// Does the same without the message on standard error.
pub(crate) fn run_script<R: Read + Drop, W: Write + Drop>(
    alloc: Global,
    input: R,
    output: W,
) -> Result<(), Failure>
    ensures refused { IfErr result (λ failure. failure ≢ Failure.BadArguments) }
{
    let replies = answers_to_input(alloc, input)?.replies;
    write_replies(alloc, output, replies.as_slice())
}

/// The calls of a script, and the reply to each.
#[derive(Drop)]
pub(crate) struct Answers {
    pub(crate) calls: Vec<Call>,
    pub(crate) replies: Vec<Reply>,
}

/// Reads a script and makes its calls. What was read is let go before they are made.
pub(crate) fn answers_to_input<R: Read + Drop>(alloc: Global, input: R) -> Result<Answers, Failure>
    ensures refused { IfErr result (λ failure. failure ≢ Failure.BadArguments) }
{
    let script = {
        let bytes = read_all(alloc, input)?;
        script_of(alloc, bytes.as_slice())?
    };
    answers_of(alloc, script)
}

/// Makes the calls of a script on a new provider with the script's readers and views, and returns the replies. All lines
/// are checked before any call is made.
pub fn replies_to(alloc: Global, script: &[u8]) -> Result<Vec<Reply>, Failure>
    ensures refused { IfErr result (λ failure. (failure ≢ Failure.InputOrOutput) × (failure ≢ Failure.BadArguments)) }
{
    Ok(answers_of(alloc, script_of(alloc, script)?)?.replies)
}

/// The same for a script that has been read.
fn answers_of(alloc: Global, script: Script) -> Result<Answers, Failure>
    ensures refused { IsOkUnless result Failure.OutOfMemory }
{
    let Script {
        readers,
        views,
        calls,
    } = script;
    let mut builder = SdkMeterProvider::builder(alloc);
    for reader in readers {
        builder = builder.with_reader(Box::new(alloc, reader)?)?;
    }
    for view in views {
        builder = builder.with_view(Box::new(alloc, view)?)?;
    }
    let mut provider = builder.build()?;
    let replies = provider.run(alloc, calls.as_slice())?;
    Ok(Answers { calls, replies })
}

/// Reads all that the reader has.
pub(crate) fn read_all<R: Read + Drop>(alloc: Global, mut input: R) -> Result<Vec<u8>, Failure>
    ensures refused { IfErr result (λ failure. (failure ≡ Failure.OutOfMemory) ⊎ (failure ≡ Failure.InputOrOutput)) }
{
    let mut bytes = Vec::new(alloc);
    match input.read_to_end(&mut bytes) {
        Ok(_) => Ok(bytes),
        Err(error) => match error.kind() {
            ErrorKind::OutOfMemory => Err(Failure::OutOfMemory),
            _ => Err(Failure::InputOrOutput),
        },
    }
}

/// Prints the replies. After a write that failed, nothing more is written.
fn write_replies<W: Write + Drop>(
    alloc: Global,
    output: W,
    replies: &[Reply],
) -> Result<(), Failure>
    ensures refused { IfErr result (λ failure. (failure ≡ Failure.OutOfMemory) ⊎ (failure ≡ Failure.InputOrOutput)) }
{
    let Ok(mut output) = BufWriter::new(alloc, output) else {
        return Err(Failure::OutOfMemory);
    };
    let written = write_and_flush(&mut output, replies);
    let (_writer, _unwritten) = output.into_parts();
    match written {
        Ok(()) => Ok(()),
        Err(_) => Err(Failure::InputOrOutput),
    }
}

/// Prints the replies and flushes the writer.
fn write_and_flush<W: Write>(output: &mut W, replies: &[Reply]) -> std::io::Result<()> {
    for reply in replies {
        write_reply(output, reply)?;
    }
    output.flush()
}
