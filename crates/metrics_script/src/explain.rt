//! Says of each bad line of a script which word is wrong, and why.

ghost use Rattle.std.specs.Prelude.{◌≡◌, ◌⊎◌, ℕ, List, IfOk, IfErr, IsOkUnless};
ghost use Rattle.otel_stream.specs.declared.selector.SelectorView.{SelectorView};
ghost use Rattle.otel_stream.specs.declared.wants.Wants.{Wants};
ghost use Rattle.opentelemetry_sdk.specs.declared.calls.Call.{Call};
ghost use Rattle.metrics_script.specs.ScriptLines.{lines_of};
ghost use Rattle.metrics_script.specs.Scripts.{IsFirstBad, IsScript};

use crate::failures::Failure;
use crate::refusals::Refusal;
use crate::script::read_all;
use crate::script_lines::{Reading, script_of, without_end};
use std::alloc::Global;
use std::io::{Read, Write};

/// Reads a script, says of each bad line which word is wrong and why, and returns the status: 0 for a good script,
/// otherwise 2. Nothing is run.
pub(crate) fn explain<R: Read + Drop, E: Write>(
    alloc: Global,
    input: R,
    errors: &mut E,
) -> Result<u8, Failure>
    ensures refused { IfErr result (λ failure. (failure ≡ Failure.OutOfMemory) ⊎ (failure ≡ Failure.InputOrOutput)) }
{
    let bytes = read_all(alloc, input)?;
    explain_script(alloc, bytes.as_slice(), errors)
}

/// The same for a script that has been read.
pub fn explain_script<E: Write>(alloc: Global, script: &[u8], errors: &mut E) -> Result<u8, Failure>
    ensures status { IfOk result (λ status. (status ≡ 0) ⊎ (status ≡ 2)) }
    ensures good { IfOk result (λ status. status ≡ 0 → (readers : List Wants) × (views : List SelectorView) × (calls : List Call) × IsScript (lines_of script.now) readers views calls) }
    ensures bad { IfOk result (λ status. status ≡ 2 → (number : ℕ) × IsFirstBad (lines_of script.now) number) }
    ensures refused { IsOkUnless result Failure.OutOfMemory }
{
    match script_of(alloc, script) {
        Ok(_) => Ok(0),
        Err(Failure::BadLine(_)) => {
            say_complaints(alloc, script, errors)?;
            Ok(2)
        }
        Err(failure) => Err(failure),
    }
}

/// Says what is wrong with each bad line, and what is missing at the end. Writes that fail are passed over.
fn say_complaints<E: Write>(alloc: Global, script: &[u8], errors: &mut E) -> Result<(), Failure>
    ensures refused { IsOkUnless result Failure.OutOfMemory }
{
    let mut reading = Reading::new(alloc);
    let mut number = 1u64;
    for line in script.split_inclusive(|byte| *byte == b'\n') {
        match reading.add_line(alloc, without_end(line)) {
            Ok(()) => {}
            Err(Refusal::BadCommand(complaint)) => {
                let _ = writeln!(errors, "line {number}: {complaint}");
            }
            Err(Refusal::OutOfMemory) => return Err(Failure::OutOfMemory),
        }
        number = number.saturating_add(1);
    }
    if let Some(reason) = reading.missing() {
        let _ = writeln!(errors, "{reason}");
    }
    Ok(())
}
