//! Texts into writers.

ghost use Rattle.std.specs.Prelude.{◌≡◌, Err, IfOk, OnOk};
ghost use Rattle.std.specs.Io.KnownBytes.{Appends};
ghost use Rattle.otel_prometheus.specs.Lines.{text_of};
ghost use Rattle.otel_prometheus.specs.Collections.{lines_of, left_out_of};

use crate::expositions::{LeftOut, exposition_of};
use crate::settings::Settings;
use otel_data::collections::ResourceMetrics;
use otel_export::faults::WriteFault;
use std::alloc::Global;
use std::io::Write;

/// Writes the text of a collection with one `write_all`, and returns what it leaves out. After an `Ok` the writer holds
/// what it held and the whole text.
pub fn write<W: Write>(
    alloc: Global,
    out: &mut W,
    settings: Settings,
    collected: &ResourceMetrics,
) -> Result<LeftOut, WriteFault>
    ensures whole { OnOk result (Appends (W.contents out.old) (W.contents out.new) (text_of settings.format (lines_of settings collected.now))) }
    ensures left_out { IfOk result (λ l. l ≡ left_out_of settings collected.now) }
    ensures unwritten { result ≡ Err WriteFault.OutOfMemory → out.new ≡ out.old }
{
    let made = exposition_of(alloc, settings, collected)?;
    out.write_all(made.text.as_slice())?;
    Ok(made.left_out)
}
