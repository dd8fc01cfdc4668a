//! Requests into writers.

ghost use Rattle.std.specs.Prelude.{◌≡◌, Err, OnOk};
ghost use Rattle.std.specs.Io.KnownBytes.{Appends};
ghost use Rattle.otel_otlp.specs.Requests.{line_of};

use crate::requests::request_line;
use otel_data::collections::ResourceMetrics;
use otel_export::faults::WriteFault;
use std::alloc::Global;
use std::io::Write;

/// Writes a collection as a request on a line of its own, with one `write_all`. After an `Ok` the writer holds what it
/// held and the whole line.
pub fn write<W: Write>(
    alloc: Global,
    out: &mut W,
    collected: &ResourceMetrics,
) -> Result<(), WriteFault>
    ensures whole { OnOk result (Appends (W.contents out.old) (W.contents out.new) (line_of collected.now)) }
    ensures unwritten { result ≡ Err WriteFault.OutOfMemory → out.new ≡ out.old }
{
    let line = request_line(alloc, collected)?;
    Ok(out.write_all(line.as_slice())?)
}
