//! The interface of views.

ghost use Rattle.std.specs.Prelude.{◌≡◌, Option, MatchResult};
ghost use Rattle.otel_common.specs.declared.faults.Fault.{Fault};
ghost use Rattle.otel_stream.specs.declared.instrument.Instrument.{Instrument};
ghost use Rattle.otel_stream.specs.declared.stream_spec.StreamSpec.{StreamSpec};

use crate::instrument::Instrument;
use crate::stream::Stream;
use otel_common::faults::Fault;

/// A view, which sets the streams of instruments (Metrics SDK, "View"). A provider asks each of its views at each
/// build of an instrument whose name, unit and bounds are good.
///
/// What a view answers is a function of the instrument alone.
pub trait View: Drop + Send {
    /// The settings that the view gives the stream of each instrument, or `None` if the view doesn't apply to the
    /// instrument.
    ghost answer: { Self → Instrument → Option StreamSpec };

    /// Returns the settings of this instrument's stream, or `None` if the view doesn't apply to the instrument. Refused
    /// only for want of memory.
    fn match_inst(&self, inst: &Instrument) -> Result<Option<Stream>, Fault>
        ensures { MatchResult result (λ stream. stream ≡ answer self.now inst.now) (λ fault. fault ≡ Fault.OutOfMemory) };
}
