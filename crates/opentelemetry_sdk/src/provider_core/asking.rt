//! What views answer about an instrument.

ghost use Rattle.std.specs.Prelude.{map, IfOk, IsOkUnless};
ghost use Rattle.std.specs.Option.{option_map};
ghost use Rattle.opentelemetry_sdk.specs.States.{AreAsked};

use crate::pipeline::about::About;
use crate::pipeline::demands::text_or;
use otel_common::faults::Fault;
use otel_common::laws::copied_scope;
use otel_common::scopes::InstrumentationScope;
use otel_stream::instrument::Instrument;
use otel_stream::stream::Stream;
use otel_stream::view::View;
use std::alloc::Global;

/// Asks each view once about the instrument of a build; without a scope, asks none. Takes no memory if there are no
/// views.
pub(crate) fn ask_in<V: View>(
    alloc: Global,
    views: &[V],
    scope: Option<&InstrumentationScope>,
    about: &About<'_>,
) -> Result<Vec<Option<Stream>>, Fault>
    ensures asked { IfOk result (λ answers. AreAsked (map V.answer views.now) (option_map (λ s. s.now) scope.entry) about.now answers.items) }
    ensures only_memory { IsOkUnless result Fault.OutOfMemory }
{
    let Some(scope) = scope else {
        return Ok(Vec::new(alloc));
    };
    if views.is_empty() {
        return Ok(Vec::new(alloc));
    }
    copied_scope();
    let instrument = Instrument {
        name: about.name.clone()?,
        description: text_or(alloc, about.description, &None)?,
        kind: about.kind,
        unit: text_or(alloc, about.unit, &None)?,
        scope: scope.clone()?,
    };
    let mut answers = Vec::with_capacity(alloc, views.len())?;
    for view in views {
        let answer = view.match_inst(&instrument)?;
        answers.push_reserved(answer);
    }
    Ok(answers)
}
