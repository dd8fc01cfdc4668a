//! Views of a script.

ghost use Rattle.std.specs.Prelude.{◌≡◌, ◌≢◌, ◌⊎◌, map, IfOk, IfErr};
ghost use Rattle.metrics_script.specs.Refusals.{StandsForNothing};
ghost use Rattle.metrics_script.specs.Streams.{SaysNoStream};
ghost use Rattle.metrics_script.specs.Views.{IsSelectorWord, ReadsView, selector_of};

use crate::refusals::Refusal;
use crate::streams::stream_of;
use crate::texts::text_of_word;
use opentelemetry_sdk::common::StringValue;
use opentelemetry_sdk::metrics::instrument::{InstrumentSelector, NameCriterion, SelectorView};
use std::alloc::Global;

/// Reads the view of a line: which instruments it is for, and what it says about their streams.
pub fn view_of<'a>(
    alloc: Global,
    selector: &'a str,
    options: &[&'a str],
) -> Result<SelectorView, Refusal<'a>>
    ensures view { IfOk result (ReadsView selector.now (map (λ word. word.now) options.now)) }
    ensures meaningless { IfErr result (λ refusal. refusal ≢ Refusal.OutOfMemory → StandsForNothing IsSelectorWord selector.now ⊎ SaysNoStream (map (λ word. word.now) options.now)) }
{
    Ok(SelectorView {
        selector: selector_for(name_of(alloc, selector)?),
        stream: stream_of(alloc, options)?,
    })
}

/// Selects the instruments of a name, or all if there is none.
fn selector_for(name: Option<StringValue>) -> InstrumentSelector
    ensures { result ≡ selector_of name }
{
    match name {
        Some(name) => {
            let mut selector = InstrumentSelector::any();
            selector.name = Some(NameCriterion::Exact(name));
            selector
        }
        None => InstrumentSelector::any(),
    }
}

/// Reads the name of a view's instruments, or none if the word is `*`.
fn name_of(alloc: Global, word: &str) -> Result<Option<StringValue>, Refusal<'_>>
    ensures name { IfOk result (IsSelectorWord word.now) }
    ensures meaningless { IfErr result (λ refusal. refusal ≢ Refusal.OutOfMemory → StandsForNothing IsSelectorWord word.now) }
{
    if word == "*" {
        return Ok(None);
    }
    Ok(Some(text_of_word(alloc, word)?.into()))
}
