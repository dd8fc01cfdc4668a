//! What a `build` line may add about its instrument.

ghost use Rattle.std.specs.Prelude.{◌≡◌, ◌≢◌, None, Some, map, OkIff, IfOk, IfErr, OnOk, IsOkUnless};
ghost use Rattle.metrics_script.specs.Refusals.{wrong_word};
ghost use Rattle.metrics_script.specs.Options.{AddsWord, ReadsOptions};
ghost use Rattle.metrics_script.specs.declared.options.Options as declared;

use crate::boundaries::boundaries_of;
use crate::reasons::Reason;
use crate::refusals::Refusal;
use crate::texts::text_of_word;
use opentelemetry_sdk::common::{Items, StringValue};
use std::alloc::Global;

/// What a `build` line adds about its instrument.
#[derive(Drop)]
pub struct Options {
    pub description: Option<StringValue>,
    pub unit: Option<StringValue>,
    /// The boundaries of the buckets of a histogram.
    pub boundaries: Option<Items<i64>>,
}

/// Reads the options of a `build` line, each of which may be given at most once.
pub fn options_of<'a>(alloc: Global, words: &[&'a str]) -> Result<Options, Refusal<'a>>
    ensures options { IfOk result (ReadsOptions (map (λ word. word.now) words.now)) }
    ensures meaningless { IfErr result (λ refusal. refusal ≢ Refusal.OutOfMemory → (options : declared.Options) → ¬ ReadsOptions (map (λ word. word.now) words.now) options) }
{
    let mut options = Options {
        description: None,
        unit: None,
        boundaries: None,
    };
    for word in words {
        options.add_word(alloc, word)?;
    }
    Ok(options)
}

impl Options {
    /// Takes in another word.
    fn add_word<'a>(&mut self, alloc: Global, word: &'a str) -> Result<(), Refusal<'a>>
        ensures added { OnOk result (AddsWord word.now self.old self.new) }
        ensures meaningless { IfErr result (λ refusal. refusal ≢ Refusal.OutOfMemory → (options : declared.Options) → ¬ AddsWord word.now self.old options) }
    {
        let Some((name, value)) = word.split_once('=') else {
            return Err(Refusal::of_word(word, Reason::UnknownOption));
        };
        match name {
            "description" => {
                set_once(
                    &mut self.description,
                    text_of_word(alloc, value)?.into(),
                    word,
                )
            }
            "unit" => set_once(&mut self.unit, text_of_word(alloc, value)?.into(), word),
            "bounds" => set_once(
                &mut self.boundaries,
                boundaries_of(alloc, value)?.into(),
                word,
            ),
            _ => Err(Refusal::of_word(word, Reason::UnknownOption)),
        }
    }
}

/// Sets the option that this word gives, unless it was given before.
pub fn set_once<'a, T: Drop>(
    option: &mut Option<T>,
    value: T,
    word: &'a str,
) -> Result<(), Refusal<'a>>
    ensures once { OkIff result (option.old ≡ None) tt }
    ensures set { OnOk result (option.new ≡ Some value) }
    ensures refused { IsOkUnless result (wrong_word word.entry Reason.OptionTwice) }
{
    if option.is_some() {
        return Err(Refusal::of_word(word, Reason::OptionTwice));
    }
    *option = Some(value);
    Ok(())
}
