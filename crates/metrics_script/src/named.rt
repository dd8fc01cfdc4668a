//! Words of a line that consist of a name, `=` and a value.

ghost use Rattle.std.specs.Prelude.{◌≡◌, ◌≢◌, ◌==◌, ◌<◌, IsTrue, map, length, IfOk, IfErr, OnErr, OkIff};
ghost use Rattle.std.specs.Cmp.Lexicographic.{pointwise};
ghost use Rattle.std.specs.List.{list_all, list_any};
ghost use Rattle.std.specs.Option.{option_map, option_to_list};
ghost use Rattle.std.specs.String.{string_bytes};
ghost use Rattle.metrics_script.specs.Aggregations.{IsAggregationWord};
ghost use Rattle.metrics_script.specs.Named.{has_name_of, has_value, ReadsNothing};
ghost use Rattle.metrics_script.specs.Options.{values_named, ReadsOption, ReadsText};

use crate::aggregations::aggregation_of;
use crate::options::set_once;
use crate::reasons::Reason;
use crate::refusals::Refusal;
use crate::texts::text_of_word;
use opentelemetry_sdk::metrics::Aggregation;
use std::alloc::Global;

/// Refuses words of which one has none of these names.
pub fn check_names<'a>(words: &[&'a str], names: &[&str]) -> Result<(), Refusal<'a>>
    ensures named { OkIff result (IsTrue (list_all (has_name_of (map (λ name. name.now) names.now)) (map (λ word. word.now) words.now))) tt }
    ensures refused { IfErr result (λ refusal. refusal ≢ Refusal.OutOfMemory) }
{
    for word in words {
        if !has_name_of(word, names) {
            return Err(Refusal::of_word(word, Reason::UnknownOption));
        }
    }
    Ok(())
}

/// Whether the word has one of these names.
fn has_name_of(word: &str, names: &[&str]) -> bool
    ensures { result ≡ has_name_of (map (λ name. name.now) names.now) word.now }
{
    match word.split_once('=') {
        Some((given, _)) => is_one_of(given, names),
        None => false,
    }
}

/// Whether the name is one of these.
fn is_one_of(given: &str, names: &[&str]) -> bool
    ensures { result ≡ list_any (pointwise ◌==◌ given.now) (map (λ name. name.now) names.now) }
{
    for name in names {
        if given == *name {
            return true;
        }
    }
    false
}

/// Returns the value of the only word with this name, or none if no word has it.
pub fn value_named<'a>(words: &[&'a str], name: &str) -> Result<Option<&'a str>, Refusal<'a>>
    ensures value { IfOk result (λ value. option_to_list (option_map (λ text. text.now) value) ≡ values_named name.now (map (λ word. word.now) words.now)) }
    ensures meaningless { OnErr result (IsTrue (list_all has_value (map (λ word. word.now) words.now)) → 1 < length (values_named name.now (map (λ word. word.now) words.now))) }
    ensures refused { IfErr result (λ refusal. refusal ≢ Refusal.OutOfMemory) }
{
    let mut value = None;
    for word in words {
        let Some((given, rest)) = word.split_once('=') else {
            return Err(Refusal::of_word(word, Reason::UnknownOption));
        };
        if given == name {
            set_once(&mut value, rest, word)?;
        }
    }
    Ok(value)
}

/// Reads the text of the only word with this name, or none if no word has it.
pub fn text_named<'a>(
    alloc: Global,
    words: &[&'a str],
    name: &str,
) -> Result<Option<String>, Refusal<'a>>
    ensures text { IfOk result (λ text. ReadsOption ReadsText name.now (map (λ word. word.now) words.now) (option_map string_bytes text)) }
    ensures meaningless { IfErr result (λ refusal. refusal ≢ Refusal.OutOfMemory → ReadsNothing ReadsText name.now (map (λ word. word.now) words.now)) }
{
    match value_named(words, name)? {
        Some(value) => Ok(Some(text_of_word(alloc, value)?)),
        None => Ok(None),
    }
}

/// Reads the aggregation of the only word with this name, or none if no word has it.
pub fn aggregation_named<'a>(
    alloc: Global,
    words: &[&'a str],
    name: &str,
) -> Result<Option<Aggregation>, Refusal<'a>>
    ensures aggregation { IfOk result (ReadsOption IsAggregationWord name.now (map (λ word. word.now) words.now)) }
    ensures meaningless { IfErr result (λ refusal. refusal ≢ Refusal.OutOfMemory → ReadsNothing IsAggregationWord name.now (map (λ word. word.now) words.now)) }
{
    match value_named(words, name)? {
        Some(value) => Ok(Some(aggregation_of(alloc, value)?)),
        None => Ok(None),
    }
}
