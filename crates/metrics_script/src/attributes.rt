//! Attributes of a script.

ghost use Rattle.std.specs.Prelude.{◌≢◌, IfOk, IfErr, OnErr, IsOkUnless};
ghost use Rattle.metrics_script.specs.Attributes.{IsAttributeWord, IsTruthWord, IsValueWord, ReadsAttributes};
ghost use Rattle.metrics_script.specs.Refusals.{StandsForNothing, wrong_word};

use crate::keys::key_of;
use crate::numbers::signed;
use crate::reasons::Reason;
use crate::refusals::Refusal;
use crate::texts::unescaped;
use opentelemetry_sdk::common::{KeyValue, Value};
use std::alloc::Global;

/// Reads the attributes of a word: `-` for none, otherwise pairs separated by commas.
pub fn attributes_of(alloc: Global, word: &str) -> Result<Vec<KeyValue>, Refusal<'_>>
    ensures attributes { IfOk result (λ attributes. ReadsAttributes word.now attributes.items) }
    ensures meaningless { IfErr result (λ refusal. refusal ≢ Refusal.OutOfMemory → StandsForNothing ReadsAttributes word.now) }
{
    if word == "-" {
        return Ok(Vec::new(alloc));
    }
    let mut attributes = Vec::with_capacity(alloc, parts_of(word))?;
    for pair in word.split(',') {
        attributes.push(attribute_of(alloc, pair)?)?;
    }
    Ok(attributes)
}

/// How many parts a word has that are separated by commas.
fn parts_of(word: &str) -> usize {
    word.split(',').count()
}

/// Reads a key and a value, which the pair's first `=` separates.
fn attribute_of(alloc: Global, pair: &str) -> Result<KeyValue, Refusal<'_>>
    ensures attribute { IfOk result (IsAttributeWord pair.now) }
    ensures meaningless { IfErr result (λ refusal. refusal ≢ Refusal.OutOfMemory → StandsForNothing IsAttributeWord pair.now) }
{
    let Some((key, value)) = pair.split_once('=') else {
        return Err(Refusal::of_word(pair, Reason::NotAttribute));
    };
    let key = key_of(alloc, key)?;
    let value = value_of(alloc, value)?;
    Ok(KeyValue::new(key, value))
}

/// Reads a truth value, a signed number or a text.
fn value_of(alloc: Global, word: &str) -> Result<Value, Refusal<'_>>
    ensures value { IfOk result (IsValueWord word.now) }
    ensures meaningless { IfErr result (λ refusal. refusal ≢ Refusal.OutOfMemory → StandsForNothing IsValueWord word.now) }
{
    let Some((kind, rest)) = word.split_once(':') else {
        return Err(Refusal::of_word(word, Reason::NotAttributeValue));
    };
    match kind {
        "b" => Ok(Value::Bool(truth_of(rest)?)),
        "i" => Ok(Value::I64(signed(rest)?)),
        "s" => Ok(Value::String(unescaped(alloc, rest)?.into())),
        _ => Err(Refusal::of_word(word, Reason::NotAttributeValue)),
    }
}

/// Reads `true` or `false`.
fn truth_of(word: &str) -> Result<bool, Refusal<'_>>
    ensures truth { IfOk result (IsTruthWord word.now) }
    ensures meaningless { OnErr result (StandsForNothing IsTruthWord word.now) }
    ensures refused { IsOkUnless result (wrong_word word.entry Reason.NotTruth) }
{
    match word {
        "true" => Ok(true),
        "false" => Ok(false),
        _ => Err(Refusal::of_word(word, Reason::NotTruth)),
    }
}
