//! Keys of attributes in a script.

ghost use Rattle.std.specs.Prelude.{◌≢◌, IfOk, IfErr};
ghost use Rattle.metrics_script.specs.Keys.{IsKeyWord, ReadsKeys};
ghost use Rattle.metrics_script.specs.Refusals.{StandsForNothing};

use crate::refusals::Refusal;
use crate::texts::unescaped;
use opentelemetry_sdk::common::Key;
use std::alloc::Global;

/// Reads the keys of a word, which are separated by commas. The empty word has none.
pub fn keys_of(alloc: Global, word: &str) -> Result<Vec<Key>, Refusal<'_>>
    ensures keys { IfOk result (λ keys. ReadsKeys word.now keys.items) }
    ensures meaningless { IfErr result (λ refusal. refusal ≢ Refusal.OutOfMemory → StandsForNothing ReadsKeys word.now) }
{
    let mut keys = Vec::new(alloc);
    if word.is_empty() {
        return Ok(keys);
    }
    for key in word.split(',') {
        keys.push(key_of(alloc, key)?)?;
    }
    Ok(keys)
}

/// Reads the key of a word, which may have escapes.
pub fn key_of(alloc: Global, word: &str) -> Result<Key, Refusal<'_>>
    ensures key { IfOk result (IsKeyWord word.now) }
    ensures meaningless { IfErr result (λ refusal. refusal ≢ Refusal.OutOfMemory → StandsForNothing IsKeyWord word.now) }
{
    let key = unescaped(alloc, word)?;
    Ok(Key::new(alloc, key.as_str())?)
}
