//! Boundaries of buckets in a script.

ghost use Rattle.std.specs.Prelude.{◌≢◌, IfOk, IfErr};
ghost use Rattle.metrics_script.specs.Boundaries.{ReadsBoundaries};
ghost use Rattle.metrics_script.specs.Refusals.{StandsForNothing};

use crate::numbers::signed;
use crate::refusals::Refusal;
use std::alloc::Global;

/// Reads the boundaries of a word: signed numbers separated by commas. The empty word has none.
pub fn boundaries_of(alloc: Global, word: &str) -> Result<Vec<i64>, Refusal<'_>>
    ensures boundaries { IfOk result (λ boundaries. ReadsBoundaries word.now boundaries.items) }
    ensures meaningless { IfErr result (λ refusal. refusal ≢ Refusal.OutOfMemory → StandsForNothing ReadsBoundaries word.now) }
{
    let mut boundaries = Vec::new(alloc);
    if word.is_empty() {
        return Ok(boundaries);
    }
    for number in word.split(',') {
        boundaries.push(signed(number)?)?;
    }
    Ok(boundaries)
}
