//! Aggregations of a script.

ghost use Rattle.std.specs.Prelude.{◌≢◌, ℤ, Bool, List, IfOk, IfErr};
ghost use Rattle.metrics_script.specs.Aggregations.{IsAggregationWord};
ghost use Rattle.metrics_script.specs.Refusals.{StandsForNothing};

use crate::boundaries::boundaries_of;
use crate::reasons::Reason;
use crate::refusals::Refusal;
use opentelemetry_sdk::metrics::Aggregation;
use std::alloc::Global;

/// Reads the aggregation of a word: a name alone, or a kind of histogram and its bounds.
pub fn aggregation_of(alloc: Global, word: &str) -> Result<Aggregation, Refusal<'_>>
    ensures aggregation { IfOk result (IsAggregationWord word.now) }
    ensures meaningless { IfErr result (λ refusal. refusal ≢ Refusal.OutOfMemory → StandsForNothing IsAggregationWord word.now) }
{
    match word {
        "drop" => Ok(Aggregation::Drop),
        "default" => Ok(Aggregation::Default),
        "sum" => Ok(Aggregation::Sum),
        "lastvalue" => Ok(Aggregation::LastValue),
        _ => histogram_of(alloc, word),
    }
}

/// Reads the histogram of a word: `hist` keeps the least and the greatest value, `plain` does not.
fn histogram_of(alloc: Global, word: &str) -> Result<Aggregation, Refusal<'_>>
    ensures aggregation { IfOk result (IsAggregationWord word.now) }
    ensures meaningless { IfErr result (λ refusal. refusal ≢ Refusal.OutOfMemory → (bounds : List ℤ) (record_min_max : Bool) → ¬ IsAggregationWord word.now (Aggregation.ExplicitBucketHistogram bounds record_min_max)) }
{
    let Some((kind, bounds)) = word.split_once(':') else {
        return Err(Refusal::of_word(word, Reason::UnknownAggregation));
    };
    let record_min_max = match kind {
        "hist" => true,
        "plain" => false,
        _ => return Err(Refusal::of_word(word, Reason::UnknownAggregation)),
    };
    Ok(Aggregation::ExplicitBucketHistogram {
        boundaries: boundaries_of(alloc, bounds)?.into(),
        record_min_max,
    })
}
