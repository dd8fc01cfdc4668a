//! Readers of a script.

ghost use Rattle.std.specs.Prelude.{◌≡◌, ◌≢◌, ℕ, Option, None, Some, Ok, false, IsTrue, map, codes, IfOk, IfErr, OnErr, IsOkUnless, OkIff};
ghost use Rattle.std.specs.List.{list_all};
ghost use Rattle.otel_common.specs.Temporalities.{temporality_named};
ghost use Rattle.otel_stream.specs.Answers.{kind_eq};
ghost use Rattle.otel_stream.specs.Wants.{limit_of, aggregation_of};
ghost use Rattle.otel_stream.specs.declared.instrument.InstrumentKind.{InstrumentKind};
ghost use Rattle.otel_stream.specs.declared.wants.Wants.{Wants};
ghost use Rattle.metrics_script.specs.Options.{ReadsOption};
ghost use Rattle.metrics_script.specs.Readers.{IsLimitWord, ReadsKind, ReadsReader, reader_names};
ghost use Rattle.metrics_script.specs.Named.{has_name_of, has_value, ReadsNothing};
ghost use Rattle.metrics_script.specs.Refusals.{StandsForNothing, wrong_word};

use crate::kinds::{KINDS, aggregation_name, limit_name};
use crate::named::{aggregation_named, check_names, value_named};
use crate::numbers::index;
use crate::reasons::Reason;
use crate::refusals::Refusal;
use opentelemetry_sdk::metrics::reader::CardinalityLimit;
use opentelemetry_sdk::metrics::{
    Aggregation, InstrumentKind, ManualReader, ManualReaderBuilder, Temporality,
};
use std::alloc::Global;
use std::str::FromStr;

/// Reads the reader of a line: its temporality, and what it wants for each kind of instrument. A kind's own limit wins
/// over the one for all kinds.
pub fn reader_of<'a>(
    alloc: Global,
    temporality: &'a str,
    options: &[&'a str],
) -> Result<ManualReader, Refusal<'a>>
    ensures reader { IfOk result (ReadsReader temporality.now (map (λ word. word.now) options.now)) }
    ensures meaningless { IfErr result (λ refusal. refusal ≢ Refusal.OutOfMemory → (reader : Wants) → ¬ ReadsReader temporality.now (map (λ word. word.now) options.now) reader) }
{
    let mut builder = ManualReader::builder().with_temporality(temporality_of(temporality)?);
    check_reader_options(options)?;
    let limit = limit_named(options, "limit")?;
    for kind in KINDS {
        builder = with_options_of(alloc, builder, kind, options, &limit)?;
    }
    Ok(builder.build())
}

/// Reads the temporality of a word.
fn temporality_of(word: &str) -> Result<Temporality, Refusal<'_>>
    ensures temporality { IfOk result (λ temporality. temporality_named word.now ≡ Ok temporality) }
    ensures meaningless { OnErr result (StandsForNothing (λ word temporality. temporality_named word ≡ Ok temporality) word.now) }
    ensures refused { IsOkUnless result (wrong_word word.entry Reason.UnknownTemporality) }
{
    match Temporality::from_str(word) {
        Ok(temporality) => Ok(temporality),
        Err(()) => Err(Refusal::of_word(word, Reason::UnknownTemporality)),
    }
}

/// Refuses words of which one says nothing about a reader.
fn check_reader_options<'a>(words: &[&'a str]) -> Result<(), Refusal<'a>>
    ensures named { OkIff result (IsTrue (list_all (has_name_of reader_names) (map (λ word. word.now) words.now))) tt }
    ensures refused { IfErr result (λ refusal. refusal ≢ Refusal.OutOfMemory) }
{
    check_names(
        words,
        &[
            "limit",
            "limit:counter",
            "limit:updowncounter",
            "limit:histogram",
            "limit:observablecounter",
            "limit:observableupdowncounter",
            "limit:gauge",
            "limit:observablegauge",
            "agg:counter",
            "agg:updowncounter",
            "agg:histogram",
            "agg:observablecounter",
            "agg:observableupdowncounter",
            "agg:gauge",
            "agg:observablegauge",
        ],
    )
}

/// Returns the builder with the limit and the aggregation that the options give for a kind; `limit` is the one for all
/// kinds.
fn with_options_of<'a>(
    alloc: Global,
    builder: ManualReaderBuilder,
    kind: InstrumentKind,
    options: &[&'a str],
    limit: &Option<CardinalityLimit>,
) -> Result<ManualReaderBuilder, Refusal<'a>>
    ensures given { limit_of builder kind ≡ None → aggregation_of builder kind ≡ None → IfOk result (λ made. ReadsKind (map (λ word. word.now) options.now) limit.now made kind) }
    ensures others { IfOk result (λ made. (other : InstrumentKind) → kind_eq other kind ≡ false → (limit_of made other ≡ limit_of builder other) × (aggregation_of made other ≡ aggregation_of builder other)) }
    ensures temporality { IfOk result (λ made. made.temporality ≡ builder.temporality) }
    ensures meaningless { IfErr result (λ refusal. refusal ≢ Refusal.OutOfMemory → IsTrue (list_all has_value (map (λ word. word.now) options.now)) → (for_all : Option ℕ) (reader : Wants) → ¬ ReadsKind (map (λ word. word.now) options.now) for_all reader kind) }
{
    let own = limit_named(options, limit_name(kind))?;
    let aggregation = aggregation_named(alloc, options, aggregation_name(kind))?;
    let builder = with_limit(builder, kind, own.or(*limit));
    Ok(with_aggregation(builder, kind, aggregation))
}

/// Reads the limit of the only word with this name, or none if no word has it.
fn limit_named<'a>(words: &[&'a str], name: &str) -> Result<Option<CardinalityLimit>, Refusal<'a>>
    ensures limit { IfOk result (ReadsOption IsLimitWord name.now (map (λ word. word.now) words.now)) }
    ensures meaningless { OnErr result (ReadsNothing IsLimitWord name.now (map (λ word. word.now) words.now)) }
    ensures refused { IfErr result (λ refusal. refusal ≢ Refusal.OutOfMemory) }
{
    match value_named(words, name)? {
        Some(value) => Ok(Some(limit_of_word(value)?)),
        None => Ok(None),
    }
}

/// Reads the limit of a word.
fn limit_of_word(word: &str) -> Result<CardinalityLimit, Refusal<'_>>
    ensures limit { IfOk result (IsLimitWord word.now) }
    ensures meaningless { OnErr result (StandsForNothing IsLimitWord word.now) }
    ensures refused { IfErr result (λ refusal. refusal ≢ Refusal.OutOfMemory) }
{
    match CardinalityLimit::new(index(word)?) {
        Ok(limit) => Ok(limit),
        Err(_) => Err(Refusal::of_word(word, Reason::NotLimit)),
    }
}

/// Returns the builder with this limit for a kind, if there is one.
fn with_limit(
    builder: ManualReaderBuilder,
    kind: InstrumentKind,
    limit: Option<CardinalityLimit>,
) -> ManualReaderBuilder
    ensures given { limit_of builder kind ≡ None → limit_of result kind ≡ limit }
    ensures others { (other : InstrumentKind) → kind_eq other kind ≡ false → limit_of result other ≡ limit_of builder other }
    ensures temporality { result.temporality ≡ builder.temporality }
    ensures aggregations { result.aggregations ≡ builder.aggregations }
{
    match limit {
        Some(limit) => builder.with_cardinality_limit(kind, limit),
        None => builder,
    }
}

/// Returns the builder with this aggregation for a kind, if there is one.
fn with_aggregation(
    builder: ManualReaderBuilder,
    kind: InstrumentKind,
    aggregation: Option<Aggregation>,
) -> ManualReaderBuilder
    ensures given { aggregation_of builder kind ≡ None → aggregation_of result kind ≡ aggregation }
    ensures others { (other : InstrumentKind) → kind_eq other kind ≡ false → aggregation_of result other ≡ aggregation_of builder other }
    ensures temporality { result.temporality ≡ builder.temporality }
    ensures limits { result.limits ≡ builder.limits }
{
    match aggregation {
        Some(aggregation) => builder.with_default_aggregation(kind, aggregation),
        None => builder,
    }
}
