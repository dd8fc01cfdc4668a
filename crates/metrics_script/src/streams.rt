//! Streams of a script.

ghost use Rattle.std.specs.Prelude.{◌≡◌, ◌≢◌, None, map, codes, IfOk, IfErr, OnErr};
ghost use Rattle.std.specs.Option.{option_map};
ghost use Rattle.std.specs.String.{string_bytes};
ghost use Rattle.metrics_script.specs.Calls.{IsIndexWord};
ghost use Rattle.metrics_script.specs.Keys.{ReadsKeys};
ghost use Rattle.metrics_script.specs.Named.{ReadsNothing};
ghost use Rattle.metrics_script.specs.Options.{ReadsOption};
ghost use Rattle.metrics_script.specs.Streams.{ReadsStream, SaysNoStream};

use crate::keys::keys_of;
use crate::named::{aggregation_named, check_names, text_named, value_named};
use crate::numbers::index;
use crate::reasons::Reason;
use crate::refusals::Refusal;
use opentelemetry_sdk::common::Key;
use opentelemetry_sdk::metrics::instrument::StreamFault;
use opentelemetry_sdk::metrics::{Aggregation, Stream, StreamBuilder};
use std::alloc::Global;

/// Reads the stream that these words ask for, each with another name. Its settings must be good.
pub fn stream_of<'a>(alloc: Global, words: &[&'a str]) -> Result<Stream, Refusal<'a>>
    ensures stream { IfOk result (ReadsStream (map (λ word. word.now) words.now)) }
    ensures meaningless { IfErr result (λ refusal. refusal ≢ Refusal.OutOfMemory → SaysNoStream (map (λ word. word.now) words.now)) }
{
    check_names(
        words,
        &["name", "description", "unit", "limit", "keys", "agg"],
    )?;
    let builder = Stream::builder();
    let builder = with_name(builder, text_named(alloc, words, "name")?);
    let builder = with_description(builder, text_named(alloc, words, "description")?);
    let builder = with_unit(builder, text_named(alloc, words, "unit")?);
    let builder = with_limit(builder, limit_of(words)?);
    let builder = with_keys(builder, allowed_keys_of(alloc, words)?);
    let builder = with_aggregation(builder, aggregation_named(alloc, words, "agg")?);
    match builder.build() {
        Ok(stream) => Ok(stream),
        Err(fault) => Err(refusal_of(words, fault)),
    }
}

/// The refusal of words that ask for a stream with this fault.
fn refusal_of<'a>(words: &[&'a str], fault: StreamFault) -> Refusal<'a>
    ensures bad { result ≢ Refusal.OutOfMemory }
{
    let (name, reason) = match fault {
        StreamFault::UnitLength | StreamFault::UnitInvalidChar => ("unit", Reason::NotUnit),
        StreamFault::LimitZero | StreamFault::LimitMax => ("limit", Reason::NotLimit),
        StreamFault::Boundaries => ("agg", Reason::FallingBounds),
    };
    match value_named(words, name) {
        Ok(Some(value)) => Refusal::of_word(value, reason),
        _ => Refusal::of_line(reason),
    }
}

/// Reads the limit, if there is one.
fn limit_of<'a>(words: &[&'a str]) -> Result<Option<usize>, Refusal<'a>>
    ensures limit { IfOk result (ReadsOption IsIndexWord (codes "limit") (map (λ word. word.now) words.now)) }
    ensures meaningless { OnErr result (ReadsNothing IsIndexWord (codes "limit") (map (λ word. word.now) words.now)) }
    ensures refused { IfErr result (λ refusal. refusal ≢ Refusal.OutOfMemory) }
{
    match value_named(words, "limit")? {
        Some(value) => Ok(Some(index(value)?)),
        None => Ok(None),
    }
}

/// Reads the keys that are kept, if they are given.
fn allowed_keys_of<'a>(alloc: Global, words: &[&'a str]) -> Result<Option<Vec<Key>>, Refusal<'a>>
    ensures keys { IfOk result (λ keys. ReadsOption ReadsKeys (codes "keys") (map (λ word. word.now) words.now) (option_map (λ keys. keys.items) keys)) }
    ensures meaningless { IfErr result (λ refusal. refusal ≢ Refusal.OutOfMemory → ReadsNothing ReadsKeys (codes "keys") (map (λ word. word.now) words.now)) }
{
    match value_named(words, "keys")? {
        Some(value) => Ok(Some(keys_of(alloc, value)?)),
        None => Ok(None),
    }
}

fn with_name(builder: StreamBuilder, name: Option<String>) -> StreamBuilder
    ensures { builder.name ≡ None → result ≡ record builder { name = option_map string_bytes name } }
{
    match name {
        Some(name) => builder.with_name(name),
        None => builder,
    }
}

fn with_description(builder: StreamBuilder, description: Option<String>) -> StreamBuilder
    ensures { builder.description ≡ None → result ≡ record builder { description = option_map string_bytes description } }
{
    match description {
        Some(description) => builder.with_description(description),
        None => builder,
    }
}

fn with_unit(builder: StreamBuilder, unit: Option<String>) -> StreamBuilder
    ensures { builder.unit ≡ None → result ≡ record builder { unit = option_map string_bytes unit } }
{
    match unit {
        Some(unit) => builder.with_unit(unit),
        None => builder,
    }
}

fn with_limit(builder: StreamBuilder, limit: Option<usize>) -> StreamBuilder
    ensures { builder.limit ≡ None → result ≡ record builder { limit = limit } }
{
    match limit {
        Some(limit) => builder.with_cardinality_limit(limit),
        None => builder,
    }
}

fn with_keys(builder: StreamBuilder, keys: Option<Vec<Key>>) -> StreamBuilder
    ensures { builder.allow ≡ None → result ≡ record builder { allow = option_map (λ keys. keys.items) keys } }
{
    match keys {
        Some(keys) => builder.with_allowed_attribute_keys(keys),
        None => builder,
    }
}

fn with_aggregation(builder: StreamBuilder, aggregation: Option<Aggregation>) -> StreamBuilder
    ensures { builder.aggregation ≡ None → result ≡ record builder { aggregation = aggregation } }
{
    match aggregation {
        Some(aggregation) => builder.with_aggregation(aggregation),
        None => builder,
    }
}
