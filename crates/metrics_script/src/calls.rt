//! The lines of a script that are calls.

ghost use Rattle.std.specs.Prelude.{◌≡◌, ◌≢◌, None, [], map, IfSome, IfOk, IfErr, OnOk, OnErr, IsOkUnless};
ghost use Rattle.std.specs.Option.{option_map};
ghost use Rattle.std.specs.Str.{IsUtf8};
ghost use Rattle.metrics_script.specs.CallLines.{IsBuildOf, IsCallLine};
ghost use Rattle.metrics_script.specs.Calls.{IsMeterWord, IsSortWord, IsCollectOf, IsObservedOf};
ghost use Rattle.metrics_script.specs.Refusals.{StandsForNothing, wrong_word};
ghost use Rattle.metrics_script.specs.Texts.{text_of_word};
ghost use Rattle.otel_stream.specs.declared.observation.Observed.{Observed};
ghost use Rattle.opentelemetry_sdk.specs.declared.calls.Call.{Call};

use crate::attributes::attributes_of;
use crate::numbers::{index, unsigned, value};
use crate::options::{Options, options_of};
use crate::reasons::Reason;
use crate::refusals::Refusal;
use crate::texts::text_of_word;
use crate::verbs::misfit;
use opentelemetry_sdk::common::InstrumentationScope;
use opentelemetry_sdk::metrics::provider::{Call, InstrumentSort, Observed};
use std::alloc::Global;

/// Reads the call of the words of a line, unless it is a collection.
pub fn call_of<'a>(alloc: Global, words: &[&'a str]) -> Result<Call, Refusal<'a>>
    ensures call { IfOk result (IsCallLine (map (λ word. word.now) words.now)) }
    ensures meaningless { IfErr result (λ refusal. refusal ≢ Refusal.OutOfMemory → (call : Call) → ¬ IsCallLine (map (λ word. word.now) words.now) call) }
{
    match words {
        ["meter", name] => Ok(Call::Meter {
            scope: scope_of(alloc, name, None)?,
        }),
        ["meter", name, version] => Ok(Call::Meter {
            scope: scope_of(alloc, name, Some(version))?,
        }),
        ["build", meter, sort, name, now, ..] => {
            let (_, options) = words.split_at(5);
            build_of(alloc, meter, sort, name, now, options)
        }
        ["record", instrument, number, attributes] => Ok(Call::Record {
            instrument: index(instrument)?,
            value: value(number)?,
            attributes: attributes_of(alloc, attributes)?.into(),
        }),
        ["bind", instrument, attributes] => Ok(Call::Bind {
            instrument: index(instrument)?,
            attributes: attributes_of(alloc, attributes)?.into(),
        }),
        ["recordbound", handle, number] => Ok(Call::RecordBound {
            handle: unsigned(handle)?,
            value: value(number)?,
        }),
        ["unbind", handle] => Ok(Call::Unbind {
            handle: unsigned(handle)?,
        }),
        ["flush"] => Ok(Call::Flush),
        ["shutdown"] => Ok(Call::Shutdown),
        _ => Err(misfit(words, true)),
    }
}

/// Reads the collection of the words of a line, with what was observed before it.
pub fn collect_of<'a>(
    reader: &'a str,
    now: &'a str,
    observations: Vec<Observed>,
) -> Result<Call, Refusal<'a>>
    ensures collect { IfOk result (IsCollectOf reader.now now.now observations.items) }
    ensures meaningless { OnErr result ((call : Call) → ¬ IsCollectOf reader.now now.now observations.items call) }
    ensures refused { IfErr result (λ refusal. refusal ≢ Refusal.OutOfMemory) }
{
    Ok(Call::Collect {
        reader: index(reader)?,
        now: unsigned(now)?,
        observations: observations.into(),
    })
}

/// Reads the observation of the words of a line.
pub fn observed_of<'a>(
    alloc: Global,
    instrument: &'a str,
    number: &'a str,
    attributes: &'a str,
) -> Result<Observed, Refusal<'a>>
    ensures observed { IfOk result (IsObservedOf instrument.now number.now attributes.now) }
    ensures meaningless { IfErr result (λ refusal. refusal ≢ Refusal.OutOfMemory → (observed : Observed) → ¬ IsObservedOf instrument.now number.now attributes.now observed) }
{
    Ok(Observed {
        instrument: index(instrument)?,
        value: value(number)?,
        attributes: attributes_of(alloc, attributes)?.into(),
    })
}

/// Reads the build of the words of a line.
fn build_of<'a>(
    alloc: Global,
    meter: &'a str,
    sort: &'a str,
    name: &'a str,
    now: &'a str,
    options: &[&'a str],
) -> Result<Call, Refusal<'a>>
    ensures build { IfOk result (IsBuildOf meter.now sort.now name.now now.now (map (λ word. word.now) options.now)) }
    ensures meaningless { IfErr result (λ refusal. refusal ≢ Refusal.OutOfMemory → (call : Call) → ¬ IsBuildOf meter.now sort.now name.now now.now (map (λ word. word.now) options.now) call) }
{
    let meter = meter_of(meter)?;
    let sort = sort_of(sort)?;
    let name = text_of_word(alloc, name)?;
    let now = unsigned(now)?;
    let Options {
        description,
        unit,
        boundaries,
    } = options_of(alloc, options)?;
    Ok(Call::Build {
        meter,
        sort,
        name: name.into(),
        description,
        unit,
        boundaries,
        now,
    })
}

/// Makes the scope of a name and, if one is given, a version.
fn scope_of<'a>(
    alloc: Global,
    name: &'a str,
    version: Option<&'a str>,
) -> Result<InstrumentationScope, Refusal<'a>>
    ensures scope { IfOk result (λ scope. scope ≡ record { name = text_of_word name.now; version = option_map (λ word. text_of_word word.now) version.entry; schema_url = None; attributes = [] }) }
    ensures only_utf8 { OnOk result (IsUtf8 (text_of_word name.now) × IfSome version.entry (λ word. IsUtf8 (text_of_word word.now))) }
    ensures utf8 { IsUtf8 (text_of_word name.now) → IfSome version.entry (λ word. IsUtf8 (text_of_word word.now)) → IsOkUnless result Refusal.OutOfMemory }
{
    let builder = InstrumentationScope::builder(alloc, text_of_word(alloc, name)?);
    let builder = match version {
        Some(version) => builder.with_version(text_of_word(alloc, version)?),
        None => builder,
    };
    Ok(builder.build()?)
}

/// Reads the number of a meter, or `none`.
fn meter_of(word: &str) -> Result<Option<usize>, Refusal<'_>>
    ensures meter { IfOk result (IsMeterWord word.now) }
    ensures meaningless { OnErr result (StandsForNothing IsMeterWord word.now) }
    ensures refused { IsOkUnless result (wrong_word word.entry Reason.NotUnsigned) }
{
    match word {
        "none" => Ok(None),
        _ => Ok(Some(index(word)?)),
    }
}

/// Reads the sort of an instrument: the name of its builder.
fn sort_of(word: &str) -> Result<InstrumentSort, Refusal<'_>>
    ensures sort { IfOk result (IsSortWord word.now) }
    ensures meaningless { OnErr result (StandsForNothing IsSortWord word.now) }
    ensures refused { IsOkUnless result (wrong_word word.entry Reason.UnknownSort) }
{
    match word {
        "u64_counter" => Ok(InstrumentSort::U64Counter),
        "u64_observable_counter" => Ok(InstrumentSort::U64ObservableCounter),
        "i64_up_down_counter" => Ok(InstrumentSort::I64UpDownCounter),
        "i64_observable_up_down_counter" => Ok(InstrumentSort::I64ObservableUpDownCounter),
        "u64_gauge" => Ok(InstrumentSort::U64Gauge),
        "i64_gauge" => Ok(InstrumentSort::I64Gauge),
        "u64_observable_gauge" => Ok(InstrumentSort::U64ObservableGauge),
        "i64_observable_gauge" => Ok(InstrumentSort::I64ObservableGauge),
        "u64_histogram" => Ok(InstrumentSort::U64Histogram),
        _ => Err(Refusal::of_word(word, Reason::UnknownSort)),
    }
}
