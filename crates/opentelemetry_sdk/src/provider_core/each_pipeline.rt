//! What is done to the streams of all readers, one reader after another.

ghost use Rattle.std.specs.Prelude.{◌≡◌, ℕ, [], true, false, All, map, IsOk, OnOk, OnErr, IsOkUnless};
ghost use Rattle.std.specs.List.{list_any, list_all, AllByRecursion as EachOf};
ghost use Rattle.std.specs.Option.{option_map};
ghost use Rattle.otel_model.specs.Calls as model;
ghost use Rattle.otel_model.specs.Machine as machine;
ghost use Rattle.otel_model.specs.Machine.{part_after_call};
ghost use Rattle.otel_model.specs.Places.{Listed, IsPlaced};
ghost use Rattle.opentelemetry_sdk.specs.pipeline.Handles.{FeedsSynchronous, IsNewAt, StandsFor};
ghost use Rattle.opentelemetry_sdk.specs.pipeline.Known.{is_known_at};
ghost use Rattle.opentelemetry_sdk.specs.pipeline.Pipelines.{part_of, changed_by, has_stream_at, HashesFrom, IsAlike, IsLawful, IsReadyFor};
ghost use Rattle.opentelemetry_sdk.specs.pipeline.Streams.{contents_after, contents_prepared};
ghost use Rattle.opentelemetry_sdk.specs.pipeline.Views.{views_answering};
ghost use Rattle.opentelemetry_sdk.specs.Correspondence.{number_of};
ghost use Rattle.opentelemetry_sdk.specs.States.{IsGoodIn, FeedType};

use crate::pipeline::Pipeline;
use crate::pipeline::about::About;
use crate::pipeline::change::Change;
use otel_aggregate::value_map::hashed_key::GivenAttributes;
use otel_aggregate::value_map::hashing::SetHashBuilder;
use otel_common::faults::Fault;
use otel_common::scopes::InstrumentationScope;
use otel_data::numbers::NumberValue;
use otel_stream::stream::Stream;
use std::alloc::AllocError;

/// Prepares a record or, if `binds`, a bind in the streams that an instrument feeds, at all readers. Hashes the attributes
/// once if several readers are to look them up.
#[inline(always)]
fn prepare_all(
    pipelines: &mut [Pipeline],
    instrument: usize,
    attributes: &GivenAttributes,
    binds: bool,
) -> Result<(), AllocError>
    ensures same { map part_of pipelines.new ≡ map part_of pipelines.old }
    ensures ready { OnOk result (All (IsReadyFor binds instrument attributes.now) pipelines.new) }
    ensures known { binds ≡ false → list_all (is_known_at instrument attributes.now) (map part_of pipelines.old) ≡ true → IsOk result }
{
    let Some(first) = pipelines.first() else {
        return Ok(());
    };
    let given = attributes.hashed_for(pipelines.len(), first.hasher);
    for i in 0..pipelines.len() {
        pipelines[i].prepare(instrument, &given, binds)?;
    }
    Ok(())
}

/// Carries a change out in the streams that an instrument feeds, at all readers, and returns the place of the handle that
/// it bound in one of them. It mostly has the same place in all.
#[inline(always)]
pub(crate) fn change_all(pipelines: &mut [Pipeline], instrument: usize, change: Change<'_>) -> usize
    requires { IsAlike change }
    ensures streams { pipelines.new ≡ map (changed_by (contents_after change.entry) instrument) pipelines.old }
    ensures lawful { EachOf IsLawful pipelines.old }
    ensures parts { (next : ℕ) (call : model.Call) → All (StandsFor instrument change.entry next call) pipelines.old → map part_of pipelines.new ≡ map (part_after_call next call) (map part_of pipelines.old) }
{
    if pipelines.len() == 1 {
        return pipelines[0].change(instrument, change);
    }
    let mut place = 0;
    for i in 0..pipelines.len() {
        place = place.max(pipelines[i].change(instrument, change));
    }
    place
}

/// Whether an instrument feeds a stream of some reader.
pub(crate) fn any_stream(pipelines: &[Pipeline], instrument: usize) -> bool
    ensures { result ≡ list_any (λ p. has_stream_at instrument (part_of p)) pipelines.now }
{
    pipelines
        .iter()
        .any(|pipeline| pipeline.has_stream(instrument))
}

/// Builds an instrument at all readers or at none, given each view's answer. New streams hash sets with this hasher.
/// Without a scope it demands no stream.
pub(crate) fn build_or_none(
    pipelines: &mut [Pipeline],
    hasher: SetHashBuilder,
    scope: Option<&InstrumentationScope>,
    about: &About<'_>,
    answered: &[Option<Stream>],
    now: u64,
) -> Result<(), Fault>
    requires { IsGoodIn (option_map (λ s. s.now) scope) about.now }
    ensures ok { OnOk result (map part_of pipelines.new ≡ map (machine.part_after_build (views_answering answered.now) (option_map (λ s. s.now) scope.entry) about.now now) (map part_of pipelines.old)) }
    ensures seeded { OnOk result (All (HashesFrom hasher.seed) pipelines.new) }
    ensures err { OnErr result (map part_of pipelines.new ≡ map part_of pipelines.old) }
    ensures only_memory { IsOkUnless result Fault.OutOfMemory }
{
    let Some((first, rest)) = pipelines.split_first_mut() else {
        return Ok(());
    };
    let (streams, instruments) = first.sizes();
    if let Err(fault) = first.build(hasher, scope, about, answered, now) {
        first.cut_back(streams, instruments);
        return Err(fault);
    }
    if let Err(fault) = build_or_none(rest, hasher, scope, about, answered, now) {
        first.cut_back(streams, instruments);
        return Err(fault);
    }
    Ok(())
}

/// Makes a record with attributes in the streams that an instrument feeds, at all readers or at none. Out of line, so that
/// a record without attributes is short.
#[inline(never)]
fn record_given(
    pipelines: &mut [Pipeline],
    instrument: usize,
    value: NumberValue,
    attributes: &GivenAttributes,
) -> Result<(), AllocError>
    requires { FeedType instrument (number_of value) (map part_of pipelines.old) }
    ensures ok { OnOk result (map part_of pipelines.new ≡ map (part_after_call 0 (model.Call.Record instrument (number_of value) attributes.now)) (map part_of pipelines.old)) }
    ensures err { OnErr result (map part_of pipelines.new ≡ map part_of pipelines.old) }
    ensures known { list_all (is_known_at instrument attributes.now) (map part_of pipelines.old) ≡ true → IsOk result }
{
    prepare_all(pipelines, instrument, attributes, false)?;
    change_all(pipelines, instrument, Change::Prepared(value));
    Ok(())
}

/// Makes a record in the streams that an instrument feeds, at all readers or at none. At the only reader there is nothing
/// to undo, so it is made in one pass.
#[inline(always)]
pub(crate) fn record_or_none(
    pipelines: &mut [Pipeline],
    instrument: usize,
    value: NumberValue,
    attributes: &GivenAttributes,
) -> Result<(), Fault>
    requires { FeedType instrument (number_of value) (map part_of pipelines.old) }
    ensures ok { OnOk result (map part_of pipelines.new ≡ map (part_after_call 0 (model.Call.Record instrument (number_of value) attributes.now)) (map part_of pipelines.old)) }
    ensures err { OnErr result (map part_of pipelines.new ≡ map part_of pipelines.old) }
    ensures free { attributes.now ≡ [] → IsOk result }
    ensures known { list_all (is_known_at instrument attributes.now) (map part_of pipelines.old) ≡ true → IsOk result }
    ensures only_memory { IsOkUnless result Fault.OutOfMemory }
{
    if attributes.as_slice().is_empty() {
        change_all(pipelines, instrument, Change::Empty(value));
        return Ok(());
    }
    if pipelines.len() == 1 {
        pipelines[0].record(instrument, value, attributes)?;
        return Ok(());
    }
    record_given(pipelines, instrument, value, attributes)?;
    Ok(())
}

/// Binds a new handle in the streams that an instrument feeds, at all readers or at none, and returns its place in one of
/// them.
pub(crate) fn bind_or_none(
    pipelines: &mut [Pipeline],
    instrument: usize,
    handle: u64,
    attributes: &GivenAttributes,
) -> Result<usize, Fault>
    requires synchronous { EachOf (FeedsSynchronous instrument) (map part_of pipelines.old) }
    requires new { EachOf (IsNewAt handle) (map part_of pipelines.old) }
    ensures ok { OnOk result (map part_of pipelines.new ≡ map (part_after_call handle (model.Call.Bind instrument attributes.now)) (map part_of pipelines.old)) }
    ensures err { OnErr result (map part_of pipelines.new ≡ map part_of pipelines.old) }
    ensures only_memory { IsOkUnless result Fault.OutOfMemory }
{
    prepare_all(pipelines, instrument, attributes, true)?;
    Ok(change_all(pipelines, instrument, Change::Bind(handle)))
}

/// Prepares a record with these attributes in the streams that an instrument feeds, at all readers, beside those that are
/// prepared, if the streams know the attributes, and answers whether they all do.
pub(crate) fn prepare_known_all(
    pipelines: &mut [Pipeline],
    instrument: usize,
    attributes: &GivenAttributes,
) -> bool
    ensures ready { result ≡ true → pipelines.new ≡ map (changed_by (contents_prepared attributes.now) instrument) pipelines.old }
    ensures known { result ≡ true → list_all (is_known_at instrument attributes.now) (map part_of pipelines.old) ≡ true }
    ensures placed { result ≡ true → EachOf (λ p. EachOf (IsPlaced p.feeds (Listed instrument attributes.now)) p.streams) (map part_of pipelines.old) }
    ensures same { map part_of pipelines.new ≡ map part_of pipelines.old }
{
    for i in 0..pipelines.len() {
        if !pipelines[i].prepare_known(instrument, attributes) {
            return false;
        }
    }
    true
}
