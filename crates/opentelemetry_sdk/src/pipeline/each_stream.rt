//! Calls that change streams of one reader, one after another.

ghost use Rattle.std.specs.Prelude.{◌≡◌, ◌<◌, [], true, false, All, slice_get, OnOk, IsOk};
ghost use Rattle.otel_model.specs.Calls.{or_else};
ghost use Rattle.opentelemetry_sdk.specs.pipeline.Known.{IsKnownIfThere, are_known};
ghost use Rattle.opentelemetry_sdk.specs.pipeline.Pipelines.{AreNumbers, AreReady, IsAlike, all_without_pending, changed_each, all_after_collection};
ghost use Rattle.opentelemetry_sdk.specs.pipeline.Streams.{contents_after, contents_prepared};

use crate::pipeline::aggregations::is_drop;
use crate::pipeline::change::Change;
use crate::pipeline::metric_stream::MetricStream;
use otel_aggregate::value_map::hashed_key::GivenAttributes;
use otel_common::lists::Items;
use std::alloc::AllocError;

/// The numbers of the streams that an instrument feeds; none if there is no such instrument.
#[inline(always)]
pub(crate) fn streams_fed(feeds: &[Items<usize>], instrument: usize) -> &[usize]
    ensures { result.now ≡ or_else (slice_get feeds.now instrument) [] }
{
    match feeds.get(instrument) {
        Some(numbers) => numbers.as_slice(),
        None => &[],
    }
}

/// Prepares a record or, if `binds`, a bind in each of these streams.
#[inline(always)]
pub(crate) fn prepare_each(
    streams: &mut Vec<MetricStream>,
    feeds: &[usize],
    attributes: &GivenAttributes,
    binds: bool,
) -> Result<(), AllocError>
    requires { AreNumbers (all_without_pending streams.old.items) feeds.now }
    ensures same { all_without_pending streams.new.items ≡ all_without_pending streams.old.items }
    ensures ready { OnOk result (AreReady binds attributes.now streams.new.items feeds.now) }
    ensures known { binds ≡ false → All (λ n. IsKnownIfThere attributes.now (slice_get (all_without_pending streams.old.items) n)) feeds.now → IsOk result }
{
    for k in feeds {
        streams[*k].prepare(attributes, binds)?;
    }
    Ok(())
}

/// Prepares a record with these attributes in each of these streams, beside those that are prepared, if the streams know the
/// attributes, and answers whether they all do.
#[inline(always)]
pub(crate) fn prepare_known_each(
    streams: &mut Vec<MetricStream>,
    feeds: &[usize],
    attributes: &GivenAttributes,
) -> bool
    requires { AreNumbers streams.old.items feeds.now }
    ensures ready { result ≡ true → streams.new.items ≡ changed_each (contents_prepared attributes.now) feeds.now streams.old.items }
    ensures known { result ≡ true → are_known attributes.now streams.old.items feeds.now ≡ true }
    ensures same { all_without_pending streams.new.items ≡ all_without_pending streams.old.items }
{
    for k in feeds {
        let stream = &mut streams[*k];
        // Nothing feeds a stream that drops. The test tells the prover so.
        if is_drop(&stream.demand().aggregation) || !stream.prepare_known(attributes) {
            return false;
        }
    }
    true
}

/// Carries a change out in each of these streams, and returns the place of the handle that it bound in one of them. It
/// mostly has the same place in all.
#[inline(never)]
pub(crate) fn change_each(
    streams: &mut Vec<MetricStream>,
    feeds: &[usize],
    change: Change<'_>,
) -> usize
    requires numbers { AreNumbers streams.old.items feeds.now }
    requires alike { IsAlike change }
    ensures { streams.new.items ≡ changed_each (contents_after change.entry) feeds.now streams.old.items }
{
    let mut place = 0;
    for k in feeds {
        place = streams[*k].change(change);
    }
    place
}

/// Ends a collection, which gave the points of all streams, at the moment `now`, in nanoseconds since 1970.
pub(crate) fn finish_each(streams: &mut Vec<MetricStream>, now: u64)
    ensures { all_without_pending streams.new.items ≡ all_without_pending (all_after_collection now streams.old.items) }
{
    for i in 0..streams.len() {
        streams[i].finish(now);
    }
}
