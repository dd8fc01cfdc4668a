//! What a collection gives for one reader's streams.

ghost use Rattle.std.specs.Prelude.{◌≡◌, ◌++◌, [], ◌∷◌, true, false, None, Some, map, filter, length, slice_get, OnOk, IfOk, IfSome, IsOkUnless};
ghost use Rattle.std.specs.List.{IsDistinct, list_any};
ghost use Rattle.otel_common.specs.Scopes.{scope_eq};
ghost use Rattle.otel_model.specs.Collections.{has_metrics};
ghost use Rattle.opentelemetry_sdk.specs.pipeline.Collections.{append_each, shown_one, shown_in, scopes_shown};

use crate::pipeline::aggregations::is_drop;
use crate::pipeline::metric_stream::MetricStream;
use crate::pipeline::vectors::reserve_one;
use indexmap::IndexSet;
use otel_common::faults::Fault;
use otel_common::laws::copied_scope;
use otel_common::lists::Items;
use otel_common::scopes::InstrumentationScope;
use otel_data::collections::{Metric, ScopeMetrics};
use std::alloc::Global;

/// Whether the meter at this place has this scope.
fn is_at(
    meters: &IndexSet<InstrumentationScope>,
    place: usize,
    scope: &InstrumentationScope,
) -> bool
    ensures { result ≡ true → slice_get meters.now.keys place ≡ Some scope.now }
{
    match meters.get_index(place) {
        Some(found) => found == scope,
        None => false,
    }
}

/// The place of the meter that has this scope. Looks at this place and the one behind it first, and looks the scope up
/// only if it is at neither.
fn place_near(
    meters: &IndexSet<InstrumentationScope>,
    place: usize,
    scope: &InstrumentationScope,
) -> Option<usize>
    ensures there { IfSome result (λ n. slice_get meters.now.keys n ≡ Some scope.now) }
    ensures nowhere { result ≡ None → list_any (scope_eq scope.now) meters.now.keys ≡ false }
{
    if is_at(meters, place, scope) {
        return Some(place);
    }
    let next = place.saturating_add(1);
    if is_at(meters, next, scope) {
        return Some(next);
    }
    meters.get_index_of(scope)
}

/// Adds the metric of a stream to the list of its scope's meter. A stream that drops, that has no points, or whose scope
/// has no meter adds nothing.
///
/// Looks for the meter near a place, that of the meter of the stream before, since streams of one meter mostly stand
/// together. Returns the place to look near for the next stream: that of the meter, or else the place given.
fn push_metric(
    alloc: Global,
    lists: &mut Vec<Vec<Metric>>,
    meters: &IndexSet<InstrumentationScope>,
    near: usize,
    stream: &MetricStream,
    now: u64,
) -> Result<usize, Fault>
    requires long { length lists.old.items ≡ length meters.now.keys }
    requires apart { IsDistinct scope_eq meters.now.keys }
    ensures long { length lists.new.items ≡ length lists.old.items }
    ensures metrics { OnOk result (map (λ v. v.items) lists.new.items ≡ append_each (map (λ v. v.items) lists.old.items) (map (λ m. shown_one m now stream.now) meters.now.keys)) }
    ensures only_memory { IsOkUnless result Fault.OutOfMemory }
{
    let demand = stream.demand();
    if is_drop(&demand.aggregation) {
        return Ok(near);
    }
    let Some(place) = place_near(meters, near, &demand.identity.scope) else {
        return Ok(near);
    };
    if let Some(metric) = stream.metric(alloc, now)? {
        let metrics = &mut lists[place];
        reserve_one(metrics)?;
        metrics.push_reserved(metric);
    }
    Ok(place)
}

/// The metrics that have points, in one list for each meter.
///
/// Goes once over the streams.
fn metrics_by_meter(
    alloc: Global,
    streams: &[MetricStream],
    meters: &IndexSet<InstrumentationScope>,
    now: u64,
) -> Result<Vec<Vec<Metric>>, Fault>
    ensures metrics { IfOk result (λ lists. map (λ v. v.items) lists.items ≡ map (λ m. shown_in m now streams.now) meters.now.keys) }
    ensures only_memory { IsOkUnless result Fault.OutOfMemory }
{
    let mut lists = Vec::with_capacity(alloc, meters.len())?;
    for _ in 0..meters.len() {
        lists.push(Vec::new(alloc))?;
    }
    let mut place = 0;
    for stream in streams {
        place = push_metric(alloc, &mut lists, meters, place, stream, now)?;
    }
    Ok(lists)
}

/// Adds the metrics of a scope, if it has any.
fn push_scope(
    scopes: &mut Vec<ScopeMetrics>,
    scope: &InstrumentationScope,
    metrics: Vec<Metric>,
) -> Result<(), Fault>
    ensures scopes { OnOk result (scopes.new.items ≡ scopes.old.items ++ filter has_metrics (record { scope = scope.now; metrics = metrics.items } ∷ [])) }
    ensures only_memory { IsOkUnless result Fault.OutOfMemory }
{
    if metrics.is_empty() {
        return Ok(());
    }
    copied_scope();
    scopes.push(ScopeMetrics::new(scope.clone()?, Items::from(metrics)))?;
    Ok(())
}

/// The scopes that have metrics, in order of their meters.
///
/// Goes once over the streams and their points, and once over the meters.
pub(crate) fn scopes_of(
    alloc: Global,
    streams: &[MetricStream],
    meters: &IndexSet<InstrumentationScope>,
    now: u64,
) -> Result<Items<ScopeMetrics>, Fault>
    ensures scopes { IfOk result (λ scopes. scopes ≡ scopes_shown now streams.now meters.now.keys) }
    ensures only_memory { IsOkUnless result Fault.OutOfMemory }
{
    let lists = metrics_by_meter(alloc, streams, meters, now)?;
    let mut scopes = Vec::with_capacity(alloc, meters.len().min(streams.len()))?;
    for (scope, metrics) in meters.iter().zip(lists) {
        push_scope(&mut scopes, scope, metrics)?;
    }
    Ok(Items::from(scopes))
}
