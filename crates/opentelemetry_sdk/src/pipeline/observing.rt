//! How a collection takes in what was observed: into drafts of streams, which are then exchanged.

ghost use Rattle.std.specs.Prelude.{◌≡◌, None, All, IfOk, OnOk, OnErr, IsOkUnless};
ghost use Rattle.opentelemetry_sdk.specs.pipeline.Collections.{scopes_shown};
ghost use Rattle.opentelemetry_sdk.specs.pipeline.Observations.{AreDraftsOf, AreObservableIn, drafted_all, observed_all};
ghost use Rattle.opentelemetry_sdk.specs.pipeline.Pipelines.{AreNumbers, all_without_pending, all_after_collection};

use crate::pipeline::collecting::scopes_of;
use crate::pipeline::each_stream::{finish_each, streams_fed};
use crate::pipeline::metric_stream::MetricStream;
use indexmap::IndexSet;
use otel_aggregate::draft::AggregateDraft;
use otel_common::faults::Fault;
use otel_common::laws::resource_laws;
use otel_common::lists::Items;
use otel_common::resource::Resource;
use otel_common::scopes::InstrumentationScope;
use otel_data::collections::ResourceMetrics;
use otel_stream::observation::Observed;
use std::alloc::Global;

/// Takes observations into drafts of the streams that their instruments feed, one after another, and returns the drafts.
fn observe_each(
    alloc: Global,
    streams: &mut Vec<MetricStream>,
    feeds: &[Items<usize>],
    observations: &[Observed],
) -> Result<Vec<Option<AggregateDraft>>, Fault>
    requires numbers { All (AreNumbers streams.old.items) feeds.now }
    requires observable { AreObservableIn feeds.now observations.now streams.old.items }
    ensures same { all_without_pending streams.new.items ≡ all_without_pending streams.old.items }
    ensures fits { IfOk result (λ drafts. AreDraftsOf drafts.items streams.new.items) }
    ensures observed { IfOk result (λ drafts. drafted_all drafts.items streams.new.items ≡ all_without_pending (observed_all feeds.now observations.now streams.old.items)) }
    ensures only_memory { IsOkUnless result Fault.OutOfMemory }
{
    if observations.is_empty() {
        return Ok(Vec::new(alloc));
    }
    let mut drafts = Vec::with_capacity(alloc, streams.len())?;
    for _ in 0..streams.len() {
        drafts.push(None)?;
    }
    for observation in observations {
        let numbers = streams_fed(feeds, observation.instrument);
        for k in numbers {
            let draft = &mut drafts[*k];
            streams[*k].observe(alloc, draft, observation)?;
        }
    }
    Ok(drafts)
}

/// Exchanges each stream with its draft, if it has one. Done twice, it changes nothing.
fn exchange_each(streams: &mut Vec<MetricStream>, drafts: &mut Vec<Option<AggregateDraft>>)
    requires { AreDraftsOf drafts.old.items streams.old.items }
    ensures drafted { all_without_pending streams.new.items ≡ drafted_all drafts.old.items streams.old.items }
    ensures back { drafted_all drafts.new.items streams.new.items ≡ all_without_pending streams.old.items }
    ensures fits { AreDraftsOf drafts.new.items streams.new.items }
{
    for n in 0..drafts.len() {
        let draft = &mut drafts[n];
        streams[n].exchange(draft);
    }
}

/// Takes observations in and makes a collection. If that fails, the streams are as they were before.
pub(crate) fn collect_observed(
    alloc: Global,
    streams: &mut Vec<MetricStream>,
    feeds: &[Items<usize>],
    resource: &Resource,
    meters: &IndexSet<InstrumentationScope>,
    observations: &[Observed],
    now: u64,
) -> Result<ResourceMetrics, Fault>
    requires numbers { All (AreNumbers streams.old.items) feeds.now }
    requires observable { AreObservableIn feeds.now observations.now streams.old.items }
    ensures resource { IfOk result (λ c. c.resource ≡ resource.now) }
    ensures scopes { IfOk result (λ c. c.scope_metrics ≡ scopes_shown now (observed_all feeds.now observations.now streams.old.items) meters.now.keys) }
    ensures streams { OnOk result (all_without_pending streams.new.items ≡ all_without_pending (all_after_collection now (observed_all feeds.now observations.now streams.old.items))) }
    ensures undone { OnErr result (all_without_pending streams.new.items ≡ all_without_pending streams.old.items) }
    ensures only_memory { IsOkUnless result Fault.OutOfMemory }
{
    resource_laws();
    let mut drafts = observe_each(alloc, streams, feeds, observations)?;
    let resource = resource.clone()?;
    exchange_each(streams, &mut drafts);
    match scopes_of(alloc, streams, meters, now) {
        Ok(scopes) => {
            finish_each(streams, now);
            Ok(ResourceMetrics::new(resource, scopes))
        }
        Err(fault) => {
            exchange_each(streams, &mut drafts);
            Err(fault)
        }
    }
}
