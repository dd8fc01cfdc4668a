//! The views, readers and callbacks of a provider that is shared.

use super::super::callbacks::Observing;
use super::super::readers::OwnReader;
use super::super::support::{string, with_manual};
use super::counted::{add, fault_of_call, open_workers, write_metrics};
use opentelemetry_sdk::metrics::instrument::{SelectorView, Stream};
use opentelemetry_sdk::metrics::provider::{Call, Parts, SdkMeterProvider};
use opentelemetry_sdk::metrics::reader::MetricReader;
use opentelemetry_sdk::metrics::shared::{Account, Locked, Worker};
use opentelemetry_sdk::metrics::{ManualReader, Temporality, View};
use otel_common::faults::Fault;
use otel_data::collections::ResourceMetrics;
use std::alloc::Global;
use std::process::Abort;

/// A provider with a manual reader and one that fails, a view by which the stream of `a` has the name `renamed`, and the
/// observable counter `seen`, with the number 0, whose callback observes 7 first.
pub fn provider_with_parts(rt: &impl Abort, alloc: Global) -> Result<SdkMeterProvider, Fault> {
    let builder = SdkMeterProvider::builder(alloc);
    let builder = with_manual(rt, alloc, builder, ManualReader::builder());
    let reader = OwnReader::new(Temporality::Cumulative, Temporality::Cumulative, true);
    let reader: Box<dyn MetricReader> = Box::new(alloc, reader)?;
    let stream = Stream::builder().with_name(string(rt, alloc, "renamed"));
    let stream = stream.build().expect(rt, "a stream");
    let view = SelectorView::of_name(alloc, "a", stream)?;
    let view: Box<dyn View> = Box::new(alloc, view)?;
    let mut provider = builder.with_reader(reader)?.with_view(view)?.build()?;
    let meter = provider.meter("app")?;
    provider.make_counted(alloc, meter, ("seen", "", ""), &[[7, 9, 12]])?;
    Ok(provider)
}

/// Asks all readers to flush, has a worker record 3 with the number 1, and collects. Writes the number of the flush's
/// fault, and the name and the value of each metric. The worker comes back.
pub fn use_parts<P: Parts, C: Account, S: Account>(
    alloc: Global,
    locked: &mut Locked<P, C, S>,
    text: &mut String,
) -> Result<Vec<Worker<C, S>>, Fault> {
    let flush = fault_of_call(locked, &Call::Flush);
    write!(text, "flush {flush}, ")?;
    let mut workers = open_workers(alloc, locked, 1)?;
    for worker in &mut workers {
        add(alloc, worker, 1, 3)?;
        locked.submit(worker)?;
    }
    let mut collected = ResourceMetrics::default(alloc);
    locked.collect(0, 200, &mut collected)?;
    write_metrics(&collected, text)?;
    Ok(workers)
}
