//! A counter, a histogram with a handle, and an observable gauge of a service.

use crate::calls::{counter, print_collection};
use crate::parts::provider_with;
use anyhow::Error;
use opentelemetry_sdk::common::{Fault, KeyValue};
use opentelemetry_sdk::metrics::meter::{Histogram, ObservableGauge};
use opentelemetry_sdk::metrics::provider::{Parts, Provider};
use std::alloc::Global;

/// Has each collection observe how many requests wait.
pub fn watch_queue<P: Parts>(
    alloc: Global,
    provider: &mut Provider<P>,
    waiting: P::ObserveU64,
) -> Result<ObservableGauge<u64>, Fault> {
    let meter = provider.meter("shop")?;
    meter
        .u64_observable_gauge(String::from_str(alloc, "waiting")?)
        .with_callback(waiting)?
        .build(provider, 100)
}

/// A histogram of the meter of this scope: how long requests take, in milliseconds, with bounds of its own.
pub fn latency_of<P: Parts>(
    alloc: Global,
    provider: &mut Provider<P>,
    scope: &str,
) -> Result<Histogram<u64>, Fault> {
    let meter = provider.meter(scope)?;
    meter
        .u64_histogram(String::from_str(alloc, "latency")?)
        .with_unit(String::from_str(alloc, "ms")?)
        .with_boundaries([10, 100].to_vec(alloc)?)
        .build(provider, 100)
}

/// Records durations in milliseconds of requests that have the same attributes, which are looked up once.
pub fn record_all<P: Parts>(
    provider: &mut Provider<P>,
    latency: Histogram<u64>,
    attributes: &[KeyValue],
    durations: &[u64],
) -> Result<(), Fault> {
    let handle = latency.bind(provider, attributes)?.keep();
    for milliseconds in durations {
        handle.record(provider, *milliseconds)?;
    }
    handle.end(provider)
}

/// Serves two requests of a path: counts them, and how long each took.
fn serve_two<P: Parts>(alloc: Global, provider: &mut Provider<P>) -> Result<(), Fault> {
    let requests = counter(alloc, provider, "shop", "requests", 100)?;
    let latency = latency_of(alloc, provider, "shop")?;
    let path = [KeyValue::text(alloc, "path", "/cart")?];
    requests.add(provider, 2, &path)?;
    record_all(provider, latency, &path, &[7, 250])
}

/// Serves two requests while others wait, and prints what was counted.
fn serve<P: Parts>(
    rt: &impl Print,
    alloc: Global,
    provider: &mut Provider<P>,
    waiting: P::ObserveU64,
) -> Result<(), Error> {
    serve_two(alloc, provider)?;
    watch_queue(alloc, provider, waiting)?;
    print_collection(rt, provider, 200)
}

/// A service that serves two requests, with one reader and a callback.
pub fn first_program<P: Parts>(
    rt: &impl Print,
    alloc: Global,
    reader: P::Reader,
    waiting: P::ObserveU64,
) -> Result<(), Error> {
    let mut provider = provider_with::<P>(alloc, reader, Vec::new(alloc))?;
    serve(rt, alloc, &mut provider, waiting)
}
