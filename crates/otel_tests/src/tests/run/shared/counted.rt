//! Counters by number, and what a collection shows of them.

use super::super::seeds::call;
use opentelemetry_sdk::metrics::provider::{Call, Parts, Provider, Reply};
use opentelemetry_sdk::metrics::shared::{Account, Locked, Worker};
use otel_common::faults::Fault;
use otel_data::aggregated::{AggregatedMetrics, MetricData};
use otel_data::collections::{Metric, ResourceMetrics};
use otel_data::numbers::NumberValue;
use std::alloc::Global;
use std::process::Abort;

/// The number of the fault of a call that is refused, otherwise 0.
pub fn fault_of_call<P: Parts, C: Account, S: Account>(
    locked: &mut Locked<P, C, S>,
    call: &Call,
) -> u8 {
    match &locked.call(call) {
        Reply::Refused(fault) => fault.number(),
        _ => 0,
    }
}

/// Builds the counters `a`, with the number 0, and `b`, with the number 1, of one meter.
pub fn build_counters<P: Parts, C: Account, S: Account>(
    rt: &impl Abort,
    alloc: Global,
    locked: &mut Locked<P, C, S>,
) {
    for line in ["meter app", "build a", "build b"] {
        let _ = fault_of_call(locked, &call(rt, alloc, line));
    }
}

/// Adds a record to a worker's list, without attributes.
pub fn add<C: Account, S: Account>(
    alloc: Global,
    worker: &mut Worker<C, S>,
    instrument: usize,
    value: u64,
) -> Result<(), Fault> {
    worker.add(instrument, NumberValue::U64(value), Vec::new(alloc))
}

/// Opens one worker more.
pub fn open_worker<P: Parts, C: Account, S: Account>(
    locked: &mut Locked<P, C, S>,
    workers: &mut Vec<Worker<C, S>>,
) -> Result<(), Fault> {
    workers.push(locked.open_worker()?)?;
    Ok(())
}

/// Opens so many workers.
pub fn open_workers<P: Parts, C: Account, S: Account>(
    alloc: Global,
    locked: &mut Locked<P, C, S>,
    number: usize,
) -> Result<Vec<Worker<C, S>>, Fault> {
    let mut workers = Vec::new(alloc);
    for _ in 0..number {
        open_worker(locked, &mut workers)?;
    }
    Ok(workers)
}

/// The value of the last point of a metric that is a sum of unsigned numbers.
fn value_of(metric: &Metric) -> u64 {
    let mut value = 0;
    if let AggregatedMetrics::U64(MetricData::Sum(sum)) = metric.data() {
        for point in sum.data_points() {
            value = point.value();
        }
    }
    value
}

/// The values of the counters `a` and `b`, each 0 if it isn't shown.
fn values_in(collected: &ResourceMetrics) -> (u64, u64) {
    let mut values = (0, 0);
    for scope in collected.scope_metrics() {
        for metric in scope.metrics() {
            match metric.name() {
                "a" => values.0 = value_of(metric),
                "b" => values.1 = value_of(metric),
                _ => {}
            }
        }
    }
    values
}

/// Writes the name and the value of each metric.
pub fn write_metrics(collected: &ResourceMetrics, text: &mut String) -> Result<(), Fault> {
    for scope in collected.scope_metrics() {
        for metric in scope.metrics() {
            let value = value_of(metric);
            write!(text, "{} {value}, ", metric.name())?;
        }
    }
    Ok(())
}

/// What the first reader collects of the counters `a` and `b`.
pub fn read<P: Parts, C: Account, S: Account>(
    alloc: Global,
    locked: &mut Locked<P, C, S>,
    now: u64,
) -> Result<(u64, u64), Fault> {
    let mut collected = ResourceMetrics::default(alloc);
    locked.collect(0, now, &mut collected)?;
    Ok(values_in(&collected))
}

/// Writes what the first reader of a provider collects of the counters `a` and `b`.
pub fn write_counters<P: Parts>(
    alloc: Global,
    provider: &mut Provider<P>,
    text: &mut String,
) -> Result<(), Fault> {
    let mut collected = ResourceMetrics::default(alloc);
    provider.collect(0, 1100, &mut collected)?;
    let (a, b) = values_in(&collected);
    write!(text, "{a} and {b}")?;
    Ok(())
}
