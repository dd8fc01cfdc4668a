//! Instruments and handles as values, of the worker's provider and of another one.

use super::super::support::fault_of;
use super::counted::{open_workers, read};
use opentelemetry_sdk::metrics::meter::{Bound, Counter, Gauge};
use opentelemetry_sdk::metrics::provider::{Parts, Provider};
use opentelemetry_sdk::metrics::shared::{Account, Locked, Worker, WorkerSeries};
use otel_common::attributes::KeyValue;
use otel_common::faults::Fault;
use std::alloc::Global;

/// A counter and a gauge of one provider, and a handle of the counter.
pub struct Instruments {
    counter: Counter<u64>,
    gauge: Gauge<i64>,
    handle: Bound<u64>,
}

impl Drop for Instruments {
    /// Lets the handle go.
    fn drop(self) {
        let Instruments {
            counter: _,
            gauge: _,
            handle,
        } = self;
        let _ = handle.into_number();
    }
}

impl Instruments {
    /// Makes them.
    pub fn build<P: Parts>(
        alloc: Global,
        provider: &mut Provider<P>,
    ) -> Result<Instruments, Fault> {
        let meter = provider.meter("app")?;
        let name = String::from_str(alloc, "a")?;
        let counter = meter.u64_counter(name).build(provider, 100)?;
        let name = String::from_str(alloc, "gauge")?;
        let gauge = meter.i64_gauge(name).build(provider, 100)?;
        Ok(Instruments {
            counter,
            gauge,
            handle: counter.bind(provider, &[])?,
        })
    }
}

/// Adds a record of each instrument and one through the handle. Writes the faults of these, otherwise 0, and then how
/// many are in the worker's list, how many the provider accepts, and the counter's value.
fn record_once<P: Parts, C: Account, S: Account>(
    alloc: Global,
    locked: &mut Locked<P, C, S>,
    worker: &mut Worker<C, S>,
    instruments: &Instruments,
    text: &mut String,
) -> Result<(), Fault> {
    let counter = fault_of(worker.add_to(&instruments.counter, 1, &[]));
    let gauge = fault_of(worker.record_at(&instruments.gauge, -1, &[]));
    let handle = fault_of(worker.add_through(&instruments.handle, 2));
    let pending = worker.pending();
    let accepted = locked.submit(worker)?.accepted;
    let (value, _) = read(alloc, locked, 200)?;
    write!(
        text,
        "faults {counter} {gauge} {handle}, {pending} wait, accepted {accepted}, value {value}, "
    )?;
    Ok(())
}

/// Has a worker record with instruments of another provider, and with those of its own. It comes back.
pub fn record_typed<P: Parts, C: Account, S: Account>(
    alloc: Global,
    locked: &mut Locked<P, C, S>,
    foreign: &Instruments,
    own: &Instruments,
    text: &mut String,
) -> Result<Vec<Worker<C, S>>, Fault> {
    let mut workers = open_workers(alloc, locked, 1)?;
    for worker in &mut workers {
        record_once(alloc, locked, worker, foreign, text)?;
        record_once(alloc, locked, worker, own, text)?;
    }
    Ok(workers)
}

/// Names the series of the instruments' counter without attributes, after those of as many lists with a number each.
fn name<C: Account, S: Account>(
    alloc: Global,
    worker: &mut Worker<C, S>,
    instruments: &Instruments,
    lists: i64,
) -> Result<WorkerSeries<u64>, Fault> {
    for number in 0..lists {
        worker.series(
            &instruments.counter,
            &[KeyValue::int(alloc, "number", number)?],
        )?;
    }
    worker.series(&instruments.counter, &[])
}

/// Adds a record of a series. Writes the fault, otherwise 0, and then how many records wait.
fn add_named<C: Account, S: Account>(
    worker: &mut Worker<C, S>,
    series: WorkerSeries<u64>,
    text: &mut String,
) -> Result<(), Fault> {
    let fault = fault_of(worker.add_at(series, 3));
    write!(text, "fault {fault}, {} wait, ", worker.pending())?;
    Ok(())
}

/// Names a series at each worker, which knows the series of other lists before, and adds a record of it and one of the
/// worker's before. Writes what is answered and how many records the provider accepts.
fn name_each<P: Parts, C: Account, S: Account>(
    alloc: Global,
    locked: &mut Locked<P, C, S>,
    workers: &mut Vec<Worker<C, S>>,
    own: &Instruments,
    text: &mut String,
) -> Result<(), Fault> {
    let mut before = None;
    for worker in workers {
        worker.reserve(10)?;
        let series = name(alloc, worker, own, 2)?;
        add_named(worker, before.unwrap_or(series), text)?;
        add_named(worker, series, text)?;
        write!(text, "accepted {}, ", locked.submit(worker)?.accepted)?;
        // so many lists are forgotten
        let _ = name(alloc, worker, own, 1000)?;
        add_named(worker, series, text)?;
        before = Some(series);
    }
    Ok(())
}

/// Makes records at once, of a counter, of a gauge and through a handle, and then one while another waits. Writes their
/// faults, otherwise 0.
fn record_at_once<P: Parts, C: Account, S: Account>(
    locked: &mut Locked<P, C, S>,
    worker: &mut Worker<C, S>,
    own: &Instruments,
    text: &mut String,
) -> Result<(), Fault> {
    let counter = fault_of(locked.record(worker, &own.counter, 3, &[]));
    let gauge = fault_of(locked.record(worker, &own.gauge, -3, &[]));
    let handle = fault_of(locked.record_through(worker, &own.handle, 3));
    worker.add_to(&own.counter, 3, &[])?;
    let waiting = fault_of(locked.record(worker, &own.counter, 3, &[]));
    locked.submit(worker)?;
    write!(text, "at once {counter} {gauge} {handle} {waiting}, ")?;
    Ok(())
}

/// Has two workers record by the names of series, and of those of another provider, and at once. They come back.
pub fn record_named<P: Parts, C: Account, S: Account>(
    alloc: Global,
    locked: &mut Locked<P, C, S>,
    foreign: &Instruments,
    own: &Instruments,
    text: &mut String,
) -> Result<Vec<Worker<C, S>>, Fault> {
    let mut workers = open_workers(alloc, locked, 2)?;
    name_each(alloc, locked, &mut workers, own, text)?;
    for worker in &mut workers {
        if let Err(fault) = name(alloc, worker, foreign, 0) {
            write!(text, "foreign {}, ", fault.number())?;
        }
        record_at_once(locked, worker, own, text)?;
    }
    Ok(workers)
}
