//! Threads with a worker each, and one that collects under the lock meanwhile.

use super::counted::{add, open_workers, read};
use super::handed::hand_in;
use opentelemetry_sdk::metrics::provider::Parts;
use opentelemetry_sdk::metrics::shared::{Account, SharedProvider, Worker};
use otel_common::faults::Fault;
use std::alloc::Global;
use std::process::Abort;
use std::sync::Wait;
use std::thread::{Threads, join, map_vec};

/// How many threads record, how many rounds each, and how often one collects meanwhile.
#[derive(Clone, Copy)]
pub struct Recording {
    pub threads: usize,
    pub rounds: usize,
    pub collections: u64,
}

/// Some rounds of a worker: ten records of 1 at the first counter and five of 3 at the second, which are handed in.
/// Answers the greatest receipt.
fn work<P: Parts, C: Account, S: Account, R: Wait>(
    rt: &R,
    alloc: Global,
    shared: &SharedProvider<P, C, S>,
    worker: &mut Worker<C, S>,
    rounds: usize,
) -> Result<u64, Fault> {
    let mut greatest = 0;
    for _ in 0..rounds {
        for _ in 0..5 {
            add(alloc, worker, 0, 1)?;
            add(alloc, worker, 1, 3)?;
            add(alloc, worker, 0, 1)?;
        }
        greatest = hand_in(rt, shared, worker)?.max(greatest);
    }
    Ok(greatest)
}

/// The same with a worker that comes back. The receipt is 0 if something was refused.
fn work_and_return<P: Parts, C: Account, S: Account, R: Wait>(
    rt: &R,
    alloc: Global,
    shared: &SharedProvider<P, C, S>,
    worker: Worker<C, S>,
    rounds: usize,
) -> (Worker<C, S>, u64) {
    let mut worker = worker;
    let greatest = work(rt, alloc, shared, &mut worker, rounds).unwrap_or(0);
    (worker, greatest)
}

/// Has each worker do its rounds in a thread of its own, and gives them back with the greatest receipt.
fn in_threads<
    P: Parts + Send + Sync,
    C: Account + Send + Sync,
    S: Account + Send + Sync,
    R: Threads + Wait + Sync,
>(
    rt: &R,
    alloc: Global,
    shared: &SharedProvider<P, C, S>,
    workers: Vec<Worker<C, S>>,
    rounds: usize,
) -> Result<(Vec<Worker<C, S>>, u64), Fault> {
    let done = map_vec(
        rt,
        workers,
        &|worker| work_and_return(rt, alloc, shared, worker, rounds),
    )?;
    let mut greatest = 0;
    let mut workers = Vec::new(alloc);
    for (worker, receipt) in done {
        greatest = receipt.max(greatest);
        workers.push(worker)?;
    }
    Ok((workers, greatest))
}

/// Asserts that no value is less than the one before.
fn assert_rose(rt: &impl Abort, before: (u64, u64), values: (u64, u64)) {
    assert!(rt; before.0 <= values.0 && before.1 <= values.1);
}

/// Collects some times under the lock. No value is less than the one before. Answers the last.
fn watch<P: Parts, C: Account, S: Account, R: Abort + Wait>(
    rt: &R,
    alloc: Global,
    shared: &SharedProvider<P, C, S>,
    times: u64,
) -> Result<(u64, u64), Fault> {
    let mut last = (0, 0);
    for now in 0..times {
        let values = read(alloc, &mut shared.lock(rt), now)?;
        assert_rose(rt, last, values);
        last = values;
    }
    Ok(last)
}

/// Has threads record while one collects, and then collects once more. Writes the greatest receipt and what is collected
/// last. The workers come back.
pub fn record<
    P: Parts + Send + Sync,
    C: Account + Send + Sync,
    S: Account + Send + Sync,
    R: Abort + Threads + Wait + Sync,
>(
    rt: &R,
    alloc: Global,
    shared: &SharedProvider<P, C, S>,
    recording: Recording,
    text: &mut String,
) -> Result<Vec<Worker<C, S>>, Fault> {
    let workers = open_workers(alloc, &mut shared.lock(rt), recording.threads)?;
    let (done, seen) = join(
        rt,
        || in_threads(rt, alloc, shared, workers, recording.rounds),
        || watch(rt, alloc, shared, recording.collections),
    );
    let (workers, greatest) = done?;
    let (a, b) = read(alloc, &mut shared.lock(rt), 1000)?;
    assert_rose(rt, seen?, (a, b));
    write!(text, "receipt {greatest}, {a} and {b} under the lock, ")?;
    Ok(workers)
}
