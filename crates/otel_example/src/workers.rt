//! Four threads that count requests at one provider, each with a worker of its own.

ghost use Rattle.std.specs.Prelude.{◌≡◌, ◌%◌, ◌^◌};
ghost use Rattle.opentelemetry_sdk.specs.Books.{count_in, sum_in};
ghost use Rattle.opentelemetry_sdk.specs.Providers.{state_of};

use crate::calls::{counter, print_collection};
use crate::parts::provider_with;
use anyhow::Error;
use opentelemetry_sdk::common::{Fault, KeyValue};
use opentelemetry_sdk::metrics::meter::Counter;
use opentelemetry_sdk::metrics::provider::{Parts, Provider};
use opentelemetry_sdk::metrics::shared::{Account, Locked, MOST_WORKERS, SharedProvider, Worker};
use std::alloc::Global;
use std::marker::Brand;
use std::sync::ledger::Blank;
use std::sync::{Mutex, Wait};
use std::thread;
use std::thread::Threads;

/// Adds a request of a path to a worker's list, without the lock.
fn add_request<C: Account, S: Account>(
    alloc: Global,
    requests: Counter<u64>,
    worker: &mut Worker<C, S>,
    path: &str,
) -> Result<(), Fault> {
    let attributes = vec![in alloc; KeyValue::text(alloc, "path", path)?]?;
    worker.add_to(&requests, 1, &attributes)
}

/// What one thread does: it counts three requests and hands them in, all at once, under the lock. What is refused stays
/// in the worker's list.
fn count_requests<P: Parts, C: Account, S: Account, R: Wait>(
    rt: &R,
    alloc: Global,
    shared: &SharedProvider<P, C, S>,
    requests: Counter<u64>,
    worker: Worker<C, S>,
) -> Worker<C, S> {
    let mut worker = worker;
    for path in &["/cart", "/", "/cart"] {
        let _ = add_request(alloc, requests, &mut worker, path);
    }
    worker.group();
    let _ = shared.lock(rt).submit(&mut worker);
    worker
}

/// Opens four workers.
fn open_four<P: Parts, C: Account, S: Account>(
    alloc: Global,
    locked: &mut Locked<P, C, S>,
) -> Result<Vec<Worker<C, S>>, Fault> {
    let mut workers = Vec::new(alloc);
    for _ in 0..4 {
        workers.push(locked.open_worker()?)?;
    }
    Ok(workers)
}

/// Has each worker count in a thread of its own, and gives the workers back.
fn count_in_threads<
    P: Parts + Send + Sync,
    C: Account + Send + Sync,
    S: Account + Send + Sync,
    R: Threads + Wait + Sync,
>(
    rt: &R,
    alloc: Global,
    shared: &SharedProvider<P, C, S>,
    requests: Counter<u64>,
    workers: Vec<Worker<C, S>>,
) -> Result<Vec<Worker<C, S>>, Fault> {
    match thread::map_vec(
        rt,
        workers,
        &|worker| count_requests(rt, alloc, shared, requests, worker),
    ) {
        Ok(workers) => Ok(workers),
        Err(_) => Err(Fault::OutOfMemory),
    }
}

/// Hands a provider over to four threads, and takes it back.
fn share<
    P: Parts + Send + Sync,
    C: Account + Send + Sync,
    S: Account + Send + Sync,
    R: Threads + Wait + Sync,
>(
    rt: &R,
    alloc: Global,
    provider: Provider<P>,
    requests: Counter<u64>,
    records: Blank,
    values: Blank,
) -> Result<Provider<P>, Fault>
    requires records { (records.name ≡ C.name) × (records.parts ≡ C.parts) × (records.parts ≡ 4294967295) × (C.before ≡ count_in (state_of provider) % 2 ^ 64) }
    requires values { (values.name ≡ S.name) × (values.parts ≡ S.parts) × (values.parts ≡ 4294967295) × (S.before ≡ sum_in (state_of provider) % 2 ^ 64) }
{
    let mut locked = Locked::<P, C, S>::new(provider, records, values);
    let workers = open_four(alloc, &mut locked)?;
    let shared = Mutex::new(locked);
    let workers = count_in_threads(rt, alloc, &shared, requests, workers)?;
    match shared.into_inner().settle(workers) {
        Ok(provider) => Ok(provider),
        Err((fault, _, _)) => Err(fault),
    }
}

/// Four threads count requests, and what they counted is printed. No ledger is named in the signature.
pub fn in_threads<P: Parts + Send + Sync, R: Print + Threads + Wait + Sync>(
    rt: &R,
    alloc: Global,
    reader: P::Reader,
) -> Result<(), Error> {
    let mut provider = provider_with::<P>(alloc, reader, Vec::new(alloc))?;
    let requests = counter(alloc, &mut provider, "shop", "requests", 100)?;
    let mut provider = share::<P, Brand, Brand, R>(
        rt,
        alloc,
        provider,
        requests,
        Blank::new(MOST_WORKERS),
        Blank::new(MOST_WORKERS),
    )?;
    print_collection(rt, &mut provider, 200)
}
