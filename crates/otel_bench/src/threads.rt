//! How long threads take that record at one provider, each with a worker of its own or one record after another under
//! the lock.

ghost use Rattle.std.specs.Prelude.{◌≡◌, ◌%◌, ◌^◌};
ghost use Rattle.opentelemetry_sdk.specs.Books.{count_in, sum_in};
ghost use Rattle.opentelemetry_sdk.specs.Providers.{state_of};

use crate::scripts::{calls_of, parts_of, provider_of};
use crate::subjects::{Plain, Recorder, Shared, Subject};
use crate::targets::{Target, Work, lists_of};
use crate::workers::{add_batch, names_of};
use anyhow::Error;
use opentelemetry_sdk::common::{Fault, KeyValue};
use opentelemetry_sdk::metrics::provider::Provider;
use opentelemetry_sdk::metrics::shared::{Account, Locked, MOST_WORKERS};
use std::alloc::Global;
use std::marker::Brand;
use std::rt::Clock;
use std::sync::ledger::Blank;
use std::sync::{Mutex, Wait};
use std::thread;
use std::thread::Threads;
use std::time::Instant;

/// How many threads record, and how many batches each of them.
#[derive(Clone, Copy)]
struct Load {
    threads: usize,
    batches: u64,
}

/// What one thread does with its worker: it hands in its batches, each under the lock. Returns how many records were
/// accepted.
fn hand_in_batches<W: Recorder, S: Shared<W>, R: Wait>(
    rt: &R,
    alloc: Global,
    shared: &Mutex<S>,
    work: &Work<'_>,
    batches: u64,
    worker: W,
) -> u64 {
    let mut worker = worker;
    let Ok(names) = names_of(alloc, &mut worker, &work.target) else {
        return 0;
    };
    for batch in 0..batches {
        let _ = add_batch(alloc, &mut worker, work, names.as_slice(), batch);
        worker.group_list();
        let _ = shared.lock(rt).hand_in(&mut worker);
    }
    worker.accepted()
}

/// Opens this many workers.
fn open_workers<W: Recorder, S: Shared<W>>(
    alloc: Global,
    shared: &mut S,
    number: usize,
) -> Result<Vec<W>, Fault> {
    let mut workers = Vec::new(alloc);
    for _ in 0..number {
        let worker = shared.open()?;
        workers.push(worker)?;
    }
    Ok(workers)
}

/// The sum of what threads accepted.
fn sum_of(counts: &[u64]) -> u64 {
    let mut sum: u64 = 0;
    for count in counts {
        sum = sum.saturating_add(*count);
    }
    sum
}

/// Has a worker record in each thread. Returns how many records were accepted.
fn record_by_workers<W: Recorder + Send, S: Shared<W> + Send, R: Threads + Wait + Sync>(
    rt: &R,
    alloc: Global,
    shared: S,
    work: &Work<'_>,
    load: Load,
) -> Result<u64, Fault> {
    let mut shared = shared;
    let workers = open_workers(alloc, &mut shared, load.threads)?;
    let shared = Mutex::new(shared);
    match thread::map_vec(
        rt,
        workers,
        &|worker| hand_in_batches(rt, alloc, &shared, work, load.batches, worker),
    ) {
        Ok(counts) => Ok(sum_of(counts.as_slice())),
        Err(_) => Err(Fault::OutOfMemory),
    }
}

/// Shares a provider by these ledgers, and has its workers record. Returns how many records were accepted.
fn by_ledgers<C: Account + Send + Sync, S: Account + Send + Sync, R: Threads + Wait + Sync>(
    rt: &R,
    alloc: Global,
    provider: Provider<Plain>,
    work: &Work<'_>,
    load: Load,
    records: Blank,
    values: Blank,
) -> Result<u64, Fault>
    requires records { (records.name ≡ C.name) × (records.parts ≡ C.parts) × (records.parts ≡ 4294967295) × (C.before ≡ count_in (state_of provider) % 2 ^ 64) }
    requires values { (values.name ≡ S.name) × (values.parts ≡ S.parts) × (values.parts ≡ 4294967295) × (S.before ≡ sum_in (state_of provider) % 2 ^ 64) }
{
    record_by_workers(
        rt,
        alloc,
        Locked::<Plain, C, S>::new(provider, records, values),
        work,
        load,
    )
}

/// The same by ledgers that the signature does not name.
fn by_workers<R: Threads + Wait + Sync>(
    rt: &R,
    alloc: Global,
    provider: Provider<Plain>,
    work: &Work<'_>,
    load: Load,
) -> Result<u64, Fault> {
    by_ledgers::<Brand, Brand, R>(
        rt,
        alloc,
        provider,
        work,
        load,
        Blank::new(MOST_WORKERS),
        Blank::new(MOST_WORKERS),
    )
}

/// One round without a worker: the lock is taken for each record. Returns how many succeeded.
fn record_round<S: Subject, R: Wait>(rt: &R, shared: &Mutex<S>, target: &Target<'_>) -> u64 {
    let mut made: u64 = 0;
    match target {
        Target::Sets(counter, lists) | Target::Series(counter, lists) => {
            for attributes in lists.iter() {
                let is_made = shared.lock(rt).add_one(counter, attributes);
                made = made.saturating_add(u64::from(is_made));
            }
        }
        Target::Histogram(histogram, lists) => {
            for attributes in lists.iter() {
                let is_made = shared.lock(rt).record_one(histogram, attributes);
                made = made.saturating_add(u64::from(is_made));
            }
        }
        Target::Gauge(gauge, lists) => {
            for attributes in lists.iter() {
                let is_made = shared.lock(rt).record_one(gauge, attributes);
                made = made.saturating_add(u64::from(is_made));
            }
        }
        Target::Lists(counter) => made = u64::from(shared.lock(rt).add_one(counter, &[])),
        Target::Handles(handles) => {
            for handle in handles.iter() {
                let is_made = shared.lock(rt).add_one_through(&handle.bound);
                made = made.saturating_add(u64::from(is_made));
            }
        }
    }
    made
}

/// What one thread does without a worker: as many rounds as its batches would have. Returns how many records succeeded.
fn record_each<S: Subject, R: Wait>(
    rt: &R,
    shared: &Mutex<S>,
    work: &Work<'_>,
    batches: u64,
) -> u64 {
    let mut made: u64 = 0;
    for _ in 0..batches.saturating_mul(work.rounds) {
        made = made.saturating_add(record_round(rt, shared, &work.target));
    }
    made
}

/// Has threads record one record after another. Returns how many records succeeded.
fn by_lock<S: Subject + Send, R: Threads + Wait + Sync>(
    rt: &R,
    alloc: Global,
    subject: S,
    work: &Work<'_>,
    load: Load,
) -> Result<u64, Fault> {
    let shared = Mutex::new(subject);
    match thread::map_indices(
        rt,
        alloc,
        load.threads,
        &|_| record_each(rt, &shared, work, load.batches),
    ) {
        Ok(counts) => Ok(sum_of(counts.as_slice())),
        Err(_) => Err(Fault::OutOfMemory),
    }
}

/// The name of a way to record.
fn way_of(target: &Target<'_>, has_workers: bool) -> &'static str {
    match target {
        Target::Series(..) if has_workers => "worker_series",
        Target::Handles(_) if has_workers => "worker_bound",
        Target::Handles(_) => "lock_bound",
        _ if has_workers => "worker",
        _ => "lock",
    }
}

/// Prints the name of a way to record, how many threads recorded, how many records were accepted, and how many seconds
/// that took.
fn time_one<R: Print + Clock + Threads + Wait + Sync>(
    rt: &R,
    alloc: Global,
    provider: Provider<Plain>,
    work: &Work<'_>,
    load: Load,
    has_workers: bool,
) -> Result<(), Error> {
    let start = Instant::now(rt)?;
    let made = if has_workers {
        by_workers(rt, alloc, provider, work, load)?
    } else {
        by_lock(rt, alloc, provider, work, load)?
    };
    let seconds = start.elapsed(rt)?.as_secs_f64();
    let way = way_of(&work.target, has_workers);
    let threads = load.threads;
    println!(rt; "{way} {threads} {made} {seconds:.6}")?;
    Ok(())
}

/// How records are made that are timed: in what batches, at what series of a provider of what script.
#[derive(Drop)]
struct Timed<'a> {
    script: &'a str,
    lists: &'a [&'a [KeyValue]],
    rounds: u64,
}

/// Times records by calls of this name, at a new provider.
fn time_way<R: Print + Clock + Threads + Wait + Sync>(
    rt: &R,
    alloc: Global,
    timed: &Timed<'_>,
    load: Load,
    name: &str,
    has_workers: bool,
) -> Result<(), Error> {
    let mut provider = provider_of(alloc, timed.script)?;
    let target = Target::named(alloc, &mut provider, name, timed.lists)?;
    let work = Work {
        target,
        rounds: timed.rounds,
    };
    time_one(rt, alloc, provider, &work, load, has_workers)
}

/// Prints how many seconds 1, 2 and 4 threads take that make this many records each, in each way, where a batch is this
/// many rounds. The text is two scripts: what is done once, and the records of a round.
pub fn time_threads<R: Print + Clock + Threads + Wait + Sync>(
    rt: &R,
    alloc: Global,
    scripts: &str,
    records: u64,
    rounds: u64,
) -> Result<(), Error> {
    let (script, round) = parts_of(scripts, "\n---\n")?;
    let calls = calls_of(alloc, round)?;
    let lists = lists_of(alloc, calls.as_slice())?;
    let lists = lists.as_slice();
    let batch = rounds.saturating_mul(lists.len() as u64);
    let batches = records.checked_div(batch).unwrap_or(0);
    let timed = Timed {
        script,
        lists,
        rounds,
    };
    for threads in [1, 2, 4] {
        let load = Load { threads, batches };
        time_way(rt, alloc, &timed, load, "add", false)?;
        time_way(rt, alloc, &timed, load, "add", true)?;
        time_way(rt, alloc, &timed, load, "series", true)?;
        time_way(rt, alloc, &timed, load, "bound", false)?;
        time_way(rt, alloc, &timed, load, "bound", true)?;
    }
    Ok(())
}
