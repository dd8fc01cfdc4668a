//! Records by a worker of a provider that threads share.

ghost use Rattle.std.specs.Prelude.{◌≡◌, ◌%◌, ◌^◌};
ghost use Rattle.opentelemetry_sdk.specs.Books.{count_in, sum_in};
ghost use Rattle.opentelemetry_sdk.specs.Providers.{state_of};

use crate::scripts::{calls_of, parts_of, provider_of};
use crate::subjects::{Plain, Recorder, Shared};
use crate::targets::{Handle, Target, Work, lists_of};
use anyhow::Error;
use opentelemetry_sdk::common::{Fault, KeyValue};
use opentelemetry_sdk::metrics::meter::{Counter, Records, Synchronous};
use opentelemetry_sdk::metrics::provider::Provider;
use opentelemetry_sdk::metrics::shared::{Account, Locked, MOST_WORKERS, WorkerSeries};
use std::alloc::Global;
use std::marker::Brand;
use std::sync::ledger::Blank;

/// How many rounds a batch is if the line before a script does not say.
const USUAL_ROUNDS: u64 = 100;

/// Adds a batch of records to a worker's list: this many rounds over these lists of attributes. `measure.sh` counts the
/// instructions of this function and of all that it calls.
#[inline(never)]
fn counted_worker_adds<W: Recorder>(
    worker: &mut W,
    counter: &Counter<u64>,
    lists: &[&[KeyValue]],
    rounds: u64,
) {
    for _ in 0..rounds {
        for attributes in lists {
            worker.add_one(counter, attributes);
        }
    }
}

/// Adds a batch of records at a histogram or a gauge to a worker's list. It is counted as `counted_worker_adds` is.
#[inline(never)]
fn counted_worker_records<K: Records, W: Recorder>(
    worker: &mut W,
    instrument: &Synchronous<K, u64>,
    lists: &[&[KeyValue]],
    rounds: u64,
) {
    for _ in 0..rounds {
        for attributes in lists {
            worker.record_one(instrument, attributes);
        }
    }
}

/// Adds a batch of records of series to a worker's list. It is counted as `counted_worker_adds` is.
#[inline(never)]
fn counted_worker_series_adds<W: Recorder>(
    worker: &mut W,
    names: &[WorkerSeries<u64>],
    rounds: u64,
) {
    for _ in 0..rounds {
        for series in names {
            worker.add_one_at(*series);
        }
    }
}

/// Adds a batch of records through handles to a worker's list. It is counted as `counted_worker_adds` is.
#[inline(never)]
fn counted_worker_bound_adds<W: Recorder>(worker: &mut W, handles: &[Handle], rounds: u64) {
    for _ in 0..rounds {
        for handle in handles {
            worker.add_one_through(&handle.bound);
        }
    }
}

/// Puts the records of a worker's list together by series, before the lock is taken. It is counted as
/// `counted_worker_adds` is.
#[inline(never)]
fn counted_group<W: Recorder>(worker: &mut W) {
    worker.group_list();
}

/// Hands in what is in a worker's list. It is counted as `counted_worker_adds` is.
#[inline(never)]
fn counted_submit<W: Recorder, S: Shared<W>>(shared: &mut S, worker: &mut W) -> bool {
    shared.hand_in(worker)
}

/// Adds a batch of this many records to a worker's list, each with a list of attributes that no record had before.
fn add_new_lists<W: Recorder>(
    alloc: Global,
    worker: &mut W,
    counter: &Counter<u64>,
    records: u64,
    batch: u64,
) -> Result<(), Fault> {
    for place in 0..records {
        let number = batch.saturating_mul(records).saturating_add(place);
        let number = i64::try_from(number).unwrap_or(i64::MAX);
        worker.add_one(counter, &[KeyValue::int(alloc, "number", number)?]);
    }
    Ok(())
}

/// Names the series of a target at a worker, if it is recorded at by names.
pub fn names_of<W: Recorder>(
    alloc: Global,
    worker: &mut W,
    target: &Target<'_>,
) -> Result<Vec<WorkerSeries<u64>>, Fault> {
    let mut names = Vec::new(alloc);
    if let Target::Series(counter, lists) = target {
        for attributes in lists.iter() {
            names.push(worker.name(counter, attributes)?)?;
        }
    }
    Ok(names)
}

/// Adds the batch of this number to a worker's list. The worker gave these names.
pub fn add_batch<W: Recorder>(
    alloc: Global,
    worker: &mut W,
    work: &Work<'_>,
    names: &[WorkerSeries<u64>],
    batch: u64,
) -> Result<(), Fault> {
    let rounds = work.rounds;
    match &work.target {
        Target::Sets(counter, lists) => counted_worker_adds(worker, counter, lists, rounds),
        Target::Series(..) => counted_worker_series_adds(worker, names, rounds),
        Target::Histogram(histogram, lists) => {
            counted_worker_records(worker, histogram, lists, rounds)
        }
        Target::Gauge(gauge, lists) => counted_worker_records(worker, gauge, lists, rounds),
        Target::Lists(counter) => add_new_lists(alloc, worker, counter, rounds, batch)?,
        Target::Handles(handles) => {
            counted_worker_bound_adds(worker, handles.as_slice(), rounds)
        }
    }
    Ok(())
}

/// Hands in this many batches by a new worker, and returns how many of their records were accepted.
fn batches_by_one<W: Recorder, S: Shared<W>>(
    alloc: Global,
    shared: &mut S,
    work: &Work<'_>,
    times: u64,
) -> Result<u64, Fault> {
    let mut worker = shared.open()?;
    let names = names_of(alloc, &mut worker, &work.target)?;
    for batch in 0..times {
        add_batch(alloc, &mut worker, work, names.as_slice(), batch)?;
        counted_group(&mut worker);
        let _ = counted_submit(shared, &mut worker);
    }
    Ok(worker.accepted())
}

/// Shares a provider by these ledgers, and hands in this many batches by its only worker.
fn batches_by_ledgers<C: Account, S: Account>(
    alloc: Global,
    provider: Provider<Plain>,
    work: &Work<'_>,
    times: u64,
    records: Blank,
    values: Blank,
) -> Result<u64, Fault>
    requires records { (records.name ≡ C.name) × (records.parts ≡ C.parts) × (records.parts ≡ 4294967295) × (C.before ≡ count_in (state_of provider) % 2 ^ 64) }
    requires values { (values.name ≡ S.name) × (values.parts ≡ S.parts) × (values.parts ≡ 4294967295) × (S.before ≡ sum_in (state_of provider) % 2 ^ 64) }
{
    let mut locked = Locked::<Plain, C, S>::new(provider, records, values);
    batches_by_one(alloc, &mut locked, work, times)
}

/// The same by ledgers that the signature does not name.
fn batches(
    alloc: Global,
    provider: Provider<Plain>,
    work: &Work<'_>,
    times: u64,
) -> Result<u64, Fault> {
    batches_by_ledgers::<Brand, Brand>(
        alloc,
        provider,
        work,
        times,
        Blank::new(MOST_WORKERS),
        Blank::new(MOST_WORKERS),
    )
}

/// The name of the calls of a line, and how many rounds a batch of them is.
fn name_and_rounds(line: &str) -> Result<(&str, u64), Error> {
    match line.split_once(" ") {
        Some((name, rounds)) => Ok((name, rounds.parse::<u64>()?)),
        None => Ok((line, USUAL_ROUNDS)),
    }
}

/// Hands in this many batches of records by a worker of the provider of a script. The text is the name of their call,
/// perhaps with a number of rounds, and, after a line's end, a script whose records have the attributes. Returns how
/// many of their records were accepted.
pub fn count_by_worker(alloc: Global, first: &str, text: &str, times: u64) -> Result<u64, Error> {
    let (line, script) = parts_of(text, "\n")?;
    let (name, rounds) = name_and_rounds(line)?;
    let calls = calls_of(alloc, script)?;
    let lists = lists_of(alloc, calls.as_slice())?;
    let mut provider = provider_of(alloc, first)?;
    let target = Target::named(alloc, &mut provider, name, lists.as_slice())?;
    Ok(batches(alloc, provider, &Work { target, rounds }, times)?)
}
