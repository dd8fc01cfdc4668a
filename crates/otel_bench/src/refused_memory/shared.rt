//! Makes a call at a provider that threads could share, or at a worker.

ghost use Rattle.std.specs.Prelude.{◌≡◌, ◌%◌, ◌^◌};
ghost use Rattle.opentelemetry_sdk.specs.Books.{count_in, sum_in};
ghost use Rattle.opentelemetry_sdk.specs.Providers.{state_of};

use crate::refused_memory::calls::answer_of;
use crate::refused_memory::later::write_later;
use crate::refused_memory::scenarios::unknown;
use crate::refused_memory::set_up::{Swept, calls_of};
use crate::refused_memory::trials::Trial;
use crate::refused_memory::typed::Instruments;
use crate::refused_memory::workers::{give_some, make_at_worker};
use anyhow::{Error, bail};
use opentelemetry_sdk::common::Fault;
use opentelemetry_sdk::metrics::data::ResourceMetrics;
use opentelemetry_sdk::metrics::meter::Bound;
use opentelemetry_sdk::metrics::provider::{Call, Parts, Provider};
use opentelemetry_sdk::metrics::shared::{Account, Locked, MOST_WORKERS, Receipt, Worker};
use std::marker::Brand;
use std::sync::ledger::Blank;

/// Submits the records of a worker until that is not refused for want of memory, at most three times.
fn submit_all<P: Parts, C: Account, S: Account>(
    locked: &mut Locked<P, C, S>,
    worker: &mut Worker<C, S>,
) -> Result<Receipt, Fault> {
    for _ in 0..2 {
        match locked.submit(worker) {
            Err(Fault::OutOfMemory) => {}
            answer => return answer,
        }
    }
    locked.submit(worker)
}

/// Makes the call under test, whose time is between opening and settling, between the marks.
fn make<R: Print, P: Parts, C: Account, S: Account>(
    trial: &mut Trial<R>,
    locked: &mut Locked<P, C, S>,
    worker: &mut Worker<C, S>,
    instruments: &Instruments,
    handle: &Bound<u64>,
    calls: &mut Vec<Call>,
    metrics: &mut ResourceMetrics,
) -> Result<(), Error> {
    let call = trial.scenario.call;
    trial.begin(call)?;
    match call {
        "submit" => trial.take(locked.submit(worker)),
        "submit_all" => trial.take(submit_all(locked, worker)),
        "line" | "collect" => match calls.as_slice() {
            [line] => match line {
                Call::Collect { reader, now, .. } if call == "collect" => {
                    trial.take(locked.collect(*reader, *now, metrics))
                }
                _ => trial.take(answer_of(locked.call(line))),
            },
            _ => unknown(call),
        },
        _ => make_at_worker(trial, worker, instruments, handle, calls),
    }
}

/// Has, in place of the call that was refused, the records that had been made by then. Those that wait are added.
fn pass_over<R, P: Parts, C: Account, S: Account>(
    trial: &Trial<R>,
    locked: &mut Locked<P, C, S>,
    worker: &mut Worker<C, S>,
) -> Result<(), Error> {
    let made = usize::try_from(trial.made).unwrap_or(usize::MAX);
    let waiting = trial.scenario.waiting;
    give_some(trial.alloc, worker, waiting, 0, made)?;
    if locked.submit(worker).is_err() {
        bail!("a record before the refused one was refused");
    }
    give_some(trial.alloc, worker, waiting, made, usize::MAX)
}

/// Writes what waits and what was made, and submits the rest; or takes it out, if a submission is under test.
fn write_worker<R, P: Parts, C: Account, S: Account>(
    trial: &mut Trial<R>,
    locked: &mut Locked<P, C, S>,
    worker: &mut Worker<C, S>,
) -> Result<(), Error> {
    let pending = worker.pending();
    trial.write(&pending)?;
    trial.write(&worker.submitted())?;
    if trial.scenario.call == "settle" {
        return Ok(());
    }
    if trial.scenario.call == "submit" {
        for _ in 0..pending {
            trial.write(&worker.take_first())?;
        }
    }
    let receipt = locked.submit(worker);
    trial.write(&receipt)
}

/// Adds the records that wait, and makes the call under test, if its time is between opening and settling. At the twin of
/// a refused call that is passed over. Then writes what the worker has.
fn between<R: Print, P: Parts, C: Account, S: Account>(
    trial: &mut Trial<R>,
    locked: &mut Locked<P, C, S>,
    worker: &mut Worker<C, S>,
    instruments: &Instruments,
    handle: &Bound<u64>,
) -> Result<(), Error> {
    let mut calls = calls_of(trial.alloc, trial.scenario.lines)?;
    let mut metrics = ResourceMetrics::default(trial.alloc);
    locked.collect(0, 195, &mut metrics)?;
    if trial.is_refused {
        pass_over(trial, locked, worker)?;
    } else {
        give_some(trial.alloc, worker, trial.scenario.waiting, 0, usize::MAX)?;
        if !matches!(trial.scenario.call, "open" | "settle") {
            make(
                trial,
                locked,
                worker,
                instruments,
                handle,
                &mut calls,
                &mut metrics,
            )?;
        }
        trial.made = worker.submitted();
    }
    trial.write(&metrics)?;
    write_worker(trial, locked, worker)
}

/// Takes the worker back, and writes what the provider answers later.
fn settle<R: Print, P: Parts, C: Account, S: Account>(
    trial: &mut Trial<R>,
    locked: Locked<P, C, S>,
    worker: Worker<C, S>,
) -> Result<(), Error>
    requires { (C.parts ≡ 4294967295) × (S.parts ≡ 4294967295) }
{
    let mut workers = Vec::new(trial.alloc);
    workers.push(worker)?;
    trial.begin("settle")?;
    let settled = locked.settle(workers);
    trial.end("settle")?;
    match settled {
        Ok(mut provider) => write_later(trial, &mut provider),
        Err((fault, _, _)) => Err(fault.into()),
    }
}

/// Shares a provider with ledgers, makes the call under test there, and writes what the provider answers later.
fn share_with<P: Parts, C: Account, S: Account, R: Print>(
    provider: Provider<P>,
    records: Blank,
    values: Blank,
    trial: &mut Trial<R>,
    instruments: &Instruments,
    handle: &Bound<u64>,
) -> Result<(), Error>
    requires records { (records.name ≡ C.name) × (records.parts ≡ C.parts) × (records.parts ≡ 4294967295) × (C.before ≡ count_in (state_of provider) % 2 ^ 64) }
    requires values { (values.name ≡ S.name) × (values.parts ≡ S.parts) × (values.parts ≡ 4294967295) × (S.before ≡ sum_in (state_of provider) % 2 ^ 64) }
{
    let mut locked = Locked::<P, C, S>::new(provider, records, values);
    trial.begin("open")?;
    let opened = locked.open_worker();
    trial.end("open")?;
    let mut worker = opened?;
    between(trial, &mut locked, &mut worker, instruments, handle)?;
    settle(trial, locked, worker)
}

/// Makes the call under test at a provider once it is shared, or at a worker, and writes what it answers, and what the
/// provider answers later. No ledger is named in the signature.
pub fn share<R: Print>(
    provider: Provider<Swept>,
    trial: &mut Trial<R>,
    instruments: &Instruments,
) -> Result<(), Error> {
    let mut provider = provider;
    let handle = instruments.limited.bind(&mut provider, &[])?;
    let written = share_with::<Swept, Brand, Brand, R>(
        provider,
        Blank::new(MOST_WORKERS),
        Blank::new(MOST_WORKERS),
        trial,
        instruments,
        &handle,
    );
    let _ = handle.into_number();
    written
}
