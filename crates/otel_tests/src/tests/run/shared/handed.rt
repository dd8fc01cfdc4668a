//! Handing in records under the lock, and taking the provider back.

ghost use Rattle.std.specs.Prelude.{◌≡◌, ◌+◌, ◌%◌, ◌^◌, ◌≤◌, [], length, sum_by, IfOk, OnOk};
ghost use Rattle.otel_model.specs.Books.{count_in, sum_in};
ghost use Rattle.opentelemetry_sdk.specs.Providers.{state_of};
ghost use Rattle.opentelemetry_sdk.specs.Pending.{bits_in};
ghost use Rattle.opentelemetry_sdk.specs.Workers.{pending_of, records_of, values_of};

use super::counted::write_counters;
use opentelemetry_sdk::metrics::provider::{Parts, Provider};
use opentelemetry_sdk::metrics::shared::{Account, Locked, SharedProvider, Worker};
use otel_common::faults::Fault;
use std::alloc::Global;
use std::sync::Wait;

/// Hands in all that is pending, under the lock, and answers the number of the receipt. A caller knows of its own worker
/// what was accepted.
pub fn hand_in<P: Parts, C: Account, S: Account, R: Wait>(
    rt: &R,
    shared: &SharedProvider<P, C, S>,
    worker: &mut Worker<C, S>,
) -> Result<u64, Fault>
    ensures all { OnOk result ((pending_of worker.new ≡ []) × (records_of worker.new ≡ records_of worker.old + length (pending_of worker.old)) × (values_of worker.new ≡ values_of worker.old + sum_by bits_in (pending_of worker.old))) }
    ensures told { IfOk result (λ accepted. records_of worker.new ≤ accepted) }
{
    let receipt = shared.lock(rt).submit(worker)?;
    Ok(receipt.accepted)
}

/// The provider that its workers came back from. What it has accepted is what it had accepted before, and what they
/// handed in.
pub fn settled<P: Parts, C: Account, S: Account>(
    locked: Locked<P, C, S>,
    workers: Vec<Worker<C, S>>,
) -> Result<Provider<P>, Fault>
    requires { (C.parts ≡ 4294967295) × (S.parts ≡ 4294967295) }
    ensures count { IfOk result (λ p. count_in (state_of p) % 2 ^ 64 ≡ (C.before + sum_by records_of workers.items) % 2 ^ 64) }
    ensures sum { IfOk result (λ p. sum_in (state_of p) % 2 ^ 64 ≡ (S.before + sum_by values_of workers.items) % 2 ^ 64) }
{
    locked.adds_up();
    match locked.settle(workers) {
        Ok(provider) => Ok(provider),
        Err((fault, _, _)) => Err(fault),
    }
}

/// Settles with all workers. Writes what the provider that comes back collects of the counters `a` and `b`, or the number
/// of the fault.
fn settle_all<P: Parts, C: Account, S: Account>(
    alloc: Global,
    locked: Locked<P, C, S>,
    workers: Vec<Worker<C, S>>,
    text: &mut String,
) -> Result<(), Fault>
    requires { (C.parts ≡ 4294967295) × (S.parts ≡ 4294967295) }
{
    match settled(locked, workers) {
        Ok(provider) => {
            let mut provider = provider;
            write_counters(alloc, &mut provider, text)
        }
        Err(fault) => {
            write!(text, "refused {}", fault.number())?;
            Ok(())
        }
    }
}

/// Puts a worker back that was taken out.
fn put_back<W: Drop>(workers: &mut Vec<W>, worker: Option<W>) -> Result<(), Fault> {
    match worker {
        Some(worker) => Ok(workers.push(worker)?),
        None => Ok(()),
    }
}

/// Settles without the last worker, which is refused, and then with all that are given. Writes the number of the fault,
/// and what comes of the second.
pub fn settle_twice<P: Parts, C: Account, S: Account>(
    alloc: Global,
    locked: Locked<P, C, S>,
    workers: Vec<Worker<C, S>>,
    text: &mut String,
) -> Result<(), Fault>
    requires { (C.parts ≡ 4294967295) × (S.parts ≡ 4294967295) }
{
    let mut workers = workers;
    let last = workers.pop();
    match locked.settle(workers) {
        Ok(_) => Ok(()),
        Err((fault, locked, workers)) => {
            let mut workers = workers;
            put_back(&mut workers, last)?;
            write!(text, "refused {}, ", fault.number())?;
            settle_all(alloc, locked, workers, text)
        }
    }
}
