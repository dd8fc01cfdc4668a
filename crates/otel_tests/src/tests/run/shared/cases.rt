//! What is done with a shared provider.

ghost use Rattle.std.specs.Prelude.{◌≡◌, ◌%◌, ◌^◌};
ghost use Rattle.otel_model.specs.Books.{count_in, sum_in};
ghost use Rattle.opentelemetry_sdk.specs.Providers.{state_of};

use super::alone::follow;
use super::counted::build_counters;
use super::handed::settle_twice;
use super::parts::use_parts;
use super::threads::{Recording, record};
use super::typed::{Instruments, record_named, record_typed};
use opentelemetry_sdk::metrics::provider::{Boxed, Parts, Provider, SdkMeterProvider};
use opentelemetry_sdk::metrics::shared::{Account, Locked, MOST_WORKERS, SharedProvider, Worker};
use otel_common::faults::Fault;
use std::alloc::Global;
use std::marker::Brand;
use std::process::Abort;
use std::sync::ledger::Blank;
use std::sync::{Mutex, Wait};
use std::thread::Threads;

/// What is done with a shared provider.
#[derive(Clone, Copy)]
pub enum Case<'a> {
    /// Threads record.
    Threads(Recording),
    /// Workers do what these words say, without threads.
    Alone(&'a str),
    /// A worker records with instruments of another provider, and with those of its own.
    Typed(&'a Instruments, &'a Instruments),
    /// Workers record by the names of series, with the same instruments.
    Named(&'a Instruments, &'a Instruments),
    /// Views, readers and callbacks are asked.
    Parts,
}

/// Makes two counters, does what the case says, and writes what is answered. The workers come back.
fn run<
    P: Parts + Send + Sync,
    C: Account + Send + Sync,
    S: Account + Send + Sync,
    R: Abort + Threads + Wait + Sync,
>(
    rt: &R,
    alloc: Global,
    shared: &SharedProvider<P, C, S>,
    case: Case,
    text: &mut String,
) -> Result<Vec<Worker<C, S>>, Fault> {
    build_counters(rt, alloc, &mut shared.lock(rt));
    match case {
        Case::Threads(recording) => record(rt, alloc, shared, recording, text),
        Case::Alone(words) => follow(alloc, &mut shared.lock(rt), words, text),
        Case::Typed(foreign, own) => {
            record_typed(alloc, &mut shared.lock(rt), foreign, own, text)
        }
        Case::Named(foreign, own) => {
            record_named(alloc, &mut shared.lock(rt), foreign, own, text)
        }
        Case::Parts => use_parts(alloc, &mut shared.lock(rt), text),
    }
}

/// Shares a provider, does what the case says, and settles. Writes what is answered.
fn share<
    P: Parts + Send + Sync,
    C: Account + Send + Sync,
    S: Account + Send + Sync,
    R: Abort + Threads + Wait + Sync,
>(
    rt: &R,
    alloc: Global,
    provider: Provider<P>,
    records: Blank,
    values: Blank,
    case: Case,
    text: &mut String,
) -> Result<(), Fault>
    requires records { (records.name ≡ C.name) × (records.parts ≡ C.parts) × (records.parts ≡ 4294967295) × (C.before ≡ count_in (state_of provider) % 2 ^ 64) }
    requires values { (values.name ≡ S.name) × (values.parts ≡ S.parts) × (values.parts ≡ 4294967295) × (S.before ≡ sum_in (state_of provider) % 2 ^ 64) }
{
    let shared = Mutex::new(Locked::<P, C, S>::new(provider, records, values));
    let workers = run(rt, alloc, &shared, case, text)?;
    settle_twice(alloc, shared.into_inner(), workers, text)
}

/// The same with a provider of boxes. No ledger is named in the signature.
pub fn share_boxes<R: Abort + Threads + Wait + Sync>(
    rt: &R,
    alloc: Global,
    provider: SdkMeterProvider,
    case: Case,
    text: &mut String,
) -> Result<(), Fault> {
    share::<Boxed, Brand, Brand, R>(
        rt,
        alloc,
        provider,
        Blank::new(MOST_WORKERS),
        Blank::new(MOST_WORKERS),
        case,
        text,
    )
}
