//! A provider that threads share: with threads, and with one worker and no thread.

use super::support::{fault_of, with_manual};
use opentelemetry_sdk::metrics::ManualReader;
use opentelemetry_sdk::metrics::provider::SdkMeterProvider;
use opentelemetry_sdk::metrics::shared::account::{check_book, check_workers};
use otel_common::faults::Fault;
use std::alloc::Global;
use std::process::Abort;
use std::sync::Wait;
use std::test::*;
use std::thread::Threads;

mod alone;
mod cases;
mod counted;
mod handed;
mod limits;
mod parts;
mod threads;
mod typed;

use cases::{Case, share_boxes};
use parts::provider_with_parts;
use threads::Recording;
use typed::Instruments;

/// A provider of this identity, with one reader.
fn provider_of(rt: &impl Abort, alloc: Global, identity: u64) -> Result<SdkMeterProvider, Fault> {
    let builder = SdkMeterProvider::builder(alloc).with_identity(identity);
    with_manual(rt, alloc, builder, ManualReader::builder()).build()
}

/// Shares a provider of its own, does with it what the case says, and asserts what is answered.
fn assert_case<R: Abort + Threads + Wait + Sync>(
    rt: &R,
    alloc: Global,
    case: Case,
    wanted: &str,
) -> Result<(), Fail> {
    let mut text = String::new(alloc);
    share_boxes(rt, alloc, provider_of(rt, alloc, 0)?, case, &mut text)?;
    assert_eq!(rt; text.as_str(), wanted);
    Ok(())
}

/// Four threads record: the greatest receipt, the two counters under the lock, and those of the provider that came back.
#[test]
fn row_18(rt: HostRuntime) -> Result<(), Fail> {
    let recording = Recording {
        threads: 4,
        rounds: 100,
        collections: 0,
    };
    let wanted = "receipt 6000, 4000 and 6000 under the lock, refused 14, 4000 and 6000";
    assert_case(&rt, rt.alloc(), Case::Threads(recording), wanted)
}

/// Two threads record, and a third collects meanwhile.
#[test]
fn watched_while_two_record(rt: HostRuntime) -> Result<(), Fail> {
    let recording = Recording {
        threads: 2,
        rounds: 50,
        collections: 200,
    };
    let wanted = "receipt 1500, 1000 and 1500 under the lock, refused 14, 1000 and 1500";
    assert_case(&rt, rt.alloc(), Case::Threads(recording), wanted)
}

/// A record at an instrument that isn't there stops a submission, and is taken out.
#[test]
fn row_29(rt: HostRuntime) -> Result<(), Fail> {
    let words = "open 1 unknown 1 submit count take submit count";
    let wanted =
        "refused 3, 2 wait, 1 submitted, taken 9 U64(1) k=1, accepted 2, 0 wait, 2 submitted, refused 14, 2 and 0";
    assert_case(&rt, rt.alloc(), Case::Alone(words), wanted)
}

/// Two records that are handed to the provider itself, and settlements with one worker of two, and with both.
#[test]
fn row_30(rt: HostRuntime) -> Result<(), Fail> {
    let wanted = "refused 13, refused 13, refused 14, 0 and 0";
    assert_case(&rt, rt.alloc(), Case::Alone("call open open"), wanted)
}

/// A worker that submits nothing, before and after a record; one that is dropped before another is opened; one that comes
/// back with a record of 7 in its list; and one with a record through a handle that isn't there.
#[test]
fn workers_without_threads(rt: HostRuntime) -> Result<(), Fail> {
    let alloc = rt.alloc();
    let nothing = Case::Alone("open submit 1 submit submit");
    assert_case(
        &rt,
        alloc,
        nothing,
        "accepted 0, accepted 1, accepted 1, refused 14, 1 and 0",
    )?;
    assert_case(
        &rt,
        alloc,
        Case::Alone("open drop open"),
        "refused 14, refused 14",
    )?;
    let waiting = Case::Alone("open 5 submit 7 count");
    assert_case(
        &rt,
        alloc,
        waiting,
        "accepted 1, 1 wait, 1 submitted, refused 14, 5 and 0",
    )?;
    assert_case(
        &rt,
        alloc,
        Case::Alone("open bound submit take count"),
        "refused 4, taken through 9 U64(1), 0 wait, 0 submitted, refused 14, 0 and 0",
    )
}

/// Shares a provider, and has a worker record with instruments of another one, and with those of its own.
fn record_with<R: Abort + Threads + Wait + Sync>(
    rt: &R,
    alloc: Global,
    foreign: &Instruments,
    text: &mut String,
) -> Result<(), Fault> {
    let mut provider = provider_of(rt, alloc, 5)?;
    let own = Instruments::build(alloc, &mut provider)?;
    share_boxes(rt, alloc, provider, Case::Typed(foreign, &own), text)
}

/// The same by the names of series, and at once.
fn record_by_name<R: Abort + Threads + Wait + Sync>(
    rt: &R,
    alloc: Global,
    foreign: &Instruments,
    text: &mut String,
) -> Result<(), Fault> {
    let mut provider = provider_of(rt, alloc, 5)?;
    let own = Instruments::build(alloc, &mut provider)?;
    share_boxes(rt, alloc, provider, Case::Named(foreign, &own), text)
}

/// Both, with the instruments of a provider that it makes.
fn record_with_foreign<R: Abort + Threads + Wait + Sync>(
    rt: &R,
    alloc: Global,
    text: &mut String,
) -> Result<(), Fault> {
    let mut other = provider_of(rt, alloc, 7)?;
    let foreign = Instruments::build(alloc, &mut other)?;
    record_with(rt, alloc, &foreign, text)?;
    text.push_str("; ")?;
    record_by_name(rt, alloc, &foreign, text)
}

/// With instruments of another provider, and of the worker's own one.
#[test]
fn instruments_as_values(rt: HostRuntime) -> Result<(), Fail> {
    let mut text = String::new(rt.alloc());
    record_with_foreign(&rt, rt.alloc(), &mut text)?;
    let wanted =
        "faults 3 3 4, 0 wait, accepted 0, value 0, faults 0 0 0, 3 wait, accepted 3, value 3, refused 14, 3 and 0; \
         fault 0, 1 wait, fault 0, 2 wait, accepted 2, fault 4, 0 wait, fault 4, 0 wait, fault 0, 1 wait, accepted 3, \
         fault 4, 0 wait, foreign 3, at once 0 0 0 13, foreign 3, at once 0 0 0 13, refused 14, 27 and 0";
    assert_eq!(rt; text.as_str(), wanted);
    Ok(())
}

/// Under the lock a flush asks the readers, a build the views, and a collection the callbacks.
#[test]
fn parts_under_the_lock(rt: HostRuntime) -> Result<(), Fail> {
    let mut text = String::new(rt.alloc());
    let provider = provider_with_parts(&rt, rt.alloc())?;
    share_boxes(&rt, rt.alloc(), provider, Case::Parts, &mut text)?;
    let wanted = "flush 10, seen 7, renamed 3, refused 14, 0 and 0";
    assert_eq!(rt; text.as_str(), wanted);
    Ok(())
}

/// No run fills a book: what is checked before each record. `limits` says what a full book answers.
#[test]
fn full_book(rt: HostRuntime) {
    assert_eq!(rt; fault_of(check_book(u64::MAX)), 12);
    assert_eq!(rt; fault_of(check_book(u64::MAX - 1)), 0);
}

/// No run opens all workers: what is checked before each is opened. `limits` says what is answered after the last.
#[test]
fn no_more_workers(rt: HostRuntime) {
    assert_eq!(rt; fault_of(check_workers(u32::MAX)), 11);
    assert_eq!(rt; fault_of(check_workers(u32::MAX - 1)), 0);
}
