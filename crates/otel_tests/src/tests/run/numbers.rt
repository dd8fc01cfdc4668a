//! Numbers and identities of instruments and handles, and what is refused where providers are mixed up.

use super::cases::{Case, assert_of_provider};
use super::metered::Metered;
use super::support::{assert_text, build_faults, counter, fault_of, provider, string};
use opentelemetry_sdk::metrics::MeterProviderBuilder;
use opentelemetry_sdk::metrics::meter::Counter;
use opentelemetry_sdk::metrics::provider::{Call, NumberValue};
use std::alloc::Global;
use std::process::Abort;

/// The fault number of a record through the handle of this number.
fn fault_through<M: Metered>(provider: &mut M, handle: u64) -> u8 {
    let value = NumberValue::U64(1);
    fault_of(provider.call(&Call::RecordBound { handle, value }))
}

/// Asserts number and identity of a counter, the number of its first handle, and number, identity and once more number
/// of the second one; and the fault numbers of the end of a third handle, and of records through each.
pub fn assert_numbers<M: Metered>(rt: &impl Abort, alloc: Global, provider: &mut M) {
    let meter = provider.meter_named("app").expect(rt, "a meter");
    counter(rt, alloc, provider, meter, "first");
    let counter = counter(rt, alloc, provider, meter, "second");
    let first = provider.bind(counter).expect(rt, "a handle").into_number();
    let second = provider.bind(counter).expect(rt, "a handle");
    let number = second.number();
    let identity = second.identity();
    let again = second.into_number();
    let third = provider.bind(counter).expect(rt, "a handle");
    let faults = [
        fault_of(provider.end(third)),
        fault_through(provider, 0),
        fault_through(provider, 1),
        fault_through(provider, 2),
    ];
    let counted = counter.number();
    let own = counter.identity();
    let text = format!(in alloc;
        "{counted} {own} {first} {number} {identity} {again} {faults:?}"
    ).expect(rt, "memory");
    assert_text(rt, text.as_str(), "1 7 0 1 7 1 [0, 0, 0, 4]");
}

/// Instruments and handles are numbered from 0 in the order in which they are made, and have their provider's identity.
/// The end of one handle leaves the others live.
#[test]
fn numbers(rt: HostRuntime) {
    assert_of_provider(&rt, rt.alloc(), None, &Case::Numbers);
}

/// The fault numbers of a record through a handle of one provider, and of its end, both asked of another provider; and
/// of its end at its own, if the other one gives it back.
fn handle_faults<M: Metered>(
    rt: &impl Abort,
    own: &mut M,
    other: &mut M,
    hits: Counter<u64>,
) -> [u8; 3] {
    let handle = own.bind(hits).expect(rt, "a handle");
    let recorded = fault_of(other.add_through(&handle, 5));
    match other.unbind(handle) {
        Ok(()) => [recorded, 0, 0],
        Err((handle, fault)) => [recorded, fault.number(), fault_of(own.end(handle))],
    }
}

/// Makes a gauge of `i64` with a handle, and an observable counter.
fn other_kinds<M: Metered>(rt: &impl Abort, alloc: Global, provider: &mut M) {
    let meter = provider.meter_named("there").expect(rt, "a meter");
    let heat = meter.i64_gauge(string(rt, alloc, "heat"));
    let heat = provider.make(heat, 100).expect(rt, "a gauge");
    let _ = provider.bind(heat).expect(rt, "a handle").into_number();
    let seen = string(rt, alloc, "seen");
    provider.count_observed(meter, seen).expect(rt, "a counter");
}

/// The fault number of a bind of a handle, which stays live.
fn bind_fault<M: Metered>(provider: &mut M, counter: Counter<u64>) -> u8 {
    match provider.bind(counter) {
        Ok(handle) => {
            handle.into_number();
            0
        }
        Err(fault) => fault.number(),
    }
}

/// The fault number of a record of a counter.
fn record_fault<M: Metered>(provider: &mut M, counter: Counter<u64>) -> u8 {
    fault_of(provider.add(counter, 5, &[]))
}

/// Asserts the fault numbers where one provider is asked with values of another one: of a record of an instrument at its
/// own provider, and at the other one while that has none; of builds there, while it has no meter; of records of three
/// counters and binds of two of them, where it has instruments of other kinds; of two handles, of which it has the number
/// of the first; and of builds, when it has a meter.
fn assert_faults<M: Metered>(
    rt: &impl Abort,
    alloc: Global,
    own: &mut M,
    other: &mut M,
    wanted: &str,
) {
    let meter = own.meter_named("app").expect(rt, "a meter");
    let first = counter(rt, alloc, own, meter, "first");
    let early = [record_fault(own, first), record_fault(other, first)];
    let builds = build_faults(rt, alloc, other, meter);
    other_kinds(rt, alloc, other);
    let second = counter(rt, alloc, own, meter, "second");
    let third = counter(rt, alloc, own, meter, "third");
    let uses = [
        record_fault(other, first),
        record_fault(other, second),
        record_fault(other, third),
        bind_fault(other, second),
        bind_fault(other, third),
    ];
    let hits = counter(rt, alloc, own, meter, "hits");
    let handle = handle_faults(rt, own, other, hits);
    let again = handle_faults(rt, own, other, hits);
    let late = build_faults(rt, alloc, other, meter);
    let text = format!(in alloc;
        "{early:?} {builds:?} {uses:?} {handle:?} {again:?} {late:?}"
    ).expect(rt, "memory");
    assert_text(rt, text.as_str(), wanted);
}

/// Asserts the fault numbers where a provider of the second identity is asked with values of one of the first.
fn assert_mixed_up(rt: &impl Abort, alloc: Global, own: u64, other: u64, wanted: &str) {
    let mut own = provider(rt, alloc, own, None);
    let builder = MeterProviderBuilder::default(alloc).with_identity(other);
    let mut other = builder.build().expect(rt, "a provider");
    assert_faults(rt, alloc, &mut own, &mut other, wanted);
}

/// Providers of one identity are asked by number alone: the meter, the instrument or the handle of that number isn't
/// there, or is another one, perhaps observable or of another number type.
#[test]
fn one_identity(rt: HostRuntime) {
    let wanted = "[0, 3] [2, 2] [6, 7, 3, 7, 3] [6, 0, 0] [4, 4, 0] [0, 0]";
    assert_mixed_up(&rt, rt.alloc(), 0, 0, wanted);
}

/// What is refused where the other provider has another identity.
const REFUSED: &str = "[0, 3] [2, 2] [3, 3, 3, 3, 3] [4, 4, 0] [4, 4, 0] [2, 2]";

/// A provider of another identity has no such meter, instrument or handle, whatever has the number there. A handle that
/// it refuses is given back (`row_28`).
#[test]
fn other_identity(rt: HostRuntime) {
    assert_mixed_up(&rt, rt.alloc(), 1, 0, REFUSED);
}

/// A handle that another provider refuses is given back, and ends at its own.
#[test]
fn row_28(rt: HostRuntime) {
    assert_mixed_up(&rt, rt.alloc(), 1, 2, REFUSED);
}
