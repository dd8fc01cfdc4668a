//! Meters, instruments and bound handles as values.

use super::cases::{Case, assert_of_provider};
use super::metered::Metered;
use super::shown::assert_collected;
use super::support::string;
use opentelemetry_sdk::metrics::meter::{
    Adds, InstrumentBuilder, NumberType, Records, Synchronous,
};
use std::alloc::Global;
use std::process::Abort;

/// Binds a handle without attributes at an instrument, records one value through it, and ends it.
fn hand<K, T: NumberType, M: Metered>(
    rt: &impl Abort,
    provider: &mut M,
    instrument: Synchronous<K, T>,
    value: T,
) {
    let handle = provider.bind(instrument).expect(rt, "a handle");
    let recorded = provider.record_through(&handle, value);
    provider.end(handle).expect(rt, "an end");
    recorded.expect(rt, "a record");
}

/// Makes a counter, and adds a value without attributes, perhaps through a handle.
fn count<K: Adds, T: NumberType, M: Metered>(
    rt: &impl Abort,
    provider: &mut M,
    builder: InstrumentBuilder<K, T>,
    now: u64,
    value: T,
    through_handle: bool,
) {
    let counter = provider.make(builder, now).expect(rt, "a counter");
    if through_handle {
        hand(rt, provider, counter, value);
    } else {
        provider.add(counter, value, &[]).expect(rt, "a record");
    }
}

/// Makes a gauge or a histogram, and records a value without attributes, perhaps through a handle.
fn record<K: Records, T: NumberType, M: Metered>(
    rt: &impl Abort,
    provider: &mut M,
    builder: InstrumentBuilder<K, T>,
    now: u64,
    value: T,
    through_handle: bool,
) {
    let instrument = provider.make(builder, now).expect(rt, "an instrument");
    if through_handle {
        hand(rt, provider, instrument, value);
    } else {
        provider.record(instrument, value).expect(rt, "a record");
    }
}

/// Makes and uses an instrument of each sort, of which the up-down counter and the histogram have each setting.
fn use_each<M: Metered>(rt: &impl Abort, alloc: Global, provider: &mut M, through_handles: bool) {
    let app = provider.meter_named("app").expect(rt, "a meter");
    let other = provider.meter_named("other").expect(rt, "a meter");
    let hits = app.u64_counter(string(rt, alloc, "hits"));
    count(rt, provider, hits, 100, 5, through_handles);
    let open = app
        .i64_up_down_counter(string(rt, alloc, "open"))
        .with_description(string(rt, alloc, "how many"))
        .with_unit(string(rt, alloc, "1"));
    count(rt, provider, open, 110, -7, through_handles);
    let load = app.u64_gauge(string(rt, alloc, "load"));
    record(rt, provider, load, 120, 9, through_handles);
    let heat = app.i64_gauge(string(rt, alloc, "heat"));
    record(rt, provider, heat, 130, -11, through_handles);
    let boundaries = [10].to_vec(alloc).expect(rt, "memory");
    let size = other
        .u64_histogram(string(rt, alloc, "size"))
        .with_boundaries(boundaries);
    record(rt, provider, size, 140, 13, through_handles);
}

/// What is collected after each instrument has been used.
const USED: &str = "resource -\n\
     scope app - -\n\
     metric hits ()  u64 sum Cumulative monotonic=true 100 200 exemplars=0\n\
     hits: 5\n\
     metric open (how many) 1 i64 sum Cumulative monotonic=false 110 200 exemplars=0\n\
     open: -7\n\
     metric load ()  u64 gauge 120 200 exemplars=0\n\
     load: 9\n\
     metric heat ()  i64 gauge 130 200 exemplars=0\n\
     heat: -11\n\
     scope other - -\n\
     metric size ()  u64 histogram Cumulative 140 200 13 13 10 exemplars=0\n\
     size: count 1 sum 13 buckets 0 1\n";

/// Asserts what a provider's first reader collects after each instrument has been used.
pub fn assert_used<M: Metered>(
    rt: &impl Abort,
    alloc: Global,
    provider: &mut M,
    through_handles: bool,
) {
    use_each(rt, alloc, provider, through_handles);
    assert_collected(rt, alloc, provider, 0, 200, USED);
}

/// Each builder and each instrument is used once; each instrument collects the same through handles as by records.
#[test]
fn typed(rt: HostRuntime) {
    assert_of_provider(&rt, rt.alloc(), None, &Case::Records);
    assert_of_provider(&rt, rt.alloc(), None, &Case::Handles);
}
