//! Whole collections: each heading, moment and point, and nothing else.

use super::cases::{Case, assert_of_provider};
use super::metered::Metered;
use super::shown::assert_collected;
use super::support::{attributes, repeated, string};
use opentelemetry_sdk::common::{InstrumentationScope, KeyValue};
use opentelemetry_sdk::metrics::meter::Counter;
use std::alloc::Global;
use std::process::Abort;

/// This many attributes with long values as text, in rising order of their keys.
fn many(rt: &impl Abort, alloc: Global, count: u32) -> String {
    let value = repeated(rt, alloc, "v", 200);
    let mut text = String::new(alloc);
    for number in 0..count {
        write!(text, " key{number:05}={value}").expect(rt, "memory");
    }
    text
}

/// This many attributes with long values, in falling order of their keys.
fn falling(rt: &impl Abort, alloc: Global, count: u32) -> Vec<KeyValue> {
    let text = many(rt, alloc, count);
    let mut attributes = attributes(rt, alloc, text.as_str());
    attributes.reverse();
    attributes
}

/// A scope with all four parts, of which the name and the attributes are long.
fn long_scope(rt: &impl Abort, alloc: Global) -> InstrumentationScope {
    InstrumentationScope::builder(alloc, repeated(rt, alloc, "scope", 1000))
        .with_version(string(rt, alloc, "1.2.3"))
        .with_schema_url(string(rt, alloc, "https://example.org/schema"))
        .with_attributes(falling(rt, alloc, 100))
        .build()
        .expect(rt, "a scope")
}

/// Records at a counter of the long scope with long texts, made at 120, and at `bytes`, made at 130.
fn record_long<M: Metered>(rt: &impl Abort, alloc: Global, provider: &mut M) {
    let scope = long_scope(rt, alloc);
    let meter = provider.meter_of(scope).expect(rt, "a meter");
    let long = meter
        .u64_counter(repeated(rt, alloc, "Name", 63))
        .with_description(repeated(rt, alloc, "ö", 5000))
        .with_unit(repeated(rt, alloc, "u", 63));
    let long = provider.make(long, 120).expect(rt, "a counter");
    let attributes = falling(rt, alloc, 300);
    let recorded = provider.add(long, 5, attributes.as_slice());
    recorded.expect(rt, "a record");
    let bytes = meter
        .u64_counter(string(rt, alloc, "bytes"))
        .with_unit(string(rt, alloc, "By"));
    let bytes = provider.make(bytes, 130).expect(rt, "a counter");
    provider.add(bytes, 7, &[]).expect(rt, "a record");
}

/// Adds a value at a counter, with the attributes that a text shows.
fn add<M: Metered>(
    rt: &impl Abort,
    alloc: Global,
    provider: &mut M,
    counter: Counter<u64>,
    value: u64,
    shown: &str,
) {
    let attributes = attributes(rt, alloc, shown);
    let added = provider.add(counter, value, attributes.as_slice());
    added.expect(rt, "a record");
}

/// Records at these counters and at `hits` of a meter of its own, made at 110, which it returns.
fn recorded<M: Metered>(rt: &impl Abort, alloc: Global, provider: &mut M) -> Counter<u64> {
    record_long(rt, alloc, provider);
    let meter = provider.meter_named("app").expect(rt, "a meter");
    let hits = meter
        .u64_counter(string(rt, alloc, "hits"))
        .with_description(string(rt, alloc, "How often"))
        .with_unit(string(rt, alloc, "1"));
    let hits = provider.make(hits, 110).expect(rt, "a counter");
    add(rt, alloc, provider, hits, 18446744073709551615, "b=1 a=2");
    add(rt, alloc, provider, hits, 3, "a=2 b=1");
    hits
}

/// The first collection of a reader at a moment: all that was recorded since the builds.
fn first(rt: &impl Abort, alloc: Global, temporality: &str, time: u64) -> String {
    let scope = repeated(rt, alloc, "scope", 1000);
    let name = repeated(rt, alloc, "Name", 63);
    let description = repeated(rt, alloc, "ö", 5000);
    let unit = repeated(rt, alloc, "u", 63);
    let of_scope = many(rt, alloc, 100);
    let of_point = many(rt, alloc, 300);
    let text = format!(in alloc;
        "resource -\n\
         scope {scope} 1.2.3 https://example.org/schema{of_scope}\n\
         metric {name} ({description}) {unit} u64 sum {temporality} monotonic=true 120 {time} exemplars=0\n\
         {name}{of_point}: 5\n\
         metric bytes () By u64 sum {temporality} monotonic=true 130 {time} exemplars=0\n\
         bytes: 7\n\
         scope app - -\n\
         metric hits (How often) 1 u64 sum {temporality} monotonic=true 110 {time} exemplars=0\n\
         hits a=2 b=1: 2\n"
    );
    text.expect(rt, "memory")
}

/// Asserts that a collection is as the first one of a reader.
fn assert_first<M: Metered>(
    rt: &impl Abort,
    alloc: Global,
    provider: &mut M,
    reader: usize,
    temporality: &str,
    now: u64,
) {
    let wanted = first(rt, alloc, temporality, now);
    assert_collected(rt, alloc, provider, reader, now, wanted.as_str());
}

/// Records, and asserts what cumulative collections give.
pub fn assert_cumulative<M: Metered>(rt: &impl Abort, alloc: Global, provider: &mut M) {
    recorded(rt, alloc, provider);
    assert_first(rt, alloc, provider, 0, "Cumulative", 200);
    assert_first(rt, alloc, provider, 4, "Cumulative", 210);
    assert_first(rt, alloc, provider, 0, "Cumulative", 220);
    assert_first(rt, alloc, provider, 4, "Cumulative", 230);
}

/// A cumulative collection has, each time, all that was recorded since the builds. So does that of a reader that
/// answers `LowMemory` for the kind: only `Delta` starts a stream again.
#[test]
fn cumulative_wholes(rt: HostRuntime) {
    assert_of_provider(&rt, rt.alloc(), None, &Case::Cumulative);
}

/// What the third collection of a delta reader gives.
const THIRD: &str = "resource -\n\
     scope app - -\n\
     metric hits (How often) 1 u64 sum Delta monotonic=true 300 400 exemplars=0\n\
     hits a=2 b=1: 9\n";

/// Records, and asserts what the collections of a delta reader give: the first has all that was recorded, the second
/// nothing, and the third only the record before it.
pub fn assert_delta<M: Metered>(rt: &impl Abort, alloc: Global, provider: &mut M, reader: usize) {
    let hits = recorded(rt, alloc, provider);
    assert_first(rt, alloc, provider, reader, "Delta", 200);
    assert_collected(rt, alloc, provider, reader, 300, "resource -\n");
    add(rt, alloc, provider, hits, 9, "b=1 a=2");
    assert_collected(rt, alloc, provider, reader, 400, THIRD);
}

/// A delta collection has what was recorded since the reader's previous one, whose moment is the start. Without records
/// it has nothing, and the start moves all the same.
#[test]
fn delta_wholes(rt: HostRuntime) {
    assert_of_provider(&rt, rt.alloc(), None, &Case::Delta(1));
    assert_of_provider(&rt, rt.alloc(), None, &Case::Delta(2));
    assert_of_provider(&rt, rt.alloc(), None, &Case::Delta(3));
}
