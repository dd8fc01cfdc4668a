//! Providers, counters and attributes that several tests use.

use super::metered::Metered;
use super::readers::OwnReader;
use opentelemetry_sdk::common::{Fault, KeyValue};
use opentelemetry_sdk::metrics::Temporality::{Cumulative, Delta, LowMemory};
use opentelemetry_sdk::metrics::meter::{Counter, Meter};
use opentelemetry_sdk::metrics::provider::MeterProviderBuilder;
use opentelemetry_sdk::metrics::reader::MetricReader;
use opentelemetry_sdk::metrics::{
    Aggregation, InstrumentKind, ManualReader, ManualReaderBuilder, SdkMeterProvider, Temporality,
};
use std::alloc::Global;
use std::process::Abort;

/// Asserts that a text is as wanted. A function of its own, so that no proof about who lets a value go looks into how
/// texts would be printed.
pub fn assert_text(rt: &impl Abort, found: &str, wanted: &str) {
    assert_eq!(rt; found, wanted);
}

/// A copy of a text.
pub fn string(rt: &impl Abort, alloc: Global, text: &str) -> String {
    String::from_str(alloc, text).expect(rt, "memory")
}

/// A text, this many times.
pub fn repeated(rt: &impl Abort, alloc: Global, text: &str, count: usize) -> String {
    text.repeat(alloc, count).expect(rt, "memory")
}

/// A manual reader that wants this temporality.
pub fn manual(temporality: Temporality) -> ManualReaderBuilder {
    ManualReader::builder().with_temporality(temporality)
}

/// The builder with a manual reader.
pub fn with_manual(
    rt: &impl Abort,
    alloc: Global,
    builder: MeterProviderBuilder,
    reader: ManualReaderBuilder,
) -> MeterProviderBuilder {
    let reader: Box<dyn MetricReader> = Box::new(alloc, reader.build()).expect(rt, "memory");
    builder.with_reader(reader).expect(rt, "a reader")
}

/// The builder with a reader of a program's own, which wants one temporality for counters and another for all other
/// kinds.
fn with_own(
    rt: &impl Abort,
    alloc: Global,
    builder: MeterProviderBuilder,
    counters: Temporality,
    others: Temporality,
) -> MeterProviderBuilder {
    let reader = OwnReader::new(counters, others, false);
    let reader: Box<dyn MetricReader> = Box::new(alloc, reader).expect(rt, "memory");
    builder.with_reader(reader).expect(rt, "a reader")
}

/// A provider of this identity with a reader of each sort, whose sets are hashed from a seed, if there is one. From 0 on
/// its readers are manual ones that want cumulative, delta and low-memory temporality; one of a program's own that wants
/// delta for counters alone, and one that wants it for all other kinds; and a manual one that wants delta, and drops
/// observable counters.
pub fn provider(
    rt: &impl Abort,
    alloc: Global,
    identity: u64,
    seed: Option<u64>,
) -> SdkMeterProvider {
    let mut builder = SdkMeterProvider::builder(alloc).with_identity(identity);
    if let Some(seed) = seed {
        builder = builder.with_hash_seed(seed);
    }
    let dropping = manual(Delta).with_default_aggregation(
        InstrumentKind::ObservableCounter,
        Aggregation::Drop,
    );
    let builder = with_manual(rt, alloc, builder, manual(Cumulative));
    let builder = with_manual(rt, alloc, builder, manual(Delta));
    let builder = with_manual(rt, alloc, builder, manual(LowMemory));
    let builder = with_own(rt, alloc, builder, Delta, Cumulative);
    let builder = with_own(rt, alloc, builder, LowMemory, Delta);
    let builder = with_manual(rt, alloc, builder, dropping);
    builder.build().expect(rt, "a provider")
}

/// Makes a counter of this name, at 100.
pub fn counter<M: Metered>(
    rt: &impl Abort,
    alloc: Global,
    provider: &mut M,
    meter: Meter,
    name: &str,
) -> Counter<u64> {
    let builder = meter.u64_counter(string(rt, alloc, name));
    provider.make(builder, 100).expect(rt, name)
}

/// The fault numbers of builds of a counter and of an observable one.
pub fn build_faults<M: Metered>(
    rt: &impl Abort,
    alloc: Global,
    provider: &mut M,
    meter: Meter,
) -> [u8; 2] {
    let more = meter.u64_counter(string(rt, alloc, "more"));
    let seen = string(rt, alloc, "seen");
    [
        fault_of(provider.make(more, 100)),
        fault_of(provider.count_observed(meter, seen)),
    ]
}

/// The attributes that a text shows, as `b=1 a=x`, in its order. A value that reads as a number is one.
pub fn attributes(rt: &impl Abort, alloc: Global, shown: &str) -> Vec<KeyValue> {
    let mut attributes = Vec::new(alloc);
    for shown in shown.split_whitespace() {
        let (key, value) = shown.split_once('=').unwrap_or((shown, ""));
        let attribute = match value.parse() {
            Ok(number) => KeyValue::int(alloc, key, number),
            Err(_) => KeyValue::text(alloc, key, value),
        };
        attributes
            .push(attribute.expect(rt, "memory"))
            .expect(rt, "memory");
    }
    attributes
}

/// The number of the fault, or 0 if there is none.
pub fn fault_of<T: Drop>(answer: Result<T, Fault>) -> u8 {
    match answer {
        Ok(_) => 0,
        Err(fault) => fault.number(),
    }
}
