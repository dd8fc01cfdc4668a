//! Handles that are kept, and instruments that say whether any reader has a stream of them.

use super::support::{manual, string, with_manual};
use opentelemetry_sdk::attributes;
use opentelemetry_sdk::common::{Fault, KeyValue, StringValue, Value};
use opentelemetry_sdk::metrics::meter::{Counter, Kept, Meter};
use opentelemetry_sdk::metrics::{
    Aggregation, InstrumentKind, ManualReader, ManualReaderBuilder, SdkMeterProvider, Temporality,
};
use std::alloc::Global;
use std::process::Abort;

/// A provider of this identity with one reader.
fn with_reader(
    rt: &impl Abort,
    alloc: Global,
    identity: u64,
    reader: ManualReaderBuilder,
) -> SdkMeterProvider {
    let builder = SdkMeterProvider::builder(alloc).with_identity(identity);
    with_manual(rt, alloc, builder, reader)
        .build()
        .expect(rt, "a provider")
}

/// A provider of this identity with a cumulative reader.
fn cumulative(rt: &impl Abort, alloc: Global, identity: u64) -> SdkMeterProvider {
    with_reader(rt, alloc, identity, manual(Temporality::Cumulative))
}

/// A meter of the provider.
fn meter(rt: &impl Abort, provider: &mut SdkMeterProvider) -> Meter {
    provider.meter("app").expect(rt, "a meter")
}

/// A counter of the provider.
fn counter(
    rt: &impl Abort,
    alloc: Global,
    provider: &mut SdkMeterProvider,
    name: &str,
) -> Counter<u64> {
    meter(rt, provider)
        .u64_counter(string(rt, alloc, name))
        .build(provider, 100)
        .expect(rt, "a counter")
}

/// Handles bound in a row stand in a list, of which copies are the same handles; an ended one is refused.
#[test]
fn kept_handles(rt: HostRuntime) -> Result<(), Fault> {
    let alloc = rt.alloc();
    let mut provider = cumulative(&rt, alloc, 7);
    let mut other = cumulative(&rt, alloc, 8);
    let hits = counter(&rt, alloc, &mut provider, "hits");
    let root = attributes![in alloc; "path" => "/"];
    let root = hits.bind(&mut provider, &root)?.keep();
    let cart = attributes![in alloc; "path" => "/cart"];
    let cart = hits.bind(&mut provider, &cart)?.keep();
    let kept: Vec<Kept<u64>> = [root, cart].to_vec(alloc)?;
    for handle in &kept {
        handle.add(&mut provider, 2)?;
    }
    let copy = cart;
    copy.record(&mut provider, 5)?;
    assert_eq!(rt; (copy.number(), copy.identity()), (1, 7));
    assert_eq!(rt; root.end(&mut other), Err(Fault::UnknownHandle));
    root.end(&mut provider)?;
    assert_eq!(rt; root.add(&mut provider, 1), Err(Fault::UnknownHandle));
    assert_eq!(rt; root.end(&mut provider), Err(Fault::UnknownHandle));
    cart.add(&mut provider, 3)?;
    let collected = provider.collected(0, 200)?;
    let shown = format!(in alloc; "{collected:?}")?;
    assert!(rt; shown.as_str().contains("value: 2"), "{shown}");
    assert!(rt; shown.as_str().contains("value: 10"), "{shown}");
    Ok(())
}

/// An instrument says whether any reader has a stream of it: not with a bad name, not where all drop it, and not to a
/// provider of another identity.
#[test]
fn enabled(rt: HostRuntime) {
    let alloc = rt.alloc();
    let mut provider = cumulative(&rt, alloc, 1);
    let other = cumulative(&rt, alloc, 2);
    let good = counter(&rt, alloc, &mut provider, "hits");
    assert!(rt; good.enabled(&provider), "a good name");
    assert!(rt; !good.enabled(&other), "another provider");
    let bad = counter(&rt, alloc, &mut provider, "1 hit");
    assert!(rt; !bad.enabled(&provider), "a bad name");
    let observed = meter(&rt, &mut provider)
        .u64_observable_counter(string(&rt, alloc, "seen"))
        .build(&mut provider, 100)
        .expect(&rt, "an observable counter");
    assert!(rt; observed.enabled(&provider), "observed");
    assert!(rt; !observed.enabled(&other), "observed elsewhere");
    let dropping = ManualReader::builder().with_default_aggregation(
        InstrumentKind::Counter,
        Aggregation::Drop,
    );
    let mut provider = with_reader(&rt, alloc, 3, dropping);
    let dropped = counter(&rt, alloc, &mut provider, "hits");
    assert!(rt; !dropped.enabled(&provider), "dropped");
}

/// Attributes written out with values of each type that may stand there.
#[test]
fn attributes_of_each_type(rt: HostRuntime) -> Result<(), Fault> {
    let alloc = rt.alloc();
    let attributes = attributes![in alloc;
        "a" => string(&rt, alloc, "x"),
        "b" => StringValue::new(alloc, "y")?,
        "c" => Value::Bool(false),
        "d" => -7i32,
        "e" => 4_000_000_000u32,
        "f" => 5_000_000_000i64,
        "g" => 9_223_372_036_854_775_807u64,
    ];
    let mut text = String::new(alloc);
    for attribute in &attributes {
        write!(text, "{attribute} ")?;
    }
    assert_eq!(rt;
        text.as_str(),
        "a=x b=y c=false d=-7 e=4000000000 f=5000000000 g=9223372036854775807 "
    );
    Ok(())
}

/// A value that is too great for an attribute.
#[test]
fn attribute_of_a_great_number(rt: HostRuntime) {
    let refused = many_items(rt.alloc(), 9_223_372_036_854_775_808);
    assert!(rt; matches!(refused, Err(Fault::WrongNumber)), "too great");
}

/// An attribute with a number of items.
fn many_items(alloc: Global, items: u64) -> Result<[KeyValue; 1], Fault> {
    Ok(attributes![in alloc; "items" => items])
}
