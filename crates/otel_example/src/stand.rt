//! A stand that counts at a provider with views.

use crate::calls::{counter, print_collection};
use crate::first::{latency_of, record_all};
use crate::parts::{OnlyManual, provider_with};
use crate::views::view_of;
use anyhow::Error;
use opentelemetry_sdk::common::{Fault, KeyValue};
use opentelemetry_sdk::metrics::ManualReader;
use opentelemetry_sdk::metrics::instrument::SelectorView;
use opentelemetry_sdk::metrics::provider::{Parts, Provider};
use std::alloc::Global;

/// What is counted on a day: what is added to which counter, with which attributes. There are two orders, of different
/// carts, and four users, of whom two have a point of their own.
const DAY: &[(&str, u64, &[(&str, &str)])] = &[
    ("requests", 3, &[]),
    ("debug", 1, &[]),
    (
        "orders",
        1,
        &[
            ("country", "se"),
            ("paid", "card"),
            ("cart", "21"),
            ("browser", "lynx"),
            ("page", "7"),
        ],
    ),
    (
        "orders",
        1,
        &[
            ("country", "se"),
            ("paid", "card"),
            ("cart", "22"),
            ("browser", "lynx"),
            ("page", "7"),
        ],
    ),
    ("users", 1, &[("user", "ada")]),
    ("users", 1, &[("user", "grace")]),
    ("users", 1, &[("user", "edsger")]),
    ("users", 1, &[("user", "tony")]),
];

/// Attributes whose values are texts.
fn attributes_of(alloc: Global, texts: &[(&str, &str)]) -> Result<Vec<KeyValue>, Fault> {
    let mut attributes = Vec::new(alloc);
    for (key, value) in texts {
        attributes.push(KeyValue::text(alloc, key, value)?)?;
    }
    Ok(attributes)
}

/// Counts what happens on a day.
fn count<P: Parts>(alloc: Global, provider: &mut Provider<P>) -> Result<(), Fault> {
    for (name, number, texts) in DAY {
        let attributes = attributes_of(alloc, texts)?;
        let counter = counter(alloc, provider, "stand", name, 100)?;
        counter.add(provider, *number, &attributes)?;
    }
    Ok(())
}

/// Counts what happens on a day and how long two requests took, and prints it.
fn print_day<P: Parts>(
    rt: &impl Print,
    alloc: Global,
    provider: &mut Provider<P>,
) -> Result<(), Error> {
    count(alloc, provider)?;
    let latency = latency_of(alloc, provider, "stand")?;
    record_all(provider, latency, &[], &[7, 70])?;
    print_collection(rt, provider, 200)
}

/// Views that rename a stream, drop one, keep two attributes of five, set a limit and change buckets.
fn views(alloc: Global) -> Result<Vec<SelectorView>, Error> {
    let mut views = Vec::new(alloc);
    for name in &["requests", "debug", "orders", "users", "latency"] {
        views.push(view_of(alloc, name)?)?;
    }
    Ok(views)
}

/// A stand at a provider with views.
pub fn with_views(rt: &impl Print, alloc: Global) -> Result<(), Error> {
    let views = views(alloc)?;
    let mut provider = provider_with::<OnlyManual>(alloc, ManualReader::default(), views)?;
    print_day(rt, alloc, &mut provider)
}
