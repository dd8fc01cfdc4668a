//! Views: the streams of some instruments are set apart from the code that records.

use anyhow::Error;
use opentelemetry_sdk::common::Key;
use opentelemetry_sdk::metrics::Aggregation;
use opentelemetry_sdk::metrics::instrument::{SelectorView, Stream, StreamBuilder};
use std::alloc::Global;

/// The streams of the instruments of this name are as the builder says.
fn named(alloc: Global, name: &str, stream: StreamBuilder) -> Result<SelectorView, Error> {
    Ok(SelectorView::of_name(alloc, name, stream.build()?)?)
}

/// The stream has a name of its own.
fn renamed(alloc: Global) -> Result<SelectorView, Error> {
    let own = String::from_str(alloc, "shop.requests")?;
    named(alloc, "requests", Stream::builder().with_name(own))
}

/// The instrument has no stream.
fn dropped(alloc: Global) -> Result<SelectorView, Error> {
    named(
        alloc,
        "debug",
        Stream::builder().with_aggregation(Aggregation::Drop),
    )
}

/// Of the attributes of an order two are kept.
fn two_attributes(alloc: Global) -> Result<SelectorView, Error> {
    let mut keys = Vec::new(alloc);
    for key in &["country", "paid"] {
        keys.push(Key::new(alloc, key)?)?;
    }
    named(
        alloc,
        "orders",
        Stream::builder().with_allowed_attribute_keys(keys),
    )
}

/// Two users have points of their own, all others share one.
fn few_points(alloc: Global) -> Result<SelectorView, Error> {
    named(alloc, "users", Stream::builder().with_cardinality_limit(2))
}

/// The buckets of a histogram end at 10, 100 and 1000.
fn other_buckets(alloc: Global) -> Result<SelectorView, Error> {
    let aggregation = Aggregation::ExplicitBucketHistogram {
        boundaries: vec![in alloc; 10i64, 100i64, 1000i64]?.into(),
        record_min_max: true,
    };
    named(
        alloc,
        "latency",
        Stream::builder().with_aggregation(aggregation),
    )
}

/// The view of the instruments of this name.
pub fn view_of(alloc: Global, name: &str) -> Result<SelectorView, Error> {
    match name {
        "requests" => renamed(alloc),
        "debug" => dropped(alloc),
        "orders" => two_attributes(alloc),
        "users" => few_points(alloc),
        _ => other_buckets(alloc),
    }
}
