//! Each public function of these crates called at least once, and the texts, which no contract states.

use otel_common::attributes::KeyValue;
use otel_common::lists::Items;
use otel_common::metrics::Aggregation;
use otel_common::strings::StringValue;
use std::alloc::Global;
use std::fmt::{Debug, Display};
use std::process::Abort;

mod attributes;
mod callbacks;
mod data;
mod found;
mod instruments;
mod readers;
mod ready;
mod streams;
mod texts;

/// Asserts that a value prints this text.
fn assert_prints<T: Display>(rt: &impl Abort, alloc: Global, value: &T, text: &str) {
    let printed = format!(in alloc; "{value}").expect(rt, text);
    assert!(rt; printed.as_str() == text, "{printed}");
}

/// Asserts that a value shows this text. Many answers in a tuple are one value.
fn assert_shows<T: Debug>(rt: &impl Abort, alloc: Global, value: &T, text: &str) {
    assert_prints(rt, alloc, &format_args!("{value:?}"), text);
}

/// Asserts that an outcome is an error of this text, or none if the text is `Ok`.
fn assert_outcome<T: Drop, E: Display + Drop>(
    rt: &impl Abort,
    alloc: Global,
    outcome: Result<T, E>,
    text: &str,
) {
    match outcome {
        Ok(_) => assert_prints(rt, alloc, &"Ok", text),
        Err(error) => assert_prints(rt, alloc, &error, text),
    }
}

/// Whether the first two values are the same, and the third is another.
fn are_distinct<T: PartialEq>(values: &[T; 3]) -> bool {
    values[0] == values[1] && values[0] != values[2]
}

/// A string of this text.
fn string(rt: &impl Abort, alloc: Global, text: &str) -> String {
    String::from_str(alloc, text).expect(rt, text)
}

/// A value of this text.
fn string_value(rt: &impl Abort, alloc: Global, text: &str) -> StringValue {
    StringValue::new(alloc, text).expect(rt, text)
}

/// A list of these items.
fn list_of<T, const N: usize>(rt: &impl Abort, alloc: Global, items: [T; N]) -> Vec<T> {
    Vec::from_array(alloc, items).expect(rt, "memory")
}

/// A histogram with these bounds.
fn histogram_of(
    rt: &impl Abort,
    alloc: Global,
    bounds: &[i64],
    record_min_max: bool,
) -> Aggregation {
    let bounds = Vec::from_slice(alloc, bounds).expect(rt, "memory");
    Aggregation::ExplicitBucketHistogram {
        boundaries: Items::from(bounds),
        record_min_max,
    }
}

/// Attributes with these keys and values.
fn attributes_of(rt: &impl Abort, alloc: Global, pairs: &[(&str, i64)]) -> Vec<KeyValue> {
    let mut attributes = Vec::new(alloc);
    for (key, value) in pairs {
        let attribute = KeyValue::int(alloc, key, *value).expect(rt, key);
        attributes.push(attribute).expect(rt, key);
    }
    attributes
}
