//! Worked rows and ported tests, with each public function called at least once, at both number types. Sets of attributes
//! are written as texts.

use otel_aggregate::aggregators::bounds::Bounds;
use otel_common::attributes::{Array, KeyValue, Value};
use otel_common::faults::Fault;
use otel_common::keys::Key;
use otel_common::lists::{Items, SharedItems};
use otel_common::strings::StringValue;
use std::alloc::Global;
use steps::Readable;

mod aggregates;
mod scripts;
mod steps;
mod value_maps;

/// A list of one item.
fn only<T: Drop>(alloc: Global, item: T) -> Result<Items<T>, Fault> {
    let mut items = Vec::new(alloc);
    items.push(item)?;
    Ok(Items::from(items))
}

/// The value that a text shows: a truth value, a number, one of four arrays, the text 1 between quotes, or itself.
fn value_of(alloc: Global, shown: &str) -> Result<Value, Fault> {
    Ok(match shown {
        "true" => Value::Bool(true),
        "false" => Value::Bool(false),
        "[true]" => Value::Array(Array::Bool(only(alloc, true)?)),
        "[1]" => Value::Array(Array::I64(only(alloc, 1)?)),
        "['1']" => Value::Array(Array::String(only(alloc, StringValue::new(alloc, "1")?)?)),
        "[]" => Value::Array(Array::I64(Items::from(Vec::new(alloc)))),
        "'1'" => Value::String(StringValue::new(alloc, "1")?),
        _ => match shown.parse::<i64>() {
            Ok(number) => Value::I64(number),
            Err(_) => Value::String(StringValue::new(alloc, shown)?),
        },
    })
}

/// The attribute that a text shows.
fn attribute(alloc: Global, shown: &str) -> Result<KeyValue, Fault> {
    let (key, value) = shown.split_once('=').unwrap_or((shown, ""));
    let key = Key::new(alloc, key)?;
    Ok(KeyValue::new(key, value_of(alloc, value)?))
}

/// The attributes that a text shows, as `b=1 a=2`, in its order.
fn attributes(alloc: Global, shown: &str) -> Result<Vec<KeyValue>, Fault> {
    let mut made = Vec::new(alloc);
    for shown in shown.split_whitespace() {
        made.push(attribute(alloc, shown)?)?;
    }
    Ok(made)
}

/// The keys that a text shows.
fn keys(alloc: Global, shown: &str) -> Result<Items<Key>, Fault> {
    let mut keys = Vec::new(alloc);
    for key in shown.split_whitespace() {
        keys.push(Key::new(alloc, key)?)?;
    }
    Ok(Items::from(keys))
}

/// Bounds of the numbers that a text shows. They are refused with `WrongNumber` if they don't rise.
fn bounds(alloc: Global, shown: &str) -> Result<Bounds, Fault> {
    let mut numbers = Vec::new(alloc);
    for number in shown.split_whitespace() {
        numbers.push(i64::read(number))?;
    }
    Bounds::new(SharedItems::new(numbers)?).ok_or(Fault::WrongNumber)
}
