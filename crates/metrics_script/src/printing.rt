//! What a script prints: a line for each reply and one for each point.

use crate::points::{count_points, write_metric};
use opentelemetry_sdk::common::{Array, KeyValue, Value};
use opentelemetry_sdk::metrics::data::{ResourceMetrics, ScopeMetrics};
use opentelemetry_sdk::metrics::provider::Reply;
use percent_encoding::{AsciiSet, CONTROLS, PercentEncode, ascii_set, utf8_percent_encode};
use std::fmt::Display;
use std::io;
use std::io::Write;
use std::slice::Iter;

/// The ASCII bytes that are printed as `%` and two hexadecimal digits; so are all bytes outside ASCII.
const ESCAPED: AsciiSet = ascii_set!(CONTROLS.add(b' ').add(b'%').add(b',').add(b'='));

/// The text as it is printed.
fn escaped(text: &str) -> PercentEncode<'_> {
    utf8_percent_encode(text, ESCAPED)
}

/// Prints a line for the reply and, for a collection, one for each point.
pub fn write_reply<W: Write>(output: &mut W, reply: &Reply) -> io::Result<()> {
    match reply {
        Reply::Meter(Some(number)) => writeln!(output, "meter {number}"),
        Reply::Meter(None) => writeln!(output, "meter none"),
        Reply::Instrument(number) => writeln!(output, "instrument {number}"),
        Reply::Handle(number) => writeln!(output, "handle {number}"),
        Reply::Done => writeln!(output, "ok"),
        Reply::Refused(fault) => {
            let number = fault.number();
            writeln!(output, "refused {number} {fault}")
        }
        Reply::Collected(collected) => write_collected(output, collected),
    }
}

/// Prints the number of points, then the points by scope and metric.
fn write_collected<W: Write>(output: &mut W, collected: &ResourceMetrics) -> io::Result<()> {
    let count = count_points(collected);
    writeln!(output, "collected {count}")?;
    for scope in collected.scope_metrics() {
        write_scope(output, scope)?;
    }
    Ok(())
}

/// Prints the points of one scope.
fn write_scope<W: Write>(output: &mut W, scope: &ScopeMetrics) -> io::Result<()> {
    for metric in scope.metrics() {
        write_metric(output, scope.scope().name(), metric)?;
    }
    Ok(())
}

/// Prints the name of a scope or a metric. The empty name is printed as a hyphen.
pub fn write_name<W: Write>(output: &mut W, name: &str) -> io::Result<()> {
    match name {
        "" => write!(output, "-"),
        "-" => write!(output, "%2D"),
        _ => write!(output, "{}", escaped(name)),
    }
}

/// Prints attributes as they stand in a script.
pub fn write_attributes<W: Write>(
    output: &mut W,
    attributes: Iter<'_, KeyValue>,
) -> io::Result<()> {
    if attributes.len() == 0 {
        return write!(output, "-");
    }
    for (index, attribute) in attributes.enumerate() {
        if index > 0 {
            write!(output, ",")?;
        }
        write!(output, "{}=", escaped(attribute.key.as_str()))?;
        write_value(output, &attribute.value)?;
    }
    Ok(())
}

/// Prints a value as it stands in a script. A script has no arrays; each item of one is followed by a semicolon.
fn write_value<W: Write>(output: &mut W, value: &Value) -> io::Result<()> {
    match value {
        Value::Bool(value) => write!(output, "b:{value}"),
        Value::I64(value) => write!(output, "i:{value}"),
        Value::String(text) => write!(output, "s:{}", escaped(text.as_str())),
        Value::Array(Array::Bool(items)) => write_items(output, "b", items.as_slice()),
        Value::Array(Array::I64(items)) => write_items(output, "i", items.as_slice()),
        Value::Array(Array::String(items)) => {
            write!(output, "s:")?;
            for item in items.as_slice() {
                write!(output, "{};", escaped(item.as_str()))?;
            }
            Ok(())
        }
    }
}

/// Prints the items of an array.
fn write_items<W: Write, T: Display>(output: &mut W, kind: &str, items: &[T]) -> io::Result<()> {
    write!(output, "{kind}:")?;
    for item in items {
        write!(output, "{item};")?;
    }
    Ok(())
}
