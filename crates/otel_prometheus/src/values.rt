//! Values of attributes as texts.

ghost use Rattle.std.specs.Prelude.{◌≡◌, ◌++◌, OnOk, IfOk};
ghost use Rattle.json.specs.Json.{Json, boolean, string};
ghost use Rattle.json.specs.Print.{print};
ghost use Rattle.json.specs.Tree.{json_tokens};
ghost use Rattle.otel_prometheus.specs.Values.{array_of, whole, items_json, value_text};

use itoa::Buffer;
use json::Writer;
use otel_common::attributes::{Array, Value};
use otel_common::strings::StringValue;
use std::alloc::{AllocError, Global};

/// An item of an array.
trait Item {
    /// The item as JSON.
    ghost json: { Self → Json };

    /// Writes the item.
    fn write(&self, out: &mut Writer) -> Result<(), AllocError>
        ensures tokens { OnOk result (out.new.tokens ≡ out.old.tokens ++ json_tokens (json self.now)) }
        ensures before { out.new.before ≡ out.old.before };
}

impl Item for bool {
    ghost json = { boolean };

    fn write(&self, out: &mut Writer) -> Result<(), AllocError> {
        out.boolean(*self)
    }
}

impl Item for i64 {
    ghost json = { whole };

    fn write(&self, out: &mut Writer) -> Result<(), AllocError> {
        out.i64(*self)
    }
}

impl Item for StringValue {
    ghost json = { string };

    fn write(&self, out: &mut Writer) -> Result<(), AllocError> {
        out.string(self.as_str())
    }
}

/// Writes items as an array.
fn write_items<T: Item>(out: &mut Writer, items: &[T]) -> Result<(), AllocError>
    ensures tokens { OnOk result (out.new.tokens ≡ out.old.tokens ++ json_tokens (array_of T.json items.now)) }
    ensures before { out.new.before ≡ out.old.before }
{
    out.begin_array()?;
    for item in items {
        item.write(out)?;
    }
    out.end_array()?;
    Ok(())
}

/// Writes an array.
fn write_array(out: &mut Writer, array: &Array) -> Result<(), AllocError>
    ensures tokens { OnOk result (out.new.tokens ≡ out.old.tokens ++ json_tokens (items_json array.now)) }
    ensures before { out.new.before ≡ out.old.before }
{
    match array {
        Array::Bool(items) => write_items(out, items.as_slice()),
        Array::I64(items) => write_items(out, items.as_slice()),
        Array::String(items) => write_items(out, items.as_slice()),
    }
}

/// Returns an array as JSON.
fn array_text(alloc: Global, array: &Array) -> Result<Vec<u8>, AllocError>
    ensures { IfOk result (λ text. text.items ≡ print (json_tokens (items_json array.now))) }
{
    let mut out = Writer::new(Vec::new(alloc));
    write_array(&mut out, array)?;
    Ok(out.into_inner())
}

/// Returns the value of an attribute as text: a string as it is, a number in decimal, an array as JSON.
pub(crate) fn value_text(alloc: Global, value: &Value) -> Result<Vec<u8>, AllocError>
    ensures { IfOk result (λ text. text.items ≡ value_text value.now) }
{
    match value {
        Value::Bool(true) => Vec::from_slice(alloc, b"true"),
        Value::Bool(false) => Vec::from_slice(alloc, b"false"),
        Value::I64(value) => {
            let mut buffer = Buffer::new();
            Vec::from_slice(alloc, buffer.format(*value).as_bytes())
        }
        Value::String(value) => Vec::from_slice(alloc, value.as_str().as_bytes()),
        Value::Array(array) => array_text(alloc, array),
    }
}
