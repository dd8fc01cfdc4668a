//! How attributes are printed, for logs and messages.

use crate::attributes::{Array, KeyValue, Value};
use crate::keys::Key;
use crate::lists::Items;
use crate::strings::StringValue;
use std::fmt::{Display, Formatter, Result, Write};

impl Display for StringValue {
    /// The text itself.
    fn fmt<W: Write>(&self, f: &mut Formatter<W>) -> Result {
        f.write_str(self.as_str())
    }
}

impl Display for Key {
    /// The name itself.
    fn fmt<W: Write>(&self, f: &mut Formatter<W>) -> Result {
        f.write_str(self.as_str())
    }
}

/// Prints items between square brackets, separated by commas.
fn write_items<W: Write, T: Display>(f: &mut Formatter<W>, items: &Items<T>) -> Result {
    let mut before = "";
    f.write_str("[")?;
    for item in items.as_slice() {
        write!(f, "{before}{item}")?;
        before = ",";
    }
    f.write_str("]")
}

impl Display for Array {
    /// The items between square brackets, separated by commas.
    fn fmt<W: Write>(&self, f: &mut Formatter<W>) -> Result {
        match self {
            Array::Bool(items) => write_items(f, items),
            Array::I64(items) => write_items(f, items),
            Array::String(items) => write_items(f, items),
        }
    }
}

impl Display for Value {
    /// The text, the number in decimal, `true` or `false`, or the array.
    fn fmt<W: Write>(&self, f: &mut Formatter<W>) -> Result {
        match self {
            Value::Bool(flag) => write!(f, "{flag}"),
            Value::I64(number) => write!(f, "{number}"),
            Value::String(text) => write!(f, "{text}"),
            Value::Array(items) => write!(f, "{items}"),
        }
    }
}

impl Display for KeyValue {
    /// The key, `=` and the value.
    fn fmt<W: Write>(&self, f: &mut Formatter<W>) -> Result {
        write!(f, "{}={}", self.key, self.value)
    }
}
