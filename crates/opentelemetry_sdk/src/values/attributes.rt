//! Lists of attributes, written out.

ghost use Rattle.std.specs.Prelude.{◌≡◌, Bool, true, false, nat_lt, pos, Err, IfOk, IsOkUnless};
ghost use Rattle.std.specs.String.{string_bytes};
ghost use Rattle.otel_common.specs.declared.attributes.Value.{Value};
ghost use Rattle.otel_common.specs.declared.attributes.Value.TheVariants as made;
ghost use Rattle.otel_common.specs.declared.faults.Fault.TheVariants.{OutOfMemory, WrongNumber};

use otel_common::attributes::Value;
use otel_common::faults::Fault;
use otel_common::strings::StringValue;
use std::alloc::Global;

/// What `attributes!` takes as the value of an attribute: a text (`&str`, `String`, `StringValue`), a whole number (`i64`,
/// `i32`, `u32`, and `u64` up to 2^63 - 1), a boolean, or any `Value` (Common specification, "Attribute").
pub trait AttributeValue {
    /// The value of the attribute.
    ghost value: { Self → Value };

    /// Whether an attribute can hold it. Only a `u64` may be too great.
    ghost fits: { Self → Bool } = { λ _. true };

    /// Makes the value of an attribute, and copies a text. Refused for want of memory, and with `WrongNumber` if it is
    /// too great.
    fn into_value(self, alloc: Global) -> Result<Value, Fault>
        ensures made { IfOk result (λ made. made ≡ value self) }
        ensures only_memory { fits self ≡ true → IsOkUnless result OutOfMemory }
        ensures too_great { fits self ≡ false → result ≡ Err WrongNumber };
}

impl AttributeValue for &str {
    ghost value = { λ text. made.String text.now };

    fn into_value(self, alloc: Global) -> Result<Value, Fault> {
        Ok(Value::String(StringValue::new(alloc, self)?))
    }
}

impl AttributeValue for String {
    ghost value = { λ text. made.String (string_bytes text) };

    fn into_value(self, _alloc: Global) -> Result<Value, Fault> {
        Ok(Value::String(self.into()))
    }
}

impl AttributeValue for StringValue {
    ghost value = { λ text. made.String text };

    fn into_value(self, _alloc: Global) -> Result<Value, Fault> {
        Ok(Value::String(self))
    }
}

impl AttributeValue for Value {
    ghost value = { λ value. value };

    fn into_value(self, _alloc: Global) -> Result<Value, Fault> {
        Ok(self)
    }
}

impl AttributeValue for i32 {
    ghost value = { λ number. made.I64 number };

    fn into_value(self, _alloc: Global) -> Result<Value, Fault> {
        Ok(Value::I64(i64::from(self)))
    }
}

impl AttributeValue for u32 {
    ghost value = { λ number. made.I64 (pos number) };

    fn into_value(self, _alloc: Global) -> Result<Value, Fault> {
        Ok(Value::I64(i64::from(self)))
    }
}

impl AttributeValue for u64 {
    ghost value = { λ number. made.I64 (pos number) };

    ghost fits = { λ number. nat_lt number 9223372036854775808 };

    fn into_value(self, _alloc: Global) -> Result<Value, Fault> {
        match i64::try_from(self) {
            Ok(number) => Ok(Value::I64(number)),
            Err(_) => Err(Fault::WrongNumber),
        }
    }
}

impl AttributeValue for i64 {
    ghost value = { λ number. made.I64 number };

    fn into_value(self, _alloc: Global) -> Result<Value, Fault> {
        Ok(Value::I64(self))
    }
}

impl AttributeValue for bool {
    ghost value = { λ flag. made.Bool flag };

    fn into_value(self, _alloc: Global) -> Result<Value, Fault> {
        Ok(Value::Bool(self))
    }
}

/// An array of attributes: `attributes![in alloc; "path" => "/cart", "items" => 3, "paid" => true]`. Names, and texts
/// that are lent, are copied. Without memory for them, or with a `u64` past 2^63 - 1, the function that it stands in
/// returns, as with `?`.
#[macro_export]
macro_rules! attributes {
    (in $alloc:expr; $($name:expr => $value:expr),+ $(,)?) => {
        [$($crate::common::KeyValue::new(
            $crate::common::Key::new($alloc, $name)?,
            $crate::AttributeValue::into_value($value, $alloc)?,
        )),+]
    };
}
