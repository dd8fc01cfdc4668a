//! The number types of instruments' values, and a value of either type.

ghost use Rattle.std.specs.Prelude.{◌≡◌};
ghost use Rattle.otel_data.specs.declared.numbers.NumberValue.{NumberValue};
ghost use Rattle.otel_data.specs.declared.numbers.NumberValue.TheVariants.{U64, I64};

/// A value of either number type (Metrics API, "Instrument").
#[derive(Clone, Copy, Debug, PartialEq, Eq)]
pub enum NumberValue {
    /// An unsigned 64-bit integer.
    U64(u64),
    /// A signed 64-bit integer.
    I64(i64),
}

/// A number type of instruments' values: `u64` or `i64` (Metrics API, "Instrument").
pub trait NumberType: Copy {
    /// The value with its type.
    ghost value: { Self → NumberValue };

    /// Returns the value with its type.
    fn into_value(self) -> NumberValue
        ensures { result ≡ value self };
}

impl NumberType for u64 {
    ghost value = { λ n. U64 n };

    fn into_value(self) -> NumberValue {
        NumberValue::U64(self)
    }
}

impl NumberType for i64 {
    ghost value = { λ z. I64 z };

    fn into_value(self) -> NumberValue {
        NumberValue::I64(self)
    }
}
