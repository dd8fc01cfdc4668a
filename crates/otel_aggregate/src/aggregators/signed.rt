//! Signed numbers of 64 bits.

ghost use Rattle.std.specs.Prelude.{true};
ghost use Rattle.std.specs.Int.{cast_unsigned, w64};
ghost use Rattle.otel_model_stream.specs.Data.{signed_of};

use crate::aggregators::number::Number;

impl Number for i64 {
    ghost is_signed = { true };

    ghost bits = { cast_unsigned w64 };

    ghost wide = { λ z. z };

    ghost of_bits = { signed_of };

    ghost of_wide = { λ z. z };

    fn law_of_bits(self) {}

    fn law_of_wide(self) {}

    fn law_of_value(self) {}

    fn is_signed() -> bool {
        true
    }

    fn zero() -> i64 {
        0
    }

    fn from_bits(word: u64) -> i64 {
        word.cast_signed()
    }

    fn from_wide(value: i128) -> i64 {
        value as i64
    }

    fn add(self, other: i64) -> i64 {
        self.wrapping_add(other)
    }

    fn subtract(self, other: i64) -> i64 {
        self.wrapping_sub(other)
    }

    fn is_less(self, other: i64) -> bool {
        self < other
    }

    fn bits(self) -> u64 {
        self.cast_unsigned()
    }

    fn wide(self) -> i128 {
        self as i128
    }
}
