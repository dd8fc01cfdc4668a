//! Numbers of 64 bits, unsigned or signed.

ghost use Rattle.std.specs.Prelude.{◌≡◌, Bool, false, ℕ, ℤ, pos, int_lt, ◌+◌, ◌-◌, ◌%◌, ◌^◌};
ghost use Rattle.otel_model_stream.specs.Data.{natural_of};
ghost use Rattle.otel_aggregate.specs.Any.{amount_of, is_signed_value};
ghost use Rattle.otel_aggregate.specs.Kept.{IsWithin};

use otel_data::numbers::NumberType;

/// A number of 64 bits.
pub trait Number: NumberType {
    /// Whether the number type is `i64`.
    ghost is_signed: { Bool };

    /// The 64 bits.
    ghost bits: { Self → ℕ };

    /// The value as a whole number.
    ghost wide: { Self → ℤ };

    /// The number with these bits.
    ghost of_bits: { ℕ → Self };

    /// The number with this value.
    ghost of_wide: { ℤ → Self };

    /// The law that the bits determine the number.
    fn law_of_bits(self)
        ensures { of_bits (bits self) ≡ self };

    /// The law that the value as a whole number determines the number.
    fn law_of_wide(self)
        ensures { of_wide (wide self) ≡ self };

    /// The law that the value with its type is this number.
    fn law_of_value(self)
        ensures amount { amount_of (Self.value self) ≡ record { bits = bits self; wide = wide self } }
        ensures signed { is_signed_value (Self.value self) ≡ is_signed };

    /// Whether the number type is `i64`.
    fn is_signed() -> bool
        ensures { result ≡ is_signed };

    /// Zero.
    fn zero() -> Self
        ensures { bits result ≡ 0 };

    /// The number with these 64 bits.
    fn from_bits(word: u64) -> Self
        ensures { result ≡ of_bits word };

    /// The number with this value.
    fn from_wide(value: i128) -> Self
        requires { IsWithin is_signed value }
        ensures { result ≡ of_wide value };

    /// The sum modulo 2^64.
    fn add(self, other: Self) -> Self
        ensures { bits result ≡ (bits self + bits other) % 2 ^ 64 };

    /// The difference modulo 2^64.
    fn subtract(self, other: Self) -> Self
        ensures { bits result ≡ (bits self + (2 ^ 64 - bits other)) % 2 ^ 64 };

    /// Whether this number is less than the other.
    fn is_less(self, other: Self) -> bool
        ensures { result ≡ int_lt (wide self) (wide other) };

    /// The 64 bits.
    fn bits(self) -> u64
        ensures { result ≡ bits self };

    /// The value as a whole number.
    fn wide(self) -> i128
        ensures { result ≡ wide self };
}

impl Number for u64 {
    ghost is_signed = { false };

    ghost bits = { λ n. n };

    ghost wide = { pos };

    ghost of_bits = { λ n. n };

    ghost of_wide = { natural_of };

    fn law_of_bits(self) {}

    fn law_of_wide(self) {}

    fn law_of_value(self) {}

    fn is_signed() -> bool {
        false
    }

    fn zero() -> u64 {
        0
    }

    fn from_bits(word: u64) -> u64 {
        word
    }

    fn from_wide(value: i128) -> u64 {
        value as u64
    }

    fn add(self, other: u64) -> u64 {
        self.wrapping_add(other)
    }

    fn subtract(self, other: u64) -> u64 {
        self.wrapping_sub(other)
    }

    fn is_less(self, other: u64) -> bool {
        self < other
    }

    fn bits(self) -> u64 {
        self
    }

    fn wide(self) -> i128 {
        self as i128
    }
}
