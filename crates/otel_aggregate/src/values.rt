//! Values of either number type.

ghost use Rattle.std.specs.Prelude.{◌≡◌, ◌^◌, ◌↔◌, IsTrue, false, true, pos, ◌≤ℤ◌};
ghost use Rattle.std.specs.Int.{cast_signed, w64};
ghost use Rattle.otel_aggregate.specs.Any.{amount_of, is_signed_value};
ghost use Rattle.otel_aggregate.specs.AnyKept.{sum_with, least_from, greatest_from};

use otel_data::numbers::NumberValue;

/// The 64 bits of a value.
#[inline]
pub fn bits_of(value: NumberValue) -> u64
    ensures { result ≡ (amount_of value).bits }
{
    match value {
        NumberValue::U64(value) => value,
        NumberValue::I64(value) => value.cast_unsigned(),
    }
}

/// A value as a whole number.
#[inline]
pub(crate) fn wide_of(value: NumberValue) -> i128
    ensures { result ≡ (amount_of value).wide }
{
    match value {
        NumberValue::U64(value) => value as i128,
        NumberValue::I64(value) => value as i128,
    }
}

/// The 64 bits of a value as a signed number, which is the value unless that is great.
#[inline]
pub(crate) fn signed_bits_of(value: NumberValue) -> i64
    ensures bits { result ≡ cast_signed w64 (amount_of value).bits }
    ensures signed { is_signed_value value ≡ true → result ≡ (amount_of value).wide }
{
    bits_of(value).cast_signed()
}

/// Whether a value is greater than every `i64`.
#[inline]
pub(crate) fn is_great(value: &NumberValue) -> bool
    ensures great { IsTrue result ↔ (pos (2 ^ 63) ≤ℤ (amount_of value.now).wide) }
    ensures narrow { result ≡ false → cast_signed w64 (amount_of value.now).bits ≡ (amount_of value.now).wide }
{
    signed_bits_of(*value) < 0 && matches!(value, NumberValue::U64(_))
}

/// The sum, modulo 2^64, of a number and the 64 bits of these values.
pub(crate) fn sum_of(values: &[NumberValue], start: u64) -> u64
    ensures { result ≡ sum_with start values.now }
{
    let mut sum = start;
    for value in values {
        sum = sum.wrapping_add(bits_of(*value));
    }
    sum
}

/// The least of a number and these values, and the greatest of another one and these.
pub(crate) fn range_of(values: &[NumberValue], mut least: i128, mut greatest: i128) -> (i128, i128)
    ensures least { result.0 ≡ least_from least values.now }
    ensures greatest { result.1 ≡ greatest_from greatest values.now }
{
    for value in values {
        let wide = wide_of(*value);
        least = least.min(wide);
        greatest = greatest.max(wide);
    }
    (least, greatest)
}
