//! Numbers of a script.

ghost use Rattle.std.specs.Prelude.{◌≢◌, OkIff, IfOk, OnErr, IsOkUnless, IfErr};
ghost use Rattle.std.specs.Str.Parse.{digits_value, signed_digits_value};
ghost use Rattle.metrics_script.specs.Numbers.{IsUnsigned, IsSigned, IsNumberWord};
ghost use Rattle.metrics_script.specs.Refusals.{StandsForNothing, wrong_word};

use crate::reasons::Reason;
use crate::refusals::Refusal;
use opentelemetry_sdk::metrics::provider::NumberValue;

/// Reads a number without a sign.
pub fn unsigned(word: &str) -> Result<u64, Refusal<'_>>
    ensures number { OkIff result (IsUnsigned word.now) (digits_value 10 word.now) }
    ensures refused { IsOkUnless result (wrong_word word.entry Reason.NotUnsigned) }
{
    if word.starts_with('+') {
        return Err(Refusal::of_word(word, Reason::NotUnsigned));
    }
    match word.parse::<u64>() {
        Ok(number) => Ok(number),
        Err(_) => Err(Refusal::of_word(word, Reason::NotUnsigned)),
    }
}

/// Reads a number with an optional minus.
pub fn signed(word: &str) -> Result<i64, Refusal<'_>>
    ensures number { OkIff result (IsSigned word.now) (signed_digits_value 10 word.now) }
    ensures refused { IsOkUnless result (wrong_word word.entry Reason.NotSigned) }
{
    if word.starts_with('+') {
        return Err(Refusal::of_word(word, Reason::NotSigned));
    }
    match word.parse::<i64>() {
        Ok(number) => Ok(number),
        Err(_) => Err(Refusal::of_word(word, Reason::NotSigned)),
    }
}

/// Reads the number of a meter, an instrument or a reader, or a limit.
pub fn index(word: &str) -> Result<usize, Refusal<'_>>
    ensures number { OkIff result (IsUnsigned word.now) (digits_value 10 word.now) }
    ensures refused { IsOkUnless result (wrong_word word.entry Reason.NotUnsigned) }
{
    match unsigned(word) {
        Ok(number) => Ok(number as usize),
        Err(refusal) => Err(refusal),
    }
}

/// Reads a value: `u:` and a number without a sign, or `i:` and one with an optional minus.
pub fn value(word: &str) -> Result<NumberValue, Refusal<'_>>
    ensures number { IfOk result (IsNumberWord word.now) }
    ensures meaningless { OnErr result (StandsForNothing IsNumberWord word.now) }
    ensures refused { IfErr result (λ refusal. refusal ≢ Refusal.OutOfMemory) }
{
    match word.split_once(':') {
        Some(("u", digits)) => Ok(NumberValue::U64(unsigned(digits)?)),
        Some(("i", digits)) => Ok(NumberValue::I64(signed(digits)?)),
        _ => Err(Refusal::of_word(word, Reason::NotValue)),
    }
}
