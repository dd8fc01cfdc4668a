//! Texts of a script.

ghost use Rattle.std.specs.Prelude.{◌≡◌, IfOk, OnOk, IsOkUnless};
ghost use Rattle.std.specs.Str.{IsUtf8};
ghost use Rattle.std.specs.String.{string_bytes};
ghost use Rattle.percent_encoding.specs.Percent.{percent_decode};
ghost use Rattle.metrics_script.specs.Texts.{text_of_word};

use crate::reasons::Reason;
use crate::refusals::Refusal;
use percent_encoding::{DecodeError, percent_decode_str};
use std::alloc::Global;

/// Decodes a text, in which `%` and two hexadecimal digits stand for one byte and all else stands for itself. A bad command
/// is answered exactly if the bytes are not UTF-8 and there is memory for them: want of memory comes first.
pub fn unescaped(alloc: Global, escaped: &str) -> Result<String, Refusal<'_>>
    ensures text { IfOk result (λ text. string_bytes text ≡ percent_decode escaped.now) }
    ensures utf8 { IsUtf8 (percent_decode escaped.now) → IsOkUnless result Refusal.OutOfMemory }
    ensures only_utf8 { OnOk result (IsUtf8 (percent_decode escaped.now)) }
{
    match percent_decode_str(escaped).decode_utf8(alloc) {
        Ok(text) => Ok(text.into_owned(alloc)?),
        Err(DecodeError::Utf8(_)) => Err(Refusal::of_word(escaped, Reason::TextNotUtf8)),
        Err(DecodeError::OutOfMemory) => Err(Refusal::OutOfMemory),
    }
}

/// Reads the text of a word: the word `-` alone is the empty text, any other may have escapes.
pub fn text_of_word(alloc: Global, word: &str) -> Result<String, Refusal<'_>>
    ensures text { IfOk result (λ text. string_bytes text ≡ text_of_word word.now) }
    ensures utf8 { IsUtf8 (text_of_word word.now) → IsOkUnless result Refusal.OutOfMemory }
    ensures only_utf8 { OnOk result (IsUtf8 (text_of_word word.now)) }
{
    if word == "-" {
        return Ok(String::new(alloc));
    }
    unescaped(alloc, word)
}
