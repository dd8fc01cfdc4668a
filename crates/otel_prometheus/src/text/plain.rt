//! Whether a value needs no escape. Two loads that may overlap cover a text of up to 32 bytes.

ghost use Rattle.std.specs.Prelude.{◌≡◌, ◌+◌, ◌≤◌, length};
ghost use Rattle.std.specs.Bool.{OnTrue};
ghost use Rattle.otel_prometheus.specs.Samples.{escaped};
ghost use Rattle.otel_prometheus.specs.Plain.{PlainBetween};

use crate::text::escapes::is_special;
use std::simd::prelude::*;

/// Whether the four bytes from a place on stand for themselves.
#[inline(always)]
fn plain_4(text: &[u8], at: usize) -> bool
    requires { at + 4 ≤ length text.now }
    ensures { OnTrue result (PlainBetween text.now at (at + 4)) }
{
    let bytes = u8x4::from_slice(&text[at..]);
    (bytes.simd_eq(u8x4::splat(b'\\')).to_bitmask() == 0)
        & (bytes.simd_eq(u8x4::splat(b'"')).to_bitmask() == 0)
        & (bytes.simd_eq(u8x4::splat(b'\n')).to_bitmask() == 0)
}

/// Whether the eight bytes from a place on stand for themselves.
#[inline(always)]
fn plain_8(text: &[u8], at: usize) -> bool
    requires { at + 8 ≤ length text.now }
    ensures { OnTrue result (PlainBetween text.now at (at + 8)) }
{
    let bytes = u8x8::from_slice(&text[at..]);
    (bytes.simd_eq(u8x8::splat(b'\\')).to_bitmask() == 0)
        & (bytes.simd_eq(u8x8::splat(b'"')).to_bitmask() == 0)
        & (bytes.simd_eq(u8x8::splat(b'\n')).to_bitmask() == 0)
}

/// Whether the sixteen bytes from a place on stand for themselves.
#[inline(always)]
fn plain_16(text: &[u8], at: usize) -> bool
    requires { at + 16 ≤ length text.now }
    ensures { OnTrue result (PlainBetween text.now at (at + 16)) }
{
    let bytes = u8x16::from_slice(&text[at..]);
    (bytes.simd_eq(u8x16::splat(b'\\')).to_bitmask() == 0)
        & (bytes.simd_eq(u8x16::splat(b'"')).to_bitmask() == 0)
        & (bytes.simd_eq(u8x16::splat(b'\n')).to_bitmask() == 0)
}

/// Whether all bytes of a text of less than four stand for themselves.
#[inline(always)]
fn plain_few(text: &[u8]) -> bool
    ensures { OnTrue result (PlainBetween text.now 0 (length text.now)) }
{
    for byte in text {
        if is_special(*byte) {
            return false;
        }
    }
    true
}

/// Whether all bytes of a text of sixteen or more stand for themselves.
#[inline(always)]
fn plain_long(text: &[u8]) -> bool
    requires { 16 ≤ length text.now }
    ensures { OnTrue result (PlainBetween text.now 0 (length text.now)) }
{
    let last = text.len() - 16;
    let mut at = 0;
    while at < last {
        if !plain_16(text, at) {
            return false;
        }
        at += 16;
    }
    plain_16(text, last)
}

/// Whether all bytes of a text stand for themselves.
#[inline(always)]
fn all_plain(text: &[u8]) -> bool
    ensures { OnTrue result (PlainBetween text.now 0 (length text.now)) }
{
    let len = text.len();
    if len >= 16 {
        plain_long(text)
    } else if len >= 8 {
        plain_8(text, 0) && plain_8(text, len - 8)
    } else if len >= 4 {
        plain_4(text, 0) && plain_4(text, len - 4)
    } else {
        plain_few(text)
    }
}

/// Whether a value needs no escape.
#[inline(always)]
pub(crate) fn is_plain(text: &[u8]) -> bool
    ensures { OnTrue result (escaped text.now ≡ text.now) }
{
    all_plain(text)
}
