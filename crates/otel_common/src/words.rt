//! Whether slices of bytes are equal, by eight bytes at a time.

ghost use Rattle.std.specs.Prelude.{◌≡◌, ◌==◌, ◌↔◌, ◌+◌, ◌<◌, ◌≤◌, IsTrue, drop, length, take};
ghost use Rattle.std.specs.Cmp.Lexicographic.{pointwise};
ghost use Rattle.std.specs.Int.{from_le_bytes, w32, w64};

/// Reads eight bytes as a number, the lowest first.
#[inline(always)]
fn word_at(bytes: &[u8], at: usize) -> u64
    requires { at + 8 ≤ length bytes.now }
    ensures { result ≡ from_le_bytes w64 (take 8 (drop at bytes.now)) }
{
    u64::from_le_bytes([
        bytes[at],
        bytes[at + 1],
        bytes[at + 2],
        bytes[at + 3],
        bytes[at + 4],
        bytes[at + 5],
        bytes[at + 6],
        bytes[at + 7],
    ])
}

/// Reads four bytes as a number, the lowest first.
#[inline(always)]
fn half_at(bytes: &[u8], at: usize) -> u32
    requires { at + 4 ≤ length bytes.now }
    ensures { result ≡ from_le_bytes w32 (take 4 (drop at bytes.now)) }
{
    u32::from_le_bytes([bytes[at], bytes[at + 1], bytes[at + 2], bytes[at + 3]])
}

/// Whether both have the same eight bytes at a place.
#[inline(always)]
fn same_word(a: &[u8], b: &[u8], at: usize) -> bool
    requires first { at + 8 ≤ length a.now }
    requires second { at + 8 ≤ length b.now }
    ensures { IsTrue result ↔ (take 8 (drop at a.now) ≡ take 8 (drop at b.now)) }
{
    word_at(a, at) == word_at(b, at)
}

/// Whether both have the same four bytes at a place.
#[inline(always)]
fn same_half(a: &[u8], b: &[u8], at: usize) -> bool
    requires first { at + 4 ≤ length a.now }
    requires second { at + 4 ≤ length b.now }
    ensures { IsTrue result ↔ (take 4 (drop at a.now) ≡ take 4 (drop at b.now)) }
{
    half_at(a, at) == half_at(b, at)
}

/// Whether two slices of one length, eight bytes at least, are equal.
#[inline(never)]
fn same_words(a: &[u8], b: &[u8]) -> bool
    requires long { 8 ≤ length a.now }
    requires as_long { length a.now ≡ length b.now }
    ensures { IsTrue result ↔ (a.now ≡ b.now) }
{
    let last = a.len() - 8;
    let mut at = 0;
    while at < last {
        if !same_word(a, b, at) {
            return false;
        }
        at += 8;
    }
    same_word(a, b, last)
}

/// Whether two slices of one length, one to three bytes, are equal.
#[inline(always)]
fn same_few(a: &[u8], b: &[u8]) -> bool
    requires some { 0 < length a.now }
    requires few { length a.now < 4 }
    requires as_long { length a.now ≡ length b.now }
    ensures { IsTrue result ↔ (a.now ≡ b.now) }
{
    let len = a.len();
    a[0] == b[0] && a[len / 2] == b[len / 2] && a[len - 1] == b[len - 1]
}

/// Whether two slices of one length are equal. Reads that may overlap cover them.
#[inline(always)]
fn same_as_long(a: &[u8], b: &[u8]) -> bool
    requires { length a.now ≡ length b.now }
    ensures { IsTrue result ↔ (a.now ≡ b.now) }
{
    let len = a.len();
    if len > 16 {
        same_words(a, b)
    } else if len >= 8 {
        same_word(a, b, 0) && same_word(a, b, len - 8)
    } else if len >= 4 {
        same_half(a, b, 0) && same_half(a, b, len - 4)
    } else {
        len == 0 || same_few(a, b)
    }
}

/// Whether two slices are equal.
#[inline(always)]
pub(crate) fn same_bytes(a: &[u8], b: &[u8]) -> bool
    ensures { result ≡ pointwise ◌==◌ a.now b.now }
{
    a.len() == b.len() && same_as_long(a, b)
}
