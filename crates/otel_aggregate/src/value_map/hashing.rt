//! Hashing of sets of attributes.

ghost use Rattle.std.specs.Prelude.{◌≡◌, ◌==◌, ◌+◌, ◌<◌, ◌≤◌, length};
ghost use Rattle.std.specs.Hash.FoldHasher.{folded_multiply, read_u32, read_u64, read_short, mix};
ghost use Rattle.otel_aggregate.specs.value_map.Hashing as spec;

use std::hash::{BuildHasher, Hasher};

/// An odd number whose bits look random.
const MULTIPLIER: u64 = 0x9e37_79b9_7f4a_7c15;

/// The byte that ends a text, which no text has.
const END_OF_TEXT: u8 = 0xff;

/// A hasher for sets of attributes, started from a seed. It is not cryptographic.
///
/// A key or a text costs one multiplication for every 16 bytes. Its length is hashed too, which tells two texts apart
/// from two others that join to the same bytes, so the byte that ends a text costs nothing. Any other single byte costs
/// a 64-bit multiplication.
#[derive(Clone, Copy)]
pub struct SetHasher {
    state: u64,
}

/// Makes hashers for sets, all started from one seed. Keys made to collide under one seed don't collide under another.
#[derive(Clone, Copy, PartialEq, Eq)]
pub struct SetHashBuilder {
    seed: u64,
}

impl SetHashBuilder {
    /// Makes a builder of hashers that start from this seed.
    pub fn new(seed: u64) -> SetHashBuilder
        ensures { result ≡ record { seed = seed } }
    {
        SetHashBuilder { seed }
    }
}

impl Default for SetHashBuilder {
    ghost is_default = { λ b. b ≡ spec.unseeded };

    fn default() -> SetHashBuilder {
        SetHashBuilder::new(0x243f_6a88_85a3_08d3)
    }
}

impl BuildHasher for SetHashBuilder {
    type Hasher = SetHasher;

    ghost build_hasher = { λ b. record { state = b.seed } };

    #[inline]
    fn build_hasher(&self) -> SetHasher {
        SetHasher { state: self.seed }
    }
}

/// Joins the two halves of the 128-bit product.
#[inline]
fn folded_multiply(a: u64, b: u64) -> u64
    ensures { result ≡ folded_multiply a b }
{
    let product = a as u128 * b as u128;
    (product & 0xFFFF_FFFF_FFFF_FFFF) as u64 ^ (product >> 64) as u64
}

/// Reads four bytes, the lowest first.
#[inline]
fn read_u32(bytes: &[u8], at: usize) -> u64
    requires { at + 4 ≤ length bytes.now }
    ensures { result ≡ read_u32 bytes.now at }
{
    u32::from_le_bytes([bytes[at], bytes[at + 1], bytes[at + 2], bytes[at + 3]]) as u64
}

/// Reads eight bytes, the lowest first.
#[inline]
fn read_u64(bytes: &[u8], at: usize) -> u64
    requires { at + 8 ≤ length bytes.now }
    ensures { result ≡ read_u64 bytes.now at }
{
    read_u32(bytes, at) | read_u32(bytes, at + 4) << 32
}

/// Reads up to 3 bytes as one number, by reads that may overlap.
#[inline]
fn read_short(bytes: &[u8]) -> u64
    requires { length bytes.now ≤ 3 }
    ensures { result ≡ read_short bytes.now }
{
    let len = bytes.len();
    if len > 0 {
        bytes[0] as u64 | (bytes[len / 2] as u64) << 8 | (bytes[len - 1] as u64) << 16
    } else {
        0
    }
}

/// The state after the 8 bytes at each of these two places.
#[inline]
fn mixed(state: u64, bytes: &[u8], first: usize, second: usize) -> u64
    requires first { first + 8 ≤ length bytes.now }
    requires second { second + 8 ≤ length bytes.now }
    ensures { result ≡ mix bytes.now state first second }
{
    folded_multiply(
        read_u64(bytes, first) ^ state,
        read_u64(bytes, second) ^ MULTIPLIER,
    )
}

/// The state after more than 16 bytes, taken 16 at a time.
#[inline(never)]
fn after_long(before: u64, bytes: &[u8]) -> u64
    requires { 16 < length bytes.now }
    ensures { result ≡ spec.after_many before bytes.now }
{
    let len = bytes.len();
    let mut state = before.wrapping_add(len as u64);
    let mut at = 0;
    while len - at > 16 {
        state = mixed(state, bytes, at, at + 8);
        at += 16;
    }
    mixed(state, bytes, len - 16, len - 8)
}

/// The state after more than 8 bytes.
#[inline]
fn after_many(state: u64, bytes: &[u8]) -> u64
    requires { 8 < length bytes.now }
    ensures { result ≡ spec.after_many state bytes.now }
{
    let len = bytes.len();
    if len > 16 {
        return after_long(state, bytes);
    }
    mixed(state.wrapping_add(len as u64), bytes, 0, len - 8)
}

/// The state after one byte.
#[inline]
fn after_one(state: u64, byte: u8) -> u64
    ensures { result ≡ spec.after_one state byte }
{
    if byte == END_OF_TEXT {
        return state;
    }
    (state ^ byte as u64).wrapping_mul(MULTIPLIER)
}

/// The state after these bytes. Up to 3 bytes are taken as one number.
#[inline]
pub(crate) fn after(state: u64, bytes: &[u8]) -> u64
    ensures { result ≡ spec.after state bytes.now }
{
    let len = bytes.len();
    if len > 8 {
        return after_many(state, bytes);
    }
    if len >= 4 {
        return folded_multiply(
            read_u32(bytes, 0) ^ state.wrapping_add(len as u64),
            read_u32(bytes, len - 4) ^ MULTIPLIER,
        );
    }
    if len == 1 {
        return after_one(state, bytes[0]);
    }
    folded_multiply(state ^ read_short(bytes), MULTIPLIER ^ (2 * len as u64))
}

impl Hasher for SetHasher {
    ghost write = { spec.write };

    ghost finish = { λ h. h.state };

    #[inline]
    fn finish(&self) -> u64 {
        self.state
    }

    #[inline]
    #[tactic(auto, unfolding(crate::specs::value_map::Hashing::write))]
    fn write(&mut self, bytes: &[u8]) {
        self.state = after(self.state, bytes);
    }

    #[inline]
    #[tactic(auto, unfolding(crate::specs::value_map::Hashing::write))]
    fn write_u8(&mut self, byte: u8) {
        self.state = after_one(self.state, byte);
    }
}
