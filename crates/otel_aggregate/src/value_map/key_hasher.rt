//! Hashing of keys that carry the hash of their set.

ghost use Rattle.std.specs.Prelude.{◌≡◌};
ghost use Rattle.otel_aggregate.specs.value_map.Hashing as spec;

use crate::value_map::hashing::after;
use std::hash::{BuildHasher, Hasher};

/// A hasher for keys that carry their hash: a number that is written is the hash as it is. What else is written it hashes
/// as `SetHasher` does.
#[derive(Clone, Copy)]
pub(crate) struct KeyHasher {
    state: u64,
}

/// Makes hashers for keys that carry their hash.
#[derive(Clone, Copy)]
pub(crate) struct KeyHashBuilder;

impl BuildHasher for KeyHashBuilder {
    type Hasher = KeyHasher;

    ghost build_hasher = { λ _. record { state = 0 } };

    #[inline(always)]
    fn build_hasher(&self) -> KeyHasher {
        KeyHasher { state: 0 }
    }
}

/// The state after these bytes.
fn after_key(state: u64, bytes: &[u8]) -> u64
    ensures { result ≡ spec.after_key state bytes.now }
{
    if bytes.len() == 8 {
        return u64::from_le_bytes([
            bytes[0], bytes[1], bytes[2], bytes[3], bytes[4], bytes[5], bytes[6], bytes[7],
        ]);
    }
    after(state, bytes)
}

impl Hasher for KeyHasher {
    ghost write = { spec.write_key };

    ghost finish = { λ h. h.state };

    #[inline(always)]
    fn finish(&self) -> u64 {
        self.state
    }

    #[tactic(auto, unfolding(crate::specs::value_map::Hashing::write_key))]
    fn write(&mut self, bytes: &[u8]) {
        self.state = after_key(self.state, bytes);
    }

    #[inline(always)]
    fn write_u64(&mut self, number: u64) {
        self.state = number;
    }
}
