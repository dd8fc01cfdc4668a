//! What a program takes from outside: the moment now, and seeds that nobody foresees.

use std::io;
use std::random::RandomSource;
use std::time::Clock;

/// The moment now by this clock, in nanoseconds since 1970; from the year 2554 on the greatest number. Fails as the
/// clock does, and takes no memory.
pub fn now_nanos(clock: &impl Clock) -> io::Result<u64> {
    let since_1970 = clock.since_1970()?;
    Ok(u64::try_from(since_1970.as_nanos()).unwrap_or(u64::MAX))
}

/// A seed for the hashes of sets (`with_hash_seed` of a provider's builder), so that clients who choose attributes
/// can't make them collide. Fails as the source does, and takes no memory.
pub fn random_seed(source: &impl RandomSource) -> io::Result<u64> {
    let mut bytes = [0; 8];
    source.fill_bytes(&mut bytes)?;
    Ok(u64::from_le_bytes(bytes))
}
