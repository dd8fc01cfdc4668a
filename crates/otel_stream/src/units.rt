//! Which units are valid.

ghost use Rattle.std.specs.Prelude.{◌≡◌, nat_lt};
ghost use Rattle.std.specs.List.{list_any};

/// The maximum length of a unit, in bytes (Metrics API, "Instrument unit").
pub const UNIT_MAX: usize = 63;

/// Returns whether a string of these bytes has a character outside ASCII, which means a byte greater than 127. Goes
/// over the bytes once, and takes no memory.
pub fn has_other_than_ascii(bytes: &[u8]) -> bool
    ensures { result ≡ list_any (λ b. nat_lt 127 b) bytes.now }
{
    bytes.iter().any(|byte| *byte > 127)
}
