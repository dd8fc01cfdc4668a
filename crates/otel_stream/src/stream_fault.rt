//! Why the settings of a stream are refused.

use std::error::Error;
use std::fmt::{self, Display, Formatter, Write};

/// Why the settings of a stream are refused (Metrics SDK, "View" and "Cardinality limits"). If several of these apply,
/// the first in this list is answered.
#[derive(Clone, Copy, Debug, PartialEq, Eq)]
pub enum StreamFault {
    /// The unit has more than 63 bytes.
    UnitLength,
    /// The unit has a character outside ASCII.
    UnitInvalidChar,
    /// The limit is 0.
    LimitZero,
    /// The limit is `usize::MAX`.
    LimitMax,
    /// The bounds of a histogram don't rise.
    Boundaries,
}

/// Prints the reason, in words.
impl Display for StreamFault {
    fn fmt<W: Write>(&self, f: &mut Formatter<W>) -> fmt::Result {
        f.write_str(match self {
            StreamFault::UnitLength => "unit must be less than 64 characters",
            StreamFault::UnitInvalidChar => "characters in unit must be ASCII",
            StreamFault::LimitZero => "Cardinality limit must be greater than 0",
            StreamFault::LimitMax => "Cardinality limit must be less than usize::MAX",
            StreamFault::Boundaries =>
                "Bucket boundaries must be sorted and not contain any duplicates",
        })
    }
}

impl Error for StreamFault {}
