//! How many sets of attributes of a stream have points of their own.

ghost use Rattle.std.specs.Prelude.{◌≡◌, None, Some, IfOk, IfErr};
ghost use Rattle.otel_stream.specs.Settings.{limit_fault};

use crate::stream_fault::StreamFault;
use std::marker::Model;

/// How many sets of attributes of a stream have points of their own (Metrics SDK, "Cardinality limits"): at least 1,
/// and less than `usize::MAX`. Contracts see it as the number.
#[derive(Clone, Copy, Debug, PartialEq, Eq)]
pub struct CardinalityLimit {
    limit: usize,
}

impl Model for CardinalityLimit {
    ghost use Rattle.std.specs.Prelude.{◌≡◌, ℕ, None};
    ghost use Rattle.otel_stream.specs.Settings.{limit_fault};

    ghost Value = { ℕ };

    ghost view = { λ l. l.limit };

    ghost invariant = { λ l. limit_fault l.limit ≡ None };

    ghost inverse = { λ limit. record { limit = limit } };
}

impl CardinalityLimit {
    /// Makes a limit of this number. Refuses 0 with `LimitZero` and `usize::MAX` with `LimitMax`. Takes no memory.
    pub fn new(limit: usize) -> Result<CardinalityLimit, StreamFault>
        ensures refused { IfErr result (λ fault. limit_fault limit ≡ Some fault) }
        ensures kept { IfOk result (λ made. (made ≡ limit) × (limit_fault limit ≡ None)) }
    {
        if limit == 0 {
            return Err(StreamFault::LimitZero);
        }
        if limit == usize::MAX {
            return Err(StreamFault::LimitMax);
        }
        Ok(CardinalityLimit { limit })
    }

    /// The number.
    pub fn get(&self) -> usize
        ensures number { result ≡ self.now }
        ensures lawful { limit_fault result ≡ None }
    {
        self.limit
    }
}
