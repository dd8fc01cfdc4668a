//! What all metrics share: temporality, aggregation, and errors of configuration.

ghost use Rattle.std.specs.Prelude.{◌≡◌, Some, IfErr, is_ok};
ghost use Rattle.otel_common.specs.Aggregations.{is_valid, rises, aggregation_name, aggregation_bounds_fault_text};
ghost use Rattle.otel_common.specs.Errors.{IsConfig};
ghost use Rattle.otel_common.specs.Temporalities.{temporality_named};

use crate::bounds::is_rising;
use crate::lists::Items;
use std::fmt::{self, Display, Formatter, Write};
use std::str::FromStr;
use thiserror::Error;

/// How the points of one collection relate to those of the next (Metrics data model, "Temporality").
#[derive(Clone, Copy, Debug, PartialEq, Eq, Hash, Default)]
pub enum Temporality {
    /// Each collection gives everything recorded since the start.
    #[default]
    Cumulative,
    /// Each collection gives what was recorded since the previous one.
    Delta,
    /// Delta for `Counter` and `Histogram`, cumulative for the other kinds.
    LowMemory,
}

impl FromStr for Temporality {
    type Err = ();

    ghost from_str_gives = { λ s r. r ≡ temporality_named s };

    /// Parses `cumulative`, `delta` or `lowmemory`, ignoring ASCII case; anything else is an error. Takes no memory.
    fn from_str(s: &str) -> Result<Temporality, ()> {
        if s.eq_ignore_ascii_case("cumulative") {
            return Ok(Temporality::Cumulative);
        }
        if s.eq_ignore_ascii_case("delta") {
            return Ok(Temporality::Delta);
        }
        if s.eq_ignore_ascii_case("lowmemory") {
            return Ok(Temporality::LowMemory);
        }
        Err(())
    }
}

/// What a stream keeps of its records (Metrics SDK, "Aggregation").
#[derive(Clone, Debug, Drop, PartialEq)]
pub enum Aggregation {
    /// Nothing: there is no stream.
    Drop,
    /// What the reader wants for the kind of instrument, or else the kind's own default.
    Default,
    /// The sum of their values.
    Sum,
    /// The last of their values.
    LastValue,
    /// The distribution of their values: how many there are, their sum, and how many fell into each bucket.
    ExplicitBucketHistogram {
        /// The bounds of the buckets, each of which must be greater than the one before it.
        boundaries: Items<i64>,
        /// Whether the least and the greatest value are kept.
        record_min_max: bool,
    },
}

const BOUNDS: &str = "aggregation: explicit bucket histogram: non-monotonic boundaries";

impl Aggregation {
    /// Checks the settings: each bound of a histogram must be greater than the one before it. A histogram without
    /// bounds is valid (Metrics SDK, "Explicit Bucket Histogram Aggregation").
    ///
    /// The error is `MetricError::Config`. Goes over the bounds once, and takes no memory.
    pub fn validate(&self) -> Result<(), MetricError>
        ensures valid { is_ok result ≡ is_valid self.now }
        ensures fault { IfErr result (λ e. IsConfig e aggregation_bounds_fault_text) }
    {
        match self {
            Aggregation::ExplicitBucketHistogram { boundaries, .. } => {
                rising_or_fault(boundaries.as_slice())
            }
            Aggregation::Drop => Ok(()),
            Aggregation::Default => Ok(()),
            Aggregation::Sum => Ok(()),
            Aggregation::LastValue => Ok(()),
        }
    }
}

/// Checks that bounds rise.
fn rising_or_fault(bounds: &[i64]) -> Result<(), MetricError>
    ensures rising { is_ok result ≡ rises bounds.now }
    ensures fault { IfErr result (λ e. IsConfig e aggregation_bounds_fault_text) }
{
    if is_rising(bounds) {
        return Ok(());
    }
    Err(MetricError::Config(BOUNDS))
}

/// Prints the name of the variant.
impl Display for Aggregation {
    ghost output = { λ aggregation. Some (aggregation_name aggregation) };

    fn fmt<W: Write>(&self, f: &mut Formatter<W>) -> fmt::Result {
        f.write_str(match self {
            Aggregation::Drop => "Drop",
            Aggregation::Default => "Default",
            Aggregation::Sum => "Sum",
            Aggregation::LastValue => "LastValue",
            Aggregation::ExplicitBucketHistogram { .. } => "ExplicitBucketHistogram",
        })
    }
}

/// Why a configuration is refused.
#[derive(Debug, Drop, Error)]
pub enum MetricError {
    /// A reason that has no variant of its own.
    #[error("Metrics error: {0}")]
    Other(&'static str),
    /// Settings that are not allowed.
    #[error("Config error {0}")]
    Config(&'static str),
    /// A name, a unit or another setting of an instrument that is not allowed.
    #[error("Invalid instrument configuration: {0}")]
    InvalidInstrumentConfiguration(&'static str),
}
