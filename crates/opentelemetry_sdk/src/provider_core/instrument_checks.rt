//! Checks of an instrument's name, unit and bounds.

ghost use Rattle.std.specs.Prelude.{◌≡◌, cond, not, Some, None};
ghost use Rattle.std.specs.List.{list_any};
ghost use Rattle.std.specs.Option.{option_map};
ghost use Rattle.otel_model.specs.Checks.{name_fault, name_fault_text, optional_unit_fault, unit_fault_text, is_name_byte, bounds_fault_text};
ghost use Rattle.otel_model_stream.specs.Data.{rises};
ghost use Rattle.opentelemetry_sdk.specs.Correspondence.{IsAnswer};

use otel_common::bounds::is_rising;
use otel_common::metrics::MetricError;
use otel_stream::units::{UNIT_MAX, has_other_than_ascii};

const NAME_EMPTY: &str = "name must be non-empty";

const NAME_LENGTH: &str = "name must be less than 256 characters";

const NAME_FIRST: &str = "name must start with an alphabetic character";

const NAME_CHARACTER: &str =
    "characters in name must be ASCII and belong to the alphanumeric characters, '_', '.', '-' and '/'";

const UNIT_LENGTH: &str = "unit must be less than 64 characters";

const UNIT_CHARACTER: &str = "characters in unit must be ASCII";

const BOUNDS: &str = "Bucket boundaries must be sorted and non-duplicate";

/// The greatest length of a name, in bytes.
const NAME_MAX: usize = 255;

fn has_other_character(bytes: &[u8]) -> bool
    ensures { result ≡ list_any (λ b. not (is_name_byte b)) bytes.now }
{
    bytes.iter().any(|byte| !byte.is_ascii_alphanumeric()
        && !matches!(byte, b'_' | b'.' | b'-' | b'/'))
}

/// Checks that a name is good: 1 to 255 bytes, of which the first is an ASCII letter and the others are ASCII letters,
/// digits, `_`, `.`, `-` or `/` (Metrics API, "Instrument name syntax").
///
/// The error is `MetricError::InvalidInstrumentConfiguration`, with the text of the first check that fails. Goes over
/// the name once, and takes no memory.
pub fn validate_instrument_name(name: &str) -> Result<(), MetricError>
    ensures { IsAnswer (option_map name_fault_text (name_fault name.now)) result }
{
    let bytes = name.as_bytes();
    let [first, ..] = bytes else {
        return Err(MetricError::InvalidInstrumentConfiguration(NAME_EMPTY));
    };
    if bytes.len() > NAME_MAX {
        return Err(MetricError::InvalidInstrumentConfiguration(NAME_LENGTH));
    }
    if !first.is_ascii_alphabetic() {
        return Err(MetricError::InvalidInstrumentConfiguration(NAME_FIRST));
    }
    if has_other_character(bytes) {
        return Err(MetricError::InvalidInstrumentConfiguration(NAME_CHARACTER));
    }
    Ok(())
}

/// Checks that a unit is good: at most 63 bytes, all ASCII (Metrics API, "Instrument unit"). `None` is good too.
///
/// The error is `MetricError::InvalidInstrumentConfiguration`, with the text of the first check that fails. Goes over
/// the unit once, and takes no memory.
pub fn validate_instrument_unit(unit: Option<&str>) -> Result<(), MetricError>
    ensures { IsAnswer (option_map unit_fault_text (optional_unit_fault (option_map (λ u. u.now) unit.entry))) result }
{
    let Some(unit) = unit else {
        return Ok(());
    };
    let bytes = unit.as_bytes();
    if bytes.len() > UNIT_MAX {
        return Err(MetricError::InvalidInstrumentConfiguration(UNIT_LENGTH));
    }
    if has_other_than_ascii(bytes) {
        return Err(MetricError::InvalidInstrumentConfiguration(UNIT_CHARACTER));
    }
    Ok(())
}

/// Checks that the bounds of a histogram's buckets are good: each is greater than the one before it (Metrics API,
/// "ExplicitBucketBoundaries"). An empty list is good too.
///
/// The error is `MetricError::InvalidInstrumentConfiguration`. Goes over the bounds once, and takes no memory.
pub fn validate_bucket_boundaries(boundaries: &[i64]) -> Result<(), MetricError>
    ensures { IsAnswer (cond (rises boundaries.now) None (Some bounds_fault_text)) result }
{
    if is_rising(boundaries) {
        return Ok(());
    }
    Err(MetricError::InvalidInstrumentConfiguration(BOUNDS))
}
