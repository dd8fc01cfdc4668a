//! What can be set for a stream, and what can be wrong with it.

ghost use Rattle.std.specs.Prelude.{◌≡◌};
ghost use Rattle.otel_stream.specs.Settings.{nothing_said, fault_by_unit, optional_limit_fault, optional_bounds_fault, bounds_of, settings_fault};
ghost use Rattle.otel_stream.specs.Units.{unit_fault, optional_unit_fault};

use crate::stream_fault::StreamFault;
use crate::units::{UNIT_MAX, has_other_than_ascii};
use otel_common::bounds::is_rising;
use otel_common::keys::Key;
use otel_common::laws::{copied_aggregation, copied_attributes};
use otel_common::lists::Items;
use otel_common::metrics::Aggregation;
use otel_common::strings::StringValue;
use std::alloc::AllocError;

/// What is set for a stream (Metrics SDK, "Stream configuration"). What is not set comes from the instrument or the
/// reader.
#[derive(Debug)]
pub struct StreamSpec {
    /// The name, in place of the instrument's.
    pub name: Option<StringValue>,
    /// The description, in place of the instrument's.
    pub description: Option<StringValue>,
    /// The unit, in place of the instrument's.
    pub unit: Option<StringValue>,
    /// What the stream keeps of its records.
    pub aggregation: Option<Aggregation>,
    /// The attribute keys that are kept; all of them if there is no list.
    pub allow: Option<Items<Key>>,
    /// How many sets of attributes have points of their own.
    pub limit: Option<usize>,
}

impl Drop for StreamSpec {
    /// A function of its own, so that no proof about who lets one go looks into it.
    fn drop(self) {
        let StreamSpec {
            name: _name,
            description: _description,
            unit: _unit,
            aggregation: _aggregation,
            allow: _allow,
            limit: _,
        } = self;
    }
}

impl StreamSpec {
    /// Returns the first of these that applies: the unit has more than 63 bytes, it has a character outside ASCII, the
    /// limit is 0, it is `usize::MAX`, the bounds of a histogram don't rise. The name is not checked.
    ///
    /// Goes over the unit and the bounds once, and takes no memory.
    pub fn fault(&self) -> Option<StreamFault>
        ensures { result ≡ settings_fault self.now }
    {
        if let Some(fault) = fault_of_unit(&self.unit) {
            return Some(fault);
        }
        if let Some(fault) = fault_of_limit(self.limit) {
            return Some(fault);
        }
        fault_of_bounds(&self.aggregation)
    }
}

fn fault_of_unit(unit: &Option<StringValue>) -> Option<StreamFault>
    ensures { result ≡ fault_by_unit (optional_unit_fault unit.now) }
{
    match unit {
        Some(unit) => fault_of_text(unit.as_str()),
        None => None,
    }
}

fn fault_of_text(unit: &str) -> Option<StreamFault>
    ensures { result ≡ fault_by_unit (unit_fault unit.now) }
{
    let bytes = unit.as_bytes();
    if bytes.len() > UNIT_MAX {
        return Some(StreamFault::UnitLength);
    }
    if has_other_than_ascii(bytes) {
        return Some(StreamFault::UnitInvalidChar);
    }
    None
}

fn fault_of_limit(limit: Option<usize>) -> Option<StreamFault>
    ensures { result ≡ optional_limit_fault limit }
{
    match limit {
        Some(0) => Some(StreamFault::LimitZero),
        Some(usize::MAX) => Some(StreamFault::LimitMax),
        _ => None,
    }
}

fn fault_of_bounds(aggregation: &Option<Aggregation>) -> Option<StreamFault>
    ensures { result ≡ optional_bounds_fault (bounds_of aggregation.now) }
{
    let Some(Aggregation::ExplicitBucketHistogram { boundaries, .. }) = aggregation else {
        return None;
    };
    if is_rising(boundaries.as_slice()) {
        return None;
    }
    Some(StreamFault::Boundaries)
}

/// By default nothing is set.
impl Default for StreamSpec {
    ghost is_default = { λ s. s ≡ nothing_said };

    fn default() -> StreamSpec {
        StreamSpec {
            name: None,
            description: None,
            unit: None,
            aggregation: None,
            allow: None,
            limit: None,
        }
    }
}

impl Clone for StreamSpec {
    ghost is_clone = { λ s t. t ≡ s };

    fn clone(&self) -> Result<StreamSpec, AllocError> {
        copied_aggregation();
        copied_attributes();
        let mut copy = StreamSpec::default();
        copy.name = self.name.clone()?;
        copy.description = self.description.clone()?;
        copy.unit = self.unit.clone()?;
        copy.aggregation = self.aggregation.clone()?;
        copy.allow = self.allow.clone()?;
        copy.limit = self.limit;
        Ok(copy)
    }
}
