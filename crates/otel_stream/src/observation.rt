//! What callbacks observe.

ghost use Rattle.std.specs.Prelude.{◌≡◌, []};

use otel_common::attributes::KeyValue;
use otel_common::lists::Items;
use otel_data::numbers::NumberValue;
use std::alloc::{AllocError, Global};

/// A value that a callback observed, with its attributes (Metrics API, "Measurement").
#[derive(Clone, Debug, Drop)]
pub struct Observation<T> {
    /// The value.
    pub value: T,
    /// The attributes, in any order. Where a key occurs more than once, the first value counts.
    pub attributes: Items<KeyValue>,
}

impl<T> Observation<T> {
    /// An observation without attributes. Takes no memory.
    pub fn new(alloc: Global, value: T) -> Observation<T>
        ensures { result ≡ record { value = value; attributes = [] } }
    {
        Observation {
            value,
            attributes: Items::from(Vec::new(alloc)),
        }
    }

    /// An observation with these attributes. Takes no memory.
    pub fn with_attributes(value: T, attributes: Vec<KeyValue>) -> Observation<T>
        ensures { result ≡ record { value = value; attributes = attributes.items } }
    {
        Observation {
            value,
            attributes: Items::from(attributes),
        }
    }
}

/// A value that was observed of an instrument, with its attributes.
#[derive(Debug, Drop)]
pub struct Observed {
    /// The number of the instrument.
    pub instrument: usize,
    /// The value.
    pub value: NumberValue,
    /// The attributes, in any order. Where a key occurs more than once, the first value counts.
    pub attributes: Items<KeyValue>,
}

impl Clone for Observed {
    ghost is_clone = { λ observed copy. copy ≡ observed };

    fn clone(&self) -> Result<Observed, AllocError> {
        Ok(Observed {
            instrument: self.instrument,
            value: self.value,
            attributes: self.attributes.clone()?,
        })
    }
}
