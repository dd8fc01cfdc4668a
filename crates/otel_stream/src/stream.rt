//! Streams, as views set them, and their builder.

ghost use Rattle.std.specs.Prelude.{◌≡◌, ◌<◌, true, Some, Ok, Err, IfSome, MatchOption, option_copied};
ghost use Rattle.std.specs.Option.{option_map};
ghost use Rattle.std.specs.String.{string_bytes};
ghost use Rattle.otel_common.specs.Aggregations.{is_valid};
ghost use Rattle.otel_stream.specs.Settings.{nothing_said, settings_fault, IsLawful};

use crate::stream_fault::StreamFault;
use crate::stream_spec::StreamSpec;
use otel_common::keys::Key;
use otel_common::lists::Items;
use otel_common::metrics::Aggregation;
use std::alloc::AllocError;
use std::marker::Model;

/// The settings of a stream (Metrics SDK, "Stream configuration"). What is not set comes from the instrument or the
/// reader.
///
/// The unit, the limit and the bounds are always valid: the unit has at most 63 bytes, all ASCII, the limit is neither
/// 0 nor `usize::MAX`, and the bounds of a histogram rise.
#[derive(Debug, Drop)]
pub struct Stream {
    spec: StreamSpec,
}

impl Model for Stream {
    ghost use Rattle.otel_stream.specs.Settings.{IsLawful};
    ghost use Rattle.otel_stream.specs.declared.stream_spec.StreamSpec.{StreamSpec};

    ghost Value = { StreamSpec };

    ghost view = { λ s. s.spec };

    ghost invariant = { λ s. IsLawful s.spec };
}

impl Stream {
    /// Returns a builder with nothing set. Takes no memory.
    pub fn builder() -> StreamBuilder
        ensures { result ≡ nothing_said }
    {
        StreamBuilder::default()
    }

    /// The settings as fields.
    pub fn spec(&self) -> &StreamSpec
        ensures { result.now ≡ self.now }
    {
        &self.spec
    }

    /// The name, if one is set.
    pub fn name(&self) -> Option<&str>
        ensures { option_map (λ s. s.now) result ≡ self.now.name }
    {
        match &self.spec.name {
            Some(name) => Some(name.as_str()),
            None => None,
        }
    }

    /// The description, if one is set.
    pub fn description(&self) -> Option<&str>
        ensures { option_map (λ s. s.now) result ≡ self.now.description }
    {
        match &self.spec.description {
            Some(description) => Some(description.as_str()),
            None => None,
        }
    }

    /// The unit, if one is set.
    pub fn unit(&self) -> Option<&str>
        ensures { option_map (λ s. s.now) result ≡ self.now.unit }
    {
        match &self.spec.unit {
            Some(unit) => Some(unit.as_str()),
            None => None,
        }
    }

    /// What the stream keeps of its records, if that is set.
    pub fn aggregation(&self) -> Option<&Aggregation>
        ensures { option_copied result ≡ self.now.aggregation }
    {
        self.spec.aggregation.as_ref()
    }

    /// The attribute keys that are kept, if they are set; otherwise all are kept.
    pub fn allowed_attribute_keys(&self) -> Option<&[Key]>
        ensures { option_map (λ s. s.now) result ≡ self.now.allow }
    {
        match &self.spec.allow {
            Some(keys) => Some(keys.as_slice()),
            None => None,
        }
    }

    /// How many sets of attributes have points of their own, if that is set.
    pub fn cardinality_limit(&self) -> Option<usize>
        ensures { result ≡ self.now.limit }
    {
        self.spec.limit
    }

    /// The law that the unit, the limit and the bounds are valid. Does nothing; a function whose contract needs the law
    /// calls it first.
    pub fn lawful(&self)
        ensures settings { IsLawful self.now }
        ensures limit { IfSome self.now.limit (λ n. 0 < n) }
        ensures bounds { IfSome self.now.aggregation (λ a. is_valid a ≡ true) }
    {
        let _ = &self.spec;
    }
}

/// By default nothing is set.
impl Default for Stream {
    ghost is_default = { λ s. s ≡ nothing_said };

    fn default() -> Stream {
        Stream {
            spec: StreamSpec::default(),
        }
    }
}

impl Clone for Stream {
    ghost is_clone = { λ s t. t ≡ s };

    fn clone(&self) -> Result<Stream, AllocError> {
        Ok(Stream {
            spec: self.spec.clone()?,
        })
    }
}

/// A builder of streams (Metrics SDK, "Stream configuration"). If something is set twice, the last setting counts.
/// Setting something takes no memory.
#[derive(Debug, Drop)]
pub struct StreamBuilder {
    spec: StreamSpec,
}

impl Model for StreamBuilder {
    ghost use Rattle.otel_stream.specs.declared.stream_spec.StreamSpec.{StreamSpec};

    ghost Value = { StreamSpec };

    ghost view = { λ b. b.spec };
}

impl StreamBuilder {
    /// Sets the stream's name, in place of the instrument's. Any string is valid.
    pub fn with_name(self, name: String) -> StreamBuilder
        ensures { result ≡ record self { name = Some (string_bytes name) } }
    {
        let mut builder = self;
        builder.spec.name = Some(name.into());
        builder
    }

    /// Sets the stream's description, in place of the instrument's. Any string is valid.
    pub fn with_description(self, description: String) -> StreamBuilder
        ensures { result ≡ record self { description = Some (string_bytes description) } }
    {
        let mut builder = self;
        builder.spec.description = Some(description.into());
        builder
    }

    /// Sets the stream's unit, in place of the instrument's. A valid unit has at most 63 bytes, all ASCII.
    pub fn with_unit(self, unit: String) -> StreamBuilder
        ensures { result ≡ record self { unit = Some (string_bytes unit) } }
    {
        let mut builder = self;
        builder.spec.unit = Some(unit.into());
        builder
    }

    /// Sets what the stream keeps of its records, in place of what the reader wants for the kind of instrument. The
    /// bounds of a histogram must rise.
    pub fn with_aggregation(self, aggregation: Aggregation) -> StreamBuilder
        ensures { result ≡ record self { aggregation = Some aggregation } }
    {
        let mut builder = self;
        builder.spec.aggregation = Some(aggregation);
        builder
    }

    /// Sets the attribute keys that are kept. The others are dropped; an empty list drops all. If this is not called,
    /// all are kept.
    pub fn with_allowed_attribute_keys(self, attribute_keys: Vec<Key>) -> StreamBuilder
        ensures { result ≡ record self { allow = Some attribute_keys.items } }
    {
        let mut builder = self;
        builder.spec.allow = Some(Items::from(attribute_keys));
        builder
    }

    /// Sets how many sets of attributes have points of their own: 1 to `usize::MAX - 1` (Metrics SDK, "Cardinality
    /// limits").
    pub fn with_cardinality_limit(self, limit: usize) -> StreamBuilder
        ensures { result ≡ record self { limit = Some limit } }
    {
        let mut builder = self;
        builder.spec.limit = Some(limit);
        builder
    }

    /// Builds the stream, or returns the first fault of its settings, in the order of `StreamFault`: those of the unit,
    /// of the limit, of the bounds. The name is not checked (Metrics SDK, "View").
    ///
    /// Goes over the unit and the bounds once, and takes no memory.
    pub fn build(self) -> Result<Stream, StreamFault>
        ensures { MatchOption (settings_fault self) (result ≡ Ok self) (λ fault. result ≡ Err fault) }
    {
        let StreamBuilder { spec } = self;
        match spec.fault() {
            Some(fault) => Err(fault),
            None => Ok(Stream { spec }),
        }
    }
}

/// By default nothing is set.
impl Default for StreamBuilder {
    ghost is_default = { λ b. b ≡ nothing_said };

    fn default() -> StreamBuilder {
        StreamBuilder {
            spec: StreamSpec::default(),
        }
    }
}

impl Clone for StreamBuilder {
    ghost is_clone = { λ s t. t ≡ s };

    fn clone(&self) -> Result<StreamBuilder, AllocError> {
        Ok(StreamBuilder {
            spec: self.spec.clone()?,
        })
    }
}
