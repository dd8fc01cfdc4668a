//! Exemplars.

ghost use Rattle.std.specs.Prelude.{◌≡◌, ◌==◌};
ghost use Rattle.std.proofs.Common.{rules};
ghost use Rattle.std.specs.Cmp.Lexicographic.{pointwise};
ghost use Rattle.std.specs.Cmp.Rules.{comparing};
ghost use Rattle.std.specs.Slice.Iter.{iter_rest};

use otel_common::attributes::KeyValue;
use otel_common::lists::Items;
use std::alloc::AllocError;
use std::marker::Model;
use std::slice::Iter;

/// The ID of a span or a trace, as its bytes.
#[derive(Debug, Drop)]
pub struct Id<const N: usize> {
    bytes: [u8; N],
}

impl<const N: usize> Model for Id<N> {
    ghost use Rattle.std.specs.Prelude.{List, ℕ};

    ghost Value = { List ℕ };

    ghost view = { λ id. id.bytes };
}

impl<const N: usize> Clone for Id<N> {
    ghost is_clone = { λ id copy. copy ≡ id };

    fn clone(&self) -> Result<Id<N>, AllocError> {
        Ok(Id { bytes: self.bytes })
    }
}

impl<const N: usize> PartialEq for Id<N> {
    ghost eq = { pointwise ◌==◌ };

    ghost laws = { Prim.search (comparing, rules) };

    fn eq(&self, other: &Id<N>) -> bool {
        self.bytes[..] == other.bytes[..]
    }
}

/// A recorded value that is kept as an example, and what it was recorded in (Metrics SDK, "Exemplar").
#[derive(Debug, Drop, PartialEq)]
pub struct Exemplar<T> {
    filtered_attributes: Items<KeyValue>,
    time: u64,
    /// The value that was recorded.
    pub value: T,
    span_id: Id<8>,
    trace_id: Id<16>,
}

impl<T: Clone> Clone for Exemplar<T> {
    ghost is_clone = { λ e copy. ⟦<Items<KeyValue> as Clone>⟧.is_clone e.filtered_attributes copy.filtered_attributes × (copy.time ≡ e.time) × T.is_clone e.value copy.value × (copy.span_id ≡ e.span_id) × (copy.trace_id ≡ e.trace_id) };

    fn clone(&self) -> Result<Exemplar<T>, AllocError> {
        Ok(Exemplar {
            filtered_attributes: self.filtered_attributes.clone()?,
            time: self.time,
            value: self.value.clone()?,
            span_id: Id {
                bytes: self.span_id.bytes,
            },
            trace_id: Id {
                bytes: self.trace_id.bytes,
            },
        })
    }
}

impl<T> Exemplar<T> {
    /// Makes an exemplar of its parts, with its moment in nanoseconds since 1970. Both IDs are all zeros if nothing was
    /// traced.
    pub fn new(
        filtered_attributes: Items<KeyValue>,
        time: u64,
        value: T,
        span_id: [u8; 8],
        trace_id: [u8; 16],
    ) -> Self
        ensures { result ≡ record { filtered_attributes = filtered_attributes; time = time; value = value; span_id = span_id; trace_id = trace_id } }
    {
        Exemplar {
            filtered_attributes,
            time,
            value,
            span_id: Id { bytes: span_id },
            trace_id: Id { bytes: trace_id },
        }
    }

    /// The attributes that were recorded with the value but left out by the stream.
    pub fn filtered_attributes(&self) -> Iter<'_, KeyValue>
        ensures { iter_rest result ≡ self.now.filtered_attributes }
    {
        self.filtered_attributes.as_slice().iter()
    }

    /// The moment of the record, in nanoseconds since 1970.
    pub fn time(&self) -> u64
        ensures { result ≡ self.now.time }
    {
        self.time
    }

    /// The ID of the span that the value was recorded in.
    pub fn span_id(&self) -> &[u8; 8]
        ensures { result.now ≡ self.now.span_id }
    {
        &self.span_id.bytes
    }

    /// The ID of the trace that the value was recorded in.
    pub fn trace_id(&self) -> &[u8; 16]
        ensures { result.now ≡ self.now.trace_id }
    {
        &self.trace_id.bytes
    }
}
