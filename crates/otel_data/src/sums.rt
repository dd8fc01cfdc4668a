//! The points of a sum.

ghost use Rattle.std.specs.Prelude.{◌≡◌};
ghost use Rattle.std.specs.Cmp.Lexicographic.{pointwise};
ghost use Rattle.std.specs.List.{find};
ghost use Rattle.std.specs.Option.{option_map};
ghost use Rattle.std.specs.Slice.Iter.{iter_rest};
ghost use Rattle.otel_common.specs.Equality.{key_value_eq};

use crate::places::first_at;
use crate::points::SumDataPoint;
use otel_common::attributes::KeyValue;
use otel_common::lists::Items;
use otel_common::metrics::Temporality;
use std::alloc::AllocError;
use std::slice::Iter;

/// The points of a sum at one collection, with their start and the moment of the collection (Metrics data model,
/// "Sums").
#[derive(Debug, Drop)]
pub struct Sum<T> {
    data_points: Items<SumDataPoint<T>>,
    start_time: u64,
    time: u64,
    temporality: Temporality,
    is_monotonic: bool,
}

impl<T: Clone> Clone for Sum<T> {
    ghost is_clone = { λ sum copy. ⟦<Items<SumDataPoint<T>> as Clone>⟧.is_clone sum.data_points copy.data_points × (copy.start_time ≡ sum.start_time) × (copy.time ≡ sum.time) × (copy.temporality ≡ sum.temporality) × (copy.is_monotonic ≡ sum.is_monotonic) };

    fn clone(&self) -> Result<Sum<T>, AllocError> {
        Ok(Sum {
            data_points: self.data_points.clone()?,
            start_time: self.start_time,
            time: self.time,
            temporality: self.temporality,
            is_monotonic: self.is_monotonic,
        })
    }
}

impl<T> Sum<T> {
    /// Makes a sum of its parts, with its moments in nanoseconds since 1970.
    pub fn new(
        data_points: Items<SumDataPoint<T>>,
        start_time: u64,
        time: u64,
        temporality: Temporality,
        is_monotonic: bool,
    ) -> Self
        ensures { result ≡ record { data_points = data_points; start_time = start_time; time = time; temporality = temporality; is_monotonic = is_monotonic } }
    {
        Sum {
            data_points,
            start_time,
            time,
            temporality,
            is_monotonic,
        }
    }

    /// Consumes the sum and returns its points, with `start_time`, `time`, `temporality` and `is_monotonic`. Takes no memory.
    pub fn into_parts(self) -> (Items<SumDataPoint<T>>, u64, u64, Temporality, bool)
        ensures { result ≡ (self.data_points, self.start_time, self.time, self.temporality, self.is_monotonic) }
    {
        let Sum {
            data_points,
            start_time,
            time,
            temporality,
            is_monotonic,
        } = self;
        (data_points, start_time, time, temporality, is_monotonic)
    }

    /// The points, one for each set of attributes.
    pub fn data_points(&self) -> Iter<'_, SumDataPoint<T>>
        ensures { iter_rest result ≡ self.now.data_points }
    {
        self.data_points.as_slice().iter()
    }

    /// The point with exactly these attributes, each key once and the keys in byte order, if there is one. Goes over
    /// the points up to it.
    pub fn point(&self, attributes: &[KeyValue]) -> Option<&SumDataPoint<T>>
        ensures { option_map (λ found. found.now) result ≡ find (λ point. pointwise key_value_eq point.attributes attributes.now) self.now.data_points }
    {
        first_at(self.data_points.as_slice(), attributes)
    }

    /// The moment from which records are included in the points, in nanoseconds since 1970.
    pub fn start_time(&self) -> u64
        ensures { result ≡ self.now.start_time }
    {
        self.start_time
    }

    /// The moment of the collection, in nanoseconds since 1970.
    pub fn time(&self) -> u64
        ensures { result ≡ self.now.time }
    {
        self.time
    }

    /// Whether the points cover the records since the previous collection (`Delta`), or all records since the stream
    /// was made (Metrics data model, "Temporality").
    pub fn temporality(&self) -> Temporality
        ensures { result ≡ self.now.temporality }
    {
        self.temporality
    }

    /// Whether the instrument's kind has values that are never negative, so that their sum doesn't fall before it
    /// wraps. For observed sums that is up to the callback.
    pub fn is_monotonic(&self) -> bool
        ensures { result ≡ self.now.is_monotonic }
    {
        self.is_monotonic
    }
}
