//! The points of a histogram.

ghost use Rattle.std.specs.Prelude.{◌≡◌};
ghost use Rattle.std.specs.Cmp.Lexicographic.{pointwise};
ghost use Rattle.std.specs.List.{find};
ghost use Rattle.std.specs.Option.{option_map};
ghost use Rattle.std.specs.Slice.Iter.{iter_rest};
ghost use Rattle.otel_common.specs.Equality.{key_value_eq};

use crate::places::first_at;
use crate::points::HistogramDataPoint;
use otel_common::attributes::KeyValue;
use otel_common::lists::Items;
use otel_common::metrics::Temporality;
use std::alloc::AllocError;
use std::slice::Iter;

/// The points of a histogram at one collection, with their start and the moment of the collection (Metrics data model,
/// "Histogram").
#[derive(Debug, Drop)]
pub struct Histogram<T> {
    data_points: Items<HistogramDataPoint<T>>,
    start_time: u64,
    time: u64,
    temporality: Temporality,
    has_sum: bool,
}

impl<T: Clone> Clone for Histogram<T> {
    ghost is_clone = { λ histogram copy. ⟦<Items<HistogramDataPoint<T>> as Clone>⟧.is_clone histogram.data_points copy.data_points × (copy.start_time ≡ histogram.start_time) × (copy.time ≡ histogram.time) × (copy.temporality ≡ histogram.temporality) × (copy.has_sum ≡ histogram.has_sum) };

    fn clone(&self) -> Result<Histogram<T>, AllocError> {
        Ok(Histogram {
            data_points: self.data_points.clone()?,
            start_time: self.start_time,
            time: self.time,
            temporality: self.temporality,
            has_sum: self.has_sum,
        })
    }
}

impl<T> Histogram<T> {
    /// Makes a histogram of its parts, with its moments in nanoseconds since 1970. `has_sum` tells whether the sums of the
    /// points are kept.
    pub fn new(
        data_points: Items<HistogramDataPoint<T>>,
        start_time: u64,
        time: u64,
        temporality: Temporality,
        has_sum: bool,
    ) -> Self
        ensures { result ≡ record { data_points = data_points; start_time = start_time; time = time; temporality = temporality; has_sum = has_sum } }
    {
        Histogram {
            data_points,
            start_time,
            time,
            temporality,
            has_sum,
        }
    }

    /// Consumes the histogram and returns its points, with `start_time`, `time`, `temporality` and `has_sum`. Takes no
    /// memory.
    pub fn into_parts(self) -> (Items<HistogramDataPoint<T>>, u64, u64, Temporality, bool)
        ensures { result ≡ (self.data_points, self.start_time, self.time, self.temporality, self.has_sum) }
    {
        let Histogram {
            data_points,
            start_time,
            time,
            temporality,
            has_sum,
        } = self;
        (data_points, start_time, time, temporality, has_sum)
    }

    /// The points, one for each set of attributes.
    pub fn data_points(&self) -> Iter<'_, HistogramDataPoint<T>>
        ensures { iter_rest result ≡ self.now.data_points }
    {
        self.data_points.as_slice().iter()
    }

    /// The point with exactly these attributes, each key once and the keys in byte order, if there is one. Goes over
    /// the points up to it.
    pub fn point(&self, attributes: &[KeyValue]) -> Option<&HistogramDataPoint<T>>
        ensures { option_map (λ found. found.now) result ≡ find (λ point. pointwise key_value_eq point.attributes attributes.now) self.now.data_points }
    {
        first_at(self.data_points.as_slice(), attributes)
    }

    /// The moment from which records are included in the points, in nanoseconds since 1970.
    pub fn start_time(&self) -> u64
        ensures { result ≡ self.now.start_time }
    {
        self.start_time
    }

    /// The moment of the collection, in nanoseconds since 1970.
    pub fn time(&self) -> u64
        ensures { result ≡ self.now.time }
    {
        self.time
    }

    /// Whether the points cover the records since the previous collection (`Delta`), or all records since the stream
    /// was made (Metrics data model, "Temporality").
    pub fn temporality(&self) -> Temporality
        ensures { result ≡ self.now.temporality }
    {
        self.temporality
    }

    /// Whether the sums of the points are kept. They are not for instruments whose values can fall or are no amounts:
    /// up-down counters, observable or not, and observable gauges; there `sum` of each point is 0 and says nothing
    /// (Metrics SDK, "Histogram Aggregations").
    pub fn has_sum(&self) -> bool
        ensures { result ≡ self.now.has_sum }
    {
        self.has_sum
    }
}
