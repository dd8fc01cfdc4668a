//! The points of a gauge.

ghost use Rattle.std.specs.Prelude.{◌≡◌, Some};
ghost use Rattle.std.specs.Cmp.Lexicographic.{pointwise};
ghost use Rattle.std.specs.List.{find};
ghost use Rattle.std.specs.Option.{option_map};
ghost use Rattle.std.specs.Slice.Iter.{iter_rest};
ghost use Rattle.otel_common.specs.Equality.{key_value_eq};

use crate::places::first_at;
use crate::points::GaugeDataPoint;
use otel_common::attributes::KeyValue;
use otel_common::lists::Items;
use std::alloc::AllocError;
use std::slice::Iter;

/// The points of a gauge at one collection, with their start and the moment of the collection (Metrics data model,
/// "Gauge").
#[derive(Debug, Drop)]
pub struct Gauge<T> {
    data_points: Items<GaugeDataPoint<T>>,
    start_time: u64,
    time: u64,
}

impl<T: Clone> Clone for Gauge<T> {
    ghost is_clone = { λ gauge copy. ⟦<Items<GaugeDataPoint<T>> as Clone>⟧.is_clone gauge.data_points copy.data_points × (copy.start_time ≡ gauge.start_time) × (copy.time ≡ gauge.time) };

    fn clone(&self) -> Result<Gauge<T>, AllocError> {
        Ok(Gauge {
            data_points: self.data_points.clone()?,
            start_time: self.start_time,
            time: self.time,
        })
    }
}

impl<T> Gauge<T> {
    /// Makes a gauge of its parts, with its moments in nanoseconds since 1970.
    pub fn new(data_points: Items<GaugeDataPoint<T>>, start_time: u64, time: u64) -> Self
        ensures { result ≡ record { data_points = data_points; start_time = start_time; time = time } }
    {
        Gauge {
            data_points,
            start_time,
            time,
        }
    }

    /// Consumes the gauge and returns its points, with `start_time` and `time`. Takes no memory.
    pub fn into_parts(self) -> (Items<GaugeDataPoint<T>>, u64, u64)
        ensures { result ≡ (self.data_points, self.start_time, self.time) }
    {
        let Gauge {
            data_points,
            start_time,
            time,
        } = self;
        (data_points, start_time, time)
    }

    /// The points, one for each set of attributes.
    pub fn data_points(&self) -> Iter<'_, GaugeDataPoint<T>>
        ensures { iter_rest result ≡ self.now.data_points }
    {
        self.data_points.as_slice().iter()
    }

    /// The point with exactly these attributes, each key once and the keys in byte order, if there is one. Goes over
    /// the points up to it.
    pub fn point(&self, attributes: &[KeyValue]) -> Option<&GaugeDataPoint<T>>
        ensures { option_map (λ found. found.now) result ≡ find (λ point. pointwise key_value_eq point.attributes attributes.now) self.now.data_points }
    {
        first_at(self.data_points.as_slice(), attributes)
    }

    /// The moment from which records are included in the points, in nanoseconds since 1970. It is always there,
    /// although the data model makes it optional.
    pub fn start_time(&self) -> Option<u64>
        ensures { result ≡ Some self.now.start_time }
    {
        Some(self.start_time)
    }

    /// The moment of the collection, in nanoseconds since 1970.
    pub fn time(&self) -> u64
        ensures { result ≡ self.now.time }
    {
        self.time
    }
}
