//! The points of a metric.

ghost use Rattle.std.specs.Prelude.{◌≡◌};
ghost use Rattle.std.specs.Slice.Iter.{iter_rest};

use crate::exemplars::Exemplar;
use otel_common::attributes::KeyValue;
use otel_common::lists::{Items, SharedItems};
use std::alloc::AllocError;
use std::slice::Iter;

/// A point of a sum: what the records of one set of attributes add up to (Metrics data model,
/// "Sums").
#[derive(Clone, Debug, PartialEq)]
pub struct SumDataPoint<T> {
    attributes: SharedItems<KeyValue>,
    exemplars: Items<Exemplar<T>>,
    value: T,
}

impl<T: Drop> Drop for SumDataPoint<T> {
    /// A function of its own, so that no proof about who lets one go looks into it.
    fn drop(self) {
        let SumDataPoint {
            attributes: _attributes,
            exemplars: _exemplars,
            value: _value,
        } = self;
    }
}

impl<T> SumDataPoint<T> {
    /// Makes a point of its parts.
    pub fn new(attributes: SharedItems<KeyValue>, exemplars: Items<Exemplar<T>>, value: T) -> Self
        ensures { result ≡ record { attributes = attributes; exemplars = exemplars; value = value } }
    {
        SumDataPoint {
            attributes,
            exemplars,
            value,
        }
    }

    /// Consumes the point and returns its attributes, exemplars and value. Takes no memory.
    pub fn into_parts(self) -> (SharedItems<KeyValue>, Items<Exemplar<T>>, T)
        ensures { result ≡ (self.attributes, self.exemplars, self.value) }
    {
        let SumDataPoint {
            attributes,
            exemplars,
            value,
        } = self;
        (attributes, exemplars, value)
    }

    /// The attributes, each key once, in byte order of the keys.
    pub fn attributes(&self) -> Iter<'_, KeyValue>
        ensures { iter_rest result ≡ self.now.attributes }
    {
        self.attributes.as_slice().iter()
    }

    /// The exemplars. A collection has none, since no exemplars are kept.
    pub fn exemplars(&self) -> Iter<'_, Exemplar<T>>
        ensures { iter_rest result ≡ self.now.exemplars }
    {
        self.exemplars.as_slice().iter()
    }

    /// The sum of the values, modulo 2^64; a signed sum wraps around into the range of `i64`.
    pub fn value(&self) -> T
    where
        T: Copy,
        ensures { result ≡ self.now.value }
    {
        self.value
    }
}

/// A point of a gauge: the last value of one set of attributes (Metrics data model, "Gauge").
#[derive(Clone, Debug, PartialEq)]
pub struct GaugeDataPoint<T> {
    attributes: SharedItems<KeyValue>,
    exemplars: Items<Exemplar<T>>,
    value: T,
}

impl<T: Drop> Drop for GaugeDataPoint<T> {
    /// A function of its own, so that no proof about who lets one go looks into it.
    fn drop(self) {
        let GaugeDataPoint {
            attributes: _attributes,
            exemplars: _exemplars,
            value: _value,
        } = self;
    }
}

impl<T> GaugeDataPoint<T> {
    /// Makes a point of its parts.
    pub fn new(attributes: SharedItems<KeyValue>, exemplars: Items<Exemplar<T>>, value: T) -> Self
        ensures { result ≡ record { attributes = attributes; exemplars = exemplars; value = value } }
    {
        GaugeDataPoint {
            attributes,
            exemplars,
            value,
        }
    }

    /// Consumes the point and returns its attributes, exemplars and value. Takes no memory.
    pub fn into_parts(self) -> (SharedItems<KeyValue>, Items<Exemplar<T>>, T)
        ensures { result ≡ (self.attributes, self.exemplars, self.value) }
    {
        let GaugeDataPoint {
            attributes,
            exemplars,
            value,
        } = self;
        (attributes, exemplars, value)
    }

    /// The attributes, each key once, in byte order of the keys.
    pub fn attributes(&self) -> Iter<'_, KeyValue>
        ensures { iter_rest result ≡ self.now.attributes }
    {
        self.attributes.as_slice().iter()
    }

    /// The exemplars. A collection has none, since no exemplars are kept.
    pub fn exemplars(&self) -> Iter<'_, Exemplar<T>>
        ensures { iter_rest result ≡ self.now.exemplars }
    {
        self.exemplars.as_slice().iter()
    }

    /// The last value.
    pub fn value(&self) -> T
    where
        T: Copy,
        ensures { result ≡ self.now.value }
    {
        self.value
    }
}

/// A point of a histogram: how the records of one set of attributes spread (Metrics data model,
/// "Histogram").
#[derive(Debug, PartialEq)]
pub struct HistogramDataPoint<T> {
    attributes: SharedItems<KeyValue>,
    exemplars: Items<Exemplar<T>>,
    bounds: SharedItems<i64>,
    bucket_counts: Items<u64>,
    count: u64,
    min: Option<T>,
    max: Option<T>,
    sum: T,
}

impl<T: Drop> Drop for HistogramDataPoint<T> {
    /// A function of its own, so that no proof about who lets one go looks into it.
    fn drop(self) {
        let HistogramDataPoint {
            attributes: _attributes,
            exemplars: _exemplars,
            bounds: _bounds,
            bucket_counts: _bucket_counts,
            count: _,
            min: _min,
            max: _max,
            sum: _sum,
        } = self;
    }
}

impl<T: Clone> Clone for HistogramDataPoint<T> {
    ghost is_clone = { λ p copy. (copy.attributes ≡ p.attributes) × ⟦<Items<Exemplar<T>> as Clone>⟧.is_clone p.exemplars copy.exemplars × (copy.bounds ≡ p.bounds) × (copy.bucket_counts ≡ p.bucket_counts) × (copy.count ≡ p.count) × ⟦<Option<T> as Clone>⟧.is_clone p.min copy.min × ⟦<Option<T> as Clone>⟧.is_clone p.max copy.max × T.is_clone p.sum copy.sum };

    fn clone(&self) -> Result<HistogramDataPoint<T>, AllocError> {
        Ok(HistogramDataPoint {
            attributes: self.attributes.clone()?,
            exemplars: self.exemplars.clone()?,
            bounds: self.bounds.clone()?,
            bucket_counts: self.bucket_counts.clone()?,
            count: self.count,
            sum: self.sum.clone()?,
            min: self.min.clone()?,
            max: self.max.clone()?,
        })
    }
}

impl<T> HistogramDataPoint<T> {
    /// Makes a point of its parts.
    pub fn new(
        attributes: SharedItems<KeyValue>,
        exemplars: Items<Exemplar<T>>,
        bounds: SharedItems<i64>,
        bucket_counts: Items<u64>,
        count: u64,
        min: Option<T>,
        max: Option<T>,
        sum: T,
    ) -> Self
        ensures { result ≡ record { attributes = attributes; exemplars = exemplars; bounds = bounds; bucket_counts = bucket_counts; count = count; min = min; max = max; sum = sum } }
    {
        HistogramDataPoint {
            attributes,
            exemplars,
            bounds,
            bucket_counts,
            count,
            min,
            max,
            sum,
        }
    }

    /// Consumes the point and returns its attributes, exemplars, bounds and bucket counts. Its count, sum, least and greatest
    /// value have to be read before. Takes no memory.
    pub fn into_parts(
        self,
    ) -> (
        SharedItems<KeyValue>,
        Items<Exemplar<T>>,
        SharedItems<i64>,
        Items<u64>,
    )
    where
        T: Drop,
        ensures { result ≡ (self.attributes, self.exemplars, self.bounds, self.bucket_counts) }
    {
        let HistogramDataPoint {
            attributes,
            exemplars,
            bounds,
            bucket_counts,
            count: _,
            min: _min,
            max: _max,
            sum: _sum,
        } = self;
        (attributes, exemplars, bounds, bucket_counts)
    }

    /// The attributes, each key once, in byte order of the keys.
    pub fn attributes(&self) -> Iter<'_, KeyValue>
        ensures { iter_rest result ≡ self.now.attributes }
    {
        self.attributes.as_slice().iter()
    }

    /// The exemplars. A collection has none, since no exemplars are kept.
    pub fn exemplars(&self) -> Iter<'_, Exemplar<T>>
        ensures { iter_rest result ≡ self.now.exemplars }
    {
        self.exemplars.as_slice().iter()
    }

    /// The bounds of the buckets, in rising order. A value falls into the bucket whose number, from 0, is how many
    /// bounds are less than the value.
    pub fn bounds(&self) -> Iter<'_, i64>
        ensures { iter_rest result ≡ self.now.bounds }
    {
        self.bounds.as_slice().iter()
    }

    /// How many values fell into each bucket, modulo 2^64: one count more than there are bounds, or no counts if there
    /// are no bounds.
    pub fn bucket_counts(&self) -> Iter<'_, u64>
        ensures { iter_rest result ≡ self.now.bucket_counts }
    {
        self.bucket_counts.as_slice().iter()
    }

    /// How many values were recorded, modulo 2^64.
    pub fn count(&self) -> u64
        ensures { result ≡ self.now.count }
    {
        self.count
    }

    /// The least value; none if there are no values, or if the aggregation keeps no least value.
    pub fn min(&self) -> Option<T>
    where
        T: Copy,
        ensures { result ≡ self.now.min }
    {
        self.min
    }

    /// The greatest value; none if there are no values, or if the aggregation keeps no greatest value.
    pub fn max(&self) -> Option<T>
    where
        T: Copy,
        ensures { result ≡ self.now.max }
    {
        self.max
    }

    /// The sum of the values, modulo 2^64; a signed sum wraps around into the range of `i64`. It is 0 where no
    /// sum is kept, as `Histogram::has_sum` tells.
    pub fn sum(&self) -> T
    where
        T: Copy,
        ensures { result ≡ self.now.sum }
    {
        self.sum
    }
}
