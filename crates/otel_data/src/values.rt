//! Values and counts of a collection, by scope, metric and attributes.

ghost use Rattle.std.specs.Prelude.{◌≡◌};
ghost use Rattle.std.specs.List.{find, list_all};
ghost use Rattle.std.specs.Option.{option_map};
ghost use Rattle.otel_data.specs.Values.{any_count_in, count_at, count_in, has_key, is_first, is_set, number_in, value_at, value_in};

use crate::aggregated::{AggregatedMetrics, MetricData};
use crate::collections::ResourceMetrics;
use crate::numbers::NumberValue;
use crate::places::Point;
use otel_common::attributes::KeyValue;
use otel_common::keys::Key;

impl ResourceMetrics {
    /// The value of the point with this set of attributes, in any order: of the first metric of this name, a sum or a
    /// gauge, in the first scope of that name. None if there is no such point. Of a key that is given more than once the
    /// first value counts, as for a record. Takes no memory; compares each attribute with each of a point.
    pub fn value(&self, scope: &str, metric: &str, attributes: &[KeyValue]) -> Option<NumberValue>
        ensures { result ≡ value_at self.now scope.now metric.now attributes.now }
    {
        let metric = self.scope(scope)?.metric(metric)?;
        number_in(metric.data(), attributes)
    }

    /// How many values were recorded, modulo 2^64, in the point with this set of attributes, in any order: of the first
    /// metric of this name, a histogram, in the first scope of that name. None if there is no such point. Of a key that
    /// is given more than once the first value counts, as for a record. Takes no memory; compares each attribute with
    /// each of a point.
    pub fn count(&self, scope: &str, metric: &str, attributes: &[KeyValue]) -> Option<u64>
        ensures { result ≡ count_at self.now scope.now metric.now attributes.now }
    {
        let metric = self.scope(scope)?.metric(metric)?;
        any_count_in(metric.data(), attributes)
    }
}

fn number_in(content: &AggregatedMetrics, attributes: &[KeyValue]) -> Option<NumberValue>
    ensures { result ≡ number_in attributes.now content.now }
{
    match content {
        AggregatedMetrics::U64(data) => Some(NumberValue::U64(value_in(data, attributes)?)),
        AggregatedMetrics::I64(data) => Some(NumberValue::I64(value_in(data, attributes)?)),
    }
}

fn any_count_in(content: &AggregatedMetrics, attributes: &[KeyValue]) -> Option<u64>
    ensures { result ≡ any_count_in attributes.now content.now }
{
    match content {
        AggregatedMetrics::U64(data) => count_in(data, attributes),
        AggregatedMetrics::I64(data) => count_in(data, attributes),
    }
}

fn value_in<T: Copy>(content: &MetricData<T>, attributes: &[KeyValue]) -> Option<T>
    ensures { result ≡ value_in attributes.now content.now }
{
    match content {
        MetricData::Sum(sum) => {
            let point = first_of(sum.data_points().as_slice(), attributes)?;
            Some(point.value())
        }
        MetricData::Gauge(gauge) => {
            let point = first_of(gauge.data_points().as_slice(), attributes)?;
            Some(point.value())
        }
        MetricData::Histogram(_) => None,
    }
}

fn count_in<T>(content: &MetricData<T>, attributes: &[KeyValue]) -> Option<u64>
    ensures { result ≡ count_in attributes.now content.now }
{
    match content {
        MetricData::Histogram(histogram) => {
            let point = first_of(histogram.data_points().as_slice(), attributes)?;
            Some(point.count())
        }
        _ => None,
    }
}

/// Returns the first of these points with this set of attributes, if there is one.
fn first_of<'a, P: Point>(points: &'a [P], attributes: &[KeyValue]) -> Option<&'a P>
    ensures { option_map (λ found. found.now) result ≡ find (λ point. is_set attributes.now (P.place point)) points.now }
{
    for point in points {
        if is_set(attributes, point.place()) {
            return Some(point);
        }
    }
    None
}

/// Whether these attributes are the set, in any order.
fn is_set(attributes: &[KeyValue], set: &[KeyValue]) -> bool
    ensures { result ≡ is_set attributes.now set.now }
{
    are_first(attributes, set) && have_keys(attributes, set)
}

fn are_first(attributes: &[KeyValue], set: &[KeyValue]) -> bool
    ensures { result ≡ list_all (is_first attributes.now) set.now }
{
    set.iter().all(|own| is_first(attributes, own))
}

fn have_keys(attributes: &[KeyValue], set: &[KeyValue]) -> bool
    ensures { result ≡ list_all (λ given. has_key set.now given.key) attributes.now }
{
    attributes.iter().all(|given| has_key(set, &given.key))
}

fn is_first(attributes: &[KeyValue], own: &KeyValue) -> bool
    ensures { result ≡ is_first attributes.now own.now }
{
    for given in attributes {
        if given.key == own.key {
            return given == own;
        }
    }
    false
}

fn has_key(attributes: &[KeyValue], key: &Key) -> bool
    ensures { result ≡ has_key attributes.now key.now }
{
    attributes.iter().any(|own| own.key == *key)
}
