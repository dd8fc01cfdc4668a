//! The names and types of families.

ghost use Rattle.std.specs.Prelude.{◌≡◌, ◌++◌, IfOk, map};
ghost use Rattle.std.specs.String.{string_bytes};
ghost use Rattle.otel_prometheus.specs.Headings.{if_cumulative, points_kind, content_kind, keeps_last, is_last_value, kind_eq, own_text, with_unit, base_name, heading_of, is_reserved};
ghost use Rattle.otel_prometheus.specs.Groups.{sample_names};

use crate::text::names::{metric_name, without_end, without_gap};
use crate::units::unit_suffix;
use otel_common::metrics::Temporality;
use otel_common::strings::StringValue;
use otel_data::aggregated::{AggregatedMetrics, MetricData};
use otel_data::collections::Metric;
use std::alloc::{AllocError, Global};

/// The type of a family.
#[derive(Clone, Copy)]
pub(crate) enum Kind {
    /// A sum that doesn't fall but where it starts anew.
    Counter,
    /// A value.
    Gauge,
    /// How values spread.
    Histogram,
}

/// The name and the type of a family. The name of a counter is without `_total`.
#[derive(Drop)]
pub(crate) struct Heading {
    pub(crate) name: StringValue,
    pub(crate) kind: Kind,
}

/// The type, if the points cover all records since the stream was made.
fn if_cumulative(temporality: Temporality, kind: Kind) -> Option<Kind>
    ensures { result ≡ if_cumulative temporality kind }
{
    match temporality {
        Temporality::Cumulative => Some(kind),
        Temporality::Delta => None,
        Temporality::LowMemory => None,
    }
}

/// The type of the family of these points; none if they can't be shown.
fn points_kind<T>(points: &MetricData<T>) -> Option<Kind>
    ensures { result ≡ points_kind points.now }
{
    match points {
        MetricData::Gauge(_) => Some(Kind::Gauge),
        MetricData::Sum(sum) => {
            let kind = if sum.is_monotonic() {
                Kind::Counter
            } else {
                Kind::Gauge
            };
            if_cumulative(sum.temporality(), kind)
        }
        MetricData::Histogram(histogram) => {
            if_cumulative(histogram.temporality(), Kind::Histogram)
        }
    }
}

/// The type of the family of these points of either number type; none if they can't be shown.
pub(crate) fn content_kind(content: &AggregatedMetrics) -> Option<Kind>
    ensures { result ≡ content_kind content.now }
{
    match content {
        AggregatedMetrics::U64(points) => points_kind(points),
        AggregatedMetrics::I64(points) => points_kind(points),
    }
}

/// Whether the points are last values.
fn keeps_last<T>(points: &MetricData<T>) -> bool
    ensures { result ≡ keeps_last points.now }
{
    match points {
        MetricData::Gauge(_) => true,
        MetricData::Sum(_) => false,
        MetricData::Histogram(_) => false,
    }
}

/// Whether the points, of either number type, are last values.
fn is_last_value(content: &AggregatedMetrics) -> bool
    ensures { result ≡ is_last_value content.now }
{
    match content {
        AggregatedMetrics::U64(points) => keeps_last(points),
        AggregatedMetrics::I64(points) => keeps_last(points),
    }
}

/// Whether the types are the same.
pub(crate) fn is_same_kind(a: Kind, b: Kind) -> bool
    ensures { result ≡ kind_eq a b }
{
    match (a, b) {
        (Kind::Counter, Kind::Counter) => true,
        (Kind::Gauge, Kind::Gauge) => true,
        (Kind::Histogram, Kind::Histogram) => true,
        _ => false,
    }
}

/// The name of a metric without what a family of this type adds to it, and without a `_` before the ends of its samples.
fn own_text(kind: Kind, text: &[u8]) -> &[u8]
    ensures { result.now ≡ own_text kind text.now }
{
    match kind {
        Kind::Counter => without_gap(without_end(text, b"_total")),
        Kind::Gauge => text,
        Kind::Histogram => without_gap(text),
    }
}

/// Returns a name with what a unit adds to it, unless it has that.
fn with_unit(alloc: Global, name: &[u8], unit: &[u8]) -> Result<Vec<u8>, AllocError>
    ensures { IfOk result (λ whole. whole.items ≡ with_unit name.now unit.now) }
{
    let mut whole = Vec::new(alloc);
    if unit.is_empty() {
        whole.extend_from_slice(name)?;
        return Ok(whole);
    }
    let front = without_gap(name);
    whole.extend_from_slice(front)?;
    if !front.ends_with(unit) {
        whole.extend_from_slice(unit)?;
    }
    Ok(whole)
}

/// Returns the name of the family of a metric; `_` if nothing is left of it.
fn base_name(alloc: Global, metric: &Metric, kind: Kind) -> Result<String, AllocError>
    ensures { IfOk result (λ name. string_bytes name ≡ base_name kind metric.now) }
{
    let valid = metric_name(alloc, metric.name().as_bytes())?;
    let is_last_value = is_last_value(metric.data());
    let unit = unit_suffix(alloc, metric.unit().as_bytes(), is_last_value)?;
    let plain = own_text(kind, valid.as_str().as_bytes());
    let whole = with_unit(alloc, plain, unit.as_slice())?;
    metric_name(alloc, whole.as_slice())
}

/// Returns the heading of a metric; none if it can't be shown.
pub(crate) fn heading_of(alloc: Global, metric: &Metric) -> Result<Option<Heading>, AllocError>
    ensures { IfOk result (λ heading. heading ≡ heading_of metric.now) }
{
    match content_kind(metric.data()) {
        Some(kind) => {
            let name = StringValue::from(base_name(alloc, metric, kind)?);
            Ok(Some(Heading { name, kind }))
        }
        None => Ok(None),
    }
}

/// Returns the name with this end.
pub(crate) fn longer(alloc: Global, name: &str, end: &str) -> Result<String, AllocError>
    ensures { IfOk result (λ text. string_bytes text ≡ name.now ++ end.now) }
{
    let mut text = String::from_str(alloc, name)?;
    text.push_str(end)?;
    Ok(text)
}

/// Returns the name with each of these ends.
fn with_ends(alloc: Global, name: &str, ends: &[&str]) -> Result<Vec<StringValue>, AllocError>
    ensures { IfOk result (λ names. names.items ≡ map (λ end. name.now ++ end.now) ends.now) }
{
    let mut names = Vec::with_capacity(alloc, ends.len())?;
    for end in ends {
        let text = longer(alloc, name, end)?;
        if names.push(StringValue::from(text)).is_err() {
            return Err(AllocError);
        }
    }
    Ok(names)
}

/// Returns the names that samples of a family may have, but for its own.
pub(crate) fn sample_names(alloc: Global, heading: &Heading) -> Result<Vec<StringValue>, AllocError>
    ensures { IfOk result (λ names. names.items ≡ sample_names heading.now) }
{
    let name = heading.name.as_str();
    match heading.kind {
        Kind::Counter => with_ends(alloc, name, &["_total", "_created"]),
        Kind::Gauge => with_ends(alloc, name, &[]),
        Kind::Histogram => with_ends(alloc, name, &["_bucket", "_sum", "_count", "_created"]),
    }
}

/// Whether the name is that of what says what the resource is.
pub(crate) fn is_reserved(name: &[u8]) -> bool
    ensures { result ≡ is_reserved name.now }
{
    name == b"target".as_slice() || name == b"target_info".as_slice()
}
