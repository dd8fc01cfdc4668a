//! Texts of exporters, written by hand from the specifications and not taken from the program: Prometheus and
//! OpenMetrics Compatibility, the text format 0.0.4, OpenMetrics 1.0, and OpenTelemetry Protocol, "JSON Protobuf
//! Encoding". Parsers that others wrote accept them.
use otel_common::attributes::KeyValue;
use otel_common::faults::Fault;
use otel_common::lists::{Items, SharedItems};
use otel_common::metrics::Temporality;
use otel_common::strings::StringValue;
use otel_data::aggregated::{AggregatedMetrics, MetricData};
use otel_data::collections::Metric;
use otel_data::gauges::Gauge;
use otel_data::histograms::Histogram;
use otel_data::points::{GaugeDataPoint, HistogramDataPoint, SumDataPoint};
use otel_data::sums::Sum;
use std::alloc::Global;

mod names;
mod wholes;

/// The start of each metric, in nanoseconds since 1970.
const START: u64 = 1700000100000000000;

/// The moment of each metric, in nanoseconds since 1970.
const TIME: u64 = 1700000200123456789;

/// A text attribute `path`; none if the text is empty.
fn path(alloc: Global, text: &str) -> Result<SharedItems<KeyValue>, Fault> {
    let mut attributes = Vec::new(alloc);
    if !text.is_empty() {
        attributes.push(KeyValue::text(alloc, "path", text)?)?;
    }
    Ok(SharedItems::new(attributes)?)
}

/// A sum with a point for each of these paths and values.
fn sum<T: Copy + Drop>(
    alloc: Global,
    given: &[(&str, T)],
    temporality: Temporality,
    is_monotonic: bool,
) -> Result<MetricData<T>, Fault> {
    let mut points = Vec::new(alloc);
    for (text, value) in given {
        let attributes = path(alloc, text)?;
        let exemplars = Items::from(Vec::new(alloc));
        points.push(SumDataPoint::new(attributes, exemplars, *value))?;
    }
    let points = Items::from(points);
    Ok(Sum::new(points, START, TIME, temporality, is_monotonic).into())
}

/// A gauge with one point.
fn gauge<T: Copy + Drop>(
    alloc: Global,
    attributes: Vec<KeyValue>,
    value: T,
) -> Result<MetricData<T>, Fault> {
    let attributes = SharedItems::new(attributes)?;
    let point = GaugeDataPoint::new(attributes, Items::from(Vec::new(alloc)), value);
    let mut points = Vec::new(alloc);
    points.push(point)?;
    let points = Items::from(points);
    Ok(Gauge::new(points, START, TIME).into())
}

/// What a point of a histogram has seen.
#[derive(Clone, Copy)]
struct Seen<T> {
    count: u64,
    least: Option<T>,
    greatest: Option<T>,
    sum: T,
}

/// A histogram with one point, which has no attributes.
fn histogram<T: Copy + Drop>(
    alloc: Global,
    bounds: &[i64],
    counts: &[u64],
    seen: Seen<T>,
    temporality: Temporality,
    has_sum: bool,
) -> Result<MetricData<T>, Fault> {
    let point = HistogramDataPoint::new(
        path(alloc, "")?,
        Items::from(Vec::new(alloc)),
        SharedItems::new(Vec::from_slice(alloc, bounds)?)?,
        Items::from(Vec::from_slice(alloc, counts)?),
        seen.count,
        seen.least,
        seen.greatest,
        seen.sum,
    );
    let mut points = Vec::new(alloc);
    points.push(point)?;
    let points = Items::from(points);
    Ok(Histogram::new(points, START, TIME, temporality, has_sum).into())
}

/// A metric of this name, this description and this unit.
fn metric(
    alloc: Global,
    about: (&str, &str, &str),
    points: AggregatedMetrics,
) -> Result<Metric, Fault> {
    let (name, description, unit) = about;
    Ok(Metric::new(
        StringValue::new(alloc, name)?,
        StringValue::new(alloc, description)?,
        StringValue::new(alloc, unit)?,
        points,
    ))
}
