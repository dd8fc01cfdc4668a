//! Collections as text: a line for the resource, and one for each scope, metric and point.

use super::metered::Metered;
use super::support::assert_text;
use opentelemetry_sdk::metrics::data::{
    AggregatedMetrics, Gauge, Histogram, HistogramDataPoint, Metric, MetricData, ResourceMetrics,
    ScopeMetrics, Sum,
};
use opentelemetry_sdk::resource::Resource;
use std::alloc::Global;
use std::fmt::Display;
use std::process::Abort;

/// Writes the attributes and the schema URL of a resource, as in `a=b c=d u`; `-` stands for no URL.
pub fn write_resource(rt: &impl Abort, text: &mut String, resource: &Resource) {
    for (key, value) in resource {
        write!(text, "{key}={value} ").expect(rt, "memory");
    }
    let url = resource.schema_url().unwrap_or("-");
    text.push_str(url).expect(rt, "memory");
}

/// Writes the temporality and the moments of a sum, and how many exemplars each point has, which is looked up by its
/// attributes.
fn write_sum<T>(rt: &impl Abort, text: &mut String, sum: &Sum<T>) {
    let temporality = sum.temporality();
    let monotonic = sum.is_monotonic();
    write!(text, "sum {temporality:?} monotonic={monotonic}").expect(rt, "memory");
    write!(text, " {} {}", sum.start_time(), sum.time()).expect(rt, "memory");
    for point in sum.data_points() {
        let point = sum
            .point(point.attributes().as_slice())
            .expect(rt, "its point");
        write!(text, " exemplars={}", point.exemplars().len()).expect(rt, "memory");
    }
}

/// Writes a value, or `-` for none.
fn write_optional<T: Copy + Display>(rt: &impl Abort, text: &mut String, value: Option<T>) {
    match value {
        Some(value) => write!(text, " {value}").expect(rt, "memory"),
        None => text.push_str(" -").expect(rt, "memory"),
    }
}

/// Writes the moments of a gauge, and how many exemplars each point has, which is looked up by its attributes.
fn write_gauge<T>(rt: &impl Abort, text: &mut String, gauge: &Gauge<T>) {
    text.push_str("gauge").expect(rt, "memory");
    write_optional(rt, text, gauge.start_time());
    write!(text, " {}", gauge.time()).expect(rt, "memory");
    for point in gauge.data_points() {
        let point = gauge
            .point(point.attributes().as_slice())
            .expect(rt, "its point");
        write!(text, " exemplars={}", point.exemplars().len()).expect(rt, "memory");
    }
}

/// Writes the least and the greatest value and the bounds of a point, and how many exemplars it has.
fn write_spread<T: Copy + Display>(
    rt: &impl Abort,
    text: &mut String,
    point: &HistogramDataPoint<T>,
) {
    write_optional(rt, text, point.min());
    write_optional(rt, text, point.max());
    for bound in point.bounds() {
        write!(text, " {bound}").expect(rt, "memory");
    }
    write!(text, " exemplars={}", point.exemplars().len()).expect(rt, "memory");
}

/// Writes the temporality and the moments of a histogram, and what isn't printed of each point, which is looked up by its
/// attributes.
fn write_histogram<T: Copy + Display>(
    rt: &impl Abort,
    text: &mut String,
    histogram: &Histogram<T>,
) {
    let temporality = histogram.temporality();
    write!(text, "histogram {temporality:?}").expect(rt, "memory");
    write!(text, " {} {}", histogram.start_time(), histogram.time()).expect(rt, "memory");
    for point in histogram.data_points() {
        let point = histogram
            .point(point.attributes().as_slice())
            .expect(rt, "its point");
        write_spread(rt, text, point);
    }
}

/// Writes what isn't printed of these data.
fn write_data<T: Copy + Display>(rt: &impl Abort, text: &mut String, data: &MetricData<T>) {
    match data {
        MetricData::Gauge(gauge) => write_gauge(rt, text, gauge),
        MetricData::Sum(sum) => write_sum(rt, text, sum),
        MetricData::Histogram(histogram) => write_histogram(rt, text, histogram),
    }
}

/// Writes a line for a metric, and what it prints: one for each of its points.
fn write_metric(rt: &impl Abort, text: &mut String, metric: &Metric) {
    let name = metric.name();
    let description = metric.description();
    let unit = metric.unit();
    write!(text, "metric {name} ({description}) {unit} ").expect(rt, "memory");
    match metric.data() {
        AggregatedMetrics::U64(data) => {
            text.push_str("u64 ").expect(rt, "memory");
            write_data(rt, text, data);
        }
        AggregatedMetrics::I64(data) => {
            text.push_str("i64 ").expect(rt, "memory");
            write_data(rt, text, data);
        }
    }
    write!(text, "\n{metric}").expect(rt, "memory");
}

/// Writes a line for a scope, and those of its metrics.
fn write_scope(rt: &impl Abort, text: &mut String, metrics: &ScopeMetrics) {
    let scope = metrics.scope();
    let name = scope.name();
    let version = scope.version().unwrap_or("-");
    let url = scope.schema_url().unwrap_or("-");
    write!(text, "scope {name} {version} {url}").expect(rt, "memory");
    for attribute in scope.attributes() {
        write!(text, " {attribute}").expect(rt, "memory");
    }
    text.push_str("\n").expect(rt, "memory");
    for metric in metrics.metrics() {
        write_metric(rt, text, metric);
    }
}

/// Writes the lines of a collection.
pub fn write_collection(rt: &impl Abort, text: &mut String, collected: &ResourceMetrics) {
    text.push_str("resource ").expect(rt, "memory");
    write_resource(rt, text, collected.resource());
    text.push_str("\n").expect(rt, "memory");
    for metrics in collected.scope_metrics() {
        write_scope(rt, text, metrics);
    }
}

/// Asserts what a reader of a provider collects at a moment: the lines of the collection, or the number of the fault.
pub fn assert_collected<M: Metered>(
    rt: &impl Abort,
    alloc: Global,
    provider: &mut M,
    reader: usize,
    now: u64,
    wanted: &str,
) {
    let mut text = String::new(alloc);
    match provider.collection(reader, now) {
        Ok(collected) => write_collection(rt, &mut text, &collected),
        Err(fault) => {
            let number = fault.number();
            writeln!(text, "refused {number}").expect(rt, "memory");
        }
    }
    assert_text(rt, text.as_str(), wanted);
}
