//! What a script collects but doesn't print: scopes, and of each metric the number type, the description, the unit,
//! whether sums are kept, and the bounds.

use super::assert_text;
use metrics_script::script::replies_to;
use opentelemetry_sdk::metrics::data::{AggregatedMetrics, Metric, MetricData, ResourceMetrics};
use opentelemetry_sdk::metrics::provider::Reply;
use std::alloc::{AllocError, Global};
use std::process::Abort;

/// The number of points.
fn points_of<T>(data: &MetricData<T>) -> usize {
    match data {
        MetricData::Gauge(gauge) => gauge.data_points().len(),
        MetricData::Sum(sum) => sum.data_points().len(),
        MetricData::Histogram(histogram) => histogram.data_points().len(),
    }
}

/// Writes the number type, how many points there are, and of a histogram whether it keeps sums, and the bounds of each
/// point.
fn write_data<T>(text: &mut String, number: &str, data: &MetricData<T>) -> Result<(), AllocError> {
    let points = points_of(data);
    write!(text, " {number} points={points}")?;
    if let MetricData::Histogram(histogram) = data {
        write!(text, " sums={}", histogram.has_sum())?;
        for point in histogram.data_points() {
            write!(text, " bounds={:?}", point.bounds().as_slice())?;
        }
    }
    writeln!(text)
}

/// Writes a line for a metric.
fn write_metric(text: &mut String, metric: &Metric) -> Result<(), AllocError> {
    let name = metric.name();
    let description = metric.description();
    let unit = metric.unit();
    write!(text, "metric {name} description={description} unit={unit}")?;
    match metric.data() {
        AggregatedMetrics::U64(data) => write_data(text, "u64", data),
        AggregatedMetrics::I64(data) => write_data(text, "i64", data),
    }
}

/// Writes a line for a collection, one for each of its scopes, and one for each metric.
fn write_collection(text: &mut String, collected: &ResourceMetrics) -> Result<(), AllocError> {
    let attributes = collected.resource().len();
    let url = collected.resource().schema_url();
    writeln!(text, "resource {url:?} attributes={attributes}")?;
    for metrics in collected.scope_metrics() {
        let scope = metrics.scope();
        let name = scope.name();
        let version = scope.version();
        let url = scope.schema_url();
        let attributes = scope.attributes().len();
        writeln!(
            text,
            "scope {name} {version:?} {url:?} attributes={attributes}"
        )?;
        for metric in metrics.metrics() {
            write_metric(text, metric)?;
        }
    }
    Ok(())
}

/// Asserts that these lines say what the script collects besides what it prints.
pub fn assert_collects(rt: &impl Abort, alloc: Global, script: &str, lines: &str) {
    let replies = replies_to(alloc, script.as_bytes()).expect(rt, script);
    let mut text = String::new(alloc);
    for reply in replies.as_slice() {
        if let Reply::Collected(collected) = reply {
            write_collection(&mut text, collected).expect(rt, script);
        }
    }
    assert_text(rt, script, text.as_bytes(), lines);
}

/// Whether a metric has points.
fn has_points(metric: &Metric) -> bool {
    match metric.data() {
        AggregatedMetrics::U64(data) => points_of(data) > 0,
        AggregatedMetrics::I64(data) => points_of(data) > 0,
    }
}

/// Asserts that no scope of the collection is without metrics, and no metric without points.
fn assert_has_points(rt: &impl Abort, name: &str, collected: &ResourceMetrics) {
    for scope in collected.scope_metrics() {
        assert!(rt; scope.metrics().len() > 0, "{name}");
        assert!(rt; scope.metrics().all(has_points), "{name}");
    }
}

/// Asserts that no collection of the script has a scope without metrics or a metric without points.
pub fn assert_is_full(rt: &impl Abort, alloc: Global, name: &str, script: &str) {
    let replies = replies_to(alloc, script.as_bytes()).expect(rt, name);
    for reply in replies.as_slice() {
        if let Reply::Collected(collected) = reply {
            assert_has_points(rt, name, collected);
        }
    }
}
