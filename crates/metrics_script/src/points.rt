//! What a script prints for the points of a metric.

use crate::printing::{write_attributes, write_name};
use opentelemetry_sdk::common::KeyValue;
use opentelemetry_sdk::metrics::Temporality;
use opentelemetry_sdk::metrics::data::{
    AggregatedMetrics, Gauge, Histogram, HistogramDataPoint, Metric, MetricData, ResourceMetrics,
    ScopeMetrics, Sum,
};
use std::fmt::Display;
use std::io;
use std::io::Write;
use std::slice::Iter;

/// The metric whose points are printed, and its scope.
#[derive(Clone, Copy)]
struct Heading<'a> {
    scope: &'a str,
    name: &'a str,
}

/// Prints the points of one metric of this scope, a line for each. The first error of `output` ends that, and is returned.
pub fn write_metric<W: Write>(output: &mut W, scope: &str, metric: &Metric) -> io::Result<()> {
    let heading = Heading {
        scope,
        name: metric.name(),
    };
    match metric.data() {
        AggregatedMetrics::U64(points) => write_points(output, heading, points),
        AggregatedMetrics::I64(points) => write_points(output, heading, points),
    }
}

/// Prints the points of a metric, which are of one number type.
fn write_points<W: Write, T: Copy + Display>(
    output: &mut W,
    heading: Heading<'_>,
    points: &MetricData<T>,
) -> io::Result<()> {
    match points {
        MetricData::Gauge(gauge) => write_gauge(output, heading, gauge),
        MetricData::Sum(sum) => write_sum(output, heading, sum),
        MetricData::Histogram(histogram) => write_histogram(output, heading, histogram),
    }
}

/// Prints the points of a gauge.
fn write_gauge<W: Write, T: Copy + Display>(
    output: &mut W,
    heading: Heading<'_>,
    gauge: &Gauge<T>,
) -> io::Result<()> {
    let start = gauge.start_time().unwrap_or(0);
    let time = gauge.time();
    for point in gauge.data_points() {
        write_heading(output, heading)?;
        write!(output, " gauge {start} {time} ")?;
        write_value(output, point.attributes(), point.value())?;
    }
    Ok(())
}

/// Prints the points of a sum.
fn write_sum<W: Write, T: Copy + Display>(
    output: &mut W,
    heading: Heading<'_>,
    sum: &Sum<T>,
) -> io::Result<()> {
    let temporality = temporality_word(sum.temporality());
    let monotonic = if sum.is_monotonic() {
        "monotonic"
    } else {
        "plain"
    };
    let start = sum.start_time();
    let time = sum.time();
    for point in sum.data_points() {
        write_heading(output, heading)?;
        write!(output, " sum {temporality} {monotonic} {start} {time} ")?;
        write_value(output, point.attributes(), point.value())?;
    }
    Ok(())
}

/// Prints the points of a histogram.
fn write_histogram<W: Write, T: Copy + Display>(
    output: &mut W,
    heading: Heading<'_>,
    histogram: &Histogram<T>,
) -> io::Result<()> {
    let temporality = temporality_word(histogram.temporality());
    let start = histogram.start_time();
    let time = histogram.time();
    for point in histogram.data_points() {
        write_heading(output, heading)?;
        write!(output, " histogram {temporality} {start} {time} ")?;
        write_attributes(output, point.attributes())?;
        write_spread(output, point)?;
    }
    Ok(())
}

/// Prints what a point of a histogram has besides its attributes, and ends the line.
fn write_spread<W: Write, T: Copy + Display>(
    output: &mut W,
    point: &HistogramDataPoint<T>,
) -> io::Result<()> {
    let count = point.count();
    let sum = point.sum();
    write!(output, " {count} {sum} ")?;
    write_or_none(output, point.min())?;
    write_or_none(output, point.max())?;
    write_counts(output, point.bucket_counts())?;
    writeln!(output)
}

/// Prints a number, or `none` if there is none, and a space.
fn write_or_none<W: Write, T: Copy + Display>(output: &mut W, number: Option<T>) -> io::Result<()> {
    match number {
        Some(number) => write!(output, "{number} "),
        None => write!(output, "none "),
    }
}

/// Prints the counts of buckets, joined by commas, or a hyphen if there are none.
fn write_counts<W: Write>(output: &mut W, counts: Iter<'_, u64>) -> io::Result<()> {
    if counts.len() == 0 {
        return write!(output, "-");
    }
    for (index, count) in counts.enumerate() {
        if index > 0 {
            write!(output, ",")?;
        }
        write!(output, "{count}")?;
    }
    Ok(())
}

/// Prints the word `point`, the scope and the name.
fn write_heading<W: Write>(output: &mut W, heading: Heading<'_>) -> io::Result<()> {
    write!(output, "point ")?;
    write_name(output, heading.scope)?;
    write!(output, " ")?;
    write_name(output, heading.name)
}

/// Prints attributes and a value, and ends the line.
fn write_value<W: Write, T: Copy + Display>(
    output: &mut W,
    attributes: Iter<'_, KeyValue>,
    value: T,
) -> io::Result<()> {
    write_attributes(output, attributes)?;
    writeln!(output, " {value}")
}

/// Returns the word for how points relate to those of the collection before.
fn temporality_word(temporality: Temporality) -> &'static str {
    match temporality {
        Temporality::Cumulative => "cumulative",
        Temporality::Delta => "delta",
        Temporality::LowMemory => "lowmemory",
    }
}

/// Counts the points of a collection.
pub(crate) fn count_points(collected: &ResourceMetrics) -> usize {
    let mut count = 0usize;
    for scope in collected.scope_metrics() {
        count = count.saturating_add(count_scope(scope));
    }
    count
}

/// Counts the points of a scope.
fn count_scope(scope: &ScopeMetrics) -> usize {
    let mut count = 0usize;
    for metric in scope.metrics() {
        count = count.saturating_add(count_metric(metric));
    }
    count
}

/// Counts the points of a metric.
fn count_metric(metric: &Metric) -> usize {
    match metric.data() {
        AggregatedMetrics::U64(points) => count_data(points),
        AggregatedMetrics::I64(points) => count_data(points),
    }
}

/// Counts points of one number type.
fn count_data<T>(points: &MetricData<T>) -> usize {
    match points {
        MetricData::Gauge(gauge) => gauge.data_points().len(),
        MetricData::Sum(sum) => sum.data_points().len(),
        MetricData::Histogram(histogram) => histogram.data_points().len(),
    }
}
