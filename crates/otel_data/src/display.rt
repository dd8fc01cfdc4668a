//! How a collection is printed, for logs and messages: a line for each point.

use crate::aggregated::{AggregatedMetrics, MetricData};
use crate::collections::{Metric, ResourceMetrics, ScopeMetrics};
use crate::points::HistogramDataPoint;
use otel_common::attributes::KeyValue;
use std::fmt::{Display, Formatter, Result, Write};
use std::slice::Iter;

/// Prints a line: the name of a metric, the attributes of a point, and what the point says.
fn write_line<W: Write, D: Display>(
    f: &mut Formatter<W>,
    name: &str,
    attributes: Iter<'_, KeyValue>,
    said: &D,
) -> Result {
    f.write_str(name)?;
    for attribute in attributes {
        write!(f, " {attribute}")?;
    }
    writeln!(f, ": {said}")
}

/// What the point of a histogram says.
#[derive(Drop)]
struct Buckets<'a, T> {
    point: &'a HistogramDataPoint<T>,
    has_sum: bool,
}

impl<'a, T: Copy + Display> Display for Buckets<'a, T> {
    /// How many records there are, their sum if one is kept, and how many fell into each bucket.
    fn fmt<W: Write>(&self, f: &mut Formatter<W>) -> Result {
        let point = self.point;
        write!(f, "count {}", point.count())?;
        if self.has_sum {
            write!(f, " sum {}", point.sum())?;
        }
        f.write_str(" buckets")?;
        for count in point.bucket_counts() {
            write!(f, " {count}")?;
        }
        Ok(())
    }
}

/// Prints a line for each point of a metric.
fn write_points<W: Write, T: Copy + Display>(
    f: &mut Formatter<W>,
    name: &str,
    data: &MetricData<T>,
) -> Result {
    match data {
        MetricData::Gauge(gauge) => {
            for point in gauge.data_points() {
                write_line(f, name, point.attributes(), &point.value())?;
            }
        }
        MetricData::Sum(sum) => {
            for point in sum.data_points() {
                write_line(f, name, point.attributes(), &point.value())?;
            }
        }
        MetricData::Histogram(histogram) => {
            let has_sum = histogram.has_sum();
            for point in histogram.data_points() {
                write_line(f, name, point.attributes(), &Buckets { point, has_sum })?;
            }
        }
    }
    Ok(())
}

impl Display for Metric {
    /// A line for each point: the name of the metric, the attributes, and the value, or the count, the sum (if one is
    /// kept) and the buckets of a histogram.
    fn fmt<W: Write>(&self, f: &mut Formatter<W>) -> Result {
        match self.data() {
            AggregatedMetrics::U64(data) => write_points(f, self.name(), data),
            AggregatedMetrics::I64(data) => write_points(f, self.name(), data),
        }
    }
}

impl Display for ScopeMetrics {
    /// The lines of its metrics.
    fn fmt<W: Write>(&self, f: &mut Formatter<W>) -> Result {
        for metric in self.metrics() {
            write!(f, "{metric}")?;
        }
        Ok(())
    }
}

impl Display for ResourceMetrics {
    /// The lines of its scopes.
    fn fmt<W: Write>(&self, f: &mut Formatter<W>) -> Result {
        for scope in self.scope_metrics() {
            write!(f, "{scope}")?;
        }
        Ok(())
    }
}
