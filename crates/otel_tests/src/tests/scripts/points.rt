//! The lines of points, for each aggregation and number type.

use super::assert_text;
use metrics_script::points::write_metric;
use opentelemetry_sdk::common::{Items, Key, KeyValue, SharedItems, StringValue, Value};
use opentelemetry_sdk::metrics::Temporality;
use opentelemetry_sdk::metrics::data::{
    AggregatedMetrics, Gauge, GaugeDataPoint, Histogram, HistogramDataPoint, Metric, MetricData,
    Sum, SumDataPoint,
};
use std::alloc::Global;
use std::process::Abort;

/// The set of the attribute `a` with the value 1.
fn set_of(rt: &impl Abort, alloc: Global) -> SharedItems<KeyValue> {
    let key = Key::new(alloc, "a").expect(rt, "a key");
    let attribute = KeyValue::new(key, Value::I64(1));
    let attributes = vec![in alloc; attribute].expect(rt, "an attribute");
    SharedItems::new(attributes).expect(rt, "a set")
}

/// Asserts that the points of a metric named `m` of the scope `s` are printed as this line.
fn assert_line(rt: &impl Abort, alloc: Global, data: AggregatedMetrics, line: &str) {
    let name = StringValue::new(alloc, "m").expect(rt, line);
    let description = StringValue::new(alloc, "").expect(rt, line);
    let unit = StringValue::new(alloc, "").expect(rt, line);
    let metric = Metric::new(name, description, unit, data);
    let mut output = Vec::new(alloc);
    write_metric(&mut output, "s", &metric).expect(rt, line);
    assert_text(rt, line, output.as_slice(), line);
}

#[test]
fn gauges(rt: HostRuntime) {
    let alloc = rt.alloc();
    let point = GaugeDataPoint::new(set_of(&rt, alloc), Items::from(Vec::new(alloc)), 7u64);
    let points = vec![in alloc; point].expect(&rt, "a point");
    let gauge = Gauge::new(Items::from(points), 1, 2);
    let data = AggregatedMetrics::from(MetricData::from(gauge));
    assert_line(&rt, alloc, data, "point s m gauge 1 2 a=i:1 7\n");
    let point = GaugeDataPoint::new(set_of(&rt, alloc), Items::from(Vec::new(alloc)), -7i64);
    let points = vec![in alloc; point].expect(&rt, "a point");
    let gauge = Gauge::new(Items::from(points), 1, 2);
    let data = AggregatedMetrics::from(MetricData::from(gauge));
    assert_line(&rt, alloc, data, "point s m gauge 1 2 a=i:1 -7\n");
}

#[test]
fn sums(rt: HostRuntime) {
    let alloc = rt.alloc();
    let point = SumDataPoint::new(set_of(&rt, alloc), Items::from(Vec::new(alloc)), -7i64);
    let points = vec![in alloc; point].expect(&rt, "a point");
    let sum = Sum::new(Items::from(points), 1, 2, Temporality::Delta, false);
    let data = AggregatedMetrics::from(MetricData::from(sum));
    assert_line(&rt, alloc, data, "point s m sum delta plain 1 2 a=i:1 -7\n");
}

#[test]
fn histograms(rt: HostRuntime) {
    let alloc = rt.alloc();
    let none = Items::from(Vec::new(alloc));
    let bounds = [5i64].to_vec(alloc).expect(&rt, "a bound");
    let bounds = SharedItems::new(bounds).expect(&rt, "bounds");
    let counts = Items::from([1u64, 2].to_vec(alloc).expect(&rt, "counts"));
    let (least, greatest) = (Some(4u64), Some(9));
    let set = set_of(&rt, alloc);
    let point = HistogramDataPoint::new(set, none, bounds, counts, 3, least, greatest, 20);
    let points = vec![in alloc; point].expect(&rt, "a point");
    let histogram = Histogram::new(Items::from(points), 1, 2, Temporality::Cumulative, true);
    let data = AggregatedMetrics::from(MetricData::from(histogram));
    let line = "point s m histogram cumulative 1 2 a=i:1 3 20 4 9 1,2\n";
    assert_line(&rt, alloc, data, line);
}

#[test]
fn empty_histograms(rt: HostRuntime) {
    let alloc = rt.alloc();
    let none = Items::from(Vec::new(alloc));
    let bounds = SharedItems::new(Vec::new(alloc)).expect(&rt, "bounds");
    let counts = Items::from(Vec::new(alloc));
    let set = set_of(&rt, alloc);
    let point = HistogramDataPoint::new(set, none, bounds, counts, 1, None, None, -5i64);
    let points = vec![in alloc; point].expect(&rt, "a point");
    let histogram = Histogram::new(Items::from(points), 1, 2, Temporality::Delta, true);
    let data = AggregatedMetrics::from(MetricData::from(histogram));
    assert_line(
        &rt,
        alloc,
        data,
        "point s m histogram delta 1 2 a=i:1 1 -5 none none -\n",
    );
}
