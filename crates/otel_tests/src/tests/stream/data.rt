//! Tests each getter, copy and comparison once.

use super::{are_distinct, assert_prints, assert_shows, list_of, string, string_value};
use otel_common::attributes::KeyValue;
use otel_common::lists::{Items, SharedItems};
use otel_common::metrics::Temporality;
use otel_common::resource::Resource;
use otel_common::scopes::InstrumentationScope;
use otel_data::aggregated::{AggregatedMetrics, MetricData};
use otel_data::collections::{Metric, ResourceMetrics, ScopeMetrics};
use otel_data::copies::{copied_collection, copied_points, equal_points, equal_signed_points};
use otel_data::exemplars::Exemplar;
use otel_data::gauges::Gauge;
use otel_data::histograms::Histogram;
use otel_data::points::{GaugeDataPoint, HistogramDataPoint, SumDataPoint};
use otel_data::sums::Sum;
use std::alloc::Global;
use std::process::Abort;

/// The attributes of the points.
fn place(rt: &impl Abort, alloc: Global) -> SharedItems<KeyValue> {
    let attribute = KeyValue::text(alloc, "key", "value").expect(rt, "memory");
    SharedItems::new(list_of(rt, alloc, [attribute])).expect(rt, "memory")
}

/// A list of one exemplar of this value.
fn exemplars<T: Drop>(rt: &impl Abort, alloc: Global, value: T) -> Items<Exemplar<T>> {
    let exemplar = Exemplar::new(Items::from(Vec::new(alloc)), 50, value, [1; 8], [2; 16]);
    let mut exemplars = Vec::new(alloc);
    exemplars.push(exemplar).expect(rt, "memory");
    Items::from(exemplars)
}

fn sum_point(rt: &impl Abort, alloc: Global, value: u64) -> SumDataPoint<u64> {
    SumDataPoint::new(place(rt, alloc), exemplars(rt, alloc, value), value)
}

fn gauge_point(rt: &impl Abort, alloc: Global, value: i64) -> GaugeDataPoint<i64> {
    GaugeDataPoint::new(place(rt, alloc), exemplars(rt, alloc, value), value)
}

/// A point of three values, from 2 to this one.
fn histogram_point(rt: &impl Abort, alloc: Global, greatest: u64) -> HistogramDataPoint<u64> {
    HistogramDataPoint::new(
        place(rt, alloc),
        exemplars(rt, alloc, greatest),
        SharedItems::new(list_of(rt, alloc, [-5, 10])).expect(rt, "memory"),
        Items::from(list_of(rt, alloc, [1, 0, 2])),
        3,
        Some(2),
        Some(greatest),
        44,
    )
}

#[test]
fn sum_points(rt: HostRuntime) {
    let rt = &rt;
    equal_points();
    let alloc = rt.alloc();
    let point = sum_point(rt, alloc, 7);
    let exemplar = point.exemplars().next().expect(rt, "an exemplar");
    let parts = (
        point.value(),
        point.attributes().count(),
        point.exemplars().count(),
        exemplar.value,
        exemplar.time(),
        exemplar.filtered_attributes(),
        exemplar.span_id(),
        exemplar.trace_id(),
    );
    let text = "(7, 1, 1, 7, 50, Iter([]), [1, 1, 1, 1, 1, 1, 1, 1], \
                [2, 2, 2, 2, 2, 2, 2, 2, 2, 2, 2, 2, 2, 2, 2, 2])";
    assert_shows(rt, alloc, &parts, text);
    let points = [point, sum_point(rt, alloc, 7), sum_point(rt, alloc, 8)];
    assert!(rt; are_distinct(&points));
}

#[test]
fn gauge_points(rt: HostRuntime) {
    let rt = &rt;
    equal_signed_points();
    let alloc = rt.alloc();
    let point = gauge_point(rt, alloc, -7);
    let parts = (
        point.value(),
        point.attributes().count(),
        point.exemplars().count(),
    );
    assert_shows(rt, alloc, &parts, "(-7, 1, 1)");
    let points = [point, gauge_point(rt, alloc, -7), gauge_point(rt, alloc, 7)];
    assert!(rt; are_distinct(&points));
}

#[test]
fn histogram_points(rt: HostRuntime) {
    let rt = &rt;
    let alloc = rt.alloc();
    let point = histogram_point(rt, alloc, 30);
    let parts = (
        point.attributes().count(),
        point.exemplars().count(),
        point.bounds(),
        point.bucket_counts(),
        point.count(),
        point.sum(),
        point.min(),
        point.max(),
    );
    let text = "(1, 1, Iter([-5, 10]), Iter([1, 0, 2]), 3, 44, Some(2), Some(30))";
    assert_shows(rt, alloc, &parts, text);
    let points = [
        point,
        histogram_point(rt, alloc, 30),
        histogram_point(rt, alloc, 31),
    ];
    assert!(rt; are_distinct(&points));
}

/// Points equal their copies, also one of no values.
#[test]
fn validate_cloning_data_points(rt: HostRuntime) {
    let rt = &rt;
    copied_points();
    let alloc = rt.alloc();
    let sum = sum_point(rt, alloc, 0);
    assert!(rt; sum.clone().expect(rt, "memory") == sum);
    let none: HistogramDataPoint<u64> = HistogramDataPoint::new(
        place(rt, alloc),
        exemplars(rt, alloc, 0),
        SharedItems::new(Vec::new(alloc)).expect(rt, "memory"),
        Items::from(Vec::new(alloc)),
        0,
        None,
        None,
        0,
    );
    assert!(rt; none.clone().expect(rt, "memory") == none);
}

/// The points of a sum, a gauge and a histogram, whose getters answer what was given.
fn contents(rt: &impl Abort, alloc: Global) -> [AggregatedMetrics; 3] {
    let points = Items::from(list_of(rt, alloc, [sum_point(rt, alloc, 7)]));
    let sum = Sum::new(points, 100, 200, Temporality::Delta, true);
    let points = Items::from(list_of(rt, alloc, [gauge_point(rt, alloc, -7)]));
    let gauge = Gauge::new(points, 300, 400);
    let points = Items::from(list_of(rt, alloc, [histogram_point(rt, alloc, 30)]));
    let histogram = Histogram::new(points, 500, 600, Temporality::LowMemory, true);
    let parts = (
        sum.data_points().count(),
        sum.start_time(),
        sum.time(),
        sum.temporality(),
        sum.is_monotonic(),
        gauge.data_points().count(),
        gauge.start_time(),
        gauge.time(),
        histogram.data_points().count(),
        histogram.start_time(),
        histogram.time(),
        (histogram.temporality(), histogram.has_sum()),
    );
    let text = "(1, 100, 200, Delta, true, 1, Some(300), 400, 1, 500, 600, (LowMemory, true))";
    assert_shows(rt, alloc, &parts, text);
    [
        MetricData::from(sum).into(),
        MetricData::from(gauge).into(),
        MetricData::from(histogram).into(),
    ]
}

/// A metric of this name.
fn metric(rt: &impl Abort, alloc: Global, name: &str, data: AggregatedMetrics) -> Metric {
    Metric::new(
        string_value(rt, alloc, name),
        string_value(rt, alloc, "all of them"),
        string_value(rt, alloc, "1"),
        data,
    )
}

/// A scope of this name.
fn scope_named(rt: &impl Abort, alloc: Global, name: &str) -> InstrumentationScope {
    let scope = InstrumentationScope::builder(alloc, string(rt, alloc, name)).build();
    scope.expect(rt, "memory")
}

/// A collection of a scope without a name, with three metrics, and of the scope `more`, with a histogram without sums.
fn collection(rt: &impl Abort, alloc: Global) -> ResourceMetrics {
    let [sum, gauge, histogram] = contents(rt, alloc);
    let metrics = [
        metric(rt, alloc, "sum", sum),
        metric(rt, alloc, "gauge", gauge),
        metric(rt, alloc, "histogram", histogram),
    ];
    let metrics = Items::from(list_of(rt, alloc, metrics));
    let scope = ScopeMetrics::new(InstrumentationScope::default(alloc), metrics);
    let points = Items::from(list_of(rt, alloc, [histogram_point(rt, alloc, 30)]));
    let more = Histogram::new(points, 700, 800, Temporality::Cumulative, false);
    let more = metric(rt, alloc, "more", MetricData::from(more).into());
    let more = ScopeMetrics::new(
        scope_named(rt, alloc, "more"),
        Items::from(list_of(rt, alloc, [more])),
    );
    let scopes = Items::from(list_of(rt, alloc, [scope, more]));
    ResourceMetrics::new(Resource::builder_empty(alloc).build(), scopes)
}

/// The parts of the collection: no attributes, two scopes, one metric in the second, no other, no name, three metrics,
/// the parts of the first, the others as they are found, and no other.
const PARTS: &str = "(true, (2, 1), None, \"\", 3, \"sum\", \"all of them\", \"1\", \
    U64(Sum(Sum { data_points: Items { items: [SumDataPoint { attributes: SharedItems { items: [KeyValue { \
    key: Key { name: StringValue { text: \"key\" } }, value: String(StringValue { text: \"value\" }) }] }, \
    exemplars: Items { items: [Exemplar { filtered_attributes: Items { items: [] }, time: 50, value: 7, \
    span_id: Id { bytes: [1, 1, 1, 1, 1, 1, 1, 1] }, \
    trace_id: Id { bytes: [2, 2, 2, 2, 2, 2, 2, 2, 2, 2, 2, 2, 2, 2, 2, 2] } }] }, value: 7 }] }, \
    start_time: 100, time: 200, temporality: Delta, is_monotonic: true })), \
    Some(Metric { name: StringValue { text: \"gauge\" }, \
    description: StringValue { text: \"all of them\" }, unit: StringValue { text: \"1\" }, \
    content: I64(Gauge(Gauge { data_points: Items { items: [GaugeDataPoint { attributes: SharedItems { items: [KeyValue { \
    key: Key { name: StringValue { text: \"key\" } }, value: String(StringValue { text: \"value\" }) }] }, \
    exemplars: Items { items: [Exemplar { filtered_attributes: Items { items: [] }, time: 50, value: -7, \
    span_id: Id { bytes: [1, 1, 1, 1, 1, 1, 1, 1] }, \
    trace_id: Id { bytes: [2, 2, 2, 2, 2, 2, 2, 2, 2, 2, 2, 2, 2, 2, 2, 2] } }] }, value: -7 }] }, \
    start_time: 300, time: 400 })) }), \
    Some(Metric { name: StringValue { text: \"histogram\" }, \
    description: StringValue { text: \"all of them\" }, unit: StringValue { text: \"1\" }, \
    content: U64(Histogram(Histogram { data_points: Items { items: [HistogramDataPoint { attributes: SharedItems { items: [KeyValue { \
    key: Key { name: StringValue { text: \"key\" } }, value: String(StringValue { text: \"value\" }) }] }, \
    exemplars: Items { items: [Exemplar { filtered_attributes: Items { items: [] }, time: 50, value: 30, \
    span_id: Id { bytes: [1, 1, 1, 1, 1, 1, 1, 1] }, \
    trace_id: Id { bytes: [2, 2, 2, 2, 2, 2, 2, 2, 2, 2, 2, 2, 2, 2, 2, 2] } }] }, \
    bounds: SharedItems { items: [-5, 10] }, bucket_counts: Items { items: [1, 0, 2] }, \
    count: 3, min: Some(2), max: Some(30), sum: 44 }] }, \
    start_time: 500, time: 600, temporality: LowMemory, has_sum: true })) }), \
    None)";

/// Asserts that a collection has its parts: a scope without a name and, in it, three metrics, which are found by their
/// names.
fn assert_collection(rt: &impl Abort, alloc: Global, all: &ResourceMetrics) {
    let scope = all.scope("").expect(rt, "the scope");
    let more = all.scope("more").expect(rt, "the second scope");
    let sum = scope.metric("sum").expect(rt, "the sum");
    let parts = (
        all.resource().is_empty(),
        (all.scope_metrics().count(), more.metrics().count()),
        all.scope("other"),
        scope.scope().name(),
        scope.metrics().count(),
        sum.name(),
        sum.description(),
        sum.unit(),
        sum.data(),
        scope.metric("gauge"),
        scope.metric("histogram"),
        scope.metric("other"),
    );
    assert_shows(rt, alloc, &parts, PARTS);
    assert_prints(rt, alloc, sum, "sum key=value: 7\n");
    assert_prints(rt, alloc, scope, FIRST);
    assert_prints(rt, alloc, more, "more key=value: count 3 buckets 1 0 2\n");
}

/// What the first scope prints.
const FIRST: &str = "sum key=value: 7\n\
     gauge key=value: -7\n\
     histogram key=value: count 3 sum 44 buckets 1 0 2\n";

/// A collection and its copy have the same parts, and print a line for each point of each scope.
#[test]
fn collections(rt: HostRuntime) {
    let rt = &rt;
    copied_collection();
    let alloc = rt.alloc();
    let all = collection(rt, alloc);
    assert_collection(rt, alloc, &all);
    assert_collection(rt, alloc, &all.clone().expect(rt, "memory"));
    let lines = "sum key=value: 7\n\
                 gauge key=value: -7\n\
                 histogram key=value: count 3 sum 44 buckets 1 0 2\n\
                 more key=value: count 3 buckets 1 0 2\n";
    assert_prints(rt, alloc, &all, lines);
}

#[test]
fn defaults_are_empty(rt: HostRuntime) {
    let alloc = rt.alloc();
    let all = ResourceMetrics::default(alloc);
    let scope = ScopeMetrics::default(alloc);
    let parts = (
        all.scope_metrics().count(),
        all.resource().is_empty(),
        all.resource().len(),
        all.resource().schema_url(),
        scope.metrics().count(),
        scope.scope().name(),
    );
    assert_shows(&rt, alloc, &parts, "(0, true, 0, None, 0, \"\")");
}
