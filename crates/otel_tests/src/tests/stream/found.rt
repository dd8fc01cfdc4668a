//! Which instruments a selector is for, what a collection has at a place, and what gives its parts back.

use super::{assert_shows, attributes_of, list_of, string, string_value};
use otel_common::attributes::KeyValue;
use otel_common::faults::Fault;
use otel_common::lists::{Items, SharedItems};
use otel_common::metrics::Temporality;
use otel_common::resource::Resource;
use otel_common::scopes::InstrumentationScope;
use otel_data::aggregated::{AggregatedMetrics, MetricData};
use otel_data::collections::{Metric, ResourceMetrics, ScopeMetrics};
use otel_data::copies::canonical_sets;
use otel_data::gauges::Gauge;
use otel_data::histograms::Histogram;
use otel_data::points::{GaugeDataPoint, HistogramDataPoint, SumDataPoint};
use otel_data::sums::Sum;
use otel_stream::instrument::{Instrument, InstrumentKind};
use otel_stream::selector::{InstrumentSelector, SelectorView};
use otel_stream::stream::Stream;
use otel_stream::view::View;
use std::alloc::Global;
use std::process::Abort;

/// A counter of milliseconds of this name, of version 1.0 of the scope `shop`.
fn counter(rt: &impl Abort, alloc: Global, name: &str) -> Instrument {
    let shop = InstrumentationScope::builder(alloc, string(rt, alloc, "shop"));
    let shop = shop.with_version(string(rt, alloc, "1.0")).build();
    Instrument {
        name: string_value(rt, alloc, name),
        description: string_value(rt, alloc, ""),
        kind: InstrumentKind::Counter,
        unit: string_value(rt, alloc, "ms"),
        scope: shop.expect(rt, "memory"),
    }
}

/// Patterns and names, and whether the name fits (Metrics SDK, "Instrument selection criteria").
const PATTERNS: &[(&str, &str, bool)] = &[
    ("*", "http.size", true),
    ("http.size", "http.size", true),
    ("http.size", "HTTP.size", false),
    ("http.*.size", "http.a.b.size", true),
    ("http.*.size", "http.size", false),
    ("*.size", "http.sizes", false),
    ("*ab*ab", "xxabab", true),
    ("*ab*ab", "aba", false),
    ("a?c", "abc", true),
    ("a?c", "ac", false),
    ("a?c", "abbc", false),
    ("?*", "a", true),
    ("", "a", false),
];

#[test]
fn patterns_of_names(rt: HostRuntime) {
    let rt = &rt;
    let alloc = rt.alloc();
    for (pattern, name, fits) in PATTERNS {
        let selector = InstrumentSelector::any().with_name(alloc, pattern);
        let selected = selector.expect(rt, name).selects(&counter(rt, alloc, name));
        assert!(rt; selected == *fits, "{pattern} {name}");
    }
}

/// A selector with a criterion of this text.
fn asking(alloc: Global, criterion: &str, text: &str) -> Result<InstrumentSelector, Fault> {
    let any = InstrumentSelector::any();
    match criterion {
        "unit" => any.with_unit(alloc, text),
        "scope" => any.with_scope_name(alloc, text),
        "version" => any.with_scope_version(alloc, text),
        _ => any.with_scope_schema_url(alloc, text),
    }
}

const CRITERIA: &[(&str, &str, bool)] = &[
    ("unit", "ms", true),
    ("unit", "", false),
    ("scope", "shop", true),
    ("scope", "shops", false),
    ("version", "1.0", true),
    ("version", "1", false),
    ("schema URL", "", false),
];

/// Each criterion has to be met, and all of several.
#[test]
fn criteria_of_selectors(rt: HostRuntime) {
    let rt = &rt;
    let alloc = rt.alloc();
    let hits = counter(rt, alloc, "hits");
    assert!(rt; InstrumentSelector::any().selects(&hits));
    for (criterion, text, met) in CRITERIA {
        let selector = asking(alloc, criterion, text).expect(rt, "memory");
        assert!(rt; selector.selects(&hits) == *met, "{criterion} {text}");
        let gauges = selector.with_kind(InstrumentKind::Gauge);
        assert!(rt; !gauges.selects(&hits), "{criterion} {text}");
    }
    let counters = InstrumentSelector::any().with_kind(InstrumentKind::Counter);
    let stream = Stream::builder().build().expect(rt, "a stream");
    let view = SelectorView::new(counters, stream);
    let answer = view.match_inst(&hits).expect(rt, "memory");
    assert!(rt; answer.is_some());
}

/// The attributes of a point: `a` is 1 and `b` is 2.
fn place(rt: &impl Abort, alloc: Global) -> SharedItems<KeyValue> {
    let attributes = attributes_of(rt, alloc, &[("a", 1), ("b", 2)]);
    SharedItems::new(attributes).expect(rt, "memory")
}

fn sum(rt: &impl Abort, alloc: Global) -> AggregatedMetrics {
    let point = SumDataPoint::new(place(rt, alloc), Items::from(Vec::new(alloc)), 7_u64);
    let points = Items::from(list_of(rt, alloc, [point]));
    MetricData::from(Sum::new(points, 0, 1, Temporality::Cumulative, true)).into()
}

fn gauge(rt: &impl Abort, alloc: Global) -> AggregatedMetrics {
    let point = GaugeDataPoint::new(place(rt, alloc), Items::from(Vec::new(alloc)), -7_i64);
    let points = Items::from(list_of(rt, alloc, [point]));
    MetricData::from(Gauge::new(points, 0, 1)).into()
}

fn histogram(rt: &impl Abort, alloc: Global) -> AggregatedMetrics {
    let point: HistogramDataPoint<u64> = HistogramDataPoint::new(
        place(rt, alloc),
        Items::from(Vec::new(alloc)),
        SharedItems::new(Vec::new(alloc)).expect(rt, "memory"),
        Items::from(Vec::new(alloc)),
        3,
        None,
        None,
        44,
    );
    let points = Items::from(list_of(rt, alloc, [point]));
    MetricData::from(Histogram::new(points, 0, 1, Temporality::Delta, true)).into()
}

fn metric(rt: &impl Abort, alloc: Global, name: &str, data: AggregatedMetrics) -> Metric {
    Metric::new(
        string_value(rt, alloc, name),
        string_value(rt, alloc, "all"),
        string_value(rt, alloc, "1"),
        data,
    )
}

/// A collection of a sum, a gauge and a histogram of the scope without a name.
fn collection(rt: &impl Abort, alloc: Global) -> ResourceMetrics {
    let metrics = [
        metric(rt, alloc, "sum", sum(rt, alloc)),
        metric(rt, alloc, "gauge", gauge(rt, alloc)),
        metric(rt, alloc, "histogram", histogram(rt, alloc)),
    ];
    let metrics = Items::from(list_of(rt, alloc, metrics));
    let scope = ScopeMetrics::new(InstrumentationScope::default(alloc), metrics);
    let resource = Resource::builder_empty(alloc).build();
    ResourceMetrics::new(resource, Items::from(list_of(rt, alloc, [scope])))
}

/// Scopes, metrics and attributes, and the value and the count of the point.
const PLACES: &[(&str, &str, &[(&str, i64)], &str)] = &[
    ("", "sum", &[("a", 1), ("b", 2)], "(Some(U64(7)), None)"),
    ("", "gauge", &[("b", 2), ("a", 1)], "(Some(I64(-7)), None)"),
    ("", "histogram", &[("b", 2), ("a", 1)], "(None, Some(3))"),
    (
        "",
        "sum",
        &[("b", 2), ("a", 1), ("b", 3)],
        "(Some(U64(7)), None)",
    ),
    ("", "sum", &[("b", 3), ("a", 1), ("b", 2)], "(None, None)"),
    ("", "sum", &[("a", 1)], "(None, None)"),
    ("", "sum", &[("a", 1), ("b", 2), ("c", 3)], "(None, None)"),
    ("", "histogram", &[("a", 1), ("b", 1)], "(None, None)"),
    ("", "none", &[("a", 1), ("b", 2)], "(None, None)"),
    ("shop", "sum", &[("a", 1), ("b", 2)], "(None, None)"),
];

#[test]
fn values_and_counts(rt: HostRuntime) {
    let rt = &rt;
    let alloc = rt.alloc();
    canonical_sets();
    let collected = collection(rt, alloc);
    for (scope, name, pairs, text) in PLACES {
        let attributes = attributes_of(rt, alloc, pairs);
        let value = collected.value(scope, name, attributes.as_slice());
        let count = collected.count(scope, name, attributes.as_slice());
        assert_shows(rt, alloc, &(value, count), text);
    }
}

/// What a value was made of is given back.
#[test]
fn parts_are_given_back(rt: HostRuntime) {
    let rt = &rt;
    let alloc = rt.alloc();
    let (resource, scopes) = collection(rt, alloc).into_parts();
    assert!(rt; resource.is_empty());
    let scope = scopes.into_vec().pop().expect(rt, "a scope");
    let (scope, metrics) = scope.into_parts();
    assert!(rt; scope.name() == "");
    let last = metrics.into_vec().pop().expect(rt, "a metric");
    let (name, description, unit, data) = last.into_parts();
    let texts = (
        name.into_string(),
        description.into_string(),
        unit.into_string(),
    );
    assert_shows(rt, alloc, &texts, "(\"histogram\", \"all\", \"1\")");
    assert!(rt; matches!(&data, AggregatedMetrics::U64(_)));
    let attribute = KeyValue::int(alloc, "a", 1).expect(rt, "memory");
    let (key, value) = attribute.into_parts();
    assert_shows(rt, alloc, &(key.as_str(), &value), "(\"a\", I64(1))");
}

/// A sum comes back by number type and aggregation, and then what it was made of.
#[test]
fn sum_is_given_back(rt: HostRuntime) {
    let rt = &rt;
    let alloc = rt.alloc();
    let (unsigned, signed) = sum(rt, alloc).into_parts();
    assert!(rt; signed.is_none());
    let (gauge, sum, histogram) = unsigned.expect(rt, "unsigned").into_parts();
    assert!(rt; gauge.is_none() && histogram.is_none());
    let (points, start, time, temporality, is_monotonic) = sum.expect(rt, "a sum").into_parts();
    let settings = (start, time, temporality, is_monotonic);
    assert_shows(rt, alloc, &settings, "(0, 1, Cumulative, true)");
    let point = points.into_vec().pop().expect(rt, "a point");
    let (attributes, exemplars, value) = point.into_parts();
    assert!(rt; attributes.as_slice().len() == 2 && exemplars.as_slice().is_empty());
    assert_eq!(rt; value, 7);
}

#[test]
fn gauge_is_given_back(rt: HostRuntime) {
    let rt = &rt;
    let alloc = rt.alloc();
    let (unsigned, signed) = gauge(rt, alloc).into_parts();
    assert!(rt; unsigned.is_none());
    let (gauge, sum, histogram) = signed.expect(rt, "signed").into_parts();
    assert!(rt; sum.is_none() && histogram.is_none());
    let (points, start, time) = gauge.expect(rt, "a gauge").into_parts();
    assert_eq!(rt; (start, time), (0, 1));
    let point = points.into_vec().pop().expect(rt, "a point");
    let (attributes, exemplars, value) = point.into_parts();
    assert!(rt; attributes.as_slice().len() == 2 && exemplars.as_slice().is_empty());
    assert_eq!(rt; value, -7);
}

#[test]
fn histogram_is_given_back(rt: HostRuntime) {
    let rt = &rt;
    let alloc = rt.alloc();
    let (unsigned, _signed) = histogram(rt, alloc).into_parts();
    let (gauge, sum, histogram) = unsigned.expect(rt, "unsigned").into_parts();
    assert!(rt; gauge.is_none() && sum.is_none());
    let (points, start, time, temporality, has_sum) = histogram
        .expect(rt, "a histogram")
        .into_parts();
    let settings = (start, time, temporality, has_sum);
    assert_shows(rt, alloc, &settings, "(0, 1, Delta, true)");
    let point = points.into_vec().pop().expect(rt, "a point");
    let (attributes, exemplars, bounds, counts) = point.into_parts();
    assert!(rt; attributes.as_slice().len() == 2 && exemplars.as_slice().is_empty());
    assert!(rt; bounds.as_slice().is_empty() && counts.as_slice().is_empty());
}
