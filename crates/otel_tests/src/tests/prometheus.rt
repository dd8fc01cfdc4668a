//! The texts of small collections, written by hand from the specification (Prometheus and OpenMetrics Compatibility).

use otel_common::attributes::KeyValue;
use otel_common::lists::{Items, SharedItems};
use otel_common::metrics::Temporality;
use otel_common::resource::Resource;
use otel_common::scopes::InstrumentationScope;
use otel_common::strings::StringValue;
use otel_data::aggregated::{AggregatedMetrics, MetricData};
use otel_data::collections::{Metric, ResourceMetrics, ScopeMetrics};
use otel_data::histograms::Histogram;
use otel_data::points::{HistogramDataPoint, SumDataPoint};
use otel_data::sums::Sum;
use otel_prometheus::expositions::{LeftOut, exposition_of};
use otel_prometheus::settings::Settings;
use otel_prometheus::text::formats::Format;
use otel_prometheus::writes::write;
use std::alloc::Global;
use std::process::Abort;

const NOTHING: LeftOut = LeftOut {
    delta: 0,
    conflicting: 0,
    doubled: 0,
};

/// The settings of Prometheus' own format.
const PLAIN: Settings = Settings {
    format: Format::Prometheus,
    has_scope_labels: true,
};

/// A metric to be collected.
#[derive(Drop)]
enum Given {
    /// A monotonic sum of this name and this unit, with a point for each of these keys, whose value is `x`. The numbers
    /// of the points count from 7.
    Sum(&'static str, &'static str, &'static [&'static str], Temporality),
    /// A cumulative histogram of the name `latency` in milliseconds, with these bounds and one point: three values, of
    /// which two are at most the first bound, with the sum 267, if sums are kept; and a label `le`.
    Histogram([i64; 2], bool),
}

/// A list of these items.
fn list_of<T, const N: usize>(rt: &impl Abort, alloc: Global, items: [T; N]) -> Vec<T> {
    Vec::from_array(alloc, items).expect(rt, "memory")
}

/// A shared list of one attribute.
fn one(rt: &impl Abort, alloc: Global, key: &str, text: &str) -> SharedItems<KeyValue> {
    let attribute = KeyValue::text(alloc, key, text).expect(rt, key);
    SharedItems::new(list_of(rt, alloc, [attribute])).expect(rt, key)
}

/// The points of a sum that is given.
fn sum(rt: &impl Abort, alloc: Global, keys: &[&str], temporality: Temporality) -> Sum<u64> {
    let mut points = Vec::new(alloc);
    let mut value = 7u64;
    for key in keys {
        let exemplars = Items::from(Vec::new(alloc));
        let point = SumDataPoint::new(one(rt, alloc, key, "x"), exemplars, value);
        points.push(point).expect(rt, key);
        value = value.wrapping_add(1);
    }
    Sum::new(Items::from(points), 100, 200, temporality, true)
}

/// The points of a histogram that is given.
fn histogram(rt: &impl Abort, alloc: Global, bounds: [i64; 2], has_sum: bool) -> Histogram<u64> {
    let point = HistogramDataPoint::new(
        one(rt, alloc, "le", "mine"),
        Items::from(Vec::new(alloc)),
        SharedItems::new(list_of(rt, alloc, bounds)).expect(rt, "memory"),
        Items::from(list_of(rt, alloc, [2, 0, 1])),
        3,
        Some(7),
        Some(250),
        267,
    );
    let points = Items::from(list_of(rt, alloc, [point]));
    Histogram::new(points, 100, 200, Temporality::Cumulative, has_sum)
}

/// The metric that is given, described by `"all" of` and `them` on two lines.
fn metric(rt: &impl Abort, alloc: Global, given: &Given) -> Metric {
    let (name, unit, content) = match given {
        Given::Sum(name, unit, keys, temporality) => {
            let sum = sum(rt, alloc, keys, *temporality);
            (*name, *unit, MetricData::from(sum))
        }
        Given::Histogram(bounds, has_sum) => {
            let histogram = histogram(rt, alloc, *bounds, *has_sum);
            ("latency", "ms", MetricData::from(histogram))
        }
    };
    Metric::new(
        StringValue::new(alloc, name).expect(rt, name),
        StringValue::new(alloc, "\"all\" of\nthem").expect(rt, name),
        StringValue::new(alloc, unit).expect(rt, name),
        content.into(),
    )
}

/// The collection of what is given, whose scope is `shop` in version 1.
fn collection(rt: &impl Abort, alloc: Global, given: &[Given]) -> ResourceMetrics {
    let name = String::from_str(alloc, "shop").expect(rt, "memory");
    let version = String::from_str(alloc, "1").expect(rt, "memory");
    let builder = InstrumentationScope::builder(alloc, name).with_version(version);
    let shop = builder.build().expect(rt, "memory");
    let mut metrics = Vec::new(alloc);
    for given in given {
        metrics.push(metric(rt, alloc, given)).expect(rt, "memory");
    }
    let scope = ScopeMetrics::new(shop, Items::from(metrics));
    let scopes = Items::from(list_of(rt, alloc, [scope]));
    ResourceMetrics::new(Resource::builder_empty(alloc).build(), scopes)
}

/// Asserts that a collection has this text, which leaves nothing out.
fn assert_text(
    rt: &impl Abort,
    alloc: Global,
    settings: Settings,
    collected: &ResourceMetrics,
    text: &str,
) {
    let found = exposition_of(alloc, settings, collected).expect(rt, text);
    let found_text = str::from_utf8(found.text.as_slice()).expect(rt, text);
    assert!(rt; found_text == text, "{found_text}");
    assert!(rt; found.left_out == NOTHING);
}

#[test]
fn a_monotonic_sum_is_a_counter(rt: HostRuntime) {
    let given = &[Given::Sum(
        "shop.sent",
        "By",
        &["path", "user.id"],
        Temporality::Cumulative,
    )];
    let text = "# HELP shop_sent_bytes_total \"all\" of\\nthem
# TYPE shop_sent_bytes_total counter
shop_sent_bytes_total{otel_scope_name=\"shop\",otel_scope_version=\"1\",path=\"x\"} 7
shop_sent_bytes_total{otel_scope_name=\"shop\",otel_scope_version=\"1\",user_id=\"x\"} 8
";
    let alloc = rt.alloc();
    assert_text(&rt, alloc, PLAIN, &collection(&rt, alloc, given), text);
}

#[test]
fn a_text_of_openmetrics_has_an_end(rt: HostRuntime) {
    let given = &[Given::Sum("sent_total", "By", &["path"], Temporality::Cumulative)];
    let text = "# HELP sent_bytes \\\"all\\\" of\\nthem
# TYPE sent_bytes counter
sent_bytes_total{path=\"x\"} 7
# EOF
";
    let settings = Settings {
        format: Format::OpenMetrics,
        has_scope_labels: false,
    };
    let alloc = rt.alloc();
    assert_text(&rt, alloc, settings, &collection(&rt, alloc, given), text);
}

#[test]
fn buckets_count_those_before_them(rt: HostRuntime) {
    let text = "# HELP latency_milliseconds \"all\" of\\nthem
# TYPE latency_milliseconds histogram
latency_milliseconds_bucket{exported_le=\"mine\",otel_scope_name=\"shop\",otel_scope_version=\"1\",le=\"10\"} 2
latency_milliseconds_bucket{exported_le=\"mine\",otel_scope_name=\"shop\",otel_scope_version=\"1\",le=\"100\"} 2
latency_milliseconds_bucket{exported_le=\"mine\",otel_scope_name=\"shop\",otel_scope_version=\"1\",le=\"+Inf\"} 3
latency_milliseconds_sum{exported_le=\"mine\",otel_scope_name=\"shop\",otel_scope_version=\"1\"} 267
latency_milliseconds_count{exported_le=\"mine\",otel_scope_name=\"shop\",otel_scope_version=\"1\"} 3
";
    let alloc = rt.alloc();
    let collected = collection(&rt, alloc, &[Given::Histogram([10, 100], true)]);
    assert_text(&rt, alloc, PLAIN, &collected, text);
}

/// Bounds past 2^53 that are one double have one bucket; without a sum OpenMetrics has no count.
#[test]
fn sums_and_bounds_that_are_left_out(rt: HostRuntime) {
    let alloc = rt.alloc();
    let bounds = [9007199254740992, 9007199254740993];
    let settings = Settings {
        format: Format::OpenMetrics,
        has_scope_labels: false,
    };
    let text = "# HELP latency_milliseconds \\\"all\\\" of\\nthem
# TYPE latency_milliseconds histogram
latency_milliseconds_bucket{exported_le=\"mine\",le=\"9007199254740993.0\"} 2
latency_milliseconds_bucket{exported_le=\"mine\",le=\"+Inf\"} 3
# EOF
";
    let collected = collection(&rt, alloc, &[Given::Histogram(bounds, false)]);
    assert_text(&rt, alloc, settings, &collected, text);
}

/// A name is made valid before `_total` is taken off: both counters are one family, and of two series that are one the
/// second is left out.
#[test]
fn totals_of_one_name_are_one_family(rt: HostRuntime) {
    let alloc = rt.alloc();
    let given = &[
        Given::Sum("sent.total", "", &["a"], Temporality::Cumulative),
        Given::Sum("sent_total", "", &["b"], Temporality::Cumulative),
    ];
    let text = "# HELP sent_total \"all\" of\\nthem
# TYPE sent_total counter
sent_total{a=\"x\",otel_scope_name=\"shop\",otel_scope_version=\"1\"} 7
sent_total{b=\"x\",otel_scope_name=\"shop\",otel_scope_version=\"1\"} 7
";
    assert_text(&rt, alloc, PLAIN, &collection(&rt, alloc, given), text);
}

/// A point with these attributes, whose value is 7.
fn point(rt: &impl Abort, alloc: Global, key: &str, text: &str) -> SumDataPoint<u64> {
    SumDataPoint::new(one(rt, alloc, key, text), Items::from(Vec::new(alloc)), 7)
}

/// The collection of a counter `sent` of a scope `shop` with a schema URL and attributes, with two points. Each has an
/// empty label alone, so both are the series of the scope's labels.
fn with_empty_label(rt: &impl Abort, alloc: Global) -> ResourceMetrics {
    let name = String::from_str(alloc, "shop").expect(rt, "memory");
    let url = String::from_str(alloc, "https://x").expect(rt, "memory");
    let team = KeyValue::text(alloc, "the.team", "b").expect(rt, "memory");
    let taken = KeyValue::text(alloc, "name", "c").expect(rt, "memory");
    let builder = InstrumentationScope::builder(alloc, name)
        .with_schema_url(url)
        .with_attributes(list_of(rt, alloc, [team, taken]));
    let scope = builder.build().expect(rt, "memory");
    let points = [point(rt, alloc, "k", ""), point(rt, alloc, "l", "")];
    let points = Items::from(list_of(rt, alloc, points));
    let sum = Sum::new(points, 100, 200, Temporality::Cumulative, true);
    let metric = Metric::new(
        StringValue::new(alloc, "sent").expect(rt, "memory"),
        StringValue::new(alloc, "").expect(rt, "memory"),
        StringValue::new(alloc, "").expect(rt, "memory"),
        MetricData::from(sum).into(),
    );
    let scope = ScopeMetrics::new(scope, Items::from(list_of(rt, alloc, [metric])));
    let scopes = Items::from(list_of(rt, alloc, [scope]));
    ResourceMetrics::new(Resource::builder_empty(alloc).build(), scopes)
}

#[test]
fn empty_labels_are_none(rt: HostRuntime) {
    let alloc = rt.alloc();
    let collected = with_empty_label(&rt, alloc);
    let found = exposition_of(alloc, PLAIN, &collected).expect(&rt, "a text");
    let text = "# TYPE sent_total counter
sent_total{otel_scope_name=\"shop\",otel_scope_schema_url=\"https://x\",otel_scope_the_team=\"b\"} 7
";
    assert!(rt; found.text.as_slice() == text.as_bytes());
    assert!(rt; found.left_out.doubled == 1);
}

const SEVEN: LeftOut = LeftOut {
    delta: 2,
    conflicting: 3,
    doubled: 2,
};

/// Metrics of which seven points are left out.
const SEVEN_TOO_MANY: &[Given] = &[
    Given::Sum("a.b", "", &["k", "c.d", "c_d"], Temporality::Cumulative),
    Given::Sum("late", "", &["k", "l"], Temporality::Delta),
    Given::Histogram([10, 100], true),
    Given::Sum("latency", "ms", &["k", "l", "m"], Temporality::Cumulative),
    Given::Sum("a_b_total", "", &["k"], Temporality::Cumulative),
];

#[test]
fn what_is_left_out_is_counted(rt: HostRuntime) {
    let alloc = rt.alloc();
    let collected = collection(&rt, alloc, SEVEN_TOO_MANY);
    let found = exposition_of(alloc, PLAIN, &collected).expect(&rt, "a text");
    assert!(rt; found.left_out == SEVEN);
}

#[test]
fn a_resource_is_a_target(rt: HostRuntime) {
    let alloc = rt.alloc();
    let name = KeyValue::text(alloc, "service.name", "a\\b").expect(&rt, "memory");
    let builder = Resource::builder_empty(alloc).with_attribute(name);
    let resource = builder.expect(&rt, "memory").build();
    let collected = ResourceMetrics::new(resource, Items::from(Vec::new(alloc)));
    let text = "# HELP target_info Target metadata
# TYPE target_info gauge
target_info{service_name=\"a\\\\b\"} 1
";
    assert_text(&rt, alloc, PLAIN, &collected, text);
}

#[test]
fn a_text_follows_what_was_written(rt: HostRuntime) {
    let alloc = rt.alloc();
    let collected = ResourceMetrics::default(alloc);
    let mut out = Vec::from_slice(alloc, b"# before\n").expect(&rt, "memory");
    let settings = Settings::new(Format::OpenMetrics);
    let left_out = write(alloc, &mut out, settings, &collected).expect(&rt, "a text");
    assert!(rt; left_out == NOTHING);
    assert!(rt; out.as_slice() == b"# before\n# EOF\n".as_slice());
}
