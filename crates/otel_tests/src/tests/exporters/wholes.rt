//! One collection in each format, whole.

use super::{Seen, gauge, histogram, metric, sum};
use otel_common::attributes::{Array, KeyValue, Value};
use otel_common::faults::Fault;
use otel_common::keys::Key;
use otel_common::lists::Items;
use otel_common::metrics::Temporality;
use otel_common::resource::Resource;
use otel_common::scopes::InstrumentationScope;
use otel_common::strings::StringValue;
use otel_data::collections::{Metric, ResourceMetrics, ScopeMetrics};
use otel_otlp::requests::request_line;
use otel_prometheus::expositions::{LeftOut, exposition_of};
use otel_prometheus::settings::Settings;
use otel_prometheus::text::formats::Format;
use std::alloc::{AllocError, Global};

/// A resource with a schema and two attributes.
fn resource(alloc: Global) -> Result<Resource, Fault> {
    let url = String::from_str(alloc, "https://r/1")?;
    let attributes = vec![in alloc;
        KeyValue::int(alloc, "cores", 8)?,
        KeyValue::text(alloc, "service.name", "shop")?,
    ]?;
    let builder = Resource::builder_empty(alloc).with_schema_url(attributes, url)?;
    Ok(builder.build())
}

/// The scope `shop` with a version, a schema and attributes, of which two have the names of labels for other parts.
fn shop(alloc: Global) -> Result<InstrumentationScope, Fault> {
    let attributes = vec![in alloc;
        KeyValue::text(alloc, "schema_url", "mine")?,
        KeyValue::text(alloc, "the.team", "cart")?,
        KeyValue::text(alloc, "version", "mine")?,
    ]?;
    InstrumentationScope::builder(alloc, String::from_str(alloc, "shop")?)
        .with_version(String::from_str(alloc, "1.0")?)
        .with_schema_url(String::from_str(alloc, "https://s/2")?)
        .with_attributes(attributes)
        .build()
}

/// Sums of each number type, of either temporality.
fn sums(alloc: Global) -> Result<Vec<Metric>, Fault> {
    let requests = [
        ("", 7u64),
        ("/a", 9223372036854775807),
        ("/b", 9223372036854775808),
        ("/c", 18446744073709551615),
    ];
    let waiting = [("", -3i64), ("/a", -9223372036854775808)];
    let cumulative = Temporality::Cumulative;
    let delta = Temporality::Delta;
    let requests = sum(alloc, &requests, cumulative, true)?;
    let sent = sum(alloc, &[("", 5u64)], delta, true)?;
    let queue = sum(alloc, &waiting, cumulative, false)?;
    let moved = sum(alloc, &[("", -5i64)], delta, false)?;
    let about = "Those \"served\"\nby path\\host";
    Ok(vec![in alloc;
        metric(alloc, ("requests.total", about, "1"), requests.into())?,
        metric(alloc, ("sent", "", "By"), sent.into())?,
        metric(alloc, ("queue", "", "{order}"), queue.into())?,
        metric(alloc, ("moved", "", ""), moved.into())?,
    ]?)
}

/// Histograms with and without a sum, extremes and bounds. `swings` has values of a type that may fall, and `below` a
/// bound below 0, so that no text has their sums.
fn histograms(alloc: Global) -> Result<Vec<Metric>, Fault> {
    let latency = Seen {
        count: 3,
        least: Some(7u64),
        greatest: Some(250),
        sum: 267,
    };
    let size = Seen {
        count: 2,
        least: None,
        greatest: None,
        sum: 18446744073709551615u64,
    };
    let levels = Seen {
        count: 3,
        least: Some(-9i64),
        greatest: Some(4),
        sum: 0,
    };
    let swings = Seen {
        count: 1,
        least: None,
        greatest: None,
        sum: -10i64,
    };
    let below = Seen {
        count: 2,
        least: None,
        greatest: None,
        sum: 9u64,
    };
    let cumulative = Temporality::Cumulative;
    let latency = histogram(alloc, &[10, 100], &[2, 0, 1], latency, cumulative, true)?;
    let size = histogram(alloc, &[], &[], size, Temporality::Delta, true)?;
    let levels = histogram(alloc, &[-5, 0], &[1, 1, 1], levels, cumulative, false)?;
    let swings = histogram(alloc, &[0, 5], &[1, 0, 0], swings, cumulative, true)?;
    let below = histogram(alloc, &[-5], &[0, 2], below, cumulative, true)?;
    Ok(vec![in alloc;
        metric(alloc, ("latency", "Time taken", "ms"), latency.into())?,
        metric(alloc, ("size", "", "KiBy"), size.into())?,
        metric(alloc, ("levels", "", ""), levels.into())?,
        metric(alloc, ("swings", "", ""), swings.into())?,
        metric(alloc, ("below", "", ""), below.into())?,
    ]?)
}

/// Attributes of each type of value.
fn of_each_type(alloc: Global) -> Result<Vec<KeyValue>, Fault> {
    let flags = Array::Bool(Items::from(vec![in alloc; true, false]?));
    let numbers = Array::I64(Items::from(vec![in alloc; -1, 9223372036854775807]?));
    let texts = vec![in alloc;
        StringValue::new(alloc, "a")?,
        StringValue::new(alloc, "b\"")?,
    ]?;
    let texts = Array::String(Items::from(texts));
    Ok(vec![in alloc;
        KeyValue::int(alloc, "a.int", -9223372036854775808)?,
        KeyValue::text(alloc, "le", "mine")?,
        KeyValue::bool(alloc, "no", false)?,
        KeyValue::bool(alloc, "ok", true)?,
        KeyValue::text(alloc, "t", "C:\\\"é\"\n")?,
        KeyValue::new(Key::new(alloc, "u")?, Value::Array(flags)),
        KeyValue::new(Key::new(alloc, "v")?, Value::Array(numbers)),
        KeyValue::new(Key::new(alloc, "w")?, Value::Array(texts)),
    ]?)
}

/// Gauges of each number type.
fn gauges(alloc: Global) -> Result<Vec<Metric>, Fault> {
    let heat = gauge(alloc, of_each_type(alloc)?, -40i64)?;
    let share = gauge(alloc, Vec::new(alloc), 9223372036854775808u64)?;
    Ok(vec![in alloc;
        metric(alloc, ("heat", "", "Cel"), heat.into())?,
        metric(alloc, ("share", "", "1"), share.into())?,
    ]?)
}

/// The collection.
fn collection(alloc: Global) -> Result<ResourceMetrics, Fault> {
    let bare = InstrumentationScope::builder(alloc, String::from_str(alloc, "bar")?).build()?;
    let other = InstrumentationScope::default(alloc);
    let scopes = vec![in alloc;
        ScopeMetrics::new(shop(alloc)?, Items::from(sums(alloc)?)),
        ScopeMetrics::new(bare, Items::from(gauges(alloc)?)),
        ScopeMetrics::new(other, Items::from(histograms(alloc)?)),
    ]?;
    Ok(ResourceMetrics::new(resource(alloc)?, Items::from(scopes)))
}

/// The collection as a request.
const REQUEST: &str = r#"{"resourceMetrics":[{
"resource":{"attributes":[{"key":"cores","value":{"intValue":"8"}},{"key":"service.name","value":{"stringValue":"shop"}}]},
"scopeMetrics":[
{"scope":{"name":"shop","version":"1.0","attributes":[
{"key":"schema_url","value":{"stringValue":"mine"}},
{"key":"the.team","value":{"stringValue":"cart"}},
{"key":"version","value":{"stringValue":"mine"}}
]},
"metrics":[
{"name":"requests.total","description":"Those \"served\"\nby path\\host","unit":"1","sum":{"dataPoints":[
{"attributes":[],"startTimeUnixNano":"1700000100000000000","timeUnixNano":"1700000200123456789","asInt":"7"},
{"attributes":[{"key":"path","value":{"stringValue":"/a"}}],
"startTimeUnixNano":"1700000100000000000","timeUnixNano":"1700000200123456789","asInt":"9223372036854775807"},
{"attributes":[{"key":"path","value":{"stringValue":"/b"}}],
"startTimeUnixNano":"1700000100000000000","timeUnixNano":"1700000200123456789","asDouble":9223372036854775808},
{"attributes":[{"key":"path","value":{"stringValue":"/c"}}],
"startTimeUnixNano":"1700000100000000000","timeUnixNano":"1700000200123456789","asDouble":18446744073709551615}
],"aggregationTemporality":2,"isMonotonic":true}},
{"name":"sent","description":"","unit":"By","sum":{"dataPoints":[
{"attributes":[],"startTimeUnixNano":"1700000100000000000","timeUnixNano":"1700000200123456789","asInt":"5"}
],"aggregationTemporality":1,"isMonotonic":true}},
{"name":"queue","description":"","unit":"{order}","sum":{"dataPoints":[
{"attributes":[],"startTimeUnixNano":"1700000100000000000","timeUnixNano":"1700000200123456789","asInt":"-3"},
{"attributes":[{"key":"path","value":{"stringValue":"/a"}}],
"startTimeUnixNano":"1700000100000000000","timeUnixNano":"1700000200123456789","asInt":"-9223372036854775808"}
],"aggregationTemporality":2,"isMonotonic":false}},
{"name":"moved","description":"","unit":"","sum":{"dataPoints":[
{"attributes":[],"startTimeUnixNano":"1700000100000000000","timeUnixNano":"1700000200123456789","asInt":"-5"}
],"aggregationTemporality":1,"isMonotonic":false}}
],"schemaUrl":"https://s/2"},
{"scope":{"name":"bar","attributes":[]},
"metrics":[
{"name":"heat","description":"","unit":"Cel","gauge":{"dataPoints":[
{"attributes":[
{"key":"a.int","value":{"intValue":"-9223372036854775808"}},
{"key":"le","value":{"stringValue":"mine"}},
{"key":"no","value":{"boolValue":false}},
{"key":"ok","value":{"boolValue":true}},
{"key":"t","value":{"stringValue":"C:\\\"é\"\n"}},
{"key":"u","value":{"arrayValue":{"values":[{"boolValue":true},{"boolValue":false}]}}},
{"key":"v","value":{"arrayValue":{"values":[{"intValue":"-1"},{"intValue":"9223372036854775807"}]}}},
{"key":"w","value":{"arrayValue":{"values":[{"stringValue":"a"},{"stringValue":"b\""}]}}}
],"startTimeUnixNano":"1700000100000000000","timeUnixNano":"1700000200123456789","asInt":"-40"}
]}},
{"name":"share","description":"","unit":"1","gauge":{"dataPoints":[
{"attributes":[],"startTimeUnixNano":"1700000100000000000","timeUnixNano":"1700000200123456789",
"asDouble":9223372036854775808}
]}}
]},
{"scope":{"name":"","attributes":[]},
"metrics":[
{"name":"latency","description":"Time taken","unit":"ms","histogram":{"dataPoints":[
{"attributes":[],"startTimeUnixNano":"1700000100000000000","timeUnixNano":"1700000200123456789",
"count":"3","sum":267,"bucketCounts":["2","0","1"],"explicitBounds":[10,100],"min":7,"max":250}
],"aggregationTemporality":2}},
{"name":"size","description":"","unit":"KiBy","histogram":{"dataPoints":[
{"attributes":[],"startTimeUnixNano":"1700000100000000000","timeUnixNano":"1700000200123456789",
"count":"2","sum":18446744073709551615,"bucketCounts":[],"explicitBounds":[]}
],"aggregationTemporality":1}},
{"name":"levels","description":"","unit":"","histogram":{"dataPoints":[
{"attributes":[],"startTimeUnixNano":"1700000100000000000","timeUnixNano":"1700000200123456789",
"count":"3","bucketCounts":["1","1","1"],"explicitBounds":[-5,0],"min":-9,"max":4}
],"aggregationTemporality":2}},
{"name":"swings","description":"","unit":"","histogram":{"dataPoints":[
{"attributes":[],"startTimeUnixNano":"1700000100000000000","timeUnixNano":"1700000200123456789",
"count":"1","sum":-10,"bucketCounts":["1","0","0"],"explicitBounds":[0,5]}
],"aggregationTemporality":2}},
{"name":"below","description":"","unit":"","histogram":{"dataPoints":[
{"attributes":[],"startTimeUnixNano":"1700000100000000000","timeUnixNano":"1700000200123456789",
"count":"2","sum":9,"bucketCounts":["0","2"],"explicitBounds":[-5]}
],"aggregationTemporality":2}}
]}
],"schemaUrl":"https://r/1"}]}"#;

/// The collection as text for Prometheus.
const PROMETHEUS: &str = r#"# HELP target_info Target metadata
# TYPE target_info gauge
target_info{cores="8",service_name="shop"} 1
# HELP requests_total Those "served"\nby path\\host
# TYPE requests_total counter
requests_total{otel_scope_name="shop",otel_scope_schema_url="https://s/2",otel_scope_the_team="cart",otel_scope_version="1.0"} 7
requests_total{otel_scope_name="shop",otel_scope_schema_url="https://s/2",otel_scope_the_team="cart",otel_scope_version="1.0",path="/a"} 9223372036854775807
requests_total{otel_scope_name="shop",otel_scope_schema_url="https://s/2",otel_scope_the_team="cart",otel_scope_version="1.0",path="/b"} 9223372036854775808
requests_total{otel_scope_name="shop",otel_scope_schema_url="https://s/2",otel_scope_the_team="cart",otel_scope_version="1.0",path="/c"} 18446744073709551615
# TYPE queue gauge
queue{otel_scope_name="shop",otel_scope_schema_url="https://s/2",otel_scope_the_team="cart",otel_scope_version="1.0"} -3
queue{otel_scope_name="shop",otel_scope_schema_url="https://s/2",otel_scope_the_team="cart",otel_scope_version="1.0",path="/a"} -9223372036854775808
# TYPE heat_celsius gauge
heat_celsius{a_int="-9223372036854775808",le="mine",no="false",ok="true",otel_scope_name="bar",t="C:\\\"é\"\n",u="[true,false]",v="[-1,9223372036854775807]",w="[\"a\",\"b\\\"\"]"} -40
# TYPE share_ratio gauge
share_ratio{otel_scope_name="bar"} 9223372036854775808
# HELP latency_milliseconds Time taken
# TYPE latency_milliseconds histogram
latency_milliseconds_bucket{le="10"} 2
latency_milliseconds_bucket{le="100"} 2
latency_milliseconds_bucket{le="+Inf"} 3
latency_milliseconds_sum 267
latency_milliseconds_count 3
# TYPE levels histogram
levels_bucket{le="-5"} 1
levels_bucket{le="0"} 2
levels_bucket{le="+Inf"} 3
levels_count 3
# TYPE swings histogram
swings_bucket{le="0"} 1
swings_bucket{le="5"} 1
swings_bucket{le="+Inf"} 1
swings_count 1
# TYPE below histogram
below_bucket{le="-5"} 0
below_bucket{le="+Inf"} 2
below_count 2
"#;

/// The collection in OpenMetrics: the resource is an information called `target`, the type of a counter stands at its name
/// without `_total`, quotes in help texts are escaped, bounds are floats, and a count stands only beside a sum.
const OPEN_METRICS: &str = r#"# HELP target Target metadata
# TYPE target info
target_info{cores="8",service_name="shop"} 1
# HELP requests Those \"served\"\nby path\\host
# TYPE requests counter
requests_total{otel_scope_name="shop",otel_scope_schema_url="https://s/2",otel_scope_the_team="cart",otel_scope_version="1.0"} 7
requests_total{otel_scope_name="shop",otel_scope_schema_url="https://s/2",otel_scope_the_team="cart",otel_scope_version="1.0",path="/a"} 9223372036854775807
requests_total{otel_scope_name="shop",otel_scope_schema_url="https://s/2",otel_scope_the_team="cart",otel_scope_version="1.0",path="/b"} 9223372036854775808
requests_total{otel_scope_name="shop",otel_scope_schema_url="https://s/2",otel_scope_the_team="cart",otel_scope_version="1.0",path="/c"} 18446744073709551615
# TYPE queue gauge
queue{otel_scope_name="shop",otel_scope_schema_url="https://s/2",otel_scope_the_team="cart",otel_scope_version="1.0"} -3
queue{otel_scope_name="shop",otel_scope_schema_url="https://s/2",otel_scope_the_team="cart",otel_scope_version="1.0",path="/a"} -9223372036854775808
# TYPE heat_celsius gauge
heat_celsius{a_int="-9223372036854775808",le="mine",no="false",ok="true",otel_scope_name="bar",t="C:\\\"é\"\n",u="[true,false]",v="[-1,9223372036854775807]",w="[\"a\",\"b\\\"\"]"} -40
# TYPE share_ratio gauge
share_ratio{otel_scope_name="bar"} 9223372036854775808
# HELP latency_milliseconds Time taken
# TYPE latency_milliseconds histogram
latency_milliseconds_bucket{le="10.0"} 2
latency_milliseconds_bucket{le="100.0"} 2
latency_milliseconds_bucket{le="+Inf"} 3
latency_milliseconds_sum 267
latency_milliseconds_count 3
# TYPE levels histogram
levels_bucket{le="-5.0"} 1
levels_bucket{le="0.0"} 2
levels_bucket{le="+Inf"} 3
# TYPE swings histogram
swings_bucket{le="0.0"} 1
swings_bucket{le="5.0"} 1
swings_bucket{le="+Inf"} 1
# TYPE below histogram
below_bucket{le="-5.0"} 0
below_bucket{le="+Inf"} 2
# EOF
"#;

/// The lines of a request as one line, as it is printed.
fn in_one_line(alloc: Global, lines: &str) -> Result<String, AllocError> {
    let mut line = String::new(alloc);
    for part in lines.lines() {
        line.push_str(part)?;
    }
    line.push_str("\n")?;
    Ok(line)
}

const THREE_DELTAS: LeftOut = LeftOut {
    delta: 3,
    conflicting: 0,
    doubled: 0,
};

#[test]
fn request(rt: HostRuntime) {
    let alloc = rt.alloc();
    let collected = collection(alloc).expect(&rt, "a collection");
    let line = request_line(alloc, &collected).expect(&rt, "a line");
    let wanted = in_one_line(alloc, REQUEST).expect(&rt, "memory");
    let found = str::from_utf8(line.as_slice()).expect(&rt, "a text");
    assert_eq!(rt; found, wanted.as_str());
}

/// The points of `sent`, `moved` and `size` are deltas, which no text has.
#[test]
fn texts(rt: HostRuntime) {
    let alloc = rt.alloc();
    let collected = collection(alloc).expect(&rt, "a collection");
    let formats = [
        (Format::Prometheus, PROMETHEUS),
        (Format::OpenMetrics, OPEN_METRICS),
    ];
    for (format, wanted) in formats {
        let found = exposition_of(alloc, Settings::new(format), &collected).expect(&rt, wanted);
        let text = str::from_utf8(found.text.as_slice()).expect(&rt, wanted);
        assert_eq!(rt; text, wanted);
        assert!(rt; found.left_out == THREE_DELTAS);
    }
}
