//! Collections as exporters print them.

use super::assert_outcome;
use super::commands::{arguments, outcome_of};
use std::alloc::Global;
use std::process::Abort;

/// Asserts that the program, asked for the form that a word names, ends with a status, prints these collections of the
/// script, and a message.
fn assert_exports(
    rt: &impl Abort,
    alloc: Global,
    word: &str,
    script: &str,
    status: u8,
    wanted: &str,
    message: &str,
) {
    let asked = Ok(arguments(rt, alloc, &[word]));
    let outcome = outcome_of(alloc, asked, script);
    assert_outcome(rt, word, &outcome, status, wanted, message);
}

/// Texts, names and attributes that need escapes or are renamed, and two collections, of a cumulative and a delta reader.
const SCRIPT: &str = "\
reader cumulative\n\
reader delta\n\
view renamed name=été/1.2__x\n\
view queue_asc agg=hist:-5,0,5\n\
go\n\
meter shop 1.0\n\
meter bar\n\
build 0 u64_counter requests 1700000100000000000 unit=1 description=How%20many%20requests%0Awere%20\\served\"\n\
build 0 u64_histogram latency 1700000100000000000 unit=ms bounds=10,100\n\
build 0 i64_up_down_counter queue 1700000100000000000 unit={order}\n\
build 1 u64_counter requests 1700000100000000000\n\
build 1 i64_gauge requests.total 1700000100000000000\n\
build 1 u64_gauge share 1700000100000000000 unit=1\n\
build 0 u64_counter renamed 1700000100000000000 unit=By/s\n\
build 0 i64_up_down_counter queue_asc 1700000100000000000\n\
record 0 u:3 path=s:/cart,ok=b:true\n\
record 0 u:4 ok=b:true,path=s:/cart\n\
record 0 u:18446744073709551610 a.b=s:x,a_b=s:y,path=s:C:\\dir\"q\"%0Aline,otel_scope_name=s:mine\n\
record 1 u:7 path=s:/cart,le=s:mine\n\
record 1 u:10 path=s:/cart,le=s:mine\n\
record 1 u:250 path=s:/cart,le=s:mine\n\
record 2 i:-3 -\n\
record 3 u:5 path=s:/é%09tab\n\
record 4 i:-9223372036854775808 -\n\
record 5 u:42 1st=i:-7\n\
record 6 u:9 -\n\
record 7 i:-6 -\n\
record 7 i:4 -\n\
collect 0 1700000200123456789\n\
collect 1 1700000200123456789\n";

/// What is printed for Prometheus.
const TEXT: &str = "\
# HELP requests_total How many requests\\nwere \\\\served\"\n\
# TYPE requests_total counter\n\
requests_total{ok=\"true\",otel_scope_name=\"shop\",otel_scope_version=\"1.0\",path=\"/cart\"} 7\n\
requests_total{a_b=\"x;y\",otel_scope_name=\"shop;mine\",otel_scope_version=\"1.0\",path=\"C:\\\\dir\\\"q\\\"\\nline\"} 18446744073709551610\n\
requests_total{otel_scope_name=\"bar\",path=\"/é\ttab\"} 5\n\
# TYPE latency_milliseconds histogram\n\
latency_milliseconds_bucket{exported_le=\"mine\",otel_scope_name=\"shop\",otel_scope_version=\"1.0\",path=\"/cart\",le=\"10\"} 2\n\
latency_milliseconds_bucket{exported_le=\"mine\",otel_scope_name=\"shop\",otel_scope_version=\"1.0\",path=\"/cart\",le=\"100\"} 2\n\
latency_milliseconds_bucket{exported_le=\"mine\",otel_scope_name=\"shop\",otel_scope_version=\"1.0\",path=\"/cart\",le=\"+Inf\"} 3\n\
latency_milliseconds_sum{exported_le=\"mine\",otel_scope_name=\"shop\",otel_scope_version=\"1.0\",path=\"/cart\"} 267\n\
latency_milliseconds_count{exported_le=\"mine\",otel_scope_name=\"shop\",otel_scope_version=\"1.0\",path=\"/cart\"} 3\n\
# TYPE queue gauge\n\
queue{otel_scope_name=\"shop\",otel_scope_version=\"1.0\"} -3\n\
# TYPE _t_1_2_x_bytes_per_second_total counter\n\
_t_1_2_x_bytes_per_second_total{otel_scope_name=\"shop\",otel_scope_version=\"1.0\"} 9\n\
# TYPE queue_asc histogram\n\
queue_asc_bucket{otel_scope_name=\"shop\",otel_scope_version=\"1.0\",le=\"-5\"} 1\n\
queue_asc_bucket{otel_scope_name=\"shop\",otel_scope_version=\"1.0\",le=\"0\"} 1\n\
queue_asc_bucket{otel_scope_name=\"shop\",otel_scope_version=\"1.0\",le=\"5\"} 2\n\
queue_asc_bucket{otel_scope_name=\"shop\",otel_scope_version=\"1.0\",le=\"+Inf\"} 2\n\
queue_asc_count{otel_scope_name=\"shop\",otel_scope_version=\"1.0\"} 2\n\
# TYPE share_ratio gauge\n\
share_ratio{_1st=\"-7\",otel_scope_name=\"bar\"} 42\n\
# TYPE queue gauge\n\
queue{otel_scope_name=\"shop\",otel_scope_version=\"1.0\"} -3\n\
# TYPE queue_asc histogram\n\
queue_asc_bucket{otel_scope_name=\"shop\",otel_scope_version=\"1.0\",le=\"-5\"} 1\n\
queue_asc_bucket{otel_scope_name=\"shop\",otel_scope_version=\"1.0\",le=\"0\"} 1\n\
queue_asc_bucket{otel_scope_name=\"shop\",otel_scope_version=\"1.0\",le=\"5\"} 2\n\
queue_asc_bucket{otel_scope_name=\"shop\",otel_scope_version=\"1.0\",le=\"+Inf\"} 2\n\
queue_asc_count{otel_scope_name=\"shop\",otel_scope_version=\"1.0\"} 2\n\
# TYPE requests_total gauge\n\
requests_total{otel_scope_name=\"bar\"} -9223372036854775808\n\
# TYPE share_ratio gauge\n\
share_ratio{_1st=\"-7\",otel_scope_name=\"bar\"} 42\n";

/// What is said of the gauge `requests.total`, whose name is that of the counter, and of the points of the delta reader's
/// counters and histogram.
const LEFT_OUT: &str = "left out: 1 conflicting point\nleft out: 5 delta points\n";

#[test]
fn exports_text(rt: HostRuntime) {
    assert_exports(&rt, rt.alloc(), "prometheus", SCRIPT, 0, TEXT, LEFT_OUT);
}

/// A script without calls.
#[test]
fn exports_nothing(rt: HostRuntime) {
    assert_exports(&rt, rt.alloc(), "otlp", "go\n", 0, "", "");
}
