//! Names of families.

use super::{Seen, gauge, histogram, metric, sum};
use otel_common::faults::Fault;
use otel_common::lists::Items;
use otel_common::metrics::Temporality;
use otel_common::resource::Resource;
use otel_common::scopes::InstrumentationScope;
use otel_data::collections::{Metric, ResourceMetrics, ScopeMetrics};
use otel_prometheus::expositions::exposition_of;
use otel_prometheus::settings::Settings;
use otel_prometheus::text::formats::Format;
use std::alloc::{AllocError, Global};
use std::process::Abort;

/// Names and units of gauges, and the names of their families: the 32 units that have a word, alone or behind a slash,
/// others, with notes in braces too, and names that are made valid, or end with the unit or with a gap.
const NAMES: [(&str, &str, &str); 55] = [
    ("x", "d", "x_days"),
    ("x", "h", "x_hours"),
    ("x", "min", "x_minutes"),
    ("x", "s", "x_seconds"),
    ("x", "ms", "x_milliseconds"),
    ("x", "us", "x_microseconds"),
    ("x", "ns", "x_nanoseconds"),
    ("x", "By", "x_bytes"),
    ("x", "KiBy", "x_kibibytes"),
    ("x", "MiBy", "x_mebibytes"),
    ("x", "GiBy", "x_gibibytes"),
    ("x", "TiBy", "x_tibibytes"),
    ("x", "KBy", "x_kilobytes"),
    ("x", "MBy", "x_megabytes"),
    ("x", "GBy", "x_gigabytes"),
    ("x", "TBy", "x_terabytes"),
    ("x", "m", "x_meters"),
    ("x", "V", "x_volts"),
    ("x", "A", "x_amperes"),
    ("x", "J", "x_joules"),
    ("x", "W", "x_watts"),
    ("x", "g", "x_grams"),
    ("x", "Cel", "x_celsius"),
    ("x", "Hz", "x_hertz"),
    ("x", "%", "x_percent"),
    ("x", "m/s", "x_meters_per_second"),
    ("x", "By/m", "x_bytes_per_minute"),
    ("x", "{car}/h", "x_per_hour"),
    ("x", "1/d", "x_per_day"),
    ("x", "g/w", "x_grams_per_week"),
    ("x", "J/mo", "x_joules_per_month"),
    ("x", "V/y", "x_volts_per_year"),
    ("x", "W/A", "x_watts_per_A"),
    ("x", "lm/{car}", "x_lm"),
    ("x", "{car}", "x"),
    ("x", "1", "x_ratio"),
    ("x", "mm[Hg]", "x_mm_Hg"),
    ("x", "[pH]", "x_pH"),
    ("x", "10", "x_10"),
    ("w", "By{sent}", "w_bytes"),
    ("w", "{packet}/s", "w_per_second"),
    ("w", "{a/b}", "w"),
    ("w", "By{a}/s{b}", "w_bytes_per_second"),
    ("w", "1{x}", "w_ratio"),
    ("w", "[a]/[b]", "w_a_per_b"),
    ("v", "[]", "v"),
    ("v-", "", "v_"),
    ("v-", "s", "v_seconds"),
    ("a.b-c/d", "", "a_b_c_d"),
    ("a..b__c", "", "a_b_c"),
    ("1a", "", "_1a"),
    ("été", "", "_t_"),
    ("a:b", "", "a:b"),
    ("y.seconds", "s", "y_seconds"),
    ("z.total", "", "z_total"),
];

/// The gauge of this name and this unit, whose value is 5.
fn gauge_named(alloc: Global, name: &str, unit: &str) -> Result<Metric, Fault> {
    let points = gauge(alloc, Vec::new(alloc), 5i64)?;
    metric(alloc, (name, "", unit), points.into())
}

/// The text of this gauge.
fn push_gauge(text: &mut String, name: &str) -> Result<(), AllocError> {
    for part in ["# TYPE ", name, " gauge\n", name, " 5\n"] {
        text.push_str(part)?;
    }
    Ok(())
}

/// Asserts that these metrics have this text in OpenMetrics, which leaves this many out because of their names.
fn assert_text(
    rt: &impl Abort,
    alloc: Global,
    metrics: Vec<Metric>,
    wanted: &str,
    conflicting: u64,
) {
    let scope = ScopeMetrics::new(InstrumentationScope::default(alloc), Items::from(metrics));
    let scopes = Vec::from_array(alloc, [scope]).expect(rt, "memory");
    let resource = Resource::builder_empty(alloc).build();
    let collected = ResourceMetrics::new(resource, Items::from(scopes));
    let settings = Settings::new(Format::OpenMetrics);
    let found = exposition_of(alloc, settings, &collected).expect(rt, "a text");
    let text = str::from_utf8(found.text.as_slice()).expect(rt, "a text");
    assert_eq!(rt; text, wanted);
    assert_eq!(rt; found.left_out.conflicting, conflicting);
}

/// A gauge of each name and unit, and the text of all.
fn of_each_name(alloc: Global) -> Result<(Vec<Metric>, String), Fault> {
    let mut metrics = Vec::new(alloc);
    let mut wanted = String::new(alloc);
    for (name, unit, family) in NAMES {
        metrics.push(gauge_named(alloc, name, unit)?)?;
        push_gauge(&mut wanted, family)?;
    }
    wanted.push_str("# EOF\n")?;
    Ok((metrics, wanted))
}

#[test]
fn units_and_names(rt: HostRuntime) {
    let alloc = rt.alloc();
    let (metrics, wanted) = of_each_name(alloc).expect(&rt, "memory");
    assert_text(&rt, alloc, metrics, wanted.as_str(), 0);
}

/// A counter `c` and a histogram `h`.
fn rising(alloc: Global) -> Result<[Metric; 2], Fault> {
    let cumulative = Temporality::Cumulative;
    let seen = Seen {
        count: 0,
        least: None,
        greatest: None,
        sum: 0u64,
    };
    let points = histogram(alloc, &[], &[], seen, cumulative, true)?;
    Ok([
        metric(
            alloc,
            ("c", "", ""),
            sum(alloc, &[("", 7u64)], cumulative, true)?.into(),
        )?,
        metric(alloc, ("h", "", ""), points.into())?,
    ])
}

/// The text of the counter and the histogram.
const RISING: &str = "# TYPE c counter
c_total 7
# TYPE h histogram
h_bucket{le=\"+Inf\"} 0
h_sum 0
h_count 0
";

/// Names that no gauge can have beside them: those that their samples may have, and those of the resource.
const TAKEN: [&str; 10] = [
    "c",
    "c_total",
    "c_created",
    "h",
    "h_bucket",
    "h_sum",
    "h_count",
    "h_created",
    "target",
    "target_info",
];

/// Names that a gauge can have beside them.
const FREE: [&str; 4] = ["c_sum", "c_created_at", "h_total", "cc"];

/// The counter and the histogram, a gauge of each of these names, and the text of all that can stand in one.
fn beside_gauges(alloc: Global) -> Result<(Vec<Metric>, String), Fault> {
    let [counter, histogram] = rising(alloc)?;
    let mut metrics = vec![in alloc; counter, histogram]?;
    let mut wanted = String::from_str(alloc, RISING)?;
    for name in TAKEN {
        metrics.push(gauge_named(alloc, name, "")?)?;
    }
    for name in FREE {
        metrics.push(gauge_named(alloc, name, "")?)?;
        push_gauge(&mut wanted, name)?;
    }
    wanted.push_str("# EOF\n")?;
    Ok((metrics, wanted))
}

/// Two gauges, and then the counter and the histogram.
fn behind_gauges(alloc: Global) -> Result<Vec<Metric>, Fault> {
    let [counter, histogram] = rising(alloc)?;
    let created = gauge_named(alloc, "c_created", "")?;
    let count = gauge_named(alloc, "h_count", "")?;
    Ok(vec![in alloc; created, count, counter, histogram]?)
}

/// The text of two gauges whose names may be those of samples of a counter and a histogram that follow: the first stand.
const FIRST: &str = "# TYPE c_created gauge
c_created 5
# TYPE h_count gauge
h_count 5
# EOF
";

#[test]
fn names_of_samples(rt: HostRuntime) {
    let alloc = rt.alloc();
    let (metrics, wanted) = beside_gauges(alloc).expect(&rt, "memory");
    assert_text(&rt, alloc, metrics, wanted.as_str(), 10);
    let metrics = behind_gauges(alloc).expect(&rt, "memory");
    assert_text(&rt, alloc, metrics, FIRST, 2);
}
