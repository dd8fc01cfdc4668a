//! What views see, what they answer in a box, and which aggregations go with which kind.

use super::{
    are_distinct, assert_outcome, assert_prints, assert_shows, histogram_of, string_value,
};
use otel_common::laws::equal_aggregations;
use otel_common::metrics::Aggregation;
use otel_common::scopes::InstrumentationScope;
use otel_stream::compatible::is_aggregator_compatible;
use otel_stream::instrument::{Instrument, InstrumentKind};
use otel_stream::laws::{boxed_view, equal_instruments};
use otel_stream::selector::SelectorView;
use otel_stream::stream::Stream;
use otel_stream::view::View;
use std::alloc::Global;
use std::process::Abort;

/// A counter of this name and this description.
fn counter(rt: &impl Abort, alloc: Global, name: &str, description: &str) -> Instrument {
    Instrument {
        name: string_value(rt, alloc, name),
        description: string_value(rt, alloc, description),
        kind: InstrumentKind::Counter,
        unit: string_value(rt, alloc, "1"),
        scope: InstrumentationScope::default(alloc),
    }
}

/// An instrument equals its copy, but not the same without the description.
#[test]
fn instruments_have_their_parts(rt: HostRuntime) {
    let rt = &rt;
    equal_instruments();
    let alloc = rt.alloc();
    let hits = counter(rt, alloc, "hits", "calls");
    let parts = (hits.name(), hits.unit(), hits.kind(), hits.scope().name());
    assert_shows(rt, alloc, &parts, "(\"hits\", \"1\", Counter, \"\")");
    let copy = hits.clone().expect(rt, "memory");
    assert!(rt; are_distinct(&[hits, copy, counter(rt, alloc, "hits", "")]));
}

const LIMITED: &str =
    "Ok(Some(Stream { spec: StreamSpec { name: None, description: None, unit: None, \
    aggregation: None, allow: None, limit: Some(7) } }))";

/// Asserts what a view answers for counters of these names.
fn assert_answers<V: View>(rt: &impl Abort, alloc: Global, view: &V, wanted: &[(&str, &str)]) {
    for (name, answer) in wanted {
        let counter = counter(rt, alloc, name, "calls");
        assert_shows(rt, alloc, &view.match_inst(&counter), answer);
    }
}

/// A stream with the limit 7.
fn limited(rt: &impl Abort) -> Stream {
    let built = Stream::builder().with_cardinality_limit(7).build();
    built.expect(rt, "a stream")
}

const OF_NAME: &[(&str, &str)] = &[("hits", LIMITED), ("hits2", "Ok(None)")];

const OF_PREFIX: &[(&str, &str)] = &[("hits2", LIMITED), ("hit", "Ok(None)")];

const OF_COUNTERS: &[(&str, &str)] = &[("hits", LIMITED), ("hit", LIMITED)];

const OF_GAUGES: &[(&str, &str)] = &[("hits", "Ok(None)"), ("hit", "Ok(None)")];

/// Views ready to use are for a name, a beginning of names or a kind.
#[test]
fn selector_views(rt: HostRuntime) {
    let rt = &rt;
    let alloc = rt.alloc();
    let name = SelectorView::of_name(alloc, "hits", limited(rt)).expect(rt, "memory");
    assert_answers(rt, alloc, &name, OF_NAME);
    let prefix = SelectorView::of_prefix(alloc, "hits", limited(rt)).expect(rt, "memory");
    assert_answers(rt, alloc, &prefix, OF_PREFIX);
    let counters = SelectorView::of_kind(InstrumentKind::Counter, limited(rt));
    assert_answers(rt, alloc, &counters, OF_COUNTERS);
    let gauges = SelectorView::of_kind(InstrumentKind::Gauge, limited(rt));
    assert_answers(rt, alloc, &gauges, OF_GAUGES);
}

/// A view in a box answers what it answers outside: the same stream for every counter.
#[test]
fn boxes_answer_what_is_in_them(rt: HostRuntime) {
    let rt = &rt;
    let alloc = rt.alloc();
    let view = SelectorView::of_kind(InstrumentKind::Counter, limited(rt));
    let boxed: Box<dyn View> = Box::new(alloc, view).expect(rt, "memory");
    boxed_view(&boxed);
    assert_answers(rt, alloc, &boxed, OF_COUNTERS);
}

#[test]
fn aggregations_fit_kinds(rt: HostRuntime) {
    let alloc = rt.alloc();
    let fit = is_aggregator_compatible(InstrumentKind::Counter, &Aggregation::Sum);
    assert_outcome(&rt, alloc, fit, "Ok");
    let unfit = is_aggregator_compatible(InstrumentKind::Gauge, &Aggregation::Sum);
    let text = "Metrics error: incompatible aggregation";
    assert_outcome(&rt, alloc, unfit, text);
}

const HISTOGRAMS: &[(&[i64], &str)] = &[
    (&[0], "Ok"),
    (&[0, 2, 4, 8], "Ok"),
    (
        &[2, 0, 4, 8],
        "Config error aggregation: explicit bucket histogram: non-monotonic boundaries",
    ),
];

#[test]
fn validate_aggregation(rt: HostRuntime) {
    let rt = &rt;
    let alloc = rt.alloc();
    assert_outcome(rt, alloc, Aggregation::Default.validate(), "Ok");
    for (bounds, text) in HISTOGRAMS {
        let histogram = histogram_of(rt, alloc, bounds, true);
        assert_outcome(rt, alloc, histogram.validate(), text);
    }
}

/// Aggregations equal their copies and show their names.
#[test]
fn aggregations_show_their_names(rt: HostRuntime) {
    let rt = &rt;
    equal_aggregations();
    let alloc = rt.alloc();
    let all = [
        Aggregation::Drop,
        Aggregation::Default,
        Aggregation::Sum,
        Aggregation::LastValue,
        histogram_of(rt, alloc, &[1], true),
    ];
    assert!(rt; all.clone().expect(rt, "memory") == all);
    let [dropped, default, sum, last, histogram] = &all;
    let names = format_args!("{dropped} {default} {sum} {last} {histogram}");
    let wanted = "Drop Default Sum LastValue ExplicitBucketHistogram";
    assert_prints(rt, alloc, &names, wanted);
}
