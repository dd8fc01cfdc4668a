//! Which settings of streams are refused, and with which text.

use super::{assert_outcome, assert_shows, histogram_of, list_of, string};
use otel_common::keys::Key;
use otel_common::metrics::Aggregation;
use otel_stream::stream::{Stream, StreamBuilder};

const NAMES: &[&str] = &[
    "validateName",
    "allow/slash",
    "allow_under_score",
    "allow.dots.ok",
    "utf8char锈",
    "invalid name",
    "/not / allowed",
    "_startWithNoneAlphabet",
    "\\allow\\slash /sec",
    "\\allow\\$$slash /sec",
    "\\test\\UsagePercent(Total) > 80%",
    "",
];

#[test]
fn stream_name_no_validation(rt: HostRuntime) {
    let rt = &rt;
    let alloc = rt.alloc();
    for name in NAMES {
        let builder = Stream::builder().with_name(string(rt, alloc, name));
        assert_outcome(rt, alloc, builder.build(), "Ok");
    }
    let long = "a".repeat(alloc, 256).expect(rt, "memory");
    let built = Stream::builder().with_name(long).build();
    assert_outcome(rt, alloc, built, "Ok");
}

const UNITS: &[(&str, &str)] = &[
    ("utf8char锈", "characters in unit must be ASCII"),
    ("kb", "Ok"),
    ("Kb/sec", "Ok"),
    ("%", "Ok"),
    ("", "Ok"),
    (
        "0000000000000000000000000000000000000000000000000000000000000000",
        "unit must be less than 64 characters",
    ),
];

#[test]
fn stream_unit_validation(rt: HostRuntime) {
    let alloc = rt.alloc();
    for (unit, text) in UNITS {
        let builder = Stream::builder().with_unit(string(&rt, alloc, unit));
        assert_outcome(&rt, alloc, builder.build(), text);
    }
}

const LIMITS: &[(usize, &str)] = &[
    (0, "Cardinality limit must be greater than 0"),
    (usize::MAX, "Cardinality limit must be less than usize::MAX"),
    (usize::MAX - 1, "Ok"),
    (1, "Ok"),
    (10, "Ok"),
    (100, "Ok"),
    (1000, "Ok"),
];

#[test]
fn stream_cardinality_limit_validation(rt: HostRuntime) {
    let alloc = rt.alloc();
    for (limit, text) in LIMITS {
        let builder = Stream::builder().with_cardinality_limit(*limit);
        assert_outcome(&rt, alloc, builder.build(), text);
    }
}

const BOUNDS: &[(&[i64], &str)] = &[
    (&[1, 2, 5, 10, 20, 50, 100], "Ok"),
    (
        &[1, 5, 2, 10],
        "Bucket boundaries must be sorted and not contain any duplicates",
    ),
    (
        &[1, 2, 5, 5, 10],
        "Bucket boundaries must be sorted and not contain any duplicates",
    ),
];

#[test]
fn stream_histogram_bucket_validation(rt: HostRuntime) {
    let rt = &rt;
    let alloc = rt.alloc();
    for (bounds, text) in BOUNDS {
        let histogram = histogram_of(rt, alloc, bounds, true);
        let builder = Stream::builder().with_aggregation(histogram);
        assert_outcome(rt, alloc, builder.build(), text);
    }
    let histogram = histogram_of(rt, alloc, &[1, 5, 2, 10], true);
    let refused = Stream::builder().with_aggregation(histogram).build();
    assert_shows(rt, alloc, &refused, "Err(Boundaries)");
}

const FULL: &str = "(Some(\"valid_name\"), Some(\"A valid stream\"), Some(\"ms\"), Some(Sum), \
    Some([Key { name: StringValue { text: \"a\" } }]), Some(100), Some(100), true)";

const COPY: &str = "Stream { spec: StreamSpec { \
    name: Some(StringValue { text: \"valid_name\" }), \
    description: Some(StringValue { text: \"A valid stream\" }), \
    unit: Some(StringValue { text: \"ms\" }), aggregation: Some(Sum), \
    allow: Some(Items { items: [Key { name: StringValue { text: \"a\" } }] }), limit: Some(100) } }";

/// Each setting once, with its getter, also in copies of the builder and of the stream. A default stream has no name.
#[test]
fn stream_valid_build(rt: HostRuntime) {
    let rt = &rt;
    let alloc = rt.alloc();
    let key = Key::new(alloc, "a").expect(rt, "memory");
    let builder = StreamBuilder::default()
        .with_name(string(rt, alloc, "valid_name"))
        .with_description(string(rt, alloc, "A valid stream"))
        .with_unit(string(rt, alloc, "ms"))
        .with_allowed_attribute_keys(list_of(rt, alloc, [key]))
        .with_aggregation(Aggregation::Sum)
        .with_cardinality_limit(100);
    let copy = builder.clone().expect(rt, "memory");
    let stream = copy.build().expect(rt, "a valid stream");
    stream.lawful();
    let parts = (
        stream.name(),
        stream.description(),
        stream.unit(),
        stream.aggregation(),
        stream.allowed_attribute_keys(),
        stream.cardinality_limit(),
        stream.spec().limit,
        Stream::default().name().is_none(),
    );
    assert_shows(rt, alloc, &parts, FULL);
    let copy = stream.clone().expect(rt, "memory");
    assert_shows(rt, alloc, &copy, COPY);
}
