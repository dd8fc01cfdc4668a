//! Keys, values, canonical sets and scopes.

use super::{assert_shows, attributes_of, list_of, string, string_value};
use otel_common::attributes::{Array, Value};
use otel_common::canonical::canonical;
use otel_common::keys::Key;
use otel_common::lists::Items;
use otel_common::scopes::InstrumentationScope;
use otel_common::strings::StringValue;
use std::alloc::Global;
use std::process::Abort;

/// A text that is taken over from a string is the same as one that is copied, and comes before the next.
#[test]
fn texts(rt: HostRuntime) {
    let rt = &rt;
    let alloc = rt.alloc();
    let owned = StringValue::from(string(rt, alloc, "a"));
    assert!(rt; owned == string_value(rt, alloc, "a") && owned < string_value(rt, alloc, "b"));
}

/// A key has its text, equals its copy, and comes before a longer one.
#[test]
fn keys(rt: HostRuntime) {
    let rt = &rt;
    let alloc = rt.alloc();
    let key = Key::new(alloc, "a").expect(rt, "memory");
    let copy = key.clone().expect(rt, "memory");
    let longer = Key::new(alloc, "aa").expect(rt, "memory");
    assert!(rt; key.as_str() == "a" && key == copy && key < longer);
}

/// A value equals its copy, and no two kinds of values are equal: none of the copies repeats the one before it.
#[test]
fn equal_values(rt: HostRuntime) {
    let rt = &rt;
    let alloc = rt.alloc();
    let texts = list_of(rt, alloc, [string_value(rt, alloc, "1")]);
    let values = [
        Value::Bool(true),
        Value::Bool(false),
        Value::I64(1),
        Value::I64(0),
        Value::String(string_value(rt, alloc, "1")),
        Value::Array(Array::Bool(Items::from(list_of(rt, alloc, [true])))),
        Value::Array(Array::I64(Items::from(list_of(rt, alloc, [1])))),
        Value::Array(Array::String(Items::from(texts))),
        Value::Array(Array::I64(Items::from(Vec::new(alloc)))),
    ];
    let values = list_of(rt, alloc, values);
    let mut copies = values.clone().expect(rt, "memory");
    copies.dedup();
    assert!(rt; copies == values);
}

/// A canonical set has for each key the value of its first occurrence, with the keys in byte order.
#[test]
fn canonical_sets(rt: HostRuntime) {
    let rt = &rt;
    let alloc = rt.alloc();
    let given = attributes_of(rt, alloc, &[("b", 1), ("a", 2), ("a", 9), ("B", 3)]);
    let wanted = attributes_of(rt, alloc, &[("B", 3), ("a", 2), ("b", 1)]);
    assert!(rt; canonical(alloc, &given).expect(rt, "memory") == wanted);
}

/// Asserts that the parts of a scope show this text: its name, its version, its URL and its attributes.
fn assert_scope(rt: &impl Abort, alloc: Global, scope: &InstrumentationScope, text: &str) {
    let parts = (
        scope.name(),
        scope.version(),
        scope.schema_url(),
        scope.attributes(),
    );
    assert_shows(rt, alloc, &parts, text);
}

const FULL_SCOPE: &str = "(\"app\", Some(\"1.0\"), Some(\"https://example.org\"), Iter([\
    KeyValue { key: Key { name: StringValue { text: \"a\" } }, value: I64(2) }, \
    KeyValue { key: Key { name: StringValue { text: \"b\" } }, value: I64(1) }, \
    KeyValue { key: Key { name: StringValue { text: \"b\" } }, value: I64(3) }]))";

#[test]
fn scopes(rt: HostRuntime) {
    let rt = &rt;
    let alloc = rt.alloc();
    let scope = InstrumentationScope::builder(alloc, string(rt, alloc, "app"))
        .with_version(string(rt, alloc, "1.0"))
        .with_schema_url(string(rt, alloc, "https://example.org"))
        .with_attributes(attributes_of(rt, alloc, &[("b", 1), ("a", 2), ("b", 3)]))
        .build()
        .expect(rt, "memory");
    assert_scope(rt, alloc, &scope, FULL_SCOPE);
    assert!(rt; scope.clone().expect(rt, "memory") == scope);
}

#[test]
fn empty_scope(rt: HostRuntime) {
    let alloc = rt.alloc();
    let scope = InstrumentationScope::default(alloc);
    assert_scope(&rt, alloc, &scope, "(\"\", None, None, Iter([]))");
    let builder = InstrumentationScope::builder(alloc, String::new(alloc));
    assert!(rt; builder.build().expect(&rt, "memory") == scope);
}
