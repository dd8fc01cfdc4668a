//! Merges of resources, their builders, and the resource of a collection.

use super::shown::{write_collection, write_resource};
use super::support::{assert_text, attributes, fault_of, string};
use opentelemetry_sdk::common::{Key, StringValue, Value};
use opentelemetry_sdk::metrics::ManualReader;
use opentelemetry_sdk::metrics::callback::NoCallback;
use opentelemetry_sdk::metrics::provider::{Plain, Provider, SdkMeterProvider};
use opentelemetry_sdk::resource::{Resource, ResourceBuilder};
use std::alloc::Global;
use std::process::Abort;

/// A builder with what a text shows: attributes, and behind them a schema URL, or `-` for none.
fn added(rt: &impl Abort, alloc: Global, builder: ResourceBuilder, shown: &str) -> ResourceBuilder {
    let (shown, url) = shown.rsplit_once(' ').unwrap_or(("", shown));
    let url = string(rt, alloc, url.strip_prefix('-').unwrap_or(url));
    let added = builder.with_schema_url(attributes(rt, alloc, shown), url);
    added.expect(rt, "memory")
}

/// The resource that a text shows.
fn resource(rt: &impl Abort, alloc: Global, shown: &str) -> Resource {
    added(rt, alloc, Resource::builder_empty(alloc), shown).build()
}

/// The resource of a builder that is given what two texts show.
fn built(rt: &impl Abort, alloc: Global, one: &str, other: &str) -> Resource {
    let builder = added(rt, alloc, Resource::builder_empty(alloc), one);
    added(rt, alloc, builder, other).build()
}

/// The resource of a builder that is given attributes alone.
fn of_attributes(rt: &impl Abort, alloc: Global, shown: &str) -> Resource {
    let builder = Resource::builder_empty(alloc).with_attributes(attributes(rt, alloc, shown));
    builder.expect(rt, "memory").build()
}

/// The first resource with the second one merged into it.
fn merged(rt: &impl Abort, one: &Resource, other: &Resource) -> Resource {
    one.merge(other).expect(rt, "memory")
}

/// How a resource is made of what the texts of a line show.
pub enum Way {
    /// The first is merged with the second.
    Merged,
    /// The first is merged with the second, and that with the second once more.
    MergedFromLeft,
    /// The second is merged with itself, and the first with that.
    MergedFromRight,
    /// One builder is given both.
    Built,
    /// A builder is given attributes alone.
    OfAttributes,
}

/// Makes a resource of what a text shows.
fn made(rt: &impl Abort, alloc: Global, shown: &str, way: &Way) -> Resource {
    let (one, other) = shown.split_once(" | ").unwrap_or((shown, ""));
    let first = resource(rt, alloc, one);
    let second = resource(rt, alloc, other);
    match way {
        Way::Merged => merged(rt, &first, &second),
        Way::MergedFromLeft => merged(rt, &merged(rt, &first, &second), &second),
        Way::MergedFromRight => merged(rt, &first, &merged(rt, &second, &second)),
        Way::Built => built(rt, alloc, one, other),
        Way::OfAttributes => of_attributes(rt, alloc, shown),
    }
}

/// Asserts of each line that what is made of its first texts is shown as its last one.
pub fn assert_made(rt: &impl Abort, alloc: Global, lines: &str, way: &Way) {
    for line in lines.lines() {
        let (shown, wanted) = line.rsplit_once(" | ").unwrap_or((line, ""));
        let mut text = String::new(alloc);
        write_resource(rt, &mut text, &made(rt, alloc, shown, way));
        assert_text(rt, text.as_str(), wanted);
    }
}

#[test]
fn merge_resource_key_value_pairs(rt: HostRuntime) {
    assert_made(
        &rt,
        rt.alloc(),
        "a= b=b-value d=d-value - | a=a-value c=c-value d= - | a=a-value b=b-value c=c-value d= -",
        &Way::Merged,
    );
}

#[test]
fn merge_resource_schema_url(rt: HostRuntime) {
    assert_made(
        &rt,
        rt.alloc(),
        "key= u1 | key= - | key= u1\n\
         key= u1 | key= u2 | key= -\n\
         key= - | key= u2 | key= u2\n\
         key= u1 | key= u1 | key= u1\n\
         key= - | key= - | key= -",
        &Way::Merged,
    );
}

#[test]
fn merge_resource_with_missing_attributes(rt: HostRuntime) {
    assert_made(
        &rt,
        rt.alloc(),
        "u1 | key=b - | key=b u1\n\
         key=a u1 | key=b - | key=b u1\n\
         key=a u1 | key=b u2 | key=b -\n\
         key=a - | key=b u2 | key=b u2",
        &Way::Merged,
    );
}

/// Merged from the left, the URLs `u1`, `u2` and `u2` leave the last one; merged from the right, they leave none.
#[test]
fn urls_merge_from_left_and_right(rt: HostRuntime) {
    assert_made(&rt, rt.alloc(), "u1 | u2 | u2", &Way::MergedFromLeft);
    assert_made(&rt, rt.alloc(), "u1 | u2 | -", &Way::MergedFromRight);
}

/// If a key stands twice in one list, its last value stays.
#[test]
fn new_resource(rt: HostRuntime) {
    let lines = "a= a=final | a=final -\n\
         a=final a= | a= -";
    assert_made(&rt, rt.alloc(), lines, &Way::OfAttributes);
}

#[test]
fn builder_with_schema_url(rt: HostRuntime) {
    let lines = "u1 | u2 | -\n\
         - | u2 | u2\n\
         u1 | u1 | u1";
    assert_made(&rt, rt.alloc(), lines, &Way::Built);
}

/// A provider of the service `test_service`, without boxes and callbacks.
fn service(rt: &impl Abort, alloc: Global) -> Provider<Plain<NoCallback, NoCallback>> {
    let name = Value::String(StringValue::from(string(rt, alloc, "test_service")));
    let service = Resource::builder_empty(alloc).with_service_name(name);
    let service = service.expect(rt, "a resource").build();
    let builder = Provider::builder(alloc).with_resource(service);
    let builder = builder.expect(rt, "a resource");
    let builder = builder.with_reader(ManualReader::default());
    builder
        .expect(rt, "a reader")
        .build()
        .expect(rt, "a provider")
}

/// What is found at the key `service.name`, and at one that isn't there.
const FOUND: &str = "Ok(Some(String(StringValue { text: \"test_service\" }))) \
     Some(String(StringValue { text: \"test_service\" })) Ok(None) None 1";

/// Asserts what is found in the resource of a service.
fn assert_found(rt: &impl Abort, alloc: Global, service: &Resource) {
    let name = Key::new(alloc, "service.name").expect(rt, "memory");
    let other = Key::new(alloc, "service").expect(rt, "memory");
    let text = format!(in alloc;
        "{:?} {:?} {:?} {:?} {}",
        service.get(&name),
        service.get_ref(&name),
        service.get(&other),
        service.get_ref(&other),
        service.len()
    );
    assert_text(rt, text.expect(rt, "memory").as_str(), FOUND);
}

/// The number of the fault with which a default provider, which has no readers, refuses a collection.
fn fault_without_readers(alloc: Global) -> u8 {
    let mut provider = SdkMeterProvider::default(alloc);
    fault_of(provider.collected(0, 200))
}

/// The name of a service is found in the resource of each collection. A default provider has no reader to collect it.
#[test]
fn test_meter_provider_resource(rt: HostRuntime) {
    assert_eq!(rt; fault_without_readers(rt.alloc()), 5);
    let mut provider = service(&rt, rt.alloc());
    let collected = provider.collected(0, 200).expect(&rt, "a collection");
    let mut text = String::new(rt.alloc());
    write_collection(&rt, &mut text, &collected);
    let wanted = "resource service.name=test_service -\n";
    assert_text(&rt, text.as_str(), wanted);
    assert_found(&rt, rt.alloc(), collected.resource());
}
