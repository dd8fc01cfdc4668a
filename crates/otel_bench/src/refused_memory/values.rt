//! Values that no provider is needed for.

use crate::refused_memory::scenarios::unknown;
use crate::refused_memory::set_up::resource;
use crate::refused_memory::trials::Trial;
use anyhow::Error;
use opentelemetry_sdk::common::{
    Array, Fault, InstrumentationScope, Items, Key, KeyValue, StringValue, Value, canonical,
};
use opentelemetry_sdk::exporter::otlp::request_line;
use opentelemetry_sdk::exporter::prometheus::{Format, Settings, exposition_of};
use opentelemetry_sdk::metrics::data::ResourceMetrics;
use opentelemetry_sdk::metrics::instrument::{NameCriterion, SelectorView};
use opentelemetry_sdk::metrics::reader::CardinalityLimit;
use opentelemetry_sdk::metrics::{Aggregation, InstrumentKind, ManualReader, Stream, Temporality};
use opentelemetry_sdk::{Resource, attributes};
use std::alloc::Global;

/// Attributes with keys in no order, of which one occurs twice.
fn unsorted(alloc: Global) -> Result<Vec<KeyValue>, Fault> {
    let mut attributes = Vec::new(alloc);
    for (key, text) in &[("z", "1"), ("service.name", "2"), ("a", "3"), ("z", "4")] {
        attributes.push(KeyValue::text(alloc, key, text)?)?;
    }
    Ok(attributes)
}

/// What the provider's resource has under a key.
fn got(alloc: Global) -> Result<Option<Value>, Fault> {
    let key = Key::new(alloc, "service.name")?;
    Ok(resource(alloc)?.get(&key)?)
}

/// The provider's resource, merged with one of unsorted attributes.
fn merged(alloc: Global) -> Result<Resource, Fault> {
    let own = resource(alloc)?;
    let builder = Resource::builder_empty(alloc).with_attributes(unsorted(alloc)?)?;
    own.merge(&builder.build())
}

/// A resource of all that can be set.
fn built(alloc: Global) -> Result<Resource, Fault> {
    let attribute = KeyValue::text(alloc, "k", "v")?;
    let builder = Resource::builder_empty(alloc).with_attribute(attribute)?;
    let name = Value::String(StringValue::new(alloc, "name")?);
    let builder = builder.with_service_name(name)?;
    let url = String::from_str(alloc, "text")?;
    let builder = builder.with_schema_url(unsorted(alloc)?, url)?;
    Ok(builder.build())
}

/// A scope of all that can be set.
fn scope(alloc: Global) -> Result<InstrumentationScope, Fault> {
    let name = String::from_str(alloc, "text")?;
    let builder = InstrumentationScope::builder(alloc, name);
    let version = String::from_str(alloc, "ms")?;
    let builder = builder.with_version(version);
    builder.with_attributes(unsorted(alloc)?).build()
}

/// The canonical form of attributes with keys in no order.
fn sorted(alloc: Global) -> Result<Vec<KeyValue>, Fault> {
    canonical(alloc, unsorted(alloc)?.as_slice())
}

/// Attributes whose values are an array of each type.
pub fn arrays(alloc: Global) -> Result<[KeyValue; 3], Fault> {
    let flags = Items::from(vec![in alloc; true, false]?);
    let numbers = Items::from(vec![in alloc; 1, -2]?);
    let mut texts = Vec::new(alloc);
    texts.push(StringValue::new(alloc, "x")?)?;
    let texts = Items::from(texts);
    Ok([
        KeyValue::new(Key::new(alloc, "flags")?, Value::Array(Array::Bool(flags))),
        KeyValue::new(
            Key::new(alloc, "numbers")?,
            Value::Array(Array::I64(numbers)),
        ),
        KeyValue::new(
            Key::new(alloc, "texts")?,
            Value::Array(Array::String(texts)),
        ),
    ])
}

/// Attributes that are written out.
fn written(alloc: Global) -> Result<[KeyValue; 3], Fault> {
    Ok(attributes![in alloc; "path" => "/cart", "items" => 3i64, "paid" => true])
}

/// The text of a collection by the exporter of this name.
pub fn exported(
    alloc: Global,
    exporter: &str,
    collected: &ResourceMetrics,
) -> Result<Vec<u8>, Fault> {
    let format = match exporter {
        "otlp" => return Ok(request_line(alloc, collected)?),
        "prometheus" => Format::Prometheus,
        _ => Format::OpenMetrics,
    };
    Ok(exposition_of(alloc, Settings::new(format), collected)?.text)
}

/// Whether a view that is made for a name selects that name.
fn selected(alloc: Global) -> Result<bool, Fault> {
    let Ok(stream) = Stream::builder().build() else {
        return Err(Fault::WrongNumber);
    };
    let view = SelectorView::of_name(alloc, "more", stream)?;
    match &view.selector.name {
        Some(NameCriterion::Exact(name)) => Ok(name.as_str() == "more"),
        _ => Ok(false),
    }
}

/// Says that an aggregation is a histogram.
fn histogram(alloc: Global) -> Result<Aggregation, Fault> {
    let boundaries = vec![in alloc; 1, 5]?;
    Ok(Aggregation::ExplicitBucketHistogram {
        boundaries: boundaries.into(),
        record_min_max: true,
    })
}

/// Makes between the marks what a view says of a stream, and writes it. All that it is made of is made before, since that
/// must not be refused.
fn write_stream<R: Print>(trial: &mut Trial<R>) -> Result<(), Error> {
    let name = String::from_str(trial.alloc, "text")?;
    let unit = String::from_str(trial.alloc, "ms")?;
    let mut keys = Vec::new(trial.alloc);
    keys.push(Key::new(trial.alloc, "a")?)?;
    let aggregation = histogram(trial.alloc)?;
    trial.begin("stream")?;
    let stream = Stream::builder()
        .with_name(name)
        .with_unit(unit)
        .with_allowed_attribute_keys(keys)
        .with_cardinality_limit(1)
        .with_aggregation(aggregation)
        .build();
    trial.end("stream")?;
    trial.write(&stream)
}

/// Makes between the marks what a reader wants, and writes it. All that it is made of is made before, since that must not
/// be refused.
fn write_reader<R: Print>(trial: &mut Trial<R>) -> Result<(), Error> {
    let limit = CardinalityLimit::new(6)?;
    let aggregation = histogram(trial.alloc)?;
    trial.begin("reader")?;
    let reader = ManualReader::builder()
        .with_temporality(Temporality::LowMemory)
        .with_cardinality_limit(InstrumentKind::Counter, limit)
        .with_default_aggregation(InstrumentKind::Histogram, aggregation)
        .build();
    trial.end("reader")?;
    trial.write(&reader)
}

/// Makes the value that the scenario names between the marks, and writes it unless it was refused for want of memory.
pub fn write_value<R: Print>(trial: &mut Trial<R>) -> Result<(), Error> {
    match trial.scenario.call {
        "stream" => return write_stream(trial),
        "reader" => return write_reader(trial),
        call => trial.begin(call)?,
    }
    match trial.scenario.call {
        "got" => trial.take(got(trial.alloc)),
        "merged" => trial.take(merged(trial.alloc)),
        "built" => trial.take(built(trial.alloc)),
        "scope" => trial.take(scope(trial.alloc)),
        "arrays" => trial.take(arrays(trial.alloc)),
        "attributes" => trial.take(written(trial.alloc)),
        "selected" => trial.take(selected(trial.alloc)),
        "canonical" => trial.take(sorted(trial.alloc)),
        word => unknown(word),
    }
}
