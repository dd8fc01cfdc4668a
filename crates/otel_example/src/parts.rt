//! The parts of the providers that the program uses, and a provider of them.

use opentelemetry_sdk::Resource;
use opentelemetry_sdk::common::{Fault, StringValue, Value};
use opentelemetry_sdk::metrics::callback::NoCallback;
use opentelemetry_sdk::metrics::provider::{Parts, Plain, Provider};
use std::alloc::Global;

/// Parts without boxes and callbacks.
pub type OnlyManual = Plain<NoCallback, NoCallback>;

/// What all points of the program come from.
fn service(alloc: Global) -> Result<Resource, Fault> {
    let name = Value::String(StringValue::new(alloc, "shop")?);
    let service = Resource::builder_empty(alloc).with_service_name(name)?;
    Ok(service.build())
}

/// A provider of the service, with one reader and these views, which are in boxes if its parts are.
pub fn provider_with<P: Parts>(
    alloc: Global,
    reader: P::Reader,
    views: Vec<P::View>,
) -> Result<Provider<P>, Fault> {
    let mut builder = Provider::builder(alloc)
        .with_reader(reader)?
        .with_resource(service(alloc)?)?;
    for view in views {
        builder = builder.with_view(view)?;
    }
    builder.build()
}
