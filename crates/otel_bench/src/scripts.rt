//! Scripts, and the provider that a script asks for.

use crate::counted::prepare;
use crate::subjects::Plain;
use anyhow::{Error, bail};
use metrics_script::script_lines::{Script, script_of};
use opentelemetry_sdk::common::Fault;
use opentelemetry_sdk::metrics::provider::{Call, Parts, Provider, ProviderBuilder};
use std::alloc::Global;

/// Splits a text at the first of these separators.
pub fn parts_of<'a>(text: &'a str, separator: &str) -> Result<(&'a str, &'a str), Error> {
    match text.split_once(separator) {
        Some(parts) => Ok(parts),
        None => bail!("a script is missing"),
    }
}

/// Reads the calls of a script.
pub fn calls_of(alloc: Global, script: &str) -> Result<Vec<Call>, Error> {
    let Script { calls, .. } = script_of(alloc, script.as_bytes())?;
    Ok(calls)
}

/// Returns the builder with these readers.
pub fn with_readers<P: Parts>(
    builder: ProviderBuilder<P>,
    readers: Vec<P::Reader>,
) -> Result<ProviderBuilder<P>, Fault> {
    let mut builder = builder;
    for reader in readers {
        builder = builder.with_reader(reader)?;
    }
    Ok(builder)
}

/// Returns the builder with these views.
pub fn with_views<P: Parts>(
    builder: ProviderBuilder<P>,
    views: Vec<P::View>,
) -> Result<ProviderBuilder<P>, Fault> {
    let mut builder = builder;
    for view in views {
        builder = builder.with_view(view)?;
    }
    Ok(builder)
}

/// Makes a provider with the readers and views of a script, on which the script's calls are made.
fn provider_for(alloc: Global, script: Script) -> Result<Provider<Plain>, Fault> {
    let Script {
        readers,
        views,
        calls,
    } = script;
    let builder = with_readers(Provider::builder(alloc), readers)?;
    let mut provider: Provider<Plain> = with_views(builder, views)?.build()?;
    prepare(&mut provider, calls.as_slice());
    Ok(provider)
}

/// Makes the provider of a script, on which the script's calls are made.
pub fn provider_of(alloc: Global, script: &str) -> Result<Provider<Plain>, Error> {
    let script = script_of(alloc, script.as_bytes())?;
    Ok(provider_for(alloc, script)?)
}
