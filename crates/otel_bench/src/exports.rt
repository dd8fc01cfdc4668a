//! What exporters make of a collection.

use crate::subjects::Subject;
use anyhow::{Error, bail};
use opentelemetry_sdk::exporter::otlp::request_line;
use opentelemetry_sdk::exporter::prometheus::{Format, Settings, exposition_of};
use opentelemetry_sdk::metrics::data::ResourceMetrics;
use std::alloc::{AllocError, Global};

/// Makes the text of a collection this many times.
#[inline(never)]
fn counted_expositions(
    alloc: Global,
    format: Format,
    collected: &ResourceMetrics,
    times: u64,
) -> Result<u64, AllocError> {
    for _ in 0..times {
        let _ = exposition_of(alloc, Settings::new(format), collected)?;
    }
    Ok(times)
}

/// Makes the OTLP line of a collection this many times.
#[inline(never)]
fn counted_lines(
    alloc: Global,
    collected: &ResourceMetrics,
    times: u64,
) -> Result<u64, AllocError> {
    for _ in 0..times {
        let _ = request_line(alloc, collected)?;
    }
    Ok(times)
}

/// Makes what an exporter prints of a collection this many times.
fn export(
    alloc: Global,
    exporter: &str,
    collected: &ResourceMetrics,
    times: u64,
) -> Result<u64, Error> {
    let made = match exporter.trim_end() {
        "prometheus" => counted_expositions(alloc, Format::Prometheus, collected, times),
        "openmetrics" => counted_expositions(alloc, Format::OpenMetrics, collected, times),
        "otlp" => counted_lines(alloc, collected, times),
        _ => bail!("no exporter has this name"),
    };
    Ok(made?)
}

/// Collects the first reader, and makes what an exporter prints of the collection this many times.
pub fn count_exports<S: Subject>(
    alloc: Global,
    subject: &mut S,
    exporter: &str,
    times: u64,
) -> Result<u64, Error> {
    let collected = subject.collection()?;
    export(alloc, exporter, &collected, times)
}
