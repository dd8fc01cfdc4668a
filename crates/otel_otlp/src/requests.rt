//! Requests to export metrics, each on a line.

ghost use Rattle.std.specs.Prelude.{◌≡◌, ◌++◌, ℕ, List, OnOk, IfOk, Some, codes, option_and_then};
ghost use Rattle.json.specs.Json.{document};
ghost use Rattle.json.specs.Tree.{json_tokens};
ghost use Rattle.otel_otlp.specs.Reading.{collection_of};
ghost use Rattle.otel_otlp.specs.Requests.{request_of, line_of, resource_metrics_json};
ghost use Rattle.otel_otlp.specs.Shown.{shown};

use crate::items::write_items;
use crate::parts::{Part, write_parts};
use crate::scopes::{write_optional, write_resource};
use json::Writer;
use otel_data::collections::ResourceMetrics;
use std::alloc::{AllocError, Global};

/// Writes the metrics of a resource.
fn write_resource_metrics(out: &mut Writer, collected: &ResourceMetrics) -> Result<(), AllocError>
    ensures tokens { OnOk result (out.new.tokens ≡ out.old.tokens ++ json_tokens (resource_metrics_json collected.now)) }
    ensures before { out.new.before ≡ out.old.before }
{
    write_parts(out, &[Part::BeginObject, Part::Key("resource")])?;
    write_resource(out, collected.resource())?;
    out.key("scopeMetrics")?;
    write_items(out, collected.scope_metrics().as_slice())?;
    write_optional(out, "schemaUrl", collected.resource().schema_url())?;
    out.end_object()?;
    Ok(())
}

/// Writes a request.
fn write_request(out: &mut Writer, collected: &ResourceMetrics) -> Result<(), AllocError>
    ensures tokens { OnOk result (out.new.tokens ≡ out.old.tokens ++ json_tokens (request_of collected.now)) }
    ensures before { out.new.before ≡ out.old.before }
{
    write_parts(
        out,
        &[
            Part::BeginObject,
            Part::Key("resourceMetrics"),
            Part::BeginArray,
        ],
    )?;
    write_resource_metrics(out, collected)?;
    write_parts(out, &[Part::EndArray, Part::EndObject])?;
    Ok(())
}

/// Returns a collection as a request (`ExportMetricsServiceRequest`) on a line of its own, with every point: its
/// attributes, its start and its moment in nanoseconds since 1970, its temporality, and its value. Exemplars are not
/// written. A reader of the protocol reads the whole collection of it, all numbers as integers.
///
/// Refused only for want of memory. The line is the only thing that takes memory, and grows as it is written.
pub fn request_line(alloc: Global, collected: &ResourceMetrics) -> Result<Vec<u8>, AllocError>
    ensures text { IfOk result (λ line. line.items ≡ line_of collected.now) }
    ensures says { IfOk result (λ line. (text : List ℕ) × (line.items ≡ text ++ codes "\n") × (option_and_then collection_of (document text) ≡ Some (shown collected.now))) }
    ensures reads_back { IfOk result (λ line. (text : List ℕ) × (line.items ≡ text ++ codes "\n") × (document text ≡ Some (request_of collected.now))) }
{
    let mut out = Writer::new(Vec::with_capacity(alloc, 1024)?);
    write_request(&mut out, collected)?;
    let mut line = out.into_inner();
    line.push(b'\n')?;
    Ok(line)
}
