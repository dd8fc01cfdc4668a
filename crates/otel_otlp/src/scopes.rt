//! Scopes with their metrics, and resources.

ghost use Rattle.std.specs.Prelude.{◌≡◌, ◌++◌, OnOk};
ghost use Rattle.std.specs.Option.{option_map};
ghost use Rattle.json.specs.Json.{string, no_members};
ghost use Rattle.json.specs.Tree.{json_tokens};
ghost use Rattle.otel_otlp.specs.Arrays.{members_front, optional};
ghost use Rattle.otel_otlp.specs.Attributes.{attributes_json};
ghost use Rattle.otel_otlp.specs.Requests.{resource_json, scope_json, scope_metrics_json};

use crate::attributes::write_attribute;
use crate::items::{Item, write_items};
use crate::parts::{Part, write_parts};
use json::Writer;
use otel_common::resource::Resource;
use otel_common::scopes::InstrumentationScope;
use otel_data::collections::ScopeMetrics;
use std::alloc::AllocError;

/// Writes a text under a name, if there is one.
pub(crate) fn write_optional(
    out: &mut Writer,
    name: &str,
    text: Option<&str>,
) -> Result<(), AllocError>
    ensures tokens { OnOk result (out.new.tokens ≡ out.old.tokens ++ members_front (optional name.now (option_map string (option_map (λ s. s.now) text.entry)) no_members)) }
    ensures before { out.new.before ≡ out.old.before }
{
    match text {
        Some(text) => write_parts(out, &[Part::Key(name), Part::Text(text)]),
        None => Ok(()),
    }
}

/// Writes the attributes of a resource.
fn write_resource_attributes(out: &mut Writer, resource: &Resource) -> Result<(), AllocError>
    ensures tokens { OnOk result (out.new.tokens ≡ out.old.tokens ++ json_tokens (attributes_json resource.now.attributes)) }
    ensures before { out.new.before ≡ out.old.before }
{
    out.begin_array()?;
    for (key, value) in resource {
        write_attribute(out, key.as_str(), value)?;
    }
    out.end_array()?;
    Ok(())
}

/// Writes a resource.
pub(crate) fn write_resource(out: &mut Writer, resource: &Resource) -> Result<(), AllocError>
    ensures tokens { OnOk result (out.new.tokens ≡ out.old.tokens ++ json_tokens (resource_json resource.now)) }
    ensures before { out.new.before ≡ out.old.before }
{
    write_parts(out, &[Part::BeginObject, Part::Key("attributes")])?;
    write_resource_attributes(out, resource)?;
    out.end_object()?;
    Ok(())
}

/// Writes a scope.
fn write_scope(out: &mut Writer, scope: &InstrumentationScope) -> Result<(), AllocError>
    ensures tokens { OnOk result (out.new.tokens ≡ out.old.tokens ++ json_tokens (scope_json scope.now)) }
    ensures before { out.new.before ≡ out.old.before }
{
    write_parts(
        out,
        &[
            Part::BeginObject,
            Part::Key("name"),
            Part::Text(scope.name()),
        ],
    )?;
    write_optional(out, "version", scope.version())?;
    out.key("attributes")?;
    write_items(out, scope.attributes().as_slice())?;
    out.end_object()?;
    Ok(())
}

impl Item for ScopeMetrics {
    ghost json = { scope_metrics_json };

    fn write(&self, out: &mut Writer) -> Result<(), AllocError> {
        write_parts(out, &[Part::BeginObject, Part::Key("scope")])?;
        write_scope(out, self.scope())?;
        out.key("metrics")?;
        write_items(out, self.metrics().as_slice())?;
        write_optional(out, "schemaUrl", self.scope().schema_url())?;
        out.end_object()?;
        Ok(())
    }
}
