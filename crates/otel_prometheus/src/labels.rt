//! Labels of a point: those of its scope and those of its attributes; and the labels of a resource.

ghost use Rattle.std.specs.Prelude.{◌≡◌, ◌++◌, false, fold, OnOk, IfOk};
ghost use Rattle.std.specs.Option.{option_map};
ghost use Rattle.std.specs.String.{string_bytes};
ghost use Rattle.otel_prometheus.specs.Labels.{with_label, label_of, own_name, with_attributes, text_label, optional_label, is_taken, with_scope_attribute, scope_label_name, scope_labels, has_text, without_empty, all_labels, point_labels, resource_labels};
ghost use Rattle.otel_prometheus.specs.Names.{name_of};
ghost use Rattle.otel_prometheus.specs.Samples.{is_label_byte};

use crate::places::add_label;
use crate::settings::Settings;
use crate::text::labels::Label;
use crate::text::names::label_name;
use crate::values::value_text;
use otel_common::attributes::{KeyValue, Value};
use otel_common::resource::Resource;
use otel_common::scopes::InstrumentationScope;
use std::alloc::{AllocError, Global};

/// Adds a label with this text at the end, unless the text is empty.
fn push_text(
    alloc: Global,
    labels: &mut Vec<Label>,
    name: &str,
    text: &str,
) -> Result<(), AllocError>
    ensures { OnOk result (labels.new.items ≡ labels.old.items ++ text_label name.now text.now) }
{
    let Some(_) = text.as_bytes().split_first() else {
        return Ok(());
    };
    let name = String::from_str(alloc, name)?;
    let value = Vec::from_slice(alloc, text.as_bytes())?;
    match labels.push(Label::new(name, value)) {
        Ok(()) => Ok(()),
        Err(_) => Err(AllocError),
    }
}

/// Adds a label with this text at the end, if there is one that isn't empty.
fn push_optional(
    alloc: Global,
    labels: &mut Vec<Label>,
    name: &str,
    text: Option<&str>,
) -> Result<(), AllocError>
    ensures { OnOk result (labels.new.items ≡ labels.old.items ++ optional_label name.now (option_map (λ s. s.now) text.entry)) }
{
    match text {
        Some(text) => push_text(alloc, labels, name, text),
        None => Ok(()),
    }
}

/// Returns the name of the label of an attribute of a scope.
fn scope_label_name(alloc: Global, key: &str) -> Result<String, AllocError>
    ensures { IfOk result (λ name. string_bytes name ≡ scope_label_name key.now) }
{
    let mut text = String::from_str(alloc, "otel_scope_")?;
    text.push_str(key)?;
    label_name(alloc, text.as_str().as_bytes())
}

/// Whether the name is that of a label for another part of a scope.
fn is_taken(name: &str) -> bool
    ensures { result ≡ is_taken name.now }
{
    name == "otel_scope_name" || name == "otel_scope_schema_url" || name == "otel_scope_version"
}

/// Adds the label of an attribute of a scope, unless another part of the scope has its name.
fn add_scope_attribute(
    alloc: Global,
    labels: &mut Vec<Label>,
    attribute: &KeyValue,
) -> Result<(), AllocError>
    ensures { OnOk result (labels.new.items ≡ with_scope_attribute labels.old.items attribute.now) }
{
    let name = scope_label_name(alloc, attribute.key.as_str())?;
    if is_taken(name.as_str()) {
        return Ok(());
    }
    let value = value_text(alloc, &attribute.value)?;
    add_label(labels, name, value)
}

/// Adds a label for each of these attributes of a scope.
fn add_scope_attributes(
    alloc: Global,
    labels: &mut Vec<Label>,
    attributes: &[KeyValue],
) -> Result<(), AllocError>
    ensures { OnOk result (labels.new.items ≡ fold with_scope_attribute labels.old.items attributes.now) }
{
    for attribute in attributes {
        add_scope_attribute(alloc, labels, attribute)?;
    }
    Ok(())
}

/// Returns the labels of a scope.
pub(crate) fn scope_labels(
    alloc: Global,
    settings: Settings,
    scope: &InstrumentationScope,
) -> Result<Vec<Label>, AllocError>
    ensures { IfOk result (λ labels. labels.items ≡ scope_labels settings scope.now) }
{
    let mut labels = Vec::new(alloc);
    if !settings.has_scope_labels {
        return Ok(labels);
    }
    push_text(alloc, &mut labels, "otel_scope_name", scope.name())?;
    push_optional(
        alloc,
        &mut labels,
        "otel_scope_schema_url",
        scope.schema_url(),
    )?;
    push_optional(alloc, &mut labels, "otel_scope_version", scope.version())?;
    add_scope_attributes(alloc, &mut labels, scope.attributes().as_slice())?;
    Ok(labels)
}

/// Takes out the labels with an empty value, which are none to who reads a text.
pub(crate) fn drop_empty(labels: &mut Vec<Label>)
    ensures { labels.new.items ≡ without_empty labels.old.items }
{
    labels.retain(|label| !label.value().is_empty());
}

/// Returns the name of the label of an attribute.
pub(crate) fn own_name(alloc: Global, key: &str, has_bounds: bool) -> Result<String, AllocError>
    ensures { IfOk result (λ name. string_bytes name ≡ own_name has_bounds (name_of is_label_byte key.now)) }
{
    let name = label_name(alloc, key.as_bytes())?;
    if has_bounds && name.as_str() == "le" {
        return String::from_str(alloc, "exported_le");
    }
    Ok(name)
}

/// Adds the label of an attribute.
fn add_attribute(
    alloc: Global,
    labels: &mut Vec<Label>,
    key: &str,
    value: &Value,
    has_bounds: bool,
) -> Result<(), AllocError>
    ensures { OnOk result (labels.new.items ≡ with_label labels.old.items (label_of has_bounds (record { key = key.now; value = value.now }))) }
{
    let name = own_name(alloc, key, has_bounds)?;
    let value = value_text(alloc, value)?;
    add_label(labels, name, value)
}

/// Adds a label for each attribute.
fn add_attributes(
    alloc: Global,
    labels: &mut Vec<Label>,
    attributes: &[KeyValue],
    has_bounds: bool,
) -> Result<(), AllocError>
    ensures { OnOk result (labels.new.items ≡ with_attributes has_bounds labels.old.items attributes.now) }
{
    for attribute in attributes {
        let key = attribute.key.as_str();
        add_attribute(alloc, labels, key, &attribute.value, has_bounds)?;
    }
    Ok(())
}

/// Adds a label for each attribute of a resource.
fn add_resource(
    alloc: Global,
    labels: &mut Vec<Label>,
    resource: &Resource,
) -> Result<(), AllocError>
    ensures { OnOk result (labels.new.items ≡ with_attributes false labels.old.items resource.now.attributes) }
{
    for (key, value) in resource {
        add_attribute(alloc, labels, key.as_str(), value, false)?;
    }
    Ok(())
}

/// Returns the labels of what says what a resource is.
pub(crate) fn resource_labels(alloc: Global, resource: &Resource) -> Result<Vec<Label>, AllocError>
    ensures { IfOk result (λ labels. labels.items ≡ resource_labels resource.now.attributes) }
{
    let mut labels = Vec::new(alloc);
    add_resource(alloc, &mut labels, resource)?;
    drop_empty(&mut labels);
    Ok(labels)
}

/// Returns the labels of a point. A histogram has bounds.
pub(crate) fn point_labels(
    alloc: Global,
    settings: Settings,
    scope: &InstrumentationScope,
    attributes: &[KeyValue],
    has_bounds: bool,
) -> Result<Vec<Label>, AllocError>
    ensures { IfOk result (λ labels. labels.items ≡ point_labels settings has_bounds scope.now attributes.now) }
{
    let mut labels = scope_labels(alloc, settings, scope)?;
    add_attributes(alloc, &mut labels, attributes, has_bounds)?;
    drop_empty(&mut labels);
    Ok(labels)
}
