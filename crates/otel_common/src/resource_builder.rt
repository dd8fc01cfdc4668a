//! Builders of resources.

ghost use Rattle.std.specs.Prelude.{◌≡◌, IfOk, IsOkUnless};
ghost use Rattle.std.specs.String.{string_bytes};
ghost use Rattle.otel_common.specs.Resources as rules;
ghost use Rattle.otel_common.specs.Resources.{empty_resource};

use crate::attributes::{KeyValue, Value};
use crate::faults::Fault;
use crate::keys::Key;
use crate::laws::resource_laws;
use crate::resource::Resource;
use crate::sets::AttributeSet;
use crate::strings::StringValue;
use std::alloc::{AllocError, Global};
use std::marker::Model;

/// A builder of resources, which starts from the empty one of `Resource::builder_empty` (Resource SDK, "Resource
/// Creation").
///
/// Contracts see it as the resource that it would build. A refused call consumes the builder.
#[derive(Debug, Drop)]
pub struct ResourceBuilder {
    resource: Resource,
}

impl Model for ResourceBuilder {
    ghost use Rattle.otel_common.specs.declared.resource.Resource.{Resource};

    ghost Value = { Resource };

    ghost view = { λ b. b.resource };
}

/// Makes the resource of a list of attributes and a schema URL. Where a key occurs more than once, the last value wins.
fn resource_of(
    attributes: Vec<KeyValue>,
    schema_url: Option<StringValue>,
) -> Result<Resource, Fault>
    ensures resource { IfOk result (λ r. r ≡ rules.resource_of attributes.items schema_url) }
    ensures only_memory { IsOkUnless result Fault.OutOfMemory }
{
    let mut attributes = attributes;
    attributes.reverse();
    Ok(Resource {
        attributes: AttributeSet::canonical_of(attributes)?,
        schema_url,
    })
}

/// Returns a schema URL, or `None` for an empty one.
fn url_of(url: String) -> Option<StringValue>
    ensures { result ≡ rules.url_of (string_bytes url) }
{
    if url.is_empty() {
        return None;
    }
    Some(StringValue::from(url))
}

impl ResourceBuilder {
    /// Makes a builder of the resource that has no attributes and no schema URL. Takes no memory.
    pub(crate) fn new(alloc: Global) -> ResourceBuilder
        ensures { result ≡ empty_resource }
    {
        ResourceBuilder {
            resource: Resource::empty(alloc),
        }
    }

    /// Adds an attribute, in place of one with the same key. Refused only for want of memory.
    pub fn with_attribute(self, attribute: KeyValue) -> Result<ResourceBuilder, Fault>
        ensures merged { IfOk result (λ b. b ≡ rules.with_attribute self attribute) }
        ensures only_memory { IsOkUnless result Fault.OutOfMemory }
    {
        let attributes = vec![in self.resource.attributes.allocator(); attribute]?;
        self.with_attributes(attributes)
    }

    /// Adds attributes, in place of those with the same keys: merges the builder with them. Where a key occurs more
    /// than once in the list, the last value stays. Refused only for want of memory.
    ///
    /// Copies no attribute. The lists are joined and sorted by key, with a buffer.
    pub fn with_attributes(self, attributes: Vec<KeyValue>) -> Result<ResourceBuilder, Fault>
        ensures merged { IfOk result (λ b. b ≡ rules.with_attributes self attributes.items) }
        ensures only_memory { IsOkUnless result Fault.OutOfMemory }
    {
        let ResourceBuilder { resource } = self;
        Ok(ResourceBuilder {
            resource: resource.merged_with(resource_of(attributes, None)?)?,
        })
    }

    /// Sets the name of the service, the attribute `service.name` (Resource semantic conventions, "Service"). Refused
    /// only for want of memory.
    pub fn with_service_name(self, name: Value) -> Result<ResourceBuilder, Fault>
        ensures merged { IfOk result (λ b. b ≡ rules.with_service_name self name) }
        ensures only_memory { IsOkUnless result Fault.OutOfMemory }
    {
        let key = Key::new(self.resource.attributes.allocator(), "service.name")?;
        self.with_attribute(KeyValue::new(key, name))
    }

    /// Adds attributes and the URL of their schema; an empty URL counts as none. Merges them with the builder, and what
    /// the builder already has wins: its values stay, and if it has a different URL, none is left. Where a key occurs
    /// more than once in the list, the last value is taken. Refused only for want of memory.
    pub fn with_schema_url(
        self,
        attributes: Vec<KeyValue>,
        schema_url: String,
    ) -> Result<ResourceBuilder, Fault>
        ensures merged { IfOk result (λ b. b ≡ rules.with_schema_url self attributes.items (string_bytes schema_url)) }
        ensures only_memory { IsOkUnless result Fault.OutOfMemory }
    {
        let ResourceBuilder { resource } = self;
        let given = resource_of(attributes, url_of(schema_url))?;
        Ok(ResourceBuilder {
            resource: given.merged_with(resource)?,
        })
    }

    /// Builds the resource. Takes no memory.
    pub fn build(self) -> Resource
        ensures { result ≡ self }
    {
        let ResourceBuilder { resource } = self;
        resource
    }
}

impl Clone for ResourceBuilder {
    ghost is_clone = { λ b c. c ≡ b };

    fn clone(&self) -> Result<ResourceBuilder, AllocError> {
        resource_laws();
        Ok(ResourceBuilder {
            resource: self.resource.clone()?,
        })
    }
}
