//! Resources: what all the metrics of a provider come from.

ghost use Rattle.std.specs.Prelude.{◌≡◌, ◌↔◌, [], length, IsTrue, IfOk, IsOkUnless};
ghost use Rattle.std.specs.Option.{option_map};
ghost use Rattle.otel_common.specs.Canonical.{HasRisingKeys};
ghost use Rattle.otel_common.specs.Resources as rules;
ghost use Rattle.otel_common.specs.Resources.{empty_resource, value_at, HasValuesOfBoth};

use crate::attributes::Value;
use crate::faults::Fault;
use crate::keys::Key;
pub use crate::resource_builder::ResourceBuilder;
pub use crate::resource_iter::Iter;
use crate::sets::AttributeSet;
use crate::strings::StringValue;
use std::alloc::Global;

/// A source of telemetry, such as a service: its attributes, each key once and in byte order, and optionally the URL of
/// their schema (Resource SDK).
#[derive(Clone, Debug, PartialEq)]
pub struct Resource {
    pub(crate) attributes: AttributeSet,
    pub(crate) schema_url: Option<StringValue>,
}

impl Drop for Resource {
    /// A function of its own, so that no proof about who lets one go looks into it.
    fn drop(self) {
        let Resource {
            attributes: _attributes,
            schema_url: _schema_url,
        } = self;
    }
}

/// Returns the schema URL of a merge: the common one if both are equal, none if they differ, and if only one is set,
/// that one.
fn merged_url(url: Option<StringValue>, other: Option<StringValue>) -> Option<StringValue>
    ensures { result ≡ rules.merged_url url other }
{
    match (url, other) {
        (None, other) => other,
        (Some(url), None) => Some(url),
        (Some(url), Some(other)) => if url == other { Some(url) } else { None },
    }
}

impl Resource {
    /// Makes the resource that has no attributes and no schema URL. Takes no memory.
    pub(crate) fn empty(alloc: Global) -> Resource
        ensures { result ≡ empty_resource }
    {
        Resource {
            attributes: AttributeSet::empty(alloc),
            schema_url: None,
        }
    }

    /// Returns a builder that starts with no attributes and no schema URL. Takes no memory.
    pub fn builder_empty(alloc: Global) -> ResourceBuilder
        ensures { result ≡ empty_resource }
    {
        ResourceBuilder::new(alloc)
    }

    /// Merges this resource with another (Resource SDK, "Merge"). The result has the attributes of both; where both
    /// have a key, it has the other's value, even an empty one. Equal schema URLs stay, two different ones give none,
    /// and if only one is set, it stays.
    ///
    /// Copies both resources, and sorts the attributes by key with a buffer. Refused only for want of memory.
    pub fn merge(&self, other: &Resource) -> Result<Resource, Fault>
        ensures merged { IfOk result (λ r. r ≡ rules.merged_resource self.now other.now) }
        ensures values { IfOk result (HasValuesOfBoth self.now other.now) }
        ensures in_key_order { IfOk result (λ r. HasRisingKeys r.attributes) }
        ensures only_memory { IsOkUnless result Fault.OutOfMemory }
    {
        self.clone()?.merged_with(other.clone()?)
    }

    /// Does the same as `merge`, but consumes both resources and copies no attribute. Refused only for want of memory:
    /// the list of attributes grows, and is sorted by key with a buffer.
    pub fn merged_with(self, other: Resource) -> Result<Resource, Fault>
        ensures merged { IfOk result (λ r. r ≡ rules.merged_resource self other) }
        ensures values { IfOk result (HasValuesOfBoth self other) }
        ensures in_key_order { IfOk result (λ r. HasRisingKeys r.attributes) }
        ensures only_memory { IsOkUnless result Fault.OutOfMemory }
    {
        let Resource {
            attributes: old,
            schema_url: old_url,
        } = self;
        let Resource {
            attributes,
            schema_url,
        } = other;
        let schema_url = merged_url(old_url, schema_url);
        let attributes = attributes.joined(old)?;
        Ok(Resource {
            attributes,
            schema_url,
        })
    }

    /// Returns the number of attributes.
    pub fn len(&self) -> usize
        ensures { result ≡ length self.now.attributes }
    {
        self.attributes.as_slice().len()
    }

    /// Returns whether there are no attributes.
    pub fn is_empty(&self) -> bool
        ensures { IsTrue result ↔ (self.now.attributes ≡ []) }
    {
        self.attributes.as_slice().is_empty()
    }

    /// The schema URL, if there is one.
    pub fn schema_url(&self) -> Option<&str>
        ensures { option_map (λ s. s.now) result ≡ self.now.schema_url }
    {
        match &self.schema_url {
            Some(url) => Some(url.as_str()),
            None => None,
        }
    }

    /// Returns the value of a key, if the resource has the key. Compares the keys one by one.
    pub fn get_ref(&self, key: &Key) -> Option<&Value>
        ensures { option_map (λ v. v.now) result ≡ value_at key.now self.now.attributes }
    {
        for attribute in self.attributes.as_slice() {
            if attribute.key == *key {
                return Some(&attribute.value);
            }
        }
        None
    }

    /// Returns a copy of the value of a key, if the resource has the key. Refused only for want of memory.
    pub fn get(&self, key: &Key) -> Result<Option<Value>, Fault>
        ensures value { IfOk result (λ value. value ≡ value_at key.now self.now.attributes) }
        ensures only_memory { IsOkUnless result Fault.OutOfMemory }
    {
        match self.get_ref(key) {
            Some(value) => Ok(Some(value.clone()?)),
            None => Ok(None),
        }
    }

    /// Iterates over the attributes, in byte order of their keys.
    pub fn iter(&self) -> Iter<'_>
        ensures pairs { result ≡ self.now.attributes }
        ensures in_key_order { HasRisingKeys self.now.attributes }
    {
        Iter::of(self.attributes.as_slice())
    }
}

impl<'a> IntoIterator for &'a Resource {
    type Item = (&'a Key, &'a Value);

    type IntoIter = Iter<'a>;

    ghost into_iter_gives = { λ resource pairs. pairs ≡ resource.now.attributes };

    fn into_iter(self) -> Iter<'a> {
        self.iter()
    }
}
