//! Instrumentation scopes.

ghost use Rattle.std.specs.Prelude.{◌≡◌, IfOk, IsOkUnless, Some, None, []};
ghost use Rattle.std.specs.Option.{option_map};
ghost use Rattle.std.specs.Slice.Iter.{iter_rest};
ghost use Rattle.std.specs.String.{string_bytes};
ghost use Rattle.otel_common.specs.Canonical.{IsStablySorted};

use crate::attributes::KeyValue;
use crate::faults::Fault;
use crate::lists::Items;
use crate::strings::StringValue;
use std::alloc::Global;
use std::slice::Iter;

/// What the instruments of a meter belong to: a library, or a part of a program (Common specification, "Instrumentation
/// scope").
///
/// Two scopes are equal exactly if their four parts are: name, version, schema URL and attributes.
#[derive(Clone, Debug, PartialEq, Eq, Hash)]
pub struct InstrumentationScope {
    name: StringValue,
    version: Option<StringValue>,
    schema_url: Option<StringValue>,
    attributes: Items<KeyValue>,
}

impl Drop for InstrumentationScope {
    /// A function of its own, so that no proof about who lets one go looks into it.
    fn drop(self) {
        let InstrumentationScope {
            name: _name,
            version: _version,
            schema_url: _schema_url,
            attributes: _attributes,
        } = self;
    }
}

impl InstrumentationScope {
    /// Returns a builder of a scope of this name, with no version, no schema URL and no attributes. Takes no memory.
    pub fn builder(alloc: Global, name: String) -> InstrumentationScopeBuilder
        ensures { result.scope ≡ record { name = string_bytes name; version = None; schema_url = None; attributes = [] } }
    {
        InstrumentationScopeBuilder {
            scope: InstrumentationScope {
                name: StringValue::from(name),
                version: None,
                schema_url: None,
                attributes: Items::from(Vec::new(alloc)),
            },
        }
    }

    /// Returns the scope with an empty name and nothing else. Takes no memory.
    pub fn default(alloc: Global) -> InstrumentationScope
        ensures { result ≡ record { name = []; version = None; schema_url = None; attributes = [] } }
    {
        InstrumentationScope {
            name: StringValue::from(String::new(alloc)),
            version: None,
            schema_url: None,
            attributes: Items::from(Vec::new(alloc)),
        }
    }

    /// The name.
    pub fn name(&self) -> &str
        ensures { result.now ≡ self.now.name }
    {
        self.name.as_str()
    }

    /// The version, if one was given.
    pub fn version(&self) -> Option<&str>
        ensures { option_map (λ s. s.now) result ≡ self.now.version }
    {
        match &self.version {
            Some(version) => Some(version.as_str()),
            None => None,
        }
    }

    /// The schema URL, if one was given.
    pub fn schema_url(&self) -> Option<&str>
        ensures { option_map (λ s. s.now) result ≡ self.now.schema_url }
    {
        match &self.schema_url {
            Some(url) => Some(url.as_str()),
            None => None,
        }
    }

    /// The attributes, in byte order of their keys. A key may occur more than once.
    pub fn attributes(&self) -> Iter<'_, KeyValue>
        ensures { iter_rest result ≡ self.now.attributes }
    {
        self.attributes.as_slice().iter()
    }

    /// Sorts its attributes stably by key.
    fn sorted(self) -> Result<InstrumentationScope, Fault>
        ensures rest { IfOk result (λ s. s ≡ record self { attributes = s.attributes }) }
        ensures sorted { IfOk result (λ s. IsStablySorted self.attributes s.attributes) }
        ensures only_memory { IsOkUnless result Fault.OutOfMemory }
    {
        let InstrumentationScope {
            name,
            version,
            schema_url,
            attributes,
        } = self;
        let mut attributes = attributes.into_vec();
        attributes.sort_by(|a, b| a.key.cmp(&b.key))?;
        Ok(InstrumentationScope {
            name,
            version,
            schema_url,
            attributes: Items::from(attributes),
        })
    }
}

/// A builder of scopes.
#[derive(Debug, Drop)]
pub struct InstrumentationScopeBuilder {
    scope: InstrumentationScope,
}

impl InstrumentationScopeBuilder {
    /// Sets the scope's version, in place of one given before.
    pub fn with_version(self, version: String) -> Self
        ensures { result.scope ≡ record self.scope { version = Some (string_bytes version) } }
    {
        let mut builder = self;
        builder.scope.version = Some(version.into());
        builder
    }

    /// Sets the scope's schema URL, in place of one given before.
    pub fn with_schema_url(self, schema_url: String) -> Self
        ensures { result.scope ≡ record self.scope { schema_url = Some (string_bytes schema_url) } }
    {
        let mut builder = self;
        builder.scope.schema_url = Some(schema_url.into());
        builder
    }

    /// Sets the scope's attributes, in place of those given before.
    pub fn with_attributes(self, attributes: Vec<KeyValue>) -> Self
        ensures { result.scope ≡ record self.scope { attributes = attributes.items } }
    {
        let mut builder = self;
        builder.scope.attributes = Items::from(attributes);
        builder
    }

    /// Builds the scope. Its attributes are sorted stably by key, and keys that occur more than once stay.
    ///
    /// Copies no attribute. Refused only for want of memory: the sort takes a buffer.
    pub fn build(self) -> Result<InstrumentationScope, Fault>
        ensures rest { IfOk result (λ s. s ≡ record self.scope { attributes = s.attributes }) }
        ensures sorted { IfOk result (λ s. IsStablySorted self.scope.attributes s.attributes) }
        ensures only_memory { IsOkUnless result Fault.OutOfMemory }
    {
        let InstrumentationScopeBuilder { scope } = self;
        scope.sorted()
    }
}
