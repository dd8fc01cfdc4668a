//! What one collection gives.

ghost use Rattle.std.specs.Prelude.{◌≡◌, [], None};
ghost use Rattle.std.specs.List.{find};
ghost use Rattle.std.specs.Option.{option_map};
ghost use Rattle.std.specs.Slice.Iter.{iter_rest};
ghost use Rattle.otel_common.specs.Equality.{bytes_eq};

use crate::aggregated::AggregatedMetrics;
use otel_common::lists::Items;
use otel_common::resource::Resource;
use otel_common::scopes::InstrumentationScope;
use otel_common::strings::StringValue;
use std::alloc::Global;
use std::slice::Iter;

/// A metric of one collection (Metrics data model).
#[derive(Clone, Debug)]
pub struct Metric {
    name: StringValue,
    description: StringValue,
    unit: StringValue,
    content: AggregatedMetrics,
}

impl Drop for Metric {
    /// A function of its own, so that no proof about who lets one go looks into it.
    fn drop(self) {
        let Metric {
            name: _name,
            description: _description,
            unit: _unit,
            content: _content,
        } = self;
    }
}

impl Metric {
    /// Makes a metric of its parts. The description and the unit are empty if none was given.
    pub fn new(
        name: StringValue,
        description: StringValue,
        unit: StringValue,
        content: AggregatedMetrics,
    ) -> Metric
        ensures { result ≡ record { name = name; description = description; unit = unit; content = content } }
    {
        Metric {
            name,
            description,
            unit,
            content,
        }
    }

    /// The name of the stream, as it was first spelled.
    pub fn name(&self) -> &str
        ensures { result.now ≡ self.now.name }
    {
        self.name.as_str()
    }

    /// What the stream is for; empty if no description was given.
    pub fn description(&self) -> &str
        ensures { result.now ≡ self.now.description }
    {
        self.description.as_str()
    }

    /// The unit of the values; empty if none was given.
    pub fn unit(&self) -> &str
        ensures { result.now ≡ self.now.unit }
    {
        self.unit.as_str()
    }

    /// The points, by the number type and the aggregation of the stream.
    pub fn data(&self) -> &AggregatedMetrics
        ensures { result.now ≡ self.now.content }
    {
        &self.content
    }

    /// Consumes the metric and returns its name, description, unit and points. Takes no memory.
    pub fn into_parts(self) -> (StringValue, StringValue, StringValue, AggregatedMetrics)
        ensures { result ≡ (self.name, self.description, self.unit, self.content) }
    {
        let Metric {
            name,
            description,
            unit,
            content,
        } = self;
        (name, description, unit, content)
    }
}

/// The metrics of one scope (Metrics data model).
#[derive(Clone, Debug)]
pub struct ScopeMetrics {
    scope: InstrumentationScope,
    metrics: Items<Metric>,
}

impl Drop for ScopeMetrics {
    /// A function of its own, so that no proof about who lets one go looks into it.
    fn drop(self) {
        let ScopeMetrics {
            scope: _scope,
            metrics: _metrics,
        } = self;
    }
}

impl ScopeMetrics {
    /// Makes the metrics of a scope.
    pub fn new(scope: InstrumentationScope, metrics: Items<Metric>) -> ScopeMetrics
        ensures { result ≡ record { scope = scope; metrics = metrics } }
    {
        ScopeMetrics { scope, metrics }
    }

    /// Returns an empty list of metrics, of the scope with an empty name and nothing else. Takes no memory.
    pub fn default(alloc: Global) -> ScopeMetrics
        ensures { result ≡ record { scope = record { name = []; version = None; schema_url = None; attributes = [] }; metrics = [] } }
    {
        ScopeMetrics {
            scope: InstrumentationScope::default(alloc),
            metrics: Items::from(Vec::new(alloc)),
        }
    }

    /// Consumes the metrics and returns their scope and the metrics themselves. Takes no memory.
    pub fn into_parts(self) -> (InstrumentationScope, Items<Metric>)
        ensures { result ≡ (self.scope, self.metrics) }
    {
        let ScopeMetrics { scope, metrics } = self;
        (scope, metrics)
    }

    /// The scope that the metrics belong to.
    pub fn scope(&self) -> &InstrumentationScope
        ensures { result.now ≡ self.now.scope }
    {
        &self.scope
    }

    /// The metrics, one for each stream that has points.
    pub fn metrics(&self) -> Iter<'_, Metric>
        ensures { iter_rest result ≡ self.now.metrics }
    {
        self.metrics.as_slice().iter()
    }

    /// The first metric of this name, if there is one. Goes over the metrics up to it.
    pub fn metric(&self, name: &str) -> Option<&Metric>
        ensures { option_map (λ found. found.now) result ≡ find (λ metric. bytes_eq metric.name name.now) self.now.metrics }
    {
        for metric in self.metrics.as_slice() {
            if metric.name() == name {
                return Some(metric);
            }
        }
        None
    }
}

/// All that one collection gives (Metrics data model).
#[derive(Clone, Debug)]
pub struct ResourceMetrics {
    resource: Resource,
    scope_metrics: Items<ScopeMetrics>,
}

impl Drop for ResourceMetrics {
    /// A function of its own, so that no proof about who lets one go looks into it.
    fn drop(self) {
        let ResourceMetrics {
            resource: _resource,
            scope_metrics: _scope_metrics,
        } = self;
    }
}

impl ResourceMetrics {
    /// Makes a collection of the metrics of these scopes, which come from the resource.
    pub fn new(resource: Resource, scope_metrics: Items<ScopeMetrics>) -> ResourceMetrics
        ensures { result ≡ record { resource = resource; scope_metrics = scope_metrics } }
    {
        ResourceMetrics {
            resource,
            scope_metrics,
        }
    }

    /// Returns an empty collection, from the empty resource. Takes no memory.
    pub fn default(alloc: Global) -> ResourceMetrics
        ensures { result ≡ record { resource = record { attributes = []; schema_url = None }; scope_metrics = [] } }
    {
        ResourceMetrics {
            resource: Resource::builder_empty(alloc).build(),
            scope_metrics: Items::from(Vec::new(alloc)),
        }
    }

    /// Consumes the collection and returns its resource and its scopes with their metrics. Takes no memory.
    pub fn into_parts(self) -> (Resource, Items<ScopeMetrics>)
        ensures { result ≡ (self.resource, self.scope_metrics) }
    {
        let ResourceMetrics {
            resource,
            scope_metrics: scopes,
        } = self;
        (resource, scopes)
    }

    /// The resource that the metrics come from.
    pub fn resource(&self) -> &Resource
        ensures { result.now ≡ self.now.resource }
    {
        &self.resource
    }

    /// The scopes that have metrics, each with its metrics.
    pub fn scope_metrics(&self) -> Iter<'_, ScopeMetrics>
        ensures { iter_rest result ≡ self.now.scope_metrics }
    {
        self.scope_metrics.as_slice().iter()
    }

    /// The metrics of the first scope of this name, if there is one. Goes over the scopes up to it.
    pub fn scope(&self, name: &str) -> Option<&ScopeMetrics>
        ensures { option_map (λ found. found.now) result ≡ find (λ metrics. bytes_eq metrics.scope.name name.now) self.now.scope_metrics }
    {
        for metrics in self.scope_metrics.as_slice() {
            if metrics.scope().name() == name {
                return Some(metrics);
            }
        }
        None
    }
}
