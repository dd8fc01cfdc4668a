//! The families of a collection, their metrics, and the points that have none.

ghost use Rattle.std.specs.Prelude.{◌≡◌, ◌%◌, ◌^◌, ◌++◌, ◌||◌, ◌<◌, [], ◌∷◌, List, Some, OnOk, IfOk, fold, length, slice_index_or, slice_set};
ghost use Rattle.std.specs.List.{list_any};
ghost use Rattle.indexmap.specs.IndexSet.{insert_key};
ghost use Rattle.otel_common.specs.Equality.{bytes_eq};
ghost use Rattle.otel_prometheus.specs.Headings.{heading_of, kind_eq, is_reserved};
ghost use Rattle.otel_prometheus.specs.Totals.{total};
ghost use Rattle.otel_prometheus.specs.Families.{data_length, content_length, delta_in, delta_points, conflicting_points};
ghost use Rattle.otel_prometheus.specs.Groups.{Member, Group, members_of, all_members, groups_of, joined, has_family};
ghost use Rattle.otel_prometheus.specs.Standing.{IsNewName, AreFamilies, AreGroups};

use crate::headings::{
    Heading, Kind, content_kind, heading_of, is_reserved, is_same_kind, sample_names,
};
use indexmap::IndexSet;
use otel_common::scopes::InstrumentationScope;
use otel_common::strings::StringValue;
use otel_data::aggregated::{AggregatedMetrics, MetricData};
use otel_data::collections::{Metric, ResourceMetrics, ScopeMetrics};
use std::alloc::{AllocError, Global};
use std::marker::Model;

/// A family of samples: its name, its type and its help text.
#[derive(Drop)]
pub(crate) struct Family {
    pub(crate) heading: Heading,
    pub(crate) help: StringValue,
}

/// A metric, with its scope.
#[derive(Drop)]
pub(crate) struct Member<'a> {
    pub(crate) scope: &'a InstrumentationScope,
    pub(crate) metric: &'a Metric,
}

impl<'a> Model for Member<'a> {
    ghost use Rattle.otel_prometheus.specs.Groups.{Member};

    ghost Value = { Member };

    ghost view = { λ m. record { scope = m.scope.now; metric = m.metric.now } };
}

/// A family, with its metrics.
#[derive(Drop)]
pub(crate) struct Group<'a> {
    pub(crate) family: Family,
    pub(crate) members: Vec<Member<'a>>,
}

impl<'a> Model for Group<'a> {
    ghost use Rattle.otel_prometheus.specs.Groups.{Group};

    ghost Value = { Group };

    ghost view = { λ g. record { family = g.family; members = g.members.items } };
}

/// The families of metrics, in the order in which they come.
#[derive(Drop)]
pub(crate) struct Groups<'a> {
    pub(crate) list: Vec<Group<'a>>,
    /// The names of the families, in the same order.
    names: IndexSet<StringValue>,
    /// The names that samples of the families may have beside these.
    sample_names: IndexSet<StringValue>,
    /// How many points of metrics have no family, modulo 2^64.
    pub(crate) conflicting: u64,
}

/// Makes the family of this heading, with its first metric.
fn group_of<'a>(
    alloc: Global,
    heading: Heading,
    member: Member<'a>,
) -> Result<Group<'a>, AllocError>
    ensures { IfOk result (λ g. g ≡ record { family = record { heading = heading; help = member.entry.metric.description }; members = member.entry ∷ [] }) }
{
    let help = StringValue::new(alloc, member.metric.description())?;
    let family = Family { heading, help };
    let mut members = Vec::new(alloc);
    match members.push(member) {
        Ok(()) => Ok(Group { family, members }),
        Err(_) => Err(AllocError),
    }
}

/// Adds a metric to the family at this place, if it is of its type. Returns whether it is.
fn join<'a>(
    groups: &mut Vec<Group<'a>>,
    place: usize,
    kind: Kind,
    member: Member<'a>,
) -> Result<bool, AllocError>
    requires { place < length groups.old.items }
    ensures { (g : Group) → IfOk result (λ joins. (joins ≡ kind_eq (slice_index_or groups.old.items place g).family.heading.kind kind) × (groups.new.items ≡ slice_set groups.old.items place (joined joins (slice_index_or groups.old.items place g) member.entry))) }
{
    let group = &mut groups[place];
    if !is_same_kind(group.family.heading.kind, kind) {
        return Ok(false);
    }
    match group.members.push(member) {
        Ok(()) => Ok(true),
        Err(_) => Err(AllocError),
    }
}

/// Notes a name.
fn note(names: &mut IndexSet<StringValue>, name: StringValue) -> Result<(), AllocError>
    ensures { OnOk result (names.new.keys ≡ insert_key bytes_eq names.old.keys name) }
{
    match names.insert_full(name) {
        Ok(_) => Ok(()),
        Err(_) => Err(AllocError),
    }
}

/// Notes each of these names.
fn note_each(names: &mut IndexSet<StringValue>, more: Vec<StringValue>) -> Result<(), AllocError>
    ensures { OnOk result (names.new.keys ≡ fold (insert_key bytes_eq) names.old.keys more.items) }
{
    for name in more {
        note(names, name)?;
    }
    Ok(())
}

/// Whether one of these names was noted.
fn has_any(noted: &IndexSet<StringValue>, names: &[StringValue]) -> bool
    ensures { result ≡ list_any (λ n. list_any (bytes_eq n) noted.now.keys) names.now }
{
    names.iter().any(|name| noted.contains(name))
}

impl<'a> Groups<'a> {
    /// Makes the families of no metrics. Takes no memory.
    fn new(alloc: Global) -> Groups<'a>
        ensures { AreGroups result [] }
    {
        Groups {
            list: Vec::new(alloc),
            names: IndexSet::new(alloc),
            sample_names: IndexSet::new(alloc),
            conflicting: 0,
        }
    }

    /// Whether a family of this name, which none of these has, can't stand beside them: its name or that of one of its
    /// samples is taken.
    fn is_refused(&self, name: &StringValue, sample_names: &[StringValue]) -> bool
        ensures { result ≡ is_reserved name.now || (list_any (bytes_eq name.now) self.now.sample_names.keys || list_any (λ n. list_any (bytes_eq n) self.now.names.keys) sample_names.now) }
    {
        is_reserved(name.as_str().as_bytes())
            || self.sample_names.contains(name)
            || has_any(&self.names, sample_names)
    }

    /// Adds a family with its first metric, unless it can't stand beside these. Returns whether it can.
    fn found(
        &mut self,
        alloc: Global,
        heading: Heading,
        member: Member<'a>,
    ) -> Result<bool, AllocError>
        ensures families { (seen : List Member) → AreFamilies self.old seen → IsNewName self.old heading member.entry → OnOk result (AreFamilies self.new (seen ++ member.entry ∷ [])) }
        ensures has_one { (seen : List Member) → AreFamilies self.old seen → IsNewName self.old heading member.entry → IfOk result (λ has_one. has_one ≡ has_family (seen ++ member.entry ∷ []) heading) }
        ensures conflicting { self.new.conflicting ≡ self.old.conflicting }
    {
        let sample_names = sample_names(alloc, &heading)?;
        if self.is_refused(&heading.name, sample_names.as_slice()) {
            return Ok(false);
        }
        note(&mut self.names, heading.name.clone()?)?;
        note_each(&mut self.sample_names, sample_names)?;
        if self.list.push(group_of(alloc, heading, member)?).is_err() {
            return Err(AllocError);
        }
        Ok(true)
    }

    /// Adds a metric of this heading to its family. Returns whether it has one.
    fn place(
        &mut self,
        alloc: Global,
        heading: Heading,
        member: Member<'a>,
    ) -> Result<bool, AllocError>
        requires { (seen : List Member) × AreFamilies self.old seen }
        ensures families { (seen : List Member) → AreFamilies self.old seen → heading_of member.entry.metric ≡ Some heading → OnOk result (AreFamilies self.new (seen ++ member.entry ∷ [])) }
        ensures has_one { (seen : List Member) → AreFamilies self.old seen → heading_of member.entry.metric ≡ Some heading → IfOk result (λ has_one. has_one ≡ has_family (seen ++ member.entry ∷ []) heading) }
        ensures conflicting { self.new.conflicting ≡ self.old.conflicting }
    {
        match self.names.get_index_of(&heading.name) {
            Some(place) => {
                let joins = join(&mut self.list, place, heading.kind, member)?;
                Ok(joins)
            }
            None => self.found(alloc, heading, member),
        }
    }

    /// Adds a metric, with its scope.
    fn add(
        &mut self,
        alloc: Global,
        scope: &'a InstrumentationScope,
        metric: &'a Metric,
    ) -> Result<(), AllocError>
        requires { (seen : List Member) × AreGroups self.old seen }
        ensures { (seen : List Member) → AreGroups self.old seen → OnOk result (AreGroups self.new (seen ++ record { scope = scope.now; metric = metric.now } ∷ [])) }
    {
        let Some(heading) = heading_of(alloc, metric)? else {
            return Ok(());
        };
        if !self.place(alloc, heading, Member { scope, metric })? {
            self.conflicting = self.conflicting.wrapping_add(content_length(metric.data()));
        }
        Ok(())
    }

    /// Adds the metrics of a scope.
    fn add_scope(&mut self, alloc: Global, one: &'a ScopeMetrics) -> Result<(), AllocError>
        requires { (seen : List Member) × AreGroups self.old seen }
        ensures { (seen : List Member) → AreGroups self.old seen → OnOk result (AreGroups self.new (seen ++ members_of one.now)) }
    {
        let scope = one.scope();
        let metrics = one.metrics().as_slice();
        for metric in metrics {
            self.add(alloc, scope, metric)?;
        }
        Ok(())
    }
}

/// Returns the families of a collection, with their metrics.
pub(crate) fn grouped<'a>(
    alloc: Global,
    collected: &'a ResourceMetrics,
) -> Result<Groups<'a>, AllocError>
    ensures groups { IfOk result (λ found. found.list.items ≡ groups_of (all_members collected.now)) }
    ensures conflicting { IfOk result (λ found. found.conflicting ≡ conflicting_points collected.now % 2 ^ 64) }
{
    let mut found = Groups::new(alloc);
    let scopes = collected.scope_metrics().as_slice();
    for scope in scopes {
        found.add_scope(alloc, scope)?;
    }
    Ok(found)
}

/// How many points there are.
fn data_length<T>(points: &MetricData<T>) -> usize
    ensures { result ≡ data_length points.now }
{
    match points {
        MetricData::Gauge(gauge) => gauge.data_points().as_slice().len(),
        MetricData::Sum(sum) => sum.data_points().as_slice().len(),
        MetricData::Histogram(histogram) => histogram.data_points().as_slice().len(),
    }
}

/// How many points there are of either number type.
fn content_length(content: &AggregatedMetrics) -> u64
    ensures { result ≡ content_length content.now }
{
    match content {
        AggregatedMetrics::U64(points) => data_length(points) as u64,
        AggregatedMetrics::I64(points) => data_length(points) as u64,
    }
}

/// How many points of a metric cover one collection alone.
fn delta_in(metric: &Metric) -> u64
    ensures { result ≡ delta_in metric.now }
{
    match content_kind(metric.data()) {
        Some(_) => 0,
        None => content_length(metric.data()),
    }
}

/// How many points of metrics cover one collection alone, modulo 2^64.
#[tactic(auto, using(crate::proofs::SeriesLemmas::counted))]
fn delta_in_all(metrics: &[Metric]) -> u64
    ensures { result ≡ total delta_in metrics.now % 2 ^ 64 }
{
    let mut count = 0u64;
    for metric in metrics {
        count = count.wrapping_add(delta_in(metric));
    }
    count
}

/// How many points of a collection cover it alone, modulo 2^64.
#[tactic(auto, using(crate::proofs::SeriesLemmas::counted_rest))]
pub(crate) fn delta_points(collected: &ResourceMetrics) -> u64
    ensures { result ≡ delta_points collected.now % 2 ^ 64 }
{
    let mut count = 0u64;
    let scopes = collected.scope_metrics().as_slice();
    for scope in scopes {
        count = count.wrapping_add(delta_in_all(scope.metrics().as_slice()));
    }
    count
}
