//! One stream of one reader.

ghost use Rattle.std.specs.Prelude.{◌≡◌, nat_lt, true, false, Some, IfOk, IfSome, IsOk, OnOk, OnErr, IsOkUnless};
ghost use Rattle.std.specs.Option.{option_map};
ghost use Rattle.otel_common.specs.Temporalities.{resets};
ghost use Rattle.otel_model.specs.Calls.{is_observable};
ghost use Rattle.otel_model.specs.Collections.{number_of_points};
ghost use Rattle.opentelemetry_sdk.specs.pipeline.Known.{is_known_to};
ghost use Rattle.opentelemetry_sdk.specs.pipeline.Pipelines.{IsReady, IsAlike};
ghost use Rattle.opentelemetry_sdk.specs.pipeline.Observations.{IsDraftOf, draft_of, drafted};
ghost use Rattle.opentelemetry_sdk.specs.pipeline.Streams.{IsMakeable, new_contents, without_pending, contents_after, contents_after_record, contents_prepared, contents_after_collection, shown_metric, if_points};

use crate::pipeline::aggregations::{is_observable, settings_of};
use crate::pipeline::change::Change;
use otel_aggregate::aggregate_stream::AggregateStream;
use otel_aggregate::draft::AggregateDraft;
use otel_aggregate::value_map::hashed_key::GivenAttributes;
use otel_aggregate::value_map::hashing::SetHashBuilder;
use otel_common::faults::Fault;
use otel_common::laws::copied_attributes;
use otel_common::metrics::Temporality;
use otel_data::aggregated::{AggregatedMetrics, MetricData};
use otel_data::collections::Metric;
use otel_data::numbers::NumberValue;
use otel_stream::demand::Demand;
use otel_stream::observation::Observed;
use std::alloc::{AllocError, Global};
use std::marker::Model;

/// A stream: what was demanded, and the records so far.
#[derive(Drop)]
pub(crate) struct MetricStream {
    demand: Demand,
    aggregate: AggregateStream,
}

impl Model for MetricStream {
    ghost use Rattle.opentelemetry_sdk.specs.pipeline.Streams.{StreamContents, IsAsked, contents_of};

    ghost Value = { StreamContents };

    ghost view = { λ s. contents_of s.demand s.aggregate };

    ghost invariant = { λ s. IsAsked s.demand s.aggregate };
}

/// Whether a metric has points.
fn has_points(metrics: &AggregatedMetrics) -> bool
    ensures { result ≡ nat_lt 0 (number_of_points metrics.now) }
{
    let many = match metrics {
        AggregatedMetrics::U64(MetricData::Gauge(gauge)) => gauge.data_points().len(),
        AggregatedMetrics::U64(MetricData::Sum(sum)) => sum.data_points().len(),
        AggregatedMetrics::U64(MetricData::Histogram(histogram)) => histogram.data_points().len(),
        AggregatedMetrics::I64(MetricData::Gauge(gauge)) => gauge.data_points().len(),
        AggregatedMetrics::I64(MetricData::Sum(sum)) => sum.data_points().len(),
        AggregatedMetrics::I64(MetricData::Histogram(histogram)) => histogram.data_points().len(),
    };
    many > 0
}

impl MetricStream {
    /// Makes a stream without records at the moment `now`, in nanoseconds since 1970, for a reader that answered this
    /// temporality.
    #[inline(always)]
    pub(crate) fn new(
        alloc: Global,
        hasher: SetHashBuilder,
        temporality: Temporality,
        demand: Demand,
        now: u64,
    ) -> Result<MetricStream, Fault>
        requires { IsMakeable demand }
        ensures made { IfOk result (λ s. s ≡ new_contents (resets temporality) demand now) }
        ensures only_memory { IsOkUnless result Fault.OutOfMemory }
    {
        copied_attributes();
        let settings = settings_of(&demand)?;
        let allow = demand.allow.clone()?;
        let aggregate = AggregateStream::new(
            alloc,
            hasher,
            settings,
            demand.identity.signed,
            temporality,
            allow,
            demand.limit,
            now,
        )?;
        Ok(MetricStream { demand, aggregate })
    }

    /// What was demanded.
    pub(crate) fn demand(&self) -> &Demand
        ensures { result.now ≡ self.now.stream.demand }
    {
        &self.demand
    }

    /// Prepares a record with these attributes or, if `binds`, a bind, and then makes room for its handle too. What the
    /// stream shows stays unchanged.
    #[inline(always)]
    pub(crate) fn prepare(
        &mut self,
        attributes: &GivenAttributes,
        binds: bool,
    ) -> Result<(), AllocError>
        ensures same { without_pending self.new ≡ without_pending self.old }
        ensures ready { OnOk result (IsReady binds attributes.now self.new) }
        ensures known { binds ≡ false → is_known_to attributes.now self.old.stream ≡ true → IsOk result }
    {
        self.aggregate.prepare(attributes)?;
        if !binds {
            return Ok(());
        }
        match self.aggregate.make_room() {
            Ok(()) => Ok(()),
            Err(_) => Err(AllocError),
        }
    }

    /// Takes in a record with these attributes, if the value has the stream's number type.
    #[inline(always)]
    pub(crate) fn record(
        &mut self,
        value: NumberValue,
        attributes: &GivenAttributes,
    ) -> Result<(), AllocError>
        ensures ok { OnOk result (self.new ≡ contents_after_record value attributes.now self.old) }
        ensures err { OnErr result (without_pending self.new ≡ without_pending self.old) }
        ensures known { is_known_to attributes.now self.old.stream ≡ true → IsOk result }
    {
        self.aggregate.measure(value, attributes)
    }

    /// Prepares a record with these attributes beside those that are prepared, to be taken in before them, if it makes no
    /// entry, and answers whether it did. What the stream shows stays unchanged.
    #[inline(always)]
    pub(crate) fn prepare_known(&mut self, attributes: &GivenAttributes) -> bool
        ensures ready { result ≡ true → self.new ≡ contents_prepared attributes.now self.old }
        ensures known { result ≡ true → is_known_to attributes.now self.old.stream ≡ true }
        ensures same { without_pending self.new ≡ without_pending self.old }
    {
        self.aggregate.prepare_known(attributes)
    }

    /// Carries a change out, and returns the place of the handle that it bound, for a record through it; 0 if it bound
    /// none.
    ///
    /// A record is taken in if the value has the stream's number type; one that was prepared, if there is one; and one
    /// through a handle, if the stream has it. A bind is made if one is prepared and the handle isn't live already.
    #[inline(always)]
    pub(crate) fn change(&mut self, change: Change<'_>) -> usize
        requires { IsAlike change }
        ensures { self.new ≡ contents_after change.entry self.old }
    {
        match change {
            Change::Prepared(value) => {
                self.aggregate.commit(value);
                0
            }
            Change::Each(values) => {
                self.aggregate.commit_each(values);
                0
            }
            Change::Empty(value) => {
                self.aggregate.measure_none(value);
                0
            }
            Change::Held(handle, place, value) => {
                self.aggregate.update_bound(handle, place, value);
                0
            }
            Change::Bind(handle) => {
                if is_observable(self.demand.identity.kind) {
                    return 0;
                }
                self.aggregate.commit_bind(handle)
            }
            Change::Unbind(handle) => {
                self.aggregate.unbind(handle);
                0
            }
        }
    }

    /// Ends a collection, which gave the stream's points, at the moment `now`, in nanoseconds since 1970.
    pub(crate) fn finish(&mut self, now: u64)
        ensures { without_pending self.new ≡ without_pending (contents_after_collection now self.old) }
    {
        // Tells the prover that observed sums have no handles.
        self.aggregate.law_of_handles();
        self.aggregate.finish(now);
    }

    /// Exchanges the entries and the total of the records with those of its draft, if there is one. Takes no memory.
    pub(crate) fn exchange(&mut self, draft: &mut Option<AggregateDraft>)
        requires { IfSome draft.old (λ d. IsDraftOf d self.old.stream.demand) }
        ensures stream { without_pending self.new ≡ drafted draft.old self.old }
        ensures draft { draft.new ≡ option_map (λ _. draft_of self.old) draft.old }
    {
        if let Some(draft) = draft {
            self.aggregate.exchange(draft);
        }
    }

    /// Exchanges an observable instrument's stream with its draft, or makes the draft if there is none yet.
    ///
    /// A new draft gets copies of the entries, which share their sets. The stream goes on with the entries themselves,
    /// and the memory that they have for more.
    fn enter_draft(
        &mut self,
        alloc: Global,
        draft: &mut Option<AggregateDraft>,
    ) -> Result<(), Fault>
        requires observable { is_observable self.old.stream.demand.identity.kind ≡ true }
        requires fits { IfSome draft.old (λ d. IsDraftOf d self.old.stream.demand) }
        ensures stream { without_pending self.new ≡ drafted draft.old self.old }
        ensures draft { OnOk result (draft.new ≡ Some (draft_of self.old)) }
        ensures refused { OnErr result (without_pending self.new ≡ without_pending self.old) }
        ensures only_memory { IsOkUnless result Fault.OutOfMemory }
    {
        if draft.is_some() {
            self.exchange(draft);
            return Ok(());
        }
        *draft = Some(self.aggregate.draft(alloc)?);
        Ok(())
    }

    /// Takes an observation into the stream's draft, as a record, and makes the draft if there is none yet.
    pub(crate) fn observe(
        &mut self,
        alloc: Global,
        draft: &mut Option<AggregateDraft>,
        observation: &Observed,
    ) -> Result<(), Fault>
        requires observable { is_observable self.old.stream.demand.identity.kind ≡ true }
        requires fits { IfSome draft.old (λ d. IsDraftOf d self.old.stream.demand) }
        ensures same { without_pending self.new ≡ without_pending self.old }
        ensures fits { OnOk result (IfSome draft.new (λ d. IsDraftOf d self.new.stream.demand)) }
        ensures observed { OnOk result (drafted draft.new self.new ≡ contents_after_record observation.now.value observation.now.attributes (drafted draft.old self.old)) }
        ensures only_memory { IsOkUnless result Fault.OutOfMemory }
    {
        self.enter_draft(alloc, draft)?;
        let attributes = GivenAttributes::new(observation.attributes.as_slice());
        let observed = self.record(observation.value, &attributes);
        self.exchange(draft);
        observed?;
        Ok(())
    }

    /// What a collection at the moment `now`, in nanoseconds since 1970, gives for the stream, or `None` if it has no
    /// points.
    pub(crate) fn metric(&self, alloc: Global, now: u64) -> Result<Option<Metric>, Fault>
        ensures metric { IfOk result (λ m. m ≡ if_points (shown_metric now self.now)) }
        ensures only_memory { IsOkUnless result Fault.OutOfMemory }
    {
        let points = self.aggregate.points(alloc, now)?;
        if !has_points(&points) {
            return Ok(None);
        }
        let identity = &self.demand.identity;
        Ok(Some(Metric::new(
            self.demand.spelling.clone()?,
            identity.description.clone()?,
            identity.unit.clone()?,
            points,
        )))
    }
}
