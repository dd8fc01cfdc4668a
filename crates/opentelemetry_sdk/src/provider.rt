//! The provider and its builder.

ghost use Rattle.std.specs.Prelude.{◌≡◌, ◌++◌, ◌∷◌, [], false, true, List, None, Some, Result, map, IfOk, OnErr, IsOkAnd, IsOkUnless};
ghost use Rattle.std.specs.List.{list_any};
ghost use Rattle.otel_stream.specs.Runs.{Ran, RanAll};
ghost use Rattle.otel_stream.specs.declared.observation.Observed.{Observed};
ghost use Rattle.otel_common.specs.declared.faults.Fault.{Fault};
ghost use Rattle.otel_model.specs.Answered.{OfEachMetric, ShowsWindow, ShowsAll, HasFewPoints};
ghost use Rattle.otel_model.specs.Calls as model;
ghost use Rattle.otel_model.specs.Laws.{HasStreamsOfBuilds, HasFeedsOfBuilds, HasPlacesOfHistories, HasCountedOfHistories, IsGivenCollections, IsAnsweredAsOnly, HasRecordedTotal, HasExportedTotal, HasPendingPoints, Conserves, HasAccepted, KeepsReaders};
ghost use Rattle.otel_model.specs.Machine.{new_state};
ghost use Rattle.otel_model.specs.Resources.{empty_resource, merged_resource};
ghost use Rattle.otel_model.specs.Steps.{Step, Run, asks_readers};
ghost use Rattle.otel_model.specs.Given.{IsGivenOrPending};
ghost use Rattle.otel_model.specs.Lawful.{Balances, IsLawful};
ghost use Rattle.opentelemetry_sdk.specs.Checks.{collect_refusal};
ghost use Rattle.opentelemetry_sdk.specs.Callbacks.{IsCollectionOf, IsCollected};
ghost use Rattle.opentelemetry_sdk.specs.Headline.{OfReaders, OfStreams, OfAnswers, InAnyOrder};
ghost use Rattle.opentelemetry_sdk.specs.Providers.{state_of, resource_of, identity_of_builder, fixed_hash_seed, hash_seed_of, hash_seed_of_builder, answers_of_readers, views_of, builder_readers, builder_views, provider_readers, provider_views, callbacks_of, wants_of};
ghost use Rattle.opentelemetry_sdk.specs.Correspondence.{call_of, reply_of, reply_to};
ghost use Rattle.opentelemetry_sdk.specs.Known.{IsKnown, HasMemory, EachKnownHasMemory};
ghost use Rattle.opentelemetry_sdk.specs.Readers.{AreReached, ShutsDown, StepReaches, RunReaches};
ghost use Rattle.opentelemetry_sdk.specs.Typed.{collect_reply, collected_reply};
ghost use Rattle.otel_stream.specs.Answers.{answers_wanting};

use crate::calls::{Call, Reply};
use crate::parts::{Boxed, Parts};
use crate::provider_core::Core;
use crate::provider_core::new_readers::NewReaders;
use otel_aggregate::value_map::hashing::SetHashBuilder;
use otel_common::faults::{Fault, OTelSdkResult};
use otel_common::resource::Resource;
use otel_data::collections::ResourceMetrics;
use otel_stream::registered::{Registered, run_callbacks};
use std::alloc::Global;
use std::time::Duration;

/// Makes a provider, from a resource, readers and views (Metrics SDK, "MeterProvider Creation").
pub struct ProviderBuilder<P: Parts> {
    resource: Resource,
    identity: u64,
    hasher: SetHashBuilder,
    /// What each of the readers answered.
    answers: NewReaders,
    views: Vec<P::View>,
    readers: Vec<P::Reader>,
}

impl<P: Parts> Drop for ProviderBuilder<P> {
    /// A function of its own, so that no proof about who lets one go looks into it.
    fn drop(self) {
        let ProviderBuilder {
            resource: _resource,
            identity: _,
            hasher: _,
            answers: _answers,
            views: _views,
            readers: _readers,
        } = self;
    }
}

/// A provider of meters, which makes instruments, takes in their records and hands out collections (Metrics SDK,
/// "MeterProvider").
pub struct Provider<P: Parts> {
    pub(crate) core: Core,
    pub(crate) views: Vec<P::View>,
    pub(crate) readers: Vec<P::Reader>,
    pub(crate) callbacks: Vec<Registered<P::ObserveU64, P::ObserveI64>>,
}

impl<P: Parts> Drop for Provider<P> {
    /// A function of its own, so that no proof about who lets one go looks into it.
    fn drop(self) {
        let Provider {
            core: _core,
            views: _views,
            readers: _readers,
            callbacks: _callbacks,
        } = self;
    }
}

/// A provider whose views, readers and callbacks are boxes.
pub type SdkMeterProvider = Provider<Boxed>;

/// Makes a provider whose views, readers and callbacks are boxes.
pub type MeterProviderBuilder = ProviderBuilder<Boxed>;

impl<P: Parts> ProviderBuilder<P> {
    /// Makes the builder that `Provider::builder` makes: with the empty resource and the identity 0, and without
    /// readers. Takes no memory.
    pub fn default(alloc: Global) -> ProviderBuilder<P>
        ensures answers { answers_of_readers result ≡ [] }
        ensures resource { resource_of result ≡ empty_resource }
        ensures identity { identity_of_builder result ≡ 0 }
        ensures seeded { hash_seed_of_builder result ≡ fixed_hash_seed }
        ensures kept { builder_readers result ≡ [] }
        ensures views { builder_views result ≡ [] }
    {
        Provider::builder(alloc)
    }

    /// Merges the resource with another one, whose values win (Resource SDK, "Merge"; Metrics SDK, "MeterProvider
    /// Creation"). Each collection has the result.
    ///
    /// Copies no attribute. Refused only for want of memory; then the builder is dropped.
    pub fn with_resource(self, resource: Resource) -> Result<Self, Fault>
        ensures answers { IfOk result (λ b. answers_of_readers b ≡ answers_of_readers self) }
        ensures resource { IfOk result (λ b. resource_of b ≡ merged_resource (resource_of self) resource) }
        ensures identity { IfOk result (λ b. identity_of_builder b ≡ identity_of_builder self) }
        ensures seeded { IfOk result (λ b. hash_seed_of_builder b ≡ hash_seed_of_builder self) }
        ensures kept { IfOk result (λ b. builder_readers b ≡ builder_readers self) }
        ensures views { IfOk result (λ b. builder_views b ≡ builder_views self) }
        ensures only_memory { IsOkUnless result Fault.OutOfMemory }
    {
        let ProviderBuilder {
            resource: old,
            identity,
            hasher,
            answers,
            views,
            readers,
        } = self;
        Ok(ProviderBuilder {
            resource: old.merged_with(resource)?,
            identity,
            hasher,
            answers,
            views,
            readers,
        })
    }

    /// Adds the reader, and asks it once for the temporality, the limit and the aggregation that it wants for each kind
    /// of instrument. Its answers are kept. Readers are numbered from 0, in the order in which they were added.
    ///
    /// Refused only for want of memory; then the builder is dropped. Takes memory at most three times, and once for
    /// each histogram that the reader wants.
    pub fn with_reader(self, reader: P::Reader) -> Result<Self, Fault>
        ensures answers { IfOk result (λ b. answers_of_readers b ≡ answers_of_readers self ++ answers_wanting (P.Reader.preference reader) (P.Reader.limit reader) (P.Reader.aggregation reader) ∷ []) }
        ensures resource { IfOk result (λ b. resource_of b ≡ resource_of self) }
        ensures identity { IfOk result (λ b. identity_of_builder b ≡ identity_of_builder self) }
        ensures seeded { IfOk result (λ b. hash_seed_of_builder b ≡ hash_seed_of_builder self) }
        ensures kept { IfOk result (λ b. builder_readers b ≡ builder_readers self ++ reader ∷ []) }
        ensures views { IfOk result (λ b. builder_views b ≡ builder_views self) }
        ensures only_memory { IsOkUnless result Fault.OutOfMemory }
    {
        let mut builder = self;
        builder.answers.add(&reader)?;
        builder.readers.push(reader)?;
        Ok(builder)
    }

    /// Adds a view. Views are asked in the order in which they were added. Refused only for want of memory; then the
    /// builder is dropped.
    pub fn with_view(self, view: P::View) -> Result<Self, Fault>
        ensures answers { IfOk result (λ b. answers_of_readers b ≡ answers_of_readers self) }
        ensures resource { IfOk result (λ b. resource_of b ≡ resource_of self) }
        ensures identity { IfOk result (λ b. identity_of_builder b ≡ identity_of_builder self) }
        ensures seeded { IfOk result (λ b. hash_seed_of_builder b ≡ hash_seed_of_builder self) }
        ensures kept { IfOk result (λ b. builder_readers b ≡ builder_readers self) }
        ensures views { IfOk result (λ b. builder_views b ≡ builder_views self ++ view ∷ []) }
        ensures only_memory { IsOkUnless result Fault.OutOfMemory }
    {
        let mut builder = self;
        builder.views.push(view)?;
        Ok(builder)
    }

    /// Sets the identity of the provider, by which it knows the meters, instruments and handles that it gave as values;
    /// 0 if none is set. Providers of one identity aren't told apart. Takes no memory.
    pub fn with_identity(self, identity: u64) -> Self
        ensures answers { answers_of_readers result ≡ answers_of_readers self }
        ensures resource { resource_of result ≡ resource_of self }
        ensures identity { identity_of_builder result ≡ identity }
        ensures seeded { hash_seed_of_builder result ≡ hash_seed_of_builder self }
        ensures kept { builder_readers result ≡ builder_readers self }
        ensures views { builder_views result ≡ builder_views self }
    {
        let mut builder = self;
        builder.identity = identity;
        builder
    }

    /// Sets the seed of the hashes by which the provider finds sets of attributes; without one it is fixed.
    ///
    /// If clients choose attributes, take it from a source that they can't know, so that they can't make attributes
    /// that collide and slow records down. Nothing else depends on it. Takes no memory.
    pub fn with_hash_seed(self, seed: u64) -> Self
        ensures answers { answers_of_readers result ≡ answers_of_readers self }
        ensures resource { resource_of result ≡ resource_of self }
        ensures identity { identity_of_builder result ≡ identity_of_builder self }
        ensures seeded { hash_seed_of_builder result ≡ seed }
        ensures kept { builder_readers result ≡ builder_readers self }
        ensures views { builder_views result ≡ builder_views self }
    {
        let mut builder = self;
        builder.hasher = SetHashBuilder::new(seed);
        builder
    }

    /// Makes the provider, with the resource, the identity, the seed and the readers of the builder, and without meters
    /// and instruments. Always succeeds, and takes no memory.
    pub fn build(self) -> Result<Provider<P>, Fault>
        ensures state { IsOkAnd result (λ p. state_of p ≡ new_state (resource_of self) (identity_of_builder self) (answers_of_readers self)) }
        ensures seeded { IfOk result (λ p. hash_seed_of p ≡ hash_seed_of_builder self) }
        ensures kept { IfOk result (λ p. provider_readers p ≡ builder_readers self) }
        ensures views { IfOk result (λ p. provider_views p ≡ builder_views self) }
        ensures callbacks { IfOk result (λ p. callbacks_of p ≡ []) }
    {
        let ProviderBuilder {
            resource,
            identity,
            hasher,
            answers,
            views,
            readers,
        } = self;
        let alloc = *readers.allocator();
        Ok(Provider {
            core: Core::new(alloc, hasher, resource, identity, answers),
            views,
            readers,
            callbacks: Vec::new(alloc),
        })
    }
}

impl<P: Parts> Provider<P> {
    /// Makes a builder of a provider with the empty resource and the identity 0, and without readers. Takes no memory.
    pub fn builder(alloc: Global) -> ProviderBuilder<P>
        ensures answers { answers_of_readers result ≡ [] }
        ensures resource { resource_of result ≡ empty_resource }
        ensures identity { identity_of_builder result ≡ 0 }
        ensures seeded { hash_seed_of_builder result ≡ fixed_hash_seed }
        ensures kept { builder_readers result ≡ [] }
        ensures views { builder_views result ≡ [] }
    {
        ProviderBuilder {
            resource: Resource::builder_empty(alloc).build(),
            identity: 0,
            hasher: SetHashBuilder::default(),
            answers: NewReaders::new(alloc),
            views: Vec::new(alloc),
            readers: Vec::new(alloc),
        }
    }

    /// Makes a provider with the empty resource and the identity 0, and without readers. Takes no memory.
    pub fn default(alloc: Global) -> Provider<P>
        ensures state { state_of result ≡ new_state empty_resource 0 [] }
        ensures seeded { hash_seed_of result ≡ fixed_hash_seed }
        ensures kept { provider_readers result ≡ [] }
        ensures views { provider_views result ≡ [] }
        ensures callbacks { callbacks_of result ≡ [] }
    {
        Provider::builder(alloc).build().unwrap()
    }

    /// The readers, in the order in which they were added.
    pub fn readers(&self) -> &[P::Reader]
        ensures { result.now ≡ provider_readers self.now }
    {
        self.readers.as_slice()
    }

    /// Takes the provider apart into its core, views, readers and callbacks. Takes no memory.
    pub(crate) fn into_parts(
        self,
    ) -> (
        Core,
        Vec<P::View>,
        Vec<P::Reader>,
        Vec<Registered<P::ObserveU64, P::ObserveI64>>,
    )
        ensures core { result.0.state ≡ state_of self }
        ensures seeded { result.0.hash_seed ≡ hash_seed_of self }
        ensures views { result.1.items ≡ provider_views self }
        ensures readers { result.2.items ≡ provider_readers self }
        ensures callbacks { result.3.items ≡ callbacks_of self }
    {
        let Provider {
            core,
            views,
            readers,
            callbacks,
        } = self;
        (core, views, readers, callbacks)
    }

    /// Does nothing. Its clauses say that the streams of a provider balance, and that its state is lawful, whatever was
    /// called before: also where it was handed in, and before it is called.
    pub fn balances(&self)
        ensures balances { Balances (state_of self.now) }
        ensures lawful { IsLawful (state_of self.now) }
    {
        self.core.law_of_state();
    }

    /// Makes one call and returns its reply.
    ///
    /// A refused call changes nothing, except for a flush or a shutdown in which readers failed. `OutOfMemory` only
    /// comes if there is no other fault.
    ///
    /// - `Meter` looks up the scope. A new one is copied and added; a known one takes no memory. After a shutdown there
    ///   is no meter.
    /// - `Build` goes over name, unit and bounds once to check them. It asks each view once, for which it copies scope
    ///   and texts. At each reader, for each stream that is demanded, it copies scope, texts, keys and bounds, and
    ///   looks up the identity. It is made at all readers or at none.
    /// - `Record` looks up, in each stream that the instrument feeds, what the stream keeps of the attributes, in the
    ///   order given. One look-up is enough if that is sorted by key, has no key twice and has an entry; two are enough
    ///   if it is in the order that first brought its set. Otherwise references to it are sorted and looked up. Up to 16
    ///   keys are sorted without memory; a new set is copied, unless it goes to an overflow entry. A set that has an
    ///   entry is never refused for want of memory: if it has more keys and there is none for sorting them, it is found
    ///   in quadratic time. Without
    ///   attributes there is no look-up. A histogram finds the value's bucket by a binary search of its bounds. A record
    ///   is made in all streams or in none.
    /// - `Bind` looks up the attributes in each stream as a record does, holds a place there, and takes memory for the
    ///   number of the handle in each stream and in the provider. It is made in all streams or in none.
    /// - `RecordBound` looks up only the handle, once in the provider and once in each stream that its instrument
    ///   feeds. It takes no memory.
    /// - `Unbind` looks up only the handle, in the provider and in each stream that its instrument feeds. It takes no
    ///   memory, and constant time in each, amortized.
    /// - `Collect` checks each observation, in order, before it changes anything. Each goes to the streams of this
    ///   reader that its instrument feeds, as a record does; the entries of these streams are copied first, so that all
    ///   is undone if memory runs out. Then it goes once over the reader's streams, their points and the meters. It
    ///   copies the resource, the scopes and texts of what is shown, and the counts of histograms; sets and bounds are
    ///   shared with the streams. Then the streams whose reader wants `Delta` and the last values of observable gauges
    ///   start again, and observed sums are emptied, which takes no memory. Nothing else changes; other readers'
    ///   streams never do. After a shutdown it is refused.
    /// - `Flush` and `Shutdown` ask each reader once, in order, including those after one that failed. If readers
    ///   failed, they are refused with how many did and the number of the first; such a shutdown has shut the provider
    ///   down all the same. After a shutdown they are refused, and ask no reader. They take no memory beyond what
    ///   readers take.
    ///
    /// `known` says that a record is never refused for want of memory if it makes no entry: each stream has one of its
    /// attributes, or is past its limit and has the overflow entry.
    /// `reached` says what becomes of the readers: a flush and a shutdown ask them, any other call leaves them as they
    /// were.
    pub fn step(&mut self, call: &Call) -> Reply
        ensures step { Step (views_of P.View.answer self.old) (state_of self.old) (call_of call.now) (reply_of result) (state_of self.new) }
        ensures known { IsKnown (state_of self.old) (call_of call.now) → HasMemory result }
        ensures balances { Balances (state_of self.new) }
        ensures seeded { hash_seed_of self.new ≡ hash_seed_of self.old }
        ensures readers { KeepsReaders (state_of self.old) (state_of self.new) }
        ensures reached { StepReaches P.Reader.flushes P.Reader.shuts (state_of self.old).shared.shut (call_of call.now) (provider_readers self.old) (reply_of result) (provider_readers self.new) }
        ensures wants { wants_of P.Reader.preference P.Reader.limit P.Reader.aggregation self.new ≡ wants_of P.Reader.preference P.Reader.limit P.Reader.aggregation self.old }
        ensures views { provider_views self.new ≡ provider_views self.old }
        ensures callbacks { callbacks_of self.new ≡ callbacks_of self.old }
    {
        let reply = self.core.step(&self.views, &mut self.readers, call);
        self.core.law_of_state();
        reply
    }

    /// Makes a collection of a reader at a moment, in nanoseconds since 1970, and returns it (Metrics SDK, "Collect").
    ///
    /// Runs each callback once, on an empty list, in the order in which their instruments were built, up to the first
    /// that answers a fault. The rest is what `step` does with `Call::Collect` and all that was observed, which goes to
    /// the streams of this reader alone. Costs as much as that step and the callbacks.
    ///
    /// Refused if no reader has this number or the provider was shut down, and then no callback runs; with the fault of
    /// a callback; if a callback observed values of another number type than its instrument's; and for want of memory.
    /// Then nothing has changed except what callbacks did to themselves.
    pub fn collected(&mut self, reader: usize, now: u64) -> Result<ResourceMetrics, Fault>
        ensures unrun { (fault : model.Fault) → collect_refusal (state_of self.old) reader ≡ Some fault → (collected_reply result ≡ model.Reply.Refused fault) × (state_of self.new ≡ state_of self.old) × (callbacks_of self.new ≡ callbacks_of self.old) }
        ensures ran { collect_refusal (state_of self.old) reader ≡ None → (given : Result (List Observed) Fault) × RanAll (Ran P.ObserveU64.observes P.ObserveI64.observes) (callbacks_of self.old) (callbacks_of self.new) given × IsCollected (views_of P.View.answer self.old) (state_of self.old) reader now given result (state_of self.new) }
        ensures balances { Balances (state_of self.new) }
        ensures seeded { hash_seed_of self.new ≡ hash_seed_of self.old }
        ensures readers { KeepsReaders (state_of self.old) (state_of self.new) }
        ensures kept { provider_readers self.new ≡ provider_readers self.old }
        ensures views { provider_views self.new ≡ provider_views self.old }
    {
        self.core.law_of_state();
        self.core.check_collection(reader)?;
        let alloc = *self.callbacks.allocator();
        let observations = match run_callbacks(alloc, &mut self.callbacks) {
            Ok(observations) => observations,
            Err(fault) => return Err(fault),
        };
        let collected = self.core.collect(reader, now, &observations);
        self.core.law_of_state();
        collected
    }

    /// Makes a collection as [`Provider::collected`] does, and puts it into `metrics`, in place of what that held. If it
    /// is refused, `metrics` holds what it held before.
    pub fn collect(
        &mut self,
        reader: usize,
        now: u64,
        metrics: &mut ResourceMetrics,
    ) -> Result<(), Fault>
        ensures unrun { (fault : model.Fault) → collect_refusal (state_of self.old) reader ≡ Some fault → (collect_reply result metrics.new ≡ model.Reply.Refused fault) × (state_of self.new ≡ state_of self.old) × (callbacks_of self.new ≡ callbacks_of self.old) }
        ensures ran { collect_refusal (state_of self.old) reader ≡ None → (given : Result (List Observed) Fault) × RanAll (Ran P.ObserveU64.observes P.ObserveI64.observes) (callbacks_of self.old) (callbacks_of self.new) given × IsCollectionOf (views_of P.View.answer self.old) (state_of self.old) reader now given result metrics.new (state_of self.new) }
        ensures held { OnErr result (metrics.new ≡ metrics.old) }
        ensures balances { Balances (state_of self.new) }
        ensures seeded { hash_seed_of self.new ≡ hash_seed_of self.old }
        ensures readers { KeepsReaders (state_of self.old) (state_of self.new) }
        ensures kept { provider_readers self.new ≡ provider_readers self.old }
        ensures views { provider_views self.new ≡ provider_views self.old }
    {
        *metrics = self.collected(reader, now)?;
        Ok(())
    }

    /// Asks each reader to flush, in order, including those after one that failed (Metrics SDK, "ForceFlush"). The same
    /// as `step` with `Call::Flush`.
    ///
    /// Refused if the provider was shut down, and then no reader is asked; and if readers failed, with how many did and
    /// the number of the first. Takes no memory beyond what readers take.
    pub fn force_flush(&mut self) -> OTelSdkResult
        ensures step { Step (views_of P.View.answer self.old) (state_of self.old) model.Call.Flush (reply_to result) (state_of self.new) }
        ensures asked { AreReached P.Reader.flushes (state_of self.old).shared.shut (provider_readers self.old) (provider_readers self.new) result }
        ensures shut { (state_of self.new).shared.shut ≡ (state_of self.old).shared.shut }
        ensures balances { Balances (state_of self.new) }
        ensures seeded { hash_seed_of self.new ≡ hash_seed_of self.old }
        ensures readers { KeepsReaders (state_of self.old) (state_of self.new) }
        ensures wants { wants_of P.Reader.preference P.Reader.limit P.Reader.aggregation self.new ≡ wants_of P.Reader.preference P.Reader.limit P.Reader.aggregation self.old }
        ensures views { provider_views self.new ≡ provider_views self.old }
        ensures callbacks { callbacks_of self.new ≡ callbacks_of self.old }
    {
        let flushed = self.core.force_flush(&mut self.readers);
        self.core.law_of_state();
        flushed
    }

    /// Shuts the provider down and asks each reader to shut down, in order, including those after one that failed
    /// (Metrics SDK, "Shutdown"). The same as `step` with `Call::Shutdown`.
    ///
    /// Refused if the provider was shut down before, and then no reader is asked; and if readers failed, with how many
    /// did and the number of the first, and then the provider is shut down all the same. Takes no memory beyond what
    /// readers take.
    pub fn shutdown(&mut self) -> OTelSdkResult
        ensures step { Step (views_of P.View.answer self.old) (state_of self.old) model.Call.Shutdown (reply_to result) (state_of self.new) }
        ensures asked { AreReached (ShutsDown P.Reader.shuts) (state_of self.old).shared.shut (provider_readers self.old) (provider_readers self.new) result }
        ensures shut { (state_of self.new).shared.shut ≡ true }
        ensures balances { Balances (state_of self.new) }
        ensures seeded { hash_seed_of self.new ≡ hash_seed_of self.old }
        ensures readers { KeepsReaders (state_of self.old) (state_of self.new) }
        ensures wants { wants_of P.Reader.preference P.Reader.limit P.Reader.aggregation self.new ≡ wants_of P.Reader.preference P.Reader.limit P.Reader.aggregation self.old }
        ensures views { provider_views self.new ≡ provider_views self.old }
        ensures callbacks { callbacks_of self.new ≡ callbacks_of self.old }
    {
        let ended = self.core.shutdown(&mut self.readers);
        self.core.law_of_state();
        ended
    }

    /// Does the same as `shutdown`. The timeout is ignored: each reader is asked to shut down with its own.
    pub fn shutdown_with_timeout(&mut self, timeout: Duration) -> OTelSdkResult
        ensures step { Step (views_of P.View.answer self.old) (state_of self.old) model.Call.Shutdown (reply_to result) (state_of self.new) }
        ensures asked { AreReached (ShutsDown P.Reader.shuts) (state_of self.old).shared.shut (provider_readers self.old) (provider_readers self.new) result }
        ensures shut { (state_of self.new).shared.shut ≡ true }
        ensures balances { Balances (state_of self.new) }
        ensures seeded { hash_seed_of self.new ≡ hash_seed_of self.old }
        ensures readers { KeepsReaders (state_of self.old) (state_of self.new) }
        ensures wants { wants_of P.Reader.preference P.Reader.limit P.Reader.aggregation self.new ≡ wants_of P.Reader.preference P.Reader.limit P.Reader.aggregation self.old }
        ensures views { provider_views self.new ≡ provider_views self.old }
        ensures callbacks { callbacks_of self.new ≡ callbacks_of self.old }
    {
        let _ = timeout;
        self.shutdown()
    }

    /// Makes the calls of a list, one after another, and returns the reply to each. Costs what its calls cost as steps.
    ///
    /// Room for the replies is made first, in one piece. So if this answers `OutOfMemory`, no call was made; otherwise
    /// each call has its reply, even if it was refused.
    ///
    /// `run` says what is done, call by call, and `reached` what becomes of the readers; if no call asks them, they
    /// stay as they were (`unasked`). `known` says, for any provider, that a record is never refused for want of memory
    /// if it makes no entry when its turn comes. `order` says, for any provider, that with the attributes of a record in
    /// another order, where no key stands twice, the same replies and state are right. The clauses from `streams` on say, for a
    /// provider as `build` gave it, what can be read off the calls and replies alone. `given` adds up the replies
    /// themselves: under each heading, which is a scope, a name, a description, a unit and a number type, unless an
    /// observed sum has it, what was recorded is what the delta points of the collections that the reader was given add
    /// up to, plus what the streams with this heading hold.
    pub fn run(&mut self, alloc: Global, calls: &[Call]) -> Result<Vec<Reply>, Fault>
        ensures run { IfOk result (λ replies. Run (views_of P.View.answer self.old) (state_of self.old) (map call_of calls.now) (map reply_of replies.items) (state_of self.new)) }
        ensures known { IfOk result (λ replies. EachKnownHasMemory (views_of P.View.answer self.old) (state_of self.old) calls.now replies.items) }
        ensures unmade { OnErr result (state_of self.new ≡ state_of self.old) }
        ensures only_memory { IsOkUnless result Fault.OutOfMemory }
        ensures balances { Balances (state_of self.new) }
        ensures seeded { hash_seed_of self.new ≡ hash_seed_of self.old }
        ensures readers { KeepsReaders (state_of self.old) (state_of self.new) }
        ensures reached { IfOk result (λ replies. RunReaches P.Reader.flushes P.Reader.shuts (state_of self.old).shared.shut (map call_of calls.now) (provider_readers self.old) (map reply_of replies.items) (provider_readers self.new)) }
        ensures unreached { OnErr result (provider_readers self.new ≡ provider_readers self.old) }
        ensures unasked { list_any asks_readers (map call_of calls.now) ≡ false → provider_readers self.new ≡ provider_readers self.old }
        ensures wants { wants_of P.Reader.preference P.Reader.limit P.Reader.aggregation self.new ≡ wants_of P.Reader.preference P.Reader.limit P.Reader.aggregation self.old }
        ensures views { provider_views self.new ≡ provider_views self.old }
        ensures callbacks { callbacks_of self.new ≡ callbacks_of self.old }
        ensures order { IfOk result (λ replies. InAnyOrder (views_of P.View.answer self.old) (state_of self.old) calls.now replies.items (state_of self.new)) }
        ensures streams { IfOk result (λ replies. OfReaders HasStreamsOfBuilds (views_of P.View.answer self.old) (state_of self.old) calls.now replies.items (state_of self.new)) }
        ensures feeds { IfOk result (λ replies. OfReaders HasFeedsOfBuilds (views_of P.View.answer self.old) (state_of self.old) calls.now replies.items (state_of self.new)) }
        ensures places { IfOk result (λ replies. OfReaders HasPlacesOfHistories (views_of P.View.answer self.old) (state_of self.old) calls.now replies.items (state_of self.new)) }
        ensures counted { IfOk result (λ replies. OfReaders HasCountedOfHistories (views_of P.View.answer self.old) (state_of self.old) calls.now replies.items (state_of self.new)) }
        ensures collections { IfOk result (λ replies. OfAnswers IsGivenCollections (views_of P.View.answer self.old) (state_of self.old) calls.now replies.items) }
        ensures only_reader { IfOk result (λ replies. OfAnswers IsAnsweredAsOnly (views_of P.View.answer self.old) (state_of self.old) calls.now replies.items) }
        ensures recorded { IfOk result (λ replies. OfStreams HasRecordedTotal (views_of P.View.answer self.old) (state_of self.old) calls.now replies.items (state_of self.new)) }
        ensures exported { IfOk result (λ replies. OfStreams HasExportedTotal (views_of P.View.answer self.old) (state_of self.old) calls.now replies.items (state_of self.new)) }
        ensures pending { IfOk result (λ replies. OfStreams HasPendingPoints (views_of P.View.answer self.old) (state_of self.old) calls.now replies.items (state_of self.new)) }
        ensures conserved { IfOk result (λ replies. OfStreams Conserves (views_of P.View.answer self.old) (state_of self.old) calls.now replies.items (state_of self.new)) }
        ensures given { IfOk result (λ replies. OfReaders IsGivenOrPending (views_of P.View.answer self.old) (state_of self.old) calls.now replies.items (state_of self.new)) }
        ensures accepted { IfOk result (λ replies. OfStreams HasAccepted (views_of P.View.answer self.old) (state_of self.old) calls.now replies.items (state_of self.new)) }
        ensures totals { IfOk result (λ replies. OfAnswers (OfEachMetric ShowsWindow) (views_of P.View.answer self.old) (state_of self.old) calls.now replies.items) }
        ensures all_shown { IfOk result (λ replies. OfAnswers (OfEachMetric ShowsAll) (views_of P.View.answer self.old) (state_of self.old) calls.now replies.items) }
        ensures few { IfOk result (λ replies. OfAnswers (OfEachMetric HasFewPoints) (views_of P.View.answer self.old) (state_of self.old) calls.now replies.items) }
    {
        let replies = self.core.run(&self.views, &mut self.readers, alloc, calls);
        self.core.law_of_state();
        replies
    }
}
