//! Streams of one aggregate and one number type, for use by themselves.

ghost use Rattle.std.specs.Prelude.{◌≡◌, ℕ, Bool, [], false, cond, is_some, None, IsTrue, IfOk, IsOk, OnOk, OnErr, IsOkUnless};
ghost use Rattle.otel_common.specs.Temporalities.{resets};
ghost use Rattle.otel_model_stream.specs.Events.{held_by};
ghost use Rattle.otel_model_stream.specs.Folds.{Aggregate};
ghost use Rattle.otel_aggregate.specs.Any.{aggregate_of, is_monotonic_of, drains_of};
ghost use Rattle.otel_aggregate.specs.Streams.{AggregateState, new_aggregate, is_known, recorded_attributes, ready_to_bind, stream_after_bind, stream_after_update, stream_after_unbind, stream_after_collection};

use crate::aggregate_stream::AggregateStream;
use crate::aggregators::number::Number;
use crate::settings::AnySettings;
use crate::value_map::hashed_key::GivenAttributes;
use crate::value_map::hashing::SetHashBuilder;
use otel_common::attributes::KeyValue;
use otel_common::faults::Fault;
use otel_common::keys::Key;
use otel_common::lists::Items;
use otel_common::metrics::Temporality;
use std::alloc::Global;
use std::marker::{Model, PhantomData};

/// An aggregate of numbers of one type.
pub trait TypedAggregate<T: Number + Drop> {
    /// What all sets of a stream share.
    type Settings: Drop;

    /// What a collection gives.
    type Data: Drop;

    /// The aggregate as the model sees it.
    ghost aggregate: { Self.Settings → Aggregate };

    /// Whether only values of at least 0 are added.
    ghost is_monotonic: { Self.Settings → Bool };

    /// The data of a collection at a moment.
    ghost collection: { ℕ → AggregateState → Self.Data };

    /// What a stream makes of its records.
    fn settings(settings: Self::Settings) -> AnySettings
        ensures aggregate { aggregate_of result ≡ aggregate settings }
        ensures monotonic { is_monotonic_of result ≡ is_monotonic settings }
        ensures undrained { drains_of result ≡ false };

    /// What a collection at the moment `now`, in nanoseconds since 1970, gives of a stream of this aggregate.
    fn collected(stream: &AggregateStream, alloc: Global, now: u64) -> Result<Self::Data, Fault>
        requires number { stream.now.is_signed ≡ T.is_signed }
        requires kind { (s : Self.Settings) × (stream.now.state.aggregate ≡ aggregate s) }
        ensures data { IfOk result (λ given. given ≡ collection now stream.now.state) }
        ensures only_memory { IsOkUnless result Fault.OutOfMemory };
}

/// The records of a stream of one aggregate and one number type, by set (Metrics SDK, "Aggregation"), and the handles,
/// numbered by the caller, that hold entries.
#[derive(Drop)]
pub struct TypedStream<T: Number + Drop, A: TypedAggregate<T>> {
    stream: AggregateStream,
    number: PhantomData<T>,
    aggregate: PhantomData<A>,
}

impl<T: Number + Drop, A: TypedAggregate<T>> Model for TypedStream<T, A> {
    ghost use Rattle.std.specs.Prelude.{◌≡◌, false};
    ghost use Rattle.otel_aggregate.specs.Streams.{AggregateContents};

    ghost Value = { AggregateContents };

    ghost view = { λ s. s.stream };

    ghost invariant = { λ s. (s.stream.is_signed ≡ T.is_signed) × (s.stream.drains ≡ false) × ((settings : A.Settings) × (s.stream.state.aggregate ≡ A.aggregate settings)) };
}

impl<T: Number + Drop, A: TypedAggregate<T>> TypedStream<T, A> {
    /// Makes a stream without records at the moment `start`, in nanoseconds since 1970. `temporality` is the reader's
    /// answer: with `Delta` the stream starts again at each collection; with any other it goes on from `start`. Any
    /// limit is accepted; with 0, every set but the empty one goes to the overflow point.
    ///
    /// Sets are hashed with `hasher`, which has no visible effect.
    pub fn new(
        alloc: Global,
        hasher: SetHashBuilder,
        settings: A::Settings,
        temporality: Temporality,
        allow: Option<Items<Key>>,
        limit: usize,
        start: u64,
    ) -> Result<Self, Fault>
        ensures made { IfOk result (λ made. made.state ≡ new_aggregate (A.aggregate settings) (A.is_monotonic settings) allow (resets temporality) limit start) }
        ensures handles { IfOk result (λ made. made.live ≡ []) }
        ensures unprepared { IfOk result (λ made. made.pending ≡ []) }
        ensures room { IfOk result (λ made. made.room ≡ false) }
        ensures only_memory { IsOkUnless result Fault.OutOfMemory }
    {
        let settings = A::settings(settings);
        let stream = AggregateStream::new(
            alloc,
            hasher,
            settings,
            T::is_signed(),
            temporality,
            allow,
            limit,
            start,
        )?;
        Ok(TypedStream {
            stream,
            number: PhantomData,
            aggregate: PhantomData,
        })
    }

    /// Takes in a record with these attributes. Takes no memory for a set that has an entry, in the order that first
    /// brought it or with up to 16 keys.
    pub fn measure(&mut self, value: T, attributes: &[KeyValue]) -> Result<(), Fault>
        ensures ok { OnOk result (self.new.state ≡ recorded_attributes attributes.now (record { bits = T.bits value; wide = T.wide value }) self.old.state) }
        ensures err { OnErr result (self.new.state ≡ self.old.state) }
        ensures live { self.new.live ≡ self.old.live }
        ensures room { self.new.room ≡ self.old.room }
        ensures spent { self.new.pending ≡ [] }
        ensures known { IsTrue (is_known self.old.state.allow attributes.now self.old.state.map_state) → IsOk result }
        ensures only_memory { IsOkUnless result Fault.OutOfMemory }
    {
        value.law_of_value();
        let given = GivenAttributes::new(attributes);
        self.stream.measure(value.into_value(), &given)?;
        Ok(())
    }

    /// Binds a handle with this number to these attributes (Metrics API, "Synchronous Instrument API"). Its records go,
    /// for good, to the entry that a record with the attributes would go to now.
    ///
    /// If a live handle has the number, it stays with its own entry: nothing is bound, and the answer is `Ok`. Refused
    /// only for want of memory.
    pub fn bind(&mut self, handle: u64, attributes: &[KeyValue]) -> Result<(), Fault>
        ensures ok { OnOk result (self.new ≡ stream_after_bind handle (ready_to_bind attributes.now self.old)) }
        ensures err { OnErr result (self.new.state ≡ self.old.state) }
        ensures live { OnErr result (self.new.live ≡ self.old.live) }
        ensures only_memory { IsOkUnless result Fault.OutOfMemory }
    {
        self.stream.prepare(&GivenAttributes::new(attributes))?;
        self.stream.make_room()?;
        self.stream.commit_bind(handle);
        Ok(())
    }

    /// Takes in a record through a handle, if it is live, and returns whether it is. Looks for the handle at this place
    /// first, and looks it up only if it is not there. Takes no memory.
    pub fn update_bound(&mut self, handle: u64, place: usize, value: T) -> bool
        ensures updated { self.new ≡ stream_after_update handle (record { bits = T.bits value; wide = T.wide value }) self.old }
        ensures told { result ≡ is_some (held_by handle self.old.live) }
    {
        value.law_of_value();
        self.stream.update_bound(handle, place, value.into_value())
    }

    /// Ends a handle, if it is live. Takes no memory, and constant time, amortized.
    pub fn unbind(&mut self, handle: u64)
        ensures unbound { self.new ≡ stream_after_unbind handle self.old }
    {
        self.stream.unbind(handle);
    }

    /// Makes a collection at the moment `now`, in nanoseconds since 1970. If it fails, nothing changes. Shares the sets
    /// that it shows, and copies none.
    pub fn collect(&mut self, alloc: Global, now: u64) -> Result<A::Data, Fault>
        ensures kind { (s : A.Settings) × (self.old.state.aggregate ≡ A.aggregate s) }
        ensures points { IfOk result (λ given. given ≡ A.collection now self.old.state) }
        ensures ok { OnOk result (self.new.state ≡ stream_after_collection now self.old.state) }
        ensures err { OnErr result (self.new.state ≡ self.old.state) }
        ensures live { self.new.live ≡ self.old.live }
        ensures room { self.new.room ≡ self.old.room }
        ensures pending { OnOk result (self.new.pending ≡ cond self.old.state.resets [] self.old.pending) }
        ensures refused { OnErr result (self.new.pending ≡ self.old.pending) }
        ensures only_memory { IsOkUnless result Fault.OutOfMemory }
    {
        let given = A::collected(&self.stream, alloc, now)?;
        self.stream.finish(now);
        Ok(given)
    }
}
