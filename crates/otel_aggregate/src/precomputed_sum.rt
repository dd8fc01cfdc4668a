//! Observed sums.

ghost use Rattle.std.specs.Prelude.{◌≡◌, IsTrue, OnOk, OnErr, IfOk, IsOk, IsOkUnless};
ghost use Rattle.otel_common.specs.Temporalities.{resets};
ghost use Rattle.otel_aggregate.specs.Streams.{is_known};
ghost use Rattle.otel_aggregate.specs.Observed.{new_observed, observed_attributes, drained_at, observed_data};

use crate::aggregate_stream::AggregateStream;
use crate::aggregators::number::Number;
use crate::settings::AnySettings;
use crate::value_map::hashed_key::GivenAttributes;
use crate::value_map::hashing::SetHashBuilder;
use otel_common::attributes::KeyValue;
use otel_common::faults::Fault;
use otel_common::keys::Key;
use otel_common::lists::Items;
use otel_common::metrics::Temporality;
use otel_data::sums::Sum as SumData;
use std::alloc::Global;
use std::marker::{Model, PhantomData};

/// The sums that a stream's asynchronous counters observe, by set: values that are already summed (Metrics SDK,
/// "Asynchronous Counter"). Of several observations of a set between two collections, the last one counts.
///
/// Each collection empties it, so a set that was not observed since the last one has no point. If the reader's answer
/// is `Delta`, a point is the observed value less the set's value in the collection before, modulo 2^64; a set that
/// had no point there counts from 0.
#[derive(Drop)]
pub struct PrecomputedSum<T: Number + Drop> {
    stream: AggregateStream,
    number: PhantomData<T>,
}

impl<T: Number + Drop> Model for PrecomputedSum<T> {
    ghost use Rattle.std.specs.Prelude.{◌≡◌, true};
    ghost use Rattle.otel_aggregate.specs.Any.{observed_in};
    ghost use Rattle.otel_aggregate.specs.Observed.{ObservedState};

    ghost Value = { ObservedState };

    ghost view = { λ s. observed_in s.stream };

    ghost invariant = { λ s. (s.stream.is_signed ≡ T.is_signed) × (s.stream.drains ≡ true) };
}

impl<T: Number + Drop> PrecomputedSum<T> {
    /// Makes sums without observations at the moment `now`, in nanoseconds since 1970. `temporality` is the reader's
    /// answer: with `Delta` a collection gives what was added since the one before; with any other it gives the values
    /// themselves. Any limit is accepted; with 0, every set but the empty one goes to the overflow point.
    ///
    /// Sets are hashed with `hasher`, which has no visible effect.
    pub fn new(
        alloc: Global,
        hasher: SetHashBuilder,
        temporality: Temporality,
        allow: Option<Items<Key>>,
        limit: usize,
        now: u64,
        is_monotonic: bool,
    ) -> Result<Self, Fault>
        ensures made { IfOk result (λ made. made ≡ new_observed is_monotonic allow (resets temporality) limit now) }
        ensures only_memory { IsOkUnless result Fault.OutOfMemory }
    {
        let settings = AnySettings::PrecomputedSum { is_monotonic };
        let stream = AggregateStream::new(
            alloc,
            hasher,
            settings,
            T::is_signed(),
            temporality,
            allow,
            limit,
            now,
        )?;
        Ok(PrecomputedSum {
            stream,
            number: PhantomData,
        })
    }

    /// Takes in an observation with these attributes. Takes no memory for a set that has an entry, in the order that
    /// first brought it or with up to 16 keys.
    pub fn measure(&mut self, value: T, attributes: &[KeyValue]) -> Result<(), Fault>
        ensures ok { OnOk result (self.new ≡ observed_attributes attributes.now (record { bits = T.bits value; wide = T.wide value }) self.old) }
        ensures err { OnErr result (self.new ≡ self.old) }
        ensures known { IsTrue (is_known self.old.stream.allow attributes.now self.old.stream.map_state) → IsOk result }
        ensures only_memory { IsOkUnless result Fault.OutOfMemory }
    {
        value.law_of_value();
        let given = GivenAttributes::new(attributes);
        self.stream.measure(value.into_value(), &given)?;
        Ok(())
    }

    /// Makes a collection at the moment `now`, in nanoseconds since 1970. What was observed is forgotten. With `Delta` the
    /// observed values become what was reported, and the next start is `now`. If it fails, nothing changes. Shares the
    /// sets that it shows, and copies none; with `Delta` looks each up.
    pub fn collect(&mut self, alloc: Global, now: u64) -> Result<SumData<T>, Fault>
        ensures data { IfOk result (λ given. given ≡ observed_data T.of_bits T.of_wide now self.old) }
        ensures ok { OnOk result (self.new ≡ drained_at now self.old) }
        ensures err { OnErr result (self.new ≡ self.old) }
        ensures only_memory { IsOkUnless result Fault.OutOfMemory }
    {
        let given = self.stream.sum_data(alloc, now)?;
        self.stream.finish(now);
        Ok(given)
    }
}
