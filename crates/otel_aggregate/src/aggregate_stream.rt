//! One stream of one reader, of any aggregate and either number type.

ghost use Rattle.std.specs.Bool.{beq};
ghost use Rattle.std.specs.List.{AllByRecursion, list_all};
ghost use Rattle.std.specs.Prelude.{◌≡◌, ◌∷◌, [], true, false, cond, None, Some, IsTrue, OnOk, OnErr, IfOk, IsOk, IsOkUnless};
ghost use Rattle.otel_common.specs.Temporalities.{resets};
ghost use Rattle.otel_model_stream.specs.Sets.{AttributeSet, set_of};
ghost use Rattle.otel_model_stream.specs.Folds.{Last};
ghost use Rattle.otel_model_stream.specs.Machine.{without_none_handles};
ghost use Rattle.otel_model_stream.specs.Maps.{new_map, bound_to};
ghost use Rattle.otel_aggregate.specs.Any.{aggregate_of, is_monotonic_of, drains_of, amount_of, any_after_commit, any_after_commits, HaveOneType, any_after_none, any_after_record, is_signed_value, any_with_room, any_after_bind, any_after_update, is_updated, any_after_unbind, metrics_now, any_after_collection, draft_of, IsLike, with_draft};
ghost use Rattle.otel_aggregate.specs.Kept.{IsWithin, state_of};
ghost use Rattle.otel_aggregate.specs.Streams.{new_aggregate, is_known};
ghost use Rattle.otel_aggregate.specs.value_map.Contents.{is_next_placed};

use crate::any_aggregator::{AnyAggregator, AnyConfig};
use crate::draft::AggregateDraft;
use crate::links::{Links, add, make_room, number_in, number_near, take_out};
use crate::sets::allowed_keys::AllowedKeys;
use crate::settings::AnySettings;
use crate::value_map::ValueMap;
use crate::value_map::hashed_key::GivenAttributes;
use crate::value_map::hashing::SetHashBuilder;
use otel_common::faults::Fault;
use otel_common::keys::Key;
use otel_common::lists::Items;
use otel_common::metrics::Temporality;
use otel_data::numbers::NumberValue;
use std::alloc::{AllocError, Global};
use std::marker::Model;
use std::mem::swap;

pub mod shown;

/// A map for what was reported, if each collection empties a stream with these settings.
#[inline(never)]
fn reported_map(
    alloc: Global,
    hasher: SetHashBuilder,
    settings: &AnySettings,
    limit: usize,
) -> Result<Option<Box<ValueMap<AnyAggregator>>>, Fault>
    ensures made { IfOk result (λ made. state_of made ≡ cond (drains_of settings.now) (Some (new_map limit (Last 0))) None) }
    ensures only_memory { IsOkUnless result Fault.OutOfMemory }
{
    if settings.drains() {
        let map = ValueMap::new(alloc, hasher, AnyConfig::LastValue, limit)?;
        Ok(Some(Box::new(alloc, map)?))
    } else {
        Ok(None)
    }
}

/// The records of a stream of any aggregate and either number type, by set (Metrics SDK, "Aggregation" and
/// "MetricReader"), and the handles, numbered by the caller, that hold entries.
///
/// An entry that a live handle holds stays at a resetting collection. A handle stays with its entry for good, even
/// with the overflow entry once its set could have an entry of its own.
///
/// Observed sums have two maps, one for what is observed and one for what was reported. With `Delta` a collection
/// swaps them, so that no value is copied to be kept.
pub struct AggregateStream {
    settings: AnySettings,
    map: ValueMap<AnyAggregator>,
    /// What the last collection of observed sums reported; always empty in a stream that doesn't reset. Boxed, so that
    /// other streams take less room.
    reported: Option<Box<ValueMap<AnyAggregator>>>,
    is_signed: bool,
    live: Links,
    /// Whether room is made for one more handle.
    room: bool,
    allow: Option<AllowedKeys>,
    /// Whether the stream starts again at each collection.
    resets: bool,
    start: u64,
    /// The total of all records, modulo 2^64.
    recorded: u64,
    /// The total of all points given by collections that then reset the stream, modulo 2^64.
    exported: u64,
}

impl Model for AggregateStream {
    ghost use Rattle.std.specs.Prelude.{is_some};
    ghost use Rattle.otel_aggregate.specs.Any.{aggregate_of, is_monotonic_of, form_of};
    ghost use Rattle.otel_aggregate.specs.Kept.{IsKeptStream, reported_in, state_of};
    ghost use Rattle.otel_aggregate.specs.Links.{handles_of};
    ghost use Rattle.otel_aggregate.specs.Streams.{AggregateContents};

    ghost Value = { AggregateContents };

    ghost view = { λ s. record {
      is_signed = s.is_signed;
      state = record {
        map_state = s.map.state;
        aggregate = aggregate_of s.settings;
        is_monotonic = is_monotonic_of s.settings;
        allow = s.allow;
        resets = s.resets;
        start = s.start;
        recorded = s.recorded;
        exported = s.exported;
      };
      live = handles_of s.map.numbers s.live.entries;
      pending = s.map.pending;
      room = s.room;
      drains = is_some s.reported;
      reported = reported_in (state_of s.reported);
    } };

    ghost invariant = { λ s. IsKeptStream s.is_signed (form_of (aggregate_of s.settings)) s.map s.live s.room (state_of s.reported) };
}

impl Drop for AggregateStream {
    /// A function of its own, so that no proof about who lets one go looks into it.
    fn drop(self) {
        let AggregateStream {
            settings: _settings,
            map: _map,
            reported: _reported,
            is_signed: _,
            live: _live,
            room: _,
            allow: _allow,
            resets: _,
            start: _,
            recorded: _,
            exported: _,
        } = self;
    }
}

impl AggregateStream {
    /// Makes a stream without records, of unsigned or signed numbers, at the moment `start`, in nanoseconds since 1970.
    /// `temporality` is the reader's answer: with `Delta` the stream starts again at each collection; with any other
    /// it goes on from `start`. Any limit is accepted; with 0, every set but the empty one goes to the overflow point.
    ///
    /// Sets are hashed with `hasher`, which has no visible effect. An allow-list of more than 8 keys is sorted too, so that a
    /// record looks up a key of its attributes by a binary search.
    #[inline(always)]
    pub fn new(
        alloc: Global,
        hasher: SetHashBuilder,
        settings: AnySettings,
        is_signed: bool,
        temporality: Temporality,
        allow: Option<Items<Key>>,
        limit: usize,
        start: u64,
    ) -> Result<Self, Fault>
        ensures made { IfOk result (λ made. made.state ≡ new_aggregate (aggregate_of settings) (is_monotonic_of settings) allow (resets temporality) limit start) }
        ensures number { IfOk result (λ made. made.is_signed ≡ is_signed) }
        ensures handles { IfOk result (λ made. made.live ≡ []) }
        ensures unprepared { IfOk result (λ made. made.pending ≡ []) }
        ensures room { IfOk result (λ made. made.room ≡ false) }
        ensures drains { IfOk result (λ made. made.drains ≡ drains_of settings) }
        ensures reported { IfOk result (λ made. made.reported ≡ []) }
        ensures only_memory { IsOkUnless result Fault.OutOfMemory }
    {
        let reported = reported_map(alloc, hasher, &settings, limit)?;
        let allow = match allow {
            Some(keys) => Some(AllowedKeys::new(alloc, keys)?),
            None => None,
        };
        let map = ValueMap::new(alloc, hasher, settings.config(), limit)?;
        Ok(AggregateStream {
            settings,
            map,
            reported,
            is_signed,
            live: Links::new(alloc, hasher),
            room: false,
            allow,
            resets: matches!(temporality, Temporality::Delta),
            start,
            recorded: 0,
            exported: 0,
        })
    }

    /// Prepares a record with these attributes, in place of what was prepared before. What the stream shows stays
    /// unchanged.
    ///
    /// This is the first of two phases: a record for several streams is prepared in all of them and then taken in by
    /// all. What is kept of the attributes is looked up without a copy, as given and otherwise by sorted references. A
    /// set that has an entry is never refused for want of memory, and takes none in the order that first brought it or
    /// with up to 16 keys.
    #[inline(always)]
    pub fn prepare(&mut self, given: &GivenAttributes) -> Result<(), AllocError>
        ensures same { self.new.state ≡ self.old.state }
        ensures live { self.new.live ≡ self.old.live }
        ensures room { self.new.room ≡ self.old.room }
        ensures number { self.new.is_signed ≡ self.old.is_signed }
        ensures drains { self.new.drains ≡ self.old.drains }
        ensures reported { self.new.reported ≡ self.old.reported }
        ensures ready { OnOk result (self.new.pending ≡ bound_to (set_of self.old.state.allow given.now) self.old.state.map_state ∷ []) }
        ensures refused { OnErr result (self.new.pending ≡ []) }
        ensures known { IsTrue (is_known self.old.state.allow given.now self.old.state.map_state) → IsOk result }
    {
        match &self.allow {
            None => self.map.prepare(given),
            Some(allow) => match self.map.prepare_allowed(allow, given.as_slice()) {
                Ok(()) => Ok(()),
                Err(_) => Err(AllocError),
            },
        }
    }

    /// Whether a value has the stream's number type.
    #[inline(always)]
    fn takes(&self, value: NumberValue) -> bool
        ensures told { result ≡ beq (is_signed_value value) self.now.is_signed }
        ensures within { result ≡ true → IsWithin self.now.is_signed (amount_of value).wide }
    {
        match value {
            NumberValue::U64(_value) => !self.is_signed,
            NumberValue::I64(_value) => self.is_signed,
        }
    }

    /// Whether these values, which have one number type, have the stream's.
    fn takes_each(&self, values: &[NumberValue]) -> bool
        requires { HaveOneType values.now }
        ensures told { result ≡ list_all (λ value. beq (is_signed_value value) self.now.is_signed) values.now }
        ensures within { result ≡ true → AllByRecursion (λ value. IsWithin self.now.is_signed (amount_of value).wide) values.now }
    {
        for value in values {
            // Tells the prover that a value of the stream's type is within its range.
            self.takes(*value);
        }
        match values.first() {
            Some(first) => self.takes(*first),
            None => true,
        }
    }

    /// Takes in the prepared record, if there is one and the value has the stream's number type. This is the second
    /// phase; it takes no memory, and looks nothing up for a set that has an entry.
    #[inline(always)]
    pub fn commit(&mut self, value: NumberValue)
        ensures taken { self.new ≡ any_after_commit value self.old }
    {
        if !self.takes(value) || !self.map.is_prepared() {
            return;
        }
        let record = self.settings.record(value);
        self.map.commit(record);
        // Tells the prover that the entries that kept their numbers are still named by them.
        self.map.law_of_numbers();
        self.recorded = self.settings.counted(value, self.recorded);
    }

    /// Prepares a record with these attributes beside those that are prepared, to be taken in before them, if its entry is
    /// there already, so that the record makes none, and answers whether it did. Otherwise it gives up what is prepared. What
    /// the stream shows stays unchanged. Takes memory for a number.
    #[inline(always)]
    pub fn prepare_known(&mut self, given: &GivenAttributes) -> bool
        ensures ready { result ≡ true → self.new ≡ record self.old { pending = bound_to (set_of self.old.state.allow given.now) self.old.state.map_state ∷ self.old.pending } }
        ensures there { result ≡ true → is_next_placed self.new.pending self.new.state.map_state.table.entries ≡ true }
        ensures refused { result ≡ false → self.new ≡ record self.old { pending = [] } }
    {
        self.map.prepare_known(self.allow.as_ref(), given)
    }

    /// Takes in the records of these values, which have one number type, for the set that is prepared next, if its entry is
    /// there already and that is the stream's number type, and keeps the others prepared. Takes no memory, and looks nothing
    /// up.
    pub fn commit_each(&mut self, values: &[NumberValue])
        requires alike { HaveOneType values.now }
        ensures taken { is_next_placed self.old.pending self.old.state.map_state.table.entries ≡ true → self.new ≡ any_after_commits values.now self.old }
        ensures idle { is_next_placed self.old.pending self.old.state.map_state.table.entries ≡ false → self.new ≡ self.old }
    {
        if !self.map.has_entry() {
            return;
        }
        let taken = if self.takes_each(values) { values } else { &[] };
        self.map.commit_each(&self.settings, taken);
        self.recorded = self.settings.counted_each(taken, self.recorded);
    }

    /// Takes in a record with these attributes, in place of one that was prepared, if the value has the stream's number
    /// type. It is made in one pass if there is no allow-list. Takes no memory where `prepare` takes none.
    #[inline(always)]
    pub fn measure(
        &mut self,
        value: NumberValue,
        attributes: &GivenAttributes,
    ) -> Result<(), AllocError>
        ensures taken { OnOk result (self.new ≡ any_after_record value attributes.now self.old) }
        ensures refused { OnErr result (self.new ≡ record self.old { pending = [] }) }
        ensures known { IsTrue (is_known self.old.state.allow attributes.now self.old.state.map_state) → IsOk result }
    {
        if !self.takes(value) {
            return Ok(());
        }
        if self.allow.is_some() {
            self.prepare(attributes)?;
            self.commit(value);
            return Ok(());
        }
        let record = self.settings.record(value);
        let measured = self.map.measure_given(record, attributes);
        self.map.law_of_numbers();
        match measured {
            Ok(()) => {
                self.recorded = self.settings.counted(value, self.recorded);
                Ok(())
            }
            Err(_) => Err(AllocError),
        }
    }

    /// Takes in a record without attributes, if the value has the stream's number type, and then gives up what was
    /// prepared. Looks nothing up, and takes no memory.
    #[inline(always)]
    pub fn measure_none(&mut self, value: NumberValue)
        ensures taken { self.new ≡ any_after_none value self.old }
    {
        if !self.takes(value) {
            return;
        }
        let record = self.settings.record(value);
        self.map.measure_none(record);
        self.recorded = self.settings.counted(value, self.recorded);
    }

    /// Makes room for a handle, which a bind uses up. Observed sums have no handles.
    pub fn make_room(&mut self) -> Result<(), Fault>
        ensures room { OnOk result (self.new ≡ any_with_room self.old) }
        ensures refused { OnErr result (self.new ≡ self.old) }
        ensures only_memory { IsOkUnless result Fault.OutOfMemory }
    {
        if self.reported.is_some() {
            return Ok(());
        }
        make_room(&mut self.live)?;
        self.room = true;
        Ok(())
    }

    /// Carries out the prepared bind for a handle with this number, if a bind is prepared, room was made for the
    /// handle and no live handle has the number, and returns the handle's place, for `update_bound`. This is the second
    /// phase; it takes no memory.
    pub fn commit_bind(&mut self, handle: u64) -> usize
        ensures bound { self.new ≡ any_after_bind handle self.old }
    {
        if self.reported.is_some() {
            return 0;
        }
        if !self.room || !self.map.is_prepared() || number_in(&self.live, handle).is_some() {
            return 0;
        }
        // Tells the prover that there are fewer than 2^63 handles.
        let _ = self.live.len();
        let number = self.map.commit_bind();
        self.map.law_of_numbers();
        let place = add(&mut self.live, handle, number);
        self.room = false;
        place
    }

    /// Takes in a record through a handle, if it is live and the value has the stream's number type, and returns
    /// whether it did. Looks for the handle at this place first, and looks it up only if it is not there. Takes no
    /// memory, and gives up what was prepared. Observed sums have no handles; they, and streams of the other number type,
    /// stay unchanged.
    #[inline(always)]
    pub fn update_bound(&mut self, handle: u64, place: usize, value: NumberValue) -> bool
        ensures updated { self.new ≡ any_after_update handle value self.old }
        ensures told { result ≡ is_updated handle value self.old }
    {
        if self.reported.is_some() || !self.takes(value) {
            return false;
        }
        match number_near(&self.live, handle, place) {
            Some(number) => {
                let record = self.settings.record(value);
                self.map.update_bound(number, record);
                self.recorded = self.settings.counted(value, self.recorded);
                true
            }
            None => {
                self.map.give_up();
                false
            }
        }
    }

    /// Ends a handle, if it is live. Takes no memory, and constant time, amortized. Gives up what was prepared, except in
    /// observed sums, which have no handles.
    pub fn unbind(&mut self, handle: u64)
        ensures unbound { self.new ≡ any_after_unbind handle self.old }
    {
        if self.reported.is_some() {
            return;
        }
        match number_in(&self.live, handle) {
            Some(number) => {
                self.map.unbind(number);
                take_out(&mut self.live, handle);
            }
            None => self.map.give_up(),
        }
    }

    /// Ends a collection, whose points were taken, at the moment `now`, in nanoseconds since 1970. If the stream
    /// resets, the points' total is added up, and it starts again from then; if it drains, what was observed is
    /// forgotten. In either case what is prepared is given up.
    pub fn finish(&mut self, now: u64)
        ensures ended { self.new ≡ any_after_collection now self.old }
    {
        match &mut self.reported {
            None => {
                if self.resets {
                    self.exported = self.exported.wrapping_add(self.map.total(false));
                    self.map.reset_and_evict();
                    self.map.law_of_numbers();
                    self.start = now;
                }
            }
            Some(reported) => {
                if self.resets {
                    self.exported = self.exported.wrapping_add(self.map.total(true));
                    // The two maps, which drained are the same, are swapped; nothing is copied.
                    let kept: &mut ValueMap<AnyAggregator> = reported;
                    kept.drain();
                    swap(&mut self.map, kept);
                    self.start = now;
                } else {
                    self.map.drain();
                }
            }
        }
    }

    /// A draft with copies of the entries, and the total of the records. No handle may be live. Takes memory even if
    /// there are no entries.
    pub fn draft(&self, alloc: Global) -> Result<AggregateDraft, Fault>
        requires { self.now.live ≡ [] }
        ensures draft { IfOk result (λ draft. draft ≡ draft_of self.now) }
        ensures only_memory { IsOkUnless result Fault.OutOfMemory }
    {
        Ok(AggregateDraft {
            is_signed: self.is_signed,
            entries: self.map.draft(alloc)?,
            recorded: self.recorded,
        })
    }

    /// Exchanges the entries and the total of the records with those of a draft, and gives up what is prepared. No
    /// handle may be live. What observed sums reported stays unchanged. Takes no memory.
    pub fn exchange(&mut self, draft: &mut AggregateDraft)
        requires { IsLike draft.old self.old }
        ensures stream { self.new ≡ with_draft draft.old self.old }
        ensures draft { draft.new ≡ draft_of self.old }
    {
        self.map.exchange(&mut draft.entries);
        swap(&mut self.recorded, &mut draft.recorded);
    }

    /// The law that no handle holds the empty set's entry if none is live, and that observed sums have no handles.
    pub fn law_of_handles(&self)
        ensures unheld { self.now.live ≡ [] → without_none_handles self.now.state.map_state.table ≡ self.now.state.map_state.table }
        ensures observed { self.now.drains ≡ true → self.now.live ≡ [] }
    {
        let _room = self.room;
    }
}
