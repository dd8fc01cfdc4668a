//! A bounded map from sets of attributes to aggregators.

ghost use Rattle.std.specs.Prelude.{◌≡◌, ◌<◌, ◌-◌, ◌+◌, ◌*◌, ◌≤◌, ◌^◌, ◌++◌, ◌∷◌, [], true, false, drop, is_some, length, map, fold, None, Some, IsSome, IfSome, OnOk, OnErr, IfOk, IsOk, IfErr, IsOkUnless, IsTrue};
ghost use Rattle.std.specs.List.{AllByRecursion};
ghost use Rattle.std.specs.Option.{option_copied, option_map};
ghost use Rattle.otel_common.specs.Canonical.{canon};
ghost use Rattle.otel_model_stream.specs.Entries.{entry_for, points, number_counted};
ghost use Rattle.otel_model_stream.specs.Maps.{new_map, with_place, measured_map, measured_list, bound_list, bound_map, bound_to, updated_bound, unbound_map, evicted_map, evicted_known, drained_map, readonly_points, resetting_points, draining_points, knows, keys, given_left, is_admitted, SucceedsIfKnown};
ghost use Rattle.otel_model_stream.specs.Laws.{AreKnown};
ghost use Rattle.otel_model_stream.specs.Observed.{fold_in};
ghost use Rattle.otel_model_stream.specs.Folds.{wrap};
ghost use Rattle.otel_model_stream.specs.Sets.{AttributeSet, allowed_part, none_set, set_of};
ghost use Rattle.otel_model_stream.specs.Totals.{points_total};
ghost use Rattle.otel_aggregate.specs.Any.{aggregate_of, samples_of};
ghost use Rattle.otel_aggregate.specs.value_map.Contents.{known_of, is_next_placed, is_there_in, next_of};
ghost use Rattle.otel_aggregate.specs.value_map.Faults.{IsBindFault};
ghost use Rattle.otel_aggregate.specs.value_map.Numbers.{number_of, is_number, is_placed, handles_at, AreNamed, AreNumbered, spelling_of, KeepNumbers, KeepLeft};
ghost use Rattle.otel_aggregate.specs.value_map.Slots.{HasForm, copies};

use crate::aggregators::aggregator::Aggregator;
use crate::any_aggregator::AnyAggregator;
use crate::sets::allowed_keys::AllowedKeys;
use crate::sets::references::{kept_references, references_to};
use crate::settings::AnySettings;
use crate::value_map::draft::Draft;
use crate::value_map::hashed_key::{GivenAttributes, HashedSet};
use crate::value_map::hashing::SetHashBuilder;
use crate::value_map::maker::{Copies, PointMaker};
use crate::value_map::pending::{Pending, form_led_to, led_to, make_ready, plan, take_slot};
use crate::value_map::sets::is_overflow;
use crate::value_map::slots::Slot;
use crate::value_map::table::Table;
use otel_common::attributes::KeyValue;
use otel_common::faults::Fault;
use otel_common::lists::SharedItems;
use otel_data::numbers::NumberValue;
use std::alloc::{AllocError, Global};
use std::marker::Model;
use std::mem::{replace, swap};

pub mod draft;
pub mod hashed_key;
pub mod hashing;
mod key_hasher;
mod key_table;
pub(crate) mod maker;
mod pending;
pub mod sets;
mod slots;
mod table;

/// A bounded map from sets of attributes to aggregators (Metrics SDK, "Cardinality limits").
///
/// Any limit is accepted; with 0, every set but the empty one goes to the overflow entry. No memory is reserved for
/// the limit.
///
/// A set that has an entry uses it. A new set gets an entry while the number of counted entries is below the limit,
/// and otherwise uses the overflow entry. The empty set has an entry of its own, which isn't counted.
///
/// Entries have numbers, by which handles name them. An entry keeps its number; the number of an entry that is gone is
/// used again.
pub struct ValueMap<A: Aggregator> {
    alloc: Global,
    config: A::InitConfig,
    limit: usize,
    /// How many entries the limit counts.
    count: usize,
    table: Table<A>,
    /// An aggregator made in advance for the next new entry.
    unused: Option<A>,
    pending: Pending,
}

impl<A: Aggregator> Model for ValueMap<A> {
    ghost use Rattle.std.specs.Prelude.{◌≡◌, ◌&&◌, nat_lt, is_some, IfSome};
    ghost use Rattle.std.specs.Map.{keys_of};
    ghost use Rattle.otel_model_stream.specs.Entries.{number_counted};
    ghost use Rattle.otel_aggregate.specs.value_map.Contents.{MapContents, pending_in, spelling_in, IsSound};

    ghost Value = { MapContents };

    ghost view = { λ m. record {
      state = record { limit = m.limit; empty = A.empty m.config; table = m.table.table };
      numbers = m.table.numbers;
      given = keys_of m.table.aliases;
      pending = pending_in m.table.numbers m.pending;
      spelling = spelling_in m.pending;
    } };

    ghost invariant = { λ m. (m.count ≡ number_counted m.table.table.entries)
        × IfSome m.unused (λ made. A.meaning made ≡ A.empty m.config)
        × IsSound m.table (nat_lt m.count m.limit) (is_some m.unused && m.table.room) m.pending };
}

impl<A: Aggregator> Drop for ValueMap<A> {
    /// A function of its own, so that no proof about who lets one go looks into it.
    fn drop(self) {
        let ValueMap {
            alloc: _,
            config: _config,
            limit: _,
            count: _,
            table: _table,
            unused: _unused,
            pending: _pending,
        } = self;
    }
}

impl<A: Aggregator> ValueMap<A> {
    /// Makes a map with no entry but that of the empty set, which hashes sets with this hasher. Takes memory for that
    /// entry and for what an aggregator takes.
    #[inline(always)]
    pub fn new(
        alloc: Global,
        hasher: SetHashBuilder,
        config: A::InitConfig,
        limit: usize,
    ) -> Result<Self, Fault>
        ensures made { IfOk result (λ made. made.state ≡ new_map limit (A.empty config)) }
        ensures given { IfOk result (λ made. made.given ≡ []) }
        ensures unprepared { IfOk result (λ made. made.pending ≡ []) }
        ensures only_memory { IsOkUnless result Fault.OutOfMemory }
    {
        let none = A::create(alloc, &config)?;
        let table = Table::new(alloc, hasher, Slot::new(none, false, true))?;
        Ok(ValueMap {
            alloc,
            config,
            limit,
            count: 0,
            table,
            unused: None,
            pending: Pending::Nothing,
        })
    }

    /// Prepares a record or a bind for the canonical form of a list, in place of what was prepared before. The list
    /// is what is kept of the attributes.
    #[inline(always)]
    fn prepare_list(
        &mut self,
        list: &HashedSet,
        allow: Option<&AllowedKeys>,
        attributes: &[KeyValue],
    ) -> Result<(), AllocError>
        requires { list.now.key ≡ allowed_part (option_copied allow) attributes.now }
        ensures same { self.new.state ≡ self.old.state }
        ensures numbers { self.new.numbers ≡ self.old.numbers }
        ensures given { self.new.given ≡ self.old.given }
        ensures ready { OnOk result (self.new.pending ≡ bound_to (canon list.now.key) self.old.state ∷ []) }
        ensures spelling { OnOk result (self.new.spelling ≡ spelling_of list.now.key self.old.state) }
        ensures refused { OnErr result (self.new.pending ≡ []) }
        ensures known { SucceedsIfKnown list.now.key (known_of self.old) result }
        ensures there { IsTrue (is_there_in (canon list.now.key) self.old.state) → IsOk result }
    {
        if let Some(number) = led_to(&self.table, list) {
            self.pending.give_up();
            self.pending = Pending::At(number);
            return Ok(());
        }
        self.prepare_unknown(list, allow, attributes)
            .map_err(|_| AllocError)
    }

    /// Does what `prepare_list` does with a list that, as given, leads to no entry.
    #[inline(never)]
    fn prepare_unknown(
        &mut self,
        list: &HashedSet,
        allow: Option<&AllowedKeys>,
        attributes: &[KeyValue],
    ) -> Result<(), Fault>
        requires list { list.now.key ≡ allowed_part (option_copied allow) attributes.now }
        requires unknown { knows list.now.key (known_of self.old) ≡ false }
        ensures same { self.new.state ≡ self.old.state }
        ensures numbers { self.new.numbers ≡ self.old.numbers }
        ensures given { self.new.given ≡ self.old.given }
        ensures ready { OnOk result (self.new.pending ≡ bound_to (canon list.now.key) self.old.state ∷ []) }
        ensures spelling { OnOk result (self.new.spelling ≡ spelling_of list.now.key self.old.state) }
        ensures refused { OnErr result (self.new.pending ≡ []) }
        ensures there { IsTrue (is_there_in (canon list.now.key) self.old.state) → IsOk result }
        ensures only_memory { IsOkUnless result Fault.OutOfMemory }
    {
        self.pending.give_up();
        let is_few = self.count < self.limit;
        let plan = plan(self.alloc, &self.table, is_few, list, allow, attributes)?;
        if let Pending::New(_, _) = plan {
            make_ready(&mut self.table, &mut self.unused, self.alloc, &self.config)?;
        }
        self.pending = plan;
        Ok(())
    }

    /// Finds or makes the entry for what is prepared, and returns its number.
    #[inline(always)]
    fn place(&mut self) -> usize
        requires { IsSome (next_of self.old.pending) }
        ensures state { (s : AttributeSet) → next_of self.old.pending ≡ Some s → self.new.state ≡ with_place s self.old.state }
        ensures number { (s : AttributeSet) → next_of self.old.pending ≡ Some s → number_of (entry_for s self.new.state.table.entries) self.new.numbers ≡ Some result }
        ensures numbers { KeepNumbers self.old.numbers self.new.numbers }
        ensures given { self.new.given ≡ self.old.given ++ self.old.spelling }
        ensures spent { self.new.pending ≡ [] }
    {
        let Pending::At(number) = self.pending else {
            return self.place_new();
        };
        self.pending = Pending::Nothing;
        number
    }

    /// Does what `place` does, out of line, as few records are for a set that has no entry.
    #[inline(never)]
    fn place_new(&mut self) -> usize
        requires { IsSome (next_of self.old.pending) }
        ensures state { (s : AttributeSet) → next_of self.old.pending ≡ Some s → self.new.state ≡ with_place s self.old.state }
        ensures number { (s : AttributeSet) → next_of self.old.pending ≡ Some s → number_of (entry_for s self.new.state.table.entries) self.new.numbers ≡ Some result }
        ensures numbers { KeepNumbers self.old.numbers self.new.numbers }
        ensures given { self.new.given ≡ self.old.given ++ self.old.spelling }
        ensures spent { self.new.pending ≡ [] }
    {
        let (set, list) = match replace(&mut self.pending, Pending::Nothing) {
            Pending::Nothing => return self.table.none(),
            Pending::At(number) => return number,
            Pending::New(set, list) => (set, list),
            Pending::Several(numbers) => match numbers.last() {
                Some(number) => return *number,
                None => return self.table.none(),
            },
        };
        let lasting = is_overflow(set.as_slice());
        if self.count < self.limit {
            self.count += 1;
            let slot = take_slot(&mut self.unused, &self.config, true, lasting);
            return self.table.add(set, list, slot);
        }
        let slot = take_slot(&mut self.unused, &self.config, false, lasting);
        self.table.add(set, list, slot)
    }

    /// Prepares a record or a bind for the canonical form of the attributes, in place of what was prepared before.
    /// The contents of the map stay unchanged.
    ///
    /// This is the first of two phases: a record for several maps is prepared in all of them and then taken in by all.
    /// It looks the attributes up as given. If they lead to an entry, as its set or as the list that admitted it, that
    /// is all, and it takes no memory; the same holds if there are no attributes. Otherwise it sorts references to them
    /// and looks these up, unless the keys rise as given; attributes are copied only for a set without an entry. Up to 16
    /// keys are sorted without memory. More are sorted with memory; if it is refused, a set that has an entry is still
    /// found, by going over all sets. Attributes that have their hash already are not hashed again. Past the limit, once
    /// the overflow entry is there, nothing is copied.
    #[inline(always)]
    pub(crate) fn prepare(&mut self, given: &GivenAttributes) -> Result<(), AllocError>
        ensures same { self.new.state ≡ self.old.state }
        ensures numbers { self.new.numbers ≡ self.old.numbers }
        ensures given { self.new.given ≡ self.old.given }
        ensures ready { OnOk result (self.new.pending ≡ bound_to (canon given.now) self.old.state ∷ []) }
        ensures spelling { OnOk result (self.new.spelling ≡ spelling_of given.now self.old.state) }
        ensures refused { OnErr result (self.new.pending ≡ []) }
        ensures known { SucceedsIfKnown given.now (known_of self.old) result }
        ensures there { IsTrue (is_there_in (canon given.now) self.old.state) → IsOk result }
    {
        let list = given.list(self.table.hasher());
        self.prepare_list(&list, None, given.as_slice())
    }

    /// Prepares a record or a bind, as `prepare` does, for those of the attributes whose key is in the allow-list
    /// (Metrics SDK, "View").
    ///
    /// It looks up what is kept without copying it, as given, by references that it finds once. For more than 16 they
    /// take memory; if it is refused, the canonical form of what is kept is looked for without being made, and past
    /// the limit the overflow entry is used.
    #[inline(never)]
    pub(crate) fn prepare_allowed(
        &mut self,
        allow: &AllowedKeys,
        attributes: &[KeyValue],
    ) -> Result<(), Fault>
        ensures same { self.new.state ≡ self.old.state }
        ensures numbers { self.new.numbers ≡ self.old.numbers }
        ensures given { self.new.given ≡ self.old.given }
        ensures ready { OnOk result (self.new.pending ≡ bound_to (set_of (Some allow.now) attributes.now) self.old.state ∷ []) }
        ensures spelling { OnOk result (self.new.spelling ≡ spelling_of (allowed_part (Some allow.now) attributes.now) self.old.state) }
        ensures refused { OnErr result (self.new.pending ≡ []) }
        ensures known { SucceedsIfKnown (allowed_part (Some allow.now) attributes.now) (known_of self.old) result }
        ensures there { IsTrue (is_there_in (set_of (Some allow.now) attributes.now) self.old.state) → IsOk result }
        ensures only_memory { IsOkUnless result Fault.OutOfMemory }
    {
        if let Some(few) = kept_references(Some(allow), attributes) {
            let list = HashedSet::referenced(self.table.hasher(), few.as_slice());
            self.prepare_list(&list, Some(allow), attributes)?;
            return Ok(());
        }
        if let Ok(references) = references_to(self.alloc, Some(allow), attributes) {
            let list = HashedSet::referenced(self.table.hasher(), references.as_slice());
            self.prepare_list(&list, Some(allow), attributes)?;
            return Ok(());
        }
        self.pending.give_up();
        let few = self.count < self.limit;
        let Some(number) = form_led_to(&self.table, few, Some(allow), attributes) else {
            return Err(Fault::OutOfMemory);
        };
        self.pending = Pending::At(number);
        Ok(())
    }

    /// Gives up what is prepared, if there is anything.
    pub(crate) fn give_up(&mut self)
        ensures same { self.new.state ≡ self.old.state }
        ensures numbers { self.new.numbers ≡ self.old.numbers }
        ensures given { self.new.given ≡ self.old.given }
        ensures spent { self.new.pending ≡ [] }
    {
        self.pending.give_up();
    }

    /// Whether a record or a bind is prepared.
    pub(crate) fn is_prepared(&self) -> bool
        ensures { result ≡ is_some (next_of self.now.pending) }
    {
        match &self.pending {
            Pending::Nothing => false,
            Pending::At(_) | Pending::New(_, _) => true,
            Pending::Several(numbers) => !numbers.is_empty(),
        }
    }

    /// Whether a record or a bind is prepared, and the entry that the next one uses is there already.
    #[inline(always)]
    pub(crate) fn has_entry(&self) -> bool
        ensures { result ≡ is_next_placed self.now.pending self.now.state.table.entries }
    {
        match &self.pending {
            Pending::Nothing | Pending::New(_, _) => false,
            Pending::At(_) => true,
            Pending::Several(numbers) => !numbers.is_empty(),
        }
    }

    /// Prepares a record beside those that are prepared, to be taken in before them, if its entry is there already, and
    /// answers whether it did. Otherwise it gives up what is prepared. The contents of the map stay unchanged. Takes memory
    /// for a number, and where `prepare` or `prepare_allowed` does; a copy that these make of a set without an entry is let
    /// go again.
    #[inline(always)]
    pub(crate) fn prepare_known(
        &mut self,
        allow: Option<&AllowedKeys>,
        given: &GivenAttributes,
    ) -> bool
        ensures same { self.new.state ≡ self.old.state }
        ensures numbers { self.new.numbers ≡ self.old.numbers }
        ensures given { self.new.given ≡ self.old.given }
        ensures ready { result ≡ true → self.new.pending ≡ bound_to (set_of (option_copied allow.entry) given.now) self.old.state ∷ self.old.pending }
        ensures there { result ≡ true → is_next_placed self.new.pending self.new.state.table.entries ≡ true }
        ensures refused { result ≡ false → self.new.pending ≡ [] }
    {
        let Some(mut numbers) = self.pending.take_numbers(self.alloc) else {
            return false;
        };
        let prepared = match allow {
            None => self.prepare(given).is_ok(),
            Some(allow) => self.prepare_allowed(allow, given.as_slice()).is_ok(),
        };
        match self.pending {
            Pending::At(number) if prepared && numbers.push(number).is_ok() => {
                self.pending = Pending::Several(numbers);
                true
            }
            _ => {
                self.give_up();
                false
            }
        }
    }

    /// Takes in the prepared record; `is_prepared` tells whether there is one. This is the second phase; it looks nothing
    /// up for a set that has an entry.
    #[inline(always)]
    pub(crate) fn commit(&mut self, value: A::PreComputedValue)
        requires { IsSome (next_of self.old.pending) }
        ensures measured { (s : AttributeSet) → next_of self.old.pending ≡ Some s → self.new.state ≡ measured_map s (A.sample value) self.old.state }
        ensures numbers { KeepNumbers self.old.numbers self.new.numbers }
        ensures given { self.new.given ≡ self.old.given ++ self.old.spelling }
        ensures spent { self.new.pending ≡ [] }
    {
        let entry = self.place();
        self.table.touch(entry, value);
    }

    /// Takes in a record for the empty set, which always has an entry. Looks nothing up, takes no memory, and gives up
    /// what was prepared.
    #[inline(always)]
    pub(crate) fn measure_none(&mut self, value: A::PreComputedValue)
        ensures measured { self.new.state ≡ measured_map none_set (A.sample value) self.old.state }
        ensures numbers { self.new.numbers ≡ self.old.numbers }
        ensures given { self.new.given ≡ self.old.given }
        ensures spent { self.new.pending ≡ [] }
    {
        self.pending.give_up();
        let none = self.table.none();
        self.table.touch(none, value);
    }

    /// Takes in a record for the canonical form of the attributes, in one pass if they lead to an entry as given. Takes
    /// memory where `prepare` does. If it admits their set, the attributes and their canonical form lead to that set's
    /// entry from then on.
    #[inline(always)]
    pub fn measure(
        &mut self,
        value: A::PreComputedValue,
        attributes: &[KeyValue],
    ) -> Result<(), Fault>
        ensures ok { OnOk result (known_of self.new ≡ measured_list attributes.now (A.sample value) (known_of self.old)) }
        ensures learned { OnOk result (IsTrue (is_admitted (canon attributes.now) self.old.state) → AreKnown attributes.now (known_of self.new)) }
        ensures numbers { KeepNumbers self.old.numbers self.new.numbers }
        ensures err { OnErr result (known_of self.new ≡ known_of self.old) }
        ensures spent { self.new.pending ≡ [] }
        ensures known { SucceedsIfKnown attributes.now (known_of self.old) result }
        ensures there { IsTrue (is_there_in (canon attributes.now) self.old.state) → IsOk result }
        ensures only_memory { IsOkUnless result Fault.OutOfMemory }
    {
        self.measure_given(value, &GivenAttributes::new(attributes))
    }

    /// Does what `measure` does with attributes that may have their hash.
    #[inline(always)]
    pub(crate) fn measure_given(
        &mut self,
        value: A::PreComputedValue,
        attributes: &GivenAttributes,
    ) -> Result<(), Fault>
        ensures ok { OnOk result (known_of self.new ≡ measured_list attributes.now (A.sample value) (known_of self.old)) }
        ensures learned { OnOk result (IsTrue (is_admitted (canon attributes.now) self.old.state) → AreKnown attributes.now (known_of self.new)) }
        ensures numbers { KeepNumbers self.old.numbers self.new.numbers }
        ensures err { OnErr result (known_of self.new ≡ known_of self.old) }
        ensures spent { self.new.pending ≡ [] }
        ensures known { SucceedsIfKnown attributes.now (known_of self.old) result }
        ensures there { IsTrue (is_there_in (canon attributes.now) self.old.state) → IsOk result }
        ensures only_memory { IsOkUnless result Fault.OutOfMemory }
    {
        let list = attributes.list(self.table.hasher());
        if let Some(number) = led_to(&self.table, &list) {
            self.pending.give_up();
            self.table.touch(number, value);
            return Ok(());
        }
        self.prepare_unknown(&list, None, attributes.as_slice())?;
        self.commit(value);
        Ok(())
    }

    /// Carries out the prepared bind, and returns the number of the entry: that of the set, or the overflow entry.
    /// This is the second phase; it can't fail.
    pub(crate) fn commit_bind(&mut self) -> usize
        requires prepared { IsSome (next_of self.old.pending) }
        requires few { (s : AttributeSet) → next_of self.old.pending ≡ Some s → handles_at (bound_to s self.old.state) self.old.state.table < 2 ^ 64 - 1 }
        ensures bound { (s : AttributeSet) → next_of self.old.pending ≡ Some s → self.new.state ≡ bound_map s self.old.state }
        ensures number { (s : AttributeSet) → next_of self.old.pending ≡ Some s → number_of (bound_to s self.old.state) self.new.numbers ≡ Some result }
        ensures numbers { KeepNumbers self.old.numbers self.new.numbers }
        ensures given { self.new.given ≡ self.old.given ++ self.old.spelling }
        ensures spent { self.new.pending ≡ [] }
    {
        let number = self.place();
        self.table.hold(number);
        number
    }

    /// How many live handles the entry has that the prepared bind uses; none if the entry is still to be made.
    fn handles_there(&self) -> u64
        ensures { (s : AttributeSet) → next_of self.now.pending ≡ Some s → result ≡ handles_at s self.now.state.table }
    {
        // Tells the prover that the first entry is the empty set's.
        self.table.law_of_empty_set();
        match &self.pending {
            Pending::At(number) => self.table.handles(*number),
            Pending::Several(numbers) => match numbers.last() {
                Some(number) => self.table.handles(*number),
                None => 0,
            },
            _ => 0,
        }
    }

    /// Binds a handle to the entry for the canonical form of the attributes, and returns the entry's number. The
    /// handle stays with that entry for life. Takes memory as a record of the attributes does, and makes them lead to
    /// an entry as that does.
    ///
    /// Refused for want of memory, or as exhausted if the entry has 2^64 - 1 live handles, and then nothing changes.
    pub fn bind(&mut self, attributes: &[KeyValue]) -> Result<usize, Fault>
        ensures ok { OnOk result (known_of self.new ≡ bound_list attributes.now (known_of self.old)) }
        ensures learned { OnOk result (IsTrue (is_admitted (canon attributes.now) self.old.state) → AreKnown attributes.now (known_of self.new)) }
        ensures number { IfOk result (λ n. number_of (bound_to (canon attributes.now) self.old.state) self.new.numbers ≡ Some n) }
        ensures numbers { KeepNumbers self.old.numbers self.new.numbers }
        ensures err { OnErr result (known_of self.new ≡ known_of self.old) }
        ensures spent { self.new.pending ≡ [] }
        ensures known { handles_at (bound_to (canon attributes.now) self.old.state) self.old.state.table < 2 ^ 64 - 1 → SucceedsIfKnown attributes.now (known_of self.old) result }
        ensures there { handles_at (bound_to (canon attributes.now) self.old.state) self.old.state.table < 2 ^ 64 - 1 → IsTrue (is_there_in (canon attributes.now) self.old.state) → IsOk result }
        ensures refused { IfErr result (IsBindFault (handles_at (bound_to (canon attributes.now) self.old.state) self.old.state.table)) }
    {
        self.prepare(&GivenAttributes::new(attributes))?;
        if self.handles_there() == u64::MAX {
            self.give_up();
            return Err(Fault::Exhausted);
        }
        Ok(self.commit_bind())
    }

    /// Takes in a record through a handle, by the number of its entry; does nothing if no entry has the number. Looks
    /// nothing up, takes no memory, and gives up what was prepared.
    #[inline(always)]
    pub fn update_bound(&mut self, number: usize, value: A::PreComputedValue)
        ensures updated { (s : AttributeSet) → number_of s self.old.numbers ≡ Some number → self.new.state ≡ updated_bound s (A.sample value) self.old.state }
        ensures unknown { is_number number self.old.numbers ≡ false → self.new.state ≡ self.old.state }
        ensures numbers { self.new.numbers ≡ self.old.numbers }
        ensures given { self.new.given ≡ self.old.given }
        ensures spent { self.new.pending ≡ [] }
    {
        self.pending.give_up();
        self.table.touch(number, value);
    }

    /// Ends a handle, by the number of its entry; does nothing if no entry has the number. Takes no memory, and gives up
    /// what was prepared.
    pub fn unbind(&mut self, number: usize)
        ensures unbound { (s : AttributeSet) → number_of s self.old.numbers ≡ Some number → self.new.state ≡ unbound_map s self.old.state }
        ensures unknown { is_number number self.old.numbers ≡ false → self.new.state ≡ self.old.state }
        ensures numbers { self.new.numbers ≡ self.old.numbers }
        ensures given { self.new.given ≡ self.old.given }
        ensures spent { self.new.pending ≡ [] }
    {
        self.pending.give_up();
        self.table.release(number);
    }

    /// Whether the attributes as given lead to an entry: as its set, as the list that admitted it, or because there
    /// are none. A record or a bind with such attributes takes no memory.
    pub fn knows(&self, attributes: &[KeyValue]) -> bool
        ensures { result ≡ knows attributes.now (known_of self.now) }
    {
        let list = HashedSet::new(self.table.hasher(), attributes);
        if list.is_empty() {
            return true;
        }
        self.table.find(&list).is_some()
    }

    /// How many keys the map has: the sets of its entries, and the lists as given that admitted one of them in another
    /// form. There are at most two for each entry.
    pub fn keys(&self) -> usize
        ensures number { result ≡ keys (known_of self.now) }
        ensures few { result ≤ 2 * length self.now.state.table.entries }
    {
        self.table.keys()
    }

    /// The law that numbers and sets lead to each other.
    pub fn law_of_numbers(&self)
        ensures named { AreNamed self.now.numbers }
        ensures placed { AreNumbered self.now.state.table.entries self.now.numbers }
    {
        self.table.law_of_numbers();
    }

    /// How many entries the limit counts.
    pub fn count(&self) -> usize
        ensures { result ≡ number_counted self.now.state.table.entries }
    {
        self.count
    }

    /// The points that this makes of the sets and aggregators: of the empty set if it was updated, then of the entries in
    /// order of making, either all or those that were updated. They share the map's sets. Takes memory for the list once.
    pub(crate) fn shown<M: PointMaker<A>>(
        &self,
        alloc: Global,
        maker: &M,
        every: bool,
    ) -> Result<Vec<M::Point>, Fault>
        requires { AllByRecursion (M.can_show maker.now) (points every self.now.state.table) }
        ensures points { IfOk result (λ given. map M.seen given.items ≡ map (M.shown maker.now) (points every self.now.state.table)) }
        ensures only_memory { IsOkUnless result Fault.OutOfMemory }
    {
        self.table.shown(alloc, maker, every)
    }

    /// What the records that `shown` shows add up to, modulo 2^64.
    pub fn total(&self, every: bool) -> u64
        ensures { result ≡ wrap (points_total (points every self.now.state.table)) }
    {
        self.table.total(every)
    }

    /// Forgets all records, and evicts the entries that had none since the last time and that no handle holds, except
    /// the overflow entry. With an entry goes the list that admitted it. What is prepared is given up.
    pub(crate) fn reset_and_evict(&mut self)
        ensures state { self.new.state ≡ evicted_map self.old.state }
        ensures numbers { KeepLeft (evicted_map self.old.state).table.entries self.old.numbers self.new.numbers }
        ensures given { self.new.given ≡ given_left (evicted_map self.old.state) self.old.given }
        ensures unprepared { self.new.pending ≡ [] }
    {
        self.pending.give_up();
        self.table.evict();
        self.count = self.table.count_counted();
    }

    /// Forgets all records, and all entries but that of the empty set. What is prepared is given up. The map keeps
    /// memory for about as many entries as it had, for later ones.
    ///
    /// No handle should be live: its entry is gone, and the entry's number may be given to another one.
    pub(crate) fn drain(&mut self)
        ensures state { self.new.state ≡ drained_map self.old.state }
        ensures none { self.new.numbers.none ≡ self.old.numbers.none }
        ensures given { self.new.given ≡ [] }
        ensures unprepared { self.new.pending ≡ [] }
    {
        self.pending.give_up();
        self.table.drain();
        self.count = 0;
    }

    /// A draft with copies of the entries, which share their sets. For a map without other entries it takes memory for
    /// that of the empty set.
    pub(crate) fn draft(&self, alloc: Global) -> Result<Draft<A>, Fault>
        ensures draft { IfOk result (λ draft. draft ≡ self.now.state.table) }
        ensures only_memory { IsOkUnless result Fault.OutOfMemory }
    {
        let entries = self.table.copy(alloc)?;
        let count = entries.count_counted();
        Ok(Draft { entries, count })
    }

    /// Exchanges the entries with those of a draft, and gives up what is prepared. Takes no memory. Entries may get
    /// other numbers, so no handle should be live.
    pub(crate) fn exchange(&mut self, draft: &mut Draft<A>)
        ensures state { self.new.state ≡ record self.old.state { table = draft.old } }
        ensures draft { draft.new ≡ self.old.state.table }
        ensures unprepared { self.new.pending ≡ [] }
        ensures was { HasForm A.meaning self.old.state.table }
        ensures is { HasForm A.meaning draft.old }
    {
        self.pending.give_up();
        // These tell the prover what is kept of the empty set.
        self.table.law_of_empty_set();
        draft.entries.law_of_empty_set();
        swap(&mut self.table, &mut draft.entries);
        swap(&mut self.count, &mut draft.count);
    }

    /// The aggregator of a set as a draining collection would show it, or `None` if it would show no point of the set.
    /// The attributes are looked up as given, without a copy.
    pub fn get(&self, attributes: &[KeyValue]) -> Option<&A>
        ensures { option_map (λ found. A.meaning found.now) result ≡ fold_in (draining_points self.now.state) attributes.now }
    {
        let set = HashedSet::new(self.table.hasher(), attributes);
        self.table.get(&set)
    }

    /// The points of a collection that changes nothing: that of the empty set if it was updated, and those of all
    /// other entries. They share their sets with the map.
    pub fn collect_readonly(&self, alloc: Global) -> Result<Vec<(SharedItems<KeyValue>, A)>, Fault>
        ensures points { IfOk result (λ given. copies A.meaning given.items ≡ readonly_points self.now.state) }
        ensures only_memory { IsOkUnless result Fault.OutOfMemory }
    {
        self.table.shown(alloc, &Copies {}, true)
    }

    /// The points of a resetting collection: of the entries updated since the last one. The map then forgets all
    /// records, evicts the entries that had none and that no handle holds, and gives up what is prepared. Sets are
    /// shared with the entries that stay, and never copied. If it fails, nothing changes.
    pub fn collect_and_reset(
        &mut self,
        alloc: Global,
    ) -> Result<Vec<(SharedItems<KeyValue>, A)>, Fault>
        ensures points { IfOk result (λ given. copies A.meaning given.items ≡ resetting_points self.old.state) }
        ensures ok { OnOk result (known_of self.new ≡ evicted_known (known_of self.old)) }
        ensures numbers { KeepLeft self.new.state.table.entries self.old.numbers self.new.numbers }
        ensures err { OnErr result (self.new ≡ self.old) }
        ensures spent { OnOk result (self.new.pending ≡ []) }
        ensures only_memory { IsOkUnless result Fault.OutOfMemory }
    {
        let points = self.table.shown(alloc, &Copies {}, false)?;
        self.reset_and_evict();
        Ok(points)
    }

    /// The points of a draining collection: that of the empty set if it was updated, and those of all other entries.
    /// The map then forgets all records and all entries but that of the empty set, and gives up what is prepared. No
    /// set is copied. If it fails, nothing changes.
    ///
    /// No handle should be live: its entry is gone, and the entry's number may be given to another one.
    pub fn drain_and_reset(
        &mut self,
        alloc: Global,
    ) -> Result<Vec<(SharedItems<KeyValue>, A)>, Fault>
        ensures points { IfOk result (λ given. copies A.meaning given.items ≡ draining_points self.old.state) }
        ensures ok { OnOk result (self.new.state ≡ drained_map self.old.state) }
        ensures given { OnOk result (self.new.given ≡ []) }
        ensures err { OnErr result (self.new ≡ self.old) }
        ensures spent { OnOk result (self.new.pending ≡ []) }
        ensures only_memory { IsOkUnless result Fault.OutOfMemory }
    {
        let points = self.table.shown(alloc, &Copies {}, true)?;
        self.drain();
        Ok(points)
    }
}

impl ValueMap<AnyAggregator> {
    /// Takes in the records of these values, one after another, for the set that is prepared next, whose entry is there
    /// already, and keeps the others prepared; `has_entry` tells whether the entry is there. Takes no memory, and looks
    /// nothing up.
    pub(crate) fn commit_each(&mut self, settings: &AnySettings, values: &[NumberValue])
        requires { is_next_placed self.old.pending self.old.state.table.entries ≡ true }
        ensures measured { (s : AttributeSet) → next_of self.old.pending ≡ Some s → self.new.state ≡ fold (λ m v. measured_map s v m) self.old.state (samples_of (aggregate_of settings.now) values.now) }
        ensures numbers { self.new.numbers ≡ self.old.numbers }
        ensures given { self.new.given ≡ self.old.given }
        ensures rest { self.new.pending ≡ drop 1 self.old.pending }
    {
        if let Some(number) = self.pending.take_next() {
            self.table.touch_each(number, settings, values);
        }
    }
}
