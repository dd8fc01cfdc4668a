//! Entries in slots, found by their sets or by the lists that admitted them.

ghost use Rattle.std.specs.Prelude.{◌≡◌, ◌<◌, ◌≤◌, ◌+◌, ◌-◌, ◌*◌, ◌^◌, ◌∷◌, [], ◌++◌, ◌||◌, ◌&&◌, None, Some, IfOk, OnOk, IsOkUnless, IfSome, map, filter, is_some, length, cond, nat_le, false, true};
ghost use Rattle.std.specs.Option.{IfNone, option_copied, option_map};
ghost use Rattle.std.specs.Map.{lookup, keys_of};
ghost use Rattle.std.specs.Set.{is_member};
ghost use Rattle.slab.specs.Slab.{slab_len};
ghost use Rattle.otel_common.specs.Canonical.{canon};
ghost use Rattle.otel_common.specs.Equality.{set_eq};
ghost use Rattle.otel_model_stream.specs.Folds.{wrap};
ghost use Rattle.otel_model_stream.specs.Sets.{AttributeSet, allowed_part, none_set, over_set};
ghost use Rattle.otel_model_stream.specs.Observed.{fold_in};
ghost use Rattle.otel_model_stream.specs.Totals.{points_total};
ghost use Rattle.otel_model_stream.specs.Entries.{point_of_entry, has, write, take_handle, drop_handle, at_entry, evicted_table, drained_table, points, number_counted};
ghost use Rattle.std.specs.List.{AllByRecursion, IsDistinct};
ghost use Rattle.otel_aggregate.specs.Any.{aggregate_of, samples_of};
ghost use Rattle.otel_aggregate.specs.value_map.Keyed.{Fits, found, IsNew, IsSpelling, with_spelling};
ghost use Rattle.otel_aggregate.specs.value_map.Numbers.{number_of, handles_at, AreNamed, AreNumbered, KeepLeft, IsNumberOf, is_number};
ghost use Rattle.otel_aggregate.specs.value_map.Slots.{HasForm, Look, look_in, kept_of, entry_of, entry_at, write_each};

use crate::aggregators::aggregator::Aggregator;
use crate::any_aggregator::AnyAggregator;
use crate::sets::allowed_keys::AllowedKeys;
use crate::sets::forms::is_form_of;
use crate::settings::AnySettings;
use crate::value_map::hashed_key::{HashedSet, OwnedSet};
use crate::value_map::hashing::SetHashBuilder;
use crate::value_map::key_table::KeyTable;
use crate::value_map::maker::PointMaker;
use crate::value_map::slots::{Slot, clear_others, fill, hold, release, settle, touch, touch_each};
use otel_common::attributes::KeyValue;
use otel_common::faults::Fault;
use otel_common::lists::SharedItems;
use otel_data::numbers::NumberValue;
use slab::Slab;
use std::alloc::{AllocError, Global};
use std::marker::Model;

/// The entries of a map. Each entry is in a slot and keeps the slot's number as long as it exists; a freed slot is
/// used again.
#[derive(Drop)]
pub struct Table<A: Aggregator> {
    slots: Slab<Slot<A>>,
    /// The slot of the empty set, which has no key.
    none: usize,
    /// The slot of the overflow set, if it has one.
    overflow: Option<usize>,
    /// The slots that sets and lists lead to.
    keys: KeyTable,
}

impl<A: Aggregator> Model for Table<A> {
    ghost use Rattle.std.specs.Prelude.{◌≡◌, ◌+◌, ◌&&◌, nat_le};
    ghost use Rattle.std.specs.Map.{lookup};
    ghost use Rattle.slab.specs.Slab.{slab_len};
    ghost use Rattle.otel_common.specs.Equality.{set_eq};
    ghost use Rattle.otel_model_stream.specs.Sets.{over_set};
    ghost use Rattle.otel_aggregate.specs.value_map.Slots.{look_in};
    ghost use Rattle.otel_aggregate.specs.value_map.Keyed.{Slotted, slotted, IsConsistent};

    ghost Value = { Slotted };

    ghost view = { λ t. slotted (look_in A.meaning t.slots) t.none t.keys.sets t.keys.aliases (nat_le (slab_len t.slots + 1) t.slots.capacity && t.keys.room) };

    ghost invariant = { λ t. IsConsistent (look_in A.meaning t.slots) t.none t.keys.sets t.keys.aliases × (t.overflow ≡ lookup (set_eq over_set) t.keys.sets) };
}

/// The point of the empty set, whose slot has this number, if that slot was updated, in a list with room for this many
/// more points.
fn first_points<A: Aggregator, M: PointMaker<A>>(
    alloc: Global,
    maker: &M,
    slots: &Slab<Slot<A>>,
    none: usize,
    more: usize,
) -> Result<Vec<M::Point>, Fault>
    requires { AllByRecursion (M.can_show maker.now) (map point_of_entry (filter (λ entry. entry.updated) (entry_at (look_in A.meaning slots.now) (none_set, none) ∷ []))) }
    ensures points { IfOk result (λ given. map M.seen given.items ≡ map (M.shown maker.now) (map point_of_entry (filter (λ entry. entry.updated) (entry_at (look_in A.meaning slots.now) (none_set, none) ∷ [])))) }
    ensures only_memory { IsOkUnless result Fault.OutOfMemory }
{
    match shown_in(slots, none) {
        None => Ok(Vec::with_capacity(alloc, more)?),
        Some(aggregator) => {
            let mut points = Vec::with_capacity(alloc, more.saturating_add(1))?;
            let set = SharedItems::new(Vec::new(alloc))?;
            points.push(maker.point(alloc, set, aggregator)?)?;
            Ok(points)
        }
    }
}

/// Adds the points of the sets, in order, either all of them or those that were updated.
fn add_points<A: Aggregator, M: PointMaker<A>>(
    alloc: Global,
    maker: &M,
    slots: &Slab<Slot<A>>,
    keys: &KeyTable,
    every: bool,
    points: &mut Vec<M::Point>,
) -> Result<(), Fault>
    requires fits { AllByRecursion (Fits (look_in A.meaning slots.now)) keys.now.sets }
    requires shown { AllByRecursion (M.can_show maker.now) (map point_of_entry (filter (λ entry. every || entry.updated) (map (entry_at (look_in A.meaning slots.now)) keys.now.sets))) }
    ensures points { OnOk result (map M.seen points.new.items ≡ map M.seen points.old.items ++ map (M.shown maker.now) (map point_of_entry (filter (λ entry. every || entry.updated) (map (entry_at (look_in A.meaning slots.now)) keys.now.sets)))) }
    ensures only_memory { IsOkUnless result Fault.OutOfMemory }
{
    for (set, number) in keys.sets() {
        if let Some(slot) = slots.get(*number) {
            let is_shown = every || slot.updated;
            if is_shown {
                let set = set.key.share()?;
                points.push(maker.point(alloc, set, &slot.aggregator)?)?;
            }
        }
    }
    Ok(())
}

/// What the records in the slot with this number add up to if its point is shown, and else 0.
fn weight_shown<A: Aggregator>(slots: &Slab<Slot<A>>, number: usize, every: bool) -> u64
    ensures { (s : AttributeSet) → result ≡ points_total (map point_of_entry (filter (λ entry. every || entry.updated) (entry_at (look_in A.meaning slots.now) (s, number) ∷ []))) }
{
    match slots.get(number) {
        Some(slot) if every || slot.updated => slot.aggregator.weight(),
        _ => 0,
    }
}

/// What the records that the points of the sets show add up to, modulo 2^64.
fn total_of<A: Aggregator>(slots: &Slab<Slot<A>>, keys: &KeyTable, every: bool) -> u64
    ensures { result ≡ wrap (points_total (map point_of_entry (filter (λ entry. every || entry.updated) (map (entry_at (look_in A.meaning slots.now)) keys.now.sets)))) }
{
    let mut total: u64 = 0;
    for (_, number) in keys.sets() {
        total = total.wrapping_add(weight_shown(slots, *number, every));
    }
    total
}

/// How many of the sets the limit counts.
#[tactic(auto, using(crate::proofs::value_map::TableLemmas::counted_cons, crate::proofs::value_map::TableLemmas::counted_few))]
fn count_counted<A: Aggregator>(slots: &Slab<Slot<A>>, keys: &KeyTable) -> usize
    ensures { result ≡ number_counted (map (entry_at (look_in A.meaning slots.now)) keys.now.sets) }
{
    let mut count = 0;
    for (_, number) in keys.sets() {
        if slots.get(*number).is_some_and(|slot| slot.counted) {
            count += 1;
        }
    }
    count
}

/// The aggregator in the slot with this number, if the slot was updated.
fn shown_in<A: Aggregator>(slots: &Slab<Slot<A>>, number: usize) -> Option<&A>
    ensures { (s : AttributeSet) → option_map (λ found. A.meaning found.now) result ≡ cond (entry_at (look_in A.meaning slots.now) (s, number)).updated (Some (entry_at (look_in A.meaning slots.now) (s, number)).fold) None }
{
    let slot = slots.get(number)?;
    if slot.updated {
        Some(&slot.aggregator)
    } else {
        None
    }
}

/// A copy of a slot.
fn copy_slot<A: Aggregator>(alloc: Global, slot: &Slot<A>) -> Result<Slot<A>, Fault>
    ensures copy { IfOk result (λ made. kept_of A.meaning made ≡ kept_of A.meaning slot.now) }
    ensures only_memory { IsOkUnless result Fault.OutOfMemory }
{
    Ok(Slot {
        aggregator: slot.aggregator.copy(alloc)?,
        counted: slot.counted,
        updated: slot.updated,
        lasting: slot.lasting,
        handles: slot.handles,
    })
}

/// The number of the first set that is the canonical form of what the allow-list keeps of a list.
fn form_in(keys: &KeyTable, allow: Option<&AllowedKeys>, list: &[KeyValue]) -> Option<usize>
    requires { (look : Look) × AllByRecursion (Fits look) keys.now.sets }
    ensures { result ≡ lookup (set_eq (canon (allowed_part (option_copied allow.entry) list.now))) keys.now.sets }
{
    for (set, number) in keys.sets() {
        if is_form_of(set.key.as_slice(), allow, list) {
            return Some(*number);
        }
    }
    None
}

impl<A: Aggregator> Table<A> {
    /// Makes a table with no entry but that of the empty set, in this slot. Takes memory for that one slot.
    #[inline(always)]
    pub fn new(alloc: Global, hasher: SetHashBuilder, slot: Slot<A>) -> Result<Table<A>, Fault>
        requires lasting { slot.lasting ≡ true }
        requires uncounted { slot.counted ≡ false }
        ensures table { IfOk result (λ made. made.table ≡ record { none = entry_of none_set (Some (kept_of A.meaning slot)); entries = [] }) }
        ensures sets { IfOk result (λ made. made.numbers.sets ≡ []) }
        ensures aliases { IfOk result (λ made. made.aliases ≡ []) }
        ensures only_memory { IsOkUnless result Fault.OutOfMemory }
    {
        let mut slots = Slab::new(alloc);
        slots.reserve(1)?;
        let none = fill(&mut slots, slot);
        Ok(Table {
            slots,
            none,
            overflow: None,
            keys: KeyTable::new(alloc, hasher),
        })
    }

    /// The law that the empty set's entry isn't counted, and that some aggregator has its records.
    #[tactic(auto, using(crate::proofs::value_map::KeyedLemmas::form_kept))]
    pub fn law_of_empty_set(&self)
        ensures { HasForm A.meaning self.now.table }
    {
        let _none = self.none;
    }

    /// The law that numbers and sets lead to each other.
    #[tactic(auto, using(crate::proofs::value_map::KeyedLemmas::numbers_placed))]
    pub fn law_of_numbers(&self)
        ensures named { AreNamed self.now.numbers }
        ensures placed { AreNumbered self.now.table.entries self.now.numbers }
    {
        let _none = self.none;
    }

    /// What sets and lists are hashed with.
    pub fn hasher(&self) -> SetHashBuilder {
        self.keys.hasher
    }

    /// The number of the empty set's slot.
    pub fn none(&self) -> usize
        ensures number { result ≡ self.now.numbers.none }
    {
        self.none
    }

    /// The number of the overflow set's slot, if it has one.
    #[tactic(auto, using(crate::proofs::value_map::KeyedLemmas::has_lookup))]
    pub fn overflow(&self) -> Option<usize>
        ensures number { result ≡ lookup (set_eq over_set) self.now.numbers.sets }
        ensures placed { is_some result ≡ has over_set self.now.table.entries }
        ensures named { IfSome result (λ n. IsNumberOf over_set n self.now.numbers) }
    {
        self.overflow
    }

    /// The number that a set leads to.
    #[tactic(auto, using(crate::proofs::value_map::KeyedLemmas::has_lookup))]
    pub fn find_set(&self, set: &HashedSet) -> Option<usize>
        ensures number { result ≡ lookup (set_eq set.now.key) self.now.numbers.sets }
        ensures placed { is_some result ≡ has set.now.key self.now.table.entries }
        ensures named { IfSome result (λ n. IsNumberOf set.now.key n self.now.numbers) }
    {
        self.keys.find_set(set)
    }

    /// The number of the set that is the canonical form of what the allow-list keeps of a list. It goes over all sets.
    pub fn find_form(&self, allow: Option<&AllowedKeys>, list: &[KeyValue]) -> Option<usize>
        ensures placed { is_some result ≡ has (canon (allowed_part (option_copied allow.entry) list.now)) self.now.table.entries }
        ensures named { IfSome result (λ n. IsNumberOf (canon (allowed_part (option_copied allow.entry) list.now)) n self.now.numbers) }
        ensures unknown { IfNone result ((is_member set_eq (keys_of self.now.aliases) (allowed_part (option_copied allow.entry) list.now) || has (allowed_part (option_copied allow.entry) list.now) self.now.table.entries) ≡ false) }
    {
        form_in(&self.keys, allow, list)
    }

    /// The number that a list leads to as given: as a set, or as the list that admitted one.
    #[inline(always)]
    #[tactic(auto, using(crate::proofs::value_map::KeyedLemmas::found_known))]
    pub fn find(&self, list: &HashedSet) -> Option<usize>
        ensures number { result ≡ found list.now.key self.now.numbers.sets self.now.aliases }
        ensures known { is_some result ≡ (is_member set_eq (keys_of self.now.aliases) list.now.key || has list.now.key self.now.table.entries) }
        ensures placed { IfSome result (λ _. has (canon list.now.key) self.now.table.entries ≡ true) }
        ensures named { IfSome result (λ n. IsNumberOf (canon list.now.key) n self.now.numbers) }
    {
        self.keys.find(list)
    }

    /// How many keys lead to entries: those of sets, and those of lists as given.
    pub fn keys(&self) -> usize
        ensures number { result ≡ length self.now.table.entries + length self.now.aliases }
        ensures few { result ≤ 2 * length self.now.table.entries }
    {
        self.keys.keys()
    }

    /// Makes room for one more entry, with a key for its set and one for another list.
    pub fn make_room(&mut self) -> Result<(), AllocError>
        ensures table { self.new.table ≡ self.old.table }
        ensures numbers { self.new.numbers ≡ self.old.numbers }
        ensures aliases { self.new.aliases ≡ self.old.aliases }
        ensures room { OnOk result (self.new.room ≡ true) }
    {
        self.slots.reserve(1)?;
        self.keys.reserve_one()
    }

    /// Takes a record into the entry with this number, without a look-up.
    #[inline(always)]
    pub fn touch(&mut self, number: usize, value: A::PreComputedValue)
        ensures table { (s : AttributeSet) → number_of s self.old.numbers ≡ Some number → self.new.table ≡ at_entry s (write (A.sample value)) self.old.table }
        ensures unknown { is_number number self.old.numbers ≡ false → self.new.table ≡ self.old.table }
        ensures counted { number_counted self.new.table.entries ≡ number_counted self.old.table.entries }
        ensures numbers { self.new.numbers ≡ self.old.numbers }
        ensures aliases { self.new.aliases ≡ self.old.aliases }
    {
        touch(&mut self.slots, number, value);
    }

    /// Takes a live handle away from the entry with this number.
    pub fn release(&mut self, number: usize)
        ensures table { (s : AttributeSet) → number_of s self.old.numbers ≡ Some number → self.new.table ≡ at_entry s drop_handle self.old.table }
        ensures unknown { is_number number self.old.numbers ≡ false → self.new.table ≡ self.old.table }
        ensures counted { number_counted self.new.table.entries ≡ number_counted self.old.table.entries }
        ensures numbers { self.new.numbers ≡ self.old.numbers }
        ensures aliases { self.new.aliases ≡ self.old.aliases }
    {
        release(&mut self.slots, number);
    }

    /// Forgets all records, and evicts the entries that had none since the last time and that no handle holds, except
    /// that of the overflow set. An entry that stays keeps its number.
    pub fn evict(&mut self)
        ensures table { self.new.table ≡ evicted_table self.old.table }
        ensures numbers { KeepLeft (evicted_table self.old.table).entries self.old.numbers self.new.numbers }
        ensures aliases { keys_of self.new.aliases ≡ filter (λ l. has (canon l) (evicted_table self.old.table).entries) (keys_of self.old.aliases) }
    {
        settle(&mut self.slots);
        self.keys.keep_filled(&self.slots);
    }

    /// Adds an entry for a set that has none, and returns its number. The entry gets a slot, a key for the set, and a
    /// key for the list that admitted it if that is another. Only the overflow set's slot lasts.
    pub fn add(&mut self, set: OwnedSet, list: Option<OwnedSet>, slot: Slot<A>) -> usize
        requires new { IsNew self.old.numbers.sets set }
        requires spelling { IsSpelling self.old.aliases set list }
        requires lasting { slot.lasting ≡ set_eq set over_set }
        requires room { self.old.room ≡ true }
        ensures table { self.new.table ≡ record self.old.table { entries = self.old.table.entries ++ entry_of set (Some (kept_of A.meaning slot)) ∷ [] } }
        ensures none { self.new.numbers.none ≡ self.old.numbers.none }
        ensures sets { self.new.numbers.sets ≡ self.old.numbers.sets ++ (set, result) ∷ [] }
        ensures aliases { self.new.aliases ≡ with_spelling list result self.old.aliases }
    {
        let lasting = slot.lasting;
        let number = fill(&mut self.slots, slot);
        self.keys.add(set, list, number);
        self.overflow = lasting.then_some(number).or(self.overflow);
        number
    }

    /// How many live handles the entry with this number has.
    pub fn handles(&self, number: usize) -> u64
        ensures { (s : AttributeSet) → number_of s self.now.numbers ≡ Some number → result ≡ handles_at s self.now.table }
    {
        match self.slots.get(number) {
            Some(slot) => slot.handles,
            None => 0,
        }
    }

    /// Adds a live handle to the entry with this number.
    pub fn hold(&mut self, number: usize)
        requires { (s : AttributeSet) × (number_of s self.old.numbers ≡ Some number) × (handles_at s self.old.table < 2 ^ 64 - 1) }
        ensures table { (s : AttributeSet) → number_of s self.old.numbers ≡ Some number → self.new.table ≡ at_entry s take_handle self.old.table }
        ensures counted { number_counted self.new.table.entries ≡ number_counted self.old.table.entries }
        ensures numbers { self.new.numbers ≡ self.old.numbers }
        ensures aliases { self.new.aliases ≡ self.old.aliases }
    {
        hold(&mut self.slots, number);
    }

    /// Forgets all records, and all entries but that of the empty set. Keeps memory for about as many entries as it had,
    /// for later ones.
    pub fn drain(&mut self)
        ensures table { self.new.table ≡ drained_table self.old.table }
        ensures none { self.new.numbers.none ≡ self.old.numbers.none }
        ensures sets { self.new.numbers.sets ≡ [] }
        ensures aliases { self.new.aliases ≡ [] }
    {
        clear_others(&mut self.slots, self.none);
        self.keys.clear();
        self.overflow = None;
    }

    /// The points: that of the empty set if it was updated, then those of the sets in order of making, either all or
    /// those that were updated. They share the table's sets: none is copied.
    pub fn shown<M: PointMaker<A>>(
        &self,
        alloc: Global,
        maker: &M,
        every: bool,
    ) -> Result<Vec<M::Point>, Fault>
        requires { AllByRecursion (M.can_show maker.now) (points every self.now.table) }
        ensures points { IfOk result (λ given. map M.seen given.items ≡ map (M.shown maker.now) (points every self.now.table)) }
        ensures only_memory { IsOkUnless result Fault.OutOfMemory }
    {
        let sets = self.keys.sets();
        let more = if every {
            sets.len()
        } else {
            sets.filter(|(_, number)| self.slots.get(**number).is_some_and(|slot| slot.updated))
                .count()
        };
        let mut points = first_points(alloc, maker, &self.slots, self.none, more)?;
        add_points(alloc, maker, &self.slots, &self.keys, every, &mut points)?;
        Ok(points)
    }

    /// What the records that the points show add up to, modulo 2^64.
    pub fn total(&self, every: bool) -> u64
        ensures { result ≡ wrap (points_total (points every self.now.table)) }
    {
        let rest = total_of(&self.slots, &self.keys, every);
        rest.wrapping_add(weight_shown(&self.slots, self.none, false))
    }

    /// How many entries the limit counts.
    pub fn count_counted(&self) -> usize
        ensures { result ≡ number_counted self.now.table.entries }
    {
        count_counted(&self.slots, &self.keys)
    }

    /// The aggregator of a set as a draining collection would show it, or `None` if it would show no point of the set.
    pub fn get(&self, set: &HashedSet) -> Option<&A>
        ensures { option_map (λ found. A.meaning found.now) result ≡ fold_in (points true self.now.table) set.now.key }
    {
        if set.is_empty() {
            return shown_in(&self.slots, self.none);
        }
        let number = self.find_set(set)?;
        self.slots.get(number).map(|slot| &slot.aggregator)
    }

    /// A copy of the entries, which shares their sets. It doesn't know lists that admitted a set in another form.
    pub fn copy(&self, alloc: Global) -> Result<Table<A>, Fault>
        ensures table { IfOk result (λ made. made.table ≡ self.now.table) }
        ensures only_memory { IsOkUnless result Fault.OutOfMemory }
    {
        let none = self.slots.get(self.none).unwrap();
        let mut made = Table::new(alloc, self.keys.hasher, copy_slot(alloc, none)?)?;
        copy_entries(alloc, &self.slots, &self.keys, &mut made)?;
        Ok(made)
    }
}

/// Adds copies of the entries of these sets to a table that has none. It shares the sets.
fn copy_entries<A: Aggregator>(
    alloc: Global,
    slots: &Slab<Slot<A>>,
    keys: &KeyTable,
    made: &mut Table<A>,
) -> Result<(), Fault>
    requires fits { AllByRecursion (Fits (look_in A.meaning slots.now)) keys.now.sets }
    requires unique { IsDistinct set_eq (keys_of keys.now.sets) }
    requires first { made.old.numbers.sets ≡ [] }
    requires empty { made.old.table.entries ≡ [] }
    ensures table { OnOk result (made.new.table ≡ record made.old.table { entries = map (entry_at (look_in A.meaning slots.now)) keys.now.sets }) }
    ensures only_memory { IsOkUnless result Fault.OutOfMemory }
{
    for (set, number) in keys.sets() {
        if let Some(slot) = slots.get(*number) {
            made.make_room()?;
            let slot = copy_slot(alloc, slot)?;
            let set = OwnedSet::new(keys.hasher, set.key.share()?);
            made.add(set, None, slot);
        }
    }
    Ok(())
}

impl Table<AnyAggregator> {
    /// Takes the records of these values into the entry with this number, one after another, without a look-up.
    pub(crate) fn touch_each(
        &mut self,
        number: usize,
        settings: &AnySettings,
        values: &[NumberValue],
    )
        ensures table { (s : AttributeSet) → number_of s self.old.numbers ≡ Some number → self.new.table ≡ at_entry s (write_each (samples_of (aggregate_of settings.now) values.now)) self.old.table }
        ensures counted { number_counted self.new.table.entries ≡ number_counted self.old.table.entries }
        ensures numbers { self.new.numbers ≡ self.old.numbers }
        ensures aliases { self.new.aliases ≡ self.old.aliases }
    {
        touch_each(&mut self.slots, number, settings, values);
    }
}
