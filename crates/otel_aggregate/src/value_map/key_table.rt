//! The numbers that sets and lists lead to.

ghost use Rattle.std.specs.Prelude.{◌≡◌, ◌<◌, ◌+◌, ◌^◌, ◌∷◌, [], ◌++◌, None, Some, OnOk, map, filter, is_some, length, true};
ghost use Rattle.std.specs.List.{AllByRecursion};
ghost use Rattle.std.specs.Map.{lookup};
ghost use Rattle.indexmap.specs.IndexMap.{spare};
ghost use Rattle.otel_common.specs.Equality.{set_eq};
ghost use Rattle.otel_aggregate.specs.value_map.Hashed.{IsHashedBy, hashed_eq, plain};
ghost use Rattle.otel_aggregate.specs.value_map.Keyed.{found, IsNew, IsSpelling, with_spelling};
ghost use Rattle.otel_aggregate.specs.value_map.Slots.{look_in};
ghost use Rattle.otel_aggregate.specs.declared.value_map.hashing.SetHashBuilder.{SetHashBuilder};

use crate::aggregators::aggregator::Aggregator;
use crate::value_map::hashed_key::{HashedKey, HashedSet, OwnedSet};
use crate::value_map::hashing::SetHashBuilder;
use crate::value_map::key_hasher::KeyHashBuilder;
use crate::value_map::slots::Slot;
use indexmap::IndexMap;
use indexmap::map::Iter;
use slab::Slab;
use std::alloc::{AllocError, Global};
use std::marker::Model;

/// Keys with the numbers of the slots that they lead to, in order of making.
type Numbered = IndexMap<HashedKey, usize, KeyHashBuilder>;

/// The numbers of slots, by set and by list as given.
#[derive(Drop)]
pub struct KeyTable {
    /// Hashes the sets and lists.
    pub hasher: SetHashBuilder,
    /// By canonical set, so that a list that is canonical as given is found without a copy.
    sets: Numbered,
    /// By other lists, as given, that admitted a set: those that are not its canonical form.
    aliases: Numbered,
}

impl Model for KeyTable {
    ghost use Rattle.std.specs.Prelude.{◌&&◌, nat_lt, map};
    ghost use Rattle.std.specs.List.{AllByRecursion};
    ghost use Rattle.indexmap.specs.IndexMap.{spare};
    ghost use Rattle.otel_aggregate.specs.value_map.Hashed.{Led, IsHashedBy, plain};

    ghost Value = { Led };

    ghost view = { λ t. record {
      sets = map plain t.sets.entries;
      aliases = map plain t.aliases.entries;
      room = nat_lt 0 (spare t.sets) && nat_lt 0 (spare t.aliases);
    } };

    ghost invariant = { λ t. AllByRecursion (λ e. IsHashedBy t.hasher e.0) t.sets.entries × AllByRecursion (λ e. IsHashedBy t.hasher e.0) t.aliases.entries };
}

/// The number that a key leads to, where all keys are hashed alike.
#[inline(always)]
#[tactic(auto, using(crate::proofs::value_map::HashedLemmas::lookup_hashed))]
fn number_in(numbers: &Numbered, key: &HashedSet) -> Option<usize>
    requires { (b : SetHashBuilder) × IsHashedBy b key.now × AllByRecursion (λ e. IsHashedBy b e.0) numbers.now.entries }
    ensures { result ≡ lookup (set_eq key.now.key) (map plain numbers.now.entries) }
{
    numbers.get(key).copied()
}

/// Adds a key, for which there is room.
fn add_key(numbers: &mut Numbered, key: HashedKey, number: usize)
    requires absent { lookup (hashed_eq key) numbers.old.entries ≡ None }
    requires room { 0 < spare numbers.old }
    ensures keys { numbers.new.entries ≡ numbers.old.entries ++ (key, number) ∷ [] }
{
    numbers.insert(key, number).unwrap();
}

/// Maps that have no room for more keys than this keep it.
const SMALL: usize = 64;

/// Gives memory back if a map has far fewer keys than there is room for, since clearing a map and removing from it take
/// time for that room. For what stays, it takes memory anew; if that is refused, the room stays.
fn trim(numbers: &mut Numbered)
    ensures { numbers.new.entries ≡ numbers.old.entries }
{
    let room = numbers.capacity();
    if room > SMALL && numbers.len() < room / 8 {
        numbers.shrink_to(2 * numbers.len());
    }
}

/// Removes the keys that lead to free slots.
fn keep_filled<A: Aggregator>(numbers: &mut Numbered, slots: &Slab<Slot<A>>)
    ensures { numbers.new.entries ≡ filter (λ e. is_some (look_in A.meaning slots.now e.1)) numbers.old.entries }
{
    numbers.retain(|_key, number| slots.contains(*number));
    trim(numbers);
}

impl KeyTable {
    /// Makes a table without keys, which hashes sets and lists with this hasher. Takes no memory.
    #[inline(always)]
    pub fn new(alloc: Global, hasher: SetHashBuilder) -> KeyTable
        ensures sets { result.sets ≡ [] }
        ensures aliases { result.aliases ≡ [] }
    {
        KeyTable {
            hasher,
            sets: IndexMap::with_hasher(alloc, KeyHashBuilder),
            aliases: IndexMap::with_hasher(alloc, KeyHashBuilder),
        }
    }

    /// The number that a set leads to.
    pub fn find_set(&self, set: &HashedSet) -> Option<usize>
        ensures { result ≡ lookup (set_eq set.now.key) self.now.sets }
    {
        number_in(&self.sets, &set.hashed_by(self.hasher))
    }

    /// The number that a list leads to, as a set or else as given.
    #[inline(always)]
    pub fn find(&self, list: &HashedSet) -> Option<usize>
        ensures { result ≡ found list.now.key self.now.sets self.now.aliases }
    {
        let key = list.hashed_by(self.hasher);
        match number_in(&self.sets, &key) {
            Some(number) => Some(number),
            None if self.aliases.is_empty() => None,
            None => number_in(&self.aliases, &key),
        }
    }

    /// How many keys there are.
    pub fn keys(&self) -> usize
        ensures { result ≡ length self.now.sets + length self.now.aliases }
    {
        self.sets.len() + self.aliases.len()
    }

    /// The sets with their numbers, in order of making.
    pub fn sets(&self) -> Iter<'_, HashedKey, usize>
        ensures sets { map plain result ≡ self.now.sets }
        ensures few { length self.now.sets < 2 ^ 63 }
    {
        self.sets.iter()
    }

    /// Makes room for one more set and one more list.
    pub fn reserve_one(&mut self) -> Result<(), AllocError>
        ensures sets { self.new.sets ≡ self.old.sets }
        ensures aliases { self.new.aliases ≡ self.old.aliases }
        ensures room { OnOk result (self.new.room ≡ true) }
    {
        self.sets.reserve(1)?;
        self.aliases.reserve(1)?;
        Ok(())
    }

    /// Adds a set, and the list that admitted it if that is another, as keys of this number.
    pub fn add(&mut self, set: OwnedSet, list: Option<OwnedSet>, number: usize)
        requires new { IsNew self.old.sets set }
        requires spelling { IsSpelling self.old.aliases set list }
        requires room { self.old.room ≡ true }
        ensures sets { self.new.sets ≡ self.old.sets ++ (set, number) ∷ [] }
        ensures aliases { self.new.aliases ≡ with_spelling list number self.old.aliases }
    {
        add_key(&mut self.sets, set.into_key(self.hasher), number);
        if let Some(list) = list {
            add_key(&mut self.aliases, list.into_key(self.hasher), number);
        }
    }

    /// Removes the keys that lead to free slots.
    pub fn keep_filled<A: Aggregator>(&mut self, slots: &Slab<Slot<A>>)
        ensures sets { self.new.sets ≡ filter (λ e. is_some (look_in A.meaning slots.now e.1)) self.old.sets }
        ensures aliases { self.new.aliases ≡ filter (λ e. is_some (look_in A.meaning slots.now e.1)) self.old.aliases }
    {
        keep_filled(&mut self.sets, slots);
        keep_filled(&mut self.aliases, slots);
    }

    /// Removes all keys. Keeps memory for about as many as there were, for later ones.
    pub fn clear(&mut self)
        ensures sets { self.new.sets ≡ [] }
        ensures aliases { self.new.aliases ≡ [] }
    {
        trim(&mut self.sets);
        trim(&mut self.aliases);
        self.sets.clear();
        self.aliases.clear();
    }
}
