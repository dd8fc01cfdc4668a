//! Sets and keys that carry their hash, to be looked up in tables and to stand in them.

ghost use Rattle.std.specs.Prelude.{◌≡◌, ◌==◌, IfOk, IsOkUnless, length};
ghost use Rattle.std.specs.Cmp.{decided, on_equiv, partial_equiv_from_equiv, unsigned_Decides};
ghost use Rattle.std.specs.Ordering.{on};
ghost use Rattle.std.specs.Hash as fed;
ghost use Rattle.std.specs.Hash.{on_Alike, same_Alike};
ghost use Rattle.otel_common.specs.Canonical.{canon};
ghost use Rattle.otel_common.specs.Equality.{set_eq};
ghost use Rattle.otel_aggregate.specs.sets.Keys.{is_below, shown};
ghost use Rattle.otel_aggregate.specs.value_map.Hashed.{IsHashedBy, hashed_eq, hashed_eq-Decides};

use crate::sets::listed::{copies_of, hash_list, hash_references, same_lists, same_referenced};
use crate::value_map::hashing::SetHashBuilder;
use indexmap::Equivalent;
use otel_common::attributes::KeyValue;
use otel_common::faults::Fault;
use otel_common::lists::SharedItems;
use std::alloc::Global;
use std::hash::{Hash, Hasher};
use std::marker::Model;

/// A set of attributes, or a list of them as given, that is looked up, with its hash and what it was hashed with. It is
/// hashed once for all tables in which it is looked up or to which it is added.
///
/// In a table it stands for the key that has its hash and its attributes. Among themselves such sets are told apart by
/// their hashes alone.
#[derive(Drop)]
pub struct HashedSet<'a> {
    hasher: SetHashBuilder,
    hash: u64,
    list: &'a [KeyValue],
    /// References, which stand for the list if there are any.
    references: &'a [&'a KeyValue],
}

impl<'a> Model for HashedSet<'a> {
    ghost use Rattle.std.specs.Prelude.{◌≡◌};
    ghost use Rattle.otel_aggregate.specs.declared.value_map.hashed_key.HashedKey.{HashedKey};
    ghost use Rattle.otel_aggregate.specs.sets.Keys.{attributes_of};
    ghost use Rattle.otel_aggregate.specs.value_map.Hashed.{fed_set};

    ghost Value = { HashedKey };

    ghost view = { λ h. record { hash = h.hash; key = attributes_of h.list.now h.references.now } };

    ghost invariant = { λ h. h.hash ≡ (fed_set h.hasher (attributes_of h.list.now h.references.now)).state };
}

impl<'a> HashedSet<'a> {
    /// Hashes a list, as it is given.
    #[inline(always)]
    pub fn new(hasher: SetHashBuilder, list: &'a [KeyValue]) -> HashedSet<'a>
        ensures hashed { IsHashedBy hasher result }
        ensures key { result.key ≡ list.now }
    {
        HashedSet {
            hasher,
            hash: hash_list(hasher, list),
            list,
            references: &[],
        }
    }

    /// Hashes the attributes that references lead to.
    pub fn referenced(hasher: SetHashBuilder, references: &'a [&'a KeyValue]) -> HashedSet<'a>
        ensures hashed { IsHashedBy hasher result }
        ensures key { result.key ≡ shown references.now }
    {
        HashedSet {
            hasher,
            hash: hash_references(hasher, references),
            list: &[],
            references,
        }
    }

    /// Whether the set is empty.
    #[inline(always)]
    pub fn is_empty(&self) -> bool
        ensures { result ≡ (length self.now.key == 0) }
    {
        self.references.is_empty() && self.list.is_empty()
    }

    /// A copy of the set with the same hash.
    pub fn copied(&self, alloc: Global) -> Result<OwnedSet, Fault>
        ensures copy { IfOk result (λ made. made ≡ self.now.key) }
        ensures only_memory { IsOkUnless result Fault.OutOfMemory }
    {
        let copies = if self.references.is_empty() {
            Vec::from_clones(alloc, self.list)?
        } else {
            copies_of(alloc, self.references)?
        };
        Ok(OwnedSet {
            hasher: self.hasher,
            hash: self.hash,
            set: SharedItems::new(copies)?,
        })
    }

    /// Whether the set has the attributes of a list, in the order of the list.
    #[inline]
    pub fn is_list(&self, list: &[KeyValue]) -> bool
        ensures { result ≡ set_eq self.now.key list.now }
    {
        if self.references.is_empty() {
            same_lists(self.list, list)
        } else {
            same_referenced(self.references, list)
        }
    }

    /// Whether the set is its own canonical form, which it is exactly if each key is greater than the one before it.
    pub fn is_canonical(&self) -> bool
        ensures { result ≡ set_eq (canon self.now.key) self.now.key }
    {
        if self.references.is_empty() {
            return self.list.is_sorted_by(
                |attribute: &KeyValue, next: &KeyValue| -> bool
                    ensures { result ≡ is_below attribute.now next.now }
                { attribute.key < next.key },
            );
        }
        self.references.is_sorted_by(
            |reference: &&KeyValue, next: &&KeyValue| -> bool
                ensures { result ≡ is_below reference.now.now next.now.now }
            { reference.key < next.key },
        )
    }

    /// The same set with the hash of this hasher.
    #[inline(always)]
    pub(crate) fn hashed_by(&self, hasher: SetHashBuilder) -> HashedSet<'a>
        ensures hashed { IsHashedBy hasher result }
        ensures key { result.key ≡ self.now.key }
    {
        let hash = if hasher == self.hasher {
            self.hash
        } else if self.references.is_empty() {
            hash_list(hasher, self.list)
        } else {
            hash_references(hasher, self.references)
        };
        HashedSet {
            hasher,
            hash,
            list: self.list,
            references: self.references,
        }
    }
}

/// A set of attributes, or a list of them as given, with its hash and what it was hashed with. It is to be added to a table,
/// or is lent for many records.
#[derive(Drop)]
pub struct OwnedSet {
    hasher: SetHashBuilder,
    hash: u64,
    set: SharedItems<KeyValue>,
}

impl Model for OwnedSet {
    ghost use Rattle.std.specs.Prelude.{◌≡◌};
    ghost use Rattle.otel_model_stream.specs.Sets.{AttributeSet};
    ghost use Rattle.otel_aggregate.specs.value_map.Hashed.{fed_set};

    ghost Value = { AttributeSet };

    ghost view = { λ o. o.set };

    ghost invariant = { λ o. o.hash ≡ (fed_set o.hasher o.set).state };
}

impl OwnedSet {
    /// Hashes a set.
    pub fn new(hasher: SetHashBuilder, set: SharedItems<KeyValue>) -> OwnedSet
        ensures { result ≡ set }
    {
        let hash = hash_list(hasher, set.as_slice());
        OwnedSet { hasher, hash, set }
    }

    /// The same set, to be looked up.
    pub fn lent(&self) -> HashedSet<'_>
        ensures { result.key ≡ self.now }
    {
        HashedSet {
            hasher: self.hasher,
            hash: self.hash,
            list: self.set.as_slice(),
            references: &[],
        }
    }

    /// The attributes as those of a record, with their hash.
    #[inline(always)]
    pub fn given(&self) -> GivenAttributes<'_>
        ensures { result ≡ self.now }
    {
        GivenAttributes {
            attributes: self.set.as_slice(),
            hashed: Some((self.hasher, self.hash)),
        }
    }

    /// The attributes.
    #[inline(always)]
    pub fn as_slice(&self) -> &[KeyValue]
        ensures { result.now ≡ self.now }
    {
        self.set.as_slice()
    }

    /// Whether another set has the same attributes in the same order.
    pub fn is_same(&self, other: &OwnedSet) -> bool
        ensures { result ≡ set_eq self.now other.now }
    {
        same_lists(self.set.as_slice(), other.set.as_slice())
    }

    /// The set as a key with the hash of this hasher.
    pub(crate) fn into_key(self, hasher: SetHashBuilder) -> HashedKey
        ensures hashed { IsHashedBy hasher result }
        ensures key { result.key ≡ self }
    {
        let OwnedSet {
            hasher: own,
            hash,
            set,
        } = self;
        if hasher == own {
            return HashedKey { hash, key: set };
        }
        let hash = hash_list(hasher, set.as_slice());
        HashedKey { hash, key: set }
    }
}

/// The attributes of a record as given, perhaps with their hash, so that they are hashed once for several maps or several
/// records.
#[derive(Drop)]
pub struct GivenAttributes<'a> {
    attributes: &'a [KeyValue],
    /// What they were hashed with, and the hash.
    hashed: Option<(SetHashBuilder, u64)>,
}

impl<'a> Model for GivenAttributes<'a> {
    ghost use Rattle.std.specs.Prelude.{◌≡◌, IfSome};
    ghost use Rattle.otel_model_stream.specs.Sets.{AttributeSet};
    ghost use Rattle.otel_aggregate.specs.value_map.Hashed.{fed_set};

    ghost Value = { AttributeSet };

    ghost view = { λ g. g.attributes.now };

    ghost invariant = { λ g. IfSome g.hashed (λ h. h.1 ≡ (fed_set h.0 g.attributes.now).state) };
}

impl<'a> GivenAttributes<'a> {
    /// Attributes for one map, which hashes them itself.
    #[inline(always)]
    pub fn new(attributes: &'a [KeyValue]) -> GivenAttributes<'a>
        ensures { result ≡ attributes.now }
    {
        GivenAttributes {
            attributes,
            hashed: None,
        }
    }

    /// The same attributes for this many maps that hash with this hasher: with their hash if there are several. They keep a
    /// hash that they have.
    pub fn hashed_for(&self, maps: usize, hasher: SetHashBuilder) -> GivenAttributes<'a>
        ensures { result ≡ self.now }
    {
        if maps < 2 || self.hashed.is_some() {
            return GivenAttributes {
                attributes: self.attributes,
                hashed: self.hashed,
            };
        }
        GivenAttributes {
            attributes: self.attributes,
            hashed: Some((hasher, hash_list(hasher, self.attributes))),
        }
    }

    /// The attributes.
    #[inline(always)]
    pub fn as_slice(&self) -> &'a [KeyValue]
        ensures { result.now ≡ self.now }
    {
        self.attributes
    }

    /// The attributes with a hash: the one that they have, or else that of this hasher.
    #[inline(always)]
    pub fn list(&self, hasher: SetHashBuilder) -> HashedSet<'a>
        ensures { result.key ≡ self.now }
    {
        match self.hashed {
            Some((hasher, hash)) => HashedSet {
                hasher,
                hash,
                list: self.attributes,
                references: &[],
            },
            None => HashedSet::new(hasher, self.attributes),
        }
    }
}

/// A key that stands in a table: a set, or a list as given, with its hash. Two keys are compared attribute by attribute
/// only if their hashes are equal.
#[derive(Drop)]
pub(crate) struct HashedKey {
    hash: u64,
    /// The set or list.
    pub(crate) key: SharedItems<KeyValue>,
}

impl PartialEq for HashedKey {
    ghost eq = { hashed_eq };

    ghost laws = { partial_equiv_from_equiv (decided hashed_eq hashed_eq-Decides) };

    fn eq(&self, other: &HashedKey) -> bool {
        self.hash == other.hash && same_lists(self.key.as_slice(), other.key.as_slice())
    }
}

impl Eq for HashedKey {
    ghost laws = { decided hashed_eq hashed_eq-Decides };
}

impl Hash for HashedKey {
    ghost hash_input = { λ k. fed.u64 k.hash };

    ghost respects_eq = { (same_Alike (λ k. fed.u64 k.hash) hashed_eq-Decides).fed };

    #[inline]
    fn hash<H: Hasher>(&self, state: &mut H) {
        state.write_u64(self.hash);
    }
}

impl<'a> PartialEq for HashedSet<'a> {
    ghost eq = { on (λ k. k.hash) ◌==◌ };

    ghost laws = { partial_equiv_from_equiv (on_equiv (λ k. k.hash) (decided ◌==◌ unsigned_Decides)) };

    fn eq(&self, other: &HashedSet<'a>) -> bool {
        self.hash == other.hash
    }
}

impl<'a> Eq for HashedSet<'a> {
    ghost laws = { on_equiv (λ k. k.hash) (decided ◌==◌ unsigned_Decides) };
}

impl<'a> Hash for HashedSet<'a> {
    ghost hash_input = { λ k. fed.u64 k.hash };

    ghost respects_eq = { (on_Alike (λ k. k.hash) (same_Alike fed.u64 unsigned_Decides)).fed };

    #[inline]
    fn hash<H: Hasher>(&self, state: &mut H) {
        state.write_u64(self.hash);
    }
}

impl<'q, 'a> Equivalent<HashedKey> for &'q HashedSet<'a> {
    ghost equivalent = { λ q. hashed_eq q.now };

    ghost respects_hash = { λ q. (same_Alike (λ k. fed.u64 k.hash) hashed_eq-Decides).fed q.now };

    ghost respects_eq = { λ q. (decided hashed_eq hashed_eq-Decides).congr q.now };

    #[inline]
    fn equivalent(&self, key: &HashedKey) -> bool {
        self.hash == key.hash && self.is_list(key.key.as_slice())
    }
}
