//! Canonical lists of attributes: each key once, and the keys in byte order.
ghost use Rattle.std.specs.Prelude.{◌≡◌, ◌++◌, [], IfOk, IsOkUnless};
ghost use Rattle.std.specs.Cmp.{partial_equiv_from_equiv, decided};
ghost use Rattle.otel_common.specs.Canonical.{canon, HasRisingKeys};
ghost use Rattle.otel_common.specs.Equality.{set_eq, set_eq-Decides};

use crate::attributes::KeyValue;
use crate::canonical::sorted_once;
use crate::faults::Fault;
use crate::lists::Items;
use std::alloc::{AllocError, Global};
use std::marker::Model;

/// A list of attributes in which each key occurs once, with keys in byte order (Common specification, "Attribute
/// Collections").
#[derive(Debug, Drop)]
pub struct AttributeSet {
    items: Items<KeyValue>,
}

impl Model for AttributeSet {
    ghost use Rattle.std.specs.Prelude.{List};
    ghost use Rattle.otel_common.specs.Canonical.{HasRisingKeys};
    ghost use Rattle.otel_common.specs.declared.attributes.KeyValue.{KeyValue};

    ghost Value = { List KeyValue };

    ghost view = { λ s. s.items };

    ghost invariant = { λ s. HasRisingKeys s.items };
}

impl AttributeSet {
    /// Makes the set without attributes. Takes no memory.
    pub(crate) fn empty(alloc: Global) -> AttributeSet
        ensures { result ≡ [] }
    {
        AttributeSet {
            items: Items::from(Vec::new(alloc)),
        }
    }

    /// Makes the canonical form of a list: for each key the value of its first occurrence, with keys in byte order.
    ///
    /// Sorts the list stably by key, with a buffer, and copies no attribute. Refused only for want of memory.
    pub(crate) fn canonical_of(attributes: Vec<KeyValue>) -> Result<AttributeSet, Fault>
        ensures set { IfOk result (λ set. set ≡ canon attributes.items) }
        ensures only_memory { IsOkUnless result Fault.OutOfMemory }
    {
        let attributes = sorted_once(attributes)?;
        Ok(AttributeSet {
            items: Items::from(attributes),
        })
    }

    /// Joins this set with another, in canonical form. Where both have a key, the value of this set stays.
    ///
    /// Copies no attribute. Refused only for want of memory: the list grows, and the sort takes a buffer.
    pub(crate) fn joined(self, other: AttributeSet) -> Result<AttributeSet, Fault>
        ensures set { IfOk result (λ set. set ≡ canon (self ++ other)) }
        ensures only_memory { IsOkUnless result Fault.OutOfMemory }
    {
        let mut attributes = self.into_vec();
        let mut more = other.into_vec();
        attributes.append(&mut more)?;
        AttributeSet::canonical_of(attributes)
    }

    /// The attributes.
    pub(crate) fn as_slice(&self) -> &[KeyValue]
        ensures items { result.now ≡ self.now }
        ensures rising { HasRisingKeys self.now }
    {
        self.items.as_slice()
    }

    /// Consumes the set and returns its attributes.
    pub(crate) fn into_vec(self) -> Vec<KeyValue>
        ensures { result.items ≡ self }
    {
        let AttributeSet { items } = self;
        items.into_vec()
    }

    /// Returns the allocator that the memory of the set comes from.
    pub(crate) fn allocator(&self) -> Global {
        self.items.allocator()
    }
}

impl Clone for AttributeSet {
    ghost is_clone = { λ s t. t ≡ s };

    fn clone(&self) -> Result<AttributeSet, AllocError> {
        Ok(AttributeSet {
            items: self.items.clone()?,
        })
    }
}

impl PartialEq for AttributeSet {
    ghost eq = { set_eq };

    ghost laws = { partial_equiv_from_equiv (decided set_eq set_eq-Decides) };

    fn eq(&self, other: &AttributeSet) -> bool {
        self.items == other.items
    }
}
