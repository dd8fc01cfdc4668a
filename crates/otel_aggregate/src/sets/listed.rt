//! Attributes of a list, and those that references lead to: compared, hashed and copied.

ghost use Rattle.std.specs.Prelude.{◌≡◌, IfOk, IsOkUnless};
ghost use Rattle.otel_common.specs.Equality.{set_eq};
ghost use Rattle.otel_aggregate.specs.sets.Keys.{shown};
ghost use Rattle.otel_aggregate.specs.value_map.Hashed.{fed_set};

use crate::value_map::hashing::SetHashBuilder;
use otel_common::attributes::KeyValue;
use otel_common::faults::Fault;
use std::alloc::Global;
use std::hash::{BuildHasher, Hash, Hasher};

/// Tells whether two lists have the same attributes in the same order.
#[inline]
pub(crate) fn same_lists(attributes: &[KeyValue], others: &[KeyValue]) -> bool
    ensures { result ≡ set_eq attributes.now others.now }
{
    if attributes.len() != others.len() {
        return false;
    }
    for at in 0..attributes.len() {
        let is_same = attributes[at] == others[at];
        if !is_same {
            return false;
        }
    }
    true
}

/// Tells whether the references lead to the attributes of a list, in the order of the list. It is kept out of line, since
/// most look-ups compare two lists.
#[inline(never)]
pub(crate) fn same_referenced(references: &[&KeyValue], attributes: &[KeyValue]) -> bool
    ensures { result ≡ set_eq (shown references.now) attributes.now }
{
    if references.len() != attributes.len() {
        return false;
    }
    for at in 0..references.len() {
        let is_same = *references[at] == attributes[at];
        if !is_same {
            return false;
        }
    }
    true
}

/// The hash that this builder's hashers give a list.
#[inline]
pub(crate) fn hash_list(hasher: SetHashBuilder, list: &[KeyValue]) -> u64
    ensures { result ≡ (fed_set hasher list.now).state }
{
    let mut state = hasher.build_hasher();
    KeyValue::hash_slice(list, &mut state);
    state.finish()
}

/// The hash that they give the attributes that the references lead to. It is kept out of line, since most look-ups hash a
/// list.
#[inline(never)]
pub(crate) fn hash_references(hasher: SetHashBuilder, references: &[&KeyValue]) -> u64
    ensures { result ≡ (fed_set hasher (shown references.now)).state }
{
    let mut state = hasher.build_hasher();
    for at in 0..references.len() {
        references[at].hash(&mut state);
    }
    state.finish()
}

/// Copies of the attributes that the references lead to.
pub(crate) fn copies_of(alloc: Global, references: &[&KeyValue]) -> Result<Vec<KeyValue>, Fault>
    ensures copies { IfOk result (λ set. set.items ≡ shown references.now) }
    ensures only_memory { IsOkUnless result Fault.OutOfMemory }
{
    let mut copies = Vec::with_capacity(alloc, references.len())?;
    for at in 0..references.len() {
        copies.push(references[at].clone()?)?;
    }
    Ok(copies)
}
