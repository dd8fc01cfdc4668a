//! The keys of an allow-list.

ghost use Rattle.std.specs.Prelude.{◌≡◌, List, ℕ, IfOk, IsOkUnless};
ghost use Rattle.std.specs.List.{list_any};
ghost use Rattle.std.specs.Option.{option_copied};
ghost use Rattle.otel_common.specs.Equality.{bytes_eq};
ghost use Rattle.otel_aggregate.specs.sets.Keys.{is_kept};
ghost use Rattle.otel_aggregate.specs.sets.Sorted.{HasKeysOf};

use otel_common::faults::Fault;
use otel_common::keys::Key;
use otel_common::lists::Items;
use std::alloc::Global;
use std::marker::Model;

/// Up to how many keys are compared one after another.
const FEW_KEYS: usize = 8;

/// The keys of an allow-list, as they were given. One is found without going over a long list.
#[derive(Drop)]
pub struct AllowedKeys {
    keys: Items<Key>,
    /// The keys in byte order, if there are more than a few.
    sorted: Option<Vec<Key>>,
}

impl Model for AllowedKeys {
    ghost use Rattle.std.specs.Prelude.{List, ℕ, IfSome};
    ghost use Rattle.otel_aggregate.specs.sets.Sorted.{HasKeysOf};

    ghost Value = { List (List ℕ) };

    ghost view = { λ a. a.keys };

    ghost invariant = { λ a. IfSome a.sorted (λ sorted. HasKeysOf a.keys sorted.items) };
}

impl AllowedKeys {
    /// Makes an allow-list of these keys. More than a few are copied and sorted. Refused only for want of memory.
    pub fn new(alloc: Global, keys: Items<Key>) -> Result<AllowedKeys, Fault>
        ensures keys { IfOk result (λ allow. allow ≡ keys) }
        ensures only_memory { IsOkUnless result Fault.OutOfMemory }
    {
        if keys.as_slice().len() <= FEW_KEYS {
            return Ok(AllowedKeys { keys, sorted: None });
        }
        let mut sorted = Vec::from_clones(alloc, keys.as_slice())?;
        sorted.sort_unstable();
        Ok(AllowedKeys {
            keys,
            sorted: Some(sorted),
        })
    }

    /// Whether a key is in the list. Compares the key with up to 8 others one after another, and with more by a binary
    /// search.
    pub fn contains(&self, key: &Key) -> bool
        ensures { result ≡ list_any (bytes_eq key.now) self.now }
    {
        match &self.sorted {
            None => self.keys.as_slice().iter().any(|allowed| key == allowed),
            Some(sorted) => sorted.binary_search(key).is_ok(),
        }
    }
}

/// Tells whether attributes with this key are kept. Without an allow-list, all attributes are.
pub fn is_kept(allow: Option<&AllowedKeys>, key: &Key) -> bool
    ensures { result ≡ is_kept (option_copied allow.entry) key.now }
{
    match allow {
        None => true,
        Some(allow) => allow.contains(key),
    }
}
