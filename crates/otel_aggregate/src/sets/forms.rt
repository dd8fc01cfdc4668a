//! Whether a set is the canonical form of what is kept of a list, without making that form.

ghost use Rattle.std.specs.Prelude.{◌≡◌, ◌||◌, not};
ghost use Rattle.std.specs.List.{list_all};
ghost use Rattle.std.specs.Option.{option_copied};
ghost use Rattle.otel_common.specs.Canonical.{canon};
ghost use Rattle.otel_common.specs.Equality.{set_eq};
ghost use Rattle.otel_data.specs.Values.{has_key, is_first};
ghost use Rattle.otel_model_stream.specs.Sets.{allowed_part};
ghost use Rattle.otel_aggregate.specs.sets.Keys.{is_kept};

use crate::sets::allowed_keys::{AllowedKeys, is_kept};
use otel_common::attributes::KeyValue;
use otel_common::keys::Key;

/// Tells whether an attribute is the first of its key that is kept of a list.
fn is_first(own: &KeyValue, allow: Option<&AllowedKeys>, list: &[KeyValue]) -> bool
    ensures { result ≡ is_first (allowed_part (option_copied allow.entry) list.now) own.now }
{
    for given in list {
        if is_kept(allow, &given.key) && given.key == own.key {
            return given == own;
        }
    }
    false
}

/// Tells whether a set has this key.
fn has_key(set: &[KeyValue], key: &Key) -> bool
    ensures { result ≡ has_key set.now key.now }
{
    set.iter().any(|own| own.key == *key)
}

/// Tells whether each attribute of a set is the first of its key that is kept of a list.
fn are_first(set: &[KeyValue], allow: Option<&AllowedKeys>, list: &[KeyValue]) -> bool
    ensures { result ≡ list_all (is_first (allowed_part (option_copied allow.entry) list.now)) set.now }
{
    set.iter().all(|own| is_first(own, allow, list))
}

/// Tells whether a set has each key that is kept of a list.
fn have_keys(set: &[KeyValue], allow: Option<&AllowedKeys>, list: &[KeyValue]) -> bool
    ensures { result ≡ list_all (λ given. not (is_kept (option_copied allow.entry) given.key) || has_key set.now given.key) list.now }
{
    list.iter().all(|given| !is_kept(allow, &given.key) || has_key(set, &given.key))
}

/// Tells whether a set whose keys rise is the canonical form of what the allow-list keeps of a list: each of its
/// attributes is the first one of its key that is kept, and each key that is kept is one of its keys. It takes no memory,
/// and quadratic time.
pub fn is_form_of(set: &[KeyValue], allow: Option<&AllowedKeys>, list: &[KeyValue]) -> bool
    requires { canon set.now ≡ set.now }
    ensures { result ≡ set_eq (canon (allowed_part (option_copied allow.entry) list.now)) set.now }
{
    are_first(set, allow, list) && have_keys(set, allow, list)
}
