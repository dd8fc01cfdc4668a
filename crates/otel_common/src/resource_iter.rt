//! The attributes of a resource, one after another.

ghost use Rattle.std.specs.Prelude.{◌≡◌};
ghost use Rattle.std.specs.Iterator.{item_count, YieldsFirstBy};
ghost use Rattle.otel_common.specs.Resources.{attribute_at};

use crate::attributes::{KeyValue, Value};
use crate::keys::Key;
use std::marker::Model;

/// An iterator over the attributes of a resource, as pairs of key and value, in byte order of the keys.
///
/// Contracts see it as the list of the attributes that are left.
#[derive(Debug, Drop)]
pub struct Iter<'a> {
    rest: &'a [KeyValue],
}

impl<'a> Model for Iter<'a> {
    ghost use Rattle.std.specs.Prelude.{List};
    ghost use Rattle.otel_common.specs.declared.attributes.KeyValue.{KeyValue};

    ghost Value = { List KeyValue };

    ghost view = { λ it. it.rest.now };
}

impl<'a> Iter<'a> {
    /// Iterates over the attributes of a list.
    pub(crate) fn of(attributes: &'a [KeyValue]) -> Iter<'a>
        ensures { result ≡ attributes.now }
    {
        Iter { rest: attributes }
    }
}

impl<'a> Iterator for Iter<'a> {
    type Item = (&'a Key, &'a Value);

    ghost next_gives = { YieldsFirstBy attribute_at (λ it. it) };

    ghost remaining = { item_count (λ it. it) };

    fn next(&mut self) -> Option<(&'a Key, &'a Value)> {
        let (first, rest) = self.rest.split_first()?;
        self.rest = rest;
        Some((&first.key, &first.value))
    }
}
