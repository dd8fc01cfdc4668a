//! Entries apart from a map, for records that may still be refused.

use crate::aggregators::aggregator::Aggregator;
use crate::value_map::table::Table;
use std::marker::Model;

/// Entries that can change places with those of a map.
#[derive(Drop)]
pub struct Draft<A: Aggregator> {
    pub(crate) entries: Table<A>,
    /// How many entries the limit counts.
    pub(crate) count: usize,
}

impl<A: Aggregator> Model for Draft<A> {
    ghost use Rattle.std.specs.Prelude.{◌≡◌};
    ghost use Rattle.otel_model_stream.specs.Entries.{Table, number_counted};

    ghost Value = { Table };

    ghost view = { λ d. d.entries.table };

    ghost invariant = { λ d. d.count ≡ number_counted d.entries.table.entries };
}
