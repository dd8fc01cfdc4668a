//! A draft of a stream of any aggregate.

use crate::any_aggregator::AnyAggregator;
use crate::value_map::draft::Draft;
use std::marker::Model;

/// Entries and a total of records, to change places with those of a stream. No handle holds any of the entries.
#[derive(Drop)]
pub struct AggregateDraft {
    pub(crate) is_signed: bool,
    pub(crate) entries: Draft<AnyAggregator>,
    pub(crate) recorded: u64,
}

impl Model for AggregateDraft {
    ghost use Rattle.std.specs.Prelude.{[]};
    ghost use Rattle.otel_aggregate.specs.Any.{DraftContents};
    ghost use Rattle.otel_aggregate.specs.Kept.{form_of_fold, AreKept};
    ghost use Rattle.otel_aggregate.specs.Links.{AreHeld};

    ghost Value = { DraftContents };

    ghost view = { λ d. record { is_signed = d.is_signed; form = form_of_fold d.entries.none.fold; table = d.entries; recorded = d.recorded } };

    ghost invariant = { λ d. AreKept d.is_signed (form_of_fold d.entries.none.fold) d.entries × AreHeld d.entries [] };
}
