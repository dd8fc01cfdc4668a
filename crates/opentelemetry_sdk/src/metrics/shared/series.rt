//! Series of records.

ghost use Rattle.std.specs.Prelude.{◌≡◌};
ghost use Rattle.std.specs.Cmp.{decided, partial_equiv_from_equiv};
ghost use Rattle.std.specs.Hash.{same_Alike};
ghost use Rattle.opentelemetry_sdk.specs.Series.{series, series_eq, series_eq-Decides, series_writes};

use indexmap::Equivalent;
use otel_aggregate::value_map::hashed_key::OwnedSet;
use otel_common::attributes::KeyValue;
use std::hash::{Hash, Hasher};
use std::marker::Model;

/// What records have in common that differ in their values alone: an instrument, and a list of attributes as given, with
/// the hash by which streams look it up.
#[derive(Drop)]
pub struct Series {
    pub(crate) instrument: usize,
    pub(crate) attributes: OwnedSet,
}

impl PartialEq for Series {
    ghost eq = { series_eq };

    ghost laws = { partial_equiv_from_equiv (decided series_eq series_eq-Decides) };

    fn eq(&self, other: &Series) -> bool {
        self.instrument == other.instrument && self.attributes.is_same(&other.attributes)
    }
}

impl Eq for Series {
    ghost laws = { decided series_eq series_eq-Decides };
}

impl Hash for Series {
    ghost hash_input = { series_writes };

    ghost respects_eq = { (same_Alike series_writes series_eq-Decides).fed };

    fn hash<H: Hasher>(&self, state: &mut H) {
        state.write_u64(self.instrument as u64);
        KeyValue::hash_slice(self.attributes.as_slice(), state);
    }
}

/// A series that is looked up.
#[derive(Drop)]
pub(crate) struct SeriesQuery<'a> {
    pub(crate) instrument: usize,
    pub(crate) attributes: &'a [KeyValue],
}

impl<'a> Model for SeriesQuery<'a> {
    ghost use Rattle.opentelemetry_sdk.specs.declared.metrics.shared.series.Series.{Series};
    ghost use Rattle.opentelemetry_sdk.specs.Series.{series};

    ghost Value = { Series };

    ghost view = { λ q. series q.instrument q.attributes.now };
}

impl<'a> PartialEq for SeriesQuery<'a> {
    ghost eq = { series_eq };

    ghost laws = { partial_equiv_from_equiv (decided series_eq series_eq-Decides) };

    fn eq(&self, other: &SeriesQuery<'a>) -> bool {
        self.instrument == other.instrument && self.attributes == other.attributes
    }
}

impl<'a> Eq for SeriesQuery<'a> {
    ghost laws = { decided series_eq series_eq-Decides };
}

impl<'a> Hash for SeriesQuery<'a> {
    ghost hash_input = { series_writes };

    ghost respects_eq = { (same_Alike series_writes series_eq-Decides).fed };

    #[inline(always)]
    fn hash<H: Hasher>(&self, state: &mut H) {
        state.write_u64(self.instrument as u64);
        KeyValue::hash_slice(self.attributes, state);
    }
}

impl<'q, 'a> Equivalent<Series> for &'q SeriesQuery<'a> {
    ghost equivalent = { λ q. series_eq q.now };

    ghost respects_hash = { λ q. (same_Alike series_writes series_eq-Decides).fed q.now };

    ghost respects_eq = { λ q. (decided series_eq series_eq-Decides).congr q.now };

    #[inline]
    fn equivalent(&self, key: &Series) -> bool {
        self.instrument == key.instrument && key.attributes.lent().is_list(self.attributes)
    }
}
