//! What a manual reader wants.

ghost use Rattle.std.specs.Prelude.{◌≡◌};
ghost use Rattle.otel_stream.specs.Wants.{temporality_alone};

use crate::by_kind::ByKind;
use crate::limit::CardinalityLimit;
use otel_common::metrics::{Aggregation, Temporality};

/// What a manual reader wants: a temporality, and for each kind of instrument optionally a limit and optionally an
/// aggregation.
#[derive(Drop)]
pub(crate) struct Wants {
    pub(crate) temporality: Temporality,
    pub(crate) limits: ByKind<Option<CardinalityLimit>>,
    pub(crate) aggregations: ByKind<Option<Aggregation>>,
}

impl Wants {
    /// Makes the wants of a temporality alone, without limits and aggregations.
    pub(crate) fn new(temporality: Temporality) -> Wants
        ensures { result ≡ temporality_alone temporality }
    {
        Wants {
            temporality,
            limits: ByKind::none(),
            aggregations: ByKind::none(),
        }
    }
}
