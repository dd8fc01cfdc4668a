//! How entries are shown as points.

ghost use Rattle.std.specs.Prelude.{◌≡◌, IfOk, IsOkUnless};
ghost use Rattle.otel_model_stream.specs.Entries.{Point};

use crate::aggregators::aggregator::Aggregator;
use otel_common::attributes::KeyValue;
use otel_common::faults::Fault;
use otel_common::lists::SharedItems;
use std::alloc::Global;

/// What makes points of sets and the aggregators of their records.
pub trait PointMaker<A: Aggregator> {
    /// The type of points.
    type Point: Drop;

    /// What contracts see of a point.
    ghost Seen: { Type 0 };

    /// What they see of this point.
    ghost seen: { Self.Point → Seen };

    /// What they see of the point of a set whose records come to this.
    ghost shown: { Self → Point → Seen };

    /// The records that it can show.
    ghost can_show: { Self → Point → Type 0 };

    /// Makes the point of a set.
    fn point(
        &self,
        alloc: Global,
        set: SharedItems<KeyValue>,
        aggregator: &A,
    ) -> Result<Self::Point, Fault>
        requires { can_show self.now (set, A.meaning aggregator.now) }
        ensures point { IfOk result (λ made. seen made ≡ shown self.now (set, A.meaning aggregator.now)) }
        ensures only_memory { IsOkUnless result Fault.OutOfMemory };
}

/// Makes points that have copies of the aggregators.
pub struct Copies {}

impl<A: Aggregator> PointMaker<A> for Copies {
    type Point = (SharedItems<KeyValue>, A);

    ghost Seen = { Point };

    ghost seen = { λ made. (made.0, A.meaning made.1) };

    ghost shown = { λ _ p. p };

    ghost can_show = { λ _ _. Unit {0} };

    fn point(
        &self,
        alloc: Global,
        set: SharedItems<KeyValue>,
        aggregator: &A,
    ) -> Result<(SharedItems<KeyValue>, A), Fault> {
        Ok((set, aggregator.copy(alloc)?))
    }
}
