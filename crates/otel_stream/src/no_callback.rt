//! A callback that observes nothing.

ghost use Rattle.std.specs.Prelude.{◌≡◌, [], Ok};

use crate::callback::{ObserveI64, ObserveU64};
use crate::observation::Observation;
use otel_common::faults::Fault;

/// A callback of either number type that observes nothing, for a provider without callbacks of that type.
#[derive(Clone, Copy, Debug, Drop)]
pub struct NoCallback;

impl ObserveU64 for NoCallback {
    ghost observes = { λ before after left answer. (left ≡ []) × (answer ≡ Ok tt) };

    fn observe(&mut self, out: &mut Vec<Observation<u64>>) -> Result<(), Fault> {
        let _ = out;
        Ok(())
    }
}

impl ObserveI64 for NoCallback {
    ghost observes = { λ before after left answer. (left ≡ []) × (answer ≡ Ok tt) };

    fn observe(&mut self, out: &mut Vec<Observation<i64>>) -> Result<(), Fault> {
        let _ = out;
        Ok(())
    }
}
