//! A boxed callback is a callback.

ghost use Rattle.otel_stream.specs.Boxes.{Becomes};

use crate::callback::{ObserveI64, ObserveU64};
use crate::observation::Observation;
use otel_common::faults::Fault;

impl ObserveU64 for Box<dyn ObserveU64> {
    ghost observes = { λ before after left answer. Becomes before after (λ object. (ObserveU64-box before).observes before.value object left answer) };

    fn observe(&mut self, out: &mut Vec<Observation<u64>>) -> Result<(), Fault> {
        self.as_mut().observe(out)
    }
}

impl ObserveI64 for Box<dyn ObserveI64> {
    ghost observes = { λ before after left answer. Becomes before after (λ object. (ObserveI64-box before).observes before.value object left answer) };

    fn observe(&mut self, out: &mut Vec<Observation<i64>>) -> Result<(), Fault> {
        self.as_mut().observe(out)
    }
}
