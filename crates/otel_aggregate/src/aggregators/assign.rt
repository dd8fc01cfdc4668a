//! What a last value keeps of the records of one set of attributes.

ghost use Rattle.std.specs.Prelude.{refl};
ghost use Rattle.otel_model_stream.specs.Folds.{Last};

use crate::aggregators::aggregator::Aggregator;
use crate::aggregators::number::Number;
use otel_common::faults::Fault;
use std::alloc::Global;

/// The last record (Metrics SDK, "Last Value Aggregation").
#[derive(Drop)]
pub struct Assign<T> {
    pub value: T,
}

impl<T: Number + Drop> Aggregator for Assign<T> {
    type InitConfig = ();

    type PreComputedValue = T;

    ghost meaning = { λ last. Last (T.bits last.value) };

    ghost empty = { λ _. Last 0 };

    ghost sample = { λ value. record { bits = T.bits value; wide = T.wide value; bucket = 0 } };

    ghost cleared_empty = { λ _. refl };

    fn create(_alloc: Global, _config: &()) -> Result<Assign<T>, Fault> {
        Ok(Assign { value: T::zero() })
    }

    fn update(&mut self, value: T) {
        self.value = value;
    }

    fn copy(&self, _alloc: Global) -> Result<Assign<T>, Fault> {
        Ok(Assign { value: self.value })
    }

    fn weight(&self) -> u64 {
        0
    }

    fn reset(&mut self) {
        self.value = T::zero();
    }
}
