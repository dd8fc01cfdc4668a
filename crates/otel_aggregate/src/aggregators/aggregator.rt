//! What is kept of the records of one set of attributes.

ghost use Rattle.std.specs.Prelude.{◌≡◌, List, [], ◌∷◌, ◌++◌, IfOk, IsOkUnless, refl};
ghost use Rattle.otel_model_stream.specs.Folds.{Sample, Fold, Total, record_fold, clear_fold, fold_samples};
ghost use Rattle.otel_model_stream.specs.Totals.{weight};

use crate::aggregators::number::Number;
use otel_common::faults::Fault;
use std::alloc::Global;

/// What an aggregation keeps of a list of records, which it takes in one after the other.
pub trait Aggregator: Drop {
    /// What an aggregator is made from.
    type InitConfig: Drop;

    /// One record.
    type PreComputedValue: Copy;

    /// What the records so far come to.
    ghost meaning: { Self → Fold };

    /// What no records at all come to.
    ghost empty: { Self.InitConfig → Fold };

    /// The record as the model sees it.
    ghost sample: { Self.PreComputedValue → Sample };

    /// Makes an aggregator with no records.
    fn create(alloc: Global, config: &Self::InitConfig) -> Result<Self, Fault>
        ensures empty { IfOk result (λ made. meaning made ≡ empty config.now) }
        ensures only_memory { IsOkUnless result Fault.OutOfMemory };

    /// Takes in one more record.
    fn update(&mut self, value: Self::PreComputedValue)
        ensures { meaning self.new ≡ record_fold (meaning self.old) (sample value) };

    /// Makes an aggregator with the same records.
    fn copy(&self, alloc: Global) -> Result<Self, Fault>
        ensures copy { IfOk result (λ made. meaning made ≡ meaning self.now) }
        ensures only_memory { IsOkUnless result Fault.OutOfMemory };

    /// What the records add up to: the 64 bits of a sum, the number of records of a histogram, and 0 for a last value.
    fn weight(&self) -> u64
        ensures { result ≡ weight (meaning self.now) };

    /// Forgets all records.
    fn reset(&mut self)
        ensures { meaning self.new ≡ clear_fold (meaning self.old) };

    /// The law that forgetting changes nothing where there are no records.
    ghost cleared_empty: { (config : Self.InitConfig) → clear_fold (empty config) ≡ empty config };
}

/// The sum of the records (Metrics SDK, "Sum Aggregation").
#[derive(Drop)]
pub struct Increment<T> {
    pub value: T,
}

impl<T: Number + Drop> Aggregator for Increment<T> {
    type InitConfig = ();

    type PreComputedValue = T;

    ghost meaning = { λ sum. Total (T.bits sum.value) };

    ghost empty = { λ _. Total 0 };

    ghost sample = { λ value. record { bits = T.bits value; wide = T.wide value; bucket = 0 } };

    ghost cleared_empty = { λ _. refl };

    fn create(_alloc: Global, _config: &()) -> Result<Increment<T>, Fault> {
        Ok(Increment { value: T::zero() })
    }

    fn update(&mut self, value: T) {
        self.value = self.value.add(value);
    }

    fn copy(&self, _alloc: Global) -> Result<Increment<T>, Fault> {
        Ok(Increment { value: self.value })
    }

    fn weight(&self) -> u64 {
        self.value.bits()
    }

    fn reset(&mut self) {
        self.value = T::zero();
    }
}

/// The law that a new aggregator has the meaning of no records.
pub fn create_fold<A: Aggregator>(alloc: Global, config: &A::InitConfig) -> Result<A, Fault>
    ensures fold { IfOk result (λ made. A.meaning made ≡ fold_samples (A.empty config.now) []) }
    ensures only_memory { IsOkUnless result Fault.OutOfMemory }
{
    A::create(alloc, config)
}

/// The law that, where an aggregator's meaning is the fold of some records, an update makes it the fold of those with
/// one more at the end.
pub fn update_fold<A: Aggregator>(aggregator: &mut A, value: A::PreComputedValue)
    ensures { (config : A.InitConfig) (samples : List Sample) → A.meaning aggregator.old ≡ fold_samples (A.empty config) samples
        → A.meaning aggregator.new ≡ fold_samples (A.empty config) (samples ++ A.sample value ∷ []) }
{
    aggregator.update(value);
}

/// The law that, where an aggregator's meaning is the fold of some records, a reset makes it the fold of none.
#[tactic(auto, using(crate::proofs::aggregators::FoldLaws::cleared_folded))]
pub fn reset_fold<A: Aggregator>(aggregator: &mut A)
    ensures { (config : A.InitConfig) (samples : List Sample) → A.meaning aggregator.old ≡ fold_samples (A.empty config) samples
        → A.meaning aggregator.new ≡ fold_samples (A.empty config) [] }
{
    aggregator.reset();
}
