//! The callbacks of a provider, and how a collection runs them.

ghost use Rattle.std.specs.Prelude.{◌≡◌, map, IfOk, Ok, Err, MatchResult, IsOkUnless};
ghost use Rattle.otel_common.specs.declared.faults.Fault.{Fault};
ghost use Rattle.otel_stream.specs.Runs.{of_instrument, Ran, RanAll};

use crate::callback::{ObserveI64, ObserveU64};
use crate::observation::{Observation, Observed};
use otel_common::faults::Fault;
use otel_data::numbers::NumberType;
use std::alloc::Global;

/// A callback of either number type.
#[derive(Drop)]
pub enum Callback<U, I> {
    /// A callback that observes unsigned values.
    U64(U),
    /// A callback that observes signed values.
    I64(I),
}

/// A callback and the instrument that it observes.
#[derive(Drop)]
pub struct Registered<U, I> {
    /// The number of the instrument.
    pub instrument: usize,
    /// The callback.
    pub callback: Callback<U, I>,
}

/// Turns what a callback left into what was observed of an instrument.
fn observed_of<T: NumberType>(
    alloc: Global,
    instrument: usize,
    left: Vec<Observation<T>>,
) -> Result<Vec<Observed>, Fault>
    ensures observed { IfOk result (λ v. v.items ≡ map (of_instrument T.value instrument) left.items) }
    ensures only_memory { IsOkUnless result Fault.OutOfMemory }
{
    let mut observed = Vec::with_capacity(alloc, left.len())?;
    for Observation { value, attributes } in left {
        let value = value.into_value();
        observed.push(Observed {
            instrument,
            value,
            attributes,
        })?;
    }
    Ok(observed)
}

impl<U: ObserveU64, I: ObserveI64> Registered<U, I> {
    /// Runs the callback once, on an empty list, and returns what it left there.
    ///
    /// Fails with the callback's fault, or with `OutOfMemory`; even then the callback has run. Takes memory once,
    /// besides what the callback takes.
    pub fn run(&mut self, alloc: Global) -> Result<Vec<Observed>, Fault>
        ensures { MatchResult result (λ v. Ran U.observes I.observes self.old self.new (Ok v.items)) (λ f. Ran U.observes I.observes self.old self.new (Err f)) }
    {
        let instrument = self.instrument;
        match &mut self.callback {
            Callback::U64(callback) => {
                let mut left = Vec::new(alloc);
                callback.observe(&mut left)?;
                observed_of(alloc, instrument, left)
            }
            Callback::I64(callback) => {
                let mut left = Vec::new(alloc);
                callback.observe(&mut left)?;
                observed_of(alloc, instrument, left)
            }
        }
    }
}

/// Runs each callback once, in order, and returns all that was observed. It stops after the first callback that answers
/// a fault, or for whose observations there is no memory, and fails with that fault or with `OutOfMemory`. The
/// callbacks up to that one have run.
///
/// Takes memory once for each callback, besides what the callbacks take, and for the list of all observations.
pub fn run_callbacks<U: ObserveU64, I: ObserveI64>(
    alloc: Global,
    callbacks: &mut [Registered<U, I>],
) -> Result<Vec<Observed>, Fault>
    ensures { MatchResult result (λ v. RanAll (Ran U.observes I.observes) callbacks.old callbacks.new (Ok v.items)) (λ f. RanAll (Ran U.observes I.observes) callbacks.old callbacks.new (Err f)) }
{
    let mut observed = Vec::new(alloc);
    for callback in callbacks.iter_mut() {
        let mut more = match callback.run(alloc) {
            Ok(more) => more,
            Err(fault) => return Err(fault),
        };
        if observed.append(&mut more).is_err() {
            return Err(Fault::OutOfMemory);
        }
    }
    Ok(observed)
}
