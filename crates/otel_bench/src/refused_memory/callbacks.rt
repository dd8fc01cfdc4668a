//! A callback that observes how often it has run.

ghost use Rattle.std.specs.Prelude.{◌≡◌};

use opentelemetry_sdk::common::{Fault, Items, KeyValue};
use opentelemetry_sdk::metrics::callback::{Observation, ObserveI64, ObserveU64};
use std::alloc::Global;

/// How often each callback has run before the call under test.
const RUNS_BEFORE: u64 = 2;

/// Observes how often it has run, with an attribute and without one. After the runs before the call under test it observes
/// more than that by what is skipped, as if it had run that many times in between.
#[derive(Drop)]
pub struct Counting {
    alloc: Global,
    runs: u64,
    skipped: u64,
}

impl Counting {
    /// A callback that has not run.
    pub fn new(alloc: Global, skipped: u64) -> Counting {
        Counting {
            alloc,
            runs: 0,
            skipped,
        }
    }

    /// Counts a run, and returns what is observed.
    fn next(&mut self) -> u64
        ensures { self.new.skipped ≡ self.old.skipped }
    {
        self.runs = self.runs.saturating_add(1);
        if self.runs <= RUNS_BEFORE {
            return self.runs;
        }
        self.runs.saturating_add(self.skipped)
    }
}

/// Observes a value with an attribute and without one.
fn observe_twice<T: Copy>(
    alloc: Global,
    value: T,
    out: &mut Vec<Observation<T>>,
) -> Result<(), Fault> {
    let mut attributes = Vec::new(alloc);
    attributes.push(KeyValue::int(alloc, "k", 1)?)?;
    let attributes = Items::from(attributes);
    out.push(Observation { value, attributes })?;
    let attributes = Items::from(Vec::new(alloc));
    out.push(Observation { value, attributes })?;
    Ok(())
}

impl ObserveU64 for Counting {
    ghost observes = { λ before after left answer. after.skipped ≡ before.skipped };

    fn observe(&mut self, out: &mut Vec<Observation<u64>>) -> Result<(), Fault> {
        let value = self.next();
        observe_twice(self.alloc, value, out)
    }
}

impl ObserveI64 for Counting {
    ghost observes = { λ before after left answer. after.skipped ≡ before.skipped };

    fn observe(&mut self, out: &mut Vec<Observation<i64>>) -> Result<(), Fault> {
        let value = i64::try_from(self.next()).unwrap_or(i64::MAX);
        observe_twice(self.alloc, value, out)
    }
}

/// The callbacks of a provider before the call under test.
#[derive(Drop)]
pub struct Callbacks<U, I> {
    pub runs: U,
    pub balance: I,
    pub depth: U,
}

/// Callbacks for an instrument that the call under test builds.
#[derive(Drop)]
pub struct Spare<U, I> {
    pub unsigned: U,
    pub signed: I,
}

/// Callbacks that have not run, of which this many skip a run later.
pub fn new_callbacks(alloc: Global, ahead: u64) -> Callbacks<Counting, Counting> {
    Callbacks {
        runs: Counting::new(alloc, u64::from(ahead > 0)),
        balance: Counting::new(alloc, u64::from(ahead > 1)),
        depth: Counting::new(alloc, u64::from(ahead > 2)),
    }
}

/// Callbacks that have not run and skip none.
pub fn new_spare(alloc: Global) -> Spare<Counting, Counting> {
    Spare {
        unsigned: Counting::new(alloc, 0),
        signed: Counting::new(alloc, 0),
    }
}
