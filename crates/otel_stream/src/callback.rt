//! The interfaces of callbacks.

ghost use Rattle.std.specs.Prelude.{◌≡◌, ℕ, ℤ, List, [], Result};
ghost use Rattle.otel_common.specs.declared.faults.Fault.{Fault};
ghost use Rattle.otel_stream.specs.declared.observation.Observation.{Observation};

use crate::observation::Observation;
use otel_common::faults::Fault;

/// A callback that observes values of type `u64` (Metrics API, "Asynchronous Instrument API").
///
/// A collection runs each callback once, on an empty list, in the order in which their instruments were built. What the
/// callback leaves in the list is what was observed. A callback may change itself: what becomes of it, what it leaves
/// and what it answers are stated by `observes`, and its own code is held to that. An `Err` refuses the collection with
/// that fault, and the callbacks after it don't run. A callback can't reach the provider.
pub trait ObserveU64: Drop + Send {
    /// Relates the callback before and after a run, the list that it leaves, and its answer.
    ghost observes: { Self → Self → List (Observation ℕ) → Result (Unit {0}) Fault → Type 0 };

    /// Adds what is observed now to the list, which is handed in empty.
    fn observe(&mut self, out: &mut Vec<Observation<u64>>) -> Result<(), Fault>
        requires { out.old.items ≡ [] }
        ensures { observes self.old self.new out.new.items result };
}

/// A callback that observes values of type `i64`; otherwise like [`ObserveU64`].
pub trait ObserveI64: Drop + Send {
    /// Relates the callback before and after a run, the list that it leaves, and its answer.
    ghost observes: { Self → Self → List (Observation ℤ) → Result (Unit {0}) Fault → Type 0 };

    /// Adds what is observed now to the list, which is handed in empty.
    fn observe(&mut self, out: &mut Vec<Observation<i64>>) -> Result<(), Fault>
        requires { out.old.items ≡ [] }
        ensures { observes self.old self.new out.new.items result };
}
