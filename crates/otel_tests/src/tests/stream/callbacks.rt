//! Tests callbacks in boxes, run in order up to the first fault.

ghost use Rattle.std.specs.Prelude.{◌≡◌, ◌+◌, ℕ, IfOk, false};

use super::assert_shows;
use otel_common::faults::Fault;
use otel_stream::callback::{ObserveI64, ObserveU64};
use otel_stream::observation::Observation;
use otel_stream::registered::{Callback, Registered, run_callbacks};
use std::alloc::Global;
use std::process::Abort;

/// Observes how often it was run before.
#[derive(Drop)]
struct Counting {
    alloc: Global,
    runs: u64,
}

impl ObserveU64 for Counting {
    ghost observes = { λ before after left answer. IfOk answer (λ _. after.runs ≡ before.runs + 1) };

    fn observe(&mut self, out: &mut Vec<Observation<u64>>) -> Result<(), Fault> {
        let value = self.runs;
        let Some(runs) = value.checked_add(1) else {
            return Err(Fault::Exhausted);
        };
        self.runs = runs;
        Ok(out.push(Observation::new(self.alloc, value))?)
    }
}

/// Observes -1 twice. Its first run then answers a fault if `fails` is set.
#[derive(Drop)]
struct Below {
    alloc: Global,
    fails: bool,
}

impl ObserveI64 for Below {
    ghost observes = { λ before after left answer. after.fails ≡ false };

    fn observe(&mut self, out: &mut Vec<Observation<i64>>) -> Result<(), Fault> {
        let fails = self.fails;
        self.fails = false;
        for _ in 0..2 {
            out.push(Observation::new(self.alloc, -1))?;
        }
        if fails {
            Err(Fault::WrongNumber)
        } else {
            Ok(())
        }
    }
}

/// Asserts how the runs of three callbacks end, if the second callback fails in the first run, or in none.
fn assert_runs(rt: &impl Abort, alloc: Global, fails: bool, outcomes: &[&str]) {
    let first: Box<dyn ObserveU64> = Box::new(alloc, Counting { alloc, runs: 7 }).expect(
        rt, "memory",
    );
    let last: Box<dyn ObserveU64> = Box::new(alloc, Counting { alloc, runs: 0 }).expect(
        rt, "memory",
    );
    let mut callbacks = [
        Registered {
            instrument: 4,
            callback: Callback::U64(first),
        },
        Registered {
            instrument: 3,
            callback: Callback::I64(Below { alloc, fails }),
        },
        Registered {
            instrument: 2,
            callback: Callback::U64(last),
        },
    ];
    for outcome in outcomes {
        assert_shows(rt, alloc, &run_callbacks(alloc, &mut callbacks), outcome);
    }
}

/// How two runs of the callbacks end.
const WHOLE: &[&str] = &[
    "Ok([\
        Observed { instrument: 4, value: U64(7), attributes: Items { items: [] } }, \
        Observed { instrument: 3, value: I64(-1), attributes: Items { items: [] } }, \
        Observed { instrument: 3, value: I64(-1), attributes: Items { items: [] } }, \
        Observed { instrument: 2, value: U64(0), attributes: Items { items: [] } }])",
    "Ok([\
        Observed { instrument: 4, value: U64(8), attributes: Items { items: [] } }, \
        Observed { instrument: 3, value: I64(-1), attributes: Items { items: [] } }, \
        Observed { instrument: 3, value: I64(-1), attributes: Items { items: [] } }, \
        Observed { instrument: 2, value: U64(1), attributes: Items { items: [] } }])",
];

/// How a run in which the second callback fails ends, and two runs after it.
const AFTER_A_FAULT: &[&str] = &[
    "Err(WrongNumber)",
    "Ok([\
        Observed { instrument: 4, value: U64(8), attributes: Items { items: [] } }, \
        Observed { instrument: 3, value: I64(-1), attributes: Items { items: [] } }, \
        Observed { instrument: 3, value: I64(-1), attributes: Items { items: [] } }, \
        Observed { instrument: 2, value: U64(0), attributes: Items { items: [] } }])",
    "Ok([\
        Observed { instrument: 4, value: U64(9), attributes: Items { items: [] } }, \
        Observed { instrument: 3, value: I64(-1), attributes: Items { items: [] } }, \
        Observed { instrument: 3, value: I64(-1), attributes: Items { items: [] } }, \
        Observed { instrument: 2, value: U64(1), attributes: Items { items: [] } }])",
];

/// Each callback runs once in each run, in order, and keeps the changes that it made to itself. No callback runs after a
/// fault.
#[test]
fn callbacks_run_in_order(rt: HostRuntime) {
    assert_runs(&rt, rt.alloc(), false, WHOLE);
    assert_runs(&rt, rt.alloc(), true, AFTER_A_FAULT);
}
