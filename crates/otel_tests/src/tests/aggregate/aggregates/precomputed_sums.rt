//! Observed sums: whole points, in both temporalities and of both number types.

use super::super::scripts::{Made, assert_script};
use super::super::steps::{Readable, Step, Stepped, assert_steps, show};
use super::tell;
use otel_aggregate::aggregators::number::Number;
use otel_aggregate::precomputed_sum::PrecomputedSum;
use otel_aggregate::value_map::hashing::SetHashBuilder;
use otel_common::faults::Fault;
use std::alloc::Global;
use std::fmt::Display;
use std::process::Abort;

impl<T: Number + Drop + Display + Readable> Stepped for PrecomputedSum<T> {
    fn step(&mut self, alloc: Global, step: &Step, text: &mut String) -> Result<(), Fault> {
        match step.name {
            "measure" => self.measure(Readable::read(step.value), step.set),
            "collect" => tell(text, self.collect(alloc, u64::read(step.place))),
            _ => show(text, &"no such step"),
        }
    }
}

/// Makes a monotonic observed sum at 100, and asserts what its steps answer.
pub fn assert_observed<T: Number + Drop + Display + Readable>(
    rt: &impl Abort,
    alloc: Global,
    made: &Made,
) {
    let mut sum: PrecomputedSum<T> = PrecomputedSum::new(
        alloc,
        SetHashBuilder::default(),
        made.temporality,
        None,
        made.limit,
        100,
        true,
    )
    .expect(rt, made.lines);
    assert_steps(rt, alloc, &mut sum, made.lines).expect(rt, made.lines);
}

/// A first value is shown as it was observed.
#[test]
fn precomputed_sum_aggregation(rt: HostRuntime) {
    let cumulative = "
        observed sum of u64, limit 10, Cumulative
        measure b=2: 3
        collect 200 => 100..200 Cumulative monotonic; b=2 -> 3
    ";
    assert_script(&rt, rt.alloc(), cumulative);
    let delta = "
        observed sum of u64, limit 10, Delta
        measure b=2: 3
        collect 200 => 100..200 Delta monotonic; b=2 -> 3
    ";
    assert_script(&rt, rt.alloc(), delta);
}

/// Points show what was added since the collection before, and count from 0 if the set had no point there.
#[test]
fn a_delta_shows_what_is_added(rt: HostRuntime) {
    let script = "
        observed sum of i64, limit 10, Delta
        measure x=1: 5
        collect 200 => 100..200 Delta monotonic; x=1 -> 5
        measure x=1: 3
        collect 300 => 200..300 Delta monotonic; x=1 -> -2
        collect 400 => 300..400 Delta monotonic
        measure x=1: 4
        collect 500 => 400..500 Delta monotonic; x=1 -> 4
    ";
    assert_script(&rt, rt.alloc(), script);
}
