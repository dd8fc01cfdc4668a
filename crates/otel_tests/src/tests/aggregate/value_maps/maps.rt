//! The map from sets of attributes to aggregators: what it shows after each of some steps.

use super::super::scripts::{Made, assert_script};
use super::super::steps::{Readable, Step, Stepped, assert_steps, show, show_set};
use super::Written;
use otel_aggregate::value_map::ValueMap;
use otel_aggregate::value_map::hashing::SetHashBuilder;
use otel_common::attributes::KeyValue;
use otel_common::faults::Fault;
use otel_common::lists::SharedItems;
use std::alloc::Global;
use std::process::Abort;

/// Writes what a collection gives, unless it was refused: each set, and what is kept of it.
fn write_all<A: Written>(
    text: &mut String,
    given: Result<Vec<(SharedItems<KeyValue>, A)>, Fault>,
) -> Result<(), Fault> {
    for (set, kept) in &given? {
        show_set(text, "", set.as_slice().iter(), "-> ")?;
        kept.write(text)?;
        text.push_str(";")?;
    }
    Ok(())
}

impl<A: Written> Stepped for ValueMap<A>
where
    A::PreComputedValue: Readable,
{
    fn step(&mut self, alloc: Global, step: &Step, text: &mut String) -> Result<(), Fault> {
        match step.name {
            "measure" => self.measure(Readable::read(step.value), step.set),
            "get" => match self.get(step.set) {
                Some(kept) => kept.write(text),
                None => Ok(()),
            },
            "knows" => show(text, &self.knows(step.set)),
            "keys" => show(text, &self.keys()),
            "count" => show(text, &self.count()),
            "total" => show(text, &self.total(true)),
            "readonly" => write_all(text, self.collect_readonly(alloc)),
            "reset" => write_all(text, self.collect_and_reset(alloc)),
            "drain" => write_all(text, self.drain_and_reset(alloc)),
            _ => show(text, &"no such step"),
        }
    }
}

/// Makes a map, and asserts what its steps answer.
pub fn assert_map<A: Written<InitConfig = ()>>(rt: &impl Abort, alloc: Global, made: &Made)
where
    A::PreComputedValue: Readable,
{
    let hasher = SetHashBuilder::default();
    let map: Result<ValueMap<A>, Fault> = ValueMap::new(alloc, hasher, (), made.limit);
    let mut map = map.expect(rt, made.lines);
    assert_steps(rt, alloc, &mut map, made.lines).expect(rt, made.lines);
}

/// A draining collection empties a map, and a resetting one doesn't.
const DRAINED: &str = "
    map of sums of u64, limit 2
    measure b=1 a=2: 1
    get a=2 b=1 => 1
    reset => a=2 b=1 -> 1;
    measure: 4
    drain => -> 4;a=2 b=1 -> 0;
    readonly
    total => 0
";

/// A map gives its sets in order, and once.
const IN_ORDER: &str = "
    map of sums of u64, limit 2
    measure b=1 a=2: 1
    measure a=2 b=1: 2
    measure: 4
    readonly => -> 4;a=2 b=1 -> 3;
    total => 7
    reset => -> 4;a=2 b=1 -> 3;
    reset
    readonly
    total => 0
";

/// A set of a few attributes is found in each of three orders.
const FEW_FOUND: &str = "
    map of sums of u64, limit 9
    measure c=3 a=1 d=4 b=2 a=99: 1
    measure a=1 b=2 c=3 d=4: 2
    measure d=4 c=3 b=2 a=1: 4
    count => 1
    total => 7
";

/// So is a set of more attributes than are sorted without memory.
const MANY_FOUND: &str = "
    map of sums of u64, limit 9
    measure j=10 k=11 l=12 m=13 n=14 o=15 p=16 q=17 r=18 a=1 b=2 c=3 d=4 e=5 f=6 g=7 h=8 i=9 c=99: 1
    measure a=1 b=2 c=3 d=4 e=5 f=6 g=7 h=8 i=9 j=10 k=11 l=12 m=13 n=14 o=15 p=16 q=17 r=18: 2
    measure r=18 q=17 p=16 o=15 n=14 m=13 l=12 k=11 j=10 i=9 h=8 g=7 f=6 e=5 d=4 c=3 b=2 a=1: 4
    count => 1
    total => 7
";

#[test]
fn maps_of_sums(rt: HostRuntime) {
    for script in [DRAINED, IN_ORDER, FEW_FOUND, MANY_FOUND] {
        assert_script(&rt, rt.alloc(), script);
    }
}

#[test]
fn a_map_of_signed_sums(rt: HostRuntime) {
    let script = "
        map of sums of i64, limit 2
        measure b=1 a=2: 1
        measure: -4
        measure a=2 b=1: 2
        readonly => -> -4;a=2 b=1 -> 3;
        total => 18446744073709551615
        reset => -> -4;a=2 b=1 -> 3;
    ";
    assert_script(&rt, rt.alloc(), script);
}

/// A set that came unsorted is known in both orders until it is evicted, and in neither from then on.
#[test]
fn stale_entry_evicts_both_unsorted_and_sorted_keys(rt: HostRuntime) {
    let script = "
        map of sums of u64, limit 10
        measure b=1 a=2: 1
        keys => 2
        count => 1
        knows b=1 a=2 => true
        knows a=2 b=1 => true
        reset => a=2 b=1 -> 1;
        keys => 2
        count => 1
        knows b=1 a=2 => true
        knows a=2 b=1 => true
        reset
        keys => 0
        count => 0
        knows b=1 a=2 => false
        knows a=2 b=1 => false
    ";
    assert_script(&rt, rt.alloc(), script);
}

/// A list in another order than its set leads to the entry that it made, as the set does, until the entry is evicted.
#[test]
fn row_31(rt: HostRuntime) {
    let script = "
        map of last values of i64, limit 10
        measure b=1 a=2: 1
        knows b=1 a=2 => true
        knows a=2 b=1 => true
        keys => 2
        count => 1
        reset => a=2 b=1 -> 1;
        reset
        keys => 0
        count => 0
        knows b=1 a=2 => false
        knows a=2 b=1 => false
    ";
    assert_script(&rt, rt.alloc(), script);
}

/// A list in another order than the one that made the entry goes there, and adds no key.
#[test]
fn row_32(rt: HostRuntime) {
    let script = "
        map of last values of i64, limit 10
        measure a=2 b=1: 1
        measure b=1 a=2: 2
        keys => 1
        knows b=1 a=2 => false
        reset => a=2 b=1 -> 2;
    ";
    assert_script(&rt, rt.alloc(), script);
}
