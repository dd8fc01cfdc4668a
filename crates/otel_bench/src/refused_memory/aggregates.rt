//! Aggregates without a provider, of `metrics::internal`.

use crate::refused_memory::scenarios::unknown;
use crate::refused_memory::trials::Trial;
use anyhow::{Error, bail};
use opentelemetry_sdk::common::{Fault, KeyValue, SharedItems};
use opentelemetry_sdk::metrics::Temporality::Delta;
use opentelemetry_sdk::metrics::data;
use opentelemetry_sdk::metrics::internal::{
    Bounds, Histogram, HistogramSettings, Increment, LastValue, PrecomputedSum, SetHashBuilder,
    Sum, ValueMap,
};
use std::alloc::Global;
use std::fmt::Debug;

/// An aggregate of unsigned values.
trait Measured: Drop {
    /// What a collection gives.
    type Collected: Debug + Drop;

    /// Takes in a value.
    fn take_in(&mut self, value: u64, attributes: &[KeyValue]) -> Result<(), Fault>;

    /// Makes a collection at this moment.
    fn given(&mut self, alloc: Global, now: u64) -> Result<Self::Collected, Fault>;
}

impl Measured for Sum<u64> {
    type Collected = data::Sum<u64>;

    fn take_in(&mut self, value: u64, attributes: &[KeyValue]) -> Result<(), Fault> {
        self.measure(value, attributes)
    }

    fn given(&mut self, alloc: Global, now: u64) -> Result<data::Sum<u64>, Fault> {
        self.collect(alloc, now)
    }
}

impl Measured for PrecomputedSum<u64> {
    type Collected = data::Sum<u64>;

    fn take_in(&mut self, value: u64, attributes: &[KeyValue]) -> Result<(), Fault> {
        self.measure(value, attributes)
    }

    fn given(&mut self, alloc: Global, now: u64) -> Result<data::Sum<u64>, Fault> {
        self.collect(alloc, now)
    }
}

impl Measured for LastValue<u64> {
    type Collected = data::Gauge<u64>;

    fn take_in(&mut self, value: u64, attributes: &[KeyValue]) -> Result<(), Fault> {
        self.measure(value, attributes)
    }

    fn given(&mut self, alloc: Global, now: u64) -> Result<data::Gauge<u64>, Fault> {
        self.collect(alloc, now)
    }
}

impl Measured for Histogram<u64> {
    type Collected = data::Histogram<u64>;

    fn take_in(&mut self, value: u64, attributes: &[KeyValue]) -> Result<(), Fault> {
        self.measure(value, attributes)
    }

    fn given(&mut self, alloc: Global, now: u64) -> Result<data::Histogram<u64>, Fault> {
        self.collect(alloc, now)
    }
}

impl Measured for ValueMap<Increment<u64>> {
    type Collected = Vec<u64>;

    fn take_in(&mut self, value: u64, attributes: &[KeyValue]) -> Result<(), Fault> {
        self.measure(value, attributes)
    }

    /// The sums of a resetting collection, after one that changes nothing.
    fn given(&mut self, alloc: Global, _now: u64) -> Result<Vec<u64>, Fault> {
        let shown = self.collect_readonly(alloc)?;
        let sums = shown.iter().map(|(_, sum)| sum.value).collect(alloc)?;
        let _ = self.collect_and_reset(alloc)?;
        Ok(sums)
    }
}

/// A list of one attribute.
fn list(alloc: Global, key: &str) -> Result<Vec<KeyValue>, Fault> {
    let mut attributes = Vec::new(alloc);
    attributes.push(KeyValue::int(alloc, key, 1)?)?;
    Ok(attributes)
}

/// Makes the call under test of an aggregate that has two sets, unless it was refused, and writes what it gives then.
fn write_with<R: Print, M: Measured>(
    trial: &mut Trial<R>,
    made: Result<M, Fault>,
) -> Result<(), Error> {
    let mut aggregate = made?;
    let first = list(trial.alloc, "a")?;
    let second = list(trial.alloc, "b")?;
    let third = list(trial.alloc, "c")?;
    aggregate.take_in(1, first.as_slice())?;
    aggregate.take_in(2, second.as_slice())?;
    let call = trial.scenario.call;
    if !trial.is_refused {
        trial.begin(call)?;
        match call {
            "known" => trial.take(aggregate.take_in(3, second.as_slice())),
            "measure" => trial.take(aggregate.take_in(3, third.as_slice())),
            _ => trial.take(aggregate.given(trial.alloc, 200)),
        }?;
    }
    for (value, attributes) in &[(4, third), (5, first), (6, second)] {
        aggregate.take_in(*value, attributes.as_slice())?;
        let given = aggregate.given(trial.alloc, 300)?;
        trial.write(&given)?;
    }
    trial.mark()?;
    Ok(())
}

/// What a histogram with two bounds is made from.
fn two_bounds(alloc: Global) -> Result<HistogramSettings, Error> {
    let bounds = Bounds::new(SharedItems::new(vec![in alloc; 1, 5]?)?);
    match bounds {
        Some(bounds) => Ok(HistogramSettings {
            bounds,
            has_min_max: true,
            has_sum: true,
        }),
        None => bail!("the bounds rise"),
    }
}

/// Makes the aggregate that the scenario names, with a limit of 2, makes the call under test, and writes what it gives.
pub fn write_aggregate<R: Print>(trial: &mut Trial<R>) -> Result<(), Error> {
    let alloc = trial.alloc;
    let hasher = SetHashBuilder::default();
    match trial.scenario.word {
        "sum" => write_with(trial, Sum::new(alloc, hasher, true, Delta, None, 2, 100)),
        "observed" => write_with(
            trial,
            PrecomputedSum::new(alloc, hasher, Delta, None, 2, 100, true),
        ),
        "last" => write_with(
            trial,
            LastValue::new(alloc, hasher, (), Delta, None, 2, 100),
        ),
        "histogram" => {
            let settings = two_bounds(alloc)?;
            write_with(
                trial,
                Histogram::new(alloc, hasher, settings, Delta, None, 2, 100),
            )
        }
        "map" => write_with(trial, ValueMap::new(alloc, hasher, (), 2)),
        word => unknown(word),
    }
}
