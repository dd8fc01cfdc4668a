//! Observable instruments with callbacks.

ghost use Rattle.std.specs.Prelude.{◌≡◌, None, IfOk};

use super::cases::{Case, assert_of_provider};
use super::metered::{Metered, Request};
use super::shown::assert_collected;
use opentelemetry_sdk::common::{Fault, Items, KeyValue};
use opentelemetry_sdk::metrics::SdkMeterProvider;
use opentelemetry_sdk::metrics::callback::{Observation, ObserveI64, ObserveU64};
use opentelemetry_sdk::metrics::meter::{
    AsyncInstrumentBuilder, Meter, ObservableCounterKind, ObservableGaugeKind,
    ObservableUpDownCounterKind,
};
use opentelemetry_sdk::metrics::provider::{Boxed, Parts, Provider};
use std::alloc::Global;
use std::mem::replace;
use std::process::Abort;

/// Adds this value to what is observed, with the attributes `k=1`.
fn observed<T: Drop>(alloc: Global, out: &mut Vec<Observation<T>>, value: T) -> Result<(), Fault> {
    let attributes = Items::from(vec![in alloc; KeyValue::int(alloc, "k", 1)?]?);
    Ok(out.push(Observation { value, attributes })?)
}

/// Observes these values, one in each run, and after that nothing.
#[derive(Drop)]
struct InTurn {
    alloc: Global,
    values: [u64; 3],
    runs: usize,
}

impl ObserveU64 for InTurn {
    ghost observes = { λ before after left answer. after.values ≡ before.values };

    fn observe(&mut self, out: &mut Vec<Observation<u64>>) -> Result<(), Fault> {
        let Some(value) = self.values.get(self.runs) else {
            return Ok(());
        };
        let value = *value;
        self.runs = self.runs.saturating_add(1);
        observed(self.alloc, out, value)
    }
}

/// Observes -5, but answers a fault on its first run.
#[derive(Drop)]
struct FailsFirst {
    alloc: Global,
    fault: Option<Fault>,
}

impl ObserveI64 for FailsFirst {
    ghost observes = { λ before after left answer. IfOk answer (λ _. before.fault ≡ None) };

    fn observe(&mut self, out: &mut Vec<Observation<i64>>) -> Result<(), Fault> {
        if let Some(fault) = replace(&mut self.fault, None) {
            return Err(fault);
        }
        observed(self.alloc, out, -5)
    }
}

/// A callback that observes these values in turn.
fn in_turn(alloc: Global, values: [u64; 3]) -> Result<Box<dyn ObserveU64>, Fault> {
    let runs = 0;
    Ok(Box::new(
        alloc,
        InTurn {
            alloc,
            values,
            runs,
        },
    )?)
}

/// A callback that answers this fault first, if there is one.
fn failing(alloc: Global, fault: Option<Fault>) -> Result<Box<dyn ObserveI64>, Fault> {
    Ok(Box::new(alloc, FailsFirst { alloc, fault })?)
}

/// The name, the description and the unit of a counter.
type Texts<'a> = (&'a str, &'a str, &'a str);

/// The builder of an observable counter with callbacks of which each observes values in turn.
fn counted(
    alloc: Global,
    meter: Meter,
    (name, description, unit): Texts<'_>,
    callbacks: &[[u64; 3]],
) -> Result<AsyncInstrumentBuilder<ObservableCounterKind, u64, Boxed>, Fault> {
    let name = String::from_str(alloc, name)?;
    let description = String::from_str(alloc, description)?;
    let unit = String::from_str(alloc, unit)?;
    let mut builder = meter
        .u64_observable_counter(name)
        .with_description(description)
        .with_unit(unit);
    for values in callbacks {
        builder = builder.with_callback(in_turn(alloc, *values)?)?;
    }
    Ok(builder)
}

/// The builder of the observable up-down counter `middle`, whose callback answers this fault first.
fn middle(
    alloc: Global,
    meter: Meter,
    fault: Fault,
) -> Result<AsyncInstrumentBuilder<ObservableUpDownCounterKind, i64, Boxed>, Fault> {
    let callback = failing(alloc, Some(fault))?;
    meter
        .i64_observable_up_down_counter(String::from_str(alloc, "middle")?)
        .with_callback(callback)
}

/// The builder of the observable gauge `load`, whose callback observes these values in turn.
fn load(
    alloc: Global,
    meter: Meter,
    values: [u64; 3],
) -> Result<AsyncInstrumentBuilder<ObservableGaugeKind, u64, Boxed>, Fault> {
    let callback = in_turn(alloc, values)?;
    meter
        .u64_observable_gauge(String::from_str(alloc, "load")?)
        .with_callback(callback)
}

/// The builder of the observable gauge `heat`, whose callback answers this fault first, if there is one.
fn heat(
    alloc: Global,
    meter: Meter,
    fault: Option<Fault>,
) -> Result<AsyncInstrumentBuilder<ObservableGaugeKind, i64, Boxed>, Fault> {
    let callback = failing(alloc, fault)?;
    meter
        .i64_observable_gauge(String::from_str(alloc, "heat")?)
        .with_callback(callback)
}

/// Makes the observable instrument of a builder.
fn make<K, T, P: Parts>(
    provider: &mut Provider<P>,
    builder: Result<AsyncInstrumentBuilder<K, T, P>, Fault>,
    now: u64,
) -> Result<(), Fault> {
    builder?.build(provider, now)?;
    Ok(())
}

/// What these tests do with a provider.
pub trait Observing: Metered {
    /// Makes an observable counter with callbacks of which each observes values in turn, at 100.
    fn make_counted(
        &mut self,
        alloc: Global,
        meter: Meter,
        texts: Texts<'_>,
        callbacks: &[[u64; 3]],
    ) -> Result<(), Fault>;

    /// Makes the observable up-down counter `middle`, whose callback answers this fault first, at 110.
    fn make_middle(&mut self, alloc: Global, meter: Meter, fault: Fault) -> Result<(), Fault>;

    /// Makes the observable gauge `load`, whose callback observes these values in turn, at 100.
    fn make_load(&mut self, alloc: Global, meter: Meter, values: [u64; 3]) -> Result<(), Fault>;

    /// Makes the observable gauge `heat`, whose callback answers this fault first, if there is one, at 110.
    fn make_heat(&mut self, alloc: Global, meter: Meter, fault: Option<Fault>) -> Result<(), Fault>;
}

impl Observing for SdkMeterProvider {
    fn make_counted(
        &mut self,
        alloc: Global,
        meter: Meter,
        texts: Texts<'_>,
        callbacks: &[[u64; 3]],
    ) -> Result<(), Fault> {
        make(self, counted(alloc, meter, texts, callbacks), 100)
    }

    fn make_middle(&mut self, alloc: Global, meter: Meter, fault: Fault) -> Result<(), Fault> {
        make(self, middle(alloc, meter, fault), 110)
    }

    fn make_load(&mut self, alloc: Global, meter: Meter, values: [u64; 3]) -> Result<(), Fault> {
        make(self, load(alloc, meter, values), 100)
    }

    fn make_heat(
        &mut self,
        alloc: Global,
        meter: Meter,
        fault: Option<Fault>,
    ) -> Result<(), Fault> {
        make(self, heat(alloc, meter, fault), 110)
    }
}

/// What the second collection gives of one counter.
const SEEN: &str = "resource -\n\
     scope app - -\n\
     metric seen ()  u64 sum Delta monotonic=true 100 300 exemplars=0\n\
     seen k=1: 9\n";

/// What the third collection gives.
const SEEN_LATER: &str = "resource -\n\
     scope app - -\n\
     metric seen ()  u64 sum Delta monotonic=true 300 400 exemplars=0\n\
     seen k=1: 3\n";

/// Asserts what the readers collect, in turn, from one counter.
pub fn assert_dropped<M: Observing>(rt: &impl Abort, alloc: Global, provider: &mut M) {
    let meter = provider.meter_named("app").expect(rt, "a meter");
    let seen = provider.make_counted(alloc, meter, ("seen", "", ""), &[[7, 9, 12]]);
    seen.expect(rt, "a counter");
    assert_collected(rt, alloc, provider, 5, 200, "resource -\n");
    assert_collected(rt, alloc, provider, 1, 300, SEEN);
    assert_collected(rt, alloc, provider, 1, 400, SEEN_LATER);
}

/// What three callbacks give of which the second answers a fault on its first run, in the second collection.
const SECOND: &str = "resource -\n\
     scope app - -\n\
     metric first ()  u64 sum Cumulative monotonic=true 100 300 exemplars=0\n\
     first k=1: 2\n\
     metric last ()  u64 sum Cumulative monotonic=true 100 300 exemplars=0\n\
     last k=1: 4\n\
     scope other - -\n\
     metric middle ()  i64 sum Cumulative monotonic=false 110 300 exemplars=0\n\
     middle k=1: -5\n";

/// Asserts what three callbacks give of which the second answers a fault on its first run: the first collection is
/// refused.
pub fn assert_second_fails<M: Observing>(
    rt: &impl Abort,
    alloc: Global,
    provider: &mut M,
    fault: Fault,
    refused: &str,
) {
    let app = provider.meter_named("app").expect(rt, "a meter");
    let other = provider.meter_named("other").expect(rt, "a meter");
    let first = provider.make_counted(alloc, app, ("first", "", ""), &[[1, 2, 3]]);
    first.expect(rt, "a counter");
    let middle = provider.make_middle(alloc, other, fault);
    middle.expect(rt, "a counter");
    let last = provider.make_counted(alloc, app, ("last", "", ""), &[[4, 5, 6]]);
    last.expect(rt, "a counter");
    assert_collected(rt, alloc, provider, 0, 200, refused);
    assert_collected(rt, alloc, provider, 0, 300, SECOND);
}

/// What is collected from one counter with two callbacks.
const LOAD: &str = "resource -\n\
     scope app - -\n\
     metric load (how much) 1 u64 sum Cumulative monotonic=true 100 200 exemplars=0\n\
     load k=1: 8\n";

/// Asserts what is collected from one counter with two callbacks; and that a callback that would answer another fault
/// doesn't run for a reader that doesn't exist, and after a shutdown.
pub fn assert_in_order<M: Observing>(rt: &impl Abort, alloc: Global, provider: &mut M) {
    let meter = provider.meter_named("app").expect(rt, "a meter");
    let callbacks = &[[1, 2, 3], [8, 9, 10]];
    let texts = ("load", "how much", "1");
    let load = provider.make_counted(alloc, meter, texts, callbacks);
    load.expect(rt, "a counter");
    assert_collected(rt, alloc, provider, 0, 200, LOAD);
    let heat = provider.make_heat(alloc, meter, Some(Fault::WrongKind));
    heat.expect(rt, "a gauge");
    assert_collected(rt, alloc, provider, 6, 200, "refused 5\n");
    let shut = provider.request(&Request::Shutdown);
    shut.expect(rt, "a shutdown");
    assert_collected(rt, alloc, provider, 0, 300, "refused 9\n");
}

/// What is collected from a gauge of each number type.
const GAUGES: &str = "resource -\n\
     scope app - -\n\
     metric load ()  u64 gauge 100 200 exemplars=0\n\
     load k=1: 7\n\
     metric heat ()  i64 gauge 110 200 exemplars=0\n\
     heat k=1: -5\n";

/// What is collected from them later.
const GAUGES_LATER: &str = "resource -\n\
     scope app - -\n\
     metric load ()  u64 gauge 200 300 exemplars=0\n\
     load k=1: 3\n\
     metric heat ()  i64 gauge 200 300 exemplars=0\n\
     heat k=1: -5\n";

/// Asserts what is collected from a gauge of each number type.
pub fn assert_gauges<M: Observing>(rt: &impl Abort, alloc: Global, provider: &mut M) {
    let meter = provider.meter_named("app").expect(rt, "a meter");
    let load = provider.make_load(alloc, meter, [7, 3, 9]);
    load.expect(rt, "a gauge");
    let heat = provider.make_heat(alloc, meter, None);
    heat.expect(rt, "a gauge");
    assert_collected(rt, alloc, provider, 0, 200, GAUGES);
    assert_collected(rt, alloc, provider, 0, 300, GAUGES_LATER);
}

/// Observable gauges of both number types show what was observed last, since the previous collection.
#[test]
fn observable_gauges(rt: HostRuntime) {
    assert_of_provider(&rt, rt.alloc(), None, &Case::Gauges);
}

/// Of two delta readers one drops observable counters; the callback runs in each collection, of either.
#[test]
fn row_51(rt: HostRuntime) {
    assert_of_provider(&rt, rt.alloc(), None, &Case::Dropped);
}

/// Callbacks run in the order in which their instruments were built, up to the first that fails; those before it have
/// run, but nothing is taken in.
#[test]
fn callback_refuses(rt: HostRuntime) {
    assert_of_provider(&rt, rt.alloc(), None, &Case::Refused);
}

/// The same of a callback that finds no memory: two have run once, the third has not.
#[test]
fn callback_without_memory(rt: HostRuntime) {
    assert_of_provider(&rt, rt.alloc(), None, &Case::WithoutMemory);
}

/// If two callbacks of one counter observe the same set of attributes, the later one counts. No callback runs where
/// nothing can be collected.
#[test]
fn callbacks_in_order(rt: HostRuntime) {
    assert_of_provider(&rt, rt.alloc(), None, &Case::InOrder);
}
