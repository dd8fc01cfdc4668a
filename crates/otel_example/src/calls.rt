//! What the parts of the program share: how a counter is made, and how a collection is printed.

ghost use Rattle.std.specs.Prelude.{IfOk};
ghost use Rattle.opentelemetry_sdk.specs.Typed.{IsInstrumentOf};

use anyhow::Error;
use opentelemetry_sdk::common::Fault;
use opentelemetry_sdk::metrics::meter::Counter;
use opentelemetry_sdk::metrics::provider::{Parts, Provider};
use std::alloc::Global;

/// A counter of the meter of this scope, made at a moment.
pub fn counter<P: Parts>(
    alloc: Global,
    provider: &mut Provider<P>,
    scope: &str,
    name: &str,
    now: u64,
) -> Result<Counter<u64>, Fault>
    ensures own { IfOk result (λ c. IsInstrumentOf c provider.new) }
{
    let name = String::from_str(alloc, name)?;
    let meter = provider.meter(scope)?;
    meter.u64_counter(name).build(provider, now)
}

/// Prints what the first reader of a provider collects at a moment.
pub fn print_collection<P: Parts>(
    rt: &impl Print,
    provider: &mut Provider<P>,
    now: u64,
) -> Result<(), Error> {
    let collected = provider.collected(0, now)?;
    Ok(print!(rt; "collected\n{collected}")?)
}
