//! Records that wait in the list of a worker.

use crate::refused_memory::scenarios::unknown;
use crate::refused_memory::set_up::calls_of;
use crate::refused_memory::trials::Trial;
use crate::refused_memory::typed::Instruments;
use anyhow::{Error, bail};
use opentelemetry_sdk::common::{Fault, KeyValue};
use opentelemetry_sdk::metrics::meter::Bound;
use opentelemetry_sdk::metrics::provider::{Call, NumberValue};
use opentelemetry_sdk::metrics::shared::{Account, Worker};
use std::alloc::Global;

/// Adds a record in this way: by the number of its instrument or of its handle, by the name of its series, at an
/// instrument as a value, or else through a handle; or makes room for records.
fn add<C: Account, S: Account>(
    alloc: Global,
    worker: &mut Worker<C, S>,
    instruments: &Instruments,
    handle: &Bound<u64>,
    way: &str,
    attributes: &[KeyValue],
) -> Result<(), Fault> {
    match way {
        "number" => {
            let copied = Vec::from_clones(alloc, attributes)?;
            worker.add(0, NumberValue::U64(8), copied)
        }
        "series" => {
            let series = worker.series(&instruments.limited, attributes)?;
            worker.add_at(series, 8)
        }
        "reserve" => worker.reserve(1000),
        "handle_number" => worker.add_bound(0, NumberValue::U64(8)),
        "counter" => worker.add_to(&instruments.limited, 8, attributes),
        "up_down_counter" => worker.add_to(&instruments.allowed, -8, attributes),
        "histogram" => worker.record_at(&instruments.spread, 8, attributes),
        "gauge" => worker.record_at(&instruments.heat, -8, attributes),
        _ => worker.add_through(handle, 8),
    }
}

/// Makes the call under test at a worker: adds a record with the attributes of the last call, or takes out the first one.
pub fn make_at_worker<R: Print, C: Account, S: Account>(
    trial: &mut Trial<R>,
    worker: &mut Worker<C, S>,
    instruments: &Instruments,
    handle: &Bound<u64>,
    calls: &mut Vec<Call>,
) -> Result<(), Error> {
    if trial.scenario.call == "take_first" {
        return match worker.take_first() {
            Some(call) => trial.take(Ok(call)),
            None => bail!("no record waits"),
        };
    }
    let way = trial.scenario.word;
    match calls.pop() {
        Some(Call::Record { attributes, .. }) => {
            let added = add(
                trial.alloc,
                worker,
                instruments,
                handle,
                way,
                attributes.as_slice(),
            );
            trial.take(added)
        }
        _ => unknown(trial.scenario.call),
    }
}

/// Adds the record of a line.
fn give<C: Account, S: Account>(
    alloc: Global,
    worker: &mut Worker<C, S>,
    call: &Call,
) -> Result<(), Error> {
    match call {
        Call::Record {
            instrument,
            value,
            attributes,
        } => {
            let copied = Vec::from_clones(alloc, attributes.as_slice())?;
            worker.add(*instrument, *value, copied)?;
        }
        Call::RecordBound { handle, value } => worker.add_bound(*handle, *value)?,
        _ => bail!("a line is no record"),
    }
    Ok(())
}

/// Adds the records of these lines, without this many of the first, and at most so many.
pub fn give_some<C: Account, S: Account>(
    alloc: Global,
    worker: &mut Worker<C, S>,
    lines: &str,
    without: usize,
    most: usize,
) -> Result<(), Error> {
    let calls = calls_of(alloc, lines)?;
    for call in calls.iter().skip(without).take(most) {
        give(alloc, worker, call)?;
    }
    Ok(())
}
