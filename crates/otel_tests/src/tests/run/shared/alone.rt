//! Workers without threads: what their calls answer, one after another.

use super::counted::{add, fault_of_call, open_worker};
use opentelemetry_sdk::metrics::provider::{Call, Parts};
use opentelemetry_sdk::metrics::shared::{Account, Locked, Worker};
use otel_common::attributes::KeyValue;
use otel_common::faults::Fault;
use otel_data::numbers::NumberValue;
use std::alloc::Global;

/// Submits a worker's records, and writes the number of the receipt or of the fault.
fn submit<P: Parts, C: Account, S: Account>(
    locked: &mut Locked<P, C, S>,
    worker: &mut Worker<C, S>,
    text: &mut String,
) -> Result<(), Fault> {
    match locked.submit(worker) {
        Ok(receipt) => write!(text, "accepted {}, ", receipt.accepted)?,
        Err(fault) => write!(text, "refused {}, ", fault.number())?,
    }
    Ok(())
}

/// Writes a record: its instrument, its value and its attributes, or its handle and its value.
fn write_record(call: &Call, text: &mut String) -> Result<(), Fault> {
    match call {
        Call::Record {
            instrument,
            value,
            attributes,
        } => {
            write!(text, "{instrument} {value:?}")?;
            for attribute in attributes.as_slice() {
                write!(text, " {attribute}")?;
            }
        }
        Call::RecordBound { handle, value } => write!(text, "through {handle} {value:?}")?,
        _ => text.push_str("no record")?,
    }
    Ok(())
}

/// Takes the first record out of a worker's list, and writes it.
fn take<C: Account, S: Account>(worker: &mut Worker<C, S>, text: &mut String) -> Result<(), Fault> {
    if let Some(call) = worker.take_first() {
        text.push_str("taken ")?;
        write_record(&call, text)?;
        text.push_str(", ")?;
    }
    Ok(())
}

/// Hands records to the provider itself, and writes the numbers of the faults.
fn record_by_call<P: Parts, C: Account, S: Account>(
    alloc: Global,
    locked: &mut Locked<P, C, S>,
    text: &mut String,
) -> Result<(), Fault> {
    let value = NumberValue::U64(1);
    let plain = Call::Record {
        instrument: 0,
        value,
        attributes: Vec::new(alloc).into(),
    };
    let plain = fault_of_call(locked, &plain);
    let bound = fault_of_call(locked, &Call::RecordBound { handle: 0, value });
    write!(text, "refused {plain}, refused {bound}, ")?;
    Ok(())
}

/// Makes the call of a worker that a word names, and writes what it answers. A number is a record of that value.
fn work<P: Parts, C: Account, S: Account>(
    alloc: Global,
    locked: &mut Locked<P, C, S>,
    worker: &mut Worker<C, S>,
    word: &str,
    text: &mut String,
) -> Result<(), Fault> {
    match word {
        "submit" => submit(locked, worker, text),
        "take" => take(worker, text),
        "count" => {
            let pending = worker.pending();
            let submitted = worker.submitted();
            write!(text, "{pending} wait, {submitted} submitted, ")?;
            Ok(())
        }
        "unknown" => {
            let attributes = vec![in alloc; KeyValue::int(alloc, "k", 1)?]?;
            worker.add(9, NumberValue::U64(1), attributes)
        }
        "bound" => worker.add_bound(9, NumberValue::U64(1)),
        value => add(alloc, worker, 0, value.parse::<u64>().unwrap_or(0)),
    }
}

/// Does what the words say, and writes what is answered: `open` opens a worker, `drop` drops the one that was opened
/// last, `call` hands records to the provider itself, and any other is a call of the worker that was opened last. The
/// workers come back.
pub fn follow<P: Parts, C: Account, S: Account>(
    alloc: Global,
    locked: &mut Locked<P, C, S>,
    words: &str,
    text: &mut String,
) -> Result<Vec<Worker<C, S>>, Fault> {
    let mut workers = Vec::new(alloc);
    for word in words.split(' ') {
        follow_one(alloc, locked, &mut workers, word, text)?;
    }
    Ok(workers)
}

/// Does what one word says.
fn follow_one<P: Parts, C: Account, S: Account>(
    alloc: Global,
    locked: &mut Locked<P, C, S>,
    workers: &mut Vec<Worker<C, S>>,
    word: &str,
    text: &mut String,
) -> Result<(), Fault> {
    match word {
        "open" => open_worker(locked, workers),
        "drop" => match workers.pop() {
            Some(_worker) => Ok(()),
            None => Ok(()),
        },
        "call" => record_by_call(alloc, locked, text),
        _ => match workers.last_mut() {
            Some(worker) => work(alloc, locked, worker, word, text),
            None => Ok(()),
        },
    }
}
