//! Records at instruments and handles as values.

ghost use Rattle.std.specs.Prelude.{◌≤◌};

use crate::scripts::{calls_of, parts_of};
use crate::subjects::Subject;
use crate::targets::lists_of;
use anyhow::{Error, bail};
use opentelemetry_sdk::common::KeyValue;
use opentelemetry_sdk::metrics::meter::{Bound, Counter};
use std::alloc::Global;

/// Adds 1 this many times, with each of these lists of attributes in turn, starting over after the last. Returns how
/// many of these calls succeeded. `measure.sh` counts the instructions of this function and of all that it calls.
#[inline(never)]
fn counted_adds<S: Subject>(
    subject: &mut S,
    counter: &Counter<u64>,
    lists: &[&[KeyValue]],
    times: u64,
) -> u64
    ensures { result ≤ times }
{
    let mut made: u64 = 0;
    let mut place: usize = 0;
    for _ in 0..times {
        let Some(attributes) = lists.get(place) else {
            return made;
        };
        if subject.add_one(counter, attributes) {
            made += 1;
        }
        place = if place + 1 < lists.len() {
            place + 1
        } else {
            0
        };
    }
    made
}

/// Adds 1 this many times through a handle, and returns how many of these calls succeeded. It is counted as
/// `counted_adds` is.
#[inline(never)]
fn counted_bound_adds<S: Subject>(subject: &mut S, handle: &Bound<u64>, times: u64) -> u64
    ensures { result ≤ times }
{
    let mut made: u64 = 0;
    for _ in 0..times {
        if subject.add_one_through(handle) {
            made += 1;
        }
    }
    made
}

/// Adds 1 this many times through a handle with the first of these lists of attributes.
fn bound_adds<S: Subject>(
    subject: &mut S,
    counter: &Counter<u64>,
    lists: &[&[KeyValue]],
    times: u64,
) -> Result<u64, Error> {
    let Some(attributes) = lists.first() else {
        bail!("a record is missing");
    };
    let handle = subject.handle(counter, attributes)?;
    let made = counted_bound_adds(subject, &handle, times);
    let _ = handle.into_number();
    Ok(made)
}

/// Makes this many calls of an instrument or a handle as a value, which have this name. Returns how many of them
/// succeeded.
fn calls_named<S: Subject>(
    alloc: Global,
    subject: &mut S,
    name: &str,
    lists: &[&[KeyValue]],
    times: u64,
) -> Result<u64, Error> {
    let counter = subject.counter(alloc)?;
    match name {
        "add" => Ok(counted_adds(subject, &counter, lists, times)),
        "bound" => bound_adds(subject, &counter, lists, times),
        _ => bail!("{name} is no call"),
    }
}

/// Makes this many calls of an instrument or a handle as a value. The text is the name of the call and, after a line's
/// end, a script whose records have the attributes. Returns how many of them succeeded.
pub fn count_typed<S: Subject>(
    alloc: Global,
    subject: &mut S,
    text: &str,
    times: u64,
) -> Result<u64, Error> {
    let (name, script) = parts_of(text, "\n")?;
    let calls = calls_of(alloc, script)?;
    let lists = lists_of(alloc, calls.as_slice())?;
    calls_named(alloc, subject, name, lists.as_slice(), times)
}
