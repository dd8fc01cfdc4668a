//! What is recorded at: an instrument with lists of attributes, or handles.

use crate::subjects::Subject;
use anyhow::{Error, bail};
use opentelemetry_sdk::common::{Fault, KeyValue};
use opentelemetry_sdk::metrics::meter::{Bound, Counter, Gauge, Histogram};
use opentelemetry_sdk::metrics::provider::Call;
use std::alloc::{AllocError, Global};

/// A handle that stays live when it is let go.
pub struct Handle {
    pub bound: Bound<u64>,
}

impl Drop for Handle {
    fn drop(self) {
        let Handle { bound } = self;
        let _ = bound.into_number();
    }
}

/// What is recorded at, one record after another: an instrument with each of these lists of attributes, a counter with
/// lists that are all new, or each of these handles. A worker looks the lists up, or names them once for `Series`.
#[derive(Drop)]
pub enum Target<'a> {
    Sets(Counter<u64>, &'a [&'a [KeyValue]]),
    Series(Counter<u64>, &'a [&'a [KeyValue]]),
    Histogram(Histogram<u64>, &'a [&'a [KeyValue]]),
    Gauge(Gauge<u64>, &'a [&'a [KeyValue]]),
    Lists(Counter<u64>),
    Handles(Vec<Handle>),
}

/// A target, and how many rounds over its lists or handles a batch of records is.
#[derive(Drop)]
pub struct Work<'a> {
    pub target: Target<'a>,
    pub rounds: u64,
}

/// Binds a handle of a counter for each of these lists of attributes.
fn handles_of<S: Subject>(
    alloc: Global,
    subject: &mut S,
    counter: &Counter<u64>,
    lists: &[&[KeyValue]],
) -> Result<Vec<Handle>, Fault> {
    let mut handles = Vec::new(alloc);
    for attributes in lists {
        let bound = subject.handle(counter, attributes)?;
        handles.push(Handle { bound })?;
    }
    Ok(handles)
}

impl<'a> Target<'a> {
    /// Makes the target of calls that have this name: `add`, `series`, `histogram`, `gauge`, `lists` or `bound`.
    pub fn named<S: Subject>(
        alloc: Global,
        subject: &mut S,
        name: &str,
        lists: &'a [&'a [KeyValue]],
    ) -> Result<Target<'a>, Error> {
        match name {
            "add" => Ok(Target::Sets(subject.counter(alloc)?, lists)),
            "series" => Ok(Target::Series(subject.counter(alloc)?, lists)),
            "histogram" => Ok(Target::Histogram(subject.histogram(alloc)?, lists)),
            "gauge" => Ok(Target::Gauge(subject.gauge(alloc)?, lists)),
            "lists" => Ok(Target::Lists(subject.counter(alloc)?)),
            "bound" => {
                let counter = subject.counter(alloc)?;
                let handles = handles_of(alloc, subject, &counter, lists)?;
                Ok(Target::Handles(handles))
            }
            _ => bail!("{name} is no call"),
        }
    }
}

/// The attributes of those of these calls that are records, in order.
pub fn lists_of<'a>(alloc: Global, calls: &'a [Call]) -> Result<Vec<&'a [KeyValue]>, AllocError> {
    let mut lists = Vec::new(alloc);
    for call in calls {
        if let Call::Record { attributes, .. } = call {
            lists.push(attributes.as_slice())?;
        }
    }
    Ok(lists)
}
