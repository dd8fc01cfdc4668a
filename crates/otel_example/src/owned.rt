//! A program with parts of its own, and an aggregator of its own.

use crate::calls::print_collection;
use crate::first::watch_queue;
use crate::own::{OnlyNew, Own, Prefixed, Times, Waiting};
use crate::parts::provider_with;
use anyhow::Error;
use opentelemetry_sdk::common::{KeyValue, StringValue};
use opentelemetry_sdk::metrics::internal::{SetHashBuilder, ValueMap};
use opentelemetry_sdk::metrics::provider::{Parts, Provider};
use std::alloc::Global;

/// Counts jobs that come and go, and prints twice what is new.
fn print_jobs<P: Parts>(
    rt: &impl Print,
    alloc: Global,
    provider: &mut Provider<P>,
) -> Result<(), Error> {
    let name = String::from_str(alloc, "jobs")?;
    let jobs = provider.meter("shop")?.i64_up_down_counter(name);
    let jobs = jobs.build(provider, 100)?;
    jobs.add(provider, 5, &[])?;
    print_collection(rt, provider, 200)?;
    jobs.add(provider, -2, &[])?;
    print_collection(rt, provider, 300)
}

/// Counts how often each path was asked for, and prints it. Two paths have entries of their own.
fn print_paths(rt: &impl Print, alloc: Global) -> Result<(), Error> {
    let mut paths = ValueMap::<Times>::new(alloc, SetHashBuilder::default(), (), 2)?;
    for path in &["/cart", "/", "/cart", "/old"] {
        paths.measure((), &[KeyValue::text(alloc, "path", path)?])?;
    }
    for (set, times) in paths.collect_readonly(alloc)? {
        for attribute in set.as_slice() {
            print!(rt; "{attribute} ")?;
        }
        print!(rt; "{}\n", times.number)?;
    }
    Ok(())
}

/// Uses each part.
pub fn with_own(rt: &impl Print, alloc: Global) -> Result<(), Error> {
    let prefix = StringValue::new(alloc, "shop.")?;
    let views = vec![in alloc; Prefixed { alloc, prefix }]?;
    let mut provider = provider_with::<Own>(alloc, OnlyNew, views)?;
    watch_queue(alloc, &mut provider, Waiting { alloc, requests: 3 })?;
    print_jobs(rt, alloc, &mut provider)?;
    print_paths(rt, alloc)
}
