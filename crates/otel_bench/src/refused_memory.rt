//! Makes calls for which memory may be refused, and tells whether a refused call changed anything.
//!
//! A scenario is a provider with a cumulative, a delta and a `LowMemory` reader or with one reader, and with views, among
//! them one with a limit of 1 and one with an allow-list, and one call under test: of the provider, of what it gave, of
//! the provider once it is shared or shut down, or of a worker; or it is an aggregate or a value without a provider. If
//! the call is refused for want of memory, all later replies and collections of every reader are compared with those of a
//! twin that never had the call; at the twin of a refused collection as many callbacks have run, and the twin of a refused
//! submission has had the records before the refused one. If it is not refused, the twin has the call too.
//!
//! For each scenario a line is printed: `scenario N: same`, or `differs`, or `refused` for a call that must never be
//! refused for want of memory. `tools/refuse_memory` refuses each request for memory of each call under test in turn, and
//! more than one in a run, and sees that none is lost. No thread is started.

mod aggregates;
mod callbacks;
mod calls;
mod exports;
mod later;
mod runs;
mod scenarios;
mod set_up;
mod shared;
mod trials;
mod typed;
mod values;
mod workers;

use anyhow::Error;
use runs::try_scenario;
use scenarios::SCENARIOS;
use std::alloc::Global;

/// Tries the scenario of a number, or all of them if no number is given.
pub fn try_scenarios<R: Print>(rt: &R, alloc: Global, numbers: &[String]) -> Result<(), Error> {
    let wanted = match numbers {
        [number] => number.as_str().parse::<usize>()?,
        _ => 0,
    };
    for (index, line) in SCENARIOS.lines().enumerate() {
        let number = index.saturating_add(1);
        if wanted == 0 || wanted == number {
            try_scenario(rt, alloc, number, line)?;
        }
    }
    Ok(())
}
