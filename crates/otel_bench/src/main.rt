//! Makes the calls of a script on a provider, so that the instructions of one call can be counted (`measure.sh`).
//!
//! The argument says how many calls are counted. Standard input has three scripts as `metrics_run` takes them, with
//! a line `---` between each two. The first says which readers and views the provider has, and what is done once. The
//! calls of the second are made before each counted call; it may have none. Those of the third are counted: they are
//! made in turn, starting over after the last. A line before the third script says how its records are made instead:
//!
//! - `typed add`: a counter as a value adds 1 with the attributes of each record in turn;
//! - `typed bound`: a handle as a value, with the attributes of the first record, adds 1;
//! - `worker add ROUNDS`: a worker of the shared provider hands in batches, and the argument says how many. A batch is this
//!   many rounds over the records, and for each a counter adds 1 with its attributes. `worker series ROUNDS` names the series
//!   of these attributes first, `worker bound ROUNDS` binds handles with them, and for `worker histogram ROUNDS` and
//!   `worker gauge ROUNDS` the instrument is a histogram or a gauge;
//! - `worker lists`: the same in batches of 100 records of a counter, each with attributes that are new;
//! - `export prometheus`, `export openmetrics`, `export otlp`: what the first reader collects is printed so, in memory.
//!
//! How many of the counted calls were carried out is printed. After a further `---` come three scripts more, for another
//! provider.
//!
//! With the arguments `threads` and two numbers, it prints how many seconds 1, 2 and 4 threads take that make as many
//! records each as the first says, in batches of as many rounds as the second says. Standard input has two scripts then: what
//! is done once, and the records of a round. With the argument `refused_memory`, perhaps with the number of a scenario, it
//! makes calls for which memory may be refused.
#![tactic(auto)]

mod counted;
mod exports;
mod refused_memory;
mod scripts;
mod subjects;
mod targets;
mod threads;
mod typed;
mod workers;

use anyhow::{Error, bail};
use exports::count_exports;
use refused_memory::try_scenarios;
use scripts::{calls_of, provider_of};
use std::alloc::Global;
use std::rt::Clock;
use std::sync::Wait;
use std::thread::Threads;
use std::{env, io};
use subjects::Subject;
use threads::time_threads;
use typed::count_typed;
use workers::count_by_worker;

/// Makes the calls of this script, of which this many are counted, each after the calls between. Returns how many of the
/// counted ones were carried out.
fn count_steps<S: Subject>(
    alloc: Global,
    subject: &mut S,
    between: &str,
    counted: &str,
    times: u64,
) -> Result<u64, Error> {
    let between = calls_of(alloc, between)?;
    let counted = calls_of(alloc, counted)?;
    Ok(subject.make(between.as_slice(), counted.as_slice(), times))
}

/// Makes this many counted calls, as the line before their script says, and returns how many were carried out.
fn count<S: Subject>(
    alloc: Global,
    subject: &mut S,
    between: &str,
    counted: &str,
    times: u64,
) -> Result<u64, Error> {
    if let Some(typed) = counted.strip_prefix("typed ") {
        return count_typed(alloc, subject, typed, times);
    }
    if let Some(exporter) = counted.strip_prefix("export ") {
        return count_exports(alloc, subject, exporter, times);
    }
    count_steps(alloc, subject, between, counted, times)
}

/// Makes the calls of three scripts on a provider of their own.
fn count_on_new(alloc: Global, scripts: &[&str], times: u64) -> Result<u64, Error> {
    let [first, between, counted] = scripts else {
        bail!("a script is missing");
    };
    if let Some(text) = counted.strip_prefix("worker ") {
        return count_by_worker(alloc, first, text, times);
    }
    let mut provider = provider_of(alloc, first)?;
    count(alloc, &mut provider, between, counted, times)
}

/// Prints for each three scripts how many of their counted calls were carried out.
fn count_all(rt: &impl Print, alloc: Global, scripts: &str, times: u64) -> Result<(), Error> {
    let scripts: Vec<&str> = scripts.split("\n---\n").collect(alloc)?;
    for scripts in scripts.chunks(3) {
        let made = count_on_new(alloc, scripts, times)?;
        println!(rt; "{made}")?;
    }
    Ok(())
}

/// Counts or times, as the arguments say.
fn run<R: Print + Clock + Threads + Wait + Sync>(
    rt: &R,
    alloc: Global,
    words: &[String],
    scripts: &str,
) -> Result<(), Error> {
    match words {
        [times] => count_all(rt, alloc, scripts, times.as_str().parse::<u64>()?),
        [name, records, rounds] if name.as_str() == "threads" => {
            let records = records.as_str().parse::<u64>()?;
            let rounds = rounds.as_str().parse::<u64>()?;
            time_threads(rt, alloc, scripts, records, rounds)
        }
        _ => bail!("the argument is how many calls are counted"),
    }
}

fn main(rt: HostRuntime) -> Result<(), Error> {
    let words: Vec<String> = env::args(&rt)?.skip(1).collect(rt.alloc())?;
    if let [name, numbers @ ..] = words.as_slice()
        && name.as_str() == "refused_memory"
    {
        return try_scenarios(&rt, rt.alloc(), numbers);
    }
    let scripts = io::read_to_string(rt.alloc(), rt.reader())?;
    run(&rt, rt.alloc(), words.as_slice(), scripts.as_str())
}
