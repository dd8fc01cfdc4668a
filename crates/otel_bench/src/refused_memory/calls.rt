//! Makes the call under test at a provider.

use crate::refused_memory::callbacks::Spare;
use crate::refused_memory::scenarios::unknown;
use crate::refused_memory::set_up::calls_of;
use crate::refused_memory::trials::Trial;
use crate::refused_memory::typed::{Instruments, make_typed, record_arrays};
use crate::refused_memory::values::exported;
use anyhow::{Error, bail};
use opentelemetry_sdk::common::Fault;
use opentelemetry_sdk::metrics::data::ResourceMetrics;
use opentelemetry_sdk::metrics::provider::{Call, Parts, Provider, Reply};
use std::time::Duration;

/// A reply as a result.
pub fn answer_of(reply: Reply) -> Result<Reply, Fault> {
    match reply {
        Reply::Refused(fault) => Err(fault),
        reply => Ok(reply),
    }
}

/// A copy of a value.
fn copied<T: Clone>(value: &T) -> Result<T, Fault> {
    Ok(value.clone()?)
}

/// Makes the call under test, which is no run, between the marks.
fn make<R: Print, P: Parts>(
    trial: &mut Trial<R>,
    provider: &mut Provider<P>,
    instruments: &Instruments,
    calls: &mut Vec<Call>,
    metrics: &mut ResourceMetrics,
    spare: Spare<P::ObserveU64, P::ObserveI64>,
) -> Result<(), Error> {
    let scenario = trial.scenario;
    trial.begin(scenario.call)?;
    match scenario.call {
        "meter" => trial.take(provider.meter(scenario.word)),
        "scope" => match calls.pop() {
            Some(Call::Meter { scope }) => trial.take(provider.meter_with_scope(scope)),
            _ => bail!("a line asks for no meter"),
        },
        "arrays" => {
            let answer = record_arrays(trial.alloc, provider, instruments, 8);
            trial.take(answer)
        }
        "export" => trial.take(exported(trial.alloc, scenario.word, metrics)),
        "copy" if scenario.word == "collection" => trial.take(copied(metrics)),
        "copy" => trial.take(copied(calls)),
        "timeout" => trial.take(provider.shutdown_with_timeout(Duration::from_secs(1))),
        word => match calls.as_slice() {
            [call] if word == "collected" => match call {
                Call::Collect { reader, now, .. } => {
                    trial.take(provider.collected(*reader, *now))
                }
                _ => unknown(word),
            },
            [call] if word == "line" => trial.take(answer_of(provider.step(call))),
            [call] if matches!(word, "typed" | "collect") => {
                let answer = make_typed(trial.alloc, provider, instruments, call, metrics, spare);
                trial.take(answer)
            }
            _ => unknown(word),
        },
    }
}

/// Makes the calls of a run between the marks, writes the replies, and notes which were refused for want of memory.
fn write_run<R: Print, P: Parts>(
    trial: &mut Trial<R>,
    provider: &mut Provider<P>,
    calls: &[Call],
) -> Result<(), Error> {
    trial.begin("run")?;
    let answer = provider.run(trial.alloc, calls);
    trial.end("run")?;
    let replies = match answer {
        Ok(replies) => replies,
        Err(fault) => return trial.refuse(fault),
    };
    for reply in &replies {
        let is_refused = matches!(reply, Reply::Refused(Fault::OutOfMemory));
        trial.refused_calls.push(is_refused)?;
        if is_refused {
            trial.is_refused = true;
        } else {
            trial.write(reply)?;
        }
    }
    Ok(())
}

/// Makes those calls of a run that were not refused, one by one, and writes the replies.
fn write_steps<R, P: Parts>(
    trial: &mut Trial<R>,
    provider: &mut Provider<P>,
    calls: &[Call],
) -> Result<(), Error> {
    for (number, call) in calls.iter().enumerate() {
        if let Some(false) = trial.refused_calls.get(number) {
            let reply = provider.step(call);
            trial.write(&reply)?;
        }
    }
    Ok(())
}

/// Makes the call under test, or at a twin what was not refused, and writes what is answered.
pub fn write_call<R: Print, P: Parts>(
    trial: &mut Trial<R>,
    provider: &mut Provider<P>,
    instruments: &Instruments,
    spare: Spare<P::ObserveU64, P::ObserveI64>,
) -> Result<(), Error> {
    let mut calls = calls_of(trial.alloc, trial.scenario.lines)?;
    let mut metrics = ResourceMetrics::default(trial.alloc);
    if trial.scenario.place != "shut" {
        provider.collect(0, 190, &mut metrics)?;
    }
    let is_run = trial.scenario.call == "run";
    if is_run && trial.number.is_some() {
        write_run(trial, provider, calls.as_slice())?;
    } else if is_run {
        write_steps(trial, provider, calls.as_slice())?;
    } else if !trial.is_refused {
        make(
            trial,
            provider,
            instruments,
            &mut calls,
            &mut metrics,
            spare,
        )?;
    }
    trial.write(&metrics)
}
