//! Runs of a scenario: the first with the call under test, and those at twins.

use crate::refused_memory::aggregates::write_aggregate;
use crate::refused_memory::callbacks::{Callbacks, Counting, Spare, new_callbacks, new_spare};
use crate::refused_memory::calls::write_call;
use crate::refused_memory::exports::write_export;
use crate::refused_memory::later::write_later;
use crate::refused_memory::scenarios::scenario_of;
use crate::refused_memory::set_up::{CALLBACKS, Swept, build, fill, resource, settings};
use crate::refused_memory::shared::share;
use crate::refused_memory::trials::Trial;
use crate::refused_memory::values::write_value;
use anyhow::Error;
use metrics_script::script_lines::{Script, script_of};
use opentelemetry_sdk::Resource;
use opentelemetry_sdk::common::Fault;
use opentelemetry_sdk::metrics::callback::{ObserveI64, ObserveU64};
use opentelemetry_sdk::metrics::instrument::SelectorView;
use opentelemetry_sdk::metrics::provider::{Boxed, Parts, Provider};
use opentelemetry_sdk::metrics::reader::MetricReader;
use opentelemetry_sdk::metrics::{ManualReader, View};
use std::alloc::Global;
use std::mem::replace;

/// Makes the call under test at this provider, which is given these callbacks, and writes what it answers, and what the
/// provider answers later. If the provider was refused, nothing is written.
fn write_with<R: Print, P: Parts>(
    trial: &mut Trial<R>,
    built: Result<Provider<P>, Fault>,
    callbacks: Callbacks<P::ObserveU64, P::ObserveI64>,
    spare: Spare<P::ObserveU64, P::ObserveI64>,
) -> Result<(), Error> {
    trial.end("build")?;
    let mut provider = match built {
        Ok(provider) => provider,
        Err(fault) => return trial.refuse(fault),
    };
    let instruments = fill(trial.alloc, &mut provider, trial.scenario.place, callbacks)?;
    if trial.scenario.call != "build" {
        write_call(trial, &mut provider, &instruments, spare)?;
    }
    write_later(trial, &mut provider)
}

/// Builds a provider whose readers, views and callbacks stand in boxes, and writes what it answers.
fn write_boxed<R: Print>(
    trial: &mut Trial<R>,
    resource: Resource,
    readers: Vec<ManualReader>,
    views: Vec<SelectorView>,
    callbacks: Callbacks<Counting, Counting>,
    spare: Spare<Counting, Counting>,
) -> Result<(), Error> {
    let alloc = trial.alloc;
    let mut boxed_readers: Vec<Box<dyn MetricReader>> = Vec::new(alloc);
    for reader in readers {
        boxed_readers.push(Box::new(alloc, reader)?)?;
    }
    let mut boxed_views: Vec<Box<dyn View>> = Vec::new(alloc);
    for view in views {
        boxed_views.push(Box::new(alloc, view)?)?;
    }
    let boxed_callbacks: Callbacks<Box<dyn ObserveU64>, Box<dyn ObserveI64>> = Callbacks {
        runs: Box::new(alloc, callbacks.runs)?,
        balance: Box::new(alloc, callbacks.balance)?,
        depth: Box::new(alloc, callbacks.depth)?,
    };
    let boxed_spare: Spare<Box<dyn ObserveU64>, Box<dyn ObserveI64>> = Spare {
        unsigned: Box::new(alloc, spare.unsigned)?,
        signed: Box::new(alloc, spare.signed)?,
    };
    trial.begin("build")?;
    let built = build::<Boxed>(alloc, resource, boxed_readers, boxed_views);
    write_with(trial, built, boxed_callbacks, boxed_spare)
}

/// Builds a provider, of whose callbacks this many have run once more, and writes what it answers.
fn write_at<R: Print>(trial: &mut Trial<R>, ahead: u64) -> Result<(), Error> {
    let alloc = trial.alloc;
    let place = trial.scenario.place;
    let resource = resource(alloc)?;
    let settings = settings(alloc, place)?;
    let Script { readers, views, .. } = script_of(alloc, settings.as_bytes())?;
    let callbacks = new_callbacks(alloc, ahead);
    let spare = new_spare(alloc);
    match place {
        "boxed" => write_boxed(trial, resource, readers, views, callbacks, spare),
        "shared" => {
            let mut provider = build::<Swept>(alloc, resource, readers, views)?;
            let instruments = fill(alloc, &mut provider, place, callbacks)?;
            share(provider, trial, &instruments)
        }
        _ => {
            trial.begin("build")?;
            let built = build::<Swept>(alloc, resource, readers, views);
            write_with(trial, built, callbacks, spare)
        }
    }
}

/// What is answered in a run, as text. If a provider could not be built, nothing is. A value that was refused is made
/// once more.
fn text_of_run<R: Print>(trial: &mut Trial<R>, ahead: u64) -> Result<String, Error> {
    let scenario = trial.scenario;
    if scenario.place == "value" {
        write_value(trial)?;
        if trial.text.is_empty() {
            trial.number = None;
            write_value(trial)?;
        }
    } else if scenario.place == "aggregate" {
        write_aggregate(trial)?;
    } else if scenario.place == "outbox" {
        write_export(trial)?;
    } else if !trial.is_refused || scenario.call != "build" {
        write_at(trial, ahead)?;
    }
    Ok(replace(&mut trial.text, String::new(trial.alloc)))
}

/// Whether a twin answers the same. If a collection was refused, some of the callbacks have run in it, in their order.
fn has_twin<R: Print>(trial: &mut Trial<R>, text: &str) -> Result<bool, Error> {
    trial.number = None;
    let is_collection = matches!(trial.scenario.call, "collect" | "collected");
    let most = if trial.is_refused && is_collection {
        CALLBACKS
    } else {
        0
    };
    for ahead in 0..=most {
        if text_of_run(trial, ahead)?.as_str() == text {
            return Ok(true);
        }
    }
    Ok(false)
}

/// Makes the call under test of the scenario of this number and line, compares what follows with twins, and prints what
/// it found.
pub fn try_scenario<R: Print>(
    rt: &R,
    alloc: Global,
    number: usize,
    line: &'static str,
) -> Result<(), Error> {
    let scenario = scenario_of(line);
    let mut trial = Trial {
        rt,
        alloc,
        scenario: &scenario,
        number: Some(number),
        is_refused: false,
        made: 0,
        refused_calls: Vec::new(alloc),
        text: String::new(alloc),
    };
    let text = text_of_run(&mut trial, 0)?;
    let is_same = has_twin(&mut trial, text.as_str())?;
    let word = trial.word(is_same);
    println!(rt; "{word}")?;
    Ok(())
}
