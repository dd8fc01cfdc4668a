//! Asks all readers of a provider, one after another.

ghost use Rattle.std.specs.Prelude.{◌≡◌, ◌+◌, ◌-◌, ◌<◌, ◌≤◌, ◌^◌, ◌++◌, ◌∷◌, [], List, length, map};
ghost use Rattle.otel_stream.specs.Questions.{does};
ghost use Rattle.otel_stream.specs.Requests.{Outcome, AllAsked, default_timeout, failures, first_failure, outcome_by, wanted_by};

use crate::reader::MetricReader;
use otel_common::faults::{Fault, InternalFault, OTelSdkResult};

/// What readers are asked to do.
#[derive(Clone, Copy)]
enum Question {
    Flush,
    Shutdown,
}

/// How many readers failed so far, and the number of the first of them.
#[derive(Clone, Copy)]
struct Tally {
    failed: usize,
    first: Option<usize>,
}

/// Returns the tally after one more reader, with this number and this answer.
fn noted(tally: Tally, number: usize, answer: &OTelSdkResult) -> Tally
    requires room { number < 2 ^ 64 - 1 }
    requires below { tally.failed ≤ number }
    ensures below { result.failed ≤ number + 1 }
    ensures failed { (answers : List Outcome) → tally.failed ≡ failures answers → result.failed ≡ failures (answers ++ answer.now ∷ []) }
    ensures first { (answers : List Outcome) → length answers ≡ number → tally.first ≡ first_failure answers → result.first ≡ first_failure (answers ++ answer.now ∷ []) }
{
    match answer {
        Ok(()) => tally,
        Err(_) => Tally {
            failed: tally.failed + 1,
            first: match tally.first {
                Some(first) => Some(first),
                None => Some(number),
            },
        },
    }
}

/// Returns the answer for all readers.
fn outcome(tally: Tally) -> OTelSdkResult
    ensures { result ≡ outcome_by tally.failed tally.first }
{
    match tally.first {
        None => Ok(()),
        Some(first) => Err(Fault::InternalFailure(InternalFault::Readers {
            failed: tally.failed,
            first,
        })),
    }
}

/// Asks one reader.
fn ask<R: MetricReader>(reader: &mut R, question: Question) -> OTelSdkResult
    ensures did { does R.flushes R.shuts question reader.old reader.new result }
    ensures wants { wanted_by R.preference R.limit R.aggregation reader.new ≡ wanted_by R.preference R.limit R.aggregation reader.old }
{
    match question {
        Question::Flush => reader.force_flush(),
        Question::Shutdown => reader.shutdown(),
    }
}

/// Asks each reader once, in order, even after one has failed.
fn ask_all<R: MetricReader>(readers: &mut [R], question: Question) -> OTelSdkResult
    ensures asked { AllAsked (does R.flushes R.shuts question) readers.old readers.new result }
    ensures wants { map (wanted_by R.preference R.limit R.aggregation) readers.new ≡ map (wanted_by R.preference R.limit R.aggregation) readers.old }
{
    let mut tally = Tally {
        failed: 0,
        first: None,
    };
    for number in 0..readers.len() {
        let answer = ask(&mut readers[number], question);
        tally = noted(tally, number, &answer);
    }
    outcome(tally)
}

/// Asks each reader once to flush, in order, even after one has failed (Metrics SDK, "ForceFlush").
///
/// If readers failed, the answer is how many did and the number of the first, counted from 0; the readers' own faults
/// are not passed on. What readers want doesn't change. Takes no memory besides what the readers take.
pub fn flush_all<R: MetricReader>(readers: &mut [R]) -> OTelSdkResult
    ensures asked { AllAsked R.flushes readers.old readers.new result }
    ensures wants { map (wanted_by R.preference R.limit R.aggregation) readers.new ≡ map (wanted_by R.preference R.limit R.aggregation) readers.old }
{
    ask_all(readers, Question::Flush)
}

/// Asks each reader once to shut down, with a timeout of 5 seconds, in order, even after one has failed (Metrics SDK,
/// "Shutdown"). It answers as `flush_all` does.
pub fn shut_all<R: MetricReader>(readers: &mut [R]) -> OTelSdkResult
    ensures asked { AllAsked (λ before after outcome. R.shuts before default_timeout after outcome) readers.old readers.new result }
    ensures wants { map (wanted_by R.preference R.limit R.aggregation) readers.new ≡ map (wanted_by R.preference R.limit R.aggregation) readers.old }
{
    ask_all(readers, Question::Shutdown)
}
