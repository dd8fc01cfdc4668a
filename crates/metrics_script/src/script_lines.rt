//! A whole script: what comes before `go`, and the calls after it.

ghost use Rattle.std.specs.Prelude.{◌≡◌, ◌≢◌, ◌⊎◌, [], ◌∷◌, ◌++◌, ℕ, false, true, map, IfOk, IfErr, OnOk, IsOkUnless, IfSome, IfNone};
ghost use Rattle.metrics_script.specs.Progress.{AddsLine, GoesOn, Progress, SetsUp, progress_of};
ghost use Rattle.metrics_script.specs.ScriptLines.{lines_of, without_end, words_of};
ghost use Rattle.metrics_script.specs.Scripts.{IsFirstBad, IsScript};

use crate::calls::{call_of, collect_of, observed_of};
use crate::failures::Failure;
use crate::readers::reader_of;
use crate::reasons::Reason;
use crate::refusals::Refusal;
use crate::verbs::misfit;
use crate::views::view_of;
use opentelemetry_sdk::metrics::ManualReader;
use opentelemetry_sdk::metrics::instrument::SelectorView;
use opentelemetry_sdk::metrics::provider::{Call, Observed};
use std::alloc::{AllocError, Global};
use std::mem::replace;

/// What a script asks for: the provider's readers and views, each in the order of their lines, and the calls.
#[derive(Drop)]
pub struct Script {
    pub readers: Vec<ManualReader>,
    pub views: Vec<SelectorView>,
    pub calls: Vec<Call>,
}

/// A script that is being read, line by line.
#[derive(Drop)]
pub(crate) struct Reading {
    script: Script,
    /// Whether the line `go` has been read.
    is_started: bool,
    /// What has been observed since the last call, for the next collection.
    observations: Vec<Observed>,
}

/// Reads the script of these bytes, or returns the number of its first bad line.
///
/// A script without `go`, or one that ends with observations, is bad at the line after its last one.
pub fn script_of(alloc: Global, input: &[u8]) -> Result<Script, Failure>
    ensures script { IfOk result (λ script. IsScript (lines_of input.now) script.readers.items script.views.items script.calls.items) }
    ensures first_bad { IfErr result (λ failure. (number : ℕ) → failure ≡ Failure.BadLine number → IsFirstBad (lines_of input.now) number) }
    ensures refused { IfErr result (λ failure. (failure ≢ Failure.InputOrOutput) × (failure ≢ Failure.BadArguments)) }
{
    let mut reading = Reading::new(alloc);
    let mut number = 1u64;
    for line in input.split_inclusive(|byte| *byte == b'\n') {
        match reading.add_line(alloc, without_end(line)) {
            Ok(()) => number = number.saturating_add(1),
            Err(Refusal::BadCommand(_)) => return Err(Failure::BadLine(number)),
            Err(Refusal::OutOfMemory) => return Err(Failure::OutOfMemory),
        }
    }
    if reading.missing().is_some() {
        return Err(Failure::BadLine(number));
    }
    let mut script = reading.script;
    script.calls.shrink_to_fit();
    Ok(script)
}

/// The line without the byte that ends it.
pub(crate) fn without_end(line: &[u8]) -> &[u8]
    ensures { result.now ≡ without_end line.now }
{
    line.strip_suffix(b"\n").unwrap_or(line)
}

/// The words of a line, which are separated by runs of spaces.
fn words_of(alloc: Global, line: &str) -> Result<Vec<&str>, AllocError>
    ensures words { IfOk result (λ words. map (λ word. word.now) words.items ≡ words_of line.now) }
{
    line.split(' ')
        .filter(|word| !word.is_empty())
        .collect(alloc)
}

impl Reading {
    /// Nothing has been read.
    pub(crate) fn new(alloc: Global) -> Reading
        ensures { progress_of result ≡ record { readers = []; views = []; calls = []; is_started = false; observations = [] } }
    {
        Reading {
            script: Script {
                readers: Vec::new(alloc),
                views: Vec::new(alloc),
                calls: Vec::new(alloc),
            },
            is_started: false,
            observations: Vec::new(alloc),
        }
    }

    /// What is missing if the script ends here.
    pub(crate) fn missing(&self) -> Option<Reason>
        ensures whole { IfNone result ((self.now.is_started ≡ true) × (self.now.observations.items ≡ [])) }
        ensures missing { IfSome result (λ reason. ((reason ≡ Reason.NoGo) × (self.now.is_started ≡ false)) ⊎ ((reason ≡ Reason.NoCollect) × (self.now.observations.items ≢ []))) }
    {
        if !self.is_started {
            return Some(Reason::NoGo);
        }
        if !self.observations.is_empty() {
            return Some(Reason::NoCollect);
        }
        None
    }

    /// Takes in the next line. One that begins with `#` or has no words says nothing.
    pub(crate) fn add_line<'a>(&mut self, alloc: Global, line: &'a [u8]) -> Result<(), Refusal<'a>>
        ensures added { OnOk result (AddsLine line.now (progress_of self.old) (progress_of self.new)) }
        ensures meaningless { IfErr result (λ refusal. refusal ≢ Refusal.OutOfMemory → (new : Progress) → ¬ AddsLine line.now (progress_of self.old) new) }
    {
        if let [b'#', ..] = line {
            return Ok(());
        }
        let Ok(line) = str::from_utf8(line) else {
            return Err(Refusal::of_line(Reason::LineNotUtf8));
        };
        let words = words_of(alloc, line)?;
        match words.as_slice() {
            [] => Ok(()),
            words if self.is_started => self.go_on(alloc, words),
            words => self.set_up(alloc, words),
        }
    }

    /// Takes in the words of a line after `go`. Observations wait for the next collection; no other call may come
    /// before it.
    fn go_on<'a>(&mut self, alloc: Global, words: &[&'a str]) -> Result<(), Refusal<'a>>
        ensures added { OnOk result (GoesOn (map (λ word. word.now) words.now) (progress_of self.old) (progress_of self.new)) }
        ensures meaningless { IfErr result (λ refusal. refusal ≢ Refusal.OutOfMemory → (new : Progress) → ¬ GoesOn (map (λ word. word.now) words.now) (progress_of self.old) new) }
    {
        match words {
            ["observe", instrument, number, attributes] => {
                let observed = observed_of(alloc, instrument, number, attributes)?;
                self.observations.push(observed)?;
                Ok(())
            }
            ["collect", reader, now] => {
                let mut observations = replace(&mut self.observations, Vec::new(alloc));
                observations.shrink_to_fit();
                let call = collect_of(reader, now, observations)?;
                add_call(&mut self.script.calls, call)
            }
            _ if self.observations.is_empty() => {
                let call = call_of(alloc, words)?;
                add_call(&mut self.script.calls, call)
            }
            _ => Err(misfit(words, true)),
        }
    }

    /// Takes in the words of a line before `go`, or of `go` itself.
    fn set_up<'a>(&mut self, alloc: Global, words: &[&'a str]) -> Result<(), Refusal<'a>>
        ensures added { OnOk result (SetsUp (map (λ word. word.now) words.now) (progress_of self.old) (progress_of self.new)) }
        ensures meaningless { IfErr result (λ refusal. refusal ≢ Refusal.OutOfMemory → (new : Progress) → ¬ SetsUp (map (λ word. word.now) words.now) (progress_of self.old) new) }
    {
        match words {
            ["reader", temporality, options @ ..] => {
                let reader = reader_of(alloc, temporality, options)?;
                self.script.readers.push(reader)?;
                Ok(())
            }
            ["view", selector, options @ ..] => {
                let view = view_of(alloc, selector, options)?;
                self.script.views.push(view)?;
                Ok(())
            }
            ["go"] => {
                self.is_started = true;
                Ok(())
            }
            _ => Err(misfit(words, false)),
        }
    }
}

/// Adds a call to the list. Most of what a script takes is this list, so it grows by a quarter, and not to twice its
/// length.
fn add_call<'a>(calls: &mut Vec<Call>, call: Call) -> Result<(), Refusal<'a>>
    ensures added { OnOk result (calls.new.items ≡ calls.old.items ++ call ∷ []) }
    ensures refused { IsOkUnless result Refusal.OutOfMemory }
{
    if calls.len() == calls.capacity() {
        calls.reserve_exact(calls.len() / 4 + 16)?;
    }
    calls.push(call)?;
    Ok(())
}
