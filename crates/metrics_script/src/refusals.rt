//! Why a line of a script can't be read.

ghost use Rattle.metrics_script.specs.Refusals.{wrong_word};
ghost use Rattle.metrics_script.specs.declared.refusals.Refusal.TheVariants.{OutOfMemory};
ghost use Rattle.std.specs.Prelude.{◌≡◌, ◌≢◌};

use crate::reasons::Reason;
use opentelemetry_sdk::common::Fault;
use std::alloc::{AllocError, AllocFailed};
use std::fmt::{self, Display, Formatter, Write};

/// What is wrong with a line, and with which of its words.
#[derive(Clone, Copy, Debug)]
pub struct Complaint<'a> {
    /// The word, or the part of it, that is wrong. A line that can't be cut into words has none.
    pub word: Option<&'a str>,
    pub reason: Reason,
}

/// Prints the word in quotes, if there is one, and what is wrong with it.
impl Display for Complaint<'_> {
    fn fmt<W: Write>(&self, f: &mut Formatter<W>) -> fmt::Result {
        match self.word {
            Some(word) => write!(f, "{word:?}: {}", self.reason),
            None => write!(f, "{}", self.reason),
        }
    }
}

/// Why a line of a script can't be read.
#[derive(Clone, Copy, Debug)]
pub enum Refusal<'a> {
    /// The line is not a line of a script.
    BadCommand(Complaint<'a>),
    /// There is no memory for what the line says.
    OutOfMemory,
}

impl<'a> Refusal<'a> {
    /// The refusal of a line with this wrong word.
    pub fn of_word(word: &'a str, reason: Reason) -> Refusal<'a>
        ensures { result ≡ wrong_word word.entry reason }
    {
        Refusal::BadCommand(Complaint {
            word: Some(word),
            reason,
        })
    }

    /// The refusal of a line of which no word is wrong.
    pub fn of_line(reason: Reason) -> Refusal<'a>
        ensures { result ≢ Refusal.OutOfMemory }
    {
        Refusal::BadCommand(Complaint { word: None, reason })
    }
}

impl<'a> From<AllocError> for Refusal<'a> {
    ghost from_gives = { λ _ refusal. refusal ≡ OutOfMemory };

    fn from(_error: AllocError) -> Refusal<'a> {
        Refusal::OutOfMemory
    }
}

impl<'a, T: Drop> From<AllocFailed<T>> for Refusal<'a> {
    ghost from_gives = { λ _ refusal. refusal ≡ OutOfMemory };

    fn from(_failed: AllocFailed<T>) -> Refusal<'a> {
        Refusal::OutOfMemory
    }
}

/// Only for what is refused only for want of memory, such as the building of a scope.
impl<'a> From<Fault> for Refusal<'a> {
    ghost from_gives = { λ _ refusal. refusal ≡ OutOfMemory };

    fn from(_fault: Fault) -> Refusal<'a> {
        Refusal::OutOfMemory
    }
}
