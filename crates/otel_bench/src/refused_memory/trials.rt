//! A scenario on trial: its marks, what became of the call under test, and what is answered.

use crate::refused_memory::scenarios::Scenario;
use anyhow::Error;
use opentelemetry_sdk::common::Fault;
use std::alloc::Global;
use std::fmt::Debug;
use std::io;

/// A scenario, and what became of the call under test.
pub struct Trial<'a, R> {
    pub rt: &'a R,
    pub alloc: Global,
    pub scenario: &'a Scenario<'a>,
    /// The number of the scenario. A twin has none.
    pub number: Option<usize>,
    /// Whether the call was refused for want of memory.
    pub is_refused: bool,
    /// How many records of a worker had been made after the call.
    pub made: u64,
    /// Of each call of a run, whether it was refused for want of memory. None if the run itself was.
    pub refused_calls: Vec<bool>,
    /// What is answered, a line each.
    pub text: String,
}

impl<R> Drop for Trial<'_, R> {
    /// A function of its own, so that no proof about who lets one go looks into it.
    fn drop(self) {
        let Trial {
            rt: _,
            alloc: _,
            scenario: _,
            number: _,
            is_refused: _,
            made: _,
            refused_calls: _refused_calls,
            text: _text,
        } = self;
    }
}

impl<R> Trial<'_, R> {
    /// Writes a line.
    pub fn write<T: Debug>(&mut self, value: &T) -> Result<(), Error> {
        writeln!(self.text, "{value:?}")?;
        Ok(())
    }

    /// Notes that the call under test was refused for want of memory. Of twins nothing may be refused so.
    pub fn refuse(&mut self, fault: Fault) -> Result<(), Error> {
        match fault {
            Fault::OutOfMemory if self.number.is_some() => {
                self.is_refused = true;
                Ok(())
            }
            fault => Err(fault.into()),
        }
    }

    /// The word that is printed. A call that is sure must not be refused for want of memory, nor may a record that must
    /// not be refused stop a submission.
    pub fn word(&self, is_same: bool) -> &'static str {
        let is_even = self.scenario.call == "submit" && self.made % 2 == 0;
        if self.is_refused && self.scenario.is_sure {
            "refused"
        } else if is_same && !(self.is_refused && is_even) {
            "same"
        } else {
            "differs"
        }
    }
}

impl<R: Print> Trial<'_, R> {
    /// Prints the number of the scenario if this is the call under test and is made now. By what is printed around the call
    /// `tools/refuse_memory` knows which requests for memory are the call's. Twins print nothing.
    pub fn begin(&self, call: &str) -> io::Result<()> {
        match self.number {
            Some(number) if call == self.scenario.call => print!(self.rt; "scenario {number}"),
            _ => Ok(()),
        }
    }

    /// Prints a colon if this is the call under test and was made now.
    pub fn end(&self, call: &str) -> io::Result<()> {
        match self.number {
            Some(_) if call == self.scenario.call => print!(self.rt; ": "),
            _ => Ok(()),
        }
    }

    /// Prints a space, after the last reply of a run or of a twin and before what replied is let go. There
    /// `tools/refuse_memory` counts the blocks of memory.
    pub fn mark(&self) -> io::Result<()> {
        print!(self.rt; " ")
    }

    /// Ends the call under test with what it answered, and writes that if the call was not refused for want of memory.
    pub fn take<T: Debug + Drop>(&mut self, answer: Result<T, Fault>) -> Result<(), Error> {
        self.end(self.scenario.call)?;
        match answer {
            Err(Fault::OutOfMemory) => self.refuse(Fault::OutOfMemory),
            answer => self.write(&answer),
        }
    }
}
