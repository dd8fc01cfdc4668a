//! Steps that are done to a map or to a stream, each a line of a text.

use super::attributes;
use otel_common::attributes::KeyValue;
use otel_common::faults::Fault;
use std::alloc::Global;
use std::fmt::Display;
use std::process::Abort;
use std::slice::Iter;

/// A step: what is done, with what, and with which value. In `measure x=1: 2` these are `measure`, `x=1` and `2`.
#[derive(Drop)]
pub struct Step<'a> {
    pub name: &'a str,
    /// A set of attributes, or the number of a handle or of a moment.
    pub place: &'a str,
    /// The set of attributes that the place shows.
    pub set: &'a [KeyValue],
    pub value: &'a str,
}

/// A number that texts show.
pub trait Readable {
    /// The number that a text shows, or 0 if it shows none.
    fn read(shown: &str) -> Self;
}

impl Readable for u64 {
    fn read(shown: &str) -> u64 {
        shown.parse().unwrap_or(0)
    }
}

impl Readable for i64 {
    fn read(shown: &str) -> i64 {
        shown.parse().unwrap_or(0)
    }
}

/// What steps are done to.
pub trait Stepped {
    /// Does a step, and writes what it answers.
    fn step(&mut self, alloc: Global, step: &Step, text: &mut String) -> Result<(), Fault>;
}

/// Writes what is shown.
pub fn show(text: &mut String, shown: &impl Display) -> Result<(), Fault> {
    Ok(write!(text, "{shown}")?)
}

/// Writes a text and attributes, each with a space after it, and an arrow.
pub fn show_set(
    text: &mut String,
    before: &str,
    attributes: Iter<'_, KeyValue>,
    arrow: &str,
) -> Result<(), Fault> {
    text.push_str(before)?;
    for attribute in attributes {
        write!(text, "{attribute} ")?;
    }
    show(text, &arrow)
}

/// The parts of a text before and behind a sign. If it doesn't have the sign, all of it is before.
pub fn parts<'a>(shown: &'a str, sign: &str) -> (&'a str, &'a str) {
    shown.split_once(sign).unwrap_or((shown, ""))
}

/// Does the step of a line, and asserts what it answers: what follows ` => `, or nothing.
fn assert_step(
    rt: &impl Abort,
    alloc: Global,
    stepped: &mut impl Stepped,
    line: &str,
) -> Result<(), Fault> {
    let (shown, wanted) = parts(line, " => ");
    let (head, value) = parts(shown, ": ");
    let (name, place) = parts(head, " ");
    let set = attributes(alloc, place)?;
    let step = Step {
        name,
        place,
        set: &set,
        value,
    };
    let mut text = String::new(alloc);
    stepped.step(alloc, &step, &mut text)?;
    assert!(rt; text.as_str() == wanted, "{line} and not {text}");
    Ok(())
}

/// Does the step of each line, and asserts what it answers.
pub fn assert_steps(
    rt: &impl Abort,
    alloc: Global,
    stepped: &mut impl Stepped,
    lines: &str,
) -> Result<(), Fault> {
    for line in lines.trim().lines() {
        assert_step(rt, alloc, stepped, line.trim())?;
    }
    Ok(())
}
