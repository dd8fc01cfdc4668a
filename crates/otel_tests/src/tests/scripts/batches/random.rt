//! Random scripts, each made one by one and by a worker.

use super::super::outcome_of;
use super::printed_by_worker;
use std::alloc::{AllocError, Global};
use std::process::Abort;
use std::test::*;

/// Numbers by a linear congruential generator.
#[derive(Drop)]
struct Random {
    state: u64,
}

impl Random {
    /// The next number, below this one, or 0.
    fn below(&mut self, bound: u64) -> u64 {
        let state = self.state.wrapping_mul(6364136223846793005);
        self.state = state.wrapping_add(1442695040888963407);
        (self.state >> 33).checked_rem(bound).unwrap_or(0)
    }

    /// One of these words.
    fn word<'a>(&mut self, words: &[&'a str]) -> &'a str {
        let place = self.below(words.len() as u64);
        words.get(place as usize).copied().unwrap_or("-")
    }
}

/// What a provider has: three readers, of which two keep few sets, and views with lists of keys.
const SETTINGS: &[&str] = &[
    "reader cumulative limit=1\n\
     reader delta limit=2\n\
     reader cumulative\n\
     view c keys=a\n",
    "reader cumulative limit=1\n\
     reader delta limit=2\n\
     reader cumulative\n\
     view u keys=b limit=3\n\
     view u name=all\n\
     view h keys= agg=hist:0,2\n\
     view g agg=drop\n",
];

/// Instruments, each kind of which is recorded, two with one stream, and two of which ignore or refuse their records; and
/// a handle.
const BUILDS: &str = "go\n\
     meter m\n\
     build 0 u64_counter c 100\n\
     build 0 i64_up_down_counter u 100\n\
     build 0 u64_histogram h 100 bounds=0,5,20\n\
     build 0 u64_gauge g 100\n\
     build 0 i64_gauge i 100\n\
     build 0 u64_counter C 100\n\
     build none u64_counter d 100\n\
     build 0 u64_observable_counter o 100\n\
     bind 0 a=i:1\n";

/// Instruments of unsigned numbers, those of signed ones, and those whose records are refused.
const UNSIGNED: &[&str] = &["0", "2", "3", "5", "6"];

const SIGNED: &[&str] = &["1", "4"];

const REFUSED: &[&str] = &["7", "8", "18446744073709551615"];

const UNSIGNED_NUMBERS: &[&str] = &["u:0", "u:1", "u:2", "u:6", "u:21", "u:18446744073709551615"];

const SIGNED_NUMBERS: &[&str] = &[
    "i:0",
    "i:1",
    "i:-3",
    "i:9223372036854775807",
    "i:-9223372036854775808",
];

/// Lists of attributes, of which some are one set or become one by a list of keys.
const LISTS: &[&str] = &[
    "-",
    "a=i:1",
    "a=i:2",
    "a=i:1,b=i:1,c=i:1,d=i:1",
    "b=i:1,a=i:1,c=i:1,d=i:1",
    "a=i:2,b=i:1,c=i:1,d=i:1",
    "b=s:x,c=s:x,d=s:x",
    "b=i:1,a=i:1,b=i:2,d=i:1,c=i:1",
    "otel.metric.overflow=b:true",
];

/// A series of records, and the numbers that its records may have.
#[derive(Clone, Copy)]
struct Series {
    instrument: &'static str,
    numbers: &'static [&'static str],
    attributes: &'static str,
}

/// A random series.
fn series_of(random: &mut Random) -> Series {
    let (instruments, numbers) = match random.below(5) {
        0 | 1 => (SIGNED, SIGNED_NUMBERS),
        _ => (UNSIGNED, UNSIGNED_NUMBERS),
    };
    Series {
        instrument: random.word(instruments),
        numbers,
        attributes: random.word(LISTS),
    }
}

/// Writes a record of a series.
fn write_record(random: &mut Random, text: &mut String, series: &Series) -> Result<(), AllocError> {
    let number = random.word(series.numbers);
    writeln!(
        text,
        "record {} {number} {}",
        series.instrument, series.attributes
    )
}

/// Writes a record that is often refused: at an instrument that refuses it, of any number type, or through a handle.
fn write_odd(random: &mut Random, text: &mut String, series: &Series) -> Result<(), AllocError> {
    let number = match random.below(2) {
        0 => random.word(SIGNED_NUMBERS),
        _ => random.word(UNSIGNED_NUMBERS),
    };
    match random.below(4) {
        0 => writeln!(text, "record {} {number} -", random.word(REFUSED)),
        1 => writeln!(
            text,
            "record {} {number} {}",
            series.instrument, series.attributes
        ),
        _ => writeln!(text, "recordbound {} {number}", random.below(3)),
    }
}

/// Writes up to 60 records of these series, of which in every other batch some are odd.
fn write_batch(random: &mut Random, text: &mut String, all: &[Series]) -> Result<(), AllocError> {
    let odd = random.below(2).saturating_mul(random.below(20));
    for _ in 0..=random.below(60) {
        let place = random.below(all.len() as u64);
        let Some(series) = all.get(place as usize) else {
            return Ok(());
        };
        if random.below(100) < odd {
            write_odd(random, text, series)?;
        } else {
            write_record(random, text, series)?;
        }
    }
    Ok(())
}

/// Writes what ends a batch, at a moment.
fn write_end(random: &mut Random, text: &mut String, now: u64) -> Result<(), AllocError> {
    match random.below(8) {
        0 => writeln!(text, "unbind {}", random.below(3)),
        1 => writeln!(
            text,
            "bind {} {}",
            random.word(UNSIGNED),
            random.word(LISTS)
        ),
        2 => writeln!(text, "bind {} {}", random.word(SIGNED), random.word(LISTS)),
        3 => writeln!(text, "build 0 i64_gauge late 150\nflush"),
        4 => writeln!(text, "flush"),
        _ => writeln!(text, "collect {} {now}", random.below(3)),
    }
}

/// Eight random series.
fn eight(alloc: Global, random: &mut Random) -> Result<Vec<Series>, AllocError> {
    let mut all = Vec::new(alloc);
    for _ in 0..8 {
        all.push(series_of(random))?;
    }
    Ok(all)
}

/// A script with six batches of records of eight series, after which all readers collect.
fn script_of(alloc: Global, random: &mut Random) -> Result<String, AllocError> {
    let mut text = String::from_str(alloc, random.word(SETTINGS))?;
    text.push_str(BUILDS)?;
    let all = eight(alloc, random)?;
    for now in 200..206 {
        write_batch(random, &mut text, &all)?;
        write_end(random, &mut text, now)?;
    }
    text.push_str("collect 0 300\ncollect 1 300\ncollect 2 300\n")?;
    Ok(text)
}

/// Asserts that a script prints the same if a worker hands in its records.
fn assert_same(rt: &impl Abort, alloc: Global, script: &str) {
    let wanted = outcome_of(alloc, script.as_bytes());
    let output = printed_by_worker(rt, alloc, script);
    assert!(rt; wanted.output.as_slice() == output.as_slice(), "{script}");
}

/// How many random scripts are made. `tools/many_batches` makes more.
const SCRIPTS: u64 = 5;

/// With which numbers the generator starts.
const SEED: u64 = 1;

/// Random scripts print the same if a worker hands in their records.
#[test]
fn random_batches(rt: HostRuntime) -> Result<(), Fail> {
    let mut random = Random { state: SEED };
    for _ in 0..SCRIPTS {
        let script = script_of(rt.alloc(), &mut random)?;
        assert_same(&rt, rt.alloc(), script.as_str());
    }
    Ok(())
}
