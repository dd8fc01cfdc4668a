//! Which names, units and bounds are good, and the texts of the others; the text of attributes.

use super::support::{assert_text, repeated};
use opentelemetry_sdk::attributes;
use opentelemetry_sdk::common::Fault;
use opentelemetry_sdk::metrics::MetricError;
use opentelemetry_sdk::metrics::meter::{
    validate_bucket_boundaries, validate_instrument_name, validate_instrument_unit,
};
use std::alloc::Global;
use std::process::Abort;

/// Asserts what the check of a setting answers: `Ok`, or the error with this text.
fn assert_answer(
    rt: &impl Abort,
    alloc: Global,
    setting: &str,
    answer: Result<(), MetricError>,
    wanted: &str,
) {
    let text = match answer {
        Ok(()) => String::from_str(alloc, "Ok"),
        Err(error) => format!(in alloc; "{error}"),
    };
    let text = text.expect(rt, "memory");
    assert_eq!(rt; text.as_str(), wanted, "of {setting}");
}

/// What is checked.
pub enum Setting {
    Name,
    Unit,
}

/// Asserts what the check of each of these names or units answers, of which one is a line, repeated this many times.
pub fn assert_each(
    rt: &impl Abort,
    alloc: Global,
    setting: &Setting,
    lines: &str,
    count: usize,
    wanted: &str,
) {
    for line in lines.split('\n') {
        let text = repeated(rt, alloc, line, count);
        let answer = match setting {
            Setting::Name => validate_instrument_name(text.as_str()),
            Setting::Unit => validate_instrument_unit(Some(text.as_str())),
        };
        assert_answer(rt, alloc, line, answer, wanted);
    }
}

/// Asserts what the check of bounds answers.
fn assert_bounds(rt: &impl Abort, alloc: Global, bounds: &[i64], wanted: &str) {
    let answer = validate_bucket_boundaries(bounds);
    assert_answer(rt, alloc, "bounds", answer, wanted);
}

const UNIT_LENGTH: &str = "Invalid instrument configuration: unit must be less than 64 characters";

const UNIT_CHARACTER: &str = "Invalid instrument configuration: characters in unit must be ASCII";

const BOUNDS: &str =
    "Invalid instrument configuration: Bucket boundaries must be sorted and non-duplicate";

/// Units and bounds, each with the answer of its check.
#[test]
fn units_and_bounds(rt: HostRuntime) {
    let alloc = rt.alloc();
    assert_bounds(&rt, alloc, &[], "Ok");
    assert_bounds(&rt, alloc, &[1, 2], "Ok");
    assert_bounds(&rt, alloc, &[2, 1], BOUNDS);
    assert_bounds(&rt, alloc, &[1, 1], BOUNDS);
    assert_answer(&rt, alloc, "no unit", validate_instrument_unit(None), "Ok");
    let units = "\nkb\nKb/sec\n%";
    assert_each(&rt, alloc, &Setting::Unit, units, 1, "Ok");
    assert_each(&rt, alloc, &Setting::Unit, "0", 63, "Ok");
    assert_each(&rt, alloc, &Setting::Unit, "0", 64, UNIT_LENGTH);
    assert_each(&rt, alloc, &Setting::Unit, "utf8char锈", 1, UNIT_CHARACTER);
}

/// Attributes of each sort of value, written out.
#[test]
fn attributes_written_out(rt: HostRuntime) -> Result<(), Fault> {
    let attributes =
        attributes![in rt.alloc(); "path" => "/cart", "items" => -3i64, "paid" => true];
    let mut text = String::new(rt.alloc());
    for attribute in &attributes {
        write!(text, "{attribute} ")?;
    }
    assert_text(&rt, text.as_str(), "path=/cart items=-3 paid=true ");
    Ok(())
}
