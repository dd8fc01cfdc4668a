//! Worked rows that no script can say.

use super::refusing::assert_run_of_failing;
use super::resources::{Way, assert_made};
use super::support::assert_text;
use super::texts::{Setting, assert_each};
use opentelemetry_sdk::metrics::instrument::{Stream, StreamFault};
use opentelemetry_sdk::metrics::provider::Call;
use std::alloc::Global;
use std::process::Abort;

/// With three readers, of which two fail, the provider is shut down all the same.
#[test]
fn row_26(rt: HostRuntime) {
    let calls = &[Call::Shutdown, Call::Shutdown];
    let wanted = "Refused(InternalFailure(Readers { failed: 2, first: 1 }))\n\
         Refused(AlreadyShutdown)\n\
         | 0 1 | 0 1 | 0 1 ";
    assert_run_of_failing(&rt, rt.alloc(), &[false, true, true], calls, wanted);
}

const EMPTY: &str = "Invalid instrument configuration: name must be non-empty";

const LENGTH: &str = "Invalid instrument configuration: name must be less than 256 characters";

const FIRST: &str =
    "Invalid instrument configuration: name must start with an alphabetic character";

const CHARACTER: &str =
    "Invalid instrument configuration: characters in name must be ASCII and belong to the alphanumeric characters, '_', '.', '-' and '/'";

/// Why a stream with this limit is refused, if it is.
fn limit_fault(limit: usize) -> Option<StreamFault> {
    match Stream::builder().with_cardinality_limit(limit).build() {
        Ok(_) => None,
        Err(fault) => Some(fault),
    }
}

/// Asserts which limits of streams are refused.
fn assert_limits(rt: &impl Abort, alloc: Global) {
    let faults = [
        limit_fault(0),
        limit_fault(usize::MAX),
        limit_fault(usize::MAX - 1),
    ];
    let text = format!(in alloc; "{faults:?}").expect(rt, "memory");
    assert_text(rt, text.as_str(), "[Some(LimitZero), Some(LimitMax), None]");
}

/// Names that start badly.
const BADLY_STARTED: &str = "_x\n\
     /not / allowed\n\
     _startWithNoneAlphabet\n\
     \\allow\\slash /sec\n\
     \\allow\\$$slash /sec\n\
     \\test\\UsagePercent(Total) > 80%";

/// Names of instruments, each with the answer of its check, and limits of streams.
#[test]
fn row_16(rt: HostRuntime) {
    let alloc = rt.alloc();
    assert_limits(&rt, alloc);
    assert_each(&rt, alloc, &Setting::Name, "", 1, EMPTY);
    assert_each(&rt, alloc, &Setting::Name, "a", 255, "Ok");
    assert_each(&rt, alloc, &Setting::Name, "a", 256, LENGTH);
    assert_each(&rt, alloc, &Setting::Name, BADLY_STARTED, 1, FIRST);
    let good = "validateName\nallow/slash\nallow_under_score\nallow.dots.ok";
    assert_each(&rt, alloc, &Setting::Name, good, 1, "Ok");
    let bad = "Total $ Count\nutf8char锈\ninvalid name";
    assert_each(&rt, alloc, &Setting::Name, bad, 1, CHARACTER);
}

#[test]
fn row_20(rt: HostRuntime) {
    assert_made(
        &rt,
        rt.alloc(),
        "a= b=b-value d=d-value u1 | a=a-value c=c-value d= u2 | a=a-value b=b-value c=c-value d= -\n\
         a= b=b-value d=d-value - | a=a-value c=c-value d= u2 | a=a-value b=b-value c=c-value d= u2\n\
         a= b=b-value d=d-value u1 | a=a-value c=c-value d= - | a=a-value b=b-value c=c-value d= u1",
        &Way::Merged,
    );
}
