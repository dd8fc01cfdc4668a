//! Flushes and shutdowns.

use super::cases::{Case, assert_of_provider};
use super::metered::{Metered, Request};
use super::support::{assert_text, build_faults, fault_of};
use opentelemetry_sdk::error::SdkError;
use opentelemetry_sdk::metrics::reader::CardinalityLimit;
use std::alloc::Global;
use std::process::Abort;

/// Makes a limit, and shuts a provider down.
fn limited<M: Metered>(provider: &mut M, limit: usize) -> Result<(), SdkError> {
    let _ = CardinalityLimit::new(limit)?;
    Ok(provider.request(&Request::Shutdown)?)
}

/// Asserts what comes of flushes and shutdowns, and with which text a limit and a second shutdown are refused. After a
/// shutdown a meter has no number, and its instruments are built all the same.
pub fn assert_shut_down<M: Metered>(rt: &impl Abort, alloc: Global, provider: &mut M) {
    let faults = [
        fault_of(provider.request(&Request::Flush)),
        fault_of(provider.request(&Request::TimedShutdown)),
        fault_of(provider.request(&Request::Flush)),
    ];
    let limit = limited(provider, 0).expect_err(rt, "a limit");
    let again = limited(provider, 1).expect_err(rt, "a shutdown");
    let late = provider.meter_named("late").expect(rt, "a meter");
    let built = build_faults(rt, alloc, provider, late);
    let text = format!(in alloc; "{faults:?}\n{limit}\n{again}\n{built:?}");
    let wanted = "[0, 0, 8]\nCardinality limit must be greater than 0\nalready shut down\n[0, 0]";
    assert_text(rt, text.expect(rt, "memory").as_str(), wanted);
}

/// A provider is shut down once. One error holds faults of streams and of calls.
#[test]
fn shutdowns(rt: HostRuntime) {
    assert_of_provider(&rt, rt.alloc(), None, &Case::Shutdowns);
}
