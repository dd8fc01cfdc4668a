//! What tests do with a provider that has a reader of each sort.

use super::callbacks::{
    Observing, assert_dropped, assert_gauges, assert_in_order, assert_second_fails,
};
use super::numbers::assert_numbers;
use super::seeds::assert_replies;
use super::shutdowns::assert_shut_down;
use super::support::provider;
use super::typed::assert_used;
use super::wholes::{assert_cumulative, assert_delta};
use opentelemetry_sdk::common::Fault;
use std::alloc::Global;
use std::process::Abort;

/// What is asserted of a provider, in the file of the same name, and for those from `Dropped` on in that of callbacks.
pub enum Case {
    Numbers,
    Records,
    Handles,
    Shutdowns,
    Seeds,
    Cumulative,
    Delta(usize),
    Dropped,
    Refused,
    WithoutMemory,
    InOrder,
    Gauges,
}

/// Asserts what a case says.
fn assert_case<M: Observing>(rt: &impl Abort, alloc: Global, provider: &mut M, case: &Case) {
    match case {
        Case::Numbers => assert_numbers(rt, alloc, provider),
        Case::Records => assert_used(rt, alloc, provider, false),
        Case::Handles => assert_used(rt, alloc, provider, true),
        Case::Shutdowns => assert_shut_down(rt, alloc, provider),
        Case::Seeds => assert_replies(rt, alloc, provider),
        Case::Cumulative => assert_cumulative(rt, alloc, provider),
        Case::Delta(reader) => assert_delta(rt, alloc, provider, *reader),
        Case::Dropped => assert_dropped(rt, alloc, provider),
        Case::Refused => assert_second_fails(rt, alloc, provider, Fault::WrongKind, "refused 7\n"),
        Case::WithoutMemory => {
            assert_second_fails(rt, alloc, provider, Fault::OutOfMemory, "refused 1\n");
        }
        Case::InOrder => assert_in_order(rt, alloc, provider),
        Case::Gauges => assert_gauges(rt, alloc, provider),
    }
}

/// Asserts what a case says of a new provider of the identity 7, whose sets are hashed from a seed, if there is one.
pub fn assert_of_provider(rt: &impl Abort, alloc: Global, seed: Option<u64>, case: &Case) {
    let mut provider = provider(rt, alloc, 7, seed);
    assert_case(rt, alloc, &mut provider, case);
}
