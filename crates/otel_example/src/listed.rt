//! Requests that are counted by a list of calls, with what the list adds to a total as a contract.

ghost use Rattle.std.specs.Prelude.{◌≡◌, ◌+◌, ◌%◌, ◌^◌, ℕ, map, IfOk, OnErr};
ghost use Rattle.otel_example.specs.Totals.{total_of, IsRecord, AreRecords, done_at};
ghost use Rattle.opentelemetry_sdk.specs.Correspondence.{call_of, reply_of};
ghost use Rattle.opentelemetry_sdk.specs.Providers.{state_of, views_of};
ghost use Rattle.opentelemetry_sdk.specs.Steps.{Run};

use crate::calls::{counter, print_collection};
use crate::parts::provider_with;
use anyhow::Error;
use opentelemetry_sdk::common::Fault;
use opentelemetry_sdk::metrics::provider::{Call, NumberValue, Parts, Provider, Reply};
use std::alloc::Global;

/// Makes records, one after another: the total of each instrument grows by the values of those of its records that were
/// answered `Done`.
pub fn make_records<P: Parts>(
    provider: &mut Provider<P>,
    alloc: Global,
    records: &[Call],
) -> Result<Vec<Reply>, Fault>
    requires { AreRecords (map call_of records.now) }
    ensures run { IfOk result (λ replies. Run (views_of P.View.answer provider.old) (state_of provider.old) (map call_of records.now) (map reply_of replies.items) (state_of provider.new)) }
    ensures grown { IfOk result (λ replies. (n : ℕ) → total_of n (state_of provider.new) % 2 ^ 64 ≡ (total_of n (state_of provider.old) + done_at n (map call_of records.now) (map reply_of replies.items)) % 2 ^ 64) }
    ensures unmade { OnErr result (state_of provider.new ≡ state_of provider.old) }
{
    provider.run(alloc, records)
}

/// A record of a number of requests at an instrument.
fn record_at(alloc: Global, instrument: usize, number: u64) -> Call
    ensures { IsRecord (call_of result) }
{
    Call::Record {
        instrument,
        value: NumberValue::U64(number),
        attributes: Vec::new(alloc).into(),
    }
}

/// Counts requests by a list of records, one of which is refused, and prints the replies and how many requests there
/// were.
fn count_list<P: Parts>(
    rt: &impl Print,
    alloc: Global,
    provider: &mut Provider<P>,
) -> Result<(), Error> {
    let requests = counter(alloc, provider, "shop", "requests", 100)?.number();
    let records = [
        record_at(alloc, requests, 40),
        record_at(alloc, usize::MAX, 7),
        record_at(alloc, requests, 2),
    ];
    for reply in &make_records(provider, alloc, &records)? {
        print!(rt; "{reply:?}\n")?;
    }
    print_collection(rt, provider, 200)
}

/// Requests that are counted by a list.
pub fn with_list<P: Parts>(rt: &impl Print, alloc: Global, reader: P::Reader) -> Result<(), Error> {
    let mut provider = provider_with::<P>(alloc, reader, Vec::new(alloc))?;
    count_list(rt, alloc, &mut provider)
}
