//! The seed of the hashes.

use super::cases::{Case, assert_of_provider};
use super::metered::Metered;
use super::shown::write_collection;
use super::support::{assert_text, attributes, string};
use opentelemetry_sdk::common::{InstrumentationScope, Items, StringValue};
use opentelemetry_sdk::metrics::provider::{Call, InstrumentSort, NumberValue, Reply};
use std::alloc::Global;
use std::process::Abort;

/// The request for the meter of this name.
fn meter_call(rt: &impl Abort, alloc: Global, name: &str) -> Call {
    let scope = InstrumentationScope::builder(alloc, string(rt, alloc, name));
    Call::Meter {
        scope: scope.build().expect(rt, "memory"),
    }
}

/// The call that a line says, of the first meter, its first counter and the first handle: `meter NAME`, `build NAME UNIT`
/// at 100, `record VALUE ATTRIBUTES`, `bind ATTRIBUTES`, `through VALUE`, or `collect` by the delta reader.
pub fn call(rt: &impl Abort, alloc: Global, line: &str) -> Call {
    let (word, rest) = line.split_once(' ').unwrap_or((line, ""));
    let (first, last) = rest.split_once(' ').unwrap_or((rest, ""));
    let value = NumberValue::U64(first.parse().unwrap_or(0));
    match word {
        "meter" => meter_call(rt, alloc, rest),
        "build" => Call::Build {
            meter: Some(0),
            sort: InstrumentSort::U64Counter,
            name: StringValue::from(string(rt, alloc, first)),
            description: None,
            unit: Some(StringValue::from(string(rt, alloc, last))),
            boundaries: None,
            now: 100,
        },
        "record" => Call::Record {
            instrument: 0,
            value,
            attributes: attributes(rt, alloc, last).into(),
        },
        "bind" => Call::Bind {
            instrument: 0,
            attributes: Items::from(attributes(rt, alloc, rest)),
        },
        "through" => Call::RecordBound { handle: 0, value },
        _ => Call::Collect {
            reader: 1,
            now: 200,
            observations: Items::from(Vec::new(alloc)),
        },
    }
}

/// The build of a counter of a meter; records of three sets, of which one comes in two orders and one through a handle;
/// and a collection.
const CALLS: &str = "meter app\n\
     build requests\n\
     record 1 b=1 a=2\n\
     record 2 c=1\n\
     bind d=1\n\
     record 4 a=2 b=1\n\
     through 8\n\
     collect";

const REPLIES: &str = "Meter(Some(0))\n\
     Instrument(0)\n\
     Done\n\
     Done\n\
     Handle(0)\n\
     Done\n\
     Done\n\
     resource -\n\
     scope app - -\n\
     metric requests ()  u64 sum Delta monotonic=true 100 200 exemplars=0 exemplars=0 exemplars=0\n\
     requests a=2 b=1: 5\n\
     requests c=1: 2\n\
     requests d=1: 8\n";

/// Writes replies as text.
pub fn write_replies(rt: &impl Abort, text: &mut String, replies: &[Reply]) {
    for reply in replies {
        match reply {
            Reply::Collected(collected) => write_collection(rt, text, collected),
            other => writeln!(text, "{other:?}").expect(rt, "memory"),
        }
    }
}

/// Makes the calls, and asserts the replies.
pub fn assert_replies<M: Metered>(rt: &impl Abort, alloc: Global, provider: &mut M) {
    let mut calls = Vec::new(alloc);
    for line in CALLS.lines() {
        calls.push(call(rt, alloc, line)).expect(rt, "memory");
    }
    let replies = provider.call_each(alloc, calls.as_slice());
    let replies = replies.expect(rt, "replies");
    let mut text = String::new(alloc);
    write_replies(rt, &mut text, replies.as_slice());
    assert_text(rt, text.as_str(), REPLIES);
}

/// No reply depends on the seed of the hashes.
#[test]
fn seeds(rt: HostRuntime) {
    assert_of_provider(&rt, rt.alloc(), None, &Case::Seeds);
    assert_of_provider(&rt, rt.alloc(), Some(7), &Case::Seeds);
}
