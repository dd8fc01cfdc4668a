//! The calls that are counted, on any provider.

ghost use Rattle.std.specs.Prelude.{◌≤◌};

use opentelemetry_sdk::metrics::provider::{Call, Parts, Provider, Reply};

/// Whether a call was carried out.
fn is_made(reply: &Reply) -> bool {
    !matches!(reply, Reply::Refused(_))
}

/// Makes calls that are not counted.
pub fn prepare<P: Parts>(provider: &mut Provider<P>, calls: &[Call]) {
    for call in calls {
        let _ = provider.step(call);
    }
}

/// Makes this many calls, one after another, starting over after the last. Returns how many were carried out.
/// `measure.sh` counts the instructions of this function and of all that it calls.
#[inline(never)]
fn counted_calls<P: Parts>(provider: &mut Provider<P>, calls: &[Call], times: u64) -> u64
    ensures { result ≤ times }
{
    let mut made: u64 = 0;
    let mut place: usize = 0;
    for _ in 0..times {
        let Some(call) = calls.get(place) else {
            return made;
        };
        if is_made(&provider.step(call)) {
            made += 1;
        }
        place = if place + 1 < calls.len() {
            place + 1
        } else {
            0
        };
    }
    made
}

/// The calls that follow the first of these, or all calls if none follows.
fn following<'a>(calls: &'a [Call], all: &'a [Call]) -> &'a [Call] {
    match calls {
        [_, next @ ..] if !next.is_empty() => next,
        _ => all,
    }
}

/// Makes this many counted calls, each after the calls between, which are not counted. Returns how many of the counted
/// ones were carried out.
pub fn counted_rounds<P: Parts>(
    provider: &mut Provider<P>,
    between: &[Call],
    calls: &[Call],
    times: u64,
) -> u64
    ensures { result ≤ times }
{
    if between.is_empty() {
        return counted_calls(provider, calls, times);
    }
    let mut made: u64 = 0;
    let mut rest = calls;
    for _ in 0..times {
        prepare(provider, between);
        made += counted_calls(provider, rest, 1);
        rest = following(rest, calls);
    }
    made
}
