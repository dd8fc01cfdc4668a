//! Requests that are counted by the batch, with what a batch adds to their total as a contract.

ghost use Rattle.std.specs.Prelude.{◌≡◌, ◌+◌, ◌%◌, ◌^◌, OnOk, OnErr};
ghost use Rattle.otel_example.specs.Totals.{total_of};
ghost use Rattle.opentelemetry_sdk.specs.Providers.{state_of};
ghost use Rattle.opentelemetry_sdk.specs.Typed.{IsInstrumentOf, instrument_number};

use opentelemetry_sdk::common::{Fault, KeyValue};
use opentelemetry_sdk::metrics::meter::{Counter, keeps_identity};
use opentelemetry_sdk::metrics::provider::{Parts, Provider};

/// Counts a batch of requests at once: their total grows by as many. The counter stays one of this provider, so that
/// the next batch can be counted too.
pub fn count_batch<P: Parts>(
    provider: &mut Provider<P>,
    requests: Counter<u64>,
    number: u64,
    attributes: &[KeyValue],
) -> Result<(), Fault>
    requires { IsInstrumentOf requests provider.old }
    ensures own { IsInstrumentOf requests provider.new }
    ensures grown { OnOk result (total_of (instrument_number requests) (state_of provider.new) ≡ (total_of (instrument_number requests) (state_of provider.old) + number) % 2 ^ 64) }
    ensures unchanged { OnErr result (state_of provider.new ≡ state_of provider.old) }
{
    keeps_identity();
    requests.add(provider, number, attributes)
}
