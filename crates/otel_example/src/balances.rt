//! What a provider keeps between calls, for a function that may make none.

ghost use Rattle.opentelemetry_sdk.specs.Lawful.{Balances};
ghost use Rattle.opentelemetry_sdk.specs.Providers.{state_of};

use opentelemetry_sdk::common::Fault;
use opentelemetry_sdk::metrics::meter::Counter;
use opentelemetry_sdk::metrics::provider::{Parts, Provider};

/// Counts requests, if there are any. Whether or not there are, the provider's streams balance.
pub fn count_any<P: Parts>(
    provider: &mut Provider<P>,
    requests: Counter<u64>,
    number: u64,
) -> Result<(), Fault>
    ensures { Balances (state_of provider.new) }
{
    if number == 0 {
        // Says what is known of a provider before a call.
        provider.balances();
        return Ok(());
    }
    requests.add(provider, number, &[])
}
