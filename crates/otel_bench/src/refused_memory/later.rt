//! What a provider answers after the call under test, as text.

use crate::refused_memory::set_up::calls_of;
use crate::refused_memory::trials::Trial;
use anyhow::{Error, bail};
use opentelemetry_sdk::common::Fault;
use opentelemetry_sdk::metrics::data::ResourceMetrics;
use opentelemetry_sdk::metrics::provider::{Parts, Provider, Reply};

/// Calls after the call under test: collections of each reader, records, observations and binds of known and of new sets,
/// so that the room is used that a refused call may have made, and further collections.
const LATER: &str = "\
collect 0 250
collect 1 250
collect 2 250
record 0 u:100 a=i:1
record 0 u:100 z=i:9
record 1 i:100 b=s:new
record 2 u:100 a=i:1
record 2 u:100 z=i:9
record 3 u:100 z=i:9
record 4 i:100 a=i:1
record 5 u:100 z=i:9
recordbound 0 u:100
recordbound 1 u:100
recordbound 2 u:100
observe 6 u:200 a=i:1
observe 7 i:200 z=i:9
observe 8 u:200 a=i:1
observe 9 i:200 z=i:9
collect 0 300
collect 1 300
collect 2 300
unbind 1
meter late
build 0 u64_counter more 310
build 0 u64_counter late 310
build 1 u64_counter late 310
bind 0 y=i:9
bind 3 z=i:9
record 3 u:100 y=i:9
record 3 u:100 a=i:1
record 4 i:100 y=i:9
record 4 i:100 a=i:1
record 13 u:100 a=i:1
record 14 u:100 a=i:1
record 15 u:100 a=i:1
record 16 u:100 a=i:1
recordbound 3 u:100
bind 1 b=i:7
bind 2 b=i:7
bind 4 b=i:7
bind 5 b=i:7
bind 13 b=i:7
collect 0 400
collect 1 400
collect 2 400
collect 1 500";

/// Calls after the collections that follow these.
const LAST: &str = "\
flush
shutdown
collect 0 700
record 0 u:100 a=i:1
meter last";

/// Makes the calls of these lines, and writes the replies.
fn write_lines<R, P: Parts>(
    trial: &mut Trial<R>,
    provider: &mut Provider<P>,
    lines: &str,
) -> Result<(), Error> {
    for call in &calls_of(trial.alloc, lines)? {
        let reply = provider.step(call);
        if let Reply::Refused(Fault::OutOfMemory) = reply {
            bail!("a later call was refused");
        }
        trial.write(&reply)?;
    }
    Ok(())
}

/// Writes what a provider answers later, and what it collects with callbacks.
pub fn write_later<R: Print, P: Parts>(
    trial: &mut Trial<R>,
    provider: &mut Provider<P>,
) -> Result<(), Error> {
    write_lines(trial, provider, LATER)?;
    let mut metrics = ResourceMetrics::default(trial.alloc);
    for reader in &[0, 1, 2, 1] {
        let answer = provider.collect(*reader, 600, &mut metrics);
        trial.write(&answer)?;
        trial.write(&metrics)?;
    }
    write_lines(trial, provider, LAST)?;
    trial.mark()?;
    Ok(())
}
