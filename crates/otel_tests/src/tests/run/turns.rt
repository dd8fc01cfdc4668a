//! The order in which readers are asked.

ghost use Rattle.std.specs.Prelude.{◌≡◌, Ok};
ghost use Rattle.otel_common.specs.declared.metrics.Temporality.TheVariants.{Cumulative};

use super::support::assert_text;
use opentelemetry_sdk::common::OTelSdkResult;
use opentelemetry_sdk::metrics::callback::NoCallback;
use opentelemetry_sdk::metrics::instrument::SelectorView;
use opentelemetry_sdk::metrics::provider::{Parts, Provider};
use opentelemetry_sdk::metrics::reader::{CardinalityLimit, MetricReader};
use opentelemetry_sdk::metrics::{Aggregation, InstrumentKind, Temporality};
use std::alloc::Global;
use std::fmt;
use std::process::Abort;
use std::sync::Arc;
use std::sync::atomic::{AtomicU64, Ordering};
use std::time::Duration;

/// Notes whose turn it was, counted over all readers with the same count, when it is asked to flush and to shut down.
#[derive(Drop)]
struct Turned {
    turns: Arc<AtomicU64, Global>,
    flush: u64,
    shutdown: u64,
}

impl MetricReader for Turned {
    ghost preference = { λ _ _. Cumulative };

    ghost flushes = { λ before after outcome. outcome ≡ Ok tt };

    ghost shuts = { λ before timeout after outcome. outcome ≡ Ok tt };

    fn temporality(&self, kind: InstrumentKind) -> Temporality {
        let _ = kind;
        Temporality::Cumulative
    }

    fn cardinality_limit(&self, kind: InstrumentKind) -> Option<CardinalityLimit> {
        let _ = kind;
        None
    }

    fn default_aggregation(&self, kind: InstrumentKind) -> Option<&Aggregation> {
        let _ = kind;
        None
    }

    fn force_flush(&mut self) -> OTelSdkResult {
        self.flush = self.turns.fetch_add(1, Ordering::SeqCst);
        Ok(())
    }

    fn shutdown_with_timeout(&mut self, timeout: Duration) -> OTelSdkResult {
        let _ = timeout;
        self.shutdown = self.turns.fetch_add(1, Ordering::SeqCst);
        Ok(())
    }
}

/// Such readers, without views and callbacks.
struct Turns;

impl Parts for Turns {
    type View = SelectorView;

    type Reader = Turned;

    type ObserveU64 = NoCallback;

    type ObserveI64 = NoCallback;
}

/// A provider with three readers that share a count.
fn three(rt: &impl Abort, alloc: Global) -> Provider<Turns> {
    let turns = Arc::new(alloc, AtomicU64::new(0)).expect(rt, "memory");
    let mut builder = Provider::builder(alloc);
    for _ in 0..3 {
        let reader = Turned {
            turns: turns.clone().expect(rt, "memory"),
            flush: 9,
            shutdown: 9,
        };
        builder = builder.with_reader(reader).expect(rt, "a reader");
    }
    builder.build().expect(rt, "a provider")
}

/// Writes the turns of readers.
fn write_turns(text: &mut String, readers: &[Turned]) -> Result<(), fmt::Error> {
    for reader in readers {
        write!(text, "{} {} | ", reader.flush, reader.shutdown)?;
    }
    Ok(())
}

/// A flush and a shutdown ask readers in the order in which they were added.
#[test]
fn readers_are_asked_in_order(rt: HostRuntime) {
    let alloc = rt.alloc();
    let mut provider = three(&rt, alloc);
    provider.force_flush().expect(&rt, "a flush");
    provider.shutdown().expect(&rt, "a shutdown");
    let mut text = String::new(alloc);
    write_turns(&mut text, provider.readers()).expect(&rt, "memory");
    assert_text(&rt, text.as_str(), "0 3 | 1 4 | 2 5 | ");
}
