//! A reader of a program's own.

ghost use Rattle.std.specs.Prelude.{◌≡◌, cond};
ghost use Rattle.otel_stream.specs.declared.instrument.InstrumentKind.TheVariants.{Counter};

use opentelemetry_sdk::common::{Fault, OTelSdkResult};
use opentelemetry_sdk::metrics::reader::{CardinalityLimit, MetricReader};
use opentelemetry_sdk::metrics::{Aggregation, InstrumentKind, Temporality};
use std::time::Duration;

/// Wants one temporality for counters and another for all other kinds, counts how often it is asked to flush and to
/// shut down, and may fail each time.
#[derive(Drop)]
pub struct OwnReader {
    pub counters: Temporality,
    pub others: Temporality,
    pub fails: bool,
    pub flushes: u32,
    pub shutdowns: u32,
}

impl OwnReader {
    pub fn new(counters: Temporality, others: Temporality, fails: bool) -> OwnReader {
        OwnReader {
            counters,
            others,
            fails,
            flushes: 0,
            shutdowns: 0,
        }
    }
}

impl MetricReader for OwnReader {
    ghost preference = { λ r kind. cond (⟦<InstrumentKind as PartialEq>⟧.eq kind Counter) r.counters r.others };

    ghost flushes = { λ before after outcome. after.fails ≡ before.fails };

    ghost shuts = { λ before timeout after outcome. after.fails ≡ before.fails };

    fn temporality(&self, kind: InstrumentKind) -> Temporality {
        if kind == InstrumentKind::Counter {
            self.counters
        } else {
            self.others
        }
    }

    fn cardinality_limit(&self, kind: InstrumentKind) -> Option<CardinalityLimit> {
        let _ = kind;
        None
    }

    fn default_aggregation(&self, kind: InstrumentKind) -> Option<&Aggregation> {
        let _ = kind;
        None
    }

    fn force_flush(&mut self) -> OTelSdkResult {
        self.flushes = self.flushes.saturating_add(1);
        if self.fails {
            return Err(Fault::OutOfMemory);
        }
        Ok(())
    }

    fn shutdown_with_timeout(&mut self, timeout: Duration) -> OTelSdkResult {
        let _ = timeout;
        self.shutdowns = self.shutdowns.saturating_add(1);
        if self.fails {
            return Err(Fault::OutOfMemory);
        }
        Ok(())
    }
}
