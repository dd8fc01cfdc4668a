//! The interface of readers.

ghost use Rattle.std.specs.Duration.{as_nanos};
ghost use Rattle.std.specs.Prelude.{◌≡◌, ℕ, Option, None, option_copied};
ghost use Rattle.otel_common.specs.declared.metrics.Aggregation.{Aggregation};
ghost use Rattle.otel_common.specs.declared.metrics.Temporality.{Temporality};
ghost use Rattle.otel_stream.specs.Requests.{Outcome, default_timeout};
ghost use Rattle.otel_stream.specs.declared.instrument.InstrumentKind.{InstrumentKind};

use crate::instrument::InstrumentKind;
use crate::limit::CardinalityLimit;
use otel_common::faults::OTelSdkResult;
use otel_common::metrics::{Aggregation, Temporality};
use std::time::Duration;

/// The timeout, in seconds, of a shutdown for which none is given.
const SHUTDOWN_SECONDS: u64 = 5;

/// A reader, for which a provider makes collections (Metrics SDK, "MetricReader").
///
/// A provider asks a reader once for each kind of instrument, when the reader is handed in, and keeps the answers. At a
/// flush and at a shutdown it asks all its readers. What a reader does then is up to the reader, but no call changes
/// what it wants.
pub trait MetricReader: Drop + Send {
    /// The temporality that the reader wants for each kind of instrument.
    ghost preference: { Self → InstrumentKind → Temporality };

    /// The limit that the reader wants for each kind of instrument, if it wants one.
    ghost limit: { Self → InstrumentKind → Option ℕ } = { λ _ _. None };

    /// The aggregation that the reader wants for each kind of instrument, if it wants one.
    ghost aggregation: { Self → InstrumentKind → Option Aggregation } = { λ _ _. None };

    /// What a flush makes of the reader: the reader before, the one after, and the answer.
    ghost flushes: { Self → Self → Outcome → Type 0 };

    /// What a shutdown makes of the reader: the reader before, the timeout in nanoseconds, the reader after, and the
    /// answer.
    ghost shuts: { Self → ℕ → Self → Outcome → Type 0 };

    /// The temporality that the reader wants for a kind of instrument.
    fn temporality(&self, kind: InstrumentKind) -> Temporality
        ensures { result ≡ preference self.now kind };

    /// The limit that the reader wants for a kind of instrument, or `None` to leave the limit to the provider (Metrics
    /// SDK, "Cardinality limits").
    ///
    /// A reader that has no limits answers `None` for each kind, and needs no `limit`.
    fn cardinality_limit(&self, kind: InstrumentKind) -> Option<CardinalityLimit>
        ensures { result ≡ limit self.now kind };

    /// The aggregation that the reader wants for a kind of instrument, or `None` to leave the aggregation to the kind
    /// (Metrics SDK, "MetricReader"). A provider keeps a copy of it.
    ///
    /// A reader that has no aggregations answers `None` for each kind, and needs no `aggregation`.
    fn default_aggregation(&self, kind: InstrumentKind) -> Option<&Aggregation>
        ensures { option_copied result ≡ aggregation self.now kind };

    /// Passes on what is pending (Metrics SDK, "ForceFlush"). A reader that fails answers a fault of its own, which a
    /// provider counts.
    fn force_flush(&mut self) -> OTelSdkResult
        ensures flushed { flushes self.old self.new result }
        ensures temporality { preference self.new ≡ preference self.old }
        ensures limit { limit self.new ≡ limit self.old }
        ensures aggregation { aggregation self.new ≡ aggregation self.old };

    /// Passes on what is pending and ends, if it can within the timeout (Metrics SDK, "Shutdown"). A reader that fails
    /// answers a fault of its own.
    fn shutdown_with_timeout(&mut self, timeout: Duration) -> OTelSdkResult
        ensures shut { shuts self.old (as_nanos timeout) self.new result }
        ensures temporality { preference self.new ≡ preference self.old }
        ensures limit { limit self.new ≡ limit self.old }
        ensures aggregation { aggregation self.new ≡ aggregation self.old };

    /// Shuts down with a timeout of 5 seconds. This is the one that a provider calls.
    fn shutdown(&mut self) -> OTelSdkResult
        ensures shut { shuts self.old default_timeout self.new result }
        ensures temporality { preference self.new ≡ preference self.old }
        ensures limit { limit self.new ≡ limit self.old }
        ensures aggregation { aggregation self.new ≡ aggregation self.old }
    {
        self.shutdown_with_timeout(Duration::from_secs(SHUTDOWN_SECONDS))
    }
}
