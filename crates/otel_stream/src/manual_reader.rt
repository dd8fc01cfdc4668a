//! The reader that collects when its owner asks.

ghost use Rattle.std.specs.Prelude.{◌≡◌, Ok, Some, false};
ghost use Rattle.otel_common.specs.declared.metrics.Temporality.TheVariants.{Cumulative};
ghost use Rattle.otel_stream.specs.Answers.{kind_eq};
ghost use Rattle.otel_stream.specs.Preferences.{temporality_preference};
ghost use Rattle.otel_stream.specs.Wants.{temporality_alone, limit_of, aggregation_of};
ghost use Rattle.otel_stream.specs.declared.instrument.InstrumentKind.{InstrumentKind};

use crate::instrument::InstrumentKind;
use crate::limit::CardinalityLimit;
use crate::reader::MetricReader;
use crate::wants::Wants;
use otel_common::faults::OTelSdkResult;
use otel_common::metrics::{Aggregation, Temporality};
use std::fmt::{self, Debug, Formatter, Write};
use std::marker::Model;
use std::time::Duration;

/// A reader that collects when its owner asks (Metrics SDK, "MetricReader"). It has one temporality, and wants for each
/// kind of instrument what `InstrumentKind::temporality_preference` says of it. It may also want a limit and an
/// aggregation for each kind. Contracts see it as what it wants.
#[derive(Drop)]
pub struct ManualReader {
    wants: Wants,
}

/// A builder of a `ManualReader`. Contracts see it as what the reader will want.
#[derive(Drop)]
pub struct ManualReaderBuilder {
    wants: Wants,
}

impl Model for ManualReader {
    ghost use Rattle.otel_stream.specs.declared.wants.Wants.{Wants};

    ghost Value = { Wants };

    ghost view = { λ r. r.wants };
}

impl Model for ManualReaderBuilder {
    ghost use Rattle.otel_stream.specs.declared.wants.Wants.{Wants};

    ghost Value = { Wants };

    ghost view = { λ b. b.wants };
}

impl ManualReader {
    /// Returns a builder of a cumulative reader, without limits and aggregations. Takes no memory.
    pub fn builder() -> ManualReaderBuilder
        ensures { result ≡ temporality_alone Cumulative }
    {
        ManualReaderBuilder::new()
    }
}

/// The default reader is cumulative, without limits and aggregations.
impl Default for ManualReader {
    ghost is_default = { λ r. r ≡ temporality_alone Cumulative };

    fn default() -> ManualReader {
        ManualReader {
            wants: Wants::new(Temporality::Cumulative),
        }
    }
}

impl Debug for ManualReader {
    fn fmt<W: Write>(&self, f: &mut Formatter<W>) -> fmt::Result {
        f.write_str("ManualReader")
    }
}

impl MetricReader for ManualReader {
    ghost preference = { λ r kind. temporality_preference kind r.temporality };

    ghost limit = { limit_of };

    ghost aggregation = { aggregation_of };

    ghost flushes = { λ before after outcome. (after ≡ before) × (outcome ≡ Ok tt) };

    ghost shuts = { λ before timeout after outcome. (after ≡ before) × (outcome ≡ Ok tt) };

    fn temporality(&self, kind: InstrumentKind) -> Temporality {
        kind.temporality_preference(self.wants.temporality)
    }

    fn cardinality_limit(&self, kind: InstrumentKind) -> Option<CardinalityLimit> {
        *self.wants.limits.get(kind)
    }

    fn default_aggregation(&self, kind: InstrumentKind) -> Option<&Aggregation> {
        self.wants.aggregations.get(kind).as_ref()
    }

    /// Does nothing: what is pending stays with the provider until it is collected.
    fn force_flush(&mut self) -> OTelSdkResult {
        Ok(())
    }

    /// Does nothing.
    fn shutdown_with_timeout(&mut self, timeout: Duration) -> OTelSdkResult {
        let _ = timeout;
        Ok(())
    }
}

impl ManualReaderBuilder {
    /// Makes a builder of a cumulative reader, without limits and aggregations. Takes no memory.
    pub fn new() -> ManualReaderBuilder
        ensures { result ≡ temporality_alone Cumulative }
    {
        ManualReaderBuilder {
            wants: Wants::new(Temporality::Cumulative),
        }
    }

    /// Sets the temporality, in place of the one before. Limits and aggregations stay. Takes no memory.
    pub fn with_temporality(self, temporality: Temporality) -> ManualReaderBuilder
        ensures temporality { result.temporality ≡ temporality }
        ensures limits { result.limits ≡ self.limits }
        ensures aggregations { result.aggregations ≡ self.aggregations }
    {
        let mut builder = self;
        builder.wants.temporality = temporality;
        builder
    }

    /// Sets the limit for a kind of instrument (Metrics SDK, "Cardinality limits"). The last one given for a kind
    /// counts. Takes no memory.
    pub fn with_cardinality_limit(
        self,
        kind: InstrumentKind,
        limit: CardinalityLimit,
    ) -> ManualReaderBuilder
        ensures given { limit_of result kind ≡ Some limit }
        ensures others { (other : InstrumentKind) → kind_eq other kind ≡ false → limit_of result other ≡ limit_of self other }
        ensures temporality { result.temporality ≡ self.temporality }
        ensures aggregations { result.aggregations ≡ self.aggregations }
    {
        let mut builder = self;
        builder.wants.limits.set(kind, Some(limit));
        builder
    }

    /// Sets the aggregation for a kind of instrument (Metrics SDK, "MetricReader"). The last one given for a kind
    /// counts. Takes no memory.
    pub fn with_default_aggregation(
        self,
        kind: InstrumentKind,
        aggregation: Aggregation,
    ) -> ManualReaderBuilder
        ensures given { aggregation_of result kind ≡ Some aggregation }
        ensures others { (other : InstrumentKind) → kind_eq other kind ≡ false → aggregation_of result other ≡ aggregation_of self other }
        ensures temporality { result.temporality ≡ self.temporality }
        ensures limits { result.limits ≡ self.limits }
    {
        let mut builder = self;
        builder.wants.aggregations.set(kind, Some(aggregation));
        builder
    }

    /// Builds the reader. Takes no memory.
    pub fn build(self) -> ManualReader
        ensures { result ≡ self }
    {
        ManualReader { wants: self.wants }
    }
}

/// The default builder is that of a cumulative reader, without limits and aggregations.
impl Default for ManualReaderBuilder {
    ghost is_default = { λ b. b ≡ temporality_alone Cumulative };

    fn default() -> ManualReaderBuilder {
        ManualReaderBuilder::new()
    }
}

impl Debug for ManualReaderBuilder {
    fn fmt<W: Write>(&self, f: &mut Formatter<W>) -> fmt::Result {
        f.write_str("ManualReaderBuilder")
    }
}
