//! Instruments, as readers and views see them.

ghost use Rattle.std.specs.Prelude.{◌≡◌};
ghost use Rattle.otel_stream.specs.Preferences.{temporality_preference};

use otel_common::laws::copied_scope;
use otel_common::metrics::Temporality;
use otel_common::scopes::InstrumentationScope;
use otel_common::strings::StringValue;
use std::alloc::AllocError;

/// The kind of an instrument: how its values are reported and what becomes of them (Metrics API, "Instrument").
#[derive(Clone, Copy, Debug, PartialEq, Eq, Hash)]
pub enum InstrumentKind {
    /// Adds values that are never negative.
    Counter,
    /// Adds values of either sign.
    UpDownCounter,
    /// Keeps the distribution of values.
    Histogram,
    /// A counter whose sums are observed at each collection.
    ObservableCounter,
    /// An up-down counter whose sums are observed at each collection.
    ObservableUpDownCounter,
    /// Keeps the last value.
    Gauge,
    /// A gauge whose values are observed at each collection.
    ObservableGauge,
}

impl InstrumentKind {
    /// Returns the temporality that a reader of this temporality prefers for the kind. `Cumulative` means cumulative
    /// for all kinds, `Delta` means delta for all but the two up-down kinds, and `LowMemory` means delta for `Counter`
    /// and `Histogram` alone (Metrics SDK, "MetricReader"). Takes no memory.
    pub fn temporality_preference(self, temporality: Temporality) -> Temporality
        ensures { result ≡ temporality_preference self temporality }
    {
        match temporality {
            Temporality::Cumulative => Temporality::Cumulative,
            Temporality::Delta => self.delta_preference(),
            Temporality::LowMemory => self.low_memory_preference(),
        }
    }

    fn delta_preference(self) -> Temporality
        ensures { result ≡ temporality_preference self Temporality.Delta }
    {
        match self {
            InstrumentKind::UpDownCounter => Temporality::Cumulative,
            InstrumentKind::ObservableUpDownCounter => Temporality::Cumulative,
            InstrumentKind::Counter => Temporality::Delta,
            InstrumentKind::Histogram => Temporality::Delta,
            InstrumentKind::ObservableCounter => Temporality::Delta,
            InstrumentKind::Gauge => Temporality::Delta,
            InstrumentKind::ObservableGauge => Temporality::Delta,
        }
    }

    fn low_memory_preference(self) -> Temporality
        ensures { result ≡ temporality_preference self Temporality.LowMemory }
    {
        match self {
            InstrumentKind::Counter => Temporality::Delta,
            InstrumentKind::Histogram => Temporality::Delta,
            InstrumentKind::UpDownCounter => Temporality::Cumulative,
            InstrumentKind::ObservableCounter => Temporality::Cumulative,
            InstrumentKind::ObservableUpDownCounter => Temporality::Cumulative,
            InstrumentKind::Gauge => Temporality::Cumulative,
            InstrumentKind::ObservableGauge => Temporality::Cumulative,
        }
    }
}

/// An instrument, as views see it (Metrics SDK, "Instrument selection criteria").
#[derive(Debug, PartialEq)]
pub struct Instrument {
    /// The name, as it was given.
    pub name: StringValue,
    /// What the instrument is for; empty if no description was given.
    pub description: StringValue,
    /// The kind of instrument.
    pub kind: InstrumentKind,
    /// The unit of its values; empty if none was given.
    pub unit: StringValue,
    /// The scope of its meter.
    pub scope: InstrumentationScope,
}

impl Drop for Instrument {
    /// A function of its own, so that no proof about who lets one go looks into it.
    fn drop(self) {
        let Instrument {
            name: _name,
            description: _description,
            kind: _,
            unit: _unit,
            scope: _scope,
        } = self;
    }
}

impl Instrument {
    /// The name, as it was given.
    pub fn name(&self) -> &str
        ensures { result.now ≡ self.now.name }
    {
        self.name.as_str()
    }

    /// The kind of instrument.
    pub fn kind(&self) -> InstrumentKind
        ensures { result ≡ self.now.kind }
    {
        self.kind
    }

    /// The unit of its values; empty if none was given.
    pub fn unit(&self) -> &str
        ensures { result.now ≡ self.now.unit }
    {
        self.unit.as_str()
    }

    /// The scope of its meter.
    pub fn scope(&self) -> &InstrumentationScope
        ensures { result.now ≡ self.now.scope }
    {
        &self.scope
    }
}

impl Clone for Instrument {
    ghost is_clone = { λ s t. t ≡ s };

    fn clone(&self) -> Result<Instrument, AllocError> {
        copied_scope();
        Ok(Instrument {
            name: self.name.clone()?,
            description: self.description.clone()?,
            kind: self.kind,
            unit: self.unit.clone()?,
            scope: self.scope.clone()?,
        })
    }
}
