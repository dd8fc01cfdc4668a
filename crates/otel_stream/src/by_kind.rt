//! A value for each kind of instrument.

ghost use Rattle.std.specs.Prelude.{◌≡◌, false};
ghost use Rattle.otel_stream.specs.Answers.{kind_eq};
ghost use Rattle.otel_stream.specs.ByKind.{at_kind, for_no_kind};
ghost use Rattle.otel_stream.specs.declared.instrument.InstrumentKind.{InstrumentKind};

use crate::instrument::InstrumentKind;

/// A value for each kind of instrument.
pub(crate) struct ByKind<T> {
    pub(crate) counter: T,
    pub(crate) up_down_counter: T,
    pub(crate) histogram: T,
    pub(crate) observable_counter: T,
    pub(crate) observable_up_down_counter: T,
    pub(crate) gauge: T,
    pub(crate) observable_gauge: T,
}

impl<T: Drop> Drop for ByKind<T> {
    /// A function of its own, so that no proof about who lets one go looks into it.
    fn drop(self) {
        let ByKind {
            counter: _counter,
            up_down_counter: _up_down_counter,
            histogram: _histogram,
            observable_counter: _observable_counter,
            observable_up_down_counter: _observable_up_down_counter,
            gauge: _gauge,
            observable_gauge: _observable_gauge,
        } = self;
    }
}

impl<T> ByKind<Option<T>> {
    /// No value for any kind.
    pub(crate) fn none() -> ByKind<Option<T>>
        ensures { result ≡ for_no_kind }
    {
        ByKind {
            counter: None,
            up_down_counter: None,
            histogram: None,
            observable_counter: None,
            observable_up_down_counter: None,
            gauge: None,
            observable_gauge: None,
        }
    }
}

impl<T> ByKind<T> {
    /// The value for a kind.
    pub(crate) fn get(&self, kind: InstrumentKind) -> &T
        ensures { result.now ≡ at_kind self.now kind }
    {
        match kind {
            InstrumentKind::Counter => &self.counter,
            InstrumentKind::UpDownCounter => &self.up_down_counter,
            InstrumentKind::Histogram => &self.histogram,
            InstrumentKind::ObservableCounter => &self.observable_counter,
            InstrumentKind::ObservableUpDownCounter => &self.observable_up_down_counter,
            InstrumentKind::Gauge => &self.gauge,
            InstrumentKind::ObservableGauge => &self.observable_gauge,
        }
    }
}

impl<T: Drop> ByKind<T> {
    /// Sets the value for a kind, in place of the one before. The other kinds keep their values.
    pub(crate) fn set(&mut self, kind: InstrumentKind, value: T)
        ensures given { at_kind self.new kind ≡ value }
        ensures others { (other : InstrumentKind) → kind_eq other kind ≡ false → at_kind self.new other ≡ at_kind self.old other }
    {
        match kind {
            InstrumentKind::Counter => self.counter = value,
            InstrumentKind::UpDownCounter => self.up_down_counter = value,
            InstrumentKind::Histogram => self.histogram = value,
            InstrumentKind::ObservableCounter => self.observable_counter = value,
            InstrumentKind::ObservableUpDownCounter => self.observable_up_down_counter = value,
            InstrumentKind::Gauge => self.gauge = value,
            InstrumentKind::ObservableGauge => self.observable_gauge = value,
        }
    }
}
