//! A boxed reader is a reader, and a boxed view is a view.

ghost use Rattle.otel_stream.specs.Boxes.{Becomes};

use crate::instrument::{Instrument, InstrumentKind};
use crate::limit::CardinalityLimit;
use crate::reader::MetricReader;
use crate::stream::Stream;
use crate::view::View;
use otel_common::faults::{Fault, OTelSdkResult};
use otel_common::metrics::{Aggregation, Temporality};
use std::time::Duration;

impl MetricReader for Box<dyn MetricReader> {
    ghost preference = { λ b. (MetricReader-box b).preference b.value };

    ghost limit = { λ b. (MetricReader-box b).limit b.value };

    ghost aggregation = { λ b. (MetricReader-box b).aggregation b.value };

    ghost flushes = { λ before after outcome. Becomes before after (λ object. (MetricReader-box before).flushes before.value object outcome) };

    ghost shuts = { λ before timeout after outcome. Becomes before after (λ object. (MetricReader-box before).shuts before.value timeout object outcome) };

    fn temporality(&self, kind: InstrumentKind) -> Temporality {
        self.as_ref().temporality(kind)
    }

    fn cardinality_limit(&self, kind: InstrumentKind) -> Option<CardinalityLimit> {
        self.as_ref().cardinality_limit(kind)
    }

    fn default_aggregation(&self, kind: InstrumentKind) -> Option<&Aggregation> {
        self.as_ref().default_aggregation(kind)
    }

    fn force_flush(&mut self) -> OTelSdkResult {
        self.as_mut().force_flush()
    }

    fn shutdown_with_timeout(&mut self, timeout: Duration) -> OTelSdkResult {
        self.as_mut().shutdown_with_timeout(timeout)
    }

    fn shutdown(&mut self) -> OTelSdkResult {
        self.as_mut().shutdown()
    }
}

impl View for Box<dyn View> {
    ghost answer = { λ b. (View-box b).answer b.value };

    fn match_inst(&self, inst: &Instrument) -> Result<Option<Stream>, Fault> {
        self.as_ref().match_inst(inst)
    }
}
