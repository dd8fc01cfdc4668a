//! A reader, a view, a callback and an aggregator of a program's own.

ghost use Rattle.std.specs.Prelude.{◌≡◌, ◌++◌, ◌∷◌, [], map, pos, refl, Ok, Some, IfOk};
ghost use Rattle.opentelemetry_sdk.specs.otel_common.declared.metrics.Temporality.TheVariants.{Delta};
ghost use Rattle.opentelemetry_sdk.specs.otel_model_stream.Folds.{Total};
ghost use Rattle.opentelemetry_sdk.specs.otel_stream.Settings.{nothing_said};

use opentelemetry_sdk::common::{Fault, OTelSdkResult, StringValue};
use opentelemetry_sdk::metrics::callback::{NoCallback, Observation, ObserveU64};
use opentelemetry_sdk::metrics::instrument::{Instrument, InstrumentKind, Stream};
use opentelemetry_sdk::metrics::internal::Aggregator;
use opentelemetry_sdk::metrics::provider::Parts;
use opentelemetry_sdk::metrics::reader::{CardinalityLimit, MetricReader};
use opentelemetry_sdk::metrics::view::View;
use opentelemetry_sdk::metrics::{Aggregation, Temporality};
use std::alloc::Global;
use std::time::Duration;

/// A reader to which each collection gives what is new since the last one, of up-down counters too.
#[derive(Drop)]
pub struct OnlyNew;

impl MetricReader for OnlyNew {
    ghost preference = { λ _ _. Delta };

    ghost flushes = { λ before after outcome. outcome ≡ Ok tt };

    ghost shuts = { λ before timeout after outcome. outcome ≡ Ok tt };

    fn temporality(&self, _kind: InstrumentKind) -> Temporality {
        Temporality::Delta
    }

    fn cardinality_limit(&self, _kind: InstrumentKind) -> Option<CardinalityLimit> {
        None
    }

    fn default_aggregation(&self, _kind: InstrumentKind) -> Option<&Aggregation> {
        None
    }

    fn force_flush(&mut self) -> OTelSdkResult {
        Ok(())
    }

    fn shutdown_with_timeout(&mut self, _timeout: Duration) -> OTelSdkResult {
        Ok(())
    }
}

/// A view that puts a text before the name of each instrument.
#[derive(Drop)]
pub struct Prefixed {
    pub alloc: Global,
    pub prefix: StringValue,
}

impl View for Prefixed {
    ghost answer = { λ view instrument. Some (record nothing_said { name = Some (view.prefix ++ instrument.name) }) };

    fn match_inst(&self, inst: &Instrument) -> Result<Option<Stream>, Fault> {
        let mut name = String::from_str(self.alloc, self.prefix.as_str())?;
        name.push_str(inst.name())?;
        // The prover knows that a stream of which only the name is set has no fault.
        Ok(Some(Stream::builder().with_name(name).build().unwrap()))
    }
}

/// Observes how many requests wait.
#[derive(Drop)]
pub struct Waiting {
    pub alloc: Global,
    pub requests: u64,
}

impl ObserveU64 for Waiting {
    ghost observes = { λ before after left answer. (after ≡ before) × IfOk answer (λ _. map (λ o. o.value) left ≡ before.requests ∷ []) };

    fn observe(&mut self, out: &mut Vec<Observation<u64>>) -> Result<(), Fault> {
        Ok(out.push(Observation::new(self.alloc, self.requests))?)
    }
}

/// Counts records, which have no value.
#[derive(Drop)]
pub struct Times {
    pub number: u64,
}

impl Aggregator for Times {
    type InitConfig = ();

    type PreComputedValue = ();

    ghost meaning = { λ times. Total times.number };

    ghost empty = { λ _. Total 0 };

    ghost sample = { λ _. record { bits = 1; wide = pos 1; bucket = 0 } };

    ghost cleared_empty = { λ _. refl };

    fn create(_alloc: Global, _config: &()) -> Result<Times, Fault> {
        Ok(Times { number: 0 })
    }

    fn update(&mut self, _value: ()) {
        self.number = self.number.wrapping_add(1);
    }

    fn copy(&self, _alloc: Global) -> Result<Times, Fault> {
        Ok(Times {
            number: self.number,
        })
    }

    fn weight(&self) -> u64 {
        self.number
    }

    fn reset(&mut self) {
        self.number = 0;
    }
}

/// The parts of a provider of these.
pub struct Own;

impl Parts for Own {
    type View = Prefixed;

    type Reader = OnlyNew;

    type ObserveU64 = Waiting;

    type ObserveI64 = NoCallback;
}
