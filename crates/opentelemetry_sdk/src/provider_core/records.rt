//! Records.

ghost use Rattle.std.specs.Prelude.{◌≡◌, true, Err, IfErr};
ghost use Rattle.otel_model.specs.Calls as model;
ghost use Rattle.otel_model.specs.Demands.{Views};
ghost use Rattle.otel_model.specs.Steps.{Step};
ghost use Rattle.opentelemetry_sdk.specs.Correspondence.{number_of, reply_from};
ghost use Rattle.opentelemetry_sdk.specs.Known.{is_known};
ghost use Rattle.opentelemetry_sdk.specs.States.{IsNamed};

use crate::provider_core::Core;
use crate::provider_core::checks::check_value;
use crate::provider_core::each_pipeline::record_or_none;
use otel_aggregate::value_map::hashed_key::GivenAttributes;
use otel_common::faults::Fault;
use otel_data::numbers::NumberValue;

impl Core {
    /// Records a value with attributes at an instrument of a provider of this identity, in all the streams that it
    /// feeds or in none.
    #[inline(always)]
    pub fn record(
        &mut self,
        identity: u64,
        instrument: usize,
        value: NumberValue,
        attributes: &GivenAttributes,
    ) -> Result<(), Fault>
        ensures step { identity ≡ self.old.state.shared.identity → (views : Views) → Step views self.old.state (model.Call.Record instrument (number_of value) attributes.now) (reply_from (λ _. model.Reply.Done) result) self.new.state }
        ensures foreign { ¬ (identity ≡ self.old.state.shared.identity) → (result ≡ Err Fault.UnknownInstrument) × (self.new.state ≡ self.old.state) }
        ensures known { is_known instrument attributes.now self.old.state ≡ true → IfErr result IsNamed }
        ensures seeded { self.new.hash_seed ≡ self.old.hash_seed }
    {
        if identity != self.identity {
            return Err(Fault::UnknownInstrument);
        }
        if let Err(fault) = check_value(&self.instruments, instrument, value) {
            return Err(fault);
        }
        record_or_none(&mut self.pipelines, instrument, value, attributes)?;
        self.instruments[instrument].accept(value);
        Ok(())
    }
}
