//! Collections.

ghost use Rattle.std.specs.Prelude.{◌≡◌, map, None, Some, IfErr, OnOk};
ghost use Rattle.otel_model.specs.Calls as model;
ghost use Rattle.otel_model.specs.Demands.{Views};
ghost use Rattle.otel_model.specs.Steps.{Step};
ghost use Rattle.opentelemetry_sdk.specs.Checks.{collect_refusal};
ghost use Rattle.opentelemetry_sdk.specs.Correspondence.{fault_of, observed_of, reply_from};

use crate::provider_core::Core;
use crate::provider_core::checks::check_observations;
use otel_common::faults::{Fault, InternalFault};
use otel_data::collections::ResourceMetrics;
use otel_stream::observation::Observed;

impl Core {
    /// Checks that a collection of this reader is not refused before what was observed is checked.
    pub fn check_collection(&self, reader: usize) -> Result<(), Fault>
        ensures ok { OnOk result (collect_refusal self.now.state reader ≡ None) }
        ensures fault { IfErr result (λ f. collect_refusal self.now.state reader ≡ Some (fault_of f)) }
    {
        if reader >= self.pipelines.len() {
            return Err(Fault::UnknownReader);
        }
        if self.shut {
            return Err(Fault::InternalFailure(InternalFault::ReaderShutDown));
        }
        Ok(())
    }

    /// Makes a collection of a reader at a moment, in nanoseconds since 1970, with what was observed, unless the
    /// provider was shut down.
    pub fn collect(
        &mut self,
        reader: usize,
        now: u64,
        observations: &[Observed],
    ) -> Result<ResourceMetrics, Fault>
        ensures step { (views : Views) → Step views self.old.state (model.Call.Collect reader now (map observed_of observations.now)) (reply_from (λ c. model.Reply.Collected c) result) self.new.state }
        ensures seeded { self.new.hash_seed ≡ self.old.hash_seed }
    {
        if reader >= self.pipelines.len() {
            return Err(Fault::UnknownReader);
        }
        if self.shut {
            return Err(Fault::InternalFailure(InternalFault::ReaderShutDown));
        }
        check_observations(&self.instruments, observations)?;
        self.pipelines[reader].collect(&self.resource, &self.meters, observations, now)
    }
}
