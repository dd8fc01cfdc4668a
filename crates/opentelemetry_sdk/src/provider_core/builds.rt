//! Meters, and builds of instruments.

ghost use Rattle.std.specs.Prelude.{◌≡◌, ◌++◌, ◌∷◌, [], All, map, length, true, None, Some, Err, IfOk, IfErr, OnOk, OnErr, IsOk, IsOkUnless};
ghost use Rattle.std.specs.Option.{option_map};
ghost use Rattle.otel_model.specs.Calls as model;
ghost use Rattle.otel_model.specs.Demands.{Views};
ghost use Rattle.otel_model.specs.Machine.{new_instrument, part_after_build};
ghost use Rattle.otel_model.specs.Refusals.{meter_refusal};
ghost use Rattle.otel_model.specs.Sent.{has_scope};
ghost use Rattle.otel_model.specs.Steps.{Step};
ghost use Rattle.opentelemetry_sdk.specs.pipeline.Pipelines.{part_of, HashesFrom};
ghost use Rattle.opentelemetry_sdk.specs.pipeline.Views.{views_answering};
ghost use Rattle.opentelemetry_sdk.specs.Checks.{has_stream};
ghost use Rattle.opentelemetry_sdk.specs.Correspondence.{kind_of, is_signed, reply_from};
ghost use Rattle.opentelemetry_sdk.specs.States.{IsGoodIn};

use crate::pipeline::Pipeline;
use crate::pipeline::about::About;
use crate::provider_core::Core;
use crate::provider_core::asking::ask_in;
use crate::provider_core::checks::{good_scope, scope_of};
use crate::provider_core::each_pipeline::{any_stream, build_or_none};
use crate::provider_core::instrument::Instrument;
use crate::values::sorts::InstrumentSort;
use otel_aggregate::value_map::hashing::SetHashBuilder;
use otel_common::faults::Fault;
use otel_common::laws::copied_scope;
use otel_common::scopes::InstrumentationScope;
use otel_stream::stream::Stream;
use otel_stream::view::View;

/// Makes an instrument at all readers or at none, given each view's answer. New streams hash sets with this hasher.
/// Without a scope it demands no stream.
fn make(
    instruments: &mut Vec<Instrument>,
    pipelines: &mut [Pipeline],
    hasher: SetHashBuilder,
    scope: Option<&InstrumentationScope>,
    sort: InstrumentSort,
    about: &About<'_>,
    answered: &[Option<Stream>],
    now: u64,
) -> Result<usize, Fault>
    requires good { IsGoodIn (option_map (λ s. s.now) scope) about.now }
    requires kind { about.now.kind ≡ kind_of sort }
    requires signed { about.now.signed ≡ is_signed sort }
    ensures number { IfOk result (λ n. n ≡ length instruments.old.items) }
    ensures instruments { OnOk result (instruments.new.items ≡ instruments.old.items ++ new_instrument about.now ∷ []) }
    ensures readers { OnOk result (map part_of pipelines.new ≡ map (part_after_build (views_answering answered.now) (option_map (λ s. s.now) scope.entry) about.now now) (map part_of pipelines.old)) }
    ensures seeded { OnOk result (All (HashesFrom hasher.seed) pipelines.new) }
    ensures same { OnErr result (instruments.new.items ≡ instruments.old.items) }
    ensures same_readers { OnErr result (map part_of pipelines.new ≡ map part_of pipelines.old) }
    ensures only_memory { IsOkUnless result Fault.OutOfMemory }
{
    instruments.reserve(1)?;
    build_or_none(pipelines, hasher, scope, about, answered, now)?;
    let number = instruments.len();
    instruments.push_reserved(Instrument {
        sort,
        count: 0,
        sum: 0,
    });
    Ok(number)
}

impl Core {
    /// Returns the number of the meter of a scope, adding one if there is none; after a shutdown there is no meter.
    pub fn meter(&mut self, scope: &InstrumentationScope) -> Result<Option<usize>, Fault>
        ensures step { (views : Views) → Step views self.old.state (model.Call.Meter scope.now) (reply_from (λ n. model.Reply.Meter n) result) self.new.state }
        ensures shut { self.old.state.shared.shut ≡ true → IfOk result (λ n. n ≡ None) }
        ensures known { has_scope scope.now self.old.state.shared.meters ≡ true → IsOk result }
        ensures seeded { self.new.hash_seed ≡ self.old.hash_seed }
    {
        if self.shut {
            return Ok(None);
        }
        if let Some(number) = self.meters.get_index_of(scope) {
            return Ok(Some(number));
        }
        copied_scope();
        let copied = scope.clone()?;
        let (number, _) = self.meters.insert_full(copied)?;
        Ok(Some(number))
    }

    /// Checks that a build of the meter of this number, at a provider of this identity, is refused for nothing but want
    /// of memory.
    pub fn check_meter(&self, identity: u64, meter: Option<usize>) -> Result<(), Fault>
        ensures own { OnOk result (identity ≡ self.now.state.shared.identity) }
        ensures known { OnOk result (meter_refusal self.now.state.shared meter ≡ None) }
        ensures foreign { ¬ (identity ≡ self.now.state.shared.identity) → result ≡ Err Fault.UnknownMeter }
        ensures fault { IfErr result (λ f. (f ≡ Fault.UnknownMeter) × (identity ≡ self.now.state.shared.identity → meter_refusal self.now.state.shared meter ≡ Some model.Fault.UnknownMeter)) }
    {
        if identity != self.identity {
            return Err(Fault::UnknownMeter);
        }
        match meter {
            Some(number) if number >= self.meters.len() => Err(Fault::UnknownMeter),
            _ => Ok(()),
        }
    }

    /// Whether an instrument feeds a stream of some reader.
    pub fn has_stream(&self, instrument: usize) -> bool
        ensures { result ≡ has_stream instrument self.now.state }
    {
        any_stream(&self.pipelines, instrument)
    }

    /// Builds an instrument of a meter of a provider of this identity. Each view is asked once, before anything is
    /// changed.
    pub fn build<V: View>(
        &mut self,
        views: &[V],
        identity: u64,
        meter: Option<usize>,
        sort: InstrumentSort,
        about: &About<'_>,
        now: u64,
    ) -> Result<usize, Fault>
        requires kind { about.now.kind ≡ kind_of sort }
        requires signed { about.now.signed ≡ is_signed sort }
        ensures step { identity ≡ self.old.state.shared.identity → Step (map V.answer views.now) self.old.state (model.Call.Build meter about.now now) (reply_from model.Reply.Instrument result) self.new.state }
        ensures foreign { ¬ (identity ≡ self.old.state.shared.identity) → (result ≡ Err Fault.UnknownMeter) × (self.new.state ≡ self.old.state) }
        ensures identity { self.new.state.shared.identity ≡ self.old.state.shared.identity }
        ensures hashed { OnOk result (self.new.reader_seeds ≡ map (λ _. self.old.hash_seed) self.new.state.readers) }
        ensures seeded { self.new.hash_seed ≡ self.old.hash_seed }
    {
        if identity != self.identity {
            return Err(Fault::UnknownMeter);
        }
        let scope = good_scope(scope_of(&self.meters, meter)?, about);
        let answered = ask_in(self.alloc, views, scope, about)?;
        make(
            &mut self.instruments,
            &mut self.pipelines,
            self.hasher,
            scope,
            sort,
            about,
            &answered,
            now,
        )
    }
}
