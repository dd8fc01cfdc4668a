//! The readers of a provider before its first call.

ghost use Rattle.std.specs.Prelude.{◌≡◌, ◌++◌, ◌∷◌, [], map, OnOk, OnErr, IsOkUnless};
ghost use Rattle.otel_model.specs.Machine.{new_part};
ghost use Rattle.opentelemetry_sdk.specs.pipeline.Pipelines.{part_of};
ghost use Rattle.otel_stream.specs.Answers.{answers_wanting};

use crate::pipeline::Pipeline;
use otel_aggregate::value_map::hashing::SetHashBuilder;
use otel_common::faults::Fault;
use otel_stream::answers::Answers;
use otel_stream::reader::MetricReader;
use std::alloc::Global;
use std::marker::Model;

/// What each reader of a provider answered when it was handed in, with room for what the provider will keep of it: so
/// to make a provider's core takes no memory.
#[derive(Drop)]
pub struct NewReaders {
    /// The streams of each reader, of which there are none yet.
    pub(crate) pipelines: Vec<Pipeline>,
}

impl Model for NewReaders {
    ghost use Rattle.std.specs.Prelude.{◌≡◌, List, map};
    ghost use Rattle.otel_model.specs.Demands.{ReaderAnswers};
    ghost use Rattle.otel_model.specs.Machine.{new_part};
    ghost use Rattle.opentelemetry_sdk.specs.pipeline.Pipelines.{part_of};

    ghost Value = { List ReaderAnswers };

    ghost view = { λ r. map (λ p. p.answers) r.pipelines.items };

    ghost invariant = { λ r. map part_of r.pipelines.items ≡ map new_part (map (λ p. p.answers) r.pipelines.items) };
}

impl NewReaders {
    /// Makes an empty list. Takes no memory.
    pub fn new(alloc: Global) -> NewReaders
        ensures { result ≡ [] }
    {
        NewReaders {
            pipelines: Vec::new(alloc),
        }
    }

    /// Adds a reader, which is asked once for each kind of instrument what it wants. Its answers are kept. Refused only
    /// for want of memory; then nothing changes.
    pub fn add<R: MetricReader>(&mut self, reader: &R) -> Result<(), Fault>
        ensures added { OnOk result (self.new ≡ self.old ++ answers_wanting (R.preference reader.now) (R.limit reader.now) (R.aggregation reader.now) ∷ []) }
        ensures unadded { OnErr result (self.new ≡ self.old) }
        ensures only_memory { IsOkUnless result Fault.OutOfMemory }
    {
        let alloc = *self.pipelines.allocator();
        let answers = Answers::of(alloc, reader)?;
        let pipeline = Pipeline::new(alloc, SetHashBuilder::default(), answers);
        self.pipelines.push(pipeline)?;
        Ok(())
    }
}
