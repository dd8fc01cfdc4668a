//! Builds an instrument's streams at one reader: each demand is met at once, and `cut_back` undoes a refused build.

ghost use Rattle.std.specs.Prelude.{◌≡◌, ◌∷◌, ◌++◌, [], List, All, length, is_some, take, true, IfOk, OnOk, OnErr, IsOkUnless};
ghost use Rattle.std.specs.List.{list_any};
ghost use Rattle.std.specs.Option.{option_map};
ghost use Rattle.otel_model.specs.Demands as demands;
ghost use Rattle.otel_model.specs.Demands.{are_good_bounds};
ghost use Rattle.otel_model.specs.Machine.{build_demands, part_after_build};
ghost use Rattle.opentelemetry_sdk.specs.States.{IsGoodIn};
ghost use Rattle.opentelemetry_sdk.specs.pipeline.Pipelines.{Piped, part_of, fed_once, AreMet, AreNumbers, HashesFrom, IsLonger, IsMetBy, after_cut};
ghost use Rattle.opentelemetry_sdk.specs.pipeline.Streams.{IsMakeable};
ghost use Rattle.opentelemetry_sdk.specs.pipeline.Views as views;
ghost use Rattle.opentelemetry_sdk.specs.pipeline.Views.{views_answering, usable_answer};

use crate::pipeline::Pipeline;
use crate::pipeline::about::About;
use crate::pipeline::aggregations::{is_drop, temporality_of};
use crate::pipeline::demands::demand_of;
use crate::pipeline::metric_stream::MetricStream;
use crate::pipeline::vectors::reserve_one;
use otel_aggregate::value_map::hashing::SetHashBuilder;
use otel_common::faults::Fault;
use otel_common::lists::Items;
use otel_common::scopes::InstrumentationScope;
use otel_stream::compatible::is_aggregator_compatible;
use otel_stream::demand::Demand;
use otel_stream::instrument::InstrumentKind;
use otel_stream::laws::kind_laws;
use otel_stream::stream::Stream;

/// Tells whether the aggregation that a view answered can be used with this kind of instrument. An answer without an
/// aggregation can always be used.
fn can_keep(kind: InstrumentKind, stream: &Stream) -> bool
    ensures { result ≡ views.can_keep kind stream.now.aggregation }
{
    match stream.aggregation() {
        Some(aggregation) => is_aggregator_compatible(kind, aggregation).is_ok(),
        None => true,
    }
}

/// Tells whether any view answered for the instrument.
fn any_answer(answered: &[Option<Stream>]) -> bool
    ensures { result ≡ list_any is_some answered.now }
{
    answered.iter().any(|answer| answer.is_some())
}

/// Tells whether any view answered with an aggregation that can't be used with this kind of instrument.
fn any_unfit(kind: InstrumentKind, answered: &[Option<Stream>]) -> bool
    ensures { result ≡ list_any (views.is_unfit kind) answered.now }
{
    answered.iter().any(|answer| match answer {
        Some(stream) => !can_keep(kind, stream),
        None => false,
    })
}

/// Tells whether an instrument that feeds these streams of its views demands one of its own beside them. It does in two
/// cases: no view answered, or one answered with an aggregation that can't be used and the instrument feeds no stream.
fn demands_own(kind: InstrumentKind, answered: &[Option<Stream>], feeds: &[usize]) -> bool
    ensures { result ≡ views.demands_own kind answered.now feeds.now }
{
    !any_answer(answered) || (any_unfit(kind, answered) && feeds.is_empty())
}

/// Lets an instrument feed the stream with this number, once, unless the stream drops.
fn feed(feeds: &mut Vec<usize>, number: usize, drops: bool) -> Result<(), Fault>
    ensures fed { OnOk result (feeds.new.items ≡ fed_once drops number feeds.old.items) }
    ensures only_memory { IsOkUnless result Fault.OutOfMemory }
{
    if drops || feeds.contains(&number) {
        return Ok(());
    }
    feeds.push(number)?;
    Ok(())
}

impl Pipeline {
    /// The number of the stream that meets this demand, which is a new one unless the reader has one of the same
    /// identity.
    fn stream_for(&mut self, demand: Demand, now: u64) -> Result<usize, Fault>
        requires { IsMakeable demand }
        ensures met { IfOk result (IsMetBy now demand self.old self.new) }
        ensures same { OnErr result (self.new ≡ self.old) }
        ensures only_memory { IsOkUnless result Fault.OutOfMemory }
    {
        kind_laws();
        if let Some(number) = self.identities.get_index_of(&demand.identity) {
            return Ok(number);
        }
        let number = self.streams.len();
        reserve_one(&mut self.streams)?;
        let temporality = temporality_of(&self.answers, &demand);
        let identity = demand.identity.clone()?;
        let stream = MetricStream::new(self.alloc, self.hasher, temporality, demand, now)?;
        let _ = self.identities.insert(identity)?;
        self.streams.push_reserved(stream);
        Ok(number)
    }

    /// Meets one more demand of an instrument, which is to feed the stream once, unless that drops.
    fn meet(&mut self, feeds: &mut Vec<usize>, demand: Demand, now: u64) -> Result<(), Fault>
        requires { IsMakeable demand }
        ensures longer { IsLonger self.old self.new }
        ensures met { OnOk result ((before : Piped) (ds : List demands.Demand) → AreMet now ds before self.old feeds.old.items → AreMet now (ds ++ demand ∷ []) before self.new feeds.new.items) }
        ensures only_memory { IsOkUnless result Fault.OutOfMemory }
    {
        let number = self.stream_for(demand, now)?;
        self.law_of_identities();
        let drops = is_drop(&self.streams[number].demand().aggregation);
        feed(feeds, number, drops)
    }

    /// Meets what a view demands by its answer. It demands nothing if it gave none, or one whose aggregation can't be
    /// used.
    fn meet_answer(
        &mut self,
        feeds: &mut Vec<usize>,
        scope: &InstrumentationScope,
        about: &About<'_>,
        answer: &Option<Stream>,
        now: u64,
    ) -> Result<(), Fault>
        requires { are_good_bounds about.now.kind about.now.bounds ≡ true }
        ensures longer { IsLonger self.old self.new }
        ensures met { OnOk result ((before : Piped) (ds : List demands.Demand) → AreMet now ds before self.old feeds.old.items → AreMet now (ds ++ usable_answer self.old.answers scope.now about.now answer.now) before self.new feeds.new.items) }
        ensures only_memory { IsOkUnless result Fault.OutOfMemory }
    {
        let Some(stream) = answer else {
            return Ok(());
        };
        if !can_keep(about.kind, stream) {
            return Ok(());
        }
        let demand = demand_of(self.alloc, &self.answers, scope, about, stream)?;
        self.meet(feeds, demand, now)
    }

    /// Meets all demands of an instrument, given each view's answer, and returns the numbers of the streams that it is to
    /// feed. Without a scope it demands nothing.
    fn meet_all(
        &mut self,
        scope: Option<&InstrumentationScope>,
        about: &About<'_>,
        answered: &[Option<Stream>],
        now: u64,
    ) -> Result<Vec<usize>, Fault>
        requires { IsGoodIn (option_map (λ s. s.now) scope) about.now }
        ensures longer { IsLonger self.old self.new }
        ensures met { IfOk result (λ feeds. AreMet now (build_demands (views_answering answered.now) (part_of self.old) (option_map (λ s. s.now) scope.entry) about.now) self.old self.new feeds.items) }
        ensures only_memory { IsOkUnless result Fault.OutOfMemory }
    {
        let mut feeds = Vec::new(self.alloc);
        let Some(scope) = scope else {
            return Ok(feeds);
        };
        for answer in answered {
            self.meet_answer(&mut feeds, scope, about, answer, now)?;
        }
        if !demands_own(about.kind, answered, &feeds) {
            return Ok(feeds);
        }
        let demand = demand_of(self.alloc, &self.answers, scope, about, &Stream::default())?;
        self.meet(&mut feeds, demand, now)?;
        Ok(feeds)
    }

    /// Builds an instrument at the moment `now`, in nanoseconds since 1970. `answered` has the answer of each view;
    /// without a scope the instrument demands nothing. From now on the reader hashes sets with this hasher. If the build
    /// is refused, `cut_back` undoes what it added.
    ///
    /// For each answer, and for the instrument's own stream if that is demanded, copies texts, keys and bounds, looks
    /// up the identity, and takes memory for a new stream.
    pub fn build(
        &mut self,
        hasher: SetHashBuilder,
        scope: Option<&InstrumentationScope>,
        about: &About<'_>,
        answered: &[Option<Stream>],
        now: u64,
    ) -> Result<(), Fault>
        requires { IsGoodIn (option_map (λ s. s.now) scope) about.now }
        ensures longer { IsLonger self.old self.new }
        ensures built { OnOk result (part_of self.new ≡ part_after_build (views_answering answered.now) (option_map (λ s. s.now) scope.entry) about.now now (part_of self.old)) }
        ensures seeded { OnOk result (HashesFrom hasher.seed self.new) }
        ensures only_memory { IsOkUnless result Fault.OutOfMemory }
    {
        self.hasher = hasher;
        let feeds = self.meet_all(scope, about, answered, now)?;
        self.feeds.push(Items::from(feeds))?;
        Ok(())
    }

    /// How many streams and how many instruments the reader has.
    pub fn sizes(&self) -> (usize, usize)
        ensures sizes { result ≡ (length self.now.streams, length self.now.feeds) }
        ensures numbers { All (AreNumbers self.now.streams) self.now.feeds }
    {
        (self.streams.len(), self.feeds.len())
    }

    /// Takes away all but the first streams and the first instruments. Takes no memory.
    pub fn cut_back(&mut self, streams: usize, instruments: usize)
        requires { All (AreNumbers (take streams self.old.streams)) (take instruments self.old.feeds) }
        ensures { self.new ≡ after_cut streams instruments self.old }
    {
        self.identities.truncate(streams);
        self.streams.truncate(streams);
        self.feeds.truncate(instruments);
    }
}
