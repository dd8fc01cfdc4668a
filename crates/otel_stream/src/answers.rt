//! What a reader answers for each kind of instrument.

ghost use Rattle.std.specs.Prelude.{◌≡◌, ◌++◌, IfOk, OnOk, IsOkUnless, option_copied};
ghost use Rattle.otel_stream.specs.Answers.{kind_number, answer_wanting, answers_wanting, answer_for};

use crate::instrument::InstrumentKind;
use crate::limit::CardinalityLimit;
use crate::reader::MetricReader;
use otel_common::faults::Fault;
use otel_common::laws::copied_aggregation;
use otel_common::lists::Items;
use otel_common::metrics::{Aggregation, Temporality};
use std::alloc::Global;
use std::marker::Model;

/// The kinds, in the order of the answers.
const KINDS: [InstrumentKind; 7] = [
    InstrumentKind::Counter,
    InstrumentKind::UpDownCounter,
    InstrumentKind::Histogram,
    InstrumentKind::ObservableCounter,
    InstrumentKind::ObservableUpDownCounter,
    InstrumentKind::Gauge,
    InstrumentKind::ObservableGauge,
];

/// What a reader answers for one kind of instrument (Metrics SDK, "MetricReader").
#[derive(Drop)]
pub struct Answer {
    /// The temporality of the streams of this kind.
    pub temporality: Temporality,
    /// How many sets of attributes of a stream have points of their own, if the reader wants a limit.
    pub limit: Option<usize>,
    /// What a stream keeps of its records, if the reader wants an aggregation.
    pub aggregation: Option<Aggregation>,
}

/// What a reader answered for each kind of instrument when it was handed in. Looking up an answer takes no memory.
#[derive(Drop)]
pub struct Answers {
    items: Items<Answer>,
}

impl Model for Answers {
    ghost use Rattle.otel_stream.specs.Answers.{ReaderAnswers};

    ghost Value = { ReaderAnswers };

    ghost view = { λ a. a.items };
}

/// The place of a kind in the list of answers.
fn place_of(kind: InstrumentKind) -> usize
    ensures { result ≡ kind_number kind }
{
    match kind {
        InstrumentKind::Counter => 0,
        InstrumentKind::UpDownCounter => 1,
        InstrumentKind::Histogram => 2,
        InstrumentKind::ObservableCounter => 3,
        InstrumentKind::ObservableUpDownCounter => 4,
        InstrumentKind::Gauge => 5,
        InstrumentKind::ObservableGauge => 6,
    }
}

/// Asks a reader for its answer for one kind. Takes memory for the bounds of a histogram.
fn ask<R: MetricReader>(reader: &R, kind: InstrumentKind) -> Result<Answer, Fault>
    ensures answer { IfOk result (λ a. a ≡ answer_wanting (R.preference reader.now) (R.limit reader.now) (R.aggregation reader.now) kind) }
    ensures only_memory { IsOkUnless result Fault.OutOfMemory }
{
    copied_aggregation();
    let temporality = reader.temporality(kind);
    let limit = match reader.cardinality_limit(kind) {
        Some(limit) => Some(limit.get()),
        None => None,
    };
    let aggregation = match reader.default_aggregation(kind) {
        Some(aggregation) => Some(aggregation.clone()?),
        None => None,
    };
    Ok(Answer {
        temporality,
        limit,
        aggregation,
    })
}

impl Answers {
    /// Asks a reader, once for each kind, for the temporality, the limit and the aggregation that it wants. Takes
    /// memory for the list, and for the bounds of the histograms that the reader wants. Refused only for want of
    /// memory.
    pub fn of<R: MetricReader>(alloc: Global, reader: &R) -> Result<Answers, Fault>
        ensures answers { IfOk result (λ a. a ≡ answers_wanting (R.preference reader.now) (R.limit reader.now) (R.aggregation reader.now)) }
        ensures only_memory { IsOkUnless result Fault.OutOfMemory }
    {
        let mut answers = Vec::with_capacity(alloc, KINDS.len())?;
        for kind in &KINDS {
            answers.push(ask(reader, *kind)?)?;
        }
        Ok(Answers {
            items: Items::from(answers),
        })
    }

    /// The temporality that the reader wanted for a kind.
    pub fn temporality(&self, kind: InstrumentKind) -> Temporality
        ensures { result ≡ (answer_for self.now kind).temporality }
    {
        match self.items.as_slice().get(place_of(kind)) {
            Some(answer) => answer.temporality,
            None => Temporality::Cumulative,
        }
    }

    /// The limit that the reader wanted for a kind, if any.
    pub fn limit(&self, kind: InstrumentKind) -> Option<usize>
        ensures { result ≡ (answer_for self.now kind).limit }
    {
        match self.items.as_slice().get(place_of(kind)) {
            Some(answer) => answer.limit,
            None => None,
        }
    }

    /// The aggregation that the reader wanted for a kind, if any.
    pub fn aggregation(&self, kind: InstrumentKind) -> Option<&Aggregation>
        ensures { option_copied result ≡ (answer_for self.now kind).aggregation }
    {
        match self.items.as_slice().get(place_of(kind)) {
            Some(answer) => answer.aggregation.as_ref(),
            None => None,
        }
    }
}
