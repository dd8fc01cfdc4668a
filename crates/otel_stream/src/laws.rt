//! Laws: two kinds of instruments are equal exactly if they are the same, and two instruments exactly if their parts
//! are; a boxed reader wants and does what the reader in the box wants and does, and a boxed view answers what the view
//! in the box answers; what a reader answers if it wants no limits and no aggregations; and a copy of what was observed
//! equals its source.
//!
//! `kind_laws`, `equal_instruments`, `boxed_reader`, `boxed_view`, `plain_answers` and `copied_observed` do nothing. A function whose
//! contract needs one of these laws calls it first.

ghost use Rattle.std.specs.Prelude.{◌≡◌, ◌↔◌, ℕ, Option, None, IfOk};
ghost use Rattle.std.specs.Bool.{Decides};
ghost use Rattle.otel_common.specs.declared.metrics.Aggregation.{Aggregation};
ghost use Rattle.otel_common.specs.declared.metrics.Temporality.{Temporality};
ghost use Rattle.otel_stream.specs.Answers.{answers_wanting, answers_by, answers_preferring};
ghost use Rattle.otel_stream.specs.Boxes.{Becomes};
ghost use Rattle.otel_stream.specs.Preferences.{temporality_preference};
ghost use Rattle.otel_stream.specs.Requests.{Outcome};
ghost use Rattle.otel_stream.specs.Wants.{temporality_alone, limit_of, aggregation_of};
ghost use Rattle.otel_stream.specs.declared.instrument.Instrument.{Instrument};
ghost use Rattle.otel_stream.specs.declared.instrument.InstrumentKind.{InstrumentKind};
ghost use Rattle.otel_stream.specs.declared.observation.Observed.{Observed};

use crate::instrument::{Instrument, InstrumentKind};
use crate::manual_reader::ManualReader;
use crate::observation::Observed;
use crate::reader::MetricReader;
use crate::view::View;
use otel_common::laws::{copied_attributes, equal_scopes};
use otel_common::metrics::Temporality;
use std::alloc::{AllocError, Global};

/// Two kinds are equal exactly if they are the same, and a copy of a kind equals its source.
pub fn kind_laws()
    ensures equal { (x y : InstrumentKind) → Decides (⟦<InstrumentKind as PartialEq>⟧.eq x y) (x ≡ y) }
    ensures copy { (x y : InstrumentKind) → ⟦<InstrumentKind as Clone>⟧.is_clone x y → y ≡ x }
{}

/// Two instruments are equal exactly if their five parts are.
pub fn equal_instruments()
    ensures { (x y : Instrument) → Decides (⟦<Instrument as PartialEq>⟧.eq x y) (x ≡ y) }
{
    equal_scopes();
    kind_laws();
}

/// A boxed reader wants for each kind of instrument what the reader in the box wants, whatever its type. A flush or a
/// shutdown of the box does to the reader in it what a flush or a shutdown of that reader does.
pub fn boxed_reader(reader: &Box<dyn MetricReader>)
    ensures temporality { ⟦<Box<dyn MetricReader> as MetricReader>⟧.preference reader.now ≡ (⟦<dyn MetricReader as MetricReader>⟧ reader.now.vtable).preference reader.now.value }
    ensures limit { ⟦<Box<dyn MetricReader> as MetricReader>⟧.limit reader.now ≡ (⟦<dyn MetricReader as MetricReader>⟧ reader.now.vtable).limit reader.now.value }
    ensures aggregation { ⟦<Box<dyn MetricReader> as MetricReader>⟧.aggregation reader.now ≡ (⟦<dyn MetricReader as MetricReader>⟧ reader.now.vtable).aggregation reader.now.value }
    ensures flushes { (after : _) (outcome : Outcome) → ⟦<Box<dyn MetricReader> as MetricReader>⟧.flushes reader.now after outcome ↔ Becomes reader.now after (λ object. (⟦<dyn MetricReader as MetricReader>⟧ reader.now.vtable).flushes reader.now.value object outcome) }
    ensures shuts { (timeout : ℕ) (after : _) (outcome : Outcome) → ⟦<Box<dyn MetricReader> as MetricReader>⟧.shuts reader.now timeout after outcome ↔ Becomes reader.now after (λ object. (⟦<dyn MetricReader as MetricReader>⟧ reader.now.vtable).shuts reader.now.value timeout object outcome) }
{}

/// A boxed view answers for each instrument what the view in the box answers, whatever its type.
pub fn boxed_view(view: &Box<dyn View>)
    ensures { ⟦<Box<dyn View> as View>⟧.answer view.now ≡ (⟦<dyn View as View>⟧ view.now.vtable).answer view.now.value }
{}

/// Boxes a manual reader, and returns the temporality that the box wants for a kind of instrument, which is what the
/// reader wants. Takes memory for the box.
pub fn boxed_manual_reader(
    alloc: Global,
    reader: ManualReader,
    kind: InstrumentKind,
) -> Result<Temporality, AllocError>
    ensures { IfOk result (λ temporality. temporality ≡ ⟦<ManualReader as MetricReader>⟧.preference reader kind) }
{
    let boxed: Box<dyn MetricReader> = Box::new(alloc, reader)?;
    Ok(wanted(&boxed, kind))
}

fn wanted<R: MetricReader>(reader: &R, kind: InstrumentKind) -> Temporality
    ensures { result ≡ R.preference reader.now kind }
{
    reader.temporality(kind)
}

/// The answers of a reader that wants no limits and no aggregations are those of its temporalities alone. So are those
/// of a manual reader for which only the temporality was set.
pub fn plain_answers()
    ensures plain { (temporality : InstrumentKind → Temporality) (limit : InstrumentKind → Option ℕ) (aggregation : InstrumentKind → Option Aggregation) → ((kind : InstrumentKind) → limit kind ≡ None) → ((kind : InstrumentKind) → aggregation kind ≡ None) → answers_wanting temporality limit aggregation ≡ answers_by temporality }
    ensures manual { (temporality : Temporality) → answers_wanting (λ kind. temporality_preference kind temporality) (limit_of (temporality_alone temporality)) (aggregation_of (temporality_alone temporality)) ≡ answers_preferring temporality }
{}

/// A copy of what was observed equals its source.
pub fn copied_observed()
    ensures { (x y : Observed) → ⟦<Observed as Clone>⟧.is_clone x y → y ≡ x }
{
    copied_attributes();
}
