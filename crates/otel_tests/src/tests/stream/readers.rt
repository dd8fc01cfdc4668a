//! What readers want of each kind of instrument, also in boxes, and readers that are asked to flush and to shut down.

ghost use Rattle.std.specs.Prelude.{◌≡◌, Ok, true, not, is_ok};
ghost use Rattle.otel_common.specs.declared.metrics.Temporality.TheVariants.{Delta};

use super::{are_distinct, assert_shows, histogram_of};
use otel_common::faults::{Fault, OTelSdkResult};
use otel_common::metrics::{Aggregation, Temporality};
use otel_stream::answers::Answers;
use otel_stream::each_reader::{flush_all, shut_all};
use otel_stream::instrument::InstrumentKind;
use otel_stream::laws::{boxed_manual_reader, boxed_reader, kind_laws, plain_answers};
use otel_stream::limit::CardinalityLimit;
use otel_stream::manual_reader::{ManualReader, ManualReaderBuilder};
use otel_stream::reader::MetricReader;
use std::alloc::Global;
use std::process::Abort;
use std::time::Duration;

/// A reader that wants delta, leaves limits and aggregations to the provider, and can flush once; its later flushes
/// fail.
#[derive(Drop)]
struct Once {
    has_flushed: bool,
}

impl MetricReader for Once {
    ghost preference = { λ r kind. Delta };

    ghost flushes = { λ before after outcome. (after ≡ record { has_flushed = true }) × (is_ok outcome ≡ not before.has_flushed) };

    ghost shuts = { λ before timeout after outcome. (after ≡ before) × (outcome ≡ Ok tt) };

    fn temporality(&self, kind: InstrumentKind) -> Temporality {
        let _ = kind;
        Temporality::Delta
    }

    fn cardinality_limit(&self, kind: InstrumentKind) -> Option<CardinalityLimit> {
        let _ = kind;
        None
    }

    fn default_aggregation(&self, kind: InstrumentKind) -> Option<&Aggregation> {
        let _ = kind;
        None
    }

    fn force_flush(&mut self) -> OTelSdkResult {
        if self.has_flushed {
            return Err(Fault::OutOfMemory);
        }
        self.has_flushed = true;
        Ok(())
    }

    fn shutdown_with_timeout(&mut self, timeout: Duration) -> OTelSdkResult {
        let _ = timeout;
        Ok(())
    }
}

/// Boxes hold what a flush left: all readers can flush once, two of them fail to from then on, the first of them with the
/// number 1, and all can shut down.
#[test]
fn boxes_hold_what_a_flush_left(rt: HostRuntime) {
    let rt = &rt;
    let alloc = rt.alloc();
    let first: Box<dyn MetricReader> = Box::new(alloc, ManualReader::default()).expect(
        rt, "memory",
    );
    let second: Box<dyn MetricReader> = Box::new(alloc, Once { has_flushed: false }).expect(
        rt, "memory",
    );
    let third: Box<dyn MetricReader> = Box::new(alloc, Once { has_flushed: false }).expect(
        rt, "memory",
    );
    assert_wants(rt, alloc, &first, CUMULATIVE);
    let mut readers = [first, second, third];
    let answers = (
        flush_all(&mut readers),
        flush_all(&mut readers),
        flush_all(&mut readers),
        shut_all(&mut readers),
    );
    let text = "(Ok(()), Err(InternalFailure(Readers { failed: 2, first: 1 })), \
                Err(InternalFailure(Readers { failed: 2, first: 1 })), Ok(()))";
    assert_shows(rt, alloc, &answers, text);
}

/// The seven kinds.
const KINDS: [InstrumentKind; 7] = [
    InstrumentKind::Counter,
    InstrumentKind::UpDownCounter,
    InstrumentKind::Histogram,
    InstrumentKind::ObservableCounter,
    InstrumentKind::ObservableUpDownCounter,
    InstrumentKind::Gauge,
    InstrumentKind::ObservableGauge,
];

/// Asserts that a reader wants this, a line for each of the seven kinds, and answers it.
fn assert_wants<R: MetricReader>(rt: &impl Abort, alloc: Global, reader: &R, wanted: &str) {
    let answers = Answers::of(alloc, reader).expect(rt, wanted);
    let mut text = String::new(alloc);
    for kind in &KINDS {
        let limit = match reader.cardinality_limit(*kind) {
            Some(limit) => Some(limit.get()),
            None => None,
        };
        let wants = (
            reader.temporality(*kind),
            limit,
            reader.default_aggregation(*kind),
        );
        let answer = (
            answers.temporality(*kind),
            answers.limit(*kind),
            answers.aggregation(*kind),
        );
        assert!(rt; wants == answer);
        writeln!(text, "{answer:?}").expect(rt, wanted);
    }
    assert!(rt; text.as_str() == wanted, "{text}");
}

const CUMULATIVE: &str = "\
    (Cumulative, None, None)\n\
    (Cumulative, None, None)\n\
    (Cumulative, None, None)\n\
    (Cumulative, None, None)\n\
    (Cumulative, None, None)\n\
    (Cumulative, None, None)\n\
    (Cumulative, None, None)\n";

const DELTA: &str = "\
    (Delta, None, None)\n\
    (Cumulative, None, None)\n\
    (Delta, None, None)\n\
    (Delta, None, None)\n\
    (Cumulative, None, None)\n\
    (Delta, None, None)\n\
    (Delta, None, None)\n";

const LOW_MEMORY: &str = "\
    (Delta, None, None)\n\
    (Cumulative, None, None)\n\
    (Delta, None, None)\n\
    (Cumulative, None, None)\n\
    (Cumulative, None, None)\n\
    (Cumulative, None, None)\n\
    (Cumulative, None, None)\n";

const PREFERENCES: &[(Temporality, &str)] = &[
    (Temporality::Cumulative, CUMULATIVE),
    (Temporality::Delta, DELTA),
    (Temporality::LowMemory, LOW_MEMORY),
];

/// A reader that prefers this temporality.
fn preferring(temporality: Temporality) -> ManualReader {
    ManualReader::builder()
        .with_temporality(temporality)
        .build()
}

/// Readers are cumulative by default, and prefer by kind.
#[test]
fn readers_have_their_preferences(rt: HostRuntime) {
    let rt = &rt;
    let alloc = rt.alloc();
    assert_shows(rt, alloc, &Temporality::default(), "Cumulative");
    assert_wants(rt, alloc, &ManualReader::default(), CUMULATIVE);
    assert_wants(rt, alloc, &ManualReaderBuilder::new().build(), CUMULATIVE);
    for (temporality, wanted) in PREFERENCES {
        assert_wants(rt, alloc, &preferring(*temporality), wanted);
    }
}

/// Readers and their builders show their names, which no contract states.
#[test]
fn readers_show_their_names(rt: HostRuntime) {
    let both = (ManualReaderBuilder::default(), ManualReader::default());
    assert_shows(
        &rt,
        rt.alloc(),
        &both,
        "(ManualReaderBuilder, ManualReader)",
    );
}

/// A limit of this number.
fn limit(rt: &impl Abort, number: usize) -> CardinalityLimit {
    CardinalityLimit::new(number).expect(rt, "a limit")
}

const GIVEN_LAST: &str = "\
    (Delta, Some(6), Some(Drop))\n\
    (Cumulative, None, None)\n\
    (Delta, None, Some(ExplicitBucketHistogram { boundaries: Items { items: [10, 20] }, record_min_max: false }))\n\
    (Delta, None, None)\n\
    (Cumulative, None, None)\n\
    (Delta, Some(7), None)\n\
    (Delta, None, None)\n";

/// A reader with limits for two kinds, one of them given twice, and with aggregations likewise, wants what was given last,
/// in a box too.
#[test]
fn boxes_want_what_is_in_them(rt: HostRuntime) {
    let rt = &rt;
    let alloc = rt.alloc();
    let aggregation = histogram_of(rt, alloc, &[10, 20], false);
    let reader = ManualReader::builder()
        .with_cardinality_limit(InstrumentKind::Counter, limit(rt, 5))
        .with_default_aggregation(InstrumentKind::Histogram, Aggregation::Sum)
        .with_cardinality_limit(InstrumentKind::Gauge, limit(rt, 7))
        .with_default_aggregation(InstrumentKind::Counter, Aggregation::Drop)
        .with_cardinality_limit(InstrumentKind::Counter, limit(rt, 6))
        .with_default_aggregation(InstrumentKind::Histogram, aggregation)
        .with_temporality(Temporality::Delta)
        .build();
    assert_wants(rt, alloc, &reader, GIVEN_LAST);
    let boxed: Box<dyn MetricReader> = Box::new(alloc, reader).expect(rt, "memory");
    boxed_reader(&boxed);
    assert_wants(rt, alloc, &boxed, GIVEN_LAST);
}

const ALL_DELTA: &str = "\
    (Delta, None, None)\n\
    (Delta, None, None)\n\
    (Delta, None, None)\n\
    (Delta, None, None)\n\
    (Delta, None, None)\n\
    (Delta, None, None)\n\
    (Delta, None, None)\n";

/// A reader of a type of one's own answers no limits and no aggregations, in a box too. A manual reader in a box answers
/// for a gauge what it prefers.
#[test]
fn readers_without_limits_answer_none(rt: HostRuntime) {
    let rt = &rt;
    plain_answers();
    let alloc = rt.alloc();
    assert_wants(rt, alloc, &Once { has_flushed: false }, ALL_DELTA);
    let boxed: Box<dyn MetricReader> = Box::new(alloc, Once { has_flushed: false }).expect(
        rt, "memory",
    );
    assert_wants(rt, alloc, &boxed, ALL_DELTA);
    let answer = boxed_manual_reader(alloc, preferring(Temporality::Delta), InstrumentKind::Gauge);
    assert_shows(rt, alloc, &answer, "Ok(Delta)");
}

const EACH: &str = "\
    (Cumulative, Some(1), Some(Drop))\n\
    (Cumulative, Some(2), Some(Default))\n\
    (Cumulative, Some(3), Some(Sum))\n\
    (Cumulative, Some(4), Some(LastValue))\n\
    (Cumulative, Some(5), Some(ExplicitBucketHistogram { boundaries: Items { items: [10, 20] }, record_min_max: false }))\n\
    (Cumulative, Some(6), Some(ExplicitBucketHistogram { boundaries: Items { items: [10, 20] }, record_min_max: true }))\n\
    (Cumulative, Some(7), Some(ExplicitBucketHistogram { boundaries: Items { items: [] }, record_min_max: false }))\n";

/// A reader may have a limit and an aggregation of its own for each kind.
#[test]
fn each_kind_has_its_own(rt: HostRuntime) {
    let rt = &rt;
    let alloc = rt.alloc();
    let bare = histogram_of(rt, alloc, &[], false);
    let plain = histogram_of(rt, alloc, &[10, 20], false);
    let ranged = histogram_of(rt, alloc, &[10, 20], true);
    let reader = ManualReader::builder()
        .with_default_aggregation(InstrumentKind::Counter, Aggregation::Drop)
        .with_default_aggregation(InstrumentKind::UpDownCounter, Aggregation::Default)
        .with_default_aggregation(InstrumentKind::Histogram, Aggregation::Sum)
        .with_default_aggregation(InstrumentKind::ObservableCounter, Aggregation::LastValue)
        .with_default_aggregation(InstrumentKind::ObservableUpDownCounter, plain)
        .with_default_aggregation(InstrumentKind::Gauge, ranged)
        .with_default_aggregation(InstrumentKind::ObservableGauge, bare)
        .with_cardinality_limit(InstrumentKind::Counter, limit(rt, 1))
        .with_cardinality_limit(InstrumentKind::UpDownCounter, limit(rt, 2))
        .with_cardinality_limit(InstrumentKind::Histogram, limit(rt, 3))
        .with_cardinality_limit(InstrumentKind::ObservableCounter, limit(rt, 4))
        .with_cardinality_limit(InstrumentKind::ObservableUpDownCounter, limit(rt, 5))
        .with_cardinality_limit(InstrumentKind::Gauge, limit(rt, 6))
        .with_cardinality_limit(InstrumentKind::ObservableGauge, limit(rt, 7))
        .build();
    assert_wants(rt, alloc, &reader, EACH);
}

#[test]
fn kinds_are_equal_to_themselves(rt: HostRuntime) {
    kind_laws();
    let kind = InstrumentKind::ObservableCounter;
    let copy = kind.clone().expect(&rt, "a copy");
    assert!(rt; are_distinct(&[kind, copy, InstrumentKind::Counter]));
    let preferred = kind.temporality_preference(Temporality::LowMemory);
    assert!(rt; preferred == Temporality::Cumulative);
}
