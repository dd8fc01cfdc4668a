//! Streams of records by sets of attributes: worked rows and ported tests, as what collections give after each of some
//! steps.

use super::bounds;
use super::scripts::Made;
use super::steps::{Readable, Step, Stepped, assert_steps, show, show_set};
use otel_aggregate::aggregators::number::Number;
use otel_aggregate::settings::HistogramSettings;
use otel_aggregate::typed::{TypedAggregate, TypedStream};
use otel_aggregate::value_map::hashing::SetHashBuilder;
use otel_common::faults::Fault;
use otel_common::keys::Key;
use otel_common::lists::Items;
use otel_data::exemplars::Exemplar;
use otel_data::gauges::Gauge;
use otel_data::histograms::Histogram;
use otel_data::sums::Sum;
use std::alloc::Global;
use std::fmt::{Debug, Display};
use std::process::Abort;
use std::slice::Iter;

mod histograms;
mod last_values;
pub mod precomputed_sums;
mod sums;
mod values;

/// What a collection gives, as text: its moments, what it says of all points, and each point.
pub trait Told {
    fn tell(&self, text: &mut String) -> Result<(), Fault>;
}

/// What stands before the value of a point; it tells of exemplars, which no point of a collection has.
fn arrow<T>(exemplars: Iter<'_, Exemplar<T>>) -> &'static str {
    if exemplars.as_slice().is_empty() {
        "-> "
    } else {
        "with exemplars -> "
    }
}

impl<T: Copy + Display> Told for Sum<T> {
    fn tell(&self, text: &mut String) -> Result<(), Fault> {
        let kind = if self.is_monotonic() {
            "monotonic"
        } else {
            "signed"
        };
        let temporality = self.temporality();
        write!(
            text,
            "{}..{} {temporality:?} {kind}",
            self.start_time(),
            self.time()
        )?;
        for point in self.data_points() {
            show_set(text, "; ", point.attributes(), arrow(point.exemplars()))?;
            show(text, &point.value())?;
        }
        Ok(())
    }
}

impl<T: Copy + Display> Told for Gauge<T> {
    fn tell(&self, text: &mut String) -> Result<(), Fault> {
        write!(text, "{:?}..{}", self.start_time(), self.time())?;
        for point in self.data_points() {
            show_set(text, "; ", point.attributes(), arrow(point.exemplars()))?;
            show(text, &point.value())?;
        }
        Ok(())
    }
}

/// Of each point the count, the least and the greatest value and the sum, then the bounds, and the counts of buckets.
impl<T: Copy + Debug> Told for Histogram<T> {
    fn tell(&self, text: &mut String) -> Result<(), Fault> {
        let temporality = self.temporality();
        write!(
            text,
            "{}..{} {temporality:?}",
            self.start_time(),
            self.time()
        )?;
        for point in self.data_points() {
            show_set(text, "; ", point.attributes(), arrow(point.exemplars()))?;
            write!(
                text,
                "({}, {:?}, {:?}, {:?}) {:?} {:?}",
                point.count(),
                point.min(),
                point.max(),
                point.sum(),
                point.bounds().as_slice(),
                point.bucket_counts().as_slice()
            )?;
        }
        Ok(())
    }
}

/// Writes what a collection gives, unless it was refused.
fn tell(text: &mut String, given: Result<impl Told + Drop, Fault>) -> Result<(), Fault> {
    given?.tell(text)
}

impl<T: Number + Drop + Readable, A: TypedAggregate<T>> Stepped for TypedStream<T, A>
where
    A::Data: Told,
{
    fn step(&mut self, alloc: Global, step: &Step, text: &mut String) -> Result<(), Fault> {
        let number = u64::read(step.place);
        match step.name {
            "measure" => self.measure(Readable::read(step.value), step.set),
            "bind" => self.bind(u64::read(step.value), step.set),
            "update" => show(
                text,
                &self.update_bound(number, 0, Readable::read(step.value)),
            ),
            "unbind" => {
                self.unbind(number);
                Ok(())
            }
            "collect" => tell(text, self.collect(alloc, number)),
            _ => show(text, &"no such step"),
        }
    }
}

/// Makes a stream at 100, and asserts what its steps answer.
pub fn assert_stream<T: Number + Drop + Readable, A: TypedAggregate<T>>(
    rt: &impl Abort,
    alloc: Global,
    settings: A::Settings,
    allow: Option<Items<Key>>,
    made: &Made,
)
where
    A::Data: Told,
{
    let mut stream: TypedStream<T, A> = TypedStream::new(
        alloc,
        SetHashBuilder::default(),
        settings,
        made.temporality,
        allow,
        made.limit,
        100,
    )
    .expect(rt, made.lines);
    assert_steps(rt, alloc, &mut stream, made.lines).expect(rt, made.lines);
}

/// Settings of a histogram with the bounds that a text shows, which keeps everything or only the counts.
pub fn histogram(rt: &impl Abort, alloc: Global, shown: &str, is_whole: bool) -> HistogramSettings {
    HistogramSettings {
        bounds: bounds(alloc, shown).expect(rt, shown),
        has_min_max: is_whole,
        has_sum: is_whole,
    }
}
