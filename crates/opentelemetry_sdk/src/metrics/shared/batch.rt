//! Records that wait, made series by series.

ghost use Rattle.std.specs.Prelude.{◌≡◌, ◌≤◌, ◌<◌, ◌∷◌, ℕ, List, true, length, map, take};
ghost use Rattle.std.specs.List.{AllByRecursion as EachOf};
ghost use Rattle.otel_data.specs.declared.numbers.NumberValue.{NumberValue};
ghost use Rattle.otel_model.specs.Batches.{written_all, written_each};
ghost use Rattle.otel_model.specs.State.{State};
ghost use Rattle.opentelemetry_sdk.specs.Batches.{AreReadyIn, IsIn, IsKnownGroup, prepared_of};
ghost use Rattle.opentelemetry_sdk.specs.Correspondence.{number_of};
ghost use Rattle.opentelemetry_sdk.specs.Groups.{AreGrouped, AreOfOneType, listed_at, series_at, with_numbers};
ghost use Rattle.opentelemetry_sdk.specs.Pending.{AreDone, call_in};
ghost use Rattle.opentelemetry_sdk.specs.pipeline.Pipelines.{part_of};

use crate::metrics::shared::groups::Groups;
use crate::metrics::shared::waiting::Waiting;
use crate::pipeline::Pipeline;
use crate::pipeline::change::Change;
use crate::provider_core::Core;
use crate::provider_core::checks::check_value;
use crate::provider_core::each_pipeline::{change_all, prepare_known_all};
use crate::provider_core::instrument::Instrument;
use otel_data::numbers::NumberValue;

/// Prepares a record of the series at this place, beside those that are prepared, in all streams that it feeds, and answers
/// whether its instrument takes these values and all these streams know its attributes.
fn prepare_group(
    pipelines: &mut [Pipeline],
    instruments: &[Instrument],
    waiting: &Waiting,
    place: usize,
    values: &[NumberValue],
) -> bool
    requires within { place < length waiting.now.series }
    requires alike { AreOfOneType values.now }
    ensures same { map part_of pipelines.new ≡ map part_of pipelines.old }
    ensures known { result ≡ true → (st : State) → IsIn st (map part_of pipelines.old) instruments.now → IsKnownGroup waiting.now.series st (place, values.now) }
    ensures ready { result ≡ true → pipelines.new ≡ map (prepared_of (series_at waiting.now.series place)) pipelines.old }
{
    let Some(first) = values.first() else {
        return false;
    };
    let series = waiting.series(place);
    if check_value(instruments, series.instrument, *first).is_err() {
        return false;
    }
    prepare_known_all(pipelines, series.instrument, &series.attributes.given())
}

/// Gives up the records of these series that are prepared, so that streams keep no memory for them.
#[inline(never)]
fn give_up(pipelines: &mut [Pipeline], waiting: &Waiting, groups: &Groups)
    requires { EachOf (λ g. g.0 < length waiting.now.series) groups.now.groups }
    ensures { map part_of pipelines.new ≡ map part_of pipelines.old }
{
    for number in 0..groups.len() {
        let (place, _) = groups.get(number);
        change_all(
            pipelines,
            waiting.series(place).instrument,
            Change::Each(&[]),
        );
    }
}

/// Prepares records of these series, the first one to be made first, in all streams that they feed, and answers whether all
/// these streams know them.
fn prepare_groups(
    pipelines: &mut [Pipeline],
    instruments: &[Instrument],
    waiting: &Waiting,
    groups: &Groups,
) -> bool
    requires within { EachOf (λ g. (g.0 < length waiting.now.series) × AreOfOneType g.1) groups.now.groups }
    ensures same { map part_of pipelines.new ≡ map part_of pipelines.old }
    ensures ready { result ≡ true → (st : State) → IsIn st (map part_of pipelines.old) instruments.now → AreReadyIn waiting.now.series groups.now.groups st pipelines.new instruments.now }
{
    let mut left = groups.len();
    while left > 0 {
        left -= 1;
        let (place, values) = groups.get(left);
        if !prepare_group(pipelines, instruments, waiting, place, values) {
            give_up(pipelines, waiting, groups);
            return false;
        }
    }
    true
}

/// Makes the records of the series at this place, which is prepared to be made next, with these values.
fn record_group(
    pipelines: &mut [Pipeline],
    instruments: &mut Vec<Instrument>,
    waiting: &Waiting,
    place: usize,
    values: &[NumberValue],
)
    requires within { place < length waiting.now.series }
    requires alike { AreOfOneType values.now }
    requires known { (st : State) × (gs : List (ℕ × List NumberValue)) × AreReadyIn waiting.now.series ((place, values.now) ∷ gs) st pipelines.old instruments.old.items }
    ensures { (st : State) (gs : List (ℕ × List NumberValue)) → AreReadyIn waiting.now.series ((place, values.now) ∷ gs) st pipelines.old instruments.old.items
        → AreReadyIn waiting.now.series gs (written_all (listed_at waiting.now.series place) (map number_of values.now) st) pipelines.new instruments.new.items }
{
    let series = waiting.series(place);
    change_all(pipelines, series.instrument, Change::Each(values));
    instruments[series.instrument].accept_each(values);
}

/// Makes the records of these series, which are prepared, one series after another.
fn record_groups(
    pipelines: &mut [Pipeline],
    instruments: &mut Vec<Instrument>,
    waiting: &Waiting,
    groups: &Groups,
)
    requires within { EachOf (λ g. (g.0 < length waiting.now.series) × AreOfOneType g.1) groups.now.groups }
    requires ready { (st : State) × AreReadyIn waiting.now.series groups.now.groups st pipelines.old instruments.old.items }
    ensures { (st : State) → AreReadyIn waiting.now.series groups.now.groups st pipelines.old instruments.old.items
        → IsIn (written_each (listed_at waiting.now.series) (map with_numbers groups.now.groups) st) (map part_of pipelines.new) instruments.new.items }
{
    for number in 0..groups.len() {
        let (place, values) = groups.get(number);
        record_group(pipelines, instruments, waiting, place, values);
    }
}

impl Core {
    /// Makes the first records that wait, up to this many, series by series, and answers how many; none if they are few
    /// for their series, if a stream does not know one of these, or if there is no memory to put them together.
    pub(crate) fn record_waiting(&mut self, waiting: &Waiting, most: usize) -> usize
        ensures few { result ≤ most }
        ensures within { result ≤ length waiting.now.records }
        ensures made { AreDone self.old.state (map call_in (take result waiting.now.records)) self.new.state }
        ensures seeded { self.new.hash_seed ≡ self.old.hash_seed }
    {
        if let Some(groups) = waiting.groups()
            && groups.records() <= most
        {
            return self.record_grouped(waiting, groups);
        }
        if waiting.are_few(most) {
            return 0;
        }
        match Groups::new(self.alloc, waiting, most) {
            Some(groups) => self.record_grouped(waiting, &groups),
            None => 0,
        }
    }

    /// Makes the records of these groups, and answers how many; none if they are few for their series, or if a stream
    /// does not know one of these.
    fn record_grouped(&mut self, waiting: &Waiting, groups: &Groups) -> usize
        requires { AreGrouped waiting.now groups.now }
        ensures few { result ≤ groups.now.records }
        ensures within { result ≤ length waiting.now.records }
        ensures made { AreDone self.old.state (map call_in (take result waiting.now.records)) self.new.state }
        ensures seeded { self.new.hash_seed ≡ self.old.hash_seed }
    {
        if groups.records() / 2 < groups.len()
            || !prepare_groups(&mut self.pipelines, &self.instruments, waiting, groups)
        {
            return 0;
        }
        record_groups(&mut self.pipelines, &mut self.instruments, waiting, groups);
        groups.records()
    }
}
