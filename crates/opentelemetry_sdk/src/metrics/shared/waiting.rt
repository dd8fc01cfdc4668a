//! The list of a worker.

ghost use Rattle.std.specs.Prelude.{◌≡◌, ◌≤◌, ◌<◌, ◌+◌, ◌++◌, ◌∷◌, ◌⊎◌, [], ℕ, Contains, Err, slice_get, None, Some, IsSome, IsOk, IfOk, OnOk, OnErr, IfSome, IfNone, get_or, IsOkUnless, drop, length, map, position};
ghost use Rattle.std.specs.List.{AllByRecursion as EachOf};
ghost use Rattle.opentelemetry_sdk.specs.Correspondence.{call_of};
ghost use Rattle.opentelemetry_sdk.specs.Groups.{AreGrouped};
ghost use Rattle.opentelemetry_sdk.specs.Pending.{bits_in, call_in};
ghost use Rattle.opentelemetry_sdk.specs.Series.{series, series_eq};
ghost use Rattle.opentelemetry_sdk.specs.Waiting.{HasSeries, KeepsSeries, lent_record, record_in, series_placed};

use crate::calls::Call;
use crate::calls::record_attributes::SharedAttributes;
use crate::metrics::shared::groups::Groups;
use crate::metrics::shared::pending::{LentRecord, PendingRecord, WaitingRecord};
use crate::metrics::shared::series::{Series, SeriesQuery};
use indexmap::IndexMap;
use otel_aggregate::value_map::hashed_key::OwnedSet;
use otel_aggregate::value_map::hashing::SetHashBuilder;
use otel_common::attributes::KeyValue;
use otel_common::faults::Fault;
use otel_data::numbers::NumberValue;
use std::alloc::{AllocError, Global};
use std::marker::Model;

/// How many series a worker knows at most before it forgets them all: it does so once no record waits, before it adds
/// another one.
pub const MOST_SERIES: usize = 1000;

/// Fewer records than this are made one by one.
pub(crate) const FEW: usize = 8;

/// The series that a worker knows, and the records that wait.
#[derive(Drop)]
pub(crate) struct Waiting {
    /// How often all series were let go. A place names one series as long as that stays the same.
    emptied: u64,
    /// The series, each with its list to share out.
    series: IndexMap<Series, SharedAttributes, SetHashBuilder>,
    /// The records that are made and not yet let go, and after them those that wait to be made.
    records: Vec<WaitingRecord>,
    /// How many records at the front are made.
    made: usize,
    /// Whether there may be a record through a handle.
    bound: bool,
    /// The first records that wait, put together by series, if that was asked for. Once some are made, it is only there to
    /// be let go with them.
    groups: Option<Groups>,
}

impl Model for Waiting {
    ghost use Rattle.std.specs.Prelude.{◌≡◌, ◌-◌, ◌≤◌, IfSome, length, map, drop};
    ghost use Rattle.std.specs.List.{AllByRecursion};
    ghost use Rattle.std.specs.Vec.{vec_capacity};
    ghost use Rattle.indexmap.specs.IndexMap.{keys};
    ghost use Rattle.opentelemetry_sdk.specs.Groups.{AreGrouped};
    ghost use Rattle.opentelemetry_sdk.specs.Series.{IsListOf};
    ghost use Rattle.opentelemetry_sdk.specs.Waiting.{Waits, HasSeries, record_in};

    ghost Value = { Waits };

    ghost view = { λ w. record {
      emptied = w.emptied;
      series = keys w.series;
      records = map (record_in (keys w.series)) (drop w.made w.records.items);
      room = vec_capacity w.records - length w.records.items;
    } };

    ghost invariant = { λ w. (w.made ≤ length w.records.items) × AllByRecursion (HasSeries (length (keys w.series))) w.records.items × AllByRecursion IsListOf w.series.entries × (w.made ≡ 0 → IfSome w.groups (AreGrouped (record {
      emptied = w.emptied;
      series = keys w.series;
      records = map (record_in (keys w.series)) (drop w.made w.records.items);
      room = vec_capacity w.records - length w.records.items;
    }))) };
}

impl Waiting {
    /// A list without records, which knows no series and hashes them with this hasher. Takes no memory.
    pub(crate) fn new(alloc: Global, hasher: SetHashBuilder) -> Waiting
        ensures { (result.emptied ≡ 0) × (result.series ≡ []) × (result.records ≡ []) }
    {
        Waiting {
            emptied: 0,
            series: IndexMap::with_hasher(alloc, hasher),
            records: Vec::new(alloc),
            made: 0,
            bound: false,
            groups: None,
        }
    }

    /// How many records wait.
    pub(crate) fn len(&self) -> usize
        ensures { result ≡ length self.now.records }
    {
        self.records.len() - self.made
    }

    /// The first record that waits.
    pub(crate) fn first(&self) -> Option<LentRecord<'_>>
        ensures first { IfSome result (λ r. self.now.records ≡ lent_record r ∷ drop 1 self.now.records) }
        ensures none { IfNone result (self.now.records ≡ []) }
    {
        match *self.records.get(self.made)? {
            WaitingRecord::Plain { place, value } => {
                let (series, _) = self.series.get_index(place)?;
                Some(LentRecord::Plain {
                    instrument: series.instrument,
                    value,
                    attributes: series.attributes.given(),
                })
            }
            WaitingRecord::Bound { handle, value } => Some(LentRecord::Bound { handle, value }),
        }
    }

    /// How many series there are.
    pub(crate) fn count_series(&self) -> usize
        ensures { result ≡ length self.now.series }
    {
        self.series.len()
    }

    /// How many records wait before the first one through a handle. Where the last one that was made isn't through a
    /// handle, it answers 0 but once in so many records as there are series, so that little time goes into putting them
    /// together. Where the first records are put together, it answers how many these are.
    pub(crate) fn count_listed(&self) -> usize {
        if let Some(groups) = self.groups() {
            return groups.records();
        }
        let listed = self.made > 0
            && matches!(self.records[self.made - 1], WaitingRecord::Plain { .. });
        if listed && self.made % self.series.len().max(FEW) > 0 {
            return 0;
        }
        self.count_plain()
    }

    /// How many records wait before the first one through a handle.
    fn count_plain(&self) -> usize {
        if !self.bound {
            return self.len();
        }
        self.as_slice()
            .iter()
            .take_while(|record| matches!(record, WaitingRecord::Plain { .. }))
            .count()
    }

    /// Whether this many records seem to be few for their series, so that they are made one by one: there are fewer than two
    /// for each series that is known, and among the first ones few are of a series that came before.
    pub(crate) fn are_few(&self, records: usize) -> bool {
        let series = self.count_series();
        if records < FEW.max(series / FEW) {
            return true;
        }
        records / 2 < series && self.count_repeated() < FEW / 2
    }

    /// How many of the first records that wait, of twice `FEW`, are of the series of an earlier one.
    fn count_repeated(&self) -> usize {
        let records = self.as_slice();
        let mut repeated: usize = 0;
        for number in 1..records.len().min(2 * FEW) {
            let place = records[number].place();
            let mut earlier = records.iter().take(number);
            if earlier.any(|record| record.place() == place) {
                repeated = repeated.saturating_add(1);
            }
        }
        repeated
    }

    /// Puts the records before the first one through a handle together by series, unless they are few, others are made and
    /// not yet let go, or that isn't possible.
    pub(crate) fn group(&mut self)
        ensures { self.new ≡ self.old }
    {
        let most = self.count_plain();
        let mut groups = None;
        if self.made == 0 && !self.are_few(most) {
            groups = Groups::new(*self.records.allocator(), self, most);
        }
        self.groups = groups;
    }

    /// The first records that wait, put together by series, if that was asked for and they are still these.
    pub(crate) fn groups(&self) -> Option<&Groups>
        ensures { IfSome result (λ g. AreGrouped self.now g.now) }
    {
        if self.made == 0 {
            self.groups.as_ref()
        } else {
            None
        }
    }

    /// The records that wait, as the worker keeps them.
    #[inline(always)]
    pub(crate) fn as_slice(&self) -> &[WaitingRecord]
        ensures records { map (record_in self.now.series) result.now ≡ self.now.records }
        ensures series { EachOf (HasSeries (length self.now.series)) result.now }
    {
        &self.records[self.made..]
    }

    /// The series at this place.
    pub(crate) fn series(&self, place: usize) -> &Series
        requires { place < length self.now.series }
        ensures { result.now ≡ get_or self.now.series place (series 0 []) }
    {
        let (series, _) = self.series.get_index(place).unwrap();
        series
    }

    /// Lets the first record that waits go, and returns the 64 bits of its value.
    #[inline(always)]
    pub(crate) fn pass_first(&mut self) -> u64
        requires { 0 < length self.old.records }
        ensures first { (p : PendingRecord) × (self.old.records ≡ p ∷ self.new.records) × (result ≡ bits_in p) }
        ensures kept { (self.new.emptied ≡ self.old.emptied) × (self.new.series ≡ self.old.series) × (self.new.room ≡ self.old.room) }
    {
        let first = self.records[self.made];
        self.made += 1;
        first.bits()
    }

    /// Takes the first record that waits, as the call that makes it. Takes no memory.
    pub(crate) fn take_first(&mut self) -> Option<Call>
        ensures first { IfSome result (λ call. map call_in self.old.records ≡ call_of call ∷ map call_in self.new.records) }
        ensures rest { self.new.records ≡ drop 1 self.old.records }
        ensures none { IfNone result (self.old.records ≡ []) }
        ensures kept { (self.new.emptied ≡ self.old.emptied) × (self.new.series ≡ self.old.series) × (self.new.room ≡ self.old.room) }
    {
        let first = *self.records.get(self.made)?;
        self.made += 1;
        match first {
            WaitingRecord::Plain { place, value } => {
                let instrument = self.series.get_index(place)?.0.instrument;
                let list = self.series.get_index_mut(place)?;
                Some(Call::Record {
                    instrument,
                    value,
                    attributes: list.share(),
                })
            }
            WaitingRecord::Bound { handle, value } => Some(Call::RecordBound { handle, value }),
        }
    }

    /// Lets the records that are made go, if no others wait, or else if they are more than those.
    #[inline(never)]
    fn free_made(&mut self)
        ensures records { self.new.records ≡ self.old.records }
        ensures kept { (self.new.emptied ≡ self.old.emptied) × (self.new.series ≡ self.old.series) × (self.old.room ≤ self.new.room) }
    {
        let waiting = self.records.len() - self.made;
        if waiting < self.made {
            self.records.rotate_left(self.made);
            self.records.truncate(waiting);
            self.made = 0;
            self.bound &= waiting > 0;
            self.groups = None;
        }
    }

    /// Makes room for this many more records.
    pub(crate) fn reserve(&mut self, additional: usize) -> Result<(), Fault>
        ensures room { OnOk result (additional ≤ self.new.room) }
        ensures least { self.old.room ≤ self.new.room }
        ensures kept { (self.new.emptied ≡ self.old.emptied) × (self.new.series ≡ self.old.series) × (self.new.records ≡ self.old.records) }
        ensures only_memory { IsOkUnless result Fault.OutOfMemory }
    {
        self.free_made();
        self.records.reserve(additional)?;
        Ok(())
    }

    /// Puts a record at the end.
    #[inline(always)]
    pub(crate) fn push(&mut self, given: WaitingRecord) -> Result<(), Fault>
        requires { HasSeries (length self.old.series) given }
        ensures added { OnOk result (self.new.records ≡ self.old.records ++ record_in self.old.series given ∷ []) }
        ensures unadded { OnErr result (self.new.records ≡ self.old.records) }
        ensures only_memory { IsOkUnless result Fault.OutOfMemory }
        ensures succeeds { 0 < self.old.room → IsOk result }
        ensures room { self.old.room ≤ self.new.room + 1 }
        ensures kept { (self.new.emptied ≡ self.old.emptied) × (self.new.series ≡ self.old.series) }
    {
        if self.made > 0 {
            self.free_made();
        }
        self.bound |= matches!(given, WaitingRecord::Bound { .. });
        if self.records.push(given).is_err() {
            return Err(Fault::OutOfMemory);
        }
        Ok(())
    }
}

impl Waiting {
    /// The place of a series.
    #[inline(always)]
    fn find(&self, instrument: usize, attributes: &[KeyValue]) -> Option<usize>
        ensures there { IfSome result (λ n. (n < length self.now.series) × (get_or self.now.series n (series 0 []) ≡ series instrument attributes.now)) }
        ensures none { IfNone result (position (series_eq (series instrument attributes.now)) self.now.series ≡ None) }
        ensures unknown { IfNone result (¬ Contains self.now.series (series instrument attributes.now)) }
    {
        self.series.get_index_of(&SeriesQuery {
            instrument,
            attributes,
        })
    }

    /// Forgets all series if there are as many as a worker knows and no record waits, and lets their memory go.
    fn forget_many(&mut self)
        ensures records { self.new.records ≡ self.old.records }
        ensures room { self.old.room ≤ self.new.room }
        ensures series { ((self.new.emptied ≡ self.old.emptied) × (self.new.series ≡ self.old.series)) ⊎ ((1000 ≤ length self.old.series) × (self.old.records ≡ []) × (self.new.emptied ≡ self.old.emptied + 1) × (self.new.series ≡ [])) }
    {
        if self.series.len() < MOST_SERIES || self.made < self.records.len() {
            return;
        }
        if let Some(emptied) = self.emptied.checked_add(1) {
            self.emptied = emptied;
            self.series = IndexMap::with_hasher(*self.series.allocator(), *self.series.hasher());
            self.records.clear();
            self.made = 0;
            self.bound = false;
            self.groups = None;
        }
    }

    /// Adds a series that is new, and answers its place. May forget all others before.
    #[inline(never)]
    fn learn(&mut self, instrument: usize, attributes: Vec<KeyValue>) -> Result<usize, Fault>
        requires { position (series_eq (series instrument attributes.items)) self.old.series ≡ None }
        ensures placed { IfOk result (λ n. (n < length self.new.series) × (get_or self.new.series n (series 0 []) ≡ series instrument attributes.items)) }
        ensures only_memory { IsOkUnless result Fault.OutOfMemory }
        ensures kept { (self.new.records ≡ self.old.records) × (self.old.room ≤ self.new.room) }
        ensures series { KeepsSeries self.old self.new }
    {
        self.forget_many();
        self.groups = None;
        let place = self.series.len();
        let (attributes, shared) = SharedAttributes::new(attributes)?;
        let series = Series {
            instrument,
            attributes: OwnedSet::new(*self.series.hasher(), attributes),
        };
        match self.series.insert(series, shared) {
            Ok(_) => Ok(place),
            Err(_) => Err(Fault::OutOfMemory),
        }
    }

    /// Adds a record with a list of its own.
    pub(crate) fn add(
        &mut self,
        instrument: usize,
        value: NumberValue,
        attributes: Vec<KeyValue>,
    ) -> Result<(), Fault>
        ensures added { OnOk result (self.new.records ≡ self.old.records ++ PendingRecord.Plain instrument value attributes.items ∷ []) }
        ensures unadded { OnErr result (self.new.records ≡ self.old.records) }
        ensures only_memory { IsOkUnless result Fault.OutOfMemory }
        ensures known { Contains self.old.series (series instrument attributes.items) → 0 < self.old.room → IsOk result }
        ensures room { self.old.room ≤ self.new.room + 1 }
        ensures learnt { OnOk result (Contains self.new.series (series instrument attributes.items)) }
        ensures series { KeepsSeries self.old self.new }
    {
        match self.find(instrument, &attributes) {
            Some(place) => self.push(WaitingRecord::Plain { place, value }),
            None => {
                let place = self.learn(instrument, attributes)?;
                self.push(WaitingRecord::Plain { place, value })
            }
        }
    }

    /// Adds a record with a list that is copied if its series is new.
    #[inline]
    pub(crate) fn add_listed(
        &mut self,
        instrument: usize,
        value: NumberValue,
        attributes: &[KeyValue],
    ) -> Result<(), Fault>
        ensures added { OnOk result (self.new.records ≡ self.old.records ++ PendingRecord.Plain instrument value attributes.now ∷ []) }
        ensures unadded { OnErr result (self.new.records ≡ self.old.records) }
        ensures only_memory { IsOkUnless result Fault.OutOfMemory }
        ensures known { Contains self.old.series (series instrument attributes.now) → 0 < self.old.room → IsOk result }
        ensures room { self.old.room ≤ self.new.room + 1 }
        ensures learnt { OnOk result (Contains self.new.series (series instrument attributes.now)) }
        ensures series { KeepsSeries self.old self.new }
    {
        let place = self.placed(instrument, attributes)?;
        self.push(WaitingRecord::Plain { place, value })
    }

    /// The place of the series of an instrument and a list, which is copied if the series is new.
    #[inline(always)]
    pub(crate) fn placed(
        &mut self,
        instrument: usize,
        attributes: &[KeyValue],
    ) -> Result<usize, Fault>
        ensures placed { IfOk result (λ n. (n < length self.new.series) × (get_or self.new.series n (series 0 []) ≡ series instrument attributes.now)) }
        ensures only_memory { IsOkUnless result Fault.OutOfMemory }
        ensures known { Contains self.old.series (series instrument attributes.now) → IsOk result }
        ensures kept { (self.new.records ≡ self.old.records) × (self.old.room ≤ self.new.room) }
        ensures series { KeepsSeries self.old self.new }
    {
        match self.find(instrument, attributes) {
            Some(place) => Ok(place),
            None => {
                let copied = Vec::from_clones(*self.records.allocator(), attributes)?;
                self.learn(instrument, copied)
            }
        }
    }

    /// How often the worker forgot all series.
    #[inline(always)]
    pub(crate) fn emptied(&self) -> u64
        ensures { result ≡ self.now.emptied }
    {
        self.emptied
    }

    /// Adds a record of the series at a place, if the worker forgot its series this many times.
    #[inline(always)]
    pub(crate) fn add_at(
        &mut self,
        emptied: u64,
        place: usize,
        value: NumberValue,
    ) -> Result<(), Fault>
        ensures added { OnOk result (IfSome (series_placed emptied place self.old) (λ s. self.new.records ≡ self.old.records ++ PendingRecord.Plain s.instrument value s.attributes ∷ [])) }
        ensures unadded { OnErr result (self.new.records ≡ self.old.records) }
        ensures stale { series_placed emptied place self.old ≡ None → result ≡ Err Fault.UnknownHandle }
        ensures only_memory { IsSome (series_placed emptied place self.old) → IsOkUnless result Fault.OutOfMemory }
        ensures known { IsSome (series_placed emptied place self.old) → 0 < self.old.room → IsOk result }
        ensures room { self.old.room ≤ self.new.room + 1 }
        ensures series { (self.new.emptied ≡ self.old.emptied) × (self.new.series ≡ self.old.series) }
    {
        if emptied != self.emptied || place >= self.series.len() {
            return Err(Fault::UnknownHandle);
        }
        self.push(WaitingRecord::Plain { place, value })
    }
}
