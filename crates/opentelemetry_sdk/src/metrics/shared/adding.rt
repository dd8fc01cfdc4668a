//! What a thread does with its worker: it adds records to the list, and looks at them.

ghost use Rattle.std.specs.Prelude.{◌≡◌, ◌≤◌, ◌<◌, ◌+◌, ◌++◌, ◌∷◌, [], Contains, drop, length, map, Err, None, Some, IsSome, IfOk, OnOk, OnErr, IfSome, IfNone, IsOk, IsOkUnless};
ghost use Rattle.opentelemetry_sdk.specs.Correspondence.{call_of};
ghost use Rattle.opentelemetry_sdk.specs.Typed.{instrument_number, instrument_identity, handle_number, handle_identity};
ghost use Rattle.opentelemetry_sdk.specs.Pending.{call_in};
ghost use Rattle.opentelemetry_sdk.specs.Series.{series};
ghost use Rattle.opentelemetry_sdk.specs.Waiting.{KeepsSeries};
ghost use Rattle.opentelemetry_sdk.specs.Workers.{pending_of, records_of, values_of, worker_identity, worker_number, room_of, series_named, series_of, waits_of};
ghost use Rattle.opentelemetry_sdk.specs.declared.metrics.shared.worker.WorkerSeries.{WorkerSeries};

use crate::calls::Call;
use crate::metrics::shared::account::Account;
use crate::metrics::shared::pending::{PendingRecord, WaitingRecord};
use crate::metrics::shared::worker::{Worker, WorkerSeries};
use crate::values::bound::Bound;
use crate::values::synchronous::{Adds, Records, Synchronous};
use otel_common::attributes::KeyValue;
use otel_common::faults::Fault;
use otel_data::numbers::{NumberType, NumberValue};
use std::marker::PhantomData;

/// Records by number. Nothing is checked here: `Locked::submit` is refused if a record can't be made.
///
/// A list of attributes that is known at its instrument is looked up, and then a record takes memory only once in a
/// while, for the list of records: not as long as `reserve` made room.
impl<C: Account, S: Account> Worker<C, S> {
    /// Adds a record to the end of the list: a value, in the instrument's unit, with attributes in any order, for the
    /// instrument of this number.
    ///
    /// If the list is new at its instrument, it moves in. Refused only for want of memory, and not if it is known and
    /// there is room; then no record is added.
    pub fn add(
        &mut self,
        instrument: usize,
        value: NumberValue,
        attributes: Vec<KeyValue>,
    ) -> Result<(), Fault>
        ensures added { OnOk result (pending_of self.new ≡ pending_of self.old ++ PendingRecord.Plain instrument value attributes.items ∷ []) }
        ensures unadded { OnErr result (pending_of self.new ≡ pending_of self.old) }
        ensures only_memory { IsOkUnless result Fault.OutOfMemory }
        ensures kept { (records_of self.new ≡ records_of self.old) × (values_of self.new ≡ values_of self.old) × (worker_identity self.new ≡ worker_identity self.old) }
        ensures names { worker_number self.new ≡ worker_number self.old }
        ensures known { Contains (series_of self.old) (series instrument attributes.items) → 0 < room_of self.old → IsOk result }
        ensures learnt { OnOk result (Contains (series_of self.new) (series instrument attributes.items)) }
        ensures room { room_of self.old ≤ room_of self.new + 1 }
        ensures series { KeepsSeries (waits_of self.old) (waits_of self.new) }
    {
        self.waiting.add(instrument, value, attributes)
    }

    /// Adds a record through the handle of this number to the end of the list. Otherwise the same as `add`.
    pub fn add_bound(&mut self, handle: u64, value: NumberValue) -> Result<(), Fault>
        ensures added { OnOk result (pending_of self.new ≡ pending_of self.old ++ PendingRecord.Bound handle value ∷ []) }
        ensures unadded { OnErr result (pending_of self.new ≡ pending_of self.old) }
        ensures only_memory { IsOkUnless result Fault.OutOfMemory }
        ensures kept { (records_of self.new ≡ records_of self.old) × (values_of self.new ≡ values_of self.old) × (worker_identity self.new ≡ worker_identity self.old) }
        ensures names { worker_number self.new ≡ worker_number self.old }
        ensures known { 0 < room_of self.old → IsOk result }
        ensures room { room_of self.old ≤ room_of self.new + 1 }
        ensures series { KeepsSeries (waits_of self.old) (waits_of self.new) }
    {
        self.waiting.push(WaitingRecord::Bound { handle, value })
    }

    /// Makes room for this many more records. Refused only for want of memory; it changes nothing else.
    pub fn reserve(&mut self, additional: usize) -> Result<(), Fault>
        ensures room { OnOk result (additional ≤ room_of self.new) }
        ensures least { room_of self.old ≤ room_of self.new }
        ensures pending { pending_of self.new ≡ pending_of self.old }
        ensures series { series_of self.new ≡ series_of self.old }
        ensures only_memory { IsOkUnless result Fault.OutOfMemory }
        ensures kept { (records_of self.new ≡ records_of self.old) × (values_of self.new ≡ values_of self.old) × (worker_identity self.new ≡ worker_identity self.old) }
        ensures names { worker_number self.new ≡ worker_number self.old }
    {
        self.waiting.reserve(additional)
    }

    /// Puts the records that wait together by series, which `Locked::submit` otherwise does under the lock. Call it right
    /// before the lock is taken, once the list is complete: a record that is added later is left out, and one of a new
    /// series undoes it. Takes memory for a copy of the values. Nothing is done if that is refused, if few records wait for
    /// their series, or if only the front of the list was made or taken out before.
    pub fn group(&mut self)
        ensures waiting { waits_of self.new ≡ waits_of self.old }
        ensures kept { (records_of self.new ≡ records_of self.old) × (values_of self.new ≡ values_of self.old) × (worker_identity self.new ≡ worker_identity self.old) }
        ensures names { worker_number self.new ≡ worker_number self.old }
    {
        self.waiting.group();
    }
}

/// Records of instruments and handles as values (Metrics API, "Synchronous Instrument API").
///
/// An instrument or a handle of another provider is known by its identity, and refused before anything else. If two
/// providers of one identity mix them up, the record goes to the instrument or the handle of the same number.
impl<C: Account, S: Account> Worker<C, S> {
    /// Adds a value to a counter: puts the record, with attributes in any order, at the end of the list.
    ///
    /// Copies the attributes only if they are new at the counter. Refused with `UnknownInstrument` if the counter belongs
    /// to a provider of another identity, otherwise only for want of memory, and not if the attributes are known and there
    /// is room. A refused call adds no record.
    pub fn add_to<K: Adds, T: NumberType>(
        &mut self,
        counter: &Synchronous<K, T>,
        value: T,
        attributes: &[KeyValue],
    ) -> Result<(), Fault>
        ensures added { OnOk result (pending_of self.new ≡ pending_of self.old ++ PendingRecord.Plain (instrument_number counter.now) (T.value value) attributes.now ∷ []) }
        ensures unadded { OnErr result (pending_of self.new ≡ pending_of self.old) }
        ensures foreign { ¬ (instrument_identity counter.now ≡ worker_identity self.old) → result ≡ Err Fault.UnknownInstrument }
        ensures own { instrument_identity counter.now ≡ worker_identity self.old → IsOkUnless result Fault.OutOfMemory }
        ensures kept { (records_of self.new ≡ records_of self.old) × (values_of self.new ≡ values_of self.old) × (worker_identity self.new ≡ worker_identity self.old) }
        ensures names { worker_number self.new ≡ worker_number self.old }
        ensures known { instrument_identity counter.now ≡ worker_identity self.old → Contains (series_of self.old) (series (instrument_number counter.now) attributes.now) → 0 < room_of self.old → IsOk result }
        ensures learnt { OnOk result (Contains (series_of self.new) (series (instrument_number counter.now) attributes.now)) }
        ensures room { room_of self.old ≤ room_of self.new + 1 }
        ensures series { KeepsSeries (waits_of self.old) (waits_of self.new) }
    {
        if counter.identity() != self.identity {
            return Err(Fault::UnknownInstrument);
        }
        self.waiting
            .add_listed(counter.number(), value.into_value(), attributes)
    }

    /// Records a value at a histogram or a gauge. Otherwise the same as `add_to`.
    pub fn record_at<K: Records, T: NumberType>(
        &mut self,
        instrument: &Synchronous<K, T>,
        value: T,
        attributes: &[KeyValue],
    ) -> Result<(), Fault>
        ensures added { OnOk result (pending_of self.new ≡ pending_of self.old ++ PendingRecord.Plain (instrument_number instrument.now) (T.value value) attributes.now ∷ []) }
        ensures unadded { OnErr result (pending_of self.new ≡ pending_of self.old) }
        ensures foreign { ¬ (instrument_identity instrument.now ≡ worker_identity self.old) → result ≡ Err Fault.UnknownInstrument }
        ensures own { instrument_identity instrument.now ≡ worker_identity self.old → IsOkUnless result Fault.OutOfMemory }
        ensures kept { (records_of self.new ≡ records_of self.old) × (values_of self.new ≡ values_of self.old) × (worker_identity self.new ≡ worker_identity self.old) }
        ensures names { worker_number self.new ≡ worker_number self.old }
        ensures known { instrument_identity instrument.now ≡ worker_identity self.old → Contains (series_of self.old) (series (instrument_number instrument.now) attributes.now) → 0 < room_of self.old → IsOk result }
        ensures learnt { OnOk result (Contains (series_of self.new) (series (instrument_number instrument.now) attributes.now)) }
        ensures room { room_of self.old ≤ room_of self.new + 1 }
        ensures series { KeepsSeries (waits_of self.old) (waits_of self.new) }
    {
        if instrument.identity() != self.identity {
            return Err(Fault::UnknownInstrument);
        }
        self.waiting
            .add_listed(instrument.number(), value.into_value(), attributes)
    }

    /// Adds a value through a handle of a counter, or records it through a handle of a histogram or a gauge: puts the
    /// record at the end of the list.
    ///
    /// Refused with `UnknownHandle` if the handle belongs to a provider of another identity, otherwise only for want of
    /// memory. A refused call changes nothing.
    pub fn add_through<T: NumberType>(&mut self, handle: &Bound<T>, value: T) -> Result<(), Fault>
        ensures added { OnOk result (pending_of self.new ≡ pending_of self.old ++ PendingRecord.Bound (handle_number handle.now) (T.value value) ∷ []) }
        ensures unadded { OnErr result (pending_of self.new ≡ pending_of self.old) }
        ensures foreign { ¬ (handle_identity handle.now ≡ worker_identity self.old) → result ≡ Err Fault.UnknownHandle }
        ensures own { handle_identity handle.now ≡ worker_identity self.old → IsOkUnless result Fault.OutOfMemory }
        ensures kept { (records_of self.new ≡ records_of self.old) × (values_of self.new ≡ values_of self.old) × (worker_identity self.new ≡ worker_identity self.old) }
        ensures names { worker_number self.new ≡ worker_number self.old }
        ensures known { handle_identity handle.now ≡ worker_identity self.old → 0 < room_of self.old → IsOk result }
        ensures room { room_of self.old ≤ room_of self.new + 1 }
        ensures series { KeepsSeries (waits_of self.old) (waits_of self.new) }
    {
        if handle.identity() != self.identity {
            return Err(Fault::UnknownHandle);
        }
        self.add_bound(handle.number(), value.into_value())
    }
}

/// Records of series by name.
impl<C: Account, S: Account> Worker<C, S> {
    /// Names the series of an instrument and a list of attributes, in any order, which is copied if it is new.
    ///
    /// Refused with `UnknownInstrument` if the instrument belongs to a provider of another identity, otherwise only for
    /// want of memory, and not if the list is known.
    pub fn series<K, T: NumberType>(
        &mut self,
        instrument: &Synchronous<K, T>,
        attributes: &[KeyValue],
    ) -> Result<WorkerSeries<T>, Fault>
        ensures named { IfOk result (λ n. series_named n self.new ≡ Some (series (instrument_number instrument.now) attributes.now)) }
        ensures foreign { ¬ (instrument_identity instrument.now ≡ worker_identity self.old) → result ≡ Err Fault.UnknownInstrument }
        ensures own { instrument_identity instrument.now ≡ worker_identity self.old → IsOkUnless result Fault.OutOfMemory }
        ensures known { instrument_identity instrument.now ≡ worker_identity self.old → Contains (series_of self.old) (series (instrument_number instrument.now) attributes.now) → IsOk result }
        ensures pending { pending_of self.new ≡ pending_of self.old }
        ensures kept { (records_of self.new ≡ records_of self.old) × (values_of self.new ≡ values_of self.old) × (worker_identity self.new ≡ worker_identity self.old) }
        ensures names { worker_number self.new ≡ worker_number self.old }
        ensures room { room_of self.old ≤ room_of self.new }
        ensures series { KeepsSeries (waits_of self.old) (waits_of self.new) }
    {
        if instrument.identity() != self.identity {
            return Err(Fault::UnknownInstrument);
        }
        let place = self.waiting.placed(instrument.number(), attributes)?;
        Ok(WorkerSeries {
            identity: self.identity,
            worker: self.number,
            emptied: self.waiting.emptied(),
            place,
            of: PhantomData,
        })
    }

    /// Adds a value to a series of a counter, or records it at one of a histogram or a gauge: puts the record at the end
    /// of the list, as `add_to` does, without a look-up.
    ///
    /// Refused with `UnknownHandle` if the worker doesn't know the series: it belongs to another worker, or the worker
    /// forgot its series since. Otherwise refused only for want of memory, and not if there is room. A refused call
    /// changes nothing.
    #[inline(always)]
    pub fn add_at<T: NumberType>(&mut self, at: WorkerSeries<T>, value: T) -> Result<(), Fault>
        ensures added { OnOk result (IfSome (series_named at self.old) (λ s. pending_of self.new ≡ pending_of self.old ++ PendingRecord.Plain s.instrument (T.value value) s.attributes ∷ [])) }
        ensures unadded { OnErr result (pending_of self.new ≡ pending_of self.old) }
        ensures stale { series_named at self.old ≡ None → result ≡ Err Fault.UnknownHandle }
        ensures own { IsSome (series_named at self.old) → IsOkUnless result Fault.OutOfMemory }
        ensures known { IsSome (series_named at self.old) → 0 < room_of self.old → IsOk result }
        ensures kept { (records_of self.new ≡ records_of self.old) × (values_of self.new ≡ values_of self.old) × (worker_identity self.new ≡ worker_identity self.old) }
        ensures room { room_of self.old ≤ room_of self.new + 1 }
        ensures series { series_of self.new ≡ series_of self.old }
        ensures names { (n : WorkerSeries T) → series_named n self.new ≡ series_named n self.old }
    {
        if at.identity != self.identity || at.worker != self.number {
            return Err(Fault::UnknownHandle);
        }
        self.waiting
            .add_at(at.emptied, at.place, value.into_value())
    }
}

/// What a worker has.
impl<C: Account, S: Account> Worker<C, S> {
    /// The identity of the provider that opened the worker.
    pub fn identity(&self) -> u64
        ensures { result ≡ worker_identity self.now }
    {
        self.identity
    }

    /// How many records wait in the list.
    pub fn pending(&self) -> usize
        ensures { result ≡ length (pending_of self.now) }
    {
        self.waiting.len()
    }

    /// How many records of this worker were accepted.
    pub fn submitted(&self) -> u64
        ensures { result ≡ records_of self.now }
    {
        self.submitted
    }

    /// Takes the first record out of the list, as the call that would make it, for instance if `Locked::submit` is
    /// refused because of it. `None` only if there is none. Takes no memory: the call shares the attributes.
    pub fn take_first(&mut self) -> Option<Call>
        ensures first { IfSome result (λ call. map call_in (pending_of self.old) ≡ call_of call ∷ map call_in (pending_of self.new)) }
        ensures rest { pending_of self.new ≡ drop 1 (pending_of self.old) }
        ensures none { IfNone result (pending_of self.old ≡ []) }
        ensures kept { (records_of self.new ≡ records_of self.old) × (values_of self.new ≡ values_of self.old) × (worker_identity self.new ≡ worker_identity self.old) }
        ensures names { worker_number self.new ≡ worker_number self.old }
        ensures series { series_of self.new ≡ series_of self.old }
        ensures room { room_of self.old ≤ room_of self.new }
    {
        self.waiting.take_first()
    }
}
