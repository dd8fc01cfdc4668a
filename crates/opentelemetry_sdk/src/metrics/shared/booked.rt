//! The core of a shared provider, with its book.

ghost use Rattle.std.specs.Prelude.{◌≡◌, ◌≤◌, ◌<◌, ◌+◌, ◌-◌, ◌%◌, ◌^◌, ◌==◌, ◌∷◌, true, false, if◌then◌else◌, [], map, sum_by, vec_len, is_ok, length, take, drop, Err, IfOk, IfErr, OnOk, OnErr};
ghost use Rattle.opentelemetry_sdk.specs.Correspondence.{call_of, observed_of, reply_of, reply_from};
ghost use Rattle.opentelemetry_sdk.specs.Known.{IsKnown};
ghost use Rattle.opentelemetry_sdk.specs.Readers.{StepReaches};
ghost use Rattle.opentelemetry_sdk.specs.States.{IsNamed};
ghost use Rattle.otel_model.specs.Calls as model;
ghost use Rattle.otel_model.specs.Demands.{Views};
ghost use Rattle.otel_model.specs.Laws.{KeepsReaders};
ghost use Rattle.otel_model.specs.Steps.{Step};
ghost use Rattle.otel_model.specs.Books.{count_in, sum_in};
ghost use Rattle.opentelemetry_sdk.specs.Pending.{call_in, bits_in, is_record, IsDone, IsRefused, IsKnownFirst, Makes, StopsBy, Submits};
ghost use Rattle.opentelemetry_sdk.specs.Waiting.{lent_record, StaysListed};
ghost use Rattle.opentelemetry_sdk.specs.Workers.{waits_of, pending_of, records_of, values_of, worker_identity, worker_number};
ghost use Rattle.otel_stream.specs.Requests.{wanted_by};

use crate::calls::{Call, Reply};
use crate::metrics::shared::account::{Account, check_book, check_workers};
use crate::metrics::shared::pending::LentRecord;
use crate::metrics::shared::waiting::Waiting;
use crate::metrics::shared::worker::Worker;
use crate::provider_core::Core;
use crate::provider_core::handles::BoundHandle;
use otel_common::faults::Fault;
use otel_data::collections::ResourceMetrics;
use otel_stream::observation::Observed;
use otel_stream::reader::MetricReader;
use otel_stream::view::View;
use std::sync::ledger::{Blank, Book, Share};

/// What a worker is told once all its records have been accepted.
#[derive(Clone, Copy, Debug, PartialEq, Eq)]
pub struct Receipt {
    /// How many records of all workers had been accepted by then.
    pub accepted: u64,
}

/// The core of a provider, and the book of what workers recorded.
///
/// What all instruments have accepted is what they had accepted before the provider was shared plus what the book has,
/// modulo 2^64, by count and by value.
pub struct Booked<C: Account, S: Account> {
    pub(crate) core: Core,
    /// How many records the book has.
    accepted: u64,
    /// How many workers were opened.
    opened: u32,
    records: Book<C>,
    values: Book<S>,
    spare_records: Share<C>,
    spare_values: Share<S>,
    ghost counted: { records.total ≡ accepted },
    ghost count_kept: { count_in core.state % 2 ^ 64 ≡ (C.before + records.total) % 2 ^ 64 },
    ghost sum_kept: { sum_in core.state % 2 ^ 64 ≡ (S.before + values.total) % 2 ^ 64 },
    ghost record_parts: { spare_records.parts + opened ≡ 4294967295 },
    ghost value_parts: { spare_values.parts + opened ≡ 4294967295 },
    ghost no_spare_record: { spare_records.amount ≡ 0 },
    ghost no_spare_value: { spare_values.amount ≡ 0 },
}

impl<C: Account, S: Account> Drop for Booked<C, S> {
    /// A function of its own, so that no proof about who lets one go looks into it.
    fn drop(self) {
        let Booked {
            core: _core,
            accepted: _,
            opened: _,
            records: _records,
            values: _values,
            spare_records: _spare_records,
            spare_values: _spare_values,
        } = self;
    }
}

/// Makes a record, and answers what the core does.
fn answer_to(core: &mut Core, pending: &LentRecord<'_>) -> Result<(), Fault>
    ensures step { (views : Views) → Step views core.old.state (call_in (lent_record pending.now)) (reply_from (λ _. model.Reply.Done) result) core.new.state }
    ensures seeded { core.new.hash_seed ≡ core.old.hash_seed }
    ensures known { IsKnown core.old.state (call_in (lent_record pending.now)) → IfErr result IsNamed }
{
    let identity = core.identity();
    match pending {
        LentRecord::Plain {
            instrument,
            value,
            attributes,
        } => core.record(identity, *instrument, *value, attributes),
        LentRecord::Bound { handle, value } => {
            core.record_bound(identity, BoundHandle::numbered(*handle), *value)
        }
    }
}

/// Makes a record. What all instruments accepted grows by it, unless it is refused.
fn make(core: &mut Core, pending: &LentRecord<'_>) -> Result<(), Fault>
    ensures done { OnOk result (IsDone core.old.state (call_in (lent_record pending.now)) core.new.state × (count_in core.new.state % 2 ^ 64 ≡ (count_in core.old.state + 1) % 2 ^ 64) × (sum_in core.new.state % 2 ^ 64 ≡ (sum_in core.old.state + bits_in (lent_record pending.now)) % 2 ^ 64)) }
    ensures seeded { core.new.hash_seed ≡ core.old.hash_seed }
    ensures refused { IfErr result (λ f. IsRefused core.old.state (call_in (lent_record pending.now)) f × (core.new.state ≡ core.old.state)) }
    ensures known { IsKnown core.old.state (call_in (lent_record pending.now)) → IfErr result IsNamed }
{
    answer_to(core, pending)
}

/// Enters a record of a worker that is made, by the 64 bits of its value.
fn enter<C: Account, S: Account>(
    records: &mut Book<C>,
    values: &mut Book<S>,
    worker: &mut Worker<C, S>,
    value: u64,
)
    requires room { records.old.total < 2 ^ 64 - 1 }
    ensures book { (records.new.total ≡ records.old.total + 1) × (values.new.total ≡ values.old.total + value) }
    ensures share { (records_of worker.new ≡ records_of worker.old + 1) × (values_of worker.new ≡ values_of worker.old + value) }
    ensures kept { (waits_of worker.new ≡ waits_of worker.old) × (worker_identity worker.new ≡ worker_identity worker.old) }
    ensures names { worker_number worker.new ≡ worker_number worker.old }
{
    // (the share is at most the book, so it has room for one more)
    records.audit(&mut worker.records);
    records.add(&mut worker.records, 1);
    values.add(&mut worker.values, value);
    worker.submitted += 1;
}

/// Enters the first records that wait at a worker, which are made, and lets them go.
fn enter_each<C: Account, S: Account>(
    records: &mut Book<C>,
    values: &mut Book<S>,
    worker: &mut Worker<C, S>,
    made: usize,
)
    requires there { made ≤ length (pending_of worker.old) }
    requires room { records.old.total + made < 2 ^ 64 }
    ensures pending { pending_of worker.new ≡ drop made (pending_of worker.old) }
    ensures book { (records.new.total ≡ records.old.total + made) × (values.new.total ≡ values.old.total + sum_by bits_in (take made (pending_of worker.old))) }
    ensures share { (records_of worker.new ≡ records_of worker.old + made) × (values_of worker.new ≡ values_of worker.old + sum_by bits_in (take made (pending_of worker.old))) }
    ensures kept { worker_identity worker.new ≡ worker_identity worker.old }
    ensures names { worker_number worker.new ≡ worker_number worker.old }
    ensures series { StaysListed (waits_of worker.old) (waits_of worker.new) }
{
    for _ in 0..made {
        let value = worker.waiting.pass_first();
        enter(records, values, worker, value);
    }
}

/// Whether a call is a record.
fn makes_record(call: &Call) -> bool
    ensures { result ≡ is_record (call_of call.now) }
{
    match call {
        Call::Record { .. } | Call::RecordBound { .. } => true,
        Call::Meter { .. }
        | Call::Build { .. }
        | Call::Bind { .. }
        | Call::Unbind { .. }
        | Call::Collect { .. }
        | Call::Flush
        | Call::Shutdown => false,
    }
}

impl<C: Account, S: Account> Booked<C, S> {
    /// An empty book beside a core, and no workers.
    pub(crate) fn new(core: Core, records: Blank, values: Blank) -> Booked<C, S>
        requires records { (records.name ≡ C.name) × (records.parts ≡ C.parts) × (records.parts ≡ 4294967295) × (C.before ≡ count_in core.state % 2 ^ 64) }
        requires values { (values.name ≡ S.name) × (values.parts ≡ S.parts) × (values.parts ≡ 4294967295) × (S.before ≡ sum_in core.state % 2 ^ 64) }
        ensures core { result.core ≡ core }
        ensures book { (result.records.total ≡ 0) × (result.values.total ≡ 0) }
        ensures opened { result.opened ≡ 0 }
    {
        let (records, spare_records) = records.open::<C>();
        let (values, spare_values) = values.open::<S>();
        Booked {
            core,
            accepted: 0,
            opened: 0,
            records,
            values,
            spare_records,
            spare_values,
        }
    }

    /// Opens a worker.
    pub(crate) fn open_worker(&mut self) -> Result<Worker<C, S>, Fault>
        ensures variant { is_ok result ≡ (if self.old.opened == 4294967295 then false else true) }
        ensures worker { IfOk result (λ w. (pending_of w ≡ []) × (records_of w ≡ 0) × (values_of w ≡ 0) × (worker_identity w ≡ self.old.core.state.shared.identity)) }
        ensures opened { OnOk result (self.new.opened ≡ self.old.opened + 1) }
        ensures fault { IfErr result (λ f. (f ≡ Fault.Exhausted) × (self.new ≡ self.old)) }
        ensures kept { (self.new.core ≡ self.old.core) × (self.new.records.total ≡ self.old.records.total) × (self.new.values.total ≡ self.old.values.total) }
    {
        check_workers(self.opened)?;
        let number = self.opened;
        let records = self.spare_records.split_off(1, 0);
        let values = self.spare_values.split_off(1, 0);
        self.opened += 1;
        Ok(Worker {
            identity: self.core.identity(),
            number,
            waiting: Waiting::new(self.core.alloc, self.core.hasher),
            submitted: 0,
            records,
            values,
        })
    }

    /// Makes a call, unless it is a record.
    pub(crate) fn call<T: View, R: MetricReader>(
        &mut self,
        views: &[T],
        readers: &mut [R],
        call: &Call,
    ) -> Reply
        ensures refused { is_record (call_of call.now) ≡ true → (result ≡ Reply.Refused Fault.UseWorker) × (self.new ≡ self.old) × (readers.new ≡ readers.old) }
        ensures step { is_record (call_of call.now) ≡ false → Step (map T.answer views.now) self.old.core.state (call_of call.now) (reply_of result) self.new.core.state }
        ensures seeded { self.new.core.hash_seed ≡ self.old.core.hash_seed }
        ensures readers { KeepsReaders self.old.core.state self.new.core.state }
        ensures reached { is_record (call_of call.now) ≡ false → StepReaches R.flushes R.shuts self.old.core.state.shared.shut (call_of call.now) readers.old (reply_of result) readers.new }
        ensures wants { map (wanted_by R.preference R.limit R.aggregation) readers.new ≡ map (wanted_by R.preference R.limit R.aggregation) readers.old }
        ensures kept { (self.new.opened ≡ self.old.opened) × (self.new.records.total ≡ self.old.records.total) × (self.new.values.total ≡ self.old.values.total) }
    {
        if makes_record(call) {
            return Reply::Refused(Fault::UseWorker);
        }
        self.core.step(views, readers, call)
    }

    /// Makes a collection of a reader at a moment, with what was observed.
    pub(crate) fn collect(
        &mut self,
        reader: usize,
        now: u64,
        observations: &[Observed],
    ) -> Result<ResourceMetrics, Fault>
        ensures step { (views : Views) → Step views self.old.core.state (model.Call.Collect reader now (map observed_of observations.now)) (reply_from (λ c. model.Reply.Collected c) result) self.new.core.state }
        ensures seeded { self.new.core.hash_seed ≡ self.old.core.hash_seed }
        ensures kept { (self.new.opened ≡ self.old.opened) × (self.new.records.total ≡ self.old.records.total) × (self.new.values.total ≡ self.old.values.total) }
    {
        self.core.collect(reader, now, observations)
    }

    /// Makes the records of a worker, in order, up to the first that is refused.
    pub(crate) fn submit(&mut self, worker: &mut Worker<C, S>) -> Result<Receipt, Fault>
        ensures grew { (records_of worker.old ≤ records_of worker.new) × (values_of worker.old ≤ values_of worker.new) }
        ensures made { Submits self.old.core.state (pending_of worker.old) self.new.core.state (pending_of worker.new) (records_of worker.new - records_of worker.old) (values_of worker.new - values_of worker.old) }
        ensures book { (self.new.records.total + records_of worker.old ≡ self.old.records.total + records_of worker.new) × (self.new.values.total + values_of worker.old ≡ self.old.values.total + values_of worker.new) }
        ensures ok { IfOk result (λ r. (pending_of worker.new ≡ []) × (r.accepted ≡ self.new.records.total) × (records_of worker.new ≤ r.accepted)) }
        ensures fault { IfErr result (λ f. StopsBy self.new.core.state (pending_of worker.new) self.new.records.total f) }
        ensures full { IfErr result (λ f. f ≡ Fault.LedgerFull → self.new.records.total ≡ 18446744073709551615) }
        ensures seeded { self.new.core.hash_seed ≡ self.old.core.hash_seed }
        ensures known { IfErr result (λ f. IsKnownFirst self.new.core.state (pending_of worker.new) → IsNamed f) }
        ensures kept { (self.new.opened ≡ self.old.opened) × (worker_identity worker.new ≡ worker_identity worker.old) }
        ensures names { worker_number worker.new ≡ worker_number worker.old }
        ensures series { StaysListed (waits_of worker.old) (waits_of worker.new) }
    {
        self.make_waiting(worker);
        while self.make_first(worker)? {
            self.make_waiting(worker);
        }
        self.records.audit(&mut worker.records);
        Ok(Receipt {
            accepted: self.accepted,
        })
    }

    /// Makes the first records of a worker that are of series, up to one that is refused. May leave any of them.
    fn make_waiting(&mut self, worker: &mut Worker<C, S>)
        ensures grew { (records_of worker.old ≤ records_of worker.new) × (values_of worker.old ≤ values_of worker.new) }
        ensures made { Submits self.old.core.state (pending_of worker.old) self.new.core.state (pending_of worker.new) (records_of worker.new - records_of worker.old) (values_of worker.new - values_of worker.old) }
        ensures book { (self.new.records.total + records_of worker.old ≡ self.old.records.total + records_of worker.new) × (self.new.values.total + values_of worker.old ≡ self.old.values.total + values_of worker.new) }
        ensures seeded { self.new.core.hash_seed ≡ self.old.core.hash_seed }
        ensures kept { (self.new.opened ≡ self.old.opened) × (worker_identity worker.new ≡ worker_identity worker.old) }
        ensures names { worker_number worker.new ≡ worker_number worker.old }
        ensures series { StaysListed (waits_of worker.old) (waits_of worker.new) }
    {
        let room = u64::MAX - self.accepted;
        let most = worker.waiting.count_listed().min(room as usize);
        if most == 0 {
            return;
        }
        let made = self.core.record_waiting(&worker.waiting, most);
        enter_each(&mut self.records, &mut self.values, worker, made);
        self.accepted += made as u64;
    }

    /// Makes the first record of a worker, if there is one, and answers whether there was.
    #[tactic(auto, using(crate::proofs::Lists::stops_refused, crate::proofs::Lists::stops_full))]
    fn make_first(&mut self, worker: &mut Worker<C, S>) -> Result<bool, Fault>
        ensures none { IfOk result (λ more. more ≡ false → (pending_of worker.old ≡ []) × (pending_of worker.new ≡ []) × (self.new.core.state ≡ self.old.core.state) × (records_of worker.new ≡ records_of worker.old) × (values_of worker.new ≡ values_of worker.old)) }
        ensures made { IfOk result (λ more. more ≡ true → Makes self.old.core.state (pending_of worker.old) self.new.core.state (pending_of worker.new) (values_of worker.old) (values_of worker.new) × (records_of worker.new ≡ records_of worker.old + 1)) }
        ensures fault { IfErr result (λ f. StopsBy self.new.core.state (pending_of worker.new) self.new.records.total f × (pending_of worker.new ≡ pending_of worker.old) × (self.new.core.state ≡ self.old.core.state) × (records_of worker.new ≡ records_of worker.old) × (values_of worker.new ≡ values_of worker.old)) }
        ensures full { IfErr result (λ f. f ≡ Fault.LedgerFull → self.new.records.total ≡ 18446744073709551615) }
        ensures seeded { self.new.core.hash_seed ≡ self.old.core.hash_seed }
        ensures known { IfErr result (λ f. IsKnownFirst self.new.core.state (pending_of worker.new) → IsNamed f) }
        ensures book { (self.new.records.total + records_of worker.old ≡ self.old.records.total + records_of worker.new) × (self.new.values.total + values_of worker.old ≡ self.old.values.total + values_of worker.new) }
        ensures kept { (self.new.opened ≡ self.old.opened) × (worker_identity worker.new ≡ worker_identity worker.old) }
        ensures names { worker_number worker.new ≡ worker_number worker.old }
        ensures series { StaysListed (waits_of worker.old) (waits_of worker.new) }
    {
        let Some(first) = worker.waiting.first() else {
            return Ok(false);
        };
        check_book(self.accepted)?;
        if let Err(fault) = make(&mut self.core, &first) {
            return Err(fault);
        }
        drop(first);
        let value = worker.waiting.pass_first();
        enter(&mut self.records, &mut self.values, worker, value);
        self.accepted += 1;
        Ok(true)
    }

    /// Makes one record and enters it in a worker's share, unless records of that worker wait.
    #[tactic(auto, using(crate::proofs::Lists::stops_refused, crate::proofs::Lists::stops_full))]
    pub(crate) fn record(
        &mut self,
        worker: &mut Worker<C, S>,
        made: &LentRecord<'_>,
    ) -> Result<(), Fault>
        ensures done { OnOk result ((pending_of worker.old ≡ []) × IsDone self.old.core.state (call_in (lent_record made.now)) self.new.core.state × (records_of worker.new ≡ records_of worker.old + 1) × (values_of worker.new ≡ values_of worker.old + bits_in (lent_record made.now))) }
        ensures waits { 0 < length (pending_of worker.old) → result ≡ Err Fault.UseWorker }
        ensures known { IfErr result (λ f. IsKnown self.old.core.state (call_in (lent_record made.now)) → IsNamed f) }
        ensures fault { IfErr result (λ f. pending_of worker.old ≡ [] → StopsBy self.new.core.state (lent_record made.now ∷ []) self.new.records.total f) }
        ensures refused { OnErr result ((self.new.core.state ≡ self.old.core.state) × (records_of worker.new ≡ records_of worker.old) × (values_of worker.new ≡ values_of worker.old)) }
        ensures seeded { self.new.core.hash_seed ≡ self.old.core.hash_seed }
        ensures book { (self.new.records.total + records_of worker.old ≡ self.old.records.total + records_of worker.new) × (self.new.values.total + values_of worker.old ≡ self.old.values.total + values_of worker.new) }
        ensures kept { (self.new.opened ≡ self.old.opened) × (worker_identity worker.new ≡ worker_identity worker.old) }
        ensures names { worker_number worker.new ≡ worker_number worker.old }
        ensures series { waits_of worker.new ≡ waits_of worker.old }
    {
        if worker.waiting.len() > 0 {
            return Err(Fault::UseWorker);
        }
        check_book(self.accepted)?;
        make(&mut self.core, made)?;
        enter(&mut self.records, &mut self.values, worker, made.bits());
        self.accepted += 1;
        Ok(())
    }

    /// Gives the core, if as many workers as were opened came back.
    pub(crate) fn settle(
        self,
        workers: Vec<Worker<C, S>>,
    ) -> Result<Core, (Fault, Booked<C, S>, Vec<Worker<C, S>>)>
        requires { (C.parts ≡ 4294967295) × (S.parts ≡ 4294967295) }
        ensures variant { is_ok result ≡ (vec_len workers == self.opened) }
        ensures core { IfOk result (λ core. core ≡ self.core) }
        ensures records { OnOk result (self.records.total ≡ sum_by records_of workers.items) }
        ensures values { OnOk result (self.values.total ≡ sum_by values_of workers.items) }
        ensures back { IfErr result (λ e. (e.0 ≡ Fault.WorkersMissing) × (e.1 ≡ self) × (e.2 ≡ workers)) }
    {
        if workers.len() != self.opened as usize {
            return Err((Fault::WorkersMissing, self, workers));
        }
        let Booked {
            core,
            accepted: _,
            opened: _,
            mut records,
            mut values,
            spare_records: mut all_records,
            spare_values: mut all_values,
        } = self;
        for worker in workers {
            let (records, values) = worker.into_shares();
            all_records.merge(records);
            all_values.merge(values);
        }
        records.audit(&mut all_records);
        values.audit(&mut all_values);
        Ok(core)
    }
}
