//! What lies under the one lock of a shared provider.

ghost use Rattle.std.specs.Prelude.{◌≡◌, ◌≤◌, ◌<◌, ◌∷◌, ◌+◌, ◌-◌, ◌%◌, ◌^◌, ◌==◌, true, false, if◌then◌else◌, List, Option, Result, [], map, sum_by, length, vec_len, is_ok, Err, None, Some, IfOk, IfErr, OnOk, OnErr};
ghost use Rattle.otel_stream.specs.Runs.{Ran, RanAll};
ghost use Rattle.otel_stream.specs.declared.observation.Observed.{Observed};
ghost use Rattle.otel_common.specs.declared.faults.Fault.{Fault};
ghost use Rattle.opentelemetry_sdk.specs.Checks.{collect_refusal};
ghost use Rattle.opentelemetry_sdk.specs.Correspondence.{call_of, reply_of};
ghost use Rattle.opentelemetry_sdk.specs.Readers.{StepReaches};
ghost use Rattle.opentelemetry_sdk.specs.Known.{IsKnown};
ghost use Rattle.opentelemetry_sdk.specs.States.{IsNamed};
ghost use Rattle.otel_model.specs.Calls as model;
ghost use Rattle.otel_model.specs.Laws.{KeepsReaders};
ghost use Rattle.otel_model.specs.Steps.{Step};
ghost use Rattle.otel_model.specs.Books.{count_in, sum_in};
ghost use Rattle.otel_model.specs.Lawful.{Balances};
ghost use Rattle.opentelemetry_sdk.specs.Callbacks.{IsCollectionOf};
ghost use Rattle.opentelemetry_sdk.specs.Providers.{state_of, hash_seed_of, provider_views, provider_readers, callbacks_of};
ghost use Rattle.opentelemetry_sdk.specs.Typed.{collect_reply, instrument_number, instrument_identity, handle_number, handle_identity};
ghost use Rattle.opentelemetry_sdk.specs.Pending.{call_in, bits_in, is_record, IsDone, IsKnownFirst, StopsBy, Submits};
ghost use Rattle.opentelemetry_sdk.specs.Shared.{state_in, hash_seed_in, views_in, readers_in, callbacks_in, records_in, values_in, workers_in};
ghost use Rattle.opentelemetry_sdk.specs.Waiting.{StaysListed};
ghost use Rattle.opentelemetry_sdk.specs.Workers.{waits_of, pending_of, records_of, values_of, worker_identity, worker_number};
ghost use Rattle.otel_stream.specs.Requests.{wanted_by};

use crate::calls::{Call, Reply};
use crate::metrics::shared::account::Account;
use crate::metrics::shared::booked::{Booked, Receipt};
use crate::metrics::shared::pending::{LentRecord, PendingRecord};
use crate::metrics::shared::worker::Worker;
use crate::parts::{Boxed, Parts};
use crate::provider::Provider;
use crate::values::bound::Bound;
use crate::values::synchronous::Synchronous;
use otel_aggregate::value_map::hashed_key::GivenAttributes;
use otel_common::attributes::KeyValue;
use otel_common::faults::Fault;
use otel_data::collections::ResourceMetrics;
use otel_data::numbers::NumberType;
use otel_stream::registered::{Registered, run_callbacks};
use std::sync::Mutex;
use std::sync::ledger::Blank;

/// A provider, and the book of what its workers recorded (Metrics SDK, "Concurrency requirements").
///
/// Threads have one `Mutex` of it and a worker each. Whenever the lock is got, the streams balance, and what all
/// instruments have accepted is what they had accepted at `new` plus what the book has, modulo 2^64: `balances` and
/// `adds_up` say so. A function that hands it to threads asks for `P: Parts + Send + Sync`, `C: Account + Send + Sync`
/// and `S: Account + Send + Sync`.
///
/// It has no ghost field, so that it can be used with boxes; the facts stand in its `Booked`.
pub struct Locked<P: Parts, C: Account, S: Account> {
    booked: Booked<C, S>,
    views: Vec<P::View>,
    readers: Vec<P::Reader>,
    callbacks: Vec<Registered<P::ObserveU64, P::ObserveI64>>,
}

/// A provider that threads share: a lock that callers make by `Mutex::new`, take by `lock` and end by `into_inner`.
pub type SharedProvider<P, C, S> = Mutex<Locked<P, C, S>>;

/// A provider that threads share, whose views, readers and callbacks are boxes.
pub type SharedMeterProvider<C, S> = Mutex<Locked<Boxed, C, S>>;

impl<P: Parts, C: Account, S: Account> Drop for Locked<P, C, S> {
    /// A function of its own, so that no proof about who lets one go looks into it.
    fn drop(self) {
        let Locked {
            booked: _booked,
            views: _views,
            readers: _readers,
            callbacks: _callbacks,
        } = self;
    }
}

/// No call takes the lock or waits.
impl<P: Parts, C: Account, S: Account> Locked<P, C, S> {
    /// Takes a provider over, with an empty book and no workers. Takes no memory.
    ///
    /// `records` and `values` are the blanks of its two ledgers, each made by `Blank::new(MOST_WORKERS)`.
    pub fn new(provider: Provider<P>, records: Blank, values: Blank) -> Locked<P, C, S>
        requires records { (records.name ≡ C.name) × (records.parts ≡ C.parts) × (records.parts ≡ 4294967295) × (C.before ≡ count_in (state_of provider) % 2 ^ 64) }
        requires values { (values.name ≡ S.name) × (values.parts ≡ S.parts) × (values.parts ≡ 4294967295) × (S.before ≡ sum_in (state_of provider) % 2 ^ 64) }
        ensures state { state_in result ≡ state_of provider }
        ensures seeded { hash_seed_in result ≡ hash_seed_of provider }
        ensures views { views_in result ≡ provider_views provider }
        ensures kept { readers_in result ≡ provider_readers provider }
        ensures callbacks { callbacks_in result ≡ callbacks_of provider }
        ensures book { (records_in result ≡ 0) × (values_in result ≡ 0) }
        ensures workers { workers_in result ≡ 0 }
    {
        let (core, views, readers, callbacks) = provider.into_parts();
        Locked {
            booked: Booked::new(core, records, values),
            views,
            readers,
            callbacks,
        }
    }

    /// Does nothing. Its clause says that the streams balance, whatever was called before.
    pub fn balances(&self)
        ensures { Balances (state_in self.now) }
    {
        self.booked.core.law_of_state();
    }

    /// Does nothing. Its clauses say that what all instruments have accepted is what they had accepted at `new` plus
    /// what the book has, modulo 2^64, by count and by value.
    pub fn adds_up(&self)
        ensures count { count_in (state_in self.now) % 2 ^ 64 ≡ (C.before + records_in self.now) % 2 ^ 64 }
        ensures sum { sum_in (state_in self.now) % 2 ^ 64 ≡ (S.before + values_in self.now) % 2 ^ 64 }
    {
        let _ = &self.booked;
    }

    /// Opens a worker, with an empty list and an empty share. Takes no memory.
    ///
    /// Refused with `Exhausted` once 2^32 - 1 workers have been opened; then nothing changes.
    pub fn open_worker(&mut self) -> Result<Worker<C, S>, Fault>
        ensures variant { is_ok result ≡ (if workers_in self.old == 4294967295 then false else true) }
        ensures worker { IfOk result (λ w. (pending_of w ≡ []) × (records_of w ≡ 0) × (values_of w ≡ 0) × (worker_identity w ≡ (state_in self.old).shared.identity)) }
        ensures opened { OnOk result (workers_in self.new ≡ workers_in self.old + 1) }
        ensures fault { IfErr result (λ f. (f ≡ Fault.Exhausted) × (self.new ≡ self.old)) }
        ensures state { state_in self.new ≡ state_in self.old }
        ensures seeded { hash_seed_in self.new ≡ hash_seed_in self.old }
        ensures book { (records_in self.new ≡ records_in self.old) × (values_in self.new ≡ values_in self.old) }
        ensures kept { readers_in self.new ≡ readers_in self.old }
        ensures views { views_in self.new ≡ views_in self.old }
        ensures callbacks { callbacks_in self.new ≡ callbacks_in self.old }
    {
        self.booked.open_worker()
    }

    /// Makes one call and returns its reply, as `Provider::step` does, with the same cost. Records are for workers: a
    /// record is refused with `UseWorker`, and changes nothing.
    pub fn call(&mut self, call: &Call) -> Reply
        ensures refused { is_record (call_of call.now) ≡ true → (result ≡ Reply.Refused Fault.UseWorker) × (state_in self.new ≡ state_in self.old) × (readers_in self.new ≡ readers_in self.old) }
        ensures step { is_record (call_of call.now) ≡ false → Step (map P.View.answer (views_in self.old)) (state_in self.old) (call_of call.now) (reply_of result) (state_in self.new) }
        ensures balances { Balances (state_in self.new) }
        ensures seeded { hash_seed_in self.new ≡ hash_seed_in self.old }
        ensures readers { KeepsReaders (state_in self.old) (state_in self.new) }
        ensures reached { is_record (call_of call.now) ≡ false → StepReaches P.Reader.flushes P.Reader.shuts (state_in self.old).shared.shut (call_of call.now) (readers_in self.old) (reply_of result) (readers_in self.new) }
        ensures wants { map (wanted_by P.Reader.preference P.Reader.limit P.Reader.aggregation) (readers_in self.new) ≡ map (wanted_by P.Reader.preference P.Reader.limit P.Reader.aggregation) (readers_in self.old) }
        ensures views { views_in self.new ≡ views_in self.old }
        ensures callbacks { callbacks_in self.new ≡ callbacks_in self.old }
        ensures book { (records_in self.new ≡ records_in self.old) × (values_in self.new ≡ values_in self.old) }
        ensures workers { workers_in self.new ≡ workers_in self.old }
    {
        let reply = self.booked.call(&self.views, &mut self.readers, call);
        self.booked.core.law_of_state();
        reply
    }

    /// Makes a collection of a reader at a moment, in nanoseconds since 1970, and puts it into `metrics`, in place of
    /// what that held, as `Provider::collect` does, with the same cost and the same refusals.
    pub fn collect(
        &mut self,
        reader: usize,
        now: u64,
        metrics: &mut ResourceMetrics,
    ) -> Result<(), Fault>
        ensures unrun { (fault : model.Fault) → collect_refusal (state_in self.old) reader ≡ Some fault → (collect_reply result metrics.new ≡ model.Reply.Refused fault) × (state_in self.new ≡ state_in self.old) × (callbacks_in self.new ≡ callbacks_in self.old) }
        ensures ran { collect_refusal (state_in self.old) reader ≡ None → (given : Result (List Observed) Fault) × RanAll (Ran P.ObserveU64.observes P.ObserveI64.observes) (callbacks_in self.old) (callbacks_in self.new) given × IsCollectionOf (map P.View.answer (views_in self.old)) (state_in self.old) reader now given result metrics.new (state_in self.new) }
        ensures held { OnErr result (metrics.new ≡ metrics.old) }
        ensures balances { Balances (state_in self.new) }
        ensures seeded { hash_seed_in self.new ≡ hash_seed_in self.old }
        ensures readers { KeepsReaders (state_in self.old) (state_in self.new) }
        ensures kept { readers_in self.new ≡ readers_in self.old }
        ensures views { views_in self.new ≡ views_in self.old }
        ensures book { (records_in self.new ≡ records_in self.old) × (values_in self.new ≡ values_in self.old) }
        ensures workers { workers_in self.new ≡ workers_in self.old }
    {
        self.booked.core.law_of_state();
        self.booked.core.check_collection(reader)?;
        let alloc = *self.callbacks.allocator();
        let observations = match run_callbacks(alloc, &mut self.callbacks) {
            Ok(observations) => observations,
            Err(fault) => return Err(fault),
        };
        let collected = self.booked.collect(reader, now, &observations);
        self.booked.core.law_of_state();
        match collected {
            Ok(collected) => {
                *metrics = collected;
                Ok(())
            }
            Err(fault) => Err(fault),
        }
    }

    /// Makes the records of a worker, in order, up to the first that is refused. Those that are made leave the list;
    /// the others stay, in order. The worker goes on to know its series.
    ///
    /// Series of which several records wait, and which all streams know, are looked up once and written at once
    /// (`Worker::group`); any other record costs what it costs as a step of a provider. With nothing in the list it is
    /// never refused. Before each record, it is refused with `LedgerFull` if the book has 2^64 - 1 records, otherwise
    /// with the fault of the record, which changes nothing. A record through a handle, one without attributes, or one
    /// that makes no entry in a stream of its instrument (`known`) is never refused for want of memory.
    pub fn submit(&mut self, worker: &mut Worker<C, S>) -> Result<Receipt, Fault>
        ensures grew { (records_of worker.old ≤ records_of worker.new) × (values_of worker.old ≤ values_of worker.new) }
        ensures made { Submits (state_in self.old) (pending_of worker.old) (state_in self.new) (pending_of worker.new) (records_of worker.new - records_of worker.old) (values_of worker.new - values_of worker.old) }
        ensures book { (records_in self.new + records_of worker.old ≡ records_in self.old + records_of worker.new) × (values_in self.new + values_of worker.old ≡ values_in self.old + values_of worker.new) }
        ensures ok { IfOk result (λ r. (pending_of worker.new ≡ []) × (r.accepted ≡ records_in self.new) × (records_of worker.new ≤ r.accepted)) }
        ensures fault { IfErr result (λ f. StopsBy (state_in self.new) (pending_of worker.new) (records_in self.new) f) }
        ensures full { IfErr result (λ f. f ≡ Fault.LedgerFull → records_in self.new ≡ 18446744073709551615) }
        ensures known { IfErr result (λ f. IsKnownFirst (state_in self.new) (pending_of worker.new) → IsNamed f) }
        ensures balances { Balances (state_in self.new) }
        ensures seeded { hash_seed_in self.new ≡ hash_seed_in self.old }
        ensures worker { worker_identity worker.new ≡ worker_identity worker.old }
        ensures names { worker_number worker.new ≡ worker_number worker.old }
        ensures series { StaysListed (waits_of worker.old) (waits_of worker.new) }
        ensures workers { workers_in self.new ≡ workers_in self.old }
        ensures kept { readers_in self.new ≡ readers_in self.old }
        ensures views { views_in self.new ≡ views_in self.old }
        ensures callbacks { callbacks_in self.new ≡ callbacks_in self.old }
    {
        let submitted = self.booked.submit(worker);
        self.booked.core.law_of_state();
        submitted
    }

    /// Makes one record of a synchronous instrument, with attributes in any order, and enters it in the worker's share,
    /// without its list. It costs what it costs as a call of a provider.
    ///
    /// Refused with `UnknownInstrument` if the instrument belongs to a provider of another identity, with `UseWorker`
    /// while records of the worker wait, and otherwise as `submit` refuses it. A refused call changes nothing.
    pub fn record<K, T: NumberType>(
        &mut self,
        worker: &mut Worker<C, S>,
        instrument: &Synchronous<K, T>,
        value: T,
        attributes: &[KeyValue],
    ) -> Result<(), Fault>
        ensures foreign { ¬ (instrument_identity instrument.now ≡ worker_identity worker.old) → result ≡ Err Fault.UnknownInstrument }
        ensures waits { instrument_identity instrument.now ≡ worker_identity worker.old → 0 < length (pending_of worker.old) → result ≡ Err Fault.UseWorker }
        ensures done { OnOk result ((pending_of worker.old ≡ []) × IsDone (state_in self.old) (call_in (PendingRecord.Plain (instrument_number instrument.now) (T.value value) attributes.now)) (state_in self.new) × (records_of worker.new ≡ records_of worker.old + 1) × (values_of worker.new ≡ values_of worker.old + bits_in (PendingRecord.Plain (instrument_number instrument.now) (T.value value) attributes.now))) }
        ensures fault { instrument_identity instrument.now ≡ worker_identity worker.old → IfErr result (λ f. pending_of worker.old ≡ [] → StopsBy (state_in self.new) ((PendingRecord.Plain (instrument_number instrument.now) (T.value value) attributes.now) ∷ []) (records_in self.new) f) }
        ensures known { IfErr result (λ f. IsKnown (state_in self.old) (call_in (PendingRecord.Plain (instrument_number instrument.now) (T.value value) attributes.now)) → IsNamed f) }
        ensures refused { OnErr result ((state_in self.new ≡ state_in self.old) × (records_of worker.new ≡ records_of worker.old) × (values_of worker.new ≡ values_of worker.old)) }
        ensures book { (records_in self.new + records_of worker.old ≡ records_in self.old + records_of worker.new) × (values_in self.new + values_of worker.old ≡ values_in self.old + values_of worker.new) }
        ensures balances { Balances (state_in self.new) }
        ensures seeded { hash_seed_in self.new ≡ hash_seed_in self.old }
        ensures worker { (worker_identity worker.new ≡ worker_identity worker.old) × (waits_of worker.new ≡ waits_of worker.old) }
        ensures names { worker_number worker.new ≡ worker_number worker.old }
        ensures workers { workers_in self.new ≡ workers_in self.old }
        ensures kept { readers_in self.new ≡ readers_in self.old }
        ensures views { views_in self.new ≡ views_in self.old }
        ensures callbacks { callbacks_in self.new ≡ callbacks_in self.old }
    {
        self.booked.core.law_of_state();
        if instrument.identity() != worker.identity {
            return Err(Fault::UnknownInstrument);
        }
        let made = LentRecord::Plain {
            instrument: instrument.number(),
            value: value.into_value(),
            attributes: GivenAttributes::new(attributes),
        };
        let recorded = self.booked.record(worker, &made);
        self.booked.core.law_of_state();
        recorded
    }

    /// Makes one record through a handle. Refused with `UnknownHandle` if the handle belongs to a provider of another
    /// identity; otherwise the same as `record`.
    pub fn record_through<T: NumberType>(
        &mut self,
        worker: &mut Worker<C, S>,
        handle: &Bound<T>,
        value: T,
    ) -> Result<(), Fault>
        ensures foreign { ¬ (handle_identity handle.now ≡ worker_identity worker.old) → result ≡ Err Fault.UnknownHandle }
        ensures waits { handle_identity handle.now ≡ worker_identity worker.old → 0 < length (pending_of worker.old) → result ≡ Err Fault.UseWorker }
        ensures done { OnOk result ((pending_of worker.old ≡ []) × IsDone (state_in self.old) (call_in (PendingRecord.Bound (handle_number handle.now) (T.value value))) (state_in self.new) × (records_of worker.new ≡ records_of worker.old + 1) × (values_of worker.new ≡ values_of worker.old + bits_in (PendingRecord.Bound (handle_number handle.now) (T.value value)))) }
        ensures fault { handle_identity handle.now ≡ worker_identity worker.old → IfErr result (λ f. pending_of worker.old ≡ [] → StopsBy (state_in self.new) ((PendingRecord.Bound (handle_number handle.now) (T.value value)) ∷ []) (records_in self.new) f) }
        ensures refused { OnErr result ((state_in self.new ≡ state_in self.old) × (records_of worker.new ≡ records_of worker.old) × (values_of worker.new ≡ values_of worker.old)) }
        ensures book { (records_in self.new + records_of worker.old ≡ records_in self.old + records_of worker.new) × (values_in self.new + values_of worker.old ≡ values_in self.old + values_of worker.new) }
        ensures balances { Balances (state_in self.new) }
        ensures seeded { hash_seed_in self.new ≡ hash_seed_in self.old }
        ensures worker { (worker_identity worker.new ≡ worker_identity worker.old) × (waits_of worker.new ≡ waits_of worker.old) }
        ensures names { worker_number worker.new ≡ worker_number worker.old }
        ensures workers { workers_in self.new ≡ workers_in self.old }
        ensures kept { readers_in self.new ≡ readers_in self.old }
        ensures views { views_in self.new ≡ views_in self.old }
        ensures callbacks { callbacks_in self.new ≡ callbacks_in self.old }
    {
        self.booked.core.law_of_state();
        if handle.identity() != worker.identity {
            return Err(Fault::UnknownHandle);
        }
        let made = LentRecord::Bound {
            handle: handle.number(),
            value: value.into_value(),
        };
        let recorded = self.booked.record(worker, &made);
        self.booked.core.law_of_state();
        recorded
    }

    /// Gives the provider back, if as many workers are handed in as were opened. What they have in their lists is given
    /// up. Takes no memory.
    ///
    /// Then the book is what the workers' shares add up to. Otherwise refused with `WorkersMissing`, and all that was
    /// handed in comes back as it was.
    pub fn settle(
        self,
        workers: Vec<Worker<C, S>>,
    ) -> Result<Provider<P>, (Fault, Locked<P, C, S>, Vec<Worker<C, S>>)>
        requires { (C.parts ≡ 4294967295) × (S.parts ≡ 4294967295) }
        ensures variant { is_ok result ≡ (vec_len workers == workers_in self) }
        ensures state { IfOk result (λ p. state_of p ≡ state_in self) }
        ensures seeded { IfOk result (λ p. hash_seed_of p ≡ hash_seed_in self) }
        ensures views { IfOk result (λ p. provider_views p ≡ views_in self) }
        ensures kept { IfOk result (λ p. provider_readers p ≡ readers_in self) }
        ensures callbacks { IfOk result (λ p. callbacks_of p ≡ callbacks_in self) }
        ensures records { OnOk result (records_in self ≡ sum_by records_of workers.items) }
        ensures values { OnOk result (values_in self ≡ sum_by values_of workers.items) }
        ensures back { IfErr result (λ e. (e.0 ≡ Fault.WorkersMissing) × (e.1 ≡ self) × (e.2 ≡ workers)) }
    {
        let Locked {
            booked,
            views,
            readers,
            callbacks,
        } = self;
        match booked.settle(workers) {
            Ok(core) => Ok(Provider {
                core,
                views,
                readers,
                callbacks,
            }),
            Err((fault, booked, workers)) => Err((
                fault,
                Locked {
                    booked,
                    views,
                    readers,
                    callbacks,
                },
                workers,
            )),
        }
    }
}
