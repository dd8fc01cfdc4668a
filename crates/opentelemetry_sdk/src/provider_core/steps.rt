//! Calls as data: each is made, and its reply returned.

ghost use Rattle.std.specs.Prelude.{◌≡◌, false, map, IfOk, IfErr, OnErr, IsOkUnless};
ghost use Rattle.otel_model.specs.Steps.{Step, Run};
ghost use Rattle.opentelemetry_sdk.specs.Correspondence.{call_of, reply_of, reply_to};
ghost use Rattle.opentelemetry_sdk.specs.Known.{IsKnown, HasMemory, EachKnownHasMemory};
ghost use Rattle.opentelemetry_sdk.specs.Pending.{is_record};
ghost use Rattle.opentelemetry_sdk.specs.Readers.{StepReaches, RunReaches};
ghost use Rattle.opentelemetry_sdk.specs.States.{IsNamed};
ghost use Rattle.otel_stream.specs.Requests.{wanted_by};

use crate::calls::{Call, Reply};
use crate::pipeline::about::About;
use crate::provider_core::Core;
use crate::provider_core::handles::BoundHandle;
use otel_aggregate::value_map::hashed_key::GivenAttributes;
use otel_common::faults::Fault;
use otel_stream::reader::MetricReader;
use otel_stream::view::View;
use std::alloc::Global;

/// The reply that a call was done, or why it was refused.
#[inline(always)]
fn done(made: Result<(), Fault>) -> Reply
    ensures reply { reply_of result ≡ reply_to made }
    ensures named { IfErr made IsNamed → HasMemory result }
{
    match made {
        Ok(()) => Reply::Done,
        Err(fault) => Reply::Refused(fault),
    }
}

impl Core {
    /// Makes one call and returns its reply.
    pub fn step<V: View, R: MetricReader>(
        &mut self,
        views: &[V],
        readers: &mut [R],
        call: &Call,
    ) -> Reply
        ensures step { Step (map V.answer views.now) self.old.state (call_of call.now) (reply_of result) self.new.state }
        ensures seeded { self.new.hash_seed ≡ self.old.hash_seed }
        ensures known { IsKnown self.old.state (call_of call.now) → HasMemory result }
        ensures reached { StepReaches R.flushes R.shuts self.old.state.shared.shut (call_of call.now) readers.old (reply_of result) readers.new }
        ensures wants { map (wanted_by R.preference R.limit R.aggregation) readers.new ≡ map (wanted_by R.preference R.limit R.aggregation) readers.old }
    {
        let identity = self.identity();
        match call {
            Call::Record {
                instrument,
                value,
                attributes,
            } => {
                let given = GivenAttributes::new(attributes.as_slice());
                done(self.record(identity, *instrument, *value, &given))
            }
            Call::RecordBound { handle, value } => {
                let handle = BoundHandle::numbered(*handle);
                done(self.record_bound(identity, handle, *value))
            }
            _ => {
                // With a name, the reply is made where the caller wants it, and not copied there.
                let reply = self.step_other(views, readers, call);
                reply
            }
        }
    }

    /// Makes one call other than a record, out of line, as most calls are records.
    #[inline(never)]
    fn step_other<V: View, R: MetricReader>(
        &mut self,
        views: &[V],
        readers: &mut [R],
        call: &Call,
    ) -> Reply
        requires { is_record (call_of call.now) ≡ false }
        ensures step { Step (map V.answer views.now) self.old.state (call_of call.now) (reply_of result) self.new.state }
        ensures seeded { self.new.hash_seed ≡ self.old.hash_seed }
        ensures reached { StepReaches R.flushes R.shuts self.old.state.shared.shut (call_of call.now) readers.old (reply_of result) readers.new }
        ensures wants { map (wanted_by R.preference R.limit R.aggregation) readers.new ≡ map (wanted_by R.preference R.limit R.aggregation) readers.old }
    {
        let identity = self.identity();
        match call {
            Call::Meter { scope } => match self.meter(scope) {
                Ok(number) => Reply::Meter(number),
                Err(fault) => Reply::Refused(fault),
            },
            Call::Build {
                meter,
                sort,
                name,
                description,
                unit,
                boundaries,
                now,
            } => {
                let about = About {
                    kind: sort.kind(),
                    signed: sort.is_signed(),
                    name,
                    description,
                    unit,
                    bounds: boundaries,
                };
                match self.build(views, identity, *meter, *sort, &about, *now) {
                    Ok(number) => Reply::Instrument(number),
                    Err(fault) => Reply::Refused(fault),
                }
            }
            Call::Bind {
                instrument,
                attributes,
            } => match self.bind(identity, *instrument, attributes.as_slice()) {
                Ok(handle) => Reply::Handle(handle.number),
                Err(fault) => Reply::Refused(fault),
            },
            Call::Unbind { handle } => done(self.unbind(identity, *handle)),
            Call::Collect {
                reader,
                now,
                observations,
            } => match self.collect(*reader, *now, observations.as_slice()) {
                Ok(metrics) => Reply::Collected(metrics),
                Err(fault) => Reply::Refused(fault),
            },
            Call::Flush => done(self.force_flush(readers)),
            Call::Shutdown => done(self.shutdown(readers)),
            Call::Record { .. } | Call::RecordBound { .. } => unreachable!(),
        }
    }

    /// Makes the calls of a list, one after another, and returns the reply to each.
    pub fn run<V: View, R: MetricReader>(
        &mut self,
        views: &[V],
        readers: &mut [R],
        alloc: Global,
        calls: &[Call],
    ) -> Result<Vec<Reply>, Fault>
        ensures run { IfOk result (λ replies. Run (map V.answer views.now) self.old.state (map call_of calls.now) (map reply_of replies.items) self.new.state) }
        ensures known { IfOk result (λ replies. EachKnownHasMemory (map V.answer views.now) self.old.state calls.now replies.items) }
        ensures unmade { OnErr result (self.new.state ≡ self.old.state) }
        ensures seeded { self.new.hash_seed ≡ self.old.hash_seed }
        ensures only_memory { IsOkUnless result Fault.OutOfMemory }
        ensures reached { IfOk result (λ replies. RunReaches R.flushes R.shuts self.old.state.shared.shut (map call_of calls.now) readers.old (map reply_of replies.items) readers.new) }
        ensures unreached { OnErr result (readers.new ≡ readers.old) }
        ensures wants { map (wanted_by R.preference R.limit R.aggregation) readers.new ≡ map (wanted_by R.preference R.limit R.aggregation) readers.old }
    {
        let mut replies = Vec::with_capacity(alloc, calls.len())?;
        for call in calls {
            let reply = self.step(views, readers, call);
            replies.push_reserved(reply);
        }
        Ok(replies)
    }
}
