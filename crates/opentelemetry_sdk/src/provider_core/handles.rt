//! Handles: how they are bound, used and ended.

ghost use Rattle.std.specs.Prelude.{◌≡◌, Err};
ghost use Rattle.otel_model.specs.Calls as model;
ghost use Rattle.otel_model.specs.Demands.{Views};
ghost use Rattle.otel_model.specs.Steps.{Step};
ghost use Rattle.opentelemetry_sdk.specs.Correspondence.{number_of, reply_from};

use crate::pipeline::change::Change;
use crate::provider_core::Core;
use crate::provider_core::checks::{check_bind, check_held};
use crate::provider_core::each_pipeline::{bind_or_none, change_all};
use otel_aggregate::links::{add, make_room, number_in, number_near, take_out};
use otel_aggregate::value_map::hashed_key::GivenAttributes;
use otel_common::attributes::KeyValue;
use otel_common::faults::Fault;
use otel_data::numbers::NumberValue;

/// The number of a handle, and where it is looked for first.
#[derive(Clone, Copy, Debug)]
pub struct BoundHandle {
    pub number: u64,
    /// Its place among the handles of the provider.
    pub place: usize,
    /// Its place among the handles of a stream that its instrument feeds.
    pub stream_place: usize,
}

impl BoundHandle {
    /// The handle with this number, whose places aren't known, so that it is looked up by its hash.
    pub fn numbered(number: u64) -> BoundHandle
        ensures { result.number ≡ number }
    {
        BoundHandle {
            number,
            place: usize::MAX,
            stream_place: usize::MAX,
        }
    }
}

impl Core {
    /// Binds a handle at an instrument of a provider of this identity, in all the streams that it feeds or in none.
    pub fn bind(
        &mut self,
        identity: u64,
        instrument: usize,
        attributes: &[KeyValue],
    ) -> Result<BoundHandle, Fault>
        ensures step { identity ≡ self.old.state.shared.identity → (views : Views) → Step views self.old.state (model.Call.Bind instrument attributes.now) (reply_from (λ (h : BoundHandle). model.Reply.Handle h.number) result) self.new.state }
        ensures foreign { ¬ (identity ≡ self.old.state.shared.identity) → (result ≡ Err Fault.UnknownInstrument) × (self.new.state ≡ self.old.state) }
        ensures identity { self.new.state.shared.identity ≡ self.old.state.shared.identity }
        ensures seeded { self.new.hash_seed ≡ self.old.hash_seed }
    {
        if identity != self.identity {
            return Err(Fault::UnknownInstrument);
        }
        if let Err(fault) = check_bind(&self.instruments, instrument, self.next) {
            return Err(fault);
        }
        make_room(&mut self.handles)?;
        let number = self.next;
        let given = GivenAttributes::new(attributes);
        let stream_place = bind_or_none(&mut self.pipelines, instrument, number, &given)?;
        let place = add(&mut self.handles, number, instrument);
        self.next += 1;
        Ok(BoundHandle {
            number,
            place,
            stream_place,
        })
    }

    /// Records a value through a handle of a provider of this identity, in all the streams that its instrument feeds.
    /// Looks the handle up only where it is not at its place. Takes no memory.
    #[inline(always)]
    pub fn record_bound(
        &mut self,
        identity: u64,
        handle: BoundHandle,
        value: NumberValue,
    ) -> Result<(), Fault>
        ensures step { identity ≡ self.old.state.shared.identity → (views : Views) → Step views self.old.state (model.Call.RecordBound handle.number (number_of value)) (reply_from (λ _. model.Reply.Done) result) self.new.state }
        ensures foreign { ¬ (identity ≡ self.old.state.shared.identity) → (result ≡ Err Fault.UnknownHandle) × (self.new.state ≡ self.old.state) }
        ensures seeded { self.new.hash_seed ≡ self.old.hash_seed }
    {
        if identity != self.identity {
            return Err(Fault::UnknownHandle);
        }
        let instrument = match number_near(&self.handles, handle.number, handle.place) {
            Some(instrument) => instrument,
            None => return Err(Fault::UnknownHandle),
        };
        if let Err(fault) = check_held(&self.instruments, instrument, value) {
            return Err(fault);
        }
        let held = Change::Held(handle.number, handle.stream_place, value);
        change_all(&mut self.pipelines, instrument, held);
        self.instruments[instrument].accept(value);
        Ok(())
    }

    /// Ends a handle of a provider of this identity, in all the streams that its instrument feeds. Takes no memory.
    pub fn unbind(&mut self, identity: u64, handle: u64) -> Result<(), Fault>
        ensures step { identity ≡ self.old.state.shared.identity → (views : Views) → Step views self.old.state (model.Call.Unbind handle) (reply_from (λ _. model.Reply.Done) result) self.new.state }
        ensures foreign { ¬ (identity ≡ self.old.state.shared.identity) → (result ≡ Err Fault.UnknownHandle) × (self.new.state ≡ self.old.state) }
        ensures seeded { self.new.hash_seed ≡ self.old.hash_seed }
    {
        if identity != self.identity {
            return Err(Fault::UnknownHandle);
        }
        let instrument = match number_in(&self.handles, handle) {
            Some(instrument) => instrument,
            None => return Err(Fault::UnknownHandle),
        };
        change_all(&mut self.pipelines, instrument, Change::Unbind(handle));
        take_out(&mut self.handles, handle);
        Ok(())
    }
}
