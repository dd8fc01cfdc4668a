//! Handles: attributes that a program binds once, so that records with them cost less; and handles that are kept.

ghost use Rattle.std.specs.Prelude.{◌≡◌, Err, IfErr, IfOk};
ghost use Rattle.otel_model.specs.Calls as model;
ghost use Rattle.otel_model.specs.Laws.{KeepsReaders};
ghost use Rattle.otel_model.specs.Steps.{Step};
ghost use Rattle.otel_model.specs.Lawful.{Balances};
ghost use Rattle.opentelemetry_sdk.specs.Correspondence.{number_of, reply_to};
ghost use Rattle.opentelemetry_sdk.specs.Providers.{state_of, hash_seed_of, views_of, provider_readers, provider_views, callbacks_of};
ghost use Rattle.opentelemetry_sdk.specs.Typed.{IsInstrumentOf, IsBoundOf, IsKeptOf, instrument_number, handle_number, handle_identity, kept_number, kept_identity, record_reply, bind_reply, unbind_reply};

use crate::parts::Parts;
use crate::provider::Provider;
use crate::provider_core::handles::BoundHandle;
use crate::values::synchronous::Synchronous;
use otel_common::attributes::KeyValue;
use otel_common::faults::Fault;
use otel_data::numbers::NumberType;
use std::marker::PhantomData;

/// A live handle of an instrument with values of type `T` (Metrics API, "Synchronous Instrument API").
///
/// It is the number of a handle, with where the provider and its streams look for it first, and the identity of its
/// provider. As long as it is live it holds a place in each stream that the instrument feeds, so it must be spent: by
/// `unbind`, which ends it, or by `into_number`, which leaves that to `Call::Unbind`. The toolchain rejects a program
/// that lets one go.
pub struct Bound<T> {
    kept: Kept<T>,
}

/// A handle of an instrument with values of type `T` that a program keeps (Metrics API, "Synchronous Instrument API"):
/// small plain data, of which a copy is the same handle, so that it stands in lists and structs, and may be let go.
///
/// The handle lives as long as its provider, and holds a place in each stream that the instrument feeds, unless `end`,
/// or `Call::Unbind` with its number, ends it. From then on its records are refused with `UnknownHandle`.
#[derive_where(Clone, Copy, Debug)]
pub struct Kept<T> {
    identity: u64,
    handle: BoundHandle,
    of: PhantomData<T>,
}

impl<K, T: NumberType> Synchronous<K, T> {
    /// Binds a handle with attributes, in any order, as `step` does with `Call::Bind`: in all streams or in none.
    ///
    /// From then on its records go where a record with these attributes would go at the time of the bind: to the point
    /// of what a stream keeps of them, whose place the handle holds, or, past the limit, to the overflow point.
    ///
    /// Looks up the attributes in each stream that the instrument feeds, as a record does, and the handle's number
    /// once.
    ///
    /// Refused with `UnknownInstrument` if the instrument belongs to a provider of another identity, before anything
    /// else is checked. If two providers of one identity mix up their instruments, the call is refused with
    /// `UnknownInstrument` or `WrongKind`, or goes to the instrument of the same number. Otherwise it is refused with
    /// `Exhausted` once 2^64 - 1 handles have been bound, or for want of memory. A refused call changes nothing.
    pub fn bind<P: Parts>(
        &self,
        provider: &mut Provider<P>,
        attributes: &[KeyValue],
    ) -> Result<Bound<T>, Fault>
        ensures step { IsInstrumentOf self.now provider.old → Step (views_of P.View.answer provider.old) (state_of provider.old) (model.Call.Bind (instrument_number self.now) attributes.now) (bind_reply result) (state_of provider.new) }
        ensures foreign { ¬ IsInstrumentOf self.now provider.old → (result ≡ Err Fault.UnknownInstrument) × (state_of provider.new ≡ state_of provider.old) }
        ensures own { IfOk result (λ b. IsBoundOf b provider.new) }
        ensures balances { Balances (state_of provider.new) }
        ensures seeded { hash_seed_of provider.new ≡ hash_seed_of provider.old }
        ensures readers { KeepsReaders (state_of provider.old) (state_of provider.new) }
        ensures kept { provider_readers provider.new ≡ provider_readers provider.old }
        ensures views { provider_views provider.new ≡ provider_views provider.old }
        ensures callbacks { callbacks_of provider.new ≡ callbacks_of provider.old }
    {
        let bound = provider.core.bind(self.identity, self.number, attributes);
        provider.core.law_of_state();
        Ok(Bound {
            kept: Kept {
                identity: self.identity,
                handle: bound?,
                of: PhantomData,
            },
        })
    }
}

impl<T: NumberType> Bound<T> {
    /// Adds a value, in the instrument's unit, with the attributes of the handle, as `step` does with
    /// `Call::RecordBound`.
    ///
    /// Takes no memory. The handle is found at its places in the provider and in the streams. It is looked up only where
    /// it stands elsewhere: in a stream that several instruments feed, or once many older handles have ended.
    ///
    /// Refused with `UnknownHandle` if the handle belongs to a provider of another identity, before anything else is
    /// checked, or if `Call::Unbind` has ended it by its number. If two providers of one identity mix up their handles,
    /// the call is refused with `UnknownHandle` or `WrongNumber`, or goes to the handle of the same number. Otherwise
    /// it is never refused. A refused call changes nothing.
    pub fn add<P: Parts>(&self, provider: &mut Provider<P>, value: T) -> Result<(), Fault>
        ensures step { IsBoundOf self.now provider.old → Step (views_of P.View.answer provider.old) (state_of provider.old) (model.Call.RecordBound (handle_number self.now) (number_of (T.value value))) (record_reply result) (state_of provider.new) }
        ensures foreign { ¬ IsBoundOf self.now provider.old → (result ≡ Err Fault.UnknownHandle) × (state_of provider.new ≡ state_of provider.old) }
        ensures balances { Balances (state_of provider.new) }
        ensures seeded { hash_seed_of provider.new ≡ hash_seed_of provider.old }
        ensures readers { KeepsReaders (state_of provider.old) (state_of provider.new) }
        ensures kept { provider_readers provider.new ≡ provider_readers provider.old }
        ensures views { provider_views provider.new ≡ provider_views provider.old }
        ensures callbacks { callbacks_of provider.new ≡ callbacks_of provider.old }
    {
        self.kept.add(provider, value)
    }

    /// Records a value. The same as `add`.
    pub fn record<P: Parts>(&self, provider: &mut Provider<P>, value: T) -> Result<(), Fault>
        ensures step { IsBoundOf self.now provider.old → Step (views_of P.View.answer provider.old) (state_of provider.old) (model.Call.RecordBound (handle_number self.now) (number_of (T.value value))) (record_reply result) (state_of provider.new) }
        ensures foreign { ¬ IsBoundOf self.now provider.old → (result ≡ Err Fault.UnknownHandle) × (state_of provider.new ≡ state_of provider.old) }
        ensures balances { Balances (state_of provider.new) }
        ensures seeded { hash_seed_of provider.new ≡ hash_seed_of provider.old }
        ensures readers { KeepsReaders (state_of provider.old) (state_of provider.new) }
        ensures kept { provider_readers provider.new ≡ provider_readers provider.old }
        ensures views { provider_views provider.new ≡ provider_views provider.old }
        ensures callbacks { callbacks_of provider.new ≡ callbacks_of provider.old }
    {
        self.add(provider, value)
    }
}

impl<T> Bound<T> {
    /// The handle's number, which `Call::RecordBound` takes.
    pub fn number(&self) -> u64
        ensures { result ≡ handle_number self.now }
    {
        self.kept.number()
    }

    /// The identity of the provider that it belongs to.
    pub fn identity(&self) -> u64
        ensures { result ≡ handle_identity self.now }
    {
        self.kept.identity()
    }

    /// Returns the handle as one that is kept. It stays live.
    pub fn keep(self) -> Kept<T>
        ensures number { kept_number result ≡ handle_number self }
        ensures identity { kept_identity result ≡ handle_identity self }
    {
        let Bound { kept } = self;
        kept
    }

    /// Returns the handle's number, which `Call::RecordBound` and `Call::Unbind` take. The handle stays live.
    pub fn into_number(self) -> u64
        ensures { result ≡ handle_number self }
    {
        self.keep().number()
    }

    /// Ends the handle, as `step` does with `Call::Unbind`. Takes no memory.
    ///
    /// Refused with `UnknownHandle` if the handle belongs to a provider of another identity, before anything else is
    /// checked, or if the provider has no such handle. A refused call changes nothing and gives the handle back.
    pub fn unbind<P: Parts>(self, provider: &mut Provider<P>) -> Result<(), (Bound<T>, Fault)>
        ensures step { IsBoundOf self provider.old → Step (views_of P.View.answer provider.old) (state_of provider.old) (model.Call.Unbind (handle_number self)) (unbind_reply result) (state_of provider.new) }
        ensures foreign { ¬ IsBoundOf self provider.old → (result ≡ Err (self, Fault.UnknownHandle)) × (state_of provider.new ≡ state_of provider.old) }
        ensures back { IfErr result (λ e. e.0 ≡ self) }
        ensures balances { Balances (state_of provider.new) }
        ensures seeded { hash_seed_of provider.new ≡ hash_seed_of provider.old }
        ensures readers { KeepsReaders (state_of provider.old) (state_of provider.new) }
        ensures kept { provider_readers provider.new ≡ provider_readers provider.old }
        ensures views { provider_views provider.new ≡ provider_views provider.old }
        ensures callbacks { callbacks_of provider.new ≡ callbacks_of provider.old }
    {
        match self.kept.end(provider) {
            Ok(()) => {
                let _ = self.keep();
                Ok(())
            }
            Err(fault) => Err((self, fault)),
        }
    }

    /// Ends the handle, as `unbind` does, and lets it go even where that is refused, with the same faults. Takes no
    /// memory.
    pub fn end<P: Parts>(self, provider: &mut Provider<P>) -> Result<(), Fault>
        ensures step { IsBoundOf self provider.old → Step (views_of P.View.answer provider.old) (state_of provider.old) (model.Call.Unbind (handle_number self)) (reply_to result) (state_of provider.new) }
        ensures foreign { ¬ IsBoundOf self provider.old → (result ≡ Err Fault.UnknownHandle) × (state_of provider.new ≡ state_of provider.old) }
        ensures balances { Balances (state_of provider.new) }
        ensures seeded { hash_seed_of provider.new ≡ hash_seed_of provider.old }
        ensures readers { KeepsReaders (state_of provider.old) (state_of provider.new) }
        ensures kept { provider_readers provider.new ≡ provider_readers provider.old }
        ensures views { provider_views provider.new ≡ provider_views provider.old }
        ensures callbacks { callbacks_of provider.new ≡ callbacks_of provider.old }
    {
        self.keep().end(provider)
    }
}

impl<T: NumberType> Kept<T> {
    /// Adds a value, in the instrument's unit, with the attributes of the handle, as `step` does with
    /// `Call::RecordBound`.
    ///
    /// Takes no memory. The handle is found at its places in the provider and in the streams. It is looked up only where
    /// it stands elsewhere: in a stream that several instruments feed, or once many older handles have ended.
    ///
    /// Refused with `UnknownHandle` if the handle belongs to a provider of another identity, before anything else is
    /// checked, or if it has ended. If two providers of one identity mix up their handles, the call is refused with
    /// `UnknownHandle` or `WrongNumber`, or goes to the handle of the same number. Otherwise it is never refused. A
    /// refused call changes nothing.
    pub fn add<P: Parts>(&self, provider: &mut Provider<P>, value: T) -> Result<(), Fault>
        ensures step { IsKeptOf self.now provider.old → Step (views_of P.View.answer provider.old) (state_of provider.old) (model.Call.RecordBound (kept_number self.now) (number_of (T.value value))) (record_reply result) (state_of provider.new) }
        ensures foreign { ¬ IsKeptOf self.now provider.old → (result ≡ Err Fault.UnknownHandle) × (state_of provider.new ≡ state_of provider.old) }
        ensures balances { Balances (state_of provider.new) }
        ensures seeded { hash_seed_of provider.new ≡ hash_seed_of provider.old }
        ensures readers { KeepsReaders (state_of provider.old) (state_of provider.new) }
        ensures kept { provider_readers provider.new ≡ provider_readers provider.old }
        ensures views { provider_views provider.new ≡ provider_views provider.old }
        ensures callbacks { callbacks_of provider.new ≡ callbacks_of provider.old }
    {
        let made = provider
            .core
            .record_bound(self.identity, self.handle, value.into_value());
        provider.core.law_of_state();
        made
    }

    /// Records a value. The same as `add`.
    pub fn record<P: Parts>(&self, provider: &mut Provider<P>, value: T) -> Result<(), Fault>
        ensures step { IsKeptOf self.now provider.old → Step (views_of P.View.answer provider.old) (state_of provider.old) (model.Call.RecordBound (kept_number self.now) (number_of (T.value value))) (record_reply result) (state_of provider.new) }
        ensures foreign { ¬ IsKeptOf self.now provider.old → (result ≡ Err Fault.UnknownHandle) × (state_of provider.new ≡ state_of provider.old) }
        ensures balances { Balances (state_of provider.new) }
        ensures seeded { hash_seed_of provider.new ≡ hash_seed_of provider.old }
        ensures readers { KeepsReaders (state_of provider.old) (state_of provider.new) }
        ensures kept { provider_readers provider.new ≡ provider_readers provider.old }
        ensures views { provider_views provider.new ≡ provider_views provider.old }
        ensures callbacks { callbacks_of provider.new ≡ callbacks_of provider.old }
    {
        self.add(provider, value)
    }
}

impl<T> Kept<T> {
    /// The handle's number, which `Call::RecordBound` and `Call::Unbind` take.
    pub fn number(&self) -> u64
        ensures { result ≡ kept_number self.now }
    {
        self.handle.number
    }

    /// The identity of the provider that it belongs to.
    pub fn identity(&self) -> u64
        ensures { result ≡ kept_identity self.now }
    {
        self.identity
    }

    /// Ends the handle, as `step` does with `Call::Unbind`. Takes no memory.
    ///
    /// Refused with `UnknownHandle` if the handle belongs to a provider of another identity, before anything else is
    /// checked, or if it has ended already. A refused call changes nothing.
    pub fn end<P: Parts>(&self, provider: &mut Provider<P>) -> Result<(), Fault>
        ensures step { IsKeptOf self.now provider.old → Step (views_of P.View.answer provider.old) (state_of provider.old) (model.Call.Unbind (kept_number self.now)) (reply_to result) (state_of provider.new) }
        ensures foreign { ¬ IsKeptOf self.now provider.old → (result ≡ Err Fault.UnknownHandle) × (state_of provider.new ≡ state_of provider.old) }
        ensures balances { Balances (state_of provider.new) }
        ensures seeded { hash_seed_of provider.new ≡ hash_seed_of provider.old }
        ensures readers { KeepsReaders (state_of provider.old) (state_of provider.new) }
        ensures kept { provider_readers provider.new ≡ provider_readers provider.old }
        ensures views { provider_views provider.new ≡ provider_views provider.old }
        ensures callbacks { callbacks_of provider.new ≡ callbacks_of provider.old }
    {
        let ended = provider.core.unbind(self.identity, self.handle.number);
        provider.core.law_of_state();
        ended
    }
}
