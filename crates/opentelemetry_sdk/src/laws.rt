//! Laws: a copy of a call, a reply, a meter or an instrument equals its source, and no call changes a provider's
//! identity.
//!
//! These functions do nothing. A function whose contract needs the law of a copy first calls the one of its type.

ghost use Rattle.std.specs.Prelude.{◌≡◌, List};
ghost use Rattle.otel_data.specs.declared.numbers.NumberValue.{NumberValue};
ghost use Rattle.otel_model.specs.Calls as model;
ghost use Rattle.otel_model.specs.Demands.{Views};
ghost use Rattle.otel_model.specs.State.{State};
ghost use Rattle.otel_model.specs.Steps.{Step, Run};
ghost use Rattle.opentelemetry_sdk.specs.declared.values.asynchronous.Asynchronous.{Asynchronous};
ghost use Rattle.opentelemetry_sdk.specs.declared.calls.Call.{Call};
ghost use Rattle.opentelemetry_sdk.specs.declared.calls.Reply.{Reply};
ghost use Rattle.opentelemetry_sdk.specs.declared.values.meters.Meter.{Meter};
ghost use Rattle.opentelemetry_sdk.specs.declared.values.sorts.InstrumentSort.{InstrumentSort};
ghost use Rattle.opentelemetry_sdk.specs.declared.values.synchronous.Synchronous.{Synchronous};

use crate::calls::{Call, Reply};
use crate::values::asynchronous::Asynchronous;
use crate::values::meters::Meter;
use crate::values::sorts::InstrumentSort;
use crate::values::synchronous::Synchronous;
use otel_common::laws::{copied_attributes, copied_scope};
use otel_data::copies::copied_collection;
use otel_data::numbers::NumberValue;
use otel_stream::laws::copied_observed;

/// A copy of an instrument's sort or of a value equals its source.
pub fn copied_numbers()
    ensures sort { (x y : InstrumentSort) → ⟦<InstrumentSort as Clone>⟧.is_clone x y → y ≡ x }
    ensures value { (x y : NumberValue) → ⟦<NumberValue as Clone>⟧.is_clone x y → y ≡ x }
{}

/// A copy of a call equals its source.
pub fn copied_call()
    ensures { (x y : Call) → ⟦<Call as Clone>⟧.is_clone x y → y ≡ x }
{
    copied_attributes();
    copied_scope();
    copied_numbers();
    copied_observed();
}

/// A copy of a reply equals its source.
pub fn copied_reply()
    ensures { (x y : Reply) → ⟦<Reply as Clone>⟧.is_clone x y → y ≡ x }
{
    copied_collection();
}

/// A copy of a meter equals its source.
pub fn copied_meter()
    ensures { (x y : Meter) → ⟦<Meter as Clone>⟧.is_clone x y → y ≡ x }
{}

/// A copy of an instrument equals its source.
pub fn copied_instruments<K, T>()
    ensures { (x y : Synchronous K T) → ⟦<Synchronous<K, T> as Clone>⟧.is_clone x y → y ≡ x }
{}

/// A copy of an observable instrument equals its source.
pub fn copied_observables<K, T>()
    ensures { (x y : Asynchronous K T) → ⟦<Asynchronous<K, T> as Clone>⟧.is_clone x y → y ≡ x }
{}

/// No call changes a provider's identity, so its meters and instruments stay its own.
#[tactic(auto, using(crate::proofs::Identities::step_identity, crate::proofs::Identities::run_identity))]
pub fn keeps_identity()
    ensures step { (views : Views) (old : State) (call : model.Call) (reply : model.Reply) (new : State) → Step views old call reply new → new.shared.identity ≡ old.shared.identity }
    ensures run { (views : Views) (old : State) (calls : List model.Call) (replies : List model.Reply) (new : State) → Run views old calls replies new → new.shared.identity ≡ old.shared.identity }
{}
