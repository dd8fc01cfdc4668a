//! Rows of the words of `opentelemetry_sdk`.

ghost use Rattle.std.specs.Prelude.{◌≡◌, ℕ, true, [], Err, Ok};
ghost use Rattle.otel_common.specs.declared.faults.Fault.TheVariants.{OutOfMemory, UnknownMeter, LedgerFull};
ghost use Rattle.otel_model.specs.Calls as model;
ghost use Rattle.otel_model.specs.Demands.{Views};
ghost use Rattle.otel_model.specs.Machine.{new_state};
ghost use Rattle.otel_model.specs.Resources.{empty_resource};
ghost use Rattle.otel_model.specs.State.{State};
ghost use Rattle.opentelemetry_sdk.specs.Callbacks.{IsCollected};
ghost use Rattle.opentelemetry_sdk.specs.Headline.{FromBuilt};
ghost use Rattle.opentelemetry_sdk.specs.Known.{HasMemory};
ghost use Rattle.opentelemetry_sdk.specs.Pending.{StopsBy};
ghost use Rattle.opentelemetry_sdk.specs.Providers.{state_of, identity_of};
ghost use Rattle.opentelemetry_sdk.specs.Readers.{shut_after};
ghost use Rattle.opentelemetry_sdk.specs.Typed.{record_reply};
ghost use Rattle.opentelemetry_sdk.specs.declared.calls.Reply.TheVariants.{Refused};
ghost use Rattle.opentelemetry_sdk.specs.declared.provider.Provider.{Provider};

/// Which callbacks are registered, and what a collection does with what they gave.
pub fn callbacks()
    ensures fault_changes_nothing { (views : Views) (old new : State) (r now : ℕ) → IsCollected views old r now (Err UnknownMeter) (Err UnknownMeter) new → new ≡ old }
{}

/// Calls, replies, faults and numbers of the code in the words of the model.
pub fn calls()
    ensures recorded { record_reply (Ok tt) ≡ model.Reply.Done }
{}

/// What laws say of a provider.
pub fn headline()
    ensures law_of_no_readers { FromBuilt (new_state empty_resource 7 []) (λ resource identity readers. ⊥) → ⊥ }
{}

/// Calls that are never refused for lack of memory, and what an instrument feeds.
pub fn known()
    ensures refused_for_memory { HasMemory (Refused OutOfMemory) → ⊥ }
{}

/// What calls do to readers.
pub fn readers()
    ensures shutdown_shuts { shut_after true model.Call.Shutdown ≡ true }
{}

/// Records that wait, and submissions.
pub fn shared()
    ensures stops_without_records { (st : State) (booked : ℕ) → StopsBy st [] booked LedgerFull → ⊥ }
{}

/// What belongs to a provider.
pub fn typed()
    ensures identity { (p : Provider ℕ ℕ ℕ ℕ ℕ) → identity_of p ≡ (state_of p).shared.identity }
{}
