//! Rows of the words of `otel_stream`.

ghost use Rattle.std.specs.Prelude.{◌≡◌, ℕ, []};
ghost use Rattle.otel_common.specs.declared.faults.Fault.TheVariants.{WrongNumber};
ghost use Rattle.otel_stream.specs.Requests.{default_timeout};
ghost use Rattle.otel_stream.specs.Runs.{EndsWith};
ghost use Rattle.otel_stream.specs.Settings.{IsLawful, nothing_said};

/// What all readers are asked.
pub fn asked()
    ensures five_seconds { default_timeout ≡ 5000000000 }
{}

/// Runs of callbacks.
pub fn runs()
    ensures no_fault_of_none { EndsWith {B = ℕ} [] WrongNumber → ⊥ }
{}

/// What readers want, and what is set for streams.
pub fn wants()
    ensures lawful { IsLawful nothing_said }
{}
