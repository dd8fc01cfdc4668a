//! Rows of the words of `otel_common`.

ghost use Rattle.std.specs.Prelude.{◌≡◌};
ghost use Rattle.otel_common.specs.Faults.{number_of};
ghost use Rattle.otel_common.specs.declared.faults.Fault.TheVariants.{WorkersMissing};

/// Attributes, their canonical lists, scopes, faults, temporalities and aggregations.
pub fn common()
    ensures last_number { number_of WorkersMissing ≡ 14 }
{}
