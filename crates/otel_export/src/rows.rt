//! Rows of the words of this crate: examples with their expected outcomes, which the prover computes. No working code.

ghost use Rattle.std.specs.Prelude.{◌≡◌, ◌∷◌, []};
ghost use Rattle.otel_export.specs.Outboxes.{line_break};

/// Outboxes and schedules. Its proof cites a row of the file that has them, and the prover checks the whole file with it.
fn exports()
    ensures feed { line_break ≡ 10 ∷ [] }
{}
