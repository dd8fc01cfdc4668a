//! Rows of the words of this crate: examples with their expected outcomes, which the prover computes. No working code.
//!
//! The contract states one row of a file in `proofs/`. Its proof cites that row, and the prover checks the whole file with
//! it.

ghost use Rattle.std.specs.Prelude.{◌≡◌, []};
ghost use Rattle.metrics_script.specs.ScriptLines.{lines_of};

/// How an input is cut into lines and words, and what the lines of a script say together.
fn scripts()
    ensures no_lines { lines_of [] ≡ [] }
{}
