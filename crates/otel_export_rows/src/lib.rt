//! Worked rows of the words of `otel_prometheus` and `otel_otlp`: texts, what readers say of them, and how names and numbers
//! are spelled. No working code.
//!
//! Each function's contract states one row of a file in `proofs/`. Its proof cites that row, and the prover checks the
//! whole file with it.
#![tactic(auto)]

pub mod readers;
pub mod spellings;
