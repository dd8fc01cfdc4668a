//! Worked rows of the words that the contracts of `opentelemetry_sdk` use: examples with their expected outcomes, which
//! the prover computes. No working code.
//!
//! Each function's contract states one row of a file in `proofs/`. Its proof cites that row, and the prover checks the
//! whole file with it.
#![tactic(auto)]

pub mod provider;
