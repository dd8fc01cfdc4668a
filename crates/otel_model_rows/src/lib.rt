//! Worked rows of the definitions of a stream and of a provider: examples with their expected outcomes, which the
//! prover computes. No working code.
//!
//! Each function's contract states one row of a file in `proofs/`. Its proof cites that row, and the prover checks the
//! whole file with it.
#![tactic(auto)]

pub mod common;
pub mod providers;
pub mod readers;
pub mod streams;
pub mod words;
