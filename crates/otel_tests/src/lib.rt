//! Tests, through the public items of the crates: of streams, aggregates and exporters one by one; of whole runs of a
//! provider, alone and shared by threads; and of scripts. In a crate of their own they are proved without the functions
//! that they call, which tests inside a crate prove a second time.
#![tactic(auto)]

#[cfg(test)]
mod tests;
