//! What a program needs to export collections beside the exporters themselves: files that are replaced or that grow,
//! lines that wait until they are handed over, moments at which to export, and why a write failed.
#![tactic(auto)]

pub mod faults;
pub mod file;
pub mod outbox;
mod rows;
pub mod schedule;
mod writing;
