//! Collections as requests of the OpenTelemetry protocol in JSON, each on a line (OpenTelemetry Protocol, "JSON Protobuf
//! Encoding"): what the Collector reads from a file.
//!
//! A 64-bit integer is a string of its digits. Bounds, sums and extremes of histograms are doubles in the protocol: they
//! are written as numbers with all digits, and a reader rounds them where they pass 2^53. So is the value of a point
//! from 2^63 on. The protocol does not tell an unsigned integer from a signed one of the same value.
#![tactic(auto)]

mod attributes;
mod items;
pub mod laws;
mod metrics;
mod numbers;
mod parts;
mod points;
pub mod requests;
mod scopes;
pub mod writes;
