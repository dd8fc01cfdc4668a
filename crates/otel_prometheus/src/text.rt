//! The text that Prometheus reads: samples with their labels, each on a line.
//!
//! The text has two forms, which differ little: Prometheus' own text format, version 0.0.4, and OpenMetrics 1.0. A
//! reader of both is defined in `specs/`, apart from the spelling, and each text is read by it as the lines that were
//! written.

pub mod comments;
pub mod escapes;
pub mod formats;
pub mod labels;
pub mod laws;
pub mod names;
pub mod numbers;
mod plain;
pub mod samples;
