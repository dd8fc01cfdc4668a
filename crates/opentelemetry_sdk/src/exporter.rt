//! A collection as text that others read, and what a program needs to export it every period.

pub mod otlp;
pub mod prometheus;

pub use otel_export::faults::WriteFault;
pub use otel_export::{file, outbox, schedule};
