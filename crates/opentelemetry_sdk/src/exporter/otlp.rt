//! A collection as a line of OTLP JSON, which the Collector reads from a file (OpenTelemetry Protocol, "JSON Protobuf
//! Encoding").

pub use otel_otlp::laws::says_collection;
pub use otel_otlp::requests::request_line;
pub use otel_otlp::writes::write;
