//! Readers.

pub use otel_stream::each_reader::{flush_all, shut_all};
pub use otel_stream::laws::{boxed_reader, plain_answers};
pub use otel_stream::limit::CardinalityLimit;
pub use otel_stream::manual_reader::{ManualReader, ManualReaderBuilder};
pub use otel_stream::reader::MetricReader;
