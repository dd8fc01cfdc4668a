//! The provider of meters, and what belongs to it.

pub mod callback;
pub mod instrument;
pub mod meter;
mod plain;
pub mod provider;
pub mod reader;
pub mod shared;

pub use crate::provider::{MeterProviderBuilder, SdkMeterProvider};
pub use otel_aggregate::internal;
pub use otel_common::metrics::{Aggregation, MetricError, Temporality};
pub use otel_data::data;
pub use otel_stream::instrument::{Instrument, InstrumentKind};
pub use otel_stream::manual_reader::{ManualReader, ManualReaderBuilder};
pub use otel_stream::stream::{Stream, StreamBuilder};
pub use otel_stream::view;
pub use otel_stream::view::View;
