//! Instruments, as readers and views see them, and the settings of their streams.

pub use otel_stream::compatible::is_aggregator_compatible;
pub use otel_stream::instrument::{Instrument, InstrumentKind};
pub use otel_stream::selector::{InstrumentSelector, NameCriterion, SelectorView};
pub use otel_stream::stream::{Stream, StreamBuilder};
pub use otel_stream::stream_fault::StreamFault;
pub use otel_stream::stream_spec::StreamSpec;
