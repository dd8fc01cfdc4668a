//! Callbacks of observable instruments, and what they observe.

pub use otel_stream::callback::{ObserveI64, ObserveU64};
pub use otel_stream::laws::copied_observed;
pub use otel_stream::no_callback::NoCallback;
pub use otel_stream::observation::{Observation, Observed};
pub use otel_stream::registered::{Callback, Registered};
