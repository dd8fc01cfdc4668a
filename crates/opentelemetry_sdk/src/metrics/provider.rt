//! The provider, its calls and their replies.

pub use crate::calls::record_attributes::RecordAttributes;
pub use crate::calls::{Call, Reply};
pub use crate::laws::{copied_call, copied_numbers, copied_reply};
pub use crate::metrics::plain::Plain;
pub use crate::parts::{Boxed, ObserveI64Part, ObserveU64Part, Parts, ReaderPart, ViewPart};
pub use crate::provider::{MeterProviderBuilder, Provider, ProviderBuilder, SdkMeterProvider};
pub use crate::values::sorts::InstrumentSort;
pub use otel_data::numbers::NumberValue;
pub use otel_stream::laws::copied_observed;
pub use otel_stream::observation::Observed;
