//! Attributes, sets of attributes, scopes, the laws of these, and the faults of all calls.

pub use crate::attributes::{Array, KeyValue, Value};
pub use crate::canonical::{canonical, canonical_laws};
pub use crate::faults::{Fault, InternalFault, OTelSdkResult};
pub use crate::keys::Key;
pub use crate::laws::{
    copied_attributes, copied_scope, equal_attributes, equal_scopes, resource_laws,
    temporality_laws,
};
pub use crate::lists::{Items, SharedItems};
pub use crate::outside::{now_nanos, random_seed};
pub use crate::scopes::{InstrumentationScope, InstrumentationScopeBuilder};
pub use crate::strings::StringValue;
