//! Meters, builders, instruments and handles as values, and attributes written out.

pub(crate) mod async_builders;
pub(crate) mod asynchronous;
pub(crate) mod attributes;
pub(crate) mod bound;
pub(crate) mod builders;
pub(crate) mod meters;
pub(crate) mod sorts;
pub(crate) mod synchronous;
