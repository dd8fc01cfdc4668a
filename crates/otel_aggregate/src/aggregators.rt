//! Numbers, the bounds of histograms, and aggregators: what is kept of the records of one set of attributes.

pub mod aggregator;
pub mod assign;
pub mod bounds;
pub mod buckets;
pub mod number;
mod signed;
