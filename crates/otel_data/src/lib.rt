//! What a collection gives: metrics with their points, by scope.
//!
//! Contracts see each type as the record of what its getters return. Making a value of its parts and reading one of
//! them take no memory; a copy takes memory for all parts. Moments are in nanoseconds since 1970.
#![tactic(auto)]

pub mod aggregated;
pub mod collections;
pub mod copies;
pub mod data;
mod display;
pub mod exemplars;
pub mod gauges;
pub mod histograms;
pub mod numbers;
mod places;
pub mod points;
pub mod sums;
mod values;
