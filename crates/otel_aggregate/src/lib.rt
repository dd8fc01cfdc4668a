//! Aggregates of records by set of attributes: sets as keys, aggregators, and a bounded map from sets to aggregators;
//! above it streams of any aggregate; and over these sums, observed sums, last values and histograms of one number
//! type.
#![tactic(auto)]

pub mod aggregate_stream;
pub mod aggregators;
pub mod any_aggregator;
pub mod draft;
pub mod histogram;
pub mod internal;
pub mod last_value;
pub mod links;
pub mod precomputed_sum;
pub mod sets;
pub mod settings;
pub mod sum;
pub mod typed;
pub mod value_map;
pub mod values;
