//! Aggregation of records.

pub use crate::aggregators::aggregator::{
    Aggregator, Increment, create_fold, reset_fold, update_fold,
};
pub use crate::aggregators::assign::Assign;
pub use crate::aggregators::bounds::Bounds;
pub use crate::aggregators::buckets::{Buckets, BucketsConfig, counted_once};
pub use crate::aggregators::number::Number;
pub use crate::histogram::{Histogram, HistogramAggregate};
pub use crate::last_value::{LastValue, LastValueAggregate};
pub use crate::precomputed_sum::PrecomputedSum;
pub use crate::settings::HistogramSettings;
pub use crate::sum::{Sum, SumAggregate};
pub use crate::typed::{TypedAggregate, TypedStream};
pub use crate::value_map::ValueMap;
pub use crate::value_map::hashing::SetHashBuilder;
