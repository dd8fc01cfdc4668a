//! What a collection gives: metrics with their points, by scope; and the laws of these types.

pub use crate::aggregated::{AggregatedMetrics, MetricData};
pub use crate::collections::{Metric, ResourceMetrics, ScopeMetrics};
pub use crate::copies::{
    canonical_sets, copied_aggregated, copied_collection, copied_data, copied_lists, copied_metric,
    copied_points, copied_scope, copied_signed_lists, copied_signed_points, equal_points,
    equal_signed_points,
};
pub use crate::exemplars::Exemplar;
pub use crate::gauges::Gauge;
pub use crate::histograms::Histogram;
pub use crate::numbers::NumberValue;
pub use crate::points::{GaugeDataPoint, HistogramDataPoint, SumDataPoint};
pub use crate::sums::Sum;
