//! A collection as the text that Prometheus reads, in its own format or in OpenMetrics (Prometheus and OpenMetrics
//! Compatibility).

pub use otel_prometheus::expositions::{Exposition, LeftOut, exposition_of};
pub use otel_prometheus::laws::{
    buckets_rise, names_stand_apart, nothing_is_lost, points_are_distinct, says_lines, says_points,
    series_are_distinct,
};
pub use otel_prometheus::settings::Settings;
pub use otel_prometheus::text::formats::Format;
pub use otel_prometheus::writes::write;
