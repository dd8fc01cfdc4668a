//! The two forms of the text.

/// The form of a text for Prometheus.
#[derive(Clone, Copy, Debug, PartialEq, Eq)]
pub enum Format {
    /// Prometheus' text format, version 0.0.4.
    Prometheus,
    /// OpenMetrics 1.0. Help texts have their quotes escaped, and the text ends with a line that says so.
    OpenMetrics,
}
