//! Collections as text that Prometheus reads: its text format, version 0.0.4, or OpenMetrics 1.0 (Prometheus and
//! OpenMetrics Compatibility).
//!
//! A text shows cumulative points. A point that covers one collection alone can't be shown, nor one whose metric has
//! the name of another family, nor one whose labels are those of an earlier point of its family: these are left out
//! and counted.
#![tactic(auto)]

pub mod expositions;
mod families;
mod headings;
mod labels;
pub mod laws;
mod places;
mod points;
mod rising;
mod samples;
mod series;
pub mod settings;
pub mod text;
mod units;
mod values;
pub mod writes;
