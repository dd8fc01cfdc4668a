//! Laws: a copy equals its source, points are equal exactly if their parts are, and which attributes are a set.
//!
//! These functions do nothing. A function whose contract needs the law of copying or comparing a type calls that type's
//! function first.

ghost use Rattle.std.specs.Prelude.{◌≡◌, ℕ, ℤ, List};
ghost use Rattle.std.specs.Bool.{Decides};
ghost use Rattle.otel_common.specs.Canonical.{canon};
ghost use Rattle.otel_common.specs.Equality.{set_eq};
ghost use Rattle.otel_common.specs.declared.attributes.KeyValue.{KeyValue};
ghost use Rattle.otel_data.specs.Values.{is_set};
ghost use Rattle.otel_data.specs.declared.aggregated.AggregatedMetrics.{AggregatedMetrics};
ghost use Rattle.otel_data.specs.declared.aggregated.MetricData.{MetricData};
ghost use Rattle.otel_data.specs.declared.collections.Metric.{Metric};
ghost use Rattle.otel_data.specs.declared.collections.ResourceMetrics.{ResourceMetrics};
ghost use Rattle.otel_data.specs.declared.collections.ScopeMetrics.{ScopeMetrics};
ghost use Rattle.otel_data.specs.declared.gauges.Gauge.{Gauge};
ghost use Rattle.otel_data.specs.declared.histograms.Histogram.{Histogram};
ghost use Rattle.otel_data.specs.declared.exemplars.Exemplar.{Exemplar};
ghost use Rattle.otel_data.specs.declared.points.GaugeDataPoint.{GaugeDataPoint};
ghost use Rattle.otel_data.specs.declared.points.HistogramDataPoint.{HistogramDataPoint};
ghost use Rattle.otel_data.specs.declared.points.SumDataPoint.{SumDataPoint};
ghost use Rattle.otel_data.specs.declared.sums.Sum.{Sum};

use crate::aggregated::{AggregatedMetrics, MetricData};
use crate::collections::{Metric, ResourceMetrics, ScopeMetrics};
use crate::exemplars::Exemplar;
use crate::gauges::Gauge;
use crate::histograms::Histogram;
use crate::points::{GaugeDataPoint, HistogramDataPoint, SumDataPoint};
use crate::sums::Sum;
use otel_common::laws::resource_laws;

/// Canonical attributes, as each point of a collection has, are the set of a list exactly if they are its canonical form.
/// So `value` and `count` find the point of the records with these attributes.
pub fn canonical_sets()
    ensures { (recorded attributes : List KeyValue) → is_set attributes (canon recorded) ≡ set_eq (canon recorded) (canon attributes) }
{}

/// Two points, or two exemplars, of unsigned numbers are equal exactly if their parts are.
pub fn equal_points()
    ensures exemplar { (x y : Exemplar ℕ) → Decides (⟦<Exemplar<u64> as PartialEq>⟧.eq x y) (x ≡ y) }
    ensures gauge { (x y : GaugeDataPoint ℕ) → Decides (⟦<GaugeDataPoint<u64> as PartialEq>⟧.eq x y) (x ≡ y) }
    ensures point { (x y : SumDataPoint ℕ) → Decides (⟦<SumDataPoint<u64> as PartialEq>⟧.eq x y) (x ≡ y) }
    ensures histogram { (x y : HistogramDataPoint ℕ) → Decides (⟦<HistogramDataPoint<u64> as PartialEq>⟧.eq x y) (x ≡ y) }
{}

/// The same for signed numbers.
pub fn equal_signed_points()
    ensures exemplar { (x y : Exemplar ℤ) → Decides (⟦<Exemplar<i64> as PartialEq>⟧.eq x y) (x ≡ y) }
    ensures gauge { (x y : GaugeDataPoint ℤ) → Decides (⟦<GaugeDataPoint<i64> as PartialEq>⟧.eq x y) (x ≡ y) }
    ensures point { (x y : SumDataPoint ℤ) → Decides (⟦<SumDataPoint<i64> as PartialEq>⟧.eq x y) (x ≡ y) }
    ensures histogram { (x y : HistogramDataPoint ℤ) → Decides (⟦<HistogramDataPoint<i64> as PartialEq>⟧.eq x y) (x ≡ y) }
{}

/// A copy of a point, or of an exemplar, of unsigned numbers equals its source.
pub fn copied_points()
    ensures exemplar { (x y : Exemplar ℕ) → ⟦<Exemplar<u64> as Clone>⟧.is_clone x y → y ≡ x }
    ensures gauge { (x y : GaugeDataPoint ℕ) → ⟦<GaugeDataPoint<u64> as Clone>⟧.is_clone x y → y ≡ x }
    ensures point { (x y : SumDataPoint ℕ) → ⟦<SumDataPoint<u64> as Clone>⟧.is_clone x y → y ≡ x }
    ensures histogram { (x y : HistogramDataPoint ℕ) → ⟦<HistogramDataPoint<u64> as Clone>⟧.is_clone x y → y ≡ x }
{}

/// The same for signed numbers.
pub fn copied_signed_points()
    ensures exemplar { (x y : Exemplar ℤ) → ⟦<Exemplar<i64> as Clone>⟧.is_clone x y → y ≡ x }
    ensures gauge { (x y : GaugeDataPoint ℤ) → ⟦<GaugeDataPoint<i64> as Clone>⟧.is_clone x y → y ≡ x }
    ensures point { (x y : SumDataPoint ℤ) → ⟦<SumDataPoint<i64> as Clone>⟧.is_clone x y → y ≡ x }
    ensures histogram { (x y : HistogramDataPoint ℤ) → ⟦<HistogramDataPoint<i64> as Clone>⟧.is_clone x y → y ≡ x }
{}

/// A copy of the points of a gauge, a sum or a histogram of unsigned numbers equals its source.
pub fn copied_lists()
    ensures gauge { (x y : Gauge ℕ) → ⟦<Gauge<u64> as Clone>⟧.is_clone x y → y ≡ x }
    ensures sum { (x y : Sum ℕ) → ⟦<Sum<u64> as Clone>⟧.is_clone x y → y ≡ x }
    ensures histogram { (x y : Histogram ℕ) → ⟦<Histogram<u64> as Clone>⟧.is_clone x y → y ≡ x }
{
    copied_points();
}

/// The same for signed numbers.
pub fn copied_signed_lists()
    ensures gauge { (x y : Gauge ℤ) → ⟦<Gauge<i64> as Clone>⟧.is_clone x y → y ≡ x }
    ensures sum { (x y : Sum ℤ) → ⟦<Sum<i64> as Clone>⟧.is_clone x y → y ≡ x }
    ensures histogram { (x y : Histogram ℤ) → ⟦<Histogram<i64> as Clone>⟧.is_clone x y → y ≡ x }
{
    copied_signed_points();
}

/// A copy of the points of a metric equals its source.
pub fn copied_data()
    ensures unsigned { (x y : MetricData ℕ) → ⟦<MetricData<u64> as Clone>⟧.is_clone x y → y ≡ x }
    ensures signed { (x y : MetricData ℤ) → ⟦<MetricData<i64> as Clone>⟧.is_clone x y → y ≡ x }
{
    copied_lists();
    copied_signed_lists();
}

/// A copy of the points of a metric, whatever their number type, equals its source.
pub fn copied_aggregated()
    ensures { (x y : AggregatedMetrics) → ⟦<AggregatedMetrics as Clone>⟧.is_clone x y → y ≡ x }
{
    copied_data();
}

/// A copy of a metric equals its source.
pub fn copied_metric()
    ensures { (x y : Metric) → ⟦<Metric as Clone>⟧.is_clone x y → y ≡ x }
{
    copied_aggregated();
}

/// A copy of a scope's metrics equals its source.
pub fn copied_scope()
    ensures { (x y : ScopeMetrics) → ⟦<ScopeMetrics as Clone>⟧.is_clone x y → y ≡ x }
{
    copied_metric();
}

/// A copy of a collection equals its source.
pub fn copied_collection()
    ensures { (x y : ResourceMetrics) → ⟦<ResourceMetrics as Clone>⟧.is_clone x y → y ≡ x }
{
    resource_laws();
    copied_scope();
}
