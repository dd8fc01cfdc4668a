//! Points of gauges, sums and histograms, with their moments.

ghost use Rattle.std.specs.Prelude.{◌≡◌, ◌++◌, ◌∷◌, ℕ, Bool, OnOk, decimal};
ghost use Rattle.std.specs.Option.{option_map};
ghost use Rattle.json.specs.Json.{Json, no_members, number};
ghost use Rattle.json.specs.Token.{begin_object};
ghost use Rattle.json.specs.Tree.{json_tokens};
ghost use Rattle.otel_otlp.specs.Arrays.{array_of, members_front, optional};
ghost use Rattle.otel_otlp.specs.Numbers.{quoted, whole};
ghost use Rattle.otel_otlp.specs.Points.{number_point_json, gauge_point_json, sum_point_json, histogram_point_json, gauge_json, sum_json, histogram_json, kept_sum, point_members, temporality_json, totals};

use crate::items::{Item, write_items};
use crate::numbers::Number;
use crate::parts::{Part, write_parts};
use json::Writer;
use otel_common::attributes::KeyValue;
use otel_common::metrics::Temporality;
use otel_data::gauges::Gauge;
use otel_data::histograms::Histogram;
use otel_data::points::{GaugeDataPoint, HistogramDataPoint, SumDataPoint};
use otel_data::sums::Sum;
use std::alloc::AllocError;

impl Item for u64 {
    ghost json = { quoted };

    fn write(&self, out: &mut Writer) -> Result<(), AllocError> {
        out.quoted_u64(*self)
    }
}

/// Begins a point: writes its attributes, its start and its moment in nanoseconds since 1970.
fn begin_point(
    out: &mut Writer,
    attributes: &[KeyValue],
    start: u64,
    time: u64,
) -> Result<(), AllocError>
    ensures tokens { OnOk result (out.new.tokens ≡ out.old.tokens ++ begin_object ∷ members_front (point_members attributes.now start time no_members)) }
    ensures before { out.new.before ≡ out.old.before }
{
    out.begin_object()?;
    out.key("attributes")?;
    write_items(out, attributes)?;
    out.key("startTimeUnixNano")?;
    start.write(out)?;
    out.key("timeUnixNano")?;
    time.write(out)?;
    Ok(())
}

/// Writes a point of a gauge or a sum.
fn write_number_point<T: Number>(
    out: &mut Writer,
    attributes: &[KeyValue],
    start: u64,
    time: u64,
    value: T,
) -> Result<(), AllocError>
    ensures tokens { OnOk result (out.new.tokens ≡ out.old.tokens ++ json_tokens (number_point_json T.integer start time attributes.now value)) }
    ensures before { out.new.before ≡ out.old.before }
{
    begin_point(out, attributes, start, time)?;
    value.write_value(out)?;
    out.end_object()?;
    Ok(())
}

/// Writes bounds of buckets.
fn write_bounds(out: &mut Writer, bounds: &[i64]) -> Result<(), AllocError>
    ensures tokens { OnOk result (out.new.tokens ≡ out.old.tokens ++ json_tokens (array_of whole bounds.now)) }
    ensures before { out.new.before ≡ out.old.before }
{
    out.begin_array()?;
    for bound in bounds {
        bound.write_whole(out)?;
    }
    out.end_array()?;
    Ok(())
}

/// Writes a number under a name, if there is one.
fn write_optional<T: Number>(
    out: &mut Writer,
    name: &str,
    number: Option<T>,
) -> Result<(), AllocError>
    ensures tokens { OnOk result (out.new.tokens ≡ out.old.tokens ++ members_front (optional name.now (option_map whole (option_map T.integer number)) no_members)) }
    ensures before { out.new.before ≡ out.old.before }
{
    match number {
        Some(number) => {
            out.key(name)?;
            number.write_whole(out)?;
            Ok(())
        }
        None => Ok(()),
    }
}

/// The sum of a point, if sums are kept.
fn kept_sum<T: Number>(point: &HistogramDataPoint<T>, has_sum: bool) -> Option<T>
    ensures { option_map T.integer result ≡ kept_sum has_sum (T.integer point.now.sum) }
{
    if has_sum { Some(point.sum()) } else { None }
}

/// Writes how many values there are, and their sum, if it is kept.
fn write_totals<T: Number>(out: &mut Writer, count: u64, sum: Option<T>) -> Result<(), AllocError>
    ensures tokens { OnOk result (out.new.tokens ≡ out.old.tokens ++ members_front (totals count (option_map T.integer sum) no_members)) }
    ensures before { out.new.before ≡ out.old.before }
{
    out.key("count")?;
    count.write(out)?;
    write_optional(out, "sum", sum)?;
    Ok(())
}

/// Writes a point of a histogram.
fn write_histogram_point<T: Number>(
    out: &mut Writer,
    has_sum: bool,
    start: u64,
    time: u64,
    point: &HistogramDataPoint<T>,
) -> Result<(), AllocError>
    ensures tokens { OnOk result (out.new.tokens ≡ out.old.tokens ++ json_tokens (histogram_point_json T.integer has_sum start time point.now)) }
    ensures before { out.new.before ≡ out.old.before }
{
    begin_point(out, point.attributes().as_slice(), start, time)?;
    write_totals(out, point.count(), kept_sum(point, has_sum))?;
    out.key("bucketCounts")?;
    write_items(out, point.bucket_counts().as_slice())?;
    out.key("explicitBounds")?;
    write_bounds(out, point.bounds().as_slice())?;
    write_optional(out, "min", point.min())?;
    write_optional(out, "max", point.max())?;
    out.end_object()?;
    Ok(())
}

/// The number that says how points relate to those of the collection before.
fn temporality_number(temporality: Temporality) -> u64
    ensures { number (decimal result) ≡ temporality_json temporality }
{
    match temporality {
        Temporality::Cumulative => 2,
        Temporality::Delta => 1,
        Temporality::LowMemory => 0,
    }
}

/// A point of a metric.
trait Point {
    /// The point as JSON, with the start and the moment of its metric; of a histogram it has a sum if sums are kept.
    ghost json: { Bool → ℕ → ℕ → Self → Json };

    /// Writes the point.
    fn write(
        &self,
        out: &mut Writer,
        has_sum: bool,
        start: u64,
        time: u64,
    ) -> Result<(), AllocError>
        ensures tokens { OnOk result (out.new.tokens ≡ out.old.tokens ++ json_tokens (json has_sum start time self.now)) }
        ensures before { out.new.before ≡ out.old.before };
}

impl<T: Number> Point for GaugeDataPoint<T> {
    ghost json = { λ _ start time p. gauge_point_json T.integer start time p };

    fn write(
        &self,
        out: &mut Writer,
        _has_sum: bool,
        start: u64,
        time: u64,
    ) -> Result<(), AllocError> {
        let attributes = self.attributes().as_slice();
        write_number_point(out, attributes, start, time, self.value())
    }
}

impl<T: Number> Point for SumDataPoint<T> {
    ghost json = { λ _ start time p. sum_point_json T.integer start time p };

    fn write(
        &self,
        out: &mut Writer,
        _has_sum: bool,
        start: u64,
        time: u64,
    ) -> Result<(), AllocError> {
        let attributes = self.attributes().as_slice();
        write_number_point(out, attributes, start, time, self.value())
    }
}

impl<T: Number> Point for HistogramDataPoint<T> {
    ghost json = { λ has_sum start time p. histogram_point_json T.integer has_sum start time p };

    fn write(
        &self,
        out: &mut Writer,
        has_sum: bool,
        start: u64,
        time: u64,
    ) -> Result<(), AllocError> {
        write_histogram_point(out, has_sum, start, time, self)
    }
}

/// Writes points, which have this start and this moment, and those of histograms a sum if sums are kept.
fn write_points<P: Point>(
    out: &mut Writer,
    has_sum: bool,
    start: u64,
    time: u64,
    points: &[P],
) -> Result<(), AllocError>
    ensures tokens { OnOk result (out.new.tokens ≡ out.old.tokens ++ json_tokens (array_of (P.json has_sum start time) points.now)) }
    ensures before { out.new.before ≡ out.old.before }
{
    out.begin_array()?;
    for point in points {
        point.write(out, has_sum, start, time)?;
    }
    out.end_array()?;
    Ok(())
}

/// Writes the points of a gauge.
pub(crate) fn write_gauge<T: Number>(out: &mut Writer, gauge: &Gauge<T>) -> Result<(), AllocError>
    ensures tokens { OnOk result (out.new.tokens ≡ out.old.tokens ++ json_tokens (gauge_json T.integer gauge.now)) }
    ensures before { out.new.before ≡ out.old.before }
{
    let start = gauge.start_time().unwrap_or(0);
    write_parts(out, &[Part::BeginObject, Part::Key("dataPoints")])?;
    let points = gauge.data_points().as_slice();
    write_points(out, false, start, gauge.time(), points)?;
    out.end_object()?;
    Ok(())
}

/// Writes the points of a sum.
pub(crate) fn write_sum<T: Number>(out: &mut Writer, sum: &Sum<T>) -> Result<(), AllocError>
    ensures tokens { OnOk result (out.new.tokens ≡ out.old.tokens ++ json_tokens (sum_json T.integer sum.now)) }
    ensures before { out.new.before ≡ out.old.before }
{
    write_parts(out, &[Part::BeginObject, Part::Key("dataPoints")])?;
    write_points(
        out,
        false,
        sum.start_time(),
        sum.time(),
        sum.data_points().as_slice(),
    )?;
    write_parts(
        out,
        &[
            Part::Key("aggregationTemporality"),
            Part::Natural(temporality_number(sum.temporality())),
            Part::Key("isMonotonic"),
            Part::Truth(sum.is_monotonic()),
            Part::EndObject,
        ],
    )?;
    Ok(())
}

/// Writes the points of a histogram.
pub(crate) fn write_histogram<T: Number>(
    out: &mut Writer,
    histogram: &Histogram<T>,
) -> Result<(), AllocError>
    ensures tokens { OnOk result (out.new.tokens ≡ out.old.tokens ++ json_tokens (histogram_json T.integer histogram.now)) }
    ensures before { out.new.before ≡ out.old.before }
{
    write_parts(out, &[Part::BeginObject, Part::Key("dataPoints")])?;
    write_points(
        out,
        histogram.has_sum(),
        histogram.start_time(),
        histogram.time(),
        histogram.data_points().as_slice(),
    )?;
    write_parts(
        out,
        &[
            Part::Key("aggregationTemporality"),
            Part::Natural(temporality_number(histogram.temporality())),
            Part::EndObject,
        ],
    )?;
    Ok(())
}
