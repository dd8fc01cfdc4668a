//! Points as series: the samples of each under its labels.

ghost use Rattle.std.specs.Prelude.{◌≡◌, ◌++◌, Bool, OnOk, map, fold};
ghost use Rattle.otel_common.specs.declared.scopes.InstrumentationScope.{InstrumentationScope};
ghost use Rattle.otel_prometheus.specs.Points.{value_name, number_series, gauge_series, sum_series, histogram_series, data_series, content_series};
ghost use Rattle.otel_prometheus.specs.Labels.{scope_labels, without_empty};
ghost use Rattle.otel_prometheus.specs.Rising.{comma_texts};
ghost use Rattle.otel_prometheus.specs.Series.{Series};
ghost use Rattle.otel_prometheus.specs.Texts.{with_series};
ghost use Rattle.otel_prometheus.specs.declared.headings.Heading.{Heading};
ghost use Rattle.otel_prometheus.specs.declared.settings.Settings.{Settings};

use crate::headings::{Heading, longer};
use crate::rising::Spelling;
use crate::samples::{push_histogram_point, value_end};
use crate::series::Texts;
use crate::settings::Settings;
use crate::text::numbers::Number;
use crate::text::samples::push_line;
use otel_common::attributes::KeyValue;
use otel_common::scopes::InstrumentationScope;
use otel_data::aggregated::{AggregatedMetrics, MetricData};
use otel_data::points::{GaugeDataPoint, HistogramDataPoint, SumDataPoint};
use std::alloc::{AllocError, Global};

/// Adds the series of a point that has one value.
fn push_number<T: Number>(
    alloc: Global,
    settings: Settings,
    scope: &InstrumentationScope,
    name: &str,
    spelling: &mut Spelling,
    attributes: &[KeyValue],
    value: T,
    texts: &mut Texts,
) -> Result<(), AllocError>
    requires { spelling.old.scope_text.items ≡ comma_texts (without_empty (scope_labels settings scope.now)) }
    ensures series { OnOk result (texts.new ≡ with_series texts.old (number_series T.integer settings scope.now name.now attributes.now value)) }
    ensures of_scope { spelling.new.scope_text.items ≡ spelling.old.scope_text.items }
{
    let labels = texts.labels.len();
    let lines = texts.lines.len();
    spelling.push_labels(alloc, &mut texts.labels, settings, scope, attributes, false)?;
    push_line(&mut texts.lines, name, "", &texts.labels[labels..], value)?;
    texts.end_series(labels, lines)
}

/// A point that can be shown.
trait Point {
    /// The series of the point; of a histogram it has a sum only if the test says so.
    ghost series: { Settings → Bool → InstrumentationScope → Heading → Self → Series };

    /// Adds the series of the point. The name is that of a sample with a value.
    fn push_to(
        &self,
        alloc: Global,
        settings: Settings,
        scope: &InstrumentationScope,
        heading: &Heading,
        name: &str,
        spelling: &mut Spelling,
        has_sum: bool,
        texts: &mut Texts,
    ) -> Result<(), AllocError>
        requires named { name.now ≡ value_name heading.now }
        requires of_scope { spelling.old.scope_text.items ≡ comma_texts (without_empty (scope_labels settings scope.now)) }
        ensures series { OnOk result (texts.new ≡ with_series texts.old (series settings has_sum scope.now heading.now self.now)) }
        ensures of_scope { spelling.new.scope_text.items ≡ spelling.old.scope_text.items };
}

impl<T: Number> Point for GaugeDataPoint<T> {
    ghost series = { λ s has_sum scope h p. gauge_series T.integer s scope h p };

    fn push_to(
        &self,
        alloc: Global,
        settings: Settings,
        scope: &InstrumentationScope,
        _heading: &Heading,
        name: &str,
        spelling: &mut Spelling,
        _has_sum: bool,
        texts: &mut Texts,
    ) -> Result<(), AllocError> {
        let attributes = self.attributes().as_slice();
        push_number(
            alloc,
            settings,
            scope,
            name,
            spelling,
            attributes,
            self.value(),
            texts,
        )
    }
}

impl<T: Number> Point for SumDataPoint<T> {
    ghost series = { λ s has_sum scope h p. sum_series T.integer s scope h p };

    fn push_to(
        &self,
        alloc: Global,
        settings: Settings,
        scope: &InstrumentationScope,
        _heading: &Heading,
        name: &str,
        spelling: &mut Spelling,
        _has_sum: bool,
        texts: &mut Texts,
    ) -> Result<(), AllocError> {
        let attributes = self.attributes().as_slice();
        push_number(
            alloc,
            settings,
            scope,
            name,
            spelling,
            attributes,
            self.value(),
            texts,
        )
    }
}

impl<T: Number> Point for HistogramDataPoint<T> {
    ghost series = { λ s has_sum scope h p. histogram_series T.integer s has_sum scope h p };

    fn push_to(
        &self,
        alloc: Global,
        settings: Settings,
        scope: &InstrumentationScope,
        heading: &Heading,
        _name: &str,
        spelling: &mut Spelling,
        has_sum: bool,
        texts: &mut Texts,
    ) -> Result<(), AllocError> {
        let attributes = self.attributes().as_slice();
        let labels = texts.labels.len();
        let lines = texts.lines.len();
        spelling.push_labels(alloc, &mut texts.labels, settings, scope, attributes, true)?;
        push_histogram_point(
            settings.format,
            &mut texts.front,
            &mut texts.lines,
            heading.name.as_str(),
            &texts.labels[labels..],
            self,
            has_sum,
        )?;
        texts.end_series(labels, lines)
    }
}

/// Adds a series for each of these points.
fn add_each<P: Point>(
    alloc: Global,
    settings: Settings,
    scope: &InstrumentationScope,
    heading: &Heading,
    points: &[P],
    has_sum: bool,
    texts: &mut Texts,
) -> Result<(), AllocError>
    ensures { OnOk result (texts.new ≡ fold with_series texts.old (map (P.series settings has_sum scope.now heading.now) points.now)) }
{
    let name = longer(alloc, heading.name.as_str(), value_end(heading.kind))?;
    let mut spelling = Spelling::of_scope(alloc, settings, scope)?;
    texts.reserve(points.len())?;
    for point in points {
        point.push_to(
            alloc,
            settings,
            scope,
            heading,
            name.as_str(),
            &mut spelling,
            has_sum,
            texts,
        )?;
    }
    Ok(())
}

/// Adds a series for each point.
fn add_points<T: Number>(
    alloc: Global,
    settings: Settings,
    scope: &InstrumentationScope,
    heading: &Heading,
    points: &MetricData<T>,
    has_sum: bool,
    texts: &mut Texts,
) -> Result<(), AllocError>
    ensures { OnOk result (texts.new ≡ fold with_series texts.old (data_series T.integer settings has_sum scope.now heading.now points.now)) }
{
    match points {
        MetricData::Gauge(gauge) => {
            let points = gauge.data_points().as_slice();
            add_each(alloc, settings, scope, heading, points, has_sum, texts)
        }
        MetricData::Sum(sum) => {
            let points = sum.data_points().as_slice();
            add_each(alloc, settings, scope, heading, points, has_sum, texts)
        }
        MetricData::Histogram(histogram) => {
            let points = histogram.data_points().as_slice();
            let has_sum = has_sum && histogram.has_sum();
            add_each(alloc, settings, scope, heading, points, has_sum, texts)
        }
    }
}

/// Adds a series for each point of either number type. A sum of signed values may fall, so a histogram of them has none.
pub(crate) fn add_content(
    alloc: Global,
    settings: Settings,
    scope: &InstrumentationScope,
    heading: &Heading,
    content: &AggregatedMetrics,
    texts: &mut Texts,
) -> Result<(), AllocError>
    ensures { OnOk result (texts.new ≡ fold with_series texts.old (content_series settings scope.now heading.now content.now)) }
{
    match content {
        AggregatedMetrics::U64(points) => {
            add_points(alloc, settings, scope, heading, points, true, texts)
        }
        AggregatedMetrics::I64(points) => {
            add_points(alloc, settings, scope, heading, points, false, texts)
        }
    }
}
