//! What collections give of a stream.

ghost use Rattle.std.specs.Prelude.{◌≡◌, ◌&&◌, true, cond, map, Some, None, IfOk, IsOkUnless};
ghost use Rattle.std.specs.Option.{option_map};
ghost use Rattle.otel_common.specs.declared.metrics.Temporality.TheVariants as shown;
ghost use Rattle.otel_data.specs.declared.points.SumDataPoint.{SumDataPoint as SumValue};
ghost use Rattle.otel_data.specs.declared.points.GaugeDataPoint.{GaugeDataPoint as GaugeValue};
ghost use Rattle.otel_data.specs.declared.points.HistogramDataPoint.{HistogramDataPoint as HistogramValue};
ghost use Rattle.otel_model_stream.specs.Maps.{draining_points};
ghost use Rattle.otel_model_stream.specs.Data.{sum_point, gauge_point, histogram_point};
ghost use Rattle.otel_aggregate.specs.Any.{Sums as SumForm, Spreads as SpreadForm, form_of, metrics_now, observed_in};
ghost use Rattle.otel_aggregate.specs.Data.{sum_data, gauge_data, histogram_data};
ghost use Rattle.otel_aggregate.specs.Kept.{IsWithinIfSome, IsKept, any_data};
ghost use Rattle.otel_aggregate.specs.Observed.{since_reported, observed_data};

use crate::aggregate_stream::AggregateStream;
use crate::aggregators::number::Number;
use crate::any_aggregator::AnyAggregator;
use crate::settings::AnySettings;
use crate::value_map::ValueMap;
use crate::value_map::maker::PointMaker;
use otel_common::attributes::KeyValue;
use otel_common::faults::Fault;
use otel_common::lists::{Items, SharedItems};
use otel_common::metrics::Temporality;
use otel_data::aggregated::{AggregatedMetrics, MetricData};
use otel_data::gauges::Gauge;
use otel_data::histograms::Histogram as HistogramData;
use otel_data::points::{GaugeDataPoint, HistogramDataPoint, SumDataPoint};
use otel_data::sums::Sum as SumData;
use std::alloc::Global;
use std::marker::PhantomData;

/// The number with this value, if there is one.
fn from_wide_if_some<T: Number + Drop>(value: Option<i128>) -> Option<T>
    requires { IsWithinIfSome T.is_signed value }
    ensures { result ≡ option_map T.of_wide value }
{
    match value {
        None => None,
        Some(value) => Some(T::from_wide(value)),
    }
}

/// Makes the points of sums, each less its set's value in `reported` if that is given.
#[derive(Drop)]
struct SumPoints<'a, T: Number + Drop> {
    reported: Option<&'a ValueMap<AnyAggregator>>,
    of: PhantomData<T>,
}

impl<'a, T: Number + Drop> PointMaker<AnyAggregator> for SumPoints<'a, T> {
    type Point = SumDataPoint<T>;

    ghost Seen = { SumValue T };

    ghost seen = { λ made. made };

    ghost shown = { λ maker p. sum_point T.of_bits T.of_wide (since_reported (option_map (λ before. draining_points before.now.state) maker.reported) p) };

    ghost can_show = { λ _ _. Unit {0} };

    #[inline(always)]
    #[tactic(auto, using(crate::proofs::ObservedLemmas::value_before_found))]
    fn point(
        &self,
        alloc: Global,
        set: SharedItems<KeyValue>,
        kept: &AnyAggregator,
    ) -> Result<SumDataPoint<T>, Fault> {
        let bits = match self.reported {
            None => kept.bits(),
            Some(reported) => {
                let before = reported.get(set.as_slice()).map_or(0, |last| last.bits());
                kept.bits().subtract(before)
            }
        };
        Ok(SumDataPoint::new(set, Items::from(Vec::new(alloc)), T::from_bits(bits)))
    }
}

/// Makes the points of last values.
#[derive(Drop)]
struct GaugePoints<T: Number + Drop> {
    of: PhantomData<T>,
}

impl<T: Number + Drop> PointMaker<AnyAggregator> for GaugePoints<T> {
    type Point = GaugeDataPoint<T>;

    ghost Seen = { GaugeValue T };

    ghost seen = { λ made. made };

    ghost shown = { λ _ p. gauge_point T.of_bits T.of_wide p };

    ghost can_show = { λ _ _. Unit {0} };

    #[inline(always)]
    fn point(
        &self,
        alloc: Global,
        set: SharedItems<KeyValue>,
        kept: &AnyAggregator,
    ) -> Result<GaugeDataPoint<T>, Fault> {
        let value = T::from_bits(kept.bits());
        Ok(GaugeDataPoint::new(set, Items::from(Vec::new(alloc)), value))
    }
}

/// Makes the points of histograms with these bounds, which the points share. Copies the counts.
#[derive(Drop)]
struct HistogramPoints<T: Number + Drop> {
    bounds: SharedItems<i64>,
    of: PhantomData<T>,
}

impl<T: Number + Drop> PointMaker<AnyAggregator> for HistogramPoints<T> {
    type Point = HistogramDataPoint<T>;

    ghost Seen = { HistogramValue T };

    ghost seen = { λ made. made };

    ghost shown = { λ maker p. histogram_point T.of_bits T.of_wide maker.bounds p };

    ghost can_show = { λ _ p. IsKept T.is_signed SpreadForm p.1 };

    #[inline(always)]
    fn point(
        &self,
        alloc: Global,
        set: SharedItems<KeyValue>,
        kept: &AnyAggregator,
    ) -> Result<HistogramDataPoint<T>, Fault> {
        let spread = match kept {
            AnyAggregator::Histogram(spread) => spread,
            _ => unreachable!(),
        };
        let buckets = &spread.buckets;
        Ok(HistogramDataPoint::new(
            set,
            Items::from(Vec::new(alloc)),
            self.bounds.share()?,
            Items::from(buckets.counts.clone()?),
            buckets.count,
            from_wide_if_some(spread.least),
            from_wide_if_some(spread.greatest),
            T::from_bits(buckets.sum),
        ))
    }
}

/// The temporality of a stream's points, given whether it resets at each collection.
fn shown_temporality(resets: bool) -> Temporality
    ensures { result ≡ cond resets shown.Delta shown.Cumulative }
{
    if resets {
        Temporality::Delta
    } else {
        Temporality::Cumulative
    }
}

impl AggregateStream {
    /// What a collection at the moment `now`, in nanoseconds since 1970, gives of a sum or of observed sums.
    pub(crate) fn sum_data<T: Number + Drop>(
        &self,
        alloc: Global,
        now: u64,
    ) -> Result<SumData<T>, Fault>
        ensures sum { form_of self.now.state.aggregate ≡ SumForm → IfOk result (λ given. given ≡ sum_data T.of_bits T.of_wide now self.now.state) }
        ensures observed { self.now.drains ≡ true → IfOk result (λ given. given ≡ observed_data T.of_bits T.of_wide now (observed_in self.now)) }
        ensures only_memory { IsOkUnless result Fault.OutOfMemory }
    {
        let maker: SumPoints<T> = SumPoints {
            reported: self.compared_with(),
            of: PhantomData,
        };
        let every = self.reported.is_some() || !self.resets;
        let points = Items::from(self.map.shown(alloc, &maker, every)?);
        let temporality = shown_temporality(self.resets);
        let is_monotonic = self.settings.is_monotonic();
        Ok(SumData::new(points, self.start, now, temporality, is_monotonic))
    }

    /// What observed sums reported, if points show differences from it.
    fn compared_with(&self) -> Option<&ValueMap<AnyAggregator>>
        ensures { option_map (λ before. draining_points before.now.state) result ≡ cond (self.now.drains && self.now.state.resets) (Some self.now.reported) None }
    {
        match &self.reported {
            Some(reported) if self.resets => Some(reported),
            _ => None,
        }
    }

    /// What a collection at the moment `now`, in nanoseconds since 1970, gives of last values.
    pub(crate) fn gauge_data<T: Number + Drop>(
        &self,
        alloc: Global,
        now: u64,
    ) -> Result<Gauge<T>, Fault>
        ensures data { IfOk result (λ given. given ≡ gauge_data T.of_bits T.of_wide now self.now.state) }
        ensures only_memory { IsOkUnless result Fault.OutOfMemory }
    {
        let maker: GaugePoints<T> = GaugePoints { of: PhantomData };
        let points = Items::from(self.map.shown(alloc, &maker, !self.resets)?);
        Ok(Gauge::new(points, self.start, now))
    }

    /// What a collection at the moment `now`, in nanoseconds since 1970, gives of a histogram.
    pub(crate) fn histogram_data<T: Number + Drop>(
        &self,
        alloc: Global,
        now: u64,
    ) -> Result<HistogramData<T>, Fault>
        requires number { self.now.is_signed ≡ T.is_signed }
        requires kind { form_of self.now.state.aggregate ≡ SpreadForm }
        ensures data { IfOk result (λ given. given ≡ histogram_data T.of_bits T.of_wide now self.now.state) }
        ensures only_memory { IsOkUnless result Fault.OutOfMemory }
    {
        let settings = match &self.settings {
            AnySettings::Histogram(settings) => settings,
            _ => unreachable!(),
        };
        let maker: HistogramPoints<T> = HistogramPoints {
            bounds: settings.bounds.share()?,
            of: PhantomData,
        };
        let points = Items::from(self.map.shown(alloc, &maker, !self.resets)?);
        let temporality = shown_temporality(self.resets);
        let has_sum = settings.has_sum;
        Ok(HistogramData::new(points, self.start, now, temporality, has_sum))
    }

    /// What `points` gives, in this number type, which is the stream's.
    fn data<T: Number + Drop>(&self, alloc: Global, now: u64) -> Result<MetricData<T>, Fault>
        requires { self.now.is_signed ≡ T.is_signed }
        ensures data { IfOk result (λ given. given ≡ any_data T.of_bits T.of_wide now self.now) }
        ensures only_memory { IsOkUnless result Fault.OutOfMemory }
    {
        if self.reported.is_some() {
            return Ok(MetricData::Sum(self.sum_data(alloc, now)?));
        }
        match &self.settings {
            AnySettings::Sum { is_monotonic: _ } => {
                Ok(MetricData::Sum(self.sum_data(alloc, now)?))
            }
            AnySettings::Histogram(_) => {
                Ok(MetricData::Histogram(self.histogram_data(alloc, now)?))
            }
            _ => Ok(MetricData::Gauge(self.gauge_data(alloc, now)?)),
        }
    }

    /// What a collection at the moment `now`, in nanoseconds since 1970, gives: the start, the points and `now`. The
    /// stream stays unchanged. Shares the sets that it shows, and copies none.
    pub fn points(&self, alloc: Global, now: u64) -> Result<AggregatedMetrics, Fault>
        ensures points { IfOk result (λ given. given ≡ metrics_now now self.now) }
        ensures only_memory { IsOkUnless result Fault.OutOfMemory }
    {
        if self.is_signed {
            Ok(AggregatedMetrics::I64(self.data(alloc, now)?))
        } else {
            Ok(AggregatedMetrics::U64(self.data(alloc, now)?))
        }
    }
}
