//! What the counted calls are made at: a provider, and a provider that threads share, with its workers. Each
//! record is inlined, so that the counted calls have no layer more.

use crate::counted::counted_rounds;
use opentelemetry_sdk::common::{Fault, KeyValue};
use opentelemetry_sdk::metrics::callback::NoCallback;
use opentelemetry_sdk::metrics::data::ResourceMetrics;
use opentelemetry_sdk::metrics::meter::{Bound, Counter, Gauge, Histogram, Records, Synchronous};
use opentelemetry_sdk::metrics::provider;
use opentelemetry_sdk::metrics::provider::{Call, Provider};
use opentelemetry_sdk::metrics::shared::{Account, Locked, Worker, WorkerSeries};
use std::alloc::Global;

/// Parts without boxes and callbacks.
pub type Plain = provider::Plain<NoCallback, NoCallback>;

/// A provider that calls are made at.
pub trait Subject: Drop {
    /// Makes this many counted calls, each after the calls between. Returns how many of the counted ones were carried out.
    fn make(&mut self, between: &[Call], calls: &[Call], times: u64) -> u64;

    /// The counter `instrument` of the meter `meter`.
    fn counter(&mut self, alloc: Global) -> Result<Counter<u64>, Fault>;

    /// The histogram `instrument` of the meter `meter`.
    fn histogram(&mut self, alloc: Global) -> Result<Histogram<u64>, Fault>;

    /// The gauge `instrument` of the meter `meter`.
    fn gauge(&mut self, alloc: Global) -> Result<Gauge<u64>, Fault>;

    /// A handle of a counter with these attributes.
    fn handle(
        &mut self,
        counter: &Counter<u64>,
        attributes: &[KeyValue],
    ) -> Result<Bound<u64>, Fault>;

    /// Adds 1 with these attributes. Returns whether that succeeded.
    fn add_one(&mut self, counter: &Counter<u64>, attributes: &[KeyValue]) -> bool;

    /// Records 1 with these attributes. Returns whether that succeeded.
    fn record_one<K: Records>(
        &mut self,
        instrument: &Synchronous<K, u64>,
        attributes: &[KeyValue],
    ) -> bool;

    /// Adds 1 through a handle. Returns whether that succeeded.
    fn add_one_through(&mut self, handle: &Bound<u64>) -> bool;

    /// What the first reader collects.
    fn collection(&mut self) -> Result<ResourceMetrics, Fault>;
}

impl Subject for Provider<Plain> {
    fn make(&mut self, between: &[Call], calls: &[Call], times: u64) -> u64 {
        counted_rounds(self, between, calls, times)
    }

    fn counter(&mut self, alloc: Global) -> Result<Counter<u64>, Fault> {
        let meter = self.meter("meter")?;
        let name = String::from_str(alloc, "instrument")?;
        meter.u64_counter(name).build(self, 100)
    }

    fn histogram(&mut self, alloc: Global) -> Result<Histogram<u64>, Fault> {
        let meter = self.meter("meter")?;
        let name = String::from_str(alloc, "instrument")?;
        meter.u64_histogram(name).build(self, 100)
    }

    fn gauge(&mut self, alloc: Global) -> Result<Gauge<u64>, Fault> {
        let meter = self.meter("meter")?;
        let name = String::from_str(alloc, "instrument")?;
        meter.u64_gauge(name).build(self, 100)
    }

    fn handle(
        &mut self,
        counter: &Counter<u64>,
        attributes: &[KeyValue],
    ) -> Result<Bound<u64>, Fault> {
        counter.bind(self, attributes)
    }

    #[inline(always)]
    fn add_one(&mut self, counter: &Counter<u64>, attributes: &[KeyValue]) -> bool {
        counter.add(self, 1, attributes).is_ok()
    }

    #[inline(always)]
    fn record_one<K: Records>(
        &mut self,
        instrument: &Synchronous<K, u64>,
        attributes: &[KeyValue],
    ) -> bool {
        instrument.record(self, 1, attributes).is_ok()
    }

    #[inline(always)]
    fn add_one_through(&mut self, handle: &Bound<u64>) -> bool {
        handle.add(self, 1).is_ok()
    }

    fn collection(&mut self) -> Result<ResourceMetrics, Fault> {
        self.collected(0, 200)
    }
}

/// A worker, which keeps records until it hands them in.
pub trait Recorder: Drop {
    /// Names the series of a counter and these attributes.
    fn name(
        &mut self,
        counter: &Counter<u64>,
        attributes: &[KeyValue],
    ) -> Result<WorkerSeries<u64>, Fault>;

    /// Adds a record of 1 at a counter with these attributes to the list.
    fn add_one(&mut self, counter: &Counter<u64>, attributes: &[KeyValue]);

    /// Adds a record of 1 at a histogram or a gauge with these attributes to the list.
    fn record_one<K: Records>(&mut self, instrument: &Synchronous<K, u64>, attributes: &[KeyValue]);

    /// Adds a record of 1 of a series to the list.
    fn add_one_at(&mut self, series: WorkerSeries<u64>);

    /// Adds a record of 1 through a handle to the list.
    fn add_one_through(&mut self, handle: &Bound<u64>);

    /// Puts the records of the list together by series.
    fn group_list(&mut self);

    /// How many records were accepted.
    fn accepted(&self) -> u64;
}

impl<C: Account, S: Account> Recorder for Worker<C, S> {
    fn name(
        &mut self,
        counter: &Counter<u64>,
        attributes: &[KeyValue],
    ) -> Result<WorkerSeries<u64>, Fault> {
        self.series(counter, attributes)
    }

    #[inline(always)]
    fn add_one(&mut self, counter: &Counter<u64>, attributes: &[KeyValue]) {
        let _ = self.add_to(counter, 1, attributes);
    }

    #[inline(always)]
    fn record_one<K: Records>(
        &mut self,
        instrument: &Synchronous<K, u64>,
        attributes: &[KeyValue],
    ) {
        let _ = self.record_at(instrument, 1, attributes);
    }

    #[inline(always)]
    fn add_one_at(&mut self, series: WorkerSeries<u64>) {
        let _ = self.add_at(series, 1);
    }

    #[inline(always)]
    fn add_one_through(&mut self, handle: &Bound<u64>) {
        let _ = self.add_through(handle, 1);
    }

    #[inline(always)]
    fn group_list(&mut self) {
        self.group();
    }

    fn accepted(&self) -> u64 {
        self.submitted()
    }
}

/// A provider that workers hand in records at.
pub trait Shared<W>: Drop {
    /// Opens a worker.
    fn open(&mut self) -> Result<W, Fault>;

    /// Hands in what is in a worker's list. Returns whether that succeeded.
    fn hand_in(&mut self, worker: &mut W) -> bool;
}

impl<C: Account, S: Account> Shared<Worker<C, S>> for Locked<Plain, C, S> {
    fn open(&mut self) -> Result<Worker<C, S>, Fault> {
        self.open_worker()
    }

    #[inline(always)]
    fn hand_in(&mut self, worker: &mut Worker<C, S>) -> bool {
        self.submit(worker).is_ok()
    }
}
