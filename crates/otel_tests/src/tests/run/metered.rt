//! A provider, as tests use it.

use opentelemetry_sdk::common::{Fault, InstrumentationScope, KeyValue, OTelSdkResult};
use opentelemetry_sdk::metrics::SdkMeterProvider;
use opentelemetry_sdk::metrics::data::ResourceMetrics;
use opentelemetry_sdk::metrics::meter::{
    Adds, Bound, InstrumentBuilder, Meter, NumberType, Records, Synchronous,
};
use opentelemetry_sdk::metrics::provider::{Call, Parts, Provider, Reply};
use std::alloc::Global;
use std::time::Duration;

/// A request to all readers of a provider, by a method or as a call.
pub enum Request {
    Flush,
    Shutdown,
    TimedShutdown,
    FlushCall,
    ShutdownCall,
}

/// Makes a call. Answers the fault with which it was refused, if it was.
fn step<P: Parts>(provider: &mut Provider<P>, call: &Call) -> OTelSdkResult {
    match provider.step(call) {
        Reply::Refused(fault) => Err(fault),
        _ => Ok(()),
    }
}

/// Makes a request.
pub fn answer<P: Parts>(provider: &mut Provider<P>, request: &Request) -> OTelSdkResult {
    match request {
        Request::Flush => provider.force_flush(),
        Request::Shutdown => provider.shutdown(),
        Request::TimedShutdown => provider.shutdown_with_timeout(Duration::from_secs(1)),
        Request::FlushCall => step(provider, &Call::Flush),
        Request::ShutdownCall => step(provider, &Call::Shutdown),
    }
}

/// What tests do with a provider. No proof about a function over this trait looks into a provider.
pub trait Metered {
    /// The meter of the scope that has only this name.
    fn meter_named(&mut self, name: &str) -> Result<Meter, Fault>;

    /// The meter of a scope.
    fn meter_of(&mut self, scope: InstrumentationScope) -> Result<Meter, Fault>;

    /// Makes the instrument of a builder.
    fn make<K, T>(
        &mut self,
        builder: InstrumentBuilder<K, T>,
        now: u64,
    ) -> Result<Synchronous<K, T>, Fault>;

    /// Makes an observable counter without callbacks, at 100.
    fn count_observed(&mut self, meter: Meter, name: String) -> Result<(), Fault>;

    /// Adds a value with attributes at a counter.
    fn add<K: Adds, T: NumberType>(
        &mut self,
        counter: Synchronous<K, T>,
        value: T,
        attributes: &[KeyValue],
    ) -> Result<(), Fault>;

    /// Records a value without attributes at an instrument.
    fn record<K: Records, T: NumberType>(
        &mut self,
        instrument: Synchronous<K, T>,
        value: T,
    ) -> Result<(), Fault>;

    /// Binds a handle without attributes at an instrument.
    fn bind<K, T: NumberType>(&mut self, instrument: Synchronous<K, T>) -> Result<Bound<T>, Fault>;

    /// Adds a value through a handle.
    fn add_through(&mut self, handle: &Bound<u64>, value: u64) -> Result<(), Fault>;

    /// Records a value through a handle.
    fn record_through<T: NumberType>(&mut self, handle: &Bound<T>, value: T) -> Result<(), Fault>;

    /// Ends a handle, or gives it back.
    fn unbind(&mut self, handle: Bound<u64>) -> Result<(), (Bound<u64>, Fault)>;

    /// Ends a handle, and lets it go.
    fn end<T: NumberType>(&mut self, handle: Bound<T>) -> Result<(), Fault>;

    /// Makes a call. Answers the fault with which it was refused, if it was.
    fn call(&mut self, call: &Call) -> OTelSdkResult;

    /// Makes calls.
    fn call_each(&mut self, alloc: Global, calls: &[Call]) -> Result<Vec<Reply>, Fault>;

    /// Makes a request.
    fn request(&mut self, request: &Request) -> OTelSdkResult;

    /// What a reader collects at a moment.
    fn collection(&mut self, reader: usize, now: u64) -> Result<ResourceMetrics, Fault>;
}

impl Metered for SdkMeterProvider {
    fn meter_named(&mut self, name: &str) -> Result<Meter, Fault> {
        self.meter(name)
    }

    fn meter_of(&mut self, scope: InstrumentationScope) -> Result<Meter, Fault> {
        self.meter_with_scope(scope)
    }

    fn make<K, T>(
        &mut self,
        builder: InstrumentBuilder<K, T>,
        now: u64,
    ) -> Result<Synchronous<K, T>, Fault> {
        builder.build(self, now)
    }

    fn count_observed(&mut self, meter: Meter, name: String) -> Result<(), Fault> {
        meter.u64_observable_counter(name).build(self, 100)?;
        Ok(())
    }

    fn add<K: Adds, T: NumberType>(
        &mut self,
        counter: Synchronous<K, T>,
        value: T,
        attributes: &[KeyValue],
    ) -> Result<(), Fault> {
        counter.add(self, value, attributes)
    }

    fn record<K: Records, T: NumberType>(
        &mut self,
        instrument: Synchronous<K, T>,
        value: T,
    ) -> Result<(), Fault> {
        instrument.record(self, value, &[])
    }

    fn bind<K, T: NumberType>(&mut self, instrument: Synchronous<K, T>) -> Result<Bound<T>, Fault> {
        instrument.bind(self, &[])
    }

    fn add_through(&mut self, handle: &Bound<u64>, value: u64) -> Result<(), Fault> {
        handle.add(self, value)
    }

    fn record_through<T: NumberType>(&mut self, handle: &Bound<T>, value: T) -> Result<(), Fault> {
        handle.record(self, value)
    }

    fn unbind(&mut self, handle: Bound<u64>) -> Result<(), (Bound<u64>, Fault)> {
        handle.unbind(self)
    }

    fn end<T: NumberType>(&mut self, handle: Bound<T>) -> Result<(), Fault> {
        handle.end(self)
    }

    fn call(&mut self, call: &Call) -> OTelSdkResult {
        step(self, call)
    }

    fn call_each(&mut self, alloc: Global, calls: &[Call]) -> Result<Vec<Reply>, Fault> {
        self.run(alloc, calls)
    }

    fn request(&mut self, request: &Request) -> OTelSdkResult {
        answer(self, request)
    }

    fn collection(&mut self, reader: usize, now: u64) -> Result<ResourceMetrics, Fault> {
        self.collected(reader, now)
    }
}
