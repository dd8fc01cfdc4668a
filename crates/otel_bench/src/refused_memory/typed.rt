//! Instruments as values.

use crate::refused_memory::callbacks::{Callbacks, Spare};
use crate::refused_memory::values::arrays;
use opentelemetry_sdk::common::{Fault, KeyValue};
use opentelemetry_sdk::metrics::data::ResourceMetrics;
use opentelemetry_sdk::metrics::meter::{
    AsyncInstrumentBuilder, Counter, Gauge, Histogram, InstrumentBuilder, NumberType, Synchronous,
    UpDownCounter,
};
use opentelemetry_sdk::metrics::provider::{Call, InstrumentSort, Parts, Provider};
use std::alloc::Global;

/// The name of the meter of all instruments.
const METER: &str = "app";

/// Instruments as values, which have the streams of the instruments that were made first.
#[derive(Drop)]
pub struct Instruments {
    pub limited: Counter<u64>,
    pub allowed: UpDownCounter<i64>,
    pub spread: Histogram<u64>,
    pub heat: Gauge<i64>,
}

/// Makes the instruments.
pub fn instruments_at<P: Parts>(
    alloc: Global,
    provider: &mut Provider<P>,
) -> Result<Instruments, Fault> {
    let meter = provider.meter(METER)?;
    let limited = meter.u64_counter(String::from_str(alloc, "limited")?);
    let limited = limited.build(provider, 180)?;
    let allowed = meter.i64_up_down_counter(String::from_str(alloc, "allowed")?);
    let allowed = allowed.build(provider, 180)?;
    let spread = meter.u64_histogram(String::from_str(alloc, "spread")?);
    let spread = spread.build(provider, 180)?;
    let heat = meter.i64_gauge(String::from_str(alloc, "heat")?);
    let heat = heat.build(provider, 180)?;
    Ok(Instruments {
        limited,
        allowed,
        spread,
        heat,
    })
}

/// Makes arrays, and records a value with them.
pub fn record_arrays<P: Parts>(
    alloc: Global,
    provider: &mut Provider<P>,
    instruments: &Instruments,
    value: i64,
) -> Result<(), Fault> {
    let attributes = arrays(alloc)?;
    instruments.heat.record(provider, value, &attributes)
}

/// Builds an observable instrument of unsigned values with a callback.
fn watch_unsigned<K, P: Parts>(
    provider: &mut Provider<P>,
    builder: AsyncInstrumentBuilder<K, u64, P>,
    callback: P::ObserveU64,
) -> Result<(), Fault> {
    builder.with_callback(callback)?.build(provider, 170)?;
    Ok(())
}

/// Builds an observable instrument of signed values with a callback.
fn watch_signed<K, P: Parts>(
    provider: &mut Provider<P>,
    builder: AsyncInstrumentBuilder<K, i64, P>,
    callback: P::ObserveI64,
) -> Result<(), Fault> {
    builder.with_callback(callback)?.build(provider, 170)?;
    Ok(())
}

/// Makes three observable instruments with a callback each.
pub fn watch<P: Parts>(
    alloc: Global,
    provider: &mut Provider<P>,
    callbacks: Callbacks<P::ObserveU64, P::ObserveI64>,
) -> Result<(), Fault> {
    let Callbacks {
        runs,
        balance,
        depth,
    } = callbacks;
    let meter = provider.meter(METER)?;
    let counter = meter.u64_observable_counter(String::from_str(alloc, "runs")?);
    watch_unsigned(provider, counter, runs)?;
    let counter = meter.i64_observable_up_down_counter(String::from_str(alloc, "balance")?);
    watch_signed(provider, counter, balance)?;
    let gauge = meter.u64_observable_gauge(String::from_str(alloc, "depth")?);
    watch_unsigned(provider, gauge, depth)
}

/// Builds an instrument with all that can be set.
fn build_full<K, T, P: Parts>(
    alloc: Global,
    provider: &mut Provider<P>,
    builder: InstrumentBuilder<K, T>,
) -> Result<(), Fault> {
    let builder = builder.with_description(String::from_str(alloc, "d")?);
    let builder = builder.with_unit(String::from_str(alloc, "ms")?);
    builder.build(provider, 180)?;
    Ok(())
}

/// Builds a synchronous instrument of this sort and name with all that can be set, or an observable one with a callback.
fn build<P: Parts>(
    alloc: Global,
    provider: &mut Provider<P>,
    sort: InstrumentSort,
    name: &str,
    spare: Spare<P::ObserveU64, P::ObserveI64>,
) -> Result<(), Fault> {
    let meter = provider.meter(METER)?;
    let name = String::from_str(alloc, name)?;
    match sort {
        InstrumentSort::U64Counter => build_full(alloc, provider, meter.u64_counter(name)),
        InstrumentSort::I64UpDownCounter => {
            build_full(alloc, provider, meter.i64_up_down_counter(name))
        }
        InstrumentSort::U64Gauge => build_full(alloc, provider, meter.u64_gauge(name)),
        InstrumentSort::I64Gauge => build_full(alloc, provider, meter.i64_gauge(name)),
        InstrumentSort::U64Histogram => {
            let boundaries = vec![in alloc; 1, 5]?;
            let builder = meter.u64_histogram(name).with_boundaries(boundaries);
            build_full(alloc, provider, builder)
        }
        InstrumentSort::U64ObservableCounter => {
            watch_unsigned(provider, meter.u64_observable_counter(name), spare.unsigned)
        }
        InstrumentSort::U64ObservableGauge => {
            watch_unsigned(provider, meter.u64_observable_gauge(name), spare.unsigned)
        }
        InstrumentSort::I64ObservableUpDownCounter => watch_signed(
            provider,
            meter.i64_observable_up_down_counter(name),
            spare.signed,
        ),
        InstrumentSort::I64ObservableGauge => {
            watch_signed(provider, meter.i64_observable_gauge(name), spare.signed)
        }
    }
}

/// Records a value at the instrument that has the streams of this one.
fn record<P: Parts>(
    provider: &mut Provider<P>,
    instruments: &Instruments,
    instrument: usize,
    attributes: &[KeyValue],
) -> Result<(), Fault> {
    match instrument {
        0 => instruments.limited.add(provider, 8, attributes),
        1 => instruments.allowed.add(provider, -8, attributes),
        2 => instruments.spread.record(provider, 8, attributes),
        4 => instruments.heat.record(provider, -8, attributes),
        _ => Err(Fault::UnknownInstrument),
    }
}

/// Binds a handle at an instrument, records a value through it, and ends it.
fn spend<K, T: NumberType, P: Parts>(
    provider: &mut Provider<P>,
    instrument: &Synchronous<K, T>,
    value: T,
    attributes: &[KeyValue],
) -> Result<(), Fault> {
    let handle = instrument.bind(provider, attributes)?;
    let recorded = handle.record(provider, value);
    recorded.and(handle.end(provider))
}

/// Makes a call by a method of the provider, of a builder, or of the instrument that has the streams of the one that the
/// call names. A collection goes into `metrics`.
pub fn make_typed<P: Parts>(
    alloc: Global,
    provider: &mut Provider<P>,
    instruments: &Instruments,
    call: &Call,
    metrics: &mut ResourceMetrics,
    spare: Spare<P::ObserveU64, P::ObserveI64>,
) -> Result<(), Fault> {
    match call {
        Call::Build { sort, name, .. } => build(alloc, provider, *sort, name.as_str(), spare),
        Call::Record {
            instrument,
            attributes,
            ..
        } => record(provider, instruments, *instrument, attributes.as_slice()),
        Call::Bind {
            instrument,
            attributes,
        } => match instrument {
            0 => spend(provider, &instruments.limited, 8, attributes.as_slice()),
            1 => spend(provider, &instruments.allowed, -8, attributes.as_slice()),
            2 => spend(provider, &instruments.spread, 8, attributes.as_slice()),
            _ => Err(Fault::UnknownInstrument),
        },
        Call::Collect { reader, now, .. } => provider.collect(*reader, *now, metrics),
        Call::Flush => provider.force_flush(),
        Call::Shutdown => provider.shutdown(),
        _ => Err(Fault::UnknownInstrument),
    }
}
