//! What the state of a provider checks before a call is carried out.

ghost use Rattle.std.specs.Prelude.{◌≡◌, ◌<◌, ◌-◌, ◌^◌, All, cond, map, slice_get, None, OnOk, IfErr, MatchResult};
ghost use Rattle.std.specs.Option.{option_map};
ghost use Rattle.otel_aggregate.specs.Any.{is_signed_value};
ghost use Rattle.otel_model.specs.Demands.{is_good};
ghost use Rattle.otel_model.specs.Refusals.{record_refusal, bind_refusal, held_refusal, observation_refusal, observations_refusal};
ghost use Rattle.opentelemetry_sdk.specs.Correspondence.{number_of, observed_of};
ghost use Rattle.opentelemetry_sdk.specs.States.{IsFault, IsNamed, IsScopeOf, IsNoMeter, IsTakenBy, IsTaken, IsBindable};

use crate::pipeline::about::About;
use crate::provider_core::instrument::Instrument;
use crate::provider_core::instrument_checks::{
    validate_bucket_boundaries, validate_instrument_name, validate_instrument_unit,
};
use indexmap::IndexSet;
use otel_common::faults::Fault;
use otel_common::scopes::InstrumentationScope;
use otel_data::numbers::NumberValue;
use otel_stream::instrument::InstrumentKind;
use otel_stream::observation::Observed;

/// Whether the name, the unit and the bounds of an instrument are good. Only the bounds of a histogram are checked.
fn is_good(about: &About<'_>) -> bool
    ensures { result ≡ is_good about.now }
{
    let unit = match about.unit {
        Some(unit) => Some(unit.as_str()),
        None => None,
    };
    validate_instrument_name(about.name.as_str()).is_ok()
        && validate_instrument_unit(unit).is_ok()
        && match (about.kind, about.bounds) {
            (InstrumentKind::Histogram, Some(bounds)) => {
                validate_bucket_boundaries(bounds.as_slice()).is_ok()
            }
            _ => true,
        }
}

/// Returns the scope of the meter that a build names, or none if it names no meter.
pub(crate) fn scope_of(
    meters: &IndexSet<InstrumentationScope>,
    meter: Option<usize>,
) -> Result<Option<&InstrumentationScope>, Fault>
    ensures { MatchResult result (λ scope. IsScopeOf meters.now.keys meter (option_map (λ s. s.now) scope)) (λ f. IsNoMeter meters.now.keys meter f) }
{
    match meter {
        None => Ok(None),
        Some(number) => match meters.get_index(number) {
            Some(scope) => Ok(Some(scope)),
            None => Err(Fault::UnknownMeter),
        },
    }
}

/// Returns the scope, or none if the name, the unit or the bounds of the instrument are bad.
pub(crate) fn good_scope<'a>(
    scope: Option<&'a InstrumentationScope>,
    about: &About<'_>,
) -> Option<&'a InstrumentationScope>
    ensures { option_map (λ s. s.now) result ≡ cond (is_good about.now) (option_map (λ s. s.now) scope.entry) None }
{
    if is_good(about) { scope } else { None }
}

/// Checks that there is an instrument of this number that takes in records, and that a value has its number type.
pub(crate) fn check_value(
    instruments: &[Instrument],
    instrument: usize,
    value: NumberValue,
) -> Result<(), Fault>
    ensures taken { OnOk result (IsTakenBy instruments.now instrument (number_of value)) }
    ensures fits { OnOk result (record_refusal (slice_get instruments.now instrument) (number_of value).signed ≡ None) }
    ensures fault { IfErr result (IsFault (record_refusal (slice_get instruments.now instrument) (number_of value).signed)) }
    ensures named { IfErr result IsNamed }
{
    let Some(found) = instruments.get(instrument) else {
        return Err(Fault::UnknownInstrument);
    };
    if found.sort.is_observable() {
        return Err(Fault::WrongKind);
    }
    if found.sort.is_signed() != matches!(value, NumberValue::I64(_)) {
        return Err(Fault::WrongNumber);
    }
    Ok(())
}

/// Checks that an observation is of an existing observable instrument and has its number type.
fn check_observation(instruments: &[Instrument], observed: &Observed) -> Result<(), Fault>
    ensures taken { OnOk result (IsTaken instruments.now observed.now) }
    ensures fits { OnOk result (observation_refusal (slice_get instruments.now observed.now.instrument) (is_signed_value observed.now.value) ≡ None) }
    ensures fault { IfErr result (IsFault (observation_refusal (slice_get instruments.now observed.now.instrument) (is_signed_value observed.now.value))) }
    ensures named { IfErr result IsNamed }
{
    let Some(found) = instruments.get(observed.instrument) else {
        return Err(Fault::UnknownInstrument);
    };
    if !found.sort.is_observable() {
        return Err(Fault::WrongKind);
    }
    if found.sort.is_signed() != matches!(observed.value, NumberValue::I64(_)) {
        return Err(Fault::WrongNumber);
    }
    Ok(())
}

/// Checks that a handle can be bound at the instrument of this number, and that a number is left after `next` handles.
pub(crate) fn check_bind(
    instruments: &[Instrument],
    instrument: usize,
    next: u64,
) -> Result<(), Fault>
    ensures bindable { OnOk result (IsBindable instruments.now instrument) }
    ensures fits { OnOk result (bind_refusal next (slice_get instruments.now instrument) ≡ None) }
    ensures more { OnOk result (next < 2 ^ 64 - 1) }
    ensures fault { IfErr result (IsFault (bind_refusal next (slice_get instruments.now instrument))) }
{
    let Some(found) = instruments.get(instrument) else {
        return Err(Fault::UnknownInstrument);
    };
    if found.sort.is_observable() {
        return Err(Fault::WrongKind);
    }
    if next == u64::MAX {
        return Err(Fault::Exhausted);
    }
    Ok(())
}

/// Checks that a value has the number type of a handle's instrument.
pub(crate) fn check_held(
    instruments: &[Instrument],
    instrument: usize,
    value: NumberValue,
) -> Result<(), Fault>
    ensures taken { OnOk result (IsTakenBy instruments.now instrument (number_of value)) }
    ensures fits { OnOk result (held_refusal (slice_get instruments.now instrument) (number_of value).signed ≡ None) }
    ensures fault { IfErr result (IsFault (held_refusal (slice_get instruments.now instrument) (number_of value).signed)) }
    ensures named { IfErr result IsNamed }
{
    let Some(found) = instruments.get(instrument) else {
        return Err(Fault::UnknownHandle);
    };
    if found.sort.is_signed() != matches!(value, NumberValue::I64(_)) {
        return Err(Fault::WrongNumber);
    }
    Ok(())
}

/// Checks that all observations are good, or returns the fault of the first bad one. Takes no memory.
pub(crate) fn check_observations(
    instruments: &[Instrument],
    observations: &[Observed],
) -> Result<(), Fault>
    ensures taken { OnOk result (All (IsTaken instruments.now) observations.now) }
    ensures fits { OnOk result (observations_refusal instruments.now (map observed_of observations.now) ≡ None) }
    ensures fault { IfErr result (IsFault (observations_refusal instruments.now (map observed_of observations.now))) }
    ensures named { IfErr result IsNamed }
{
    for observed in observations {
        check_observation(instruments, observed)?;
    }
    Ok(())
}
