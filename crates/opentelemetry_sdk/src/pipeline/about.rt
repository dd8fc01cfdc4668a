//! Instruments, as their builds describe them.

use otel_common::lists::Items;
use otel_common::strings::StringValue;
use otel_stream::instrument::InstrumentKind;
use std::marker::Model;

/// What a build says about its instrument, apart from the meter.
#[derive(Drop)]
pub struct About<'a> {
    pub kind: InstrumentKind,
    /// Whether its values have type `i64`; otherwise they have type `u64`.
    pub signed: bool,
    pub name: &'a StringValue,
    pub description: &'a Option<StringValue>,
    pub unit: &'a Option<StringValue>,
    /// The bounds of the buckets that a histogram is to have, if any are given.
    pub bounds: &'a Option<Items<i64>>,
}

impl<'a> Model for About<'a> {
    ghost use Rattle.otel_model.specs.Calls as calls;

    ghost Value = { calls.About };

    ghost view = { λ a. record { kind = a.kind; signed = a.signed; name = a.name.now; description = a.description.now; unit = a.unit.now; bounds = a.bounds.now } };
}
