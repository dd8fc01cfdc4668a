//! Instruments, as the provider keeps them.

ghost use Rattle.std.specs.Prelude.{◌≡◌, fold};
ghost use Rattle.otel_model.specs.Machine.{instrument_after_record};
ghost use Rattle.opentelemetry_sdk.specs.Correspondence.{number_of};

use crate::values::sorts::InstrumentSort;
use otel_aggregate::values::bits_of;
use otel_data::numbers::NumberValue;
use std::marker::Model;

/// An instrument, with the number and the sum of the records that it has accepted, both modulo 2^64.
#[derive(Drop)]
pub(crate) struct Instrument {
    pub(crate) sort: InstrumentSort,
    pub(crate) count: u64,
    pub(crate) sum: u64,
}

impl Model for Instrument {
    ghost use Rattle.otel_model.specs.State.{InstrumentState};
    ghost use Rattle.opentelemetry_sdk.specs.Correspondence.{kind_of, is_signed};

    ghost Value = { InstrumentState };

    ghost view = { λ i. record { kind = kind_of i.sort; signed = is_signed i.sort; count = i.count; sum = i.sum } };
}

impl Instrument {
    /// Counts a record.
    pub(crate) fn accept(&mut self, value: NumberValue)
        ensures { self.new ≡ instrument_after_record (number_of value).amount self.old }
    {
        self.count = self.count.wrapping_add(1);
        self.sum = self.sum.wrapping_add(bits_of(value));
    }

    /// Counts a record of each of these values.
    pub(crate) fn accept_each(&mut self, values: &[NumberValue])
        ensures { self.new ≡ fold (λ i v. instrument_after_record (number_of v).amount i) self.old values.now }
    {
        for value in values {
            self.accept(*value);
        }
    }
}
