//! Records that wait to be made.

ghost use Rattle.std.specs.Prelude.{◌≡◌, List};
ghost use Rattle.opentelemetry_sdk.specs.Pending.{bits_in};
ghost use Rattle.opentelemetry_sdk.specs.Waiting.{lent_record, record_in};
ghost use Rattle.opentelemetry_sdk.specs.declared.metrics.shared.series.Series.{Series};

use crate::calls::record_attributes::RecordAttributes;
use otel_aggregate::value_map::hashed_key::{GivenAttributes, OwnedSet};
use otel_aggregate::values::bits_of;
use otel_data::numbers::NumberValue;

/// A record that a worker keeps until it is made.
#[derive(Debug, Drop)]
pub enum PendingRecord {
    /// A value, with attributes, for the instrument of this number.
    Plain {
        instrument: usize,
        value: NumberValue,
        attributes: RecordAttributes,
    },
    /// A value for the handle of this number.
    Bound {
        handle: u64,
        value: NumberValue,
    },
}

/// A record that waits, with attributes that its worker lends.
#[derive(Drop)]
pub(crate) enum LentRecord<'a> {
    /// A value, with attributes, for the instrument of this number.
    Plain {
        instrument: usize,
        value: NumberValue,
        attributes: GivenAttributes<'a>,
    },
    /// A value for the handle of this number.
    Bound {
        handle: u64,
        value: NumberValue,
    },
}

impl<'a> LentRecord<'a> {
    /// The 64 bits of the value.
    pub(crate) fn bits(&self) -> u64
        ensures { result ≡ bits_in (lent_record self.now) }
    {
        match self {
            LentRecord::Plain { value, .. } | LentRecord::Bound { value, .. } => bits_of(*value),
        }
    }
}

/// A record that waits, as a worker keeps it.
#[derive(Clone, Copy)]
pub(crate) enum WaitingRecord {
    /// A value of the series at this place.
    Plain { place: usize, value: NumberValue },
    /// A value for the handle of this number.
    Bound { handle: u64, value: NumberValue },
}

impl WaitingRecord {
    /// The place of its series, unless it is through a handle.
    pub(crate) fn place(self) -> Option<usize> {
        match self {
            WaitingRecord::Plain { place, .. } => Some(place),
            WaitingRecord::Bound { .. } => None,
        }
    }

    /// The 64 bits of the value.
    pub(crate) fn bits(self) -> u64
        ensures { (ss : List Series) → result ≡ bits_in (record_in ss self) }
    {
        match self {
            WaitingRecord::Plain { value, .. } | WaitingRecord::Bound { value, .. } => bits_of(
                value,
            ),
        }
    }
}
