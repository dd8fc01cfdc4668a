//! Calls of a provider and its replies, as values.

pub(crate) mod record_attributes;

use crate::calls::record_attributes::RecordAttributes;
use crate::values::sorts::InstrumentSort;
use otel_common::attributes::KeyValue;
use otel_common::faults::Fault;
use otel_common::lists::Items;
use otel_common::scopes::InstrumentationScope;
use otel_common::strings::StringValue;
use otel_data::collections::ResourceMetrics;
use otel_data::numbers::NumberValue;
use otel_stream::observation::Observed;

/// One call of a provider.
#[derive(Clone, Debug, Drop)]
pub enum Call {
    /// Asks for the meter of a scope. Equal scopes have one meter.
    Meter {
        scope: InstrumentationScope,
    },
    /// Builds an instrument of a meter at the moment `now`, in nanoseconds since 1970.
    ///
    /// The instrument ignores its records if there is no meter, or if `validate_instrument_name`,
    /// `validate_instrument_unit` or `validate_bucket_boundaries` refuses its name, unit or bounds. An absent
    /// description or unit is the empty text. `boundaries` are the bounds of a histogram's buckets, in its unit, and
    /// are checked only for a histogram; without them it has 0, 5, 10, 25, 50, 75, 100, 250, 500, 750, 1000, 2500,
    /// 5000, 7500 and 10000.
    ///
    /// Instruments of one meter that agree in sort, description, unit and (apart from the case of ASCII letters) name,
    /// and for which each view answers alike, share a stream at each reader. The first of them decides the bounds and
    /// the spelling of the name.
    Build {
        meter: Option<usize>,
        sort: InstrumentSort,
        name: StringValue,
        description: Option<StringValue>,
        unit: Option<StringValue>,
        boundaries: Option<Items<i64>>,
        now: u64,
    },
    /// Records a value with attributes, in any order, at an instrument, in the instrument's unit. Refused if the
    /// instrument is observable, and for a `U64` at an instrument of `i64` or the other way round.
    Record {
        instrument: usize,
        value: NumberValue,
        attributes: RecordAttributes,
    },
    /// Binds a handle at an instrument, with attributes in any order (Metrics API, "Synchronous Instrument API"), in
    /// all streams that the instrument feeds or in none. Its records always go where a record with these attributes
    /// would go at the time of the bind. Refused if the instrument is observable.
    Bind {
        instrument: usize,
        attributes: Items<KeyValue>,
    },
    /// Records a value through a handle, in the unit of its instrument. Refused for a value of the other number type.
    RecordBound {
        handle: u64,
        value: NumberValue,
    },
    /// Ends a handle.
    Unbind {
        handle: u64,
    },
    /// Collects what a reader's streams have: sums, last values and histograms. `now` is the moment of the collection,
    /// in nanoseconds since 1970.
    ///
    /// First, what was observed goes, in order, to those streams of this reader alone that the instruments feed. The
    /// first bad observation refuses the collection: one of an instrument that isn't there or isn't observable, or
    /// whose value has the other number type.
    Collect {
        reader: usize,
        now: u64,
        observations: Items<Observed>,
    },
    /// Asks each reader to flush, in order, including those after one that failed (Metrics SDK, "ForceFlush").
    Flush,
    /// Shuts the provider down and asks each reader to shut down, in order, including those after one that failed
    /// (Metrics SDK, "Shutdown"). From then on there are no new meters and no collections; existing meters and
    /// instruments still work.
    Shutdown,
}

/// The reply to a call.
#[derive(Clone, Debug, Drop)]
pub enum Reply {
    /// The number of the meter. Meters are numbered from 0, in the order in which they are first asked for. After a
    /// shutdown there is none; what is built without a meter ignores its records.
    Meter(Option<usize>),
    /// The number of the new instrument: how many were built before it.
    Instrument(usize),
    /// The number of the new handle: how many were bound before it.
    Handle(u64),
    /// The handle was ended; or the record was made, or ignored by an instrument that ignores its records; or each
    /// reader did what it was asked to do.
    Done,
    /// What was collected.
    Collected(ResourceMetrics),
    /// The call was refused. It changed nothing, except for a flush or a shutdown in which readers failed: then each of
    /// them was asked, and the shutdown has shut the provider down.
    Refused(Fault),
}
