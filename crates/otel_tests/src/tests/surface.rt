//! Every public path of `opentelemetry_sdk`, and the marks of its types. Nothing here runs: the module builds only if
//! each path is there and each type has the bounds of the tables in which it stands.

use std::error::Error;
use std::fmt::{Debug, Display};
use std::hash::Hash;
use std::marker::PhantomData;
use std::str::FromStr;

/// Types that are copied, compared and hashed as numbers are.
struct Plain<T: Clone + Copy + Debug + PartialEq + Eq + Hash + Send + Sync>(PhantomData<T>);

/// Small values that are copied as numbers are.
struct Small<T: Clone + Copy + Debug + Send + Sync>(PhantomData<T>);

/// The same of values that are compared.
struct Equal<T: Clone + Copy + Debug + PartialEq + Eq + Send + Sync>(PhantomData<T>);

/// Types that may be keys of a map.
struct Hashed<T: Clone + Debug + PartialEq + Eq + Hash + Send + Sync>(PhantomData<T>);

/// Types that are equal if all their parts are.
struct Compared<T: Clone + Debug + PartialEq + Send + Sync>(PhantomData<T>);

/// Types that can be copied, for which memory may be refused.
struct Copied<T: Clone + Debug + Send + Sync>(PhantomData<T>);

/// Types that are shown.
struct Shown<T: Debug + Send + Sync>(PhantomData<T>);

/// Types that are printed.
struct Printed<T: Display>(PhantomData<T>);

/// Reasons for a refusal.
struct Failure<T: Debug + Display + Error + Send + Sync>(PhantomData<T>);

/// Types that have an order.
struct Ordered<T: PartialOrd + Ord>(PhantomData<T>);

/// Types that have a value that stands for none.
struct Defaulted<T: Default>(PhantomData<T>);

/// Types of which a value can be read.
struct Read<T: FromStr>(PhantomData<T>);

/// Types that a loop goes over.
struct Walked<T: IntoIterator>(PhantomData<T>);

/// Types whose values go to another thread.
struct Sent<T: Send>(PhantomData<T>);

/// Types whose values threads share.
struct Threaded<T: Send + Sync>(PhantomData<T>);

/// Types that are made of another one.
struct Made<T: From<S>, S>(PhantomData<(T, S)>);

mod root {
    use super::{Compared, Failure, Made};
    use opentelemetry_sdk::common::Fault;
    use opentelemetry_sdk::error::SdkError;
    use opentelemetry_sdk::exporter::WriteFault;
    use opentelemetry_sdk::metrics::instrument::StreamFault;
    use opentelemetry_sdk::{AttributeValue, Resource};
    use std::alloc::AllocError;
    use std::marker::PhantomData;

    struct Value<T: AttributeValue>(PhantomData<T>);

    struct Types<'a> {
        resource: Compared<Resource>,
        text: Value<&'a str>,
        number: Value<i64>,
        flag: Value<bool>,
        error: Failure<SdkError>,
        of_a_call: Made<SdkError, Fault>,
        of_a_stream: Made<SdkError, StreamFault>,
        of_a_write: Made<SdkError, WriteFault>,
        of_memory: Made<SdkError, AllocError>,
    }
}

mod common {
    use super::{Compared, Failure, Hashed, Made, Ordered, Printed, Shown, Small};
    use opentelemetry_sdk::common::{
        Array, Fault, InstrumentationScope, InstrumentationScopeBuilder, InternalFault, Items, Key,
        KeyValue, OTelSdkResult, SharedItems, StringValue, Value, canonical, canonical_laws,
        copied_attributes, copied_scope, equal_attributes, equal_scopes, now_nanos, random_seed,
        resource_laws, temporality_laws,
    };
    use std::alloc::AllocError;

    struct Types {
        key: Hashed<Key>,
        keys_in_order: Ordered<Key>,
        printed_key: Printed<Key>,
        value: Hashed<Value>,
        printed_value: Printed<Value>,
        array: Hashed<Array>,
        printed_array: Printed<Array>,
        attribute: Hashed<KeyValue>,
        printed_attribute: Printed<KeyValue>,
        text: Hashed<StringValue>,
        texts_in_order: Ordered<StringValue>,
        printed_text: Printed<StringValue>,
        text_of_a_string: Made<StringValue, String>,
        items: Hashed<Items<Key>>,
        items_of_a_list: Made<Items<Key>, Vec<Key>>,
        shared_items: Hashed<SharedItems<KeyValue>>,
        scope: Hashed<InstrumentationScope>,
        scope_builder: Shown<InstrumentationScopeBuilder>,
        fault: Failure<Fault>,
        copied_fault: Small<Fault>,
        compared_fault: Compared<Fault>,
        fault_of_memory: Made<Fault, AllocError>,
        internal_fault: Failure<InternalFault>,
        copied_internal_fault: Small<InternalFault>,
        compared_internal_fault: Compared<InternalFault>,
        outcome: OTelSdkResult,
    }
}

mod resource {
    use super::{Compared, Copied, Shown, Walked};
    use opentelemetry_sdk::resource::{Iter, Resource, ResourceBuilder};

    struct Types<'a> {
        resource: Compared<Resource>,
        walked: Walked<&'a Resource>,
        iterator: Shown<Iter<'a>>,
        walked_iterator: Walked<Iter<'a>>,
        builder: Copied<ResourceBuilder>,
    }
}

mod metrics {
    use super::{Compared, Copied, Defaulted, Failure, Plain, Printed, Read, Sent, Shown};
    use opentelemetry_sdk::metrics::{
        Aggregation, Instrument, InstrumentKind, ManualReader, ManualReaderBuilder,
        MeterProviderBuilder, MetricError, SdkMeterProvider, Stream, StreamBuilder, Temporality,
        View,
    };
    use std::marker::PhantomData;

    struct Views<T: View>(PhantomData<T>);

    struct Types {
        temporality: Plain<Temporality>,
        first_temporality: Defaulted<Temporality>,
        temporality_of_a_word: Read<Temporality>,
        aggregation: Compared<Aggregation>,
        printed_aggregation: Printed<Aggregation>,
        error: Failure<MetricError>,
        kind: Plain<InstrumentKind>,
        instrument: Compared<Instrument>,
        stream: Copied<Stream>,
        stream_without_settings: Defaulted<Stream>,
        stream_builder: Copied<StreamBuilder>,
        stream_builder_without_settings: Defaulted<StreamBuilder>,
        reader: Shown<ManualReader>,
        cumulative_reader: Defaulted<ManualReader>,
        reader_builder: Shown<ManualReaderBuilder>,
        cumulative_reader_builder: Defaulted<ManualReaderBuilder>,
        views: Views<Box<dyn View>>,
        provider: Sent<SdkMeterProvider>,
        provider_builder: Sent<MeterProviderBuilder>,
    }
}

mod data {
    use super::{Compared, Copied, Equal, Made, Printed};
    use opentelemetry_sdk::metrics::data::{
        AggregatedMetrics, Exemplar, Gauge, GaugeDataPoint, Histogram, HistogramDataPoint, Metric,
        MetricData, NumberValue, ResourceMetrics, ScopeMetrics, Sum, SumDataPoint,
        copied_aggregated, copied_collection, copied_data, copied_lists, copied_metric,
        copied_points, copied_scope, copied_signed_lists, copied_signed_points, equal_points,
        equal_signed_points,
    };
    use std::fmt::Debug;

    /// The types with values of one type.
    struct Typed<T: Clone + Debug + PartialEq + Send + Sync> {
        data: Copied<MetricData<T>>,
        gauge: Copied<Gauge<T>>,
        of_a_gauge: Made<MetricData<T>, Gauge<T>>,
        gauge_point: Compared<GaugeDataPoint<T>>,
        sum: Copied<Sum<T>>,
        of_a_sum: Made<MetricData<T>, Sum<T>>,
        sum_point: Compared<SumDataPoint<T>>,
        histogram: Copied<Histogram<T>>,
        of_a_histogram: Made<MetricData<T>, Histogram<T>>,
        histogram_point: Compared<HistogramDataPoint<T>>,
        exemplar: Compared<Exemplar<T>>,
    }

    struct Types {
        collection: Copied<ResourceMetrics>,
        printed_collection: Printed<ResourceMetrics>,
        scope: Copied<ScopeMetrics>,
        printed_scope: Printed<ScopeMetrics>,
        metric: Copied<Metric>,
        printed_metric: Printed<Metric>,
        content: Copied<AggregatedMetrics>,
        of_unsigned: Made<AggregatedMetrics, MetricData<u64>>,
        of_signed: Made<AggregatedMetrics, MetricData<i64>>,
        number: Equal<NumberValue>,
        unsigned: Typed<u64>,
        signed: Typed<i64>,
    }
}

mod internal {
    use super::{Defaulted, Sent, Small, Threaded};
    use opentelemetry_sdk::metrics::internal::{
        Aggregator, Assign, Bounds, Buckets, BucketsConfig, Histogram, HistogramAggregate,
        HistogramSettings, Increment, LastValue, LastValueAggregate, Number, PrecomputedSum,
        SetHashBuilder, Sum, SumAggregate, TypedAggregate, TypedStream, ValueMap, counted_once,
        create_fold, reset_fold, update_fold,
    };
    use std::marker::PhantomData;

    struct Numbers<T: Number>(PhantomData<T>);

    struct Aggregators<A: Aggregator>(PhantomData<A>);

    struct Streams<T: Number + Drop, A: TypedAggregate<T>>(TypedStream<T, A>);

    /// The types with values of one type.
    struct Typed<T: Number + Drop> {
        number: Numbers<T>,
        increment: Aggregators<Increment<T>>,
        assign: Aggregators<Assign<T>>,
        buckets: Aggregators<Buckets<T>>,
        map: ValueMap<Increment<T>>,
        sum: Sum<T>,
        observed_sum: PrecomputedSum<T>,
        last_value: LastValue<T>,
        histogram: Histogram<T>,
    }

    struct Types {
        unsigned: Typed<u64>,
        signed: Typed<i64>,
        config: Small<BucketsConfig>,
        hasher: Threaded<SetHashBuilder>,
        fixed_hasher: Defaulted<SetHashBuilder>,
        bounds: Sent<Bounds>,
        settings: Sent<HistogramSettings>,
        counts: TypedStream<u64, SumAggregate>,
        lasts: TypedStream<i64, LastValueAggregate>,
        spreads: TypedStream<u64, HistogramAggregate>,
    }
}

mod instrument {
    use super::{Compared, Copied, Defaulted, Equal, Failure, Plain, Sent, Shown};
    use opentelemetry_sdk::metrics::instrument::{
        Instrument, InstrumentKind, InstrumentSelector, NameCriterion, SelectorView, Stream,
        StreamBuilder, StreamFault, StreamSpec, is_aggregator_compatible,
    };

    struct Types {
        kind: Plain<InstrumentKind>,
        instrument: Compared<Instrument>,
        stream: Copied<Stream>,
        builder: Copied<StreamBuilder>,
        fault: Failure<StreamFault>,
        copied_fault: Equal<StreamFault>,
        spec: Copied<StreamSpec>,
        spec_without_settings: Defaulted<StreamSpec>,
        selector: Shown<InstrumentSelector>,
        name: Shown<NameCriterion>,
        view: Sent<SelectorView>,
    }
}

mod view {
    use opentelemetry_sdk::metrics::instrument::SelectorView;
    use opentelemetry_sdk::metrics::view::View;
    use std::marker::PhantomData;

    struct Views<T: View>(PhantomData<T>);

    struct Types {
        boxed: Views<Box<dyn View>>,
        selecting: Views<SelectorView>,
    }
}

mod reader {
    use super::{Defaulted, Equal, Shown};
    use opentelemetry_sdk::metrics::reader::{
        CardinalityLimit, ManualReader, ManualReaderBuilder, MetricReader, boxed_reader, flush_all,
        plain_answers, shut_all,
    };
    use std::marker::PhantomData;

    struct Readers<T: MetricReader>(PhantomData<T>);

    struct Types {
        boxed: Readers<Box<dyn MetricReader>>,
        manual: Readers<ManualReader>,
        shown: Shown<ManualReader>,
        builder: Defaulted<ManualReaderBuilder>,
        limit: Equal<CardinalityLimit>,
    }
}

mod callback {
    use super::{Copied, Small};
    use opentelemetry_sdk::metrics::callback::{
        Callback, NoCallback, Observation, ObserveI64, ObserveU64, Observed, Registered,
        copied_observed,
    };
    use std::marker::PhantomData;

    struct Unsigned<T: ObserveU64>(PhantomData<T>);

    struct Signed<T: ObserveI64>(PhantomData<T>);

    struct Types {
        unsigned: Unsigned<Box<dyn ObserveU64>>,
        signed: Signed<Box<dyn ObserveI64>>,
        none: Small<NoCallback>,
        no_unsigned: Unsigned<NoCallback>,
        no_signed: Signed<NoCallback>,
        callback: Callback<NoCallback, NoCallback>,
        registered: Registered<NoCallback, NoCallback>,
        observation: Copied<Observation<u64>>,
        signed_observation: Copied<Observation<i64>>,
        observed: Copied<Observed>,
    }
}

mod meter {
    use super::{Sent, Shown, Small, Threaded};
    use opentelemetry_sdk::metrics::meter::{
        Adds, AsyncInstrumentBuilder, Asynchronous, Bound, Counter, CounterKind, Gauge, GaugeKind,
        Histogram, HistogramBuilder, HistogramKind, InstrumentBuilder, Kept, Meter, NumberType,
        ObservableCounter, ObservableCounterKind, ObservableGauge, ObservableGaugeKind,
        ObservableUpDownCounter, ObservableUpDownCounterKind, Records, Synchronous, UpDownCounter,
        UpDownCounterKind, copied_instruments, copied_meter, copied_observables, keeps_identity,
        validate_bucket_boundaries, validate_instrument_name, validate_instrument_unit,
    };
    use opentelemetry_sdk::metrics::provider::Boxed;
    use std::marker::PhantomData;

    struct Added<K: Adds>(PhantomData<K>);

    struct Recorded<K: Records>(PhantomData<K>);

    /// The types with values of one type.
    struct Typed<T: NumberType + Send + Sync> {
        counter: Small<Counter<T>>,
        up_down_counter: Small<UpDownCounter<T>>,
        gauge: Small<Gauge<T>>,
        histogram: Small<Histogram<T>>,
        observable_counter: Small<ObservableCounter<T>>,
        observable_up_down_counter: Small<ObservableUpDownCounter<T>>,
        observable_gauge: Small<ObservableGauge<T>>,
        handle: Threaded<Bound<T>>,
        kept: Small<Kept<T>>,
    }

    struct Types {
        meter: Small<Meter>,
        unsigned: Typed<u64>,
        signed: Typed<i64>,
        any: Small<Synchronous<CounterKind, u64>>,
        any_observable: Small<Asynchronous<ObservableCounterKind, u64>>,
        of_counters: Added<CounterKind>,
        of_up_down_counters: Added<UpDownCounterKind>,
        of_gauges: Recorded<GaugeKind>,
        of_histograms: Recorded<HistogramKind>,
        builder: Shown<InstrumentBuilder<GaugeKind, i64>>,
        histogram_builder: Shown<HistogramBuilder<u64>>,
        observable_builder: Sent<AsyncInstrumentBuilder<ObservableGaugeKind, i64, Boxed>>,
        unsent: PhantomData<ObservableUpDownCounterKind>,
    }
}

mod provider {
    use super::{Copied, Equal, Made, Plain, Sent};
    use opentelemetry_sdk::common::KeyValue;
    use opentelemetry_sdk::metrics::callback::NoCallback;
    use opentelemetry_sdk::metrics::provider::{
        Boxed, Call, InstrumentSort, MeterProviderBuilder, NumberValue, ObserveI64Part,
        ObserveU64Part, Observed, Parts, Plain as PlainParts, Provider, ProviderBuilder,
        ReaderPart, RecordAttributes, Reply, SdkMeterProvider, ViewPart, copied_call,
        copied_numbers, copied_observed, copied_reply,
    };
    use std::marker::PhantomData;

    struct OfParts<P: Parts>(PhantomData<P>);

    struct OfFour<P: ViewPart + ReaderPart + ObserveU64Part + ObserveI64Part>(PhantomData<P>);

    struct Types {
        call: Copied<Call>,
        attributes: Copied<RecordAttributes>,
        list: Made<RecordAttributes, Vec<KeyValue>>,
        reply: Copied<Reply>,
        observed: Copied<Observed>,
        sort: Plain<InstrumentSort>,
        number: Equal<NumberValue>,
        boxed: OfParts<Boxed>,
        four: OfFour<Boxed>,
        plain: OfParts<PlainParts<NoCallback, NoCallback>>,
        provider: Sent<SdkMeterProvider>,
        builder: Sent<MeterProviderBuilder>,
        plain_provider: Sent<Provider<PlainParts<NoCallback, NoCallback>>>,
        plain_builder: Sent<ProviderBuilder<PlainParts<NoCallback, NoCallback>>>,
    }
}

mod shared {
    use super::{Equal, Sent, Shown, Small, Threaded};
    use opentelemetry_sdk::metrics::provider::{Parts, Provider};
    use opentelemetry_sdk::metrics::shared::account::{check_book, check_workers};
    use opentelemetry_sdk::metrics::shared::{
        Account, Locked, MOST_SERIES, MOST_WORKERS, PendingRecord, Receipt, SharedMeterProvider,
        SharedProvider, Worker, WorkerSeries,
    };
    use std::marker::Brand;

    /// A provider can be handed over if its parts can, and shared under a lock. So can a worker.
    struct OfParts<P: Parts + Send, C: Account, S: Account> {
        provider: Sent<Provider<P>>,
        locked: Sent<Locked<P, C, S>>,
        shared: Threaded<SharedProvider<P, C, S>>,
        worker: Sent<Worker<C, S>>,
    }

    struct Types {
        boxed: Threaded<SharedMeterProvider<Brand, Brand>>,
        receipt: Equal<Receipt>,
        record: Shown<PendingRecord>,
        series: Small<WorkerSeries<u64>>,
    }
}

mod exporter {
    use super::{Equal, Failure, Made, Sent, Shown, Small};
    use opentelemetry_sdk::exporter::WriteFault;
    use opentelemetry_sdk::exporter::file::{append, replace};
    use opentelemetry_sdk::exporter::otlp::{request_line, says_collection};
    use opentelemetry_sdk::exporter::outbox::Outbox;
    use opentelemetry_sdk::exporter::prometheus::{
        Exposition, Format, LeftOut, Settings, buckets_rise, exposition_of, names_stand_apart,
        nothing_is_lost, points_are_distinct, says_lines, says_points, series_are_distinct,
    };
    use opentelemetry_sdk::exporter::schedule::Schedule;
    use std::alloc::AllocError;
    use std::io;

    struct Types {
        fault: Failure<WriteFault>,
        same_fault: Small<WriteFault>,
        of_a_writer: Made<WriteFault, io::Error>,
        of_memory: Made<WriteFault, AllocError>,
        outbox: Sent<Outbox>,
        schedule: Equal<Schedule>,
        text: Shown<Exposition>,
        left_out: Equal<LeftOut>,
        settings: Equal<Settings>,
        format: Equal<Format>,
    }

    use opentelemetry_sdk::exporter::otlp::write as write_line;
    use opentelemetry_sdk::exporter::prometheus::write as write_text;
}
