//! What an instrument demands of a reader, through a view's answer or by itself (Metrics SDK, "View" and
//! "MetricReader").

ghost use Rattle.std.specs.Prelude.{◌≡◌, [], IfOk, IsOkUnless, true};
ghost use Rattle.otel_model.specs.Calls.{ascii_lowercase, or_else};
ghost use Rattle.otel_model.specs.Demands.{demand_of, are_good_bounds, is_valid, resolved_aggregation};

use crate::pipeline::about::About;
use crate::pipeline::defaults::reader_default;
use otel_common::faults::Fault;
use otel_common::laws::{copied_aggregation, copied_attributes, copied_scope};
use otel_common::metrics::Aggregation;
use otel_common::scopes::InstrumentationScope;
use otel_common::strings::StringValue;
use otel_stream::answers::Answers;
use otel_stream::demand::{Demand, Identity};
use otel_stream::instrument::InstrumentKind;
use otel_stream::stream::Stream;
use std::alloc::Global;

/// The cardinality limit if neither a view nor the reader gives one.
const DEFAULT_LIMIT: usize = 2000;

/// The text with its ASCII letters lowered.
fn lowered_text(alloc: Global, text: &StringValue) -> Result<StringValue, Fault>
    ensures lowered { IfOk result (λ t. t ≡ ascii_lowercase text.now) }
    ensures only_memory { IsOkUnless result Fault.OutOfMemory }
{
    let mut lowered = String::from_str(alloc, text.as_str())?;
    lowered.make_ascii_lowercase();
    Ok(lowered.into())
}

/// The first text, or else the second, or else an empty one.
pub(crate) fn text_or(
    alloc: Global,
    first: &Option<StringValue>,
    second: &Option<StringValue>,
) -> Result<StringValue, Fault>
    ensures text { IfOk result (λ t. t ≡ or_else first.now (or_else second.now [])) }
    ensures only_memory { IsOkUnless result Fault.OutOfMemory }
{
    match (first, second) {
        (Some(text), _) | (None, Some(text)) => Ok(text.clone()?),
        (None, None) => Ok(String::new(alloc).into()),
    }
}

/// The aggregation of a stream: what is set, or else what the reader wants for the kind. If nothing is set, a
/// histogram has its instrument's bounds.
fn aggregation_of(
    alloc: Global,
    answers: &Answers,
    about: &About<'_>,
    set: &Option<Aggregation>,
) -> Result<Aggregation, Fault>
    ensures aggregation { IfOk result (λ made. made ≡ resolved_aggregation answers.now about.now set.now) }
    ensures only_memory { IsOkUnless result Fault.OutOfMemory }
{
    copied_aggregation();
    match set {
        None => {}
        Some(Aggregation::Default) => return reader_default(alloc, answers, about.kind),
        Some(aggregation) => return Ok(aggregation.clone()?),
    }
    let aggregation = reader_default(alloc, answers, about.kind)?;
    match (aggregation, about.kind, about.bounds) {
        (
            Aggregation::ExplicitBucketHistogram { record_min_max, .. },
            InstrumentKind::Histogram,
            Some(own),
        ) => Ok(Aggregation::ExplicitBucketHistogram {
            boundaries: own.clone()?,
            record_min_max,
        }),
        (aggregation, _, _) => Ok(aggregation),
    }
}

/// What an instrument demands of a reader if a view answers with these settings: a stream with what the settings give,
/// and otherwise with the instrument's texts, all attributes, and the aggregation and limit that the reader wants for
/// its kind.
///
/// Copies texts, keys and bounds.
pub fn demand_of(
    alloc: Global,
    answers: &Answers,
    scope: &InstrumentationScope,
    about: &About<'_>,
    stream: &Stream,
) -> Result<Demand, Fault>
    ensures demand { IfOk result (λ d. d ≡ demand_of answers.now scope.now about.now stream.now) }
    ensures valid { are_good_bounds about.now.kind about.now.bounds ≡ true → IfOk result (λ d. is_valid d.aggregation ≡ true) }
    ensures only_memory { IsOkUnless result Fault.OutOfMemory }
{
    copied_attributes();
    copied_scope();
    stream.lawful();
    let settings = stream.spec();
    let spelling = settings.name.as_ref().unwrap_or(about.name);
    let limit = settings.limit.or(answers.limit(about.kind));
    Ok(Demand {
        identity: Identity {
            scope: scope.clone()?,
            kind: about.kind,
            signed: about.signed,
            description: text_or(alloc, &settings.description, about.description)?,
            unit: text_or(alloc, &settings.unit, about.unit)?,
            name: lowered_text(alloc, spelling)?,
        },
        spelling: spelling.clone()?,
        aggregation: aggregation_of(alloc, answers, about, &settings.aggregation)?,
        allow: settings.allow.clone()?,
        limit: limit.unwrap_or(DEFAULT_LIMIT),
    })
}
