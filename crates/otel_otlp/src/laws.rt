//! What holds of all requests.

ghost use Rattle.std.specs.Prelude.{◌≡◌, Some};
ghost use Rattle.otel_data.specs.declared.collections.ResourceMetrics.{ResourceMetrics};
ghost use Rattle.otel_otlp.specs.Reading.{collection_of};
ghost use Rattle.otel_otlp.specs.Requests.{request_of};
ghost use Rattle.otel_otlp.specs.Shown.{shown};

/// A request says its whole collection: every point with its attributes, its moments, its temporality, its value, its
/// counts and its bounds, all numbers as integers. The numbers of a clause have no range, and this holds of all.
///
/// This function does nothing: who needs the law calls it first.
pub fn says_collection()
    ensures { (c : ResourceMetrics) → collection_of (request_of c) ≡ Some (shown c) }
{}
