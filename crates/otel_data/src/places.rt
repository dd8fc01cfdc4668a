//! Points by their attributes.

ghost use Rattle.std.specs.Prelude.{◌≡◌, List};
ghost use Rattle.std.specs.Cmp.Lexicographic.{pointwise};
ghost use Rattle.std.specs.List.{find};
ghost use Rattle.std.specs.Option.{option_map};
ghost use Rattle.otel_common.specs.Equality.{key_value_eq};
ghost use Rattle.otel_common.specs.declared.attributes.KeyValue.{KeyValue};

use crate::points::{GaugeDataPoint, HistogramDataPoint, SumDataPoint};
use otel_common::attributes::KeyValue;

/// A point of any kind.
pub(crate) trait Point {
    /// The attributes, each key once, in byte order of the keys.
    ghost place: { Self → List KeyValue };

    /// Returns the attributes.
    fn place(&self) -> &[KeyValue]
        ensures { result.now ≡ place self.now };
}

impl<T> Point for GaugeDataPoint<T> {
    ghost place = { λ point. point.attributes };

    fn place(&self) -> &[KeyValue] {
        self.attributes().as_slice()
    }
}

impl<T> Point for SumDataPoint<T> {
    ghost place = { λ point. point.attributes };

    fn place(&self) -> &[KeyValue] {
        self.attributes().as_slice()
    }
}

impl<T> Point for HistogramDataPoint<T> {
    ghost place = { λ point. point.attributes };

    fn place(&self) -> &[KeyValue] {
        self.attributes().as_slice()
    }
}

/// Returns the first of these points with exactly these attributes, if there is one. Goes over the points up to it.
pub(crate) fn first_at<'a, P: Point>(points: &'a [P], attributes: &[KeyValue]) -> Option<&'a P>
    ensures { option_map (λ found. found.now) result ≡ find (λ point. pointwise key_value_eq (P.place point) attributes.now) points.now }
{
    for point in points {
        if point.place() == attributes {
            return Some(point);
        }
    }
    None
}
