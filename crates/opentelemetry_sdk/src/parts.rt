//! What a provider is made of besides its own state: the types of its views, readers and callbacks.
//!
//! A provider is generic over a single bundle of these types, so that functions of other crates can take it, return it
//! and keep it. With `Boxed`, views, readers and callbacks are boxes, and may differ in type.

use otel_stream::callback::{ObserveI64, ObserveU64};
use otel_stream::reader::MetricReader;
use otel_stream::view::View;

/// The types of a provider's parts. A type that has each of the four parts below implements this trait.
pub trait Parts {
    /// The views of the provider.
    type View: View;

    /// The readers of the provider.
    type Reader: MetricReader;

    /// The callbacks of instruments with unsigned values.
    type ObserveU64: ObserveU64;

    /// The callbacks of instruments with signed values.
    type ObserveI64: ObserveI64;
}

/// The type of a provider's views.
pub trait ViewPart {
    /// The views of the provider.
    type View: View;
}

/// The type of a provider's readers.
pub trait ReaderPart {
    /// The readers of the provider.
    type Reader: MetricReader;
}

/// The type of a provider's callbacks of unsigned values.
pub trait ObserveU64Part {
    /// The callbacks of instruments with unsigned values.
    type ObserveU64: ObserveU64;
}

/// The type of a provider's callbacks of signed values.
pub trait ObserveI64Part {
    /// The callbacks of instruments with signed values.
    type ObserveI64: ObserveI64;
}

impl<B: ViewPart + ReaderPart + ObserveU64Part + ObserveI64Part> Parts for B {
    type View = <B as ViewPart>::View;

    type Reader = <B as ReaderPart>::Reader;

    type ObserveU64 = <B as ObserveU64Part>::ObserveU64;

    type ObserveI64 = <B as ObserveI64Part>::ObserveI64;
}

/// Parts in boxes, so that views, readers and callbacks may be of any type.
pub struct Boxed;

impl ViewPart for Boxed {
    type View = Box<dyn View>;
}

impl ReaderPart for Boxed {
    type Reader = Box<dyn MetricReader>;
}

impl ObserveU64Part for Boxed {
    type ObserveU64 = Box<dyn ObserveU64>;
}

impl ObserveI64Part for Boxed {
    type ObserveI64 = Box<dyn ObserveI64>;
}
