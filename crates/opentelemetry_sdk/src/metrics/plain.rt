//! Parts of a provider without boxes.

use crate::parts::Parts;
use otel_stream::callback::{ObserveI64, ObserveU64};
use otel_stream::manual_reader::ManualReader;
use otel_stream::selector::SelectorView;
use std::marker::PhantomData;

/// Views that go by a selector, readers that are a `ManualReader`, and callbacks of one type for each number type
/// (`NoCallback` for none). A `Provider` of these parts has no boxes, so that threads can share it.
pub struct Plain<U, I> {
    callbacks: PhantomData<(U, I)>,
}

impl<U: ObserveU64, I: ObserveI64> Parts for Plain<U, I> {
    type View = SelectorView;

    type Reader = ManualReader;

    type ObserveU64 = U;

    type ObserveI64 = I;
}
