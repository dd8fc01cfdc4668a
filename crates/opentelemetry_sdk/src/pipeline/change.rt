//! What is done to streams and can't be refused.

use otel_data::numbers::NumberValue;

/// A change of the streams that an instrument feeds. It takes no memory, and no stream refuses it.
#[derive(Clone, Copy, Debug)]
pub enum Change<'a> {
    /// The prepared record, of this value.
    Prepared(NumberValue),
    /// Records of these values, which have one number type, for the set that is prepared next, if its entry is there.
    Each(&'a [NumberValue]),
    /// A record without attributes, of this value.
    Empty(NumberValue),
    /// A record through the handle with this number, which is looked for at this place first, of this value.
    Held(u64, usize, NumberValue),
    /// The prepared bind, as the handle with this number.
    Bind(u64),
    /// The end of the handle with this number.
    Unbind(u64),
}
