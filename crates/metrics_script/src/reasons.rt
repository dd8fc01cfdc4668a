//! What can be wrong with a line of a script.

use thiserror::Error;

/// What is wrong with a line of a script, or with one of its words. Its text goes to standard error, behind the word.
#[derive(Clone, Copy, Debug, Error)]
pub enum Reason {
    /// The line is no text.
    #[error("the line is not UTF-8")]
    LineNotUtf8,
    /// No line of a script begins with this word.
    #[error("no command is called that")]
    UnknownCommand,
    /// The line that this word begins has fewer words than it has to have.
    #[error("a word is missing")]
    MissingWord,
    /// The line has more words than it may have; this is the first of them.
    #[error("one word too many")]
    SurplusWord,
    /// A call stands before `go`.
    #[error("a call may only come behind the line \"go\"")]
    CallBeforeGo,
    /// A reader, a view or another `go` stands behind `go`.
    #[error("that may not come behind the line \"go\"")]
    BehindGo,
    /// Another call stands between an observation and its collection.
    #[error("only \"observe\" and \"collect\" may come behind \"observe\"")]
    BehindObserve,
    /// The script has no `go`.
    #[error("the line \"go\" is missing")]
    NoGo,
    /// The script ends with observations.
    #[error("behind the last \"observe\" the line \"collect\" is missing")]
    NoCollect,
    /// The bytes that a text stands for are no text.
    #[error("the bytes that it stands for are not UTF-8")]
    TextNotUtf8,
    /// No number without a sign, or too large a one.
    #[error("not a whole number from 0 to 2^64 - 1, in digits")]
    NotUnsigned,
    /// No number with an optional minus, or one out of range.
    #[error("not a whole number from -2^63 to 2^63 - 1, in digits, perhaps behind \"-\"")]
    NotSigned,
    /// The value of a record or an observation doesn't say what kind of number it is.
    #[error("neither \"u:\" nor \"i:\" and a number")]
    NotValue,
    /// No sort of instrument has this name.
    #[error("no sort of instrument is called that")]
    UnknownSort,
    /// No temporality has this name.
    #[error("no temporality is called that")]
    UnknownTemporality,
    /// No aggregation has this name.
    #[error("no aggregation is called that")]
    UnknownAggregation,
    /// No option of this line has this name, or it has no `=`.
    #[error("no option of this line begins so")]
    UnknownOption,
    /// The same option stands before it in the line.
    #[error("this option was given before")]
    OptionTwice,
    /// 0, or 2^64 - 1.
    #[error("a limit is a number from 1 to 2^64 - 2")]
    NotLimit,
    /// Bounds of a view that don't rise.
    #[error("the bounds of a view have to rise")]
    FallingBounds,
    /// A unit of a view that is too long or has characters outside ASCII.
    #[error("the unit of a view has at most 63 bytes, all ASCII")]
    NotUnit,
    /// An attribute without `=`.
    #[error("not a key, \"=\" and a value")]
    NotAttribute,
    /// The value of an attribute doesn't say what kind of value it is.
    #[error("neither \"b:\" nor \"i:\" nor \"s:\" and a value")]
    NotAttributeValue,
    /// No truth value.
    #[error("neither \"true\" nor \"false\"")]
    NotTruth,
}
