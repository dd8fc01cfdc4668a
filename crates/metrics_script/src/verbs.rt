//! The words with which the lines of a script begin.

ghost use Rattle.std.specs.Prelude.{◌≢◌};

use crate::reasons::Reason;
use crate::refusals::Refusal;

/// Where lines stand that begin with the same word, and how many words they have.
#[derive(Clone, Copy)]
struct Shape {
    /// Whether they stand behind `go`.
    is_call: bool,
    least: usize,
    most: usize,
}

impl Shape {
    /// Lines before `go`, and `go` itself.
    fn before_go(least: usize, most: usize) -> Shape {
        Shape {
            is_call: false,
            least,
            most,
        }
    }

    /// Lines behind `go`.
    fn call(least: usize, most: usize) -> Shape {
        Shape {
            is_call: true,
            least,
            most,
        }
    }

    /// The shape of the lines that begin with this word, if any line does.
    fn of_verb(verb: &str) -> Option<Shape> {
        match verb {
            "reader" | "view" => Some(Shape::before_go(2, usize::MAX)),
            "go" => Some(Shape::before_go(1, 1)),
            "flush" | "shutdown" => Some(Shape::call(1, 1)),
            "unbind" => Some(Shape::call(2, 2)),
            "meter" => Some(Shape::call(2, 3)),
            "bind" | "recordbound" | "collect" => Some(Shape::call(3, 3)),
            "record" | "observe" => Some(Shape::call(4, 4)),
            "build" => Some(Shape::call(5, usize::MAX)),
            _ => None,
        }
    }
}

/// The refusal of words that may not stand here. If the word that they begin with may, and there are as many as there have
/// to be, observations wait for their collection.
pub fn misfit<'a>(words: &[&'a str], is_started: bool) -> Refusal<'a>
    ensures bad { result ≢ Refusal.OutOfMemory }
{
    let Some(verb) = words.first() else {
        return Refusal::of_line(Reason::MissingWord);
    };
    let Some(shape) = Shape::of_verb(verb) else {
        return Refusal::of_word(verb, Reason::UnknownCommand);
    };
    if shape.is_call && !is_started {
        return Refusal::of_word(verb, Reason::CallBeforeGo);
    }
    if is_started && !shape.is_call {
        return Refusal::of_word(verb, Reason::BehindGo);
    }
    if words.len() < shape.least {
        return Refusal::of_word(verb, Reason::MissingWord);
    }
    match words.get(shape.most) {
        Some(word) => Refusal::of_word(word, Reason::SurplusWord),
        None => Refusal::of_word(verb, Reason::BehindObserve),
    }
}
