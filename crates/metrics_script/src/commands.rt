//! What the program is asked to do by its arguments.

ghost use Rattle.std.specs.Prelude.{◌≡◌, ◌≢◌, ◌⊎◌, [], ◌∷◌, IfErr, IfNone, IfSome, map};
ghost use Rattle.std.specs.String.{string_bytes};
ghost use Rattle.metrics_script.specs.Commands.{command_words};

use crate::explain::explain;
use crate::exports::{Form, print_collections, print_last_collection};
use crate::failures::{Failure, USAGE};
use crate::script::{answers_to_input, run_script, say_failure};
use std::alloc::Global;
use std::env::Args;
use std::io;
use std::io::{ErrorKind, Read, Write};

/// What the program is asked to do.
#[derive(Clone, Copy, Debug)]
pub enum Command {
    /// To print the replies to a script.
    Replies,
    /// To print each collection that a script gives.
    Collections(Form),
    /// To print the last collection of reader 0 alone.
    LastCollection(Form),
    /// To say what is wrong with a script.
    Explain,
    /// To say how it is used.
    Help,
}

impl Command {
    /// What these arguments ask for, without the program's name: the name of a form, perhaps with `last` behind it,
    /// `explain`, `--help`, or nothing.
    pub fn of_words(words: &[String]) -> Option<Command>
        ensures named { IfSome result (λ command. map string_bytes words.now ≡ command_words command) }
        ensures unnamed { IfNone result ((command : Command) → map string_bytes words.now ≢ command_words command) }
    {
        let Some((word, others)) = words.split_first() else {
            return Some(Command::Replies);
        };
        let Some((last, more)) = others.split_first() else {
            return Command::of_word(word.as_str());
        };
        if !more.is_empty() {
            return None;
        }
        Command::of_two(word.as_str(), last.as_str())
    }

    /// What one argument asks for.
    fn of_word(word: &str) -> Option<Command>
        ensures named { IfSome result (λ command. word.now ∷ [] ≡ command_words command) }
        ensures unnamed { IfNone result ((command : Command) → word.now ∷ [] ≢ command_words command) }
    {
        match word {
            "explain" => Some(Command::Explain),
            "--help" => Some(Command::Help),
            _ => Some(Command::Collections(Form::of_word(word)?)),
        }
    }

    /// What two arguments ask for.
    fn of_two(word: &str, last: &str) -> Option<Command>
        ensures named { IfSome result (λ command. word.now ∷ last.now ∷ [] ≡ command_words command) }
        ensures unnamed { IfNone result ((command : Command) → word.now ∷ last.now ∷ [] ≢ command_words command) }
    {
        match last {
            "last" => Some(Command::LastCollection(Form::of_word(word)?)),
            _ => None,
        }
    }
}

/// Does what the arguments ask for, of which the first is the program's name. Without others it prints the replies to
/// the script that is read. Of each collection that leaves out points, it says on `errors` how many.
///
/// Returns the status: 0 if the script ran to its end, even if calls were refused, or is good where it is only explained;
/// 2 for a bad line, or arguments that ask for nothing; 3 for want of memory for something other than a call's reply; 4 for a read or a write that failed.
pub fn obey<R: Read + Drop, W: Write + Drop, E: Write + Drop>(
    alloc: Global,
    arguments: io::Result<Args>,
    input: R,
    output: W,
    mut errors: E,
) -> u8 {
    let ended = match command_of(alloc, arguments) {
        Ok(command) => run_command(alloc, command, input, output, &mut errors),
        Err(failure) => Err(failure),
    };
    match ended {
        Ok(status) => status,
        Err(failure) => say_failure(&failure, &mut errors),
    }
}

/// What the arguments ask for. One that is no text asks for nothing.
fn command_of(alloc: Global, arguments: io::Result<Args>) -> Result<Command, Failure>
    ensures refused { IfErr result (λ failure. (failure ≡ Failure.OutOfMemory) ⊎ (failure ≡ Failure.BadArguments)) }
{
    let arguments = match arguments {
        Ok(arguments) => arguments,
        Err(error) => {
            return match error.kind() {
                ErrorKind::OutOfMemory => Err(Failure::OutOfMemory),
                _ => Err(Failure::BadArguments),
            };
        }
    };
    let words: Vec<String> = arguments.skip(1).collect(alloc)?;
    Command::of_words(words.as_slice()).ok_or(Failure::BadArguments)
}

/// Does what the program is asked to do, but for the message of a failure, and returns the status.
fn run_command<R: Read + Drop, W: Write + Drop, E: Write>(
    alloc: Global,
    command: Command,
    input: R,
    mut output: W,
    errors: &mut E,
) -> Result<u8, Failure>
    ensures refused { IfErr result (λ failure. failure ≢ Failure.BadArguments) }
{
    match command {
        Command::Replies => run_script(alloc, input, output)?,
        Command::Collections(form) => {
            let answers = answers_to_input(alloc, input)?;
            let replies = answers.replies.as_slice();
            print_collections(alloc, form, replies, &mut output, errors)?;
        }
        Command::LastCollection(form) => {
            let answers = answers_to_input(alloc, input)?;
            print_last_collection(alloc, form, &answers, &mut output, errors)?;
        }
        Command::Explain => return explain(alloc, input, errors),
        Command::Help => {
            if writeln!(output, "{USAGE}").is_err() {
                return Err(Failure::InputOrOutput);
            }
        }
    }
    Ok(0)
}
