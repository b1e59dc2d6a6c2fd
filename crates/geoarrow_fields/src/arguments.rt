//! The words that the program is started with, and the status that it ends with.
ghost use Rattle.std.specs.Prelude.{◌≡◌, ◌⊎◌, ◌↔◌, None, Some, IfSome, map, string_bytes};
ghost use Rattle.geoarrow_fields.specs.declared.Command.{Command};
ghost use Rattle.geoarrow_fields.specs.Arguments.{word_of, Name};
ghost use Rattle.geoarrow_fields.specs.Answer.{RunsTo};

use crate::reading::run;
use crate::{Command, RunEnd};
use std::alloc::Global;
use std::io::{Read, Write};

/// The command that a word names, or `None`.
fn command_named(word: &str) -> Option<Command>
    ensures { (c : Command) → (result ≡ Some c) ↔ (word.now ≡ word_of c) }
{
    match word {
        "read" => Some(Command::Read),
        "infer" => Some(Command::Infer),
        "canon" => Some(Command::Canon),
        "columns" => Some(Command::Columns),
        _ => None,
    }
}

/// The command that the words name: there must be exactly one word.
pub fn command_of(words: &[String]) -> Option<Command>
    ensures { (c : Command) → (result ≡ Some c) ↔ Name (map string_bytes words.now) c }
{
    match words {
        [word] => command_named(word.as_str()),
        _ => None,
    }
}

/// Runs the command that the words name over a reader and a writer, and returns how it ended. Returns `None`, and reads and
/// writes nothing, if they name none.
pub fn serve<R: Read, W: Write>(
    alloc: Global,
    words: &[String],
    reader: &mut R,
    writer: &mut W,
) -> Option<RunEnd>
    ensures usage { result ≡ None → (c : Command) → ¬ Name (map string_bytes words.now) c }
    ensures untouched { result ≡ None → (reader.new ≡ reader.old) × (writer.new ≡ writer.old) }
    ensures ran { IfSome result (λ end. (c : Command) × Name (map string_bytes words.now) c
        × RunsTo c end (R.remaining reader.old) (R.remaining reader.new)
        (W.contents writer.old) (W.contents writer.new)) }
{
    match command_of(words) {
        None => None,
        Some(command) => Some(run(alloc, command, reader, writer)),
    }
}

/// The exit status of the program: 0 if all is done, 2 if the words name no command, 1 for any other end.
pub fn status_of(end: Option<RunEnd>) -> u8
    ensures done { (result ≡ 0) ↔ (end ≡ Some RunEnd.Done) }
    ensures usage { (result ≡ 2) ↔ (end ≡ None) }
    ensures fault { (result ≡ 0) ⊎ (result ≡ 2) ⊎ (result ≡ 1) }
{
    match end {
        None => 2,
        Some(RunEnd::Done) => 0,
        Some(RunEnd::InputFault | RunEnd::Memory | RunEnd::OutputFault) => 1,
    }
}
