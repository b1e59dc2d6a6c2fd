//! The program: what it reads, what it writes to each output, and how it ends.
ghost use Rattle.std.specs.Prelude.{◌≡◌, map, string_bytes};
ghost use Rattle.geoarrow_fields.specs.Program.{exit_status, SaysUsage, EndsSo, IsOutcome};

use crate::RunEnd;
use crate::arguments::serve;
use crate::output::write_whole;
use std::alloc::Global;
use std::io::{Read, Write};

/// What is written if the words are not exactly one that names a command.
const USAGE: &[u8] = b"usage: geoarrow_fields read|infer|canon|columns\n";

/// How the program ended.
#[derive(Debug, Clone, Copy)]
pub enum ProgramEnd {
    /// The words name a command, whose run ended so.
    Ran(RunEnd),
    /// The words name no command, and the usage is written.
    Usage,
    /// The words name no command, and the usage cannot be written.
    NoUsage,
}

/// What the program has done.
#[derive(Debug, Drop)]
pub struct Outcome {
    /// What it wrote to standard output.
    pub output: Vec<u8>,
    /// What it wrote to standard error.
    pub errors: Vec<u8>,
    /// How it ended.
    pub end: ProgramEnd,
    /// Its exit status.
    pub status: u8,
}

/// The exit status of the program: 0 if all is done, 2 if the words name no command, 1 for any
/// other end.
pub fn exit_status(end: ProgramEnd) -> u8
    ensures { result ≡ exit_status end }
{
    match end {
        ProgramEnd::Ran(RunEnd::Done) => 0,
        ProgramEnd::Ran(RunEnd::InputFault | RunEnd::Memory | RunEnd::OutputFault) => 1,
        ProgramEnd::Usage | ProgramEnd::NoUsage => 2,
    }
}

/// Writes the usage.
fn say_usage<E: Write>(errors: &mut E) -> ProgramEnd
    ensures { SaysUsage result (E.contents errors.old) (E.contents errors.new) }
{
    if write_whole(errors, USAGE).is_err() || errors.flush().is_err() {
        return ProgramEnd::NoUsage;
    }
    ProgramEnd::Usage
}

/// Does what the program does with these words: runs the command that they name, or writes the
/// usage to `errors` if they name none. Returns how it ended. Nothing that is to be written is
/// held at the return.
pub fn answer_all<R: Read, W: Write, E: Write>(
    alloc: Global,
    words: &[String],
    reader: &mut R,
    writer: &mut W,
    errors: &mut E,
) -> ProgramEnd
    ensures { EndsSo (map string_bytes words.now) result
        (R.remaining reader.old) (R.remaining reader.new)
        (W.contents writer.old) (W.contents writer.new)
        (E.contents errors.old) (E.contents errors.new) }
{
    match serve(alloc, words, reader, writer) {
        Some(end) => ProgramEnd::Ran(end),
        None => say_usage(errors),
    }
}

/// Does what the program does with these words and this input, in memory. Its `main` is
/// [`answer_all`] over standard input and output.
///
/// ```rust
/// let words = vec![in alloc; String::from_str(alloc, "read")?]?;
/// let outcome = geoarrow_fields::answer_bytes(alloc, words.as_slice(), b"[]\n");
/// assert!(rt; outcome.status == 0 && outcome.errors.is_empty());
/// assert!(rt; outcome.output.as_slice() == b"error field\n".as_slice());
/// ```
pub fn answer_bytes(alloc: Global, words: &[String], input: &[u8]) -> Outcome
    ensures { IsOutcome (map string_bytes words.now) input.now result }
{
    let mut reader = input;
    let mut output = Vec::new(alloc);
    let mut errors = Vec::new(alloc);
    let end = answer_all(alloc, words, &mut reader, &mut output, &mut errors);
    let status = exit_status(end);
    Outcome {
        output,
        errors,
        end,
        status,
    }
}
