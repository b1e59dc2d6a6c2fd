//! The loop that reads an input, answers its lines and ends.
ghost use Rattle.std.specs.Prelude.{◌≡◌, ◌<◌, ◌≤◌, [], IfOk, OnOk, IfErr, OnSome, string_bytes};
ghost use Rattle.std.specs.Io.KnownBytes.{IsAtEnd};
ghost use Rattle.line_reader.specs.Lines.{held, passed, HasLine, IsUnfinished};
ghost use Rattle.line_reader.specs.Sources.{ReadsOn};
ghost use Rattle.geoarrow_fields.specs.Lines.{max_lines};
ghost use Rattle.geoarrow_fields.specs.Answer.{RunsTo};
ghost use Rattle.geoarrow_fields.specs.Progress.{IsCause, IsMeant, IsStopped};

use crate::lines::MAX_LINES;
use crate::output::{Fault, finish, write_answer};
use crate::{Command, RunEnd};
use json::Scratch;
use line_reader::{LineBuffer, LineError};
use std::alloc::Global;
use std::io::{Read, Write};

/// Why a run ends where the next line is not held. A line behind the last that is answered is past
/// the limit, whether there is memory for it or not.
fn fault_of(lines: &LineBuffer, error: &LineError) -> Fault
    requires few { passed lines.now ≤ max_lines }
    requires unfinished { IsUnfinished (passed lines.now) (held lines.now) error.now }
    ensures { IsCause result (passed lines.now) (held lines.now) }
{
    let has_room = lines.count() < MAX_LINES || lines.line(1).is_empty();
    match error {
        LineError::OutOfMemory if has_room => Fault::Memory,
        LineError::OutOfMemory | LineError::Input(_) => Fault::Input,
        LineError::LongLine(_) => Fault::Input,
    }
}

/// Reads until the next line is held, and says how many bytes it has; or that there is none.
fn hold_next<R: Read>(lines: &mut LineBuffer, reader: &mut R) -> Result<Option<usize>, Fault>
    requires { passed lines.old ≤ max_lines }
    ensures read { ReadsOn (R.remaining reader.old) (R.remaining reader.new)
        (held lines.old) (held lines.new) }
    ensures counted { passed lines.new ≡ passed lines.old }
    ensures line { IfOk result (HasLine (held lines.new) (R.remaining reader.new)) }
    ensures few { IfOk result (λ next. OnSome next (passed lines.new < max_lines)) }
    ensures err { IfErr result (λ fault. IsCause fault (passed lines.new) (held lines.new)) }
{
    match lines.hold_line(reader) {
        Ok(None) => Ok(None),
        Ok(Some(len)) => {
            if lines.count() < MAX_LINES {
                Ok(Some(len))
            } else {
                Err(Fault::Input)
            }
        }
        Err(error) => Err(fault_of(lines, &error)),
    }
}

/// Answers the lines of the reader, up to its end. The last answers are held, and not written.
fn answer_lines<R: Read, W: Write>(
    alloc: Global,
    command: Command,
    reader: &mut R,
    held: &mut String,
    writer: &mut W,
) -> Result<(), Fault>
    requires { string_bytes held.old ≡ [] }
    ensures done { OnOk result (IsMeant command RunEnd.Done (string_bytes held.new)
        (R.remaining reader.old) (R.remaining reader.new) (W.contents writer.old) (W.contents writer.new)) }
    ensures end { OnOk result (IsAtEnd (R.remaining reader.new)) }
    ensures err { IfErr result (λ fault. IsStopped command fault (string_bytes held.new)
        (R.remaining reader.old) (R.remaining reader.new) (W.contents writer.old) (W.contents writer.new)) }
{
    let mut lines = LineBuffer::new(Vec::new(alloc));
    let mut scratch = Scratch::new(alloc);
    loop {
        let Some(len) = hold_next(&mut lines, reader)? else {
            return Ok(());
        };
        write_answer(alloc, command, lines.line(len), &mut scratch, held, writer)?;
        if !lines.pass_line(len) {
            return Ok(());
        }
    }
}

/// Reads lines, each up to a line feed or the end, and writes the answer to each with a line feed after it, some 65,536
/// bytes at a time. Returns how the run ended: `Done` at the reader's end.
///
/// `InputFault` is returned for any error of the reader but a signal, at which it is tried again, and for an input that
/// exceeds a limit (docs/FORMAT.md, 2.3); `Memory` when out of memory. The line that is not finished then has no answer: `error input` or `error memory` is
/// written instead, and the answers before it stay. `OutputFault` is returned for any error of the writer but a signal, or if it
/// accepts no bytes; nothing more is written.
pub fn run<R: Read, W: Write>(
    alloc: Global,
    command: Command,
    reader: &mut R,
    writer: &mut W,
) -> RunEnd
    ensures { RunsTo command result (R.remaining reader.old) (R.remaining reader.new)
        (W.contents writer.old) (W.contents writer.new) }
{
    let mut held = String::new(alloc);
    match answer_lines(alloc, command, reader, &mut held, writer) {
        Ok(()) => finish(writer, held.as_bytes(), b"", RunEnd::Done),
        Err(Fault::Input) => finish(
            writer,
            held.as_bytes(),
            b"error input\n",
            RunEnd::InputFault,
        ),
        Err(Fault::Memory) => finish(writer, held.as_bytes(), b"error memory\n", RunEnd::Memory),
        Err(Fault::Output) => RunEnd::OutputFault,
    }
}
