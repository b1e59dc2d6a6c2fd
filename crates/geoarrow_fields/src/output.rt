//! What is written: answers, each with its line feed, and the line of an end.
ghost use Rattle.std.specs.Prelude.{◌≡◌, ◌≢◌, ◌++◌, OnOk, IfErr, string_bytes};
ghost use Rattle.std.specs.Io.{WritesAtMost};
ghost use Rattle.std.specs.Io.KnownBytes.{Appends, WriteAppends};
ghost use Rattle.geoarrow_fields.specs.Answer.{AppendsSome, FrontOf};
ghost use Rattle.geoarrow_fields.specs.Progress.{AnswersLine, Moves, Passes, Breaks};

use crate::answer::answer_line_with_scratch;
use crate::{Command, RunEnd};
use json::Scratch;
use std::alloc::{AllocError, Global};
use std::io;
use std::io::{ErrorKind, Write};

/// From so many bytes on, what is held is written out.
const HELD_BYTES: usize = 65_536;

/// Why a run ends before the end of its input.
#[derive(Clone, Copy)]
pub(crate) enum Fault {
    /// The input exceeds a limit, or the reader failed.
    Input,
    /// Out of memory.
    Memory,
    /// The writer failed, or accepted no bytes.
    Output,
}

impl From<AllocError> for Fault {
    ghost use Rattle.geoarrow_fields.specs.declared.output.Fault.TheVariants.{Memory};

    ghost from_gives = { λ _ fault. fault ≡ Memory };

    fn from(_refused: AllocError) -> Fault {
        Fault::Memory
    }
}

/// How often in a row a write is tried that a signal interrupts.
const MAX_TRIES: usize = 1_000;

/// Writes once, and again where a signal interrupts it.
fn write_retrying<W: Write>(writer: &mut W, text: &[u8]) -> io::Result<usize>
    ensures bound { WritesAtMost result text.now }
    ensures bytes { WriteAppends (W.contents writer.old) (W.contents writer.new) result text.now }
{
    for _ in 0..MAX_TRIES {
        match writer.write(text) {
            Ok(count) => return Ok(count),
            Err(error) if error.kind() == ErrorKind::Interrupted => {}
            Err(error) => return Err(error),
        }
    }
    Err(io::Error::from(ErrorKind::TimedOut))
}

/// Writes all of a text, or returns a fault of the output.
#[tactic(auto, using(crate::proofs::Ways::write_goes_on))]
pub(crate) fn write_whole<W: Write>(writer: &mut W, text: &[u8]) -> Result<(), Fault>
    ensures ok { OnOk result (Appends (W.contents writer.old) (W.contents writer.new) text.now) }
    ensures err { IfErr result (λ fault. fault ≡ Fault.Output) }
    ensures part { AppendsSome (FrontOf (λ whole. text.now ≡ whole)) (W.contents writer.old) (W.contents writer.new) }
{
    let mut rest = text;
    while !rest.is_empty() {
        match write_retrying(writer, rest) {
            Ok(0) => return Err(Fault::Output),
            Ok(n) => rest = &rest[n..],
            Err(_) => return Err(Fault::Output),
        }
    }
    Ok(())
}

/// Writes out what is held if that is much.
fn write_held<W: Write>(writer: &mut W, held: &mut String) -> Result<(), Fault>
    ensures ok { OnOk result (Moves (string_bytes held.old) (string_bytes held.new)
        (W.contents writer.old) (W.contents writer.new)) }
    ensures err { IfErr result (λ fault. (fault ≡ Fault.Output)
        × AppendsSome (FrontOf (λ whole. string_bytes held.old ≡ whole))
        (W.contents writer.old) (W.contents writer.new)) }
{
    if held.len() < HELD_BYTES {
        return Ok(());
    }
    write_whole(writer, held.as_bytes())?;
    held.clear();
    Ok(())
}

/// Answers a line, and holds the answer with its line feed behind what is held, which is written
/// out if that is much.
pub(crate) fn write_answer<W: Write>(
    alloc: Global,
    command: Command,
    line: &[u8],
    scratch: &mut Scratch,
    held: &mut String,
    writer: &mut W,
) -> Result<(), Fault>
    ensures ok { OnOk result (Passes (AnswersLine command line.now)
        (string_bytes held.old) (string_bytes held.new)
        (W.contents writer.old) (W.contents writer.new)) }
    ensures err { IfErr result (λ fault. Breaks fault (AnswersLine command line.now)
        (string_bytes held.old) (string_bytes held.new)
        (W.contents writer.old) (W.contents writer.new)) }
{
    let mut answer = answer_line_with_scratch(alloc, command, line, scratch)?;
    answer.push_str("\n")?;
    held.push_str(answer.as_str())?;
    write_held(writer, held)
}

/// Writes two texts, one after the other.
fn write_both<W: Write>(writer: &mut W, first: &[u8], last: &[u8]) -> Result<(), Fault>
    ensures ok { OnOk result (Appends (W.contents writer.old) (W.contents writer.new)
        (first.now ++ last.now)) }
    ensures part { AppendsSome (FrontOf (λ whole. first.now ++ last.now ≡ whole))
        (W.contents writer.old) (W.contents writer.new) }
{
    write_whole(writer, first)?;
    write_whole(writer, last)
}

/// Writes what is held and the last line of an end, and returns that end unless the writer fails.
pub(crate) fn finish<W: Write>(writer: &mut W, held: &[u8], last: &[u8], end: RunEnd) -> RunEnd
    ensures end { result ≢ RunEnd.OutputFault → result ≡ end }
    ensures written { result ≢ RunEnd.OutputFault
        → Appends (W.contents writer.old) (W.contents writer.new) (held.now ++ last.now) }
    ensures part { AppendsSome (FrontOf (λ whole. held.now ++ last.now ≡ whole))
        (W.contents writer.old) (W.contents writer.new) }
{
    if write_both(writer, held, last).is_err() || writer.flush().is_err() {
        return RunEnd::OutputFault;
    }
    end
}
