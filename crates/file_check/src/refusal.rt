//! Why a file is not reported, as it is printed and said.

ghost use Rattle.std.specs.Prelude.{◌≡◌, IfOk, OnOk};
ghost use Rattle.file_check.specs.Asked.{output_of};
ghost use Rattle.file_check.specs.Printed.{PrintsFault, PrintsRefusal, line_of_fault, unread_told};
ghost use Rattle.column_files.specs.Refusals.{told};
ghost use Rattle.std.specs.Io.KnownBytes.{Appends};

use crate::asked::{Asked, Output};
use crate::names::named;
use crate::numbers::Tally;
use crate::rules::{BAD_LINE, CANNOT_READ};
use crate::said::say;
use crate::told::Told;
use column_files::{BadLines, Fault, Form, Place, ReadFault, bad_line_fault, fault_of, long_line};
use column_reports::{bad_line_lines, fault_line};
use std::alloc::{AllocError, Global};
use std::io;
use std::io::Write;

/// Says why a file in that format is not read: with `--json` the fault is a line on standard output,
/// `out`, and else it is said where its format has what is said of a file (docs/FORMAT.md, 2.7 and
/// 2.8). The file is counted as one that is not read. Returns the status, 2. Errs where a writer
/// fails, and when out of memory.
pub fn refuse<W: Write, E: Write>(
    alloc: Global,
    asked: &Asked,
    file: &str,
    form: Form,
    fault: ReadFault,
    tally: &mut Tally,
    out: &mut W,
    err: &mut E,
) -> io::Result<u8>
    ensures status { IfOk result (λ status. status ≡ 2) }
    ensures output { OnOk result (PrintsRefusal (output_of asked.now.flags) file.now form fault (W.contents out.old) (W.contents out.new)) }
{
    tally.add_unread();
    match fault {
        ReadFault::Input(error) => {
            let words = format!(in alloc; "{error}")?;
            refuse_for(alloc, asked, file, &unread(words.as_str()), tally, out, err)
        }
        ReadFault::LongLine(before) => {
            refuse_for(alloc, asked, file, &long_line(before), tally, out, err)
        }
        ReadFault::File(fault) => {
            refuse_for(alloc, asked, file, &fault_of(form, &fault), tally, out, err)
        }
    }
}

/// The fault of a file that the system does not give, in its words.
fn unread(words: &str) -> Fault<'_>
    ensures { told result ≡ unread_told words.now }
{
    Fault {
        code: CANNOT_READ.code,
        place: Place::File,
        found: words,
        expected: "a file that can be read",
        help: None,
    }
}

/// Prints and says a fault of a file, as `refuse` does.
fn refuse_for<W: Write, E: Write>(
    alloc: Global,
    asked: &Asked,
    file: &str,
    fault: &Fault<'_>,
    tally: &mut Tally,
    out: &mut W,
    err: &mut E,
) -> io::Result<u8>
    ensures status { IfOk result (λ status. status ≡ 2) }
    ensures output { OnOk result (PrintsFault (output_of asked.now.flags) file.now (told fault.now) (W.contents out.old) (W.contents out.new)) }
{
    if matches!(asked.flags.output(), Output::Json) {
        print_fault(alloc, file, fault, out)?;
        return Ok(2);
    }
    let told = Told::fault(alloc, fault)?;
    say(alloc, asked, file, &[told], tally, out, err)?;
    Ok(2)
}

/// Says why lines denote no columns: with `--json` their faults are lines on standard output, `out`,
/// and else they are said where their format has what is said of a file (docs/FORMAT.md, 2.7 and
/// 2.8). Errs where a writer fails, and when out of memory.
pub(crate) fn tell_bad_lines<W: Write, E: Write>(
    alloc: Global,
    asked: &Asked,
    file: &str,
    bad_lines: &BadLines,
    tally: &mut Tally,
    out: &mut W,
    err: &mut E,
) -> io::Result<()> {
    if matches!(asked.flags.output(), Output::Json) {
        let lines = bad_line_lines(alloc, named(file), bad_lines)?;
        return out.write_all(lines.as_bytes());
    }
    let told = told_bad_lines(alloc, bad_lines)?;
    say(alloc, asked, file, told.as_slice(), tally, out, err)
}

/// What is told of bad lines.
fn told_bad_lines(alloc: Global, bad_lines: &BadLines) -> Result<Vec<Told>, AllocError> {
    let mut told = Vec::new(alloc);
    for bad in &bad_lines.first {
        told.push(Told::fault(alloc, &bad_line_fault(*bad))?)?;
    }
    if let Some(words) = more_words(alloc, bad_lines.more)? {
        told.push(Told::error(alloc, BAD_LINE, words.as_str())?)?;
    }
    Ok(told)
}

/// How many more lines denote no columns, if any do.
fn more_words(alloc: Global, more: usize) -> Result<Option<String>, AllocError> {
    match more {
        0 => Ok(None),
        1 => Ok(Some(String::from_str(alloc, "1 more line is no column")?)),
        _ => Ok(Some(format!(in alloc; "{more} more lines are no columns")?)),
    }
}

/// Prints a fault as a line of JSON.
fn print_fault<W: Write>(
    alloc: Global,
    file: &str,
    fault: &Fault<'_>,
    out: &mut W,
) -> io::Result<()>
    ensures { OnOk result (Appends (W.contents out.old) (W.contents out.new) (line_of_fault file.now (told fault.now))) }
{
    let mut line = fault_line(alloc, named(file), fault)?;
    line.push_str("\n")?;
    out.write_all(line.as_bytes())
}
