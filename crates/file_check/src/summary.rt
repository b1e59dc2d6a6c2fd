//! What stands before the first file, behind each, and behind the last.
ghost use Rattle.std.specs.Prelude.{◌≡◌, OnOk};
ghost use Rattle.std.specs.Str.{IsUtf8};

use crate::asked::{Asked, Output};
use crate::names::named;
use crate::numbers::{Numbers, Tally};
use crate::object::{put_number, put_text};
use crate::sarif::{BEGIN, sarif_end};
use json::Writer;
use std::alloc::{AllocError, Global};
use std::io;
use std::io::Write;
use value_tokens::text_of;

/// Prints what stands before the first file on standard output, `out`: the begin of a log of SARIF
/// (docs/FORMAT.md, 2.7). Errs where the writer fails.
pub fn begin_output<W: Write>(asked: &Asked, out: &mut W) -> io::Result<()> {
    match asked.flags.output() {
        Output::Sarif => out.write_all(BEGIN.as_bytes()),
        _ => Ok(()),
    }
}

/// Counts a file of that status, and prints on standard output, `out`, what stands behind all that is
/// said of it: behind lines of JSON one that says whether it is read to its end, how many columns and
/// findings it has, and its status (docs/FORMAT.md, 2.7). Errs where the writer fails, and when out of
/// memory.
pub fn end_file<W: Write>(
    alloc: Global,
    asked: &Asked,
    file: &str,
    tally: &mut Tally,
    status: u8,
    out: &mut W,
) -> io::Result<()> {
    tally.add_status(status);
    match asked.flags.output() {
        Output::Json => {
            out.write_all(file_object(alloc, named(file), tally.of_last(), status)?.as_bytes())
        }
        _ => Ok(()),
    }
}

/// Prints what stands behind the last file on standard output, `out`: of two files and more a line
/// that says how many columns and findings there are, behind tables and errors in words, behind lines
/// of JSON as one of them, with the status of the run; and the end of a log of SARIF (docs/FORMAT.md,
/// 2.7). Errs where the writer fails, and when out of memory.
pub fn end_output<W: Write>(
    alloc: Global,
    asked: &Asked,
    tally: &Tally,
    status: u8,
    out: &mut W,
) -> io::Result<()> {
    match asked.flags.output() {
        Output::Table | Output::Errors if asked.files.len() > 1 => {
            out.write_all(summary_line(alloc, tally)?.as_bytes())
        }
        Output::Json if asked.files.len() > 1 => {
            out.write_all(summary_object(alloc, tally, status)?.as_bytes())
        }
        Output::Sarif => out.write_all(sarif_end(alloc, tally.rules())?.as_bytes()),
        _ => Ok(()),
    }
}

/// Returns how many columns several files have, how many of geometries, how much is found in how many
/// files, and how many files are not read, if any: a line with its line feed (docs/FORMAT.md, 2.7).
/// Errs only when out of memory.
///
/// ```rust
/// let numbers = file_check::Numbers { columns: 41, geometries: 5, errors: 2, warnings: 1, notes: 0 };
/// let mut tally = file_check::Tally::new(alloc);
/// tally.files = 3;
/// tally.unread = 1;
/// tally.found_in = 1;
/// tally.numbers = numbers;
/// let line = "3 files: 41 columns, 5 of geometries; 2 errors and 1 warning in 1 file; 1 file not read\n";
/// assert_eq!(rt; file_check::summary_line(alloc, &tally)?.as_str(), line);
/// ```
pub fn summary_line(alloc: Global, tally: &Tally) -> Result<String, AllocError> {
    let files = counted(alloc, tally.files, "file")?;
    let columns = counted(alloc, tally.numbers.columns, "column")?;
    let geometries = tally.numbers.geometries;
    let found = found_words(alloc, tally)?;
    let mut line = format!(in alloc; "{files}: {columns}, {geometries} of geometries; {found}")?;
    if tally.unread > 0 {
        let unread = counted(alloc, tally.unread, "file")?;
        line.push_str(format!(in alloc; "; {unread} not read")?.as_str())?;
    }
    line.push_str("\n")?;
    Ok(line)
}

/// How many columns and findings a file has, if it is read to its end, and its status: an object of
/// JSON with its line feed (docs/FORMAT.md, 2.7).
fn file_object(
    alloc: Global,
    file: Option<&str>,
    numbers: Option<Numbers>,
    status: u8,
) -> Result<String, AllocError> {
    let mut out = Writer::new(Vec::new(alloc));
    out.begin_object()?;
    put_text(&mut out, "kind", "file")?;
    put_name(&mut out, file)?;
    out.key("read")?;
    out.boolean(numbers.is_some())?;
    put_counts(&mut out, numbers)?;
    put_number(&mut out, "status", u64::from(status))?;
    out.end_object()?;
    line_of(out)
}

/// How many files, columns and findings there are, and the status: an object of JSON with its line
/// feed (docs/FORMAT.md, 2.7).
fn summary_object(alloc: Global, tally: &Tally, status: u8) -> Result<String, AllocError> {
    let mut out = Writer::new(Vec::new(alloc));
    out.begin_object()?;
    put_text(&mut out, "kind", "summary")?;
    put_number(&mut out, "files", tally.files)?;
    put_number(&mut out, "unread", tally.unread)?;
    put_number(&mut out, "failed", tally.failed)?;
    put_severities(&mut out, tally.numbers)?;
    put_number(&mut out, "status", u64::from(status))?;
    out.end_object()?;
    line_of(out)
}

/// Writes the name of a file, if it has one.
fn put_name(out: &mut Writer, file: Option<&str>) -> Result<(), AllocError>
    ensures { OnOk result (out.new.before ≡ out.old.before) }
{
    match file {
        Some(file) => put_text(out, "file", file),
        None => Ok(()),
    }
}

/// Writes how many columns and findings a file has, if it is read to its end.
fn put_counts(out: &mut Writer, numbers: Option<Numbers>) -> Result<(), AllocError>
    ensures { OnOk result (out.new.before ≡ out.old.before) }
{
    let Some(numbers) = numbers else {
        return Ok(());
    };
    put_number(out, "columns", numbers.columns)?;
    put_number(out, "geometries", numbers.geometries)?;
    put_severities(out, numbers)
}

/// Writes how many findings there are of each severity.
fn put_severities(out: &mut Writer, numbers: Numbers) -> Result<(), AllocError>
    ensures { OnOk result (out.new.before ≡ out.old.before) }
{
    put_number(out, "errors", numbers.errors)?;
    put_number(out, "warnings", numbers.warnings)?;
    put_number(out, "notes", numbers.notes)
}

/// What was written, with a line feed.
fn line_of(out: Writer) -> Result<String, AllocError>
    requires { IsUtf8 out.before }
{
    let mut line = text_of(out);
    line.push_str("\n")?;
    Ok(line)
}

/// What is found in how many files.
fn found_words(alloc: Global, tally: &Tally) -> Result<String, AllocError> {
    if tally.found_in == 0 {
        return String::from_str(alloc, "no findings");
    }
    let numbers = numbers_words(alloc, tally.numbers)?;
    let files = counted(alloc, tally.found_in, "file")?;
    format!(in alloc; "{numbers} in {files}")
}

/// How many errors, warnings and notes there are: those of which there are any.
fn numbers_words(alloc: Global, numbers: Numbers) -> Result<String, AllocError> {
    let mut parts = Vec::new(alloc);
    add_part(alloc, &mut parts, numbers.errors, "error")?;
    add_part(alloc, &mut parts, numbers.warnings, "warning")?;
    add_part(alloc, &mut parts, numbers.notes, "note")?;
    listed(alloc, parts.as_slice())
}

/// Adds a number of things, if there are any.
fn add_part(
    alloc: Global,
    parts: &mut Vec<String>,
    count: u64,
    word: &str,
) -> Result<(), AllocError> {
    if count > 0 {
        parts.push(counted(alloc, count, word)?)?;
    }
    Ok(())
}

/// Parts with commas between them, and `and` before the last.
fn listed(alloc: Global, parts: &[String]) -> Result<String, AllocError> {
    let mut text = String::new(alloc);
    let mut left = parts.len();
    for part in parts {
        left = left.saturating_sub(1);
        text.push_str(part.as_str())?;
        text.push_str(behind_part(left))?;
    }
    Ok(text)
}

/// What stands behind a part, where so many are left.
fn behind_part(left: usize) -> &'static str {
    match left {
        0 => "",
        1 => " and ",
        _ => ", ",
    }
}

/// A number of things.
fn counted(alloc: Global, count: u64, word: &str) -> Result<String, AllocError> {
    let end = if count == 1 { "" } else { "s" };
    format!(in alloc; "{count} {word}{end}")
}
