//! The columns and the bad lines of a text.
ghost use Rattle.std.specs.Prelude.{◌≡◌, ◌≢◌, ◌⊎◌, [], ◌<◌, length, IfOk, MatchBool};
ghost use Rattle.column_files.specs.Lines.{FirstLine, is_blank};
ghost use Rattle.column_files.specs.LineItems.{IsLineAdded};
ghost use Rattle.column_files.specs.Files.{AreLinesRead, AreAllRead, AreUnmarkedRead};

use crate::bad_lines::{BadLine, BadLines};
use crate::columns::FileFault;
use crate::form::unmarked;
use crate::line::{LineFault, parse_column_line};
use arrow_columns::SchemaColumn;
use json::Scratch;
use memchr::memchr;
use std::alloc::{AllocError, Global};

/// What is read of lines.
#[derive(Debug, Drop)]
pub(crate) struct LinesRead {
    /// The columns that they denote.
    pub(crate) columns: Vec<SchemaColumn>,
    /// The lines that are not blank and denote none.
    pub(crate) bad_lines: BadLines,
}

impl LinesRead {
    /// Whether no line gave anything.
    pub(crate) fn is_empty(&self) -> bool
        ensures { MatchBool result ((self.now.columns.items ≡ []) × (self.now.bad_lines.first.items ≡ []))
            ((self.now.columns.items ≢ []) ⊎ (self.now.bad_lines.first.items ≢ [])) }
    {
        self.columns.is_empty() && self.bad_lines.is_empty()
    }
}

/// Returns the columns that the lines of a text denote (docs/FORMAT.md, 2.7); no columns where
/// there are no lines, or blank ones alone. A byte order mark before them is passed over. Errs with
/// `NoField` where a line that is not blank denotes no column: of the first of these, with how many
/// lines stand before it, and why; and when out of memory.
///
/// ```rust
/// let columns = columns_of_lines(alloc, b" \n");
/// assert!(rt; matches!(columns, Ok(columns) if columns.is_empty()));
/// let refused = columns_of_lines(alloc, b"\n[]\n");
/// assert!(rt; matches!(refused, Err(FileFault::NoField(1, LineFault::NotObject))));
/// ```
pub fn columns_of_lines(alloc: Global, text: &[u8]) -> Result<Vec<SchemaColumn>, FileFault>
    ensures { AreLinesRead text.now result }
{
    match read_lines(alloc, text) {
        Ok(LinesRead { columns, bad_lines }) => match bad_lines.first.as_slice() {
            [bad, ..] => Err(FileFault::NoField(bad.before, bad.fault.of_later_line())),
            [] => Ok(columns),
        },
        Err(fault) => Err(fault),
    }
}

/// Returns what the lines of a text give: the columns and the bad lines. A byte order mark before
/// them is passed over. Errs with `NoField` where the first line that is not blank refuses the file,
/// and when out of memory.
pub(crate) fn read_lines(alloc: Global, text: &[u8]) -> Result<LinesRead, FileFault>
    ensures { AreAllRead text.now result }
{
    read_unmarked(alloc, unmarked(text))
}

/// Returns what [`read_lines`] does of a text behind its byte order mark.
fn read_unmarked(alloc: Global, text: &[u8]) -> Result<LinesRead, FileFault>
    ensures { AreUnmarkedRead text.now result }
{
    let mut read = LinesRead {
        columns: Vec::new(alloc),
        bad_lines: BadLines::new(alloc),
    };
    let mut scratch = Scratch::new(alloc);
    let mut rest = text;
    let mut count = 0;
    while !rest.is_empty() {
        let (line, behind) = first_line(rest);
        if let Some(fault) = add_line(alloc, line, count, &mut scratch, &mut read)? {
            return Err(FileFault::NoField(count, fault));
        }
        rest = behind;
        count += 1;
    }
    Ok(read)
}

/// Adds what a line gives, before which so many stand, to what is read of these; or says why it
/// refuses the file.
fn add_line(
    alloc: Global,
    line: &[u8],
    before: usize,
    scratch: &mut Scratch,
    read: &mut LinesRead,
) -> Result<Option<LineFault>, AllocError>
    ensures { IfOk result (IsLineAdded before line.now read.old read.new) }
{
    if is_blank(line) {
        return Ok(None);
    }
    match parse_column_line(alloc, line, scratch)? {
        Ok(column) => {
            read.columns.push(column)?;
            Ok(None)
        }
        Err(fault) => {
            if fault.refuses_file() && read.is_empty() {
                return Ok(Some(fault));
            }
            read.bad_lines.add(BadLine { before, fault })?;
            Ok(None)
        }
    }
}

/// Whether a line has no bytes but spaces, tabs and carriage returns.
pub(crate) fn is_blank(line: &[u8]) -> bool
    ensures { result ≡ is_blank line.now }
{
    line.iter()
        .all(|&byte| byte == b' ' || byte == b'\t' || byte == b'\r')
}

/// The first line of a text, without its line feed, and what comes behind that.
fn first_line(text: &[u8]) -> (&[u8], &[u8])
    requires { text.now ≢ [] }
    ensures line { FirstLine text.now result.0.now result.1.now }
    ensures shorter { length result.1.now < length text.now }
{
    match memchr(b'\n', text) {
        Some(at) => (&text[..at], &text[at + 1..]),
        None => (text, &[]),
    }
}
