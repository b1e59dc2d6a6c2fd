//! What is made of a file, as it is printed and said.

ghost use Rattle.std.specs.Prelude.{◌≡◌, ◌⊎◌, IfOk};
ghost use Rattle.file_check.specs.Asked.{output_of};
ghost use Rattle.file_check.specs.Printed.{Prints};

use crate::asked::{Asked, Output};
use crate::counted::Counted;
use crate::numbers::Tally;
use crate::said::{print_text, say};
use crate::screen::dress;
use crate::table::{Row, table_text};
use crate::text::shown;
use crate::told::Told;
use crate::unmet::{say_unmet, unmet_of, with_unmet};
use arrow_columns::SchemaColumn;
use arrow_ipc::{Endianness, Schema, write_schema};
use column_files::{column_line, write_fault};
use std::alloc::{AllocError, Global};
use std::collections::BTreeMap;
use std::io;
use std::io::Write;

/// How many bytes are kept at most before they are written.
pub(crate) const KEPT_BYTES: usize = 65_536;

/// What is made of a file before the last of it is written.
#[derive(Drop)]
pub(crate) struct Made {
    /// What is printed first.
    pub(crate) text: String,
    /// The columns that are printed behind it, as lines of fields or as a stream.
    pub(crate) columns: Vec<SchemaColumn>,
    /// What counts for the status.
    pub(crate) counted: Counted,
}

/// Prints what is made of a file, says what is asked of it and not met, and counts it. Returns the
/// status.
pub(crate) fn print_made<W: Write, E: Write>(
    alloc: Global,
    asked: &Asked,
    file: &str,
    made: Made,
    tally: &mut Tally,
    out: &mut W,
    err: &mut E,
) -> io::Result<u8>
    ensures { IfOk result (Prints (output_of asked.now.flags) asked.now file.now made (W.contents out.old) (W.contents out.new)) }
{
    let Made {
        text,
        columns,
        counted,
    } = made;
    let unmet = unmet_of(alloc, asked, &counted)?;
    tally.add_file(counted.numbers, unmet.len());
    let status = counted.status(asked);
    match asked.flags.output() {
        Output::Json => {
            let text = with_unmet(alloc, file, text, unmet)?;
            print_text(asked, text.as_str(), tally, out)?;
            Ok(status)
        }
        Output::Lines => {
            print_text(asked, text.as_str(), tally, out)?;
            print_lines(alloc, columns, out)?;
            say_unmet(alloc, asked, file, unmet, tally, out, err)?;
            Ok(status)
        }
        Output::Ipc => {
            say_unmet(alloc, asked, file, unmet, tally, out, err)?;
            Ok(print_stream(alloc, asked, file, columns, tally, out, err)?.max(status))
        }
        Output::Github | Output::Sarif | Output::Table | Output::Errors => {
            print_text(asked, text.as_str(), tally, out)?;
            say_unmet(alloc, asked, file, unmet, tally, out, err)?;
            Ok(status)
        }
    }
}

/// Prints columns as lines of fields.
fn print_lines<W: Write>(alloc: Global, columns: Vec<SchemaColumn>, out: &mut W) -> io::Result<()> {
    let mut text = String::new(alloc);
    for column in columns {
        push_line(&mut text, column_line(alloc, column)?.as_str())?;
        if text.len() >= KEPT_BYTES {
            out.write_all(text.as_bytes())?;
            text.clear();
        }
    }
    out.write_all(text.as_bytes())
}

/// Adds a line, with its line feed.
pub(crate) fn push_line(text: &mut String, line: &str) -> Result<(), AllocError> {
    text.push_str(line)?;
    text.push_str("\n")
}

/// Prints columns as an Arrow stream of its schema alone (docs/FORMAT.md, 3.6). Where no message
/// can hold them, it says so on standard error. Returns the status.
fn print_stream<W: Write, E: Write>(
    alloc: Global,
    asked: &Asked,
    file: &str,
    columns: Vec<SchemaColumn>,
    tally: &mut Tally,
    out: &mut W,
    err: &mut E,
) -> io::Result<u8>
    ensures { IfOk result (λ status. (status ≡ 0) ⊎ (status ≡ 2)) }
{
    let schema = Schema {
        columns,
        metadata: BTreeMap::new(alloc),
        endianness: Endianness::Little,
    };
    match write_schema(alloc, &schema) {
        Ok(stream) => {
            out.write_all(stream.as_slice())?;
            Ok(0)
        }
        Err(error) => {
            let told = Told::fault(alloc, &write_fault(error))?;
            say(alloc, asked, file, &[told], tally, out, err)?;
            Ok(2)
        }
    }
}

/// The table of rows, below the file's name where there are several files. With `--problems` there
/// is none without rows, and no name either, unless something is found of the file.
pub(crate) fn named_table(
    alloc: Global,
    asked: &Asked,
    file: &str,
    rows: &mut [Row],
    has_findings: bool,
) -> Result<String, AllocError> {
    let mut text = String::new(alloc);
    let is_left_out = asked.flags.problems && rows.is_empty();
    if asked.files.len() > 1 && (has_findings || !is_left_out) {
        text.push_str(shown(alloc, file)?.as_str())?;
        text.push_str(":\n")?;
    }
    if !is_left_out {
        dress(alloc, asked, rows)?;
        text.push_str(table_text(alloc, rows)?.as_str())?;
    }
    Ok(text)
}
