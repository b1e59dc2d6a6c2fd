//! The columns of a file as lines, those of geometries in normal form.
ghost use Rattle.std.specs.Prelude.{◌≡◌, ◌⊎◌, ◌≤◌, ◌++◌, IfOk, OnOk, string_bytes};
ghost use Rattle.arrow_columns.specs.Column.{column_tree};
ghost use Rattle.geoarrow_c.specs.Buffer.{Fills, Lacks, Makes};
ghost use Rattle.geoarrow_c.specs.Canonical.{line_of, AreCanonical, AreLinesOf, AreLinesOfFile, IsNormal, IsWritten};
ghost use Rattle.geoarrow_c.specs.Refusals.{IsUnopened};

use crate::buffer::fill;
use crate::refusal::refuse_file;
use crate::status::MEMORY;
use arrow_columns::SchemaColumn;
use canonical_columns::canonical_column;
use column_files::{File, column_line, form_of, open};
use column_reports::{ColumnReport, Options, report_of};
use json::Scratch;
use std::alloc::{AllocError, Global};

/// Writes the columns of a file, from its bytes, to the front of `out`, and their length to `len`:
/// for each of its columns, in their order, the line of its normal form, with its line feed
/// (docs/FORMAT.md, 2.7 and 2.10). The columns are those of [`crate::geoarrow_report`], without
/// inference: those of geometries by their extension names are in normal form, any other is as it
/// is. Of a file of lines, those that are no columns are left out.
///
/// Returns 0; or 5 where the bytes are refused: the line that says why, with its line feed, stands
/// in place of the columns (docs/FORMAT.md, 2.8). Returns 1 where `out` is too small for what would
/// stand there: it is then unchanged, and `len` says what is needed; 2 when out of memory, with
/// both unchanged.
#[unsafe(no_mangle)]
pub extern "C" fn geoarrow_canonical(
    alloc: Global,
    bytes: &[u8],
    out: &mut [u8],
    len: &mut usize,
) -> u8
    ensures done { result ≡ 0 → Makes (AreCanonical bytes.now) len.new (λ lines. Fills lines out.old out.new) }
    ensures refused { result ≡ 5 → Makes (IsUnopened bytes.now) len.new (λ line. Fills line out.old out.new) }
    ensures short { result ≡ 1 → Makes (λ text. AreCanonical bytes.now text ⊎ IsUnopened bytes.now text) len.new (λ text. Lacks text out.old out.new) }
    ensures unchanged { result ≡ 2 → (out.new ≡ out.old) × (len.new ≡ len.old) }
    ensures status { (result ≤ 2) ⊎ (result ≡ 5) }
{
    let opened = match open(alloc, bytes) {
        Ok(opened) => opened,
        Err(fault) => return refuse_file(alloc, None, form_of(bytes), fault, out, len),
    };
    match lines_of_file(alloc, opened) {
        Ok(lines) => fill(lines.as_bytes(), out, len),
        Err(AllocError) => MEMORY,
    }
}

/// Returns the lines of the columns of a file that was opened, in normal form. Errs only when out
/// of memory.
fn lines_of_file(alloc: Global, opened: File<'_>) -> Result<String, AllocError>
    ensures { IfOk result (λ lines. AreLinesOfFile opened.entry (string_bytes lines)) }
{
    let options = Options {
        infer: false,
        notes: false,
    };
    let report = report_of(alloc, opened, options)?;
    lines_of(alloc, report.columns)
}

/// Returns the lines of columns of which that is said, in normal form. Errs only when out of
/// memory.
fn lines_of(alloc: Global, columns: Vec<ColumnReport>) -> Result<String, AllocError>
    ensures { IfOk result (λ lines. AreLinesOf columns.items (string_bytes lines)) }
{
    let mut scratch = Scratch::new(alloc);
    let mut lines = String::new(alloc);
    for said in columns {
        let column = written(alloc, &mut scratch, said)?;
        add_line(alloc, &mut lines, column)?;
    }
    Ok(lines)
}

/// Returns the column of which that is said as it is written: one of geometries in normal form, and
/// any other as it is. Errs only when out of memory.
fn written(
    alloc: Global,
    scratch: &mut Scratch,
    said: ColumnReport,
) -> Result<SchemaColumn, AllocError>
    ensures { IfOk result (λ column. IsWritten said (column_tree column)) }
{
    let is_geometry = said.finding.is_geometry();
    normal_if(alloc, is_geometry, scratch, said.column)
}

/// Returns a column in normal form, if it is one of geometries, or else as it is. Errs only when
/// out of memory.
fn normal_if(
    alloc: Global,
    is_geometry: bool,
    scratch: &mut Scratch,
    column: SchemaColumn,
) -> Result<SchemaColumn, AllocError>
    ensures { IfOk result (λ normal. IsNormal is_geometry (column_tree column) (column_tree normal)) }
{
    if is_geometry {
        canonical_column(alloc, scratch, column)
    } else {
        Ok(column)
    }
}

/// Adds the line of a column, with its line feed. Errs only when out of memory.
pub(crate) fn add_line(
    alloc: Global,
    lines: &mut String,
    column: SchemaColumn,
) -> Result<(), AllocError>
    ensures { OnOk result (string_bytes lines.new ≡ string_bytes lines.old ++ line_of (column_tree column)) }
{
    let line = column_line(alloc, column)?;
    lines.push_str(line.as_str())?;
    lines.push_str("\n")
}
