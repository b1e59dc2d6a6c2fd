//! The columns of a file as lines.
ghost use Rattle.std.specs.Prelude.{◌≡◌, ◌⊎◌, ◌≤◌, IfOk, flat_map, map, string_bytes};
ghost use Rattle.geoarrow_c.specs.Buffer.{Fills, Lacks, Makes};
ghost use Rattle.geoarrow_c.specs.Canonical.{line_of};
ghost use Rattle.geoarrow_c.specs.FileLines.{AreFileLines, AreLinesAsRead, tree_of};
ghost use Rattle.geoarrow_c.specs.Refusals.{IsUnopened};

use crate::buffer::fill;
use crate::canonical::add_line;
use crate::refusal::refuse_file;
use crate::status::MEMORY;
use column_files::{File, form_of, open};
use column_reports::{ColumnReport, Options, report_of};
use std::alloc::{AllocError, Global};

/// Writes the columns of a file, from its bytes, to the front of `out`, and their length to `len`:
/// for each of its columns, in their order, the line that denotes it, with its line feed
/// (docs/FORMAT.md, 2.7). The columns are those of [`crate::geoarrow_report`], of a GeoParquet file
/// by its metadata. Of a file of lines, those that are no columns are left out.
///
/// Returns 0; or 5 where the bytes are refused: the line that says why, with its line feed, stands
/// in place of the columns (docs/FORMAT.md, 2.8). Returns 1 where `out` is too small for what would
/// stand there: it is then unchanged, and `len` says what is needed; 2 when out of memory, with
/// both unchanged.
#[unsafe(no_mangle)]
pub extern "C" fn geoarrow_lines(alloc: Global, bytes: &[u8], out: &mut [u8], len: &mut usize) -> u8
    ensures done { result ≡ 0 → Makes (AreFileLines bytes.now) len.new (λ lines. Fills lines out.old out.new) }
    ensures refused { result ≡ 5 → Makes (IsUnopened bytes.now) len.new (λ line. Fills line out.old out.new) }
    ensures short { result ≡ 1 → Makes (λ text. AreFileLines bytes.now text ⊎ IsUnopened bytes.now text) len.new (λ text. Lacks text out.old out.new) }
    ensures unchanged { result ≡ 2 → (out.new ≡ out.old) × (len.new ≡ len.old) }
    ensures status { (result ≤ 2) ⊎ (result ≡ 5) }
{
    let opened = match open(alloc, bytes) {
        Ok(opened) => opened,
        Err(fault) => return refuse_file(alloc, None, form_of(bytes), fault, out, len),
    };
    match lines_of_file(alloc, opened) {
        Ok(lines) => fill(lines.as_bytes(), out, len),
        Err(AllocError) => MEMORY,
    }
}

/// Returns the lines of the columns of a file that was opened. Errs only when out of memory.
fn lines_of_file(alloc: Global, opened: File<'_>) -> Result<String, AllocError>
    ensures { IfOk result (λ lines. AreLinesAsRead opened.entry (string_bytes lines)) }
{
    let options = Options {
        infer: false,
        notes: false,
    };
    let report = report_of(alloc, opened, options)?;
    lines_of(alloc, report.columns)
}

/// Returns the lines of columns of which that is said. Errs only when out of memory.
fn lines_of(alloc: Global, columns: Vec<ColumnReport>) -> Result<String, AllocError>
    ensures { IfOk result (λ lines. string_bytes lines ≡ flat_map line_of (map tree_of columns.items)) }
{
    let mut lines = String::new(alloc);
    'columns: for said in columns {
        add_line(alloc, &mut lines, said.column)?;
    }
    Ok(lines)
}
