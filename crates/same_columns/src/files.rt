//! In what a file, by its bytes, is not as another.
ghost use Rattle.std.specs.Prelude.{IfOk, string_bytes};
ghost use Rattle.arrow_values.specs.Texts.{text_of};
ghost use Rattle.same_columns.specs.Files.{AreLinesOf, Compares};

use crate::lines::unlike_lines;
use crate::unlike::unlike_columns;
use column_files::{File, FileFault, open};
use column_reports::{Options, Weights, report_of};
use std::alloc::{AllocError, Global};

/// Why two files are not compared.
#[derive(Debug, Drop)]
pub enum SameFault {
    /// The first file is not read, and why.
    First(FileFault),
    /// The other file is not read, and why.
    Other(FileFault),
    /// Out of memory.
    OutOfMemory,
}

/// Returns in what the columns of a file are not those of the first, by the bytes of both, as lines
/// of JSON: a finding of the other file for each of the [`crate::differences`], in their order, as
/// [`unlike_lines`] writes them; none where nothing differs (docs/FORMAT.md, 2.9). `file` is the
/// name that the lines give the other file, if any. By the options a column without an extension
/// name is taken for what is inferred from its data type, and `CrsNotCompared`, a note, is shown.
/// Of a file of lines some of which are no columns the others are compared.
///
/// Errs where a file is not read, as `open` of `column_files` does, with which of the two it is, the
/// first where neither is; and when out of memory.
///
/// ```rust
/// let first = br#"{"name":"id","nullable":true,"type":"int64"}"#;
/// let other = br#"{"name":"id","nullable":true,"type":"int32"}"#;
/// let options = Options { infer: false, notes: false };
/// let lines = same_files(alloc, None, first, other, options);
/// let Ok(lines) = lines else { return Ok(()); };
/// assert_eq!(rt; lines.as_str(), "{\"kind\":\"finding\",\"severity\":\"error\",\"code\":\"NotSame\",\"column\":\"id\",\"found\":\"int32\",\"expected\":\"int64\",\"help\":\"The first file has another type.\"}\n");
/// assert!(rt; matches!(same_files(alloc, None, first, first, options), Ok(lines) if lines.is_empty()));
/// let refused = same_files(alloc, None, b"", other, options);
/// assert!(rt; matches!(refused, Err(SameFault::First(FileFault::Empty))));
/// ```
pub fn same_files(
    alloc: Global,
    file: Option<&str>,
    first: &[u8],
    other: &[u8],
    options: Options,
) -> Result<String, SameFault>
    ensures { Compares (text_of file.entry) options first.now other.now result }
{
    let first = match open(alloc, first) {
        Ok(first) => first,
        Err(fault) => return Err(SameFault::First(fault)),
    };
    let other = match open(alloc, other) {
        Ok(other) => other,
        Err(fault) => return Err(SameFault::Other(fault)),
    };
    match lines_of(alloc, file, first, other, options) {
        Ok(lines) => Ok(lines),
        Err(AllocError) => Err(SameFault::OutOfMemory),
    }
}

/// Returns in what the columns of a file that was opened are not those of the first, as lines of
/// JSON. Errs only when out of memory.
fn lines_of(
    alloc: Global,
    file: Option<&str>,
    first: File<'_>,
    other: File<'_>,
    options: Options,
) -> Result<String, AllocError>
    ensures { IfOk result (λ lines. AreLinesOf (text_of file.entry) options first.entry other.entry (string_bytes lines)) }
{
    let first = report_of(alloc, first, options)?;
    let other = report_of(alloc, other, options)?;
    let weights = Weights::new(alloc, options.notes);
    let (columns, others) = (first.columns.as_slice(), other.columns.as_slice());
    let unlike = unlike_columns(alloc, &weights, columns, others)?;
    unlike_lines(alloc, file, unlike.as_slice())
}
