//! Files that are opened: their format, their columns, and what is read beside them.
ghost use Rattle.std.specs.Prelude.{◌≡◌, IfOk};
ghost use Rattle.column_files.specs.Files.{IsOpened, IsEndOpened, footer_begin};
ghost use Rattle.column_files.specs.Files.{IsArrowRead, IsStreamRead, IsParquetRead};

use crate::bad_lines::BadLines;
use crate::columns::{FileFault, file_of_footer, file_of_lines, file_of_message};
use crate::ending::{
    Ending, arrow_footer_size, cut_message, file_size, message_end, parquet_footer_size,
};
use crate::form::{Form, form_of};
use crate::found::foreign_fault;
use crate::geo::GeoText;
use crate::lines::read_lines;
use crate::parquet::file_of_parquet;
use arrow_columns::SchemaColumn;
use arrow_ipc::{read_file_footer, read_schema};
use parquet_columns::{FileFinding, GEO_KEY, RootElement, read_file};
use parquet_footer::FooterFinding;
use std::alloc::Global;

/// A file that was opened: all that is read of it.
#[derive(Debug, Drop)]
pub struct File<'a> {
    /// Its format.
    pub form: Form,
    /// Its columns.
    pub columns: Vec<SchemaColumn>,
    /// Of lines, those that are not blank and denote no column (docs/FORMAT.md, 2.7); else none.
    pub bad_lines: BadLines,
    /// Of a Parquet file, what is known of the elements of its columns (docs/FORMAT.md, 4.6, 5.1), one
    /// for each; else none.
    pub elements: Vec<RootElement>,
    /// Of a Parquet file whose columns are those at `ARROW:schema`, for each of them whether its
    /// element refutes a name of GeoArrow on it (docs/FORMAT.md, 4.5); else none.
    pub refuted: Vec<bool>,
    /// What is found of `ARROW:schema`, of elements and of repeated keys (docs/FORMAT.md, 4.5): of an
    /// Arrow file or stream of the latter alone, and of lines that they begin with a byte order mark.
    pub findings: Vec<FileFinding>,
    /// Of a Parquet file, names, keys and values that are not UTF-8 (docs/FORMAT.md, 4.3); else
    /// nothing.
    pub texts: Vec<FooterFinding<'a>>,
    /// What stands at the key `geo` of its metadata.
    pub geo: GeoText<'a>,
}

/// Opens a file by its bytes, whose first tell the format (docs/FORMAT.md, 2.7). The columns are of
/// an Arrow file or stream those of its schema, of a Parquet file those of its footer, and of lines
/// a column for each that denotes one; the others that are not blank are its bad lines. Of a stream
/// only the first message is looked at, so these bytes alone may be given; of an Arrow or Parquet
/// file only the end is, which [`open_end`] takes. Bytes of a footer are counted in the file.
///
/// Errs with `NoField` where the first line that is not blank is `{` or `[` alone, or GeoJSON, with
/// how many lines stand before it, and why; with `Empty` where all lines are blank; with `Foreign`
/// where the first bytes tell a format that is not read, which, and what is found in no more than
/// the first 1,024 of them; with `End` where the end of an Arrow or Parquet file, or of the first
/// message of a stream, is not as it should be; with `Ipc` as `read_schema` and `read_file_footer`
/// of `arrow_ipc` do, which say the rule that is broken; with `Footer`, `Tree` and `ReportTooLarge`
/// as `read_file` of `parquet_columns` does; each with the byte of the file; and when out of memory.
///
/// ```rust
/// let file = open(alloc, br#"{"name":"a","nullable":true,"type":"int64"}"#);
/// assert!(rt; matches!(file, Ok(file) if file.columns.len() == 1));
/// assert!(rt; matches!(open(alloc, b" \n"), Err(FileFault::Empty)));
/// let file = open(alloc, b"\n{]\n");
/// assert!(rt; matches!(file, Ok(file) if file.bad_lines.first.len() == 1));
/// let refused = open(alloc, b"\n{\n");
/// assert!(rt; matches!(refused, Err(FileFault::NoField(1, LineFault::OpenObject(_)))));
/// ```
pub fn open<'a>(alloc: Global, bytes: &'a [u8]) -> Result<File<'a>, FileFault>
    ensures { IsOpened bytes.now result }
{
    open_end(alloc, form_of(bytes), 0, bytes)
}

/// Opens a file in that format by its end, before which so many bytes stand, as
/// [`crate::read_schema_end`] gives it; a stream or lines by all bytes. Returns and errs as
/// [`open`] does of the whole file, with the same bytes (docs/FORMAT.md, 2.7).
///
/// ```rust
/// let refused = open_end(alloc, Form::ArrowFile, 400, b"\0\0\0\0ARROW2");
/// assert!(rt; matches!(refused, Err(FileFault::End(fault)) if fault.byte == 410));
/// ```
pub fn open_end<'a>(
    alloc: Global,
    form: Form,
    start: u64,
    end: &'a [u8],
) -> Result<File<'a>, FileFault>
    ensures { IsEndOpened form start end.now result }
{
    match form {
        Form::ArrowFile => open_arrow(alloc, file_size(start, end), end),
        Form::ArrowStream => open_stream(alloc, end),
        Form::Parquet => open_parquet(alloc, file_size(start, end), end),
        Form::Lines => file_of_lines(alloc, read_lines(alloc, end), end),
        Form::Foreign(foreign) => Err(foreign_fault(alloc, foreign, end)),
    }
}

/// Where the footer of that size begins in a file of that size.
fn footer_begin(ending: Ending, size: u64, told: u32) -> usize
    ensures { result ≡ footer_begin ending size told }
{
    (size as usize)
        .saturating_sub(ending.tail())
        .saturating_sub(told as usize)
}

/// Opens an Arrow file of that size by its end.
fn open_arrow<'a>(alloc: Global, size: u64, end: &[u8]) -> Result<File<'a>, FileFault>
    ensures form { IfOk result (λ file. file.form ≡ Form.ArrowFile) }
    ensures is { IsArrowRead size end.now result }
{
    let told = arrow_footer_size(alloc, size, end)?;
    let begin = footer_begin(Ending::Arrow, size, told);
    file_of_footer(alloc, read_file_footer(alloc, end), begin, end)
}

/// Opens a stream by its first message.
fn open_stream<'a>(alloc: Global, stream: &[u8]) -> Result<File<'a>, FileFault>
    ensures form { IfOk result (λ file. file.form ≡ Form.ArrowStream) }
    ensures is { IsStreamRead stream.now result }
{
    if (stream.len() as u64) < message_end(stream) {
        return Err(cut_message(alloc, stream));
    }
    file_of_message(alloc, read_schema(alloc, stream), stream)
}

/// Opens a Parquet file of that size by its end.
fn open_parquet<'a>(alloc: Global, size: u64, end: &'a [u8]) -> Result<File<'a>, FileFault>
    ensures form { IfOk result (λ file. file.form ≡ Form.Parquet) }
    ensures is { IsParquetRead size end.now result }
{
    let told = parquet_footer_size(alloc, size, end)?;
    let begin = footer_begin(Ending::Parquet, size, told);
    file_of_parquet(alloc, read_file(alloc, end, GEO_KEY), begin, end)
}
