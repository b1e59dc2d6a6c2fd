//! The report of a file, by a source of its bytes.

ghost use Rattle.std.specs.Prelude.{◌⊎◌, [], Some, IfOk};
ghost use Rattle.file_check.specs.Printed.{IsAnswered, IsUnread, IsRead, IsCheckedFrom, IsChecked, IsEndRead, IsFileFrom, IsFileChecked, IsWhole};

use crate::asked::Asked;
use crate::lines::check_lines;
use crate::numbers::Tally;
use crate::print::print_made;
use crate::refusal::refuse;
use crate::schema::made_of_end;
use column_files::{
    Form, LineColumns, ReadFault, form_of, read_head, read_schema_bytes, read_schema_end,
};
use std::alloc::{AllocError, Global};
use std::io;
use std::io::{Read, Seek, Write};

/// What is printed and said of a file.
#[derive(Debug, Drop)]
pub struct Answer {
    /// What stands on standard output.
    pub output: Vec<u8>,
    /// What stands on standard error.
    pub errors: Vec<u8>,
    /// The status.
    pub status: u8,
}

/// Returns what is printed and said of a file of these bytes, and the status. Errs only when out of
/// memory.
///
/// The contract says of a file that has a schema exactly what stands on standard output with
/// `--json`, and the status whatever is printed; of lines it says neither.
///
/// ```rust
/// let flags = Flags { format: file_check::Format::Json, lines: false, ipc: false, infer: false, quiet: false, problems: false, require_geometry: false, same: false, canonical: false };
/// let weights = Weights::new(alloc, false);
/// let screen = file_check::Screen { is_colored: false, width: None };
/// let asked = Asked { flags, weights, wants: Vec::new(alloc), files: Vec::new(alloc), screen };
/// let answer = check_bytes(alloc, &asked, "-", b"\xef\xbb\xbf{}")?;
/// let line = b"{\"kind\":\"finding\",\"severity\":\"error\",\"code\":\"BadLine\",\"line\":1,\"found\":\"no string at \\\"name\\\"\",\"expected\":\"a string at \\\"name\\\"\"}\n";
/// assert!(rt; answer.output.as_slice() == line.as_slice());
/// assert_eq!(rt; answer.status, 2);
/// ```
pub fn check_bytes(
    alloc: Global,
    asked: &Asked,
    file: &str,
    bytes: &[u8],
) -> Result<Answer, AllocError>
    ensures { IfOk result (λ answer. IsWhole asked.now file.now bytes.now (Some []) (Some answer.output.items) answer.status) }
{
    let mut tally = Tally::new(alloc);
    let mut output = Vec::new(alloc);
    let mut errors = Vec::new(alloc);
    match check_whole(
        alloc,
        asked,
        file,
        bytes,
        &mut tally,
        &mut output,
        &mut errors,
    ) {
        Ok(status) => Ok(Answer {
            output,
            errors,
            status,
        }),
        Err(_) => Err(AllocError),
    }
}

/// Reports a file of these bytes.
fn check_whole<W: Write, E: Write>(
    alloc: Global,
    asked: &Asked,
    file: &str,
    bytes: &[u8],
    tally: &mut Tally,
    out: &mut W,
    err: &mut E,
) -> io::Result<u8>
    ensures { IfOk result (IsWhole asked.now file.now bytes.now (W.contents out.old) (W.contents out.new)) }
{
    let form = form_of(bytes);
    match form {
        Form::Lines => check_source(alloc, asked, file, bytes, tally, out, err),
        Form::ArrowFile | Form::ArrowStream | Form::Parquet | Form::Foreign(_) => {
            check_end(alloc, asked, file, form, 0, bytes, tally, out, err)
        }
    }
}

/// Reports a file by a source of all its bytes, as standard input is: of an Arrow stream its first
/// message is read, of an Arrow or Parquet file all, and lines one after another. What is asked of
/// it is printed on `out`, and what is said of it too, or on `err`, by its format; and what there is
/// to count is added to the tally. Returns the status. Errs where a writer fails, and when out of
/// memory.
///
/// The contract says of a file that has a schema exactly what `--json` prints, and the status
/// whatever is printed; of lines it says neither.
pub fn check_source<R: Read + Drop, W: Write, E: Write>(
    alloc: Global,
    asked: &Asked,
    file: &str,
    source: R,
    tally: &mut Tally,
    out: &mut W,
    err: &mut E,
) -> io::Result<u8>
    ensures { IfOk result (IsChecked asked.now file.now (R.remaining source) (W.contents out.old) (W.contents out.new)) }
{
    let mut source = source;
    match read_head(alloc, &mut source) {
        Ok(head) => check_head(alloc, asked, file, head, source, tally, out, err),
        Err(fault) => refuse(alloc, asked, file, Form::Lines, fault, tally, out, err),
    }
}

/// Reports a file by its first bytes, as `read_head` gives them, and a source of the rest.
fn check_head<R: Read + Drop, W: Write, E: Write>(
    alloc: Global,
    asked: &Asked,
    file: &str,
    head: Vec<u8>,
    source: R,
    tally: &mut Tally,
    out: &mut W,
    err: &mut E,
) -> io::Result<u8>
    ensures { IfOk result (IsCheckedFrom asked.now file.now head.items (R.remaining source) (W.contents out.old) (W.contents out.new)) }
{
    let form = form_of(head.as_slice());
    match form {
        Form::Lines => {
            let lines = LineColumns::new(alloc, head, source);
            check_lines(alloc, asked, file, lines, tally, out, err)
        }
        Form::ArrowFile | Form::ArrowStream | Form::Parquet | Form::Foreign(_) => {
            check_schema(alloc, asked, file, form, head, source, tally, out, err)
        }
    }
}

/// Reports a file that has a schema by its first bytes and a source of the rest.
fn check_schema<R: Read + Drop, W: Write, E: Write>(
    alloc: Global,
    asked: &Asked,
    file: &str,
    form: Form,
    head: Vec<u8>,
    source: R,
    tally: &mut Tally,
    out: &mut W,
    err: &mut E,
) -> io::Result<u8>
    ensures { IfOk result (λ status. IsUnread asked.now file.now form (W.contents out.old) (W.contents out.new) status
        ⊎ IsRead asked.now file.now form head.items (R.remaining source) (W.contents out.old) (W.contents out.new) status) }
{
    let mut source = source;
    match read_schema_bytes(form, head, &mut source) {
        Ok(bytes) => check_end(
            alloc,
            asked,
            file,
            form,
            0,
            bytes.as_slice(),
            tally,
            out,
            err,
        ),
        Err(fault) => refuse(alloc, asked, file, form, fault, tally, out, err),
    }
}

/// Reports a file as [`check_source`] does, but of an Arrow or Parquet file only the end is read,
/// where the source seeks.
pub fn check_file<S: Read + Seek + Drop, W: Write, E: Write>(
    alloc: Global,
    asked: &Asked,
    file: &str,
    source: S,
    tally: &mut Tally,
    out: &mut W,
    err: &mut E,
) -> io::Result<u8>
    ensures { IfOk result (IsFileChecked asked.now file.now (S.remaining source) (W.contents out.old) (W.contents out.new)) }
{
    let mut source = source;
    match read_head(alloc, &mut source) {
        Ok(head) => check_file_head(alloc, asked, file, head, source, tally, out, err),
        Err(fault) => refuse(alloc, asked, file, Form::Lines, fault, tally, out, err),
    }
}

/// Reports a file by its first bytes, as `read_head` gives them, and a source that may seek.
fn check_file_head<S: Read + Seek + Drop, W: Write, E: Write>(
    alloc: Global,
    asked: &Asked,
    file: &str,
    head: Vec<u8>,
    source: S,
    tally: &mut Tally,
    out: &mut W,
    err: &mut E,
) -> io::Result<u8>
    ensures { IfOk result (IsFileFrom asked.now file.now head.items (S.remaining source) (W.contents out.old) (W.contents out.new)) }
{
    let form = form_of(head.as_slice());
    match form {
        Form::Lines => {
            let lines = LineColumns::new(alloc, head, source);
            check_lines(alloc, asked, file, lines, tally, out, err)
        }
        Form::ArrowFile | Form::ArrowStream | Form::Parquet | Form::Foreign(_) => {
            check_file_end(alloc, asked, file, form, head, source, tally, out, err)
        }
    }
}

/// Reports a file that has a schema by its first bytes and a source that may seek.
fn check_file_end<S: Read + Seek + Drop, W: Write, E: Write>(
    alloc: Global,
    asked: &Asked,
    file: &str,
    form: Form,
    head: Vec<u8>,
    source: S,
    tally: &mut Tally,
    out: &mut W,
    err: &mut E,
) -> io::Result<u8>
    ensures { IfOk result (λ status. IsUnread asked.now file.now form (W.contents out.old) (W.contents out.new) status
        ⊎ IsEndRead asked.now file.now form head.items (S.remaining source) (W.contents out.old) (W.contents out.new) status) }
{
    let mut source = source;
    match read_schema_end(alloc, form, head, &mut source) {
        Ok(end) => {
            let bytes = end.bytes.as_slice();
            check_end(alloc, asked, file, form, end.start, bytes, tally, out, err)
        }
        Err(fault) => refuse(alloc, asked, file, form, fault, tally, out, err),
    }
}

/// Reports a file in that format by its end, before which so many bytes stand.
fn check_end<W: Write, E: Write>(
    alloc: Global,
    asked: &Asked,
    file: &str,
    form: Form,
    start: u64,
    end: &[u8],
    tally: &mut Tally,
    out: &mut W,
    err: &mut E,
) -> io::Result<u8>
    ensures { IfOk result (IsAnswered asked.now file.now form start end.now (W.contents out.old) (W.contents out.new)) }
{
    match made_of_end(alloc, asked, file, form, start, end, tally) {
        Ok(made) => print_made(alloc, asked, file, made, tally, out, err),
        Err(fault) => refuse(
            alloc,
            asked,
            file,
            form,
            ReadFault::File(fault),
            tally,
            out,
            err,
        ),
    }
}
