//! The bytes of a source that hold its schema.
ghost use Rattle.std.specs.Prelude.{◌≡◌, ◌+◌, ◌-◌, ◌≤◌, List, ℕ, nat_le, ◌++◌, length, drop};
ghost use Rattle.std.specs.Prelude.{OnOk, IfSome, IfOk, IfErr};
ghost use Rattle.std.specs.Io.KnownBytes.{IsAtEnd};
ghost use Rattle.column_files.specs.Forms.{IsForm, head_bytes};
ghost use Rattle.line_reader.specs.Sources.{GivesUpTo};
ghost use Rattle.column_files.specs.Faults.{IsReadError};
ghost use Rattle.column_files.specs.ForeignFound.{looked_at};
ghost use Rattle.column_files.specs.Endings.{size_in, last, message_end};
ghost use Rattle.column_files.specs.Files.{HasFooter};
ghost use Rattle.column_files.specs.Reading.{GivesSchema, GivesEnd, IsEnd, IsHead, ReadAs};

use crate::ending::{Ending, message_end, size_of_four};
use crate::fault::ReadFault;
use crate::foreign::Foreign;
use crate::form::{Form, HEAD_BYTES};
use line_reader::read_up_to;
use std::alloc::Global;
use std::io::{Read, Seek, SeekFrom};

/// Returns the first 64 bytes of a source, from which `form_of` tells the format; all of them, where
/// there are fewer. Errs where the source fails, and when out of memory.
///
/// ```rust
/// let mut source = b"PAR1".as_slice();
/// let head = read_head(alloc, &mut source);
/// assert!(rt; matches!(head, Ok(head) if head.as_slice() == b"PAR1".as_slice()));
/// ```
pub fn read_head<R: Read>(alloc: Global, source: &mut R) -> Result<Vec<u8>, ReadFault>
    ensures ok { IfOk result (λ head. GivesUpTo head_bytes (R.remaining source.old) (R.remaining source.new) head.items) }
    ensures err { IfErr result IsReadError }
{
    Ok(read_up_to(source, Vec::new(alloc), HEAD_BYTES as u64)?)
}

/// Returns the bytes from which `open` reads the columns of a source in that format, whose first
/// bytes are `head`, as `read_head` gives them: of a stream these, and what its first message has
/// beyond them; of a format that is not read those that tell what is found in it, of XML 1,024 and
/// else no more than these; and of another format all bytes. Errs where the source fails, and when
/// out of memory.
///
/// ```rust
/// let mut source = b"bcdef".as_slice();
/// let head = Vec::from_slice(alloc, b"\xff\xff\xff\xff\x02\0\0\0a")?;
/// let read = read_schema_bytes(Form::ArrowStream, head, &mut source);
/// assert!(rt; matches!(read, Ok(bytes) if bytes.as_slice() == b"\xff\xff\xff\xff\x02\0\0\0ab".as_slice()));
/// let mut source = b"bcdef".as_slice();
/// let head = Vec::from_slice(alloc, b"\x02\0\0\0a")?;
/// let read = read_schema_bytes(Form::ArrowStream, head, &mut source);
/// assert!(rt; matches!(read, Ok(bytes) if bytes.as_slice() == b"\x02\0\0\0ab".as_slice()));
/// ```
pub fn read_schema_bytes<R: Read>(
    form: Form,
    head: Vec<u8>,
    source: &mut R,
) -> Result<Vec<u8>, ReadFault>
    ensures ok { IfOk result (λ bytes. (more : List ℕ) × (bytes.items ≡ head.items ++ more)
        × GivesSchema form head.items (R.remaining source.old) (R.remaining source.new) more) }
    ensures enough { IfOk result (λ bytes. IfSome (R.remaining source.old) (λ rest.
        IsForm head.items form → IsHead head.items rest → ReadAs form bytes.items (head.items ++ rest))) }
    ensures err { IfErr result IsReadError }
{
    let rest = match form {
        Form::ArrowStream => left_of_message(head.as_slice()),
        Form::Foreign(foreign) => left_of_foreign(foreign, head.as_slice()),
        Form::ArrowFile | Form::Parquet | Form::Lines => u64::MAX,
    };
    Ok(read_up_to(source, head, rest)?)
}

/// How many bytes the first message of a stream has behind the first ones of the stream.
fn left_of_message(head: &[u8]) -> u64
    ensures { result ≡ message_end head.now - length head.now }
{
    message_end(head).saturating_sub(head.len() as u64)
}

/// How many bytes behind the first ones of a file tell what is found in it.
fn left_of_foreign(foreign: Foreign, head: &[u8]) -> u64
    ensures { result ≡ looked_at foreign - length head.now }
{
    (foreign.looked_at() as u64).saturating_sub(head.len() as u64)
}

/// The end of a file, or all of it.
#[derive(Debug, Drop)]
pub struct FileEnd {
    /// How many bytes of the file stand before it.
    pub start: u64,
    /// The bytes of the end.
    pub bytes: Vec<u8>,
}

/// Returns what `read_schema_bytes` does, but of an Arrow or Parquet file the end alone: the
/// footer, with its size and the magic behind it, at the place that its size tells, or all where
/// the size is greater than the file. Where the source does not seek, as a pipe, all is read.
/// [`crate::columns_of_end`] reads the columns. Errs where the source fails, and when out of
/// memory.
///
/// The contract says of the end that it is the end, and of an Arrow file that it has the footer
/// which its last ten bytes tell; not which bytes come before, since the contracts of `Seek` do not
/// say which bytes a reader gives once it has sought.
pub fn read_schema_end<S: Read + Seek>(
    alloc: Global,
    form: Form,
    head: Vec<u8>,
    source: &mut S,
) -> Result<FileEnd, ReadFault>
    ensures ok { IfOk result (λ end.
        GivesEnd form head.items (S.remaining source.old) (S.remaining source.new) end.bytes.items) }
    ensures footer { IfOk result (λ end. IsEnd form end.start end.bytes.items) }
    ensures err { IfErr result IsReadError }
{
    let tail = match form {
        Form::ArrowFile => Ending::Arrow.tail(),
        Form::Parquet => Ending::Parquet.tail(),
        Form::ArrowStream | Form::Lines | Form::Foreign(_) => {
            return read_all(form, head, source);
        }
    };
    let Ok(length) = source.seek(SeekFrom::End(0)) else {
        return read_all(form, head, source);
    };
    drop(head);
    read_footer(alloc, source, length, tail)
}

/// The end of a file of that length that has its footer, whose size the last bytes tell, as many as
/// `tail`; or all. All is read too where the file has changed since its last bytes were read.
fn read_footer<S: Read + Seek>(
    alloc: Global,
    source: &mut S,
    length: u64,
    tail: usize,
) -> Result<FileEnd, ReadFault>
    ensures end { OnOk result (IsAtEnd (S.remaining source.new)) }
    ensures footer { IfOk result (λ end. HasFooter tail end.start end.bytes.items) }
    ensures err { IfErr result IsReadError }
{
    let last = last_of(alloc, source, length, tail as u64)?;
    let size = u64::from(size_of_four(last.bytes.as_slice()));
    drop(last);
    let end = last_of(alloc, source, length, size.saturating_add(tail as u64))?;
    if end.start == 0 || has_footer(end.bytes.as_slice(), tail) {
        return Ok(end);
    }
    drop(end);
    last_of(alloc, source, length, u64::MAX)
}

/// Whether bytes have, before their last ones, as many as `tail`, so many more as these tell.
fn has_footer(bytes: &[u8], tail: usize) -> bool
    ensures { result
        ≡ nat_le (tail + size_in (last tail bytes.now)) (length bytes.now) }
{
    match bytes.len().checked_sub(tail) {
        Some(at) => size_of_four(&bytes[at..]) as usize <= at,
        None => false,
    }
}

/// What `read_schema_bytes` gives, before which nothing stands.
fn read_all<R: Read>(form: Form, head: Vec<u8>, source: &mut R) -> Result<FileEnd, ReadFault>
    ensures ok { IfOk result (λ end. (more : List ℕ) × (end.bytes.items ≡ head.items ++ more)
        × GivesSchema form head.items (R.remaining source.old) (R.remaining source.new) more) }
    ensures start { IfOk result (λ end. end.start ≡ 0) }
    ensures err { IfErr result IsReadError }
{
    let bytes = read_schema_bytes(form, head, source)?;
    Ok(FileEnd { start: 0, bytes })
}

/// So many bytes at the end of a file of that length, or all.
fn last_of<S: Read + Seek>(
    alloc: Global,
    source: &mut S,
    length: u64,
    count: u64,
) -> Result<FileEnd, ReadFault>
    ensures end { OnOk result (IsAtEnd (S.remaining source.new)) }
    ensures start { IfOk result (λ end. end.start ≡ length - count) }
    ensures err { IfErr result IsReadError }
{
    let start = length.saturating_sub(count);
    source.seek(SeekFrom::Start(start))?;
    let bytes = read_rest(alloc, source, count)?;
    Ok(FileEnd { start, bytes })
}

/// All bytes of a source, which are so many unless the file has grown.
fn read_rest<R: Read>(alloc: Global, source: &mut R, count: u64) -> Result<Vec<u8>, ReadFault>
    ensures end { OnOk result (IsAtEnd (R.remaining source.new)) }
    ensures err { IfErr result IsReadError }
{
    // (one more, which there is not, so that the end is seen)
    let bytes = read_up_to(source, Vec::new(alloc), count.saturating_add(1))?;
    if bytes.len() as u64 <= count {
        return Ok(bytes);
    }
    Ok(read_up_to(source, bytes, u64::MAX)?)
}
