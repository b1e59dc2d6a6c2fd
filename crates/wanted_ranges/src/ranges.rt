//! The bytes that are wanted, by the format of a file.
ghost use Rattle.std.specs.Prelude.{◌≡◌, ◌-◌, ◌^◌, ◌<◌, ◌≤◌, length, IfSome};
ghost use Rattle.column_files.specs.ForeignFound.{looked_at};
ghost use Rattle.wanted_ranges.specs.Wanted.{capped, begin_of, end_by, end_of, wanted_by, wanted};
ghost use Rattle.wanted_ranges.specs.Enough.{IsEnough};

use crate::footer::{arrow_footer, parquet_footer};
use crate::stream::message_end;
use column_files::{Foreign, Form, form_of};

/// How many bytes of the begin and of the end of a file are wanted for its report.
#[derive(Debug, Clone, Copy)]
pub struct Ranges {
    /// So many of its first bytes.
    pub head: u64,
    /// So many of its last bytes.
    pub tail: u64,
}

/// How many of a file's first bytes tell its format.
const HEAD_BYTES: u64 = 64;

/// As many bytes as there are.
const ALL: u64 = u64::MAX;

/// Returns how many bytes of the begin and of the end of a file are wanted for its report, of which
/// the first are `head`, and the last are `tail`, behind these; of a file of that size, or of one
/// whose size is not known yet, as that of a pipe is until it ends, whose `tail` is not looked at.
///
/// Where both numbers are at most what is given, nothing more is wanted: what is read of these bytes
/// is what is read of the whole file. Else call again with as many bytes as are wanted, and where
/// the file ends before, with its size. Three rounds are enough, as the laws say. No more is wanted
/// than the file has, and of its end no more than stands behind `head`. Allocates nothing.
///
/// ```rust
/// let wanted = wanted_ranges(b"", b"", Some(1000));
/// assert!(rt; wanted.head == 64 && wanted.tail == 0);
/// let wanted = wanted_ranges(b"PAR1\x15\x04", b"\x02\0\0\0PAR1", Some(6 + 2 + 8));
/// assert!(rt; wanted.head == 16 && wanted.tail == 0);
/// let wanted = wanted_ranges(&[b'{'; 64], b"", Some(1000));
/// assert!(rt; wanted.head == 1000 && wanted.tail == 0);
/// ```
pub fn wanted_ranges(head: &[u8], tail: &[u8], size: Option<u64>) -> Ranges
    ensures is { result ≡ wanted head.now tail.now size }
    ensures within { IfSome size (λ n. (result.head ≤ n) × (result.tail ≤ n - length head.now)) }
    ensures enough { IsEnough head.now tail.now size result }
{
    wanted(head, tail, size)
}

/// What is wanted: first the bytes that tell the format.
fn wanted(head: &[u8], tail: &[u8], size: Option<u64>) -> Ranges
    ensures is { result ≡ wanted head.now tail.now size }
    ensures size { IfSome size (λ n. n < 2 ^ 64) }
{
    let first = capped(size, HEAD_BYTES);
    if (head.len() as u64) < first {
        return Ranges {
            head: first,
            tail: 0,
        };
    }
    wanted_by(form_of(head), head, tail, size)
}

/// No more bytes than the file has, where its size is known.
fn capped(size: Option<u64>, count: u64) -> u64
    ensures is { result ≡ capped size count }
    ensures size { IfSome size (λ n. n < 2 ^ 64) }
{
    match size {
        Some(size) => count.min(size),
        None => count,
    }
}

/// What is wanted of a file in that format, where its first bytes that tell it are given.
fn wanted_by(form: Form, head: &[u8], tail: &[u8], size: Option<u64>) -> Ranges
    ensures { result ≡ wanted_by form head.now tail.now size }
{
    let begin = begin_of(form, size, head).max(HEAD_BYTES);
    Ranges {
        head: capped(size, begin),
        tail: end_of(form, size, head, tail),
    }
}

/// How many of the first bytes of a file in that format are read.
fn begin_of(form: Form, size: Option<u64>, head: &[u8]) -> u64
    ensures { result ≡ begin_of form size head.now }
{
    match form {
        Form::ArrowStream => message_end(head),
        Form::Foreign(foreign) => looked_at(foreign),
        Form::Lines => ALL,
        Form::ArrowFile | Form::Parquet => match size {
            Some(_) => 0,
            None => ALL,
        },
    }
}

/// How many of the first bytes tell what is found in a file of a format that is not read.
fn looked_at(foreign: Foreign) -> u64
    ensures { result ≡ looked_at foreign }
{
    match foreign {
        Foreign::Xml => 1024,
        Foreign::Unknown => 16,
        _ => 0,
    }
}

/// How many of the last bytes of a file in that format and of that size are read, which has a footer.
fn end_by(form: Form, size: u64, tail: &[u8]) -> u64
    ensures { result ≡ end_by form size tail.now }
{
    match form {
        Form::ArrowFile => 10 + u64::from(arrow_footer(size, tail)),
        Form::Parquet => 8 + u64::from(parquet_footer(size, tail)),
        Form::ArrowStream | Form::Lines | Form::Foreign(_) => 0,
    }
}

/// How many of these stand behind the first bytes that are given.
fn end_of(form: Form, size: Option<u64>, head: &[u8], tail: &[u8]) -> u64
    ensures { result ≡ end_of form size head.now tail.now }
{
    match size {
        Some(size) => end_by(form, size, tail).min(size.saturating_sub(head.len() as u64)),
        None => 0,
    }
}
