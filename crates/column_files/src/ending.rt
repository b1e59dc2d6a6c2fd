//! The end of a file that has a footer, and that of the first message of a stream: the size that is
//! told there, or why the file is refused by its end.
ghost use Rattle.std.specs.Prelude.{◌≡◌, IfOk, string_bytes};
ghost use Rattle.column_files.specs.Endings.{End, size_in, last, file_size, end_of, head_of, tail_of};
ghost use Rattle.column_files.specs.Endings.{magic_words, cut, encrypted, most, most_words};
ghost use Rattle.column_files.specs.Endings.{wrong_size, is_size, sized, is_arrow_end, arrow_footer_size};
ghost use Rattle.column_files.specs.Endings.{parquet_end, parquet_footer_size, is_marked_stream, message_begin};
ghost use Rattle.column_files.specs.Endings.{message_size, message_end, bytes_words, cut_at};
ghost use Rattle.column_files.specs.Endings.{cut_message};
ghost use Rattle.column_files.specs.Ends.{IsSized, IsEndFault};

use crate::columns::FileFault;
use crate::form::rest_of;
use parquet_footer::{FooterError, footer_length};
use std::alloc::{AllocError, Global};

/// What stands before the size of a stream's first message, where anything does: four bytes 255.
const MARKER: u32 = 0xffff_ffff;

/// A rule of the end of a file, as what is wrong where it is broken (docs/FORMAT.md, 2.8).
#[derive(Debug, Clone, Copy, PartialEq, Eq)]
pub enum EndRule {
    /// The file, or the first message of a stream, is cut off.
    Truncated,
    /// The footer has no bytes, or more than stand between the file's head and its size.
    FooterLength,
    /// The footer is encrypted.
    Encrypted,
}

/// Why a file is refused by its end.
#[derive(Debug, Drop)]
pub struct EndFault {
    /// The rule that is broken.
    pub rule: EndRule,
    /// Where: a byte of the file, from 0.
    pub byte: u64,
    /// What stands there: the last eight bytes in hexadecimal, a size, how many bytes are left of a
    /// message, or `PARE`.
    pub found: String,
    /// What is expected there.
    pub expected: String,
}

/// The end of a file that has a footer, by its format.
#[derive(Clone, Copy)]
pub(crate) enum Ending {
    /// Of an Arrow file.
    Arrow,
    /// Of a Parquet file.
    Parquet,
}

impl Ending {
    /// How many bytes stand before a footer at least: the head of the file.
    fn head(self) -> u64
        ensures { result ≡ head_of self }
    {
        match self {
            Ending::Arrow => 8,
            Ending::Parquet => 4,
        }
    }

    /// How many bytes stand behind a footer: its size in four bytes, and the magic.
    pub(crate) fn tail(self) -> usize
        ensures { result ≡ tail_of self }
    {
        match self {
            Ending::Arrow => 10,
            Ending::Parquet => 8,
        }
    }

    /// What is expected where the magic is missing.
    fn magic_words(self) -> &'static str
        ensures { result.now ≡ magic_words self }
    {
        match self {
            Ending::Arrow => "ARROW1 at the end",
            Ending::Parquet => "PAR1 at the end",
        }
    }
}

/// How many bytes a file has, by its end, before which so many stand; `u64::MAX` where they are
/// more.
pub(crate) fn file_size(start: u64, end: &[u8]) -> u64
    ensures { result ≡ file_size start end.now }
{
    start.saturating_add(end.len() as u64)
}

/// The number in the first four bytes, the lowest first.
pub(crate) fn size_of_four(bytes: &[u8]) -> u32
    ensures { result ≡ size_in bytes.now }
{
    match bytes {
        [a, b, c, d, ..] => u32::from_le_bytes([*a, *b, *c, *d]),
        _ => 0,
    }
}

/// So many of the last bytes, or all.
fn last(bytes: &[u8], count: usize) -> &[u8]
    ensures { result.now ≡ last count bytes.now }
{
    &bytes[bytes.len().saturating_sub(count)..]
}

/// The refusal of a file by a fault of its end, if memory does not lack.
fn refused(fault: Result<EndFault, AllocError>) -> FileFault
    ensures { (e : End) → IfOk fault (λ f. end_of f ≡ e) → IsEndFault e result }
{
    match fault {
        Ok(fault) => FileFault::End(fault),
        Err(AllocError) => FileFault::OutOfMemory,
    }
}

/// That a file of that size, whose end this is, does not end with its magic.
fn cut(alloc: Global, ending: Ending, size: u64, end: &[u8]) -> Result<EndFault, AllocError>
    ensures { IfOk result (λ f. end_of f ≡ cut ending size end.now) }
{
    Ok(EndFault {
        rule: EndRule::Truncated,
        byte: size,
        found: hex::encode(alloc, last(end, 8))?,
        expected: String::from_str(alloc, ending.magic_words())?,
    })
}

/// That the footer of a file of that size is encrypted.
fn encrypted(alloc: Global, size: u64) -> Result<EndFault, AllocError>
    ensures { IfOk result (λ f. end_of f ≡ encrypted size) }
{
    Ok(EndFault {
        rule: EndRule::Encrypted,
        byte: size.saturating_sub(4),
        found: String::from_str(alloc, "PARE")?,
        expected: String::from_str(alloc, "PAR1")?,
    })
}

/// The greatest size of a footer in a file of that size.
fn most(ending: Ending, size: u64) -> u64
    ensures { result ≡ most ending size }
{
    size.saturating_sub(ending.tail() as u64)
        .saturating_sub(ending.head())
}

/// What is expected in place of a size of no footer, of which this is the greatest.
fn most_words(alloc: Global, most: u64) -> Result<String, AllocError>
    ensures { IfOk result (λ text. string_bytes text ≡ most_words most) }
{
    if most == 0 {
        String::from_str(alloc, "a footer before its size")
    } else {
        format!(in alloc; "1 to {most}")
    }
}

/// That a file of that size tells a size of its footer that it cannot have.
fn wrong_size(alloc: Global, ending: Ending, size: u64, told: u32) -> Result<EndFault, AllocError>
    ensures { IfOk result (λ f. end_of f ≡ wrong_size ending size told) }
{
    Ok(EndFault {
        rule: EndRule::FooterLength,
        byte: size.saturating_sub(ending.tail() as u64),
        found: format!(in alloc; "{told}")?,
        expected: most_words(alloc, most(ending, size))?,
    })
}

/// Whether a footer has that size in a file of that size, whose end this is.
fn is_size(ending: Ending, size: u64, end: &[u8], told: u32) -> bool
    ensures { result ≡ is_size ending size end.now told }
{
    0 < told
        && u64::from(told) <= most(ending, size)
        && told as usize <= end.len().saturating_sub(ending.tail())
}

/// The size of a footer that is told at the end of a file of that size, if it has that.
fn sized(alloc: Global, ending: Ending, size: u64, end: &[u8], told: u32) -> Result<u32, FileFault>
    ensures { IsSized (sized ending size end.now told) result }
{
    if is_size(ending, size, end, told) {
        return Ok(told);
    }
    Err(refused(wrong_size(alloc, ending, size, told)))
}

/// Whether an Arrow file ends so: with its magic, behind the size of its footer.
fn is_arrow_end(end: &[u8]) -> bool
    ensures { result ≡ is_arrow_end end.now }
{
    10 <= end.len() && rest_of(last(end, 10), 4) == b"ARROW1".as_slice()
}

/// The size of the footer of an Arrow file of that size, whose end this is; or why it is refused.
pub(crate) fn arrow_footer_size(alloc: Global, size: u64, end: &[u8]) -> Result<u32, FileFault>
    ensures { IsSized (arrow_footer_size size end.now) result }
{
    if is_arrow_end(end) {
        let told = size_of_four(last(end, 10));
        return sized(alloc, Ending::Arrow, size, end, told);
    }
    Err(refused(cut(alloc, Ending::Arrow, size, end)))
}

/// Why a Parquet file of that size is refused, whose end this is, by what is wrong with its tail.
fn parquet_end(alloc: Global, error: FooterError, size: u64, end: &[u8]) -> FileFault
    ensures { IsEndFault (parquet_end size end.now error) result }
{
    match error {
        FooterError::Encrypted => refused(encrypted(alloc, size)),
        FooterError::NotParquet | FooterError::Invalid(_, _) | FooterError::Memory => {
            refused(cut(alloc, Ending::Parquet, size, end))
        }
    }
}

/// The size of the footer of a Parquet file of that size, whose end this is; or why it is refused.
pub(crate) fn parquet_footer_size(alloc: Global, size: u64, end: &[u8]) -> Result<u32, FileFault>
    ensures { IsSized (parquet_footer_size size end.now) result }
{
    let Some((_, tail)) = end.split_last_chunk::<8>() else {
        return Err(refused(cut(alloc, Ending::Parquet, size, end)));
    };
    match footer_length(tail) {
        Ok(told) => sized(alloc, Ending::Parquet, size, end, told),
        Err(error) => Err(parquet_end(alloc, error, size, end)),
    }
}

/// Whether a stream begins with the marker.
fn is_marked_stream(bytes: &[u8]) -> bool
    ensures { result ≡ is_marked_stream bytes.now }
{
    size_of_four(bytes) == MARKER
}

/// Where the first message of a stream begins.
pub(crate) fn message_begin(bytes: &[u8]) -> usize
    ensures { result ≡ message_begin bytes.now }
{
    if is_marked_stream(bytes) { 8 } else { 4 }
}

/// The size of the first message of a stream.
pub(crate) fn message_size(bytes: &[u8]) -> u32
    ensures { result ≡ message_size bytes.now }
{
    if is_marked_stream(bytes) {
        size_of_four(rest_of(bytes, 4))
    } else {
        size_of_four(bytes)
    }
}

/// Where the first message of a stream ends.
pub(crate) fn message_end(bytes: &[u8]) -> u64
    ensures { result ≡ message_end bytes.now }
{
    message_begin(bytes) as u64 + u64::from(message_size(bytes))
}

/// So many bytes, in words.
fn bytes_words(alloc: Global, count: u64) -> Result<String, AllocError>
    ensures { IfOk result (λ text. string_bytes text ≡ bytes_words count) }
{
    let of = if count == 1 { " byte" } else { " bytes" };
    format!(in alloc; "{count}{of}")
}

/// That a stream is cut off behind a place at which so many bytes are to stand.
fn cut_at(alloc: Global, at: usize, asked: u32, bytes: &[u8]) -> Result<EndFault, AllocError>
    ensures { IfOk result (λ f. end_of f ≡ cut_at at asked bytes.now) }
{
    let size = bytes.len();
    Ok(EndFault {
        rule: EndRule::Truncated,
        byte: size as u64,
        found: bytes_words(alloc, size.saturating_sub(at) as u64)?,
        expected: bytes_words(alloc, u64::from(asked))?,
    })
}

/// Why a stream is refused that ends before its first message does.
pub(crate) fn cut_message(alloc: Global, bytes: &[u8]) -> FileFault
    ensures { IsEndFault (cut_message bytes.now) result }
{
    let begin = message_begin(bytes);
    if begin <= bytes.len() {
        return refused(cut_at(alloc, begin, message_size(bytes), bytes));
    }
    refused(cut_at(alloc, begin - 4, 4, bytes))
}
