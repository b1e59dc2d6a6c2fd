//! Bytes of a source, read behind those that are held.
ghost use Rattle.std.specs.Prelude.{◌≡◌, ◌≢◌, ◌+◌, ◌<◌, ◌≤◌, List, ℕ, ◌++◌, length, take, drop};
ghost use Rattle.std.specs.Prelude.{IfOk, IfErr, OnOk, OnErr, vec_len};
ghost use Rattle.std.specs.Io.{ReadsAtMost};
ghost use Rattle.std.specs.Io.KnownBytes.{Keeps, Consumes, IsAtEnd};
ghost use Rattle.std.specs.IoError.{error_kind};
ghost use Rattle.line_reader.specs.Sources.{ReadsBehind, GivesUpTo};
ghost use Rattle.line_reader.specs.Errors.{IsReadError, IsNoSignal};

use crate::error::LineError;
use std::alloc::AllocError;
use std::io;
use std::io::{ErrorKind, Read};

/// How many bytes are read at a time, at most.
pub(crate) const CHUNK_BYTES: usize = 65_536;

/// Reads once, and again where a signal interrupts it.
fn read_retrying<R: Read>(source: &mut R, bytes: &mut [u8]) -> io::Result<usize>
    ensures bound { ReadsAtMost result bytes.new }
    ensures ok { IfOk result (λ n.
        Consumes (R.remaining source.old) (R.remaining source.new) (take n bytes.new)) }
    ensures end { IfOk result (λ n.
        n ≡ 0 → 0 < length bytes.old → IsAtEnd (R.remaining source.new)) }
    ensures err { OnErr result (Keeps (R.remaining source.old) (R.remaining source.new)) }
    ensures retried { IfErr result (λ error. error_kind error ≢ ErrorKind.Interrupted) }
{
    for _ in 0..u64::MAX {
        match source.read(bytes) {
            Ok(count) => return Ok(count),
            Err(error) if error.kind() == ErrorKind::Interrupted => {}
            Err(error) => return Err(error),
        }
    }
    Err(io::Error::from(ErrorKind::TimedOut))
}

/// Reads at most so many bytes into a slice, from a place on.
fn read_at<R: Read>(source: &mut R, bytes: &mut [u8], at: usize, most: usize) -> io::Result<usize>
    requires some { 0 < most }
    requires room { at + most ≤ length bytes.old }
    ensures front { take at bytes.new ≡ take at bytes.old }
    ensures len { length bytes.new ≡ length bytes.old }
    ensures most { IfOk result (λ n. n ≤ most) }
    ensures ok { IfOk result (λ n.
        Consumes (R.remaining source.old) (R.remaining source.new) (take n (drop at bytes.new))) }
    ensures err { OnErr result (Keeps (R.remaining source.old) (R.remaining source.new)) }
    ensures end { IfOk result (λ n. n ≡ 0 → IsAtEnd (R.remaining source.new)) }
    ensures signal { IfErr result (λ error. error_kind error ≢ ErrorKind.Interrupted) }
{
    read_retrying(source, &mut bytes[at..at + most])
}

/// Makes a buffer at least so long.
fn make_room(bytes: &mut Vec<u8>, len: usize) -> Result<(), AllocError>
    ensures front { take (vec_len bytes.old) bytes.new.items ≡ bytes.old.items }
    ensures room { OnOk result (len ≤ vec_len bytes.new) }
    ensures longer { vec_len bytes.old ≤ vec_len bytes.new }
{
    if bytes.len() < len {
        bytes.resize(len, 0)?;
    }
    Ok(())
}

/// Reads at most so many bytes behind those that a buffer holds, which are the first ones up to a
/// place, and says how many.
pub(crate) fn read_behind<R: Read>(
    source: &mut R,
    buffer: &mut Vec<u8>,
    end: usize,
    most: usize,
) -> Result<usize, LineError>
    requires within { end ≤ vec_len buffer.old }
    requires some { 0 < most }
    requires few { most ≤ 65536 }
    ensures ok { IfOk result (λ n. ReadsBehind n (R.remaining source.old) (R.remaining source.new)
        (take end buffer.old.items) (take (end + n) buffer.new.items)) }
    ensures within { IfOk result (λ n. end + n ≤ vec_len buffer.new) }
    ensures most { IfOk result (λ n. n ≤ most) }
    ensures err { OnErr result ((take end buffer.new.items ≡ take end buffer.old.items)
        × Keeps (R.remaining source.old) (R.remaining source.new)) }
    ensures kind { IfErr result IsReadError }
    ensures signal { IfErr result IsNoSignal }
{
    make_room(buffer, end + most)?;
    match read_at(source, buffer.as_mut_slice(), end, most) {
        Ok(count) => Ok(count),
        Err(error) => Err(LineError::Input(error)),
    }
}

/// Returns the bytes that are held, and behind them up to so many of a source, fewer only at its
/// end. Errs where the source fails, unless a signal interrupts it, which is tried again; and when
/// out of memory.
///
/// ```rust
/// let mut source = b"bcd".as_slice();
/// let read = read_up_to(&mut source, vec![in alloc; b'a']?, 2);
/// assert!(rt; matches!(read, Ok(bytes) if bytes.as_slice() == b"abc".as_slice()));
/// ```
pub fn read_up_to<R: Read>(source: &mut R, held: Vec<u8>, most: u64) -> Result<Vec<u8>, LineError>
    ensures ok { IfOk result (λ bytes. (more : List ℕ) × (bytes.items ≡ held.items ++ more)
        × GivesUpTo most (R.remaining source.old) (R.remaining source.new) more) }
    ensures kind { IfErr result IsReadError }
    ensures signal { IfErr result IsNoSignal }
{
    let mut bytes = held;
    let mut end = bytes.len();
    let mut left = most;
    while left > 0 {
        let count = read_behind(source, &mut bytes, end, chunk_of(left))?;
        if count == 0 {
            break;
        }
        end += count;
        left -= count as u64;
    }
    bytes.truncate(end);
    Ok(bytes)
}

/// How many of so many bytes are read at a time.
fn chunk_of(left: u64) -> usize
    requires { 0 < left }
    ensures some { 0 < result }
    ensures few { result ≤ 65536 }
    ensures left { result ≤ left }
{
    left.min(CHUNK_BYTES as u64) as usize
}

/// What stands up to a place, and from another on.
pub(crate) fn part_of(bytes: &[u8], start: usize, end: usize) -> &[u8]
    ensures { result.now ≡ drop start (take end bytes.now) }
{
    rest_of(bytes.get(..end).unwrap_or(bytes), start)
}

/// What stands from a place on.
pub(crate) fn rest_of(bytes: &[u8], start: usize) -> &[u8]
    ensures { result.now ≡ drop start bytes.now }
{
    bytes.get(start..).unwrap_or(&[])
}

/// Moves what stands up to a place, and from another on, to the front, and says how many bytes it
/// has.
pub(crate) fn move_front(bytes: &mut Vec<u8>, start: usize, end: usize) -> usize
    ensures part { take result bytes.new.items ≡ drop start (take end bytes.old.items) }
    ensures within { result ≤ vec_len bytes.new }
{
    let end = end.min(bytes.len());
    let start = start.min(end);
    if start > 0 {
        bytes.copy_within(start..end, 0);
    }
    end - start
}
