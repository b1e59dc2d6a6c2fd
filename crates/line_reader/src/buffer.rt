//! The lines of a source, one after another.
ghost use Rattle.std.specs.Prelude.{◌≡◌, ◌+◌, ◌<◌, ◌≤◌, min, length, drop, take};
ghost use Rattle.std.specs.Prelude.{IfOk, IfErr, OnErr, MatchBool};
ghost use Rattle.std.specs.Io.KnownBytes.{Keeps};
ghost use Rattle.memchr.specs.Find.{is_byte, Passes, Nowhere, IsFirstByte};
ghost use Rattle.line_reader.specs.Errors.{IsReadError, IsNoSignal};
ghost use Rattle.line_reader.specs.Lines.{line_feed, max_count, held, passed};
ghost use Rattle.line_reader.specs.Lines.{HasLine, IsUnfinished};
ghost use Rattle.line_reader.specs.Sources.{ReadsOn, ReadsBehind};

use crate::error::LineError;
use crate::source::{CHUNK_BYTES, move_front, part_of, read_behind, rest_of};
use memchr::memchr;
use std::io::Read;

/// The greatest number of bytes in a line of a source, its line feed not among them.
pub const MAX_LINE_BYTES: usize = 1_048_576;

/// What is held of a source whose lines are taken one after another: a line that is not whole yet,
/// and the 65,536 bytes that are read at a time, in a buffer of at most twice their size, however
/// many lines there are. The source is passed to each call that reads.
///
/// ```rust
/// let mut source = b"one\n\ntwo".as_slice();
/// let mut lines = LineBuffer::new(Vec::new(alloc));
/// assert!(rt; matches!(lines.hold_line(&mut source), Ok(Some(3))));
/// assert!(rt; lines.line(3) == b"one".as_slice() && lines.pass_line(3));
/// assert!(rt; matches!(lines.hold_line(&mut source), Ok(Some(0))) && lines.pass_line(0));
/// assert!(rt; matches!(lines.hold_line(&mut source), Ok(Some(3))) && !lines.pass_line(3));
/// assert!(rt; matches!(lines.hold_line(&mut source), Ok(None)) && lines.count() == 3);
/// ```
#[derive(Drop)]
pub struct LineBuffer {
    /// What is read of the source stands up to `end`; up to `start` it is passed.
    buffer: Vec<u8>,
    start: usize,
    end: usize,
    count: usize,
}

impl LineBuffer {
    /// Returns a buffer that holds what was read of a source before. Allocates nothing.
    pub fn new(head: Vec<u8>) -> LineBuffer
        ensures head { held result ≡ head.items }
        ensures none { passed result ≡ 0 }
    {
        LineBuffer::behind(head, 0)
    }

    /// Returns a buffer that holds what was read of a source before, but for so many of its first
    /// bytes. Allocates nothing.
    pub fn behind(head: Vec<u8>, start: usize) -> LineBuffer
        ensures head { held result ≡ drop start head.items }
        ensures none { passed result ≡ 0 }
    {
        LineBuffer {
            end: head.len(),
            buffer: head,
            start,
            count: 0,
        }
    }

    /// Returns how many lines are passed, which stops at `usize::MAX`.
    pub fn count(&self) -> usize
        ensures { result ≡ passed self.now }
    {
        self.count
    }

    /// Reads until the next line is held, and returns how many bytes it has, its line feed not
    /// among them; or none where no bytes are left. [`LineBuffer::line`] gives them.
    ///
    /// Errs with `LongLine` where the line has more than [`MAX_LINE_BYTES`] bytes, with how many
    /// lines are passed; with `Input` where the source fails, unless a signal interrupts it, which
    /// is tried again; and when out of memory. What was read stays held: a further call goes on.
    pub fn hold_line<R: Read>(&mut self, source: &mut R) -> Result<Option<usize>, LineError>
        ensures read { ReadsOn (R.remaining source.old) (R.remaining source.new)
            (held self.old) (held self.new) }
        ensures counted { passed self.new ≡ passed self.old }
        ensures line { IfOk result (HasLine (held self.new) (R.remaining source.new)) }
        ensures err { IfErr result (IsUnfinished (passed self.new) (held self.new)) }
    {
        let mut seen = 0;
        loop {
            let rest = part_of(self.buffer.as_slice(), self.start, self.end);
            if let Some(len) = feed_in(rest, seen) {
                if len > MAX_LINE_BYTES {
                    return Err(LineError::LongLine(self.count()));
                }
                return Ok(Some(len));
            }
            seen = rest.len();
            if seen > MAX_LINE_BYTES {
                return Err(LineError::LongLine(self.count()));
            }
            if self.read_more(source)? == 0 {
                return Ok(if seen == 0 { None } else { Some(seen) });
            }
        }
    }

    /// Returns the first bytes that are held, so many; all, where fewer are held.
    pub fn line(&self, len: usize) -> &[u8]
        ensures { result.now ≡ take len (held self.now) }
    {
        let rest = part_of(self.buffer.as_slice(), self.start, self.end);
        rest.get(..len).unwrap_or(rest)
    }

    /// Passes over a line of so many bytes and its line feed, which are then held no more. Returns
    /// whether more than these bytes were held, and so the line feed.
    pub fn pass_line(&mut self, len: usize) -> bool
        ensures held { held self.new ≡ drop (len + 1) (held self.old) }
        ensures counted { passed self.new ≡ min (passed self.old + 1) max_count }
        ensures ended { MatchBool result (len < length (held self.old))
            (length (held self.old) ≤ len) }
    {
        let is_ended = len < part_of(self.buffer.as_slice(), self.start, self.end).len();
        self.start = self.start.saturating_add(len).saturating_add(1);
        self.count = self.count.saturating_add(1);
        is_ended
    }

    /// Reads once, behind what is held, and says how many bytes.
    fn read_more<R: Read>(&mut self, source: &mut R) -> Result<usize, LineError>
        ensures ok { IfOk result (λ n. ReadsBehind n (R.remaining source.old)
            (R.remaining source.new) (held self.old) (held self.new)) }
        ensures err { OnErr result ((held self.new ≡ held self.old)
            × Keeps (R.remaining source.old) (R.remaining source.new)) }
        ensures kind { IfErr result IsReadError }
        ensures signal { IfErr result IsNoSignal }
        ensures counted { passed self.new ≡ passed self.old }
    {
        self.end = move_front(&mut self.buffer, self.start, self.end);
        self.start = 0;
        let count = read_behind(source, &mut self.buffer, self.end, CHUNK_BYTES)?;
        self.end += count;
        Ok(count)
    }
}

/// Where the first line feed stands, of which there is none among the first bytes, so many.
fn feed_in(bytes: &[u8], seen: usize) -> Option<usize>
    requires { Nowhere (Passes (is_byte line_feed) bytes.now) 0 seen }
    ensures { IsFirstByte (is_byte line_feed) bytes.now result }
{
    match memchr(b'\n', rest_of(bytes, seen)) {
        Some(at) => Some(seen + at),
        None => None,
    }
}
