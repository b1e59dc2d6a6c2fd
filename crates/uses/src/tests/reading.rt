//! The reading loop over readers and writers that are slow, that fail, that take nothing and that never end.
use geoarrow_fields::{Command, RunEnd, run};
use std::alloc::{AllocError, Global};
use std::io;
use std::io::{Error, ErrorKind, Read, Write};
use std::process::Abort;
use std::test::Fail;

/// Gives one byte a call, and fails at the call `fails_at`, where calls count from 0; once, where a
/// signal interrupts it.
#[derive(Drop)]
pub struct OneByte<'a> {
    text: &'a [u8],
    call: usize,
    fails_at: usize,
    kind: ErrorKind,
}

impl<'a> OneByte<'a> {
    pub fn new(text: &'a [u8]) -> OneByte<'a> {
        OneByte::failing(text, usize::MAX, ErrorKind::Other)
    }

    fn failing(text: &'a [u8], fails_at: usize, kind: ErrorKind) -> OneByte<'a> {
        OneByte {
            text,
            call: 0,
            fails_at,
            kind,
        }
    }
}

impl Read for OneByte<'_> {
    fn read(&mut self, buf: &mut [u8]) -> io::Result<usize> {
        if self.call == self.fails_at {
            if self.kind == ErrorKind::Interrupted {
                self.fails_at = usize::MAX;
            }
            return Err(Error::from(self.kind));
        }
        self.call = self.call.saturating_add(1);
        let Some((first, rest)) = self.text.split_first() else {
            return Ok(0);
        };
        if buf.is_empty() {
            return Ok(0);
        }
        buf[0] = *first;
        self.text = rest;
        Ok(1)
    }
}

/// Gives an `a` again and again: `left` times, as many as fit at each call.
#[derive(Drop)]
pub struct Repeated {
    pub left: usize,
}

impl Read for Repeated {
    fn read(&mut self, buf: &mut [u8]) -> io::Result<usize> {
        buf.fill(b'a');
        let n = buf.len().min(self.left);
        self.left -= n;
        Ok(n)
    }
}

/// Takes up to `most` bytes a call, and fails at the call `fails_at`; fails at a flush where `keeps` is false.
#[derive(Drop)]
struct Slow {
    text: Vec<u8>,
    most: usize,
    call: usize,
    fails_at: usize,
    keeps: bool,
}

impl Slow {
    fn new(alloc: Global, most: usize, fails_at: usize, keeps: bool) -> Slow {
        Slow {
            text: Vec::new(alloc),
            most,
            call: 0,
            fails_at,
            keeps,
        }
    }
}

impl Write for Slow {
    fn write(&mut self, buf: &[u8]) -> io::Result<usize> {
        if self.call == self.fails_at {
            return Err(Error::from(ErrorKind::Interrupted));
        }
        self.call = self.call.saturating_add(1);
        let n = buf.len().min(self.most);
        self.text.extend_from_slice(&buf[..n])?;
        Ok(n)
    }

    fn flush(&mut self) -> io::Result<()> {
        if self.keeps {
            Ok(())
        } else {
            Err(Error::from(ErrorKind::Other))
        }
    }
}

/// Four lines of which none is a field, the third empty and the last with no line feed.
const LINES: &[u8] = b"[}\n{\n\nx";

/// The answers to them.
const ANSWERS: &[u8] = b"error field\nerror field\nerror field\nerror field\n";

/// So many times `error field`, and then a last line.
fn refused(alloc: Global, times: usize, last: &[u8]) -> Result<Vec<u8>, AllocError> {
    let mut text = Vec::new(alloc);
    for _ in 0..times {
        text.extend_from_slice(b"error field\n")?;
    }
    text.extend_from_slice(last)?;
    Ok(text)
}

/// A column of points.
const POINT: &[u8] =
    br#"{"metadata":{"ARROW:extension:name":"geoarrow.point"},"name":"geometry","nullable":true,"type":{"struct":[{"name":"x","nullable":false,"type":"float64"},{"name":"y","nullable":false,"type":"float64"}]}}"#;

/// What the lines of an input are, a command, the input, and what is written.
const INPUTS: &[(&str, Command, &[u8], &[u8])] = &[
    ("no fields", Command::Read, LINES, ANSWERS),
    ("no fields under canon", Command::Canon, LINES, ANSWERS),
    (
        "a field, a carriage return and no text",
        Command::Read,
        b"{\n{\"name\":\"a\",\"nullable\":true,\"type\":\"null\"}\n\r\n\xff\n",
        b"error field\nnone\nerror field\nerror field\n",
    ),
    ("nothing", Command::Read, b"", b""),
    ("a blank line", Command::Infer, b"\n", b"error field\n"),
    ("a point", Command::Read, POINT, b"point separated XY -\n"),
    (
        "a point under infer",
        Command::Infer,
        POINT,
        b"point separated XY -\n",
    ),
    (
        "a point under columns",
        Command::Columns,
        POINT,
        b"geometry point separated XY -\n",
    ),
];

/// What a run writes, whose end must be this one.
fn output<R: Read>(
    rt: &(impl Abort + AllocGlobal),
    command: Command,
    reader: &mut R,
    end: RunEnd,
) -> Vec<u8> {
    let mut out = Vec::new(rt.alloc());
    let ended = run(rt.alloc(), command, reader, &mut out);
    assert!(rt; ended == end, "{command:?}");
    out
}

/// Lines, one byte a call and all at once, and no line at all.
#[test]
fn answers_lines_in_order(rt: HostRuntime) -> Result<(), Fail> {
    for &(name, command, input, answers) in INPUTS.iter() {
        let mut reader = OneByte::new(input);
        let slow = output(&rt, command, &mut reader, RunEnd::Done);
        assert!(rt; slow.as_slice() == answers, "{name}, one byte a call");
        let mut reader = input;
        let whole = output(&rt, command, &mut reader, RunEnd::Done);
        assert!(rt; whole.as_slice() == answers, "{name}, all at once");
    }
    Ok(())
}

/// A read that fails: the whole lines before it are answered.
#[test]
fn read_fails_at_each_call(rt: HostRuntime) -> Result<(), Fail> {
    for &(first, next, before) in [(0usize, 3, 0), (3, 5, 1), (5, 6, 2), (6, 8, 3)].iter() {
        for call in first..next {
            let mut reader = OneByte::failing(LINES, call, ErrorKind::Other);
            let out = output(&rt, Command::Read, &mut reader, RunEnd::InputFault);
            let want = refused(rt.alloc(), before, b"error input\n")?;
            assert!(rt; out.as_slice() == want.as_slice(), "at {call}");
        }
    }
    Ok(())
}

/// A read that a signal interrupts is not seen.
#[test]
fn read_is_interrupted_at_each_call(rt: HostRuntime) -> Result<(), Fail> {
    for call in 0..8usize {
        let mut reader = OneByte::failing(LINES, call, ErrorKind::Interrupted);
        let out = output(&rt, Command::Read, &mut reader, RunEnd::Done);
        assert!(rt; out.as_slice() == ANSWERS, "at {call}");
    }
    Ok(())
}

/// A write that fails: nothing more is written, and what was stays. Each answer with its line feed takes four calls.
#[test]
fn write_fails_at_each_call(rt: HostRuntime) -> Result<(), Fail> {
    for call in 0..17usize {
        let mut out = Slow::new(rt.alloc(), 3, call, true);
        let mut reader = LINES;
        let end = run(rt.alloc(), Command::Read, &mut reader, &mut out);
        let want = if call < 16 {
            RunEnd::OutputFault
        } else {
            RunEnd::Done
        };
        let is_written = ANSWERS.starts_with(out.text.as_slice()) && out.text.len() == call * 3;
        assert!(rt; end == want && out.call == call && is_written, "at {call}");
    }
    Ok(())
}

/// So many bytes a call at most, the call that fails, whether the flush succeeds, and how many bytes stand at the end.
const FAULTS: &[(usize, usize, bool, usize)] = &[
    (0, usize::MAX, true, 0),
    (3, 16, true, 48),
    (3, usize::MAX, false, 60),
];

/// A writer that takes nothing, one that fails at the last line, and one that fails at the flush.
#[test]
fn writer_fails_at_the_end(rt: HostRuntime) -> Result<(), Fail> {
    for &(most, fails_at, keeps, len) in FAULTS.iter() {
        let mut out = Slow::new(rt.alloc(), most, fails_at, keeps);
        let mut reader = OneByte::failing(b"{\n{\n{\n{\n", 8, ErrorKind::Other);
        let end = run(rt.alloc(), Command::Read, &mut reader, &mut out);
        assert!(rt;
            end == RunEnd::OutputFault && out.text.len() == len,
            "where {len} bytes stand"
        );
    }
    Ok(())
}

/// How many bytes there are, none of which ends the line, how many lines are answered, the last line, and the end.
const LIMITS: &[(usize, usize, &[u8], RunEnd)] = &[
    (1_048_576, 1, b"", RunEnd::Done),
    (1_048_577, 0, b"error input\n", RunEnd::InputFault),
    (usize::MAX, 0, b"error input\n", RunEnd::InputFault),
];

/// As many bytes as a line may have, one more, and a line without an end. As many lines as an input may have are tested by runs/.
#[test]
fn ends_past_the_limits(rt: HostRuntime) -> Result<(), Fail> {
    for &(left, answered, last, end) in LIMITS.iter() {
        let mut reader = Repeated { left };
        let out = output(&rt, Command::Read, &mut reader, end);
        let want = refused(rt.alloc(), answered, last)?;
        assert!(rt; out.as_slice() == want.as_slice(), "{left} bytes");
    }
    Ok(())
}
