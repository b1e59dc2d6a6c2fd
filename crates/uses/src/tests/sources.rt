//! The columns of lines, and the bytes of a schema, from sources that are slow, that fail, that signals interrupt and that do not seek.
use crate::tests::reading::{OneByte, Repeated};
use arrow_ipc::IpcError;
use column_files::{
    File, FileEnd, FileFault, Foreign, Form, LineColumns, LineFault, MAX_LINE_BYTES, ReadFault,
    column_line, form_of, open, open_end, read_head, read_schema_bytes, read_schema_end,
};
use std::alloc::{AllocError, Global};
use std::io;
use std::io::{Cursor, Error, ErrorKind, Read, Seek, SeekFrom};
use std::mem::ManuallyDrop;
use std::test::Fail;

/// Gives one byte a call, and fails at the call `fails_at` alone, where calls count from 0. It does not seek.
#[derive(Drop)]
struct Stumbling<'a> {
    text: &'a [u8],
    call: usize,
    fails_at: usize,
    kind: ErrorKind,
}

impl<'a> Stumbling<'a> {
    fn new(text: &'a [u8], fails_at: usize, kind: ErrorKind) -> Stumbling<'a> {
        Stumbling {
            text,
            call: 0,
            fails_at,
            kind,
        }
    }
}

impl Read for Stumbling<'_> {
    fn read(&mut self, buf: &mut [u8]) -> io::Result<usize> {
        let call = self.call;
        self.call = call.saturating_add(1);
        if call == self.fails_at {
            return Err(Error::from(self.kind));
        }
        let room = buf.len().min(1);
        self.text.read(&mut buf[..room])
    }
}

impl Seek for Stumbling<'_> {
    fn seek(&mut self, _to: SeekFrom) -> io::Result<u64> {
        Err(Error::from(ErrorKind::NotSeekable))
    }
}

/// Three columns, as `column_line` writes them.
const LINES: &[u8] =
    b"{\"name\":\"a\",\"nullable\":true,\"type\":\"binary\"}\n{\"name\":\"b\",\"nullable\":true,\"type\":{\"other\":\"time32[s]\"}}\n{\"name\":\"c\",\"nullable\":false,\"type\":\"null\"}\n";

/// How many bytes its first line has, with its line feed.
const FIRST: usize = 45;

/// Adds the lines of the columns up to the end, or to the first fault, which is returned.
fn add_columns<R: Read>(
    alloc: Global,
    lines: &mut LineColumns<R>,
    text: &mut Vec<u8>,
) -> Result<Option<ReadFault>, AllocError> {
    for _ in 0..u64::MAX {
        match lines.next_column() {
            Ok(Some(column)) => {
                text.extend_from_slice(column_line(alloc, column)?.as_bytes())?;
                text.extend_from_slice(b"\n")?;
            }
            Ok(None) => return Ok(None),
            Err(fault) => return Ok(Some(fault)),
        }
    }
    Ok(None)
}

/// The lines of the columns of a source behind its first bytes, up to its first fault, and that.
fn columns_of_source<R: Read + Drop>(
    alloc: Global,
    head: Vec<u8>,
    source: R,
) -> Result<(Vec<u8>, Option<ReadFault>), AllocError> {
    let mut lines = ManuallyDrop::new(LineColumns::new(alloc, head, source));
    let mut text = Vec::new(alloc);
    let fault = add_columns(alloc, &mut lines, &mut text)?;
    Ok((text, fault))
}

/// Whether a source behind its first bytes gives these lines of columns, and no fault.
fn are_columns<R: Read + Drop>(
    alloc: Global,
    head: Vec<u8>,
    source: R,
    wanted: &[u8],
) -> Result<bool, AllocError> {
    let found = ManuallyDrop::new(columns_of_source(alloc, head, source)?);
    Ok(found.0.as_slice() == wanted && found.1.is_none())
}

/// How many of the first bytes make whole lines.
fn whole_lines(text: &[u8]) -> usize {
    text.iter()
        .rposition(|&byte| byte == b'\n')
        .map_or(0, |at| at + 1)
}

#[test]
fn of_lines_give_columns_in_order(rt: HostRuntime) -> Result<(), Fail> {
    let alloc = rt.alloc();
    let unended = &LINES[..LINES.len() - 1];
    for &text in [LINES, unended].iter() {
        assert!(rt;
            are_columns(alloc, Vec::new(alloc), text, LINES)?,
            "at once"
        );
        let slow = OneByte::new(text);
        assert!(rt;
            are_columns(alloc, Vec::new(alloc), slow, LINES)?,
            "one byte a call"
        );
    }
    Ok(())
}

/// Lines that end in a fault, and it: without a column, blank lines alone or none; or of a line behind so many, blank ones too.
const FAULTY: &[(&[u8], Option<(usize, LineFault)>)] = &[
    (b"", None),
    (b" \n\t\r\n\n \t", None),
    (b"\n \r\n[]\n", Some((2, LineFault::NotObject))),
    (
        b"\n{\"name\":\"c\",\"nullable\":false,\"type\":\"null\"}\n\t\n\n{}",
        Some((4, LineFault::Name)),
    ),
    (b"\n\x0c\n", Some((1, LineFault::NotJson(1)))),
];

/// Whether the columns of a source end in that fault.
fn end_in<R: Read + Drop>(
    alloc: Global,
    source: R,
    wanted: Option<(usize, LineFault)>,
) -> Result<bool, AllocError> {
    let found = ManuallyDrop::new(columns_of_source(alloc, Vec::new(alloc), source)?);
    let wanted = match wanted {
        Some((before, fault)) => FileFault::NoField(before, fault),
        None => FileFault::Empty,
    };
    let wanted = ManuallyDrop::new(ReadFault::File(wanted));
    is_same(alloc, &found.1, &wanted)
}

#[test]
fn of_lines_count_blank_ones(rt: HostRuntime) -> Result<(), Fail> {
    let alloc = rt.alloc();
    for &(text, fault) in FAULTY.iter() {
        assert!(rt; end_in(alloc, text, fault)?, "{fault:?} at once");
        assert!(rt;
            end_in(alloc, OneByte::new(text), fault)?,
            "{fault:?} slowly"
        );
    }
    Ok(())
}

/// Whether the first bytes of lines, which are read to tell the format, tell it, and the columns begin with them.
fn begin_with_head(alloc: Global) -> Result<bool, AllocError> {
    let mut source = OneByte::new(LINES);
    let Ok(head) = read_head(alloc, &mut source) else {
        return Ok(false);
    };
    let is_head = head.as_slice() == &LINES[..64] && form_of(head.as_slice()) == Form::Lines;
    Ok(are_columns(alloc, head, source, LINES)? && is_head)
}

/// Whether a byte order mark among the first bytes is passed over, and lines are told behind it.
fn passes_mark(alloc: Global) -> Result<bool, AllocError> {
    let mark = b"\xef\xbb\xbf".as_slice();
    let mut source = mark.chain(OneByte::new(LINES));
    let Ok(head) = read_head(alloc, &mut source) else {
        return Ok(false);
    };
    let is_head = match (head.as_slice().get(3..), LINES.get(..61)) {
        (Some(behind), Some(lines)) => behind == lines,
        _ => false,
    } && form_of(head.as_slice()) == Form::Lines;
    Ok(are_columns(alloc, head, source, LINES)? && is_head)
}

#[test]
fn of_lines_begin_with_their_head(rt: HostRuntime) -> Result<(), Fail> {
    assert!(rt; begin_with_head(rt.alloc())?);
    assert!(rt; passes_mark(rt.alloc())?, "behind a mark");
    Ok(())
}

/// The lines of `LINES` with blank ones before, between and behind them.
const SPACED: &[u8] =
    b"\n \t\r\n{\"name\":\"a\",\"nullable\":true,\"type\":\"binary\"}\n\n\r\n{\"name\":\"b\",\"nullable\":true,\"type\":{\"other\":\"time32[s]\"}}\n  \n{\"name\":\"c\",\"nullable\":false,\"type\":\"null\"}\r\n\n\t";

/// Whether a read that fails once at a call over lines gives the columns of `LINES` in two parts, between which it fails.
fn stumbles_over(alloc: Global, lines: &[u8], call: usize) -> Result<bool, AllocError> {
    let source = Stumbling::new(lines, call, ErrorKind::Other);
    let mut lines = ManuallyDrop::new(LineColumns::new(alloc, Vec::new(alloc), source));
    let mut text = ManuallyDrop::new(Vec::new(alloc));
    let fault = ManuallyDrop::new(add_columns(alloc, &mut lines, &mut text)?);
    let is_input = matches!(&*fault, Some(ReadFault::Input(_)));
    let fault = ManuallyDrop::new(add_columns(alloc, &mut lines, &mut text)?);
    Ok(is_input && text.as_slice() == LINES && fault.is_none())
}

#[test]
fn of_spaced_lines_fail_at_each_call(rt: HostRuntime) -> Result<(), Fail> {
    let alloc = rt.alloc();
    assert!(rt; are_columns(alloc, Vec::new(alloc), SPACED, LINES)?);
    for call in 0..SPACED.len() + 1 {
        assert!(rt; stumbles_over(alloc, SPACED, call)?, "at {call}");
    }
    Ok(())
}

/// Whether a read that fails once, behind these bytes, gives the columns of their whole lines, and then the others.
fn stumbles(alloc: Global, before: &[u8]) -> Result<bool, AllocError> {
    let source = Stumbling::new(LINES, before.len(), ErrorKind::Other);
    let mut lines = ManuallyDrop::new(LineColumns::new(alloc, Vec::new(alloc), source));
    let mut text = ManuallyDrop::new(Vec::new(alloc));
    let fault = ManuallyDrop::new(add_columns(alloc, &mut lines, &mut text)?);
    let is_cut = text.len() == whole_lines(before);
    let is_input = matches!(&*fault, Some(ReadFault::Input(_)));
    let fault = ManuallyDrop::new(add_columns(alloc, &mut lines, &mut text)?);
    Ok(is_cut && is_input && text.as_slice() == LINES && fault.is_none())
}

/// A read that fails once. One that a signal interrupts is not seen.
#[test]
fn of_lines_fail_at_each_call(rt: HostRuntime) -> Result<(), Fail> {
    let alloc = rt.alloc();
    for call in 0..LINES.len() + 1 {
        assert!(rt; stumbles(alloc, &LINES[..call])?, "at {call}");
        let source = Stumbling::new(LINES, call, ErrorKind::Interrupted);
        assert!(rt;
            are_columns(alloc, Vec::new(alloc), source, LINES)?,
            "interrupted at {call}"
        );
    }
    Ok(())
}

/// A line that denotes no column is named once, with how many stand before it, and lines go on behind it.
#[test]
fn of_lines_go_on_behind_no_field(rt: HostRuntime) -> Result<(), Fail> {
    assert!(rt; goes_on(rt.alloc())?);
    Ok(())
}

/// Whether the columns of lines of which one denotes none stop at that, and go on if they are asked once more.
fn goes_on(alloc: Global) -> Result<bool, AllocError> {
    let input = b"{}\n{\"name\":\"c\",\"nullable\":false,\"type\":\"null\"}\n[]\n".as_slice();
    let mut lines = ManuallyDrop::new(LineColumns::new(alloc, Vec::new(alloc), input));
    let mut text = ManuallyDrop::new(Vec::new(alloc));
    let once = ManuallyDrop::new(add_columns(alloc, &mut lines, &mut text)?);
    let none = text.len();
    let again = ManuallyDrop::new(add_columns(alloc, &mut lines, &mut text)?);
    let end = ManuallyDrop::new(add_columns(alloc, &mut lines, &mut text)?);
    let first = ReadFault::File(FileFault::NoField(0, LineFault::Name));
    let first = ManuallyDrop::new(first);
    let other = ReadFault::File(FileFault::NoField(2, LineFault::NotObject));
    let other = ManuallyDrop::new(other);
    Ok(
        none == 0
            && text.len() == input.len() - 6
            && is_same(alloc, &once, &first)?
            && is_same(alloc, &again, &other)?
            && end.is_none(),
    )
}

/// Whether a fault is this one, as `Debug` prints it.
fn is_same(
    alloc: Global,
    fault: &Option<ReadFault>,
    wanted: &ReadFault,
) -> Result<bool, AllocError> {
    let Some(fault) = fault else {
        return Ok(false);
    };
    let found = ManuallyDrop::new(format!(in alloc; "{fault:?}")?);
    let wanted = ManuallyDrop::new(format!(in alloc; "{wanted:?}")?);
    Ok(found.as_str() == wanted.as_str())
}

/// The last column of `LINES`.
const LAST: &[u8] = b"{\"name\":\"c\",\"nullable\":false,\"type\":\"null\"}";

/// That column in a line of so many bytes, behind the first one, and an end.
fn padded(alloc: Global, len: usize, end: &[u8]) -> Result<Vec<u8>, AllocError> {
    let mut text = Vec::new(alloc);
    text.extend_from_slice(&LINES[..FIRST])?;
    text.extend_from_slice(LAST)?;
    text.resize(FIRST.saturating_add(len), b' ')?;
    text.extend_from_slice(end)?;
    Ok(text)
}

/// Whether a source gives the first column, and then a line that is too long.
fn is_too_long<R: Read + Drop>(alloc: Global, source: R) -> Result<bool, AllocError> {
    let found = ManuallyDrop::new(columns_of_source(alloc, Vec::new(alloc), source)?);
    let wanted = ManuallyDrop::new(ReadFault::LongLine(1));
    Ok(found.0.len() == FIRST && is_same(alloc, &found.1, &wanted)?)
}

/// Whether a line with that end may have as many bytes as a line may have, and not one more.
fn is_limited(alloc: Global, end: &[u8]) -> Result<bool, AllocError> {
    let longest = ManuallyDrop::new(padded(alloc, MAX_LINE_BYTES, end)?);
    let longer = ManuallyDrop::new(padded(alloc, MAX_LINE_BYTES + 1, end)?);
    let wanted = ManuallyDrop::new(padded(alloc, LAST.len(), b"\n")?);
    let source = longest.as_slice();
    let is_read = are_columns(alloc, Vec::new(alloc), source, wanted.as_slice())?;
    Ok(is_read && is_too_long(alloc, longer.as_slice())?)
}

/// The first column, and behind it a blank line of so many bytes.
fn blank(alloc: Global, len: usize) -> Result<Vec<u8>, AllocError> {
    let mut text = Vec::new(alloc);
    text.extend_from_slice(&LINES[..FIRST])?;
    text.resize(FIRST.saturating_add(len), b' ')?;
    Ok(text)
}

/// Whether a blank line may have as many bytes as a line may have, and not one more.
fn is_blank_limited(alloc: Global) -> Result<bool, AllocError> {
    let longest = ManuallyDrop::new(blank(alloc, MAX_LINE_BYTES)?);
    let longer = ManuallyDrop::new(blank(alloc, MAX_LINE_BYTES + 1)?);
    let is_read = are_columns(alloc, Vec::new(alloc), longest.as_slice(), &LINES[..FIRST])?;
    Ok(is_read && is_too_long(alloc, longer.as_slice())?)
}

/// As many bytes as a line may have, at the end and before a line feed; one more; a blank line alike; and a line without an end.
#[test]
fn of_lines_are_limited(rt: HostRuntime) -> Result<(), Fail> {
    for &end in [b"".as_slice(), b"\n"].iter() {
        assert!(rt; is_limited(rt.alloc(), end)?, "before {end:?}");
    }
    assert!(rt; is_blank_limited(rt.alloc())?, "blank");
    let endless = LINES[..FIRST].chain(Repeated { left: usize::MAX });
    assert!(rt; is_too_long(rt.alloc(), endless)?, "no end");
    Ok(())
}

/// A format, the bytes of a source, and how many of its last bytes hold its schema, where it seeks; and of its first, where it does not.
const SCHEMAS: &[(Form, &[u8], usize, usize)] = &[
    (
        Form::ArrowStream,
        b"\xff\xff\xff\xff\x03\0\0\0abcdef",
        14,
        14,
    ),
    (
        Form::ArrowStream,
        b"\xff\xff\xff\xff\x40\0\0\0a message of 64 bytes, of which the last 8 are not in the head..behind",
        78,
        72,
    ),
    (Form::ArrowStream, b"\x03\0\0\0abcdefghijkl", 16, 16),
    (
        Form::ArrowStream,
        b"\x40\0\0\0a message of 64 bytes, of which the last 4 are not in the head..behind",
        74,
        68,
    ),
    (
        Form::Foreign(Foreign::Zip),
        b"PK\x03\x04 of which no more is read than the first bytes, from which its format is told",
        81,
        64,
    ),
    (
        Form::Foreign(Foreign::Xml),
        b"<?xml version=\"1.0\"?> of which 1,024 bytes are read, among which the code of an error may be",
        92,
        92,
    ),
    (Form::ArrowStream, b"\xff\xff\xff\xff\x03\0\0\0ab", 10, 10),
    (Form::ArrowStream, b"\xff\xff\xff\xff\x03\0", 6, 6),
    (Form::Parquet, b"PAR1columnsfooter\x06\0\0\0PAR1", 14, 25),
    (Form::Parquet, b"PAR1footer\xff\0\0\0PAR1", 18, 18),
    (Form::Parquet, b"PAR1", 4, 4),
    (
        Form::ArrowFile,
        b"ARROW1\0\0columnsfooter\x06\0\0\0ARROW1",
        16,
        31,
    ),
    (Form::ArrowFile, b"ARROW1", 6, 6),
    (Form::Lines, b"{}\n{}\n", 6, 6),
];

/// The bytes that hold the schema of a source that is read from its beginning.
fn read_whole<R: Read>(alloc: Global, form: Form, source: &mut R) -> Result<Vec<u8>, ReadFault> {
    let head = read_head(alloc, source)?;
    read_schema_bytes(form, head, source)
}

/// The same of one that may seek.
fn read_end<S: Read + Seek>(
    alloc: Global,
    form: Form,
    source: &mut S,
) -> Result<FileEnd, ReadFault> {
    let head = read_head(alloc, source)?;
    read_schema_end(alloc, form, head, source)
}

/// Whether these bytes were read.
fn are_read(read: Result<Vec<u8>, ReadFault>, wanted: &[u8]) -> bool {
    match &*ManuallyDrop::new(read) {
        Ok(bytes) => bytes.as_slice() == wanted,
        Err(_) => false,
    }
}

/// Whether these bytes were read of an end, before which so many stand.
fn is_end(read: Result<FileEnd, ReadFault>, start: usize, wanted: &[u8]) -> bool {
    match &*ManuallyDrop::new(read) {
        Ok(end) => end.start == start as u64 && end.bytes.as_slice() == wanted,
        Err(_) => false,
    }
}

/// Whether the last bytes of a source are read where it seeks, and the first ones where it does not, at once, slowly or in a pipe.
fn are_given(alloc: Global, form: Form, bytes: &[u8], front: &[u8], end: &[u8]) -> bool {
    let start = match form {
        Form::ArrowFile | Form::Parquet => bytes.len().saturating_sub(end.len()),
        Form::ArrowStream | Form::Lines | Form::Foreign(_) => 0,
    };
    let mut whole = bytes;
    let mut slow = OneByte::new(bytes);
    let mut seeking = Cursor::new(bytes);
    let mut piped = Stumbling::new(bytes, usize::MAX, ErrorKind::Other);
    are_read(read_whole(alloc, form, &mut whole), front)
        && are_read(read_whole(alloc, form, &mut slow), front)
        && is_end(read_end(alloc, form, &mut seeking), start, end)
        && is_end(read_end(alloc, form, &mut piped), 0, front)
}

#[test]
fn of_schemas_give_what_holds_them(rt: HostRuntime) -> Result<(), Fail> {
    for &(form, bytes, last, first) in SCHEMAS.iter() {
        let front = &bytes[..first.min(bytes.len())];
        let end = if matches!(form, Form::ArrowStream | Form::Foreign(_)) {
            front
        } else {
            &bytes[bytes.len().saturating_sub(last)..]
        };
        assert!(rt; are_given(rt.alloc(), form, bytes, front, end), "{form:?}");
    }
    Ok(())
}

/// Whether a read of a schema that fails at a call fails so, and one that is interrupted there gives these bytes.
fn fails_at(alloc: Global, form: Form, bytes: &[u8], wanted: &[u8], call: usize) -> bool {
    let mut failing = Stumbling::new(bytes, call, ErrorKind::Other);
    let failed = ManuallyDrop::new(read_whole(alloc, form, &mut failing));
    let mut interrupted = Stumbling::new(bytes, call, ErrorKind::Interrupted);
    matches!(&*failed, Err(ReadFault::Input(_)))
        && are_read(read_whole(alloc, form, &mut interrupted), wanted)
}

#[test]
fn of_schemas_fail_at_each_call(rt: HostRuntime) -> Result<(), Fail> {
    for &(form, bytes, _, first) in SCHEMAS.iter() {
        let wanted = &bytes[..first.min(bytes.len())];
        for call in 0..wanted.len() {
            assert!(rt;
                fails_at(rt.alloc(), form, bytes, wanted, call),
                "{form:?} at {call}"
            );
        }
    }
    Ok(())
}

/// Arrow files with a fault, and the byte at which it is: an offset that leads nowhere, the place of a table, no magic, sizes of 0 and of more than there is.
const ARROW_FILES: &[(&[u8], usize)] = &[
    (b"ARROW1\0\0blocks..\xff\0\0\0rest\x08\0\0\0ARROW1", 16),
    (b"ARROW1\0\0blocks..\x08\0\0\0rest\x08\0\0\0ARROW1", 24),
    (b"ARROW1\0\0blocks..rest\x04\0\0\0ARROW2", 30),
    (b"ARROW1\0\0blocks..rest\0\0\0\0ARROW1", 20),
    (b"ARROW1\0\0blocks..rest\x15\0\0\0ARROW1", 20),
    (b"ARROW1\0\0blocks..rest\x0d\0\0\0ARROW1", 20),
    (b"ARROW1\0\0", 8),
];

/// Parquet files with a fault, and the byte at which it is: a number that is negative, no magic, sizes of 0, of more than there is and of the file's head, and an
/// encrypted footer.
const PARQUET_FILES: &[(&[u8], usize)] = &[
    (b"PAR1blocks..\x05\x01\x02\0\x04\0\0\0PAR1", 13),
    (b"PAR1blocks..rest\x04\0\0\0PAR2", 24),
    (b"PAR1blocks..rest\0\0\0\0PAR1", 16),
    (b"PAR1blocks..rest\xff\0\0\0PAR1", 16),
    (b"PAR1blocks..rest\x0d\0\0\0PAR1", 16),
    (b"PAR1blocks..rest\x04\0\0\0PARE", 20),
    (b"PAR1", 4),
];

/// Whether a file is refused at a byte.
fn is_refused_at(opened: Result<File<'_>, FileFault>, at: usize) -> bool {
    match &*ManuallyDrop::new(opened) {
        Err(FileFault::Ipc(IpcError::Broken(fault))) => fault.at == at,
        Err(FileFault::End(fault)) => fault.byte == at as u64,
        Err(FileFault::Footer(_, byte)) => *byte == at,
        _ => false,
    }
}

/// Whether the end of a file in that format is refused at that byte of the file.
fn is_end_refused_at(alloc: Global, form: Form, bytes: &[u8], at: usize) -> bool {
    let mut source = Cursor::new(bytes);
    match &*ManuallyDrop::new(read_end(alloc, form, &mut source)) {
        Ok(end) => {
            let end_bytes = end.bytes.as_slice();
            let opened = open_end(alloc, form, end.start, end_bytes);
            is_refused_at(opened, at)
        }
        Err(_) => false,
    }
}

#[test]
fn of_files_name_the_byte_of_the_file(rt: HostRuntime) -> Result<(), Fail> {
    let alloc = rt.alloc();
    for (form, files) in [
        (Form::ArrowFile, ARROW_FILES),
        (Form::Parquet, PARQUET_FILES),
    ] {
        for &(bytes, at) in files.iter() {
            assert!(rt;
                is_refused_at(open(alloc, bytes), at),
                "{form:?} whole, at {at}"
            );
            assert!(rt;
                is_end_refused_at(alloc, form, bytes, at),
                "{form:?} by the end, at {at}"
            );
        }
    }
    Ok(())
}
