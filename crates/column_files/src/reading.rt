//! The columns of the lines of a source, one after another.
ghost use Rattle.std.specs.Prelude.{◌≡◌, ◌||◌, false, take, map, [], Err, IfOk, IfSome, IfErr};
ghost use Rattle.std.specs.Io.KnownBytes.{prepend_known};
ghost use Rattle.line_reader.specs.Lines.{HasLine};
ghost use Rattle.parquet_columns.specs.Findings.{finding};
ghost use Rattle.column_files.specs.Forms.{is_marked, unmarked};
ghost use Rattle.column_files.specs.LineFindings.{mark_findings};
ghost use Rattle.column_files.specs.Lines.{is_blank};
ghost use Rattle.column_files.specs.Reading.{ahead, passed, has_item, has_mark, text_left};
ghost use Rattle.column_files.specs.Reading.{PassesLines, answered, is_item, IsNext};

use crate::columns::FileFault;
use crate::fault::ReadFault;
use crate::form::{is_marked, mark_len};
use crate::line::parse_column_line;
use crate::lines::is_blank;
use crate::mark::mark_findings;
use arrow_columns::SchemaColumn;
use json::Scratch;
use line_reader::LineBuffer;
use parquet_columns::FileFinding;
use std::alloc::{AllocError, Global};
use std::io::Read;

/// The columns that the lines of a source denote, and its bad lines (docs/FORMAT.md, 2.7), one after another. What is held in memory does not grow with the
/// number of lines: it is a line that is not whole yet, and the 65,536 bytes that are read at a time, in a buffer of at most twice their size.
///
/// ```rust
/// let text = b"[]\n\n{\"name\":\"a\",\"nullable\":true,\"type\":\"int64\"}\n".as_slice();
/// let mut lines = LineColumns::new(alloc, Vec::new(alloc), text);
/// let first = lines.next_column();
/// assert!(rt; matches!(first, Err(ReadFault::File(FileFault::NoField(0, LineFault::NotObject)))));
/// assert!(rt; matches!(lines.next_column(), Ok(Some(_))));
/// assert!(rt; matches!(lines.next_column(), Ok(None)));
/// ```
#[derive(Drop)]
pub struct LineColumns<R> {
    alloc: Global,
    source: R,
    lines: LineBuffer,
    scratch: Scratch,
    /// Whether a line that is passed is not blank.
    has_item: bool,
    /// Whether a byte order mark stands before the first line.
    is_marked: bool,
}

impl<R: Read> LineColumns<R> {
    /// Returns the lines of what was read of a source, as its first bytes were to tell the format,
    /// and of what it gives from there on. A byte order mark at the begin of what was read is
    /// passed over. Allocates nothing.
    pub fn new(alloc: Global, head: Vec<u8>, source: R) -> LineColumns<R>
        ensures text { text_left R.remaining result ≡ prepend_known (unmarked head.items) (R.remaining source) }
        ensures passed { passed result ≡ 0 }
        ensures none { has_item result ≡ false }
        ensures mark { has_mark result ≡ is_marked head.items }
    {
        let start = mark_len(head.as_slice());
        let is_marked = is_marked(head.as_slice());
        LineColumns {
            alloc,
            source,
            lines: LineBuffer::behind(head, start),
            scratch: Scratch::new(alloc),
            has_item: false,
            is_marked,
        }
    }

    /// Returns what is found of the lines beside what calls answer, as [`crate::File::findings`] of a
    /// file of lines have it (docs/FORMAT.md, 4.5). Errs only when out of memory.
    ///
    /// ```rust
    /// let head = Vec::from_slice(alloc, b"\xef\xbb\xbf{}")?;
    /// let lines = LineColumns::new(alloc, head, b"".as_slice());
    /// assert_eq!(rt; lines.findings()?.len(), 1);
    /// ```
    pub fn findings(&self) -> Result<Vec<FileFinding>, AllocError>
        ensures { IfOk result (λ found. map finding found.items ≡ mark_findings (has_mark self.now)) }
    {
        mark_findings(self.alloc, self.is_marked)
    }

    /// Returns the column of the next line that is not blank; or none where all lines are answered.
    ///
    /// Errs with `NoField` where the line denotes no column, with how many lines stand before it,
    /// blank ones too, and why: a further call goes on behind it. Errs with `Empty` where no text is
    /// left, and all lines are blank (docs/FORMAT.md, 2.7); with `LongLine` where a line, blank or
    /// not, has more than [`crate::MAX_LINE_BYTES`] bytes, with how many stand before it; with
    /// `Input` where the source fails, unless a signal interrupts it, which is tried again; and when
    /// out of memory. The line is then not passed over: a further call begins with it, and goes on
    /// where the source failed.
    pub fn next_column(&mut self) -> Result<Option<SchemaColumn>, ReadFault>
        ensures passed { PassesLines (passed self.old) (passed self.new)
            (text_left R.remaining self.old) (text_left R.remaining self.new) (answered result) }
        ensures next { IsNext (passed self.new) (has_item self.old)
            (text_left R.remaining self.new) (ahead self.new) result }
        ensures item { has_item self.new ≡ (has_item self.old || is_item result) }
        ensures mark { has_mark self.new ≡ has_mark self.old }
    {
        let Some(len) = self.hold_filled()? else {
            return match self.has_item {
                true => Ok(None),
                false => Err(ReadFault::File(FileFault::Empty)),
            };
        };
        match parse_column_line(self.alloc, self.lines.line(len), &mut self.scratch)? {
            Ok(column) => {
                self.lines.pass_line(len);
                self.has_item = true;
                Ok(Some(column))
            }
            Err(fault) => {
                let before = self.lines.count();
                self.lines.pass_line(len);
                self.has_item = true;
                Err(ReadFault::File(FileFault::NoField(before, fault)))
            }
        }
    }

    /// Passes over blank lines until the next line that is not blank is held, and says how many
    /// bytes it has, its line feed not among them; or that there is none.
    fn hold_filled(&mut self) -> Result<Option<usize>, ReadFault>
        ensures passed { PassesLines (passed self.old) (passed self.new)
            (text_left R.remaining self.old) (text_left R.remaining self.new) [] }
        ensures item { has_item self.new ≡ has_item self.old }
        ensures mark { has_mark self.new ≡ has_mark self.old }
        ensures line { IfOk result (HasLine (ahead self.new) (R.remaining self.new.source)) }
        ensures filled { IfOk result (λ held.
            IfSome held (λ len. is_blank (take len (ahead self.new)) ≡ false)) }
        ensures err { IfErr result (λ fault. (answered (Err fault) ≡ []) × (is_item (Err fault) ≡ false) × IsNext (passed self.new) (has_item self.old)
            (text_left R.remaining self.new) (ahead self.new) (Err fault)) }
    {
        for _ in 0..u64::MAX {
            let Some(len) = self.lines.hold_line(&mut self.source)? else {
                return Ok(None);
            };
            if !is_blank(self.lines.line(len)) {
                return Ok(Some(len));
            }
            self.lines.pass_line(len);
        }
        // No source gives so many lines.
        Err(ReadFault::from(AllocError))
    }
}
