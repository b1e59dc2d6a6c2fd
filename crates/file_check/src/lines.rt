//! The report of lines, of which one at a time is kept.

use crate::asked::{Asked, Output};
use crate::canonical::as_asked;
use crate::columns::{is_in_table, row_of};
use crate::counted::Counted;
use crate::names::named;
use crate::numbers::{Numbers, Tally};
use crate::print::{KEPT_BYTES, Made, named_table, print_made, push_line};
use crate::refusal::{refuse, tell_bad_lines};
use crate::said::print_text;
use crate::screen::shown_findings;
use crate::table::{Row, row_bytes};
use crate::told::{push_column, push_findings};
use crate::unmet::{tell_unmet, unmet_of};
use crate::wants::Found;
use arrow_columns::SchemaColumn;
use column_files::{
    BadLine, BadLines, File, FileFault, Form, GeoText, LineColumns, MAX_LINE_BYTES, ReadFault,
    column_line,
};
use column_reports::{
    ColumnReport, FileReport, Weighed, finding_lines, json_line, report_budget, weighed_column,
    weighed_report,
};
use json::Scratch;
use parquet_columns::FileFinding;
use std::alloc::{AllocError, Global};
use std::io::{Read, Write};
use std::{io, mem};

/// What is made of lines so far.
#[derive(Drop)]
struct LineReport<'a> {
    alloc: Global,
    asked: &'a Asked,
    /// The name of the file.
    file: &'a str,
    scratch: Scratch,
    /// What is not written yet.
    text: String,
    rows: Vec<Row>,
    /// The columns for a stream.
    columns: Vec<SchemaColumn>,
    /// The columns with what is said of them, where files are to be the same.
    reported: Vec<ColumnReport>,
    counted: Counted,
    bad_lines: BadLines,
    /// What is found of the file and shown.
    findings: Vec<Weighed<'static>>,
    /// How many columns there are.
    count: usize,
}

/// Reports the lines of a source, of which the first bytes are read. Returns the status.
pub(crate) fn check_lines<'x, R: Read + Drop, W: Write, E: Write>(
    alloc: Global,
    asked: &'x Asked,
    file: &'x str,
    lines: LineColumns<R>,
    tally: &mut Tally,
    out: &mut W,
    err: &mut E,
) -> io::Result<u8> {
    let mut report = LineReport::new(alloc, asked, file, lines.findings()?)?;
    match report.add_all(lines, tally, out)? {
        None if report.bad_lines.is_empty() => {
            let found = report.found_text(tally)?;
            report.hand_over(tally);
            let mut made = report.made()?;
            made.text.push_str(found.as_str())?;
            print_made(alloc, asked, file, made, tally, out, err)
        }
        None => report.print_beside(tally, out, err),
        Some(fault) => {
            report.write(tally, out)?;
            tell_bad_lines(alloc, asked, file, &report.bad_lines, tally, out, err)?;
            refuse(alloc, asked, file, Form::Lines, fault, tally, out, err)
        }
    }
}

impl<'a> LineReport<'a> {
    /// The report of lines none of which is read yet, and of which that is found.
    fn new(
        alloc: Global,
        asked: &'a Asked,
        file: &'a str,
        findings: Vec<FileFinding>,
    ) -> Result<Self, AllocError> {
        let opened = without_lines(alloc, findings);
        let FileReport {
            findings,
            summary,
            ..
        } = weighed_report(alloc, opened, asked.flags.infer, &asked.weights)?;
        let found = asked
            .wants
            .iter()
            .map(|_| Found::NoColumn(None))
            .collect(alloc)?;
        let mut numbers = Numbers::new();
        numbers.add_findings(findings.as_slice());
        Ok(LineReport {
            alloc,
            asked,
            file,
            scratch: Scratch::new(alloc),
            text: String::new(alloc),
            rows: Vec::new(alloc),
            columns: Vec::new(alloc),
            reported: Vec::new(alloc),
            counted: Counted {
                summary,
                found,
                numbers,
            },
            bad_lines: BadLines::new(alloc),
            findings,
            count: 0,
        })
    }

    /// Adds the columns and the bad lines of all lines, and writes what is to be printed of the
    /// columns as it grows. Returns why the lines are not read to their end.
    fn add_all<R: Read + Drop, W: Write>(
        &mut self,
        lines: LineColumns<R>,
        tally: &mut Tally,
        out: &mut W,
    ) -> io::Result<Option<ReadFault>> {
        let mut lines = lines;
        for _ in 0..u64::MAX {
            let added = match lines.next_column() {
                Ok(Some(column)) => self.add(column, tally),
                Ok(None) => return Ok(None),
                Err(fault) => match bad_line_of(fault) {
                    Ok(bad) => self.add_bad(bad),
                    Err(fault) => return Ok(Some(fault)),
                },
            };
            if let Err(fault) = added {
                return Ok(Some(ReadFault::File(fault)));
            }
            if self.text.len() >= KEPT_BYTES {
                self.write(tally, out)?;
            }
        }
        // No source gives so many lines.
        Ok(Some(ReadFault::File(FileFault::OutOfMemory)))
    }

    /// Adds a column.
    fn add(&mut self, column: SchemaColumn, tally: &mut Tally) -> Result<(), FileFault> {
        let (infer, weights) = (self.asked.flags.infer, &self.asked.weights);
        let said = weighed_column(self.alloc, &mut self.scratch, column, infer, weights)?;
        self.counted.summary.add(&said);
        self.counted.numbers.add_column(&said);
        self.expect(&said)?;
        match self.asked.flags.output() {
            Output::Json => self.add_json(&said)?,
            Output::Table => self.add_row(&said)?,
            Output::Errors | Output::Github | Output::Sarif => self.add_told(&said, tally)?,
            Output::Lines | Output::Ipc => {}
        }
        self.keep(said)?;
        self.count = self.count.saturating_add(1);
        Ok(())
    }

    /// Adds the line of a column; or keeps it for a stream, or to be compared.
    fn keep(&mut self, said: ColumnReport) -> Result<(), AllocError> {
        match self.asked.flags.output() {
            Output::Lines => {
                let column = as_asked(self.alloc, self.asked, &mut self.scratch, said)?;
                let line = column_line(self.alloc, column)?;
                push_line(&mut self.text, line.as_str())?;
            }
            Output::Ipc => {
                let column = as_asked(self.alloc, self.asked, &mut self.scratch, said)?;
                self.columns.push(column)?;
            }
            Output::Json | Output::Table | Output::Errors | Output::Github | Output::Sarif => {
                if self.asked.flags.same {
                    self.reported.push(said)?;
                }
            }
        }
        Ok(())
    }

    /// Adds a bad line. Errs with its fault where it refuses the file.
    fn add_bad(&mut self, bad: BadLine) -> Result<(), FileFault> {
        let is_first = self.count == 0 && self.bad_lines.is_empty();
        if is_first && bad.fault.refuses_file() {
            return Err(FileFault::NoField(bad.before, bad.fault));
        }
        self.counted.summary.has_bad_lines = true;
        self.counted.numbers.add_errors(1);
        Ok(self.bad_lines.add(bad)?)
    }

    /// Looks at a column for each expectation.
    fn expect(&mut self, said: &ColumnReport) -> Result<(), AllocError> {
        for (want, found) in self.asked.wants.iter().zip(self.counted.found.iter_mut()) {
            found.look_at(self.alloc, want, said)?;
        }
        Ok(())
    }

    /// Adds the row of a column, if it has one.
    fn add_row(&mut self, said: &ColumnReport) -> Result<(), FileFault> {
        if !is_in_table(self.asked, said) {
            return Ok(());
        }
        let row = row_of(self.alloc, said)?;
        if row_bytes(&row) as u128 > report_budget(MAX_LINE_BYTES) {
            return Err(FileFault::ReportTooLarge);
        }
        Ok(self.rows.push(row)?)
    }

    /// Adds the line of JSON of a column.
    fn add_json(&mut self, said: &ColumnReport) -> Result<(), FileFault> {
        let file = named(self.file);
        let line = json_line(self.alloc, &mut self.scratch, file, self.count, said)?;
        if line.len() as u128 >= report_budget(MAX_LINE_BYTES) {
            return Err(FileFault::ReportTooLarge);
        }
        Ok(push_line(&mut self.text, line.as_str())?)
    }

    /// Adds the lines of what is found of a column.
    fn add_told(&mut self, said: &ColumnReport, tally: &mut Tally) -> Result<(), FileFault> {
        let mut lines = String::new(self.alloc);
        push_column(self.alloc, self.asked, self.file, said, tally, &mut lines)?;
        if lines.len() as u128 > report_budget(MAX_LINE_BYTES) {
            return Err(FileFault::ReportTooLarge);
        }
        Ok(self.text.push_str(lines.as_str())?)
    }

    /// Gives the tally the columns, where files are to be the same.
    fn hand_over(&mut self, tally: &mut Tally) {
        let reported = mem::replace(&mut self.reported, Vec::new(self.alloc));
        tally.keep(self.asked, reported);
    }

    /// What is found of the file, as it is printed behind the columns and the bad lines.
    fn found_text(&self, tally: &mut Tally) -> Result<String, AllocError> {
        let findings = self.findings.as_slice();
        let mut text = String::new(self.alloc);
        match self.asked.flags.output() {
            Output::Json => return finding_lines(self.alloc, named(self.file), findings),
            Output::Table => return shown_findings(self.alloc, self.asked, findings),
            Output::Errors | Output::Github | Output::Sarif => {
                let (asked, file) = (self.asked, self.file);
                push_findings(self.alloc, asked, file, None, findings, tally, &mut text)?;
            }
            Output::Lines | Output::Ipc => {}
        }
        Ok(text)
    }

    /// Writes what is not written yet.
    fn write<W: Write>(&mut self, tally: &mut Tally, out: &mut W) -> io::Result<()> {
        print_text(self.asked, self.text.as_str(), tally, out)?;
        self.text.clear();
        Ok(())
    }

    /// Prints what is made of all lines, some of which are bad, and what is found of the file, and
    /// says what is asked of it and not met. No stream is written. Returns the status.
    fn print_beside<W: Write, E: Write>(
        self,
        tally: &mut Tally,
        out: &mut W,
        err: &mut E,
    ) -> io::Result<u8> {
        let mut report = self;
        let (alloc, asked, file) = (report.alloc, report.asked, report.file);
        let bad_lines = mem::replace(&mut report.bad_lines, BadLines::new(alloc));
        let found = report.found_text(tally)?;
        report.hand_over(tally);
        let made = report.made()?;
        print_text(asked, made.text.as_str(), tally, out)?;
        tell_bad_lines(alloc, asked, file, &bad_lines, tally, out, err)?;
        print_text(asked, found.as_str(), tally, out)?;
        let unmet = unmet_of(alloc, asked, &made.counted)?;
        tally.add_file(made.counted.numbers, unmet.len());
        tell_unmet(alloc, asked, file, unmet, tally, out, err)?;
        Ok(made.counted.status(asked))
    }

    /// What is made of all lines, and not written yet.
    fn made(self) -> Result<Made, AllocError> {
        let LineReport {
            alloc,
            asked,
            file,
            scratch: _,
            text,
            mut rows,
            columns,
            reported: _,
            counted,
            bad_lines: _,
            findings,
            count: _,
        } = self;
        let text = match asked.flags.output() {
            Output::Table => {
                named_table(
                    alloc,
                    asked,
                    file,
                    rows.as_mut_slice(),
                    !findings.is_empty(),
                )?
            }
            Output::Json
            | Output::Errors
            | Output::Github
            | Output::Sarif
            | Output::Lines
            | Output::Ipc => text,
        };
        Ok(Made {
            text,
            columns,
            counted,
        })
    }
}

/// The bad line that a fault is of, or the fault where it is of no line.
fn bad_line_of(fault: ReadFault) -> Result<BadLine, ReadFault> {
    match fault {
        ReadFault::File(fault) => match fault {
            FileFault::NoField(before, fault) => Ok(BadLine { before, fault }),
            fault => Err(ReadFault::File(fault)),
        },
        ReadFault::Input(error) => Err(ReadFault::Input(error)),
        ReadFault::LongLine(count) => Err(ReadFault::LongLine(count)),
    }
}

/// Lines of which that is found, without those that are columns or bad.
fn without_lines(alloc: Global, findings: Vec<FileFinding>) -> File<'static> {
    File {
        form: Form::Lines,
        columns: Vec::new(alloc),
        bad_lines: BadLines::new(alloc),
        elements: Vec::new(alloc),
        refuted: Vec::new(alloc),
        findings,
        texts: Vec::new(alloc),
        geo: GeoText::Absent,
    }
}
