//! The report of a file as lines of JSON.
ghost use Rattle.std.specs.Prelude.{◌≡◌, ◌≤◌, ◌<◌, ◌++◌, OnOk, MatchBool, length, string_bytes};
ghost use Rattle.arrow_values.specs.Texts.{text_of};
ghost use Rattle.column_reports.specs.FileReport.{line_of, lines_of, report_text, IsWithin};

use crate::bad_lines::bad_line_lines;
use crate::file::FileReport;
use crate::line::json_line;
use crate::report::ColumnReport;
use crate::shown_lines::finding_lines;
use column_files::FileFault;
use json::Scratch;
use std::alloc::{AllocError, Global};

/// Returns the report of a file as lines of JSON, each with its line feed: one for each column
/// (docs/FORMAT.md, 2.5), and behind them one for each bad line (docs/FORMAT.md, 2.8), and one for
/// each finding of the file that is shown (docs/FORMAT.md, 5.1). `file` is the name that the lines give the file, if any.
///
/// Errs with `ReportTooLarge` where the lines have more than `limit` bytes, as soon as those of the
/// first columns have; and when out of memory.
pub fn json_lines(
    alloc: Global,
    file: Option<&str>,
    report: &FileReport<'_>,
    limit: u128,
) -> Result<String, FileFault>
    ensures { IsWithin limit (report_text (text_of file.entry) report.now) result }
{
    match column_lines(alloc, file, report.columns.as_slice(), limit) {
        Ok(lines) => {
            let mut behind = bad_line_lines(alloc, file, &report.bad_lines)?;
            let findings = finding_lines(alloc, file, report.findings.as_slice())?;
            behind.push_str(findings.as_str())?;
            let mut text = lines;
            text.push_str(behind.as_str())?;
            within(text, limit)
        }
        Err(fault) => Err(fault),
    }
}

/// The lines of columns.
fn column_lines(
    alloc: Global,
    file: Option<&str>,
    columns: &[ColumnReport],
    limit: u128,
) -> Result<String, FileFault>
    ensures { IsWithin limit (lines_of (text_of file.entry) 0 columns.now) result }
{
    let mut scratch = Scratch::new(alloc);
    let mut text = String::new(alloc);
    let mut index = 0_usize;
    for said in columns {
        add_line(alloc, &mut scratch, &mut text, file, index, said)?;
        if is_past(&text, limit) {
            return Err(FileFault::ReportTooLarge);
        }
        index += 1;
    }
    Ok(text)
}

/// Adds the line of a column, with its line feed.
fn add_line(
    alloc: Global,
    scratch: &mut Scratch,
    text: &mut String,
    file: Option<&str>,
    index: usize,
    said: &ColumnReport,
) -> Result<(), AllocError>
    ensures { OnOk result (string_bytes text.new ≡ string_bytes text.old ++ line_of (text_of file.entry) index said.now) }
{
    let line = json_line(alloc, scratch, file, index, said)?;
    text.push_str(line.as_str())?;
    text.push_str("\n")
}

/// Whether a text has more bytes than that.
fn is_past(text: &String, limit: u128) -> bool
    ensures { MatchBool result (limit < length (string_bytes text.now)) (length (string_bytes text.now) ≤ limit) }
{
    text.len() as u128 > limit
}

/// A text, where it has at most that many bytes.
fn within(text: String, limit: u128) -> Result<String, FileFault>
    ensures { IsWithin limit (string_bytes text) result }
{
    if is_past(&text, limit) {
        return Err(FileFault::ReportTooLarge);
    }
    Ok(text)
}
