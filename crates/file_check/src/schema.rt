//! What is made of a file that has a schema, by the bytes that hold it.
ghost use Rattle.std.specs.Prelude.{IfErr};
ghost use Rattle.file_check.specs.Made.{IsPastTable, MakesText, MakesOf, MakesOfEnd};

use crate::asked::{Asked, Output};
use crate::canonical::as_asked;
use crate::columns::{is_in_table, row_of};
use crate::counted::{Counted, found_in};
use crate::names::named;
use crate::numbers::{Numbers, Tally};
use crate::print::{Made, named_table};
use crate::screen::shown_findings;
use crate::table::row_bytes;
use crate::told::{push_column, push_findings};
use arrow_columns::SchemaColumn;
use column_files::{FileFault, Form, open_end};
use column_reports::{ColumnReport, FileReport, json_lines, report_budget, weighed_report};
use json::Scratch;
use std::alloc::{AllocError, Global};

/// What is made of a file in that format by its end, before which so many bytes stand.
pub(crate) fn made_of_end(
    alloc: Global,
    asked: &Asked,
    file: &str,
    form: Form,
    start: u64,
    end: &[u8],
    tally: &mut Tally,
) -> Result<Made, FileFault>
    ensures { MakesOfEnd asked.now file.now form start end.now result }
{
    let limit = report_budget(end.len());
    match open_end(alloc, form, start, end) {
        Ok(opened) => {
            let report = weighed_report(alloc, opened, asked.flags.infer, &asked.weights)?;
            made_of(alloc, asked, file, report, limit, tally)
        }
        Err(fault) => Err(fault),
    }
}

/// What is made of a report, within a limit of its bytes.
fn made_of(
    alloc: Global,
    asked: &Asked,
    file: &str,
    report: FileReport<'_>,
    limit: u128,
    tally: &mut Tally,
) -> Result<Made, FileFault>
    ensures { MakesOf asked.now file.now limit report.entry result }
{
    let found = found_in(alloc, asked.wants.as_slice(), report.columns.as_slice())?;
    let summary = report.summary;
    let numbers = numbers_of(&report);
    match text_of_report(alloc, asked, file, &report, limit, tally) {
        Ok(text) => Ok(Made {
            text,
            columns: kept_columns(alloc, asked, report.columns, tally)?,
            counted: Counted {
                summary,
                found,
                numbers,
            },
        }),
        Err(fault) => Err(fault),
    }
}

/// How many columns and findings a report has.
fn numbers_of(report: &FileReport<'_>) -> Numbers {
    let mut numbers = Numbers::new();
    for said in &report.columns {
        numbers.add_column(said);
    }
    numbers.add_findings(report.findings.as_slice());
    numbers
}

/// The text of a report that is printed first: lines of JSON, a table, lines of findings, or nothing.
fn text_of_report(
    alloc: Global,
    asked: &Asked,
    file: &str,
    report: &FileReport<'_>,
    limit: u128,
    tally: &mut Tally,
) -> Result<String, FileFault>
    ensures { MakesText asked.now file.now limit report.now result }
{
    match asked.flags.output() {
        Output::Json => json_lines(alloc, named(file), report, limit),
        Output::Table => table_of(alloc, asked, file, report, limit),
        Output::Errors | Output::Github | Output::Sarif => told_of(
            alloc, asked, file, report, limit, tally,
        ),
        Output::Lines | Output::Ipc => Ok(String::new(alloc)),
    }
}

/// The columns that are printed behind that text: as lines of fields, or as a stream. Where none
/// are, the tally keeps them with what is said of them, if files are to be the same.
fn kept_columns(
    alloc: Global,
    asked: &Asked,
    reported: Vec<ColumnReport>,
    tally: &mut Tally,
) -> Result<Vec<SchemaColumn>, AllocError> {
    let mut columns = Vec::new(alloc);
    match asked.flags.output() {
        Output::Lines | Output::Ipc => {
            let mut scratch = Scratch::new(alloc);
            for said in reported {
                columns.push(as_asked(alloc, asked, &mut scratch, said)?)?;
            }
        }
        Output::Json | Output::Table | Output::Errors | Output::Github | Output::Sarif => {
            tally.keep(asked, reported);
        }
    }
    Ok(columns)
}

/// The table of columns, with the findings behind it, where both have at most that many bytes.
fn table_of(
    alloc: Global,
    asked: &Asked,
    file: &str,
    report: &FileReport<'_>,
    limit: u128,
) -> Result<String, FileFault>
    ensures { IfErr result IsPastTable }
{
    let findings = shown_findings(alloc, asked, report.findings.as_slice())?;
    let mut rows = Vec::new(alloc);
    let mut size = findings.len() as u128;
    for said in &report.columns {
        if is_in_table(asked, said) {
            let row = row_of(alloc, said)?;
            size = size.saturating_add(row_bytes(&row) as u128);
            rows.push(row)?;
        }
        if size > limit {
            return Err(FileFault::ReportTooLarge);
        }
    }
    let mut text = named_table(
        alloc,
        asked,
        file,
        rows.as_mut_slice(),
        !findings.is_empty(),
    )?;
    text.push_str(findings.as_str())?;
    Ok(text)
}

/// The lines of all that is found and shown, where they have at most that many bytes.
fn told_of(
    alloc: Global,
    asked: &Asked,
    file: &str,
    report: &FileReport<'_>,
    limit: u128,
    tally: &mut Tally,
) -> Result<String, FileFault>
    ensures { IfErr result IsPastTable }
{
    let mut text = String::new(alloc);
    for said in &report.columns {
        push_column(alloc, asked, file, said, tally, &mut text)?;
        if text.len() as u128 > limit {
            return Err(FileFault::ReportTooLarge);
        }
    }
    let findings = report.findings.as_slice();
    push_findings(alloc, asked, file, None, findings, tally, &mut text)?;
    Ok(text)
}
