//! Rows of reports: calls of `column_reports`, and so of the crates that read files and say what
//! columns hold. A row's text is lines of fields, with ` & ` between them in place of line feeds;
//! under `report_file`, `report_file_inferred`, `report_file_noted`, `file_words` and `report_size`
//! it is the bytes of a file in hexadecimal digits, under `differences` and `differences_inferred`
//! such lines of two files with ` | ` between them, under `columns_of_end` those of the end of an
//! Arrow file, behind the number of bytes before it, and under `crs` a metadata text.
use column_check::read_metadata;
use column_files::{FileFault, Form, open, open_end};
use column_reports::{
    ColumnReport, Options, Weighed, finding_words, report_column, report_file, report_of,
};
use json::Scratch;
use rows::asked::Asked;
use same_columns::{Difference, differences};
use std::alloc::{AllocError, Global};

/// What is asked of a report in which notes stand and no type is inferred.
const NOTED: Options = Options {
    infer: false,
    notes: true,
};

/// Says the answer to a text under a command. It is lacking when out of memory before the call.
pub fn answer(it: &mut Asked<'_>) {
    let text = it.said.replaced(it.text, " & ", "\n");
    match it.command {
        "report" => report(it, text.as_bytes(), false, false),
        "report_inferred" => report(it, text.as_bytes(), true, false),
        "report_noted" => report(it, text.as_bytes(), false, true),
        "report_both" => report(it, text.as_bytes(), true, true),
        "report_size" => match hex::decode(it.alloc, it.text) {
            Ok(bytes) => size(it, bytes.as_slice()),
            Err(_) => it.said.fail(),
        },
        "report_file" => report_digits(it, false, false),
        "report_file_inferred" => report_digits(it, true, false),
        "report_file_noted" => report_digits(it, false, true),
        "file_words" => match hex::decode(it.alloc, it.text) {
            Ok(bytes) => words(it, file_words(it.alloc, bytes.as_slice())),
            Err(_) => it.said.fail(),
        },
        "columns_of_end" => end(it),
        "crs" => crs(it),
        "differences" => differing(it, text.as_str(), false),
        "differences_inferred" => differing(it, text.as_str(), true),
        "column_words" => words(it, column_words(it.alloc, text.as_str())),
        _ => it.no_command(),
    }
}

/// Says how many bytes the lines of the report of a file have.
fn size(it: &mut Asked<'_>, bytes: &[u8]) {
    let options = Options {
        infer: false,
        notes: false,
    };
    match report_file(it.alloc, None, bytes, options) {
        Ok(lines) => it.said.shown(&lines.len()),
        Err(fault) => say_fault(it, &fault),
    }
}

/// Says how many columns the end of an Arrow file has.
fn end(it: &mut Asked<'_>) {
    let (start, digits) = it.text.split_once(' ').unwrap_or(("", it.text));
    match (start.parse::<u64>(), hex::decode(it.alloc, digits)) {
        (Ok(start), Ok(end)) => {
            match open_end(it.alloc, Form::ArrowFile, start, end.as_slice()) {
                Ok(opened) => it.said.shown(&opened.columns.len()),
                Err(fault) => say_fault(it, &fault),
            }
        }
        _ => it.said.fail(),
    }
}

/// Says the CRS of a metadata text as reports have it, or `none`; or why the text denotes no values.
fn crs(it: &mut Asked<'_>) {
    let mut scratch = Scratch::new(it.alloc);
    match read_metadata(it.alloc, Some(it.text), &mut scratch) {
        Ok(Ok(metadata)) => match &metadata.crs {
            Some(crs) => it.said.push(crs.as_str()),
            None => it.said.push("none"),
        },
        Ok(Err(fault)) => it.said.name(&fault),
        Err(AllocError) => it.said.fail(),
    }
}

/// Says the report of a file, from its bytes in hexadecimal digits.
fn report_digits(it: &mut Asked<'_>, infer: bool, notes: bool) {
    match hex::decode(it.alloc, it.text) {
        Ok(bytes) => report(it, bytes.as_slice(), infer, notes),
        Err(_) => it.said.fail(),
    }
}

/// Says the report of a file, with ` & ` between its lines.
fn report(it: &mut Asked<'_>, bytes: &[u8], infer: bool, notes: bool) {
    match report_file(it.alloc, None, bytes, Options { infer, notes }) {
        Ok(lines) => {
            for (place, line) in lines.as_str().lines().enumerate() {
                if place > 0 {
                    it.said.push(" & ");
                }
                it.said.push(line);
            }
        }
        Err(fault) => say_fault(it, &fault),
    }
}

/// What is found of the first column that some lines denote, in words, notes among them.
fn column_words(alloc: Global, text: &str) -> Result<Vec<String>, FileFault> {
    match first_report(alloc, text)? {
        Some(report) => Ok(words_of(alloc, report.findings.as_slice())?),
        None => Ok(Vec::new(alloc)),
    }
}

/// What is found of a file, in words, notes among them: of its columns, and of itself.
fn file_words(alloc: Global, bytes: &[u8]) -> Result<Vec<String>, FileFault> {
    let report = report_of(alloc, open(alloc, bytes)?, NOTED)?;
    let mut words = Vec::new(alloc);
    for column in &report.columns {
        add_words(alloc, column.findings.as_slice(), &mut words)?;
    }
    add_words(alloc, report.findings.as_slice(), &mut words)?;
    Ok(words)
}

/// Findings in words.
fn words_of(alloc: Global, findings: &[Weighed<'_>]) -> Result<Vec<String>, AllocError> {
    let mut words = Vec::new(alloc);
    add_words(alloc, findings, &mut words)?;
    Ok(words)
}

/// Adds findings in words.
fn add_words(
    alloc: Global,
    findings: &[Weighed<'_>],
    words: &mut Vec<String>,
) -> Result<(), AllocError> {
    for finding in findings {
        words.push(finding_words(alloc, finding)?)?;
    }
    Ok(())
}

/// What is said of the first column that some lines denote, with the notes.
fn first_report(alloc: Global, text: &str) -> Result<Option<ColumnReport>, FileFault> {
    let opened = open(alloc, text.as_bytes())?;
    let Some(column) = opened.columns.into_iter().next() else {
        return Ok(None);
    };
    let scratch = &mut Scratch::new(alloc);
    Ok(Some(report_column(alloc, scratch, column, NOTED)?))
}

/// Says the words.
fn words(it: &mut Asked<'_>, words: Result<Vec<String>, FileFault>) {
    match words {
        Ok(words) => {
            for word in &words {
                it.said.push("/");
                it.said.push(word.as_str());
            }
        }
        Err(fault) => say_fault(it, &fault),
    }
}

/// Says the differences of two files of lines, with ` & ` between them, or `none`.
fn differing(it: &mut Asked<'_>, text: &str, infer: bool) {
    let (first, other) = text.split_once(" | ").unwrap_or((text, ""));
    match differences_of(it.alloc, first, other, infer) {
        Ok(found) if found.is_empty() => it.said.push("none"),
        Ok(found) => {
            for (place, one) in found.iter().enumerate() {
                if place > 0 {
                    it.said.push(" & ");
                }
                it.said.name(one);
            }
        }
        Err(fault) => say_fault(it, &fault),
    }
}

/// The differences of two files of lines.
fn differences_of(
    alloc: Global,
    first: &str,
    other: &str,
    infer: bool,
) -> Result<Vec<Difference>, FileFault> {
    let options = Options { infer, notes: true };
    let first = report_of(alloc, open(alloc, first.as_bytes())?, options)?;
    let other = report_of(alloc, open(alloc, other.as_bytes())?, options)?;
    Ok(differences(alloc, first.columns.as_slice(), other.columns.as_slice())?)
}

/// Says why a file is not read.
fn say_fault(it: &mut Asked<'_>, fault: &FileFault) {
    match fault {
        FileFault::OutOfMemory => it.said.fail(),
        fault => it.said.name(fault),
    }
}
