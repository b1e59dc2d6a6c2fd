//! The report of a file, as one value.
ghost use Rattle.std.specs.Prelude.{◌≡◌, ◌==◌, ◌||◌, IfOk, is_some, length, map, not};
ghost use Rattle.std.specs.List.{list_any, zip};
ghost use Rattle.arrow_values.specs.Texts.{text_of};
ghost use Rattle.arrow_columns.specs.Column.{column_tree};
ghost use Rattle.column_check.specs.States.{geometry_in};
ghost use Rattle.geoparquet.specs.Facts.{facts_view};
ghost use Rattle.column_reports.specs.Named.{all_known, named_view};
ghost use Rattle.column_reports.specs.FileReport.{AreReported, is_lines, IsReport, Reports};
ghost use Rattle.column_reports.specs.Summary.{has_error};
ghost use Rattle.column_reports.specs.Weights.{plain, weighing};

use crate::capped::kept_of_file;
use crate::finding::Finding;
use crate::gathered::{FileTold, told_of_file};
use crate::geo::source_of;
use crate::lines::json_lines;
use crate::named::{Named, named_in};
use crate::report::{ColumnReport, Known, Options, column_with};
use crate::summary::{Summary, has_error, holds_geometries};
use crate::weighed::{Weighed, weigh};
use crate::weights::Weights;
use arrow_columns::SchemaColumn;
use column_files::{BadLine, BadLines, File, FileFault, Form, open};
use geoparquet::{ColumnFacts, GeoAnswer, inspect_geo};
use json::Scratch;
use parquet_columns::report_budget;
use std::alloc::{AllocError, Global};

/// What is said of a file. Its lines of JSON, its table and its status are made of this.
#[derive(Debug, Drop)]
pub struct FileReport<'a> {
    /// The format of the file.
    pub form: Form,
    /// Its columns, by its GeoParquet metadata (docs/FORMAT.md, 5.2), each with what is said of it.
    pub columns: Vec<ColumnReport>,
    /// What is found of the file, of none of its columns, and shown: of the texts of its footer
    /// (docs/FORMAT.md, 4.3), then of its schemas and keys (4.5), then of its GeoParquet metadata (5).
    /// Of one code at most a hundred, and sixteen that name one column that is not there.
    pub findings: Vec<Weighed<'a>>,
    /// Of lines, those that are not blank and denote no column (docs/FORMAT.md, 2.7).
    pub bad_lines: BadLines,
    /// What counts of the columns, of the findings and of the bad lines.
    pub summary: Summary,
}

/// Returns the report of a file that was opened: what each of its columns holds and what is found
/// of it, where the columns are those by its GeoParquet metadata; the facts of each, by all that says
/// them; its bad lines; and what is found of the file.
/// Errs only when out of memory.
///
/// ```rust
/// let bytes = br#"{"name":"id","nullable":true,"type":"int64"}"#;
/// let Ok(opened) = open(alloc, bytes) else { return Ok(()); };
/// let report = report_of(alloc, opened, Options { infer: false, notes: false })?;
/// assert_eq!(rt; report.columns.len(), 1);
/// assert!(rt; !report.summary.has_failed);
/// ```
pub fn report_of<'a>(
    alloc: Global,
    opened: File<'a>,
    options: Options,
) -> Result<FileReport<'a>, AllocError>
    ensures { IfOk result (IsReport options.infer (plain options.notes) opened.entry) }
{
    let weights = Weights::new(alloc, options.notes);
    weighed_report(alloc, opened, options.infer, &weights)
}

/// Returns the report of a file that was opened, as [`report_of`] does, but that findings count by
/// what is asked of them. A column without an extension name, which no covering names, is taken for
/// what is inferred from its data type, if `infer` says so. Errs only when out of memory.
pub fn weighed_report<'a>(
    alloc: Global,
    opened: File<'a>,
    infer: bool,
    weights: &Weights,
) -> Result<FileReport<'a>, AllocError>
    ensures { IfOk result (IsReport infer (weighing weights.now) opened.entry) }
{
    let File {
        form,
        columns,
        bad_lines,
        elements,
        refuted,
        findings,
        texts,
        geo,
    } = opened;
    let source = source_of(form, &geo);
    let flags = refuted.as_slice();
    let named = named_in(alloc, columns.as_slice(), elements.as_slice(), flags)?;
    let answer = inspect_geo(alloc, source, columns, elements.as_slice())?;
    let GeoAnswer {
        report,
        facts,
        columns,
    } = answer;
    let FileTold {
        before,
        behind,
        of_file,
    } = told_of_file(alloc, form, columns.as_slice(), texts, findings, report)?;
    let shown = weigh(alloc, weights, of_file)?;
    let findings = kept_of_file(alloc, shown)?;
    let about = Abouts {
        facts,
        named,
        before,
        behind,
        alone: is_lines(form),
    };
    let columns = report_columns(alloc, columns, about, infer, weights)?;
    let bad = bad_lines.first.as_slice();
    let summary = summary_of(columns.as_slice(), findings.as_slice(), bad);
    Ok(FileReport {
        form,
        columns,
        findings,
        bad_lines,
        summary,
    })
}

/// Whether a file is of lines, which tell nothing of a column but in its report.
fn is_lines(form: Form) -> bool
    ensures { result ≡ is_lines form }
{
    matches!(form, Form::Lines)
}

/// What is known of columns beside themselves, each in order.
#[derive(Drop)]
struct Abouts<'e> {
    /// Their facts.
    facts: Vec<ColumnFacts>,
    /// Who gives each its extension name, and what its element says beside that.
    named: Vec<Named<'e>>,
    /// What the report of each tells before what is found of the column itself.
    before: Vec<Vec<Finding<'static>>>,
    /// What it tells behind that.
    behind: Vec<Vec<Finding<'static>>>,
    /// Whether their reports tell what is found of their claims.
    alone: bool,
}

/// Returns the reports of columns of which that is known, in order. Errs only when out of memory.
fn report_columns(
    alloc: Global,
    columns: Vec<SchemaColumn>,
    about: Abouts<'_>,
    infer: bool,
    weights: &Weights,
) -> Result<Vec<ColumnReport>, AllocError>
    ensures { IfOk result (λ reported. AreReported infer (weighing weights.now) about.entry.alone (zip (zip (map column_tree columns.items) (all_known (map facts_view about.entry.facts.items) (map named_view about.entry.named.items)))
        (zip (map (λ own. own.items) about.entry.before.items) (map (λ own. own.items) about.entry.behind.items))) reported.items) }
{
    let Abouts {
        facts,
        named,
        before,
        behind,
        alone,
    } = about;
    let mut scratch = Scratch::new(alloc);
    let mut reported = Vec::new(alloc);
    let known = facts.into_iter().zip(named.into_iter());
    let told = before.into_iter().zip(behind.into_iter());
    let known = columns.into_iter().zip(known);
    for ((column, (facts, named)), (before, behind)) in known.zip(told) {
        let about = Known {
            facts,
            named,
            before,
            behind,
            alone,
        };
        let said = column_with(alloc, &mut scratch, column, about, infer, weights)?;
        reported.push(said)?;
    }
    Ok(reported)
}

/// Returns what counts of columns, of what is found of a file, and of its bad lines.
fn summary_of(columns: &[ColumnReport], findings: &[Weighed<'_>], bad: &[BadLine]) -> Summary
    ensures geometry { result.has_geometry ≡ list_any (λ r. is_some (geometry_in r.finding)) columns.now }
    ensures failed { result.has_failed ≡ (list_any (λ r. has_error r.findings.items) columns.now || has_error findings.now) }
    ensures bad { result.has_bad_lines ≡ not (length bad.now == 0) }
{
    Summary {
        has_geometry: is_one_geometry(columns),
        has_failed: is_one_failed(columns) | has_error(findings),
        has_bad_lines: !bad.is_empty(),
    }
}

/// Whether one of some columns holds geometries, or is taken for some.
fn is_one_geometry(columns: &[ColumnReport]) -> bool
    ensures { result ≡ list_any (λ r. is_some (geometry_in r.finding)) columns.now }
{
    columns.iter().any(|said| holds_geometries(&said.finding))
}

/// Whether an error is found of one of some columns.
fn is_one_failed(columns: &[ColumnReport]) -> bool
    ensures { result ≡ list_any (λ r. has_error r.findings.items) columns.now }
{
    columns
        .iter()
        .any(|said| has_error(said.findings.as_slice()))
}

/// Returns the report of a file, from its bytes, as lines of JSON: what each of its columns holds
/// and what is found of it; and behind these lines one for each bad line (docs/FORMAT.md, 2.8), and
/// one for each finding of the file, of notes where notes are asked for (docs/FORMAT.md, 2.5 and
/// 5.1). `file` is the name that the lines give the file, if any.
///
/// Errs as `open` of `column_files` does; with `ReportTooLarge` where the lines have more bytes than
/// `report_budget` of the length of the file (docs/FORMAT.md, 2.5); and when out of memory.
///
/// ```rust
/// let options = Options { infer: false, notes: false };
/// let lines = report_file(alloc, None, br#"{"name":"id","nullable":true,"type":"int64"}"#, options);
/// let Ok(lines) = lines else { return Ok(()); };
/// let line = "{\"kind\":\"column\",\"index\":0,\"column\":\"id\",\"state\":\"plain\",\"type\":\"int64\"}\n";
/// assert_eq!(rt; lines.as_str(), line);
/// ```
pub fn report_file(
    alloc: Global,
    file: Option<&str>,
    bytes: &[u8],
    options: Options,
) -> Result<String, FileFault>
    ensures { Reports (text_of file.entry) options bytes.now result }
{
    let limit = report_budget(bytes.len());
    match open(alloc, bytes) {
        Ok(opened) => {
            let report = report_of(alloc, opened, options)?;
            json_lines(alloc, file, &report, limit)
        }
        Err(fault) => Err(fault),
    }
}
