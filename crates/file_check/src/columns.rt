//! What is said of a column, as a row of a table.
ghost use Rattle.std.specs.Prelude.{◌≡◌, ◌++◌, [], None, Some, IfOk, OnOk, map, option_map, string_bytes};
ghost use Rattle.std.specs.List.{list_any};
ghost use Rattle.std.specs.Option.{unwrap_or};
ghost use Rattle.column_check.specs.Severities.{is_error_of};
ghost use Rattle.arrow_columns.specs.Column.{column_tree};
ghost use Rattle.geoparquet.specs.Facts.{facts_view};
ghost use Rattle.column_reports.specs.FindingWords.{finding_words};
ghost use Rattle.column_reports.specs.Report.{type_word};
ghost use Rattle.file_check.specs.Table.{line_of, cut};
ghost use Rattle.file_check.specs.Columns.{behind, extension_word, facts_of, held, kind_shown, is_warning_of, row_of, worst_of};
ghost use Rattle.file_check.specs.Crs.{crs_that_counts, edges_that_count};
ghost use Rattle.file_check.specs.Shown.{shown};

use crate::asked::Asked;
use crate::cell::cut;
use crate::crs::{crs_that_counts, edges_that_count};
use crate::table::Row;
use crate::text::shown;
use arrow_columns::SchemaColumn;
use column_check::{Finding, Reasons, Severity};
use column_reports::{ColumnReport, Weighed, finding_words, type_word};
use geoarrow_layout::{Kind, coord_type_word, dimension_word, kind_word};
use geoparquet::ColumnFacts;
use std::alloc::{AllocError, Global};

/// Returns the row of a column: the worst severity of what is found of it; its name; of geometries
/// the kind, with the coordinate type and the dimension that it has, or the type of another
/// column, and `invalid` or `extension` with the extension name; the CRS and the edges of
/// geometries that count; and below it what is found of it (`docs/FORMAT.md`, 2.5 to 2.7). Cells
/// are cut by [`cut`], and hidden characters shown by their numbers. Errs only when out of memory.
pub fn row_of(alloc: Global, report: &ColumnReport) -> Result<Row, AllocError>
    ensures { IfOk result (λ row. line_of row ≡ row_of report.now) }
{
    let finding = &report.finding;
    Ok(Row {
        mark: worst_of(report.findings.as_slice()),
        name: name_cell(alloc, &report.column)?,
        holds: held_cell(alloc, &report.column, finding)?,
        crs: crs_cell(alloc, facts_of(report))?,
        edges: edges_cell(alloc, facts_of(report))?,
        notes: notes_of(alloc, report.findings.as_slice())?,
    })
}

/// Whether a column has a row in a table: with `--problems` only where it is invalid, or something
/// is found of it and shown.
pub(crate) fn is_in_table(asked: &Asked, report: &ColumnReport) -> bool {
    !asked.flags.problems || report.finding.is_invalid() || !report.findings.is_empty()
}

/// The worst severity of findings, if there are any.
fn worst_of(found: &[Weighed<'_>]) -> Option<Severity>
    ensures { result ≡ worst_of found.now }
{
    if found.is_empty() {
        None
    } else if has_error(found) {
        Some(Severity::Error)
    } else if has_warning(found) {
        Some(Severity::Warning)
    } else {
        Some(Severity::Note)
    }
}

/// Whether a finding is an error.
fn has_error(found: &[Weighed<'_>]) -> bool
    ensures { result ≡ list_any (λ w. is_error_of w.severity) found.now }
{
    found.iter().any(|one| one.severity.is_error())
}

/// Whether a finding is a warning.
fn has_warning(found: &[Weighed<'_>]) -> bool
    ensures { result ≡ list_any (λ w. is_warning_of w.severity) found.now }
{
    found
        .iter()
        .any(|one| matches!(one.severity, Severity::Warning))
}

/// The name of a column, as a cell.
fn name_cell(alloc: Global, column: &SchemaColumn) -> Result<String, AllocError>
    ensures { IfOk result (λ cell. string_bytes cell ≡ cut (shown (string_bytes column.now.name))) }
{
    let name = shown(alloc, column.name.as_str())?;
    cut(alloc, name.as_str())
}

/// What a column holds, as a cell.
fn held_cell(alloc: Global, column: &SchemaColumn, finding: &Finding) -> Result<String, AllocError>
    ensures { IfOk result (λ cell. string_bytes cell ≡ cut (held (column_tree column.now) finding.now)) }
{
    let held = held(alloc, column, finding)?;
    cut(alloc, held.as_str())
}

/// What a column holds.
fn held(alloc: Global, column: &SchemaColumn, finding: &Finding) -> Result<String, AllocError>
    ensures { IfOk result (λ text. string_bytes text ≡ held (column_tree column.now) finding.now) }
{
    match finding {
        Finding::Geometry(geometry) => kind_shown(alloc, geometry.kind),
        Finding::Inferred(geometry) => {
            let word = kind_shown(alloc, geometry.kind)?;
            joined(alloc, "taken for ", word.as_str())
        }
        Finding::Plain => type_shown(alloc, column),
        Finding::Invalid(Reasons::Unread) => type_shown(alloc, column),
        Finding::Invalid(_) => extension_shown(alloc, "invalid ", column),
        Finding::Extension => extension_shown(alloc, "extension ", column),
    }
}

/// The kind of geometries, their coordinate type and their dimension, where they have these.
fn kind_shown(alloc: Global, kind: Kind) -> Result<String, AllocError>
    ensures { IfOk result (λ text. string_bytes text ≡ kind_shown kind) }
{
    let mut text = String::from_str(alloc, kind_word(kind))?;
    if let Some(coord_type) = kind.coord_type() {
        push_behind(&mut text, coord_type_word(Some(coord_type)))?;
    }
    if let Some(dimension) = kind.dimension() {
        push_behind(&mut text, dimension_word(Some(dimension)))?;
    }
    Ok(text)
}

/// Adds a word behind a blank.
fn push_behind(text: &mut String, word: &str) -> Result<(), AllocError>
    ensures { OnOk result (string_bytes text.new ≡ string_bytes text.old ++ behind word.now) }
{
    text.push_str(" ")?;
    text.push_str(word)
}

/// The type of a column that holds no geometries.
fn type_shown(alloc: Global, column: &SchemaColumn) -> Result<String, AllocError>
    ensures { IfOk result (λ text. string_bytes text ≡ shown (type_word (column_tree column.now) None)) }
{
    let word = type_word(alloc, column, None)?;
    shown(alloc, word.as_str())
}

/// A word, and the extension name of a column.
fn extension_shown(alloc: Global, word: &str, column: &SchemaColumn) -> Result<String, AllocError>
    ensures { IfOk result (λ text. string_bytes text ≡ word.now ++ shown (extension_word (column_tree column.now))) }
{
    let name = shown(alloc, column.extension_type_name().unwrap_or(""))?;
    joined(alloc, word, name.as_str())
}

/// Two texts, one behind the other.
fn joined(alloc: Global, one: &str, other: &str) -> Result<String, AllocError>
    ensures { IfOk result (λ text. string_bytes text ≡ one.now ++ other.now) }
{
    let mut text = String::from_str(alloc, one)?;
    text.push_str(other)?;
    Ok(text)
}

/// The facts of geometries.
fn facts_of(report: &ColumnReport) -> Option<&ColumnFacts>
    ensures { option_map (λ f. facts_view f.now) result ≡ facts_of report.now }
{
    match report.finding.geometry() {
        Some(_) => Some(&report.facts),
        None => None,
    }
}

/// The CRS of geometries, as a cell.
fn crs_cell(alloc: Global, facts: Option<&ColumnFacts>) -> Result<String, AllocError>
    ensures { IfOk result (λ text. string_bytes text ≡ unwrap_or (option_map crs_that_counts (option_map (λ f. facts_view f.now) facts.entry)) []) }
{
    match facts {
        Some(facts) => crs_that_counts(alloc, facts),
        None => Ok(String::new(alloc)),
    }
}

/// The edges of geometries, as a cell.
fn edges_cell(alloc: Global, facts: Option<&ColumnFacts>) -> Result<String, AllocError>
    ensures { IfOk result (λ text. string_bytes text ≡ unwrap_or (option_map edges_that_count (option_map (λ f. facts_view f.now) facts.entry)) []) }
{
    match facts {
        Some(facts) => edges_that_count(alloc, facts),
        None => Ok(String::new(alloc)),
    }
}

/// What is found of a column, as its row shows it.
fn notes_of(alloc: Global, found: &[Weighed<'_>]) -> Result<Vec<String>, AllocError>
    ensures { IfOk result (λ notes. map string_bytes notes.items ≡ map shown (map finding_words found.now)) }
{
    let found = words_of(alloc, found)?;
    let mut notes = Vec::new(alloc);
    add_shown(alloc, &mut notes, found.as_slice())?;
    Ok(notes)
}

/// Findings in words.
fn words_of(alloc: Global, found: &[Weighed<'_>]) -> Result<Vec<String>, AllocError>
    ensures { IfOk result (λ words. map string_bytes words.items ≡ map finding_words found.now) }
{
    let mut words = Vec::new(alloc);
    for finding in found {
        words.push(finding_words(alloc, finding)?)?;
    }
    Ok(words)
}

/// Adds texts as they are shown.
fn add_shown(alloc: Global, notes: &mut Vec<String>, words: &[String]) -> Result<(), AllocError>
    ensures { OnOk result (map string_bytes notes.new.items ≡ map string_bytes notes.old.items ++ map shown (map string_bytes words.now)) }
{
    for word in words {
        notes.push(shown(alloc, word.as_str())?)?;
    }
    Ok(())
}
