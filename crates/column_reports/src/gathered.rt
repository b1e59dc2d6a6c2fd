//! What is found by each source, one behind another.
ghost use Rattle.std.specs.Prelude.{◌≡◌, ◌++◌, IfOk, OnOk, flat_map, map};
ghost use Rattle.std.specs.List.{list_any};
ghost use Rattle.arrow_columns.specs.Column.{column_tree};
ghost use Rattle.geoparquet.specs.Facts.{facts_view};
ghost use Rattle.column_reports.specs.Named.{is_told, is_told_beside_geo, known, named_view};
ghost use Rattle.column_reports.specs.ByColumn.{names_of};
ghost use Rattle.column_reports.specs.Gathered.{if_told, if_before, if_empty, if_behind, if_malformed, if_empty_beside, is_empty, is_behind, of_column};
ghost use Rattle.column_reports.specs.Gathered.{of_texts, of_footer, is_of_letters, if_first, of_geo, geo_told, told_before, told_behind, of_file};

use crate::by_column::by_columns;
use crate::finding::Finding;
use crate::named::{Named, NamedBy};
use arrow_columns::SchemaColumn;
use column_check::{Warning, WarningCode};
use column_files::Form;
use geoparquet::{ColumnFacts, GeoCode, GeoFinding, GeoReport, Version};
use parquet_columns::{FileCode, FileFinding};
use parquet_footer::FooterFinding;
use std::alloc::{AllocError, Global};

/// Findings of a column, by the place of their codes.
#[derive(Drop)]
struct Parted {
    /// Those with a code up to `CrsMalformed`.
    before: Vec<Finding<'static>>,
    /// Those with `CrsEmpty`.
    empty: Vec<Finding<'static>>,
    /// Those with a code behind that.
    behind: Vec<Finding<'static>>,
}

/// Returns what is found of a column of those facts, which has its extension name by that, as
/// findings: of itself, but what is told of its member of `columns`; and that the CRS that its
/// element says beside it is no PROJJSON, or an empty text. Errs only when out of memory.
pub(crate) fn of_column(
    alloc: Global,
    named: Named<'_>,
    facts: &ColumnFacts,
    column: &SchemaColumn,
    own: Vec<Warning>,
    beside: Vec<Warning>,
) -> Result<Vec<Finding<'static>>, AllocError>
    ensures { IfOk result (λ all. all.items ≡ of_column (known (facts_view facts.now, named_view named.entry)) (column_tree column.now) own.items beside.items) }
{
    let mut parted = Parted {
        before: Vec::new(alloc),
        empty: Vec::new(alloc),
        behind: Vec::new(alloc),
    };
    for warning in own {
        add_by_order(&mut parted, named, facts, column, warning)?;
    }
    joined(alloc, parted, beside)
}

/// Adds a finding of a column, if it is told of it, to those of the place of its code.
fn add_by_order(
    parted: &mut Parted,
    named: Named<'_>,
    facts: &ColumnFacts,
    column: &SchemaColumn,
    warning: Warning,
) -> Result<(), AllocError>
    ensures before { OnOk result (parted.new.before.items ≡ parted.old.before.items ++ if_before (known (facts_view facts.now, named_view named.entry)) (column_tree column.now) warning) }
    ensures empty { OnOk result (parted.new.empty.items ≡ parted.old.empty.items ++ if_empty (known (facts_view facts.now, named_view named.entry)) (column_tree column.now) warning) }
    ensures behind { OnOk result (parted.new.behind.items ≡ parted.old.behind.items ++ if_behind (known (facts_view facts.now, named_view named.entry)) (column_tree column.now) warning) }
{
    if is_empty(warning.code) {
        add_told(&mut parted.empty, named, facts, column, warning)
    } else if is_behind(warning.code) {
        add_told(&mut parted.behind, named, facts, column, warning)
    } else {
        add_told(&mut parted.before, named, facts, column, warning)
    }
}

/// Returns findings of a column, among which stands, behind those of the same code, that the CRS
/// that its element says beside it is no PROJJSON, or an empty text. Errs only when out of memory.
fn joined(
    alloc: Global,
    parted: Parted,
    beside: Vec<Warning>,
) -> Result<Vec<Finding<'static>>, AllocError>
    ensures { IfOk result (λ all. all.items ≡ parted.before.items ++ flat_map if_malformed beside.items
        ++ parted.empty.items ++ flat_map if_empty_beside beside.items ++ parted.behind.items) }
{
    let Parted {
        before,
        empty,
        behind,
    } = parted;
    let mut all = before;
    let mut empties = Vec::new(alloc);
    for warning in beside {
        add_beside(&mut all, &mut empties, warning)?;
    }
    add_behind(&mut all, empty)?;
    add_behind(&mut all, empties)?;
    add_behind(&mut all, behind)?;
    Ok(all)
}

/// Adds a finding of extension metadata that an element says: of a CRS that is no PROJJSON to those
/// before, of one that is an empty text to those of such texts.
fn add_beside(
    before: &mut Vec<Finding<'static>>,
    empty: &mut Vec<Finding<'static>>,
    warning: Warning,
) -> Result<(), AllocError>
    ensures before { OnOk result (before.new.items ≡ before.old.items ++ if_malformed warning) }
    ensures empty { OnOk result (empty.new.items ≡ empty.old.items ++ if_empty_beside warning) }
{
    match warning.code {
        WarningCode::CrsMalformed => before.push(Finding::Column(NamedBy::Element, warning))?,
        WarningCode::CrsEmpty => empty.push(Finding::Column(NamedBy::Element, warning))?,
        _ => {}
    }
    Ok(())
}

/// Adds a finding of a column, if it is told of it.
fn add_told(
    all: &mut Vec<Finding<'static>>,
    named: Named<'_>,
    facts: &ColumnFacts,
    column: &SchemaColumn,
    warning: Warning,
) -> Result<(), AllocError>
    ensures { OnOk result (all.new.items ≡ all.old.items ++ if_told (known (facts_view facts.now, named_view named.entry)) (column_tree column.now) warning) }
{
    if is_told(named, facts, column, &warning) {
        all.push(Finding::Column(named.by, warning))?;
    }
    Ok(())
}

/// Whether a code is that of a CRS that is an empty text.
fn is_empty(code: WarningCode) -> bool
    ensures { result ≡ is_empty code }
{
    matches!(code, WarningCode::CrsEmpty)
}

/// Whether a code stands behind `CrsEmpty` in the order of codes.
fn is_behind(code: WarningCode) -> bool
    ensures { result ≡ is_behind code }
{
    matches!(
        code,
        WarningCode::CrsTypeContradicts
            | WarningCode::CrsWkt1
            | WarningCode::CrsWithoutType
            | WarningCode::CrsNumber
            | WarningCode::CrsNotWhole
    )
}

/// Adds findings behind others.
fn add_behind<'a>(
    all: &mut Vec<Finding<'a>>,
    behind: Vec<Finding<'static>>,
) -> Result<(), AllocError>
    ensures { OnOk result (all.new.items ≡ all.old.items ++ behind.entry.items) }
{
    for finding in behind {
        all.push(finding)?;
    }
    Ok(())
}

/// Whether a finding is told of a column to which its member of `columns` gives its extension name:
/// none is of the extension metadata, and of a layout of which `GeoLayout` is found only what lies
/// below.
fn is_told_beside_geo(contradicts: bool, warning: &Warning) -> bool
    ensures { result ≡ is_told_beside_geo contradicts warning.now }
{
    warning.pointer.is_none()
        && (!contradicts || matches!(warning.code, WarningCode::NestedGeometry))
}

/// Whether a finding is told of a column.
fn is_told(named: Named<'_>, facts: &ColumnFacts, column: &SchemaColumn, warning: &Warning) -> bool
    ensures { result ≡ is_told (known (facts_view facts.now, named_view named.entry)) (column_tree column.now) warning.now }
{
    match named.by {
        NamedBy::Geo => {
            column.extension_type_name().is_none()
                || is_told_beside_geo(facts.layout_contradicts, warning)
        }
        NamedBy::Nobody | NamedBy::Field | NamedBy::Element => true,
    }
}

/// What is told of a file: by its columns, and of itself.
#[derive(Drop)]
pub(crate) struct FileTold<'a> {
    /// What the report of each column tells before what is found of the column itself.
    pub(crate) before: Vec<Vec<Finding<'static>>>,
    /// What it tells behind that.
    pub(crate) behind: Vec<Vec<Finding<'static>>>,
    /// What is told of the file itself.
    pub(crate) of_file: Vec<Finding<'a>>,
}

/// Returns what is told of a file of that format and these columns: of its schemas and keys and, but
/// of lines, of its GeoParquet metadata by the columns that it names; and of the file, of the texts of
/// its footer, too, what names none. Errs only when out of memory.
pub(crate) fn told_of_file<'a>(
    alloc: Global,
    form: Form,
    columns: &[SchemaColumn],
    texts: Vec<FooterFinding<'a>>,
    found: Vec<FileFinding>,
    report: GeoReport,
) -> Result<FileTold<'a>, AllocError>
    ensures before { IfOk result (λ told. map (λ own. own.items) told.before.items ≡ told_before (names_of (map column_tree columns.now)) found.items) }
    ensures behind { IfOk result (λ told. map (λ own. own.items) told.behind.items ≡ told_behind form (names_of (map column_tree columns.now)) found.items report) }
    ensures file { IfOk result (λ told. told.of_file.items ≡ of_file form (names_of (map column_tree columns.now)) texts.entry.items found.items report) }
{
    let said = has_letters(found.as_slice());
    let footer = of_footer(alloc, found)?;
    let geo = geo_told(alloc, form, said, report)?;
    let footer = by_columns(alloc, columns, footer)?;
    let geo = by_columns(alloc, columns, geo)?;
    let mut of_file = of_texts(alloc, texts.as_slice())?;
    add_behind(&mut of_file, footer.others)?;
    add_behind(&mut of_file, geo.others)?;
    Ok(FileTold {
        before: footer.of_columns,
        behind: geo.of_columns,
        of_file,
    })
}

/// What is found in GeoParquet metadata, and against them; of lines nothing.
fn geo_told(
    alloc: Global,
    form: Form,
    said: bool,
    report: GeoReport,
) -> Result<Vec<Finding<'static>>, AllocError>
    ensures { IfOk result (λ all. all.items ≡ geo_told form said report) }
{
    match form {
        Form::Lines => Ok(Vec::new(alloc)),
        _ => of_geo(alloc, said, report),
    }
}

/// What is found of the texts of a footer.
fn of_texts<'a>(alloc: Global, texts: &[FooterFinding<'a>]) -> Result<Vec<Finding<'a>>, AllocError>
    ensures { IfOk result (λ all. all.items ≡ of_texts texts.now) }
{
    let mut all = Vec::new(alloc);
    for text in texts {
        all.push(Finding::Text(*text))?;
    }
    Ok(all)
}

/// What is found of schemas and keys.
fn of_footer(alloc: Global, found: Vec<FileFinding>) -> Result<Vec<Finding<'static>>, AllocError>
    ensures { IfOk result (λ all. all.items ≡ of_footer found.items) }
{
    let mut all = Vec::new(alloc);
    for finding in found {
        all.push(Finding::File(finding))?;
    }
    Ok(all)
}

/// Whether a finding is of a key that is `geo` but for its letters.
fn is_of_letters(finding: &FileFinding) -> bool
    ensures { result ≡ is_of_letters finding.now }
{
    matches!(finding.code, FileCode::NoGeoMetadata)
}

/// Whether a key that is `geo` but for its letters is found.
fn has_letters(found: &[FileFinding]) -> bool
    ensures { result ≡ list_any is_of_letters found.now }
{
    found.iter().any(|finding| is_of_letters(finding))
}

/// What is found of GeoParquet metadata, but that they are missing, where that is said.
fn of_geo(alloc: Global, said: bool, report: GeoReport) -> Result<Vec<Finding<'static>>, AllocError>
    ensures { IfOk result (λ all. all.items ≡ of_geo said report) }
{
    let GeoReport { version, findings } = report;
    let mut all = Vec::new(alloc);
    for finding in findings {
        add_first(&mut all, said, version, finding)?;
    }
    Ok(all)
}

/// Adds a finding, but that metadata are missing, where that is said.
fn add_first(
    all: &mut Vec<Finding<'static>>,
    said: bool,
    version: Version,
    finding: GeoFinding,
) -> Result<(), AllocError>
    ensures { OnOk result (all.new.items ≡ all.old.items ++ if_first said version finding) }
{
    if said && matches!(finding.code, GeoCode::NoMetadata) {
        return Ok(());
    }
    all.push(Finding::Geo(version, finding))?;
    Ok(())
}
