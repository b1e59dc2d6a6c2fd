//! What is found of a file, by the columns that it is of.
ghost use Rattle.std.specs.Prelude.{◌≡◌, [], ◌∷◌, ◌++◌, IfOk, OnOk, List, Some, None, bytes_eq, map, option_map, string_bytes, if◌then◌else◌};
ghost use Rattle.arrow_values.specs.Tree.{Text};
ghost use Rattle.arrow_columns.specs.Column.{column_tree};
ghost use Rattle.column_reports.specs.Found.{column_in};
ghost use Rattle.column_reports.specs.ByColumn.{nameless, by_columns, of_no_column, names_of, is_named, if_unnamed, or_nothing, found_at, AreBy};
ghost use Rattle.column_reports.specs.declared.finding.Finding.{Finding as AnyFinding};

use crate::asked::AskedFinding;
use crate::finding::Finding;
use arrow_columns::SchemaColumn;
use geoparquet::GeoFinding;
use parquet_columns::FileFinding;
use std::alloc::{AllocError, Global};
use std::collections::BTreeMap;

/// Findings by the name of their column.
pub(crate) type ByName = BTreeMap<String, Vec<Finding<'static>>>;

/// Findings of a file, by the columns that they are of.
#[derive(Drop)]
pub(crate) struct ByColumn {
    /// Those of each column, in order.
    pub(crate) of_columns: Vec<Vec<Finding<'static>>>,
    /// Those of no column.
    pub(crate) others: Vec<Finding<'static>>,
}

/// Returns findings by the columns that they name: those of several columns of one name are of the
/// first. Errs only when out of memory.
pub(crate) fn by_columns(
    alloc: Global,
    columns: &[SchemaColumn],
    findings: Vec<Finding<'static>>,
) -> Result<ByColumn, AllocError>
    ensures columns { IfOk result (λ by. map (λ own. own.items) by.of_columns.items ≡ by_columns (names_of (map column_tree columns.now)) findings.entry.items) }
    ensures others { IfOk result (λ by. by.others.items ≡ of_no_column (names_of (map column_tree columns.now)) findings.entry.items) }
{
    let mut named = names_in(alloc, columns)?;
    let mut others = Vec::new(alloc);
    for finding in findings {
        add(alloc, &mut named, &mut others, finding)?;
    }
    let of_columns = taken(alloc, columns, named)?;
    Ok(ByColumn { of_columns, others })
}

/// Returns the names of columns, each without a finding. Errs only when out of memory.
fn names_in(alloc: Global, columns: &[SchemaColumn]) -> Result<ByName, AllocError>
    ensures { IfOk result (AreBy (names_of (map column_tree columns.now)) []) }
{
    let mut named = BTreeMap::new(alloc);
    for column in columns {
        add_name(alloc, &mut named, column.name.as_str())?;
    }
    Ok(named)
}

/// Adds a name without a finding. Errs only when out of memory.
fn add_name(alloc: Global, named: &mut ByName, name: &str) -> Result<(), AllocError>
    ensures { OnOk result ((k : Text) → found_at named.new k ≡ (if bytes_eq name.now k then Some [] else found_at named.old k)) }
{
    let key = String::from_str(alloc, name)?;
    drop(named.insert(key, Vec::new(alloc))?);
    Ok(())
}

/// Adds a finding behind others: to those of its column, if that is one of the names, or else to
/// those of no column. Errs only when out of memory.
fn add(
    alloc: Global,
    named: &mut ByName,
    others: &mut Vec<Finding<'static>>,
    finding: Finding<'static>,
) -> Result<(), AllocError>
    ensures named { OnOk result ((names : List Text) (fs : List AnyFinding) → AreBy names fs named.old → AreBy names (fs ++ finding.entry ∷ []) named.new) }
    ensures others { OnOk result ((names : List Text) (fs : List AnyFinding) → AreBy names fs named.old → others.new.items ≡ others.old.items ++ if_unnamed names finding.entry) }
{
    if !names_one(named, &finding) {
        others.push(finding)?;
        return Ok(());
    }
    let (name, finding) = parted(finding);
    match name {
        Some(name) => put(alloc, named, name, finding),
        None => Ok(()),
    }
}

/// Adds a finding to those of a name. Errs only when out of memory.
fn put(
    alloc: Global,
    named: &mut ByName,
    name: String,
    finding: Finding<'static>,
) -> Result<(), AllocError>
    ensures { OnOk result ((k : Text) → found_at named.new k ≡ (if bytes_eq (string_bytes name) k then Some (or_nothing (found_at named.old k) ++ finding.entry ∷ []) else found_at named.old k)) }
{
    let mut own = own_of(alloc, named, name.as_str());
    own.push(finding)?;
    drop(named.insert(name, own)?);
    Ok(())
}

/// Takes the findings of a name.
fn own_of(alloc: Global, named: &mut ByName, name: &str) -> Vec<Finding<'static>>
    ensures own { result.items ≡ or_nothing (found_at named.old name.now) }
    ensures left { (k : Text) → found_at named.new k ≡ (if bytes_eq name.now k then None else found_at named.old k) }
{
    match named.remove(name) {
        Some(own) => own,
        None => Vec::new(alloc),
    }
}

/// Whether a finding names one of some columns.
fn names_one(named: &ByName, finding: &Finding<'_>) -> bool
    ensures { (names : List Text) (fs : List AnyFinding) → AreBy names fs named.now → result ≡ is_named names (column_in finding.now) }
{
    match finding.column() {
        Some(name) => named.contains_key(name),
        None => false,
    }
}

/// Splits a finding: the name of its column, if it names one, and the finding without that.
fn parted(finding: Finding<'static>) -> (Option<String>, Finding<'static>)
    ensures name { option_map string_bytes result.0 ≡ column_in finding.entry }
    ensures finding { result.1 ≡ nameless finding.entry }
{
    match finding {
        Finding::File(
            FileFinding {
                code,
                column,
                path,
                place,
                found,
                wanted,
            },
        ) => {
            let rest = FileFinding {
                code,
                column: None,
                path,
                place,
                found,
                wanted,
            };
            (column, Finding::File(rest))
        }
        Finding::Geo(
            version,
            GeoFinding {
                code,
                column,
                source,
                pointer,
                found,
                wanted,
                more,
            },
        ) => {
            let rest = GeoFinding {
                code,
                column: None,
                source,
                pointer,
                found,
                wanted,
                more,
            };
            (column, Finding::Geo(version, rest))
        }
        Finding::Asked(
            AskedFinding {
                code,
                column,
                found,
                expected,
                help,
            },
        ) => {
            let rest = AskedFinding {
                code,
                column: None,
                found,
                expected,
                help,
            };
            (column, Finding::Asked(rest))
        }
        Finding::Column(by, warning) => (None, Finding::Column(by, warning)),
        Finding::Text(text) => (None, Finding::Text(text)),
    }
}

/// Returns the findings of each of some columns, in order. Errs only when out of memory.
fn taken(
    alloc: Global,
    columns: &[SchemaColumn],
    named: ByName,
) -> Result<Vec<Vec<Finding<'static>>>, AllocError>
    ensures { IfOk result (λ all. (fs : List AnyFinding) → AreBy (names_of (map column_tree columns.now)) fs named.entry
        → map (λ own. own.items) all.items ≡ by_columns (names_of (map column_tree columns.now)) fs) }
{
    let mut named = named;
    let mut all = Vec::new(alloc);
    for column in columns {
        all.push(own_of(alloc, &mut named, column.name.as_str()))?;
    }
    Ok(all)
}
