//! Columns that hold geometries, and have no member of `columns`.
ghost use Rattle.std.specs.Prelude.{◌≡◌, ◌++◌, OnOk, map, option_and_then, option_map};
ghost use Rattle.json.specs.Value.{value_view};
ghost use Rattle.arrow_values.specs.Texts.{text_of};
ghost use Rattle.geoparquet.specs.Findings.{finding};
ghost use Rattle.geoparquet.specs.Ordered.{members_entries};
ghost use Rattle.geoparquet.specs.Undeclared.{is_geometry_name, is_geometry, is_covered, is_declared, column_undeclared_findings, undeclared_findings, is_bare, no_metadata_findings};
ghost use Rattle.geoparquet.specs.Sources.{sourced};
ghost use Rattle.std.specs.List.{list_any};

use crate::adding::add_at;
use crate::code::GeoCode;
use crate::contradictions::{element_encoding, own_encoding};
use crate::finding::GeoFinding;
use crate::ordered::{ByKey, has_member};
use crate::sources::Sourced;
use json::Value;
use parquet_columns::covers;
use std::alloc::{AllocError, Global};

/// Whether an extension name is that of geometries.
fn is_geometry_name(name: &str) -> bool
    ensures { result ≡ is_geometry_name name.now }
{
    match own_encoding(name) {
        Some(_) => name != "geoarrow.box",
        None => false,
    }
}

/// Whether there is an extension name, and it is that of geometries.
fn is_geometry(name: Option<&str>) -> bool
    ensures { result ≡ is_geometry (text_of name.entry) }
{
    match name {
        Some(name) => is_geometry_name(name),
        None => false,
    }
}

/// Whether a path of some covering names a column.
fn is_covered(name: &str, members: &ByKey<'_, '_>) -> bool
    ensures { result ≡ is_covered name.now (members_entries members.now.entries) }
{
    for member in members.iter() {
        if covers(name, member.1) {
            return true;
        }
    }
    false
}

/// Whether a column holds no geometries, has a member, or is that of a covering.
fn is_declared(members: &ByKey<'_, '_>, it: &Sourced<'_>) -> bool
    ensures { result ≡ is_declared (members_entries members.now.entries) (sourced it.now) }
{
    let name = it.column.name.as_str();
    let held = is_geometry(it.column.extension_type_name());
    !(held || element_encoding(it.element).is_some())
        || (has_member(name, members) || is_covered(name, members))
}

/// Adds what is found of a column that has no member. Errs only when out of memory.
fn add_column(
    alloc: Global,
    findings: &mut Vec<GeoFinding>,
    members: &ByKey<'_, '_>,
    it: &Sourced<'_>,
) -> Result<(), AllocError>
    ensures { OnOk result (map finding findings.new.items ≡ map finding findings.old.items
        ++ column_undeclared_findings (members_entries members.now.entries) (sourced it.now)) }
{
    if is_declared(members, it) {
        return Ok(());
    }
    let name = it.column.name.as_str();
    let found = Value::String(name);
    add_at(
        alloc,
        findings,
        GeoCode::ColumnUndeclared,
        Some(name),
        "/columns",
        Some(&found),
        None,
    )
}

/// Adds what is found of columns that hold geometries, and have no member of `columns` (docs/FORMAT.md,
/// 5.1). Errs only when out of memory.
pub(crate) fn add_undeclared(
    alloc: Global,
    findings: &mut Vec<GeoFinding>,
    members: &ByKey<'_, '_>,
    all: &[Sourced<'_>],
) -> Result<(), AllocError>
    ensures { OnOk result (map finding findings.new.items ≡ map finding findings.old.items
        ++ undeclared_findings (members_entries members.now.entries) (map sourced all.now)) }
{
    let mut left = all;
    'columns: while let [it, rest @ ..] = left {
        add_column(alloc, findings, members, it)?;
        left = rest;
    }
    Ok(())
}

/// Whether a column holds geometries by its field, and not by its element.
fn is_bare(it: &Sourced<'_>) -> bool
    ensures { result ≡ is_bare (sourced it.now) }
{
    is_geometry(it.column.extension_type_name()) && element_encoding(it.element).is_none()
}

/// Whether a column holds geometries by its field, and not by its element.
fn is_one_bare(all: &[Sourced<'_>]) -> bool
    ensures { result ≡ list_any is_bare (map sourced all.now) }
{
    let mut left = all;
    'columns: while let [it, rest @ ..] = left {
        if is_bare(it) {
            return true;
        }
        left = rest;
    }
    false
}

/// Adds what is found of a file without a value at the key `geo` (docs/FORMAT.md, 5.1). Errs only when
/// out of memory.
pub(crate) fn add_no_metadata(
    alloc: Global,
    findings: &mut Vec<GeoFinding>,
    all: &[Sourced<'_>],
) -> Result<(), AllocError>
    ensures { OnOk result (map finding findings.new.items ≡ map finding findings.old.items
        ++ no_metadata_findings (map sourced all.now)) }
{
    if !is_one_bare(all) {
        return Ok(());
    }
    add_at(alloc, findings, GeoCode::NoMetadata, None, "", None, None)
}
