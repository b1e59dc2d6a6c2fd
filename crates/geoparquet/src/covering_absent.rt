//! A group that would do as a covering, where a column has none.
ghost use Rattle.std.specs.Prelude.{◌≡◌, ◌++◌, OnOk, map, option_map};
ghost use Rattle.std.specs.List.{list_all};
ghost use Rattle.json.specs.Value.{value_view};
ghost use Rattle.arrow_values.specs.Texts.{text_of};
ghost use Rattle.arrow_columns.specs.Column.{column_tree};
ghost use Rattle.geoparquet.specs.Coverings.{child_of, children_list, fits};
ghost use Rattle.geoparquet.specs.Findings.{finding};
ghost use Rattle.geoparquet.specs.CoveringAbsent.{flat_names, high_names, have_names, are_floats, is_box, is_box_column, first_box, absent_findings, absent_where, lacks_covering};

use crate::adding::add_at;
use crate::code::GeoCode;
use crate::finding::{GeoFinding, Version};
use crate::group::{Children, child_of, children_in, fits};
use crate::place::column_place;
use crate::version::is_judged;
use arrow_columns::SchemaColumn;
use json::Value;
use std::alloc::{AllocError, Global};

/// The bounds of a box without those of height.
fn flat_names() -> &'static [&'static str]
    ensures { map (λ name. name.now) result.now ≡ flat_names }
{
    &["xmin", "ymin", "xmax", "ymax"]
}

/// The bounds of a box with those of height.
fn high_names() -> &'static [&'static str]
    ensures { map (λ name. name.now) result.now ≡ high_names }
{
    &["xmin", "ymin", "xmax", "ymax", "zmin", "zmax"]
}

/// Whether a child of floats stands under each name.
fn are_there(names: &[&str], single: bool, children: Children<'_>) -> bool
    ensures { result ≡ list_all (λ name. fits single (child_of name (children_list children.entry))) (map (λ name. name.now) names.now) }
{
    match names {
        [first, rest @ ..] => {
            fits(single, child_of(first, children)) && are_there(rest, single, children)
        }
        [] => true,
    }
}

/// Whether children are floats of those names, each once, and no others.
#[tactic(auto, using(crate::proofs::Counted::same_counts))]
fn have_names(names: &[&str], single: bool, children: Children<'_>) -> bool
    ensures { result ≡ have_names (map (λ name. name.now) names.now) single (children_list children.entry) }
{
    children.len() == names.len() && are_there(names, single, children)
}

/// Whether children are of those names, all of single precision or all of double.
fn are_floats(names: &[&str], children: Children<'_>) -> bool
    ensures { result ≡ are_floats (map (λ name. name.now) names.now) (children_list children.entry) }
{
    have_names(names, true, children) || have_names(names, false, children)
}

/// Whether there are children, and they are the bounds of a box.
fn is_box(children: Option<Children<'_>>) -> bool
    ensures { result ≡ is_box (option_map children_list children.entry) }
{
    match children {
        Some(children) => {
            are_floats(flat_names(), children) || are_floats(high_names(), children)
        }
        None => false,
    }
}

/// Whether a column is a group of the bounds of a box.
fn is_box_column(column: &SchemaColumn) -> bool
    ensures { result ≡ is_box_column (column_tree column.now) }
{
    is_box(children_in(&column.data_type))
}

/// Returns the name of the first column that is a group of the bounds of a box.
pub(crate) fn first_box(columns: &[SchemaColumn]) -> Option<&str>
    ensures { text_of result ≡ first_box (map column_tree columns.now) }
{
    let mut left = columns;
    'columns: while let [column, rest @ ..] = left {
        if is_box_column(column) {
            return Some(column.name.as_str());
        }
        left = rest;
    }
    None
}

/// Whether a key names a column, and its member says no covering.
fn lacks_covering(version: Version, column: Option<&SchemaColumn>, member: &Value<'_>) -> bool
    ensures { result ≡ lacks_covering version (option_map (λ c. column_tree c.now) column.entry) (value_view member.now) }
{
    is_judged(version) && (column.is_some() && !member.get("covering").is_some())
}

/// Adds what is found of a column that has no covering, where a group could be one. Errs only when
/// out of memory.
fn add_absent(
    alloc: Global,
    findings: &mut Vec<GeoFinding>,
    key: &str,
    boxed: Option<&str>,
) -> Result<(), AllocError>
    ensures { OnOk result (map finding findings.new.items ≡ map finding findings.old.items
        ++ absent_findings key.now (text_of boxed.entry)) }
{
    let Some(name) = boxed else {
        return Ok(());
    };
    let found = Value::String(name);
    let place = column_place(alloc, key)?;
    add_at(
        alloc,
        findings,
        GeoCode::CoveringAbsent,
        Some(key),
        place.as_str(),
        Some(&found),
        None,
    )
}

/// Adds what is found of a column that has no covering, where the first group of the bounds of a box
/// could be one (docs/FORMAT.md, 5). Errs only when out of memory.
pub(crate) fn add_covering_absent(
    alloc: Global,
    findings: &mut Vec<GeoFinding>,
    boxed: Option<&str>,
    version: Version,
    key: &str,
    column: Option<&SchemaColumn>,
    member: &Value<'_>,
) -> Result<(), AllocError>
    ensures { OnOk result (map finding findings.new.items ≡ map finding findings.old.items
        ++ absent_where (lacks_covering version (option_map (λ c. column_tree c.now) column.entry) (value_view member.now)) key.now (text_of boxed.entry)) }
{
    if !lacks_covering(version, column, member) {
        return Ok(());
    }
    add_absent(alloc, findings, key, boxed)
}
