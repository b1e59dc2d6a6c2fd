//! The names of columns that paths of coverings name.
ghost use Rattle.std.specs.Prelude.{◌≡◌, ◌||◌, IfOk, OnOk, Some, option_and_then, option_map};
ghost use Rattle.json.specs.Find.{as_str, at};
ghost use Rattle.json.specs.Value.{value_view};
ghost use Rattle.arrow_values.specs.Texts.{text_of};
ghost use Rattle.arrow_values.specs.Tree.{Text};
ghost use Rattle.parquet_columns.specs.GeoNames.{covers, is_bound_in, is_box_in};
ghost use Rattle.geoparquet.specs.Ordered.{members_entries};
ghost use Rattle.geoparquet.specs.RepeatedKeys.{has_key};
ghost use Rattle.geoparquet.specs.Undeclared.{is_covered};

use crate::ordered::ByKey;
use json::Value;
use std::alloc::{AllocError, Global};
use std::collections::BTreeMap;

/// The names that paths of coverings name.
pub(crate) type Covered<'a> = BTreeMap<&'a str, ()>;

/// Returns the names that paths of the coverings of members name. Errs only when out of memory.
pub(crate) fn covered_by<'a>(
    alloc: Global,
    members: &ByKey<'_, 'a>,
) -> Result<Covered<'a>, AllocError>
    ensures { IfOk result (λ names. (name : Text) → has_key names name ≡ is_covered name (members_entries members.now.entries)) }
{
    let mut names = BTreeMap::new(alloc);
    for member in members.iter() {
        add_covering(&mut names, member.1)?;
    }
    Ok(names)
}

/// Adds the names that paths of the covering of a member name. Errs only when out of memory.
fn add_covering<'a>(names: &mut Covered<'a>, member: &Value<'a>) -> Result<(), AllocError>
    ensures { OnOk result ((name : Text) → has_key names.new name ≡ (covers name (value_view member.now) || has_key names.old name)) }
{
    let Some(covering) = member.get("covering") else {
        return Ok(());
    };
    match covering.get("bbox") {
        Some(bbox) => add_box(names, bbox),
        None => Ok(()),
    }
}

/// Adds the names that paths of bounds name. Errs only when out of memory.
fn add_box<'a>(names: &mut Covered<'a>, bbox: &Value<'a>) -> Result<(), AllocError>
    ensures { OnOk result ((name : Text) → has_key names.new name ≡ (is_box_in name (Some (value_view bbox.now)) || has_key names.old name)) }
{
    add_bound(names, bbox, "zmax")?;
    add_bound(names, bbox, "zmin")?;
    add_bound(names, bbox, "ymax")?;
    add_bound(names, bbox, "xmax")?;
    add_bound(names, bbox, "ymin")?;
    add_bound(names, bbox, "xmin")
}

/// Adds the name that the path of a bound begins with, if it begins with one. Errs only when out of
/// memory.
fn add_bound<'a>(names: &mut Covered<'a>, bbox: &Value<'a>, bound: &str) -> Result<(), AllocError>
    ensures { OnOk result ((name : Text) → has_key names.new name ≡ (is_bound_in name (value_view bbox.now) bound.now || has_key names.old name)) }
{
    if let Some(name) = first_text(bbox.get(bound)) {
        let _ = names.insert(name, ())?;
    }
    Ok(())
}

/// The text that a path begins with.
fn first_text<'a>(path: Option<&Value<'a>>) -> Option<&'a str>
    ensures { text_of result ≡ option_and_then as_str (option_and_then (at 0) (option_map (λ v. value_view v.now) path.entry)) }
{
    path?.at(0)?.as_str()
}
