//! The bounds of a covering, and their paths.
ghost use Rattle.std.specs.Prelude.{◌≡◌, IfOk, is_some, map, option_map};
ghost use Rattle.json.specs.Find.{get};
ghost use Rattle.json.specs.Value.{value_view, items_view};
ghost use Rattle.value_tokens.specs.Values.{IsReadable};
ghost use Rattle.arrow_values.specs.Texts.{text_of};
ghost use Rattle.geoparquet.specs.Coverings.{bound, has_height, bounds_of, path_texts, path_in, path_of, path_at, bound_tree, path_tree, IsBoundRead, AreBoundsRead};

use json::Value;
use std::alloc::{AllocError, Global};
use value_tokens::member_of;

/// A bound: its name, and what stands there.
#[derive(Clone, Copy)]
pub(crate) struct Bound<'v, 'a> {
    pub(crate) name: &'static str,
    pub(crate) found: Option<&'v Value<'a>>,
}

/// A path: the name of a column, and that of a child of it.
#[derive(Clone, Copy)]
pub(crate) struct Path<'a> {
    pub(crate) column: &'a str,
    pub(crate) child: &'a str,
}

/// Returns the bound of that name.
pub(crate) fn bound_at<'v, 'a>(name: &'static str, bbox: &'v Value<'a>) -> Bound<'v, 'a>
    requires { IsReadable (value_view bbox.now) }
    ensures value { bound_tree result ≡ bound name.now (value_view bbox.now) }
    ensures read { IsBoundRead result }
{
    let found = member_of(bbox, name);
    Bound { name, found }
}

/// Whether `bbox` of a covering has a bound of height.
fn has_height(bbox: &Value<'_>) -> bool
    ensures { result ≡ has_height (value_view bbox.now) }
{
    has_member(bbox, "zmin") || has_member(bbox, "zmax")
}

/// Whether a value has a member with a key.
fn has_member(value: &Value<'_>, key: &str) -> bool
    ensures { result ≡ is_some (get key.now (value_view value.now)) }
{
    match value.get(key) {
        Some(_) => true,
        None => false,
    }
}

/// Returns the bounds that `bbox` of a covering has, or lacks. Errs only when out of memory.
pub(crate) fn bounds_of<'v, 'a>(
    alloc: Global,
    bbox: &'v Value<'a>,
) -> Result<Vec<Bound<'v, 'a>>, AllocError>
    requires { IsReadable (value_view bbox.now) }
    ensures value { IfOk result (λ bounds. map bound_tree bounds.items ≡ bounds_of (value_view bbox.now)) }
    ensures read { IfOk result (λ bounds. AreBoundsRead bounds.items) }
{
    let xmin = bound_at("xmin", bbox);
    let ymin = bound_at("ymin", bbox);
    let xmax = bound_at("xmax", bbox);
    let ymax = bound_at("ymax", bbox);
    let zmin = bound_at("zmin", bbox);
    let zmax = bound_at("zmax", bbox);
    if has_height(bbox) {
        return Ok(vec![in alloc; xmin, ymin, xmax, ymax, zmin, zmax]?);
    }
    Ok(vec![in alloc; xmin, ymin, xmax, ymax]?)
}

/// Returns the path that two texts are, where both are there.
fn path_texts<'a>(column: Option<&'a str>, child: Option<&'a str>) -> Option<Path<'a>>
    ensures { option_map path_tree result ≡ path_texts (text_of column.entry) (text_of child.entry) }
{
    match (column, child) {
        (Some(column), Some(child)) => Some(Path { column, child }),
        _ => None,
    }
}

/// Returns the path that some items are, where they are two texts.
fn path_in<'a>(items: &[Value<'a>]) -> Option<Path<'a>>
    ensures { option_map path_tree result ≡ path_in (items_view items.now) }
{
    let [column, rest @ ..] = items else {
        return None;
    };
    let [child, more @ ..] = rest else {
        return None;
    };
    if !more.is_empty() {
        return None;
    }
    path_texts(column.as_str(), child.as_str())
}

/// Returns the path that a value is.
pub(crate) fn path_of<'a>(value: &Value<'a>) -> Option<Path<'a>>
    ensures { option_map path_tree result ≡ path_of (value_view value.now) }
{
    match value {
        Value::Array(items) => path_in(items.as_slice()),
        _ => None,
    }
}

/// Returns the path of a bound.
pub(crate) fn path_at<'a>(bound: Bound<'_, 'a>) -> Option<Path<'a>>
    ensures { option_map path_tree result ≡ path_at (bound_tree bound.entry) }
{
    path_of(bound.found?)
}
