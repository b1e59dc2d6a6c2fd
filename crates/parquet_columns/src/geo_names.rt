//! Which columns the metadata at `geo` name.
ghost use Rattle.std.specs.Prelude.{◌≡◌, IfOk, map, option_and_then, option_map};
ghost use Rattle.json.specs.Find.{as_str, as_object, at};
ghost use Rattle.json.specs.Value.{value_view, members_view};
ghost use Rattle.arrow_values.specs.Texts.{text_of};
ghost use Rattle.parquet_footer.specs.Footer.{pairing};
ghost use Rattle.parquet_columns.specs.GeoNames.{json_of, geo_text, is_name, is_bound_in, is_box_in, covers, names_one, is_named, encoding_of, is_wkb};

use crate::keys::{GEO_KEY, value_of};
use crate::values::value_text;
use json::{Scratch, Value};
use parquet_footer::Footer;
use std::alloc::{AllocError, Global};
use value_tokens::{Refusal, read_json};

/// The text at `geo` in a footer, if there is a value, and it is UTF-8.
pub(crate) fn geo_text<'a>(footer: &Footer<'a>) -> Option<&'a str>
    ensures { text_of result ≡ geo_text (map pairing footer.now.key_value_metadata.items) }
{
    value_text(value_of(footer, GEO_KEY))
}

/// The value that a text is, if there is one, and it is JSON. Errs only when out of memory.
pub(crate) fn json_of<'a>(
    alloc: Global,
    text: Option<&'a str>,
    scratch: &'a mut Scratch,
) -> Result<Option<Value<'a>>, AllocError>
    ensures { IfOk result (λ value. option_map value_view value ≡ json_of (text_of text.entry)) }
{
    let Some(text) = text else {
        return Ok(None);
    };
    match read_json(alloc, text, scratch) {
        Ok(value) => Ok(Some(value)),
        Err(Refusal::Text) => Ok(None),
        Err(Refusal::Memory) => Err(AllocError),
    }
}

/// The text that a path begins with.
fn first_text<'a>(path: Option<&Value<'a>>) -> Option<&'a str>
    ensures { text_of result ≡ option_and_then as_str (option_and_then (at 0) (option_map (λ v. value_view v.now) path.entry)) }
{
    path?.at(0)?.as_str()
}

/// Whether there is a text, and it is that name.
fn is_name(name: &str, text: Option<&str>) -> bool
    ensures { result ≡ is_name name.now (text_of text.entry) }
{
    match text {
        Some(text) => text == name,
        None => false,
    }
}

/// Whether the path of a bound begins with the name of a column.
fn is_bound_in(name: &str, bbox: &Value<'_>, bound: &str) -> bool
    ensures { result ≡ is_bound_in name.now (value_view bbox.now) bound.now }
{
    is_name(name, first_text(bbox.get(bound)))
}

/// Whether the path of some bound names a column.
fn is_box_in(name: &str, bbox: Option<&Value<'_>>) -> bool
    ensures { result ≡ is_box_in name.now (option_map (λ v. value_view v.now) bbox.entry) }
{
    let Some(bbox) = bbox else {
        return false;
    };
    is_bound_in(name, bbox, "xmin")
        || is_bound_in(name, bbox, "ymin")
        || is_bound_in(name, bbox, "xmax")
        || is_bound_in(name, bbox, "ymax")
        || is_bound_in(name, bbox, "zmin")
        || is_bound_in(name, bbox, "zmax")
}

/// Returns whether a path of the covering of a member of `columns` names a column (GeoParquet, "Bounding Box Columns").
///
/// ```rust
/// let mut scratch = Scratch::new(alloc);
/// let text = r#"{"covering":{"bbox":{"xmin":["box","xmin"]}}}"#;
/// let member = read_json(alloc, text, &mut scratch)?;
/// assert!(rt; covers("box", &member));
/// assert!(rt; !covers("xmin", &member));
/// ```
pub fn covers(name: &str, member: &Value<'_>) -> bool
    ensures { result ≡ covers name.now (value_view member.now) }
{
    match member.get("covering") {
        Some(covering) => is_box_in(name, covering.get("bbox")),
        None => false,
    }
}

/// Whether one of the members of `columns` has the name of a column, or its covering names it.
fn names_one(name: &str, members: &[(&str, Value<'_>)]) -> bool
    ensures { result ≡ names_one name.now (members_view members.now) }
{
    let mut left = members;
    'members: while let [member, rest @ ..] = left {
        if member.0 == name || covers(name, &member.1) {
            return true;
        }
        left = rest;
    }
    false
}

/// Whether the metadata at `geo`, if they are JSON, name a column: by a member of `columns`, or by a
/// path of a covering.
pub(crate) fn is_named(name: &str, geo: Option<&Value<'_>>) -> bool
    ensures { result ≡ is_named name.now (option_map (λ v. value_view v.now) geo.entry) }
{
    let Some(geo) = geo else {
        return false;
    };
    match geo.get("columns") {
        Some(Value::Object(members)) => names_one(name, members.as_slice()),
        _ => false,
    }
}

/// The encoding that the metadata at `geo` give the columns of a name.
fn encoding_of<'a>(name: &str, geo: Option<&Value<'a>>) -> Option<&'a str>
    ensures { text_of result ≡ encoding_of name.now (option_map (λ v. value_view v.now) geo.entry) }
{
    geo?.get("columns")?.get(name)?.get("encoding")?.as_str()
}

/// Whether that is well-known binary.
pub(crate) fn is_wkb(name: &str, geo: Option<&Value<'_>>) -> bool
    ensures { result ≡ is_wkb name.now (option_map (λ v. value_view v.now) geo.entry) }
{
    is_name("WKB", encoding_of(name, geo))
}
