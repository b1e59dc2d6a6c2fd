//! A CRS for people.
ghost use Rattle.std.specs.Prelude.{◌≡◌, ◌++◌, Some, IfOk, OnOk, codes, option_map, option_and_then, string_bytes};
ghost use Rattle.serde_json.specs.Read.{of_json};
ghost use Rattle.serde_json.specs.View.{view};
ghost use Rattle.arrow_values.specs.Texts.{text_of};
ghost use Rattle.geoparquet.specs.Facts.{facts_view};
ghost use Rattle.geoparquet.specs.Identifiers.{code_text};
ghost use Rattle.geoparquet.specs.Values.{at};
ghost use Rattle.file_check.specs.Crs.{in_id, code_shown, identifier_shown, name_shown, value_shown, crs_shown, crs_name, value_name, crs_that_counts, edges_that_count};

use crate::cell::cut;
use crate::text::{blanked, shown};
use geoparquet::{ColumnFacts, text_in};
use serde_json::Value;
use std::alloc::{AllocError, Global};
use value_tokens::JsonText;

/// Returns a CRS for people: a text itself; PROJJSON by the authority and the code of its id, as
/// `EPSG:4326`, or else by its name, or as `a CRS`; and nothing where there is none. It is cut by
/// [`cut`] (`docs/FORMAT.md`, 2.7). Errs only when out of memory.
///
/// ```rust
/// let text = r#"{"crs":{"id":{"authority":"EPSG","code":4326},"name":"WGS 84"}}"#;
/// let read = read_metadata(alloc, Some(text), &mut Scratch::new(alloc))?;
/// let Ok(metadata) = read else { return Ok(()); };
/// assert_eq!(rt; crs_name(alloc, metadata.crs.as_ref())?.as_str(), "EPSG:4326");
/// ```
pub fn crs_name(alloc: Global, crs: Option<&JsonText>) -> Result<String, AllocError>
    ensures { IfOk result (λ name. string_bytes name ≡ crs_name (option_and_then of_json (option_map (λ c. c.now) crs.entry))) }
{
    let value = crs_value(alloc, crs)?;
    let shown = crs_shown(alloc, value.as_ref())?;
    cut(alloc, shown.as_str())
}

/// A CRS that is known by its name, and `unknown` where it is not.
fn value_name(alloc: Global, crs: Option<&JsonText>) -> Result<String, AllocError>
    ensures { IfOk result (λ name. string_bytes name ≡ value_name (option_map (λ c. c.now) crs.entry)) }
{
    match crs {
        Some(crs) => crs_name(alloc, Some(crs)),
        None => String::from_str(alloc, "unknown"),
    }
}

/// The CRS of geometries that counts.
pub(crate) fn crs_that_counts(alloc: Global, facts: &ColumnFacts) -> Result<String, AllocError>
    ensures { IfOk result (λ name. string_bytes name ≡ crs_that_counts (facts_view facts.now)) }
{
    match &facts.crs {
        Some(fact) => value_name(alloc, fact.crs.as_ref()),
        None => Ok(String::new(alloc)),
    }
}

/// The edges of geometries that count.
pub(crate) fn edges_that_count(alloc: Global, facts: &ColumnFacts) -> Result<String, AllocError>
    ensures { IfOk result (λ text. string_bytes text ≡ edges_that_count (facts_view facts.now)) }
{
    let edges = match &facts.edges {
        Some(fact) => shown(alloc, fact.edges.as_str())?,
        None => shown(alloc, "planar")?,
    };
    cut(alloc, edges.as_str())
}

/// The value of a CRS; none where a number of it is out of range.
fn crs_value(alloc: Global, crs: Option<&JsonText>) -> Result<Option<Value>, AllocError>
    ensures { IfOk result (λ value. option_map view value ≡ option_and_then of_json (option_map (λ c. c.now) crs.entry)) }
{
    match crs {
        Some(crs) => crs.to_value(alloc),
        None => Ok(None),
    }
}

/// A CRS in full.
fn crs_shown(alloc: Global, crs: Option<&Value>) -> Result<String, AllocError>
    ensures { IfOk result (λ text. string_bytes text ≡ crs_shown (option_map (λ v. view v.now) crs.entry)) }
{
    let Some(crs) = crs else {
        return Ok(String::new(alloc));
    };
    if let Some(text) = crs.as_str() {
        return blanked(alloc, text);
    }
    value_shown(alloc, crs, text_in(in_id(crs, "authority")))
}

/// The member at a key of a value, where both are there.
fn member_at<'v>(value: Option<&'v Value>, key: &str) -> Option<&'v Value>
    ensures { option_map (λ v. view v.now) result ≡ at key.now (option_map (λ v. view v.now) value.entry) }
{
    match value {
        Some(value) => value.get(key),
        None => None,
    }
}

/// A member of the id of a CRS.
fn in_id<'v>(crs: &'v Value, key: &str) -> Option<&'v Value>
    ensures { option_map (λ v. view v.now) result ≡ in_id key.now (view crs.now) }
{
    member_at(crs.get("id"), key)
}

/// A CRS that is no text.
fn value_shown(alloc: Global, crs: &Value, authority: Option<&str>) -> Result<String, AllocError>
    ensures { IfOk result (λ name. string_bytes name ≡ value_shown (view crs.now) (text_of authority.entry)) }
{
    match authority {
        Some(authority) => identifier_shown(alloc, authority, in_id(crs, "code")),
        None => name_shown(alloc, text_in(crs.get("name"))),
    }
}

/// The name of a CRS.
fn name_shown(alloc: Global, name: Option<&str>) -> Result<String, AllocError>
    ensures { IfOk result (λ text. string_bytes text ≡ name_shown (text_of name.entry)) }
{
    match name {
        Some(name) => blanked(alloc, name),
        None => String::from_str(alloc, "a CRS"),
    }
}

/// An authority with its code.
fn identifier_shown(
    alloc: Global,
    authority: &str,
    code: Option<&Value>,
) -> Result<String, AllocError>
    ensures { IfOk result (λ text. string_bytes text ≡ identifier_shown authority.now (option_map (λ v. view v.now) code.entry)) }
{
    let mut text = shown(alloc, authority)?;
    if let Some(code) = code {
        push_code(alloc, &mut text, code)?;
    }
    Ok(text)
}

/// Adds a colon and the code of an id.
fn push_code(alloc: Global, text: &mut String, code: &Value) -> Result<(), AllocError>
    ensures { OnOk result (string_bytes text.new ≡ string_bytes text.old ++ (codes ":" ++ code_shown (code_text (Some (view code.now))))) }
{
    let code = code_shown(alloc, code)?;
    text.push_str(":")?;
    text.push_str(code.as_str())
}

/// A code, which is a text or a whole number.
fn code_shown(alloc: Global, code: &Value) -> Result<String, AllocError>
    ensures { IfOk result (λ text. string_bytes text ≡ code_shown (code_text (Some (view code.now)))) }
{
    match code {
        Value::String(text) => shown(alloc, text.as_str()),
        Value::Number(number) => match number.as_u64() {
            Some(number) => {
                let text = format!(in alloc; "{number}")?;
                shown(alloc, text.as_str())
            }
            None => String::from_str(alloc, "?"),
        },
        _ => String::from_str(alloc, "?"),
    }
}
