//! The values of the three keys of a metadata's JSON object.
ghost use Rattle.std.specs.Prelude.{◌≡◌, Option, None, Some, false, IfOk, option_map};
ghost use Rattle.serde_json.specs.Data.{Data};
ghost use Rattle.serde_json.specs.View.{view};
ghost use Rattle.serde_json.specs.Written.{has_float};
ghost use Rattle.geoarrow_meta.specs.Read.{crs_type_data, edges_data, at_key, present, some_has_float};
ghost use Rattle.geoarrow_meta.specs.KeyValues.{IsWord, IsNamed, AreValuesOf};

use crate::crs::CrsType;
use crate::edges::Edges;
use serde_json::Value;
use std::alloc::{AllocError, Global};

/// The values of the three keys of a metadata's JSON object (GeoArrow, "Extension metadata"). A value that is null or missing is
/// `None` for a CRS, and `Some(None)` for a CRS type and for edges, which are `None` where the value is no text of the format.
#[derive(Drop)]
pub struct KeyValues<V> {
    /// The value of `crs`: a JSON value, or a text that is not copied yet.
    pub crs: Option<V>,
    /// The value of `crs_type`.
    pub crs_type: Option<Option<CrsType>>,
    /// The value of `edges`.
    pub edges: Option<Option<Edges>>,
}

// The values of the three keys of an object without members.
#[inline(always)]
pub(crate) fn no_values() -> KeyValues<Value>
    ensures { (result.crs ≡ None) × (result.crs_type ≡ Some None) × (result.edges ≡ Some None) }
{
    KeyValues {
        crs: None,
        crs_type: Some(None),
        edges: Some(None),
    }
}

// The values of the three keys of a JSON value. Errs only when out of memory.
pub(crate) fn values_of(alloc: Global, value: &Value) -> Result<KeyValues<Value>, AllocError>
    ensures { IfOk result (λ s. AreValuesOf (view value.now) (option_map view s.crs) s.crs_type s.edges) }
{
    let crs = present_at(value, "crs").map(Value::clone);
    Ok(KeyValues {
        crs: crs.transpose()?,
        crs_type: crs_type_of(word_at(value, "crs_type")),
        edges: edges_of(word_at(value, "edges")),
    })
}

// The value, null as absent.
#[inline]
pub(crate) fn unless_null(value: Value) -> Option<Value>
    ensures present { option_map view result ≡ present (Some (view value)) }
    ensures whole { has_float (view value) ≡ false → some_has_float (option_map view result) ≡ false }
{
    Some(value).filter(|value| !value.is_null())
}

fn present_at<'v>(value: &'v Value, key: &str) -> Option<&'v Value>
    ensures { option_map (λ v. view v.now) result ≡ at_key key.now (view value.now) }
{
    value.get(key).filter(|found| !found.is_null())
}

// The text at the key, or its absence; none where another value stands there.
fn word_at<'v>(value: &'v Value, key: &str) -> Option<Option<&'v str>>
    ensures { IsWord result (at_key key.now (view value.now)) }
{
    match present_at(value, key) {
        None => Some(None),
        Some(found) => Some(Some(found.as_str()?)),
    }
}

// The CRS type, or its absence, that is written so; none where none is.
pub(crate) fn crs_type_of(word: Option<Option<&str>>) -> Option<Option<CrsType>>
    ensures { (found : Option Data) → IsWord word.entry found → IsNamed crs_type_data result found }
{
    match word? {
        None => Some(None),
        Some(text) => Some(Some(CrsType::from_text(text)?)),
    }
}

// The edges, or their absence, that are written so; none where none are.
pub(crate) fn edges_of(word: Option<Option<&str>>) -> Option<Option<Edges>>
    ensures { (found : Option Data) → IsWord word.entry found → IsNamed edges_data result found }
{
    match word? {
        None => Some(None),
        Some(text) => Some(Some(Edges::from_text(text)?)),
    }
}
