//! The metadata as `serde_json` reads them, and single values of them.
ghost use Rattle.std.specs.Prelude.{◌≡◌, IfOk, codes, option_map};
ghost use Rattle.serde_json.specs.Find.{get};
ghost use Rattle.serde_json.specs.View.{view};
ghost use Rattle.arrow_values.specs.Texts.{text_of};
ghost use Rattle.geoparquet.specs.Values.{at, geo_value, text_of_value};

use serde_json::Value;
use std::alloc::{AllocError, Global};

/// The JSON value that the text of the metadata is, and null where it is no JSON. Errs only when out of memory.
///
/// ```rust
/// assert!(rt; geo_value(alloc, r#"{"version":"1.1.0"}"#)?.is_object());
/// assert!(rt; geo_value(alloc, "1.1.0")?.is_null());
/// ```
pub fn geo_value(alloc: Global, text: &str) -> Result<Value, AllocError>
    ensures { IfOk result (λ value. view value ≡ geo_value text.now) }
{
    match Value::from_str(alloc, text) {
        Ok(value) => Ok(value),
        Err(error) if error.is_memory() => Err(AllocError),
        Err(_) => Ok(Value::Null),
    }
}

/// The member at a key of a value, where both are there.
fn member_at<'v>(value: Option<&'v Value>, key: &str) -> Option<&'v Value>
    ensures { option_map (λ v. view v.now) result ≡ at key.now (option_map (λ v. view v.now) value.entry) }
{
    value?.get(key)
}

/// What the metadata say of the column with a name: the member of `columns` with that key, where `columns` is an object and has it.
///
/// ```rust
/// let value = geo_value(alloc, r#"{"columns":{"geom":{"encoding":"WKB"}}}"#)?;
/// assert!(rt; member_of_column(&value, "geom").is_some());
/// assert!(rt; member_of_column(&value, "columns").is_none());
/// ```
pub fn member_of_column<'v>(value: &'v Value, name: &str) -> Option<&'v Value>
    ensures { option_map (λ v. view v.now) result ≡ at name.now (get (codes "columns") (view value.now)) }
{
    member_at(value.get("columns"), name)
}

/// The text that a value is, where there is one and it is a text.
pub fn text_in(value: Option<&Value>) -> Option<&str>
    ensures { text_of result ≡ text_of_value (option_map (λ v. view v.now) value.entry) }
{
    value?.as_str()
}
