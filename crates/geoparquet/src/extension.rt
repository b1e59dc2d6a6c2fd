//! The extension metadata that the metadata at the key `geo` give a column (docs/FORMAT.md, 5.2).
ghost use Rattle.std.specs.Prelude.{◌≡◌, ◌≤◌, Some, IfOk, string_bytes};
ghost use Rattle.json.specs.Tree.{depth};
ghost use Rattle.json.specs.Value.{value_view};
ghost use Rattle.arrow_values.specs.Texts.{text_of};
ghost use Rattle.value_tokens.specs.Values.{IsReadable, is_object};
ghost use Rattle.geoparquet.specs.Extensions.{crs_of, edges_of, text_with, IsRead, text_at, member_text};

use geoarrow_meta::{CrsType, Edges, WrittenCrs, metadata_text};
use json::Value;
use std::alloc::{AllocError, Global};
use value_tokens::{JsonText, member_of};

/// The CRS where `crs` is absent.
const DEFAULT_CRS: &str = "OGC:CRS84";

/// Returns the text of the extension metadata of a column, by its member of `columns`. Errs only
/// when out of memory.
pub(crate) fn extension_text(alloc: Global, member: &Value<'_>) -> Result<String, AllocError>
    requires { IsRead (value_view member.now) }
    ensures { IfOk result (λ text. string_bytes text ≡ member_text (value_view member.now)) }
{
    let edges = edges_of(text_at(member, "edges"));
    match member_of(member, "crs") {
        Some(crs) => text_with(alloc, crs, edges),
        None => {
            let crs = WrittenCrs::Text(DEFAULT_CRS);
            metadata_text(alloc, crs, Some(CrsType::AuthorityCode), edges)
        }
    }
}

/// Returns the text of the metadata with the CRS that is that value, and those edges. Errs only when
/// out of memory.
fn text_with(alloc: Global, crs: &Value<'_>, edges: Option<Edges>) -> Result<String, AllocError>
    requires read { IsRead (value_view crs.now) }
    requires shallow { depth (value_view crs.now) ≤ 126 }
    ensures { IfOk result (λ text. string_bytes text ≡ text_with (crs_of (Some (value_view crs.now))) edges) }
{
    if is_object(crs) {
        let text = JsonText::of(alloc, crs)?;
        let crs = WrittenCrs::Json(text.as_str());
        return metadata_text(alloc, crs, Some(CrsType::Projjson), edges);
    }
    metadata_text(alloc, WrittenCrs::Absent, None, edges)
}

/// Whether a value is an object.
fn is_object(value: &Value<'_>) -> bool
    ensures { result ≡ is_object (value_view value.now) }
{
    matches!(value, Value::Object(_))
}

/// The edges that a member says.
fn edges_of(text: Option<&str>) -> Option<Edges>
    ensures { result ≡ edges_of (text_of text.entry) }
{
    if text? == "spherical" {
        Some(Edges::Spherical)
    } else {
        None
    }
}

/// Returns the text at a key of a member, where there is one.
pub(crate) fn text_at<'a>(member: &Value<'a>, key: &str) -> Option<&'a str>
    requires { IsReadable (value_view member.now) }
    ensures { text_of result ≡ text_at key.now (value_view member.now) }
{
    member_of(member, key)?.as_str()
}
