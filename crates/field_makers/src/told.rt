//! The CRS type that the form of a CRS tells.
ghost use Rattle.std.specs.Prelude.{◌≡◌, IfOk, Some, None, if◌then◌else◌};
ghost use Rattle.json.specs.Json.{string};
ghost use Rattle.geoarrow_meta.specs.declared.crs.crs_type.CrsType.TheVariants.{Projjson};
ghost use Rattle.crs_identity.specs.Forms.{form_of_value};
ghost use Rattle.crs_identity.specs.FormNames.{form_name};
ghost use Rattle.field_makers.specs.Told.{told_type, type_of_form};

use crs_identity::{FormName, form_name};
use geoarrow_meta::{CrsType, WrittenCrs, is_projjson_text};
use json::Value;
use std::alloc::{AllocError, Global};

/// Returns the CRS type that the form of a CRS tells (`docs/FORMAT.md`, 5.3): `projjson` for an
/// object of JSON and for a text that is one, `authority_code` for `AUTHORITY:CODE`, `wkt2:2019`
/// for WKT that does not begin with a word of WKT 1 alone; `None` for any other text, and where
/// there is no CRS. Errs only when out of memory.
///
/// ```rust
/// let told = told_crs_type(alloc, WrittenCrs::Text("EPSG:4326"))?;
/// assert_eq!(rt; told, Some(CrsType::AuthorityCode));
/// let told = told_crs_type(alloc, WrittenCrs::Json(r#"{"type": "GeographicCRS"}"#))?;
/// assert_eq!(rt; told, Some(CrsType::Projjson));
/// ```
pub fn told_crs_type(alloc: Global, crs: WrittenCrs<'_>) -> Result<Option<CrsType>, AllocError>
    ensures { IfOk result (λ told. told ≡ told_type crs.entry) }
{
    match crs {
        WrittenCrs::Absent => Ok(None),
        WrittenCrs::Text(text) => type_of_text(alloc, text),
        WrittenCrs::Json(text) => Ok(projjson_if(is_projjson_text(alloc, text)?)),
    }
}

/// The type of a text by its form.
fn type_of_text(alloc: Global, text: &str) -> Result<Option<CrsType>, AllocError>
    ensures { IfOk result (λ told. told
        ≡ type_of_form (form_name (form_of_value (string text.now)))) }
{
    let value = Value::String(text);
    Ok(type_of_form(form_name(alloc, &value)?))
}

/// The type of a CRS of that form.
fn type_of_form(form: FormName) -> Option<CrsType>
    ensures { result ≡ type_of_form form }
{
    match form {
        FormName::Projjson => Some(CrsType::Projjson),
        FormName::Code => Some(CrsType::AuthorityCode),
        FormName::Wkt => Some(CrsType::Wkt2_2019),
        FormName::Wkt1 | FormName::Other => None,
    }
}

/// The type of PROJJSON, where it is that.
fn projjson_if(is: bool) -> Option<CrsType>
    ensures { result ≡ (if is then Some Projjson else None) }
{
    if is { Some(CrsType::Projjson) } else { None }
}
