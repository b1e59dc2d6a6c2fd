//! The name of a CRS, for people.
ghost use Rattle.std.specs.Prelude.{◌≡◌, IfOk, codes, option_and_then, option_map, string_bytes};
ghost use Rattle.json.specs.Find.{as_str, get};
ghost use Rattle.json.specs.Value.{value_view};
ghost use Rattle.arrow_values.specs.Texts.{text_of};
ghost use Rattle.crs_identity.specs.Forms.{said};
ghost use Rattle.geoparquet.specs.CrsWords.{code_word, identifier_word, id_word, name_word, or_name, value_word, said_word, crs_word};

use crate::crs_claims::text_at;
use column_check::shown;
use crs_identity::Crs;
use json::Value;
use std::alloc::{AllocError, Global};

/// The code of an id: a text, or a number.
fn code_word<'a>(found: Option<&Value<'a>>) -> Option<&'a str>
    ensures { text_of result ≡ code_word (option_map (λ v. value_view v.now) found.entry) }
{
    let found = found?;
    match found.as_str() {
        Some(text) => Some(text),
        None => found.as_number(),
    }
}

/// An authority and its code. Errs only when out of memory.
fn identifier_word(
    alloc: Global,
    authority: Option<&str>,
    code: Option<&str>,
) -> Result<Option<String>, AllocError>
    ensures { IfOk result (λ s. option_map string_bytes s ≡ identifier_word (text_of authority.entry) (text_of code.entry)) }
{
    let Some(authority) = authority else {
        return Ok(None);
    };
    let Some(code) = code else {
        return Ok(None);
    };
    Ok(Some(format!(in alloc; "{authority}:{code}")?))
}

/// The identifier in an id. Errs only when out of memory.
fn id_word(alloc: Global, id: Option<&Value<'_>>) -> Result<Option<String>, AllocError>
    ensures { IfOk result (λ s. option_map string_bytes s ≡ id_word (option_map (λ v. value_view v.now) id.entry)) }
{
    let Some(id) = id else {
        return Ok(None);
    };
    identifier_word(alloc, text_at(id, "authority"), code_word(id.get("code")))
}

/// The name of an object, or a text itself.
fn name_word<'a>(value: &Value<'a>) -> &'a str
    ensures { result.now ≡ name_word (value_view value.now) }
{
    if let Some(name) = text_at(value, "name") {
        return name;
    }
    match value.as_str() {
        Some(text) => text,
        None => "a CRS",
    }
}

/// The identifier of a CRS, if it has one, and else its name. Errs only when out of memory.
fn value_word(alloc: Global, value: &Value<'_>) -> Result<String, AllocError>
    ensures { IfOk result (λ s. string_bytes s ≡ value_word (value_view value.now)) }
{
    match id_word(alloc, value.get("id"))? {
        Some(word) => Ok(word),
        None => String::from_str(alloc, name_word(value)),
    }
}

/// The name of a CRS that is said. Errs only when out of memory.
fn said_word(alloc: Global, crs: &Crs<'_, '_>) -> Result<String, AllocError>
    ensures { IfOk result (λ s. string_bytes s ≡ said_word (said crs.now)) }
{
    match crs {
        Crs::Unknown => String::from_str(alloc, "unknown"),
        Crs::Value(value) => value_word(alloc, value),
        Crs::Srid(value) => value_word(alloc, value),
    }
}

/// Returns the name of a CRS as a finding shows it: the authority and the code of its id, or else its
/// name, or a text itself (docs/FORMAT.md, 5). Errs only when out of memory.
pub(crate) fn crs_word(alloc: Global, crs: &Crs<'_, '_>) -> Result<String, AllocError>
    ensures { IfOk result (λ s. string_bytes s ≡ crs_word (said crs.now)) }
{
    let word = said_word(alloc, crs)?;
    shown(alloc, word.as_str())
}
