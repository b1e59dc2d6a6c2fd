//! The forms in which a CRS is said.
ghost use Rattle.std.specs.Prelude.{◌≡◌, ◌==◌, map, IfOk, MatchOption, option_map, position};
ghost use Rattle.std.specs.List.{list_all};
ghost use Rattle.json.specs.Json.{string};
ghost use Rattle.json.specs.Value.{value_view};
ghost use Rattle.value_tokens.specs.Values.{is_object};
ghost use Rattle.crs_identity.specs.Forms.{are_equal, are_sides, code_in, form_by, form_of_value, form_view, identifiers, is_name_byte, json_in, other, projjson};
ghost use Rattle.crs_identity.specs.Identifiers.{name_of};

use crate::equality::json_equal;
use crate::identifiers::{Identifier, add, made, projjson_identifiers};
use crate::tokens::{Token, are_same_tokens, tokens_of};
use crate::wkt::{is_wkt, wkt_identifiers};
use json::{Scratch, Value};
use std::alloc::{AllocError, Global};
use value_tokens::{Refusal, read_json};

/// A coordinate reference system, as a source says it.
#[derive(Clone, Copy)]
pub enum Crs<'v, 'a> {
    /// Of no known CRS: JSON null.
    Unknown,
    /// By its value.
    Value(&'v Value<'a>),
    /// By an opaque number of a database: `crs_type` srid, or `srid:N`.
    Srid(&'v Value<'a>),
}

/// A known CRS by its form, with what is read of its text.
#[derive(Drop)]
pub(crate) enum CrsForm<'v, 'a, 's> {
    /// PROJJSON, an object.
    Object(&'v Value<'a>),
    /// PROJJSON, a text that is an object.
    ObjectText(Value<'s>),
    /// A code of an authority.
    Code(Identifier),
    /// WKT.
    Wkt(Vec<Token>),
    /// An opaque number of a database.
    Number(&'v Value<'a>),
    /// Anything else.
    Other(&'v Value<'a>),
}

/// Returns the form of a value. Errs only when out of memory.
pub(crate) fn form_of<'v, 'a: 's, 's>(
    alloc: Global,
    value: &'v Value<'a>,
    scratch: &'s mut Scratch,
) -> Result<CrsForm<'v, 'a, 's>, AllocError>
    ensures { IfOk result (λ form. form_view form ≡ form_of_value (value_view value.now)) }
{
    let text = match value {
        Value::Object(_) => return Ok(CrsForm::Object(value)),
        Value::String(text) => *text,
        _ => return Ok(CrsForm::Other(value)),
    };
    if let Some(identifier) = code_in(alloc, text)? {
        return Ok(CrsForm::Code(identifier));
    }
    let tokens = tokens_of(alloc, text)?;
    if is_wkt(tokens.as_slice()) {
        return Ok(CrsForm::Wkt(tokens));
    }
    match object_in(alloc, text, scratch)? {
        Some(object) => Ok(CrsForm::ObjectText(object)),
        None => Ok(CrsForm::Other(value)),
    }
}

/// Returns the object that a text is, if it is one. Errs only when out of memory.
fn object_in<'t>(
    alloc: Global,
    text: &'t str,
    scratch: &'t mut Scratch,
) -> Result<Option<Value<'t>>, AllocError>
    ensures { IfOk result (λ o. MatchOption o
        (form_by text.now (json_in text.now) ≡ other (string text.now))
        (λ v. form_by text.now (json_in text.now) ≡ projjson (value_view v))) }
{
    let value = match read_json(alloc, text, scratch) {
        Ok(value) => value,
        Err(Refusal::Text) => return Ok(None),
        Err(Refusal::Memory) => return Err(AllocError),
    };
    if is_object(&value) {
        Ok(Some(value))
    } else {
        Ok(None)
    }
}

/// Whether a value is an object.
fn is_object(value: &Value<'_>) -> bool
    ensures { result ≡ is_object (value_view value.now) }
{
    matches!(value, Value::Object(_))
}

/// Returns the code that a text is, if it is one. Errs only when out of memory.
fn code_in(alloc: Global, text: &str) -> Result<Option<Identifier>, AllocError>
    ensures { IfOk result (λ o. option_map name_of o ≡ code_in text.now) }
{
    let bytes = text.as_bytes();
    let Some(colon) = colon_in(bytes) else {
        return Ok(None);
    };
    let authority = &bytes[..colon];
    let code = &bytes[colon + 1..];
    if are_sides(authority, code) {
        Ok(Some(made(alloc, authority, code)?))
    } else {
        Ok(None)
    }
}

/// The place of the first colon.
fn colon_in(bytes: &[u8]) -> Option<usize>
    ensures { result ≡ position (λ b. b == 58) bytes.now }
{
    bytes.iter().position(|b| *b == b':')
}

/// Whether these are the two sides of the colon in a code.
fn are_sides(authority: &[u8], code: &[u8]) -> bool
    ensures { result ≡ are_sides authority.now code.now }
{
    let Some(first) = authority.first() else {
        return false;
    };
    first.is_ascii_alphabetic() && is_name(authority) && !code.is_empty() && is_name(code)
}

/// Whether each byte may stand in a code.
fn is_name(bytes: &[u8]) -> bool
    ensures { result ≡ list_all is_name_byte bytes.now }
{
    for b in bytes {
        if !is_name_byte(*b) {
            return false;
        }
    }
    true
}

/// Whether a byte may stand in a code.
fn is_name_byte(b: u8) -> bool
    ensures { result ≡ is_name_byte b }
{
    b.is_ascii_alphanumeric() || b == b'_' || b == b'.' || b == b'-'
}

/// Returns the identifiers of a form. Errs only when out of memory.
pub(crate) fn identifiers(
    alloc: Global,
    form: &CrsForm<'_, '_, '_>,
) -> Result<Vec<Identifier>, AllocError>
    ensures { IfOk result (λ found. map name_of found.items ≡ identifiers (form_view form.now)) }
{
    let mut found = Vec::new(alloc);
    match form {
        CrsForm::Object(value) => projjson_identifiers(alloc, value, &mut found)?,
        CrsForm::ObjectText(value) => projjson_identifiers(alloc, value, &mut found)?,
        CrsForm::Code(identifier) => add(alloc, &mut found, Some(identifier.copied(alloc)?))?,
        CrsForm::Wkt(tokens) => wkt_identifiers(alloc, tokens.as_slice(), &mut found)?,
        CrsForm::Number(_) | CrsForm::Other(_) => {}
    }
    Ok(found)
}

/// Whether two forms are equal as values. Errs only when out of memory.
pub(crate) fn are_equal(
    alloc: Global,
    a: &CrsForm<'_, '_, '_>,
    b: &CrsForm<'_, '_, '_>,
) -> Result<bool, AllocError>
    ensures { IfOk result (λ answer. answer ≡ are_equal (form_view a.now) (form_view b.now)) }
{
    match (a, b) {
        (CrsForm::Object(x), CrsForm::Object(y)) => json_equal(alloc, x, y),
        (CrsForm::Object(x), CrsForm::ObjectText(y)) => json_equal(alloc, x, y),
        (CrsForm::ObjectText(x), CrsForm::Object(y)) => json_equal(alloc, x, y),
        (CrsForm::ObjectText(x), CrsForm::ObjectText(y)) => json_equal(alloc, x, y),
        (CrsForm::Wkt(x), CrsForm::Wkt(y)) => Ok(are_same_tokens(x.as_slice(), y.as_slice())),
        (CrsForm::Number(x), CrsForm::Number(y)) => json_equal(alloc, x, y),
        (CrsForm::Other(x), CrsForm::Other(y)) => json_equal(alloc, x, y),
        _ => Ok(false),
    }
}
