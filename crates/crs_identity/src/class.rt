//! Whether the coordinates of a CRS are geographic or projected.
ghost use Rattle.std.specs.Prelude.{◌≡◌, map, IfOk, option_map};
ghost use Rattle.json.specs.Value.{value_view};
ghost use Rattle.crs_identity.specs.Classes.{class_of as class_of_form, class_of_type, class_of_word, class_of_wkt, class_within, classes_differ, first_component, is_geographic, type_of};
ghost use Rattle.crs_identity.specs.Forms.{said, code, form_view};
ghost use Rattle.crs_identity.specs.Identifiers.{in_small, name_of};
ghost use Rattle.crs_identity.specs.Tokens.{lexeme};
ghost use Rattle.crs_identity.specs.Verdicts.{class_said};

use crate::form::{Crs, CrsForm};
use crate::identifiers::{Identifier, is_word, paired};
use crate::tokens::Token;
use crate::verdict::form_said;
use json::{Scratch, Value};
use std::alloc::{AllocError, Global};

/// What the coordinates of a CRS are.
#[derive(Clone, Copy, Debug, PartialEq, Eq)]
pub enum Class {
    /// Longitude and latitude.
    Geographic,
    /// Coordinates in a plane.
    Projected,
}

/// How deep a CRS is looked for in others.
const MAX_LEVELS: usize = 128;

/// Returns the class of a CRS: of PROJJSON by its `type`, of a code where its identifier is one of
/// the table of pairs, of WKT by its first word; `None` where these say none (docs/FORMAT.md, 5.3).
/// Errs only when out of memory.
pub fn class_of(alloc: Global, crs: &Crs<'_, '_>) -> Result<Option<Class>, AllocError>
    ensures { IfOk result (λ class. class ≡ class_said (said crs.now)) }
{
    let mut scratch = Scratch::new(alloc);
    match form_said(alloc, *crs, &mut scratch)? {
        Some(form) => Ok(form_class(&form)),
        None => Ok(None),
    }
}

/// The class of a form.
pub(crate) fn form_class(form: &CrsForm<'_, '_, '_>) -> Option<Class>
    ensures { result ≡ class_of_form (form_view form.now) }
{
    match form {
        CrsForm::Object(value) => class_within(MAX_LEVELS, value),
        CrsForm::ObjectText(value) => class_within(MAX_LEVELS, value),
        CrsForm::Code(identifier) => class_of_code(identifier),
        CrsForm::Wkt(tokens) => class_of_wkt(tokens.as_slice()),
        CrsForm::Number(_) | CrsForm::Other(_) => None,
    }
}

/// The class of a code.
fn class_of_code(identifier: &Identifier) -> Option<Class>
    ensures { result ≡ class_of_form (code (name_of identifier.now)) }
{
    if paired(identifier).is_some() {
        Some(Class::Geographic)
    } else {
        None
    }
}

/// The class of PROJJSON, looked for that deep.
#[tactic(auto, unfolding(crate::specs::Classes::class_within))]
fn class_within(levels: usize, value: &Value<'_>) -> Option<Class>
    ensures { result ≡ class_within levels (value_view value.now) }
{
    if levels == 0 {
        return None;
    }
    match type_of(value) {
        "CompoundCRS" => class_within(levels - 1, first_component(value)?),
        "BoundCRS" => class_within(levels - 1, value.get("source_crs")?),
        text => class_of_type(text),
    }
}

/// The first component of a compound CRS.
fn first_component<'v, 'a>(value: &'v Value<'a>) -> Option<&'v Value<'a>>
    ensures { option_map (λ v. value_view v.now) result ≡ first_component (value_view value.now) }
{
    value.get("components")?.at(0)
}

/// The text at `type`; empty where there is none.
pub(crate) fn type_of<'a>(value: &Value<'a>) -> &'a str
    ensures { result.now ≡ type_of (value_view value.now) }
{
    match value.get("type") {
        Some(found) => found.as_str().unwrap_or(""),
        None => "",
    }
}

/// The class that a `type` of PROJJSON says.
fn class_of_type(text: &str) -> Option<Class>
    ensures { result ≡ class_of_type text.now }
{
    match text {
        "GeographicCRS" | "GeodeticCRS" => Some(Class::Geographic),
        "DerivedGeographicCRS" | "DerivedGeodeticCRS" => Some(Class::Geographic),
        "ProjectedCRS" | "DerivedProjectedCRS" => Some(Class::Projected),
        _ => None,
    }
}

/// The class of WKT.
fn class_of_wkt(tokens: &[Token]) -> Option<Class>
    ensures { result ≡ class_of_wkt (map lexeme tokens.now) }
{
    match tokens.first()? {
        Token::Word(word) => class_of_word(word.as_slice()),
        Token::Mark(_) | Token::Quoted(_) => None,
    }
}

/// The class that the first word of WKT says.
fn class_of_word(word: &[u8]) -> Option<Class>
    ensures { result ≡ class_of_word (in_small word.now) }
{
    if is_geographic(word) {
        return Some(Class::Geographic);
    }
    if is_word(word, "projcrs") || is_word(word, "projectedcrs") || is_word(word, "projcs") {
        return Some(Class::Projected);
    }
    None
}

/// Whether a word of WKT is one of a geographic CRS.
fn is_geographic(word: &[u8]) -> bool
    ensures { result ≡ is_geographic (in_small word.now) }
{
    is_word(word, "geogcrs")
        || is_word(word, "geodcrs")
        || is_word(word, "geographiccrs")
        || is_word(word, "geodeticcrs")
        || is_word(word, "geogcs")
}

/// Whether both are there and not the same.
pub(crate) fn classes_differ(a: Option<Class>, b: Option<Class>) -> bool
    ensures { result ≡ classes_differ a b }
{
    match (a, b) {
        (Some(Class::Geographic), Some(Class::Projected)) => true,
        (Some(Class::Projected), Some(Class::Geographic)) => true,
        _ => false,
    }
}
