//! The forms of CRSs by their names.
ghost use Rattle.std.specs.Prelude.{◌≡◌, map, IfOk};
ghost use Rattle.json.specs.Value.{value_view};
ghost use Rattle.crs_identity.specs.FormNames.{form_name, is_wkt1, is_wkt1_word};
ghost use Rattle.crs_identity.specs.Forms.{form_of_value, form_view};
ghost use Rattle.crs_identity.specs.Identifiers.{in_small};
ghost use Rattle.crs_identity.specs.Tokens.{lexeme};

use crate::form::{CrsForm, form_of};
use crate::identifiers::is_word;
use crate::tokens::Token;
use json::{Scratch, Value};
use std::alloc::{AllocError, Global};

/// A form in which a CRS is said (docs/FORMAT.md, 5.3).
#[derive(Clone, Copy, Debug, PartialEq, Eq)]
pub enum FormName {
    /// PROJJSON: an object, or a text that is one.
    Projjson,
    /// A code of an authority, as `EPSG:4326`.
    Code,
    /// WKT that begins with a word of WKT 1 alone (OGC 01-009), as `GEOGCS`.
    Wkt1,
    /// Any other WKT.
    Wkt,
    /// Anything else.
    Other,
}

/// Returns the form of a value, whatever its `crs_type` says (docs/FORMAT.md, 5.3). Errs only when
/// out of memory.
pub fn form_name(alloc: Global, value: &Value<'_>) -> Result<FormName, AllocError>
    ensures { IfOk result (λ name. name ≡ form_name (form_of_value (value_view value.now))) }
{
    let mut scratch = Scratch::new(alloc);
    let form = form_of(alloc, value, &mut scratch)?;
    Ok(name_of(&form))
}

/// The name of a form.
fn name_of(form: &CrsForm<'_, '_, '_>) -> FormName
    ensures { result ≡ form_name (form_view form.now) }
{
    match form {
        CrsForm::Object(_) | CrsForm::ObjectText(_) => FormName::Projjson,
        CrsForm::Code(_) => FormName::Code,
        CrsForm::Wkt(tokens) => {
            if is_wkt1(tokens.as_slice()) {
                FormName::Wkt1
            } else {
                FormName::Wkt
            }
        }
        CrsForm::Number(_) | CrsForm::Other(_) => FormName::Other,
    }
}

/// Whether WKT begins with a word of WKT 1 alone.
fn is_wkt1(tokens: &[Token]) -> bool
    ensures { result ≡ is_wkt1 (map lexeme tokens.now) }
{
    match tokens.first() {
        Some(Token::Word(word)) => is_wkt1_word(word.as_slice()),
        _ => false,
    }
}

/// Whether a word is one of WKT 1 alone.
fn is_wkt1_word(word: &[u8]) -> bool
    ensures { result ≡ is_wkt1_word (in_small word.now) }
{
    is_word(word, "geogcs")
        || is_word(word, "projcs")
        || is_word(word, "compd_cs")
        || is_word(word, "geoccs")
        || is_word(word, "vert_cs")
        || is_word(word, "local_cs")
}
