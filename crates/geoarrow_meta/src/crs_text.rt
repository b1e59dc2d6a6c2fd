//! A CRS as it is written.
ghost use Rattle.std.specs.Prelude.{◌≡◌, ◌∷◌, IfOk, IsTrue};
ghost use Rattle.json.specs.Token.{begin_object};
ghost use Rattle.serde_json.specs.Data.{Data};
ghost use Rattle.geoarrow_meta.specs.CrsText.{IsJson, is_alone_object, is_projjson_text};

use json::{Reader, Scratch, Token};
use std::alloc::{AllocError, Global};
use value_tokens::{MAX_DEPTH, skip_members};

/// A CRS as it is written.
#[derive(Clone, Copy, Debug)]
pub enum WrittenCrs<'a> {
    /// None.
    Absent,
    /// A text, as `EPSG:4326`.
    Text(&'a str),
    /// The text of a JSON value, nested at most 126 levels.
    Json(&'a str),
}

/// Whether a text is a JSON object nested at most 126 levels, as `serde_json` reads it. So it can be the PROJJSON of a CRS in extension
/// metadata, which `serde_json` reads to 127 levels. Errs only when out of memory.
///
/// ```rust
/// assert!(rt; is_projjson_text(alloc, r#"{"type": "GeographicCRS"}"#)?);
/// assert!(rt; !is_projjson_text(alloc, "EPSG:4326")?);
/// ```
pub fn is_projjson_text(alloc: Global, text: &str) -> Result<bool, AllocError>
    ensures exact { IfOk result (λ answer. answer ≡ is_projjson_text text.now) }
    ensures json { IfOk result (λ answer. IsTrue answer → (d : Data) × IsJson text.now d) }
{
    let mut scratch = Scratch::new(alloc);
    let mut reader = Reader::new(text, &mut scratch)?;
    Ok(is_alone_object(&mut reader))
}

/// Whether an object comes next, and nothing behind it.
fn is_alone_object(reader: &mut Reader<'_>) -> bool
    ensures { result ≡ is_alone_object reader.old }
{
    let Some(token) = reader.next() else {
        return false;
    };
    match token {
        Token::BeginObject => members_end(reader),
        _ => false,
    }
}

/// Whether the members of an object come next, and nothing behind it.
fn members_end(reader: &mut Reader<'_>) -> bool
    ensures { result ≡ is_alone_object (begin_object ∷ reader.old) }
{
    match skip_members(reader, MAX_DEPTH - 2) {
        Ok(()) => reader.next().is_none(),
        Err(_) => false,
    }
}
