//! The text of extension metadata, and of PROJJSON without blanks.
ghost use Rattle.std.specs.Prelude.{◌≡◌, Some, IfOk, OnOk, option_map, string_bytes};
ghost use Rattle.json.specs.Lex.{tokens};
ghost use Rattle.json.specs.Print.{print};
ghost use Rattle.serde_json.specs.Data.{Data};
ghost use Rattle.serde_json.specs.Read.{read};
ghost use Rattle.value_tokens.specs.Adds.{Adds};
ghost use Rattle.geoarrow_meta.specs.CrsText.{IsCrs, IsJson};
ghost use Rattle.geoarrow_meta.specs.Compact.{compact_projjson};
ghost use Rattle.geoarrow_meta.specs.MetadataText.{crs_tokens, string_tokens, metadata_tokens, metadata_data};

use crate::crs_text::{WrittenCrs, is_projjson_text};
use crate::{CrsType, Edges};
use json::{Reader, Scratch, Token, Writer};
use std::alloc::{AllocError, Global};
use value_tokens::text_of;

/// The text of extension metadata with these three values (GeoArrow, "Extension metadata"): an object with `crs`, which is null if there is
/// none, with `crs_type` if there is one, and with `edges` if there are any, in this order and without blanks. The tokens of a CRS in JSON are
/// copied one by one. The text that is answered is read as that object, with the value that the CRS is read as. Errs only when out of
/// memory.
///
/// ```rust
/// let crs = WrittenCrs::Text("EPSG:4326");
/// let text = metadata_text(alloc, crs, Some(CrsType::AuthorityCode), None)?;
/// assert_eq!(rt; text.as_str(), r#"{"crs":"EPSG:4326","crs_type":"authority_code"}"#);
/// ```
pub fn metadata_text(
    alloc: Global,
    crs: WrittenCrs<'_>,
    crs_type: Option<CrsType>,
    edges: Option<Edges>,
) -> Result<String, AllocError>
    requires { (d : Data) × IsCrs crs d }
    ensures text { IfOk result (λ text. string_bytes text ≡ print (metadata_tokens (crs_tokens crs.entry) crs_type edges)) }
    ensures reads { IfOk result (λ text. (d : Data) → IsCrs crs.entry d → read (string_bytes text) ≡ Some (metadata_data d crs_type edges)) }
{
    let mut out = Writer::new(Vec::new(alloc));
    put_metadata(alloc, crs, crs_type, edges, &mut out)?;
    Ok(text_of(out))
}

/// Returns the text of a PROJJSON, a JSON object as `is_projjson_text` has it, without blanks: its tokens
/// are those of the text, so each number stays as it is written. Returns `None` where the text is no
/// PROJJSON. Errs only when out of memory.
///
/// ```rust
/// let text = compact_projjson(alloc, r#"{"epoch": 2010.50}"#)?;
/// assert!(rt; matches!(text, Some(text) if text.as_str() == r#"{"epoch":2010.50}"#));
/// ```
pub fn compact_projjson(alloc: Global, text: &str) -> Result<Option<String>, AllocError>
    ensures { IfOk result (λ found. option_map string_bytes found ≡ compact_projjson text.now) }
{
    if !is_projjson_text(alloc, text)? {
        return Ok(None);
    }
    Ok(Some(json_text(alloc, text)?))
}

/// The text of a JSON value without blanks.
fn json_text(alloc: Global, text: &str) -> Result<String, AllocError>
    requires { (d : Data) × IsJson text.now d }
    ensures { IfOk result (λ made. string_bytes made ≡ print (tokens text.now)) }
{
    let mut out = Writer::new(Vec::new(alloc));
    put_json(alloc, text, &mut out)?;
    Ok(text_of(out))
}

/// Writes the object.
fn put_metadata(
    alloc: Global,
    crs: WrittenCrs<'_>,
    crs_type: Option<CrsType>,
    edges: Option<Edges>,
    out: &mut Writer,
) -> Result<(), AllocError>
    requires { (d : Data) × IsCrs crs d }
    ensures { OnOk result (Adds (metadata_tokens (crs_tokens crs.entry) crs_type edges) out.old out.new) }
{
    out.begin_object()?;
    out.key("crs")?;
    put_crs(alloc, crs, out)?;
    put_word("crs_type", crs_type.map(CrsType::as_text), out)?;
    put_word("edges", edges.map(Edges::as_text), out)?;
    out.end_object()
}

/// Writes a CRS.
fn put_crs(alloc: Global, crs: WrittenCrs<'_>, out: &mut Writer) -> Result<(), AllocError>
    requires { (d : Data) × IsCrs crs d }
    ensures { OnOk result (Adds (crs_tokens crs.entry) out.old out.new) }
{
    match crs {
        WrittenCrs::Absent => out.null(),
        WrittenCrs::Text(text) => out.string(text),
        WrittenCrs::Json(text) => put_json(alloc, text, out),
    }
}

/// Copies the tokens of a JSON text.
fn put_json(alloc: Global, text: &str, out: &mut Writer) -> Result<(), AllocError>
    requires { (d : Data) × IsJson text.now d }
    ensures { OnOk result (Adds (tokens text.now) out.old out.new) }
{
    let mut scratch = Scratch::new(alloc);
    let mut reader = Reader::new(text, &mut scratch)?;
    'tokens: while let Some(token) = reader.next() {
        out.token(token)?;
    }
    Ok(())
}

/// Writes a member with a text, where there is one.
fn put_word(key: &str, word: Option<&str>, out: &mut Writer) -> Result<(), AllocError>
    ensures { OnOk result (Adds (string_tokens key.now (option_map (λ w. w.now) word.entry)) out.old out.new) }
{
    if let Some(word) = word {
        out.key(key)?;
        return out.string(word);
    }
    Ok(())
}
