//! The values of a metadata text, whatever numbers its CRS holds.
ghost use Rattle.std.specs.Prelude.{◌≡◌, ◌≢◌, Some, None, IfOk, IfSome, IsSome, option_map, option_and_then, codes};
ghost use Rattle.json.specs.Find.{get};
ghost use Rattle.json.specs.Value.{value_view};
ghost use Rattle.serde_json.specs.Data.{Data, string};
ghost use Rattle.serde_json.specs.Find.{as_object};
ghost use Rattle.serde_json.specs.Read.{of_json, read};
ghost use Rattle.arrow_values.specs.Tree.{Text};
ghost use Rattle.arrow_values.specs.Texts.{text_of};
ghost use Rattle.value_tokens.specs.Values.{IsReadable, is_object};
ghost use Rattle.geoarrow_meta.specs.Read.{at_key, crs_type_data, edges_data};
ghost use Rattle.geoarrow_meta.specs.KeyValues.{IsNamed, IsWord};
ghost use Rattle.column_check.specs.Metadata.{no_values, values_of, unless_null, is_planar, unless_planar, edges_in, AreFound, HasCrs, IsJsonRead, IsMetadataRead};

use geoarrow_meta::{CrsType, Edges};
use json::{Scratch, Value};
use std::alloc::{AllocError, Global};
use value_tokens::{JsonText, Refusal, member_of};

/// The values of a column's extension metadata (GeoArrow, "Extension metadata"); one that is missing or null is `None`.
#[derive(Debug, Drop)]
pub struct ColumnMetadata {
    /// The coordinate reference system as it is written, of any JSON.
    pub crs: Option<JsonText>,
    /// How the coordinate reference system is written.
    pub crs_type: Option<CrsType>,
    /// How edges run; planar where there is none, also where the metadata says `planar`.
    pub edges: Option<Edges>,
}

/// Why a metadata text denotes no values of the format.
#[derive(Debug, Clone, Copy, PartialEq, Eq)]
pub enum MetadataFault {
    /// The text is not JSON.
    NotJson,
    /// The text is JSON, but no object.
    NotObject,
    /// The value of `crs_type` is none of the format's.
    UnknownCrsType,
    /// The value of `edges` is none of the format's, and not `planar`.
    UnknownEdges,
    /// Both values are none of the format's.
    UnknownCrsTypeAndEdges,
}

/// Reads the values that a metadata text denotes, or why it denotes no values (`docs/FORMAT.md`,
/// 2.6). A missing text and an empty one denote none of the three. The scratch buffer is kept by the
/// caller from text to text: a new one has 16 KiB to clear. Errs only when out of memory.
///
/// ```rust
/// let mut scratch = Scratch::new(alloc);
/// assert!(rt; matches!(read_metadata(alloc, Some(""), &mut scratch)?, Ok(_)));
/// let fault = read_metadata(alloc, Some(" "), &mut scratch)?;
/// assert!(rt; matches!(fault, Err(MetadataFault::NotJson)));
/// ```
pub fn read_metadata(
    alloc: Global,
    text: Option<&str>,
    scratch: &mut Scratch,
) -> Result<Result<ColumnMetadata, MetadataFault>, AllocError>
    ensures { IfOk result (IsMetadataRead (text_of text.entry)) }
{
    match text {
        Some(text) if !text.is_empty() => read_json(alloc, text, scratch),
        _ => Ok(Ok(without_values())),
    }
}

/// The metadata without values.
fn without_values() -> ColumnMetadata
    ensures values { values_of result ≡ no_values }
    ensures crs { result.crs ≡ None }
{
    ColumnMetadata {
        crs: None,
        crs_type: None,
        edges: None,
    }
}

/// The values that a text denotes as JSON, or why it denotes none.
fn read_json(
    alloc: Global,
    text: &str,
    scratch: &mut Scratch,
) -> Result<Result<ColumnMetadata, MetadataFault>, AllocError>
    ensures { IfOk result (IsJsonRead text.now) }
{
    let value = match value_tokens::read_json(alloc, text, scratch) {
        Ok(value) => value,
        Err(Refusal::Text) => return Ok(Err(MetadataFault::NotJson)),
        Err(Refusal::Memory) => return Err(AllocError),
    };
    if !is_object(&value) {
        return Ok(Err(MetadataFault::NotObject));
    }
    let crs = crs_at(alloc, &value)?;
    Ok(of_values(crs, crs_type_at(&value), edges_at(&value)))
}

/// Whether a value is an object.
fn is_object(value: &Value<'_>) -> bool
    ensures { result ≡ is_object (value_view value.now) }
{
    matches!(value, Value::Object(_))
}

/// The member with that key, if there is one that is not null.
fn present_at<'v, 'a>(value: &'v Value<'a>, key: &str) -> Option<&'v Value<'a>>
    requires { IsReadable (value_view value.now) }
    ensures value { option_map (λ v. value_view v.now) result ≡ unless_null (get key.now (value_view value.now)) }
    ensures readable { IfSome result (λ v. IsReadable (value_view v.now)) }
    ensures read { (d : Data) → of_json (value_view value.now) ≡ Some d → option_and_then of_json (unless_null (get key.now (value_view value.now))) ≡ at_key key.now d }
{
    member_of(value, key).filter(|found| !found.is_null())
}

/// The CRS as it is written.
fn crs_at(alloc: Global, value: &Value<'_>) -> Result<Option<JsonText>, AllocError>
    requires { IsReadable (value_view value.now) }
    ensures crs { IfOk result (λ crs. crs ≡ unless_null (get (codes "crs") (value_view value.now))) }
    ensures read { IfOk result (λ crs. (d : Data) → of_json (value_view value.now) ≡ Some d → option_and_then of_json crs ≡ at_key (codes "crs") d) }
{
    match present_at(value, "crs") {
        Some(crs) => Ok(Some(JsonText::of(alloc, crs)?)),
        None => Ok(None),
    }
}

/// The text at the key, or its absence; none where another value stands there.
fn word_at<'a>(value: &Value<'a>, key: &str) -> Option<Option<&'a str>>
    requires { IsReadable (value_view value.now) }
    ensures { (d : Data) → of_json (value_view value.now) ≡ Some d → IsWord result (at_key key.now d) }
{
    match present_at(value, key) {
        None => Some(None),
        Some(found) => Some(Some(found.as_str()?)),
    }
}

/// The CRS type, or its absence; none where it is none of the format's.
fn crs_type_at(value: &Value<'_>) -> Option<Option<CrsType>>
    requires { IsReadable (value_view value.now) }
    ensures { (d : Data) → of_json (value_view value.now) ≡ Some d → IsNamed crs_type_data result (at_key (codes "crs_type") d) }
{
    match word_at(value, "crs_type")? {
        None => Some(None),
        Some(text) => Some(Some(CrsType::from_text(text)?)),
    }
}

/// The edges, or their absence; none where they are none of the format's.
fn edges_at(value: &Value<'_>) -> Option<Option<Edges>>
    requires { IsReadable (value_view value.now) }
    ensures { (d : Data) → of_json (value_view value.now) ≡ Some d → IsNamed edges_data result (edges_in d) }
{
    match word_at(value, "edges")? {
        None => Some(None),
        Some(text) => edges_named(text),
    }
}

/// The edges of that name, of which planar ones are none; none where they are none of the format's.
fn edges_named(text: &str) -> Option<Option<Edges>>
    ensures { IsNamed edges_data result (unless_planar (Some (string text.now))) }
{
    if text == "planar" {
        return Some(None);
    }
    Some(Some(Edges::from_text(text)?))
}

/// Whether the edges are planar by name.
#[tactic(auto, using(crate::proofs::Keys::not_planar))]
pub(crate) fn are_planar(value: &Value<'_>) -> bool
    requires { IsReadable (value_view value.now) }
    ensures { (d : Data) → of_json (value_view value.now) ≡ Some d → result ≡ is_planar (at_key (codes "edges") d) }
{
    match word_at(value, "edges") {
        Some(Some(text)) => text == "planar",
        Some(None) => false,
        None => false,
    }
}

/// What the values of the three keys say.
fn of_values(
    crs: Option<JsonText>,
    crs_type: Option<Option<CrsType>>,
    edges: Option<Option<Edges>>,
) -> Result<ColumnMetadata, MetadataFault>
    ensures { (s : Text) (d : Data) → read s ≡ Some d → IsSome (as_object d) → AreFound d (option_and_then of_json crs) crs_type edges → HasCrs s crs → IsJsonRead s result }
{
    match (crs_type, edges) {
        (Some(crs_type), Some(edges)) => Ok(ColumnMetadata {
            crs,
            crs_type,
            edges,
        }),
        (None, Some(_)) => Err(MetadataFault::UnknownCrsType),
        (Some(_), None) => Err(MetadataFault::UnknownEdges),
        (None, None) => Err(MetadataFault::UnknownCrsTypeAndEdges),
    }
}
