//! The extension metadata that Parquet's geometry types denote (Parquet, "Geospatial Definitions"; `docs/FORMAT.md`, 4.6).
ghost use Rattle.std.specs.Prelude.{◌≡◌, Some, IfOk, List, map, option_map, string_bytes};
ghost use Rattle.std.specs.Char.{is_ascii_digit};
ghost use Rattle.std.specs.List.{list_all};
ghost use Rattle.arrow_values.specs.Texts.{text_of};
ghost use Rattle.parquet_footer.specs.Element.{element};
ghost use Rattle.parquet_footer.specs.Footer.{Pairing};
ghost use Rattle.parquet_footer.specs.Logical.{logical};
ghost use Rattle.parquet_columns.specs.Typed.{IsNamed};
ghost use Rattle.parquet_columns.specs.Geometry.{text_crs, colon_parts, are_digits, srid_crs, type_of_form, code_type, coded_crs, crs_in, edges_of, edges_said, text_with, geometry_type, is_geometry_type, is_plain_leaf, geometry_of, extension_text};
ghost use Rattle.parquet_columns.specs.Says.{says};

use crate::values::KeyValues;
use crs_identity::{FormName, form_name};
use geoarrow_meta::{CrsType, Edges, WrittenCrs, is_projjson_text, metadata_text};
use json::Value;
use parquet_footer::{Algorithm, LogicalType, PhysicalType, Repetition, SchemaElement};
use std::alloc::{AllocError, Global};

/// The CRS where a geometry type names none.
const DEFAULT_CRS: &str = "OGC:CRS84";

/// How the edges of a geometry type are said.
#[derive(Clone, Copy, Debug)]
pub enum EdgesClaim {
    /// By the type: GEOMETRY, or the algorithm of a GEOGRAPHY.
    Said,
    /// By the format's default: a GEOGRAPHY without an algorithm.
    Default,
    /// By nobody: a GEOGRAPHY whose algorithm is not known.
    Broken,
}

/// A CRS that a geometry type names.
#[derive(Clone, Copy)]
pub(crate) enum NamedCrs<'a> {
    /// This one, of this type.
    Written(WrittenCrs<'a>, Option<CrsType>),
    /// The value of this key, where it is PROJJSON, or else none.
    Keyed(&'a str),
}

/// What a geometry type says.
#[derive(Clone, Copy)]
pub(crate) struct GeometrySays<'a> {
    /// The CRS that it names.
    pub crs: Option<&'a str>,
    /// The edges of a GEOGRAPHY.
    pub edges: Option<Edges>,
    /// How its edges are said.
    pub said: EdgesClaim,
}

/// A text as a CRS of that type.
fn text_crs(text: &str, crs_type: Option<CrsType>) -> NamedCrs<'_>
    ensures { (pairs : List Pairing) → IsNamed pairs result (text_crs text.now crs_type) }
{
    NamedCrs::Written(WrittenCrs::Text(text), crs_type)
}

/// What stands before the first colon of a text, and behind it.
pub(crate) fn colon_parts(text: &str) -> Option<(&str, &str)>
    ensures { option_map (λ p. (p.0.now, p.1.now)) result ≡ colon_parts text.now }
{
    text.split_once(':')
}

/// Whether each byte is a digit.
fn are_all_digits(bytes: &[u8]) -> bool
    ensures { result ≡ list_all is_ascii_digit bytes.now }
{
    for b in bytes {
        if !b.is_ascii_digit() {
            return false;
        }
    }
    true
}

/// Whether bytes are one digit or more.
fn are_digits(bytes: &[u8]) -> bool
    ensures { result ≡ are_digits bytes.now }
{
    !bytes.is_empty() && are_all_digits(bytes)
}

/// The CRS of a text `srid:NUMBER`, by what stands behind the colon.
fn srid_crs<'a>(text: &'a str, number: &'a str) -> NamedCrs<'a>
    ensures { (pairs : List Pairing) → IsNamed pairs result (srid_crs text.now number.now) }
{
    if are_digits(number.as_bytes()) {
        text_crs(number, Some(CrsType::Srid))
    } else {
        text_crs(text, None)
    }
}

/// The type of a text by its form.
fn type_of_form(form: FormName) -> Option<CrsType>
    ensures { result ≡ type_of_form form }
{
    match form {
        FormName::Code => Some(CrsType::AuthorityCode),
        FormName::Projjson | FormName::Wkt1 | FormName::Wkt | FormName::Other => None,
    }
}

/// The type of a text. Errs only when out of memory.
fn code_type(alloc: Global, text: &str) -> Result<Option<CrsType>, AllocError>
    ensures { IfOk result (λ crs_type. crs_type ≡ code_type text.now) }
{
    let value = Value::String(text);
    Ok(type_of_form(form_name(alloc, &value)?))
}

/// The CRS of a text that is no PROJJSON. Errs only when out of memory.
fn coded_crs<'a>(alloc: Global, text: &'a str) -> Result<NamedCrs<'a>, AllocError>
    ensures { IfOk result (λ named. (pairs : List Pairing) → IsNamed pairs named (coded_crs pairs text.now (colon_parts text.now))) }
{
    let Some((word, rest)) = colon_parts(text) else {
        return Ok(text_crs(text, None));
    };
    if word == "srid" {
        return Ok(srid_crs(text, rest));
    }
    if word == "projjson" {
        return Ok(NamedCrs::Keyed(rest));
    }
    Ok(text_crs(text, code_type(alloc, text)?))
}

/// The CRS that a geometry type names.
fn named_crs<'a>(alloc: Global, text: Option<&'a str>) -> Result<NamedCrs<'a>, AllocError>
    ensures { IfOk result (λ named. (pairs : List Pairing) → IsNamed pairs named (crs_in pairs (text_of text.entry))) }
{
    let Some(text) = text else {
        return Ok(text_crs(DEFAULT_CRS, Some(CrsType::AuthorityCode)));
    };
    if is_projjson_text(alloc, text)? {
        let crs = WrittenCrs::Json(text);
        return Ok(NamedCrs::Written(crs, Some(CrsType::Projjson)));
    }
    coded_crs(alloc, text)
}

/// The edges of a GEOGRAPHY.
fn edges_of(algorithm: Option<Algorithm>) -> Edges
    ensures { result ≡ edges_of algorithm }
{
    match algorithm {
        None | Some(Algorithm::Spherical | Algorithm::Unknown(_)) => Edges::Spherical,
        Some(Algorithm::Vincenty) => Edges::Vincenty,
        Some(Algorithm::Thomas) => Edges::Thomas,
        Some(Algorithm::Andoyer) => Edges::Andoyer,
        Some(Algorithm::Karney) => Edges::Karney,
    }
}

/// How the edges of a GEOGRAPHY are said.
fn edges_said(algorithm: Option<Algorithm>) -> EdgesClaim
    ensures { result ≡ edges_said algorithm }
{
    match algorithm {
        None => EdgesClaim::Default,
        Some(Algorithm::Unknown(_)) => EdgesClaim::Broken,
        Some(
            Algorithm::Spherical
            | Algorithm::Vincenty
            | Algorithm::Thomas
            | Algorithm::Andoyer
            | Algorithm::Karney,
        ) => EdgesClaim::Said,
    }
}

/// The text of the metadata with the CRS that a geometry type names and those edges.
pub(crate) fn text_with<'a>(
    alloc: Global,
    values: &mut KeyValues<'_, 'a>,
    crs: Option<&'a str>,
    edges: Option<Edges>,
) -> Result<String, AllocError>
    ensures text { IfOk result (λ text. string_bytes text ≡ text_with (crs_in values.old (text_of crs.entry)) edges) }
    ensures same { values.new ≡ values.old }
{
    let named = named_crs(alloc, crs)?;
    match named {
        NamedCrs::Written(written, crs_type) => metadata_text(alloc, written, crs_type, edges),
        NamedCrs::Keyed(key) => values.keyed_text(alloc, key, edges),
    }
}

/// What a logical type says, if it is a geometry type.
fn geometry_type<'a>(logical_type: Option<LogicalType<'a>>) -> Option<GeometrySays<'a>>
    ensures { option_map says result ≡ geometry_type (option_map logical logical_type.entry) }
{
    match logical_type {
        Some(LogicalType::Geometry(crs)) => Some(GeometrySays {
            crs,
            edges: None,
            said: EdgesClaim::Said,
        }),
        Some(LogicalType::Geography(crs, algorithm)) => Some(GeometrySays {
            crs,
            edges: Some(edges_of(algorithm)),
            said: edges_said(algorithm),
        }),
        _ => None,
    }
}

/// Whether a logical type is a geometry type.
pub(crate) fn is_geometry_type(logical_type: Option<LogicalType<'_>>) -> bool
    ensures { result ≡ is_geometry_type (option_map logical logical_type.entry) }
{
    matches!(
        logical_type,
        Some(LogicalType::Geometry(_) | LogicalType::Geography(_, _))
    )
}

/// Whether an element is a leaf of BYTE_ARRAY, and not repeated.
pub(crate) fn is_plain_leaf(found: &SchemaElement<'_>) -> bool
    ensures { result ≡ is_plain_leaf (element found.now) }
{
    matches!(found.storage.physical_type, Some(PhysicalType::ByteArray))
        && !matches!(found.storage.repetition, Some(Repetition::Repeated))
}

/// What an element says by its geometry type, if it is of one.
pub(crate) fn geometry_of<'a>(found: &SchemaElement<'a>) -> Option<GeometrySays<'a>>
    ensures { option_map says result ≡ geometry_of (element found.now) }
{
    if is_plain_leaf(found) {
        return geometry_type(found.logical_type);
    }
    None
}

/// The text of the extension metadata that an element denotes, if it is of a geometry type. Errs only when out of memory.
pub(crate) fn extension_text<'a>(
    alloc: Global,
    values: &mut KeyValues<'_, 'a>,
    found: &SchemaElement<'a>,
) -> Result<Option<String>, AllocError>
    ensures text { IfOk result (λ text. option_map string_bytes text ≡ extension_text values.old (element found.now)) }
    ensures same { values.new ≡ values.old }
{
    match geometry_of(found) {
        Some(said) => Ok(Some(text_with(alloc, values, said.crs, said.edges)?)),
        None => Ok(None),
    }
}
