//! A column that is made.
ghost use Rattle.std.specs.Prelude.{◌≡◌, IfOk, MatchResult, option_map, string_bytes};
ghost use Rattle.json.specs.Print.{print};
ghost use Rattle.json.specs.Tree.{json_tokens};
ghost use Rattle.arrow_columns.specs.Column.{column_of};
ghost use Rattle.canonical_columns.specs.Canonical.{is_bare, metadata_object, normal_text};
ghost use Rattle.field_makers.specs.Made.{CanBeMade, IsMade, IsRefusedFor, is_type_alone};
ghost use Rattle.field_makers.specs.Made.{is_written, made, metadata_of};

use crate::error::MakeError;
use crate::new_column::NewColumn;
use arrow_columns::SchemaColumn;
use arrow_values::Field;
use geoarrow_layout::kind_data_type;
use geoarrow_meta::{WrittenCrs, is_projjson_text, metadata_text};
use std::alloc::{AllocError, Global};
use std::collections::BTreeMap;

/// Makes the column with that name and nullability, the data type and the extension name that are
/// written for the kind, and extension metadata of the CRS as it is written, its type and the
/// edges; without extension metadata where there is neither a CRS nor edges (`docs/FORMAT.md`, 1.2
/// to 1.6). The CRS is not looked into: its numbers need not be whole, and its members keep their
/// order. Errs where the text of a PROJJSON is no object of JSON that nests at most 126 levels, as
/// `serde_json` reads it, where there is a CRS type and no CRS, and when out of memory.
///
/// ```rust
/// let new = NewColumn {
///     name: "geom",
///     nullable: false,
///     kind: Kind::Native(NativeKind::Point, CoordType::Interleaved, Dimension::XY),
///     crs: WrittenCrs::Json(r#"{"type": "GeographicCRS", "epoch": 2010.50}"#),
///     crs_type: None,
///     edges: Some(Edges::Spherical),
/// };
/// let column = make_column(alloc, &new)?;
/// assert_eq!(rt; column.extension_type_name(), Some("geoarrow.point"));
/// assert_eq!(rt;
///     column.extension_type_metadata(),
///     Some(r#"{"crs":{"type":"GeographicCRS","epoch":2010.50},"edges":"spherical"}"#)
/// );
/// ```
pub fn make_column(alloc: Global, new: &NewColumn<'_>) -> Result<SchemaColumn, MakeError>
    ensures { MatchResult result (IsMade new.now) (IsRefusedFor new.now) }
{
    check(alloc, new)?;
    let field = field_made(alloc, new)?;
    Ok(SchemaColumn::from_field(alloc, field)?)
}

/// Looks whether such a column is made.
fn check(alloc: Global, new: &NewColumn<'_>) -> Result<(), MakeError>
    ensures { MatchResult result (λ _. CanBeMade new.now) (IsRefusedFor new.now) }
{
    if is_type_alone(new) {
        return Err(MakeError::TypeWithoutCrs);
    }
    if !is_written(alloc, new.crs)? {
        return Err(MakeError::NotProjjson);
    }
    Ok(())
}

/// Whether there is a CRS type, and no CRS.
fn is_type_alone(new: &NewColumn<'_>) -> bool
    ensures { result ≡ is_type_alone new.now.crs new.now.crs_type }
{
    match new.crs {
        WrittenCrs::Absent => new.crs_type.is_some(),
        WrittenCrs::Text(_) | WrittenCrs::Json(_) => false,
    }
}

/// Whether what is to be PROJJSON is an object of JSON, nested at most 126 levels.
fn is_written(alloc: Global, crs: WrittenCrs<'_>) -> Result<bool, AllocError>
    ensures { IfOk result (λ answer. answer ≡ is_written crs.entry) }
{
    match crs {
        WrittenCrs::Absent | WrittenCrs::Text(_) => Ok(true),
        WrittenCrs::Json(text) => is_projjson_text(alloc, text),
    }
}

/// The field of the column.
fn field_made(alloc: Global, new: &NewColumn<'_>) -> Result<Field, AllocError>
    requires { CanBeMade new.now }
    ensures { IfOk result (λ field. column_of field ≡ made new.now) }
{
    let name = String::from_str(alloc, new.name)?;
    let data_type = kind_data_type(alloc, new.kind)?;
    let text = text_made(alloc, new)?;
    Field::from_parts(name, data_type, new.nullable, BTreeMap::new(alloc)).with_extension_texts(
        alloc,
        new.kind.name(),
        text,
    )
}

/// The text of the extension metadata, where one is written.
fn text_made(alloc: Global, new: &NewColumn<'_>) -> Result<Option<String>, AllocError>
    requires { CanBeMade new.now }
    ensures { IfOk result (λ text. option_map string_bytes text
        ≡ normal_text (metadata_of new.now)) }
{
    if is_bare(new) {
        return Ok(None);
    }
    Ok(Some(object_made(alloc, new)?))
}

/// Whether there is neither a CRS nor are there edges.
fn is_bare(new: &NewColumn<'_>) -> bool
    ensures { result ≡ is_bare (metadata_of new.now) }
{
    matches!(new.crs, WrittenCrs::Absent) && new.edges.is_none()
}

/// The text of the object that extension metadata are.
fn object_made(alloc: Global, new: &NewColumn<'_>) -> Result<String, AllocError>
    requires { CanBeMade new.now }
    ensures { IfOk result (λ text. string_bytes text
        ≡ print (json_tokens (metadata_object (metadata_of new.now)))) }
{
    metadata_text(alloc, new.crs, new.crs_type, new.edges)
}
