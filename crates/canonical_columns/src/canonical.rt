//! The normal form of a column.
ghost use Rattle.std.specs.Prelude.{◌≡◌, IfOk, option_map, string_bytes};
ghost use Rattle.json.specs.Print.{print};
ghost use Rattle.json.specs.Tree.{json_tokens};
ghost use Rattle.arrow_values.specs.Texts.{set_extension};
ghost use Rattle.arrow_values.specs.View.{texts_of};
ghost use Rattle.arrow_columns.specs.Column.{column_tree};
ghost use Rattle.canonical_columns.specs.Canonical.{metadata_object, normal_text, as_written, IsCanonical, IsWritable};

use arrow_columns::{AnyType, SchemaColumn};
use arrow_values::{DataType, Field};
use column_check::{ColumnMetadata, Finding, Geometry, inspect_column};
use geoarrow_layout::kind_data_type;
use geoarrow_meta::{WrittenCrs, metadata_text};
use json::Scratch;
use std::alloc::{AllocError, Global};
use std::collections::BTreeMap;

/// Returns the column in normal form (`docs/FORMAT.md`, 2.10). Where it holds geometries by its
/// extension name, it gets the data type, the extension name and the extension metadata that GeoArrow
/// writes for them, with the CRS as it is written; its name, its nullability and its other metadata
/// are kept. Any other column is returned as it is. The scratch buffer is kept by the caller from
/// column to column. Errs only when out of memory.
///
/// ```rust
/// let mut metadata = BTreeMap::new(alloc);
/// let key = String::from_str(alloc, "ARROW:extension:name")?;
/// metadata.insert(key, String::from_str(alloc, "ogc.wkb")?)?;
/// let column = SchemaColumn {
///     name: String::from_str(alloc, "geom")?,
///     nullable: true,
///     data_type: AnyType::Data(DataType::Binary),
///     metadata,
/// };
/// let mut scratch = Scratch::new(alloc);
/// let canonical = canonical_column(alloc, &mut scratch, column)?;
/// assert_eq!(rt; canonical.extension_type_name(), Some("geoarrow.wkb"));
/// ```
pub fn canonical_column(
    alloc: Global,
    scratch: &mut Scratch,
    column: SchemaColumn,
) -> Result<SchemaColumn, AllocError>
    ensures { IfOk result (λ canonical. IsCanonical (column_tree column) (column_tree canonical)) }
{
    match inspect_column(alloc, scratch, &column, false)? {
        Finding::Geometry(geometry) => as_written(alloc, column, &geometry),
        _ => Ok(column),
    }
}

/// The column as it is written for these geometries.
fn as_written(
    alloc: Global,
    column: SchemaColumn,
    geometry: &Geometry,
) -> Result<SchemaColumn, AllocError>
    requires { IsWritable geometry.now.metadata.crs }
    ensures { IfOk result (λ canonical. column_tree canonical ≡ as_written geometry.now (column_tree column)) }
{
    let SchemaColumn {
        name,
        nullable,
        data_type: _,
        metadata,
    } = column;
    let data_type = AnyType::Data(kind_data_type(alloc, geometry.kind)?);
    let text = normal_text(alloc, &geometry.metadata)?;
    let metadata = with_extension(alloc, metadata, geometry.kind.name(), text)?;
    Ok(SchemaColumn {
        name,
        nullable,
        data_type,
        metadata,
    })
}

/// The metadata of a field with that extension name, and with that text as its extension metadata, or
/// without any.
fn with_extension(
    alloc: Global,
    metadata: BTreeMap<String, String>,
    name: &str,
    text: Option<String>,
) -> Result<BTreeMap<String, String>, AllocError>
    ensures { IfOk result (λ made. texts_of made.entries ≡ set_extension name.now (option_map string_bytes text) (texts_of metadata.entries)) }
{
    let field = Field::from_parts(String::new(alloc), DataType::Null, false, metadata);
    let field = field.with_extension_texts(alloc, name, text)?;
    let (_name, _data_type, _nullable, metadata) = field.into_parts(alloc)?;
    Ok(metadata)
}

/// The text of extension metadata, where one is written.
fn normal_text(alloc: Global, metadata: &ColumnMetadata) -> Result<Option<String>, AllocError>
    requires { IsWritable metadata.now.crs }
    ensures { IfOk result (λ text. option_map string_bytes text ≡ normal_text metadata.now) }
{
    if metadata.crs.is_none() && metadata.edges.is_none() {
        return Ok(None);
    }
    Ok(Some(object_text(alloc, metadata)?))
}

/// The text of the object that extension metadata are.
fn object_text(alloc: Global, metadata: &ColumnMetadata) -> Result<String, AllocError>
    requires { IsWritable metadata.now.crs }
    ensures { IfOk result (λ text. string_bytes text ≡ print (json_tokens (metadata_object metadata.now))) }
{
    let (crs_type, edges) = (metadata.crs_type, metadata.edges);
    match &metadata.crs {
        Some(crs) => metadata_text(alloc, WrittenCrs::Json(crs.as_str()), crs_type, edges),
        None => metadata_text(alloc, WrittenCrs::Absent, crs_type, edges),
    }
}
