//! The extension texts of a column.
ghost use Rattle.std.specs.Prelude.{◌≡◌, Some, IfOk, string_bytes};
ghost use Rattle.arrow_values.specs.Texts.{set_extension};
ghost use Rattle.arrow_values.specs.View.{texts_of};
ghost use Rattle.arrow_columns.specs.Column.{column_tree};

use crate::SchemaColumn;
use arrow_values::{DataType, Field};
use std::alloc::{AllocError, Global};
use std::collections::BTreeMap;

/// The column with that extension name and that text as its extension metadata (Arrow, "Extension Types"), and its other metadata as they
/// are. Errs only when out of memory.
///
/// ```rust
/// let column = SchemaColumn {
///     name: String::from_str(alloc, "geom")?,
///     nullable: true,
///     data_type: AnyType::Data(DataType::Binary),
///     metadata: BTreeMap::new(alloc),
/// };
/// let column = with_extension(alloc, column, "geoarrow.wkb", String::from_str(alloc, "{}")?)?;
/// assert_eq!(rt; column.extension_type_name(), Some("geoarrow.wkb"));
/// assert_eq!(rt; column.extension_type_metadata(), Some("{}"));
/// ```
pub fn with_extension(
    alloc: Global,
    column: SchemaColumn,
    name: &str,
    text: String,
) -> Result<SchemaColumn, AllocError>
    ensures { IfOk result (λ c. column_tree c
        ≡ record (column_tree column) { metadata = set_extension name.now (Some (string_bytes text)) (column_tree column).metadata }) }
{
    let metadata = with_texts(alloc, column.metadata, name, text)?;
    Ok(SchemaColumn {
        name: column.name,
        nullable: column.nullable,
        data_type: column.data_type,
        metadata,
    })
}

/// The metadata with that extension name and that text.
fn with_texts(
    alloc: Global,
    metadata: BTreeMap<String, String>,
    name: &str,
    text: String,
) -> Result<BTreeMap<String, String>, AllocError>
    ensures { IfOk result (λ made. texts_of made.entries ≡ set_extension name.now (Some (string_bytes text)) (texts_of metadata.entries)) }
{
    let field = Field::from_parts(String::new(alloc), DataType::Null, false, metadata);
    let field = field.with_extension_texts(alloc, name, Some(text))?;
    let (_name, _data_type, _nullable, metadata) = field.into_parts(alloc)?;
    Ok(metadata)
}
