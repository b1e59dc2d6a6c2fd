//! The extension names of GeoArrow that columns have by their encoding.
ghost use Rattle.std.specs.Prelude.{◌≡◌, ◌↔◌, IsTrue, Some};
ghost use Rattle.arrow_values.specs.Texts.{text_of};
ghost use Rattle.arrow_columns.specs.Column.{type_tree, column_tree};
ghost use Rattle.geoarrow_layout.specs.declared.names.ExtensionName.{ExtensionName};
ghost use Rattle.geoparquet.specs.Encodings.{encoding_text, IsStored, IsStoredAs, IsEncodedAs};

use arrow_columns::{AnyType, SchemaColumn};
use geoarrow_layout::{CoordType, Dimension, ExtensionName, Kind, NativeKind, parse_kind};

/// The extension name of GeoArrow for columns of an encoding.
fn encoding_named(text: &str) -> Option<ExtensionName>
    ensures { (name : ExtensionName) → (result ≡ Some name) ↔ (encoding_text name ≡ Some text.now) }
{
    match text {
        "WKB" => Some(ExtensionName::Wkb),
        "point" => Some(ExtensionName::Native(NativeKind::Point)),
        "linestring" => Some(ExtensionName::Native(NativeKind::LineString)),
        "polygon" => Some(ExtensionName::Native(NativeKind::Polygon)),
        "multipoint" => Some(ExtensionName::Native(NativeKind::MultiPoint)),
        "multilinestring" => Some(ExtensionName::Native(NativeKind::MultiLineString)),
        "multipolygon" => Some(ExtensionName::Native(NativeKind::MultiPolygon)),
        _ => None,
    }
}

/// Whether GeoParquet stores geometries of a kind.
fn is_stored(kind: Kind) -> bool
    ensures { IsTrue result ↔ IsStored kind }
{
    matches!(
        kind,
        Kind::Wkb(_) | Kind::Native(_, CoordType::Separated, Dimension::XY | Dimension::XYZ)
    )
}

/// Whether a type is stored as a column of that extension name.
fn is_stored_as(name: ExtensionName, column_type: &AnyType) -> bool
    ensures { IsTrue result ↔ IsStoredAs name (type_tree column_type.now) }
{
    let AnyType::Data(data_type) = column_type else {
        return false;
    };
    match parse_kind(name, data_type) {
        Ok(kind) => is_stored(kind),
        Err(_) => false,
    }
}

/// Returns the extension name of GeoArrow that a column has by its encoding (docs/FORMAT.md, 5.2):
/// where it is an encoding of GeoParquet 1.1, and the column has a type that GeoArrow reads under that
/// name, as well-known binary or with separated coordinates of x, y, or of x, y, z.
///
/// ```rust
/// let column = SchemaColumn {
///     name: String::from_str(alloc, "geom")?,
///     nullable: true,
///     data_type: AnyType::Data(DataType::Binary),
///     metadata: BTreeMap::new(alloc),
/// };
/// assert_eq!(rt; encoded_as(Some("WKB"), &column), Some(ExtensionName::Wkb));
/// assert_eq!(rt; encoded_as(Some("point"), &column), None);
/// ```
pub fn encoded_as(encoding: Option<&str>, column: &SchemaColumn) -> Option<ExtensionName>
    ensures { (name : ExtensionName) → (result ≡ Some name) ↔ IsEncodedAs (text_of encoding.entry) name (column_tree column.now) }
{
    let name = encoding_named(encoding?)?;
    is_stored_as(name, &column.data_type).then_some(name)
}
