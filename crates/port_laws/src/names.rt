//! Laws of the extension names of the eleven types.
ghost use Rattle.std.specs.Prelude.{◌≡◌};
ghost use Rattle.geoarrow_layout.specs.declared.native_kinds.NativeKind.TheVariants as kinds;
ghost use Rattle.geoarrow_layout.specs.declared.names.ExtensionName.TheVariants as names;
ghost use Rattle.geoarrow_layout.specs.Kinds.{name_text};

use arrow_values::ExtensionType;
use geoarrow_schema::{
    BoxType, GeometryCollectionType, GeometryType, LineStringType, MultiLineStringType,
    MultiPointType, MultiPolygonType, PointType, PolygonType, WkbType, WktType,
};

/// A law: the extension name of each of the seven native types, under which a field is read and
/// written, is that of its kind.
pub fn native_extension_names() -> (
    &'static str,
    &'static str,
    &'static str,
    &'static str,
    &'static str,
    &'static str,
    &'static str,
)
    ensures points { result.0.now ≡ name_text (names.Native kinds.Point) }
    ensures line_strings { result.1.now ≡ name_text (names.Native kinds.LineString) }
    ensures polygons { result.2.now ≡ name_text (names.Native kinds.Polygon) }
    ensures multipoints { result.3.now ≡ name_text (names.Native kinds.MultiPoint) }
    ensures multilinestrings { result.4.now ≡ name_text (names.Native kinds.MultiLineString) }
    ensures multipolygons { result.5.now ≡ name_text (names.Native kinds.MultiPolygon) }
    ensures collections { result.6.now ≡ name_text (names.Native kinds.GeometryCollection) }
{
    (
        PointType::extension_name(),
        LineStringType::extension_name(),
        PolygonType::extension_name(),
        MultiPointType::extension_name(),
        MultiLineStringType::extension_name(),
        MultiPolygonType::extension_name(),
        GeometryCollectionType::extension_name(),
    )
}

/// A law: so it is of geometries of any kind, of boxes, of well-known binary and of text.
pub fn other_extension_names() -> (&'static str, &'static str, &'static str, &'static str)
    ensures geometries { result.0.now ≡ name_text names.Geometry }
    ensures boxes { result.1.now ≡ name_text names.Rect }
    ensures binary { result.2.now ≡ name_text names.Wkb }
    ensures text { result.3.now ≡ name_text names.Wkt }
{
    (
        GeometryType::extension_name(),
        BoxType::extension_name(),
        WkbType::extension_name(),
        WktType::extension_name(),
    )
}
