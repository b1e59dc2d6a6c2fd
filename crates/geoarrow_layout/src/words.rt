//! The words of kinds, of coordinate types and of dimensions.
ghost use Rattle.std.specs.Prelude.{◌≡◌};
ghost use Rattle.geoarrow_layout.specs.KindWords.{kind_word, coord_type_word, dimension_word};

use crate::dimensions::{CoordType, Dimension};
use crate::native_kinds::{Kind, NativeKind, Width};

/// Returns the word of a kind, as answers have it (docs/FORMAT.md, 2.2): `point` to
/// `geometrycollection`, `box`, `geometry`, and `wkb`, `large_wkb`, `wkb_view` and the like of
/// `wkt`. Allocates nothing.
///
/// ```rust
/// assert_eq!(rt; kind_word(Kind::Wkb(Width::Large)), "large_wkb");
/// ```
pub fn kind_word(kind: Kind) -> &'static str
    ensures { result.now ≡ kind_word kind }
{
    match kind {
        Kind::Native(NativeKind::Point, _, _) => "point",
        Kind::Native(NativeKind::LineString, _, _) => "linestring",
        Kind::Native(NativeKind::Polygon, _, _) => "polygon",
        Kind::Native(NativeKind::MultiPoint, _, _) => "multipoint",
        Kind::Native(NativeKind::MultiLineString, _, _) => "multilinestring",
        Kind::Native(NativeKind::MultiPolygon, _, _) => "multipolygon",
        Kind::Native(NativeKind::GeometryCollection, _, _) => "geometrycollection",
        Kind::Geometry(_) => "geometry",
        Kind::Rect(_) => "box",
        Kind::Wkb(Width::Plain) => "wkb",
        Kind::Wkb(Width::Large) => "large_wkb",
        Kind::Wkb(Width::View) => "wkb_view",
        Kind::Wkt(Width::Plain) => "wkt",
        Kind::Wkt(Width::Large) => "large_wkt",
        Kind::Wkt(Width::View) => "wkt_view",
    }
}

/// Returns the word of a coordinate type, as answers have it (docs/FORMAT.md, 2.2): `interleaved` or
/// `separated`; where there is none, a dash. Allocates nothing.
///
/// ```rust
/// assert_eq!(rt; coord_type_word(Some(CoordType::Separated)), "separated");
/// ```
pub fn coord_type_word(coord_type: Option<CoordType>) -> &'static str
    ensures { result.now ≡ coord_type_word coord_type }
{
    match coord_type {
        Some(CoordType::Interleaved) => "interleaved",
        Some(CoordType::Separated) => "separated",
        None => "-",
    }
}

/// Returns the word of a dimension, as answers have it (docs/FORMAT.md, 2.2): `XY`, `XYZ`, `XYM` or
/// `XYZM`; where there is none, a dash. Allocates nothing.
///
/// ```rust
/// assert_eq!(rt; dimension_word(None), "-");
/// ```
pub fn dimension_word(dimension: Option<Dimension>) -> &'static str
    ensures { result.now ≡ dimension_word dimension }
{
    match dimension {
        Some(Dimension::XY) => "XY",
        Some(Dimension::XYZ) => "XYZ",
        Some(Dimension::XYM) => "XYM",
        Some(Dimension::XYZM) => "XYZM",
        None => "-",
    }
}
