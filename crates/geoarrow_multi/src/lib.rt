//! GeoArrow's native types of many parts: shapes for `NativeType` of `geoarrow_native`.
#![tactic(auto)]

ghost use Rattle.std.specs.Prelude.{◌≡◌, refl, pos};
ghost use Rattle.geoarrow_layout.specs.declared.native_kinds.NativeKind.TheVariants as kinds;
ghost use Rattle.geoarrow_layout.specs.declared.names.ExtensionName.TheVariants as names;
ghost use Rattle.geoarrow_layout.specs.Kinds.{name_text};

use geoarrow_layout::NativeKind;
use geoarrow_native::{NativeShape, NativeType};

/// The shape of multipoints.
pub struct MultiPoint;

impl NativeShape for MultiPoint {
    const NAME: &'static str = "geoarrow.multipoint";

    const TYPE: &'static str = "MultiPointType";

    const KIND: NativeKind = NativeKind::MultiPoint;

    const OFFSET: i8 = 4;

    ghost KIND = { kinds.MultiPoint };

    ghost OFFSET = { pos 4 };

    ghost offset_is = { refl };
}

/// Multipoints (GeoArrow, "MultiPoint"): each value is a list of points.
///
/// ```rust
/// let metadata = Arc::new(alloc, Metadata::default())?;
/// let points = MultiPointType::new(Dimension::XY, metadata);
/// let coordinate = coord_data_type(alloc, CoordType::Separated, Dimension::XY)?;
/// let items = Field::new(alloc, "points", coordinate, false)?;
/// assert!(rt; points.data_type(alloc)? == DataType::List(Box::new(alloc, items)?));
/// ```
pub type MultiPointType = NativeType<MultiPoint>;

/// The shape of multilinestrings.
pub struct MultiLineString;

impl NativeShape for MultiLineString {
    const NAME: &'static str = "geoarrow.multilinestring";

    const TYPE: &'static str = "MultiLineStringType";

    const KIND: NativeKind = NativeKind::MultiLineString;

    const OFFSET: i8 = 5;

    ghost KIND = { kinds.MultiLineString };

    ghost OFFSET = { pos 5 };

    ghost offset_is = { refl };
}

/// Multilinestrings (GeoArrow, "MultiLineString"): each value is a list of line strings.
///
/// ```rust
/// let metadata = Arc::new(alloc, Metadata::default())?;
/// let lines = MultiLineStringType::new(Dimension::XYM, metadata);
/// let coordinate = coord_data_type(alloc, CoordType::Separated, Dimension::XYM)?;
/// let vertices = Field::new(alloc, "vertices", coordinate, false)?;
/// let items = Field::new_list(alloc, "linestrings", vertices, false)?;
/// assert!(rt; lines.data_type(alloc)? == DataType::List(Box::new(alloc, items)?));
/// ```
pub type MultiLineStringType = NativeType<MultiLineString>;

/// The shape of multipolygons.
pub struct MultiPolygon;

impl NativeShape for MultiPolygon {
    const NAME: &'static str = "geoarrow.multipolygon";

    const TYPE: &'static str = "MultiPolygonType";

    const KIND: NativeKind = NativeKind::MultiPolygon;

    const OFFSET: i8 = 6;

    ghost KIND = { kinds.MultiPolygon };

    ghost OFFSET = { pos 6 };

    ghost offset_is = { refl };
}

/// Multipolygons (GeoArrow, "MultiPolygon"): each value is a list of polygons.
///
/// ```rust
/// let metadata = Arc::new(alloc, Metadata::default())?;
/// let polygons = MultiPolygonType::new(Dimension::XYZ, metadata);
/// let coordinate = coord_data_type(alloc, CoordType::Separated, Dimension::XYZ)?;
/// let vertices = Field::new(alloc, "vertices", coordinate, false)?;
/// let rings = Field::new_list(alloc, "rings", vertices, false)?;
/// let items = Field::new_list(alloc, "polygons", rings, false)?;
/// assert!(rt; polygons.data_type(alloc)? == DataType::List(Box::new(alloc, items)?));
/// ```
pub type MultiPolygonType = NativeType<MultiPolygon>;

/// The shape of collections of geometries.
pub struct GeometryCollection;

impl NativeShape for GeometryCollection {
    const NAME: &'static str = "geoarrow.geometrycollection";

    const TYPE: &'static str = "GeometryCollectionType";

    const KIND: NativeKind = NativeKind::GeometryCollection;

    const OFFSET: i8 = 7;

    ghost KIND = { kinds.GeometryCollection };

    ghost OFFSET = { pos 7 };

    ghost offset_is = { refl };
}

/// Collections (GeoArrow, "GeometryCollection"): each value is a list of the other kinds, in one coordinate type and dimension.
///
/// ```rust
/// let metadata = Arc::new(alloc, Metadata::default())?;
/// let collections = GeometryCollectionType::new(Dimension::XY, metadata);
/// let union = mixed_data_type(alloc, CoordType::Separated, Dimension::XY)?;
/// let geometries = Field::new(alloc, "geometries", union, false)?;
/// assert!(rt; collections.data_type(alloc)? == DataType::List(Box::new(alloc, geometries)?));
/// ```
pub type GeometryCollectionType = NativeType<GeometryCollection>;

/// Laws of the shapes, for the crates above.
pub mod laws {
    use super::{GeometryCollection, MultiLineString, MultiPoint, MultiPolygon, NativeShape};

    /// A law: the constants `NAME` of multipoints, multilinestrings, multipolygons and collections are their extension names.
    pub fn names_of_shapes() -> (&'static str, &'static str, &'static str, &'static str)
        ensures points { result.0.now ≡ name_text (names.Native kinds.MultiPoint) }
        ensures line_strings { result.1.now ≡ name_text (names.Native kinds.MultiLineString) }
        ensures polygons { result.2.now ≡ name_text (names.Native kinds.MultiPolygon) }
        ensures collections { result.3.now ≡ name_text (names.Native kinds.GeometryCollection) }
    {
        (
            MultiPoint::NAME,
            MultiLineString::NAME,
            MultiPolygon::NAME,
            GeometryCollection::NAME,
        )
    }
}
