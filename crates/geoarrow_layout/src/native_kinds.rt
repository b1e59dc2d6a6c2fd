//! The kinds of columns, and the tables of kinds: names, lists and type ids.
ghost use Rattle.std.specs.Prelude.{◌≡◌, ◌≤◌, ◌↔◌, ◌++◌};
ghost use Rattle.geoarrow_layout.specs.Cited.{Some, pos, map, length, extension_of, name_of, coord_type_of, dimension_of, offset_of, type_id_of, fixed_text, levels_of, list_names, type_name, dimension_suffix};

use crate::dimensions::CoordType::{Interleaved, Separated};
use crate::dimensions::{CoordType, Dimension, by_dimension, dimension_at, of_dimensions};
use crate::names::ExtensionName;
use arrow_values::FixedName;

/// A kind in each coordinate type and these dimensions, for each of these native kinds, and then the other kinds.
macro_rules! all_kinds {
    ($xy:path, $z:path, $m:path, $zm:path; $($kind:ident)*) => {
        [
            $(
                Kind::Native(NativeKind::$kind, Interleaved, $xy),
                Kind::Native(NativeKind::$kind, Interleaved, $z),
                Kind::Native(NativeKind::$kind, Interleaved, $m),
                Kind::Native(NativeKind::$kind, Interleaved, $zm),
                Kind::Native(NativeKind::$kind, Separated, $xy),
                Kind::Native(NativeKind::$kind, Separated, $z),
                Kind::Native(NativeKind::$kind, Separated, $m),
                Kind::Native(NativeKind::$kind, Separated, $zm),
            )*
            Kind::Geometry(Interleaved), Kind::Geometry(Separated),
            Kind::Rect($xy), Kind::Rect($z), Kind::Rect($m), Kind::Rect($zm),
            Kind::Wkb(Width::Plain), Kind::Wkb(Width::Large), Kind::Wkb(Width::View),
            Kind::Wkt(Width::Plain), Kind::Wkt(Width::Large), Kind::Wkt(Width::View),
        ]
    };
}

/// The name of a member, from a table: for each native kind, the names in the order of the dimensions.
macro_rules! member_names {
    ($of:expr, $in:expr; $($kind:ident $z:ident $m:ident $zm:ident,)*) => {
        match $of {
            $(NativeKind::$kind => by_dimension!($in;
                FixedName::$kind, FixedName::$z, FixedName::$m, FixedName::$zm
            ),)*
        }
    };
}

/// The kinds of geometry that have their own layout (GeoArrow, "Native encoding").
/// [`Kind`] has an example.
#[derive(Clone, Copy, Debug, PartialEq, Eq)]
pub enum NativeKind {
    /// A coordinate.
    Point,
    /// A list of coordinates.
    LineString,
    /// A list of rings.
    Polygon,
    /// A list of points.
    MultiPoint,
    /// A list of line strings.
    MultiLineString,
    /// A list of polygons.
    MultiPolygon,
    /// A list of geometries of the other kinds, all of one dimension.
    GeometryCollection,
}

/// How bytes and texts are stored (Arrow, "Variable-size Binary Layout", "Variable-size Binary View Layout").
/// [`Kind`] has an example.
#[derive(Clone, Copy, Debug, PartialEq, Eq)]
pub enum Width {
    /// With 32-bit offsets.
    Plain,
    /// With 64-bit offsets.
    Large,
    /// As views.
    View,
}

/// A kind of column: what its extension name and its data type say together.
///
/// ```rust
/// let kind = Kind::Native(NativeKind::Polygon, CoordType::Separated, Dimension::XYZ);
/// assert_eq!(rt; kind.name(), "geoarrow.polygon");
/// assert_eq!(rt; kind.dimension(), Some(Dimension::XYZ));
/// assert_eq!(rt; Kind::Wkb(Width::Large).dimension(), None);
/// ```
#[derive(Clone, Copy, Debug, PartialEq, Eq)]
pub enum Kind {
    /// Geometries of one kind, coordinate type and dimension.
    Native(NativeKind, CoordType, Dimension),
    /// Geometries of any kind and dimension, in a union.
    Geometry(CoordType),
    /// Boxes.
    Rect(Dimension),
    /// Well-known binary.
    Wkb(Width),
    /// Well-known text.
    Wkt(Width),
}

impl Kind {
    /// The extension name of a column of this kind (GeoArrow, "Extension types").
    pub fn name(&self) -> &'static str
        ensures { result.now ≡ name_of self.now }
    {
        self.extension_name().as_text()
    }

    /// The extension name, as an `ExtensionName`.
    pub fn extension_name(&self) -> ExtensionName
        ensures { result ≡ extension_of self.now }
    {
        match self {
            Kind::Native(kind, _, _) => ExtensionName::Native(*kind),
            Kind::Geometry(_) => ExtensionName::Geometry,
            Kind::Rect(_) => ExtensionName::Rect,
            Kind::Wkb(_) => ExtensionName::Wkb,
            Kind::Wkt(_) => ExtensionName::Wkt,
        }
    }

    /// How the coordinates are stored: `Separated` for boxes, and `None` for well-known binary and text.
    pub fn coord_type(&self) -> Option<CoordType>
        ensures { result ≡ coord_type_of self.now }
    {
        match self {
            Kind::Native(_, coord_type, _) | Kind::Geometry(coord_type) => Some(*coord_type),
            Kind::Rect(_) => Some(CoordType::Separated),
            Kind::Wkb(_) | Kind::Wkt(_) => None,
        }
    }

    /// The dimension; `None` for geometries of any kind and for well-known binary and text.
    pub fn dimension(&self) -> Option<Dimension>
        ensures { result ≡ dimension_of self.now }
    {
        match self {
            Kind::Native(_, _, dimension) | Kind::Rect(dimension) => Some(*dimension),
            Kind::Geometry(_) | Kind::Wkb(_) | Kind::Wkt(_) => None,
        }
    }

    /// All 68 kinds, each once.
    pub const ALL: [Kind; 68] = of_dimensions! { all_kinds;
        Point LineString Polygon MultiPoint MultiLineString MultiPolygon GeometryCollection
    };
}

/// The native kinds, in the order of their type ids; all but the last are those of the members of a collection.
pub(crate) const KINDS: [NativeKind; 7] = [
    NativeKind::Point,
    NativeKind::LineString,
    NativeKind::Polygon,
    NativeKind::MultiPoint,
    NativeKind::MultiLineString,
    NativeKind::MultiPolygon,
    NativeKind::GeometryCollection,
];

/// The native kind whose type id in two dimensions that is.
fn kind_at(offset: u8) -> Option<NativeKind>
    ensures { (k : NativeKind) → (result ≡ Some k) ↔ (offset ≡ offset_of k) }
{
    match offset {
        1 => Some(NativeKind::Point),
        2 => Some(NativeKind::LineString),
        3 => Some(NativeKind::Polygon),
        4 => Some(NativeKind::MultiPoint),
        5 => Some(NativeKind::MultiLineString),
        6 => Some(NativeKind::MultiPolygon),
        7 => Some(NativeKind::GeometryCollection),
        _ => None,
    }
}

/// The native kind and the dimension that a type id says (GeoArrow, "Geometry": the table of type ids).
pub(crate) fn parts_of_id(id: i8) -> Option<(NativeKind, Dimension)>
    ensures { (k : NativeKind) (d : Dimension) → (result ≡ Some (k, d)) ↔ (id ≡ pos (type_id_of k d)) }
{
    if id < 0 {
        return None;
    }
    let number = id as u8;
    Some((kind_at(number % 10)?, dimension_at(number / 10)?))
}

/// The type id of a native kind in a dimension.
pub(crate) fn type_id(kind: NativeKind, dimension: Dimension) -> i8
    ensures { result ≡ pos (type_id_of kind dimension) }
{
    // (the kinds stand in the order of their ids in two dimensions, which are 1 to 7)
    (dimension.order() * 10 + kind as u8 + 1) as i8
}

/// The names of the list items of a kind, from the outermost list: one for each of its lists.
pub(crate) fn list_names(kind: NativeKind) -> &'static [FixedName]
    ensures names { map fixed_text result.now ≡ list_names kind }
    ensures levels { length result.now ≡ levels_of kind }
    ensures few { length result.now ≤ 3 }
{
    match kind {
        NativeKind::Point => &[],
        NativeKind::LineString => &[FixedName::Vertices],
        NativeKind::Polygon => &[FixedName::Rings, FixedName::Vertices],
        NativeKind::MultiPoint => &[FixedName::Points],
        NativeKind::MultiLineString => &[FixedName::Linestrings, FixedName::Vertices],
        NativeKind::MultiPolygon => &[FixedName::Polygons, FixedName::Rings, FixedName::Vertices],
        NativeKind::GeometryCollection => &[FixedName::Geometries],
    }
}

/// The name of the member of a union for a kind in a dimension.
pub(crate) fn member_name(kind: NativeKind, dimension: Dimension) -> FixedName
    ensures { fixed_text result ≡ type_name kind ++ dimension_suffix dimension }
{
    member_names!(kind, dimension;
        Point PointZ PointM PointZm,
        LineString LineStringZ LineStringM LineStringZm,
        Polygon PolygonZ PolygonM PolygonZm,
        MultiPoint MultiPointZ MultiPointM MultiPointZm,
        MultiLineString MultiLineStringZ MultiLineStringM MultiLineStringZm,
        MultiPolygon MultiPolygonZ MultiPolygonM MultiPolygonZm,
        GeometryCollection GeometryCollectionZ GeometryCollectionM GeometryCollectionZm,
    )
}
