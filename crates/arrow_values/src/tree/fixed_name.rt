//! The names that layouts use.
ghost use Rattle.std.specs.Prelude.{◌≡◌};
ghost use Rattle.arrow_values.specs.Name.{fixed_text};

/// A name that a GeoArrow layout has inside: of a coordinate, of a bound of a box, of the items of a list, or of the
/// member of a union. A field of such a name allocates nothing for it.
///
/// ```rust
/// let x = Field::fixed(alloc, FixedName::X, DataType::Float64, false);
/// let y = Field::fixed(alloc, FixedName::Y, DataType::Float64, false);
/// ```
#[derive(Clone, Copy, Debug, PartialEq, Eq)]
pub enum FixedName {
    /// `x`.
    X,
    /// `y`.
    Y,
    /// `z`.
    Z,
    /// `m`.
    M,
    /// `xy`.
    Xy,
    /// `xyz`.
    Xyz,
    /// `xym`.
    Xym,
    /// `xyzm`.
    Xyzm,
    /// `xmin`.
    Xmin,
    /// `ymin`.
    Ymin,
    /// `zmin`.
    Zmin,
    /// `mmin`.
    Mmin,
    /// `xmax`.
    Xmax,
    /// `ymax`.
    Ymax,
    /// `zmax`.
    Zmax,
    /// `mmax`.
    Mmax,
    /// `vertices`.
    Vertices,
    /// `rings`.
    Rings,
    /// `points`.
    Points,
    /// `linestrings`.
    Linestrings,
    /// `polygons`.
    Polygons,
    /// `geometries`.
    Geometries,
    /// `Point`.
    Point,
    /// `Point Z`.
    PointZ,
    /// `Point M`.
    PointM,
    /// `Point ZM`.
    PointZm,
    /// `LineString`.
    LineString,
    /// `LineString Z`.
    LineStringZ,
    /// `LineString M`.
    LineStringM,
    /// `LineString ZM`.
    LineStringZm,
    /// `Polygon`.
    Polygon,
    /// `Polygon Z`.
    PolygonZ,
    /// `Polygon M`.
    PolygonM,
    /// `Polygon ZM`.
    PolygonZm,
    /// `MultiPoint`.
    MultiPoint,
    /// `MultiPoint Z`.
    MultiPointZ,
    /// `MultiPoint M`.
    MultiPointM,
    /// `MultiPoint ZM`.
    MultiPointZm,
    /// `MultiLineString`.
    MultiLineString,
    /// `MultiLineString Z`.
    MultiLineStringZ,
    /// `MultiLineString M`.
    MultiLineStringM,
    /// `MultiLineString ZM`.
    MultiLineStringZm,
    /// `MultiPolygon`.
    MultiPolygon,
    /// `MultiPolygon Z`.
    MultiPolygonZ,
    /// `MultiPolygon M`.
    MultiPolygonM,
    /// `MultiPolygon ZM`.
    MultiPolygonZm,
    /// `GeometryCollection`.
    GeometryCollection,
    /// `GeometryCollection Z`.
    GeometryCollectionZ,
    /// `GeometryCollection M`.
    GeometryCollectionM,
    /// `GeometryCollection ZM`.
    GeometryCollectionZm,
}

impl FixedName {
    /// The text of the name.
    pub fn as_text(self) -> &'static str
        ensures { result.now ≡ fixed_text self }
    {
        match self {
            FixedName::X => "x",
            FixedName::Y => "y",
            FixedName::Z => "z",
            FixedName::M => "m",
            FixedName::Xy => "xy",
            FixedName::Xyz => "xyz",
            FixedName::Xym => "xym",
            FixedName::Xyzm => "xyzm",
            FixedName::Xmin => "xmin",
            FixedName::Ymin => "ymin",
            FixedName::Zmin => "zmin",
            FixedName::Mmin => "mmin",
            FixedName::Xmax => "xmax",
            FixedName::Ymax => "ymax",
            FixedName::Zmax => "zmax",
            FixedName::Mmax => "mmax",
            FixedName::Vertices => "vertices",
            FixedName::Rings => "rings",
            FixedName::Points => "points",
            FixedName::Linestrings => "linestrings",
            FixedName::Polygons => "polygons",
            FixedName::Geometries => "geometries",
            FixedName::Point => "Point",
            FixedName::PointZ => "Point Z",
            FixedName::PointM => "Point M",
            FixedName::PointZm => "Point ZM",
            FixedName::LineString => "LineString",
            FixedName::LineStringZ => "LineString Z",
            FixedName::LineStringM => "LineString M",
            FixedName::LineStringZm => "LineString ZM",
            FixedName::Polygon => "Polygon",
            FixedName::PolygonZ => "Polygon Z",
            FixedName::PolygonM => "Polygon M",
            FixedName::PolygonZm => "Polygon ZM",
            FixedName::MultiPoint => "MultiPoint",
            FixedName::MultiPointZ => "MultiPoint Z",
            FixedName::MultiPointM => "MultiPoint M",
            FixedName::MultiPointZm => "MultiPoint ZM",
            FixedName::MultiLineString => "MultiLineString",
            FixedName::MultiLineStringZ => "MultiLineString Z",
            FixedName::MultiLineStringM => "MultiLineString M",
            FixedName::MultiLineStringZm => "MultiLineString ZM",
            FixedName::MultiPolygon => "MultiPolygon",
            FixedName::MultiPolygonZ => "MultiPolygon Z",
            FixedName::MultiPolygonM => "MultiPolygon M",
            FixedName::MultiPolygonZm => "MultiPolygon ZM",
            FixedName::GeometryCollection => "GeometryCollection",
            FixedName::GeometryCollectionZ => "GeometryCollection Z",
            FixedName::GeometryCollectionM => "GeometryCollection M",
            FixedName::GeometryCollectionZm => "GeometryCollection ZM",
        }
    }
}
