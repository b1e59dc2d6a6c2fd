//! The GeoArrow types as one.
ghost use Rattle.std.specs.Prelude.{◌≡◌, IfOk};
ghost use Rattle.geoarrow_schema.specs.Types.{kind_of, metadata_of, meta_of};
ghost use Rattle.geoarrow_schema.specs.Changes.{with_coord_type, with_dimension};
ghost use Rattle.geoarrow_layout.specs.declared.native_kinds.Kind.TheVariants.{Native as OfNative};
ghost use Rattle.geoarrow_layout.specs.Kinds.{coord_type_of, dimension_of};

use geoarrow_layout::{CoordType, Dimension, Kind, NativeKind, Width};
use geoarrow_meta::Metadata;
use geoarrow_multi::{
    GeometryCollectionType, MultiLineStringType, MultiPointType, MultiPolygonType,
};
use geoarrow_native::{
    BoxType, GeometryType, LineStringType, NativeShape, NativeType, PointType, PolygonType,
    WkbType, WktType,
};
use std::alloc::{AllocError, Global};
use std::sync::Arc;

/// The type of a column of geometries (GeoArrow, "Extension types"). Two are equal, and then hash equally, if their
/// kinds and their metadata are equal.
///
/// The first seven are native types: their coordinates are columns of numbers, nested in lists. Boxes and geometries of any
/// kind are built from such columns. The last six are serialized types: each value is one geometry in well-known binary or
/// text, which a reader has to parse.
///
/// ```rust
/// let metadata = Arc::new(alloc, Metadata::default())?;
/// let field = PolygonType::new(Dimension::XYZ, metadata).to_field(alloc, "area", true)?;
/// match GeoArrowType::try_from_field(alloc, &field)? {
///     GeoArrowType::Polygon(polygons) => assert_eq!(rt; polygons.dimension(), Dimension::XYZ),
///     _ => assert!(rt; false),
/// }
/// ```
#[derive(Debug, PartialEq, Eq, Hash, Drop)]
pub enum GeoArrowType {
    /// Points (GeoArrow, "Point").
    Point(PointType),
    /// Line strings (GeoArrow, "LineString").
    LineString(LineStringType),
    /// Polygons (GeoArrow, "Polygon").
    Polygon(PolygonType),
    /// Multipoints (GeoArrow, "MultiPoint").
    MultiPoint(MultiPointType),
    /// Multilinestrings (GeoArrow, "MultiLineString").
    MultiLineString(MultiLineStringType),
    /// Multipolygons (GeoArrow, "MultiPolygon").
    MultiPolygon(MultiPolygonType),
    /// Collections (GeoArrow, "GeometryCollection").
    GeometryCollection(GeometryCollectionType),
    /// Boxes (GeoArrow, "Box").
    Rect(BoxType),
    /// Geometries of any kind and dimension (GeoArrow, "Geometry").
    Geometry(GeometryType),
    /// Well-known binary with 32-bit offsets (GeoArrow, "WKB").
    Wkb(WkbType),
    /// Well-known binary with 64-bit offsets (GeoArrow, "WKB").
    LargeWkb(WkbType),
    /// Well-known binary as views (GeoArrow, "WKB").
    WkbView(WkbType),
    /// Well-known text with 32-bit offsets (GeoArrow, "WKT").
    Wkt(WktType),
    /// Well-known text with 64-bit offsets (GeoArrow, "WKT").
    LargeWkt(WktType),
    /// Well-known text as views (GeoArrow, "WKT").
    WktView(WktType),
}

/// What is made of the column of a type, in the same way for each variant; all are named.
macro_rules! of_each {
    ($type:expr, $column:ident => $made:expr, $($variant:ident)|+) => {
        match $type {
            $(GeoArrowType::$variant($column) => $made,)+
        }
    };
}

/// The type with what its column is changed to, if it is native or of the variant named, otherwise unchanged.
macro_rules! changed {
    ($type:expr, $column:ident => $changed:expr, $other:ident) => {
        changed!(
            $type, $column => $changed,
            $other | Point | LineString | Polygon | MultiPoint | MultiLineString | MultiPolygon
                | GeometryCollection
        )
    };
    ($type:expr, $column:ident => $changed:expr, $($variant:ident)|+) => {
        match $type {
            $(GeoArrowType::$variant($column) => GeoArrowType::$variant($changed),)+
            other => other,
        }
    };
}

/// The type with that column, of the variant of the native kind; all kinds are named.
macro_rules! of_that_kind {
    ($kind:expr => $column:expr, $($variant:ident)|+) => {
        match $kind {
            $(NativeKind::$variant => GeoArrowType::$variant($column),)+
        }
    };
}

impl GeoArrowType {
    /// The type with that kind and metadata.
    pub fn from_kind(kind: Kind, metadata: Arc<Metadata>) -> GeoArrowType
        ensures kind { kind_of result ≡ kind }
        ensures metadata { metadata_of result ≡ metadata }
    {
        match kind {
            Kind::Native(kind, coord_type, dimension) => {
                native_type(kind, coord_type, dimension, metadata)
            }
            Kind::Geometry(coord_type) => {
                GeoArrowType::Geometry(GeometryType::new(metadata).with_coord_type(coord_type))
            }
            Kind::Rect(dimension) => GeoArrowType::Rect(BoxType::new(dimension, metadata)),
            Kind::Wkb(Width::Plain) => GeoArrowType::Wkb(WkbType::new(metadata)),
            Kind::Wkb(Width::Large) => GeoArrowType::LargeWkb(WkbType::new(metadata)),
            Kind::Wkb(Width::View) => GeoArrowType::WkbView(WkbType::new(metadata)),
            Kind::Wkt(Width::Plain) => GeoArrowType::Wkt(WktType::new(metadata)),
            Kind::Wkt(Width::Large) => GeoArrowType::LargeWkt(WktType::new(metadata)),
            Kind::Wkt(Width::View) => GeoArrowType::WktView(WktType::new(metadata)),
        }
    }

    /// The kind: the type without its metadata.
    pub fn kind(&self) -> Kind
        ensures { result ≡ kind_of self.now }
    {
        match self {
            GeoArrowType::Point(t) => native_kind(t),
            GeoArrowType::LineString(t) => native_kind(t),
            GeoArrowType::Polygon(t) => native_kind(t),
            GeoArrowType::MultiPoint(t) => native_kind(t),
            GeoArrowType::MultiLineString(t) => native_kind(t),
            GeoArrowType::MultiPolygon(t) => native_kind(t),
            GeoArrowType::GeometryCollection(t) => native_kind(t),
            GeoArrowType::Rect(t) => Kind::Rect(t.dimension()),
            GeoArrowType::Geometry(t) => Kind::Geometry(t.coord_type()),
            GeoArrowType::Wkb(_) => Kind::Wkb(Width::Plain),
            GeoArrowType::LargeWkb(_) => Kind::Wkb(Width::Large),
            GeoArrowType::WkbView(_) => Kind::Wkb(Width::View),
            GeoArrowType::Wkt(_) => Kind::Wkt(Width::Plain),
            GeoArrowType::LargeWkt(_) => Kind::Wkt(Width::Large),
            GeoArrowType::WktView(_) => Kind::Wkt(Width::View),
        }
    }

    /// The metadata, in the `Arc` that was given.
    pub fn metadata(&self) -> &Arc<Metadata>
        ensures { result.now ≡ metadata_of self.now }
    {
        of_each!(
            self, t => t.metadata(),
            Point | LineString | Polygon | MultiPoint | MultiLineString | MultiPolygon | GeometryCollection
                | Rect | Geometry | Wkb | LargeWkb | WkbView | Wkt | LargeWkt | WktView
        )
    }

    /// How the coordinates are stored: `Separated` for boxes, and `None` for well-known binary and text.
    pub fn coord_type(&self) -> Option<CoordType>
        ensures { result ≡ coord_type_of (kind_of self.now) }
    {
        self.kind().coord_type()
    }

    /// The dimension; `None` for geometries of any kind and for well-known binary and text.
    pub fn dimension(&self) -> Option<Dimension>
        ensures { result ≡ dimension_of (kind_of self.now) }
    {
        self.kind().dimension()
    }

    /// An equal type, which shares the metadata. Errs if the metadata has as many owners as can be counted.
    pub fn try_clone(&self, _alloc: Global) -> Result<GeoArrowType, AllocError>
        ensures kind { IfOk result (λ g. kind_of g ≡ kind_of self.now) }
        ensures metadata { IfOk result (λ g. meta_of g ≡ meta_of self.now) }
    {
        let metadata = Arc::try_clone(self.metadata())?;
        Ok(GeoArrowType::from_kind(self.kind(), metadata))
    }

    /// The type with that coordinate type, otherwise unchanged. A `Rect`, and well-known binary and text, stay as they are.
    ///
    /// ```rust
    /// let metadata = Arc::new(alloc, Metadata::default())?;
    /// let points = GeoArrowType::Point(PointType::new(Dimension::XY, metadata));
    /// let points = points.with_coord_type(CoordType::Interleaved);
    /// assert_eq!(rt; points.coord_type(), Some(CoordType::Interleaved));
    /// ```
    pub fn with_coord_type(self, coord_type: CoordType) -> GeoArrowType
        ensures kind { kind_of result ≡ with_coord_type coord_type (kind_of self) }
        ensures metadata { metadata_of result ≡ metadata_of self }
    {
        changed!(self, t => t.with_coord_type(coord_type), Geometry)
    }

    /// The type with that dimension, otherwise unchanged. A `Geometry`, and well-known binary and text, stay as they are.
    ///
    /// ```rust
    /// let metadata = Arc::new(alloc, Metadata::default())?;
    /// let points = GeoArrowType::Point(PointType::new(Dimension::XY, metadata));
    /// let points = points.with_dimension(Dimension::XYZ);
    /// assert_eq!(rt; points.dimension(), Some(Dimension::XYZ));
    /// ```
    pub fn with_dimension(self, dimension: Dimension) -> GeoArrowType
        ensures kind { kind_of result ≡ with_dimension dimension (kind_of self) }
        ensures metadata { metadata_of result ≡ metadata_of self }
    {
        changed!(self, t => t.with_dimension(dimension), Rect)
    }

    /// The type with that metadata, otherwise unchanged.
    pub fn with_metadata(self, metadata: Arc<Metadata>) -> GeoArrowType
        ensures kind { kind_of result ≡ kind_of self }
        ensures metadata { metadata_of result ≡ metadata }
    {
        GeoArrowType::from_kind(self.kind(), metadata)
    }
}

/// The kind of a native type.
fn native_kind<S: NativeShape>(native: &NativeType<S>) -> Kind
    ensures { result ≡ OfNative S.KIND native.now.encoding.coord_type native.now.encoding.dimension }
{
    Kind::Native(S::KIND, native.coord_type(), native.dimension())
}

/// The type of that native kind, with these parts.
pub(crate) fn native_type(
    kind: NativeKind,
    coord_type: CoordType,
    dimension: Dimension,
    metadata: Arc<Metadata>,
) -> GeoArrowType
    ensures kind { kind_of result ≡ OfNative kind coord_type dimension }
    ensures metadata { metadata_of result ≡ metadata }
{
    of_that_kind!(
        kind => NativeType::new(dimension, metadata).with_coord_type(coord_type),
        Point | LineString | Polygon | MultiPoint | MultiLineString | MultiPolygon | GeometryCollection
    )
}
