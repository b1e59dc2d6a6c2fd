//! The types of columns of geometries: one generic type, `ColumnType`, whose parameter is the encoding. The encodings are
//! the native one, whose parameter is the shape, boxes, geometries of any kind, well-known binary and well-known text. The
//! shapes of points, line strings and polygons are here; those of many parts are in `geoarrow_multi`.
#![tactic(auto)]

mod boxes;
mod column;
mod geometry;
pub mod laws;
mod native;
mod serialized;
mod shape;
mod type_id;
mod write;

pub use boxes::{BoxType, Rect, RectType};
pub use column::{ColumnEncoding, ColumnType, KindEncoding};
pub use geometry::{Geometry, GeometryType};
pub use native::{Native, NativeType};
pub use serialized::{Encoding, Serialized, SerializedType, Wkb, WkbType, Wkt, WktType};
pub use shape::{LineString, NativeShape, Point, Polygon};
pub use type_id::GeometryTypeId;
pub use write::column_field;

/// Points (GeoArrow, "Point"): each value is one coordinate.
///
/// ```rust
/// let metadata = Arc::new(alloc, Metadata::default())?;
/// let points = PointType::new(Dimension::XYM, metadata);
/// let coordinate = coord_data_type(alloc, CoordType::Separated, Dimension::XYM)?;
/// assert!(rt; points.data_type(alloc)? == coordinate);
/// ```
pub type PointType = NativeType<Point>;

/// Line strings (GeoArrow, "LineString"): each value is a list of coordinates.
///
/// ```rust
/// let metadata = Arc::new(alloc, Metadata::default())?;
/// let lines = LineStringType::new(Dimension::XYZ, metadata);
/// let coordinate = coord_data_type(alloc, CoordType::Separated, Dimension::XYZ)?;
/// let vertices = Field::new(alloc, "vertices", coordinate, false)?;
/// assert!(rt; lines.data_type(alloc)? == DataType::List(Box::new(alloc, vertices)?));
/// ```
pub type LineStringType = NativeType<LineString>;

/// Polygons (GeoArrow, "Polygon"): each value is a list of rings, the outer one first.
///
/// ```rust
/// let metadata = Arc::new(alloc, Metadata::default())?;
/// let polygons = PolygonType::new(Dimension::XY, metadata);
/// let coordinate = coord_data_type(alloc, CoordType::Separated, Dimension::XY)?;
/// let vertices = Field::new(alloc, "vertices", coordinate, false)?;
/// let rings = Field::new_list(alloc, "rings", vertices, false)?;
/// assert!(rt; polygons.data_type(alloc)? == DataType::List(Box::new(alloc, rings)?));
/// ```
pub type PolygonType = NativeType<Polygon>;
