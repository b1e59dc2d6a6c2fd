//! GeoArrow's types: how a field is read as one, and how one is written as a field. This is the crate to use: it also
//! re-exports the names of the crates below, except those of Arrow itself, which are in `arrow_values`.
//!
//! The main theorems are about three calls. Apart from running out of memory:
//!
//! 1. `GeoArrowType::from_extension_field` returns a type exactly if the field's extension name, data type and metadata
//!    text denote one; they denote no other.
//! 2. It returns `None` exactly if the field has no GeoArrow name.
//! 3. Otherwise it errs: with `InvalidGeoArrow` exactly if the name is that of well-known binary or text and the data
//!    type is none of its three, and otherwise with `Arrow` of the error of the metadata text or, if that is valid, of
//!    the fault that the data type has under the name.
//! 4. `GeoArrowType::same_written` returns true exactly if two types are written as the same name, data type and
//!    metadata value, which is so exactly if their normal forms are equal.
//! 5. What `GeoArrowType::to_field` writes reads back as the normal form of the type, if `serde_json` reads what it
//!    printed, which it does if the CRS value is nested at most 100 levels.
//!
//! In the examples `alloc` is the allocator and `rt` the runtime of a test; each is part of a test or of the crate `uses`.
#![tactic(auto)]

mod from;
mod infer;
pub mod laws;
mod normal;
mod read;
mod types;
mod write;

pub use geoarrow_layout::{CoordType, Dimension, Kind, NativeKind, Width, infer_kind};
pub use geoarrow_meta::{Crs, CrsType, Edges, Metadata};
pub use geoarrow_multi::{
    GeometryCollectionType, MultiLineStringType, MultiPointType, MultiPolygonType,
};
pub use geoarrow_native::{
    BoxType, GeometryType, LineStringType, PointType, PolygonType, RectType, WkbType, WktType,
};
pub use types::GeoArrowType;

/// Coordinate reference systems, and how they are transformed from one form to another.
pub mod crs {
    pub use geoarrow_meta::{Crs, CrsTransform, CrsType, DefaultCrsTransform};
}

/// The errors of GeoArrow.
pub mod error {
    pub use arrow_values::{GeoArrowError, GeoArrowResult};
}

/// The ids of types among the members of a union.
pub mod type_id {
    pub use geoarrow_native::GeometryTypeId;
}

/// The generic type behind the eleven types, its encodings and their parameters.
pub mod generic {
    pub use geoarrow_multi::{GeometryCollection, MultiLineString, MultiPoint, MultiPolygon};
    pub use geoarrow_native::{
        ColumnEncoding, ColumnType, Encoding, Geometry, KindEncoding, LineString, Native,
        NativeShape, NativeType, Point, Polygon, Rect, Serialized, SerializedType, Wkb, Wkt,
    };
}
