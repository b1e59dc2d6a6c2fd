//! Each type as a `GeoArrowType`.
ghost use Rattle.std.specs.Prelude.{◌≡◌};
ghost use Rattle.geoarrow_layout.specs.declared.native_kinds.Kind.TheVariants.{Native as OfNative};
ghost use Rattle.geoarrow_schema.specs.declared.types.GeoArrowType.TheVariants as types;
ghost use Rattle.geoarrow_schema.specs.Types.{kind_of, metadata_of};

use crate::types::{GeoArrowType, native_type};
use geoarrow_native::{BoxType, GeometryType, NativeShape, NativeType};

impl<S: NativeShape> From<NativeType<S>> for GeoArrowType {
    ghost from_gives = { λ t g. (kind_of g ≡ OfNative S.KIND t.encoding.coord_type t.encoding.dimension)
        × (metadata_of g ≡ t.metadata) };

    fn from(geometry_type: NativeType<S>) -> GeoArrowType {
        let (coord_type, dimension, metadata) = geometry_type.into_inner();
        native_type(S::KIND, coord_type, dimension, metadata)
    }
}

impl From<BoxType> for GeoArrowType {
    ghost from_gives = { λ t g. g ≡ types.Rect t };

    fn from(geometry_type: BoxType) -> GeoArrowType {
        GeoArrowType::Rect(geometry_type)
    }
}

impl From<GeometryType> for GeoArrowType {
    ghost from_gives = { λ t g. g ≡ types.Geometry t };

    fn from(geometry_type: GeometryType) -> GeoArrowType {
        GeoArrowType::Geometry(geometry_type)
    }
}
