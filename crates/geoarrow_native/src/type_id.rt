//! The id of a type among the members of a union.
ghost use Rattle.std.specs.Prelude.{◌≡◌, ℤ, pos, ◌≤ℤ◌, ◌+ℤ◌, ◌*◌};
ghost use Rattle.geoarrow_layout.specs.declared.dimensions.Dimension.{Dimension};
ghost use Rattle.geoarrow_layout.specs.Kinds.{order_of};
ghost use Rattle.geoarrow_native.specs.Agree.{within_at};

use crate::column::ColumnType;
use crate::native::Native;
use crate::shape::NativeShape;
use geoarrow_layout::Dimension;

/// A type that has a type id in each dimension (GeoArrow, "Geometry": the table of type ids).
///
/// ```rust
/// let metadata = Arc::new(alloc, Metadata::default())?;
/// let polygons = PolygonType::new(Dimension::XYZ, metadata);
/// assert_eq!(rt; polygons.coord_type(), CoordType::Separated);
/// assert_eq!(rt; polygons.geometry_type_id(), 13);
/// ```
pub trait GeometryTypeId {
    /// The type id in two dimensions: 1 to 7.
    const GEOMETRY_TYPE_OFFSET: i8;

    ghost GEOMETRY_TYPE_OFFSET: { ℤ };

    ghost dimension_of: { Self → Dimension };

    /// The dimension.
    fn dimension(&self) -> Dimension
        ensures { result ≡ dimension_of self.now };

    /// The type id: ten times the number of the dimension, plus the offset. So it is from 1 to 37.
    fn geometry_type_id(&self) -> i8
        ensures { result ≡ pos (10 * order_of (dimension_of self.now)) +ℤ GEOMETRY_TYPE_OFFSET }
    {
        10 * self.dimension().order() as i8 + Self::GEOMETRY_TYPE_OFFSET
    }

    ghost offset_within: { (pos 1 ≤ℤ GEOMETRY_TYPE_OFFSET) × (GEOMETRY_TYPE_OFFSET ≤ℤ pos 7) };
}

impl<S: NativeShape> GeometryTypeId for ColumnType<Native<S>> {
    const GEOMETRY_TYPE_OFFSET: i8 = S::OFFSET;

    ghost GEOMETRY_TYPE_OFFSET = { S.OFFSET };

    ghost dimension_of = { λ e. e.encoding.dimension };

    fn dimension(&self) -> Dimension {
        self.encoding.dimension
    }

    ghost offset_within = { within_at S.OFFSET S.KIND S.offset_is };
}
