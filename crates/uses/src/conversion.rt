//! The type of a column, as any type.
ghost use Rattle.std.specs.Prelude.{◌≡◌};
ghost use Rattle.geoarrow_schema.specs.declared.types.GeoArrowType.TheVariants as types;

use geoarrow_schema::{GeoArrowType, PointType};

/// A type of points, as any type (GeoArrow, "Extension types"): its kind and its metadata, which the conversion keeps, leave no
/// other.
#[tactic(auto, using(crate::proofs::Conversions::is_point))]
pub fn any_type(points: PointType) -> GeoArrowType
    ensures { result ≡ types.Point points }
{
    GeoArrowType::from(points)
}
