//! A column read: the function with which the README begins a crate of one's own.
ghost use Rattle.std.specs.Prelude.{◌≡◌, MatchResult};
ghost use Rattle.geoarrow_schema.specs.declared.types.GeoArrowType.{GeoArrowType};
ghost use Rattle.geoarrow_schema.specs.Reads.{Reads, IsTypeRefusal};
ghost use Rattle.geoarrow_schema.specs.Types.{kind_of};

use arrow_values::Field;
use geoarrow_schema::error::GeoArrowResult;
use geoarrow_schema::{GeoArrowType, Kind};
use std::alloc::Global;

/// The kind of the type that a column is read as. Errs as `GeoArrowType::try_from_field` does.
pub fn column_kind(alloc: Global, field: &Field) -> GeoArrowResult<Kind>
    ensures { MatchResult result (λ kind. (g : GeoArrowType) × Reads field.now g × (kind_of g ≡ kind)) (IsTypeRefusal field.now) }
{
    Ok(GeoArrowType::try_from_field(alloc, field)?.kind())
}
