//! Columns compared.
ghost use Rattle.std.specs.Prelude.{◌⊎◌, ◌↔◌, IfOk, IfErr, IsTrue};
ghost use Rattle.arrow_values.specs.Errors.{IsGeoMemory};
ghost use Rattle.geoarrow_schema.specs.Reads.{ReadsAsNone};
ghost use Rattle.uses.specs.Columns.{AreWrittenAlike};

use arrow_values::{Field, GeoArrowResult};
use geoarrow_schema::GeoArrowType;
use std::alloc::Global;

/// Whether two columns hold the same type, as far as a field can say it: both types are written as the same
/// extension name, data type and metadata value (GeoArrow, "Extension types"). So another form of the data type
/// that is read as the same kind makes no difference, and neither does another order of the keys in the metadata text. Errs
/// if one of the two is read as no type, and when out of memory.
#[tactic(auto, using(crate::proofs::Columns::alike_where_same))]
pub fn are_written_alike(alloc: Global, one: &Field, other: &Field) -> GeoArrowResult<bool>
    ensures exact { IfOk result (λ alike. IsTrue alike ↔ AreWrittenAlike one.now other.now) }
    ensures refused { IfErr result (λ e. IsGeoMemory e ⊎ ReadsAsNone one.now ⊎ ReadsAsNone other.now) }
{
    let one_type = GeoArrowType::try_from_field(alloc, one)?;
    let other_type = GeoArrowType::try_from_field(alloc, other)?;
    Ok(one_type.same_written(&other_type))
}
