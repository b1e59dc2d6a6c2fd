//! A column written.
ghost use Rattle.std.specs.Prelude.{◌≡◌, IfOk, IfErr};
ghost use Rattle.arrow_values.specs.Errors.{IsMemory};
ghost use Rattle.geoarrow_meta.specs.Written.{normal, NestsWithin};
ghost use Rattle.geoarrow_native.specs.Column.{ReadsAs, written_field};
ghost use Rattle.geoarrow_schema.specs.Types.{kind_of, meta_of};
ghost use Rattle.geoarrow_schema.specs.Normal.{IsCanonical};

use arrow_values::{ArrowError, Field};
use geoarrow_schema::GeoArrowType;
use std::alloc::Global;

/// The column of a type, in normal form (GeoArrow, "Extension types"): a field of that name and nullability, with the
/// extension name and the data type of the type's kind, and the text of its metadata in normal form. If the CRS value is
/// nested at most 100 levels, the field is read as that normal form, and is its own canonical field. Errs only when out
/// of memory.
pub fn write_column(
    alloc: Global,
    name: &str,
    nullable: bool,
    geometry: GeoArrowType,
) -> Result<Field, ArrowError>
    ensures written { IfOk result (λ f. f ≡ written_field name.now nullable (kind_of geometry) (normal (meta_of geometry))) }
    ensures reads_back { IfOk result (λ f. NestsWithin 100 (meta_of geometry).crs.value
        → ReadsAs f (kind_of geometry) (normal (meta_of geometry))) }
    ensures canonical { IfOk result (λ f. NestsWithin 100 (meta_of geometry).crs.value → IsCanonical f f) }
    ensures refused { IfErr result IsMemory }
{
    let normal = geometry.normalized(alloc)?;
    normal.to_field(alloc, name, nullable)
}
