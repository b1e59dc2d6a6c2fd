//! The CRS of a column.
ghost use Rattle.std.specs.Prelude.{◌≡◌, ◌⊎◌, IfOk, IfErr, option_map, string_bytes};
ghost use Rattle.arrow_values.specs.Errors.{IsGeoMemory};
ghost use Rattle.arrow_values.specs.Texts.{extension_metadata};
ghost use Rattle.geoarrow_meta.specs.declared.metadata.Metadata.{Metadata};
ghost use Rattle.geoarrow_meta.specs.Read.{DenotesMetadata};
ghost use Rattle.uses.specs.Columns.{projjson_text_of};

use arrow_values::{Field, GeoArrowResult};
use geoarrow_meta::{CrsTransform, DefaultCrsTransform, Metadata};
use std::alloc::Global;

/// The CRS of a column as a text of PROJJSON, in compact JSON (GeoArrow, "Extension metadata", keys `crs` and `crs_type`).
/// `None` if the column has no CRS, or if its CRS is not declared to be PROJJSON. Errs if the metadata text denotes
/// no metadata, and when out of memory.
pub fn projjson_text(alloc: Global, field: &Field) -> GeoArrowResult<Option<String>>
    ensures text { IfOk result (λ text. (m : Metadata) × DenotesMetadata (extension_metadata field.now) m
        × (option_map string_bytes text ≡ projjson_text_of m)) }
    ensures refused { IfErr result (λ e. IsGeoMemory e
        ⊎ ((m : Metadata) → ¬ DenotesMetadata (extension_metadata field.now) m)) }
{
    let metadata = Metadata::try_from_field(alloc, field)?;
    metadata.crs().crs_value();
    match DefaultCrsTransform::default().extract_projjson(alloc, metadata.crs())? {
        Some(value) => Ok(Some(value.to_string(alloc)?)),
        None => Ok(None),
    }
}
