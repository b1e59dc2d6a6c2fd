//! A column without what a query does not ask for.
ghost use Rattle.std.specs.Prelude.{◌≡◌, ◌≢◌, ◌↔◌, [], IfOk, IfSome, IsSome};
ghost use Rattle.arrow_values.specs.Union.{retained};
ghost use Rattle.geoarrow_layout.specs.declared.dimensions.CoordType.{CoordType};
ghost use Rattle.geoarrow_layout.specs.declared.native_kinds.Kind.TheVariants.{Geometry as OfGeometry};
ghost use Rattle.geoarrow_meta.specs.declared.metadata.Metadata.{Metadata};
ghost use Rattle.geoarrow_native.specs.Column.{ReadsAs};
ghost use Rattle.uses.specs.Columns.{members_of, narrowed};

use arrow_values::{DataType, Field};
use geoarrow_layout::keep_members;
use std::alloc::{AllocError, Global};

/// The column without the members of its union whose type id is not wanted, so that a query never reads them: the
/// field with the wanted members, in their order, and otherwise unchanged. If it was read as geometries of any kind, it
/// still is, with the same coordinate type and metadata (GeoArrow, "Geometry"). `None` if no member is wanted, or if
/// the column is not a union. Errs only when out of memory.
pub fn keep_wanted(alloc: Global, field: &Field, wanted: &[i8]) -> Result<Option<Field>, AllocError>
    ensures exact { IfOk result (λ found. IsSome found ↔ (retained wanted.now (members_of field.now.tree) ≢ [])) }
    ensures narrowed { IfOk result (λ found. IfSome found (λ f. f ≡ record field.now { tree = narrowed wanted.now field.now.tree })) }
    ensures geometry { IfOk result (λ found. IfSome found (λ f. (c : CoordType) (m : Metadata)
        → ReadsAs field.now (OfGeometry c) m → ReadsAs f (OfGeometry c) m)) }
{
    let DataType::Union(mut members, mode) = field.data_type().try_clone(alloc)? else {
        return Ok(None);
    };
    keep_members(&mut members, wanted);
    if members.is_empty() {
        return Ok(None);
    }
    let narrowed = DataType::Union(members, mode);
    Ok(Some(field.try_clone(alloc)?.with_data_type(narrowed)))
}
