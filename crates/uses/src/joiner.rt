//! Two parts of a column joined.
ghost use Rattle.std.specs.Prelude.{◌≡◌, ◌++◌, ◌↔◌, IfOk, IfSome, IsSome};
ghost use Rattle.arrow_values.specs.Tree.{union};
ghost use Rattle.arrow_values.specs.View.{tree, member_trees};
ghost use Rattle.uses.specs.Columns.{MayBeJoined};

use arrow_values::{AppendFault, DataType, UnionFields, UnionMode};
use geoarrow_layout::{append_members, parse_geometry};
use std::alloc::AllocError;

/// Joins the members of two parts of a column of geometries of any kind (GeoArrow, "Geometry"), as two files of a data
/// set have them: those of the first, and then those of the second, as a dense union. `None` exactly if they cannot be
/// joined. They can be joined if there is at least one member, no type id is in both parts, and each part that has
/// members is a union of geometries, all of the same coordinate type. Errs only when out of memory.
pub fn join_unions(one: UnionFields, other: UnionFields) -> Result<Option<DataType>, AllocError>
    ensures exact { IfOk result (λ found. IsSome found ↔ MayBeJoined one other) }
    ensures joined { IfOk result (λ found. IfSome found (λ t. tree t ≡ union (member_trees (one ++ other)) UnionMode.Dense)) }
{
    let mut members = one;
    match append_members(&mut members, other) {
        Ok(()) => {}
        Err((_, AppendFault::RepeatedId(_))) => return Ok(None),
        Err((_, AppendFault::OutOfMemory)) => return Err(AllocError),
    }
    let joined = DataType::Union(members, UnionMode::Dense);
    match parse_geometry(&joined) {
        Ok(_) => Ok(Some(joined)),
        Err(_) => Ok(None),
    }
}
