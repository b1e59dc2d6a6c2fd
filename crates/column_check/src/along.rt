//! What lies on a path of child fields.
ghost use Rattle.std.specs.Prelude.{◌≡◌, ◌++◌, IfOk, OnOk, Some, map, option_map, string_bytes};
ghost use Rattle.arrow_columns.specs.Below.{ref_tree};
ghost use Rattle.column_check.specs.ReasonFindings.{type_along, names_along};

use arrow_columns::TypeRef;
use std::alloc::{AllocError, Global};

/// Returns the type at the end of a path of child fields, if there is one. Allocates nothing.
pub(crate) fn type_along<'a>(column_type: TypeRef<'a>, path: &[usize]) -> Option<TypeRef<'a>>
    ensures { option_map ref_tree result ≡ type_along (Some (ref_tree column_type.entry)) path.now }
{
    let [place, rest @ ..] = path else {
        return Some(column_type);
    };
    let Some(child) = column_type.child(*place) else {
        return None;
    };
    type_along(child.data_type(), rest)
}

/// Returns the names of the child fields on a path, as `find_fault` of `geoarrow_layout` answers one,
/// outermost first, as far as there are fields. Errs only when out of memory.
pub(crate) fn names_along(
    alloc: Global,
    column_type: TypeRef<'_>,
    path: &[usize],
) -> Result<Vec<String>, AllocError>
    ensures { IfOk result (λ names. map string_bytes names.items ≡ names_along (ref_tree column_type.entry) path.now) }
{
    let mut names = Vec::new(alloc);
    push_names(alloc, &mut names, column_type, path)?;
    Ok(names)
}

/// Adds the names of the child fields on a path.
fn push_names(
    alloc: Global,
    names: &mut Vec<String>,
    column_type: TypeRef<'_>,
    path: &[usize],
) -> Result<(), AllocError>
    ensures { OnOk result (map string_bytes names.new.items ≡ map string_bytes names.old.items ++ names_along (ref_tree column_type.entry) path.now) }
{
    let [place, rest @ ..] = path else {
        return Ok(());
    };
    let Some(child) = column_type.child(*place) else {
        return Ok(());
    };
    names.push(String::from_str(alloc, child.name())?)?;
    push_names(alloc, names, child.data_type(), rest)
}
