//! The union of ids and fields.
ghost use Rattle.std.specs.Prelude.{◌≡◌, Err, IfOk};
ghost use Rattle.std.specs.Option.{option_map};
ghost use Rattle.std.specs.List.{zip};
ghost use Rattle.arrow_values.specs.View.{tree, member_trees};
ghost use Rattle.field_lines.specs.FieldOfValue.{union_of};
ghost use Rattle.field_lines.specs.Steps.{AreMemberParts};

use arrow_values::{ArrowError, DataType, Field, UnionFields, UnionMode};
use std::alloc::Global;
use value_tokens::Refusal;

/// The union of these members, and none where an id stands twice.
#[tactic(auto, using(crate::proofs::TokenItems::tree_ids_zip))]
pub(crate) fn make_union(
    alloc: Global,
    mode: UnionMode,
    ids: Vec<i8>,
    fields: Vec<Field>,
) -> Result<Option<DataType>, Refusal>
    requires { AreMemberParts ids.items fields.items }
    ensures ok { IfOk result (λ o. option_map tree o ≡ union_of mode (member_trees (zip ids.items fields.items))) }
    ensures never_text { result ≡ Err Refusal.Text → ⊥ }
{
    match UnionFields::try_new(alloc, ids, fields) {
        Ok(members) => Ok(Some(DataType::Union(members, mode))),
        Err(ArrowError::OutOfMemory) => Err(Refusal::Memory),
        Err(_) => Ok(None),
    }
}
