//! Unions made of ids and fields, cut and joined.
ghost use Rattle.std.specs.Prelude.{◌≡◌, ◌++◌, ◌⊎◌, [], IsOk, IfOk, IfErr, OnOk, OnErr, MatchResult, None, true};
ghost use Rattle.std.specs.List.{list_all, zip};
ghost use Rattle.arrow_values.specs.Union.{AreUnionParts, HasTypeIds, are_distinct, has, has_id, is_type_id, retained, shared_id};
ghost use Rattle.arrow_values.specs.Errors.{IsMemory, is_invalid_argument, fault_id};

use crate::error::{AppendFault, ArrowError, invalid_argument};
use crate::tree::{Field, UnionFields};
use std::alloc::{AllocError, Global};

impl UnionFields {
    /// The union of these members: the first id with the first field, and so on. Errs with `InvalidArgumentError`
    /// if there are not as many ids as fields, if an id is negative, or if one is repeated; otherwise only when
    /// out of memory. A union may have no members; it then allocates nothing.
    #[tactic(auto, using(crate::proofs::Ids::unfit, crate::proofs::Ids::made_ids))]
    pub fn try_new(
        alloc: Global,
        type_ids: Vec<i8>,
        fields: Vec<Field>,
    ) -> Result<UnionFields, ArrowError>
        ensures made { MatchResult result (λ ms. AreUnionParts type_ids.items fields.items × (ms ≡ zip type_ids.items fields.items))
            (λ e. IsMemory e ⊎ (¬ AreUnionParts type_ids.items fields.items × (is_invalid_argument e ≡ true))) }
        ensures ids { IfOk result HasTypeIds }
        ensures no_memory { type_ids.items ≡ [] → fields.items ≡ [] → IsOk result }
    {
        if type_ids.len() != fields.len() {
            return Err(invalid_argument(alloc, "lengths differ"));
        }
        if !none_negative(&type_ids) {
            return Err(invalid_argument(alloc, "negative type id"));
        }
        if !all_distinct(&type_ids) {
            return Err(invalid_argument(alloc, "repeated type id"));
        }
        let members = join(alloc, type_ids, fields)?;
        Ok(UnionFields { members })
    }

    /// The union of these members, moved in. Their ids must be 0 to 127, each once. Allocates nothing.
    pub fn from_members(members: Vec<(i8, Field)>) -> UnionFields
        requires { HasTypeIds members.items }
        ensures { result ≡ members.items }
    {
        UnionFields { members }
    }

    /// Keeps the members whose id is in the slice, in their order.
    pub fn retain_ids(&mut self, ids: &[i8])
        ensures members { self.new ≡ retained ids.now self.old }
        ensures ids { HasTypeIds self.old → HasTypeIds self.new }
    {
        self.members.retain(|member| ids.contains(&member.0));
    }

    /// Appends the members of `other`. Errs with `RepeatedId` of the first id of `other` that this union has too, if
    /// there is one, and otherwise only when out of memory; `other` is then returned, and both unions are unchanged.
    #[tactic(auto, using(crate::proofs::Ids::appended_ids))]
    pub fn append(&mut self, other: UnionFields) -> Result<(), (UnionFields, AppendFault)>
        ensures joined { OnOk result (self.new ≡ self.old ++ other) }
        ensures ids { HasTypeIds self.old → HasTypeIds other → HasTypeIds self.new }
        ensures none_shared { OnOk result (shared_id self.old other ≡ None) }
        ensures fault { IfErr result (λ e. shared_id self.old other ≡ fault_id e.1) }
        ensures unchanged { OnErr result (self.new ≡ self.old) }
        ensures given_back { IfErr result (λ e. e.0 ≡ other) }
        ensures no_memory { other ≡ [] → IsOk result }
    {
        if let Some(id) = self.shared_id(&other) {
            return Err((other, AppendFault::RepeatedId(id)));
        }
        let mut members = other.members;
        self.members
            .append(&mut members)
            .map_err(|_| (UnionFields { members }, AppendFault::OutOfMemory))
    }

    /// Whether a member has the id.
    fn has_id(&self, id: i8) -> bool
        ensures { result ≡ has_id id self.now }
    {
        self.members.iter().any(|member| member.0 == id)
    }

    /// The first id of `other` that is here too.
    fn shared_id(&self, other: &UnionFields) -> Option<i8>
        ensures { result ≡ shared_id self.now other.now }
    {
        for (id, _) in &other.members {
            if self.has_id(*id) {
                return Some(*id);
            }
        }
        None
    }
}

/// Whether no id is negative, and so each is 0 to 127.
fn none_negative(ids: &[i8]) -> bool
    ensures { result ≡ list_all is_type_id ids.now }
{
    ids.iter().all(|id| *id >= 0)
}

/// Whether each id occurs once.
fn all_distinct(ids: &[i8]) -> bool
    ensures { result ≡ are_distinct ids.now }
{
    for i in 0..ids.len() {
        if ids[i + 1..].contains(&ids[i]) {
            return false;
        }
    }
    true
}

/// The pairs of id and field, as far as both go.
fn join(alloc: Global, ids: Vec<i8>, fields: Vec<Field>) -> Result<Vec<(i8, Field)>, AllocError>
    ensures members { IfOk result (λ v. v.items ≡ zip ids.items fields.items) }
    ensures no_memory { ids.items ≡ [] → IsOk result }
{
    let mut members = Vec::with_capacity(alloc, ids.len())?;
    let mut rest = fields.into_iter();
    for id in &ids {
        let Some(field) = rest.next() else {
            return Ok(members);
        };
        members.push((*id, field))?;
    }
    Ok(members)
}
