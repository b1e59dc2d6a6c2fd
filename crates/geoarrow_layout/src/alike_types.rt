//! Data types that no reader distinguishes, and unions that lose or gain members.
ghost use Rattle.std.specs.Prelude.{◌≡◌, ◌↔◌, ◌≢◌, ◌++◌};
ghost use Rattle.geoarrow_layout.specs.Cited.{IsTrue, [], None, IsOk, IfErr, OnOk, OnErr, list_all, tree, field_trees, member_trees, names_of, has_name, SameNames, AllMembers, SomeMember, Alike, AlikeNames, EachHasAlike, HasAlike, Members, HasTypeIds, retained, shared_id, fault_id, GeometryUnion, MixedUnion, AlikeUnions, EachOf, AreJust};

use crate::dimensions::{CoordType, Dimension};
use arrow_values::{AppendFault, DataType, Field, UnionFields};

/// Whether two data types are alike, so that they have the same kinds under every extension name: the same plain type,
/// or lists of the same width over alike items (GeoArrow, "Native encoding"), or fixed size lists of the same size and
/// inner name (GeoArrow, "Coordinate"), or structs with the same number of fields and, if that is three or six, the
/// same set of names, or unions in which each member of either has an alike member of the same type id in the other
/// (GeoArrow, "Geometry"). Nullability, metadata, other names, the order of fields and members, the mode of a union and
/// the data types of coordinates do not matter. Allocates nothing.
///
/// ```rust
/// let (separated, xy) = (CoordType::Separated, Dimension::XY);
/// let lines = list_data_type(alloc, NativeKind::LineString, separated, xy)?;
/// let points = list_data_type(alloc, NativeKind::MultiPoint, separated, xy)?;
/// assert!(rt; lines != points && alike(&lines, &points));
/// ```
#[tactic(auto, using(crate::proofs::AlikeLaws::alike_refl))]
pub fn alike(a: &DataType, b: &DataType) -> bool
    ensures { IsTrue result ↔ Alike (tree a.now) (tree b.now) }
{
    *a == *b || same(a, b)
}

/// The test that `alike` makes of two that are not equal.
#[cycle(same)]
fn same(a: &DataType, b: &DataType) -> bool
    ensures { IsTrue result ↔ Alike (tree a.now) (tree b.now) }
{
    match (a, b) {
        (DataType::List(f), DataType::List(g)) => same(f.data_type(), g.data_type()),
        (DataType::LargeList(f), DataType::LargeList(g)) => same(f.data_type(), g.data_type()),
        (DataType::FixedSizeList(f, size), DataType::FixedSizeList(g, other_size)) => {
            f.name() == g.name() && size == other_size
        }
        (DataType::Struct(fields), DataType::Struct(others)) => {
            same_struct(fields.as_slice(), others.as_slice())
        }
        (DataType::Union(members, _), DataType::Union(others, _)) => {
            each_has_same(members, others) && all_are_met(members, others)
        }
        _ => a == b,
    }
}

/// Whether each member has an alike one of the same id among the others.
#[cycle(same)]
fn each_has_same(members: &UnionFields, others: &UnionFields) -> bool
    ensures { IsTrue result ↔ EachHasAlike (member_trees members.now) (member_trees others.now) }
{
    for member in members.as_slice() {
        if !any_same(member, others) {
            return false;
        }
    }
    true
}

/// Whether some of the others has the member's id and is alike.
#[cycle(same)]
fn any_same(member: &(i8, Field), others: &UnionFields) -> bool
    ensures { IsTrue result ↔ SomeMember (λ j u. (member.now.0 ≡ j) × Alike member.now.1.tree u) (member_trees others.now) }
{
    for (id, field) in others.as_slice() {
        if member.0 == *id && same(member.1.data_type(), field.data_type()) {
            return true;
        }
    }
    false
}

/// Whether each of the others has an alike member of the same id, where each member is known to have one among them.
#[cycle(same)]
fn all_are_met(members: &UnionFields, others: &UnionFields) -> bool
    requires { EachHasAlike (member_trees members.now) (member_trees others.now) }
    ensures { IsTrue result ↔ AllMembers (HasAlike (member_trees members.now)) (member_trees others.now) }
{
    for other in others.as_slice() {
        if !is_met(members, others, other) {
            return false;
        }
    }
    true
}

/// Whether one of the others is met by a member, where each member is known to have an alike one among them. It goes down
/// again only where another data type stands among them under the same id.
#[cycle(same)]
fn is_met(members: &UnionFields, others: &UnionFields, other: &(i8, Field)) -> bool
    requires { EachHasAlike (member_trees members.now) (member_trees others.now) }
    ensures { IsTrue result ↔ HasAlike (member_trees members.now) other.now.0 other.now.1.tree }
{
    if is_only(other, others) {
        has_id(other, members)
    } else {
        any_same(other, members)
    }
}

/// Whether some member has the other's id.
fn has_id(other: &(i8, Field), members: &UnionFields) -> bool
    ensures { IsTrue result ↔ SomeMember (λ i t. i ≡ other.now.0) (member_trees members.now) }
{
    for member in members.as_slice() {
        if member.0 == other.0 {
            return true;
        }
    }
    false
}

/// Whether each member with the other's id has its data type.
fn is_only(other: &(i8, Field), members: &UnionFields) -> bool
    ensures { IsTrue result ↔ AllMembers (λ i t. i ≡ other.now.0 → t ≡ other.now.1.tree) (member_trees members.now) }
{
    for member in members.as_slice() {
        if !is_same_or_apart(member, other) {
            return false;
        }
    }
    true
}

/// Whether the two members have one data type if they have one id.
fn is_same_or_apart(member: &(i8, Field), other: &(i8, Field)) -> bool
    ensures { IsTrue result ↔ (member.now.0 ≡ other.now.0 → member.now.1.tree ≡ other.now.1.tree) }
{
    member.0 != other.0 || *member.1.data_type() == *other.1.data_type()
}

/// Whether structs of these fields are alike.
#[tactic(auto, using(crate::proofs::Structs::length_names))]
fn same_struct(fields: &[Field], others: &[Field]) -> bool
    ensures { IsTrue result ↔ AlikeNames (names_of (field_trees fields.now)) (names_of (field_trees others.now)) }
{
    match fields.len() {
        count if count != others.len() => false,
        3 | 6 => same_names(fields, others),
        _ => true,
    }
}

/// Whether the fields have the same set of names.
#[tactic(auto, using(crate::proofs::Structs::same_first, crate::proofs::Structs::not_same))]
fn same_names(fields: &[Field], others: &[Field]) -> bool
    ensures { IsTrue result ↔ SameNames (names_of (field_trees fields.now)) (names_of (field_trees others.now)) }
{
    are_all_named(fields, others) && are_all_named(others, fields)
}

/// Whether each field's name is among those of the others.
fn are_all_named(fields: &[Field], others: &[Field]) -> bool
    ensures { result ≡ list_all (λ f. has_name f.name (names_of (field_trees others.now))) fields.now }
{
    fields.iter().all(|field| has_name(others, field.name()))
}

/// Whether the name is among those of the fields.
fn has_name(fields: &[Field], name: &str) -> bool
    ensures { result ≡ has_name name.now (names_of (field_trees fields.now)) }
{
    fields.iter().any(|field| field.name() == name)
}

/// Keeps the members whose type id is in the slice, in their order. If at least one is left, a union of geometries of any
/// kind is still one, of the same coordinate type (GeoArrow, "Geometry"), and the union in a collection is still one,
/// of the same coordinate type and dimension (GeoArrow, "GeometryCollection"). Allocates nothing.
///
/// ```rust
/// keep_members(&mut members, wanted);
/// if members.is_empty() {
///     return Ok(None);
/// }
/// ```
pub fn keep_members(members: &mut UnionFields, ids: &[i8])
    ensures members { members.new ≡ retained ids.now members.old }
    ensures ids { HasTypeIds members.old → HasTypeIds members.new }
    ensures geometry { members.new ≢ [] → (c : CoordType) → GeometryUnion c members.old → GeometryUnion c members.new }
    ensures mixed { members.new ≢ [] → (c : CoordType) (d : Dimension) → MixedUnion c d members.old → MixedUnion c d members.new }
{
    members.retain_ids(ids);
}

/// Appends the members of `other`. The result is a union of geometries of any kind exactly if it has a member and each
/// of the two unions that had members was one, both of the same coordinate type (GeoArrow, "Geometry"); the same holds
/// for unions in a collection (GeoArrow, "GeometryCollection"). It is alike to every union of exactly these members, in
/// any order. Errs with `RepeatedId` of the first id of `other` that `members` has too, if there is one, and otherwise
/// only when out of memory; `other` is then returned, and both unions are unchanged.
///
/// ```rust
/// let mut members = one;
/// match append_members(&mut members, other) {
///     Ok(()) => {}
///     Err((_, AppendFault::RepeatedId(_))) => return Ok(None),
///     Err((_, AppendFault::OutOfMemory)) => return Err(AllocError),
/// }
/// ```
pub fn append_members(
    members: &mut UnionFields,
    other: UnionFields,
) -> Result<(), (UnionFields, AppendFault)>
    ensures joined { OnOk result (members.new ≡ members.old ++ other) }
    ensures ids { HasTypeIds members.old → HasTypeIds other → HasTypeIds members.new }
    ensures none_shared { OnOk result (shared_id members.old other ≡ None) }
    ensures fault { IfErr result (λ e. shared_id members.old other ≡ fault_id e.1) }
    ensures unchanged { OnErr result (members.new ≡ members.old) }
    ensures given_back { IfErr result (λ e. e.0 ≡ other) }
    ensures no_memory { other ≡ [] → IsOk result }
    ensures geometry { OnOk result ((c : CoordType) → GeometryUnion c members.new ↔ EachOf (GeometryUnion c) members.old other members.new) }
    ensures mixed { OnOk result ((c : CoordType) (d : Dimension) → MixedUnion c d members.new ↔ EachOf (MixedUnion c d) members.old other members.new) }
    ensures alike { OnOk result ((all : Members) → AreJust members.old other all → AlikeUnions members.new all) }
{
    members.append(other)
}
