//! Laws of the layouts, for the crates above: functions with nothing to run, whose contract is the law, and laws of `==`.
ghost use Rattle.std.specs.Prelude.{◌≡◌, ◌↔◌, ◌≢◌, ◌<◌, ◌⊎◌, ◌++◌};
ghost use Rattle.geoarrow_layout.specs.Cited.{Contains, true, ℕ, ℤ, List, length, get_or, IsTrue, Text, Tree, FieldTree, Members, member_trees, tree, HasTypeIds, has, retained, dimensions_size, size_of, dimensions_of, IsDimension, name_text, name_of, ExtensionName, Leaf, AllMembers, Accepts, IsStructured, Summarizes, Inferred, leaf_layout, layout, mixed_members, geometry_members, IsWritten, IsWrittenSome, Alike, IsAccepted, SameCandidates, Path, FaultAt, LayoutFault, AlikeUnions};

use crate::dimensions::{CoordType, Dimension};
use crate::fault::LayoutFault;
use crate::names::{Candidates, ExtensionName};
use crate::native_kinds::{Kind, NativeKind, Width};
use crate::read::parse_kind;
use crate::summary::{Bottom, ListWidth, Summary};
use arrow_values::DataType;

/// A law: the data type that is written for a coordinate is read as that coordinate.
#[tactic(auto, using(crate::proofs::Written::written_leaf))]
pub fn leaf_reads_back(coord_type: CoordType, dimension: Dimension)
    ensures { Leaf (leaf_layout coord_type dimension) coord_type dimension }
{}

/// A law: the data type that is written for a kind is, under the kind's extension name, of that kind.
#[tactic(auto, using(crate::proofs::Written::written))]
pub fn layout_reads_back(kind: Kind)
    ensures { Accepts (name_of kind) (layout kind) kind }
{}

/// A law: every kind is in `Kind::ALL`.
#[tactic(auto, using(crate::proofs::Written::listed))]
pub fn kind_is_listed()
    ensures { (k : Kind) → Contains Kind.ALL k }
{}

/// A law: the extension names are texts of their own.
pub fn names_are_distinct()
    ensures { (a b : ExtensionName) → name_text a ≡ name_text b → a ≡ b }
{}

/// A law: under one extension name a data type is of one kind at most.
pub fn one_kind()
    ensures { (name : Text) (t : Tree) (k l : Kind) → Accepts name t k → Accepts name t l → k ≡ l }
{}

/// A law: data types of equal summary, other than well-known binary and text, are of the same kinds, however large they
/// are. The summary alone says the kind under each name, so there is no need to run this.
pub fn read_alike(summary: &Summary)
    ensures { (t u : Tree) → Summarizes summary.now t → Summarizes summary.now u → (name : Text) (k : Kind) → IsStructured k → Accepts name t k ↔ Accepts name u k }
{
    for kind in &Kind::ALL {
        summary.kind(kind.name());
    }
}

/// A law: the members that are written for a collection have type ids of their own, from 0 to 127 and all distinct,
/// each that of its kind and dimension, and each member's data type is what is written for these.
pub fn mixed_ids(coord_type: CoordType, dimension: Dimension)
    ensures distinct { HasTypeIds (mixed_members coord_type dimension) }
    ensures own { AllMembers (IsWritten coord_type dimension) (member_trees (mixed_members coord_type dimension)) }
{}

/// A law: the same for the members that are written for geometries of any kind.
pub fn geometry_ids(coord_type: CoordType)
    ensures distinct { HasTypeIds (geometry_members coord_type) }
    ensures own { AllMembers (IsWrittenSome coord_type) (member_trees (geometry_members coord_type)) }
{}

/// A law: a dimension that is made dimensions is that dimension again and no other, and of the same size.
pub fn dimension_reads_back(dimension: Dimension)
    ensures same { (d : Dimension) → IsDimension (dimensions_of dimension) d ↔ (d ≡ dimension) }
    ensures size { dimensions_size (dimensions_of dimension) ≡ size_of dimension }
{}

/// A law: where a point is inferred from a data type that is also read as one, it is the same point.
#[tactic(auto, using(crate::proofs::Structs::inferred_as_read))]
pub fn inferred_as_read()
    ensures { (t : Tree) (c b : CoordType) (d e : Dimension) → Inferred t c d → Leaf t b e → (c ≡ b) × (d ≡ e) }
{}

/// A law: the data types that are written for the 68 kinds are pairwise distinct.
pub fn layouts_are_distinct()
    ensures { (j k : Kind) → layout j ≡ layout k → j ≡ k }
{}

/// A law: a data type is alike to itself.
#[tactic(auto, using(crate::proofs::AlikeLaws::alike_refl))]
pub fn alike_to_itself()
    ensures { (t : Tree) → Alike t t }
{}

/// A law: of two alike data types each is alike to the other.
#[tactic(auto, using(crate::proofs::AlikeLaws::alike_sym))]
pub fn alike_both_ways()
    ensures { (t u : Tree) → Alike t u → Alike u t }
{}

/// A law: what is alike to an alike data type is alike.
#[tactic(auto, using(crate::proofs::AlikeLaws::alike_trans))]
pub fn alike_in_turn()
    ensures { (t u v : Tree) → Alike t u → Alike u v → Alike t v }
{}

/// A law: alike data types are of the same kind under every extension name.
#[tactic(auto, using(crate::proofs::AlikeLaws::alike_accepted, crate::proofs::AlikeLaws::alike_sym))]
pub fn alike_are_one_kind()
    ensures { (t u : Tree) → Alike t u → (name : Text) (k : Kind) → Accepts name t k ↔ Accepts name u k }
{}

/// A law: where each member of a union has its type id in one list or the other, the two parts that these lists keep,
/// one after the other, are alike to the whole.
pub fn parts_are_alike()
    ensures { (ms : Members) (is js : List ℤ) → ((m : ℤ × FieldTree) → Contains ms m → (has m.0 is ≡ true) ⊎ (has m.0 js ≡ true)) → AlikeUnions (retained is ms ++ retained js ms) ms }
{}

/// A law: unions of the same members, in any order, are alike.
pub fn order_does_not_matter()
    ensures { (ms ns : Members) → ((m : ℤ × FieldTree) → Contains ms m ↔ Contains ns m) → AlikeUnions ms ns }
{}

/// A law: no kind is twice in `Kind::ALL`.
#[tactic(auto, using(crate::proofs::Written::listed_once))]
pub fn kinds_are_listed_once()
    ensures { (i j : ℕ) (k : Kind) → i < length Kind.ALL → j < length Kind.ALL → get_or Kind.ALL i k ≡ get_or Kind.ALL j k → i ≡ j }
{}

/// A law: under one extension name a data type has one fault at most, in one place.
#[tactic(auto, using(crate::proofs::FaultLaws::one_fault))]
pub fn one_fault()
    ensures { (n : ExtensionName) (t : Tree) (p q : Path) (f g : LayoutFault) → FaultAt n t p f → FaultAt n t q g → (p ≡ q) × (f ≡ g) }
{}

/// A law: a data type that has a kind under an extension name has no fault under it.
#[tactic(auto, using(crate::proofs::KindSteps::no_fault_if_accepted))]
pub fn no_fault_if_accepted()
    ensures { (n : ExtensionName) (t : Tree) (p : Path) (f : LayoutFault) → IsAccepted (name_text n) t → ¬ FaultAt n t p f }
{}

/// A law: a data type has a kind under an extension name, or else a fault, which `parse_kind` names, so there is no
/// need to run this.
pub fn accepted_or_at_fault(name: ExtensionName, data_type: &DataType)
    ensures { IsAccepted (name_text name) (tree data_type.now) ⊎ ((p : Path) × (f : LayoutFault) × FaultAt name (tree data_type.now) p f) }
{
    let _ = parse_kind(name, data_type);
}

/// A law: `==` returns true for two coordinate types exactly if they are the same.
pub fn coord_type_equality_is_exact(one: CoordType, other: CoordType) -> bool
    ensures { IsTrue result ↔ (one ≡ other) }
{
    one == other
}

/// A law: `==` returns true for two dimensions exactly if they are the same.
pub fn dimension_equality_is_exact(one: Dimension, other: Dimension) -> bool
    ensures { IsTrue result ↔ (one ≡ other) }
{
    one == other
}

/// A law: `==` returns true for two native kinds exactly if they are the same.
pub fn native_kind_equality_is_exact(one: NativeKind, other: NativeKind) -> bool
    ensures { IsTrue result ↔ (one ≡ other) }
{
    one == other
}

/// A law: `==` returns true for two widths exactly if they are the same.
pub fn width_equality_is_exact(one: Width, other: Width) -> bool
    ensures { IsTrue result ↔ (one ≡ other) }
{
    one == other
}

/// A law: `==` returns true for two kinds exactly if variant and parts are the same.
#[tactic(auto, using(crate::proofs::Equality::kind_decides))]
pub fn kind_equality_is_exact(one: Kind, other: Kind) -> bool
    ensures { IsTrue result ↔ (one ≡ other) }
{
    one == other
}

/// A law: `==` returns true for two extension names exactly if they are the same.
pub fn name_equality_is_exact(one: ExtensionName, other: ExtensionName) -> bool
    ensures { IsTrue result ↔ (one ≡ other) }
{
    one == other
}

/// A law: `==` returns true for two faults exactly if they are the same.
pub fn fault_equality_is_exact(one: LayoutFault, other: LayoutFault) -> bool
    ensures { IsTrue result ↔ (one ≡ other) }
{
    one == other
}

/// A law: `==` returns true for two widths of lists exactly if they are the same.
pub fn list_width_equality_is_exact(one: ListWidth, other: ListWidth) -> bool
    ensures { IsTrue result ↔ (one ≡ other) }
{
    one == other
}

/// A law: `==` returns true for two bottoms exactly if variant and parts are the same.
#[tactic(auto, using(crate::proofs::Equality::bottom_decides))]
pub fn bottom_equality_is_exact(one: Bottom, other: Bottom) -> bool
    ensures { IsTrue result ↔ (one ≡ other) }
{
    one == other
}

/// A law: `==` returns true for two summaries exactly if their parts are the same.
#[tactic(auto, using(crate::proofs::Equality::summary_decides))]
pub fn summary_equality_is_exact(one: Summary, other: Summary) -> bool
    ensures { IsTrue result ↔ (one ≡ other) }
{
    one == other
}

/// A law: `==` returns true for two candidates exactly if the variant and, of one name, its text are the same.
pub fn candidates_equality_is_exact(one: Candidates, other: Candidates) -> bool
    ensures { IsTrue result ↔ SameCandidates one other }
{
    one == other
}
