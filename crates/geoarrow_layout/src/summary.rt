//! What one walk over a data type finds.
ghost use Rattle.std.specs.Prelude.{◌≡◌, ◌<◌, ◌≤◌, ◌↔◌};
ghost use Rattle.geoarrow_layout.specs.Cited.{false, [], IsTrue, MatchOption, pos, tree, field_trees, member_trees, Tree, plain, float64, order_of, ListsOver, Member, GeometryMember, place_in, known_names, IsStruct, IsBottom, AreLevels, place_of, IsInnerUnion, IsRootUnion, Summarizes, IsNoLeaf, Ended, IsWidth, ShowsIn, AddsBits, ReadAt, first_fault, TellsBoth, IsBits, SomeAt, has_name, get_or, List, Text, is_float64, MemberFault, GeometryMemberFault};

use crate::dimensions::{CoordType, Dimension, named_dimension};
use crate::fault::LayoutFault;
use crate::native_kinds::{NativeKind, parts_of_id};
use crate::read::{Answer, member};
use arrow_values::{DataType, Field};

/// The two widths of lists.
/// [`Summary`] has an example.
#[derive(Clone, Copy, Debug, PartialEq, Eq)]
pub enum ListWidth {
    /// With 32-bit offsets.
    List,
    /// With 64-bit offsets.
    LargeList,
}

/// What is below the list levels of a data type.
/// [`Summary`] has an example.
#[derive(Clone, Copy, Debug, PartialEq, Eq)]
pub enum Bottom {
    /// A fixed size list: the dimension that the inner field names, the size, and whether it is of `Float64`.
    FixedSizeList {
        named: Option<Dimension>,
        size: i32,
        float64: bool,
    },
    /// A struct: how many fields it has, which of `x`, `y`, `z`, `m`, `zmin`, `zmax`, `mmin` and `mmax` occur, as bits
    /// from the lowest, and a ninth bit for any other name, and whether all fields are `Float64`.
    Struct {
        count: usize,
        names: u16,
        all_float64: bool,
    },
    /// A union: whether it has no members, its type ids from 0 to 63, as bits, the coordinate types and the dimensions
    /// of the members without a fault, as bits in the order of the variants, and the first fault of a member as one of
    /// a union in a collection and as one of a union of geometries. A member is without a fault as one of a geometry if
    /// the union is the whole data type, and as one of a collection otherwise.
    Union {
        no_members: bool,
        ids: u64,
        coord_types: u8,
        dimensions: u8,
        mixed_fault: Option<LayoutFault>,
        geometry_fault: Option<LayoutFault>,
    },
    /// A list of the other width.
    OtherWidth,
    /// A fourth level of the same width.
    Deep,
    /// Anything else.
    Other,
}

/// What one walk over a data type finds; its size is fixed, however large the data type is. Readers of
/// geometries and boxes use only the summary.
///
/// ```rust
/// let (separated, xy) = (CoordType::Separated, Dimension::XY);
/// let rings = list_data_type(alloc, NativeKind::Polygon, separated, xy)?;
/// let found = summarize(&rings);
/// assert!(rt; found.levels == 2 && found.width == Some(ListWidth::List));
/// assert!(rt; matches!(found.bottom, Bottom::Struct { count: 2, .. }));
/// ```
#[derive(Clone, Copy, Debug, PartialEq, Eq)]
pub struct Summary {
    /// The list levels of the outermost list's width, 0 to 3.
    pub levels: u8,
    /// That width; `None` if there are no levels.
    pub width: Option<ListWidth>,
    /// What is below these levels.
    pub bottom: Bottom,
}

/// The place of a name among those that a layout goes by; 8 for any other.
fn name_place(name: &str) -> u8
    ensures place { result ≡ place_in name.now known_names }
    ensures small { result ≤ 8 }
{
    match name {
        "x" => 0,
        "y" => 1,
        "z" => 2,
        "m" => 3,
        "zmin" => 4,
        "zmax" => 5,
        "mmin" => 6,
        "mmax" => 7,
        _ => 8,
    }
}

pub(crate) fn is_float64(data_type: &DataType) -> bool
    ensures value { result ≡ is_float64 (tree data_type.now) }
    ensures same { IsTrue result ↔ (tree data_type.now ≡ plain float64) }
{
    matches!(data_type, DataType::Float64)
}

#[inline(always)]
pub(crate) fn struct_bottom(fields: &[Field]) -> Bottom
    ensures { IsStruct result (field_trees fields.now) }
{
    let mut names = 0;
    let mut all_float64 = true;
    for field in fields {
        names |= 1 << name_place(field.name());
        all_float64 &= is_float64(field.data_type());
    }
    Bottom::Struct {
        count: fields.len(),
        names,
        all_float64,
    }
}

/// What is below the list levels, not yet examined.
#[derive(Clone, Copy)]
pub struct Below<'a> {
    /// How many list levels are above it, at most three.
    pub levels: u8,
    /// The width of the lists; `None` if there is no list.
    pub width: Option<ListWidth>,
    /// The data type below them.
    pub rest: &'a DataType,
}

/// The item of a list of that width, or of either where it is `None`, and the width that the list has.
#[inline(always)]
pub(crate) fn list_item(
    width: Option<ListWidth>,
    data_type: &DataType,
) -> Option<(ListWidth, &DataType)>
    ensures { MatchOption result (Ended width 0 (tree data_type.now)) (λ x. IsWidth width x.0 × ListsOver x.0 1 (tree data_type.now) (tree x.1.now)) }
{
    match (data_type, width) {
        (DataType::List(item), None | Some(ListWidth::List)) => {
            Some((ListWidth::List, item.data_type()))
        }
        (DataType::LargeList(item), None | Some(ListWidth::LargeList)) => {
            Some((ListWidth::LargeList, item.data_type()))
        }
        _ => None,
    }
}

/// Goes down the list levels of the outermost list's width, to the third at most.
#[inline(always)]
#[tactic(auto, using(crate::proofs::Readings::level_more))]
pub(crate) fn below_lists(data_type: &DataType) -> Below<'_>
    ensures levels { AreLevels result.width result.levels (tree data_type.now) (tree result.rest.now) }
    ensures ended { Ended result.width result.levels (tree result.rest.now) }
{
    let mut below = Below {
        levels: 0,
        width: None,
        rest: data_type,
    };
    while below.levels < 3 {
        let Some((found, item)) = list_item(below.width, below.rest) else {
            return below;
        };
        below = Below {
            levels: below.levels + 1,
            width: Some(found),
            rest: item,
        };
    }
    below
}

/// The summary of what is below these levels, by its bottom.
macro_rules! summary_over {
    ($below:ident, $bottom:expr) => {
        Summary {
            levels: $below.levels,
            width: $below.width,
            bottom: $bottom,
        }
    };
}

/// What stands below the levels, where a union is not entered.
#[inline(always)]
fn leaf_bottom(below: &Below<'_>) -> Bottom
    requires { Ended below.now.width below.now.levels (tree below.now.rest.now) }
    ensures { IsBottom IsNoLeaf below.now.width below.now.levels result (tree below.now.rest.now) }
{
    match (below.rest, below.width) {
        (DataType::FixedSizeList(inner, size), _) => Bottom::FixedSizeList {
            named: named_dimension(inner.name()),
            size: *size,
            float64: is_float64(inner.data_type()),
        },
        (DataType::Struct(fields), _) => struct_bottom(fields.as_slice()),
        (DataType::List(_), Some(ListWidth::LargeList)) => Bottom::OtherWidth,
        (DataType::LargeList(_), Some(ListWidth::List)) => Bottom::OtherWidth,
        (DataType::List(_) | DataType::LargeList(_), _) => Bottom::Deep,
        _ => Bottom::Other,
    }
}

/// The set of type ids with one more; ids that are not from 0 to 63 are left out.
#[tactic(auto, using(crate::proofs::Structs::id_outside, crate::proofs::Structs::id_between))]
fn with_id(ids: u64, id: i8) -> u64
    ensures { AddsBits ids (λ i. (i < 64) × (id ≡ pos i)) result }
{
    if id < 0 || 63 < id {
        return ids;
    }
    ids | 1 << id as u8
}

fn first_fault(fault: Option<LayoutFault>, part: &Answer) -> Option<LayoutFault>
    ensures { result ≡ first_fault fault part.now }
{
    fault.or(part.err())
}

/// What was seen of the members of a union; by default, what was seen before the first.
#[derive(Clone, Copy, Default)]
struct Members {
    ids: u64,
    coord_types: u8,
    dimensions: u8,
    fault: Option<LayoutFault>,
}

/// What was seen with one member more, which is read as that; the type ids have its own among them.
#[tactic(auto, using(crate::proofs::Structs::number_added, crate::proofs::Structs::number_kept))]
fn with_member(seen: Members, ids: u64, part: &Answer) -> Members
    ensures ids { result.ids ≡ ids }
    ensures coord_types { AddsBits seen.coord_types (ReadAt (λ x. place_of x.0) part.now) result.coord_types }
    ensures dimensions { AddsBits seen.dimensions (ReadAt (λ x. order_of x.1) part.now) result.dimensions }
    ensures fault { result.fault ≡ first_fault seen.fault part.now }
{
    let fault = first_fault(seen.fault, part);
    match part {
        Ok(pair) => Members {
            ids,
            coord_types: seen.coord_types | 1 << pair.0 as u8,
            dimensions: seen.dimensions | 1 << pair.1.order(),
            fault,
        },
        Err(_) => Members { ids, fault, ..seen },
    }
}

/// A union below lists, whose members hold no union that anyone reads.
fn inner_union(members: &[(i8, Field)]) -> Bottom
    ensures { IsInnerUnion result (member_trees members.now) }
{
    let mut seen = Members::default();
    for item in members {
        let below = below_lists(item.1.data_type());
        let part = member(false, item.0, &summary_over!(below, leaf_bottom(&below)));
        seen = with_member(seen, with_id(seen.ids, item.0), &part);
    }
    Bottom::Union {
        no_members: members.is_empty(),
        ids: seen.ids,
        coord_types: seen.coord_types,
        dimensions: seen.dimensions,
        mixed_fault: seen.fault,
        geometry_fault: Some(LayoutFault::UnexpectedType),
    }
}

/// The summary of a member: a union below a list is entered only where collections are allowed.
pub(crate) fn member_summary(collections: bool, data_type: &DataType) -> Summary
    ensures { ShowsIn collections result (tree data_type.now) }
{
    let below = below_lists(data_type);
    match below.rest {
        DataType::Union(members, _) if collections => {
            summary_over!(below, inner_union(members.as_slice()))
        }
        _ => summary_over!(below, leaf_bottom(&below)),
    }
}

/// What a member of a union of geometries is as one of a collection, which holds no collections.
fn in_collection(id: i8, part: Answer) -> Answer
    ensures { (t : Tree) → TellsBoth part (GeometryMember id t) (GeometryMemberFault id t) → TellsBoth result (Member id t) (MemberFault id t) }
{
    match parts_of_id(id) {
        Some((NativeKind::GeometryCollection, _)) => Err(LayoutFault::BadTypeId),
        _ => part,
    }
}

/// A union that is the whole data type.
fn root_union(members: &[(i8, Field)]) -> Bottom
    ensures { IsRootUnion result (member_trees members.now) }
{
    let mut seen = Members::default();
    let mut mixed_fault = None;
    for item in members {
        let below = member_summary(true, item.1.data_type());
        let part = member(true, item.0, &below);
        seen = with_member(seen, with_id(seen.ids, item.0), &part);
        mixed_fault = first_fault(mixed_fault, &in_collection(item.0, part));
    }
    Bottom::Union {
        no_members: members.is_empty(),
        ids: seen.ids,
        coord_types: seen.coord_types,
        dimensions: seen.dimensions,
        mixed_fault,
        geometry_fault: seen.fault,
    }
}

/// The summary of a data type, found in one walk, no further than three list levels and two unions. Allocates nothing.
pub fn summarize(data_type: &DataType) -> Summary
    ensures { Summarizes result (tree data_type.now) }
{
    let below = below_lists(data_type);
    match below.rest {
        DataType::Union(members, _) if below.levels == 0 => {
            summary_over!(below, root_union(members.as_slice()))
        }
        DataType::Union(members, _) => summary_over!(below, inner_union(members.as_slice())),
        _ => summary_over!(below, leaf_bottom(&below)),
    }
}

/// Whether the known name of that place occurs, by the bits of the names that do.
#[tactic(auto, using(crate::proofs::Structs::has_at))]
pub(crate) fn has_known(bits: u16, place: u8) -> bool
    requires { place < 8 }
    ensures { (ns : List Text) → IsBits bits (λ i. SomeAt i ns) → result ≡ has_name (get_or known_names place []) ns }
{
    bits >> place & 1 == 1
}
