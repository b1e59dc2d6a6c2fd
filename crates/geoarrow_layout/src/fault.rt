//! Why a data type is refused by a reader, and where it is at fault.
ghost use Rattle.std.specs.Prelude.{◌≡◌, ◌⊎◌};
ghost use Rattle.geoarrow_layout.specs.Cited.{IfOk, IsMemory, None, Some, OnOk, MatchOption, tree, member_trees, name_text, IsAccepted, Path, CoordinateFault, LevelsFault, FaultAt, child_at, LeadsTo, FirstOrNone, MemberIn, MemberFaultIn, NativeFaultIn, UnionFaultIn};

use crate::names::ExtensionName;
use crate::native_kinds::{NativeKind, list_names, parts_of_id};
use crate::read::{member, native, parse_kind};
use crate::summary::{ListWidth, list_item, member_summary};
use arrow_values::{ArrowError, DataType, Field, GeoArrowError};
use std::alloc::{AllocError, Global};

/// Why a data type does not have the layout that a reader expects.
/// [`parse_kind`](crate::parse_kind) has an example.
#[derive(Clone, Copy, Debug, PartialEq, Eq)]
pub enum LayoutFault {
    /// The data type, or one inside it, is of another sort.
    UnexpectedType,
    /// The name of the inner field of a fixed size list is that of no dimension.
    BadInterleavedName,
    /// The size of a fixed size list does not match the dimension that its inner field names.
    BadSize,
    /// The names of a struct's fields are those of no dimension.
    BadFieldNames,
    /// The number of a struct's fields is that of no dimension.
    BadFieldCount,
    /// A list contains a list of the other width.
    MixedWidths,
    /// The type id of a union's member is not allowed there.
    BadTypeId,
    /// The dimension of a union's member is not that of its type id.
    MemberDimension,
    /// A union has no members.
    EmptyUnion,
    /// The members of a union have different coordinate types.
    SeveralCoordTypes,
    /// The members of a collection's union have different dimensions.
    SeveralDimensions,
}

impl LayoutFault {
    ghost use Rattle.geoarrow_layout.specs.Cited.{fault_text, IsErrorOfFault};

    /// The fault as an error of Arrow: `BadSize` is an `InvalidGeoArrow` in an `ExternalError`, as in the Rust crate,
    /// and every other a `SchemaError`; or `OutOfMemory` where there is no memory for its text or its box.
    pub fn into_arrow_error(self, alloc: Global) -> ArrowError
        ensures { IsMemory result ⊎ IsErrorOfFault self result }
    {
        self.try_arrow_error(alloc)
            .unwrap_or(ArrowError::OutOfMemory)
    }

    /// The error of the fault. Errs only when out of memory.
    fn try_arrow_error(self, alloc: Global) -> Result<ArrowError, AllocError>
        ensures { IfOk result (IsErrorOfFault self) }
    {
        let text = String::from_str(alloc, self.text())?;
        match self {
            LayoutFault::BadSize => {
                let error = Box::new(alloc, GeoArrowError::InvalidGeoArrow(text))?;
                Ok(ArrowError::ExternalError(error))
            }
            _ => Ok(ArrowError::SchemaError(text)),
        }
    }

    /// Returns the message of the fault, as its error has it. Allocates nothing.
    pub fn text(self) -> &'static str
        ensures { result.now ≡ fault_text self }
    {
        match self {
            LayoutFault::UnexpectedType => "unexpected data type",
            LayoutFault::BadInterleavedName => "unknown interleaved field name",
            LayoutFault::BadSize => "list size differs from the field name",
            LayoutFault::BadFieldNames => "unexpected field names",
            LayoutFault::BadFieldCount => "unexpected number of fields",
            LayoutFault::MixedWidths => "list widths differ",
            LayoutFault::BadTypeId => "unexpected type id",
            LayoutFault::MemberDimension => "member dimension differs from its type id",
            LayoutFault::EmptyUnion => "union has no members",
            LayoutFault::SeveralCoordTypes => "several coordinate types in union",
            LayoutFault::SeveralDimensions => "several dimensions in union",
        }
    }
}

/// What it answers to add to a path: an error only where there is no memory.
type Added = Result<(), AllocError>;

/// Why a data type has no kind under an extension name, and where (GeoArrow, "Native encoding"): the fault that
/// `parse_kind` errs with, and the way from the data type to the one inside it that is at fault, as the place of a
/// child field at each step, from 0; `child_field` finds the field at a place. `None` if the data type has a kind under
/// the name. Errs only when out of memory.
///
/// ```rust
/// let name = ExtensionName::Native(NativeKind::LineString);
/// let found = find_fault(alloc, name, &data_type)?;
/// ```
pub fn find_fault(
    alloc: Global,
    name: ExtensionName,
    data_type: &DataType,
) -> Result<Option<(Vec<usize>, LayoutFault)>, AllocError>
    ensures { IfOk result (λ r. MatchOption r (IsAccepted (name_text name) (tree data_type.now)) (λ found. FaultAt name (tree data_type.now) found.0.items found.1)) }
{
    let Err(fault) = parse_kind(name, data_type) else {
        return Ok(None);
    };
    let mut path = Vec::new(alloc);
    push_path(&mut path, name, data_type)?;
    Ok(Some((path, fault)))
}

/// The child field of a data type at a place, from 0, as the paths of `find_fault` count them: the item of a list, which
/// has the place 0, a field of a struct, or a member of a union. `None` where there is none. Allocates nothing.
///
/// ```rust
/// let item = child_field(&data_type, 0);
/// ```
#[tactic(auto, using(crate::proofs::FaultLaws::field_there, crate::proofs::FaultLaws::no_field_there, crate::proofs::FaultLaws::member_there, crate::proofs::FaultLaws::no_member_there))]
pub fn child_field(data_type: &DataType, place: usize) -> Option<&Field>
    ensures { MatchOption result (child_at (tree data_type.now) place ≡ None) (λ f. child_at (tree data_type.now) place ≡ Some f.now) }
{
    match data_type {
        DataType::List(item) | DataType::LargeList(item) | DataType::FixedSizeList(item, _) => {
            if place == 0 { Some(item) } else { None }
        }
        DataType::Struct(fields) => fields.as_slice().get(place),
        DataType::Union(members, _) => Some(&members.as_slice().get(place)?.1),
        _ => None,
    }
}

/// Adds the path to the fault, if there is one.
fn push_path(path: &mut Vec<usize>, name: ExtensionName, data_type: &DataType) -> Added
    ensures { OnOk result (LeadsTo (FaultAt name (tree data_type.now)) path.old.items path.new.items) }
{
    match name {
        ExtensionName::Native(kind) => push_native(path, true, kind, data_type),
        ExtensionName::Geometry => push_union(path, true, data_type),
        _ => Ok(()),
    }
}

/// Adds the path to the fault as one of a native kind; a collection only where collections are allowed.
#[cycle(paths)]
fn push_native(
    path: &mut Vec<usize>,
    collections: bool,
    kind: NativeKind,
    data_type: &DataType,
) -> Added
    ensures { OnOk result (LeadsTo (NativeFaultIn collections kind (tree data_type.now)) path.old.items path.new.items) }
{
    match (kind, data_type) {
        (NativeKind::GeometryCollection, DataType::List(item) | DataType::LargeList(item))
            if collections => {
            path.push(0)?;
            push_union(path, false, item.data_type())
        }
        (NativeKind::GeometryCollection, _) => Ok(()),
        _ => push_levels(path, None, list_names(kind).len() as u8, data_type),
    }
}

/// Adds the path to the fault as so many lists of that width, or of either where it is `None`, over a coordinate.
fn push_levels(
    path: &mut Vec<usize>,
    width: Option<ListWidth>,
    levels: u8,
    data_type: &DataType,
) -> Added
    ensures { OnOk result (LeadsTo (LevelsFault CoordinateFault width levels (tree data_type.now)) path.old.items path.new.items) }
{
    match list_item(width, data_type) {
        Some((found, item)) if 0 < levels => {
            path.push(0)?;
            push_levels(path, Some(found), levels - 1, item)
        }
        _ => Ok(()),
    }
}

/// Adds the path to the fault as geometries of any kind, or, where collections are not allowed, as the union in one.
#[cycle(paths)]
fn push_union(path: &mut Vec<usize>, collections: bool, data_type: &DataType) -> Added
    ensures { OnOk result (LeadsTo (UnionFaultIn collections (tree data_type.now)) path.old.items path.new.items) }
{
    let DataType::Union(members, _) = data_type else {
        return Ok(());
    };
    match push_place(path, collections, members.as_slice())? {
        Some(item) => push_member(path, collections, item.0, item.1.data_type()),
        None => Ok(()),
    }
}

/// Adds the path to the fault as a member of that type id.
#[cycle(paths)]
fn push_member(path: &mut Vec<usize>, collections: bool, id: i8, data_type: &DataType) -> Added
    ensures { OnOk result (LeadsTo (MemberFaultIn collections id (tree data_type.now)) path.old.items path.new.items) }
{
    let Some((kind, _)) = parts_of_id(id) else {
        return Ok(());
    };
    match native(collections, kind, &member_summary(collections, data_type)) {
        Ok(_) => Ok(()),
        Err(_) => push_native(path, collections, kind, data_type),
    }
}

/// Adds the place of the first member with a fault, if there is one, and returns that member.
fn push_place<'a>(
    path: &mut Vec<usize>,
    collections: bool,
    members: &'a [(i8, Field)],
) -> Result<Option<&'a (i8, Field)>, AllocError>
    ensures { IfOk result (λ r. MatchOption r (LeadsTo (FirstOrNone (MemberIn collections) (MemberFaultIn collections) (member_trees members.now)) path.old.items path.new.items) (λ m. (end : Path) → LeadsTo (MemberFaultIn collections m.now.0 m.now.1.tree) path.new.items end → LeadsTo (FirstOrNone (MemberIn collections) (MemberFaultIn collections) (member_trees members.now)) path.old.items end)) }
{
    for place in 0..members.len() {
        let item = &members[place];
        let below = member_summary(collections, item.1.data_type());
        if let Err(_) = member(collections, item.0, &below) {
            path.push(place)?;
            return Ok(Some(item));
        }
    }
    Ok(None)
}
