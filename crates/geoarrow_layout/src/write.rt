//! The data types that are written, and the kind that a data type was written for.
ghost use Rattle.std.specs.Prelude.{◌≡◌, ◌++◌, ◌↔◌};
ghost use Rattle.geoarrow_layout.specs.Cited.{[], false, map, IfOk, IsOk, OnOk, IsTrue, Some, codes, fixed_text, list, struct, tree, field_trees, coordinate, leaf_layout, lists_over, over_leaf_layout, member_layout, members_over, mixed_layout, layout, IsBare, members_in, IsStructured};

use crate::dimensions::{
    CoordType, Coordinate, DIMENSIONS, Dimension, box_names, coordinate_names, interleaved_name,
    list_size,
};
use crate::native_kinds::{KINDS, Kind, NativeKind, Width, list_names, member_name, type_id};
use crate::summary::is_float64;
use arrow_values::{DataType, Field, Fields, FixedName, UnionFields, UnionMode};
use std::alloc::{AllocError, Global};

/// The data type of a coordinate, which is also that of a point (GeoArrow, "Coordinate", "Point"): a fixed size list of
/// `Float64`, or a struct of `Float64` fields. Errs only when out of memory.
#[inline(always)]
pub fn coord_data_type(
    alloc: Global,
    coord_type: CoordType,
    dimension: Dimension,
) -> Result<DataType, AllocError>
    ensures { IfOk result (λ t. tree t ≡ leaf_layout coord_type dimension) }
{
    match coord_type {
        CoordType::Interleaved => {
            let field = Field::fixed(alloc, interleaved_name(dimension), DataType::Float64, false);
            Ok(DataType::FixedSizeList(Box::new(alloc, field)?, list_size(dimension)))
        }
        CoordType::Separated => struct_of(alloc, coordinate_names(dimension)),
    }
}

/// The data type of a native kind (GeoArrow, "Native encoding"): the lists of the kind over a coordinate, and for a
/// collection a list over the union of `mixed_data_type`. Errs only when out of memory.
#[inline(always)]
pub fn list_data_type(
    alloc: Global,
    kind: NativeKind,
    coord_type: CoordType,
    dimension: Dimension,
) -> Result<DataType, AllocError>
    ensures { IfOk result (λ t. tree t ≡ layout (Kind.Native kind coord_type dimension)) }
{
    match kind {
        NativeKind::Point => coord_data_type(alloc, coord_type, dimension),
        NativeKind::GeometryCollection => {
            let members = mixed_data_type(alloc, coord_type, dimension)?;
            lists_over(alloc, list_names(kind), members)
        }
        _ => over_leaf(alloc, kind, (coord_type, dimension)),
    }
}

/// The data type of the union in a collection (GeoArrow, "GeometryCollection"): a member for each of the other native
/// kinds. Errs only when out of memory.
pub fn mixed_data_type(
    alloc: Global,
    coord_type: CoordType,
    dimension: Dimension,
) -> Result<DataType, AllocError>
    ensures { IfOk result (λ t. tree t ≡ mixed_layout coord_type dimension) }
{
    let mut members = Vec::with_capacity(alloc, 6)?;
    push_over(alloc, &mut members, &KINDS[..6], (coord_type, dimension))?;
    Ok(DataType::Union(UnionFields::from_members(members), UnionMode::Dense))
}

/// The data type of a column of geometries of any kind (GeoArrow, "Geometry"): a union with a member for each native
/// kind in each dimension. Errs only when out of memory.
pub fn geometry_data_type(alloc: Global, coord_type: CoordType) -> Result<DataType, AllocError>
    ensures { IfOk result (λ t. tree t ≡ layout (Kind.Geometry coord_type)) }
{
    let mut members = Vec::with_capacity(alloc, 28)?;
    let collection = NativeKind::GeometryCollection;
    for dimension in &DIMENSIONS {
        push_over(alloc, &mut members, &KINDS[..6], (coord_type, *dimension))?;
        let data_type = list_data_type(alloc, collection, coord_type, *dimension)?;
        members.push(member_of(alloc, collection, *dimension, data_type))?;
    }
    Ok(DataType::Union(UnionFields::from_members(members), UnionMode::Dense))
}

/// The data type of a box (GeoArrow, "Box"): a struct of the bounds of each dimension. Errs only when out of memory.
pub fn box_data_type(alloc: Global, dimension: Dimension) -> Result<DataType, AllocError>
    ensures { IfOk result (λ t. tree t ≡ layout (Kind.Rect dimension)) }
{
    struct_of(alloc, box_names(dimension))
}

/// The data type of well-known binary (GeoArrow, "WKB"). Allocates nothing.
pub fn wkb_data_type(width: Width) -> DataType
    ensures { tree result ≡ layout (Kind.Wkb width) }
{
    match width {
        Width::Plain => DataType::Binary,
        Width::Large => DataType::LargeBinary,
        Width::View => DataType::BinaryView,
    }
}

/// The data type of well-known text (GeoArrow, "WKT"). Allocates nothing.
pub fn wkt_data_type(width: Width) -> DataType
    ensures { tree result ≡ layout (Kind.Wkt width) }
{
    match width {
        Width::Plain => DataType::Utf8,
        Width::Large => DataType::LargeUtf8,
        Width::View => DataType::Utf8View,
    }
}

/// The data type of a column of a kind. Errs only when out of memory, and never for well-known binary and text.
#[inline(always)]
pub fn kind_data_type(alloc: Global, kind: Kind) -> Result<DataType, AllocError>
    ensures layout { IfOk result (λ t. tree t ≡ layout kind) }
    ensures no_memory { ¬ IsStructured kind → IsOk result }
{
    match kind {
        Kind::Native(kind, coord_type, dimension) => {
            list_data_type(alloc, kind, coord_type, dimension)
        }
        Kind::Geometry(coord_type) => geometry_data_type(alloc, coord_type),
        Kind::Rect(dimension) => box_data_type(alloc, dimension),
        Kind::Wkb(width) => Ok(wkb_data_type(width)),
        Kind::Wkt(width) => Ok(wkt_data_type(width)),
    }
}

/// A struct with a field of each name, of `Float64` and never null.
#[inline(always)]
fn struct_of(alloc: Global, names: &[FixedName]) -> Result<DataType, AllocError>
    ensures { IfOk result (λ t. tree t ≡ struct (field_trees (map coordinate (map fixed_text names.now)))) }
{
    let mut fields = Vec::with_capacity(alloc, names.len())?;
    for name in names {
        fields.push(Field::fixed(alloc, *name, DataType::Float64, false))?;
    }
    Ok(DataType::Struct(Fields::from(fields)))
}

/// Lists of items of these names that are never null, the first outermost.
fn lists_over(alloc: Global, names: &[FixedName], inner: DataType) -> Result<DataType, AllocError>
    ensures { IfOk result (λ t. tree t ≡ lists_over (map fixed_text names.now) (tree inner)) }
{
    let Some((name, rest)) = names.split_first() else {
        return Ok(inner);
    };
    let lower = lists_over(alloc, rest, inner)?;
    let item = Box::new(alloc, Field::fixed(alloc, *name, lower, false))?;
    Ok(DataType::List(item))
}

/// The lists of a kind over a coordinate.
#[inline(always)]
fn over_leaf(alloc: Global, kind: NativeKind, leaf: Coordinate) -> Result<DataType, AllocError>
    ensures { IfOk result (λ t. tree t ≡ over_leaf_layout kind leaf.0 leaf.1) }
{
    let inner = coord_data_type(alloc, leaf.0, leaf.1)?;
    lists_over(alloc, list_names(kind), inner)
}

/// The member of a union for a kind in a dimension, which holds that data type.
fn member_of(alloc: Global, kind: NativeKind, dimension: Dimension, inner: DataType) -> (i8, Field)
    ensures { result ≡ member_layout kind dimension (tree inner) }
{
    let field = Field::fixed(alloc, member_name(kind, dimension), inner, true);
    (type_id(kind, dimension), field)
}

/// Puts a member for each of these kinds last, each over a coordinate, in one dimension.
fn push_over(
    alloc: Global,
    members: &mut Vec<(i8, Field)>,
    kinds: &[NativeKind],
    leaf: Coordinate,
) -> Result<(), AllocError>
    ensures { OnOk result (members.new.items ≡ members.old.items ++ members_over kinds.now leaf.0 leaf.1) }
{
    for kind in kinds {
        let data_type = over_leaf(alloc, *kind, leaf)?;
        members.push(member_of(alloc, *kind, leaf.1, data_type))?;
    }
    Ok(())
}

/// The kind whose written data type this is, to the last name, nullability and mode (GeoArrow, "Native encoding",
/// "Geometry", "Box"): none where it is written for no kind, though some reader may take it. Allocates nothing.
pub fn written_kind(data_type: &DataType) -> Option<Kind>
    ensures { (k : Kind) → (result ≡ Some k) ↔ (tree data_type.now ≡ layout k) }
{
    Kind::ALL
        .iter()
        .find(|kind| is_layout(data_type, kind))
        .copied()
}

/// Whether the data type is the one that is written for the kind, to the last name, nullability and mode (GeoArrow,
/// "Native encoding", "Geometry", "Box"). Allocates nothing.
pub fn is_layout(data_type: &DataType, kind: &Kind) -> bool
    ensures { IsTrue result ↔ (tree data_type.now ≡ layout kind.now) }
{
    match kind {
        Kind::Native(NativeKind::GeometryCollection, coord_type, dimension) => {
            is_collection(data_type, (*coord_type, *dimension))
        }
        Kind::Native(kind, coord_type, dimension) => {
            is_over_leaf(data_type, list_names(*kind), (*coord_type, *dimension))
        }
        Kind::Geometry(coord_type) => is_geometry(data_type, *coord_type),
        Kind::Rect(dimension) => is_struct(data_type, box_names(*dimension)),
        Kind::Wkb(width) => *data_type == wkb_data_type(*width),
        Kind::Wkt(width) => *data_type == wkt_data_type(*width),
    }
}

/// Whether the field has that name, that nullability and no metadata.
#[inline(always)]
fn is_bare(field: &Field, name: FixedName, nullable: bool) -> bool
    ensures { IsTrue result ↔ IsBare (fixed_text name) nullable field.now }
{
    field.name() == name.as_text() && field.is_nullable() == nullable && field.metadata().is_empty()
}

/// Whether the field is a coordinate of that name.
fn is_coordinate(field: &Field, name: FixedName) -> bool
    ensures { IsTrue result ↔ (field.now ≡ coordinate (fixed_text name)) }
{
    is_bare(field, name, false) && is_float64(field.data_type())
}

/// Whether the fields are coordinates of these names.
fn are_coordinates(fields: &[Field], names: &[FixedName]) -> bool
    ensures { IsTrue result ↔ (fields.now ≡ map coordinate (map fixed_text names.now)) }
{
    let Some((field, rest)) = fields.split_first() else {
        return names.is_empty();
    };
    let Some((name, others)) = names.split_first() else {
        return false;
    };
    is_coordinate(field, *name) && are_coordinates(rest, others)
}

/// Whether the data type is the one that is written for a coordinate.
fn is_leaf(data_type: &DataType, leaf: Coordinate) -> bool
    ensures { IsTrue result ↔ (tree data_type.now ≡ leaf_layout leaf.0 leaf.1) }
{
    match (leaf.0, data_type) {
        (CoordType::Separated, _) => is_struct(data_type, coordinate_names(leaf.1)),
        (CoordType::Interleaved, DataType::FixedSizeList(field, size)) => {
            *size == list_size(leaf.1) && is_coordinate(field, interleaved_name(leaf.1))
        }
        (CoordType::Interleaved, _) => false,
    }
}

/// Whether it is a struct of coordinates of these names.
fn is_struct(data_type: &DataType, names: &[FixedName]) -> bool
    ensures { IsTrue result ↔ (tree data_type.now ≡ struct (field_trees (map coordinate (map fixed_text names.now)))) }
{
    let DataType::Struct(fields) = data_type else {
        return false;
    };
    are_coordinates(fields.as_slice(), names)
}

/// Whether the data type is lists of items of these names over a coordinate.
fn is_over_leaf(data_type: &DataType, names: &[FixedName], leaf: Coordinate) -> bool
    ensures { IsTrue result ↔ (tree data_type.now ≡ lists_over (map fixed_text names.now) (leaf_layout leaf.0 leaf.1)) }
{
    let Some((name, others)) = names.split_first() else {
        return is_leaf(data_type, leaf);
    };
    let DataType::List(field) = data_type else {
        return false;
    };
    is_bare(field, *name, false) && is_over_leaf(field.data_type(), others, leaf)
}

/// Whether the data type is the one that is written for a collection.
fn is_collection(data_type: &DataType, leaf: Coordinate) -> bool
    ensures { IsTrue result ↔ (tree data_type.now ≡ list (codes "geometries") (mixed_layout leaf.0 leaf.1) false []) }
{
    let DataType::List(field) = data_type else {
        return false;
    };
    is_bare(field, FixedName::Geometries, false) && is_mixed(field.data_type(), leaf)
}

/// Whether the data type is the union in a collection.
fn is_mixed(data_type: &DataType, leaf: Coordinate) -> bool
    ensures { IsTrue result ↔ (tree data_type.now ≡ mixed_layout leaf.0 leaf.1) }
{
    let DataType::Union(members, UnionMode::Dense) = data_type else {
        return false;
    };
    are_members_over(members.as_slice(), &KINDS[..6], leaf)
}

/// Whether the data type is the one that is written for geometries of any kind.
fn is_geometry(data_type: &DataType, coord_type: CoordType) -> bool
    ensures { IsTrue result ↔ (tree data_type.now ≡ layout (Kind.Geometry coord_type)) }
{
    let DataType::Union(members, UnionMode::Dense) = data_type else {
        return false;
    };
    are_in(members.as_slice(), &DIMENSIONS, coord_type)
}

/// Whether the members are those that are written for geometries of these dimensions.
fn are_in(members: &[(i8, Field)], dimensions: &[Dimension], coord_type: CoordType) -> bool
    ensures { IsTrue result ↔ (members.now ≡ members_in dimensions.now coord_type) }
{
    let Some((dimension, others)) = dimensions.split_first() else {
        return members.is_empty();
    };
    if members.len() < 7 {
        return false;
    }
    let (first, rest) = members.split_at(6);
    let leaf = (coord_type, *dimension);
    are_members_over(first, &KINDS[..6], leaf)
        && is_member(&rest[0], NativeKind::GeometryCollection, *dimension)
        && is_collection(rest[0].1.data_type(), leaf)
        && are_in(&rest[1..], others, coord_type)
}

/// Whether the members are those of these kinds, each over a coordinate.
fn are_members_over(members: &[(i8, Field)], kinds: &[NativeKind], leaf: Coordinate) -> bool
    ensures { IsTrue result ↔ (members.now ≡ members_over kinds.now leaf.0 leaf.1) }
{
    let Some((kind, others)) = kinds.split_first() else {
        return members.is_empty();
    };
    let Some((member, rest)) = members.split_first() else {
        return false;
    };
    is_member(member, *kind, leaf.1)
        && is_over_leaf(member.1.data_type(), list_names(*kind), leaf)
        && are_members_over(rest, others, leaf)
}

/// Whether the member is the one for the kind in the dimension, but for its data type.
fn is_member(member: &(i8, Field), kind: NativeKind, dimension: Dimension) -> bool
    ensures { IsTrue result ↔ (member.now ≡ member_layout kind dimension member.now.1.tree) }
{
    member.0 == type_id(kind, dimension) && is_bare(&member.1, member_name(kind, dimension), true)
}
