//! The group to which the paths of a covering lead.
ghost use Rattle.std.specs.Prelude.{◌≡◌, length, map, option_map};
ghost use Rattle.arrow_columns.specs.Below.{child_tree, ref_tree};
ghost use Rattle.arrow_columns.specs.Column.{column_tree, type_tree};
ghost use Rattle.geoparquet.specs.Coverings.{child_of, children_in, group_in, group_of, type_at, is_single, is_double, fits, is_bound, ends_in, is_path_end, are_bounds, is_null_alike, is_shaped, bound_tree, children_list, first_and_rest, group_tree, path_tree};

use crate::bounds::{Bound, Path, path_at};
use arrow_columns::{AnyType, Child, ColumnNames, Form, Part, SchemaColumn, TypeRef};
use arrow_values::{DataType, Field};

/// The children of a group: fields, or where one is of none of the data types, parts.
#[derive(Clone, Copy)]
pub(crate) enum Children<'c> {
    /// Those of a data type.
    Fields(&'c [Field]),
    /// Those of another type.
    Parts(&'c [Part]),
}

impl<'c> Children<'c> {
    /// Returns how many there are.
    pub(crate) fn len(self) -> usize
        ensures { result ≡ length (children_list self.entry) }
    {
        match self {
            Children::Fields(fields) => fields.len(),
            Children::Parts(parts) => parts.len(),
        }
    }

    /// Returns the first one, and those behind it.
    pub(crate) fn first(self) -> Option<(Child<'c>, Children<'c>)>
        ensures { option_map (λ x. (child_tree x.0, children_list x.1)) result ≡ first_and_rest (children_list self.entry) }
    {
        match self {
            Children::Fields([first, rest @ ..]) => {
                Some((Child::Field(first), Children::Fields(rest)))
            }
            Children::Parts([first, rest @ ..]) => Some((
                Child::Part(first),
                Children::Parts(rest),
            )),
            Children::Fields([]) | Children::Parts([]) => None,
        }
    }
}

/// A column that is a group: its name, whether values may be null, and its children.
#[derive(Clone, Copy)]
pub(crate) struct Group<'c> {
    name: &'c str,
    nullable: bool,
    children: Children<'c>,
}

/// Returns the type of the first child of a name.
pub(crate) fn child_of<'c>(name: &str, children: Children<'c>) -> Option<TypeRef<'c>>
    ensures { option_map ref_tree result ≡ child_of name.now (children_list children.entry) }
{
    let mut left = children;
    'children: while let Some((child, rest)) = left.first() {
        if child.name() == name {
            return Some(child.data_type());
        }
        left = rest;
    }
    None
}

/// Returns the children of a type that is a group: a struct, whatever its children are.
#[tactic(auto, using(crate::proofs::Grouped::fields_below, crate::proofs::Grouped::parts_below))]
pub(crate) fn children_in(column_type: &AnyType) -> Option<Children<'_>>
    ensures { option_map children_list result ≡ children_in (type_tree column_type.now) }
{
    match column_type {
        AnyType::Data(DataType::Struct(fields)) => Some(Children::Fields(fields.as_slice())),
        AnyType::Data(_) => None,
        AnyType::Other(other) => {
            if matches!(other.form, Form::Struct) {
                Some(Children::Parts(other.parts.as_slice()))
            } else {
                None
            }
        }
    }
}

/// Returns the group that a column is.
fn group_in(column: Option<&SchemaColumn>) -> Option<Group<'_>>
    ensures { option_map group_tree result ≡ group_in (option_map (λ c. column_tree c.now) column.entry) }
{
    let column = column?;
    Some(Group {
        name: column.name.as_str(),
        nullable: column.nullable,
        children: children_in(&column.data_type)?,
    })
}

/// Returns the group that a path names.
pub(crate) fn group_of<'c>(columns: &ColumnNames<'c>, path: Option<Path<'_>>) -> Option<Group<'c>>
    ensures { option_map group_tree result ≡ group_of (map column_tree columns.now) (option_map path_tree path.entry) }
{
    let path = path?;
    if !columns.is_one(path.column) {
        return None;
    }
    group_in(columns.first(path.column))
}

/// Returns the type to which a path leads in a group.
pub(crate) fn type_at<'c>(group: Option<Group<'c>>, path: Option<Path<'_>>) -> Option<TypeRef<'c>>
    ensures { option_map ref_tree result ≡ type_at (option_map group_tree group.entry) (option_map path_tree path.entry) }
{
    let group = group?;
    let path = path?;
    if path.column != group.name {
        return None;
    }
    child_of(path.child, group.children)
}

/// Whether a type is that of floats of single precision.
pub(crate) fn is_single(data_type: Option<TypeRef<'_>>) -> bool
    ensures { result ≡ is_single (option_map ref_tree data_type.entry) }
{
    matches!(data_type, Some(TypeRef::Data(DataType::Float32)))
}

/// Whether a type is that of floats of double precision.
fn is_double(data_type: Option<TypeRef<'_>>) -> bool
    ensures { result ≡ is_double (option_map ref_tree data_type.entry) }
{
    matches!(data_type, Some(TypeRef::Data(DataType::Float64)))
}

/// Whether a type is that of floats of single precision, or of double.
pub(crate) fn fits(single: bool, data_type: Option<TypeRef<'_>>) -> bool
    ensures { result ≡ fits single (option_map ref_tree data_type.entry) }
{
    if single {
        is_single(data_type)
    } else {
        is_double(data_type)
    }
}

/// Whether a name is that of a bound.
fn is_bound(name: &str) -> bool
    ensures { result ≡ is_bound name.now }
{
    name == "xmin"
        || name == "ymin"
        || name == "xmax"
        || name == "ymax"
        || name == "zmin"
        || name == "zmax"
}

/// Whether a path ends in a name.
fn ends_in(name: &str, path: Option<Path<'_>>) -> bool
    ensures { result ≡ ends_in name.now (option_map path_tree path.entry) }
{
    match path {
        Some(path) => path.child == name,
        None => false,
    }
}

/// Whether the path of one of the bounds ends in a name.
fn is_path_end(name: &str, bounds: &[Bound<'_, '_>]) -> bool
    ensures { result ≡ is_path_end name.now (map bound_tree bounds.now) }
{
    match bounds {
        [first, rest @ ..] => ends_in(name, path_at(*first)) || is_path_end(name, rest),
        [] => false,
    }
}

/// Whether children have the names of bounds alone, and of those that the paths lead to.
fn are_bounds(bounds: &[Bound<'_, '_>], children: Children<'_>) -> bool
    ensures { result ≡ are_bounds (map bound_tree bounds.now) (children_list children.entry) }
{
    let mut left = children;
    'children: while let Some((child, rest)) = left.first() {
        if !is_bound(child.name()) && !is_path_end(child.name(), bounds) {
            return false;
        }
        left = rest;
    }
    true
}

/// Whether values may be null in a group where they may be in a column.
fn is_null_alike(column: Option<&SchemaColumn>, group: Group<'_>) -> bool
    ensures { result ≡ is_null_alike (option_map (λ c. column_tree c.now) column.entry) (group_tree group.entry) }
{
    match column {
        Some(column) => column.nullable == group.nullable,
        None => true,
    }
}

/// Whether a group has no other children than bounds, and values that may be null where they may be
/// in a column.
pub(crate) fn is_shaped(
    column: Option<&SchemaColumn>,
    bounds: &[Bound<'_, '_>],
    group: Group<'_>,
) -> bool
    ensures { result ≡ is_shaped (option_map (λ c. column_tree c.now) column.entry) (map bound_tree bounds.now) (group_tree group.entry) }
{
    are_bounds(bounds, group.children) && is_null_alike(column, group)
}
