//! The columns below a column, whatever its type.
ghost use Rattle.std.specs.Prelude.{◌≡◌, ◌∷◌, [], IfOk, map, option_map, string_bytes};
ghost use Rattle.std.specs.List.{slice_get};
ghost use Rattle.arrow_values.specs.View.{tree, texts_of};
ghost use Rattle.arrow_columns.specs.Column.{type_tree, column_of};
ghost use Rattle.arrow_columns.specs.Types.{known};
ghost use Rattle.arrow_columns.specs.Notation.{type_text};
ghost use Rattle.arrow_columns.specs.Below.{ref_tree, child_tree, below, is_struct};

use crate::column::AnyType;
use crate::notation::data_type_notation;
use crate::other::{Form, OtherType, Part};
use arrow_values::{DataType, Field};
use std::alloc::{AllocError, Global};
use std::collections::BTreeMap;

/// A type that is lent.
#[derive(Clone, Copy)]
pub enum TypeRef<'a> {
    /// One of the 26 data types, with all that is nested in it.
    Data(&'a DataType),
    /// Any other.
    Other(&'a OtherType),
}

/// A child of a type, that is lent: of a list or a map its items, of a struct a field, of a union a
/// member.
#[derive(Clone, Copy)]
pub enum Child<'a> {
    /// That of a data type.
    Field(&'a Field),
    /// That of another type.
    Part(&'a Part),
}

impl AnyType {
    /// Returns the type, lent.
    pub fn as_ref(&self) -> TypeRef<'_>
        ensures { ref_tree result ≡ type_tree self.now }
    {
        match self {
            AnyType::Data(data_type) => TypeRef::Data(data_type),
            AnyType::Other(other) => TypeRef::Other(other),
        }
    }
}

/// The field, at the first place alone.
fn only_at(field: &Field, place: usize) -> Option<Child<'_>>
    ensures { option_map child_tree result ≡ slice_get (column_of field.now ∷ []) place }
{
    if place == 0 {
        Some(Child::Field(field))
    } else {
        None
    }
}

/// The field at a place.
fn nth_field(fields: &[Field], place: usize) -> Option<Child<'_>>
    ensures { option_map child_tree result ≡ slice_get (map column_of fields.now) place }
{
    Some(Child::Field(fields.get(place)?))
}

/// The field of the member at a place.
fn nth_member(members: &[(i8, Field)], place: usize) -> Option<Child<'_>>
    ensures { option_map child_tree result ≡ slice_get (map (λ m. column_of m.1) members.now) place }
{
    Some(Child::Field(&members.get(place)?.1))
}

/// The part at a place.
fn nth_part(parts: &[Part], place: usize) -> Option<Child<'_>>
    ensures { option_map child_tree result ≡ slice_get parts.now place }
{
    Some(Child::Part(parts.get(place)?))
}

/// The child at a place of a data type.
#[tactic(auto, using(crate::proofs::Placed::field_there, crate::proofs::Placed::member_there))]
fn field_at(data_type: &DataType, place: usize) -> Option<Child<'_>>
    ensures { option_map child_tree result ≡ slice_get (below (known (tree data_type.now))) place }
{
    match data_type {
        DataType::List(field) | DataType::LargeList(field) => only_at(field, place),
        DataType::FixedSizeList(field, _) => only_at(field, place),
        DataType::Struct(fields) => nth_field(fields.as_slice(), place),
        DataType::Union(members, _) => nth_member(members.as_slice(), place),
        _ => None,
    }
}

impl<'a> TypeRef<'a> {
    /// Returns the child at a place, counted from 0, if there is one. Allocates nothing.
    #[tactic(auto, using(crate::proofs::Placed::part_there))]
    pub fn child(self, place: usize) -> Option<Child<'a>>
        ensures { option_map child_tree result ≡ slice_get (below (ref_tree self.entry)) place }
    {
        match self {
            TypeRef::Data(data_type) => field_at(data_type, place),
            TypeRef::Other(other) => nth_part(other.parts.as_slice(), place),
        }
    }

    /// Returns whether the type is a struct.
    pub fn is_struct(self) -> bool
        ensures { result ≡ is_struct (ref_tree self.entry) }
    {
        match self {
            TypeRef::Data(data_type) => matches!(data_type, DataType::Struct(_)),
            TypeRef::Other(other) => matches!(other.form, Form::Struct),
        }
    }

    /// Returns the notation of the type, as `AnyType::notation`. Errs only when out of memory.
    pub fn notation(self, alloc: Global) -> Result<String, AllocError>
        ensures { IfOk result (λ text. string_bytes text ≡ type_text (ref_tree self.entry)) }
    {
        match self {
            TypeRef::Data(data_type) => data_type_notation(alloc, data_type),
            TypeRef::Other(other) => String::from_str(alloc, other.notation.as_str()),
        }
    }
}

impl<'a> Child<'a> {
    /// Returns the name.
    pub fn name(self) -> &'a str
        ensures { result.now ≡ (child_tree self.entry).name }
    {
        match self {
            Child::Field(field) => field.name(),
            Child::Part(part) => part.name(),
        }
    }

    /// Returns whether values may be null.
    pub fn is_nullable(self) -> bool
        ensures { result ≡ (child_tree self.entry).nullable }
    {
        match self {
            Child::Field(field) => field.is_nullable(),
            Child::Part(part) => part.is_nullable(),
        }
    }

    /// Returns the type.
    pub fn data_type(self) -> TypeRef<'a>
        ensures { ref_tree result ≡ (child_tree self.entry).data_type }
    {
        match self {
            Child::Field(field) => TypeRef::Data(field.data_type()),
            Child::Part(part) => part.data_type().as_ref(),
        }
    }

    /// Returns the metadata: a map of texts.
    pub fn metadata(self) -> &'a BTreeMap<String, String>
        ensures { texts_of result.now.entries ≡ (child_tree self.entry).metadata }
    {
        match self {
            Child::Field(field) => field.metadata(),
            Child::Part(part) => part.metadata(),
        }
    }
}
