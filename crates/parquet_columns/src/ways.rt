//! Where the type of a stored field does not fit an element.
ghost use Rattle.std.specs.Prelude.{◌≡◌, ◌++◌, IfOk, OnOk, map, option_map};
ghost use Rattle.arrow_values.specs.View.{tree, field_trees};
ghost use Rattle.arrow_columns.specs.Below.{ref_tree, child_tree};
ghost use Rattle.arrow_columns.specs.Column.{type_tree};
ghost use Rattle.parquet_columns.specs.Fits.{item_of, fields_of};
ghost use Rattle.parquet_columns.specs.Ways.{are_named_alike, item_places, struct_places, places, field_places, type_places, type_or, name_in, inner, names_to};

use crate::fits::{fields_of, fits, item_of};
use arrow_columns::{AnyType, Child, Outline, TypeRef, outline_of};
use arrow_values::{DataType, Fields};
use std::alloc::{AllocError, Global};

/// Whether fields have the same names in the same order.
fn are_named_alike(fields: &Fields, others: &Fields) -> bool
    ensures { result ≡ are_named_alike (field_trees fields.now) (field_trees others.now) }
{
    let mut rest = others.as_slice().iter();
    for field in fields.as_slice() {
        let Some(other) = rest.next() else {
            return false;
        };
        if field.name() != other.name() {
            return false;
        }
    }
    rest.next().is_none()
}

/// Adds the places that lead from a stored type down to the first part of it that does not fit. Errs
/// only when out of memory.
#[cycle(places)]
fn add_places(way: &mut Vec<usize>, said: &DataType, stored: &DataType) -> Result<(), AllocError>
    ensures { OnOk result (way.new.items ≡ way.old.items ++ places (tree said.now) (tree stored.now)) }
{
    match said {
        DataType::List(field) => add_of_item(way, field.data_type(), stored),
        DataType::LargeList(field) => add_of_item(way, field.data_type(), stored),
        DataType::FixedSizeList(field, _) => add_of_item(way, field.data_type(), stored),
        DataType::Struct(fields) => add_of_struct(way, fields, stored),
        _ => Ok(()),
    }
}

/// Adds those of a list, by the type of the items.
#[cycle(places)]
fn add_of_item(way: &mut Vec<usize>, said: &DataType, stored: &DataType) -> Result<(), AllocError>
    ensures { OnOk result (way.new.items ≡ way.old.items ++ item_places (places (tree said.now)) (item_of (tree stored.now))) }
{
    match item_of(stored) {
        Some(item) => {
            way.push(0)?;
            add_places(way, said, item)
        }
        None => Ok(()),
    }
}

/// Adds those of a struct, by its fields.
#[cycle(places)]
fn add_of_struct(way: &mut Vec<usize>, fields: &Fields, stored: &DataType) -> Result<(), AllocError>
    ensures { OnOk result (way.new.items ≡ way.old.items
        ++ struct_places (are_named_alike (field_trees fields.now)) (field_places 0 (field_trees fields.now)) (fields_of (tree stored.now))) }
{
    match fields_of(stored) {
        Some(others) => {
            if are_named_alike(fields, others) {
                return add_of_fields(way, fields, others);
            }
            Ok(())
        }
        None => Ok(()),
    }
}

/// Adds those of the first of some fields that does not fit.
#[cycle(places)]
fn add_of_fields(way: &mut Vec<usize>, fields: &Fields, others: &Fields) -> Result<(), AllocError>
    ensures { OnOk result (way.new.items ≡ way.old.items ++ field_places 0 (field_trees fields.now) (field_trees others.now)) }
{
    let mut rest = others.as_slice().iter();
    let mut at = 0;
    for field in fields.as_slice() {
        let Some(other) = rest.next() else {
            return Ok(());
        };
        if !fits(field.data_type(), other.data_type()) {
            way.push(at)?;
            return add_places(way, field.data_type(), other.data_type());
        }
        at += 1;
    }
    Ok(())
}

/// The places that lead from a stored type down to the first part of it that does not fit the type of
/// an element. Errs only when out of memory.
pub(crate) fn type_places(
    alloc: Global,
    said: &AnyType,
    stored: &AnyType,
) -> Result<Vec<usize>, AllocError>
    ensures { IfOk result (λ way. way.items ≡ type_places (type_tree said.now) (type_tree stored.now)) }
{
    let said = outline_of(alloc, Outline::Storage, said)?;
    let stored = outline_of(alloc, Outline::Storage, stored)?;
    let mut way = Vec::new(alloc);
    add_places(&mut way, &said, &stored)?;
    Ok(way)
}

/// The type of a child, or where there is none the type itself.
fn type_or<'t>(there: TypeRef<'t>, child: Option<Child<'t>>) -> TypeRef<'t>
    ensures { ref_tree result ≡ type_or (ref_tree there.entry) (option_map child_tree child.entry) }
{
    match child {
        Some(child) => child.data_type(),
        None => there,
    }
}

/// The type to which places lead, as far as there is one.
pub(crate) fn inner<'t>(any: TypeRef<'t>, way: &[usize]) -> TypeRef<'t>
    ensures { ref_tree result ≡ inner (ref_tree any.entry) way.now }
{
    let mut there = any;
    let mut left = way;
    'places: while let [place, rest @ ..] = left {
        there = type_or(there, there.child(*place));
        left = rest;
    }
    there
}

/// Adds the name of a child, if there is one.
fn add_name<'t>(names: &mut Vec<&'t [u8]>, child: Option<Child<'t>>) -> Result<(), AllocError>
    ensures { OnOk result (map (λ n. n.now) names.new.items
        ≡ map (λ n. n.now) names.old.items ++ name_in (option_map child_tree child.entry)) }
{
    if let Some(child) = child {
        names.push(child.name().as_bytes())?;
    }
    Ok(())
}

/// The names on the way. Errs only when out of memory.
pub(crate) fn names_to<'t>(
    alloc: Global,
    any: TypeRef<'t>,
    way: &[usize],
) -> Result<Vec<&'t [u8]>, AllocError>
    ensures { IfOk result (λ names. map (λ n. n.now) names.items ≡ names_to (ref_tree any.entry) way.now) }
{
    let mut names = Vec::new(alloc);
    let mut there = any;
    let mut left = way;
    'places: while let [place, rest @ ..] = left {
        let child = there.child(*place);
        add_name(&mut names, child)?;
        there = type_or(there, child);
        left = rest;
    }
    Ok(names)
}
