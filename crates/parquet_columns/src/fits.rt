//! Whether the type of a stored field fits that of an element.
ghost use Rattle.std.specs.Prelude.{◌≡◌, IfOk, option_map};
ghost use Rattle.arrow_values.specs.View.{tree, field_trees};
ghost use Rattle.arrow_columns.specs.Column.{type_tree};
ghost use Rattle.arrow_columns.specs.Outlines.{outline};
ghost use Rattle.arrow_columns.specs.declared.outline.Outline.TheVariants.{Storage};
ghost use Rattle.parquet_columns.specs.Fits.{sort_of, place_of, are_same, item_of, fields_of, holds, fits, fields_fit, type_fits};

use arrow_columns::{AnyType, Outline, outline_of};
use arrow_values::{DataType, Fields};
use std::alloc::{AllocError, Global};

/// What is told apart of types.
#[derive(Clone, Copy)]
pub(crate) enum Sort {
    /// Bytes and texts, and dictionaries of them.
    Bytes,
    /// Floats of 16 bits.
    Half,
    /// Floats of 32 bits.
    Single,
    /// Floats of 64 bits.
    Double,
    /// Lists.
    List,
    /// Structs.
    Struct,
    /// Any other type.
    Other,
}

/// The sort of a data type.
fn sort_of(data_type: &DataType) -> Sort
    ensures { result ≡ sort_of (tree data_type.now) }
{
    match data_type {
        DataType::Null
        | DataType::Boolean
        | DataType::Int8
        | DataType::Int16
        | DataType::Int32
        | DataType::Int64
        | DataType::UInt8
        | DataType::UInt16
        | DataType::UInt32
        | DataType::UInt64
        | DataType::Date32
        | DataType::Date64
        | DataType::Union(_, _) => Sort::Other,
        DataType::Float16 => Sort::Half,
        DataType::Float32 => Sort::Single,
        DataType::Float64 => Sort::Double,
        DataType::Binary
        | DataType::LargeBinary
        | DataType::BinaryView
        | DataType::Utf8
        | DataType::LargeUtf8
        | DataType::Utf8View => Sort::Bytes,
        DataType::List(_) | DataType::LargeList(_) | DataType::FixedSizeList(_, _) => Sort::List,
        DataType::Struct(_) => Sort::Struct,
    }
}

/// The place of a sort in the list.
fn place_of(sort: Sort) -> u8
    ensures { result ≡ place_of sort }
{
    match sort {
        Sort::Bytes => 0,
        Sort::Half => 1,
        Sort::Single => 2,
        Sort::Double => 3,
        Sort::List => 4,
        Sort::Struct => 5,
        Sort::Other => 6,
    }
}

/// Whether two sorts are the same.
fn are_same(one: Sort, other: Sort) -> bool
    ensures { result ≡ are_same one other }
{
    place_of(one) == place_of(other)
}

/// The type of the items of a list.
pub(crate) fn item_of(data_type: &DataType) -> Option<&DataType>
    ensures { option_map (λ t. tree t.now) result ≡ item_of (tree data_type.now) }
{
    match data_type {
        DataType::List(field) => Some(field.data_type()),
        DataType::LargeList(field) => Some(field.data_type()),
        DataType::FixedSizeList(field, _) => Some(field.data_type()),
        _ => None,
    }
}

/// The fields of a struct.
pub(crate) fn fields_of(data_type: &DataType) -> Option<&Fields>
    ensures { option_map (λ fs. field_trees fs.now) result ≡ fields_of (tree data_type.now) }
{
    match data_type {
        DataType::Struct(fields) => Some(fields),
        _ => None,
    }
}

/// Whether a stored data type fits that of an element.
#[cycle(fits)]
pub(crate) fn fits(said: &DataType, stored: &DataType) -> bool
    ensures { result ≡ fits (tree said.now) (tree stored.now) }
{
    match said {
        DataType::List(field) => item_fits(field.data_type(), stored),
        DataType::LargeList(field) => item_fits(field.data_type(), stored),
        DataType::FixedSizeList(field, _) => item_fits(field.data_type(), stored),
        DataType::Struct(fields) => match fields_of(stored) {
            Some(others) => fields_fit(fields, others),
            None => false,
        },
        _ => are_same(sort_of(said), sort_of(stored)),
    }
}

/// Whether the items of a stored list fit those of an element.
#[cycle(fits)]
fn item_fits(said: &DataType, stored: &DataType) -> bool
    ensures { result ≡ holds (fits (tree said.now)) (item_of (tree stored.now)) }
{
    match item_of(stored) {
        Some(item) => fits(said, item),
        None => false,
    }
}

/// Whether the fields of a stored struct fit those of an element.
#[cycle(fits)]
fn fields_fit(fields: &Fields, others: &Fields) -> bool
    ensures { result ≡ fields_fit (field_trees fields.now) (field_trees others.now) }
{
    let mut rest = others.as_slice().iter();
    for field in fields.as_slice() {
        let Some(other) = rest.next() else {
            return false;
        };
        if field.name() != other.name() {
            return false;
        }
        if !fits(field.data_type(), other.data_type()) {
            return false;
        }
    }
    rest.next().is_none()
}

/// Whether a stored type fits the data type of an element. Errs only when out of memory.
fn fits_any(alloc: Global, said: &DataType, stored: &AnyType) -> Result<bool, AllocError>
    ensures { IfOk result (λ fit. fit ≡ fits (tree said.now) (outline Storage (type_tree stored.now))) }
{
    match stored {
        AnyType::Data(stored) => Ok(fits(said, stored)),
        AnyType::Other(_) => {
            let stored = outline_of(alloc, Outline::Storage, stored)?;
            Ok(fits(said, &stored))
        }
    }
}

/// Whether the type of a stored field fits that of an element. Errs only when out of memory.
pub(crate) fn type_fits(alloc: Global, said: &AnyType, stored: &AnyType) -> Result<bool, AllocError>
    ensures { IfOk result (λ fit. fit ≡ type_fits (type_tree said.now) (type_tree stored.now)) }
{
    match said {
        AnyType::Data(said) => fits_any(alloc, said, stored),
        AnyType::Other(_) => {
            let said = outline_of(alloc, Outline::Storage, said)?;
            fits_any(alloc, &said, stored)
        }
    }
}
