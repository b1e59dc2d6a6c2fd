//! Types as data types, in one respect.
ghost use Rattle.std.specs.Prelude.{◌≡◌, IfOk, map, option_map};
ghost use Rattle.arrow_values.specs.View.{tree};
ghost use Rattle.arrow_columns.specs.Column.{type_tree};
ghost use Rattle.arrow_columns.specs.Nested.{only};
ghost use Rattle.arrow_columns.specs.Outlines.{outline, outlined, list_by, values_by, bytes_by, is_bytes, as_layout, as_stored, as_fields, shaped};
ghost use Rattle.arrow_columns.specs.declared.column.AnyType.TheVariants.{Other as OtherOf};

use crate::column::AnyType;
use crate::nested::ListForm;
use crate::other::{Form, OtherType, Part, clone_texts};
use arrow_values::{DataType, Field, Fields};
use std::alloc::{AllocError, Global};

/// In which respect a type is taken as a data type.
#[derive(Debug, Clone, Copy)]
pub enum Outline {
    /// As the layouts of GeoArrow have it: lists and structs keep their parts.
    Layout,
    /// As Parquet stores it: views of lists are lists, too, and dictionaries of bytes and texts are
    /// their values.
    Storage,
    /// As the fields that stand below it: a dictionary is its values, and all else a struct.
    Fields,
}

/// Whether a data type is one of bytes or texts.
fn is_bytes(data_type: &DataType) -> bool
    ensures { result ≡ is_bytes (tree data_type.now) }
{
    matches!(
        data_type,
        DataType::Binary
            | DataType::LargeBinary
            | DataType::BinaryView
            | DataType::Utf8
            | DataType::LargeUtf8
            | DataType::Utf8View
    )
}

/// The one field; `None` where there are none or more.
#[tactic(auto, using(crate::proofs::Known::only_item, crate::proofs::Known::only_items, std::proofs::lemmas::Grind::common_steps))]
fn only_field(fields: Vec<Field>) -> Option<Field>
    ensures { result ≡ only fields.items }
{
    let mut fields = fields;
    let last = fields.pop()?;
    if fields.is_empty() { Some(last) } else { None }
}

/// A list of a field.
fn list_by(alloc: Global, form: ListForm, field: Option<Field>) -> Result<DataType, AllocError>
    ensures { IfOk result (λ made. tree made ≡ list_by form field) }
{
    let Some(field) = field else {
        return Ok(DataType::Null);
    };
    let field = Box::new(alloc, field)?;
    Ok(match form {
        ListForm::Small => DataType::List(field),
        ListForm::Large => DataType::LargeList(field),
        ListForm::Fixed(size) => DataType::FixedSizeList(field, size),
    })
}

/// The type of a field.
fn values_by(alloc: Global, field: Option<Field>) -> Result<DataType, AllocError>
    ensures { IfOk result (λ made. tree made ≡ values_by field) }
{
    match field {
        Some(field) => Ok(field.into_parts(alloc)?.1),
        None => Ok(DataType::Null),
    }
}

/// A type of bytes or texts.
fn bytes_by(data_type: DataType) -> DataType
    ensures { tree result ≡ bytes_by (tree data_type) }
{
    if is_bytes(&data_type) {
        data_type
    } else {
        DataType::Null
    }
}

/// A form as the layouts of GeoArrow have it.
fn as_layout(alloc: Global, form: Form, fields: Vec<Field>) -> Result<DataType, AllocError>
    ensures { IfOk result (λ made. tree made ≡ as_layout form fields.items) }
{
    match form {
        Form::List(form) => list_by(alloc, form, only_field(fields)),
        Form::Struct => Ok(DataType::Struct(Fields::from(fields))),
        _ => Ok(DataType::Null),
    }
}

/// A form as Parquet stores it.
fn as_stored(alloc: Global, form: Form, fields: Vec<Field>) -> Result<DataType, AllocError>
    ensures { IfOk result (λ made. tree made ≡ as_stored form fields.items) }
{
    match form {
        Form::List(form) => list_by(alloc, form, only_field(fields)),
        Form::ListView => list_by(alloc, ListForm::Small, only_field(fields)),
        Form::LargeListView => list_by(alloc, ListForm::Large, only_field(fields)),
        Form::Struct => Ok(DataType::Struct(Fields::from(fields))),
        Form::Dictionary => Ok(bytes_by(values_by(alloc, only_field(fields))?)),
        _ => Ok(DataType::Null),
    }
}

/// A form as the fields that stand below it.
fn as_fields(alloc: Global, form: Form, fields: Vec<Field>) -> Result<DataType, AllocError>
    ensures { IfOk result (λ made. tree made ≡ as_fields form fields.items) }
{
    match form {
        Form::Dictionary => values_by(alloc, only_field(fields)),
        _ => Ok(DataType::Struct(Fields::from(fields))),
    }
}

/// A form in a respect.
fn shaped(
    alloc: Global,
    respect: Outline,
    form: Form,
    fields: Vec<Field>,
) -> Result<DataType, AllocError>
    ensures { IfOk result (λ made. tree made ≡ shaped respect form fields.items) }
{
    match respect {
        Outline::Layout => as_layout(alloc, form, fields),
        Outline::Storage => as_stored(alloc, form, fields),
        Outline::Fields => as_fields(alloc, form, fields),
    }
}

/// Returns a type as a data type in that respect: a data type as it is, and each part of another that
/// has no meaning there as `Null`. Errs only when out of memory.
///
/// ```rust
/// let time = AnyType::leaf(alloc, String::from_str(alloc, "timestamp[ms]")?);
/// let seen = outline_of(alloc, Outline::Layout, &time)?;
/// assert!(rt; matches!(seen, DataType::Null));
/// ```
#[cycle(outline)]
pub fn outline_of(alloc: Global, respect: Outline, any: &AnyType) -> Result<DataType, AllocError>
    ensures { IfOk result (λ made. tree made ≡ outline respect (type_tree any.now)) }
{
    match any {
        AnyType::Data(data_type) => data_type.try_clone(alloc),
        AnyType::Other(other) => outline_other(alloc, respect, other),
    }
}

/// A type that is none of the 26, in that respect.
#[cycle(outline)]
#[tactic(auto, using(crate::proofs::Outlining::outlined_parts))]
fn outline_other(alloc: Global, respect: Outline, other: &OtherType) -> Result<DataType, AllocError>
    ensures { IfOk result (λ made. tree made ≡ outline respect (type_tree (OtherOf other.now))) }
{
    let mut fields = Vec::with_capacity(alloc, other.parts.len())?;
    for part in &other.parts {
        fields.push(outlined(alloc, respect, part)?)?;
    }
    shaped(alloc, respect, other.form, fields)
}

/// A part as a field, in that respect.
#[cycle(outline)]
fn outlined(alloc: Global, respect: Outline, part: &Part) -> Result<Field, AllocError>
    ensures { IfOk result (λ made. made ≡ outlined respect part.now) }
{
    let data_type = outline_of(alloc, respect, &part.data_type)?;
    let name = String::from_str(alloc, part.name())?;
    let metadata = clone_texts(part.metadata())?;
    Ok(Field::from_parts(name, data_type, part.is_nullable(), metadata))
}
