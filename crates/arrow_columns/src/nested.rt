//! Types with columns nested in them: data types where all that is nested is, and otherwise other types, which keep
//! the columns as their parts.
ghost use Rattle.std.specs.Prelude.{◌≡◌, IfOk, map, option_map, string_bytes};
ghost use Rattle.std.specs.Prelude.{◌∷◌, []};
ghost use Rattle.arrow_columns.specs.Column.{type_tree, column_tree};
ghost use Rattle.arrow_columns.specs.Types.{other, part_trees};
ghost use Rattle.arrow_columns.specs.Notation.{column_text};
ghost use Rattle.arrow_columns.specs.Nested.{only, list_text, list_type, all_known, known_fields, nested_type, struct_type};
ghost use Rattle.arrow_columns.specs.declared.other.Form.TheVariants.{Struct, List as ListOf};

use crate::column::{AnyType, SchemaColumn};
use crate::notation::{nested_notation, sized_notation};
use crate::other::{Form, OtherType, Part};
use arrow_values::{DataType, Field, Fields};
use std::alloc::{AllocError, Global};

/// How long the lists of a type are (Arrow, `List`, `LargeList`, `FixedSizeList`).
#[derive(Debug, Clone, Copy)]
pub enum ListForm {
    /// Of any length, with offsets of 32 bits.
    Small,
    /// Of any length, with offsets of 64 bits.
    Large,
    /// All of this size.
    Fixed(i32),
}

/// The one column, as a list has one child; `None` where there are none or more. Allocates nothing.
#[tactic(auto, using(crate::proofs::Known::only_one, crate::proofs::Known::only_more, std::proofs::lemmas::Grind::common_steps))]
pub fn only_column(columns: Vec<SchemaColumn>) -> Option<SchemaColumn>
    ensures { option_map column_tree result ≡ only (map column_tree columns.items) }
{
    let mut columns = columns;
    let last = columns.pop()?;
    if columns.is_empty() { Some(last) } else { None }
}

/// The notation of a list of a part.
fn list_text(alloc: Global, form: ListForm, part: String) -> Result<String, AllocError>
    ensures { IfOk result (λ text. string_bytes text ≡ list_text form (string_bytes part)) }
{
    match form {
        ListForm::Small => nested_notation(alloc, "list", &[part]),
        ListForm::Large => nested_notation(alloc, "large_list", &[part]),
        ListForm::Fixed(size) => {
            let list = nested_notation(alloc, "fixed_size_list", &[part])?;
            sized_notation(alloc, list.as_str(), size)
        }
    }
}

/// The type of lists whose items are those of a column: a data type where the column's type is one, with the column as
/// its field, or otherwise another type, as `list<item: timestamp[ms]>`. Errs only when out of memory.
pub fn list_type(alloc: Global, form: ListForm, item: SchemaColumn) -> Result<AnyType, AllocError>
    ensures { IfOk result (λ made. type_tree made ≡ list_type form (column_tree item)) }
{
    let SchemaColumn {
        name,
        nullable,
        data_type,
        metadata,
    } = item;
    match data_type {
        AnyType::Data(item) => {
            let item = Field::from_parts(name, item, nullable, metadata);
            let item = Box::new(alloc, item)?;
            Ok(AnyType::Data(match form {
                ListForm::Small => DataType::List(item),
                ListForm::Large => DataType::LargeList(item),
                ListForm::Fixed(size) => DataType::FixedSizeList(item, size),
            }))
        }
        AnyType::Other(other) => other_list(
            alloc,
            form,
            SchemaColumn {
                name,
                nullable,
                data_type: AnyType::Other(other),
                metadata,
            },
        ),
    }
}

/// The type of lists whose items are those of a column that is of no data type.
fn other_list(alloc: Global, form: ListForm, item: SchemaColumn) -> Result<AnyType, AllocError>
    ensures { IfOk result (λ made. type_tree made ≡ other (list_text form (column_text (column_tree item))) (ListOf form) [] (part_trees (column_tree item ∷ []))) }
{
    let text = list_text(alloc, form, item.notation(alloc)?)?;
    Ok(AnyType::Other(OtherType {
        notation: text,
        form: Form::List(form),
        ids: Vec::new(alloc),
        parts: vec![in alloc; Part::of_column(item)]?,
    }))
}

/// Whether the types of all columns are data types. Allocates nothing.
pub fn all_known(columns: &[SchemaColumn]) -> bool
    ensures { result ≡ all_known (map column_tree columns.now) }
{
    for column in columns {
        if let AnyType::Other(_) = column.data_type {
            return false;
        }
    }
    true
}

/// The columns whose types are data types, as fields, in order; the others are left out. Errs only when out of memory.
#[tactic(auto, using(crate::proofs::Known::field_next, std::proofs::lemmas::Grind::common_steps))]
pub fn fields_of(alloc: Global, columns: Vec<SchemaColumn>) -> Result<Vec<Field>, AllocError>
    ensures { IfOk result (λ fields. fields.items ≡ known_fields (map column_tree columns.items)) }
{
    let mut fields = Vec::with_capacity(alloc, columns.len())?;
    'columns: for column in columns {
        let SchemaColumn {
            name,
            nullable,
            data_type,
            metadata,
        } = column;
        if let AnyType::Data(data_type) = data_type {
            fields.push(Field::from_parts(name, data_type, nullable, metadata))?;
        }
    }
    Ok(fields)
}

/// The columns as parts of a nested type's notation, as `at: timestamp[ms]`, in order. Errs only when out of memory.
#[tactic(auto, using(crate::proofs::Steps::goes_on))]
pub fn parts_of(alloc: Global, columns: &[SchemaColumn]) -> Result<Vec<String>, AllocError>
    ensures { IfOk result (λ parts. map string_bytes parts.items ≡ map column_text (map column_tree columns.now)) }
{
    let mut parts = Vec::new(alloc);
    for column in columns {
        parts.push(column.notation(alloc)?)?;
    }
    Ok(parts)
}

/// The columns as parts, in order. Errs only when out of memory.
fn as_parts(alloc: Global, columns: Vec<SchemaColumn>) -> Result<Vec<Part>, AllocError>
    ensures { IfOk result (λ parts. parts.items ≡ map column_tree columns.items) }
{
    let mut parts = Vec::with_capacity(alloc, columns.len())?;
    'columns: for column in columns {
        parts.push(Part::of_column(column))?;
    }
    Ok(parts)
}

/// Returns the type of a form that nests columns and is none of the 26, with that notation; of a
/// union under those ids. Errs only when out of memory.
pub fn nested_type(
    alloc: Global,
    notation: String,
    form: Form,
    ids: Vec<i8>,
    columns: Vec<SchemaColumn>,
) -> Result<AnyType, AllocError>
    ensures { IfOk result (λ made. type_tree made ≡ nested_type (string_bytes notation) form ids.items (map column_tree columns.items)) }
{
    Ok(AnyType::Other(OtherType {
        notation,
        form,
        ids,
        parts: as_parts(alloc, columns)?,
    }))
}

/// The type of structs of columns: a data type where all their types are, with the columns as its fields, or otherwise
/// another type, as `struct<x: float64, at: timestamp[ms]>`. Errs only when out of memory.
///
/// ```rust
/// let column = SchemaColumn {
///     name: String::from_str(alloc, "at")?,
///     nullable: false,
///     data_type: AnyType::leaf(alloc, String::from_str(alloc, "timestamp[ms]")?),
///     metadata: BTreeMap::new(alloc),
/// };
/// let made = struct_type(alloc, vec![in alloc; column]?)?;
/// let text = made.notation(alloc)?;
/// assert_eq!(rt; text.as_str(), "struct<at: timestamp[ms] not null>");
/// ```
pub fn struct_type(alloc: Global, columns: Vec<SchemaColumn>) -> Result<AnyType, AllocError>
    ensures { IfOk result (λ made. type_tree made ≡ struct_type (map column_tree columns.items)) }
{
    if !all_known(columns.as_slice()) {
        let parts = parts_of(alloc, columns.as_slice())?;
        let text = nested_notation(alloc, "struct", parts.as_slice())?;
        return nested_type(alloc, text, Form::Struct, Vec::new(alloc), columns);
    }
    let fields = fields_of(alloc, columns)?;
    Ok(AnyType::Data(DataType::Struct(Fields::from(fields))))
}
