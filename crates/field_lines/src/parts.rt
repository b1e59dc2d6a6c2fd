//! The parts of a field or a column, and what is made of them.
ghost use Rattle.std.specs.Prelude.{◌≡◌, Err, IfOk};
ghost use Rattle.std.specs.Option.{option_map};
ghost use Rattle.arrow_values.specs.Tree.{field_tree};
ghost use Rattle.arrow_values.specs.View.{tree};
ghost use Rattle.arrow_columns.specs.Column.{type_tree, column_tree};
ghost use Rattle.field_lines.specs.ColumnOfValue.{column_type};
ghost use Rattle.field_lines.specs.Steps.{parts_tree, field_of_parts, column_of_parts};

use crate::metadata::Texts;
use crate::names::layout_name;
use arrow_columns::{AnyType, SchemaColumn};
use arrow_values::{DataType, Field};
use std::alloc::{AllocError, Global};
use std::collections::BTreeMap;

/// The parts of a field or a column, each where it is there. The notation is that of another type, which no field has.
#[derive(Drop)]
pub(crate) struct Parts<'a> {
    pub(crate) name: Option<&'a str>,
    pub(crate) nullable: Option<bool>,
    pub(crate) data_type: Option<DataType>,
    pub(crate) notation: Option<&'a str>,
    pub(crate) metadata: Option<Texts>,
}

/// The field of these parts, where each is there. A name that layouts have allocates nothing.
#[inline(always)]
pub(crate) fn field_of(alloc: Global, parts: Parts<'_>) -> Result<Option<Field>, AllocError>
    ensures { IfOk result (λ o. o ≡ field_of_parts (parts_tree parts.entry)) }
{
    let (Some(name), Some(nullable), Some(data_type), Some(metadata)) = (
        parts.name,
        parts.nullable,
        parts.data_type,
        parts.metadata,
    ) else {
        return Ok(None);
    };
    let mut field = match layout_name(name) {
        Some(name) => Field::fixed(alloc, name, data_type, nullable),
        None => {
            let name = String::from_str(alloc, name)?;
            Field::from_parts(name, data_type, nullable, BTreeMap::new(alloc))
        }
    };
    field.set_metadata(metadata);
    Ok(Some(field))
}

/// The column of these parts, where each is there.
pub(crate) fn column_of(alloc: Global, parts: Parts<'_>) -> Result<Option<SchemaColumn>, AllocError>
    ensures { IfOk result (λ o. option_map column_tree o ≡ column_of_parts (parts_tree parts.entry)) }
{
    let (Some(name), Some(nullable), Some(metadata)) = (parts.name, parts.nullable, parts.metadata)
    else {
        return Ok(None);
    };
    let Some(data_type) = any_type(alloc, parts.data_type, parts.notation)? else {
        return Ok(None);
    };
    Ok(Some(SchemaColumn {
        name: String::from_str(alloc, name)?,
        nullable,
        data_type,
        metadata,
    }))
}

/// One of the 26 types, or another by its notation.
fn any_type(
    alloc: Global,
    data_type: Option<DataType>,
    notation: Option<&str>,
) -> Result<Option<AnyType>, AllocError>
    ensures { IfOk result (λ o. option_map type_tree o ≡ column_type (option_map tree data_type) (option_map (λ n. n.now) notation.entry)) }
{
    if let Some(data_type) = data_type {
        return Ok(Some(AnyType::Data(data_type)));
    }
    match notation {
        Some(notation) => {
            let notation = String::from_str(alloc, notation)?;
            Ok(Some(AnyType::leaf(alloc, notation)))
        }
        None => Ok(None),
    }
}
