//! Columns of data types, with the tables of their types and all that they nest.
ghost use Rattle.std.specs.Prelude.{◌≡◌, [], map, IfOk};
ghost use Rattle.arrow_values.specs.View.{tree, member_trees, texts_of};
ghost use Rattle.arrow_columns.specs.Types.{known};
ghost use Rattle.arrow_ipc.specs.Blocks.{Holds, child_in, columns_read, union_block};
ghost use Rattle.arrow_ipc.specs.Shapes.{shape_of, member_ids, are_ids, column_of, nested_columns};
ghost use Rattle.arrow_ipc.specs.Rooms.{MakesSound, IsTable, Gives, IsUnfit, AreUnfit, column_room, columns_room};

use crate::write::{
    Block, WriteError, linked_block, put_word, table_block, text_block, texts_block, type_block,
    vector_block,
};
use arrow_values::{DataType, Field, UnionMode};
use std::alloc::{AllocError, Global};
use std::collections::BTreeMap;

/// A type's tag with the number and the truth value that its table has; `None` of a union, and of a list of negative size.
fn shape_of(data_type: &DataType) -> Option<(u8, Option<u32>, Option<bool>)>
    ensures { result ≡ shape_of (tree data_type.now) }
{
    match data_type {
        DataType::Null => Some((1, None, None)),
        DataType::Boolean => Some((6, None, None)),
        DataType::Int8 => Some((2, Some(8), Some(true))),
        DataType::Int16 => Some((2, Some(16), Some(true))),
        DataType::Int32 => Some((2, Some(32), Some(true))),
        DataType::Int64 => Some((2, Some(64), Some(true))),
        DataType::UInt8 => Some((2, Some(8), Some(false))),
        DataType::UInt16 => Some((2, Some(16), Some(false))),
        DataType::UInt32 => Some((2, Some(32), Some(false))),
        DataType::UInt64 => Some((2, Some(64), Some(false))),
        DataType::Float16 => Some((3, Some(0), None)),
        DataType::Float32 => Some((3, Some(1), None)),
        DataType::Float64 => Some((3, Some(2), None)),
        DataType::Date32 => Some((8, Some(0), None)),
        DataType::Date64 => Some((8, Some(1), None)),
        DataType::Binary => Some((4, None, None)),
        DataType::LargeBinary => Some((19, None, None)),
        DataType::BinaryView => Some((23, None, None)),
        DataType::Utf8 => Some((5, None, None)),
        DataType::LargeUtf8 => Some((20, None, None)),
        DataType::Utf8View => Some((24, None, None)),
        DataType::List(_) => Some((12, None, None)),
        DataType::LargeList(_) => Some((21, None, None)),
        DataType::FixedSizeList(_, size) => Some((16, Some(u32::try_from(*size).ok()?), None)),
        DataType::Struct(_) => Some((13, None, None)),
        DataType::Union(_, _) => None,
    }
}

/// A union's table, with its type ids.
#[tactic(auto, using(crate::proofs::Blocks::length_union, crate::proofs::Blocks::length_vector_of, crate::proofs::Blocks::ids_written, crate::proofs::Blocks::count_ids))]
fn union_block(alloc: Global, mode: UnionMode, members: &[(i8, Field)]) -> Block
    ensures { MakesSound (are_ids [] (member_ids (member_trees members.now))) (union_block mode (member_ids (member_trees members.now))) result }
{
    let count = u32::try_from(members.len()).or(Err(WriteError::TooLarge))?;
    let mut ids = Vec::new(alloc);
    let mut words = Vec::new(alloc);
    'each: for member in members {
        let id = member.0;
        if id < 0 || ids.as_slice().contains(&id) {
            return Err(WriteError::Column(0));
        }
        ids.push(id)?;
        put_word(&mut words, id as u32)?;
    }
    let vector = linked_block(alloc, count, &[], words.as_slice())?;
    table_block(alloc, &[8, 4], &[mode as u8, 0, 0, 0], &[vector])
}

/// A type's tag and table.
fn type_table(alloc: Global, data_type: &DataType) -> Result<(u8, Vec<u8>), WriteError>
    ensures { IsTable (tree data_type.now) result }
{
    if let DataType::Union(members, mode) = data_type {
        return Ok((14, union_block(alloc, *mode, members.as_slice())?));
    }
    let (tag, number, truth) = shape_of(data_type).ok_or(WriteError::Column(0))?;
    Ok((tag, type_block(alloc, number, truth)?))
}

/// The fields that a type nests.
#[tactic(auto, using(crate::proofs::Blocks::fields_lent))]
fn nested_fields<'a>(alloc: Global, data_type: &'a DataType) -> Result<Vec<&'a Field>, AllocError>
    ensures { IfOk result (λ fs. map (λ f. column_of f.now) fs.items ≡ nested_columns (tree data_type.now)) }
{
    let mut nested = Vec::new(alloc);
    match data_type {
        DataType::List(field) | DataType::LargeList(field) | DataType::FixedSizeList(field, _) => {
            nested.push(&**field)?;
            Ok(nested)
        }
        DataType::Struct(fields) => {
            for field in fields.as_slice() {
                nested.push(field)?;
            }
            Ok(nested)
        }
        DataType::Union(members, _mode) => {
            for member in members.as_slice() {
                nested.push(&member.1)?;
            }
            Ok(nested)
        }
        _ => Ok(nested),
    }
}

/// A column of a data type, with so many levels for itself and what it nests.
#[tactic(auto, using(crate::proofs::Blocks::nested_refused, crate::proofs::Blocks::table_size, crate::proofs::Blocks::no_table))]
#[cycle(write)]
pub(crate) fn data_block(
    alloc: Global,
    name: &str,
    nullable: bool,
    data_type: &DataType,
    texts: &BTreeMap<String, String>,
    levels: usize,
) -> Block
    ensures { Gives (λ b. Holds (child_in levels) b (record { name = name.now; data_type = known (tree data_type.now); nullable = nullable; metadata = texts_of texts.now.entries }))
        (IsUnfit levels (tree data_type.now)) (column_room name.now (tree data_type.now) (texts_of texts.now.entries)) result }
{
    let below = levels.checked_sub(1).ok_or(WriteError::Column(0))?;
    let fields = nested_fields(alloc, data_type)?;
    let children = children_block(alloc, fields.as_slice(), below)?;
    let (tag, table) = type_table(alloc, data_type)?;
    let name = text_block(alloc, name)?;
    let texts = texts_block(alloc, texts)?;
    let numbers = [nullable as u8, tag, 0, 0];
    let blocks = [name, table, children, texts];
    table_block(alloc, &[4, 20, 21, 8, 0, 12, 16], &numbers, &blocks)
}

/// The vector of the columns that a type nests.
#[tactic(auto, using(crate::proofs::Blocks::each_refused, crate::proofs::Blocks::made_more, std::proofs::lemmas::List::drop_more, std::proofs::lemmas::List::map_push))]
#[cycle(write)]
fn children_block(alloc: Global, fields: &[&Field], levels: usize) -> Block
    ensures { Gives (λ b. Holds (columns_read levels) b (map (λ f. column_of f.now) fields.now)) (AreUnfit levels (map (λ f. column_of f.now) fields.now)) (columns_room (map (λ f. column_of f.now) fields.now)) result }
{
    let mut blocks = Vec::new(alloc);
    'columns: for field in fields {
        let block = data_block(
            alloc,
            field.name(),
            field.is_nullable(),
            field.data_type(),
            field.metadata(),
            levels,
        )?;
        blocks.push(block)?;
    }
    vector_block(alloc, blocks.as_slice())
}
