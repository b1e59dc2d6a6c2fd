//! Columns with all that lies in them: each record behind those of what lies in it.
ghost use Rattle.std.specs.Prelude.{[]};
ghost use Rattle.arrow_values.specs.View.{field_trees, member_trees};
ghost use Rattle.arrow_columns.specs.Column.{column_of};
ghost use Rattle.record_writer.specs.Placed.{placed, within_type, fields_within, members_within};
ghost use Rattle.record_writer.specs.Views.{column_in, type_in};
ghost use Rattle.record_writer.specs.Writes.{Puts};

use crate::error::Refusal;
use crate::part::{Part, PartType, part_of};
use crate::structure::with_column;
use arrow_values::{DataType, Field};
use record_wire::{LEVEL_LIMIT, Records};
use std::alloc::Global;

/// What is written, or why not.
pub(crate) type Written = Result<Records, Refusal>;

/// Returns these records, and those of a column behind them.
#[tactic(auto, using(crate::proofs::Grows::column_steps))]
#[cycle(write)]
pub(crate) fn with_part(alloc: Global, records: Records, part: &Part<'_>) -> Written
    ensures { Puts records (placed part.now.level (column_in part.now)) result }
{
    if part.level > LEVEL_LIMIT {
        return Err(Refusal::TooDeep);
    }
    let records = with_inner(alloc, records, part.data_type, part.level + 1)?;
    with_column(alloc, records, part)
}

/// Returns these records, and those of a field of a level behind them.
#[cycle(write)]
fn with_field(alloc: Global, records: Records, field: &Field, level: u32) -> Written
    ensures { Puts records (placed level (column_of field.now)) result }
{
    with_part(alloc, records, &part_of(field, level))
}

/// Returns these records, and those of what lies in a type, from a level on.
#[cycle(write)]
pub(crate) fn with_inner(
    alloc: Global,
    records: Records,
    data_type: PartType<'_>,
    level: u32,
) -> Written
    ensures { Puts records (within_type level (type_in data_type.entry)) result }
{
    let PartType::Data(data_type) = data_type else {
        return Ok(records);
    };
    match data_type {
        DataType::List(field) | DataType::LargeList(field) => {
            with_field(alloc, records, field, level)
        }
        DataType::FixedSizeList(field, _) => with_field(alloc, records, field, level),
        DataType::Struct(fields) => with_fields(alloc, records, fields.as_slice(), level),
        DataType::Union(members, _) => with_members(alloc, records, members.as_slice(), level),
        _ => Ok(records),
    }
}

/// Returns these records, and those of fields of one level behind them.
#[tactic(auto, using(crate::proofs::Grows::field_steps))]
#[cycle(write)]
fn with_fields(alloc: Global, records: Records, fields: &[Field], level: u32) -> Written
    ensures { Puts records (fields_within level (field_trees fields.now)) result }
{
    let mut records = records;
    'fields: for field in fields {
        records = with_field(alloc, records, field, level)?;
    }
    Ok(records)
}

/// Returns these records, and those of members of one level behind them.
#[tactic(auto, using(crate::proofs::Grows::field_steps))]
#[cycle(write)]
fn with_members(alloc: Global, records: Records, members: &[(i8, Field)], level: u32) -> Written
    ensures { Puts records (members_within level (member_trees members.now)) result }
{
    let mut records = records;
    'members: for member in members {
        records = with_field(alloc, records, &member.1, level)?;
    }
    Ok(records)
}
