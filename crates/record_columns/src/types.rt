//! The types of structures.
ghost use Rattle.std.specs.Prelude.{◌≡◌, map};
ghost use Rattle.arrow_columns.specs.Column.{column_tree, type_tree};
ghost use Rattle.format_strings.specs.Reading.{said_of, said_in};
ghost use Rattle.record_wire.specs.Record.{structure};
ghost use Rattle.record_wire.specs.declared.fault.Rule.TheVariants.{Format as format_rule};
ghost use Rattle.record_columns.specs.Errors.{Makes};
ghost use Rattle.record_columns.specs.Columns.{or_rule, takes, own_type, is_ordered};
ghost use Rattle.record_columns.specs.Columns.{integers_of, dictionary_type, type_by};

use crate::error::Refusal;
use arrow_columns::{AnyType, SchemaColumn, only_column};
use arrow_kinds::{Index, Kind, type_of, with_dictionary};
use arrow_values::DataType;
use format_strings::{Format, read_format};
use record_wire::{Record, Rule};
use std::alloc::Global;

/// Reads the format string of a structure.
pub(crate) fn format_of<'a>(alloc: Global, one: &Record<'a>) -> Result<Format<'a>, Refusal>
    ensures { Makes said_of result (or_rule format_rule (said_in one.now.format.now)) }
{
    match read_format(alloc, one.format)? {
        Some(format) => Ok(format),
        None => Err(Refusal::Rule(Rule::Format)),
    }
}

/// Tells whether a type that nests nothing has no children, and a union as many as type ids.
fn takes(kind: &Kind, ids: usize, children: usize) -> bool
    ensures { result ≡ takes kind.now ids children }
{
    match kind {
        Kind::Plain(_) | Kind::Named(_) => children == 0,
        Kind::Union(_) => children == ids,
        _ => true,
    }
}

/// Returns the type that a format string says of these children.
#[tactic(auto, unfolding(crate::specs::Columns::own_type))]
fn own_type(
    alloc: Global,
    format: Format<'_>,
    children: Vec<SchemaColumn>,
) -> Result<AnyType, Refusal>
    ensures { Makes type_tree result
        (own_type (said_of format.entry) (map column_tree children.items)) }
{
    let Format { kind, zone, ids } = format;
    if !takes(&kind, ids.len(), children.len()) {
        return Err(Refusal::Rule(Rule::Children));
    }
    match type_of(alloc, &kind, zone, ids, children)? {
        Some(data_type) => Ok(data_type),
        None => Err(Refusal::Rule(Rule::Children)),
    }
}

/// Returns the type of integers; `None` of any other kind of type.
fn integers_of(kind: &Kind) -> Option<DataType>
    ensures { result ≡ integers_of kind.now }
{
    match kind {
        Kind::Plain(DataType::Int8) => Some(DataType::Int8),
        Kind::Plain(DataType::Int16) => Some(DataType::Int16),
        Kind::Plain(DataType::Int32) => Some(DataType::Int32),
        Kind::Plain(DataType::Int64) => Some(DataType::Int64),
        Kind::Plain(DataType::UInt8) => Some(DataType::UInt8),
        Kind::Plain(DataType::UInt16) => Some(DataType::UInt16),
        Kind::Plain(DataType::UInt32) => Some(DataType::UInt32),
        Kind::Plain(DataType::UInt64) => Some(DataType::UInt64),
        _ => None,
    }
}

/// Tells whether flags say that the order of a dictionary's values is that of its integers.
fn is_ordered(flags: u32) -> bool
    ensures { result ≡ is_ordered flags }
{
    flags % 2 == 1
}

/// Returns the type of a structure with a dictionary, which lies in it alone.
#[tactic(auto, unfolding(crate::specs::Columns::dictionary_type))]
fn dictionary_type(
    alloc: Global,
    kind: &Kind,
    ordered: bool,
    inner: Vec<SchemaColumn>,
) -> Result<AnyType, Refusal>
    ensures { Makes type_tree result
        (dictionary_type kind.now ordered (map column_tree inner.items)) }
{
    let Some(integers) = integers_of(kind) else {
        return Err(Refusal::Rule(Rule::Format));
    };
    let Some(values) = only_column(inner) else {
        return Err(Refusal::Rule(Rule::Children));
    };
    let index = Some(Index { integers, ordered });
    Ok(with_dictionary(alloc, &index, values.data_type)?)
}

/// Returns the type of a structure, of which that format string was read, by the columns that those
/// became that lie right in it.
pub(crate) fn type_by(
    alloc: Global,
    one: &Record<'_>,
    format: Format<'_>,
    inner: Vec<SchemaColumn>,
) -> Result<AnyType, Refusal>
    ensures { Makes type_tree result
        (type_by (structure one.now) (said_of format.entry) (map column_tree inner.items)) }
{
    if one.has_dictionary {
        dictionary_type(alloc, &format.kind, is_ordered(one.flags), inner)
    } else {
        own_type(alloc, format, inner)
    }
}
