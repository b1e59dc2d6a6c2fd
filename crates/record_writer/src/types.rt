//! Format strings of types.
ghost use Rattle.std.specs.Prelude.{◌≡◌, IfOk, length, option_map, string_bytes};
ghost use Rattle.arrow_values.specs.View.{tree};
ghost use Rattle.arrow_values.specs.Union.{ids_of};
ghost use Rattle.arrow_columns.specs.Types.{known, leaf};
ghost use Rattle.arrow_columns.specs.Below.{below};
ghost use Rattle.record_writer.specs.Formats.{kind_of, ids_in, format_in};
ghost use Rattle.record_writer.specs.Views.{type_in};

use crate::part::PartType;
use arrow_columns::ListForm;
use arrow_kinds::Kind;
use arrow_values::{DataType, Field};
use format_strings::{read_notation, write_format};
use std::alloc::{AllocError, Global};

/// Returns the kind of a data type.
fn kind_of(data_type: &DataType) -> Kind
    ensures { result ≡ kind_of (tree data_type.now) }
{
    match data_type {
        DataType::Null => Kind::Plain(DataType::Null),
        DataType::Boolean => Kind::Plain(DataType::Boolean),
        DataType::Int8 => Kind::Plain(DataType::Int8),
        DataType::Int16 => Kind::Plain(DataType::Int16),
        DataType::Int32 => Kind::Plain(DataType::Int32),
        DataType::Int64 => Kind::Plain(DataType::Int64),
        DataType::UInt8 => Kind::Plain(DataType::UInt8),
        DataType::UInt16 => Kind::Plain(DataType::UInt16),
        DataType::UInt32 => Kind::Plain(DataType::UInt32),
        DataType::UInt64 => Kind::Plain(DataType::UInt64),
        DataType::Float16 => Kind::Plain(DataType::Float16),
        DataType::Float32 => Kind::Plain(DataType::Float32),
        DataType::Float64 => Kind::Plain(DataType::Float64),
        DataType::Date32 => Kind::Plain(DataType::Date32),
        DataType::Date64 => Kind::Plain(DataType::Date64),
        DataType::Binary => Kind::Plain(DataType::Binary),
        DataType::LargeBinary => Kind::Plain(DataType::LargeBinary),
        DataType::BinaryView => Kind::Plain(DataType::BinaryView),
        DataType::Utf8 => Kind::Plain(DataType::Utf8),
        DataType::LargeUtf8 => Kind::Plain(DataType::LargeUtf8),
        DataType::Utf8View => Kind::Plain(DataType::Utf8View),
        DataType::List(_) => Kind::List(ListForm::Small),
        DataType::LargeList(_) => Kind::List(ListForm::Large),
        DataType::FixedSizeList(_, size) => Kind::List(ListForm::Fixed(*size)),
        DataType::Struct(_) => Kind::Struct,
        DataType::Union(_, mode) => Kind::Union(*mode),
    }
}

/// Returns the type ids of members.
fn ids_of(alloc: Global, members: &[(i8, Field)]) -> Result<Vec<i8>, AllocError>
    ensures { IfOk result (λ ids. ids.items ≡ ids_of members.now) }
{
    let mut ids = Vec::new(alloc);
    'members: for member in members {
        ids.push(member.0)?;
    }
    Ok(ids)
}

/// Returns the type ids of a union; of any other type none.
#[tactic(auto, using(arrow_values::specs::View::listed_members))]
fn ids_in(alloc: Global, data_type: &DataType) -> Result<Vec<i8>, AllocError>
    ensures { IfOk result (λ ids. ids.items ≡ ids_in (tree data_type.now)) }
{
    match data_type {
        DataType::Union(members, _) => ids_of(alloc, members.as_slice()),
        _ => Ok(Vec::new(alloc)),
    }
}

/// What is written, or `None` of a type that has no format string; only memory may lack.
type Written = Result<Option<String>, AllocError>;

/// Writes the format string of a data type.
fn data_format(alloc: Global, data_type: &DataType) -> Written
    ensures { IfOk result (λ o. option_map string_bytes o
        ≡ format_in (known (tree data_type.now))) }
{
    let kind = kind_of(data_type);
    let ids = ids_in(alloc, data_type)?;
    write_format(alloc, &kind, "", ids.as_slice())
}

/// Writes the format string of the kind and the time zone whose notation that is.
fn noted_format(alloc: Global, notation: &str) -> Written
    ensures { IfOk result (λ o. option_map string_bytes o ≡ format_in (leaf notation.now)) }
{
    let Some((named, zone)) = read_notation(notation) else {
        return Ok(None);
    };
    match write_format(alloc, &Kind::Named(named), zone, &[])? {
        Some(format) if format.as_bytes().contains(&0) => Ok(None),
        format => Ok(format),
    }
}

/// Writes the format string of a type; `None` where it has none.
pub(crate) fn format_of(alloc: Global, data_type: PartType<'_>) -> Written
    ensures { IfOk result (λ o. option_map string_bytes o ≡ format_in (type_in data_type.entry)) }
{
    match data_type {
        PartType::Data(data_type) => data_format(alloc, data_type),
        PartType::Leaf(notation) => noted_format(alloc, notation),
    }
}

/// Returns how many columns lie right in a type.
#[tactic(auto, using(crate::proofs::Below::counted))]
pub(crate) fn count_below(data_type: PartType<'_>) -> usize
    ensures { result ≡ length (below (type_in data_type.entry)) }
{
    let PartType::Data(data_type) = data_type else {
        return 0;
    };
    match data_type {
        DataType::List(_) | DataType::LargeList(_) | DataType::FixedSizeList(_, _) => 1,
        DataType::Struct(fields) => fields.len(),
        DataType::Union(members, _) => members.len(),
        _ => 0,
    }
}
