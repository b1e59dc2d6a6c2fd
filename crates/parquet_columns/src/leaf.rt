//! The type of a leaf in Arrow.
ghost use Rattle.std.specs.Prelude.{◌≡◌, ◌<◌, IfOk, option_map, string_bytes};
ghost use Rattle.arrow_values.specs.Tree.{plain};
ghost use Rattle.arrow_values.specs.View.{tree};
ghost use Rattle.arrow_columns.specs.Column.{type_tree};
ghost use Rattle.parquet_footer.specs.Element.{element};
ghost use Rattle.parquet_columns.specs.Leaf.{int32_of, int64_of, bytes_of, fixed_of, plain_of, time32_text, time64_text, timestamp_text, clock_text, length_at, digits_in, may_be_decimal, is_decimal, held, digits_at, decimal_text, fixed_type, is_null, leaf_type, stored_type, type_by};

use crate::fault::{ElementFault, SchemaRule};
use crate::meaning::{Meaning, meaning_of, precision_of, scale_of};
use crate::storage::holds_digits;
use arrow_columns::{AnyType, sized_notation};
use arrow_values::DataType;
use parquet_footer::{PhysicalType, SchemaElement, TimeUnit};
use std::alloc::{AllocError, Global};

/// Which types leaves have.
#[derive(Clone, Copy)]
pub(crate) enum LeafTypes {
    /// Those of what their values mean.
    Meant,
    /// Those with which stored fields are compared.
    Stored,
}

/// The type of integers of 32 bits.
fn int32_of(meaning: Meaning) -> DataType
    ensures { tree result ≡ plain (int32_of meaning) }
{
    match meaning {
        Meaning::Date => DataType::Date32,
        Meaning::Integer(8, true) => DataType::Int8,
        Meaning::Integer(8, false) => DataType::UInt8,
        Meaning::Integer(16, true) => DataType::Int16,
        Meaning::Integer(16, false) => DataType::UInt16,
        Meaning::Integer(32, false) => DataType::UInt32,
        _ => DataType::Int32,
    }
}

/// The type of integers of 64 bits.
fn int64_of(meaning: Meaning) -> DataType
    ensures { tree result ≡ plain (int64_of meaning) }
{
    match meaning {
        Meaning::Integer(64, false) => DataType::UInt64,
        _ => DataType::Int64,
    }
}

/// The type of bytes of any number.
fn bytes_of(meaning: Meaning) -> DataType
    ensures { tree result ≡ plain (bytes_of meaning) }
{
    match meaning {
        Meaning::Text => DataType::Utf8,
        _ => DataType::Binary,
    }
}

/// The data type of bytes of a fixed length, if it is one.
fn fixed_of(meaning: Meaning, length: i32) -> Option<DataType>
    ensures { option_map tree result ≡ option_map plain (fixed_of meaning length) }
{
    match (meaning, length) {
        (Meaning::Half, 2) => Some(DataType::Float16),
        _ => None,
    }
}

/// The data type of a leaf, if it is one.
fn plain_of(physical: PhysicalType, meaning: Meaning, length: i32) -> Option<DataType>
    ensures { option_map tree result ≡ option_map plain (plain_of physical meaning length) }
{
    match physical {
        PhysicalType::Boolean => Some(DataType::Boolean),
        PhysicalType::Int32 => Some(int32_of(meaning)),
        PhysicalType::Int64 => Some(int64_of(meaning)),
        PhysicalType::Int96 => None,
        PhysicalType::Float => Some(DataType::Float32),
        PhysicalType::Double => Some(DataType::Float64),
        PhysicalType::ByteArray => Some(bytes_of(meaning)),
        PhysicalType::FixedLenByteArray => fixed_of(meaning, length),
        PhysicalType::Unknown(_) => None,
    }
}

/// The text of points in time.
fn timestamp_text(utc: bool, unit: TimeUnit) -> &'static str
    ensures { result.now ≡ timestamp_text utc unit }
{
    match (unit, utc) {
        (TimeUnit::Millisecond, true) => "timestamp[ms, tz=UTC]",
        (TimeUnit::Millisecond, false) => "timestamp[ms]",
        (TimeUnit::Microsecond, true) => "timestamp[us, tz=UTC]",
        (TimeUnit::Microsecond, false) => "timestamp[us]",
        (TimeUnit::Nanosecond, true) => "timestamp[ns, tz=UTC]",
        (TimeUnit::Nanosecond, false) => "timestamp[ns]",
    }
}

/// The text of a time or of points in time.
fn clock_text(physical: PhysicalType, meaning: Meaning) -> Option<&'static str>
    ensures { option_map (λ s. s.now) result ≡ clock_text physical meaning }
{
    match (physical, meaning) {
        (PhysicalType::Int32, Meaning::Time(TimeUnit::Millisecond)) => Some("time32[ms]"),
        (PhysicalType::Int64, Meaning::Time(TimeUnit::Microsecond)) => Some("time64[us]"),
        (PhysicalType::Int64, Meaning::Time(TimeUnit::Nanosecond)) => Some("time64[ns]"),
        (PhysicalType::Int64, Meaning::Timestamp(utc, unit)) => Some(timestamp_text(utc, unit)),
        (PhysicalType::Int96, _) => Some("timestamp[ns]"),
        _ => None,
    }
}

/// The length of the values of the leaf with that index, if it is a fixed one; 0 of others.
pub(crate) fn length_at(
    at: usize,
    physical: PhysicalType,
    length: Option<i32>,
) -> Result<i32, ElementFault>
    ensures { result ≡ length_at at physical length }
{
    match (physical, length) {
        (PhysicalType::FixedLenByteArray, Some(length)) if length >= 0 => Ok(length),
        (PhysicalType::FixedLenByteArray, _) => Err(ElementFault::new(SchemaRule::Length, at)),
        _ => Ok(0),
    }
}

/// The digits of decimal numbers, and how many of them stand behind the point, by these numbers of
/// the leaf with that index.
fn digits_in(at: usize, precision: i32, scale: i32) -> Result<(u32, u32), ElementFault>
    ensures { result ≡ digits_in at precision scale }
{
    if precision > 0 && precision < 77 && scale >= 0 && scale <= precision {
        return Ok((precision as u32, scale as u32));
    }
    Err(ElementFault::new(SchemaRule::Digits, at))
}

/// Whether values that are stored so may be decimal numbers.
fn may_be_decimal(physical: PhysicalType) -> bool
    ensures { result ≡ may_be_decimal physical }
{
    match physical {
        PhysicalType::Int32
        | PhysicalType::Int64
        | PhysicalType::ByteArray
        | PhysicalType::FixedLenByteArray => true,
        _ => false,
    }
}

/// Whether values mean decimal numbers.
fn is_decimal(meaning: Meaning) -> bool
    ensures { result ≡ is_decimal meaning }
{
    matches!(meaning, Meaning::Decimal)
}

/// The digits of decimal numbers, where values that are stored so hold them.
fn held(physical: PhysicalType, digits: (u32, u32)) -> Option<(u32, u32)>
    ensures { result ≡ held physical digits }
{
    if holds_digits(digits.0, Some(physical)) {
        Some(digits)
    } else {
        None
    }
}

/// The digits of the decimal numbers that the leaf with that index has, where its values may be
/// such and hold them, and how many of them stand behind the point.
pub(crate) fn digits_at(
    at: usize,
    physical: PhysicalType,
    leaf: &SchemaElement<'_>,
) -> Result<Option<(u32, u32)>, ElementFault>
    ensures { result ≡ digits_at at physical (element leaf.now) }
{
    if is_decimal(meaning_of(leaf)) && may_be_decimal(physical) {
        let digits = digits_in(at, precision_of(leaf), scale_of(leaf))?;
        return Ok(held(physical, digits));
    }
    Ok(None)
}

/// The text of decimal numbers.
fn decimal_text(alloc: Global, precision: u32, scale: u32) -> Result<String, AllocError>
    ensures { IfOk result (λ text. string_bytes text ≡ decimal_text precision scale) }
{
    let word = if precision < 39 {
        "decimal128"
    } else {
        "decimal256"
    };
    format!(in alloc; "{word}({precision}, {scale})")
}

/// The type of values of a fixed length. Errs only when out of memory.
fn fixed_type(alloc: Global, length: i32) -> Result<AnyType, AllocError>
    ensures { IfOk result (λ made. type_tree made ≡ fixed_type length) }
{
    let text = sized_notation(alloc, "fixed_size_binary", length)?;
    Ok(AnyType::leaf(alloc, text))
}

/// Whether all values are null.
fn is_null(meaning: Meaning) -> bool
    ensures { result ≡ is_null meaning }
{
    match meaning {
        Meaning::Null => true,
        _ => false,
    }
}

/// The type of a leaf, by how its values are stored, what they mean, their length, and the digits
/// of decimal numbers. Errs only when out of memory.
fn leaf_type(
    alloc: Global,
    physical: PhysicalType,
    meaning: Meaning,
    length: i32,
    digits: Option<(u32, u32)>,
) -> Result<AnyType, AllocError>
    ensures { IfOk result (λ made. type_tree made ≡ leaf_type physical meaning length digits) }
{
    if is_null(meaning) {
        return Ok(AnyType::Data(DataType::Null));
    }
    if let Some(text) = clock_text(physical, meaning) {
        let text = String::from_str(alloc, text)?;
        return Ok(AnyType::leaf(alloc, text));
    }
    if let Some((precision, scale)) = digits {
        let text = decimal_text(alloc, precision, scale)?;
        return Ok(AnyType::leaf(alloc, text));
    }
    match plain_of(physical, meaning, length) {
        Some(data_type) => Ok(AnyType::Data(data_type)),
        None => fixed_type(alloc, length),
    }
}

/// The type that a stored field of a leaf is compared with. Errs only when out of memory.
fn stored_type(
    alloc: Global,
    physical: PhysicalType,
    meaning: Meaning,
    length: i32,
    digits: Option<(u32, u32)>,
) -> Result<AnyType, AllocError>
    ensures { IfOk result (λ made. type_tree made ≡ stored_type physical meaning length digits) }
{
    match physical {
        PhysicalType::ByteArray => Ok(AnyType::Data(bytes_of(meaning))),
        PhysicalType::Float => Ok(AnyType::Data(DataType::Float32)),
        PhysicalType::Double => Ok(AnyType::Data(DataType::Float64)),
        _ => leaf_type(alloc, physical, meaning, length, digits),
    }
}

/// The type of those of a leaf, by how its values are stored, what they mean, their length, and the
/// digits of decimal numbers. Errs only when out of memory.
pub(crate) fn type_by(
    alloc: Global,
    types: LeafTypes,
    physical: PhysicalType,
    meaning: Meaning,
    length: i32,
    digits: Option<(u32, u32)>,
) -> Result<AnyType, AllocError>
    ensures { IfOk result (λ made. type_tree made ≡ type_by types physical meaning length digits) }
{
    match types {
        LeafTypes::Meant => leaf_type(alloc, physical, meaning, length, digits),
        LeafTypes::Stored => stored_type(alloc, physical, meaning, length, digits),
    }
}
