//! How the values of a logical or converted type are stored.
ghost use Rattle.std.specs.Prelude.{◌≡◌};
ghost use Rattle.parquet_footer.specs.Logical.{logical};
ghost use Rattle.parquet_footer.specs.Element.{element};
ghost use Rattle.parquet_columns.specs.Storage.{time_storage, other_storage, logical_storage, converted_storage, storage_of, holds_digits, digits_in, has_length, stands_on, is_stored, fixed_text, storage_text};

use crate::meaning::precision_of;
use parquet_footer::{LogicalType, PhysicalType, SchemaElement, TimeUnit};

/// How the values of a type are stored.
#[derive(Clone, Copy)]
pub(crate) enum Storage {
    /// Nothing is said.
    Any,
    /// As bytes of any number.
    Bytes,
    /// As integers of 32 bits.
    Int32,
    /// As integers of 64 bits.
    Int64,
    /// As decimal numbers are: as integers that hold their digits, or as bytes.
    Decimal,
    /// As so many bytes.
    Fixed(u32),
    /// As a group.
    Group,
}

/// How times of day are stored.
fn time_storage(unit: TimeUnit) -> Storage
    ensures { result ≡ time_storage unit }
{
    match unit {
        TimeUnit::Millisecond => Storage::Int32,
        TimeUnit::Microsecond => Storage::Int64,
        TimeUnit::Nanosecond => Storage::Int64,
    }
}

/// How the values of a logical type that is known by its id are stored.
fn other_storage(id: u16) -> Storage
    ensures { result ≡ other_storage id }
{
    match id {
        1 | 4 | 12 | 13 => Storage::Bytes,
        2 | 3 | 16 => Storage::Group,
        6 => Storage::Int32,
        14 => Storage::Fixed(16),
        15 => Storage::Fixed(2),
        _ => Storage::Any,
    }
}

/// How the values of a logical type are stored.
fn logical_storage(named: LogicalType<'_>) -> Storage
    ensures { result ≡ logical_storage (logical named.entry) }
{
    match named {
        LogicalType::Geometry(_) => Storage::Bytes,
        LogicalType::Geography(_, _) => Storage::Bytes,
        LogicalType::Decimal(_, _) => Storage::Decimal,
        LogicalType::Time(_, unit) => time_storage(unit),
        LogicalType::Timestamp(_, _) => Storage::Int64,
        LogicalType::Integer(bits, _) => {
            if bits == 64 {
                Storage::Int64
            } else {
                Storage::Int32
            }
        }
        LogicalType::Other(id) => other_storage(id),
    }
}

/// How the values of a converted type are stored.
fn converted_storage(number: i32) -> Storage
    ensures { result ≡ converted_storage number }
{
    match number {
        0 | 4 | 19 | 20 => Storage::Bytes,
        1..=3 => Storage::Group,
        5 => Storage::Decimal,
        6 | 7 | 11 | 12 | 13 | 15 | 16 | 17 => Storage::Int32,
        8 | 9 | 10 | 14 | 18 => Storage::Int64,
        21 => Storage::Fixed(12),
        _ => Storage::Any,
    }
}

/// How the values of an element are stored by its logical type, or where it has none by its
/// converted type.
pub(crate) fn storage_of(found: &SchemaElement<'_>) -> Storage
    ensures { result ≡ storage_of (element found.now) }
{
    match found.logical_type {
        Some(named) => logical_storage(named),
        None => match found.converted_type {
            Some(number) => converted_storage(number),
            None => Storage::Any,
        },
    }
}

/// Whether decimal numbers of so many digits are stored so.
pub(crate) fn holds_digits(digits: u32, physical: Option<PhysicalType>) -> bool
    ensures { result ≡ holds_digits digits physical }
{
    match physical {
        Some(PhysicalType::Int32) => digits < 10,
        Some(PhysicalType::Int64) => digits < 19,
        Some(PhysicalType::ByteArray | PhysicalType::FixedLenByteArray) => true,
        _ => false,
    }
}

/// The digits of decimal numbers; 0 where they are out of range.
fn digits_in(precision: i32) -> u32
    ensures { result ≡ digits_in precision }
{
    match precision {
        0..=76 => precision as u32,
        _ => 0,
    }
}

/// Whether values have so many bytes; true where there is no length, or a negative one.
fn has_length(length: u32, found: Option<i32>) -> bool
    ensures { result ≡ has_length length found }
{
    match found {
        Some(found) if found >= 0 => found as u32 == length,
        _ => true,
    }
}

/// Whether an element, whose physical type is known, is stored so.
fn stands_on(storage: Storage, found: &SchemaElement<'_>) -> bool
    ensures { result ≡ stands_on storage (element found.now) }
{
    let physical = found.storage.physical_type;
    match storage {
        Storage::Any => true,
        Storage::Bytes => matches!(physical, Some(PhysicalType::ByteArray)),
        Storage::Int32 => matches!(physical, Some(PhysicalType::Int32)),
        Storage::Int64 => matches!(physical, Some(PhysicalType::Int64)),
        Storage::Decimal => holds_digits(digits_in(precision_of(found)), physical),
        Storage::Fixed(length) => {
            matches!(physical, Some(PhysicalType::FixedLenByteArray))
                && has_length(length, found.storage.type_length)
        }
        Storage::Group => physical.is_none(),
    }
}

/// Whether an element is stored so, or its physical type is not known.
pub(crate) fn is_stored(storage: Storage, found: &SchemaElement<'_>) -> bool
    ensures { result ≡ is_stored storage (element found.now) }
{
    matches!(found.storage.physical_type, Some(PhysicalType::Unknown(_)))
        || stands_on(storage, found)
}

/// The words of so many bytes.
fn fixed_text(length: u32) -> &'static str
    ensures { result.now ≡ fixed_text length }
{
    match length {
        2 => "FIXED_LEN_BYTE_ARRAY of 2 bytes",
        12 => "FIXED_LEN_BYTE_ARRAY of 12 bytes",
        _ => "FIXED_LEN_BYTE_ARRAY of 16 bytes",
    }
}

/// The words of a storage.
pub(crate) fn storage_text(storage: Storage) -> &'static str
    ensures { result.now ≡ storage_text storage }
{
    match storage {
        Storage::Any => "any type",
        Storage::Bytes => "BYTE_ARRAY",
        Storage::Int32 => "INT32",
        Storage::Int64 => "INT64",
        Storage::Decimal => {
            "INT32 of 9 digits, INT64 of 18 digits, BYTE_ARRAY or FIXED_LEN_BYTE_ARRAY"
        }
        Storage::Fixed(length) => fixed_text(length),
        Storage::Group => "a group",
    }
}
