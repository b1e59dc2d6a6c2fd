//! The names of logical, converted and physical types.
ghost use Rattle.std.specs.Prelude.{◌≡◌};
ghost use Rattle.parquet_footer.specs.Logical.{logical};
ghost use Rattle.parquet_footer.specs.Element.{element};
ghost use Rattle.parquet_columns.specs.TypeNames.{other_name, logical_name, converted_name, type_name, physical_name};

use parquet_footer::{LogicalType, PhysicalType, SchemaElement};

/// The name of a logical type that is known by its id.
fn other_name(id: u16) -> &'static str
    ensures { result.now ≡ other_name id }
{
    match id {
        1 => "STRING",
        2 => "MAP",
        3 => "LIST",
        4 => "ENUM",
        6 => "DATE",
        11 => "UNKNOWN",
        12 => "JSON",
        13 => "BSON",
        14 => "UUID",
        15 => "FLOAT16",
        16 => "VARIANT",
        _ => "another type",
    }
}

/// The name of a logical type.
fn logical_name(named: LogicalType<'_>) -> &'static str
    ensures { result.now ≡ logical_name (logical named.entry) }
{
    match named {
        LogicalType::Geometry(_) => "GEOMETRY",
        LogicalType::Geography(_, _) => "GEOGRAPHY",
        LogicalType::Decimal(_, _) => "DECIMAL",
        LogicalType::Time(_, _) => "TIME",
        LogicalType::Timestamp(_, _) => "TIMESTAMP",
        LogicalType::Integer(_, _) => "INTEGER",
        LogicalType::Other(id) => other_name(id),
    }
}

/// The name of a converted type.
fn converted_name(number: i32) -> &'static str
    ensures { result.now ≡ converted_name number }
{
    match number {
        0 => "UTF8",
        1 => "MAP",
        2 => "MAP_KEY_VALUE",
        3 => "LIST",
        4 => "ENUM",
        5 => "DECIMAL",
        6 => "DATE",
        7 => "TIME_MILLIS",
        8 => "TIME_MICROS",
        9 => "TIMESTAMP_MILLIS",
        10 => "TIMESTAMP_MICROS",
        11 => "UINT_8",
        12 => "UINT_16",
        13 => "UINT_32",
        14 => "UINT_64",
        15 => "INT_8",
        16 => "INT_16",
        17 => "INT_32",
        18 => "INT_64",
        19 => "JSON",
        20 => "BSON",
        21 => "INTERVAL",
        _ => "another type",
    }
}

/// The name of an element's logical type, or where it has none of its converted type.
pub(crate) fn type_name(found: &SchemaElement<'_>) -> &'static str
    ensures { result.now ≡ type_name (element found.now) }
{
    match found.logical_type {
        Some(named) => logical_name(named),
        None => match found.converted_type {
            Some(number) => converted_name(number),
            None => "no type",
        },
    }
}

/// The name of a physical type; of a group that it is one.
pub(crate) fn physical_name(physical: Option<PhysicalType>) -> &'static str
    ensures { result.now ≡ physical_name physical }
{
    match physical {
        None => "a group",
        Some(PhysicalType::Boolean) => "BOOLEAN",
        Some(PhysicalType::Int32) => "INT32",
        Some(PhysicalType::Int64) => "INT64",
        Some(PhysicalType::Int96) => "INT96",
        Some(PhysicalType::Float) => "FLOAT",
        Some(PhysicalType::Double) => "DOUBLE",
        Some(PhysicalType::ByteArray) => "BYTE_ARRAY",
        Some(PhysicalType::FixedLenByteArray) => "FIXED_LEN_BYTE_ARRAY",
        Some(PhysicalType::Unknown(_)) => "another type",
    }
}
