//! What the values of a leaf mean.
ghost use Rattle.std.specs.Prelude.{◌≡◌, option_map};
ghost use Rattle.parquet_footer.specs.Logical.{logical};
ghost use Rattle.parquet_footer.specs.Element.{element};
ghost use Rattle.parquet_columns.specs.Meaning.{other_meaning, logical_meaning, converted_meaning, meaning_of, logical_precision, logical_scale, precision_of, scale_of};

use parquet_footer::{LogicalType, SchemaElement, TimeUnit};

/// What the values of a leaf mean, as far as their type in Arrow depends on it.
#[derive(Clone, Copy)]
pub(crate) enum Meaning {
    /// No more than how they are stored.
    Nothing,
    /// All are null.
    Null,
    /// Texts.
    Text,
    /// Decimal numbers.
    Decimal,
    /// Days.
    Date,
    /// Times of day.
    Time(TimeUnit),
    /// Points in time, and whether they are adjusted to UTC.
    Timestamp(bool, TimeUnit),
    /// Integers of so many bits, and whether they have a sign.
    Integer(u8, bool),
    /// Floats of 16 bits.
    Half,
}

/// The meaning of a logical type that is known by its id.
fn other_meaning(id: u16) -> Meaning
    ensures { result ≡ other_meaning id }
{
    match id {
        1 | 12 => Meaning::Text,
        6 => Meaning::Date,
        11 => Meaning::Null,
        15 => Meaning::Half,
        _ => Meaning::Nothing,
    }
}

/// The meaning of a logical type.
fn logical_meaning(named: LogicalType<'_>) -> Meaning
    ensures { result ≡ logical_meaning (logical named.entry) }
{
    match named {
        LogicalType::Geometry(_) => Meaning::Nothing,
        LogicalType::Geography(_, _) => Meaning::Nothing,
        LogicalType::Decimal(_, _) => Meaning::Decimal,
        LogicalType::Time(_, unit) => Meaning::Time(unit),
        LogicalType::Timestamp(utc, unit) => Meaning::Timestamp(utc, unit),
        LogicalType::Integer(bits, signed) => Meaning::Integer(bits, signed),
        LogicalType::Other(id) => other_meaning(id),
    }
}

/// The meaning of a converted type.
fn converted_meaning(number: i32) -> Meaning
    ensures { result ≡ converted_meaning number }
{
    match number {
        0 | 19 => Meaning::Text,
        5 => Meaning::Decimal,
        6 => Meaning::Date,
        7 => Meaning::Time(TimeUnit::Millisecond),
        8 => Meaning::Time(TimeUnit::Microsecond),
        9 => Meaning::Timestamp(true, TimeUnit::Millisecond),
        10 => Meaning::Timestamp(true, TimeUnit::Microsecond),
        11 => Meaning::Integer(8, false),
        12 => Meaning::Integer(16, false),
        13 => Meaning::Integer(32, false),
        14 => Meaning::Integer(64, false),
        15 => Meaning::Integer(8, true),
        16 => Meaning::Integer(16, true),
        17 => Meaning::Integer(32, true),
        18 => Meaning::Integer(64, true),
        _ => Meaning::Nothing,
    }
}

/// What the values of a leaf mean: by its logical type, or where it has none by its converted type.
pub(crate) fn meaning_of(leaf: &SchemaElement<'_>) -> Meaning
    ensures { result ≡ meaning_of (element leaf.now) }
{
    match leaf.logical_type {
        Some(named) => logical_meaning(named),
        None => match leaf.converted_type {
            Some(number) => converted_meaning(number),
            None => Meaning::Nothing,
        },
    }
}

/// The digits of decimal numbers, as a logical type says.
fn logical_precision(named: Option<LogicalType<'_>>) -> Option<i32>
    ensures { result ≡ logical_precision (option_map logical named.entry) }
{
    match named {
        Some(LogicalType::Decimal(_, precision)) => precision,
        _ => None,
    }
}

/// How many digits of decimal numbers stand behind the point, as a logical type says.
fn logical_scale(named: Option<LogicalType<'_>>) -> Option<i32>
    ensures { result ≡ logical_scale (option_map logical named.entry) }
{
    match named {
        Some(LogicalType::Decimal(scale, _)) => scale,
        _ => None,
    }
}

/// The digits of the decimal numbers of a leaf; 0 where it does not say.
pub(crate) fn precision_of(leaf: &SchemaElement<'_>) -> i32
    ensures { result ≡ precision_of (element leaf.now) }
{
    match logical_precision(leaf.logical_type) {
        Some(precision) => precision,
        None => leaf.precision.unwrap_or(0),
    }
}

/// How many digits of the decimal numbers of a leaf stand behind the point; 0 where it does not
/// say.
pub(crate) fn scale_of(leaf: &SchemaElement<'_>) -> i32
    ensures { result ≡ scale_of (element leaf.now) }
{
    match logical_scale(leaf.logical_type) {
        Some(scale) => scale,
        None => leaf.scale.unwrap_or(0),
    }
}
