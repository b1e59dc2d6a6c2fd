//! Logical types: a union, of which the geometry types, decimal numbers, times, points in time and
//! integers are read, and the others known by their ids.
ghost use Rattle.std.specs.Prelude.{◌≡◌, option_map};
ghost use Rattle.parquet_footer.specs.Fault.{Returns};
ghost use Rattle.parquet_footer.specs.Fields.{spot, spots};
ghost use Rattle.parquet_footer.specs.Logical.{logical, algorithm_of, algorithm_in, union_at, unit_of, unit_in, width_in, decimal_at, clock, clock_at, is_width, integer_at, geometry_at, geography_at, member_at, logical_at, logical_in};

use crate::fault::{Fault, FooterRule, broken};
use crate::fields::{Found, Place, flag_in, number_in, numbers_at, pair_at, text_in};
use crate::skip::{LEVELS, value_past};
use crate::wire::field_at;

/// How the edges of a geography are interpolated.
#[derive(Debug, Clone, Copy, PartialEq, Eq)]
pub enum Algorithm {
    /// Along great circles of a sphere.
    Spherical,
    /// By Vincenty's formulae.
    Vincenty,
    /// By Thomas's formulae.
    Thomas,
    /// By Andoyer's formulae.
    Andoyer,
    /// By Karney's method.
    Karney,
    /// By one that is not known, whose number is this.
    Unknown(i32),
}

/// A unit of time.
#[derive(Debug, Clone, Copy, PartialEq, Eq)]
pub enum TimeUnit {
    /// A thousandth of a second.
    Millisecond,
    /// A millionth of a second.
    Microsecond,
    /// A thousand millionth of a second.
    Nanosecond,
}

/// A logical type of Parquet.
#[derive(Debug, Clone, Copy)]
pub enum LogicalType<'a> {
    /// GEOMETRY, with its coordinate reference system.
    Geometry(Option<&'a str>),
    /// GEOGRAPHY, with its coordinate reference system and its edges.
    Geography(Option<&'a str>, Option<Algorithm>),
    /// DECIMAL: its scale and its precision.
    Decimal(Option<i32>, Option<i32>),
    /// TIME: whether it is adjusted to UTC, and its unit.
    Time(bool, TimeUnit),
    /// TIMESTAMP: whether it is adjusted to UTC, and its unit.
    Timestamp(bool, TimeUnit),
    /// INTEGER: its bits, which are 8, 16, 32 or 64, and whether it is signed.
    Integer(u8, bool),
    /// Another, by its id in the union `LogicalType`, as 1 of STRING; 0 where the union has no
    /// field. A TIME or a TIMESTAMP of a unit that is not known, and an INTEGER of other bits, are
    /// such, by their ids.
    Other(u16),
}

/// The algorithm of a number.
fn algorithm_of(number: i32) -> Algorithm
    ensures { result ≡ algorithm_of number }
{
    match number {
        0 => Algorithm::Spherical,
        1 => Algorithm::Vincenty,
        2 => Algorithm::Thomas,
        3 => Algorithm::Andoyer,
        4 => Algorithm::Karney,
        _ => Algorithm::Unknown(number),
    }
}

/// The algorithm in a field, where it is there.
#[tactic(auto, unfolding(crate::specs::Logical::algorithm_in))]
fn algorithm_in(place: Found<'_>) -> Result<Option<Algorithm>, Fault>
    ensures { result ≡ algorithm_in (spots place.entry) }
{
    match number_in(place) {
        Ok(Some(number)) => Ok(Some(algorithm_of(number))),
        Ok(None) => Ok(None),
        Err(fault) => Err(fault),
    }
}

/// The unit of time of an id in the union `TimeUnit`.
fn unit_of(id: u16) -> Option<TimeUnit>
    ensures { result ≡ unit_of id }
{
    match id {
        1 => Some(TimeUnit::Millisecond),
        2 => Some(TimeUnit::Microsecond),
        3 => Some(TimeUnit::Nanosecond),
        _ => None,
    }
}

/// The unit of time in a field of a struct, whose bytes these are; none where it is not known.
#[tactic(auto, unfolding(crate::specs::Logical::unit_in))]
fn unit_in(bytes: &[u8], place: Found<'_>) -> Result<Option<TimeUnit>, Fault>
    ensures { result ≡ unit_in bytes.now (spots place.entry) }
{
    match place {
        None => Err(broken(FooterRule::Missing, bytes)),
        Some(Place { kind: 12, bytes }) => match union_at(bytes) {
            Ok(Some((id, _))) => Ok(unit_of(id)),
            Ok(None) => Ok(None),
            Err(fault) => Err(fault),
        },
        Some(place) => Err(broken(FooterRule::WireType, place.bytes)),
    }
}

/// The bits of an integer in a field of a struct, whose bytes these are.
#[tactic(auto, unfolding(crate::specs::Logical::width_in))]
fn width_in(bytes: &[u8], place: Found<'_>) -> Result<u8, Fault>
    ensures { result ≡ width_in bytes.now (spots place.entry) }
{
    match place {
        None => Err(broken(FooterRule::Missing, bytes)),
        Some(place) if place.kind != 3 => Err(broken(FooterRule::WireType, place.bytes)),
        Some(place) => match place.bytes {
            [] => Err(broken(FooterRule::End, place.bytes)),
            [width, ..] => Ok(*width),
        },
    }
}

/// The one field of a union: its id, and its value; none where it has no field.
#[tactic(auto, unfolding(crate::specs::Logical::union_at))]
fn union_at(bytes: &[u8]) -> Result<Option<(u16, Place<'_>)>, Fault>
    ensures { Returns (option_map (λ x. (x.0, spot x.1))) result (union_at bytes.now) }
{
    let (id, kind, value) = field_at(0, bytes)?;
    if kind == 0 {
        return Ok(None);
    }
    match value_past(kind, value, LEVELS) {
        Ok([]) => Err(broken(FooterRule::End, &[])),
        Ok([0, ..]) => Ok(Some((id, Place { kind, bytes: value }))),
        Ok(rest) => Err(broken(FooterRule::Union, rest)),
        Err(fault) => Err(fault),
    }
}

/// What DECIMAL says.
#[tactic(auto, unfolding(crate::specs::Logical::decimal_at))]
fn decimal_at(bytes: &[u8]) -> Result<LogicalType<'_>, Fault>
    ensures { Returns logical result (decimal_at bytes.now) }
{
    let (scale, precision) = numbers_at(bytes, 1, 2)?;
    Ok(LogicalType::Decimal(scale, precision))
}

/// What TIME says, whose id is 7, or TIMESTAMP.
fn clock<'a>(id: u16, utc: bool, unit: Option<TimeUnit>) -> LogicalType<'a>
    ensures { logical result ≡ clock id utc unit }
{
    match unit {
        None => LogicalType::Other(id),
        Some(unit) => {
            if id == 7 {
                LogicalType::Time(utc, unit)
            } else {
                LogicalType::Timestamp(utc, unit)
            }
        }
    }
}

/// What a TIME says, whose id is 7, or a TIMESTAMP, by its bytes.
#[tactic(auto, unfolding(crate::specs::Logical::clock_at))]
fn clock_at(id: u16, bytes: &[u8]) -> Result<LogicalType<'_>, Fault>
    ensures { Returns logical result (clock_at id bytes.now) }
{
    let (utc, unit, _) = pair_at(bytes, 1, 2)?;
    let utc = flag_in(bytes, utc)?;
    let unit = unit_in(bytes, unit)?;
    Ok(clock(id, utc, unit))
}

/// Whether integers have so many bits.
fn is_width(bits: u8) -> bool
    ensures { result ≡ is_width bits }
{
    matches!(bits, 8 | 16 | 32 | 64)
}

/// What INTEGER says.
#[tactic(auto, unfolding(crate::specs::Logical::integer_at))]
fn integer_at(bytes: &[u8]) -> Result<LogicalType<'_>, Fault>
    ensures { Returns logical result (integer_at bytes.now) }
{
    let (width, signed, _) = pair_at(bytes, 1, 2)?;
    let width = width_in(bytes, width)?;
    let signed = flag_in(bytes, signed)?;
    if is_width(width) {
        Ok(LogicalType::Integer(width, signed))
    } else {
        Ok(LogicalType::Other(10))
    }
}

/// What GEOMETRY says.
#[tactic(auto, unfolding(crate::specs::Logical::geometry_at))]
fn geometry_at(bytes: &[u8]) -> Result<LogicalType<'_>, Fault>
    ensures { Returns logical result (geometry_at bytes.now) }
{
    let (crs, _, _) = pair_at(bytes, 1, 1)?;
    text_in(crs).map(LogicalType::Geometry)
}

/// What GEOGRAPHY says.
#[tactic(auto, unfolding(crate::specs::Logical::geography_at))]
fn geography_at(bytes: &[u8]) -> Result<LogicalType<'_>, Fault>
    ensures { Returns logical result (geography_at bytes.now) }
{
    let (crs, algorithm, _) = pair_at(bytes, 1, 2)?;
    let crs = text_in(crs)?;
    Ok(LogicalType::Geography(crs, algorithm_in(algorithm)?))
}

/// What the member of a logical type says, by its id.
#[tactic(auto, unfolding(crate::specs::Logical::member_at))]
fn member_at(id: u16, bytes: &[u8]) -> Result<LogicalType<'_>, Fault>
    ensures { Returns logical result (member_at id bytes.now) }
{
    match id {
        5 => decimal_at(bytes),
        7 | 8 => clock_at(id, bytes),
        10 => integer_at(bytes),
        17 => geometry_at(bytes),
        18 => geography_at(bytes),
        _ => Ok(LogicalType::Other(id)),
    }
}

/// What a logical type says, by the one member of its union, if it has one.
#[tactic(auto, unfolding(crate::specs::Logical::logical_at))]
fn logical_at(bytes: &[u8]) -> Result<LogicalType<'_>, Fault>
    ensures { Returns logical result (logical_at bytes.now) }
{
    match union_at(bytes)? {
        None => Ok(LogicalType::Other(0)),
        Some((id, Place { kind: 12, bytes })) => member_at(id, bytes),
        Some((_, place)) => Err(broken(FooterRule::WireType, place.bytes)),
    }
}

/// The logical type in a field, where it is there.
#[tactic(auto, unfolding(crate::specs::Logical::logical_in))]
pub fn logical_in(place: Found<'_>) -> Result<Option<LogicalType<'_>>, Fault>
    ensures { Returns (option_map logical) result (logical_in (spots place.entry)) }
{
    match place {
        None => Ok(None),
        Some(Place { kind: 12, bytes }) => logical_at(bytes).map(Some),
        Some(place) => Err(broken(FooterRule::WireType, place.bytes)),
    }
}
