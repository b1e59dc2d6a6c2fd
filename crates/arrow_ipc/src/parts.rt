//! What a column's table says of the column itself, before its children are read: its type by the tag, with its width, units and sizes,
//! and its other slots.
ghost use Rattle.std.specs.Prelude.{◌≡◌, ◌+◌, ◌*◌, ◌<◌, ◌≤◌, length, IfOk, IfSome};
ghost use Rattle.arrow_ipc.specs.Fault.{map_ok};
ghost use Rattle.arrow_ipc.specs.Wire.{IsOpen};
ghost use Rattle.arrow_ipc.specs.Kinds.{int_at, decimal_at, time_at, number_at, kind_at};
ghost use Rattle.arrow_ipc.specs.Parts.{index_in, zone_or_ids, parts_of, parts_at};

use crate::fault::{Found, IpcRule, broken, ensure};
use crate::wire::{
    Table, Vector, flag_in, integer_in, led_by, open, slot_at, table_in, target_at, text_in,
    vector_in,
};
use arrow_columns::ListForm;
use arrow_kinds::{Index, Kind, Named};
use arrow_values::{DataType, UnionMode};

/// An integer by its width and sign.
#[tactic(auto, unfolding(crate::specs::Kinds::int_at))]
pub(crate) fn int_at(bytes: &[u8], table: &Table) -> Found<DataType>
    requires { IsOpen bytes.now table.now }
    ensures { result ≡ int_at bytes.now table.now }
{
    let width = integer_in(bytes, table, 0, 4, 0)?;
    let signed = flag_in(bytes, table, 1)?;
    match (width, signed) {
        (8, true) => Ok(DataType::Int8),
        (8, false) => Ok(DataType::UInt8),
        (16, true) => Ok(DataType::Int16),
        (16, false) => Ok(DataType::UInt16),
        (32, true) => Ok(DataType::Int32),
        (32, false) => Ok(DataType::UInt32),
        (64, true) => Ok(DataType::Int64),
        (64, false) => Ok(DataType::UInt64),
        _ => Err(broken(IpcRule::Parameter, table.at)),
    }
}

/// A decimal by its precision, scale and width.
#[tactic(auto, unfolding(crate::specs::Kinds::decimal_at))]
fn decimal_at(bytes: &[u8], table: &Table) -> Found<Named>
    requires { IsOpen bytes.now table.now }
    ensures { result ≡ decimal_at bytes.now table.now }
{
    let precision = integer_in(bytes, table, 0, 4, 0)?;
    let scale = integer_in(bytes, table, 1, 4, 0)? as u32;
    let width = integer_in(bytes, table, 2, 4, 128)?;
    let fits = precision < 128 && (scale < 128 || scale >= 0xffff_ff80);
    match width {
        32 | 64 | 128 | 256 if fits => Ok(Named::Decimal(width, precision, scale.cast_signed())),
        _ => Err(broken(IpcRule::Parameter, table.at)),
    }
}

/// A time of day by its unit, with its width.
#[tactic(auto, unfolding(crate::specs::Kinds::time_at))]
fn time_at(bytes: &[u8], table: &Table, unit: usize) -> Found<Named>
    requires { IsOpen bytes.now table.now }
    ensures { result ≡ time_at bytes.now table.now unit }
{
    ensure(unit < 4, IpcRule::Parameter, table.at)?;
    match (integer_in(bytes, table, 1, 4, 32)?, unit < 2) {
        (32, true) | (64, false) => Ok(Named::Time(unit)),
        _ => Err(broken(IpcRule::Parameter, table.at)),
    }
}

/// The number in slot 0 of a type's table: a unit, a mode or a size; of a type with no such number 0.
#[tactic(auto, unfolding(crate::specs::Kinds::number_at))]
fn number_at(bytes: &[u8], tag: usize, table: &Table) -> Found<usize>
    requires { IsOpen bytes.now table.now }
    ensures { result ≡ number_at bytes.now tag table.now }
{
    match tag {
        3 | 10 | 11 | 14 => integer_in(bytes, table, 0, 2, 0),
        8 | 9 | 18 => integer_in(bytes, table, 0, 2, 1),
        15 | 16 => integer_in(bytes, table, 0, 4, 0),
        _ => Ok(0),
    }
}

/// A type by its tag, and its table.
#[tactic(auto, unfolding(crate::specs::Kinds::kind_at))]
pub(crate) fn kind_at(bytes: &[u8], tag: usize, table: &Table) -> Found<Kind>
    requires { IsOpen bytes.now table.now }
    ensures { result ≡ kind_at bytes.now tag table.now }
{
    let number = number_at(bytes, tag, table)?;
    match (tag, number) {
        (1, _) => Ok(Kind::Plain(DataType::Null)),
        (2, _) => Ok(Kind::Plain(int_at(bytes, table)?)),
        (3, 0) => Ok(Kind::Plain(DataType::Float16)),
        (3, 1) => Ok(Kind::Plain(DataType::Float32)),
        (3, 2) => Ok(Kind::Plain(DataType::Float64)),
        (4, _) => Ok(Kind::Plain(DataType::Binary)),
        (5, _) => Ok(Kind::Plain(DataType::Utf8)),
        (6, _) => Ok(Kind::Plain(DataType::Boolean)),
        (7, _) => Ok(Kind::Named(decimal_at(bytes, table)?)),
        (8, 0) => Ok(Kind::Plain(DataType::Date32)),
        (8, 1) => Ok(Kind::Plain(DataType::Date64)),
        (9, _) => Ok(Kind::Named(time_at(bytes, table, number)?)),
        (10, 0..=3) => Ok(Kind::Named(Named::Timestamp(number))),
        (11, 0..=2) => Ok(Kind::Named(Named::Interval(number))),
        (12, _) => Ok(Kind::List(ListForm::Small)),
        (13, _) => Ok(Kind::Struct),
        (14, 0) => Ok(Kind::Union(UnionMode::Sparse)),
        (14, 1) => Ok(Kind::Union(UnionMode::Dense)),
        (15, 0..=0x7fff_ffff) => Ok(Kind::Named(Named::FixedSizeBinary(number as i32))),
        (16, 0..=0x7fff_ffff) => Ok(Kind::List(ListForm::Fixed(number as i32))),
        (17, _) => Ok(Kind::Map),
        (18, 0..=3) => Ok(Kind::Named(Named::Duration(number))),
        (19, _) => Ok(Kind::Plain(DataType::LargeBinary)),
        (20, _) => Ok(Kind::Plain(DataType::LargeUtf8)),
        (21, _) => Ok(Kind::List(ListForm::Large)),
        (22, _) => Ok(Kind::RunEndEncoded),
        (23, _) => Ok(Kind::Plain(DataType::BinaryView)),
        (24, _) => Ok(Kind::Plain(DataType::Utf8View)),
        (25, _) => Ok(Kind::ListView),
        (26, _) => Ok(Kind::LargeListView),
        _ => Err(broken(IpcRule::Parameter, table.at)),
    }
}

/// What a column's table says of the column itself.
#[derive(Drop)]
pub(crate) struct Parts<'a> {
    /// Where the column's table is.
    pub table: usize,
    /// The name of the column.
    pub name: &'a str,
    /// Whether its values may be null.
    pub nullable: bool,
    /// The kind of its type.
    pub kind: Kind,
    /// The time zone of a timestamp, otherwise empty.
    pub zone: &'a str,
    /// The dictionary, if it has one.
    pub index: Option<Index>,
    /// The tables of its children.
    pub children: Vector,
    /// The type ids of a union, if it says them.
    pub ids: Option<Vector>,
    /// The tables of its metadata.
    pub texts: Vector,
}

/// How a column's dictionary is indexed, if it has one: by 32-bit integers where nothing else is said.
#[tactic(auto, unfolding(crate::specs::Parts::index_at, crate::specs::Parts::index_in))]
fn index_in(bytes: &[u8], table: &Table) -> Found<Option<Index>>
    requires { IsOpen bytes.now table.now }
    ensures { result ≡ index_in bytes.now table.now }
{
    let Some(at) = led_by(bytes, table, 4)? else {
        return Ok(None);
    };
    let own = open(bytes, at)?;
    let _id = integer_in(bytes, &own, 0, 8, 0)?;
    let integers = match led_by(bytes, &own, 1)? {
        Some(at) => int_at(bytes, &open(bytes, at)?)?,
        None => DataType::Int32,
    };
    let ordered = flag_in(bytes, &own, 2)?;
    Ok(Some(Index { integers, ordered }))
}

/// What the table of a type has in slot 1: the time zone of a timestamp, and where the type ids of a union are, if it says them.
#[tactic(auto, unfolding(crate::specs::Parts::zone_or_ids))]
#[inline(always)]
fn zone_or_ids<'a>(bytes: &'a [u8], tag: usize, table: &Table) -> Found<(&'a str, Option<Vector>)>
    requires { IsOpen bytes.now table.now }
    ensures is { map_ok (λ p. (p.0.now, p.1)) result ≡ zone_or_ids bytes.now tag table.now }
    ensures within { IfOk result (λ p. IfSome p.1 (λ v. v.0 + 4 * v.1 ≤ length bytes.now)) }
{
    match tag {
        10 => Ok((text_in(bytes, table, 1)?, None)),
        14 => Ok(("", vector_in(bytes, table, 1)?)),
        _ => Ok(("", None)),
    }
}

/// What the table of a column, to which the offset at a position leads, says of the column itself.
#[tactic(auto, unfolding(crate::specs::Parts::parts_at, crate::specs::Parts::parts_in, crate::specs::Parts::tag_in))]
#[inline(never)]
pub(crate) fn parts_at(bytes: &[u8], at: usize) -> Found<Parts<'_>>
    ensures is { map_ok parts_of result ≡ parts_at bytes.now at }
    ensures children { IfOk result (λ p. p.children.0 + 4 * p.children.1 ≤ length bytes.now) }
    ensures ids { IfOk result (λ p. IfSome p.ids (λ q. q.0 + 4 * q.1 ≤ length bytes.now)) }
    ensures texts { IfOk result (λ p. p.texts.0 + 4 * p.texts.1 ≤ length bytes.now) }
{
    let table = open(bytes, target_at(bytes, at)?)?;
    let name = text_in(bytes, &table, 0)?;
    let nullable = flag_in(bytes, &table, 1)?;
    let tag = integer_in(bytes, &table, 2, 1, 0)?;
    let rule = if tag == 0 {
        IpcRule::Missing
    } else {
        IpcRule::Tag
    };
    ensure(0 < tag && tag <= 26, rule, table.at)?;
    let value = open(bytes, table_in(bytes, &table, 3)?)?;
    let _first = slot_at(bytes, &value, 0)?;
    let kind = kind_at(bytes, tag, &value)?;
    let (zone, ids) = zone_or_ids(bytes, tag, &value)?;
    Ok(Parts {
        table: table.at,
        name,
        nullable,
        kind,
        zone,
        ids,
        index: index_in(bytes, &table)?,
        children: vector_in(bytes, &table, 5)?.unwrap_or((0, 0)),
        texts: vector_in(bytes, &table, 6)?.unwrap_or((0, 0)),
    })
}
