//! Writes format strings.
ghost use Rattle.std.specs.Prelude.{◌≡◌, ◌++◌, [], Some, codes, IfOk, option_map, string_bytes};
ghost use Rattle.format_strings.specs.Numbers.{is_byte, are_ids, ids_text, more_ids};
ghost use Rattle.format_strings.specs.Formats.{with_size, wide_text, are_places, decimal_format};
ghost use Rattle.format_strings.specs.Formats.{own_format, with_zone, with_unit, union_front};
ghost use Rattle.format_strings.specs.Formats.{with_ids, format_by};

use crate::words::word_of;
use arrow_columns::ListForm;
use arrow_kinds::{Kind, Named};
use arrow_values::UnionMode;
use std::alloc::{AllocError, Global};

/// What is written, or `None` where no format string says that; only memory may lack.
type Written = Result<Option<String>, AllocError>;

/// Writes a type of so many bytes, or so many values.
fn with_size(alloc: Global, front: &str, size: i32) -> Written
    ensures { IfOk result (λ o. option_map string_bytes o ≡ with_size front.now size) }
{
    if size < 0 {
        return Ok(None);
    }
    Ok(Some(format!(in alloc; "{front}{size}")?))
}

/// Writes a decimal that says its width.
fn wide_text(alloc: Global, precision: usize, scale: i32, width: &str) -> Written
    ensures { IfOk result (λ o. option_map string_bytes o
        ≡ Some (wide_text precision scale width.now)) }
{
    Ok(Some(format!(in alloc; "d:{precision},{scale},{width}")?))
}

/// Writes a decimal.
fn decimal_format(alloc: Global, width: usize, precision: usize, scale: i32) -> Written
    ensures { IfOk result (λ o. option_map string_bytes o ≡ decimal_format width precision scale) }
{
    if precision >= 128 || scale < -128 || scale >= 128 {
        return Ok(None);
    }
    match width {
        128 => Ok(Some(format!(in alloc; "d:{precision},{scale}")?)),
        32 => wide_text(alloc, precision, scale, "32"),
        64 => wide_text(alloc, precision, scale, "64"),
        256 => wide_text(alloc, precision, scale, "256"),
        _ => Ok(None),
    }
}

/// Writes a type whose format string says it whole, but for those of timestamps and unions.
fn own_format(alloc: Global, kind: &Kind) -> Written
    ensures { IfOk result (λ o. option_map string_bytes o ≡ own_format kind.now) }
{
    match kind {
        Kind::Named(Named::Decimal(width, precision, scale)) => {
            decimal_format(alloc, *width, *precision, *scale)
        }
        Kind::Named(Named::FixedSizeBinary(size)) => with_size(alloc, "w:", *size),
        Kind::List(ListForm::Fixed(size)) => with_size(alloc, "+w:", *size),
        _ => match word_of(kind) {
            Some(word) => Ok(Some(String::from_str(alloc, word)?)),
            None => Ok(None),
        },
    }
}

/// Writes a timestamp.
fn with_zone(alloc: Global, unit: usize, zone: &str) -> Written
    ensures { IfOk result (λ o. option_map string_bytes o
        ≡ with_zone zone.now (with_unit (codes "ts") unit)) }
{
    let letter = match unit {
        0 => "s",
        1 => "m",
        2 => "u",
        3 => "n",
        _ => return Ok(None),
    };
    Ok(Some(format!(in alloc; "ts{letter}:{zone}")?))
}

/// Tells whether each type id is 0 to 127, and none of those before it.
fn are_ids(ids: &[i8]) -> bool
    ensures { result ≡ are_ids [] ids.now }
{
    'ids: for (i, id) in ids.iter().enumerate() {
        if *id < 0 || ids[..i].contains(id) {
            return false;
        }
    }
    true
}

/// Writes type ids with commas between them, behind a text.
fn ids_text(alloc: Global, front: &str, ids: &[i8]) -> Result<String, AllocError>
    ensures { IfOk result (λ text. string_bytes text ≡ front.now ++ ids_text ids.now) }
{
    let Some((first, others)) = ids.split_first() else {
        return String::from_str(alloc, front);
    };
    let mut text = format!(in alloc; "{front}{first}")?;
    'ids: for id in others {
        let more = format!(in alloc; ",{id}")?;
        text.push_str(more.as_str())?;
    }
    Ok(text)
}

/// Returns what stands before the type ids of a union.
fn union_front(mode: UnionMode) -> &'static str
    ensures { result.now ≡ union_front mode }
{
    match mode {
        UnionMode::Dense => "+ud:",
        UnionMode::Sparse => "+us:",
    }
}

/// Writes a union.
fn with_ids(alloc: Global, mode: UnionMode, ids: &[i8]) -> Written
    ensures { IfOk result (λ o. option_map string_bytes o ≡ with_ids ids.now (union_front mode)) }
{
    if !are_ids(ids) {
        return Ok(None);
    }
    Ok(Some(ids_text(alloc, union_front(mode), ids)?))
}

/// Writes the format string of a kind of type, with the time zone of a timestamp and the type ids
/// of a union; `None` where no format string says that. Fails only out of memory.
pub fn write_format(alloc: Global, kind: &Kind, zone: &str, ids: &[i8]) -> Written
    ensures { IfOk result (λ o. option_map string_bytes o ≡ format_by kind.now zone.now ids.now) }
{
    match kind {
        Kind::Named(Named::Timestamp(unit)) if ids.is_empty() => with_zone(alloc, *unit, zone),
        Kind::Union(mode) if zone.is_empty() => with_ids(alloc, *mode, ids),
        Kind::Named(Named::Timestamp(_)) | Kind::Union(_) => Ok(None),
        _ if zone.is_empty() && ids.is_empty() => own_format(alloc, kind),
        _ => Ok(None),
    }
}
