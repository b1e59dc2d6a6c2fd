//! Passing over a value of any type. No call allocates.
ghost use Rattle.std.specs.Prelude.{◌≡◌};
ghost use Rattle.parquet_footer.specs.Fault.{Returns};
ghost use Rattle.parquet_footer.specs.Skip.{plain_past, items_past, struct_past, pair_past, nested_past, value_past};

use crate::fault::{Fault, FooterRule, broken};
use crate::wire::{binary_at, bytes_past, field_at, list_at, map_at, number_past};

/// How deep values may be nested below the struct that is a footer.
pub const LEVELS: usize = 64;

/// Passes over a value that has no parts.
#[tactic(auto, unfolding(crate::specs::Skip::plain_past))]
#[inline(always)]
fn plain_past(kind: u8, bytes: &[u8]) -> Result<&[u8], Fault>
    ensures { Returns (λ x. x.now) result (plain_past kind bytes.now) }
{
    match kind {
        1 | 2 => Ok(bytes),
        3 => bytes_past(bytes, 1),
        4 | 5 | 6 => number_past(bytes, 10),
        7 => bytes_past(bytes, 8),
        8 => Ok(binary_at(bytes)?.1),
        13 => bytes_past(bytes, 16),
        _ => Err(broken(FooterRule::WireType, bytes)),
    }
}

/// Passes over a value.
#[cycle(skip)]
#[tactic(auto, using(crate::proofs::Loops::has_no_parts, crate::proofs::Loops::too_deep, crate::proofs::Loops::is_nested))]
#[inline(always)]
pub fn value_past(kind: u8, bytes: &[u8], levels: usize) -> Result<&[u8], Fault>
    ensures { Returns (λ x. x.now) result (value_past levels kind bytes.now) }
{
    let is_plain = kind < 9 || kind > 12;
    if is_plain {
        return plain_past(kind, bytes);
    }
    if levels == 0 {
        return Err(broken(FooterRule::Depth, bytes));
    }
    nested_past(kind, bytes, levels - 1)
}

/// Passes over a value that has parts, which are nested at most so many levels deep.
#[cycle(skip)]
#[tactic(auto, unfolding(crate::specs::Skip::nested_past))]
#[inline(never)]
fn nested_past(kind: u8, bytes: &[u8], levels: usize) -> Result<&[u8], Fault>
    ensures { Returns (λ x. x.now) result (nested_past (value_past levels) kind bytes.now) }
{
    match kind {
        12 => struct_past(bytes, levels),
        11 => {
            let (key, other, count, rest) = map_at(bytes)?;
            pairs_past(key, other, count, rest, levels)
        }
        _ => {
            let (item, count, rest) = list_at(bytes)?;
            items_past(item, count, rest, levels)
        }
    }
}

/// Passes over the fields of a struct.
#[cycle(skip)]
fn struct_past(bytes: &[u8], levels: usize) -> Result<&[u8], Fault>
    ensures { Returns (λ x. x.now) result (struct_past (value_past levels) bytes.now) }
{
    let mut rest = bytes;
    let mut last = 0;
    'fields: for i in 0..bytes.len() {
        let (id, kind, value) = field_at(last, rest)?;
        if kind == 0 {
            return Ok(value);
        }
        rest = value_past(kind, value, levels)?;
        last = id;
    }
    Err(broken(FooterRule::End, rest))
}

/// Passes over so many items of one type.
#[cycle(skip)]
fn items_past(kind: u8, count: u32, bytes: &[u8], levels: usize) -> Result<&[u8], Fault>
    ensures { Returns (λ x. x.now) result (items_past (value_past levels kind) count bytes.now) }
{
    let mut rest = bytes;
    'items: for i in 0..count {
        rest = value_past(kind, rest, levels)?;
    }
    Ok(rest)
}

/// Passes over so many pairs of a key and a value.
#[cycle(skip)]
fn pairs_past(key: u8, other: u8, count: u32, bytes: &[u8], levels: usize) -> Result<&[u8], Fault>
    ensures { Returns (λ x. x.now) result (items_past (pair_past (value_past levels) key other) count bytes.now) }
{
    let mut rest = bytes;
    'pairs: for i in 0..count {
        let value = value_past(key, rest, levels)?;
        rest = value_past(other, value, levels)?;
    }
    Ok(rest)
}
