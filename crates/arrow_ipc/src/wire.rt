//! FlatBuffers: what stands at a position of a message, where its offsets lead, and the slots of a table, with what counts where one is
//! missing.
ghost use Rattle.std.specs.Prelude.{◌≡◌, ◌+◌, ◌*◌, ◌^◌, ◌<◌, ◌≤◌, ◌⊎◌, length, IfOk, IfSome};
ghost use Rattle.std.specs.Int.{byte_len};
ghost use Rattle.arrow_ipc.specs.Wire.{width, integer_at, ahead, vtable_at, opened_at, IsOpen, slot_at, target_at, utf8_at, vector_at};
ghost use Rattle.arrow_ipc.specs.Fault.{map_ok};
ghost use Rattle.arrow_ipc.specs.Slots.{integer_in, flag_in, led_by, text_in, table_in, vector_in};

use crate::fault::{Found, IpcRule, broken, ensure};

/// The number of so many bytes, which are 1, 2, 4 or 8, at a position; the least byte first.
#[tactic(auto, unfolding(crate::specs::Wire::integer_at))]
#[inline(always)]
pub(crate) fn integer_at(bytes: &[u8], at: usize, size: usize) -> Found<usize>
    requires { byte_len (width size) ≡ size }
    ensures is { result ≡ integer_at bytes.now at (width size) }
    ensures within { IfOk result (λ n. n < 256 ^ size) }
{
    match (size, bytes.get(at..)) {
        (1, Some([a, ..])) => Ok(*a as usize),
        (2, Some([a, b, ..])) if at % 2 == 0 => Ok(u16::from_le_bytes([*a, *b]) as usize),
        (4, Some([a, b, c, d, ..])) if at % 4 == 0 => {
            Ok(u32::from_le_bytes([*a, *b, *c, *d]) as usize)
        }
        (8, Some([a, b, c, d, e, f, g, h, ..])) if at % 8 == 0 => {
            Ok(u64::from_le_bytes([*a, *b, *c, *d, *e, *f, *g, *h]) as usize)
        }
        _ => Err(broken(IpcRule::Number, at)),
    }
}

/// The position so many bytes on, at most the end.
#[tactic(auto, unfolding(crate::specs::Wire::ahead))]
pub(crate) fn ahead(rule: IpcRule, bytes: &[u8], at: usize, by: usize) -> Found<usize>
    ensures { result ≡ ahead rule bytes.now at by }
{
    ensure(at <= bytes.len() && by <= bytes.len() - at, rule, at)?;
    Ok(at + by)
}

/// Where the vtable of a table is.
#[tactic(auto, unfolding(crate::specs::Wire::vtable_at))]
#[inline(always)]
fn vtable_at(bytes: &[u8], table: usize) -> Found<usize>
    ensures { result ≡ vtable_at bytes.now table }
{
    match integer_at(bytes, table, 4)? {
        back if back < 0x8000_0000 => table
            .checked_sub(back)
            .ok_or(broken(IpcRule::Vtable, table)),
        back => ahead(IpcRule::Vtable, bytes, table, 0x1_0000_0000 - back),
    }
}

/// Where the elements of a vector begin, and how many they are.
pub(crate) type Vector = (usize, usize);

/// A table whose vtable lies before the end: where the table and its vtable are, and how many bytes the vtable has.
#[derive(Clone, Copy)]
pub(crate) struct Table {
    /// Where the table is.
    pub at: usize,
    vtable: usize,
    size: usize,
}

/// The table at a position, with its vtable.
#[tactic(auto, unfolding(crate::specs::Wire::opened_at, crate::specs::Wire::ahead))]
#[inline(always)]
pub(crate) fn open(bytes: &[u8], at: usize) -> Found<Table>
    ensures is { result ≡ opened_at bytes.now at }
    ensures within { IfOk result (λ t. IsOpen bytes.now t) }
{
    let vtable = vtable_at(bytes, at)?;
    let size = integer_at(bytes, vtable, 2)?;
    let _end = ahead(IpcRule::Vtable, bytes, vtable, size)?;
    ensure(size % 2 == 0, IpcRule::Vtable, vtable)?;
    Ok(Table { at, vtable, size })
}

/// Where a slot of a table is; `None` where the table does not have it.
#[tactic(auto, unfolding(crate::specs::Wire::slot_at, crate::specs::Wire::ahead))]
#[inline(always)]
pub(crate) fn slot_at(bytes: &[u8], table: &Table, i: u8) -> Found<Option<usize>>
    requires { IsOpen bytes.now table.now }
    ensures { result ≡ slot_at bytes.now table.now i }
{
    let entry = 4 + 2 * i as usize;
    if table.size < entry + 2 {
        return Ok(None);
    }
    match integer_at(bytes, table.vtable + entry, 2)? {
        0 => Ok(None),
        far => Ok(Some(ahead(IpcRule::Slot, bytes, table.at, far)?)),
    }
}

/// Where the offset at a position leads.
#[tactic(auto, unfolding(crate::specs::Wire::target_at))]
#[inline(always)]
pub(crate) fn target_at(bytes: &[u8], at: usize) -> Found<usize>
    ensures { result ≡ target_at bytes.now at }
{
    match integer_at(bytes, at, 4)? {
        0 => Err(broken(IpcRule::Offset, at)),
        far => ahead(IpcRule::Offset, bytes, at, far),
    }
}

/// A text in UTF-8: its count, its bytes, and a NUL that is not counted.
#[tactic(auto, using(crate::proofs::Linked::utf8_tests), unfolding(crate::specs::Wire::utf8_at, crate::specs::Wire::text_at, crate::specs::Wire::ahead))]
pub(crate) fn utf8_at(bytes: &[u8], at: usize) -> Found<&str>
    ensures { map_ok (λ s. s.now) result ≡ utf8_at bytes.now at }
{
    let count = integer_at(bytes, at, 4)?;
    let start = ahead(IpcRule::Text, bytes, at, 4)?;
    let end = ahead(IpcRule::Text, bytes, start, count)?;
    match (bytes.get(end..), std::str::from_utf8(&bytes[start..end])) {
        (Some([0, ..]), Ok(text)) => Ok(text),
        (Some([0, ..]), Err(_)) => Err(broken(IpcRule::Utf8, at)),
        _ => Err(broken(IpcRule::Text, at)),
    }
}

/// Where the elements of a vector begin, of four bytes each, and how many they are.
#[tactic(auto, unfolding(crate::specs::Wire::vector_at, crate::specs::Wire::ahead))]
#[inline(always)]
pub(crate) fn vector_at(bytes: &[u8], at: usize) -> Found<Vector>
    ensures is { result ≡ vector_at bytes.now at }
    ensures within { IfOk result (λ p. p.0 + 4 * p.1 ≤ length bytes.now) }
{
    let count = integer_at(bytes, at, 4)?;
    let start = ahead(IpcRule::Vector, bytes, at, 4)?;
    let _end = ahead(IpcRule::Vector, bytes, start, 4 * count)?;
    Ok((start, count))
}

/// A number of so many bytes in a slot, or what counts where the slot is missing.
#[tactic(auto, unfolding(crate::specs::Slots::integer_in))]
#[inline(always)]
pub(crate) fn integer_in(bytes: &[u8], table: &Table, i: u8, size: usize, or: usize) -> Found<usize>
    requires open { IsOpen bytes.now table.now }
    requires size { byte_len (width size) ≡ size }
    ensures is { result ≡ integer_in bytes.now table.now i (width size) or }
    ensures within { IfOk result (λ n. (n < 256 ^ size) ⊎ (n ≡ or)) }
{
    match slot_at(bytes, table, i)? {
        None => Ok(or),
        Some(slot) => integer_at(bytes, slot, size),
    }
}

/// Whether a slot holds a byte other than 0.
#[tactic(auto, unfolding(crate::specs::Slots::flag_in))]
#[inline(always)]
pub(crate) fn flag_in(bytes: &[u8], table: &Table, i: u8) -> Found<bool>
    requires { IsOpen bytes.now table.now }
    ensures { result ≡ flag_in bytes.now table.now i }
{
    Ok(integer_in(bytes, table, i, 1, 0)? != 0)
}

/// Where a slot leads; `None` where the table does not have it.
#[tactic(auto, unfolding(crate::specs::Slots::led_by))]
#[inline(always)]
pub(crate) fn led_by(bytes: &[u8], table: &Table, i: u8) -> Found<Option<usize>>
    requires { IsOpen bytes.now table.now }
    ensures { result ≡ led_by bytes.now table.now i }
{
    match slot_at(bytes, table, i)? {
        None => Ok(None),
        Some(slot) => Ok(Some(target_at(bytes, slot)?)),
    }
}

/// The text to which a slot leads, or the empty text where it is missing.
#[tactic(auto, unfolding(crate::specs::Slots::text_in))]
pub(crate) fn text_in<'a>(bytes: &'a [u8], table: &Table, i: u8) -> Found<&'a str>
    requires { IsOpen bytes.now table.now }
    ensures { map_ok (λ s. s.now) result ≡ text_in bytes.now table.now i }
{
    match led_by(bytes, table, i)? {
        None => Ok(""),
        Some(at) => utf8_at(bytes, at),
    }
}

/// Where a slot leads that a table must have.
#[tactic(auto, unfolding(crate::specs::Slots::table_in))]
#[inline(always)]
pub(crate) fn table_in(bytes: &[u8], table: &Table, i: u8) -> Found<usize>
    requires { IsOpen bytes.now table.now }
    ensures { result ≡ table_in bytes.now table.now i }
{
    led_by(bytes, table, i)?.ok_or(broken(IpcRule::Missing, table.at))
}

/// The vector to which a slot leads; `None` where it is missing.
#[tactic(auto, unfolding(crate::specs::Slots::vector_in))]
#[inline(always)]
pub(crate) fn vector_in(bytes: &[u8], table: &Table, i: u8) -> Found<Option<Vector>>
    requires { IsOpen bytes.now table.now }
    ensures is { result ≡ vector_in bytes.now table.now i }
    ensures within { IfOk result (λ o. IfSome o (λ p. p.0 + 4 * p.1 ≤ length bytes.now)) }
{
    match led_by(bytes, table, i)? {
        None => Ok(None),
        Some(at) => Ok(Some(vector_at(bytes, at)?)),
    }
}
