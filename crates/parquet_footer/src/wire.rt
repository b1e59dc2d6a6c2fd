//! Values of Thrift's compact protocol at the front of the bytes, each with the bytes behind it.
ghost use Rattle.std.specs.Prelude.{◌≡◌, ◌<◌, length};
ghost use Rattle.parquet_footer.specs.Fault.{Returns};
ghost use Rattle.parquet_footer.specs.Wire.{number_at, number_past, zigzag, signed_at, count_at, bytes_past, binary_at, text_at, item_type, list_at, map_at, field_at};

use crate::fault::{Fault, FooterRule, broken};

/// A number in at most so many bytes.
#[tactic(auto, unfolding(crate::specs::Wire::number_at))]
pub fn number_at(bytes: &[u8], most: u32) -> Result<(u32, &[u8]), Fault>
    ensures { Returns (λ x. (x.0, x.1.now)) result (number_at most bytes.now) }
{
    let Some((byte, rest)) = bytes.split_first() else {
        return Err(broken(FooterRule::End, bytes));
    };
    if *byte < 128 {
        return Ok((*byte as u32, rest));
    }
    if most <= 1 {
        return Err(broken(FooterRule::Number, bytes));
    }
    match number_at(rest, most - 1) {
        Ok((high, rest)) if high < 0x200_0000 => Ok(((*byte as u32 - 128) + 128 * high, rest)),
        Ok(_) => Err(broken(FooterRule::Number, bytes)),
        Err(fault) => Err(fault),
    }
}

/// Passes over a number in at most so many bytes, one at least.
#[tactic(auto, unfolding(crate::specs::Wire::number_past))]
#[inline(always)]
pub fn number_past(bytes: &[u8], most: u32) -> Result<&[u8], Fault>
    requires { 0 < most }
    ensures { Returns (λ x. x.now) result (number_past most bytes.now) }
{
    let mut rest = bytes;
    'groups: for i in 1..most {
        match rest.split_first() {
            None => return Err(broken(FooterRule::End, rest)),
            Some((byte, behind)) if *byte < 128 => return Ok(behind),
            Some((_, behind)) => rest = behind,
        }
    }
    match rest.split_first() {
        None => Err(broken(FooterRule::End, rest)),
        Some((byte, behind)) if *byte < 128 => Ok(behind),
        Some(_) => Err(broken(FooterRule::Number, rest)),
    }
}

/// The number that zigzag writes so.
fn zigzag(number: u32) -> i32
    ensures { result ≡ zigzag number }
{
    let half = (number / 2) as i32;
    if number % 2 == 0 { half } else { -1 - half }
}

/// A number in zigzag.
#[tactic(auto, unfolding(crate::specs::Wire::signed_at))]
#[inline(never)]
pub fn signed_at(bytes: &[u8]) -> Result<(i32, &[u8]), Fault>
    ensures { Returns (λ x. (x.0, x.1.now)) result (signed_at bytes.now) }
{
    let (number, rest) = number_at(bytes, 5)?;
    Ok((zigzag(number), rest))
}

/// A number in zigzag that is not negative.
#[tactic(auto, unfolding(crate::specs::Wire::count_at))]
#[inline(never)]
pub fn count_at(bytes: &[u8]) -> Result<(u32, &[u8]), Fault>
    ensures { Returns (λ x. (x.0, x.1.now)) result (count_at bytes.now) }
{
    match number_at(bytes, 5) {
        Ok((number, rest)) if number % 2 == 0 => Ok((number / 2, rest)),
        Ok(_) => Err(broken(FooterRule::Negative, bytes)),
        Err(fault) => Err(fault),
    }
}

/// Passes over so many bytes.
#[inline(always)]
pub fn bytes_past(bytes: &[u8], count: usize) -> Result<&[u8], Fault>
    ensures { Returns (λ x. x.now) result (bytes_past count bytes.now) }
{
    if count > bytes.len() {
        return Err(broken(FooterRule::End, bytes));
    }
    Ok(&bytes[count..])
}

/// A length, and so many bytes.
#[tactic(auto, unfolding(crate::specs::Wire::binary_at))]
pub fn binary_at(bytes: &[u8]) -> Result<(&[u8], &[u8]), Fault>
    ensures { Returns (λ x. (x.0.now, x.1.now)) result (binary_at bytes.now) }
{
    match number_at(bytes, 5) {
        Ok((count, rest)) if count as usize <= rest.len() => Ok(rest.split_at(count as usize)),
        Ok(_) => Err(broken(FooterRule::Length, bytes)),
        Err(fault) => Err(fault),
    }
}

/// A text.
#[tactic(auto, using(crate::proofs::Texts::utf8_is, crate::proofs::Texts::utf8_is_not), unfolding(crate::specs::Wire::text_at))]
pub fn text_at(bytes: &[u8]) -> Result<&str, Fault>
    ensures { Returns (λ x. x.now) result (text_at bytes.now) }
{
    let (text, _) = binary_at(bytes)?;
    str::from_utf8(text).or(Err(broken(FooterRule::Utf8, bytes)))
}

/// The type of an item, by the type in the head of its list or map.
fn item_type(kind: u8) -> u8
    ensures { result ≡ item_type kind }
{
    if kind == 1 || kind == 2 { 3 } else { kind }
}

/// The head of a list or a set: the items' type, how many they are, and the bytes behind it.
#[tactic(auto, unfolding(crate::specs::Wire::list_at))]
pub fn list_at(bytes: &[u8]) -> Result<(u8, u32, &[u8]), Fault>
    ensures { Returns (λ x. (x.0, x.1, x.2.now)) result (list_at bytes.now) }
{
    let Some((head, rest)) = bytes.split_first() else {
        return Err(broken(FooterRule::End, bytes));
    };
    let (count, rest) = if *head < 240 {
        ((*head / 16) as u32, rest)
    } else {
        number_at(rest, 5)?
    };
    if count as usize > rest.len() {
        return Err(broken(FooterRule::Length, bytes));
    }
    Ok((item_type(*head % 16), count, rest))
}

/// The head of a map: the types of its keys and values, how many pairs they are, and the bytes behind it.
#[tactic(auto, unfolding(crate::specs::Wire::map_at))]
pub fn map_at(bytes: &[u8]) -> Result<(u8, u8, u32, &[u8]), Fault>
    ensures { Returns (λ x. (x.0, x.1, x.2, x.3.now)) result (map_at bytes.now) }
{
    let (count, rest) = number_at(bytes, 5)?;
    if count == 0 {
        return Ok((3, 3, 0, rest));
    }
    let Some((types, rest)) = rest.split_first() else {
        return Err(broken(FooterRule::End, rest));
    };
    if count as usize > rest.len() {
        return Err(broken(FooterRule::Length, bytes));
    }
    Ok((item_type(*types / 16), item_type(*types % 16), count, rest))
}

/// The head of a field behind a field of that id: its id, its type, which is 0 at the end of a struct, and the
/// bytes behind it.
#[tactic(auto, unfolding(crate::specs::Wire::field_at))]
#[inline(always)]
pub fn field_at(last: u16, bytes: &[u8]) -> Result<(u16, u8, &[u8]), Fault>
    ensures { Returns (λ x. (x.0, x.1, x.2.now)) result (field_at last bytes.now) }
{
    let Some((head, rest)) = bytes.split_first() else {
        return Err(broken(FooterRule::End, bytes));
    };
    if *head == 0 {
        return Ok((last, 0, rest));
    }
    if *head % 16 == 0 {
        return Err(broken(FooterRule::WireType, bytes));
    }
    let more = *head / 16;
    let (id, behind) = if more == 0 {
        count_at(rest)?
    } else {
        (last as u32 + more as u32, rest)
    };
    if id >= 32768 {
        return Err(broken(FooterRule::FieldId, rest));
    }
    Ok((id as u16, *head % 16, behind))
}
