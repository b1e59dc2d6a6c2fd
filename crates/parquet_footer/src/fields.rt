//! The fields of a struct that are read, by their ids.
ghost use Rattle.std.specs.Prelude.{◌≡◌, option_map};
ghost use Rattle.parquet_footer.specs.Fault.{Returns};
ghost use Rattle.parquet_footer.specs.Fields.{spot, spots, noted, pair_at, number_in, count_in, numbers_at, text_in, flag_in, structs_in};

use crate::fault::{Fault, FooterRule, broken};
use crate::skip::{LEVELS, value_past};
use crate::wire::{count_at, field_at, list_at, signed_at, text_at};

/// The type of a value, and the bytes that it begins.
#[derive(Clone, Copy)]
pub struct Place<'a> {
    /// The type, as the compact protocol numbers it.
    pub kind: u8,
    /// The bytes from the value on.
    pub bytes: &'a [u8],
}

/// The value of a field, where the struct has it.
pub type Found<'a> = Option<Place<'a>>;

/// Notes the value of a field if it is the one that is looked for, which stands once.
fn noted<'a>(wanted: u16, id: u16, value: Place<'a>, found: Found<'a>) -> Result<Found<'a>, Fault>
    ensures { Returns spots result (noted wanted id (spot value.entry) (spots found.entry)) }
{
    match found {
        _ if id != wanted => Ok(found),
        None => Ok(Some(value)),
        Some(_) => Err(broken(FooterRule::Repeated, value.bytes)),
    }
}

/// Two fields of a struct, by their ids, and the bytes behind the struct.
pub fn pair_at(bytes: &[u8], one: u16, other: u16) -> Result<(Found<'_>, Found<'_>, &[u8]), Fault>
    ensures { Returns (λ x. ((spots x.0, spots x.1), x.2.now)) result (pair_at one other bytes.now) }
{
    let mut rest = bytes;
    let mut last = 0;
    let mut first = None;
    let mut second = None;
    'fields: for i in 0..bytes.len() {
        let (id, kind, value) = field_at(last, rest)?;
        if kind == 0 {
            return Ok((first, second, value));
        }
        let place = Place { kind, bytes: value };
        rest = value_past(kind, value, LEVELS)?;
        first = noted(one, id, place, first)?;
        second = noted(other, id, place, second)?;
        last = id;
    }
    Err(broken(FooterRule::End, rest))
}

/// The number in a field, where it is there.
pub fn number_in(place: Found<'_>) -> Result<Option<i32>, Fault>
    ensures { result ≡ number_in (spots place.entry) }
{
    match place {
        None => Ok(None),
        Some(Place { kind: 5, bytes }) => Ok(Some(signed_at(bytes)?.0)),
        Some(place) => Err(broken(FooterRule::WireType, place.bytes)),
    }
}

/// The number in a field that is not negative, where it is there.
pub fn count_in(place: Found<'_>) -> Result<Option<u32>, Fault>
    ensures { result ≡ count_in (spots place.entry) }
{
    match place {
        None => Ok(None),
        Some(Place { kind: 5, bytes }) => Ok(Some(count_at(bytes)?.0)),
        Some(place) => Err(broken(FooterRule::WireType, place.bytes)),
    }
}

/// The numbers in two fields of a struct, by their ids, where they are there.
#[tactic(auto, unfolding(crate::specs::Fields::numbers_at))]
pub fn numbers_at(bytes: &[u8], one: u16, other: u16) -> Result<(Option<i32>, Option<i32>), Fault>
    ensures { result ≡ numbers_at one other bytes.now }
{
    let (first, second, _) = pair_at(bytes, one, other)?;
    Ok((number_in(first)?, number_in(second)?))
}

/// The text in a field, where it is there.
#[tactic(auto, unfolding(crate::specs::Fields::text_in))]
pub fn text_in(place: Found<'_>) -> Result<Option<&str>, Fault>
    ensures { Returns (option_map (λ s. s.now)) result (text_in (spots place.entry)) }
{
    match place {
        None => Ok(None),
        Some(Place { kind: 8, bytes }) => text_at(bytes).map(Some),
        Some(place) => Err(broken(FooterRule::WireType, place.bytes)),
    }
}

/// The truth value in a field of a struct, whose bytes these are.
pub fn flag_in(bytes: &[u8], place: Found<'_>) -> Result<bool, Fault>
    ensures { result ≡ flag_in bytes.now (spots place.entry) }
{
    match place {
        None => Err(broken(FooterRule::Missing, bytes)),
        Some(Place { kind: 1, .. }) => Ok(true),
        Some(Place { kind: 2, .. }) => Ok(false),
        Some(place) => Err(broken(FooterRule::WireType, place.bytes)),
    }
}

/// How many structs a list has, which is none where it is missing, and their bytes.
#[tactic(auto, unfolding(crate::specs::Fields::structs_in))]
pub fn structs_in(place: Found<'_>) -> Result<(u32, &[u8]), Fault>
    ensures { Returns (λ x. (x.0, x.1.now)) result (structs_in (spots place.entry)) }
{
    match place {
        None => Ok((0, &[])),
        Some(Place { kind: 9, bytes }) => match list_at(bytes) {
            Ok((kind, count, rest)) if kind == 12 || count == 0 => Ok((count, rest)),
            Ok(_) => Err(broken(FooterRule::WireType, bytes)),
            Err(fault) => Err(fault),
        },
        Some(place) => Err(broken(FooterRule::WireType, place.bytes)),
    }
}
