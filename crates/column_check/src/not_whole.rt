//! The first number of a CRS that is not whole.
ghost use Rattle.std.specs.Prelude.{◌≡◌, IfOk, option_map, string_bytes};
ghost use Rattle.json.specs.Value.{items_view, members_view, value_view};
ghost use Rattle.crs_identity.specs.Equality.{has_key};
ghost use Rattle.column_check.specs.NotWhole.{is_not_whole, of_number, first_not_whole, first_of_items, first_of_members, place_text, unless_again};
ghost use Rattle.column_check.specs.Said.{said};

use crate::code::WarningCode;
use crate::excerpt::shown;
use crate::place::{item_place, member_place};
use crate::said::warning_in;
use crate::warning::Warning;
use geoarrow_meta::holds_whole_numbers;
use json::Value;
use std::alloc::{AllocError, Global};
use value_tokens::number_of;

/// The place of a value in a CRS.
#[derive(Clone, Copy)]
pub(crate) enum Place<'p> {
    /// That of the CRS itself.
    Crs,
    /// That of the member with that key of what stands at a place.
    Member(&'p Place<'p>, &'p str),
    /// That of the item at that index of what stands at a place.
    Item(&'p Place<'p>, usize),
}

/// Returns a warning of the first number that is not whole in what stands at a place, in the order of
/// the text. It recurs as deep as the value nests. Errs only when out of memory.
#[cycle(search)]
pub(crate) fn first_not_whole(
    alloc: Global,
    place: &Place<'_>,
    value: &Value<'_>,
) -> Result<Option<Warning>, AllocError>
    ensures { IfOk result (λ first. option_map said first ≡ first_not_whole (place_text place.now) (value_view value.now)) }
{
    match value {
        Value::Number(text) => of_number(alloc, place, text),
        Value::Array(items) => first_of_items(alloc, place, items),
        Value::Object(members) => first_of_members(alloc, place, members),
        Value::Null | Value::Bool(_) | Value::String(_) => Ok(None),
    }
}

/// That of the items of an array.
#[cycle(search)]
fn first_of_items(
    alloc: Global,
    place: &Place<'_>,
    items: &Vec<Value<'_>>,
) -> Result<Option<Warning>, AllocError>
    ensures { IfOk result (λ first. option_map said first ≡ first_of_items (place_text place.now) 0 (items_view items.now.items)) }
{
    for (i, item) in items.iter().enumerate() {
        let first = first_not_whole(alloc, &Place::Item(&*place, i), item)?;
        if first.is_some() {
            return Ok(first);
        }
    }
    Ok(None)
}

/// That of the members of an object that are the last of their keys.
#[cycle(search)]
fn first_of_members<'a>(
    alloc: Global,
    place: &Place<'_>,
    members: &Vec<(&'a str, Value<'a>)>,
) -> Result<Option<Warning>, AllocError>
    ensures { IfOk result (λ first. option_map said first ≡ first_of_members (place_text place.now) (members_view members.now.items)) }
{
    let all = members.as_slice();
    for (i, member) in members.iter().enumerate() {
        let first = first_not_whole(alloc, &Place::Member(&*place, member.0), &member.1)?;
        let first = unless_again(first, &all[i + 1..], member.0);
        if first.is_some() {
            return Ok(first);
        }
    }
    Ok(None)
}

/// What is found of a member, unless its key stands again in members behind it.
fn unless_again(first: Option<Warning>, later: &[(&str, Value<'_>)], key: &str) -> Option<Warning>
    ensures { option_map said result ≡ unless_again (has_key key.now (members_view later.now)) (option_map said first) }
{
    let Some(first) = first else {
        return None;
    };
    if has_key(later, key) {
        None
    } else {
        Some(first)
    }
}

/// Whether members have a key.
fn has_key(members: &[(&str, Value<'_>)], key: &str) -> bool
    ensures { result ≡ has_key key.now (members_view members.now) }
{
    for member in members {
        if member.0 == key {
            return true;
        }
    }
    false
}

/// A warning of the number with that text, if it is not whole.
fn of_number(alloc: Global, place: &Place<'_>, text: &str) -> Result<Option<Warning>, AllocError>
    ensures { IfOk result (λ first. option_map said first ≡ of_number (place_text place.now) text.now) }
{
    if !is_not_whole(text) {
        return Ok(None);
    }
    let pointer = place_text(alloc, place)?;
    let found = shown(alloc, text)?;
    let warning = warning_in(alloc, WarningCode::CrsNotWhole, pointer, Some(found));
    Ok(Some(warning))
}

/// Whether the number with that text is not whole.
fn is_not_whole(text: &str) -> bool
    ensures { result ≡ is_not_whole text.now }
{
    match number_of(text) {
        Some(number) => !holds_whole_numbers(&serde_json::Value::Number(number)),
        None => false,
    }
}

/// A place as a pointer.
fn place_text(alloc: Global, place: &Place<'_>) -> Result<String, AllocError>
    ensures { IfOk result (λ text. string_bytes text ≡ place_text place.now) }
{
    match place {
        Place::Crs => String::from_str(alloc, "/crs"),
        Place::Member(above, key) => {
            let above = place_text(alloc, above)?;
            member_place(alloc, above.as_str(), key)
        }
        Place::Item(above, index) => {
            let above = place_text(alloc, above)?;
            item_place(alloc, above.as_str(), *index)
        }
    }
}
