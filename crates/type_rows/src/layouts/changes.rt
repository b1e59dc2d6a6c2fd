//! Commands that leave out members of unions and join unions.
use crate::layouts::read::say_part;
use crate::layouts::unions::{ids, members};
use arrow_values::{AppendFault, DataType, Field, UnionFields, UnionMode};
use geoarrow_layout::{alike, append_members, keep_members, parse_geometry};
use rows::asked::Asked;
use rows::notation::data_type;
use rows::said::Said;
use rows::texts::halves;
use std::mem::ManuallyDrop;

/// The field of the member of that id.
fn member(members: &UnionFields, id: i8) -> Option<&Field> {
    for (found, field) in members.iter() {
        if found == id {
            return Some(field);
        }
    }
    None
}

/// Whether each member is one of the first or the second union as it was.
fn are_among(members: &UnionFields, first: &UnionFields, second: &UnionFields) -> bool {
    for (id, field) in members.iter() {
        if member(first, id) != Some(field) && member(second, id) != Some(field) {
            return false;
        }
    }
    true
}

/// Says the type ids of members, in order.
fn say_ids(said: &mut Said, members: &UnionFields) {
    for (id, _) in members.iter() {
        said.shown(&id);
        said.push(" ");
    }
}

/// The union of those members.
fn union_of(members: ManuallyDrop<UnionFields>) -> ManuallyDrop<DataType> {
    let members = ManuallyDrop::into_inner(members);
    ManuallyDrop::new(DataType::Union(members, UnionMode::Dense))
}

/// Says the ids of a changed union, and how it is read as one of geometries; says otherwise where a member is none of the
/// two unions that it came from.
fn say_changed(
    said: &mut Said,
    members: ManuallyDrop<UnionFields>,
    first: &UnionFields,
    second: &UnionFields,
) {
    if !are_among(&members, first, second) {
        said.push("another member, ");
    }
    say_ids(said, &members);
    say_part(said, &parse_geometry(&union_of(members)));
}

/// Keeps the members of these ids, by the call that speaks of layouts or by the other.
pub fn kept(it: &mut Asked<'_>) {
    let (wanted, text) = halves(&mut it.said, it.text);
    let wanted = ids(&mut it.said, wanted);
    let whole = members(&mut it.said, text);
    let mut union = members(&mut it.said, text);
    it.before();
    if it.command == "keep_members" {
        keep_members(&mut union, wanted.as_slice());
    } else {
        union.retain_ids(wanted.as_slice());
    }
    it.after();
    say_changed(&mut it.said, union, &whole, &whole);
}

/// Puts the members of the second union after those of the first, by the call that speaks of layouts or by the other. A
/// fault is said otherwise where one of the two is not as it was.
pub fn joined(it: &mut Asked<'_>) {
    let (text, other_text) = halves(&mut it.said, it.text);
    let first = members(&mut it.said, text);
    let second = members(&mut it.said, other_text);
    let mut union = members(&mut it.said, text);
    let other = ManuallyDrop::into_inner(members(&mut it.said, other_text));
    it.before();
    let joined = ManuallyDrop::new(if it.command == "append_members" {
        append_members(&mut union, other)
    } else {
        union.append(other)
    });
    it.after();
    match &*joined {
        Ok(()) => say_changed(&mut it.said, union, &first, &second),
        Err((other, fault)) => {
            let is_unchanged = *union == *first && *other == *second;
            say_refused(&mut it.said, *fault, is_unchanged);
        }
    }
}

/// Says a refusal to join, and whether both unions are as they were. Out of memory is no answer where they are.
fn say_refused(said: &mut Said, fault: AppendFault, unchanged: bool) {
    match (fault, unchanged) {
        (AppendFault::OutOfMemory, true) => said.fail(),
        (fault, _) => said.name(&fault),
    }
    if !unchanged {
        said.push(", and a union is changed");
    }
}

/// The union of a text with the members of these ids alone.
fn part(said: &mut Said, wanted: &str, text: &str) -> ManuallyDrop<UnionFields> {
    let mut union = members(said, text);
    keep_members(&mut union, ids(said, wanted).as_slice());
    union
}

/// Keeps the members of the first ids in a union and those of the second in a clone, joins the two, and says whether that
/// is alike to the union as it was.
pub fn parted(it: &mut Asked<'_>) {
    let (wanted, rest) = halves(&mut it.said, it.text);
    let (others, text) = halves(&mut it.said, rest);
    let other = ManuallyDrop::into_inner(part(&mut it.said, others, text));
    let mut union = part(&mut it.said, wanted, text);
    let was = data_type(&mut it.said, text);
    if append_members(&mut union, other).is_err() {
        return it.said.push("refused");
    }
    say_ids(&mut it.said, &union);
    it.said.push(if alike(&union_of(union), &was) {
        "alike"
    } else {
        "not alike"
    });
}
