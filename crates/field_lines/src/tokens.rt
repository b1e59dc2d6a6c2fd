//! From the tokens of a text to the field that they denote, with no JSON value between.
//!
//! Each reader takes one value whole. It answers none where the value is JSON and denotes nothing, so that a later
//! member of the same key may still count.
ghost use Rattle.std.specs.Prelude.{◌≡◌, ◌⊎◌, codes, None, Err, IfOk, IfSome, IsTrue};
ghost use Rattle.std.specs.Option.{option_map, option_and_then};
ghost use Rattle.std.specs.List.{zip};
ghost use Rattle.serde_json.specs.Data.{Members, no_members, object, array};
ghost use Rattle.arrow_values.specs.Tree.{Text};
ghost use Rattle.arrow_values.specs.View.{tree, field_trees, member_trees};
ghost use Rattle.arrow_values.specs.Union.{is_type_id};
ghost use Rattle.field_lines.specs.FieldOfValue.{field_of_value, type_of_value, fields_of_value, fields_in, members_of_value, members_in};
ghost use Rattle.field_lines.specs.Steps.{AreMemberParts, IsNeither, types_of_value, types_of_members, parts_in, parts_tree, keyed_at, pair_read};
ghost use Rattle.value_tokens.specs.Next.{next_value, next_items, next_members, next_after, after, ReadsValue, ReadsItems, ReadsMembers, ReadsAfter};

use crate::metadata::take_texts;
use crate::names::plain_named;
use crate::notation::{differ, skip_after, take_notation};
use crate::parts::{Parts, field_of};
use crate::scalars::{take_id, take_mode, take_size};
use crate::unions::make_union;
use arrow_values::{DataType, Field, Fields};
use json::{Reader, Token};
use std::alloc::Global;
use std::collections::BTreeMap;
use value_tokens::{
    Refusal, open_array, open_object, read_bool, read_str, skip_items, skip_rest, skip_value,
};

/// What a reader took: what the value denotes, or none; or why no value was taken.
pub(crate) type Taken<T> = Result<Option<T>, Refusal>;

/// The field that comes next.
#[cycle(take)]
#[inline]
pub(crate) fn take_field(alloc: Global, reader: &mut Reader<'_>, depth: usize) -> Taken<Field>
    ensures ok { IfOk result (λ o. ReadsValue field_of_value depth reader.old o reader.new) }
    ensures text { result ≡ Err Refusal.Text → next_value depth reader.old ≡ None }
{
    match open_object(reader, depth)? {
        Some(below) => take_members_of_field(alloc, reader, below),
        None => Ok(None),
    }
}

/// The field that comes next, in a box.
#[cycle(take)]
#[inline(always)]
fn take_boxed(alloc: Global, reader: &mut Reader<'_>, depth: usize) -> Taken<Box<Field>>
    ensures ok { IfOk result (λ o. ReadsValue field_of_value depth reader.old (option_map (λ b. b.value) o) reader.new) }
    ensures text { result ≡ Err Refusal.Text → next_value depth reader.old ≡ None }
{
    match take_field(alloc, reader, depth)? {
        Some(field) => Ok(Some(Box::new(alloc, field)?)),
        None => Ok(None),
    }
}

/// The field of the members that are left of an object.
#[cycle(take)]
#[inline(never)]
fn take_members_of_field(alloc: Global, reader: &mut Reader<'_>, depth: usize) -> Taken<Field>
    ensures ok { IfOk result (λ o. ReadsMembers (λ ms. field_of_value (object ms)) depth no_members reader.old o reader.new) }
    ensures text { result ≡ Err Refusal.Text → next_members depth no_members reader.old ≡ None }
{
    let parts = take_parts(alloc, reader, depth)?;
    Ok(field_of(alloc, parts)?)
}

/// The parts that the members which are left of an object say.
#[cycle(take)]
#[inline(always)]
#[tactic(auto, using(crate::proofs::TokenMembers::member_turn))]
pub(crate) fn take_parts<'a>(
    alloc: Global,
    reader: &mut Reader<'a>,
    depth: usize,
) -> Result<Parts<'a>, Refusal>
    ensures ok { IfOk result (λ p. ReadsMembers parts_in depth no_members reader.old (parts_tree p) reader.new) }
    ensures text { result ≡ Err Refusal.Text → next_members depth no_members reader.old ≡ None }
{
    let mut name = None;
    let mut nullable = None;
    let mut types = (None, None);
    let mut metadata = Some(BTreeMap::new(alloc));
    'parts: while let Some(key) = reader.next_key()? {
        match key {
            "name" => name = read_str(reader, depth)?,
            "nullable" => nullable = read_bool(reader, depth)?,
            "type" => {
                drop(types);
                types = take_type(alloc, reader, depth)?;
            }
            "metadata" => metadata = take_texts(alloc, reader, depth)?,
            _ => skip_value(reader, depth)?,
        }
    }
    Ok(Parts {
        name,
        nullable,
        data_type: types.0,
        notation: types.1,
        metadata,
    })
}

/// The type that comes next, or the notation of another type.
#[cycle(take)]
#[tactic(auto, using(crate::proofs::TokenMembers::type_begins))]
#[inline]
fn take_type<'a>(
    alloc: Global,
    reader: &mut Reader<'a>,
    depth: usize,
) -> Result<(Option<DataType>, Option<&'a str>), Refusal>
    ensures ok { IfOk result (λ p. ReadsValue types_of_value depth reader.old (option_map tree p.0, option_map (λ n. n.now) p.1) reader.new) }
    ensures text { result ≡ Err Refusal.Text → next_value depth reader.old ≡ None }
{
    let token = reader.next().ok_or(Refusal::Text)?;
    match token {
        Token::String(word) => Ok((plain_named(word), None)),
        Token::BeginObject if depth == 0 => Err(Refusal::Text),
        Token::BeginObject => take_types(alloc, reader, depth - 1),
        other => {
            skip_rest(other, reader, depth)?;
            Ok((None, None))
        }
    }
}

/// The type of the members of an object, all of which are left, or the notation of another type. The first key says which.
#[cycle(take)]
#[inline(always)]
#[tactic(auto, using(crate::proofs::TokenMembers::member_turn))]
fn take_types<'a>(
    alloc: Global,
    reader: &mut Reader<'a>,
    depth: usize,
) -> Result<(Option<DataType>, Option<&'a str>), Refusal>
    ensures ok { IfOk result (λ p. ReadsMembers types_of_members depth no_members reader.old (option_map tree p.0, option_map (λ n. n.now) p.1) reader.new) }
    ensures text { result ≡ Err Refusal.Text → next_members depth no_members reader.old ≡ None }
{
    let Some(key) = reader.next_key()? else {
        return Ok((None, None));
    };
    match key {
        "other" => Ok((None, take_notation(reader, depth)?)),
        _ => Ok((take_keys(alloc, reader, depth, key)?, None)),
    }
}

/// The type of an object, whose first key is taken, and says which.
#[cycle(take)]
fn take_keys<'a>(
    alloc: Global,
    reader: &mut Reader<'a>,
    depth: usize,
    first: &'a str,
) -> Taken<DataType>
    ensures ok { IfOk result (λ o. ReadsAfter (λ ms. type_of_value (object ms)) depth no_members first.now reader.old (option_map tree o) reader.new) }
    ensures text { result ≡ Err Refusal.Text → next_after depth no_members first.now reader.old ≡ None }
{
    match first {
        "fixed_size_list" | "size" => take_fixed_size_list(alloc, reader, depth, first),
        "mode" | "union" => take_union(alloc, reader, depth, first),
        _ => take_only(alloc, reader, depth, first),
    }
}

/// The type of an object with one key, which is taken.
#[cycle(take)]
#[tactic(auto, using(crate::proofs::TokenMembers::member_turn))]
fn take_only(alloc: Global, reader: &mut Reader<'_>, depth: usize, only: &str) -> Taken<DataType>
    requires { IsNeither (codes "fixed_size_list") (codes "size") only.now × IsNeither (codes "mode") (codes "union") only.now }
    ensures ok { IfOk result (λ o. ReadsAfter (λ ms. type_of_value (object ms)) depth no_members only.now reader.old (option_map tree o) reader.new) }
    ensures text { result ≡ Err Refusal.Text → next_after depth no_members only.now reader.old ≡ None }
{
    let mut data_type = take_keyed(alloc, reader, depth, only)?;
    'only: while let Some(key) = reader.next_key()? {
        drop(data_type);
        if differ(key, only) {
            return take_no_type(reader, depth);
        }
        data_type = take_keyed(alloc, reader, depth, only)?;
    }
    Ok(data_type)
}

/// Passes over the value that is next and the members after it, and returns no type: the key of that value does not go
/// with the other keys of the object.
#[cold]
#[inline(never)]
fn take_no_type(reader: &mut Reader<'_>, depth: usize) -> Taken<DataType>
    ensures ok { IfOk result (λ o. (o ≡ None) × ((found : Members) (key : Text) → after (next_after depth found key reader.old) ≡ Some reader.new)) }
    ensures text { result ≡ Err Refusal.Text → (found : Members) (key : Text) → next_after depth found key reader.old ≡ None }
{
    skip_after(reader, depth)?;
    Ok(None)
}

/// The type that the value at the one key of an object says.
#[cycle(take)]
#[inline(always)]
#[tactic(auto, using(crate::proofs::TokenMembers::not_keyed))]
fn take_keyed(alloc: Global, reader: &mut Reader<'_>, depth: usize, key: &str) -> Taken<DataType>
    ensures ok { IfOk result (λ o. ReadsValue (keyed_at key.now) depth reader.old (option_map tree o) reader.new) }
    ensures text { result ≡ Err Refusal.Text → next_value depth reader.old ≡ None }
{
    match key {
        "list" => Ok(take_boxed(alloc, reader, depth)?.map(DataType::List)),
        "large_list" => Ok(take_boxed(alloc, reader, depth)?.map(DataType::LargeList)),
        "struct" => match take_fields(alloc, reader, depth)? {
            Some(fields) => Ok(Some(DataType::Struct(Fields::from(fields)))),
            None => Ok(None),
        },
        _ => {
            skip_value(reader, depth)?;
            Ok(None)
        }
    }
}

/// The fixed size list of an object, whose first key is taken.
#[cycle(take)]
#[tactic(auto, using(crate::proofs::TokenMembers::member_turn))]
fn take_fixed_size_list<'a>(
    alloc: Global,
    reader: &mut Reader<'a>,
    depth: usize,
    first: &'a str,
) -> Taken<DataType>
    requires { (first.now ≡ codes "fixed_size_list") ⊎ (first.now ≡ codes "size") }
    ensures ok { IfOk result (λ o. ReadsAfter (λ ms. type_of_value (object ms)) depth no_members first.now reader.old (option_map tree o) reader.new) }
    ensures text { result ≡ Err Refusal.Text → next_after depth no_members first.now reader.old ≡ None }
{
    let mut field = None;
    let mut size = None;
    let mut next = Some(first);
    'keys: while let Some(key) = next {
        match key {
            "fixed_size_list" => {
                drop(field);
                field = take_boxed(alloc, reader, depth)?;
                next = reader.next_key()?;
            }
            "size" => {
                size = take_size(reader, depth)?;
                next = reader.next_key()?;
            }
            _ => return take_no_type(reader, depth),
        }
    }
    match (field, size) {
        (Some(field), Some(size)) => Ok(Some(DataType::FixedSizeList(field, size))),
        _ => Ok(None),
    }
}

/// The union of an object, whose first key is taken.
#[cycle(take)]
#[tactic(auto, using(crate::proofs::TokenMembers::member_turn))]
fn take_union<'a>(
    alloc: Global,
    reader: &mut Reader<'a>,
    depth: usize,
    first: &'a str,
) -> Taken<DataType>
    requires { (first.now ≡ codes "mode") ⊎ (first.now ≡ codes "union") }
    ensures ok { IfOk result (λ o. ReadsAfter (λ ms. type_of_value (object ms)) depth no_members first.now reader.old (option_map tree o) reader.new) }
    ensures text { result ≡ Err Refusal.Text → next_after depth no_members first.now reader.old ≡ None }
{
    let mut mode = None;
    let mut members = None;
    let mut next = Some(first);
    'keys: while let Some(key) = next {
        match key {
            "mode" => {
                mode = take_mode(reader, depth)?;
                next = reader.next_key()?;
            }
            "union" => {
                drop(members);
                members = take_members(alloc, reader, depth)?;
                next = reader.next_key()?;
            }
            _ => return take_no_type(reader, depth),
        }
    }
    match (mode, members) {
        (Some(mode), Some((ids, fields))) => make_union(alloc, mode, ids, fields),
        _ => Ok(None),
    }
}

/// The list of fields that comes next.
#[cycle(take)]
#[tactic(auto, using(crate::proofs::TokenItems::taking_items))]
#[inline(always)]
fn take_fields(alloc: Global, reader: &mut Reader<'_>, depth: usize) -> Taken<Vec<Field>>
    ensures ok { IfOk result (λ o. ReadsValue fields_of_value depth reader.old (option_map (λ v. field_trees v.items) o) reader.new) }
    ensures text { result ≡ Err Refusal.Text → next_value depth reader.old ≡ None }
{
    let Some(below) = open_array(reader, depth)? else {
        return Ok(None);
    };
    let mut fields = Vec::new(alloc);
    'items: while !reader.take_end_array() {
        match take_field(alloc, reader, below)? {
            Some(field) => fields.push(field)?,
            None => {
                drop(fields);
                skip_items(reader, below)?;
                return Ok(None);
            }
        }
    }
    Ok(Some(fields))
}

/// The list of pairs of id and field that comes next, as ids and fields.
#[cycle(take)]
#[tactic(auto, using(crate::proofs::TokenItems::taking_items))]
fn take_members(
    alloc: Global,
    reader: &mut Reader<'_>,
    depth: usize,
) -> Taken<(Vec<i8>, Vec<Field>)>
    ensures ok { IfOk result (λ o. ReadsValue members_of_value depth reader.old (option_map (λ p. member_trees (zip p.0.items p.1.items)) o) reader.new) }
    ensures parts { IfOk result (λ o. IfSome o (λ p. AreMemberParts p.0.items p.1.items)) }
    ensures text { result ≡ Err Refusal.Text → next_value depth reader.old ≡ None }
{
    let Some(below) = open_array(reader, depth)? else {
        return Ok(None);
    };
    let mut ids = Vec::new(alloc);
    let mut fields = Vec::new(alloc);
    'pairs: while !reader.take_end_array() {
        match take_pair(alloc, reader, below)? {
            Some((id, field)) => {
                fields.push(field)?;
                ids.push(id)?;
            }
            None => {
                drop(ids);
                drop(fields);
                skip_items(reader, below)?;
                return Ok(None);
            }
        }
    }
    Ok(Some((ids, fields)))
}

/// The pair of id and field that comes next.
#[cycle(take)]
#[tactic(auto, using(crate::proofs::TokenItems::item_turn))]
fn take_pair(alloc: Global, reader: &mut Reader<'_>, depth: usize) -> Taken<(i8, Field)>
    ensures ok { IfOk result (λ o. ReadsValue pair_read depth reader.old o reader.new) }
    ensures id { IfOk result (λ o. IfSome o (λ p. IsTrue (is_type_id p.0))) }
    ensures text { result ≡ Err Refusal.Text → next_value depth reader.old ≡ None }
{
    let Some(below) = open_array(reader, depth)? else {
        return Ok(None);
    };
    if reader.take_end_array() {
        return Ok(None);
    }
    let id = take_id(reader, below)?;
    if reader.take_end_array() {
        return Ok(None);
    }
    let field = take_field(alloc, reader, below)?;
    if !reader.take_end_array() {
        drop(field);
        skip_value(reader, below)?;
        skip_items(reader, below)?;
        return Ok(None);
    }
    Ok(pair_of(id, field))
}

/// The pair of these, where both are there.
#[inline(always)]
fn pair_of(id: Option<i8>, field: Option<Field>) -> Option<(i8, Field)>
    ensures pair { result ≡ option_and_then (λ i. option_map (λ f. (i, f)) field) id }
    ensures id { IfSome result (λ p. id ≡ Some p.0) }
{
    Some((id?, field?))
}
