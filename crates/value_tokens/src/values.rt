//! A value taken whole, in memory of its own.
ghost use Rattle.std.specs.Prelude.{◌≡◌, ◌<◌, length, Some, None, Err, IfOk, OnOk};
ghost use Rattle.serde_json.specs.Data.{no_members, put};
ghost use Rattle.serde_json.specs.View.{view, items_view, members_view};
ghost use Rattle.value_tokens.specs.Next.{next_value, next_items, next_members};

use crate::numbers::number_of;
use crate::refusal::Refusal;
use json::{Reader, Token};
use serde_json::{Map, Value};
use std::alloc::{AllocError, Global};

/// Takes a value, and returns it.
#[cycle(read)]
#[tactic(auto, using(crate::proofs::Firsts::first_values))]
#[inline(always)]
pub fn read_value(alloc: Global, reader: &mut Reader<'_>, depth: usize) -> Result<Value, Refusal>
    ensures ok { IfOk result (λ v. next_value depth reader.old ≡ Some (view v, reader.new)) }
    ensures shorter { OnOk result (length reader.new < length reader.old) }
    ensures text { result ≡ Err Refusal.Text → next_value depth reader.old ≡ None }
{
    let token = reader.next().ok_or(Refusal::Text)?;
    match token {
        Token::String(text) => Ok(Value::String(String::from_str(alloc, text)?)),
        Token::Number(text) => match number_of(text) {
            Some(number) => Ok(Value::Number(number)),
            None => Err(Refusal::Text),
        },
        Token::Bool(truth) => Ok(Value::Bool(truth)),
        Token::Null => Ok(Value::Null),
        Token::BeginArray | Token::BeginObject if depth == 0 => Err(Refusal::Text),
        Token::BeginArray => Ok(Value::Array(read_items(alloc, reader, depth - 1)?)),
        Token::BeginObject => Ok(Value::Object(read_members(alloc, reader, depth - 1)?)),
        Token::EndObject | Token::EndArray | Token::Key(_) | Token::Bad => Err(Refusal::Text),
    }
}

/// The items that are left of an array.
#[cycle(read)]
#[tactic(auto, using(crate::proofs::Loops::reading))]
#[inline(never)]
fn read_items(alloc: Global, reader: &mut Reader<'_>, depth: usize) -> Result<Vec<Value>, Refusal>
    ensures ok { IfOk result (λ v. next_items depth reader.old ≡ Some (items_view v.items, reader.new)) }
    ensures shorter { OnOk result (length reader.new < length reader.old) }
    ensures text { result ≡ Err Refusal.Text → next_items depth reader.old ≡ None }
{
    let mut found = Vec::new(alloc);
    'items: while !reader.take_end_array() {
        let item = read_value(alloc, reader, depth)?;
        found.push(item)?;
    }
    Ok(found)
}

/// The members that are left of an object. The last value of a key counts.
#[cycle(read)]
#[tactic(auto, using(crate::proofs::Loops::reading))]
#[inline(never)]
fn read_members(
    alloc: Global,
    reader: &mut Reader<'_>,
    depth: usize,
) -> Result<Map<String, Value>, Refusal>
    ensures ok { IfOk result (λ m. next_members depth no_members reader.old ≡ Some (members_view m.entries, reader.new)) }
    ensures shorter { OnOk result (length reader.new < length reader.old) }
    ensures text { result ≡ Err Refusal.Text → next_members depth no_members reader.old ≡ None }
{
    let mut found = Map::new(alloc);
    'members: while let Some(name) = reader.next_key()? {
        let member = read_value(alloc, reader, depth)?;
        put_member(&mut found, alloc, name, member)?;
    }
    Ok(found)
}

/// Puts a member into those of an object, in place of an earlier one of that key. Errs only when out of memory. It is not
/// inlined, since an object may nest deep and this would take room on the stack at each level.
#[inline(never)]
pub fn put_member(
    found: &mut Map<String, Value>,
    alloc: Global,
    name: &str,
    member: Value,
) -> Result<(), AllocError>
    ensures { OnOk result (members_view found.new.entries ≡ put name.now (view member) (members_view found.old.entries)) }
{
    serde_json::put(found, alloc, name, member)
}
