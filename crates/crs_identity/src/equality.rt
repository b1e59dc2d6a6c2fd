//! Equality of JSON values.
ghost use Rattle.std.specs.Prelude.{◌≡◌, IfOk};
ghost use Rattle.json.specs.Value.{items_view, members_view, value_view};
ghost use Rattle.crs_identity.specs.Equality.{equal_items, equal_members, has_key, has_keys, json_equal};

use crate::decimal::are_equal_numbers;
use json::Value;
use std::alloc::{AllocError, Global};

/// Returns whether two JSON values are equal: members in any order, of a repeated key the last
/// value, numbers as decimals of any length, so that `1`, `1.0` and `10e-1` are equal
/// (docs/FORMAT.md, 5.3). It recurs as deep as the values nest, and takes time that grows with the
/// product of the numbers of members of two objects. Errs only when out of memory.
#[cycle(equal)]
pub fn json_equal(alloc: Global, a: &Value<'_>, b: &Value<'_>) -> Result<bool, AllocError>
    ensures { IfOk result (λ answer. answer ≡ json_equal (value_view a.now) (value_view b.now)) }
{
    match (a, b) {
        (Value::Null, Value::Null) => Ok(true),
        (Value::Bool(x), Value::Bool(y)) => Ok(*x == *y),
        (Value::Number(x), Value::Number(y)) => are_equal_numbers(alloc, *x, *y),
        (Value::String(x), Value::String(y)) => Ok(*x == *y),
        (Value::Array(x), Value::Array(y)) => equal_items(alloc, x, y),
        (Value::Object(x), Value::Object(y)) => {
            if !has_keys(y.as_slice(), x.as_slice()) {
                return Ok(false);
            }
            equal_members(alloc, x, b)
        }
        _ => Ok(false),
    }
}

#[cycle(equal)]
fn equal_items(alloc: Global, a: &Vec<Value<'_>>, b: &Vec<Value<'_>>) -> Result<bool, AllocError>
    ensures { IfOk result (λ answer. answer
        ≡ equal_items (items_view a.now.items) (items_view b.now.items)) }
{
    let mut others = b.iter();
    for x in a.iter() {
        let Some(y) = others.next() else {
            return Ok(false);
        };
        if !json_equal(alloc, x, y)? {
            return Ok(false);
        }
    }
    Ok(others.next().is_none())
}

/// Whether each member that is the last of its key has an equal one in an object.
#[cycle(equal)]
fn equal_members(
    alloc: Global,
    a: &Vec<(&str, Value<'_>)>,
    b: &Value<'_>,
) -> Result<bool, AllocError>
    ensures { IfOk result (λ answer. answer
        ≡ equal_members (members_view a.now.items) (value_view b.now)) }
{
    let members = a.as_slice();
    for (i, member) in a.iter().enumerate() {
        if has_key(&members[i + 1..], member.0) {
            continue;
        }
        let Some(other) = b.get(member.0) else {
            return Ok(false);
        };
        if !json_equal(alloc, &member.1, other)? {
            return Ok(false);
        }
    }
    Ok(true)
}

/// Whether members have a key.
fn has_key(members: &[(&str, Value<'_>)], key: &str) -> bool
    ensures { result ≡ has_key key.now (members_view members.now) }
{
    for member in members {
        if member.0 == key {
            return true;
        }
    }
    false
}

/// Whether each key of the first members is one of the others.
fn has_keys(a: &[(&str, Value<'_>)], b: &[(&str, Value<'_>)]) -> bool
    ensures { result ≡ has_keys (members_view a.now) (members_view b.now) }
{
    for member in a {
        if !has_key(b, member.0) {
            return false;
        }
    }
    true
}
