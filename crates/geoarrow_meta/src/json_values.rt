//! Walks over JSON values: whether their numbers are whole, and whether two of them are the same.
ghost use Rattle.std.specs.Prelude.{◌≡◌, not, true, false};
ghost use Rattle.serde_json.specs.Data.{array, object};
ghost use Rattle.serde_json.specs.View.{view, items_view, members_view};
ghost use Rattle.serde_json.specs.Written.{has_float, items_have_float, members_have_float};
ghost use Rattle.geoarrow_meta.specs.Code.{same};
ghost use Rattle.geoarrow_meta.specs.Whole.{is_whole, items_are_whole, members_are_whole};

use serde_json::{Map, Value};

/// Whether each number in a JSON value, at any depth, is one that `serde_json` holds as whole: an integer of 64 bits,
/// written with no fraction and no exponent, other than `-0`. A CRS must hold no other number, to be read into a `Metadata`.
///
/// ```rust
/// assert!(rt; holds_whole_numbers(&Value::Null));
/// ```
#[cycle(whole)]
#[inline(always)]
pub fn holds_whole_numbers(value: &Value) -> bool
    ensures no_float { result ≡ not (has_float (view value.now)) }
    ensures integers { result ≡ is_whole (view value.now) }
{
    match value {
        Value::Null | Value::Bool(_) | Value::String(_) => true,
        Value::Number(number) => number.as_u64().is_some() || number.as_i64().is_some(),
        Value::Array(items) => items_hold_whole(items),
        Value::Object(members) => members_hold_whole(members),
    }
}

#[cycle(whole)]
#[inline(never)]
fn items_hold_whole(items: &Vec<Value>) -> bool
    ensures no_float { result ≡ not (items_have_float (items_view items.now.items)) }
    ensures integers { result ≡ items_are_whole (items_view items.now.items) }
{
    for item in items {
        if !holds_whole_numbers(item) {
            return false;
        }
    }
    true
}

#[cycle(whole)]
#[inline(never)]
fn members_hold_whole(members: &Map<String, Value>) -> bool
    ensures no_float { result ≡ not (members_have_float (members_view members.now.entries)) }
    ensures integers { result ≡ members_are_whole (members_view members.now.entries) }
{
    for (_key, member) in members.iter() {
        if !holds_whole_numbers(member) {
            return false;
        }
    }
    true
}

// Whether two values whose numbers are whole are the same.
#[cycle(same)]
#[tactic(auto, using(arrow_values::specs::Equal::codes, serde_json::specs::declared::value::Value::the_lemmas))]
pub(crate) fn same_value(a: &Value, b: &Value) -> bool
    requires first { has_float (view a.now) ≡ false }
    requires second { has_float (view b.now) ≡ false }
    ensures { result ≡ same (view a.now) (view b.now) }
{
    match (a, b) {
        (Value::Null, Value::Null) => true,
        (Value::Bool(x), Value::Bool(y)) => *x == *y,
        (Value::Number(x), Value::Number(y)) => {
            x.as_u64() == y.as_u64() && x.as_i64() == y.as_i64()
        }
        (Value::String(x), Value::String(y)) => x.as_str() == y.as_str(),
        (Value::Array(x), Value::Array(y)) => same_arrays(x, y),
        (Value::Object(x), Value::Object(y)) => same_objects(x, y),
        _ => false,
    }
}

#[cycle(same)]
fn same_arrays(a: &Vec<Value>, b: &Vec<Value>) -> bool
    requires first { items_have_float (items_view a.now.items) ≡ false }
    requires second { items_have_float (items_view b.now.items) ≡ false }
    ensures { result ≡ same (array (items_view a.now.items)) (array (items_view b.now.items)) }
{
    let mut others = b.iter();
    for x in a.iter() {
        if !matches!(others.next(), Some(y) if same_value(x, y)) {
            return false;
        }
    }
    others.next().is_none()
}

#[cycle(same)]
#[tactic(auto, using(arrow_values::specs::Equal::codes))]
fn same_objects(a: &Map<String, Value>, b: &Map<String, Value>) -> bool
    requires first { members_have_float (members_view a.now.entries) ≡ false }
    requires second { members_have_float (members_view b.now.entries) ≡ false }
    ensures { result ≡ same (object (members_view a.now.entries)) (object (members_view b.now.entries)) }
{
    let mut others = b.iter();
    for (key, x) in a.iter() {
        if !matches!(others.next(), Some((name, y)) if key == name && same_value(x, y)) {
            return false;
        }
    }
    others.next().is_none()
}
