//! Values that are equal as they are written.
ghost use Rattle.std.specs.Prelude.{◌≡◌, map};
ghost use Rattle.json.specs.Value.{items_view, members_view, value_view};
ghost use Rattle.geoparquet.specs.RepeatedKeys.{are_one, items_are_one, members_are_one, all_one, are_equal, held};

use json::Value;

/// Whether two values are equal: the same texts, numbers as they are written, members in their
/// order. It recurs as deep as the values nest.
#[cycle(same)]
fn are_one(a: &Value<'_>, b: &Value<'_>) -> bool
    ensures { result ≡ are_one (value_view a.now) (value_view b.now) }
{
    match (a, b) {
        (Value::Null, Value::Null) => true,
        (Value::Bool(x), Value::Bool(y)) => *x == *y,
        (Value::Number(x), Value::Number(y)) => *x == *y,
        (Value::String(x), Value::String(y)) => *x == *y,
        (Value::Array(x), Value::Array(y)) => items_are_one(x, y),
        (Value::Object(x), Value::Object(y)) => members_are_one(x, y),
        _ => false,
    }
}

/// Whether the items of two arrays are equal.
#[cycle(same)]
fn items_are_one(a: &Vec<Value<'_>>, b: &Vec<Value<'_>>) -> bool
    ensures { result ≡ items_are_one (items_view a.now.items) (items_view b.now.items) }
{
    let mut others = b.iter();
    for x in a.iter() {
        let Some(y) = others.next() else {
            return false;
        };
        if !are_one(x, y) {
            return false;
        }
    }
    others.next().is_none()
}

/// Whether the members of two objects are equal.
#[cycle(same)]
fn members_are_one(a: &Vec<(&str, Value<'_>)>, b: &Vec<(&str, Value<'_>)>) -> bool
    ensures { result ≡ members_are_one (members_view a.now.items) (members_view b.now.items) }
{
    let mut others = b.iter();
    for x in a.iter() {
        let Some(y) = others.next() else {
            return false;
        };
        if x.0 != y.0 || !are_one(&x.1, &y.1) {
            return false;
        }
    }
    others.next().is_none()
}

/// A value among others.
#[derive(Clone, Copy)]
pub(crate) struct Held<'v, 'a> {
    pub(crate) value: &'v Value<'a>,
}

/// Whether all values are equal to one.
fn all_one(one: &Value<'_>, values: &[Held<'_, '_>]) -> bool
    ensures { result ≡ all_one (value_view one.now) (map held values.now) }
{
    for it in values {
        if !are_one(one, it.value) {
            return false;
        }
    }
    true
}

/// Whether values are all equal.
pub(crate) fn are_equal(values: &[Held<'_, '_>]) -> bool
    ensures { result ≡ are_equal (map held values.now) }
{
    match values {
        [first, rest @ ..] => all_one(first.value, rest),
        [] => true,
    }
}
