//! A JSON value, printed. It holds no float: the text of one is the writer's to choose, and no token that is known.
ghost use Rattle.std.specs.Prelude.{◌≡◌, false, OnOk};
ghost use Rattle.serde_json.specs.Data.{number as number_data};
ghost use Rattle.serde_json.specs.Find.{is_float};
ghost use Rattle.serde_json.specs.View.{view, number_view, items_view, members_view};
ghost use Rattle.serde_json.specs.Written.{has_float, items_have_float, members_have_float};
ghost use Rattle.value_tokens.specs.Adds.{Prints, PrintsItems, PrintsMembers};

use json::Writer;
use serde_json::{Map, Number, Value};
use std::alloc::AllocError;

/// Prints a value that holds no float. Errs only when out of memory, and then a front part may be printed.
#[cycle(print)]
pub fn print_value(value: &Value, out: &mut Writer) -> Result<(), AllocError>
    requires { has_float (view value.now) ≡ false }
    ensures { OnOk result (Prints (view value.now) out.old out.new) }
{
    match value {
        Value::Null => out.null(),
        Value::Bool(b) => out.boolean(*b),
        Value::Number(number) => print_number(number, out),
        Value::String(text) => out.string(text.as_str()),
        Value::Array(items) => {
            out.begin_array()?;
            print_items(items, out)
        }
        Value::Object(members) => {
            out.begin_object()?;
            print_members(members, out)
        }
    }
}

/// Prints a number that is no float.
fn print_number(number: &Number, out: &mut Writer) -> Result<(), AllocError>
    requires { is_float (number_view number.now) ≡ false }
    ensures { OnOk result (Prints (number_data (number_view number.now)) out.old out.new) }
{
    if let Some(n) = number.as_u64() {
        return out.u64(n);
    }
    if let Some(n) = number.as_i64() {
        return out.i64(n);
    }
    Ok(())
}

/// Prints the items of an array, and the bracket after them.
#[cycle(print)]
fn print_items(items: &Vec<Value>, out: &mut Writer) -> Result<(), AllocError>
    requires { items_have_float (items_view items.now.items) ≡ false }
    ensures { OnOk result (PrintsItems (items_view items.now.items) out.old out.new) }
{
    for item in items {
        print_value(item, out)?;
    }
    out.end_array()
}

/// Prints the members of an object, and the bracket after them.
#[cycle(print)]
fn print_members(members: &Map<String, Value>, out: &mut Writer) -> Result<(), AllocError>
    requires { members_have_float (members_view members.now.entries) ≡ false }
    ensures { OnOk result (PrintsMembers (members_view members.now.entries) out.old out.new) }
{
    for (key, member) in members.iter() {
        out.key(key.as_str())?;
        print_value(member, out)?;
    }
    out.end_object()
}
