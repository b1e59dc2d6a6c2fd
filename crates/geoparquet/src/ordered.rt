//! The members of an object in the ascending order of their keys.
ghost use Rattle.std.specs.Prelude.{◌≡◌, IfOk, option_map, option_and_then};
ghost use Rattle.json.specs.Find.{as_object};
ghost use Rattle.json.specs.Value.{value_view, members_view};
ghost use Rattle.geoparquet.specs.Ordered.{ordered_members, members_in, members_entries, are_some, has_member};

use json::Value;
use std::alloc::{AllocError, Global};
use std::collections::BTreeMap;

/// The members of an object by their keys, of a key its last value.
pub(crate) type ByKey<'v, 'a> = BTreeMap<&'v str, &'v Value<'a>>;

/// Returns the members of a value that is an object, and none of any other. Errs only when out of
/// memory.
pub(crate) fn members_in<'v, 'a>(
    alloc: Global,
    value: Option<&'v Value<'a>>,
) -> Result<ByKey<'v, 'a>, AllocError>
    ensures { IfOk result (λ members. members_entries members.entries
        ≡ members_in (option_and_then as_object (option_map (λ v. value_view v.now) value.entry))) }
{
    let Some(value) = value else {
        return Ok(BTreeMap::new(alloc));
    };
    match value {
        Value::Object(members) => ordered_members(alloc, members.as_slice()),
        _ => Ok(BTreeMap::new(alloc)),
    }
}

/// Returns members by their keys. Errs only when out of memory.
pub(crate) fn ordered_members<'v, 'a>(
    alloc: Global,
    members: &'v [(&'a str, Value<'a>)],
) -> Result<ByKey<'v, 'a>, AllocError>
    ensures { IfOk result (λ made. members_entries made.entries ≡ ordered_members (members_view members.now)) }
{
    let mut made = BTreeMap::new(alloc);
    for member in members {
        let _ = made.insert(member.0, &member.1)?;
    }
    Ok(made)
}

/// Whether there is a member with that key.
pub(crate) fn has_member(name: &str, members: &ByKey<'_, '_>) -> bool
    ensures { result ≡ has_member name.now (members_entries members.now.entries) }
{
    members.contains_key(name)
}

/// Whether there are members.
pub(crate) fn are_some(members: &ByKey<'_, '_>) -> bool
    ensures { result ≡ are_some (members_entries members.now.entries) }
{
    !members.is_empty()
}
