//! Keys of extension metadata that are those of the format but for their letters, and edges that are
//! planar by name.
ghost use Rattle.std.specs.Prelude.{◌≡◌, ◌++◌, map, Some, IfOk, OnOk};
ghost use Rattle.json.specs.Value.{members_view, value_view};
ghost use Rattle.serde_json.specs.Data.{Data};
ghost use Rattle.serde_json.specs.Read.{of_json};
ghost use Rattle.arrow_values.specs.Texts.{text_of};
ghost use Rattle.value_tokens.specs.Values.{IsReadable};
ghost use Rattle.column_check.specs.KeyWarnings.{is_key, is_other_case, key_spot, key_spots, spots_in, edges_warnings, key_warnings};
ghost use Rattle.column_check.specs.Said.{said, at_each};
ghost use Rattle.column_check.specs.Walk.{telling, tell_all};
ghost use Rattle.column_check.specs.declared.code.WarningCode.TheVariants.{MetadataKeyCase};

use crate::code::WarningCode;
use crate::metadata::are_planar;
use crate::said::{push_shown, value_in, warning_in};
use crate::warning::Warning;
use crate::way::{Rest, finish, tell};
use json::{Scratch, Value};
use std::alloc::{AllocError, Global};

/// Adds a warning of each key of a metadata text that is one of the format but for its letters, and
/// one of edges that are planar by name.
pub(crate) fn push_keys(
    alloc: Global,
    warnings: &mut Vec<Warning>,
    text: Option<&str>,
) -> Result<(), AllocError>
    ensures { OnOk result (map said warnings.new.items ≡ map said warnings.old.items ++ key_warnings (text_of text.entry)) }
{
    let Some(text) = text else {
        return Ok(());
    };
    let mut scratch = Scratch::new(alloc);
    match value_in(alloc, text, &mut scratch)? {
        Some(value) => push_value(alloc, warnings, &value),
        None => Ok(()),
    }
}

/// Adds those of a value.
fn push_value(
    alloc: Global,
    warnings: &mut Vec<Warning>,
    value: &Value<'_>,
) -> Result<(), AllocError>
    requires { IsReadable (value_view value.now) }
    ensures { (d : Data) → of_json (value_view value.now) ≡ Some d → OnOk result (map said warnings.new.items ≡ map said warnings.old.items ++ (at_each MetadataKeyCase (spots_in (Some (value_view value.now))) ++ edges_warnings (Some d))) }
{
    push_of(alloc, warnings, value)?;
    let holds = are_planar(value);
    push_shown(
        alloc,
        warnings,
        WarningCode::EdgesPlanar,
        "/edges",
        "\"planar\"",
        holds,
    )
}

/// Adds one of each such key of a value, if it is an object.
fn push_of(alloc: Global, warnings: &mut Vec<Warning>, value: &Value<'_>) -> Result<(), AllocError>
    ensures { OnOk result (map said warnings.new.items ≡ map said warnings.old.items ++ at_each MetadataKeyCase (spots_in (Some (value_view value.now)))) }
{
    match value {
        Value::Object(members) => push_members(alloc, warnings, members.as_slice()),
        _ => Ok(()),
    }
}

/// Adds one of each such key of an object.
fn push_members(
    alloc: Global,
    warnings: &mut Vec<Warning>,
    members: &[(&str, Value<'_>)],
) -> Result<(), AllocError>
    ensures { OnOk result (map said warnings.new.items ≡ map said warnings.old.items ++ at_each MetadataKeyCase (key_spots (members_view members.now))) }
{
    let mut rest = Rest::sixteen();
    tell_members(alloc, warnings, &mut rest, members)?;
    finish(warnings, rest)?;
    Ok(())
}

/// Tells of each such key of an object.
fn tell_members(
    alloc: Global,
    warnings: &mut Vec<Warning>,
    rest: &mut Rest,
    members: &[(&str, Value<'_>)],
) -> Result<(), AllocError>
    ensures { OnOk result (telling warnings.new.items rest.new ≡ tell_all MetadataKeyCase (telling warnings.old.items rest.old) (key_spots (members_view members.now))) }
{
    for member in members {
        tell_key(alloc, warnings, rest, member.0)?;
    }
    Ok(())
}

/// Tells of a key, if it is one of the format but for its letters.
fn tell_key(
    alloc: Global,
    warnings: &mut Vec<Warning>,
    rest: &mut Rest,
    key: &str,
) -> Result<(), AllocError>
    ensures { OnOk result (telling warnings.new.items rest.new ≡ tell_all MetadataKeyCase (telling warnings.old.items rest.old) (key_spot key.now)) }
{
    if !is_other_case(alloc, key)? {
        return Ok(());
    }
    let pointer = format!(in alloc; "/{key}")?;
    let found = String::from_str(alloc, key)?;
    let warning = warning_in(alloc, WarningCode::MetadataKeyCase, pointer, Some(found));
    tell(warnings, rest, warning)
}

/// Whether a key is one of the format but for its letters. Errs only when out of memory.
fn is_other_case(alloc: Global, key: &str) -> Result<bool, AllocError>
    ensures { IfOk result (λ is. is ≡ is_other_case key.now) }
{
    let small = key.to_ascii_lowercase(alloc)?;
    Ok(is_key(small.as_str()) && !is_key(key))
}

/// Whether a key is one of the format.
fn is_key(key: &str) -> bool
    ensures { result ≡ is_key key.now }
{
    matches!(key, "crs" | "crs_type" | "edges")
}
