//! The parts for which a CRS is no PROJJSON.
ghost use Rattle.std.specs.Prelude.{◌≡◌, ◌++◌, ◌∷◌, [], IfOk, IfSome, OnOk, map, option_map, Some, string_bytes};
ghost use Rattle.json.specs.Find.{at};
ghost use Rattle.json.specs.Value.{value_view};
ghost use Rattle.value_tokens.specs.Values.{IsReadable, is_object};
ghost use Rattle.crs_identity.specs.Forms.{json_in};
ghost use Rattle.column_check.specs.CrsWarnings.{object_in, projjson_in, standing, part_spot, malformed_spots, are_wrong, is_malformed};
ghost use Rattle.column_check.specs.Said.{said, at_each};
ghost use Rattle.column_check.specs.Shown.{shown_value};
ghost use Rattle.column_check.specs.Walk.{telling, tell_all};
ghost use Rattle.column_check.specs.declared.code.WarningCode.TheVariants.{CrsMalformed};

use crate::code::WarningCode;
use crate::excerpt::shown_value;
use crate::said::{value_in, warning_in};
use crate::warning::Warning;
use crate::way::{Rest, finish, tell};
use crs_identity::{Part, malformed_parts};
use geoarrow_meta::CrsType;
use json::{Scratch, Value};
use std::alloc::{AllocError, Global};
use value_tokens::member_of;

/// Adds a warning of each part for which a CRS of that type is no PROJJSON, and returns whether
/// there is one.
pub(crate) fn push_malformed(
    alloc: Global,
    warnings: &mut Vec<Warning>,
    crs_type: Option<CrsType>,
    value: &Value<'_>,
) -> Result<bool, AllocError>
    requires { IsReadable (value_view value.now) }
    ensures told { OnOk result (map said warnings.new.items ≡ map said warnings.old.items ++ at_each CrsMalformed (malformed_spots (projjson_in crs_type (value_view value.now)))) }
    ensures wrong { IfOk result (λ wrong. wrong ≡ is_malformed (projjson_in crs_type (value_view value.now))) }
{
    match value {
        Value::String(text) => match crs_type {
            Some(CrsType::Projjson) => push_text(alloc, warnings, text),
            _ => Ok(false),
        },
        _ => push_object(alloc, warnings, value),
    }
}

/// Adds those of the object that a text is, if it is one.
fn push_text(alloc: Global, warnings: &mut Vec<Warning>, text: &str) -> Result<bool, AllocError>
    ensures told { OnOk result (map said warnings.new.items ≡ map said warnings.old.items ++ at_each CrsMalformed (malformed_spots (object_in (json_in text.now)))) }
    ensures wrong { IfOk result (λ wrong. wrong ≡ is_malformed (object_in (json_in text.now))) }
{
    let mut scratch = Scratch::new(alloc);
    match value_in(alloc, text, &mut scratch)? {
        Some(value) => push_object(alloc, warnings, &value),
        None => Ok(false),
    }
}

/// Adds those of a value, if it is an object.
fn push_object(
    alloc: Global,
    warnings: &mut Vec<Warning>,
    value: &Value<'_>,
) -> Result<bool, AllocError>
    requires { IsReadable (value_view value.now) }
    ensures told { OnOk result (map said warnings.new.items ≡ map said warnings.old.items ++ at_each CrsMalformed (malformed_spots (object_in (Some (value_view value.now))))) }
    ensures wrong { IfOk result (λ wrong. wrong ≡ is_malformed (object_in (Some (value_view value.now)))) }
{
    match value {
        Value::Object(_) => push_parts(alloc, warnings, value),
        _ => Ok(false),
    }
}

/// Adds those of an object.
fn push_parts(
    alloc: Global,
    warnings: &mut Vec<Warning>,
    value: &Value<'_>,
) -> Result<bool, AllocError>
    requires { IsReadable (value_view value.now) }
    ensures told { OnOk result (map said warnings.new.items ≡ map said warnings.old.items ++ at_each CrsMalformed (malformed_spots (Some (value_view value.now)))) }
    ensures wrong { IfOk result (λ wrong. wrong ≡ is_malformed (Some (value_view value.now))) }
{
    let parts = malformed_parts(alloc, value)?;
    push_each(alloc, warnings, value, parts.as_slice())?;
    Ok(are_wrong(parts.as_slice()))
}

/// Whether there are parts that are wrong.
fn are_wrong(parts: &[Part]) -> bool
    ensures { result ≡ are_wrong parts.now }
{
    match parts {
        [_first, _rest @ ..] => true,
        [] => false,
    }
}

/// Adds a warning of each of these parts of an object.
fn push_each(
    alloc: Global,
    warnings: &mut Vec<Warning>,
    value: &Value<'_>,
    parts: &[Part],
) -> Result<(), AllocError>
    requires { IsReadable (value_view value.now) }
    ensures { OnOk result (map said warnings.new.items ≡ map said warnings.old.items ++ at_each CrsMalformed (map (part_spot (value_view value.now)) parts.now)) }
{
    let mut rest = Rest::sixteen();
    tell_parts(alloc, warnings, &mut rest, value, parts)?;
    finish(warnings, rest)?;
    Ok(())
}

/// Tells of each of these parts of an object.
fn tell_parts(
    alloc: Global,
    warnings: &mut Vec<Warning>,
    rest: &mut Rest,
    value: &Value<'_>,
    parts: &[Part],
) -> Result<(), AllocError>
    requires { IsReadable (value_view value.now) }
    ensures { OnOk result (telling warnings.new.items rest.new ≡ tell_all CrsMalformed (telling warnings.old.items rest.old) (map (part_spot (value_view value.now)) parts.now)) }
{
    for part in parts {
        tell_part(alloc, warnings, rest, value, *part)?;
    }
    Ok(())
}

/// Tells of a part of an object.
fn tell_part(
    alloc: Global,
    warnings: &mut Vec<Warning>,
    rest: &mut Rest,
    value: &Value<'_>,
    part: Part,
) -> Result<(), AllocError>
    requires { IsReadable (value_view value.now) }
    ensures { OnOk result (telling warnings.new.items rest.new ≡ tell_all CrsMalformed (telling warnings.old.items rest.old) (part_spot (value_view value.now) part ∷ [])) }
{
    let mut pointer = String::from_str(alloc, "/crs")?;
    let place = part.pointer(alloc)?;
    pointer.push_str(place.as_str())?;
    let found = found_at(alloc, standing(part, value))?;
    let warning = warning_in(alloc, WarningCode::CrsMalformed, pointer, found);
    tell(warnings, rest, warning)
}

/// What stands at a place, if something does, as a finding shows it.
pub(crate) fn found_at(
    alloc: Global,
    found: Option<&Value<'_>>,
) -> Result<Option<String>, AllocError>
    requires { IfSome found (λ v. IsReadable (value_view v.now)) }
    ensures { IfOk result (λ text. option_map string_bytes text ≡ option_map shown_value (option_map (λ v. value_view v.now) found.entry)) }
{
    match found {
        Some(value) => Ok(Some(shown_value(alloc, value)?)),
        None => Ok(None),
    }
}

/// What stands at a part of an object.
fn standing<'v, 'a>(part: Part, value: &'v Value<'a>) -> Option<&'v Value<'a>>
    requires { IsReadable (value_view value.now) }
    ensures value { option_map (λ v. value_view v.now) result ≡ standing part (value_view value.now) }
    ensures readable { IfSome result (λ v. IsReadable (value_view v.now)) }
{
    match part {
        Part::Type => member_of(value, "type"),
        Part::Name => member_of(value, "name"),
        Part::Id => member_of(value, "id"),
        Part::Item(index) => match member_of(value, "ids") {
            Some(ids) => item_at(ids, index),
            None => None,
        },
        Part::BothIds => member_of(value, "ids"),
    }
}

/// The item of an array at an index.
fn item_at<'v, 'a>(value: &'v Value<'a>, index: usize) -> Option<&'v Value<'a>>
    requires { IsReadable (value_view value.now) }
    ensures value { option_map (λ v. value_view v.now) result ≡ at index (value_view value.now) }
    ensures readable { IfSome result (λ v. IsReadable (value_view v.now)) }
{
    value.at(index)
}
