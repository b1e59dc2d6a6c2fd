//! What makes the object at `crs` no PROJJSON.
ghost use Rattle.std.specs.Prelude.{◌≡◌, [], ◌∷◌, ◌++◌, IfOk, IfSome, OnOk, codes, map, option_and_then, option_map, string_bytes};
ghost use Rattle.json.specs.Find.{at, get};
ghost use Rattle.json.specs.Value.{value_view};
ghost use Rattle.value_tokens.specs.Values.{IsReadable};
ghost use Rattle.crs_identity.specs.Malformed.{pointer};
ghost use Rattle.geoparquet.specs.Findings.{finding};
ghost use Rattle.geoparquet.specs.Rules.{part_place};
ghost use Rattle.geoparquet.specs.Malformed.{are_none, is_projjson, is_malformed, id_at, standing, malformed_finding, malformed_in, malformed_findings};

use crate::adding::add_at;
use crate::code::GeoCode;
use crate::column::is_object;
use crate::covering::item_at;
use crate::finding::{GeoFinding, Version};
use crate::place::part_place;
use crate::version::is_judged;
use crs_identity::{Part, malformed_parts};
use json::Value;
use std::alloc::{AllocError, Global};
use value_tokens::member_of;

/// Whether there are no parts.
fn are_none(parts: &[Part]) -> bool
    ensures { result ≡ are_none parts.now }
{
    match parts {
        [_first, _rest @ ..] => false,
        [] => true,
    }
}

/// Returns whether an object is PROJJSON. Errs only when out of memory.
pub(crate) fn is_projjson(alloc: Global, value: &Value<'_>) -> Result<bool, AllocError>
    ensures { IfOk result (λ is. is ≡ is_projjson (value_view value.now)) }
{
    let parts = malformed_parts(alloc, value)?;
    Ok(are_none(parts.as_slice()))
}

/// Returns whether there is a value that is an object, and no PROJJSON. Errs only when out of memory.
pub(crate) fn is_malformed(alloc: Global, value: Option<&Value<'_>>) -> Result<bool, AllocError>
    ensures { IfOk result (λ is. is ≡ is_malformed (option_map (λ v. value_view v.now) value.entry)) }
{
    let Some(value) = value else {
        return Ok(false);
    };
    if !is_object(value) {
        return Ok(false);
    }
    Ok(!is_projjson(alloc, value)?)
}

/// Returns the item of `ids` at an index.
fn id_at<'v, 'a>(crs: &'v Value<'a>, index: usize) -> Option<&'v Value<'a>>
    requires { IsReadable (value_view crs.now) }
    ensures value { option_map (λ v. value_view v.now) result ≡ id_at index (value_view crs.now) }
    ensures read { IfSome result (λ v. IsReadable (value_view v.now)) }
{
    match member_of(crs, "ids") {
        Some(ids) => item_at(ids, index),
        None => None,
    }
}

/// Returns what stands at a part of an object.
fn standing<'v, 'a>(part: Part, crs: &'v Value<'a>) -> Option<&'v Value<'a>>
    requires { IsReadable (value_view crs.now) }
    ensures value { option_map (λ v. value_view v.now) result ≡ standing part (value_view crs.now) }
    ensures read { IfSome result (λ v. IsReadable (value_view v.now)) }
{
    match part {
        Part::Type => member_of(crs, "type"),
        Part::Name => member_of(crs, "name"),
        Part::Id => member_of(crs, "id"),
        Part::Item(index) => id_at(crs, index),
        Part::BothIds => member_of(crs, "ids"),
    }
}

/// Returns the place of a part of the object at `crs`. Errs only when out of memory.
fn place_of(alloc: Global, key: &str, part: Part) -> Result<String, AllocError>
    ensures { IfOk result (λ made. string_bytes made ≡ part_place key.now (codes "crs") ++ pointer part) }
{
    let mut place = part_place(alloc, key, "crs")?;
    let pointer = part.pointer(alloc)?;
    place.push_str(pointer.as_str())?;
    Ok(place)
}

/// Adds what is found of a part that is wrong. Errs only when out of memory.
fn add_wrong(
    alloc: Global,
    findings: &mut Vec<GeoFinding>,
    key: &str,
    crs: &Value<'_>,
    part: Part,
) -> Result<(), AllocError>
    requires { IsReadable (value_view crs.now) }
    ensures { OnOk result (map finding findings.new.items ≡ map finding findings.old.items
        ++ malformed_finding key.now (value_view crs.now) part ∷ []) }
{
    let place = place_of(alloc, key, part)?;
    add_at(
        alloc,
        findings,
        GeoCode::CrsMalformed,
        Some(key),
        place.as_str(),
        standing(part, crs),
        None,
    )
}

/// Adds what is found of parts that are wrong. Errs only when out of memory.
fn add_each(
    alloc: Global,
    findings: &mut Vec<GeoFinding>,
    key: &str,
    crs: &Value<'_>,
    parts: &[Part],
) -> Result<(), AllocError>
    requires { IsReadable (value_view crs.now) }
    ensures { OnOk result (map finding findings.new.items ≡ map finding findings.old.items
        ++ map (malformed_finding key.now (value_view crs.now)) parts.now) }
{
    for part in parts {
        add_wrong(alloc, findings, key, crs, *part)?;
    }
    Ok(())
}

/// Adds what is found of `crs`, where it is an object. Errs only when out of memory.
fn add_in(
    alloc: Global,
    findings: &mut Vec<GeoFinding>,
    key: &str,
    found: Option<&Value<'_>>,
) -> Result<(), AllocError>
    requires { IfSome found (λ v. IsReadable (value_view v.now)) }
    ensures { OnOk result (map finding findings.new.items ≡ map finding findings.old.items
        ++ malformed_in key.now (option_map (λ v. value_view v.now) found.entry)) }
{
    let Some(crs) = found else {
        return Ok(());
    };
    if !is_object(crs) {
        return Ok(());
    }
    let parts = malformed_parts(alloc, crs)?;
    add_each(alloc, findings, key, crs, parts.as_slice())
}

/// Adds what is found of an object at `crs` that is no PROJJSON (docs/FORMAT.md, 5.3). Errs only
/// when out of memory.
pub(crate) fn add_malformed(
    alloc: Global,
    findings: &mut Vec<GeoFinding>,
    version: Version,
    key: &str,
    member: &Value<'_>,
) -> Result<(), AllocError>
    requires { IsReadable (value_view member.now) }
    ensures { OnOk result (map finding findings.new.items ≡ map finding findings.old.items
        ++ malformed_findings version key.now (value_view member.now)) }
{
    if !is_judged(version) {
        return Ok(());
    }
    add_in(alloc, findings, key, member_of(member, "crs"))
}
