//! What the member of `columns` alone says of a column.
ghost use Rattle.std.specs.Prelude.{◌≡◌, [], All, IfOk, IfSome, map, option_map};
ghost use Rattle.json.specs.Value.{value_view};
ghost use Rattle.value_tokens.specs.Values.{IsReadable};
ghost use Rattle.geoparquet.specs.Findings.{finding};
ghost use Rattle.geoparquet.specs.MemberFacts.{are_kept, are_type_names, has_types, member_facts, member_facts_view, said_bbox, said_epoch, said_orientation, said_types};

use crate::boxes::box_in;
use crate::crs_facts::json_text;
use crate::finding::{GeoFinding, Version};
use crate::members::{is_epoch_value, is_orientation_value};
use crate::types::{add_items, types_in};
use crate::version::is_judged;
use json::Value;
use std::alloc::{AllocError, Global};
use value_tokens::{JsonText, member_of};

/// What the member of `columns` alone says of a column (docs/FORMAT.md, 5.7): each value as it stands
/// there, where it keeps its rule.
#[derive(Debug, Drop)]
pub struct MemberFacts {
    /// The box of the geometries.
    pub bbox: Option<JsonText>,
    /// The epoch of their coordinates.
    pub epoch: Option<JsonText>,
    /// Their types, which are some: not those that its field says.
    pub geometry_types: Option<JsonText>,
    /// The orientation of their rings.
    pub orientation: Option<JsonText>,
}

/// Returns the box that a member says.
fn said_bbox<'v, 'a>(version: Version, member: &'v Value<'a>) -> Option<&'v Value<'a>>
    requires { IsReadable (value_view member.now) }
    ensures value { option_map (λ v. value_view v.now) result ≡ said_bbox version (value_view member.now) }
    ensures read { IfSome result (λ v. IsReadable (value_view v.now)) }
{
    match box_in(version, member) {
        Some(_) => member_of(member, "bbox"),
        None => None,
    }
}

/// Returns the epoch that a member says.
fn said_epoch<'v, 'a>(version: Version, member: &'v Value<'a>) -> Option<&'v Value<'a>>
    requires { IsReadable (value_view member.now) }
    ensures value { option_map (λ v. value_view v.now) result ≡ said_epoch version (value_view member.now) }
    ensures read { IfSome result (λ v. IsReadable (value_view v.now)) }
{
    let epoch = member_of(member, "epoch");
    if is_judged(version) && is_epoch_value(epoch) {
        epoch
    } else {
        None
    }
}

/// Returns the orientation that a member says.
fn said_orientation<'v, 'a>(version: Version, member: &'v Value<'a>) -> Option<&'v Value<'a>>
    requires { IsReadable (value_view member.now) }
    ensures value { option_map (λ v. value_view v.now) result ≡ said_orientation version (value_view member.now) }
    ensures read { IfSome result (λ v. IsReadable (value_view v.now)) }
{
    let orientation = member_of(member, "orientation");
    if is_judged(version) && is_orientation_value(orientation) {
        orientation
    } else {
        None
    }
}

/// Returns the types that a member says. Errs only when out of memory.
fn said_types<'v, 'a>(
    alloc: Global,
    version: Version,
    member: &'v Value<'a>,
) -> Result<Option<&'v Value<'a>>, AllocError>
    requires { IsReadable (value_view member.now) }
    ensures value { IfOk result (λ said. option_map (λ v. value_view v.now) said ≡ said_types version (value_view member.now)) }
    ensures read { IfOk result (λ said. IfSome said (λ v. IsReadable (value_view v.now))) }
{
    if has_types(alloc, version, types_in(member))? {
        Ok(member_of(member, "geometry_types"))
    } else {
        Ok(None)
    }
}

/// Whether there are items, and these are types. Errs only when out of memory.
fn has_types(
    alloc: Global,
    version: Version,
    types: Option<&[Value<'_>]>,
) -> Result<bool, AllocError>
    requires { IfSome types (λ vs. All IsReadable (map value_view vs.now)) }
    ensures { IfOk result (λ is. is ≡ has_types version (option_map (λ vs. map value_view vs.now) types.entry)) }
{
    let Some(types) = types else {
        return Ok(false);
    };
    if is_judged(version) {
        are_type_names(alloc, types)
    } else {
        Ok(false)
    }
}

/// Whether there are values, and nothing is found of them as types. Errs only when out of memory.
fn are_type_names(alloc: Global, types: &[Value<'_>]) -> Result<bool, AllocError>
    requires { All IsReadable (map value_view types.now) }
    ensures { IfOk result (λ are. are ≡ are_type_names (map value_view types.now)) }
{
    if types.is_empty() {
        return Ok(false);
    }
    let mut found = Vec::new(alloc);
    add_items(alloc, &mut found, "", "", types)?;
    Ok(are_kept(found.as_slice()))
}

/// Whether nothing is found.
fn are_kept(found: &[GeoFinding]) -> bool
    ensures { result ≡ are_kept (map finding found.now) }
{
    match found {
        [_first, _rest @ ..] => false,
        [] => true,
    }
}

/// Returns what a member, if there is one, alone says. Errs only when out of memory.
pub(crate) fn member_facts(
    alloc: Global,
    version: Version,
    member: Option<&Value<'_>>,
) -> Result<MemberFacts, AllocError>
    requires { IfSome member (λ v. IsReadable (value_view v.now)) }
    ensures { IfOk result (λ facts. member_facts_view facts ≡ member_facts version (option_map (λ v. value_view v.now) member.entry)) }
{
    let Some(member) = member else {
        return Ok(MemberFacts {
            bbox: None,
            epoch: None,
            geometry_types: None,
            orientation: None,
        });
    };
    let types = said_types(alloc, version, member)?;
    Ok(MemberFacts {
        bbox: json_text(alloc, said_bbox(version, member))?,
        epoch: json_text(alloc, said_epoch(version, member))?,
        geometry_types: json_text(alloc, types)?,
        orientation: json_text(alloc, said_orientation(version, member))?,
    })
}
