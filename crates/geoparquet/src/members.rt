//! Single values of a column's member, by version.
ghost use Rattle.std.specs.Prelude.{◌≡◌, ◌++◌, OnOk, map, option_map};
ghost use Rattle.json.specs.Value.{value_view};
ghost use Rattle.arrow_values.specs.Texts.{text_of};
ghost use Rattle.value_tokens.specs.Values.{IsReadable};
ghost use Rattle.geoparquet.specs.Findings.{finding};
ghost use Rattle.geoparquet.specs.MemberRules.{is_native_encoding, has_native, is_encoding, encoding_of, is_encoding_value, encoding_findings, is_crs_value, crs_findings, has_algorithms, is_algorithm, is_edges, is_edges_value, edges_findings, is_orientation_value, orientation_findings, is_epoch_value, epoch_findings};

use crate::code::GeoCode;
use crate::finding::{GeoFinding, Version};
use crate::place::add_unless;
use crate::version::is_judged;
use json::Value;
use std::alloc::{AllocError, Global};
use value_tokens::member_of;

/// Adds what is found of `encoding` (docs/FORMAT.md, 5). Errs only when out of memory.
pub(crate) fn add_encoding(
    alloc: Global,
    findings: &mut Vec<GeoFinding>,
    version: Version,
    key: &str,
    member: &Value<'_>,
) -> Result<(), AllocError>
    requires { IsReadable (value_view member.now) }
    ensures { OnOk result (map finding findings.new.items ≡ map finding findings.old.items ++ encoding_findings version key.now (value_view member.now)) }
{
    let found = member_of(member, "encoding");
    let kept = !is_judged(version) || is_encoding_value(version, found);
    add_unless(
        alloc,
        findings,
        kept,
        GeoCode::Encoding,
        key,
        "encoding",
        found,
    )
}

/// Adds what is found of `crs`, but for what a CRS is to be (docs/FORMAT.md, 5). Errs only when out
/// of memory.
pub(crate) fn add_crs(
    alloc: Global,
    findings: &mut Vec<GeoFinding>,
    version: Version,
    key: &str,
    member: &Value<'_>,
) -> Result<(), AllocError>
    requires { IsReadable (value_view member.now) }
    ensures { OnOk result (map finding findings.new.items ≡ map finding findings.old.items ++ crs_findings version key.now (value_view member.now)) }
{
    let found = member_of(member, "crs");
    let kept = !is_judged(version) || is_crs_value(found);
    add_unless(alloc, findings, kept, GeoCode::Crs, key, "crs", found)
}

/// Adds what is found of `edges` (docs/FORMAT.md, 5). Errs only when out of memory.
pub(crate) fn add_edges(
    alloc: Global,
    findings: &mut Vec<GeoFinding>,
    version: Version,
    key: &str,
    member: &Value<'_>,
) -> Result<(), AllocError>
    requires { IsReadable (value_view member.now) }
    ensures { OnOk result (map finding findings.new.items ≡ map finding findings.old.items ++ edges_findings version key.now (value_view member.now)) }
{
    let found = member_of(member, "edges");
    let kept = !is_judged(version) || is_edges_value(version, found);
    add_unless(alloc, findings, kept, GeoCode::Edges, key, "edges", found)
}

/// Adds what is found of `orientation` (docs/FORMAT.md, 5). Errs only when out of memory.
pub(crate) fn add_orientation(
    alloc: Global,
    findings: &mut Vec<GeoFinding>,
    version: Version,
    key: &str,
    member: &Value<'_>,
) -> Result<(), AllocError>
    requires { IsReadable (value_view member.now) }
    ensures { OnOk result (map finding findings.new.items ≡ map finding findings.old.items ++ orientation_findings version key.now (value_view member.now)) }
{
    let found = member_of(member, "orientation");
    let kept = !is_judged(version) || is_orientation_value(found);
    add_unless(
        alloc,
        findings,
        kept,
        GeoCode::Orientation,
        key,
        "orientation",
        found,
    )
}

/// Adds what is found of `epoch` (docs/FORMAT.md, 5). Errs only when out of memory.
pub(crate) fn add_epoch(
    alloc: Global,
    findings: &mut Vec<GeoFinding>,
    version: Version,
    key: &str,
    member: &Value<'_>,
) -> Result<(), AllocError>
    requires { IsReadable (value_view member.now) }
    ensures { OnOk result (map finding findings.new.items ≡ map finding findings.old.items ++ epoch_findings version key.now (value_view member.now)) }
{
    let found = member_of(member, "epoch");
    let kept = !is_judged(version) || is_epoch_value(found);
    add_unless(alloc, findings, kept, GeoCode::Epoch, key, "epoch", found)
}

/// Returns the encoding that a column's member says, where it is one of the version.
pub(crate) fn encoding_of<'a>(version: Version, member: &Value<'a>) -> Option<&'a str>
    ensures { text_of result ≡ encoding_of version (value_view member.now) }
{
    let text = member.get("encoding")?.as_str()?;
    if is_encoding(version, text) {
        Some(text)
    } else {
        None
    }
}

/// Whether `encoding` is a text that is an encoding of the version.
fn is_encoding_value(version: Version, found: Option<&Value<'_>>) -> bool
    ensures { result ≡ is_encoding_value version (option_map (λ v. value_view v.now) found.entry) }
{
    match found {
        Some(Value::String(text)) => is_encoding(version, text),
        _ => false,
    }
}

/// Whether a text is an encoding of the version.
fn is_encoding(version: Version, text: &str) -> bool
    ensures { result ≡ is_encoding version text.now }
{
    text == "WKB" || has_native(version) && is_native_encoding(text)
}

/// Whether a version has encodings of separated coordinates.
fn has_native(version: Version) -> bool
    ensures { result ≡ has_native version }
{
    matches!(version, Version::V1_1 | Version::V2)
}

/// Whether a text is an encoding of separated coordinates.
fn is_native_encoding(text: &str) -> bool
    ensures { result ≡ is_native_encoding text.now }
{
    text == "point"
        || text == "linestring"
        || text == "polygon"
        || text == "multipoint"
        || text == "multilinestring"
        || text == "multipolygon"
}

/// Whether `crs` is absent, null or an object.
fn is_crs_value(found: Option<&Value<'_>>) -> bool
    ensures { result ≡ is_crs_value (option_map (λ v. value_view v.now) found.entry) }
{
    matches!(found, None | Some(Value::Null | Value::Object(_)))
}

/// Returns whether `edges` is absent, or a text that is one of the version's.
pub(crate) fn is_edges_value(version: Version, found: Option<&Value<'_>>) -> bool
    ensures { result ≡ is_edges_value version (option_map (λ v. value_view v.now) found.entry) }
{
    match found {
        None => true,
        Some(Value::String(text)) => is_edges(version, text),
        Some(_) => false,
    }
}

/// Whether a text is one for edges of the version.
pub(crate) fn is_edges(version: Version, text: &str) -> bool
    ensures { result ≡ is_edges version text.now }
{
    text == "planar" || text == "spherical" || has_algorithms(version) && is_algorithm(text)
}

/// Whether a version has algorithms for edges on an ellipsoid.
fn has_algorithms(version: Version) -> bool
    ensures { result ≡ has_algorithms version }
{
    matches!(version, Version::V2)
}

/// Whether a text is an algorithm for edges on an ellipsoid.
fn is_algorithm(text: &str) -> bool
    ensures { result ≡ is_algorithm text.now }
{
    text == "vincenty" || text == "thomas" || text == "andoyer" || text == "karney"
}

/// Whether `orientation` is absent, or the one text.
pub(crate) fn is_orientation_value(found: Option<&Value<'_>>) -> bool
    ensures { result ≡ is_orientation_value (option_map (λ v. value_view v.now) found.entry) }
{
    match found {
        None => true,
        Some(Value::String(text)) => *text == "counterclockwise",
        Some(_) => false,
    }
}

/// Whether `epoch` is absent, or a number.
pub(crate) fn is_epoch_value(found: Option<&Value<'_>>) -> bool
    ensures { result ≡ is_epoch_value (option_map (λ v. value_view v.now) found.entry) }
{
    matches!(found, None | Some(Value::Number(_)))
}
