//! The version of GeoParquet by which metadata are judged.
ghost use Rattle.std.specs.Prelude.{◌≡◌, ◌++◌, OnOk, Some, None, codes, map, option_map, option_and_then};
ghost use Rattle.json.specs.Find.{as_str};
ghost use Rattle.json.specs.Value.{value_view};
ghost use Rattle.arrow_values.specs.Texts.{text_of};
ghost use Rattle.value_tokens.specs.Values.{IsReadable};
ghost use Rattle.geoparquet.specs.Findings.{finding};
ghost use Rattle.geoparquet.specs.Versions.{is_judged, is_digit, behind_digit, behind_number, behind_point, behind_numbers, is_suffix, is_any_suffix, is_release, is_version, begins, by, first_judged, other_judged, text_judged, unversioned_judged, value_judged, judged, version_of, version_findings};

use crate::code::GeoCode;
use crate::finding::{GeoFinding, Version};
use crate::place::finding_at;
use json::Value;
use std::alloc::{AllocError, Global};
use value_tokens::member_of;

/// By which version metadata are judged, and what is found of that.
#[derive(Drop)]
struct Judgement {
    version: Version,
    code: Option<GeoCode>,
}

/// Returns whether the rules of the values of a column's member are judged by a version: not before
/// 1.0.0 (docs/FORMAT.md, 5).
pub(crate) fn is_judged(version: Version) -> bool
    ensures { result ≡ is_judged version }
{
    !matches!(version, Version::Old)
}

/// Returns the version by which metadata are judged (docs/FORMAT.md, 5).
pub(crate) fn version_of(value: &Value<'_>) -> Version
    ensures { result ≡ version_of (value_view value.now) }
{
    judged(value).version
}

/// Adds what is found of the version (docs/FORMAT.md, 5). Errs only when out of memory.
pub(crate) fn add_version(
    alloc: Global,
    findings: &mut Vec<GeoFinding>,
    value: &Value<'_>,
) -> Result<(), AllocError>
    requires { IsReadable (value_view value.now) }
    ensures { OnOk result (map finding findings.new.items ≡ map finding findings.old.items ++ version_findings (value_view value.now)) }
{
    let Some(code) = judged(value).code else {
        return Ok(());
    };
    let place = String::from_str(alloc, "/version")?;
    let found = member_of(value, "version");
    findings.push(finding_at(alloc, code, None, place, found, None)?)?;
    Ok(())
}

/// What metadata are judged by.
fn judged(value: &Value<'_>) -> Judgement
    ensures { result ≡ judged (value_view value.now) }
{
    match value.get("version") {
        Some(version) => value_judged(version.as_str()),
        None => unversioned_judged(value.get("schema_version")),
    }
}

/// What metadata without a version are judged by: those of 0.x may have a text at `schema_version`.
fn unversioned_judged(schema_version: Option<&Value<'_>>) -> Judgement
    ensures { result ≡ unversioned_judged (option_and_then as_str (option_map (λ v. value_view v.now) schema_version.entry)) }
{
    match schema_version {
        Some(Value::String(_)) => by(Version::Old, Some(GeoCode::OldVersion)),
        _ => by(Version::V1_1, Some(GeoCode::Version)),
    }
}

/// What metadata are judged by with that text, or another value, as their version.
fn value_judged(text: Option<&str>) -> Judgement
    ensures { result ≡ value_judged (text_of text.entry) }
{
    match text {
        Some(text) => text_judged(text),
        None => by(Version::V1_1, Some(GeoCode::Version)),
    }
}

/// What metadata of that version are judged by.
fn text_judged(text: &str) -> Judgement
    ensures { result ≡ text_judged text.now }
{
    if text == "1.0.0" {
        return by(Version::V1_0, None);
    }
    if text == "1.1.0" {
        return by(Version::V1_1, None);
    }
    if is_version(text.as_bytes()) {
        return other_judged(text.as_bytes());
    }
    by(Version::V1_1, Some(GeoCode::Version))
}

/// What metadata are judged by whose version is 1.N.M with the suffix of a release.
fn first_judged(text: &[u8]) -> Judgement
    ensures { result ≡ first_judged text.now }
{
    if text.starts_with(b"1.0.0-") || text.starts_with(b"1.0.0+") {
        return by(Version::V1_0, Some(GeoCode::NewVersion));
    }
    by(Version::V1_1, Some(GeoCode::NewVersion))
}

/// What metadata are judged by whose version is N.M.P with a suffix, and neither 1.0.0 nor 1.1.0.
fn other_judged(text: &[u8]) -> Judgement
    ensures { result ≡ other_judged text.now }
{
    if text.starts_with(b"0.") {
        return by(Version::Old, Some(GeoCode::OldVersion));
    }
    if text.starts_with(b"1.") {
        if is_release(text) {
            return first_judged(text);
        }
        return by(Version::V1_1, Some(GeoCode::Version));
    }
    if text.starts_with(b"0") {
        return by(Version::V1_1, Some(GeoCode::Version));
    }
    by(Version::V2, Some(GeoCode::NewVersion))
}

/// That version, and what is found of it.
fn by(version: Version, code: Option<GeoCode>) -> Judgement
    ensures { result ≡ by version code }
{
    Judgement { version, code }
}

/// Whether a text is N.M.P with any suffix, where N, M and P are one to three digits.
fn is_version(text: &[u8]) -> bool
    ensures { result ≡ is_version text.now }
{
    is_any_suffix(behind_numbers(text))
}

/// Whether a text is N.M.P with the suffix of a release.
fn is_release(text: &[u8]) -> bool
    ensures { result ≡ is_release text.now }
{
    is_suffix(behind_numbers(text))
}

/// Whether a text is any suffix: nothing, or a text that begins with no digit.
fn is_any_suffix(text: Option<&[u8]>) -> bool
    ensures { result ≡ is_any_suffix (text_of text.entry) }
{
    match text {
        Some([first, ..]) => !is_digit(*first),
        Some([]) => true,
        None => false,
    }
}

/// Whether a text is the suffix of a release: nothing, or a text that begins with `-` or `+`.
fn is_suffix(text: Option<&[u8]>) -> bool
    ensures { result ≡ is_suffix (text_of text.entry) }
{
    match text {
        Some([first, ..]) => *first == b'-' || *first == b'+',
        Some([]) => true,
        None => false,
    }
}

/// What stands behind three numbers with points between them.
fn behind_numbers(text: &[u8]) -> Option<&[u8]>
    ensures { text_of result ≡ behind_numbers text.now }
{
    behind_number(behind_point(behind_number(behind_point(behind_number(text)?)?)?)?)
}

/// What stands behind one to three digits.
fn behind_number(text: &[u8]) -> Option<&[u8]>
    ensures { text_of result ≡ behind_number text.now }
{
    match text {
        [first, rest @ ..] if is_digit(*first) => Some(behind_digit(behind_digit(rest))),
        _ => None,
    }
}

/// What stands behind a digit, if one stands in front.
fn behind_digit(text: &[u8]) -> &[u8]
    ensures { result.now ≡ behind_digit text.now }
{
    match text {
        [first, rest @ ..] if is_digit(*first) => rest,
        _ => text,
    }
}

/// What stands behind a point.
fn behind_point(text: &[u8]) -> Option<&[u8]>
    ensures { text_of result ≡ behind_point text.now }
{
    match text {
        [b'.', rest @ ..] => Some(rest),
        _ => None,
    }
}

/// Whether a byte is a digit.
fn is_digit(byte: u8) -> bool
    ensures { result ≡ is_digit byte }
{
    47 < byte && byte < 58
}
