//! Places in the metadata, what stands there, and findings of it.
ghost use Rattle.std.specs.Prelude.{◌≡◌, ◌++◌, IfOk, IfSome, OnOk, map, option_map, string_bytes};
ghost use Rattle.json.specs.Value.{value_view};
ghost use Rattle.arrow_values.specs.Texts.{text_of};
ghost use Rattle.value_tokens.specs.Values.{IsReadable};
ghost use Rattle.geoparquet.specs.Findings.{finding, shown_value};
ghost use Rattle.geoparquet.specs.Rules.{column_place, part_place, found_at, told_at, told_in, part_finding, item_finding, unless};

use crate::code::GeoCode;
use crate::fact_sources::FactSource;
use crate::finding::GeoFinding;
use column_check::{item_place, member_place, shown_value};
use json::Value;
use std::alloc::{AllocError, Global};

/// Returns the place of the member of `columns` with a key. Errs only when out of memory.
pub(crate) fn column_place(alloc: Global, key: &str) -> Result<String, AllocError>
    ensures { IfOk result (λ made. string_bytes made ≡ column_place key.now) }
{
    member_place(alloc, "/columns", key)
}

/// Returns the place of a member, with that name, of the member of `columns` with a key. Errs only
/// when out of memory.
pub(crate) fn part_place(alloc: Global, key: &str, name: &str) -> Result<String, AllocError>
    ensures { IfOk result (λ made. string_bytes made ≡ part_place key.now name.now) }
{
    let column = column_place(alloc, key)?;
    member_place(alloc, column.as_str(), name)
}

/// Returns a copy of a text that may be missing. Errs only when out of memory.
pub(crate) fn copied(alloc: Global, text: Option<&str>) -> Result<Option<String>, AllocError>
    ensures { IfOk result (λ copy. option_map string_bytes copy ≡ text_of text.entry) }
{
    match text {
        Some(text) => Ok(Some(String::from_str(alloc, text)?)),
        None => Ok(None),
    }
}

/// What stands at a place, if something does, as a finding shows it.
fn found_text(alloc: Global, found: Option<&Value<'_>>) -> Result<Option<String>, AllocError>
    requires { IfSome found (λ v. IsReadable (value_view v.now)) }
    ensures { IfOk result (λ text. option_map string_bytes text ≡ option_map shown_value (option_map (λ v. value_view v.now) found.entry)) }
{
    match found {
        Some(value) => Ok(Some(shown_value(alloc, value)?)),
        None => Ok(None),
    }
}

/// Returns a finding: of a column, or of all the metadata; at a place, where that stands; and what
/// the rule wants there. Errs only when out of memory.
pub(crate) fn finding_at(
    alloc: Global,
    code: GeoCode,
    column: Option<&str>,
    place: String,
    found: Option<&Value<'_>>,
    wanted: Option<&str>,
) -> Result<GeoFinding, AllocError>
    requires { IfSome found (λ v. IsReadable (value_view v.now)) }
    ensures { IfOk result (λ made. finding made ≡ found_at code (text_of column.entry) (string_bytes place) (option_map (λ v. value_view v.now) found.entry) (text_of wanted.entry)) }
{
    let found = found_text(alloc, found)?;
    told_at(alloc, code, column, place, found, wanted)
}

/// Returns a finding: of a column, or of all the metadata; at a place, as what is found there is
/// shown; and what the rule wants there. Errs only when out of memory.
pub(crate) fn told_at(
    alloc: Global,
    code: GeoCode,
    column: Option<&str>,
    place: String,
    found: Option<String>,
    wanted: Option<&str>,
) -> Result<GeoFinding, AllocError>
    ensures { IfOk result (λ made. finding made ≡ told_at code (text_of column.entry) (string_bytes place) (option_map string_bytes found) (text_of wanted.entry)) }
{
    let column = copied(alloc, column)?;
    let wanted = copied(alloc, wanted)?;
    Ok(GeoFinding {
        code,
        column,
        source: FactSource::Geo,
        pointer: place,
        found,
        wanted,
        more: 0,
    })
}

/// Returns a finding of a column in what its element or its field says, as what is found there is
/// shown. Errs only when out of memory.
pub(crate) fn told_in(
    alloc: Global,
    source: FactSource,
    code: GeoCode,
    key: &str,
    found: Option<&str>,
    wanted: Option<&str>,
) -> Result<GeoFinding, AllocError>
    ensures { IfOk result (λ made. finding made ≡ told_in source code key.now (text_of found.entry) (text_of wanted.entry)) }
{
    let column = Some(String::from_str(alloc, key)?);
    let found = copied(alloc, found)?;
    let wanted = copied(alloc, wanted)?;
    Ok(GeoFinding {
        code,
        column,
        source,
        pointer: String::new(alloc),
        found,
        wanted,
        more: 0,
    })
}

/// Returns what is found of a member, with that name, of a column's member. Errs only when out of
/// memory.
pub(crate) fn part_finding(
    alloc: Global,
    code: GeoCode,
    key: &str,
    name: &str,
    found: Option<&Value<'_>>,
) -> Result<GeoFinding, AllocError>
    requires { IfSome found (λ v. IsReadable (value_view v.now)) }
    ensures { IfOk result (λ made. finding made ≡ part_finding code key.now name.now (option_map (λ v. value_view v.now) found.entry)) }
{
    let place = part_place(alloc, key, name)?;
    finding_at(alloc, code, Some(key), place, found, None)
}

/// Returns what is found of an item of what stands at a place of a column. Errs only when out of
/// memory.
pub(crate) fn item_finding(
    alloc: Global,
    code: GeoCode,
    key: &str,
    place: &str,
    index: usize,
    found: &Value<'_>,
) -> Result<GeoFinding, AllocError>
    requires { IsReadable (value_view found.now) }
    ensures { IfOk result (λ made. finding made ≡ item_finding code key.now place.now index (value_view found.now)) }
{
    let place = item_place(alloc, place, index)?;
    finding_at(alloc, code, Some(key), place, Some(found), None)
}

/// Adds what is found of a member, with that name, of a column's member, unless the rule is kept.
/// Errs only when out of memory.
pub(crate) fn add_unless(
    alloc: Global,
    findings: &mut Vec<GeoFinding>,
    kept: bool,
    code: GeoCode,
    key: &str,
    name: &str,
    found: Option<&Value<'_>>,
) -> Result<(), AllocError>
    requires { IfSome found (λ v. IsReadable (value_view v.now)) }
    ensures { OnOk result (map finding findings.new.items ≡ map finding findings.old.items ++ unless kept (part_finding code key.now name.now (option_map (λ v. value_view v.now) found.entry))) }
{
    if kept {
        return Ok(());
    }
    findings.push(part_finding(alloc, code, key, name, found)?)?;
    Ok(())
}

/// Adds what is found of an item of what stands at a place of a column, unless the rule is kept. Errs
/// only when out of memory.
pub(crate) fn add_item(
    alloc: Global,
    findings: &mut Vec<GeoFinding>,
    kept: bool,
    code: GeoCode,
    key: &str,
    place: &str,
    index: usize,
    found: &Value<'_>,
) -> Result<(), AllocError>
    requires { IsReadable (value_view found.now) }
    ensures { OnOk result (map finding findings.new.items ≡ map finding findings.old.items ++ unless kept (item_finding code key.now place.now index (value_view found.now))) }
{
    if kept {
        return Ok(());
    }
    findings.push(item_finding(alloc, code, key, place, index, found)?)?;
    Ok(())
}
