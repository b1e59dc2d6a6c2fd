//! Findings, added one by one.
ghost use Rattle.std.specs.Prelude.{◌≡◌, [], ◌∷◌, ◌++◌, IfSome, OnOk, Some, None, map, option_map};
ghost use Rattle.json.specs.Value.{value_view};
ghost use Rattle.arrow_values.specs.Texts.{text_of};
ghost use Rattle.value_tokens.specs.Values.{IsReadable};
ghost use Rattle.geoparquet.specs.Findings.{finding};
ghost use Rattle.geoparquet.specs.Rules.{found_at, part_place, told_at, told_in};

use crate::code::GeoCode;
use crate::fact_sources::FactSource;
use crate::finding::GeoFinding;
use crate::place::{copied, finding_at, part_place, told_at, told_in};
use json::Value;
use std::alloc::{AllocError, Global};

/// Adds a finding of a column, or of all the metadata, at a place. Errs only when out of memory.
pub(crate) fn add_at(
    alloc: Global,
    findings: &mut Vec<GeoFinding>,
    code: GeoCode,
    column: Option<&str>,
    place: &str,
    found: Option<&Value<'_>>,
    wanted: Option<&str>,
) -> Result<(), AllocError>
    requires { IfSome found (λ v. IsReadable (value_view v.now)) }
    ensures { OnOk result (map finding findings.new.items ≡ map finding findings.old.items
        ++ found_at code (text_of column.entry) place.now (option_map (λ v. value_view v.now) found.entry) (text_of wanted.entry) ∷ []) }
{
    let place = String::from_str(alloc, place)?;
    findings.push(finding_at(alloc, code, column, place, found, wanted)?)?;
    Ok(())
}

/// Adds a finding of a column in what its element or its field says, with what is found as it is
/// shown. Errs only when out of memory.
pub(crate) fn add_told_in(
    alloc: Global,
    findings: &mut Vec<GeoFinding>,
    source: FactSource,
    code: GeoCode,
    key: &str,
    found: Option<&str>,
    wanted: Option<&str>,
) -> Result<(), AllocError>
    ensures { OnOk result (map finding findings.new.items ≡ map finding findings.old.items
        ++ told_in source code key.now (text_of found.entry) (text_of wanted.entry) ∷ []) }
{
    findings.push(told_in(alloc, source, code, key, found, wanted)?)?;
    Ok(())
}

/// Adds a finding at a member, with that name, of a column's member, with what is found as it is
/// shown. Errs only when out of memory.
pub(crate) fn add_told(
    alloc: Global,
    findings: &mut Vec<GeoFinding>,
    code: GeoCode,
    key: &str,
    name: &str,
    found: Option<&str>,
    wanted: Option<&str>,
) -> Result<(), AllocError>
    ensures { OnOk result (map finding findings.new.items ≡ map finding findings.old.items
        ++ told_at code (Some key.now) (part_place key.now name.now) (text_of found.entry) (text_of wanted.entry) ∷ []) }
{
    let place = part_place(alloc, key, name)?;
    let found = copied(alloc, found)?;
    findings.push(told_at(alloc, code, Some(key), place, found, wanted)?)?;
    Ok(())
}

/// Adds a finding at a member, with that name, of a column's member. Errs only when out of memory.
pub(crate) fn add_part(
    alloc: Global,
    findings: &mut Vec<GeoFinding>,
    code: GeoCode,
    key: &str,
    name: &str,
    found: Option<&Value<'_>>,
    wanted: Option<&str>,
) -> Result<(), AllocError>
    requires { IfSome found (λ v. IsReadable (value_view v.now)) }
    ensures { OnOk result (map finding findings.new.items ≡ map finding findings.old.items
        ++ found_at code (Some key.now) (part_place key.now name.now) (option_map (λ v. value_view v.now) found.entry) (text_of wanted.entry) ∷ []) }
{
    let place = part_place(alloc, key, name)?;
    add_at(
        alloc,
        findings,
        code,
        Some(key),
        place.as_str(),
        found,
        wanted,
    )
}
