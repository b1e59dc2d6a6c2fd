//! What is found of the metadata at the key `geo`.
ghost use Rattle.std.specs.Prelude.{◌≡◌, ◌∷◌, ◌++◌, [], IfOk, OnOk, map, option_and_then};
ghost use Rattle.json.specs.Find.{as_str, get};
ghost use Rattle.json.specs.Value.{value_view};
ghost use Rattle.value_tokens.specs.Values.{IsReadable};
ghost use Rattle.arrow_values.specs.Texts.{text_of};
ghost use Rattle.arrow_columns.specs.Column.{column_tree};
ghost use Rattle.geoparquet.specs.CoveringAbsent.{first_box};
ghost use Rattle.geoparquet.specs.Findings.{finding};
ghost use Rattle.geoparquet.specs.Extensions.{IsJson};
ghost use Rattle.geoparquet.specs.Ordered.{columns_of, members_entries};
ghost use Rattle.geoparquet.specs.Versions.{version_of};
ghost use Rattle.geoparquet.specs.GeoFindings.{columns_findings, is_primary, has_primary, primary_findings, members_findings, column_alone_findings, alone_findings, missing_findings, object_findings, json_findings, geo_findings, unread_finding, unread_findings, AreTextFindings, AreRead};
ghost use Rattle.geoparquet.specs.Sources.{sourced, AreElements};
ghost use Rattle.geoparquet.specs.Spelled.{spelled};
ghost use Rattle.geoparquet.specs.Undeclared.{no_metadata_findings};
ghost use Rattle.geoparquet.specs.declared.finding.Version.{Version};

use crate::adding::add_at;
use crate::code::GeoCode;
use crate::column::{add_member, add_own, is_object};
use crate::covering_absent::first_box;
use crate::fact_sources::FactSource;
use crate::finding::{GeoFinding, GeoReport, Version};
use crate::ordered::{ByKey, are_some, has_member, members_in};
use crate::repeated_keys::add_repeated_keys;
use crate::source::Unread;
use crate::sources::{Sourced, Sources};
use crate::spelled::spelled;
use crate::undeclared::{add_no_metadata, add_undeclared};
use crate::version::{add_version, version_of};
use arrow_columns::{ColumnNames, SchemaColumn};
use column_check::shown;
use json::Value;
use std::alloc::{AllocError, Global};
use std::collections::BTreeMap;
use value_tokens::member_of;

/// Returns what is found where there is no JSON, and of columns. Errs only when out of memory.
pub(crate) fn unread_report(
    alloc: Global,
    unread: Unread<'_>,
    all: &[Sourced<'_>],
) -> Result<GeoReport, AllocError>
    ensures version { IfOk result (λ report. report.version ≡ Version.V1_1) }
    ensures findings { IfOk result (λ report. map finding report.findings.items ≡ unread_findings unread.entry (map sourced all.now) ++ alone_findings [] (map sourced all.now)) }
{
    match unread {
        Unread::Unasked => report_with(alloc, Vec::new(alloc), all),
        Unread::Missing => missing_report(alloc, all),
        Unread::NoUtf8(bytes) => spelled_report(alloc, bytes, all),
        Unread::NoJson(text) => not_json_report(alloc, text, all),
    }
}

/// Returns findings, and behind them what is found of columns, where there are no members. Errs only
/// when out of memory.
fn report_with(
    alloc: Global,
    findings: Vec<GeoFinding>,
    all: &[Sourced<'_>],
) -> Result<GeoReport, AllocError>
    ensures version { IfOk result (λ report. report.version ≡ Version.V1_1) }
    ensures findings { IfOk result (λ report. map finding report.findings.items ≡ map finding findings.items ++ alone_findings [] (map sourced all.now)) }
{
    let mut findings = findings;
    let members = BTreeMap::new(alloc);
    add_alone(alloc, &mut findings, &members, all)?;
    Ok(GeoReport {
        version: Version::V1_1,
        findings,
    })
}

/// Returns what is found of a file without a value at the key `geo`. Errs only when out of memory.
fn missing_report(alloc: Global, all: &[Sourced<'_>]) -> Result<GeoReport, AllocError>
    ensures version { IfOk result (λ report. report.version ≡ Version.V1_1) }
    ensures findings { IfOk result (λ report. map finding report.findings.items ≡ no_metadata_findings (map sourced all.now) ++ alone_findings [] (map sourced all.now)) }
{
    let mut findings = Vec::new(alloc);
    add_no_metadata(alloc, &mut findings, all)?;
    report_with(alloc, findings, all)
}

/// Returns what is found of a value that is no UTF-8. Errs only when out of memory.
fn spelled_report(alloc: Global, bytes: &[u8], all: &[Sourced<'_>]) -> Result<GeoReport, AllocError>
    ensures version { IfOk result (λ report. report.version ≡ Version.V1_1) }
    ensures findings { IfOk result (λ report. map finding report.findings.items ≡ unread_finding (spelled bytes.now) ∷ alone_findings [] (map sourced all.now)) }
{
    let text = spelled(alloc, bytes)?;
    not_json_report(alloc, text.as_str(), all)
}

/// Returns what is found of a value that is no JSON, as it is shown. Errs only when out of memory.
fn not_json_report(alloc: Global, text: &str, all: &[Sourced<'_>]) -> Result<GeoReport, AllocError>
    ensures version { IfOk result (λ report. report.version ≡ Version.V1_1) }
    ensures findings { IfOk result (λ report. map finding report.findings.items ≡ unread_finding text.now ∷ alone_findings [] (map sourced all.now)) }
{
    let found = GeoFinding {
        code: GeoCode::NotJson,
        column: None,
        source: FactSource::Geo,
        pointer: String::new(alloc),
        found: Some(shown(alloc, text)?),
        wanted: None,
        more: 0,
    };
    let mut findings = Vec::new(alloc);
    findings.push(found)?;
    report_with(alloc, findings, all)
}

/// Returns what is found of the JSON value that a text is. Errs only when out of memory.
pub(crate) fn report_of(
    alloc: Global,
    geo: &str,
    value: &Value<'_>,
    columns: &[SchemaColumn],
    all: &[Sourced<'_>],
) -> Result<GeoReport, AllocError>
    requires is { IsJson geo.now (value_view value.now) }
    requires read { IsReadable (value_view value.now) }
    ensures { IfOk result (λ report. AreTextFindings geo.now (map column_tree columns.now) (map sourced all.now) report.version (map finding report.findings.items)) }
{
    let version = version_of(value);
    let mut findings = Vec::new(alloc);
    add_all(alloc, &mut findings, value, columns, all)?;
    Ok(GeoReport { version, findings })
}

/// Adds what is found of a JSON value, and of columns that have no member. Errs only when out of
/// memory.
fn add_all(
    alloc: Global,
    findings: &mut Vec<GeoFinding>,
    value: &Value<'_>,
    columns: &[SchemaColumn],
    all: &[Sourced<'_>],
) -> Result<(), AllocError>
    requires { IsReadable (value_view value.now) }
    ensures { OnOk result (map finding findings.new.items ≡ map finding findings.old.items
        ++ geo_findings (map column_tree columns.now) (map sourced all.now) (value_view value.now)) }
{
    let members = members_in(alloc, member_of(value, "columns"))?;
    add_json(alloc, findings, value, columns, all, &members)?;
    add_alone(alloc, findings, &members, all)
}

/// Adds what is found of a JSON value. Errs only when out of memory.
fn add_json(
    alloc: Global,
    findings: &mut Vec<GeoFinding>,
    value: &Value<'_>,
    columns: &[SchemaColumn],
    all: &[Sourced<'_>],
    members: &ByKey<'_, '_>,
) -> Result<(), AllocError>
    requires read { IsReadable (value_view value.now) }
    requires members { members_entries members.now.entries ≡ columns_of (value_view value.now) }
    ensures { OnOk result (map finding findings.new.items ≡ map finding findings.old.items
        ++ json_findings (map column_tree columns.now) (map sourced all.now) (value_view value.now)) }
{
    if is_object(value) {
        add_repeated_keys(alloc, findings, value)?;
        return add_object(alloc, findings, value, columns, all, members);
    }
    add_at(
        alloc,
        findings,
        GeoCode::NotObject,
        None,
        "",
        Some(value),
        None,
    )
}

/// Adds what is found of an object. Errs only when out of memory.
fn add_object(
    alloc: Global,
    findings: &mut Vec<GeoFinding>,
    value: &Value<'_>,
    columns: &[SchemaColumn],
    all: &[Sourced<'_>],
    members: &ByKey<'_, '_>,
) -> Result<(), AllocError>
    requires read { IsReadable (value_view value.now) }
    requires members { members_entries members.now.entries ≡ columns_of (value_view value.now) }
    ensures { OnOk result (map finding findings.new.items ≡ map finding findings.old.items
        ++ object_findings (map column_tree columns.now) (map sourced all.now) (value_view value.now)) }
{
    let names = ColumnNames::new(alloc, columns)?;
    let boxed = first_box(columns);
    add_version(alloc, findings, value)?;
    add_columns(alloc, findings, value, members)?;
    add_primary(alloc, findings, value, members)?;
    add_members(alloc, findings, value, &names, all, boxed, members)?;
    add_missing(alloc, findings, value, all, members)
}

/// Adds what is found of `columns`. Errs only when out of memory.
fn add_columns(
    alloc: Global,
    findings: &mut Vec<GeoFinding>,
    value: &Value<'_>,
    members: &ByKey<'_, '_>,
) -> Result<(), AllocError>
    requires read { IsReadable (value_view value.now) }
    requires members { members_entries members.now.entries ≡ columns_of (value_view value.now) }
    ensures { OnOk result (map finding findings.new.items ≡ map finding findings.old.items
        ++ columns_findings (value_view value.now)) }
{
    if are_some(members) {
        return Ok(());
    }
    let found = member_of(value, "columns");
    add_at(
        alloc,
        findings,
        GeoCode::Columns,
        None,
        "/columns",
        found,
        None,
    )
}

/// Whether there is a text, and it is a key of the members, if there are any.
fn is_primary(members: &ByKey<'_, '_>, key: Option<&str>) -> bool
    ensures { result ≡ is_primary (members_entries members.now.entries) (text_of key.entry) }
{
    match key {
        Some(key) => !are_some(members) || has_member(key, members),
        None => false,
    }
}

/// Returns the text at a key of an object, where there is one.
fn text_at<'a>(value: &Value<'a>, key: &str) -> Option<&'a str>
    ensures { text_of result ≡ option_and_then as_str (get key.now (value_view value.now)) }
{
    value.get(key)?.as_str()
}

/// Whether `primary_column` is a text, and a key of the members, if there are any.
fn has_primary(value: &Value<'_>, members: &ByKey<'_, '_>) -> bool
    requires { members_entries members.now.entries ≡ columns_of (value_view value.now) }
    ensures { result ≡ has_primary (value_view value.now) }
{
    is_primary(members, text_at(value, "primary_column"))
}

/// Adds what is found of `primary_column`. Errs only when out of memory.
fn add_primary(
    alloc: Global,
    findings: &mut Vec<GeoFinding>,
    value: &Value<'_>,
    members: &ByKey<'_, '_>,
) -> Result<(), AllocError>
    requires read { IsReadable (value_view value.now) }
    requires members { members_entries members.now.entries ≡ columns_of (value_view value.now) }
    ensures { OnOk result (map finding findings.new.items ≡ map finding findings.old.items
        ++ primary_findings (value_view value.now)) }
{
    if has_primary(value, members) {
        return Ok(());
    }
    let found = member_of(value, "primary_column");
    add_at(
        alloc,
        findings,
        GeoCode::PrimaryColumn,
        None,
        "/primary_column",
        found,
        None,
    )
}

/// Adds what is found of each member. Errs only when out of memory.
fn add_each(
    alloc: Global,
    findings: &mut Vec<GeoFinding>,
    version: Version,
    columns: &ColumnNames<'_>,
    sources: &Sources<'_>,
    boxed: Option<&str>,
    members: &ByKey<'_, '_>,
) -> Result<(), AllocError>
    requires boxed { text_of boxed ≡ first_box (map column_tree columns.now) }
    requires named { AreElements (map sourced sources.now.all.now) sources.now.named }
    requires read { AreRead (members_entries members.now.entries) }
    ensures { OnOk result (map finding findings.new.items ≡ map finding findings.old.items
        ++ members_findings (map column_tree columns.now) (map sourced sources.now.all.now) version (members_entries members.now.entries)) }
{
    for (key, member) in members.iter() {
        add_member(
            alloc, findings, columns, sources, boxed, version, key, member,
        )?;
    }
    Ok(())
}

/// Adds what is found of the members of `columns`. Errs only when out of memory.
fn add_members(
    alloc: Global,
    findings: &mut Vec<GeoFinding>,
    value: &Value<'_>,
    columns: &ColumnNames<'_>,
    all: &[Sourced<'_>],
    boxed: Option<&str>,
    members: &ByKey<'_, '_>,
) -> Result<(), AllocError>
    requires boxed { text_of boxed ≡ first_box (map column_tree columns.now) }
    requires read { IsReadable (value_view value.now) }
    requires members { members_entries members.now.entries ≡ columns_of (value_view value.now) }
    ensures { OnOk result (map finding findings.new.items ≡ map finding findings.old.items
        ++ members_findings (map column_tree columns.now) (map sourced all.now) (version_of (value_view value.now)) (columns_of (value_view value.now))) }
{
    let sources = Sources::new(alloc, all)?;
    add_each(
        alloc,
        findings,
        version_of(value),
        columns,
        &sources,
        boxed,
        members,
    )
}

/// Adds what is found of columns that lack a member. Errs only when out of memory.
fn add_missing(
    alloc: Global,
    findings: &mut Vec<GeoFinding>,
    value: &Value<'_>,
    all: &[Sourced<'_>],
    members: &ByKey<'_, '_>,
) -> Result<(), AllocError>
    requires read { IsReadable (value_view value.now) }
    requires members { members_entries members.now.entries ≡ columns_of (value_view value.now) }
    ensures { OnOk result (map finding findings.new.items ≡ map finding findings.old.items
        ++ missing_findings (map sourced all.now) (value_view value.now)) }
{
    if !are_some(members) {
        return Ok(());
    }
    add_undeclared(alloc, findings, members, all)
}

/// Adds what the element and the field of a column say of one fact, where it has no member. Errs only
/// when out of memory.
fn add_column_alone(
    alloc: Global,
    findings: &mut Vec<GeoFinding>,
    members: &ByKey<'_, '_>,
    it: &Sourced<'_>,
) -> Result<(), AllocError>
    ensures { OnOk result (map finding findings.new.items ≡ map finding findings.old.items
        ++ column_alone_findings (members_entries members.now.entries) (sourced it.now)) }
{
    let name = it.column.name.as_str();
    if has_member(name, members) {
        return Ok(());
    }
    add_own(alloc, findings, name, Some(it.column), it.element)
}

/// Adds what the elements and the fields of columns say of one fact, where these have no member. Errs
/// only when out of memory.
fn add_alone(
    alloc: Global,
    findings: &mut Vec<GeoFinding>,
    members: &ByKey<'_, '_>,
    all: &[Sourced<'_>],
) -> Result<(), AllocError>
    ensures { OnOk result (map finding findings.new.items ≡ map finding findings.old.items
        ++ alone_findings (members_entries members.now.entries) (map sourced all.now)) }
{
    let mut left = all;
    'columns: while let [it, rest @ ..] = left {
        add_column_alone(alloc, findings, members, it)?;
        left = rest;
    }
    Ok(())
}
