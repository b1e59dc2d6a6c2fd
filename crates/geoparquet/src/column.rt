//! What is found of a member of `columns`.
ghost use Rattle.std.specs.Prelude.{◌≡◌, ◌++◌, ◌∷◌, [], OnOk, map, option_map};
ghost use Rattle.json.specs.Value.{value_view};
ghost use Rattle.value_tokens.specs.Values.{IsReadable, is_object};
ghost use Rattle.arrow_values.specs.Texts.{text_of};
ghost use Rattle.arrow_columns.specs.Column.{column_tree};
ghost use Rattle.geoparquet.specs.CoveringAbsent.{first_box};
ghost use Rattle.geoparquet.specs.Findings.{finding};
ghost use Rattle.geoparquet.specs.declared.code.GeoCode.{GeoCode};
ghost use Rattle.geoparquet.specs.GeoFindings.{key_finding, name_finding, key_findings, storage_findings, fact_findings, box_findings, claim_findings, covered_findings, part_findings, own_findings, value_findings, member_findings};
ghost use Rattle.geoparquet.specs.Sources.{element_view, element_named, sourced, AreElements};
ghost use Rattle.arrow_columns.specs.Names.{first_of};

use crate::adding::add_at;
use crate::box_range::add_bbox_range;
use crate::boxes::{add_bbox, add_bbox_dimension, add_bbox_order};
use crate::code::GeoCode;
use crate::contradictions::{
    add_edges_claims, add_edges_contradict, add_encoding_contradicts, add_encodings, add_layout,
    add_types_contradict,
};
use crate::counting::{add_edges_on_projected, add_own_on_projected};
use crate::covering::add_covering;
use crate::covering_absent::add_covering_absent;
use crate::crs_claims::{add_crs_claims, add_crs_contradicts};
use crate::finding::{GeoFinding, Version};
use crate::malformed::add_malformed;
use crate::members::{add_crs, add_edges, add_encoding, add_epoch, add_orientation};
use crate::place::column_place;
use crate::sources::Sources;
use crate::types::add_types;
use arrow_columns::{ColumnNames, SchemaColumn};
use json::Value;
use parquet_columns::RootElement;
use std::alloc::{AllocError, Global};

/// Adds a finding of a key. Errs only when out of memory.
fn add_key_finding(
    alloc: Global,
    findings: &mut Vec<GeoFinding>,
    code: GeoCode,
    key: &str,
    member: &Value<'_>,
) -> Result<(), AllocError>
    requires { IsReadable (value_view member.now) }
    ensures { OnOk result (map finding findings.new.items ≡ map finding findings.old.items
        ++ key_finding code key.now (value_view member.now) ∷ []) }
{
    let place = column_place(alloc, key)?;
    add_at(
        alloc,
        findings,
        code,
        Some(key),
        place.as_str(),
        Some(member),
        None,
    )
}

/// Adds a finding of a key that is the name of no column, or of several. Errs only when out of memory.
fn add_name_finding(
    alloc: Global,
    findings: &mut Vec<GeoFinding>,
    code: GeoCode,
    key: &str,
) -> Result<(), AllocError>
    ensures { OnOk result (map finding findings.new.items ≡ map finding findings.old.items
        ++ name_finding code key.now ∷ []) }
{
    add_key_finding(alloc, findings, code, key, &Value::String(key))
}

/// Adds what is found of a key: whether it is the name of one column. Errs only when out of memory.
fn add_key(
    alloc: Global,
    findings: &mut Vec<GeoFinding>,
    columns: &ColumnNames<'_>,
    key: &str,
) -> Result<(), AllocError>
    ensures { OnOk result (map finding findings.new.items ≡ map finding findings.old.items
        ++ key_findings (map column_tree columns.now) key.now) }
{
    let Some(_column) = columns.first(key) else {
        return add_name_finding(alloc, findings, GeoCode::ColumnMissing, key);
    };
    if columns.is_one(key) {
        return Ok(());
    }
    add_name_finding(alloc, findings, GeoCode::ColumnRepeated, key)
}

/// Adds what is found of how the geometries are stored. Errs only when out of memory.
fn add_storage(
    alloc: Global,
    findings: &mut Vec<GeoFinding>,
    version: Version,
    key: &str,
    column: Option<&SchemaColumn>,
    element: Option<&RootElement>,
    member: &Value<'_>,
) -> Result<(), AllocError>
    requires { IsReadable (value_view member.now) }
    ensures { OnOk result (map finding findings.new.items ≡ map finding findings.old.items
        ++ storage_findings version key.now (option_map (λ c. column_tree c.now) column.entry) (option_map (λ e. element_view e.now) element.entry) (value_view member.now)) }
{
    add_encoding(alloc, findings, version, key, member)?;
    add_layout(alloc, findings, version, key, column, element, member)?;
    add_types(alloc, findings, version, key, member)?;
    add_types_contradict(alloc, findings, version, key, column, element, member)
}

/// Adds what is found of what is said of the geometries. Errs only when out of memory.
fn add_facts(
    alloc: Global,
    findings: &mut Vec<GeoFinding>,
    version: Version,
    key: &str,
    member: &Value<'_>,
) -> Result<(), AllocError>
    requires { IsReadable (value_view member.now) }
    ensures { OnOk result (map finding findings.new.items ≡ map finding findings.old.items
        ++ fact_findings version key.now (value_view member.now)) }
{
    add_crs(alloc, findings, version, key, member)?;
    add_malformed(alloc, findings, version, key, member)?;
    add_edges(alloc, findings, version, key, member)?;
    add_orientation(alloc, findings, version, key, member)?;
    add_epoch(alloc, findings, version, key, member)
}

/// Adds what is found of the box. Errs only when out of memory.
fn add_box(
    alloc: Global,
    findings: &mut Vec<GeoFinding>,
    version: Version,
    key: &str,
    column: Option<&SchemaColumn>,
    element: Option<&RootElement>,
    member: &Value<'_>,
) -> Result<(), AllocError>
    requires { IsReadable (value_view member.now) }
    ensures { OnOk result (map finding findings.new.items ≡ map finding findings.old.items
        ++ box_findings version key.now (option_map (λ c. column_tree c.now) column.entry) (option_map (λ e. element_view e.now) element.entry) (value_view member.now)) }
{
    add_bbox(alloc, findings, version, key, member)?;
    add_bbox_order(alloc, findings, version, key, column, element, member)?;
    add_bbox_range(alloc, findings, version, key, column, element, member)?;
    add_bbox_dimension(alloc, findings, version, key, member)
}

/// Adds what is found against other columns. Errs only when out of memory.
fn add_coverings(
    alloc: Global,
    findings: &mut Vec<GeoFinding>,
    columns: &ColumnNames<'_>,
    boxed: Option<&str>,
    version: Version,
    key: &str,
    column: Option<&SchemaColumn>,
    member: &Value<'_>,
) -> Result<(), AllocError>
    requires boxed { text_of boxed ≡ first_box (map column_tree columns.now) }
    requires read { IsReadable (value_view member.now) }
    ensures { OnOk result (map finding findings.new.items ≡ map finding findings.old.items
        ++ covered_findings (map column_tree columns.now) version key.now (option_map (λ c. column_tree c.now) column.entry) (value_view member.now)) }
{
    add_covering(alloc, findings, columns, version, key, column, member)?;
    add_covering_absent(alloc, findings, boxed, version, key, column, member)
}

/// Adds what is found of what the element, the field and the member say of one fact. Errs only when
/// out of memory.
fn add_claims(
    alloc: Global,
    findings: &mut Vec<GeoFinding>,
    version: Version,
    key: &str,
    column: Option<&SchemaColumn>,
    element: Option<&RootElement>,
    member: &Value<'_>,
) -> Result<(), AllocError>
    requires { IsReadable (value_view member.now) }
    ensures { OnOk result (map finding findings.new.items ≡ map finding findings.old.items
        ++ claim_findings version key.now (option_map (λ c. column_tree c.now) column.entry) (option_map (λ e. element_view e.now) element.entry) (value_view member.now)) }
{
    add_encoding_contradicts(alloc, findings, version, key, column, element, member)?;
    add_crs_contradicts(alloc, findings, version, key, column, element, member)?;
    add_edges_contradict(alloc, findings, version, key, column, element, member)?;
    add_edges_on_projected(alloc, findings, version, key, column, element, member)
}

/// Adds what is found of the parts of a member. Errs only when out of memory.
fn add_parts(
    alloc: Global,
    findings: &mut Vec<GeoFinding>,
    columns: &ColumnNames<'_>,
    boxed: Option<&str>,
    version: Version,
    key: &str,
    column: Option<&SchemaColumn>,
    element: Option<&RootElement>,
    member: &Value<'_>,
) -> Result<(), AllocError>
    requires boxed { text_of boxed ≡ first_box (map column_tree columns.now) }
    requires read { IsReadable (value_view member.now) }
    ensures { OnOk result (map finding findings.new.items ≡ map finding findings.old.items
        ++ part_findings (map column_tree columns.now) version key.now (option_map (λ c. column_tree c.now) column.entry) (option_map (λ e. element_view e.now) element.entry) (value_view member.now)) }
{
    add_storage(alloc, findings, version, key, column, element, member)?;
    add_facts(alloc, findings, version, key, member)?;
    add_box(alloc, findings, version, key, column, element, member)?;
    add_coverings(
        alloc, findings, columns, boxed, version, key, column, member,
    )?;
    add_claims(alloc, findings, version, key, column, element, member)
}

/// Adds what is found of what the element and the field say of one fact, without a member. Errs only
/// when out of memory.
#[tactic(auto, unfolding(crate::specs::GeoFindings::own_findings))]
pub(crate) fn add_own(
    alloc: Global,
    findings: &mut Vec<GeoFinding>,
    key: &str,
    column: Option<&SchemaColumn>,
    element: Option<&RootElement>,
) -> Result<(), AllocError>
    ensures { OnOk result (map finding findings.new.items ≡ map finding findings.old.items
        ++ own_findings key.now (option_map (λ c. column_tree c.now) column.entry) (option_map (λ e. element_view e.now) element.entry)) }
{
    add_encodings(alloc, findings, key, column, element, None)?;
    add_crs_claims(alloc, findings, key, None, column, element, None)?;
    add_edges_claims(alloc, findings, key, None, column, element, None)?;
    add_own_on_projected(alloc, findings, key, column, element)
}

/// Whether a value is an object.
pub(crate) fn is_object(value: &Value<'_>) -> bool
    ensures { result ≡ is_object (value_view value.now) }
{
    matches!(value, Value::Object(_))
}

/// Adds what is found of a key whose value is no object. Errs only when out of memory.
fn add_no_object(
    alloc: Global,
    findings: &mut Vec<GeoFinding>,
    key: &str,
    column: Option<&SchemaColumn>,
    element: Option<&RootElement>,
    member: &Value<'_>,
) -> Result<(), AllocError>
    requires { IsReadable (value_view member.now) }
    ensures { OnOk result (map finding findings.new.items ≡ map finding findings.old.items
        ++ ((key_finding GeoCode.Member key.now (value_view member.now) ∷ []) ++ own_findings key.now (option_map (λ c. column_tree c.now) column.entry) (option_map (λ e. element_view e.now) element.entry))) }
{
    add_key_finding(alloc, findings, GeoCode::Member, key, member)?;
    add_own(alloc, findings, key, column, element)
}

/// Adds what is found of the value of a key, by the first column of that name, if there is one. Errs
/// only when out of memory.
fn add_value_of(
    alloc: Global,
    findings: &mut Vec<GeoFinding>,
    columns: &ColumnNames<'_>,
    boxed: Option<&str>,
    version: Version,
    key: &str,
    column: Option<&SchemaColumn>,
    element: Option<&RootElement>,
    member: &Value<'_>,
) -> Result<(), AllocError>
    requires boxed { text_of boxed ≡ first_box (map column_tree columns.now) }
    requires read { IsReadable (value_view member.now) }
    ensures { OnOk result (map finding findings.new.items ≡ map finding findings.old.items
        ++ value_findings (map column_tree columns.now) version key.now (option_map (λ c. column_tree c.now) column.entry) (option_map (λ e. element_view e.now) element.entry) (value_view member.now)) }
{
    if !is_object(member) {
        return add_no_object(alloc, findings, key, column, element, member);
    }
    add_parts(
        alloc, findings, columns, boxed, version, key, column, element, member,
    )
}

/// Adds what is found of the value of a key. Errs only when out of memory.
fn add_value(
    alloc: Global,
    findings: &mut Vec<GeoFinding>,
    columns: &ColumnNames<'_>,
    sources: &Sources<'_>,
    boxed: Option<&str>,
    version: Version,
    key: &str,
    member: &Value<'_>,
) -> Result<(), AllocError>
    requires boxed { text_of boxed ≡ first_box (map column_tree columns.now) }
    requires named { AreElements (map sourced sources.now.all.now) sources.now.named }
    requires read { IsReadable (value_view member.now) }
    ensures { OnOk result (map finding findings.new.items ≡ map finding findings.old.items
        ++ value_findings (map column_tree columns.now) version key.now (first_of (map column_tree columns.now) key.now) (element_named (map sourced sources.now.all.now) key.now) (value_view member.now)) }
{
    let column = columns.first(key);
    let element = sources.element(key);
    add_value_of(
        alloc, findings, columns, boxed, version, key, column, element, member,
    )
}

/// Adds what is found of a member of `columns` (docs/FORMAT.md, 5). Errs only when out of memory.
pub(crate) fn add_member(
    alloc: Global,
    findings: &mut Vec<GeoFinding>,
    columns: &ColumnNames<'_>,
    sources: &Sources<'_>,
    boxed: Option<&str>,
    version: Version,
    key: &str,
    member: &Value<'_>,
) -> Result<(), AllocError>
    requires boxed { text_of boxed ≡ first_box (map column_tree columns.now) }
    requires named { AreElements (map sourced sources.now.all.now) sources.now.named }
    requires read { IsReadable (value_view member.now) }
    ensures { OnOk result (map finding findings.new.items ≡ map finding findings.old.items
        ++ member_findings (map column_tree columns.now) (map sourced sources.now.all.now) version (key.now, value_view member.now)) }
{
    add_key(alloc, findings, columns, key)?;
    add_value(
        alloc, findings, columns, sources, boxed, version, key, member,
    )
}
