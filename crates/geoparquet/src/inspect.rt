//! What the value at the key `geo` says, which is read once: what is found, the facts, the columns.
ghost use Rattle.std.specs.Prelude.{◌≡◌, ◌++◌, [], IfOk, map, unwrap_or};
ghost use Rattle.json.specs.Json.{null};
ghost use Rattle.json.specs.Value.{value_view};
ghost use Rattle.arrow_columns.specs.Column.{column_tree};
ghost use Rattle.crs_identity.specs.Forms.{json_in};
ghost use Rattle.geoparquet.specs.Extensions.{IsJson, IsRead};
ghost use Rattle.geoparquet.specs.Facts.{facts_behind, facts_of, facts_view};
ghost use Rattle.geoparquet.specs.Findings.{finding};
ghost use Rattle.geoparquet.specs.GeoColumns.{AreColumnsBy, AreGeoColumns};
ghost use Rattle.geoparquet.specs.GeoFindings.{alone_findings, unread_findings, AreGeoFindings, AreTextFindings, AreValueFindings};
ghost use Rattle.geoparquet.specs.Sources.{element_view, geo_json, source, value, with_elements};
ghost use Rattle.geoparquet.specs.declared.finding.Version.{Version};

use crate::check::{report_of, unread_report};
use crate::extended::geo_columns;
use crate::facts::{ColumnFacts, facts_by, facts_without};
use crate::finding::GeoReport;
use crate::source::{GeoSource, Unread};
use crate::sources::with_elements;
use arrow_columns::SchemaColumn;
use json::{Scratch, Value};
use parquet_columns::RootElement;
use std::alloc::{AllocError, Global};
use value_tokens::{Refusal, read_json};

/// What a file with its columns has at the key `geo` (docs/FORMAT.md, 5).
#[derive(Debug, Drop)]
pub struct GeoAnswer {
    /// What is found of it.
    pub report: GeoReport,
    /// The facts of each column, in order.
    pub facts: Vec<ColumnFacts>,
    /// The columns by it, in order.
    pub columns: Vec<SchemaColumn>,
}

/// Returns what is found of what a file with these columns has at the key `geo`, where `elements`
/// are what its elements say beside its columns, in order (docs/FORMAT.md, 5); the facts of the
/// columns; and the columns by it. A column beyond those of `elements` has none. Where a key of an
/// object is repeated, its last value counts. Errs only when out of memory.
///
/// What is found is the version by which the metadata are judged, and a finding for each rule that
/// is not kept, where it is not. Of a value that is no UTF-8 or no JSON, and of one that is no
/// object, that is found, and what the element and the field of a column say of one fact.
///
/// Of the CRS and the edges counts the first that is said, in the order of the element, the member
/// of `columns` and the field, and else the first default; of the encoding that of the field, else
/// that of the member, else that of the element. The first column of a name has its member of
/// `columns`. A value that is no JSON counts as none.
///
/// A column that has no extension name, that is the first of its name, and that has by
/// [`encoded_as`](crate::encoded_as) the extension name of the encoding that its member of
/// `columns` says, has that name, unless the encoding is none of the version or `GeoLayout` is
/// found of it; and as its extension metadata the CRS and the edges of that member (GeoParquet 1.1,
/// "Column metadata"; docs/FORMAT.md, 5.2): a CRS that is absent is `OGC:CRS84`, and PROJJSON keeps
/// its tokens, so each number stays as it is written, and each key in its place. All else, every
/// other column and the order are as they were. What is no JSON object changes nothing.
///
/// Takes time that grows with the length of the value, with what the columns and the elements have,
/// and with the number of columns, times the logarithm of the number of members of `columns`; with
/// the number of coverings times that of the children of their groups; and with the number of
/// columns that hold geometries and have no member, times that of members.
///
/// ```rust
/// let column = SchemaColumn {
///     name: String::from_str(alloc, "geom")?,
///     nullable: true,
///     data_type: AnyType::Data(DataType::Binary),
///     metadata: BTreeMap::new(alloc),
/// };
/// let columns = vec![in alloc; column]?;
/// let geo = br#"{"version":"1.1.0","primary_column":"geom",
///     "columns":{"geom":{"encoding":"WKB","geometry_types":["Dot"]}}}"#;
/// let answer = inspect_geo(alloc, GeoSource::Value(geo), columns, &[])?;
/// assert_eq!(rt; answer.report.findings.len(), 1);
/// assert_eq!(rt; answer.report.findings[0].pointer.as_str(), "/columns/geom/geometry_types/0");
/// let Some(crs) = &answer.facts[0].crs else { return Ok(()); };
/// assert_eq!(rt; crs.from, FactSource::Geo);
/// assert_eq!(rt; answer.columns[0].extension_type_name(), Some("geoarrow.wkb"));
/// let text = r#"{"crs":"OGC:CRS84","crs_type":"authority_code"}"#;
/// assert_eq!(rt; answer.columns[0].extension_type_metadata(), Some(text));
/// ```
pub fn inspect_geo(
    alloc: Global,
    geo: GeoSource<'_>,
    columns: Vec<SchemaColumn>,
    elements: &[RootElement],
) -> Result<GeoAnswer, AllocError>
    ensures findings { IfOk result (λ answer. AreGeoFindings (source geo.entry) (map column_tree columns.items) (map element_view elements.now) answer.report.version (map finding answer.report.findings.items)) }
    ensures facts { IfOk result (λ answer. map facts_view answer.facts.items ≡ facts_of (source geo.entry) (map column_tree columns.items) (map element_view elements.now)) }
    ensures columns { IfOk result (λ answer. AreColumnsBy (source geo.entry) (map column_tree columns.items) (map element_view elements.now) (map column_tree answer.columns.items)) }
{
    match geo {
        GeoSource::Unasked => unread_answer(alloc, Unread::Unasked, columns, elements),
        GeoSource::Missing => unread_answer(alloc, Unread::Missing, columns, elements),
        GeoSource::Value(bytes) => value_answer(alloc, bytes, columns, elements),
    }
}

/// Returns what is said where there is no JSON. Errs only when out of memory.
fn unread_answer(
    alloc: Global,
    unread: Unread<'_>,
    columns: Vec<SchemaColumn>,
    elements: &[RootElement],
) -> Result<GeoAnswer, AllocError>
    ensures version { IfOk result (λ answer. answer.report.version ≡ Version.V1_1) }
    ensures findings { IfOk result (λ answer. map finding answer.report.findings.items ≡ unread_findings unread.entry (with_elements (map column_tree columns.items) (map element_view elements.now))
        ++ alone_findings [] (with_elements (map column_tree columns.items) (map element_view elements.now))) }
    ensures facts { IfOk result (λ answer. map facts_view answer.facts.items ≡ facts_behind null [] (with_elements (map column_tree columns.items) (map element_view elements.now))) }
    ensures columns { IfOk result (λ answer. AreGeoColumns null [] (with_elements (map column_tree columns.items) (map element_view elements.now)) (map column_tree answer.columns.items)) }
{
    let all = with_elements(alloc, columns.as_slice(), elements)?;
    let report = unread_report(alloc, unread, all.as_slice())?;
    let facts = facts_without(alloc, all.as_slice())?;
    drop(all);
    Ok(GeoAnswer {
        report,
        facts,
        columns,
    })
}

/// Returns what a value says. Errs only when out of memory.
fn value_answer(
    alloc: Global,
    bytes: &[u8],
    columns: Vec<SchemaColumn>,
    elements: &[RootElement],
) -> Result<GeoAnswer, AllocError>
    ensures findings { IfOk result (λ answer. AreValueFindings bytes.now (map column_tree columns.items) (with_elements (map column_tree columns.items) (map element_view elements.now)) answer.report.version (map finding answer.report.findings.items)) }
    ensures facts { IfOk result (λ answer. map facts_view answer.facts.items ≡ facts_behind (geo_json (value bytes.now)) [] (with_elements (map column_tree columns.items) (map element_view elements.now))) }
    ensures columns { IfOk result (λ answer. AreGeoColumns (geo_json (value bytes.now)) [] (with_elements (map column_tree columns.items) (map element_view elements.now)) (map column_tree answer.columns.items)) }
{
    match str::from_utf8(bytes) {
        Ok(geo) => text_answer(alloc, geo, columns, elements),
        Err(_) => unread_answer(alloc, Unread::NoUtf8(bytes), columns, elements),
    }
}

/// Returns what a text says. Errs only when out of memory.
fn text_answer(
    alloc: Global,
    geo: &str,
    columns: Vec<SchemaColumn>,
    elements: &[RootElement],
) -> Result<GeoAnswer, AllocError>
    ensures findings { IfOk result (λ answer. AreTextFindings geo.now (map column_tree columns.items) (with_elements (map column_tree columns.items) (map element_view elements.now)) answer.report.version (map finding answer.report.findings.items)) }
    ensures facts { IfOk result (λ answer. map facts_view answer.facts.items ≡ facts_behind (unwrap_or (json_in geo.now) null) [] (with_elements (map column_tree columns.items) (map element_view elements.now))) }
    ensures columns { IfOk result (λ answer. AreGeoColumns (unwrap_or (json_in geo.now) null) [] (with_elements (map column_tree columns.items) (map element_view elements.now)) (map column_tree answer.columns.items)) }
{
    let mut scratch = Scratch::new(alloc);
    match read_json(alloc, geo, &mut scratch) {
        Ok(json) => json_answer(alloc, geo, &json, columns, elements),
        Err(Refusal::Text) => unread_answer(alloc, Unread::NoJson(geo), columns, elements),
        Err(Refusal::Memory) => Err(AllocError),
    }
}

/// What is found of the JSON value that a text is, and the facts of columns. Errs only when out of
/// memory.
fn json_said(
    alloc: Global,
    geo: &str,
    json: &Value<'_>,
    columns: &[SchemaColumn],
    elements: &[RootElement],
) -> Result<(GeoReport, Vec<ColumnFacts>), AllocError>
    requires is { IsJson geo.now (value_view json.now) }
    requires read { IsRead (value_view json.now) }
    ensures findings { IfOk result (λ said. AreTextFindings geo.now (map column_tree columns.now) (with_elements (map column_tree columns.now) (map element_view elements.now)) said.0.version (map finding said.0.findings.items)) }
    ensures facts { IfOk result (λ said. map facts_view said.1.items ≡ facts_behind (value_view json.now) [] (with_elements (map column_tree columns.now) (map element_view elements.now))) }
{
    let all = with_elements(alloc, columns, elements)?;
    let report = report_of(alloc, geo, json, columns, all.as_slice())?;
    let facts = facts_by(alloc, json, all.as_slice())?;
    Ok((report, facts))
}

/// Returns what the JSON value that a text is says. Errs only when out of memory.
fn json_answer(
    alloc: Global,
    geo: &str,
    json: &Value<'_>,
    columns: Vec<SchemaColumn>,
    elements: &[RootElement],
) -> Result<GeoAnswer, AllocError>
    requires is { IsJson geo.now (value_view json.now) }
    requires read { IsRead (value_view json.now) }
    ensures findings { IfOk result (λ answer. AreTextFindings geo.now (map column_tree columns.items) (with_elements (map column_tree columns.items) (map element_view elements.now)) answer.report.version (map finding answer.report.findings.items)) }
    ensures facts { IfOk result (λ answer. map facts_view answer.facts.items ≡ facts_behind (value_view json.now) [] (with_elements (map column_tree columns.items) (map element_view elements.now))) }
    ensures columns { IfOk result (λ answer. AreGeoColumns (value_view json.now) [] (with_elements (map column_tree columns.items) (map element_view elements.now)) (map column_tree answer.columns.items)) }
{
    let (report, facts) = json_said(alloc, geo, json, columns.as_slice(), elements)?;
    let columns = geo_columns(alloc, json, columns, elements)?;
    Ok(GeoAnswer {
        report,
        facts,
        columns,
    })
}
