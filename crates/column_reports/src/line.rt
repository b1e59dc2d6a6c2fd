//! The line of a column.
ghost use Rattle.std.specs.Prelude.{◌≡◌, ◌≢◌, All, IfOk, OnOk, option_map, string_bytes};
ghost use Rattle.json.specs.Print.{print};
ghost use Rattle.json.specs.Tree.{json_tokens};
ghost use Rattle.arrow_values.specs.Texts.{text_of};
ghost use Rattle.arrow_columns.specs.Column.{column_tree};
ghost use Rattle.geoparquet.specs.Facts.{facts_view};
ghost use Rattle.column_reports.specs.FactMembers.{facts_in};
ghost use Rattle.column_reports.specs.Objects.{AddsMembers};
ghost use Rattle.column_reports.specs.Report.{names_of, state_of, crs_of, more_facts_of, report};

use crate::fact_members::{
    encoding_word, put_bbox, put_crs, put_edges, put_epoch, put_geometry_types, put_orientation,
    put_verdicts, type_of_field,
};
use crate::finding_json::put_findings;
use crate::put::{put_number, put_text, put_text_if};
use crate::report::ColumnReport;
use crate::words::{state_word, type_word};
use arrow_columns::SchemaColumn;
use column_check::Geometry;
use geoparquet::ColumnFacts;
use json::{Scratch, Writer};
use std::alloc::{AllocError, Global};
use value_tokens::text_of;

/// The room that a line is given at first, in bytes. Most lines take no more.
const LINE_ROOM: usize = 512;

/// Returns the report of one column as a line of JSON, without a line feed and without blanks
/// between its parts (`docs/FORMAT.md`, 2.5), with the name of the file, where one is given, and the
/// place of the column in its schema, from 0.
///
/// The member `crs` is the value of the CRS that counts, with its digits, the order of its members and
/// repeated members as they are written, without blanks; null where the CRS is not known. It is left
/// out of a column that is not found to hold geometries, or of whose CRS no source says anything. The
/// scratch buffer is kept by the caller from column to column. Errs only when out of memory.
///
/// ```rust
/// let column = SchemaColumn {
///     name: String::from_str(alloc, "geom")?,
///     nullable: false,
///     data_type: AnyType::Data(DataType::Int64),
///     metadata: BTreeMap::new(alloc),
/// };
/// let mut scratch = Scratch::new(alloc);
/// let options = Options { infer: false, notes: false };
/// let report = report_column(alloc, &mut scratch, column, options)?;
/// let line = json_line(alloc, &mut scratch, None, 3, &report)?;
/// assert_eq!(rt; line.as_str(), r#"{"kind":"column","index":3,"column":"geom","state":"plain","type":"int64"}"#);
///
/// let mut metadata = BTreeMap::new(alloc);
/// let name = String::from_str(alloc, "ARROW:extension:name")?;
/// drop(metadata.insert(name, String::from_str(alloc, "geoarrow.wkb")?)?);
/// let name = String::from_str(alloc, "ARROW:extension:metadata")?;
/// drop(metadata.insert(name, String::from_str(alloc, r#"{"crs": "EPSG:4326"}"#)?)?);
/// let data_type = AnyType::Data(DataType::Binary);
/// let column = SchemaColumn { name: report.column.name, nullable: true, data_type, metadata };
/// let report = report_column(alloc, &mut scratch, column, options)?;
/// let line = json_line(alloc, &mut scratch, Some("a.arrow"), 0, &report)?;
/// assert_eq!(rt; line.as_str(), r#"{"kind":"column","file":"a.arrow","index":0,"column":"geom","state":"geometry","type":"wkb - -","type_from":"field","extension":"geoarrow.wkb","crs":"EPSG:4326","crs_from":"field","edges":"planar","edges_from":"field"}"#);
///
/// let data_type = AnyType::Data(DataType::Utf8);
/// let SchemaColumn { name, nullable, metadata, .. } = report.column;
/// let column = SchemaColumn { name, nullable, data_type, metadata };
/// let report = report_column(alloc, &mut scratch, column, options)?;
/// let line = json_line(alloc, &mut scratch, None, 0, &report)?;
/// assert_eq!(rt; line.as_str(), r#"{"kind":"column","index":0,"column":"geom","state":"invalid","type":"utf8","extension":"geoarrow.wkb","findings":[{"severity":"error","code":"WrongStorage","in":"field","found":"utf8","expected":"binary, large_binary or binary_view","help":"For WKT use geoarrow.wkt."}]}"#);
///
/// let path = vec![in alloc; String::from_str(alloc, "child")?]?;
/// let code = WarningCode::NestedGeometry;
/// let found = Some(String::from_str(alloc, "geoarrow.wkb")?);
/// let warning = Warning { code, path, pointer: None, found, wanted: None, more: 0 };
/// let warned = Weighed { severity: Severity::Warning, more: 0, finding: Finding::Column(NamedBy::Field, warning) };
/// let findings = vec![in alloc; warned]?;
/// let finding = column_check::Finding::Extension;
/// let (column, facts) = (report.column, report.facts);
/// let report = ColumnReport { column, by: NamedBy::Field, finding, facts, findings };
/// let line = json_line(alloc, &mut scratch, None, 0, &report)?;
/// assert_eq!(rt; line.as_str(), r#"{"kind":"column","index":0,"column":"geom","state":"extension","type":"utf8","extension":"geoarrow.wkb","findings":[{"severity":"warning","code":"NestedGeometry","path":["child"],"in":"field","found":"geoarrow.wkb","expected":"the name of a column alone","help":"GeoParquet takes columns at the root alone."}]}"#);
/// ```
pub fn json_line(
    alloc: Global,
    scratch: &mut Scratch,
    file: Option<&str>,
    index: usize,
    said: &ColumnReport,
) -> Result<String, AllocError>
    ensures text { IfOk result (λ text. string_bytes text ≡ print (json_tokens (report (text_of file.entry) index said.now))) }
    ensures one_line { IfOk result (λ text. All (λ b. b ≢ 10) (string_bytes text)) }
{
    let geometry = said.finding.geometry();
    let facts = facts_in(geometry, &said.facts);
    let type_word = type_word(alloc, &said.column, geometry)?;
    let mut out = Writer::new(Vec::with_capacity(alloc, LINE_ROOM)?);
    out.begin_object()?;
    put_names(&mut out, file, index, &said.column)?;
    put_state(&mut out, said, type_word.as_str(), facts)?;
    put_crs_and_edges(&mut out, scratch, facts)?;
    put_facts(&mut out, scratch, said, facts)?;
    put_findings(alloc, &mut out, said.findings.as_slice())?;
    out.end_object()?;
    Ok(text_of(out))
}

/// Returns the facts of geometries, and of no other column.
fn facts_in<'f>(geometry: Option<&Geometry>, facts: &'f ColumnFacts) -> Option<&'f ColumnFacts>
    ensures { option_map (λ f. facts_view f.now) result ≡ facts_in (option_map (λ g. g.now) geometry.entry) (facts_view facts.now) }
{
    match geometry {
        Some(_) => Some(facts),
        None => None,
    }
}

/// Writes what the object is, the name of the file, if there is one, and the place of a column and
/// its name.
fn put_names(
    out: &mut Writer,
    file: Option<&str>,
    index: usize,
    column: &SchemaColumn,
) -> Result<(), AllocError>
    ensures { OnOk result (AddsMembers (names_of (text_of file.entry) index (column_tree column.now)) out.old out.new) }
{
    put_text(out, "kind", "column")?;
    put_text_if(out, "file", file)?;
    put_number(out, "index", index as u64)?;
    put_text(out, "column", column.name.as_str())
}

/// Writes the state of a column, the word of its type, which source says it, and its extension name.
fn put_state(
    out: &mut Writer,
    said: &ColumnReport,
    word: &str,
    facts: Option<&ColumnFacts>,
) -> Result<(), AllocError>
    ensures { OnOk result (AddsMembers (state_of (column_tree said.now.column) said.now.finding word.now (option_map (λ f. facts_view f.now) facts.entry)) out.old out.new) }
{
    put_text(out, "state", state_word(&said.finding))?;
    put_text(out, "type", word)?;
    put_text_if(out, "type_from", encoding_word(facts))?;
    put_text_if(out, "extension", said.column.extension_type_name())
}

/// Writes the CRS, the edges and the epoch of geometries.
fn put_crs_and_edges(
    out: &mut Writer,
    scratch: &mut Scratch,
    facts: Option<&ColumnFacts>,
) -> Result<(), AllocError>
    ensures { OnOk result (AddsMembers (crs_of (option_map (λ f. facts_view f.now) facts.entry)) out.old out.new) }
{
    put_crs(out, scratch, facts)?;
    put_edges(out, facts)?;
    put_epoch(out, scratch, facts)
}

/// Writes the orientation, the types and the box of geometries, and what the other sources say.
fn put_facts(
    out: &mut Writer,
    scratch: &mut Scratch,
    said: &ColumnReport,
    facts: Option<&ColumnFacts>,
) -> Result<(), AllocError>
    ensures { OnOk result (AddsMembers (more_facts_of said.now.by said.now.finding (option_map (λ f. facts_view f.now) facts.entry)) out.old out.new) }
{
    put_orientation(out, scratch, facts)?;
    put_geometry_types(out, scratch, facts, type_of_field(said.by, &said.finding))?;
    put_bbox(out, scratch, facts)?;
    put_verdicts(out, facts)
}
