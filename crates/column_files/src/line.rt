//! A line of text, and the column that it denotes.
ghost use Rattle.std.specs.Prelude.{◌≡◌, Some, None, IfOk, is_some, codes, string_bytes};
ghost use Rattle.serde_json.specs.Data.{object, Members};
ghost use Rattle.serde_json.specs.Find.{get};
ghost use Rattle.serde_json.specs.View.{view, members_view};
ghost use Rattle.arrow_columns.specs.Column.{column_tree};
ghost use Rattle.field_lines.specs.FieldOfValue.{texts_in, metadata_of_value};
ghost use Rattle.field_lines.specs.ColumnOfValue.{column_of_value, column_of_line};
ghost use Rattle.column_files.specs.ColumnLines.{line_of_column, FitsLine};
ghost use Rattle.column_files.specs.LineItems.{refuses_file};
ghost use Rattle.column_files.specs.LineFaults.{IsLineRead, IsLineFault, later_fault, IsJsonFault, is_lone, IsValueFault, IsKeyFault, is_geojson, is_geojson_type};

use crate::form::behind_blanks;
use crate::lines::is_blank;
use arrow_columns::{AnyType, SchemaColumn};
use arrow_values::Field;
use field_lines::laws::{field_is_column, written_other_is_read};
use field_lines::{field_line, other_line, parse_column};
use json::Scratch;
use serde_json::{Map, Value};
use std::alloc::{AllocError, Global};

/// Why a line denotes no column (docs/FORMAT.md, 2.7).
#[derive(Debug, Clone, Copy, PartialEq, Eq)]
pub enum LineFault {
    /// The line is not UTF-8 from this byte on, counted from 0.
    NotUtf8(usize),
    /// The line is not JSON, nested at most 127 deep, nor one of the next two; with the byte at which that shows, counted from 1.
    NotJson(usize),
    /// The line is `{` alone, with which an object on several lines begins: no JSON; with the byte
    /// at which that shows, counted from 1.
    OpenObject(usize),
    /// The line is `[` alone, with which an array on several lines begins: no JSON; with the byte
    /// at which that shows, counted from 1.
    OpenArray(usize),
    /// The line is JSON, but no object.
    NotObject,
    /// The line is GeoJSON: an object with one of its types at the key `type`, and nothing at the
    /// key `nullable`; and whether a text stands at the key `name`. It is told of the first line of
    /// a file that is not blank alone.
    GeoJson(bool),
    /// There is no text at the key `name`.
    Name,
    /// Neither true nor false stands at the key `nullable`.
    Nullable,
    /// What stands at the key `metadata` is no object of texts.
    Metadata,
    /// There is no type at the key `type`.
    TypeUnknown,
}

impl LineFault {
    /// Whether a file is refused whose first line that is not blank has this fault
    /// (docs/FORMAT.md, 2.7).
    pub fn refuses_file(self) -> bool
        ensures { result ≡ refuses_file self }
    {
        matches!(
            self,
            LineFault::OpenObject(_) | LineFault::OpenArray(_) | LineFault::GeoJson(_)
        )
    }

    /// Returns the fault as it is told of a line that is not the first of a file which is not blank:
    /// of GeoJSON that there is no name, or no nullability (docs/FORMAT.md, 2.7).
    ///
    /// ```rust
    /// assert_eq!(rt; LineFault::GeoJson(false).of_later_line(), LineFault::Name);
    /// assert_eq!(rt; LineFault::GeoJson(true).of_later_line(), LineFault::Nullable);
    /// ```
    pub fn of_later_line(self) -> LineFault
        ensures { result ≡ later_fault self }
    {
        match self {
            LineFault::GeoJson(true) => LineFault::Nullable,
            LineFault::GeoJson(false) => LineFault::Name,
            _ => self,
        }
    }
}

/// The column that a line denotes: of a field (docs/FORMAT.md, 2.1), or of another type (2.7); or why it denotes none. The line is the
/// bytes before a line feed. The scratch buffer is kept by the caller from line to line. Errs only when out of memory.
///
/// ```rust
/// let line = br#"{"name":"at","nullable":true,"type":{"other":"timestamp[ms]"}}"#;
/// let read = parse_column_line(alloc, line, &mut Scratch::new(alloc))?;
/// assert!(rt; matches!(read, Ok(column) if matches!(column.data_type, AnyType::Other(_))));
/// let read = parse_column_line(alloc, b"{}", &mut Scratch::new(alloc))?;
/// assert!(rt; matches!(read, Err(LineFault::Name)));
/// ```
pub fn parse_column_line(
    alloc: Global,
    line: &[u8],
    scratch: &mut Scratch,
) -> Result<Result<SchemaColumn, LineFault>, AllocError>
    ensures { IfOk result (IsLineRead line.now) }
{
    match parse_column(alloc, line, scratch)? {
        Some(column) => Ok(Ok(column)),
        None => Ok(Err(line_fault(alloc, line)?)),
    }
}

/// The line of a column, without a line feed: that of a field, or of another type (docs/FORMAT.md, 2.7). It is read as the column, if
/// a line can represent its type, and is not nested too deep. Errs only when out of memory.
///
/// ```rust
/// let line = br#"{"name":"at","nullable":true,"type":{"other":"timestamp[ms]"}}"#;
/// let read = parse_column_line(alloc, line, &mut Scratch::new(alloc))?;
/// let Ok(column) = read else { return Ok(()); };
/// let written = column_line(alloc, column)?;
/// assert_eq!(rt; written.as_bytes(), line.as_slice());
/// ```
pub fn column_line(alloc: Global, column: SchemaColumn) -> Result<String, AllocError>
    ensures text { IfOk result (λ s. string_bytes s ≡ line_of_column (column_tree column)) }
    ensures reads_back { IfOk result (λ s. FitsLine (column_tree column) → column_of_line (string_bytes s) ≡ Some (column_tree column)) }
{
    field_is_column();
    written_other_is_read();
    let SchemaColumn {
        name,
        nullable,
        data_type,
        metadata,
    } = column;
    match data_type {
        AnyType::Data(data_type) => {
            let field = Field::from_parts(name, data_type, nullable, metadata);
            let line = field_line(alloc, &field);
            drop(field);
            line
        }
        AnyType::Other(other) => {
            let notation = other.notation.as_str();
            other_line(alloc, name.as_str(), nullable, &metadata, notation)
        }
    }
}

/// Why a line denotes no column.
#[cold]
fn line_fault(alloc: Global, line: &[u8]) -> Result<LineFault, AllocError>
    requires { column_of_line line.now ≡ None }
    ensures { IfOk result (IsLineFault line.now) }
{
    match simdutf8::compat::from_utf8(line) {
        Ok(text) => text_fault(alloc, text),
        Err(error) => Ok(LineFault::NotUtf8(error.valid_up_to())),
    }
}

/// Why a text denotes no column.
#[tactic(auto, using(crate::proofs::LineReads::no_column, crate::proofs::LineReads::line_fault_of, crate::proofs::LineReads::json_fault_of))]
fn text_fault(alloc: Global, text: &str) -> Result<LineFault, AllocError>
    requires { column_of_line text.now ≡ None }
    ensures { IfOk result (IsLineFault text.now) }
{
    match Value::from_str(alloc, text) {
        Ok(value) => Ok(value_fault(&value)),
        Err(error) => {
            if error.is_memory() {
                return Err(AllocError);
            }
            Ok(json_fault(text.as_bytes(), error.column()))
        }
    }
}

/// Why a line is no JSON, which shows at that byte.
fn json_fault(line: &[u8], at: usize) -> LineFault
    ensures { IsJsonFault line.now result }
{
    if is_lone(b'{', line) {
        return LineFault::OpenObject(at);
    }
    if is_lone(b'[', line) {
        return LineFault::OpenArray(at);
    }
    LineFault::NotJson(at)
}

/// Whether a line has this byte alone, with blanks around it.
fn is_lone(byte: u8, line: &[u8]) -> bool
    ensures { result ≡ is_lone byte line.now }
{
    match behind_blanks(line) {
        [first, rest @ ..] => *first == byte && is_blank(rest),
        [] => false,
    }
}

/// Why a value denotes no column.
#[tactic(auto, using(crate::proofs::KeyFaults::no_object, crate::proofs::KeyFaults::value_fault_of))]
fn value_fault(value: &Value) -> LineFault
    requires { column_of_value (view value.now) ≡ None }
    ensures { IsValueFault (view value.now) result }
{
    if !value.is_object() {
        return LineFault::NotObject;
    }
    key_fault(value)
}

/// Which of a column's keys an object lacks, or at which of them stands what denotes nothing.
fn key_fault(value: &Value) -> LineFault
    requires { column_of_value (view value.now) ≡ None }
    ensures { (ms : Members) → view value.now ≡ object ms → IsKeyFault ms result }
{
    field_is_column();
    let has_name = value.get("name").and_then(Value::as_str).is_some();
    if is_geojson(value) {
        return LineFault::GeoJson(has_name);
    }
    if !has_name {
        return LineFault::Name;
    }
    if value.get("nullable").and_then(Value::as_bool).is_none() {
        return LineFault::Nullable;
    }
    if !has_metadata(value) {
        return LineFault::Metadata;
    }
    LineFault::TypeUnknown
}

/// Whether a value has one of the types of GeoJSON at the key `type`, and nothing at the key `nullable`.
fn is_geojson(value: &Value) -> bool
    ensures { result ≡ is_geojson (view value.now) }
{
    match value.get("type").and_then(Value::as_str) {
        Some(name) => is_geojson_type(name) && value.get("nullable").is_none(),
        None => false,
    }
}

/// Whether a text is the name of a type of GeoJSON (RFC 7946, 1.4).
fn is_geojson_type(name: &str) -> bool
    ensures { result ≡ is_geojson_type name.now }
{
    matches!(
        name,
        "FeatureCollection"
            | "Feature"
            | "Point"
            | "LineString"
            | "Polygon"
            | "MultiPoint"
            | "MultiLineString"
            | "MultiPolygon"
            | "GeometryCollection"
    )
}

/// Whether an object of texts stands at the key `metadata`, or nothing.
fn has_metadata(value: &Value) -> bool
    ensures { result ≡ is_some (metadata_of_value (get (codes "metadata") (view value.now))) }
{
    match value.get("metadata") {
        Some(metadata) => is_texts(metadata),
        None => true,
    }
}

/// Whether a value is an object of texts.
fn is_texts(value: &Value) -> bool
    ensures { result ≡ is_some (metadata_of_value (Some (view value.now))) }
{
    match value.as_object() {
        Some(members) => are_texts(members),
        None => false,
    }
}

/// Whether the members of an object are texts.
fn are_texts(members: &Map<String, Value>) -> bool
    ensures { result ≡ is_some (texts_in (members_view members.now.entries)) }
{
    for entry in members.iter() {
        if entry.1.as_str().is_none() {
            return false;
        }
    }
    true
}
