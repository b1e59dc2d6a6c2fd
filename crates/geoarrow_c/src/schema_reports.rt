//! The report of a schema that lies in memory.
ghost use Rattle.std.specs.Prelude.{◌≡◌, ◌⊎◌, ◌↔◌, ◌<◌, ◌≤◌, length, Ok};
ghost use Rattle.arrow_values.specs.Texts.{text_at};
ghost use Rattle.arrow_values.specs.View.{texts_of};
ghost use Rattle.column_files.specs.Geo.{geo_of, of_schema};
ghost use Rattle.parquet_columns.specs.Findings.{geo_key};
ghost use Rattle.geoarrow_c.specs.Buffer.{Fills, Lacks, Makes};
ghost use Rattle.geoarrow_c.specs.Records.{schema_in, field_in};
ghost use Rattle.geoarrow_c.specs.SchemaReports.{IsOpenedAs, Reports};
ghost use Rattle.geoarrow_c.specs.SchemaReports.{IsReportRead, IsUnreported};
ghost use Rattle.geoarrow_c.specs.SchemaReports.{IsSchemaReport, IsSchemaUnreported};
ghost use Rattle.geoarrow_c.specs.Walks.{place_in};

use crate::buffer::fill;
use crate::records::{Refusal, field_in, schema_in};
use crate::refusal::{refuse, refuse_file};
use crate::report::options_of;
use crate::status::{MEMORY, UNKNOWN};
use crate::walk::{place_in, walk_of};
use column_files::{BadLines, File, FileFault, Form, GeoText};
use column_reports::{Options, json_lines, report_budget, report_of};
use parquet_columns::GEO_KEY;
use record_columns::RecordSchema;
use std::alloc::Global;
use std::collections::BTreeMap;

/// What stands at the key `geo` in the metadata of a schema, from which it is taken out.
fn take_geo<'a>(metadata: &mut BTreeMap<String, String>) -> GeoText<'a>
    ensures { geo_of result ≡ of_schema (text_at geo_key (texts_of metadata.old.entries)) }
{
    match metadata.remove(GEO_KEY) {
        Some(text) => GeoText::Schema(text),
        None => GeoText::Absent,
    }
}

/// What is opened of a schema, as of an Arrow stream of it.
fn opened<'a>(alloc: Global, schema: RecordSchema) -> File<'a>
    ensures { IsOpenedAs schema result }
{
    let RecordSchema { columns, metadata } = schema;
    let mut metadata = metadata;
    let geo = take_geo(&mut metadata);
    File {
        form: Form::ArrowStream,
        columns,
        bad_lines: BadLines::new(alloc),
        elements: Vec::new(alloc),
        refuted: Vec::new(alloc),
        findings: Vec::new(alloc),
        texts: Vec::new(alloc),
        geo,
    }
}

/// The lines of the report of a schema that took so many bytes as records.
fn lines_of(
    alloc: Global,
    asked: Options,
    size: usize,
    schema: RecordSchema,
) -> Result<String, FileFault>
    ensures { Reports asked size schema result }
{
    let file = opened(alloc, schema);
    let report = report_of(alloc, file, asked)?;
    json_lines(alloc, None, &report, report_budget(size))
}

/// Writes the report of a schema to the front of a buffer, or the line that says why there is none,
/// as `refuse` does.
fn report_schema(
    alloc: Global,
    asked: Options,
    size: usize,
    schema: RecordSchema,
    out: &mut [u8],
    len: &mut usize,
) -> u8
    ensures done { result ≡ 0 → Makes (IsReportRead asked size (Ok schema)) len.new (λ lines. Fills lines out.old out.new) }
    ensures refused { result ≡ 5 → Makes (IsUnreported asked size (Ok schema)) len.new (λ line. Fills line out.old out.new) }
    ensures short { result ≡ 1 → Makes (λ text. IsReportRead asked size (Ok schema) text ⊎ IsUnreported asked size (Ok schema) text) len.new (λ text. Lacks text out.old out.new) }
    ensures unchanged { result ≡ 2 → (out.new ≡ out.old) × (len.new ≡ len.old) }
    ensures status { (result ≤ 2) ⊎ (result ≡ 5) }
{
    match lines_of(alloc, asked, size, schema) {
        Ok(lines) => fill(lines.as_bytes(), out, len),
        Err(fault) => refuse_file(alloc, None, Form::ArrowStream, fault, out, len),
    }
}

/// Writes the report of a schema that was read, as `report_schema` does.
fn report_read(
    alloc: Global,
    asked: Options,
    size: usize,
    read: Result<RecordSchema, Refusal>,
    out: &mut [u8],
    len: &mut usize,
) -> u8
    ensures done { result ≡ 0 → Makes (IsReportRead asked size read) len.new (λ lines. Fills lines out.old out.new) }
    ensures refused { result ≡ 5 → Makes (IsUnreported asked size read) len.new (λ line. Fills line out.old out.new) }
    ensures short { result ≡ 1 → Makes (λ text. IsReportRead asked size read text ⊎ IsUnreported asked size read text) len.new (λ text. Lacks text out.old out.new) }
    ensures unchanged { result ≡ 2 → (out.new ≡ out.old) × (len.new ≡ len.old) }
    ensures status { (result ≤ 2) ⊎ (result ≡ 5) }
{
    match read {
        Ok(schema) => report_schema(alloc, asked, size, schema, out, len),
        Err(Refusal::Told(fault)) => refuse(alloc, None, &fault, out, len),
        Err(Refusal::OutOfMemory) => MEMORY,
    }
}

/// Writes the report of a schema to the front of `out`, and its length to `len`, by the records of
/// its structures: what each of its columns holds, which are the children of the outermost one, a
/// line of JSON for each, with its line feed, as of an Arrow stream of it (docs/FORMAT.md, 2.5 and
/// 2.7). The options are those of [`crate::geoarrow_report`]. `walk` is how the walk over the
/// structures ended, and `column` in which column, or -1 (`native/records.h`); the records count
/// where it ended well.
///
/// Returns 0; or 5 where the schema is refused: the line that says why, with its line feed, stands
/// in place of a report (docs/FORMAT.md, 2.8). Returns 1 where `out` is too small for what would
/// stand there: it is then unchanged, and `len` says what is needed; 2 when out of memory, also
/// where the walk was, and 3 where a number is that of no options or of no walk, with both
/// unchanged.
#[unsafe(no_mangle)]
pub extern "C" fn schema_report(
    alloc: Global,
    options: u8,
    walk: u8,
    column: i64,
    records: &[u8],
    out: &mut [u8],
    len: &mut usize,
) -> u8
    ensures done { result ≡ 0 → Makes (IsSchemaReport (schema_in (place_in column) records.now) (length records.now) options walk) len.new (λ lines. Fills lines out.old out.new) }
    ensures refused { result ≡ 5 → Makes (IsSchemaUnreported (schema_in (place_in column) records.now) (length records.now) options walk) len.new (λ line. Fills line out.old out.new) }
    ensures short { result ≡ 1 → Makes (λ text. IsSchemaReport (schema_in (place_in column) records.now) (length records.now) options walk text ⊎ IsSchemaUnreported (schema_in (place_in column) records.now) (length records.now) options walk text) len.new (λ text. Lacks text out.old out.new) }
    ensures unchanged { (result ≡ 2) ⊎ (result ≡ 3) → (out.new ≡ out.old) × (len.new ≡ len.old) }
    ensures unknown { (result ≡ 3) ↔ ((3 < options) ⊎ (9 < walk)) }
    ensures status { (result ≤ 3) ⊎ (result ≡ 5) }
{
    let Some(asked) = options_of(options) else {
        return UNKNOWN;
    };
    let Some(walk) = walk_of(walk) else {
        return UNKNOWN;
    };
    let read = schema_in(alloc, place_in(column), records, walk);
    report_read(alloc, asked, records.len(), read, out, len)
}

/// Writes the report of a schema of one column, whose structures those of the records are, and
/// without metadata, as [`schema_report`] writes that of a schema.
#[unsafe(no_mangle)]
pub extern "C" fn field_report(
    alloc: Global,
    options: u8,
    walk: u8,
    records: &[u8],
    out: &mut [u8],
    len: &mut usize,
) -> u8
    ensures done { result ≡ 0 → Makes (IsSchemaReport (field_in records.now) (length records.now) options walk) len.new (λ lines. Fills lines out.old out.new) }
    ensures refused { result ≡ 5 → Makes (IsSchemaUnreported (field_in records.now) (length records.now) options walk) len.new (λ line. Fills line out.old out.new) }
    ensures short { result ≡ 1 → Makes (λ text. IsSchemaReport (field_in records.now) (length records.now) options walk text ⊎ IsSchemaUnreported (field_in records.now) (length records.now) options walk text) len.new (λ text. Lacks text out.old out.new) }
    ensures unchanged { (result ≡ 2) ⊎ (result ≡ 3) → (out.new ≡ out.old) × (len.new ≡ len.old) }
    ensures unknown { (result ≡ 3) ↔ ((3 < options) ⊎ (9 < walk)) }
    ensures status { (result ≤ 3) ⊎ (result ≡ 5) }
{
    let Some(asked) = options_of(options) else {
        return UNKNOWN;
    };
    let Some(walk) = walk_of(walk) else {
        return UNKNOWN;
    };
    let read = field_in(alloc, records, walk);
    report_read(alloc, asked, records.len(), read, out, len)
}
