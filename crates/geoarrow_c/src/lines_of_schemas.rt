//! The columns of a schema that lies in memory as lines.
ghost use Rattle.std.specs.Prelude.{◌≡◌, ◌⊎◌, ◌↔◌, ◌<◌, ◌≤◌, IfOk, map, string_bytes, Ok};
ghost use Rattle.std.specs.Prelude.{flat_map};
ghost use Rattle.arrow_columns.specs.Column.{column_tree};
ghost use Rattle.geoarrow_c.specs.Buffer.{Fills, Lacks, Makes};
ghost use Rattle.geoarrow_c.specs.Canonical.{line_of};
ghost use Rattle.geoarrow_c.specs.Records.{schema_in, field_in};
ghost use Rattle.geoarrow_c.specs.SchemaLines.{AreLinesRead, IsRefusalRead};
ghost use Rattle.geoarrow_c.specs.SchemaLines.{AreSchemaLines, IsSchemaRefusal};
ghost use Rattle.geoarrow_c.specs.Walks.{place_in};

use crate::buffer::fill;
use crate::canonical::add_line;
use crate::records::{Refusal, field_in, schema_in};
use crate::refusal::refuse;
use crate::status::{MEMORY, UNKNOWN};
use crate::walk::{place_in, walk_of};
use arrow_columns::SchemaColumn;
use record_columns::RecordSchema;
use std::alloc::{AllocError, Global};

/// Returns the lines of columns. Errs only when out of memory.
fn lines_of(alloc: Global, columns: Vec<SchemaColumn>) -> Result<String, AllocError>
    ensures { IfOk result (λ lines. string_bytes lines ≡ flat_map line_of (map column_tree columns.items)) }
{
    let mut lines = String::new(alloc);
    'columns: for column in columns {
        add_line(alloc, &mut lines, column)?;
    }
    Ok(lines)
}

/// Writes the lines of the columns of a schema to the front of a buffer, if it has room, and their
/// length in either case. Returns the status.
fn fill_lines(alloc: Global, schema: RecordSchema, out: &mut [u8], len: &mut usize) -> u8
    ensures done { result ≡ 0 → Makes (AreLinesRead (Ok schema)) len.new (λ lines. Fills lines out.old out.new) }
    ensures short { result ≡ 1 → Makes (AreLinesRead (Ok schema)) len.new (λ lines. Lacks lines out.old out.new) }
    ensures unchanged { result ≡ 2 → (out.new ≡ out.old) × (len.new ≡ len.old) }
    ensures status { result ≤ 2 }
{
    match lines_of(alloc, schema.columns) {
        Ok(lines) => fill(lines.as_bytes(), out, len),
        Err(AllocError) => MEMORY,
    }
}

/// Writes the lines of a schema that was read, or the line that says why there is none, as `refuse`
/// does.
fn lines_read(
    alloc: Global,
    read: Result<RecordSchema, Refusal>,
    out: &mut [u8],
    len: &mut usize,
) -> u8
    ensures done { result ≡ 0 → Makes (AreLinesRead read) len.new (λ lines. Fills lines out.old out.new) }
    ensures refused { result ≡ 5 → Makes (IsRefusalRead read) len.new (λ line. Fills line out.old out.new) }
    ensures short { result ≡ 1 → Makes (λ text. AreLinesRead read text ⊎ IsRefusalRead read text) len.new (λ text. Lacks text out.old out.new) }
    ensures unchanged { result ≡ 2 → (out.new ≡ out.old) × (len.new ≡ len.old) }
    ensures status { (result ≤ 2) ⊎ (result ≡ 5) }
{
    match read {
        Ok(schema) => fill_lines(alloc, schema, out, len),
        Err(Refusal::Told(fault)) => refuse(alloc, None, &fault, out, len),
        Err(Refusal::OutOfMemory) => MEMORY,
    }
}

/// Writes the columns of a schema as lines to the front of `out`, and their length to `len`, by the
/// records of its structures: for each column, in their order, its line, with its line feed
/// (docs/FORMAT.md, 2.7). `walk` and `column` are as for [`crate::schema_report`].
///
/// Returns 0; or 5 where the schema is refused: the line that says why, with its line feed, stands
/// in place of lines (docs/FORMAT.md, 2.8). Returns 1 where `out` is too small for what would stand
/// there: it is then unchanged, and `len` says what is needed; 2 when out of memory, also where the
/// walk was, and 3 where the number is that of no walk, with both unchanged.
#[unsafe(no_mangle)]
pub extern "C" fn schema_lines(
    alloc: Global,
    walk: u8,
    column: i64,
    records: &[u8],
    out: &mut [u8],
    len: &mut usize,
) -> u8
    ensures done { result ≡ 0 → Makes (AreSchemaLines (schema_in (place_in column) records.now) walk) len.new (λ lines. Fills lines out.old out.new) }
    ensures refused { result ≡ 5 → Makes (IsSchemaRefusal (schema_in (place_in column) records.now) walk) len.new (λ line. Fills line out.old out.new) }
    ensures short { result ≡ 1 → Makes (λ text. AreSchemaLines (schema_in (place_in column) records.now) walk text ⊎ IsSchemaRefusal (schema_in (place_in column) records.now) walk text) len.new (λ text. Lacks text out.old out.new) }
    ensures unchanged { (result ≡ 2) ⊎ (result ≡ 3) → (out.new ≡ out.old) × (len.new ≡ len.old) }
    ensures unknown { (result ≡ 3) ↔ (9 < walk) }
    ensures status { (result ≤ 3) ⊎ (result ≡ 5) }
{
    let Some(walk) = walk_of(walk) else {
        return UNKNOWN;
    };
    let read = schema_in(alloc, place_in(column), records, walk);
    lines_read(alloc, read, out, len)
}

/// Writes the line of one column, whose structures those of the records are, as [`schema_lines`]
/// writes those of a schema.
#[unsafe(no_mangle)]
pub extern "C" fn field_lines(
    alloc: Global,
    walk: u8,
    records: &[u8],
    out: &mut [u8],
    len: &mut usize,
) -> u8
    ensures done { result ≡ 0 → Makes (AreSchemaLines (field_in records.now) walk) len.new (λ lines. Fills lines out.old out.new) }
    ensures refused { result ≡ 5 → Makes (IsSchemaRefusal (field_in records.now) walk) len.new (λ line. Fills line out.old out.new) }
    ensures short { result ≡ 1 → Makes (λ text. AreSchemaLines (field_in records.now) walk text ⊎ IsSchemaRefusal (field_in records.now) walk text) len.new (λ text. Lacks text out.old out.new) }
    ensures unchanged { (result ≡ 2) ⊎ (result ≡ 3) → (out.new ≡ out.old) × (len.new ≡ len.old) }
    ensures unknown { (result ≡ 3) ↔ (9 < walk) }
    ensures status { (result ≤ 3) ⊎ (result ≡ 5) }
{
    let Some(walk) = walk_of(walk) else {
        return UNKNOWN;
    };
    let read = field_in(alloc, records, walk);
    lines_read(alloc, read, out, len)
}
