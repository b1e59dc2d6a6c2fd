//! The stream of a schema that lies in memory.
ghost use Rattle.std.specs.Prelude.{◌≡◌, ◌⊎◌, ◌↔◌, ◌<◌, ◌≤◌, IfErr, IfOk, Ok};
ghost use Rattle.arrow_ipc.specs.Denotes.{IsStreamOf};
ghost use Rattle.arrow_ipc.specs.Rooms.{schema_room};
ghost use Rattle.arrow_ipc.specs.Writes.{RefusesColumns};
ghost use Rattle.record_columns.specs.Schemas.{schema_tree};
ghost use Rattle.geoarrow_c.specs.Buffer.{Fills, Lacks, Makes};
ghost use Rattle.geoarrow_c.specs.Records.{schema_in};
ghost use Rattle.geoarrow_c.specs.SchemaStreams.{written, IsStreamRead, IsUnstreamedRead};
ghost use Rattle.geoarrow_c.specs.SchemaStreams.{IsSchemaStream, IsUnstreamedSchema};
ghost use Rattle.geoarrow_c.specs.Walks.{place_in};

use crate::buffer::fill;
use crate::records::{Refusal, schema_in};
use crate::refusal::{refuse, refuse_schema};
use crate::status::{MEMORY, UNKNOWN};
use crate::walk::{place_in, walk_of};
use arrow_ipc::{Endianness, Schema, WriteError, write_schema};
use record_columns::RecordSchema;
use std::alloc::Global;

/// The stream of a schema.
fn stream_of(alloc: Global, schema: RecordSchema) -> Result<Vec<u8>, WriteError>
    ensures is { IfOk result (λ stream. IsStreamOf 61 stream.items (written (schema_tree schema))) }
    ensures err { IfErr result (λ error. RefusesColumns 61 error (schema_tree schema).0 (schema_room (written (schema_tree schema)))) }
{
    let RecordSchema { columns, metadata } = schema;
    let schema = Schema {
        columns,
        metadata,
        endianness: Endianness::Little,
    };
    write_schema(alloc, &schema)
}

/// Writes the stream of a schema to the front of a buffer, or the line that says why there is none,
/// as `refuse` does.
fn stream_schema(alloc: Global, schema: RecordSchema, out: &mut [u8], len: &mut usize) -> u8
    ensures done { result ≡ 0 → Makes (IsStreamRead (Ok schema)) len.new (λ stream. Fills stream out.old out.new) }
    ensures refused { result ≡ 5 → Makes (IsUnstreamedRead (Ok schema)) len.new (λ line. Fills line out.old out.new) }
    ensures short { result ≡ 1 → Makes (λ text. IsStreamRead (Ok schema) text ⊎ IsUnstreamedRead (Ok schema) text) len.new (λ text. Lacks text out.old out.new) }
    ensures unchanged { result ≡ 2 → (out.new ≡ out.old) × (len.new ≡ len.old) }
    ensures status { (result ≤ 2) ⊎ (result ≡ 5) }
{
    match stream_of(alloc, schema) {
        Ok(stream) => fill(stream.as_slice(), out, len),
        Err(error) => refuse_schema(alloc, error, out, len),
    }
}

/// Writes the stream of a schema that was read, as `stream_schema` does.
fn stream_read(
    alloc: Global,
    read: Result<RecordSchema, Refusal>,
    out: &mut [u8],
    len: &mut usize,
) -> u8
    ensures done { result ≡ 0 → Makes (IsStreamRead read) len.new (λ stream. Fills stream out.old out.new) }
    ensures refused { result ≡ 5 → Makes (IsUnstreamedRead read) len.new (λ line. Fills line out.old out.new) }
    ensures short { result ≡ 1 → Makes (λ text. IsStreamRead read text ⊎ IsUnstreamedRead read text) len.new (λ text. Lacks text out.old out.new) }
    ensures unchanged { result ≡ 2 → (out.new ≡ out.old) × (len.new ≡ len.old) }
    ensures status { (result ≤ 2) ⊎ (result ≡ 5) }
{
    match read {
        Ok(schema) => stream_schema(alloc, schema, out, len),
        Err(Refusal::Told(fault)) => refuse(alloc, None, &fault, out, len),
        Err(Refusal::OutOfMemory) => MEMORY,
    }
}

/// Writes an Arrow stream of a schema, with its metadata (docs/FORMAT.md, 3.6), to the front of
/// `out`, and its length to `len`, by the records of its structures, of which `walk` and `column`
/// are as for [`crate::schema_report`].
///
/// Returns 0; or 5 where the schema is refused, or no message can hold it: the line that says why,
/// with its line feed, stands in place of a stream (docs/FORMAT.md, 2.8). Returns 1 where `out` is
/// too small for what would stand there: it is then unchanged, and `len` says what is needed; 2
/// when out of memory, also where the walk was, and 3 where the number is that of no walk, with
/// both unchanged.
#[unsafe(no_mangle)]
pub extern "C" fn schema_stream(
    alloc: Global,
    walk: u8,
    column: i64,
    records: &[u8],
    out: &mut [u8],
    len: &mut usize,
) -> u8
    ensures done { result ≡ 0 → Makes (IsSchemaStream (schema_in (place_in column) records.now) walk) len.new (λ stream. Fills stream out.old out.new) }
    ensures refused { result ≡ 5 → Makes (IsUnstreamedSchema (schema_in (place_in column) records.now) walk) len.new (λ line. Fills line out.old out.new) }
    ensures short { result ≡ 1 → Makes (λ text. IsSchemaStream (schema_in (place_in column) records.now) walk text ⊎ IsUnstreamedSchema (schema_in (place_in column) records.now) walk text) len.new (λ text. Lacks text out.old out.new) }
    ensures unchanged { (result ≡ 2) ⊎ (result ≡ 3) → (out.new ≡ out.old) × (len.new ≡ len.old) }
    ensures unknown { (result ≡ 3) ↔ (9 < walk) }
    ensures status { (result ≤ 3) ⊎ (result ≡ 5) }
{
    let Some(walk) = walk_of(walk) else {
        return UNKNOWN;
    };
    let read = schema_in(alloc, place_in(column), records, walk);
    stream_read(alloc, read, out, len)
}
