//! The schema of lines as an Arrow stream.
ghost use Rattle.std.specs.Prelude.{◌≡◌, ◌⊎◌, ◌≤◌};
ghost use Rattle.geoarrow_c.specs.Buffer.{Fills, Lacks, Makes};
ghost use Rattle.geoarrow_c.specs.Streams.{IsStream, IsUnstreamed};

use crate::buffer::fill;
use crate::refusal::{refuse_file, refuse_schema};
use arrow_ipc::{Endianness, Schema, write_schema};
use column_files::{Form, columns_of_lines};
use std::alloc::Global;
use std::collections::BTreeMap;

/// Writes an Arrow stream of the schema whose columns lines denote (docs/FORMAT.md, 2.7 and 3.6),
/// one column a line, to the front of `out`, and its length to `len`. The schema has no metadata of
/// its own. Blank lines are passed over, and no lines denote a schema without columns.
///
/// Returns 0; or 5 where a line denotes no column, or no message can hold the schema: the line that
/// says so, with its line feed, stands in place of a stream (docs/FORMAT.md, 2.8). Returns 1 where
/// `out` is too small for what would stand there: it is then unchanged, and `len` says what is
/// needed; 2 when out of memory, with both unchanged.
#[unsafe(no_mangle)]
pub extern "C" fn geoarrow_write_schema(
    alloc: Global,
    lines: &[u8],
    out: &mut [u8],
    len: &mut usize,
) -> u8
    ensures done { result ≡ 0 → Makes (IsStream lines.now) len.new (λ stream. Fills stream out.old out.new) }
    ensures refused { result ≡ 5 → Makes (IsUnstreamed lines.now) len.new (λ line. Fills line out.old out.new) }
    ensures short { result ≡ 1 → Makes (λ text. IsStream lines.now text ⊎ IsUnstreamed lines.now text) len.new (λ text. Lacks text out.old out.new) }
    ensures unchanged { result ≡ 2 → (out.new ≡ out.old) × (len.new ≡ len.old) }
    ensures status { (result ≤ 2) ⊎ (result ≡ 5) }
{
    let columns = match columns_of_lines(alloc, lines) {
        Ok(columns) => columns,
        Err(fault) => return refuse_file(alloc, None, Form::Lines, fault, out, len),
    };
    let schema = Schema {
        columns,
        metadata: BTreeMap::new(alloc),
        endianness: Endianness::Little,
    };
    match write_schema(alloc, &schema) {
        Ok(stream) => fill(stream.as_slice(), out, len),
        Err(error) => refuse_schema(alloc, error, out, len),
    }
}
