//! The schema of lines as records, of which `native/records.c` makes structures.
ghost use Rattle.std.specs.Prelude.{◌≡◌, ◌⊎◌, ◌≤◌, option_map};
ghost use Rattle.column_files.specs.Refusals.{told};
ghost use Rattle.geoarrow_c.specs.Buffer.{Fills, Lacks, Makes};
ghost use Rattle.geoarrow_c.specs.SchemaRecords.{unwritten_told, IsLineOfRecords};
ghost use Rattle.geoarrow_c.specs.SchemaRecords.{AreRecords, AreNoRecords};

use crate::buffer::fill;
use crate::refusal::{refuse, refuse_file};
use crate::status::MEMORY;
use crate::walk::WalkRule;
use column_files::{Fault, Form, Place, columns_of_lines};
use record_writer::{WriteError, write_columns};
use std::alloc::Global;

/// Returns why a schema has no structures; `None` where memory is all that lacks.
fn unwritten_fault(error: WriteError) -> Option<Fault<'static>>
    ensures { option_map told result ≡ unwritten_told error }
{
    match error {
        WriteError::Column(index) => Some(Fault {
            code: "BadSchema",
            place: Place::Column(index as u64),
            found: "a type that no format string says",
            expected: "a type of Arrow's C data interface",
            help: None,
        }),
        WriteError::Nul(index) => Some(Fault {
            code: "BadSchema",
            place: Place::Column(index as u64),
            found: "a name with a byte 0",
            expected: "names without one, at which they would end",
            help: None,
        }),
        WriteError::TooDeep(index) => Some(WalkRule::Depth.fault(Place::Column(index as u64))),
        WriteError::TooLarge => Some(WalkRule::Size.fault(Place::File)),
        WriteError::OutOfMemory => None,
    }
}

/// Writes the line that says why a schema has no structures, as `refuse` does.
fn refuse_records(alloc: Global, error: WriteError, out: &mut [u8], len: &mut usize) -> u8
    ensures refused { result ≡ 5 → Makes (IsLineOfRecords error) len.new (λ line. Fills line out.old out.new) }
    ensures short { result ≡ 1 → Makes (IsLineOfRecords error) len.new (λ line. Lacks line out.old out.new) }
    ensures unchanged { result ≡ 2 → (out.new ≡ out.old) × (len.new ≡ len.old) }
    ensures status { (result ≡ 1) ⊎ (result ≡ 2) ⊎ (result ≡ 5) }
{
    match unwritten_fault(error) {
        Some(fault) => refuse(alloc, None, &fault, out, len),
        None => MEMORY,
    }
}

/// Writes the records of the schema whose columns lines denote (docs/FORMAT.md, 2.7 and 6), one
/// column a line, to the front of `out`, and their length to `len`. The schema has no metadata of
/// its own. Blank lines are passed over, and no lines denote a schema without columns.
///
/// Returns 0; or 5 where a line denotes no column, or no structures can have the schema: the line
/// that says so, with its line feed, stands in place of records (docs/FORMAT.md, 2.8). Returns 1
/// where `out` is too small for what would stand there: it is then unchanged, and `len` says what
/// is needed; 2 when out of memory, with both unchanged.
#[unsafe(no_mangle)]
pub extern "C" fn schema_records(alloc: Global, lines: &[u8], out: &mut [u8], len: &mut usize) -> u8
    ensures done { result ≡ 0 → Makes (AreRecords lines.now) len.new (λ records. Fills records out.old out.new) }
    ensures refused { result ≡ 5 → Makes (AreNoRecords lines.now) len.new (λ line. Fills line out.old out.new) }
    ensures short { result ≡ 1 → Makes (λ text. AreRecords lines.now text ⊎ AreNoRecords lines.now text) len.new (λ text. Lacks text out.old out.new) }
    ensures unchanged { result ≡ 2 → (out.new ≡ out.old) × (len.new ≡ len.old) }
    ensures status { (result ≤ 2) ⊎ (result ≡ 5) }
{
    let columns = match columns_of_lines(alloc, lines) {
        Ok(columns) => columns,
        Err(fault) => return refuse_file(alloc, None, Form::Lines, fault, out, len),
    };
    match write_columns(alloc, columns.as_slice()) {
        Ok(records) => fill(records.as_slice(), out, len),
        Err(error) => refuse_records(alloc, error, out, len),
    }
}
