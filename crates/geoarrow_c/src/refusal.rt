//! Why bytes are refused, as a line in the caller's buffer.
ghost use Rattle.std.specs.Prelude.{◌≡◌, ◌⊎◌, None, IfOk, string_bytes};
ghost use Rattle.arrow_values.specs.Texts.{text_of};
ghost use Rattle.column_files.specs.Refusals.{told};
ghost use Rattle.geoarrow_c.specs.Buffer.{Fills, Lacks, Makes};
ghost use Rattle.geoarrow_c.specs.Refusals.{line_of, lacks_memory, lacks_memory_for_message};
ghost use Rattle.geoarrow_c.specs.Refusals.{IsLineOfFile, IsLineOfSchema};

use crate::buffer::fill;
use crate::status::{DONE, MEMORY, REFUSED, SHORT};
use arrow_ipc::{IpcError, WriteError};
use column_files::{Fault, FileFault, Form, fault_of, write_fault};
use column_reports::fault_line;
use std::alloc::{AllocError, Global};

/// Whether memory is all that lacks for a message to be read.
fn lacks_memory_for_message(error: IpcError) -> bool
    ensures { result ≡ lacks_memory_for_message error }
{
    match error {
        IpcError::OutOfMemory => true,
        IpcError::Broken(_) | IpcError::Budget(_) => false,
    }
}

/// Whether memory is all that lacks for a file to be reported.
fn lacks_memory(fault: &FileFault) -> bool
    ensures { result ≡ lacks_memory fault.now }
{
    match fault {
        FileFault::OutOfMemory => true,
        FileFault::Ipc(error) => lacks_memory_for_message(*error),
        FileFault::NoField(_, _)
        | FileFault::Empty
        | FileFault::Foreign(_, _)
        | FileFault::End(_)
        | FileFault::Footer(_, _)
        | FileFault::Tree(_, _)
        | FileFault::ReportTooLarge => false,
    }
}

/// The line of a fault, with its line feed.
fn line_of(alloc: Global, file: Option<&str>, fault: &Fault<'_>) -> Result<String, AllocError>
    ensures { IfOk result (λ line. string_bytes line ≡ line_of (text_of file.entry) (told fault.now)) }
{
    let mut line = fault_line(alloc, file, fault)?;
    line.push_str("\n")?;
    Ok(line)
}

/// Writes the line of a fault to the front of a buffer, if it has room, and its length in either
/// case. Returns the status. Out of memory it writes nothing.
pub(crate) fn refuse(
    alloc: Global,
    file: Option<&str>,
    fault: &Fault<'_>,
    out: &mut [u8],
    len: &mut usize,
) -> u8
    ensures refused { result ≡ 5 → Makes (λ line. line ≡ line_of (text_of file.entry) (told fault.now)) len.new (λ line. Fills line out.old out.new) }
    ensures short { result ≡ 1 → Makes (λ line. line ≡ line_of (text_of file.entry) (told fault.now)) len.new (λ line. Lacks line out.old out.new) }
    ensures unchanged { result ≡ 2 → (out.new ≡ out.old) × (len.new ≡ len.old) }
    ensures status { (result ≡ 1) ⊎ (result ≡ 2) ⊎ (result ≡ 5) }
{
    let Ok(line) = line_of(alloc, file, fault) else {
        return MEMORY;
    };
    if fill(line.as_bytes(), out, len) == DONE {
        REFUSED
    } else {
        SHORT
    }
}

/// Writes the line that says why a file is refused, as `refuse` does.
pub(crate) fn refuse_file(
    alloc: Global,
    file: Option<&str>,
    form: Form,
    fault: FileFault,
    out: &mut [u8],
    len: &mut usize,
) -> u8
    ensures refused { result ≡ 5 → Makes (IsLineOfFile (text_of file.entry) form fault) len.new (λ line. Fills line out.old out.new) }
    ensures short { result ≡ 1 → Makes (IsLineOfFile (text_of file.entry) form fault) len.new (λ line. Lacks line out.old out.new) }
    ensures unchanged { result ≡ 2 → (out.new ≡ out.old) × (len.new ≡ len.old) }
    ensures status { (result ≡ 1) ⊎ (result ≡ 2) ⊎ (result ≡ 5) }
{
    if lacks_memory(&fault) {
        return MEMORY;
    }
    refuse(alloc, file, &fault_of(form, &fault), out, len)
}

/// Writes the line that says why a schema is not written, as `refuse` does.
pub(crate) fn refuse_schema(alloc: Global, error: WriteError, out: &mut [u8], len: &mut usize) -> u8
    ensures refused { result ≡ 5 → Makes (IsLineOfSchema None error) len.new (λ line. Fills line out.old out.new) }
    ensures short { result ≡ 1 → Makes (IsLineOfSchema None error) len.new (λ line. Lacks line out.old out.new) }
    ensures unchanged { result ≡ 2 → (out.new ≡ out.old) × (len.new ≡ len.old) }
    ensures status { (result ≡ 1) ⊎ (result ≡ 2) ⊎ (result ≡ 5) }
{
    match error {
        WriteError::OutOfMemory => MEMORY,
        WriteError::Column(_) | WriteError::TooLarge => {
            refuse(alloc, None, &write_fault(error), out, len)
        }
    }
}
