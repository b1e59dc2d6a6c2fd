//! What is found of lines beside their columns and bad lines.
ghost use Rattle.std.specs.Prelude.{◌≡◌, IfOk, map};
ghost use Rattle.parquet_columns.specs.Findings.{finding};
ghost use Rattle.column_files.specs.LineFindings.{byte_order_mark, mark_findings};

use parquet_columns::{FileCode, FileFinding, FilePart, FilePlace};
use std::alloc::{AllocError, Global};

/// Returns what is found of lines that begin with a byte order mark, or do not (docs/FORMAT.md,
/// 4.5). Errs only when out of memory.
pub(crate) fn mark_findings(alloc: Global, is_marked: bool) -> Result<Vec<FileFinding>, AllocError>
    ensures { IfOk result (λ found. map finding found.items ≡ mark_findings is_marked) }
{
    let mut found = Vec::new(alloc);
    if is_marked {
        found.push(byte_order_mark(alloc))?;
    }
    Ok(found)
}

/// That lines begin with a byte order mark, which is the first of the file.
fn byte_order_mark(alloc: Global) -> FileFinding
    ensures { finding result ≡ byte_order_mark }
{
    FileFinding {
        code: FileCode::ByteOrderMark,
        column: None,
        path: Vec::new(alloc),
        place: FilePlace {
            part: FilePart::File,
            byte: Some(0),
        },
        found: None,
        wanted: None,
    }
}
