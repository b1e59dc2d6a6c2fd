//! Columns as they are printed in place of what they hold.
ghost use Rattle.std.specs.Prelude.{◌&&◌, IfOk};
ghost use Rattle.arrow_columns.specs.Column.{column_tree};
ghost use Rattle.column_check.specs.States.{is_geometry};
ghost use Rattle.file_check.specs.Asked.{IsAsAsked};

use crate::asked::Asked;
use arrow_columns::SchemaColumn;
use canonical_columns::canonical_column;
use column_reports::ColumnReport;
use json::Scratch;
use std::alloc::{AllocError, Global};

/// Returns the column of a report as it is to be printed: one of geometries in normal form, if that is
/// asked for (docs/FORMAT.md, 2.10), or else as it is. Errs only when out of memory.
pub(crate) fn as_asked(
    alloc: Global,
    asked: &Asked,
    scratch: &mut Scratch,
    said: ColumnReport,
) -> Result<SchemaColumn, AllocError>
    ensures { IfOk result (λ printed. IsAsAsked (asked.now.flags.canonical && is_geometry said.finding) (column_tree said.column) (column_tree printed)) }
{
    let is_asked = asked.flags.canonical & said.finding.is_geometry();
    in_form(alloc, is_asked, scratch, said.column)
}

/// Returns a column in normal form, if that is asked for, or else as it is. Errs only when out of
/// memory.
fn in_form(
    alloc: Global,
    is_asked: bool,
    scratch: &mut Scratch,
    column: SchemaColumn,
) -> Result<SchemaColumn, AllocError>
    ensures { IfOk result (λ printed. IsAsAsked is_asked (column_tree column) (column_tree printed)) }
{
    if is_asked {
        canonical_column(alloc, scratch, column)
    } else {
        Ok(column)
    }
}
