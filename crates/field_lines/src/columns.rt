//! The column that comes next in a reader of tokens.
ghost use Rattle.std.specs.Prelude.{◌≡◌, None, Err, IfOk};
ghost use Rattle.std.specs.Option.{option_map};
ghost use Rattle.serde_json.specs.Data.{no_members, object};
ghost use Rattle.arrow_columns.specs.Column.{column_tree};
ghost use Rattle.field_lines.specs.ColumnOfValue.{column_of_value};
ghost use Rattle.value_tokens.specs.Next.{next_value, next_members, ReadsValue, ReadsMembers};

use crate::parts::column_of;
use crate::tokens::{Taken, take_parts};
use arrow_columns::SchemaColumn;
use json::Reader;
use std::alloc::Global;
use value_tokens::{Refusal, open_object};

/// The column that comes next.
pub(crate) fn take_column(
    alloc: Global,
    reader: &mut Reader<'_>,
    depth: usize,
) -> Taken<SchemaColumn>
    ensures ok { IfOk result (λ o. ReadsValue column_of_value depth reader.old (option_map column_tree o) reader.new) }
    ensures text { result ≡ Err Refusal.Text → next_value depth reader.old ≡ None }
{
    match open_object(reader, depth)? {
        Some(below) => take_members_of_column(alloc, reader, below),
        None => Ok(None),
    }
}

/// The column of the members that are left of an object.
fn take_members_of_column(
    alloc: Global,
    reader: &mut Reader<'_>,
    depth: usize,
) -> Taken<SchemaColumn>
    ensures ok { IfOk result (λ o. ReadsMembers (λ ms. column_of_value (object ms)) depth no_members reader.old (option_map column_tree o) reader.new) }
    ensures text { result ≡ Err Refusal.Text → next_members depth no_members reader.old ≡ None }
{
    let parts = take_parts(alloc, reader, depth)?;
    Ok(column_of(alloc, parts)?)
}
