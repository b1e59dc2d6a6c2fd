//! One structure as a column, or as a schema.
ghost use Rattle.std.specs.Prelude.{◌≡◌, map};
ghost use Rattle.arrow_columns.specs.Column.{column_tree};
ghost use Rattle.record_wire.specs.Fault.{Returns};
ghost use Rattle.record_wire.specs.Record.{structure};
ghost use Rattle.record_columns.specs.Errors.{Makes};
ghost use Rattle.record_columns.specs.Columns.{is_nullable, column_of, columns_of};

use crate::error::Refusal;
use crate::texts::texts_in;
use crate::types::{format_of, type_by};
use arrow_columns::SchemaColumn;
use record_wire::{Record, Rule};
use std::alloc::Global;

/// Tells whether flags say that values may be null.
fn is_nullable(flags: u32) -> bool
    ensures { result ≡ is_nullable flags }
{
    flags / 2 % 2 == 1
}

/// Returns a structure as a column, by the columns that those became that lie right in it.
#[tactic(auto, unfolding(crate::specs::Columns::column_of))]
pub(crate) fn column_of(
    alloc: Global,
    one: &Record<'_>,
    inner: Vec<SchemaColumn>,
) -> Result<SchemaColumn, Refusal>
    ensures { Makes column_tree result
        (column_of (structure one.now) (map column_tree inner.items)) }
{
    let format = format_of(alloc, one)?;
    let data_type = type_by(alloc, one, format, inner)?;
    let metadata = texts_in(alloc, one)?;
    let name = String::from_str(alloc, one.name.unwrap_or(""))?;
    Ok(SchemaColumn {
        name,
        nullable: is_nullable(one.flags),
        data_type,
        metadata,
    })
}

/// Returns the columns of a schema, which is a struct without a dictionary.
#[tactic(auto, unfolding(crate::specs::Columns::columns_of))]
pub(crate) fn columns_of(
    one: &Record<'_>,
    inner: Vec<SchemaColumn>,
) -> Result<Vec<SchemaColumn>, Rule>
    ensures { Returns (λ v. map column_tree v.items) result
        (columns_of (structure one.now) (map column_tree inner.items)) }
{
    if one.format != "+s" || one.has_dictionary {
        return Err(Rule::Format);
    }
    Ok(inner)
}
