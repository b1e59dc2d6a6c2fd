//! A schema with its metadata.
ghost use Rattle.std.specs.Prelude.{◌≡◌, map};
ghost use Rattle.arrow_columns.specs.Column.{column_tree};
ghost use Rattle.record_wire.specs.Record.{structure};
ghost use Rattle.record_columns.specs.Errors.{Makes, Gives};
ghost use Rattle.record_columns.specs.Columns.{schema_of, schema_at};
ghost use Rattle.record_columns.specs.Schemas.{schema_tree, is_schema, is_schema_at};

use crate::column::columns_of;
use crate::columns::waiting_at;
use crate::error::{RecordsError, Refusal, refused};
use crate::texts::texts_in;
use arrow_columns::SchemaColumn;
use arrow_values::{EXTENSION_TYPE_NAME_KEY, text_at};
use record_wire::{Record, record_at, root_at};
use std::alloc::Global;
use std::collections::BTreeMap;

/// A schema: its columns, and its metadata.
#[derive(Debug, Drop)]
pub struct RecordSchema {
    /// The columns, in order.
    pub columns: Vec<SchemaColumn>,
    /// The metadata of the schema itself.
    pub metadata: BTreeMap<String, String>,
}

/// Returns a structure as a schema with its metadata.
#[tactic(auto, unfolding(crate::specs::Columns::schema_of))]
fn schema_of(
    alloc: Global,
    one: &Record<'_>,
    inner: Vec<SchemaColumn>,
) -> Result<RecordSchema, Refusal>
    ensures { Makes schema_tree result (schema_of (structure one.now) (map column_tree inner.items)) }
{
    let columns = columns_of(one, inner)?;
    let metadata = texts_in(alloc, one)?;
    Ok(RecordSchema { columns, metadata })
}

/// Reads a schema: the last structure, in which all others lie, its columns and its metadata.
///
/// Errs as [`crate::read_columns`], and where its metadata are none.
#[tactic(auto, unfolding(crate::specs::Columns::last_as))]
pub fn read_schema(alloc: Global, bytes: &[u8]) -> Result<RecordSchema, RecordsError>
    ensures { Gives schema_tree result (schema_at bytes.now) }
{
    let (waiting, rest) = waiting_at(alloc, bytes)?;
    let last = root_at(rest, waiting.levels.as_slice())?;
    match schema_of(alloc, &last, waiting.columns) {
        Ok(schema) => Ok(schema),
        Err(refusal) => Err(refused(refusal, rest)),
    }
}

/// Tells whether a structure is that of a schema, where what gives it gives schemas and fields.
#[tactic(auto, unfolding(crate::specs::Schemas::is_schema))]
fn is_schema_of(alloc: Global, one: &Record<'_>, may_have_name: bool) -> Result<bool, Refusal>
    ensures { Makes (λ is. is) result (is_schema may_have_name (structure one.now)) }
{
    let metadata = texts_in(alloc, one)?;
    let is_named = !one.name.unwrap_or("").is_empty();
    let is_struct = one.format == "+s" && !one.has_dictionary;
    let is_extension = text_at(&metadata, EXTENSION_TYPE_NAME_KEY).is_some();
    Ok(is_struct && (may_have_name || !is_named) && !is_extension)
}

/// Tells of the record at the front of the bytes whether its structure is that of a schema, where
/// what gives it gives schemas and fields alike: a struct without a dictionary, without the name of
/// an extension type and, unless it may have one, without a name.
///
/// Errs with the first rule that the record breaks, or its metadata, and when out of memory.
#[tactic(auto, unfolding(crate::specs::Schemas::is_schema_at))]
pub fn is_schema(alloc: Global, bytes: &[u8], may_have_name: bool) -> Result<bool, RecordsError>
    ensures { Gives (λ is. is) result (is_schema_at may_have_name bytes.now) }
{
    let (one, _) = record_at(bytes)?;
    match is_schema_of(alloc, &one, may_have_name) {
        Ok(is) => Ok(is),
        Err(refusal) => Err(refused(refusal, bytes)),
    }
}
