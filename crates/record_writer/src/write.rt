//! Columns as a whole tree of records.
ghost use Rattle.std.specs.Prelude.{◌≡◌, ◌+◌, ◌≤◌, ◌^◌, ◌∷◌, [], List, Ok, IfOk, IfErr, length};
ghost use Rattle.std.specs.Prelude.{map};
ghost use Rattle.arrow_columns.specs.Types.{ColumnTree, part_trees};
ghost use Rattle.arrow_columns.specs.Column.{column_tree};
ghost use Rattle.record_columns.specs.Columns.{column_of, columns_at, column_at};
ghost use Rattle.record_wire.specs.Record.{structure};
ghost use Rattle.record_wire.specs.Trees.{Adds, RefusesWhole, inner_count, whole_at};
ghost use Rattle.arrow_columns.specs.Below.{below};
ghost use Rattle.record_writer.specs.Placed.{placed, within_type};
ghost use Rattle.record_writer.specs.Formats.{is_leaf};
ghost use Rattle.record_writer.specs.Refusals.{with_index};
ghost use Rattle.record_writer.specs.Structures.{root_of};
ghost use Rattle.record_writer.specs.Views.{column_in, IsTypeOf, IsPartOf};
ghost use Rattle.record_writer.specs.Writes.{Puts, PutsColumns, Holds, RefusesColumns};

use crate::error::{Refusal, WriteError, refusal_of, with_index};
use crate::part::{Part, PartType};
use crate::structure::{own_of, record_of};
use crate::trees::{with_inner, with_part};
use arrow_columns::{AnyType, Form, OtherType, SchemaColumn};
use record_wire::{Meaning, Record, Records, WriteError as WireError};
use std::alloc::Global;

/// What `record_columns` reads of structures: of no use but as a type.
struct Columns;

impl Meaning for Columns {
    ghost Value = { ColumnTree };

    ghost value_of = { column_of };
}

/// Tells whether nothing is known of a type but its notation.
#[tactic(auto, using(crate::proofs::Below::are_no_parts))]
fn is_leaf(other: &OtherType) -> bool
    ensures { result ≡ is_leaf other.now.form other.now.ids.items
        (part_trees other.now.parts.items) }
{
    match other.form {
        Form::Leaf if other.ids.is_empty() => other.parts.is_empty(),
        _ => false,
    }
}

/// Returns a type, lent; `None` of one that is none of the 26 and of which more is known than its
/// notation.
fn type_in(data_type: &AnyType) -> Option<PartType<'_>>
    ensures { IsTypeOf data_type.now result }
{
    match data_type {
        AnyType::Data(data_type) => Some(PartType::Data(data_type)),
        AnyType::Other(other) if is_leaf(other) => Some(PartType::Leaf(other.notation.as_str())),
        AnyType::Other(_) => None,
    }
}

/// Returns a column as one of a level; `None` as [`type_in`].
fn part_in(column: &SchemaColumn, level: u32) -> Option<Part<'_>>
    ensures { IsPartOf column.now level result }
{
    let data_type = type_in(&column.data_type)?;
    Some(Part {
        name: column.name.as_str(),
        data_type,
        nullable: column.nullable,
        metadata: &column.metadata,
        level,
    })
}

/// Returns these records, and those of a column of a schema behind them.
fn with_any(alloc: Global, records: Records, column: &SchemaColumn) -> Result<Records, Refusal>
    ensures { Puts records (placed 1 (column_tree column.now)) result }
{
    match part_in(column, 1) {
        Some(part) => with_part(alloc, records, &part),
        None => Err(Refusal::Format),
    }
}

/// Returns no records.
fn no_records(alloc: Global) -> Records
    ensures count { result.count ≡ 0 }
    ensures bytes { result.bytes.items ≡ [] }
{
    Records {
        bytes: Vec::new(alloc),
        count: 0,
    }
}

/// Returns the records of the columns of a schema.
fn records_of(alloc: Global, columns: &[SchemaColumn]) -> Result<Records, WriteError>
    ensures { PutsColumns (map column_tree columns.now) result }
{
    let mut records = no_records(alloc);
    'columns: for i in 0..columns.len() {
        match with_any(alloc, records, &columns[i]) {
            Ok(more) => records = more,
            Err(refusal) => return Err(with_index(refusal, i)),
        }
    }
    Ok(records)
}

/// Returns the structure in which so many columns lie.
fn root_of(count: u32) -> Record<'static>
    ensures { (cs : List ColumnTree) → length cs ≡ count → structure result ≡ root_of cs }
{
    Record {
        children: count,
        has_dictionary: false,
        flags: 0,
        level: 0,
        metadata: None,
        format: "+s",
        name: None,
    }
}

/// Returns the bytes of a whole tree: these records, and that of the structure in which they lie.
fn finished(alloc: Global, records: Records, root: &Record<'_>) -> Result<Vec<u8>, WireError>
    ensures read { IfOk result (λ b. (vs : List ColumnTree)
        → Adds column_of records.count records.bytes.items vs 1
        → length vs ≡ inner_count (structure root.now) → root.now.level ≡ 0
        → whole_at column_of b.items ≡ Ok (structure root.now, vs)) }
    ensures small { IfOk result (λ b. length b.items ≤ 2 ^ 28) }
    ensures err { IfErr result (λ e.
        RefusesWhole e (records.count + 1) records.bytes.items (structure root.now)) }
{
    records.finished::<Columns>(alloc, root)
}

/// Writes the records of a schema of these columns, which `read_columns` reads as these.
///
/// Errs at the first column that is refused, with its index: where its type, or one that lies in
/// it, has no format string, a name has a NUL, or structures are nested more than 61 levels deep;
/// and where all are more than 4,000,000 structures or would take more than 2^28 bytes, and when
/// out of memory.
pub fn write_columns(alloc: Global, columns: &[SchemaColumn]) -> Result<Vec<u8>, WriteError>
    ensures read { IfOk result (λ b. columns_at b.items ≡ Ok (map column_tree columns.now)) }
    ensures small { IfOk result (λ b. length b.items ≤ 2 ^ 28) }
    ensures err { IfErr result (λ e. RefusesColumns e 1 48 1 (map column_tree columns.now)) }
{
    let records = records_of(alloc, columns)?;
    let count = columns.len() as u32;
    let root = root_of(count);
    match finished(alloc, records, &root) {
        Ok(bytes) => Ok(bytes),
        Err(error) => Err(with_index(refusal_of(error), 0)),
    }
}

/// Returns the bytes of the whole tree of a column that lies in none: these records of what lies in
/// it, and its own.
fn finished_with(alloc: Global, records: Records, part: &Part<'_>) -> Result<Vec<u8>, Refusal>
    requires few { length (below (column_in part.now).data_type) ≤ 4000000 }
    requires level { part.now.level ≡ 0 }
    requires held { Holds records (within_type 1 (column_in part.now).data_type) }
    ensures read { IfOk result (λ b. column_at b.items ≡ Ok (column_in part.now)) }
    ensures small { IfOk result (λ b. length b.items ≤ 2 ^ 28) }
    ensures err { IfErr result (λ e.
        RefusesColumns (with_index e 0) 0 8 0 (column_in part.now ∷ [])) }
{
    let own = own_of(alloc, part)?;
    let root = record_of(part, &own);
    Ok(finished(alloc, records, &root)?)
}

/// Returns the bytes of the whole tree of a column that lies in none.
fn tree_of(alloc: Global, part: &Part<'_>) -> Result<Vec<u8>, Refusal>
    requires { part.now.level ≡ 0 }
    ensures read { IfOk result (λ b. column_at b.items ≡ Ok (column_in part.now)) }
    ensures small { IfOk result (λ b. length b.items ≤ 2 ^ 28) }
    ensures err { IfErr result (λ e.
        RefusesColumns (with_index e 0) 0 8 0 (column_in part.now ∷ [])) }
{
    let none = no_records(alloc);
    let records = with_inner(alloc, none, part.data_type, 1)?;
    finished_with(alloc, records, part)
}

/// Returns the same, with why not as callers see it.
fn bytes_of(alloc: Global, part: &Part<'_>) -> Result<Vec<u8>, WriteError>
    requires { part.now.level ≡ 0 }
    ensures read { IfOk result (λ b. column_at b.items ≡ Ok (column_in part.now)) }
    ensures small { IfOk result (λ b. length b.items ≤ 2 ^ 28) }
    ensures err { IfErr result (λ e. RefusesColumns e 0 8 0 (column_in part.now ∷ [])) }
{
    match tree_of(alloc, part) {
        Ok(bytes) => Ok(bytes),
        Err(refusal) => Err(with_index(refusal, 0)),
    }
}

/// Writes the records of one structure that is this column, which `read_column` reads as it.
///
/// Errs as [`write_columns`], where the column's index is 0.
pub fn write_column(alloc: Global, column: &SchemaColumn) -> Result<Vec<u8>, WriteError>
    ensures read { IfOk result (λ b. column_at b.items ≡ Ok (column_tree column.now)) }
    ensures small { IfOk result (λ b. length b.items ≤ 2 ^ 28) }
    ensures err { IfErr result (λ e. RefusesColumns e 0 8 0 (column_tree column.now ∷ [])) }
{
    match part_in(column, 0) {
        Some(part) => bytes_of(alloc, &part),
        None => Err(WriteError::Column(0)),
    }
}
