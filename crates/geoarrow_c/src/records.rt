//! The schema of records that the walk over its structures made, or why there is none.
ghost use Rattle.std.specs.Prelude.{◌≡◌, ◌∷◌, [], Some, IfOk};
ghost use Rattle.arrow_columns.specs.Column.{column_tree};
ghost use Rattle.column_files.specs.Refusals.{told};
ghost use Rattle.column_files.specs.declared.refusal.Place.TheVariants.{Column};
ghost use Rattle.record_columns.specs.Columns.{schema_at, column_at};
ghost use Rattle.record_columns.specs.Schemas.{schema_tree};
ghost use Rattle.geoarrow_c.specs.Places.{place_at};
ghost use Rattle.geoarrow_c.specs.Records.{records_told, with_told, of_column};
ghost use Rattle.geoarrow_c.specs.Records.{schema_in, field_in, IsRead};

use crate::place::place_at;
use crate::walk::Walk;
use arrow_columns::SchemaColumn;
use column_files::{Fault, Place};
use record_columns::{RecordSchema, RecordsError, read_column, read_schema};
use record_wire::Rule;
use std::alloc::{AllocError, Global};
use std::collections::BTreeMap;

/// Why there is no schema.
#[derive(Clone, Copy, Debug, PartialEq, Eq)]
pub(crate) enum Refusal {
    /// What is told of it.
    Told(Fault<'static>),
    /// Out of memory.
    OutOfMemory,
}

/// Returns the fault of records that break a rule there.
fn records_fault(rule: Rule, place: Place) -> Fault<'static>
    ensures { told result ≡ records_told rule place }
{
    Fault {
        code: "BadSchema",
        place,
        found: rule.message(),
        expected: rule.wanted(),
        help: None,
    }
}

/// Returns the schema of records that are those of all its structures.
fn schema_of(alloc: Global, records: &[u8]) -> Result<RecordSchema, Refusal>
    ensures { IsRead result (Some (with_told (place_at records.now) (schema_at records.now))) }
{
    match read_schema(alloc, records) {
        Ok(schema) => Ok(schema),
        Err(RecordsError::Fault(fault)) => {
            let place = place_at(records, fault.left);
            Err(Refusal::Told(records_fault(fault.rule, place)))
        }
        Err(RecordsError::OutOfMemory) => Err(Refusal::OutOfMemory),
    }
}

/// Returns the schema of one column, without metadata. Errs only when out of memory.
fn with_column(alloc: Global, column: SchemaColumn) -> Result<RecordSchema, AllocError>
    ensures { IfOk result (λ s. schema_tree s ≡ (column_tree column ∷ [], [])) }
{
    let mut columns = Vec::new(alloc);
    columns.push(column)?;
    Ok(RecordSchema {
        columns,
        metadata: BTreeMap::new(alloc),
    })
}

/// Returns the schema of one column, if there is memory for it.
fn schema_with(alloc: Global, column: SchemaColumn) -> Result<RecordSchema, Refusal>
    ensures { IsRead result (Some (Ok (column_tree column ∷ [], []))) }
{
    match with_column(alloc, column) {
        Ok(schema) => Ok(schema),
        Err(AllocError) => Err(Refusal::OutOfMemory),
    }
}

/// Returns the schema of one column, whose structures those of the records are.
fn column_of(alloc: Global, records: &[u8]) -> Result<RecordSchema, Refusal>
    ensures { IsRead result (Some (of_column (with_told (λ left. Column 0) (column_at records.now)))) }
{
    match read_column(alloc, records) {
        Ok(column) => schema_with(alloc, column),
        Err(RecordsError::Fault(fault)) => {
            Err(Refusal::Told(records_fault(fault.rule, Place::Column(0))))
        }
        Err(RecordsError::OutOfMemory) => Err(Refusal::OutOfMemory),
    }
}

/// Returns the schema whose structures the walk was over, which may have ended at that place.
pub(crate) fn schema_in(
    alloc: Global,
    place: Place,
    records: &[u8],
    walk: Walk,
) -> Result<RecordSchema, Refusal>
    ensures { IsRead result (schema_in place records.now walk) }
{
    match walk {
        Walk::Done => schema_of(alloc, records),
        Walk::OutOfMemory => Err(Refusal::OutOfMemory),
        Walk::Broken(rule) => Err(Refusal::Told(rule.fault(place))),
    }
}

/// Returns the schema of the one column whose structures the walk was over.
pub(crate) fn field_in(alloc: Global, records: &[u8], walk: Walk) -> Result<RecordSchema, Refusal>
    ensures { IsRead result (field_in records.now walk) }
{
    match walk {
        Walk::Done => column_of(alloc, records),
        Walk::OutOfMemory => Err(Refusal::OutOfMemory),
        Walk::Broken(rule) => Err(Refusal::Told(rule.fault(Place::Column(0)))),
    }
}
