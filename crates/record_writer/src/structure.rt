//! The structure of a column, as its record has it.
ghost use Rattle.std.specs.Prelude.{◌≡◌, ◌≤◌, ◌+◌, ◌++◌, ◌∷◌, [], Some, Ok, IfOk, IfErr, OnOk};
ghost use Rattle.std.specs.Prelude.{length};
ghost use Rattle.std.specs.Prelude.{option_map, string_bytes};
ghost use Rattle.arrow_columns.specs.Below.{below};
ghost use Rattle.record_wire.specs.Record.{structure};
ghost use Rattle.record_wire.specs.Trees.{RefusesRecord};
ghost use Rattle.record_wire.specs.Write.{bytes_of, IsReadAs};
ghost use Rattle.record_columns.specs.Texts.{texts_in};
ghost use Rattle.record_writer.specs.Formats.{format_in};
ghost use Rattle.record_writer.specs.Texts.{metadata_bytes};
ghost use Rattle.record_writer.specs.Structures.{flags_of, structure_of};
ghost use Rattle.record_writer.specs.Views.{column_in, placed_in};
ghost use Rattle.record_writer.specs.Writes.{Refuses, Puts};

use crate::error::Refusal;
use crate::part::Part;
use crate::texts::metadata_of;
use crate::types::{count_below, format_of};
use record_wire::{
    LEVEL_LIMIT, Record, Records, STRUCTURE_LIMIT, WriteError as WireError, with_record,
};
use std::alloc::Global;

/// What the record of a column borrows beside the column.
#[derive(Drop)]
pub(crate) struct Own {
    /// The format string.
    pub format: String,
    /// The metadata, as they stand in memory.
    pub metadata: Option<Vec<u8>>,
}

/// Returns the format string and the metadata of a column.
#[tactic(auto, using(crate::proofs::Ones::one_steps))]
pub(crate) fn own_of(alloc: Global, part: &Part<'_>) -> Result<Own, Refusal>
    ensures format { IfOk result (λ o. format_in (column_in part.now).data_type
        ≡ Some (string_bytes o.format)) }
    ensures metadata { IfOk result (λ o. option_map (λ v. v.items) o.metadata
        ≡ metadata_bytes (column_in part.now).metadata) }
    ensures texts { OnOk result (texts_in (metadata_bytes (column_in part.now).metadata)
        ≡ Ok (column_in part.now).metadata) }
    ensures err { IfErr result (λ e. Refuses e 0 (placed_in part.now ∷ [])) }
{
    let Some(format) = format_of(alloc, part.data_type)? else {
        return Err(Refusal::Format);
    };
    let metadata = metadata_of(alloc, part.metadata)?;
    Ok(Own { format, metadata })
}

/// Returns the flags of a column.
fn flags_of(nullable: bool) -> u32
    ensures { result ≡ flags_of nullable }
{
    if nullable { 2 } else { 0 }
}

/// Returns the structure of a column.
pub(crate) fn record_of<'a>(part: &Part<'a>, own: &'a Own) -> Record<'a>
    requires few { length (below (column_in part.now).data_type) ≤ 4000000 }
    requires format { format_in (column_in part.now).data_type
        ≡ Some (string_bytes own.now.format) }
    requires metadata { option_map (λ v. v.items) own.now.metadata
        ≡ metadata_bytes (column_in part.now).metadata }
    ensures { structure result ≡ structure_of (placed_in part.now) }
{
    Record {
        children: count_below(part.data_type) as u32,
        has_dictionary: false,
        flags: flags_of(part.nullable),
        level: part.level,
        metadata: match &own.metadata {
            Some(metadata) => Some(metadata.as_slice()),
            None => None,
        },
        format: own.format.as_str(),
        name: Some(part.name),
    }
}

/// Returns these records, and that of a structure behind them.
fn with_structure(records: Records, one: &Record<'_>) -> Result<Records, WireError>
    ensures count { IfOk result (λ r. r.count ≡ records.count + 1) }
    ensures bytes { IfOk result (λ r. r.bytes.items
        ≡ records.bytes.items ++ bytes_of (structure one.now)) }
    ensures low { OnOk result ((structure one.now).level ≤ 61) }
    ensures reads { OnOk result (IsReadAs (bytes_of (structure one.now)) (structure one.now)) }
    ensures err { IfErr result (λ e. RefusesRecord e (records.count + 1) (structure one.now)) }
{
    if one.level > LEVEL_LIMIT {
        return Err(WireError::TooDeep);
    }
    if records.count >= STRUCTURE_LIMIT {
        return Err(WireError::TooLarge);
    }
    let count = records.count + 1;
    let bytes = with_record(records.bytes, one)?;
    Ok(Records { bytes, count })
}

/// Returns these records, and that of a column behind them.
#[tactic(auto, using(crate::proofs::Ones::one_steps))]
pub(crate) fn with_column(
    alloc: Global,
    records: Records,
    part: &Part<'_>,
) -> Result<Records, Refusal>
    requires { length (below (column_in part.now).data_type) ≤ 4000000 }
    ensures { Puts records (placed_in part.now ∷ []) result }
{
    let own = own_of(alloc, part)?;
    let one = record_of(part, &own);
    Ok(with_structure(records, &one)?)
}
