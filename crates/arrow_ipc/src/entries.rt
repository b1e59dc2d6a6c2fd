//! The entries of metadata of a schema as they stand, those of a repeated key too: a [`crate::Schema`] has of each key the last.
ghost use Rattle.std.specs.Prelude.{◌≡◌, ◌+◌, ◌*◌, ◌^◌, ◌≤◌, ◌<◌, length, IfOk, map};
ghost use Rattle.arrow_ipc.specs.Fault.{map_ok};
ghost use Rattle.arrow_ipc.specs.Tells.{Tells};
ghost use Rattle.arrow_ipc.specs.Schema.{message_in, footer_in};
ghost use Rattle.arrow_ipc.specs.Entries.{entry, entries_in, add_entry, entries_at, texts_of_column, add_column, column_entries, columns_entries, EntriesIn, entries_of, entries_of_message, entries_of_footer, AreEntries};

use crate::fault::{Found, IpcError};
use crate::schema::{Read, entry_at, footer_at, footer_in, head_at, message_at, message_in, spend};
use crate::wire::{Vector, open, target_at, vector_in};
use std::alloc::Global;

/// An entry of metadata.
#[derive(Debug, Clone, Copy)]
pub struct Entry<'a> {
    /// Its key.
    pub key: &'a str,
    /// Its text.
    pub text: &'a str,
}

/// The entries of metadata of a schema, in their order.
#[derive(Debug, Drop)]
pub struct SchemaEntries<'a> {
    /// Those of each column of the schema.
    pub columns: Vec<Vec<Entry<'a>>>,
    /// Those of the schema itself.
    pub schema: Vec<Entry<'a>>,
}

/// Adds the entry to which the offset at a position leads.
#[inline(never)]
fn add_entry<'a>(
    bytes: &'a [u8],
    at: usize,
    budget: &mut usize,
    to: &mut Vec<Entry<'a>>,
) -> Read<()>
    ensures { Tells (λ _. entries_in to.new) (add_entry bytes.now at (entries_in to.old)) budget.old budget.new result }
{
    let (key, text) = entry_at(bytes, at)?;
    spend(budget, 8, key, text, at)?;
    to.push(Entry { key, text })?;
    Ok(())
}

/// The entries to which the offsets of a vector lead.
#[tactic(auto, using(crate::proofs::Told::begins, crate::proofs::Told::goes_on, crate::proofs::Told::breaks_off, crate::proofs::Told::is_done), unfolding(crate::specs::Entries::entries_at))]
fn entries_at<'a>(
    alloc: Global,
    bytes: &'a [u8],
    at: Vector,
    budget: &mut usize,
) -> Read<Vec<Entry<'a>>>
    requires { at.0 + 4 * at.1 ≤ length bytes.now }
    ensures { Tells entries_in (entries_at bytes.now at) budget.old budget.new result }
{
    let mut entries = Vec::new(alloc);
    'entries: for i in 0..at.1 {
        add_entry(bytes, at.0 + 4 * i, budget, &mut entries)?;
    }
    Ok(entries)
}

/// Where the entries are of the column to which the offset at a position leads.
#[tactic(auto, unfolding(crate::specs::Entries::texts_of_column))]
fn texts_of_column(bytes: &[u8], at: usize) -> Found<Vector>
    ensures is { result ≡ texts_of_column bytes.now at }
    ensures within { IfOk result (λ v. v.0 + 4 * v.1 ≤ length bytes.now) }
{
    let table = open(bytes, target_at(bytes, at)?)?;
    Ok(vector_in(bytes, &table, 6)?.unwrap_or((0, 0)))
}

/// The entries of the column to which the offset at a position leads.
#[tactic(auto, unfolding(crate::specs::Entries::column_entries))]
fn column_entries<'a>(
    alloc: Global,
    bytes: &'a [u8],
    at: usize,
    budget: &mut usize,
) -> Read<Vec<Entry<'a>>>
    ensures { Tells entries_in (column_entries bytes.now at) budget.old budget.new result }
{
    let texts = texts_of_column(bytes, at)?;
    spend(budget, 16, "", "", at)?;
    entries_at(alloc, bytes, texts, budget)
}

/// Adds the entries of the column to which the offset at a position leads.
fn add_column<'a>(
    alloc: Global,
    bytes: &'a [u8],
    at: usize,
    budget: &mut usize,
    to: &mut Vec<Vec<Entry<'a>>>,
) -> Read<()>
    ensures { Tells (λ _. map entries_in to.new.items) (add_column bytes.now at (map entries_in to.old.items)) budget.old budget.new result }
{
    let entries = column_entries(alloc, bytes, at, budget)?;
    to.push(entries)?;
    Ok(())
}

/// The entries of the columns to which the offsets of a vector lead.
#[tactic(auto, using(crate::proofs::Told::begins, crate::proofs::Told::goes_on, crate::proofs::Told::breaks_off, crate::proofs::Told::is_done), unfolding(crate::specs::Entries::columns_entries))]
fn columns_entries<'a>(
    alloc: Global,
    bytes: &'a [u8],
    at: Vector,
    budget: &mut usize,
) -> Read<Vec<Vec<Entry<'a>>>>
    requires { at.0 + 4 * at.1 ≤ length bytes.now }
    ensures { Tells (λ c. map entries_in c.items) (columns_entries bytes.now at) budget.old budget.new result }
{
    let mut columns = Vec::new(alloc);
    'columns: for i in 0..at.1 {
        add_column(alloc, bytes, at.0 + 4 * i, budget, &mut columns)?;
    }
    Ok(columns)
}

/// The entries of the schema whose table is at that place of a message or footer, within a budget of eight times its bytes.
#[tactic(auto, unfolding(crate::specs::Entries::schema_entries))]
fn schema_entries<'a>(
    alloc: Global,
    bytes: &'a [u8],
    place: Found<usize>,
) -> Result<SchemaEntries<'a>, IpcError>
    requires { length bytes.now < 2 ^ 32 }
    ensures { EntriesIn (entries_of place) bytes.now result }
{
    let head = head_at(bytes, place?)?;
    let mut budget = bytes.len() * 8;
    Ok(SchemaEntries {
        columns: columns_entries(alloc, bytes, head.fields, &mut budget)?,
        schema: entries_at(alloc, bytes, head.texts, &mut budget)?,
    })
}

/// Returns the entries of metadata of the schema at the head of an Arrow stream, those of its columns alone and not of what is
/// below them. Of a key that stands several times [`crate::read_schema`] has the last entry.
///
/// Errs as `read_schema` does by what is read here, and with `Budget` where the entries, each as often as it is reached, have
/// more than eight times the message's bytes; and when out of memory.
///
/// ```rust
/// let refused = read_entries(alloc, &[0xff, 0xff, 0xff, 0xff, 0, 0, 0, 0]);
/// assert!(rt; matches!(refused, Err(IpcError::Broken(fault)) if fault.rule == IpcRule::EndOfStream));
/// ```
#[tactic(auto, unfolding(crate::specs::Entries::entries_of_message))]
pub fn read_entries<'a>(alloc: Global, stream: &'a [u8]) -> Result<SchemaEntries<'a>, IpcError>
    ensures { AreEntries (message_in stream.now) entries_of_message result }
{
    let message = message_in(stream)?;
    schema_entries(alloc, message, message_at(message))
}

/// Returns the entries of metadata of the schema of an Arrow file, from its end, as [`crate::read_file_footer`] takes it. Errs
/// as [`read_entries`]; the byte is counted from the footer's first (of `Magic` and `FooterSize` from the first that is given).
#[tactic(auto, unfolding(crate::specs::Entries::entries_of_footer))]
pub fn read_file_entries<'a>(alloc: Global, end: &'a [u8]) -> Result<SchemaEntries<'a>, IpcError>
    ensures { AreEntries (footer_in end.now) entries_of_footer result }
{
    let footer = footer_in(end)?;
    schema_entries(alloc, footer, footer_at(footer))
}
