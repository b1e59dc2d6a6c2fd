//! The schema of a message or of a file's footer: its columns with all that is below them are read into memory of their own, within a
//! budget.
ghost use Rattle.std.specs.Prelude.{◌≡◌, ◌+◌, ◌*◌, ◌^◌, ◌≤◌, ◌<◌, length, IfOk, IfErr, IfSome, OnOk, map, option_map, ◌++◌, ◌∷◌, []};
ghost use Rattle.arrow_values.specs.View.{texts_of};
ghost use Rattle.arrow_columns.specs.Column.{column_tree};
ghost use Rattle.arrow_ipc.specs.Fault.{map_ok};
ghost use Rattle.arrow_ipc.specs.Parts.{parts_of};
ghost use Rattle.arrow_ipc.specs.Tells.{Tells, Says};
ghost use Rattle.arrow_ipc.specs.Columns.{entry_at, put_entry, texts_at, is_new, ids_at, finished, columns_by, column_at};
ghost use Rattle.arrow_ipc.specs.Schema.{head_at, message_at, footer_at, cut, size_at, message_of, message_in, footer_in, schema_of, Meets, MeetsIn, schema_of_message, schema_of_footer};

use crate::fault::{Found, IpcError, IpcRule, broken, ensure};
use crate::parts::{Parts, parts_at};
use crate::wire::{
    Vector, integer_at, integer_in, open, table_in, target_at, utf8_at, vector_at, vector_in,
};
use arrow_columns::SchemaColumn;
use arrow_kinds::{Kind, type_of, with_dictionary};
use std::alloc::Global;
use std::collections::BTreeMap;

/// How deep columns may be nested: a column of the schema is 1 deep, its children are 2 deep.
pub const NESTING_LIMIT: usize = 61;

/// The order of the bytes of numbers in the data that a schema describes.
#[derive(Clone, Copy, Debug, PartialEq, Eq)]
pub enum Endianness {
    /// The least byte first.
    Little,
    /// The greatest byte first.
    Big,
}

/// A schema: columns, texts of its own, and the byte order of the data.
#[derive(Debug, Drop)]
pub struct Schema {
    /// The columns, in order.
    pub columns: Vec<SchemaColumn>,
    /// The metadata of the schema itself.
    pub metadata: BTreeMap<String, String>,
    /// The byte order of the data.
    pub endianness: Endianness,
}

/// What the table of a schema says before its columns are read.
#[derive(Clone, Copy)]
pub(crate) struct Head {
    /// The byte order of the data.
    pub endianness: Endianness,
    /// The tables of its columns.
    pub fields: Vector,
    /// The tables of its metadata.
    pub texts: Vector,
}

/// What is read, or why it is not.
pub(crate) type Read<T> = Result<T, IpcError>;

/// The texts of metadata.
type Texts = BTreeMap<String, String>;

/// Takes an amount and the bytes of two texts from a budget.
pub(crate) fn spend(
    budget: &mut usize,
    amount: usize,
    one: &str,
    other: &str,
    at: usize,
) -> Read<()>
    ensures ok { OnOk result (budget.new + (amount + length one.now + length other.now) ≡ budget.old) }
    ensures err { IfErr result (λ e. (e ≡ IpcError.Budget at) × (budget.old < amount + length one.now + length other.now)) }
{
    let left = *budget;
    if amount > left || one.len() > left - amount || other.len() > left - amount - one.len() {
        return Err(IpcError::Budget(at));
    }
    *budget = left - amount - one.len() - other.len();
    Ok(())
}

/// The entry of metadata to which the offset at a position leads: its key and its text.
#[tactic(auto, unfolding(crate::specs::Columns::entry_at, crate::specs::Columns::entry_in))]
pub(crate) fn entry_at(bytes: &[u8], at: usize) -> Found<(&str, &str)>
    ensures { map_ok (λ e. (e.0.now, e.1.now)) result ≡ entry_at bytes.now at }
{
    let table = open(bytes, target_at(bytes, at)?)?;
    let key = utf8_at(bytes, table_in(bytes, &table, 0)?)?;
    let text = utf8_at(bytes, table_in(bytes, &table, 1)?)?;
    Ok((key, text))
}

/// Puts an entry of metadata to those before it.
#[tactic(auto, using(crate::proofs::Blocks::texts_inserted))]
#[inline(never)]
fn put_entry(alloc: Global, bytes: &[u8], at: usize, budget: &mut usize, to: &mut Texts) -> Read<()>
    ensures { Tells (λ _. texts_of to.new.entries) (put_entry bytes.now at (texts_of to.old.entries)) budget.old budget.new result }
{
    let (key, text) = entry_at(bytes, at)?;
    spend(budget, 8, key, text, at)?;
    let key = String::from_str(alloc, key)?;
    to.insert(key, String::from_str(alloc, text)?)?;
    Ok(())
}

/// The metadata to which the offsets of a vector lead.
#[tactic(auto, using(crate::proofs::Told::begins, crate::proofs::Told::goes_on, crate::proofs::Told::breaks_off, crate::proofs::Told::is_done), unfolding(crate::specs::Columns::texts_at))]
fn read_texts(alloc: Global, bytes: &[u8], at: Vector, budget: &mut usize) -> Read<Texts>
    requires { at.0 + 4 * at.1 ≤ length bytes.now }
    ensures { Tells (λ m. texts_of m.entries) (texts_at bytes.now at) budget.old budget.new result }
{
    let mut texts = BTreeMap::new(alloc);
    'entries: for i in 0..at.1 {
        put_entry(alloc, bytes, at.0 + 4 * i, budget, &mut texts)?;
    }
    Ok(texts)
}

/// Whether a type id is 0 to 127, and none of those before it.
fn is_new(id: usize, ids: &[i8]) -> bool
    ensures { result ≡ is_new id ids.now }
{
    id < 128 && !ids.contains(&(id as i8))
}

/// The type ids of a union of so many children, each 0 to 127, and none of those before it; where they are not written, 0, 1, 2 and on.
#[tactic(auto, using(crate::proofs::Told::next_id, crate::proofs::Told::all_ids), unfolding(crate::specs::Columns::ids_at, crate::specs::Columns::put_id))]
#[inline(never)]
fn read_ids(alloc: Global, bytes: &[u8], parts: &Parts<'_>, count: usize) -> Read<Vec<i8>>
    requires { IfSome parts.now.ids (λ v. v.0 + 4 * v.1 ≤ length bytes.now) }
    ensures { Says (λ ids. ids.items) (ids_at bytes.now parts.now.table parts.now.ids count) result }
{
    if matches!(parts.ids, Some((_, written)) if written != count) {
        return Err(IpcError::Broken(broken(IpcRule::TypeIds, parts.table)));
    }
    let mut ids = Vec::new(alloc);
    'ids: for i in 0..count {
        let id = match parts.ids {
            None => i,
            Some((start, _)) => integer_at(bytes, start + 4 * i, 4)?,
        };
        ensure(is_new(id, ids.as_slice()), IpcRule::TypeIds, parts.table)?;
        ids.push(id as i8)?;
    }
    Ok(ids)
}

/// A column, given its children.
#[tactic(auto, unfolding(crate::specs::Columns::finished))]
fn finish(
    alloc: Global,
    bytes: &[u8],
    parts: &Parts<'_>,
    children: Vec<SchemaColumn>,
    budget: &mut usize,
) -> Read<SchemaColumn>
    requires ids { IfSome parts.now.ids (λ v. v.0 + 4 * v.1 ≤ length bytes.now) }
    requires texts { parts.now.texts.0 + 4 * parts.now.texts.1 ≤ length bytes.now }
    ensures { Tells column_tree (finished bytes.now (parts_of parts.now) (map column_tree children.items)) budget.old budget.new result }
{
    let ids = match parts.kind {
        Kind::Union(_) => read_ids(alloc, bytes, parts, children.len())?,
        _ => Vec::new(alloc),
    };
    let made = type_of(alloc, &parts.kind, parts.zone, ids, children)?;
    let values = made.ok_or(broken(IpcRule::Children, parts.table))?;
    Ok(SchemaColumn {
        data_type: with_dictionary(alloc, &parts.index, values)?,
        metadata: read_texts(alloc, bytes, parts.texts, budget)?,
        name: String::from_str(alloc, parts.name)?,
        nullable: parts.nullable,
    })
}

/// Reads the column to which the offset at a position leads, and all that is below it.
#[tactic(auto, using(crate::proofs::Told::too_deep, crate::proofs::Told::steps))]
#[cycle(read)]
fn column(
    alloc: Global,
    bytes: &[u8],
    at: usize,
    depth: usize,
    budget: &mut usize,
) -> Read<SchemaColumn>
    ensures { Tells column_tree (column_at depth bytes.now at) budget.old budget.new result }
{
    ensure(depth > 0, IpcRule::Depth, at)?;
    let parts = parts_at(bytes, at)?;
    spend(budget, 16, parts.name, parts.zone, at)?;
    let children = read_columns(alloc, bytes, parts.children, depth - 1, budget)?;
    finish(alloc, bytes, &parts, children, budget)
}

/// Reads the columns to which the offsets of a vector lead.
#[tactic(auto, using(crate::proofs::Told::begins, crate::proofs::Told::goes_on, crate::proofs::Told::breaks_off, crate::proofs::Told::put_fails, crate::proofs::Told::is_done, std::proofs::lemmas::List::map_push), unfolding(crate::specs::Columns::columns_by))]
#[cycle(read)]
fn read_columns(
    alloc: Global,
    bytes: &[u8],
    offsets: Vector,
    depth: usize,
    budget: &mut usize,
) -> Read<Vec<SchemaColumn>>
    requires { offsets.0 + 4 * offsets.1 ≤ length bytes.now }
    ensures { Tells (λ v. map column_tree v.items) (columns_by (column_at depth bytes.now) offsets) budget.old budget.new result }
{
    let mut found = Vec::new(alloc);
    'columns: for i in 0..offsets.1 {
        found.push(column(alloc, bytes, offsets.0 + 4 * i, depth, budget)?)?;
    }
    Ok(found)
}

/// Where the schema of a message is.
#[tactic(auto, unfolding(crate::specs::Schema::message_at))]
pub(crate) fn message_at(bytes: &[u8]) -> Found<usize>
    ensures { result ≡ message_at bytes.now }
{
    let message = open(bytes, target_at(bytes, 0)?)?;
    let version = integer_in(bytes, &message, 0, 2, 0)?;
    let tag = integer_in(bytes, &message, 1, 1, 0)?;
    let body = integer_in(bytes, &message, 3, 8, 0)?;
    match (version, tag, body) {
        (3 | 4, 1, 0) => table_in(bytes, &message, 2),
        _ => Err(broken(IpcRule::Message, message.at)),
    }
}

/// Where the schema of a file's footer is.
#[tactic(auto, unfolding(crate::specs::Schema::footer_at))]
pub(crate) fn footer_at(bytes: &[u8]) -> Found<usize>
    ensures { result ≡ footer_at bytes.now }
{
    let footer = open(bytes, target_at(bytes, 0)?)?;
    match integer_in(bytes, &footer, 0, 2, 0)? {
        3 | 4 => table_in(bytes, &footer, 1),
        _ => Err(broken(IpcRule::Message, footer.at)),
    }
}

/// The bytes of that size from a position on, which are some; or that rule is broken there.
#[tactic(auto, unfolding(crate::specs::Schema::cut))]
fn cut(rule: IpcRule, bytes: &[u8], start: usize, size: usize) -> Found<&[u8]>
    requires { size < 2 ^ 32 }
    ensures is { map_ok (λ m. m.now) result ≡ cut rule bytes.now start size }
    ensures small { IfOk result (λ m. length m.now < 2 ^ 32) }
{
    match bytes.get(start..) {
        Some(rest) if 0 < size && size <= rest.len() => Ok(&rest[..size]),
        _ => Err(broken(rule, start)),
    }
}

/// The size at a position of a stream, which is not cut off.
fn size_at(bytes: &[u8], at: usize) -> Found<usize>
    ensures is { result ≡ size_at bytes.now at }
    ensures small { IfOk result (λ size. size < 2 ^ 32) }
{
    match integer_at(bytes, at, 4) {
        Ok(size) => Ok(size),
        Err(_) => Err(broken(IpcRule::Cut, at)),
    }
}

/// The message of that size at a position of a stream; a size of 0 is the stream's end.
fn message_of(bytes: &[u8], start: usize, size: usize) -> Found<&[u8]>
    requires { size < 2 ^ 32 }
    ensures is { map_ok (λ m. m.now) result ≡ message_of bytes.now start size }
    ensures small { IfOk result (λ m. length m.now < 2 ^ 32) }
{
    if size == 0 {
        return Err(broken(IpcRule::EndOfStream, start));
    }
    cut(IpcRule::Cut, bytes, start, size)
}

/// The message at the head of a stream.
#[tactic(auto, unfolding(crate::specs::Schema::message_in))]
pub(crate) fn message_in(bytes: &[u8]) -> Found<&[u8]>
    ensures is { map_ok (λ m. m.now) result ≡ message_in bytes.now }
    ensures small { IfOk result (λ m. length m.now < 2 ^ 32) }
{
    match size_at(bytes, 0)? {
        0xffff_ffff => message_of(bytes, 8, size_at(bytes, 4)?),
        size => message_of(bytes, 4, size),
    }
}

/// The footer at the end of a file.
#[tactic(auto, unfolding(crate::specs::Schema::footer_in))]
pub(crate) fn footer_in(bytes: &[u8]) -> Found<&[u8]>
    ensures is { map_ok (λ m. m.now) result ≡ footer_in bytes.now }
    ensures small { IfOk result (λ m. length m.now < 2 ^ 32) }
{
    ensure(bytes.len() >= 10, IpcRule::Magic, 0)?;
    let end = bytes.len() - 10;
    let size = match &bytes[end..] {
        [a, b, c, d, 65, 82, 82, 79, 87, 49] => u32::from_le_bytes([*a, *b, *c, *d]) as usize,
        _ => return Err(broken(IpcRule::Magic, end)),
    };
    ensure(size <= end, IpcRule::FooterSize, end)?;
    cut(IpcRule::FooterSize, &bytes[..end], end - size, size)
}

/// What the table of a schema at a position says before its columns are read.
#[tactic(auto, unfolding(crate::specs::Schema::head_at))]
pub(crate) fn head_at(bytes: &[u8], at: usize) -> Found<Head>
    requires { length bytes.now < 2 ^ 32 }
    ensures is { result ≡ head_at bytes.now at }
    ensures fields { IfOk result (λ h. h.fields.0 + 4 * h.fields.1 ≤ length bytes.now) }
    ensures texts { IfOk result (λ h. h.texts.0 + 4 * h.texts.1 ≤ length bytes.now) }
{
    let table = open(bytes, at)?;
    let endianness = match integer_in(bytes, &table, 0, 2, 0)? {
        0 => Endianness::Little,
        _ => Endianness::Big,
    };
    let fields = vector_at(bytes, table_in(bytes, &table, 1)?)?;
    let texts = vector_in(bytes, &table, 2)?.unwrap_or((0, 0));
    Ok(Head {
        endianness,
        fields,
        texts,
    })
}

/// Reads the schema whose table is at that place of a message or footer, within a budget of eight times its bytes.
#[tactic(auto, unfolding(crate::specs::Schema::schema_at))]
fn read_flatbuffer(alloc: Global, bytes: &[u8], place: Found<usize>) -> Read<Schema>
    requires { length bytes.now < 2 ^ 32 }
    ensures { MeetsIn (schema_of NESTING_LIMIT place) bytes.now result }
{
    let head = head_at(bytes, place?)?;
    let mut budget = bytes.len() * 8;
    Ok(Schema {
        columns: read_columns(alloc, bytes, head.fields, NESTING_LIMIT, &mut budget)?,
        metadata: read_texts(alloc, bytes, head.texts, &mut budget)?,
        endianness: head.endianness,
    })
}

/// The schema at the head of an Arrow stream (Arrow, "Serialization and Interprocess Communication"): with the
/// continuation marker or, as written before version 0.15, without it; what follows the message is not looked at.
///
/// Errs with the rule that the message breaks, and the byte, counted from the message's first (of `Cut` and
/// `EndOfStream` from the stream's first); with `Budget` where the tables and texts to be read, each as often as it is reached, have more than
/// eight times the message's bytes; and when out of memory. At most 61 levels of columns are read.
///
/// ```rust
/// let refused = read_schema(alloc, &[0xff, 0xff, 0xff, 0xff, 0, 0, 0, 0]);
/// assert!(rt; matches!(refused, Err(IpcError::Broken(fault)) if fault.rule == IpcRule::EndOfStream));
/// ```
#[tactic(auto, unfolding(crate::specs::Schema::schema_of_message))]
pub fn read_schema(alloc: Global, stream: &[u8]) -> Result<Schema, IpcError>
    ensures { Meets (message_in stream.now) (schema_of_message NESTING_LIMIT) result }
{
    let message = message_in(stream)?;
    read_flatbuffer(alloc, message, message_at(message))
}

/// The schema of an Arrow file, from its end: the bytes of the file, or as many of its last ones as the footer, its
/// size and the magic take. Errs as `read_schema`; the byte is counted from the footer's first (of `Magic` and `FooterSize` from
/// the first that is given).
#[tactic(auto, unfolding(crate::specs::Schema::schema_of_footer))]
pub fn read_file_footer(alloc: Global, end: &[u8]) -> Result<Schema, IpcError>
    ensures { Meets (footer_in end.now) (schema_of_footer NESTING_LIMIT) result }
{
    let footer = footer_in(end)?;
    read_flatbuffer(alloc, footer, footer_at(footer))
}
