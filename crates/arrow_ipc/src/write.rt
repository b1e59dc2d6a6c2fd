//! A schema as the message at the head of a stream, and the blocks of which a message is made, each of a length that is a multiple of eight.
ghost use Rattle.arrow_ipc.specs.Rules.{write_code, write_message, write_wanted};
ghost use Rattle.std.specs.Prelude.{◌≡◌, ◌+◌, ◌*◌, ◌<◌, ◌++◌, ◌∷◌, [], length, OnOk, map, IfOk, IfErr};
ghost use Rattle.arrow_values.specs.View.{texts_of};
ghost use Rattle.arrow_columns.specs.Column.{type_tree, column_tree};
ghost use Rattle.arrow_ipc.specs.Schema.{schema_tree};
ghost use Rattle.arrow_ipc.specs.Denotes.{IsStreamOf};
ghost use Rattle.arrow_ipc.specs.Blocks.{Holds, child_in, word, linked, vector_block, table_size, table_block, text_read, entry_read, texts_read, type_block};
ghost use Rattle.arrow_ipc.specs.Rooms.{Makes, Gives, IsUnfitType, texts_room, room_of, schema_room};
ghost use Rattle.arrow_ipc.specs.declared.write.WriteError.TheVariants.{OutOfMemory};
ghost use Rattle.arrow_ipc.specs.Writes.{Streams, RefusesColumns, GivesColumns};

use crate::nesting::data_block;
use crate::schema::{Endianness, NESTING_LIMIT, Schema};
use arrow_columns::{AnyType, SchemaColumn};
use std::alloc::{AllocError, AllocFailed, Global};
use std::collections::BTreeMap;

/// Why a schema is not written.
#[derive(Clone, Copy, Debug, PartialEq, Eq)]
pub enum WriteError {
    /// No message can hold the type of a column, with the column's index: it is known by its notation alone, is nested deeper than
    /// `NESTING_LIMIT`, has a list of negative size, or a union whose type ids are not 0 to 127, each once.
    Column(usize),
    /// The message would take 2^31 bytes or more.
    TooLarge,
    /// Out of memory.
    OutOfMemory,
}

impl WriteError {
    /// Returns the code of the error, as reports have it (`docs/FORMAT.md`, 2.8).
    pub fn code(self) -> &'static str
        ensures { result.now ≡ write_code self }
    {
        match self {
            WriteError::Column(_) => "ColumnType",
            WriteError::TooLarge => "SchemaTooLarge",
            WriteError::OutOfMemory => "OutOfMemory",
        }
    }

    /// Returns what is wrong.
    pub fn message(self) -> &'static str
        ensures { result.now ≡ write_message self }
    {
        match self {
            WriteError::Column(_) => "a type that no message can hold",
            WriteError::TooLarge => "a schema of 2^31 bytes or more",
            WriteError::OutOfMemory => "out of memory",
        }
    }

    /// Returns what is asked.
    pub fn wanted(self) -> &'static str
        ensures { result.now ≡ write_wanted self }
    {
        match self {
            WriteError::Column(_) => "a type of Schema.fbs, nested at most 61 levels deep",
            WriteError::TooLarge => "fewer than 2^31 bytes",
            WriteError::OutOfMemory => "more memory",
        }
    }
}

/// A block that is made, or why it is not.
pub(crate) type Block = Result<Vec<u8>, WriteError>;

impl From<AllocError> for WriteError {
    ghost from_gives = { λ _ e. e ≡ OutOfMemory };

    fn from(_refused: AllocError) -> WriteError {
        WriteError::OutOfMemory
    }
}

impl<T: Drop> From<AllocFailed<T>> for WriteError {
    ghost from_gives = { λ _ e. e ≡ OutOfMemory };

    fn from(_refused: AllocFailed<T>) -> WriteError {
        WriteError::OutOfMemory
    }
}

/// Puts a number of four bytes, the least byte first.
pub(crate) fn put_word(bytes: &mut Vec<u8>, number: u32) -> Result<(), AllocError>
    ensures { OnOk result (bytes.new.items ≡ bytes.old.items ++ word number) }
{
    bytes.extend_from_slice(&number.to_le_bytes())
}

/// A text, with a NUL behind it.
pub(crate) fn text_block(alloc: Global, text: &str) -> Block
    ensures { Gives (λ b. Holds text_read b text.now) ⊥ (12 + length text.now) result }
{
    let count = u32::try_from(text.len()).or(Err(WriteError::TooLarge))?;
    let mut body = Vec::with_capacity(alloc, text.len() + 1)?;
    body.extend_from_slice(text.as_bytes())?;
    body.push(0)?;
    linked_block(alloc, count, &[], body.as_slice())
}

/// A number, offsets to blocks, and other bytes, up to a multiple of eight; behind them the blocks.
#[tactic(auto, using(crate::proofs::Linked::long_linked, crate::proofs::Linked::zeros_put, std::proofs::lemmas::List::drop_all, std::proofs::lemmas::List::drop_more, std::proofs::lemmas::List::append_assoc), unfolding(crate::specs::Blocks::offsets, crate::specs::Blocks::linked))]
pub(crate) fn linked_block(alloc: Global, first: u32, blocks: &[Vec<u8>], rest: &[u8]) -> Block
    ensures { Makes (linked first (map (λ v. v.items) blocks.now) rest.now) result }
{
    if blocks.len() >= 0x2000_0000 || rest.len() >= 0x8000_0000 {
        return Err(WriteError::TooLarge);
    }
    let mut end = (4 + (4 * blocks.len() + rest.len()) + 7) / 8 * 8;
    let mut block = Vec::with_capacity(alloc, end)?;
    put_word(&mut block, first)?;
    'offsets: for one in blocks {
        let offset = u32::try_from(end - block.len()).or(Err(WriteError::TooLarge))?;
        put_word(&mut block, offset)?;
        end += one.len();
    }
    if end >= 0x8000_0000 {
        return Err(WriteError::TooLarge);
    }
    block.extend_from_slice(rest)?;
    block.resize((block.len() + 7) / 8 * 8, 0)?;
    'bodies: for piece in blocks {
        block.extend_from_slice(piece.as_slice())?;
    }
    Ok(block)
}

/// A table with the blocks to which its offsets lead. Its offsets come first, then its numbers, then its vtable; `slots` has for each
/// slot how far it is from the table's begin, 0 where it is missing.
pub(crate) fn table_block(alloc: Global, slots: &[u8], numbers: &[u8], blocks: &[Vec<u8>]) -> Block
    requires { table_size (map (λ v. v.items) blocks.now) numbers.now + 2 * length slots.now < 100 }
    ensures { Makes (table_block slots.now numbers.now (map (λ v. v.items) blocks.now)) result }
{
    let size = 4 + (4 * blocks.len() + numbers.len());
    let mut rest = Vec::with_capacity(alloc, numbers.len() + 4 + 2 * slots.len())?;
    rest.extend_from_slice(numbers)?;
    rest.extend_from_slice(&[4 + 2 * slots.len() as u8, 0, size as u8, 0])?;
    'slots: for slot in slots {
        rest.extend_from_slice(&[*slot, 0])?;
    }
    let vtable = (0x1_0000_0000 - size) as u32;
    linked_block(alloc, vtable, blocks, rest.as_slice())
}

/// A vector of tables, with their blocks behind it.
#[tactic(auto, using(crate::proofs::Linked::long_linked))]
pub(crate) fn vector_block(alloc: Global, blocks: &[Vec<u8>]) -> Block
    ensures { Makes (vector_block (map (λ v. v.items) blocks.now)) result }
{
    let count = u32::try_from(blocks.len()).or(Err(WriteError::TooLarge))?;
    linked_block(alloc, count, blocks, &[])
}

/// An entry of metadata.
fn entry_block(alloc: Global, key: &str, text: &str) -> Block
    ensures { Gives (λ b. Holds entry_read b (key.now, text.now)) ⊥ (48 + length key.now + length text.now) result }
{
    let first = text_block(alloc, key)?;
    let second = text_block(alloc, text)?;
    table_block(alloc, &[4, 8], &[], &[first, second])
}

/// Metadata.
#[tactic(auto, using(crate::proofs::Blocks::made_more, std::proofs::lemmas::List::map_push))]
pub(crate) fn texts_block(alloc: Global, texts: &BTreeMap<String, String>) -> Block
    ensures { Gives (λ b. Holds texts_read b (texts_of texts.now.entries)) ⊥ (texts_room (texts_of texts.now.entries)) result }
{
    let mut blocks = Vec::new(alloc);
    'entries: for (key, text) in texts.iter() {
        blocks.push(entry_block(alloc, key.as_str(), text.as_str())?)?;
    }
    vector_block(alloc, blocks.as_slice())
}

/// A type's table, with a number and a truth value of its own.
pub(crate) fn type_block(alloc: Global, number: Option<u32>, truth: Option<bool>) -> Block
    ensures { Makes (type_block number truth) result }
{
    let places = [4 * number.is_some() as u8, 8 * truth.is_some() as u8];
    let [a, b, c, d] = number.unwrap_or(0).to_le_bytes();
    let numbers = [a, b, c, d, truth.unwrap_or(false) as u8, 0, 0, 0];
    table_block(alloc, &places, &numbers, &[])
}

/// A column of any type.
fn any_column(alloc: Global, column: &SchemaColumn) -> Block
    ensures { Gives (λ b. Holds (child_in NESTING_LIMIT) b (column_tree column.now)) (IsUnfitType NESTING_LIMIT (type_tree column.now.data_type)) (room_of (column_tree column.now)) result }
{
    match &column.data_type {
        AnyType::Data(data_type) => data_block(
            alloc,
            column.name.as_str(),
            column.nullable,
            data_type,
            &column.metadata,
            NESTING_LIMIT,
        ),
        // no message can hold the type, here and in the blocks below: `columns_block` puts the index of the column
        AnyType::Other(_) => Err(WriteError::Column(0)),
    }
}

/// The vector of the columns of a schema.
#[tactic(auto, using(crate::proofs::Blocks::made_more, std::proofs::lemmas::List::drop_more, std::proofs::lemmas::List::map_push))]
fn columns_block(alloc: Global, columns: &[SchemaColumn]) -> Block
    ensures { GivesColumns NESTING_LIMIT (map column_tree columns.now) result }
{
    let mut blocks = Vec::new(alloc);
    'columns: for i in 0..columns.len() {
        match any_column(alloc, &columns[i]) {
            Err(WriteError::Column(_)) => return Err(WriteError::Column(i)),
            block => blocks.push(block?)?,
        }
    }
    vector_block(alloc, blocks.as_slice())
}

/// The stream of a schema, given the blocks of its columns and of its metadata.
#[tactic(auto, using(crate::proofs::Blocks::length_schema, crate::proofs::Blocks::length_message))]
fn stream_bytes(alloc: Global, columns: Vec<u8>, texts: Vec<u8>, order: Endianness) -> Block
    ensures { Gives (Streams NESTING_LIMIT columns.items texts.items order) ⊥ (72 + length columns.items + length texts.items) result }
{
    let numbers = [order as u8, 0, 0, 0];
    let schema = table_block(alloc, &[12, 4, 8], &numbers, &[columns, texts])?;
    let message = table_block(alloc, &[8, 10, 4], &[4, 0, 1, 0], &[schema])?;
    if message.len() >= 0x7fff_fff8 {
        return Err(WriteError::TooLarge);
    }
    let mut stream = Vec::new(alloc);
    put_word(&mut stream, 0xffff_ffff)?;
    put_word(&mut stream, 8 + message.len() as u32)?;
    stream.extend_from_slice(&[8, 0, 0, 0, 0, 0, 0, 0])?;
    stream.extend_from_slice(message.as_slice())?;
    Ok(stream)
}

/// The schema as an Arrow stream of its message alone (Arrow, "Serialization and Interprocess Communication"), of version 5, with
/// the continuation marker (`docs/FORMAT.md`, 3.6): bytes that denote the schema, and which `read_schema` reads.
///
/// Errs at a column whose type no message can hold, where the message would take 2^31 bytes or more, and when out of memory.
///
/// ```rust
/// let number = SchemaColumn { name: String::from_str(alloc, "n")?, nullable: false, data_type: AnyType::Data(DataType::Int32), metadata: BTreeMap::new(alloc) };
/// let schema = Schema { columns: vec![in alloc; number]?, metadata: BTreeMap::new(alloc), endianness: Endianness::Little };
/// let stream = write_schema(alloc, &schema)?;
/// let again = read_schema(alloc, stream.as_slice());
/// assert!(rt; matches!(again, Ok(schema) if schema.columns.len() == 1));
/// ```
#[tactic(auto, unfolding(crate::specs::Writes::Streams))]
pub fn write_schema(alloc: Global, schema: &Schema) -> Result<Vec<u8>, WriteError>
    ensures is { IfOk result (λ b. IsStreamOf NESTING_LIMIT b.items (schema_tree schema.now)) }
    ensures err { IfErr result (λ e. RefusesColumns NESTING_LIMIT e (map column_tree schema.now.columns.items) (schema_room (schema_tree schema.now))) }
{
    let columns = columns_block(alloc, schema.columns.as_slice())?;
    let texts = texts_block(alloc, &schema.metadata)?;
    stream_bytes(alloc, columns, texts, schema.endianness)
}
