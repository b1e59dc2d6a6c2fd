//! Records that are written.
ghost use Rattle.std.specs.Prelude.{◌≡◌, ◌++◌, ◌^◌, ◌<◌, ◌≤◌, ◌-◌, replicate, true, false, IfOk};
ghost use Rattle.std.specs.Prelude.{IfErr, OnOk};
ghost use Rattle.std.specs.Str.{is_utf8};
ghost use Rattle.record_wire.specs.Record.{structure};
ghost use Rattle.record_wire.specs.Write.{word, text_of, dictionary_mark, name_mark, metadata_mark};
ghost use Rattle.record_wire.specs.Write.{marks_of, room_of, size_of, head_of, texts_of, bytes_of};
ghost use Rattle.record_wire.specs.Write.{has_nuls, IsReadAs, Refuses};
ghost use Rattle.record_wire.specs.declared.write.WriteError.TheVariants.{OutOfMemory};

use crate::record::{Record, has_nul};
use std::alloc::AllocError;

/// Why records are not written.
#[derive(Clone, Copy, Debug, PartialEq, Eq)]
pub enum WriteError {
    /// A format string or a name has a NUL, at which it would end.
    Nul,
    /// They would take more than 2^28 bytes, or be more than 4,000,000.
    TooLarge,
    /// A structure lies in more than 61.
    TooDeep,
    /// Out of memory.
    OutOfMemory,
}

impl From<AllocError> for WriteError {
    ghost from_gives = { λ _ e. e ≡ OutOfMemory };

    fn from(_refused: AllocError) -> WriteError {
        WriteError::OutOfMemory
    }
}

/// Puts a number of four bytes, the least first.
#[tactic(auto, unfolding(crate::specs::Write::word))]
pub(crate) fn put_word(bytes: &mut Vec<u8>, number: u32) -> Result<(), AllocError>
    ensures { OnOk result (bytes.new.items ≡ bytes.old.items ++ word number) }
{
    bytes.extend_from_slice(&number.to_le_bytes())
}

/// Returns the mark of a dictionary.
fn dictionary_mark(one: &Record<'_>) -> u32
    ensures is { result ≡ dictionary_mark (structure one.now).has_dictionary }
    ensures small { result ≤ 1 }
{
    if one.has_dictionary { 1 } else { 0 }
}

/// Returns the mark of a name that is missing.
fn name_mark(one: &Record<'_>) -> u32
    ensures is { result ≡ name_mark (structure one.now).name }
    ensures small { result ≤ 2 }
{
    match one.name {
        None => 2,
        Some(_) => 0,
    }
}

/// Returns the mark of metadata.
fn metadata_mark(one: &Record<'_>) -> u32
    ensures is { result ≡ metadata_mark (structure one.now).metadata }
    ensures small { result ≤ 4 }
{
    match one.metadata {
        None => 0,
        Some(_) => 4,
    }
}

/// Returns the marks of a structure.
fn marks_of(one: &Record<'_>) -> u32
    ensures { result ≡ marks_of (structure one.now) }
{
    dictionary_mark(one) + (name_mark(one) + metadata_mark(one))
}

/// Returns metadata, or no bytes.
fn metadata_of<'a>(one: &Record<'a>) -> &'a [u8]
    ensures { result.now ≡ text_of (structure one.now).metadata }
{
    match one.metadata {
        None => &[],
        Some(metadata) => metadata,
    }
}

/// Returns a name, or the empty text.
fn name_of<'a>(one: &Record<'a>) -> &'a str
    ensures { result.now ≡ text_of (structure one.now).name }
{
    match one.name {
        None => "",
        Some(name) => name,
    }
}

/// Of how many bytes a record may be at most: 2^28, so that its numbers fit their words.
const MOST: usize = 0x1000_0000;

/// Returns how long the record of a structure is without its padding.
fn room_of(one: &Record<'_>) -> Result<usize, WriteError>
    ensures ok { IfOk result (λ n. n ≡ room_of (structure one.now)) }
    ensures small { OnOk result (size_of (structure one.now) ≤ 2 ^ 28) }
    ensures err { IfErr result (λ e. Refuses e (structure one.now)) }
{
    let metadata = metadata_of(one).len();
    let format = one.format.len();
    let name = name_of(one).len();
    if metadata > MOST || format > MOST || name > MOST {
        return Err(WriteError::TooLarge);
    }
    let room = 34 + (metadata + (format + name));
    if room > MOST {
        return Err(WriteError::TooLarge);
    }
    Ok(room)
}

/// Errs where a text of a structure has a NUL.
#[tactic(auto, using(crate::proofs::Texts::utf8_tests))]
fn ensure_no_nuls(one: &Record<'_>) -> Result<(), WriteError>
    ensures format { is_utf8 one.now.format.now ≡ true }
    ensures name { is_utf8 (text_of (structure one.now).name) ≡ true }
    ensures ok { OnOk result (has_nuls (structure one.now) ≡ false) }
    ensures err { IfErr result (λ e. Refuses e (structure one.now)) }
{
    let format = one.format.as_bytes();
    let name = name_of(one);
    if has_nul(format) || has_nul(name.as_bytes()) {
        return Err(WriteError::Nul);
    }
    Ok(())
}

/// Puts the eight numbers of a record.
#[tactic(auto, using(std::proofs::lemmas::List::append_assoc))]
fn put_head(bytes: &mut Vec<u8>, one: &Record<'_>, size: u32) -> Result<(), AllocError>
    requires size { size ≡ size_of (structure one.now) }
    requires small { size_of (structure one.now) ≤ 2 ^ 28 }
    ensures is { OnOk result (bytes.new.items ≡ bytes.old.items ++ head_of (structure one.now)) }
    ensures children { OnOk result (one.now.children < 2 ^ 32) }
    ensures flags { OnOk result (one.now.flags < 2 ^ 32) }
    ensures level { OnOk result (one.now.level < 2 ^ 32) }
{
    // Read here, each of the three is known to be below 2^32, which the clauses say of them.
    let _read = (one.children, one.flags, one.level);
    let metadata = metadata_of(one).len() as u32;
    let format = one.format.len() as u32;
    let name = name_of(one).len() as u32;
    put_word(bytes, size)?;
    put_word(bytes, one.children)?;
    put_word(bytes, marks_of(one))?;
    put_word(bytes, one.flags)?;
    put_word(bytes, one.level)?;
    put_word(bytes, metadata)?;
    put_word(bytes, format)?;
    put_word(bytes, name)?;
    Ok(())
}

/// Puts so many zeros.
#[tactic(auto, using(crate::proofs::Written::zeros_put))]
fn put_zeros(bytes: &mut Vec<u8>, count: usize) -> Result<(), AllocError>
    requires { count < 8 }
    ensures { OnOk result (bytes.new.items ≡ bytes.old.items ++ replicate count 0) }
{
    bytes.resize(bytes.len() + count, 0)
}

/// Puts the metadata and texts of a record, and its padding.
#[tactic(auto, using(std::proofs::lemmas::List::append_assoc))]
fn put_texts(bytes: &mut Vec<u8>, one: &Record<'_>, padding: usize) -> Result<(), AllocError>
    requires { padding ≡ size_of (structure one.now) - room_of (structure one.now) }
    ensures { OnOk result (bytes.new.items ≡ bytes.old.items ++ texts_of (structure one.now)) }
{
    bytes.extend_from_slice(metadata_of(one))?;
    bytes.extend_from_slice(one.format.as_bytes())?;
    bytes.push(0)?;
    bytes.extend_from_slice(name_of(one).as_bytes())?;
    bytes.push(0)?;
    put_zeros(bytes, padding)
}

/// Returns the bytes with the record of a structure behind them.
#[tactic(auto, using(std::proofs::lemmas::List::append_assoc))]
pub fn with_record(bytes: Vec<u8>, one: &Record<'_>) -> Result<Vec<u8>, WriteError>
    ensures ok { IfOk result (λ b. b.items ≡ bytes.items ++ bytes_of (structure one.now)) }
    ensures read { OnOk result (IsReadAs (bytes_of (structure one.now)) (structure one.now)) }
    ensures small { OnOk result (size_of (structure one.now) ≤ 2 ^ 28) }
    ensures err { IfErr result (λ e. Refuses e (structure one.now)) }
{
    let room = room_of(one)?;
    ensure_no_nuls(one)?;
    let size = (room + 7) / 8 * 8;
    let mut bytes = bytes;
    put_head(&mut bytes, one, size as u32)?;
    put_texts(&mut bytes, one, size - room)?;
    Ok(bytes)
}
