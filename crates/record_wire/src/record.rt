//! One record.
ghost use Rattle.std.specs.Prelude.{◌≡◌};
ghost use Rattle.record_wire.specs.Fault.{Returns};
ghost use Rattle.record_wire.specs.Record.{number_at, bytes_at, has_nul, utf8_at, text_at};
ghost use Rattle.record_wire.specs.Record.{numbers_at, has_dictionary, has_name, has_metadata};
ghost use Rattle.record_wire.specs.Record.{are_marked, structure, structure_of, parts_at, is_size};
ghost use Rattle.record_wire.specs.Record.{size_at, record_at};

use crate::fault::{Fault, Rule, broken};

/// A structure without its pointers, as a record has it.
#[derive(Clone, Copy, Debug)]
pub struct Record<'a> {
    /// How many of the structures before it are its children.
    pub children: u32,
    /// Whether the last structure before it, behind its children, is its dictionary.
    pub has_dictionary: bool,
    /// The lower half of its flags.
    pub flags: u32,
    /// In how many structures it lies.
    pub level: u32,
    /// Its metadata, as they stand in memory.
    pub metadata: Option<&'a [u8]>,
    /// Its format string.
    pub format: &'a str,
    /// Its name.
    pub name: Option<&'a str>,
}

/// Returns a number, and the bytes behind it.
#[tactic(auto, unfolding(crate::specs::Record::number_at))]
pub fn number_at(bytes: &[u8]) -> Result<(u32, &[u8]), Rule>
    ensures { Returns (λ x. (x.0, x.1.now)) result (number_at bytes.now) }
{
    match bytes {
        [a, b, c, d, rest @ ..] => Ok((u32::from_le_bytes([*a, *b, *c, *d]), rest)),
        _ => Err(Rule::End),
    }
}

/// Returns so many bytes, and those behind them.
#[tactic(auto, unfolding(crate::specs::Record::bytes_at))]
fn bytes_at(bytes: &[u8], count: u32) -> Result<(&[u8], &[u8]), Rule>
    ensures { Returns (λ x. (x.0.now, x.1.now)) result (bytes_at count bytes.now) }
{
    if count as usize > bytes.len() {
        return Err(Rule::End);
    }
    Ok(bytes.split_at(count as usize))
}

/// Tells whether a text has a NUL.
pub(crate) fn has_nul(text: &[u8]) -> bool
    ensures { result ≡ has_nul text.now }
{
    text.contains(&0)
}

/// Returns a text of so many bytes, and what stands behind its NUL.
#[tactic(auto, using(crate::proofs::Texts::utf8_tests), unfolding(crate::specs::Record::text_at))]
fn text_at(bytes: &[u8], count: u32) -> Result<(&str, &[u8]), Rule>
    ensures { Returns (λ x. (x.0.now, x.1.now)) result (text_at count bytes.now) }
{
    let (text, behind) = bytes_at(bytes, count)?;
    match behind.split_first() {
        Some((0, rest)) if !has_nul(text) => match str::from_utf8(text) {
            Ok(text) => Ok((text, rest)),
            Err(_) => Err(Rule::Utf8),
        },
        _ => Err(Rule::Nul),
    }
}

/// Returns a text behind its length, as metadata have it, and what stands behind it.
#[tactic(auto, using(crate::proofs::Texts::utf8_tests), unfolding(crate::specs::Record::utf8_at))]
pub fn utf8_at(bytes: &[u8]) -> Result<(&str, &[u8]), Rule>
    ensures { Returns (λ x. (x.0.now, x.1.now)) result (utf8_at bytes.now) }
{
    let (count, rest) = number_at(bytes)?;
    let (text, rest) = bytes_at(rest, count)?;
    match str::from_utf8(text) {
        Ok(text) => Ok((text, rest)),
        Err(_) => Err(Rule::Utf8),
    }
}

/// The numbers of a record behind its size.
#[derive(Clone, Copy, Debug)]
struct Numbers {
    children: u32,
    marks: u32,
    flags: u32,
    level: u32,
    metadata: u32,
    format: u32,
    name: u32,
}

/// Returns the numbers of a record behind its size, and the bytes behind them.
#[tactic(auto, unfolding(crate::specs::Record::numbers_at))]
fn numbers_at(bytes: &[u8]) -> Result<(Numbers, &[u8]), Rule>
    ensures { Returns (λ x. (x.0, x.1.now)) result (numbers_at bytes.now) }
{
    let (children, rest) = number_at(bytes)?;
    let (marks, rest) = number_at(rest)?;
    let (flags, rest) = number_at(rest)?;
    let (level, rest) = number_at(rest)?;
    let (metadata, rest) = number_at(rest)?;
    let (format, rest) = number_at(rest)?;
    let (name, rest) = number_at(rest)?;
    let numbers = Numbers {
        children,
        marks,
        flags,
        level,
        metadata,
        format,
        name,
    };
    Ok((numbers, rest))
}

/// Tells whether marks say that there is a dictionary.
fn has_dictionary(marks: u32) -> bool
    ensures { result ≡ has_dictionary marks }
{
    marks % 2 == 1
}

/// Tells whether marks say that there is a name.
fn has_name(marks: u32) -> bool
    ensures { result ≡ has_name marks }
{
    marks / 2 % 2 == 0
}

/// Tells whether marks say that there are metadata.
fn has_metadata(marks: u32) -> bool
    ensures { result ≡ has_metadata marks }
{
    marks >= 4
}

/// Tells whether the marks are known, and what the structure has not takes no bytes.
fn are_marked(numbers: &Numbers) -> bool
    ensures { result ≡ are_marked numbers.now }
{
    let is_named = has_name(numbers.marks) || numbers.name == 0;
    let is_told = has_metadata(numbers.marks) || numbers.metadata == 0;
    numbers.marks < 8 && is_named && is_told
}

/// Returns the structure of numbers, metadata, format and name.
fn structure_of<'a>(
    numbers: &Numbers,
    metadata: &'a [u8],
    format: &'a str,
    name: &'a str,
) -> Record<'a>
    ensures { structure result ≡ structure_of numbers.now metadata.now format.now name.now }
{
    Record {
        children: numbers.children,
        has_dictionary: has_dictionary(numbers.marks),
        flags: numbers.flags,
        level: numbers.level,
        metadata: if has_metadata(numbers.marks) {
            Some(metadata)
        } else {
            None
        },
        format,
        name: if has_name(numbers.marks) {
            Some(name)
        } else {
            None
        },
    }
}

/// Returns what a record holds behind its size.
#[tactic(auto, unfolding(crate::specs::Record::parts_at))]
fn parts_at(bytes: &[u8]) -> Result<Record<'_>, Rule>
    ensures { Returns structure result (parts_at bytes.now) }
{
    let (numbers, rest) = numbers_at(bytes)?;
    if !are_marked(&numbers) {
        return Err(Rule::Marks);
    }
    let (metadata, rest) = bytes_at(rest, numbers.metadata)?;
    let (format, rest) = text_at(rest, numbers.format)?;
    let (name, _padding) = text_at(rest, numbers.name)?;
    Ok(structure_of(&numbers, metadata, format, name))
}

/// Returns the size of the record at the front of the bytes.
#[tactic(auto, unfolding(crate::specs::Record::size_at))]
fn size_at(bytes: &[u8]) -> Result<usize, Rule>
    ensures { Returns (λ n. n) result (size_at bytes.now) }
{
    let (size, _) = number_at(bytes)?;
    let size = size as usize;
    if size % 8 == 0 && 32 <= size && size <= bytes.len() {
        return Ok(size);
    }
    Err(Rule::Size)
}

/// Returns the structure of the record at the front of the bytes, and the bytes behind it.
///
/// Errs with the first rule that is broken, and where the record begins. Allocates nothing.
#[tactic(auto, unfolding(crate::specs::Record::record_at, crate::specs::Record::size_at))]
pub fn record_at(bytes: &[u8]) -> Result<(Record<'_>, &[u8]), Fault>
    ensures { Returns (λ x. (structure x.0, x.1.now)) result (record_at bytes.now) }
{
    let size = match size_at(bytes) {
        Ok(size) => size,
        Err(rule) => return Err(broken(rule, bytes)),
    };
    let (inside, behind) = bytes.split_at(size);
    match parts_at(&inside[4..]) {
        Ok(one) => Ok((one, behind)),
        Err(rule) => Err(broken(rule, bytes)),
    }
}
