//! Metadata of structures.
ghost use Rattle.std.specs.Prelude.{◌≡◌, []};
ghost use Rattle.arrow_values.specs.View.{texts_of};
ghost use Rattle.record_wire.specs.Record.{structure};
ghost use Rattle.record_columns.specs.Errors.{Makes};
ghost use Rattle.record_columns.specs.Texts.{put_entry, put_entries, texts_at, texts_in};

use crate::error::Refusal;
use record_wire::{Record, number_at, utf8_at};
use std::alloc::Global;
use std::collections::BTreeMap;

type Texts = BTreeMap<String, String>;

/// Puts an entry to those before it, and returns the bytes behind it.
#[tactic(auto, using(crate::proofs::Entries::inserted), unfolding(crate::specs::Texts::put_entry))]
fn put_entry(alloc: Global, texts: Texts, bytes: &[u8]) -> Result<(Texts, &[u8]), Refusal>
    ensures { Makes (λ x. (texts_of x.0.entries, x.1.now)) result
        (put_entry (texts_of texts.entries) bytes.now) }
{
    let mut texts = texts;
    let (key, rest) = utf8_at(bytes)?;
    let (text, rest) = utf8_at(rest)?;
    let key = String::from_str(alloc, key)?;
    texts.insert(key, String::from_str(alloc, text)?)?;
    Ok((texts, rest))
}

/// Reads so many entries.
#[tactic(auto, using(crate::proofs::Entries::entry_steps))]
fn put_entries(alloc: Global, count: u32, bytes: &[u8]) -> Result<Texts, Refusal>
    ensures { Makes (λ m. texts_of m.entries) result (put_entries count [] bytes.now) }
{
    let mut texts = BTreeMap::new(alloc);
    let mut rest = bytes;
    'entries: for _i in 0..count {
        let (more, behind) = put_entry(alloc, texts, rest)?;
        texts = more;
        rest = behind;
    }
    Ok(texts)
}

/// Reads metadata.
#[tactic(auto, unfolding(crate::specs::Texts::texts_at))]
fn texts_at(alloc: Global, bytes: &[u8]) -> Result<Texts, Refusal>
    ensures { Makes (λ m. texts_of m.entries) result (texts_at bytes.now) }
{
    let (count, rest) = number_at(bytes)?;
    put_entries(alloc, count, rest)
}

/// Reads the metadata of a structure, which may have none.
pub(crate) fn texts_in(alloc: Global, one: &Record<'_>) -> Result<Texts, Refusal>
    ensures { Makes (λ m. texts_of m.entries) result (texts_in (structure one.now).metadata) }
{
    match one.metadata {
        Some(bytes) => texts_at(alloc, bytes),
        None => Ok(BTreeMap::new(alloc)),
    }
}
