//! The metadata of a field, from tokens: an object of texts. The last value of a key counts.
ghost use Rattle.std.specs.Prelude.{◌≡◌, ◌<◌, length, Some, None, Err, IfOk, OnOk};
ghost use Rattle.std.specs.Option.{option_map};
ghost use Rattle.serde_json.specs.Data.{Members, no_members};
ghost use Rattle.arrow_values.specs.View.{texts_of};
ghost use Rattle.field_lines.specs.FieldOfValue.{texts_in, metadata_of_value};
ghost use Rattle.field_lines.specs.Steps.{slots_in, slots_of, texts_kept};
ghost use Rattle.field_lines.specs.Line.{texts_value};
ghost use Rattle.value_tokens.specs.Next.{next_value, next_members, ReadsValue, ReadsMembers};

use crate::tokens::Taken;
use json::Reader;
use std::alloc::{AllocError, Global};
use std::collections::BTreeMap;
use value_tokens::{Refusal, open_object, read_text};

/// Texts by their keys.
pub(crate) type Texts = BTreeMap<String, String>;

/// Slots by their keys: each holds a text, or none where the value is no text.
type Slots = BTreeMap<String, Option<String>>;

/// The object of texts that comes next, and none where a member is no text.
#[tactic(auto, using(crate::proofs::TokenMembers::member_turn))]
pub(crate) fn take_texts(alloc: Global, reader: &mut Reader<'_>, depth: usize) -> Taken<Texts>
    ensures ok { IfOk result (λ o. ReadsValue (λ d. metadata_of_value (Some d)) depth reader.old (option_map (λ m. texts_of m.entries) o) reader.new) }
    ensures shorter { OnOk result (length reader.new < length reader.old) }
    ensures text { result ≡ Err Refusal.Text → next_value depth reader.old ≡ None }
{
    let Some(below) = open_object(reader, depth)? else {
        return Ok(None);
    };
    let mut texts = BTreeMap::new(alloc);
    'texts: while let Some(name) = reader.next_key()? {
        let key = String::from_str(alloc, name)?;
        match read_text(alloc, reader, below)? {
            Some(text) => drop(texts.insert(key, text)?),
            None => {
                let mut slots = slots_of_texts(alloc, texts)?;
                drop(slots.insert(key, None)?);
                return take_slots(alloc, reader, below, slots);
            }
        }
    }
    Ok(Some(texts))
}

/// The texts of the members so far, whose slots are given, and of those that are left of an object, and none where a
/// member is no text. A later value of a key is put in its slot.
#[cold]
#[inline(never)]
#[tactic(auto, using(crate::proofs::TokenMembers::member_turn))]
fn take_slots(alloc: Global, reader: &mut Reader<'_>, depth: usize, slots: Slots) -> Taken<Texts>
    ensures ok { IfOk result (λ o. (found : Members) → slots_in found ≡ slots_of slots.entries
        → ReadsMembers texts_in depth found reader.old (option_map (λ m. texts_of m.entries) o) reader.new) }
    ensures shorter { OnOk result (length reader.new < length reader.old) }
    ensures text { result ≡ Err Refusal.Text → (found : Members) → slots_in found ≡ slots_of slots.entries
        → next_members depth found reader.old ≡ None }
{
    let mut slots = slots;
    'slots: while let Some(name) = reader.next_key()? {
        let key = String::from_str(alloc, name)?;
        let text = read_text(alloc, reader, depth)?;
        drop(slots.insert(key, text)?);
    }
    Ok(texts_of_slots(alloc, slots)?)
}

/// A slot for each text.
#[cold]
#[inline(never)]
fn slots_of_texts(alloc: Global, texts: Texts) -> Result<Slots, AllocError>
    ensures { IfOk result (λ m. slots_of m.entries ≡ slots_in (texts_value (texts_of texts.entries))) }
{
    let mut slots = BTreeMap::new(alloc);
    for (key, text) in texts {
        drop(slots.insert(key, Some(text))?);
    }
    Ok(slots)
}

/// The texts of the slots, where each holds one.
#[cold]
#[inline(never)]
fn texts_of_slots(alloc: Global, slots: Slots) -> Result<Option<Texts>, AllocError>
    ensures { IfOk result (λ o. option_map (λ m. texts_of m.entries) o ≡ texts_kept (slots_of slots.entries)) }
{
    let mut texts = BTreeMap::new(alloc);
    for (key, slot) in slots {
        let Some(text) = slot else {
            return Ok(None);
        };
        drop(texts.insert(key, text)?);
    }
    Ok(Some(texts))
}
