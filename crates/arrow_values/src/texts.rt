//! The map of a field's texts: look-ups, and changes of its extension texts.
ghost use Rattle.std.specs.Prelude.{◌≡◌, ◌↔◌, Some, IsTrue, IfOk, OnOk, string_bytes};
ghost use Rattle.std.specs.Option.{option_map};
ghost use Rattle.std.specs.String.{string_cmp};
ghost use Rattle.std.specs.BTreeMap.{IsOrdered};
ghost use Rattle.arrow_values.specs.View.{texts_of};
ghost use Rattle.arrow_values.specs.Texts.{name_key, metadata_key, text_at, text_of, put_text, set_extension};

use crate::tree::{EXTENSION_TYPE_METADATA_KEY, EXTENSION_TYPE_NAME_KEY};
use std::alloc::{AllocError, Global};
use std::collections::BTreeMap;

/// The text at a key of a field's metadata, if there is one. Allocates nothing.
#[inline(always)]
pub fn text_at<'a>(texts: &'a BTreeMap<String, String>, key: &str) -> Option<&'a str>
    ensures text { text_of result ≡ text_at key.now (texts_of texts.now.entries) }
    ensures ordered { IsOrdered string_cmp texts.now }
{
    if texts.len() == 0 {
        return None;
    }
    text_found(texts, key)
}

/// The text at a key, of a map that has some.
#[inline(never)]
fn text_found<'a>(texts: &'a BTreeMap<String, String>, key: &str) -> Option<&'a str>
    ensures { text_of result ≡ text_at key.now (texts_of texts.now.entries) }
{
    match texts.get(key) {
        Some(text) => Some(text.as_str()),
        None => None,
    }
}

/// Whether `name` is at the name key, and at the metadata key `text`, or nothing, so that `set_extension` changes nothing.
pub(crate) fn has_extension(
    texts: &BTreeMap<String, String>,
    name: &str,
    text: &Option<String>,
) -> bool
    ensures there { IsTrue result ↔ ((text_at name_key (texts_of texts.now.entries) ≡ Some name.now)
        × (text_at metadata_key (texts_of texts.now.entries) ≡ option_map string_bytes text.now)) }
    ensures stays { IsTrue result → set_extension name.now (option_map string_bytes text.now) (texts_of texts.now.entries)
        ≡ texts_of texts.now.entries }
{
    match text_at(texts, EXTENSION_TYPE_NAME_KEY) {
        Some(found) if *found == *name => {
            is_same(text_at(texts, EXTENSION_TYPE_METADATA_KEY), text)
        }
        _ => false,
    }
}

/// Whether both are the same text, or none.
fn is_same(found: Option<&str>, wanted: &Option<String>) -> bool
    ensures { IsTrue result ↔ (text_of found.entry ≡ option_map string_bytes wanted.now) }
{
    match (found, wanted) {
        (None, None) => true,
        (Some(found), Some(wanted)) => *found == *wanted.as_str(),
        _ => false,
    }
}

/// A map of the same texts.
pub(crate) fn clone_texts(
    texts: &BTreeMap<String, String>,
) -> Result<BTreeMap<String, String>, AllocError>
    ensures { IfOk result (λ made. texts_of made.entries ≡ texts_of texts.now.entries) }
{
    texts.clone()
}

/// Puts a text at a key.
#[tactic(auto, using(crate::proofs::TextLaws::texts_of_insert))]
fn put_text(
    alloc: Global,
    texts: &mut BTreeMap<String, String>,
    key: &str,
    text: String,
) -> Result<(), AllocError>
    ensures texts { OnOk result (texts_of texts.new.entries
        ≡ put_text key.now (string_bytes text) (texts_of texts.old.entries)) }
    ensures ordered { OnOk result (IsOrdered string_cmp texts.new) }
{
    let key = String::from_str(alloc, key)?;
    texts.insert(key, text)?;
    Ok(())
}

/// Puts `name` at the name key, and at the metadata key `text`, or nothing. When out of memory some of it may be put.
pub(crate) fn set_extension(
    alloc: Global,
    texts: &mut BTreeMap<String, String>,
    name: &str,
    text: Option<String>,
) -> Result<(), AllocError>
    ensures { OnOk result (texts_of texts.new.entries
        ≡ set_extension name.now (option_map string_bytes text) (texts_of texts.old.entries)) }
{
    let bare = texts.is_empty();
    let name = String::from_str(alloc, name)?;
    put_text(alloc, texts, EXTENSION_TYPE_NAME_KEY, name)?;
    if let Some(text) = text {
        return put_text(alloc, texts, EXTENSION_TYPE_METADATA_KEY, text);
    }
    if bare {
        return Ok(());
    }
    texts.remove(EXTENSION_TYPE_METADATA_KEY);
    Ok(())
}
