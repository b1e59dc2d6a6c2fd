//! Metadata, as they stand in memory.
ghost use Rattle.std.specs.Prelude.{◌≡◌, ◌++◌, ◌^◌, ◌<◌, IfOk, IfErr, OnOk, Ok, length, option_map};
ghost use Rattle.std.specs.Prelude.{true};
ghost use Rattle.std.specs.Str.{is_utf8};
ghost use Rattle.arrow_values.specs.View.{texts_of};
ghost use Rattle.record_wire.specs.Write.{word, text_of};
ghost use Rattle.record_columns.specs.Texts.{texts_in};
ghost use Rattle.record_writer.specs.Texts.{text_bytes, metadata_bytes};
ghost use Rattle.record_writer.specs.Writes.{RefusesRoom};

use crate::error::Refusal;
use std::alloc::{AllocError, Global};
use std::collections::BTreeMap;

/// Puts a number of four bytes, the least first.
#[tactic(auto, unfolding(record_wire::specs::Write::word))]
fn put_word(bytes: &mut Vec<u8>, number: u32) -> Result<(), AllocError>
    ensures { OnOk result (bytes.new.items ≡ bytes.old.items ++ word number) }
{
    bytes.extend_from_slice(&number.to_le_bytes())
}

/// Puts a text behind its length.
#[tactic(auto, using(std::proofs::lemmas::List::append_assoc, crate::proofs::Entries::utf8_is))]
fn put_text(bytes: &mut Vec<u8>, text: &str) -> Result<(), Refusal>
    ensures is { OnOk result (bytes.new.items ≡ bytes.old.items ++ text_bytes text.now) }
    ensures small { OnOk result (length text.now < 2 ^ 32) }
    ensures valid { is_utf8 text.now ≡ true }
    ensures err { IfErr result (λ e. RefusesRoom e (length text.now)) }
{
    let count = u32::try_from(text.len()).or(Err(Refusal::TooLarge))?;
    put_word(bytes, count)?;
    bytes.extend_from_slice(text.as_bytes())?;
    Ok(())
}

/// Returns metadata as they stand in memory; `None` where there are none.
pub(crate) fn metadata_of(
    alloc: Global,
    texts: &BTreeMap<String, String>,
) -> Result<Option<Vec<u8>>, Refusal>
    ensures is { IfOk result (λ o. option_map (λ v. v.items) o
        ≡ metadata_bytes (texts_of texts.now.entries)) }
    ensures read { OnOk result (texts_in (metadata_bytes (texts_of texts.now.entries))
        ≡ Ok (texts_of texts.now.entries)) }
    ensures err { IfErr result (λ e.
        RefusesRoom e (length (text_of (metadata_bytes (texts_of texts.now.entries))))) }
{
    let many = texts.len();
    if many == 0 {
        return Ok(None);
    }
    let count = u32::try_from(many).or(Err(Refusal::TooLarge))?;
    let mut bytes = Vec::new(alloc);
    put_word(&mut bytes, count)?;
    'entries: for (key, text) in texts.iter() {
        put_text(&mut bytes, key.as_str())?;
        put_text(&mut bytes, text.as_str())?;
    }
    Ok(Some(bytes))
}
