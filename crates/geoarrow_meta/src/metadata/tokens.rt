//! The values of the three keys of the JSON object that a text is. The last value of a key counts.
ghost use Rattle.std.specs.Prelude.{◌≡◌, ◌<◌, length, false, Some, None, Err, IfOk, IfSome, OnOk, option_map};
ghost use Rattle.serde_json.specs.Data.{Data};
ghost use Rattle.serde_json.specs.Read.{read};
ghost use Rattle.serde_json.specs.View.{view};
ghost use Rattle.value_tokens.specs.Next.{next_value};
ghost use Rattle.geoarrow_meta.specs.Read.{present, some_has_float};
ghost use Rattle.geoarrow_meta.specs.KeyValues.{IsWord, Finds};

use crate::metadata::key_values::{KeyValues, crs_type_of, edges_of, no_values, unless_null};
use crate::metadata::plain::plain_values;
use crate::metadata::plain_values::Unread;
use json::{Reader, Scratch, Token};
use serde_json::Value;
use std::alloc::Global;
use value_tokens::{MAX_DEPTH, Refusal, open_object, read_value, skip_rest, skip_value};

/// The values of the three keys of a metadata text's JSON object (GeoArrow, "Extension metadata"), whatever numbers its CRS holds;
/// `None` where the text is JSON but no object. Errs with `Refusal::Text` exactly where the text is not JSON, as `serde_json` reads
/// it; otherwise only when out of memory.
///
/// ```rust
/// let found = read_values(alloc, r#"{"crs":{"epoch":2010.5}}"#);
/// let Ok(Some(values)) = found else { return Ok(()); };
/// let Some(crs) = values.crs else { return Ok(()); };
/// assert!(rt; !holds_whole_numbers(&crs));
/// assert_eq!(rt; values.edges, Some(None));
/// ```
pub fn read_values(alloc: Global, text: &str) -> Result<Option<KeyValues<Value>>, Refusal>
    ensures ok { IfOk result (λ o. (d : Data) × (read text.now ≡ Some d) × Finds o d) }
    ensures text { result ≡ Err Refusal.Text → read text.now ≡ None }
{
    read_noting(alloc, text, &mut false)
}

// Those values. Leaves `float_read` false only where the CRS holds no float.
#[inline(always)]
pub(crate) fn read_noting(
    alloc: Global,
    text: &str,
    float_read: &mut bool,
) -> Result<Option<KeyValues<Value>>, Refusal>
    ensures ok { IfOk result (λ o. (d : Data) × (read text.now ≡ Some d) × Finds o d) }
    ensures whole { IfOk result (λ o. IfSome o (λ s. float_read.new ≡ false → some_has_float (option_map view s.crs) ≡ false)) }
    ensures text { result ≡ Err Refusal.Text → read text.now ≡ None }
{
    match plain_values(alloc, text, float_read) {
        Ok(values) => Ok(Some(values)),
        Err(Unread::Memory) => Err(Refusal::Memory),
        Err(Unread::NotPlain) => {
            *float_read = true;
            read_tokens(alloc, text)
        }
    }
}

// Those values by the tokens of the text. It is not inlined, so that only a call that needs the scratch has room for it on
// its stack.
#[inline(never)]
fn read_tokens(alloc: Global, text: &str) -> Result<Option<KeyValues<Value>>, Refusal>
    ensures ok { IfOk result (λ o. (d : Data) × (read text.now ≡ Some d) × Finds o d) }
    ensures text { result ≡ Err Refusal.Text → read text.now ≡ None }
{
    let mut scratch = Scratch::new(alloc);
    let mut reader = Reader::new(text, &mut scratch)?;
    let found = take_values(alloc, &mut reader, MAX_DEPTH)?;
    if reader.next().is_some() {
        return Err(Refusal::Text);
    }
    Ok(found)
}

#[tactic(auto, using(crate::proofs::KeyedValues::none_yet, crate::proofs::KeyedValues::crs_taken, crate::proofs::KeyedValues::passed, value_tokens::proofs::Turns::after_some, value_tokens::proofs::Turns::key_refused, value_tokens::proofs::Turns::member_refused, value_tokens::proofs::Turns::members_over))]
fn take_values(
    alloc: Global,
    reader: &mut Reader<'_>,
    depth: usize,
) -> Result<Option<KeyValues<Value>>, Refusal>
    ensures ok { IfOk result (λ o. (d : Data) × (next_value depth reader.old ≡ Some (d, reader.new)) × Finds o d) }
    ensures text { result ≡ Err Refusal.Text → next_value depth reader.old ≡ None }
{
    let Some(below) = open_object(reader, depth)? else {
        return Ok(None);
    };
    let mut found = no_values();
    'values: while let Some(key) = reader.next_key()? {
        match key {
            "crs" => found.crs = unless_null(read_value(alloc, reader, below)?),
            "crs_type" => found.crs_type = crs_type_of(take_word(reader, below)?),
            "edges" => found.edges = edges_of(take_word(reader, below)?),
            _ => skip_value(reader, below)?,
        }
    }
    Ok(Some(found))
}

// The text that comes next, null as absent; none where another value comes. Allocates nothing.
#[tactic(auto, using(value_tokens::proofs::Turns::no_value))]
fn take_word<'a>(reader: &mut Reader<'a>, depth: usize) -> Result<Option<Option<&'a str>>, Refusal>
    ensures ok { IfOk result (λ w. (d : Data) × (next_value depth reader.old ≡ Some (d, reader.new)) × IsWord w (present (Some d))) }
    ensures shorter { OnOk result (length reader.new < length reader.old) }
    ensures text { result ≡ Err Refusal.Text → next_value depth reader.old ≡ None }
{
    let token = reader.next().ok_or(Refusal::Text)?;
    match token {
        Token::String(text) => Ok(Some(Some(text))),
        Token::Null => Ok(Some(None)),
        other => {
            skip_rest(other, reader, depth)?;
            Ok(None)
        }
    }
}
