//! Texts, truth values and numbers. Each call takes one value whole, and returns `None` where it is of another kind.
ghost use Rattle.std.specs.Prelude.{◌≡◌, ◌<◌, length, None, Err, IfOk, OnOk, option_map, string_bytes};
ghost use Rattle.serde_json.specs.Find.{as_str, as_bool, as_number};
ghost use Rattle.serde_json.specs.View.{number_view};
ghost use Rattle.value_tokens.specs.Next.{next_value, ReadsValue};

use crate::numbers::number_of;
use crate::refusal::Refusal;
use crate::skip::skip_rest;
use json::{Reader, Token};
use serde_json::Number;
use std::alloc::Global;

/// Takes a value, and returns the text that it is, as the reader lends it. Allocates nothing.
#[tactic(auto, using(crate::proofs::Turns::no_value))]
#[inline(always)]
pub fn read_str<'a>(reader: &mut Reader<'a>, depth: usize) -> Result<Option<&'a str>, Refusal>
    ensures ok { IfOk result (λ o. ReadsValue as_str depth reader.old (option_map (λ s. s.now) o) reader.new) }
    ensures shorter { OnOk result (length reader.new < length reader.old) }
    ensures text { result ≡ Err Refusal.Text → next_value depth reader.old ≡ None }
    ensures never_memory { result ≡ Err Refusal.Memory → ⊥ }
{
    let token = reader.next().ok_or(Refusal::Text)?;
    match token {
        Token::String(text) => Ok(Some(text)),
        other => {
            skip_rest(other, reader, depth)?;
            Ok(None)
        }
    }
}

/// Takes a value, and returns the text that it is, in memory of its own.
#[inline]
pub fn read_text(
    alloc: Global,
    reader: &mut Reader<'_>,
    depth: usize,
) -> Result<Option<String>, Refusal>
    ensures ok { IfOk result (λ o. ReadsValue as_str depth reader.old (option_map string_bytes o) reader.new) }
    ensures shorter { OnOk result (length reader.new < length reader.old) }
    ensures text { result ≡ Err Refusal.Text → next_value depth reader.old ≡ None }
{
    match read_str(reader, depth)? {
        Some(text) => Ok(Some(String::from_str(alloc, text)?)),
        None => Ok(None),
    }
}

/// Takes a value, and returns the truth value that it is. Allocates nothing.
#[tactic(auto, using(crate::proofs::Turns::no_value))]
#[inline(always)]
pub fn read_bool(reader: &mut Reader<'_>, depth: usize) -> Result<Option<bool>, Refusal>
    ensures ok { IfOk result (λ o. ReadsValue as_bool depth reader.old o reader.new) }
    ensures shorter { OnOk result (length reader.new < length reader.old) }
    ensures text { result ≡ Err Refusal.Text → next_value depth reader.old ≡ None }
    ensures never_memory { result ≡ Err Refusal.Memory → ⊥ }
{
    let token = reader.next().ok_or(Refusal::Text)?;
    match token {
        Token::Bool(truth) => Ok(Some(truth)),
        other => {
            skip_rest(other, reader, depth)?;
            Ok(None)
        }
    }
}

/// Takes a value, and returns the number that it is. Allocates nothing.
#[tactic(auto, using(crate::proofs::Turns::no_value, crate::proofs::Beginnings::next_number))]
#[inline(always)]
pub fn read_number(reader: &mut Reader<'_>, depth: usize) -> Result<Option<Number>, Refusal>
    ensures ok { IfOk result (λ o. ReadsValue as_number depth reader.old (option_map number_view o) reader.new) }
    ensures shorter { OnOk result (length reader.new < length reader.old) }
    ensures text { result ≡ Err Refusal.Text → next_value depth reader.old ≡ None }
    ensures never_memory { result ≡ Err Refusal.Memory → ⊥ }
{
    let token = reader.next().ok_or(Refusal::Text)?;
    match token {
        Token::Number(text) => match number_of(text) {
            Some(number) => Ok(Some(number)),
            None => Err(Refusal::Text),
        },
        other => {
            skip_rest(other, reader, depth)?;
            Ok(None)
        }
    }
}
