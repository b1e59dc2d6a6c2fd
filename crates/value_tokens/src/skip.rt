//! Passing over a value, which is judged as if it were read. No call allocates.
ghost use Rattle.std.specs.Prelude.{◌≡◌, ◌<◌, ◌≤◌, ◌∷◌, length, Some, None, Err, OnOk};
ghost use Rattle.json.specs.Reads.{token_of};
ghost use Rattle.serde_json.specs.Data.{Members};
ghost use Rattle.value_tokens.specs.Next.{next_value, next_items, next_members, after};

use crate::numbers::number_in_place;
use crate::refusal::Refusal;
use json::{Reader, Token};

/// Passes over a value.
#[tactic(auto, using(crate::proofs::Turns::no_value))]
#[cold]
#[inline(never)]
pub fn skip_value(reader: &mut Reader<'_>, depth: usize) -> Result<(), Refusal>
    ensures ok { OnOk result (after (next_value depth reader.old) ≡ Some reader.new) }
    ensures shorter { OnOk result (length reader.new < length reader.old) }
    ensures text { result ≡ Err Refusal.Text → next_value depth reader.old ≡ None }
    ensures never_memory { result ≡ Err Refusal.Memory → ⊥ }
{
    let token = reader.next().ok_or(Refusal::Text)?;
    skip_rest(token, reader, depth)
}

/// Passes over what is left of a value whose first token was taken.
#[cycle(skip)]
#[tactic(auto, using(crate::proofs::Firsts::first_tokens, crate::proofs::Loops::skipping))]
#[cold]
#[inline(never)]
pub fn skip_rest(token: Token<'_>, reader: &mut Reader<'_>, depth: usize) -> Result<(), Refusal>
    ensures ok { OnOk result (after (next_value depth (token_of token.entry ∷ reader.old)) ≡ Some reader.new) }
    ensures shorter { OnOk result (length reader.new ≤ length reader.old) }
    ensures text { result ≡ Err Refusal.Text → next_value depth (token_of token.entry ∷ reader.old) ≡ None }
    ensures never_memory { result ≡ Err Refusal.Memory → ⊥ }
{
    match token {
        Token::String(_) | Token::Bool(_) | Token::Null => Ok(()),
        Token::Number(text) if number_in_place(text).is_some() => Ok(()),
        Token::BeginArray | Token::BeginObject if depth == 0 => Err(Refusal::Text),
        Token::BeginArray => skip_items(reader, depth - 1),
        Token::BeginObject => skip_members(reader, depth - 1),
        _ => Err(Refusal::Text),
    }
}

/// Passes over the items that are left of an array.
#[cycle(skip)]
#[tactic(auto, using(crate::proofs::Loops::skipping))]
#[cold]
#[inline(never)]
pub fn skip_items(reader: &mut Reader<'_>, depth: usize) -> Result<(), Refusal>
    ensures ok { OnOk result (after (next_items depth reader.old) ≡ Some reader.new) }
    ensures shorter { OnOk result (length reader.new < length reader.old) }
    ensures text { result ≡ Err Refusal.Text → next_items depth reader.old ≡ None }
    ensures never_memory { result ≡ Err Refusal.Memory → ⊥ }
{
    'items: while !reader.take_end_array() {
        let token = reader.next().ok_or(Refusal::Text)?;
        skip_rest(token, reader, depth)?;
    }
    Ok(())
}

/// Passes over the members that are left of an object.
#[cycle(skip)]
#[tactic(auto, using(crate::proofs::Loops::skipping))]
#[cold]
#[inline(never)]
pub fn skip_members(reader: &mut Reader<'_>, depth: usize) -> Result<(), Refusal>
    ensures ok { OnOk result ((found : Members) → after (next_members depth found reader.old) ≡ Some reader.new) }
    ensures shorter { OnOk result (length reader.new < length reader.old) }
    ensures text { result ≡ Err Refusal.Text → (found : Members) → next_members depth found reader.old ≡ None }
    ensures never_memory { result ≡ Err Refusal.Memory → ⊥ }
{
    'members: while let Some(_) = reader.next_key()? {
        let token = reader.next().ok_or(Refusal::Text)?;
        skip_rest(token, reader, depth)?;
    }
    Ok(())
}
