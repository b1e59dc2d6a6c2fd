//! Objects and arrays, as they open. No call allocates.
ghost use Rattle.std.specs.Prelude.{◌≡◌, ◌<◌, length, Some, None, Err, IfOk, OnOk};
ghost use Rattle.serde_json.specs.Find.{as_object, as_array};
ghost use Rattle.value_tokens.specs.Next.{next_value, OpensObject, OpensArray};

use crate::refusal::Refusal;
use crate::skip::skip_rest;
use json::{Reader, Token};

/// Takes the brace that opens an object, where one comes next, and returns how deep its members may nest. Passes over
/// any other value whole, and returns `None`.
#[tactic(auto, using(crate::proofs::Firsts::first_nested))]
#[inline(always)]
pub fn open_object(reader: &mut Reader<'_>, depth: usize) -> Result<Option<usize>, Refusal>
    ensures ok { IfOk result (λ o. OpensObject depth reader.old o reader.new) }
    ensures shorter { OnOk result (length reader.new < length reader.old) }
    ensures text { result ≡ Err Refusal.Text → next_value depth reader.old ≡ None }
    ensures never_memory { result ≡ Err Refusal.Memory → ⊥ }
{
    let token = reader.next().ok_or(Refusal::Text)?;
    match token {
        Token::BeginObject if depth == 0 => Err(Refusal::Text),
        Token::BeginObject => Ok(Some(depth - 1)),
        other => {
            skip_rest(other, reader, depth)?;
            Ok(None)
        }
    }
}

/// Takes the bracket that opens an array, where one comes next, and returns how deep its items may nest. Passes over any
/// other value whole, and returns `None`.
#[tactic(auto, using(crate::proofs::Firsts::first_nested))]
#[inline(always)]
pub fn open_array(reader: &mut Reader<'_>, depth: usize) -> Result<Option<usize>, Refusal>
    ensures ok { IfOk result (λ o. OpensArray depth reader.old o reader.new) }
    ensures shorter { OnOk result (length reader.new < length reader.old) }
    ensures text { result ≡ Err Refusal.Text → next_value depth reader.old ≡ None }
    ensures never_memory { result ≡ Err Refusal.Memory → ⊥ }
{
    let token = reader.next().ok_or(Refusal::Text)?;
    match token {
        Token::BeginArray if depth == 0 => Err(Refusal::Text),
        Token::BeginArray => Ok(Some(depth - 1)),
        other => {
            skip_rest(other, reader, depth)?;
            Ok(None)
        }
    }
}
