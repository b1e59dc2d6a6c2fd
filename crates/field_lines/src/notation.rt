//! The notation of another type, from tokens: the text at the single key `other` of an object.
ghost use Rattle.std.specs.Prelude.{◌≡◌, bytes_eq, codes, not, Some, None, Err, IfOk, OnOk};
ghost use Rattle.std.specs.Option.{option_map};
ghost use Rattle.serde_json.specs.Data.{Members, no_members, object};
ghost use Rattle.arrow_values.specs.Tree.{Text};
ghost use Rattle.field_lines.specs.ColumnOfValue.{other_of_value};
ghost use Rattle.value_tokens.specs.Next.{next_after, after, ReadsAfter};

use crate::tokens::Taken;
use json::Reader;
use value_tokens::{Refusal, read_str, skip_members, skip_value};

/// The notation in an object whose first key is `other`, which is taken.
#[cold]
#[inline(never)]
#[tactic(auto, using(crate::proofs::TokenMembers::member_turn))]
pub(crate) fn take_notation<'a>(reader: &mut Reader<'a>, depth: usize) -> Taken<&'a str>
    ensures ok { IfOk result (λ o. ReadsAfter (λ ms. other_of_value (object ms)) depth no_members (codes "other") reader.old (option_map (λ n. n.now) o) reader.new) }
    ensures text { result ≡ Err Refusal.Text → next_after depth no_members (codes "other") reader.old ≡ None }
{
    let mut notation = read_str(reader, depth)?;
    'only: while let Some(key) = reader.next_key()? {
        if differ(key, "other") {
            skip_after(reader, depth)?;
            return Ok(None);
        }
        notation = read_str(reader, depth)?;
    }
    Ok(notation)
}

/// Passes over the value that is next and the members after it.
#[cold]
#[inline(never)]
pub(crate) fn skip_after(reader: &mut Reader<'_>, depth: usize) -> Result<(), Refusal>
    ensures ok { OnOk result ((found : Members) (key : Text) → after (next_after depth found key reader.old) ≡ Some reader.new) }
    ensures text { result ≡ Err Refusal.Text → (found : Members) (key : Text) → next_after depth found key reader.old ≡ None }
{
    skip_value(reader, depth)?;
    Ok(skip_members(reader, depth)?)
}

/// Whether these keys differ. It is not inlined, since few objects have a second key.
#[cold]
#[inline(never)]
pub(crate) fn differ(a: &str, b: &str) -> bool
    ensures { result ≡ not (bytes_eq a.now b.now) }
{
    a != b
}
