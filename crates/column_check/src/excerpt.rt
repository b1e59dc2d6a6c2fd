//! What stands at a place, as a finding shows it.
ghost use Rattle.std.specs.Prelude.{◌≡◌, IfOk, length, map, string_bytes, take};
ghost use Rattle.std.specs.Str.{chars, encode_utf8_all};
ghost use Rattle.json.specs.Value.{value_view};
ghost use Rattle.arrow_columns.specs.Below.{ref_tree};
ghost use Rattle.value_tokens.specs.Values.{IsReadable};
ghost use Rattle.column_check.specs.Shown.{names_shown, shown, shown_value, type_shown};

use arrow_columns::TypeRef;
use json::Value;
use std::alloc::{AllocError, Global};
use value_tokens::JsonText;

/// How many characters of a text are shown.
const SHOWN: usize = 120;

/// Returns a text as a finding shows it: at most 120 characters, and `..` behind them where there
/// are more. Errs only when out of memory.
pub fn shown(alloc: Global, text: &str) -> Result<String, AllocError>
    ensures { IfOk result (λ made. string_bytes made ≡ shown text.now) }
{
    if size(text) <= SHOWN {
        return String::from_str(alloc, text);
    }
    let mut first = first_of(alloc, text)?;
    first.push_str("..")?;
    Ok(first)
}

/// How many characters a text has.
#[tactic(auto, using(std::proofs::lemmas::Str::chars_from_encodes))]
fn size(text: &str) -> usize
    ensures { result ≡ length (chars text.now) }
{
    text.chars().count()
}

/// The characters of a text that are shown.
fn first_of(alloc: Global, text: &str) -> Result<String, AllocError>
    ensures { IfOk result (λ first. string_bytes first ≡ encode_utf8_all (take 120 (chars text.now))) }
{
    text.chars().take(SHOWN).collect(alloc)
}

/// Returns a type as a finding shows it: its notation, shown as a text. Errs only when out of memory.
pub(crate) fn type_shown(alloc: Global, column_type: TypeRef<'_>) -> Result<String, AllocError>
    ensures { IfOk result (λ made. string_bytes made ≡ type_shown (ref_tree column_type.entry)) }
{
    let text = column_type.notation(alloc)?;
    shown(alloc, text.as_str())
}

/// Returns names as a finding shows them: with commas between them, shown as a text. Errs only when
/// out of memory.
pub(crate) fn names_shown(alloc: Global, names: &[&str]) -> Result<String, AllocError>
    ensures { IfOk result (λ made. string_bytes made ≡ names_shown (map (λ name. name.now) names.now)) }
{
    let text = names.join(alloc, ", ")?;
    shown(alloc, text.as_str())
}

/// Returns a value as a finding shows it: its text without blanks, shown as a text. Errs only when
/// out of memory.
pub fn shown_value(alloc: Global, value: &Value<'_>) -> Result<String, AllocError>
    requires { IsReadable (value_view value.now) }
    ensures { IfOk result (λ made. string_bytes made ≡ shown_value (value_view value.now)) }
{
    let text = JsonText::of(alloc, value)?;
    shown(alloc, text.as_str())
}
