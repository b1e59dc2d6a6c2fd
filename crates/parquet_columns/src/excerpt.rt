//! Texts as findings show them.
ghost use Rattle.std.specs.Prelude.{◌≡◌, IfOk, length, string_bytes, take};
ghost use Rattle.std.specs.Str.{chars, encode_utf8_all};
ghost use Rattle.parquet_columns.specs.Shown.{shown};

use std::alloc::{AllocError, Global};

/// How many characters of a text are shown.
const SHOWN: usize = 120;

/// Returns a text as a finding shows it: at most 120 characters, and `..` behind them where there
/// are more. Errs only when out of memory.
///
/// ```rust
/// let text = shown(alloc, String::from_str(alloc, "int32")?)?;
/// assert_eq!(rt; text.as_str(), "int32");
/// ```
pub fn shown(alloc: Global, text: String) -> Result<String, AllocError>
    ensures { IfOk result (λ made. string_bytes made ≡ shown (string_bytes text)) }
{
    if size(text.as_str()) <= SHOWN {
        return Ok(text);
    }
    let mut first = first_of(alloc, text.as_str())?;
    first.push_str("..")?;
    Ok(first)
}

/// How many characters a text has.
#[tactic(auto, using(std::proofs::lemmas::Str::chars_from_encodes))]
fn size(text: &str) -> usize
    ensures { result ≡ length (chars text.now) }
{
    text.chars().count()
}

/// The characters of a text that are shown.
fn first_of(alloc: Global, text: &str) -> Result<String, AllocError>
    ensures { IfOk result (λ first. string_bytes first ≡ encode_utf8_all (take 120 (chars text.now))) }
{
    text.chars().take(SHOWN).collect(alloc)
}
