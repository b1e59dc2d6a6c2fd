//! Texts as they are shown to people: on one line, so that they change nothing of a terminal.
ghost use Rattle.std.specs.Prelude.{◌≡◌, ◌++◌, IfOk, OnOk, string_bytes};
ghost use Rattle.std.specs.Str.{chars, encode_utf8_all};
ghost use Rattle.std.specs.Char.Escape.{escape_unicode};
ghost use Rattle.file_check.specs.Shown.{blanked, blanked_as, is_within, is_hidden, shown_as, shown};

use std::alloc::{AllocError, Global};

/// Whether a character is one of those from the first to the last.
fn is_within(first: char, last: char, character: char) -> bool
    ensures { result ≡ is_within first last character }
{
    first <= character && character <= last
}

/// Whether a character is shown by its number: a control character, or one that is not seen, or
/// turns the direction of what stands behind it.
fn is_hidden(character: char) -> bool
    ensures { result ≡ is_hidden character }
{
    character.is_control()
        || is_within('\u{200b}', '\u{200f}', character)
        || is_within('\u{202a}', '\u{202e}', character)
        || is_within('\u{2066}', '\u{2069}', character)
        || character == '\u{feff}'
}

/// Adds a character as it is shown.
pub(crate) fn push_shown(text: &mut String, character: char) -> Result<(), AllocError>
    ensures { OnOk result (string_bytes text.new ≡ string_bytes text.old ++ encode_utf8_all (shown_as character)) }
{
    if is_hidden(character) {
        push_number(text, character)
    } else {
        text.push(character)
    }
}

/// Adds the number of a character.
fn push_number(text: &mut String, character: char) -> Result<(), AllocError>
    ensures { OnOk result (string_bytes text.new ≡ string_bytes text.old ++ encode_utf8_all (escape_unicode character)) }
{
    for part in character.escape_unicode() {
        text.push(part)?;
    }
    Ok(())
}

/// Adds a character as it is shown, or a blank in place of a control character.
fn push_blanked(text: &mut String, character: char) -> Result<(), AllocError>
    ensures { OnOk result (string_bytes text.new ≡ string_bytes text.old ++ encode_utf8_all (blanked_as character)) }
{
    if character.is_control() {
        text.push(' ')
    } else {
        push_shown(text, character)
    }
}

/// Returns a text with the number of each control character in its place, and of each that is not
/// seen or turns the direction of a text, as `\u{1b}` (`docs/FORMAT.md`, 2.7). Errs only when out of
/// memory.
///
/// ```rust
/// assert_eq!(rt; shown(alloc, "flag\u{1b}[1m\u{202e}")?.as_str(), "flag\\u{1b}[1m\\u{202e}");
/// ```
pub fn shown(alloc: Global, text: &str) -> Result<String, AllocError>
    ensures { IfOk result (λ s. string_bytes s ≡ shown text.now) }
{
    let characters = characters_of(alloc, text)?;
    let mut shown = String::with_capacity(alloc, text.len())?;
    for character in characters {
        push_shown(&mut shown, character)?;
    }
    Ok(shown)
}

/// A text as it is shown, but with a blank in place of each control character.
pub(crate) fn blanked(alloc: Global, text: &str) -> Result<String, AllocError>
    ensures { IfOk result (λ s. string_bytes s ≡ blanked text.now) }
{
    let characters = characters_of(alloc, text)?;
    let mut shown = String::with_capacity(alloc, text.len())?;
    for character in characters {
        push_blanked(&mut shown, character)?;
    }
    Ok(shown)
}

/// The characters of a text.
pub(crate) fn characters_of(alloc: Global, text: &str) -> Result<Vec<char>, AllocError>
    ensures { IfOk result (λ cs. cs.items ≡ chars text.now) }
{
    let mut characters = Vec::with_capacity(alloc, text.len())?;
    characters.extend(text.chars())?;
    Ok(characters)
}
