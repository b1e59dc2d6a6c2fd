//! Places in a JSON value, as pointers (RFC 6901).
ghost use Rattle.std.specs.Prelude.{◌≡◌, ◌++◌, IfOk, OnOk, flat_map, string_bytes};
ghost use Rattle.std.specs.Str.{chars};
ghost use Rattle.column_check.specs.Places.{escaped_char, escaped, member_place, item_place};

use std::alloc::{AllocError, Global};

/// Returns the place of the member with a key of what stands at a place (RFC 6901). Errs only when
/// out of memory.
pub fn member_place(alloc: Global, place: &str, key: &str) -> Result<String, AllocError>
    ensures { IfOk result (λ made. string_bytes made ≡ member_place place.now key.now) }
{
    let key = escaped(alloc, key)?;
    format!(in alloc; "{place}/{key}")
}

/// Returns the place of an item of what stands at a place (RFC 6901). Errs only when out of memory.
pub fn item_place(alloc: Global, place: &str, index: usize) -> Result<String, AllocError>
    ensures { IfOk result (λ made. string_bytes made ≡ item_place place.now index) }
{
    format!(in alloc; "{place}/{index}")
}

/// A key as it stands in a pointer: `~` is written `~0`, and `/` is written `~1`.
fn escaped(alloc: Global, key: &str) -> Result<String, AllocError>
    ensures { IfOk result (λ made. string_bytes made ≡ escaped key.now) }
{
    let characters = characters_of(alloc, key)?;
    escaped_text(alloc, characters.as_slice())
}

/// The characters of a text.
fn characters_of(alloc: Global, text: &str) -> Result<Vec<char>, AllocError>
    ensures { IfOk result (λ made. made.items ≡ chars text.now) }
{
    let mut characters = Vec::with_capacity(alloc, text.len())?;
    characters.extend(text.chars())?;
    Ok(characters)
}

/// The text of a key with those characters, as it stands in a pointer.
fn escaped_text(alloc: Global, characters: &[char]) -> Result<String, AllocError>
    ensures { IfOk result (λ made. string_bytes made ≡ flat_map escaped_char characters.now) }
{
    let mut text = String::with_capacity(alloc, characters.len())?;
    for character in characters {
        push_escaped(&mut text, *character)?;
    }
    Ok(text)
}

/// Adds a character of a key as it stands in a pointer.
fn push_escaped(text: &mut String, character: char) -> Result<(), AllocError>
    ensures { OnOk result (string_bytes text.new ≡ string_bytes text.old ++ escaped_char character) }
{
    if character == '~' {
        text.push_str("~0")
    } else if character == '/' {
        text.push_str("~1")
    } else {
        text.push(character)
    }
}
