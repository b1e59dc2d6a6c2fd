//! The cells of a table.
ghost use Rattle.std.specs.Prelude.{◌≡◌, ◌++◌, ◌≤◌, IfOk, OnOk, string_bytes};
ghost use Rattle.std.specs.Str.{chars, encode_utf8_all};
ghost use Rattle.file_check.specs.Table.{width, room_of, fitting, cut_to, cut};

use crate::text::characters_of;
use std::alloc::{AllocError, Global};
use unicode_width::{UnicodeWidthChar, UnicodeWidthStr};

/// How many columns of a terminal a cell has at most.
pub(crate) const CELL: usize = 40;

/// How many of them the two points take that stand at the end of a cell which is cut.
const POINTS: usize = 2;

/// How many columns of a terminal a text takes.
pub(crate) fn width(text: &str) -> usize
    ensures { result ≡ width text.now }
{
    text.width()
}

/// Returns a text as a cell, which has at most 40 columns of a terminal: of a wider one its first
/// characters are left, and `..` behind them (`docs/FORMAT.md`, 2.7). Errs only when out of memory.
///
/// ```rust
/// let type_words = "struct<x: float64 not null, y: float64 not null>";
/// let cell = file_check::cut(alloc, type_words)?;
/// assert_eq!(rt; cell.as_str(), "struct<x: float64 not null, y: float64..");
/// ```
pub fn cut(alloc: Global, text: &str) -> Result<String, AllocError>
    ensures { IfOk result (λ cell. string_bytes cell ≡ cut text.now) }
{
    cut_to(alloc, CELL, text)
}

/// Returns a text as a cell of that many columns. Errs only when out of memory.
pub(crate) fn cut_to(alloc: Global, room: usize, text: &str) -> Result<String, AllocError>
    ensures { IfOk result (λ cell. string_bytes cell ≡ cut_to room text.now) }
{
    if width(text) <= room {
        return String::from_str(alloc, text);
    }
    let mut cell = first_of(alloc, room.saturating_sub(POINTS), text)?;
    cell.push_str("..")?;
    Ok(cell)
}

/// The first characters of a text, as many as have room.
fn first_of(alloc: Global, room: usize, text: &str) -> Result<String, AllocError>
    ensures { IfOk result (λ first. string_bytes first ≡ encode_utf8_all (fitting room (chars text.now))) }
{
    let characters = characters_of(alloc, text)?;
    fitting(alloc, room, characters.as_slice())
}

/// The text of the first characters, as many as have room.
fn fitting(alloc: Global, room: usize, characters: &[char]) -> Result<String, AllocError>
    ensures { IfOk result (λ text. string_bytes text ≡ encode_utf8_all (fitting room characters.now)) }
{
    let mut left = room;
    let mut text = String::new(alloc);
    for character in characters {
        let taken = room_of(*character);
        if taken > left {
            return Ok(text);
        }
        left -= taken;
        text.push(*character)?;
    }
    Ok(text)
}

/// How many columns of a terminal a character takes at most.
fn room_of(character: char) -> usize
    ensures { result ≡ room_of character }
{
    if character == '\u{fe0f}' {
        return 1;
    }
    character.width().unwrap_or(0)
}
