//! A value of plain texts and numbers, read from its bytes without a scratch, in memory of its own.
ghost use Rattle.std.specs.Prelude.{◌≡◌, ◌≤◌, length, true, false, Some, IfOk};
ghost use Rattle.serde_json.specs.Data.{no_members};
ghost use Rattle.serde_json.specs.Read.{number_of};
ghost use Rattle.serde_json.specs.View.{view, items_view, members_view};
ghost use Rattle.serde_json.specs.Written.{has_float, items_have_float, members_have_float};
ghost use Rattle.value_tokens.specs.Next.{next_items, next_members};
ghost use Rattle.geoarrow_meta.specs.PlainTokens.{tokens_left, TakesValue};

use crate::metadata::plain_members::{
    NotPlain, after_spaces, byte_at, next_item, next_key, plain_number, plain_word,
};
use serde_json::{Map, Value};
use std::alloc::{AllocError, Global};
use value_tokens::{number_of, put_member};

/// Why no value is read.
#[derive(Clone, Copy)]
pub(crate) enum Unread {
    /// It is another than those that are read here.
    NotPlain,
    /// Out of memory.
    Memory,
}

impl From<NotPlain> for Unread {
    fn from(_other: NotPlain) -> Unread {
        Unread::NotPlain
    }
}

impl From<AllocError> for Unread {
    fn from(_refused: AllocError) -> Unread {
        Unread::Memory
    }
}

/// The value there, and the place after it. Turns `float_read` true where a number is read that is a float, so that a value without one
/// need not be searched for it.
#[cycle(plain)]
#[inline(always)]
pub(crate) fn plain_value(
    alloc: Global,
    text: &str,
    at: usize,
    depth: usize,
    float_read: &mut bool,
) -> Result<(Value, usize), Unread>
    requires { at ≤ length text.now }
    ensures value { IfOk result (λ p. TakesValue text.now depth at (view p.0) p.1) }
    ensures floats { IfOk result (λ p. float_read.new ≡ false → (float_read.old ≡ false) × (has_float (view p.0) ≡ false)) }
{
    let at = after_spaces(text, at);
    match byte_at(text, at) {
        b'"' | b'n' => {
            let (word, at) = plain_word(text, at)?;
            match word {
                Some(text) => Ok((Value::String(String::from_str(alloc, text)?), at)),
                None => Ok((Value::Null, at)),
            }
        }
        b'{' if depth > 0 => {
            let (members, at) = plain_members(alloc, text, at + 1, depth - 1, float_read)?;
            Ok((Value::Object(members), at))
        }
        b'[' if depth > 0 => {
            let (items, at) = plain_items(alloc, text, at + 1, depth - 1, float_read)?;
            Ok((Value::Array(items), at))
        }
        // A brace or a bracket that would nest too deep is no number.
        _ => {
            let (numeral, at) = plain_number(text, at)?;
            let number = number_of(numeral).ok_or(Unread::NotPlain)?;
            *float_read = *float_read | number.is_f64();
            Ok((Value::Number(number), at))
        }
    }
}

// The items that are left of an array, and the place behind its bracket.
#[cycle(plain)]
#[inline(never)]
fn plain_items(
    alloc: Global,
    text: &str,
    mut at: usize,
    depth: usize,
    float_read: &mut bool,
) -> Result<(Vec<Value>, usize), Unread>
    requires { at ≤ length text.now }
    ensures items { IfOk result (λ p. next_items depth (tokens_left false text.now at) ≡ Some (items_view p.0.items, tokens_left true text.now p.1)) }
    ensures within { IfOk result (λ p. p.1 ≤ length text.now) }
    ensures floats { IfOk result (λ p. float_read.new ≡ false → (float_read.old ≡ false) × (items_have_float (items_view p.0.items) ≡ false)) }
{
    let mut found = Vec::new(alloc);
    let mut after_item = false;
    'items: loop {
        let (more, place) = next_item(text, at, after_item)?;
        if !more {
            return Ok((found, place));
        }
        let (item, next) = plain_value(alloc, text, place, depth, float_read)?;
        found.push(item).map_err(AllocError::from)?;
        at = next;
        after_item = true;
    }
}

// The members that are left of an object, and the place behind its brace. The last value of a key counts.
#[cycle(plain)]
#[inline(never)]
fn plain_members(
    alloc: Global,
    text: &str,
    mut at: usize,
    depth: usize,
    float_read: &mut bool,
) -> Result<(Map<String, Value>, usize), Unread>
    requires { at ≤ length text.now }
    ensures members { IfOk result (λ p. next_members depth no_members (tokens_left false text.now at)
        ≡ Some (members_view p.0.entries, tokens_left true text.now p.1)) }
    ensures within { IfOk result (λ p. p.1 ≤ length text.now) }
    ensures floats { IfOk result (λ p. float_read.new ≡ false → (float_read.old ≡ false) × (members_have_float (members_view p.0.entries) ≡ false)) }
{
    let mut found = Map::new(alloc);
    let mut after_member = false;
    'members: loop {
        let (key, place) = next_key(text, at, after_member)?;
        let Some(name) = key else {
            return Ok((found, place));
        };
        let (member, next) = plain_value(alloc, text, place, depth, float_read)?;
        put_member(&mut found, alloc, name, member)?;
        at = next;
        after_member = true;
    }
}
