//! The parts of objects and arrays whose texts are plain, read without a scratch and without an allocation.
//!
//! A text is plain if its JSON has no escape. Objects and arrays of plain texts, nulls and numbers, with any spaces and keys, are read
//! straight from their bytes, a key or a value at a time. So it costs less than a `json::Reader`, which first finds where the tokens of a
//! text begin. Of any other text this says nothing but that it is another: it may be JSON, or none.
ghost use Rattle.std.specs.Prelude.{◌≡◌, ◌≢◌, ◌≤◌, ◌+◌, ◌<◌, [], ◌∷◌, length, take, drop, slice_index, true, false, ◌||◌, IfOk, MatchOption, option_map};
ghost use Rattle.std.specs.List.{prefix_len};
ghost use Rattle.json.specs.Lex.{tokens, token, operator, operator_lexeme, class};
ghost use Rattle.json.specs.Token as spec;
ghost use Rattle.json.specs.Word as word;
ghost use Rattle.json.specs.Run as run;
ghost use Rattle.geoarrow_meta.specs.PlainTokens.{lexemes_at, tokens_left, Passes, IsBeginning, Takes, word_token};

use json::is_number;
use std::simd::prelude::*;

/// The text is another than those that are read here.
#[derive(Clone, Copy)]
pub(crate) struct NotPlain;

/// The place behind the brace that opens the object that the text is.
#[tactic(auto, unfolding(json::specs::Lex::punctuate))]
#[inline]
pub(crate) fn object_start(text: &str) -> Result<usize, NotPlain>
    ensures tokens { IfOk result (λ at. tokens text.now ≡ spec.begin_object ∷ tokens_left false text.now at) }
    ensures within { IfOk result (λ at. at ≤ length text.now) }
{
    after_operator(text, after_spaces(text, 0), b'{')
}

/// The next key, and the place of its value; or no key, and the place behind the brace that closes the object.
#[inline(always)]
pub(crate) fn next_key<'a>(
    text: &'a str,
    at: usize,
    after_member: bool,
) -> Result<(Option<&'a str>, usize), NotPlain>
    requires { at ≤ length text.now }
    ensures key { IfOk result (λ p. MatchOption p.0
        (tokens_left after_member text.entry.now at ≡ spec.end_object ∷ tokens_left true text.entry.now p.1)
        (λ k. tokens_left after_member text.entry.now at ≡ spec.key k.now ∷ tokens_left false text.entry.now p.1)) }
    ensures within { IfOk result (λ p. p.1 ≤ length text.entry.now) }
{
    let at = after_spaces(text, at);
    if byte_at(text, at) == b'}' {
        return Ok((None, at + 1));
    }
    let (key, at) = plain_text(text, key_place(text, at, after_member)?)?;
    let at = after_operator(text, after_spaces(text, at), b':')?;
    Ok((Some(key), at))
}

/// True, and the place of the next item; or false, and the place behind the bracket that closes the array.
#[inline(always)]
pub(crate) fn next_item(text: &str, at: usize, after_item: bool) -> Result<(bool, usize), NotPlain>
    requires { at ≤ length text.now }
    ensures end { IfOk result (λ p. p.0 ≡ false → tokens_left after_item text.now at ≡ spec.end_array ∷ tokens_left true text.now p.1) }
    ensures item { IfOk result (λ p. p.0 ≡ true → IsBeginning text.now (tokens_left after_item text.now at) p.1) }
    ensures within { IfOk result (λ p. p.1 ≤ length text.now) }
{
    let at = after_spaces(text, at);
    if byte_at(text, at) == b']' {
        return Ok((false, at + 1));
    }
    Ok((true, key_place(text, at, after_item)?))
}

// Where the next key or item should be: behind the comma that follows a value.
#[inline(always)]
fn key_place(text: &str, at: usize, after_member: bool) -> Result<usize, NotPlain>
    requires { at ≤ length text.now }
    ensures place { IfOk result (IsBeginning text.now (tokens_left after_member text.now at)) }
    ensures within { IfOk result (λ next. next ≤ length text.now) }
{
    if !after_member {
        return Ok(at);
    }
    let at = after_operator(text, at, b',')?;
    Ok(after_spaces(text, at))
}

/// The plain text or null that comes next, and the place of the comma, the brace or the bracket after it.
#[inline(always)]
pub(crate) fn plain_word<'a>(text: &'a str, at: usize) -> Result<(Option<&'a str>, usize), NotPlain>
    requires { at ≤ length text.now }
    ensures { IfOk result (λ p. Takes text.entry.now at (word_token (option_map (λ s. s.now) p.0)) p.1) }
{
    let (word, at) = text_or_null(text, after_spaces(text, at))?;
    let at = after_spaces(text, at);
    match byte_at(text, at) {
        b',' | b'}' | b']' => Ok((word, at)),
        _ => Err(NotPlain),
    }
}

/// The number there, and the place after it.
#[inline]
pub(crate) fn plain_number<'a>(text: &'a str, at: usize) -> Result<(&'a str, usize), NotPlain>
    requires { at ≤ length text.now }
    ensures { IfOk result (λ p. Takes text.entry.now at (spec.number p.0.now) p.1) }
{
    let end = word_end(text, at);
    if byte_at(text, at) >= 0x80 || end == text.len() {
        return Err(NotPlain);
    }
    let number = &text[at..end];
    if !is_number(number) {
        return Err(NotPlain);
    }
    Ok((number, end))
}

// The first place from there on where a word ends; or the end.
#[inline(always)]
fn word_end(text: &str, from: usize) -> usize
    requires { from ≤ length text.now }
    ensures within { (from ≤ result) × (result ≤ length text.now) }
    ensures ended { result < length text.now → (word.is_operator (slice_index text.now result) || word.is_space (slice_index text.now result)) ≡ true }
{
    let bytes = text.as_bytes();
    let mut at = from;
    while at < bytes.len() && !ends_word(bytes[at]) {
        at += 1;
    }
    at
}

// The plain text or null there, and the place after it.
#[inline(always)]
fn text_or_null<'a>(text: &'a str, at: usize) -> Result<(Option<&'a str>, usize), NotPlain>
    requires { at ≤ length text.now }
    ensures { IfOk result (λ p. Passes text.entry.now at (token (word_token (option_map (λ s. s.now) p.0)) ∷ []) p.1) }
{
    if byte_at(text, at) == b'n' {
        return Ok((None, null_end(text, at)?));
    }
    let (word, at) = plain_text(text, at)?;
    Ok((Some(word), at))
}

// The place after the brace, bracket, comma or colon there.
#[inline(always)]
fn after_operator(text: &str, at: usize, byte: u8) -> Result<usize, NotPlain>
    requires within { at ≤ length text.now }
    requires operator { class byte ≡ operator }
    ensures { IfOk result (λ next. Passes text.now at (operator_lexeme byte ∷ []) next) }
{
    if byte_at(text, at) != byte {
        return Err(NotPlain);
    }
    Ok(at + 1)
}

// The plain text there, between its quotes, and the place after it.
#[tactic(auto, using(crate::proofs::PlainTexts::text_stands))]
fn plain_text<'a>(text: &'a str, at: usize) -> Result<(&'a str, usize), NotPlain>
    requires { at ≤ length text.now }
    ensures { IfOk result (λ p. Passes text.entry.now at (token (spec.string p.0.now) ∷ []) p.1) }
{
    if byte_at(text, at) != b'"' {
        return Err(NotPlain);
    }
    let stop = plain_end(text, at + 1);
    if byte_at(text, stop) != b'"' {
        return Err(NotPlain);
    }
    Ok((&text[at + 1..stop], stop + 1))
}

// The place after the null there.
fn null_end(text: &str, at: usize) -> Result<usize, NotPlain>
    requires { at ≤ length text.now }
    ensures { IfOk result (λ end. Passes text.now at (token spec.null ∷ []) end) }
{
    if !text.as_bytes()[at..].starts_with(b"null") || !ends_word(byte_at(text, at + 4)) {
        return Err(NotPlain);
    }
    Ok(at + 4)
}

// The first place from there on where a quote, a backslash or a control character is; or the end. Its loops are faster out of line,
// where they count nothing else.
#[tactic(auto, using(crate::proofs::PlainRuns::plain_within, crate::proofs::PlainRuns::plain_stops, crate::proofs::PlainRuns::plain_passes))]
#[inline(never)]
fn plain_end(text: &str, from: usize) -> usize
    requires { from ≤ length text.now }
    ensures first { result ≡ from + prefix_len run.is_plain (drop from text.now) }
    ensures within { result ≤ length text.now }
{
    let bytes = text.as_bytes();
    let mut at = from;
    'lanes: while bytes.len() - at >= 16 {
        let plain = plain_lanes(bytes, at);
        at += plain;
        if plain < 16 {
            return at;
        }
    }
    'bytes: while at < bytes.len() && is_plain(bytes[at]) {
        at += 1;
    }
    at
}

// How many of the 16 bytes from there on come before the first that is not plain.
#[inline(always)]
fn plain_lanes(bytes: &[u8], at: usize) -> usize
    requires { at + 16 ≤ length bytes.now }
    ensures { result ≡ prefix_len run.is_plain (take 16 (drop at bytes.now)) }
{
    let lanes = u8x16::from_slice(&bytes[at..]);
    let stops = (lanes.simd_eq(u8x16::splat(b'"'))
        | lanes.simd_eq(u8x16::splat(b'\\'))
        | lanes.simd_lt(u8x16::splat(0x20))).to_bitmask();
    if stops == 0 {
        16
    } else {
        stops.trailing_zeros() as usize
    }
}

// Most bytes are small letters, which one comparison tells.
#[inline(always)]
fn is_plain(byte: u8) -> bool
    ensures { result ≡ run.is_plain byte }
{
    byte > b'\\' || byte >= 0x20 && byte != b'"' && byte != b'\\'
}

// The first place from there on where no space is.
#[tactic(auto, using(crate::proofs::PlainTexts::space_skipped))]
#[inline(always)]
pub(crate) fn after_spaces(text: &str, from: usize) -> usize
    requires { from ≤ length text.now }
    ensures same { lexemes_at text.now result ≡ lexemes_at text.now from }
    ensures within { result ≤ length text.now }
{
    let bytes = text.as_bytes();
    let mut at = from;
    while at < bytes.len() && is_space(bytes[at]) {
        at += 1;
    }
    at
}

#[inline(always)]
fn is_space(byte: u8) -> bool
    ensures { result ≡ word.is_space byte }
{
    (byte == b' ') | (byte == b'\t') | (byte == b'\n') | (byte == b'\r')
}

// A comma, a brace or a bracket that closes, or a space ends the word before it.
#[inline(always)]
fn ends_word(byte: u8) -> bool
    ensures { result ≡ true → (byte ≢ 0) × ((word.is_operator byte || word.is_space byte) ≡ true) }
{
    (byte == b',') | (byte == b'}') | (byte == b']') | is_space(byte)
}

// The byte there, or 0 past the end.
#[inline(always)]
pub(crate) fn byte_at(text: &str, at: usize) -> u8
    ensures { result ≡ slice_index text.now at }
{
    let bytes = text.as_bytes();
    if at < bytes.len() { bytes[at] } else { 0 }
}
