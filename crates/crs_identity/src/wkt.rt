//! CRSs in WKT.
ghost use Rattle.std.specs.Prelude.{◌≡◌, ◌+◌, ◌^◌, ◌<◌, ◌++◌, map, IfOk, OnOk, option_map};
ghost use Rattle.std.specs.List.{list_all};
ghost use Rattle.crs_identity.specs.Identifiers.{name_of};
ghost use Rattle.crs_identity.specs.Tokens.{is_comma, is_open, lexeme};
ghost use Rattle.crs_identity.specs.Wkt.{depth_past, first_part, identifier_at, identifiers_from, is_id, is_keyword, is_wkt, is_word_byte, parts_named, past_mark, with_code, wkt_identifiers};

use crate::identifiers::{Identifier, add, is_word, made};
use crate::tokens::{Token, is_close, is_open};
use std::alloc::{AllocError, Global};

/// Whether tokens are those of WKT: a word, and a bracket that opens.
pub(crate) fn is_wkt(tokens: &[Token]) -> bool
    ensures { result ≡ is_wkt (map lexeme tokens.now) }
{
    match tokens {
        [Token::Word(word), Token::Mark(b), ..] => is_keyword(word.as_slice()) && is_open(*b),
        _ => false,
    }
}

/// Whether bytes are a word of letters, digits and `_`, a letter first.
fn is_keyword(word: &[u8]) -> bool
    ensures { result ≡ is_keyword word.now }
{
    let Some(first) = word.first() else {
        return false;
    };
    first.is_ascii_alphabetic() && are_word_bytes(word)
}

/// Whether each byte is a letter, a digit or `_`.
fn are_word_bytes(word: &[u8]) -> bool
    ensures { result ≡ list_all is_word_byte word.now }
{
    for b in word {
        if !(b.is_ascii_alphanumeric() || *b == b'_') {
            return false;
        }
    }
    true
}

/// Adds the identifiers of WKT. Errs only when out of memory.
pub(crate) fn wkt_identifiers(
    alloc: Global,
    tokens: &[Token],
    found: &mut Vec<Identifier>,
) -> Result<(), AllocError>
    ensures { OnOk result (map name_of found.new.items ≡ map name_of found.old.items
        ++ wkt_identifiers (map lexeme tokens.now)) }
{
    let mut depth = 0;
    let mut rest = tokens;
    'tokens: while let Some((token, behind)) = rest.split_first() {
        rest = behind;
        match token {
            Token::Mark(b) => depth = depth_past(*b, depth),
            Token::Quoted(_) => {}
            Token::Word(word) => {
                add(
                    alloc,
                    found,
                    identifier_at(alloc, depth, word.as_slice(), rest)?,
                )?;
            }
        }
    }
    Ok(())
}

/// In how many brackets the next token stands.
fn depth_past(b: u8, depth: usize) -> usize
    requires { depth + 1 < 2 ^ 64 }
    ensures { result ≡ depth_past b depth }
{
    if is_open(b) {
        depth + 1
    } else if is_close(b) {
        depth.saturating_sub(1)
    } else {
        depth
    }
}

/// Returns the identifier that a word in so many brackets, and what stands behind it, are. Errs only
/// when out of memory.
fn identifier_at(
    alloc: Global,
    depth: usize,
    word: &[u8],
    behind: &[Token],
) -> Result<Option<Identifier>, AllocError>
    ensures { IfOk result (λ o. option_map name_of o
        ≡ identifier_at depth word.now (map lexeme behind.now)) }
{
    if depth == 1 && is_id(word) {
        parts_named(alloc, behind)
    } else {
        Ok(None)
    }
}

/// Whether a word begins an identifier.
fn is_id(word: &[u8]) -> bool
    ensures { result ≡ is_id word.now }
{
    is_word(word, "id") || is_word(word, "authority")
}

/// Returns the identifier that the first two parts in a bracket are. Errs only when out of memory.
fn parts_named(alloc: Global, tokens: &[Token]) -> Result<Option<Identifier>, AllocError>
    ensures { IfOk result (λ o. option_map name_of o ≡ parts_named (map lexeme tokens.now)) }
{
    let Some(inside) = past_open(tokens) else {
        return Ok(None);
    };
    match first_part(inside) {
        Some((authority, behind)) => with_code(alloc, authority, behind),
        None => Ok(None),
    }
}

/// Returns the identifier of an authority and the part behind it. Errs only when out of memory.
fn with_code(
    alloc: Global,
    authority: &[u8],
    tokens: &[Token],
) -> Result<Option<Identifier>, AllocError>
    ensures { IfOk result (λ o. option_map name_of o
        ≡ with_code authority.now (map lexeme tokens.now)) }
{
    let Some(behind) = past_comma(tokens) else {
        return Ok(None);
    };
    match first_part(behind) {
        Some((code, _)) => Ok(Some(made(alloc, authority, code)?)),
        None => Ok(None),
    }
}

/// What stands behind a bracket that opens.
fn past_open(tokens: &[Token]) -> Option<&[Token]>
    ensures { option_map (λ ts. map lexeme ts.now) result
        ≡ past_mark is_open (map lexeme tokens.now) }
{
    let (token, behind) = tokens.split_first()?;
    match token {
        Token::Mark(b) if is_open(*b) => Some(behind),
        _ => None,
    }
}

/// What stands behind a comma.
fn past_comma(tokens: &[Token]) -> Option<&[Token]>
    ensures { option_map (λ ts. map lexeme ts.now) result
        ≡ past_mark is_comma (map lexeme tokens.now) }
{
    let (token, behind) = tokens.split_first()?;
    match token {
        Token::Mark(b',') => Some(behind),
        _ => None,
    }
}

/// A part that is a text or a word, and what stands behind it.
fn first_part(tokens: &[Token]) -> Option<(&[u8], &[Token])>
    ensures { option_map (λ p. (p.0.now, map lexeme p.1.now)) result
        ≡ first_part (map lexeme tokens.now) }
{
    let (token, behind) = tokens.split_first()?;
    match token {
        Token::Quoted(text) => Some((text.as_slice(), behind)),
        Token::Word(text) => Some((text.as_slice(), behind)),
        Token::Mark(_) => None,
    }
}
