//! The tokens of WKT.
ghost use Rattle.std.specs.Prelude.{◌≡◌, [], ◌∷◌, ◌++◌, List, map, IfOk, OnOk};
ghost use Rattle.crs_identity.specs.Identifiers.{Text};
ghost use Rattle.crs_identity.specs.Tokens.{Lexeme, Place, are_same_lexemes, begin, is_blank, is_close, is_mark, is_open, is_same_lexeme, last_lexeme, lexeme, lexemes, lexemes_from, place};

use std::alloc::{AllocError, Global};

/// A token of WKT.
#[derive(Drop)]
pub(crate) enum Token {
    /// A bracket or a comma.
    Mark(u8),
    /// What stands between quotes.
    Quoted(Vec<u8>),
    /// Anything else.
    Word(Vec<u8>),
}

/// Where a byte stands.
#[derive(Drop)]
enum Mode {
    /// Between tokens.
    Between,
    /// In a word, behind these bytes of it.
    InWord(Vec<u8>),
    /// Between quotes, behind these bytes.
    InQuotes(Vec<u8>),
    /// Behind a quote that ends a text, unless another follows.
    BehindQuote(Vec<u8>),
}

/// Returns the tokens of a text. Errs only when out of memory.
pub(crate) fn tokens_of(alloc: Global, text: &str) -> Result<Vec<Token>, AllocError>
    ensures { IfOk result (λ tokens. map lexeme tokens.items ≡ lexemes text.now) }
{
    let mut tokens = Vec::new(alloc);
    let mut mode = Mode::Between;
    for b in text.as_bytes() {
        mode = next_mode(alloc, &mut tokens, mode, *b)?;
    }
    end(&mut tokens, mode)?;
    Ok(tokens)
}

/// Adds the tokens that end at a byte, and returns where the next byte stands. Errs only when out of
/// memory.
fn next_mode(alloc: Global, tokens: &mut Vec<Token>, mode: Mode, b: u8) -> Result<Mode, AllocError>
    ensures { IfOk result (λ next. (s : Text)
        → map lexeme tokens.old.items ++ lexemes_from (place mode) (b ∷ s)
        ≡ map lexeme tokens.new.items ++ lexemes_from (place next) s) }
{
    match mode {
        Mode::Between => begin(alloc, tokens, b),
        Mode::InWord(word) => {
            if is_mark(b) || b == b'"' || is_blank(b) {
                tokens.push(Token::Word(word))?;
                return begin(alloc, tokens, b);
            }
            Ok(Mode::InWord(with(word, b)?))
        }
        Mode::InQuotes(text) => {
            if b == b'"' {
                return Ok(Mode::BehindQuote(text));
            }
            Ok(Mode::InQuotes(with(text, b)?))
        }
        Mode::BehindQuote(text) => {
            if b == b'"' {
                return Ok(Mode::InQuotes(with(text, b)?));
            }
            tokens.push(Token::Quoted(text))?;
            begin(alloc, tokens, b)
        }
    }
}

/// Adds the token that a byte between tokens is, if it is one, and returns where the next byte
/// stands. Errs only when out of memory.
fn begin(alloc: Global, tokens: &mut Vec<Token>, b: u8) -> Result<Mode, AllocError>
    ensures { IfOk result (λ next. (others : Place → List Lexeme)
        → map lexeme tokens.old.items ++ begin b others
        ≡ map lexeme tokens.new.items ++ others (place next)) }
{
    if is_mark(b) {
        tokens.push(Token::Mark(b))?;
        return Ok(Mode::Between);
    }
    if b == b'"' {
        return Ok(Mode::InQuotes(Vec::new(alloc)));
    }
    if is_blank(b) {
        return Ok(Mode::Between);
    }
    Ok(Mode::InWord(with(Vec::new(alloc), b)?))
}

/// Adds the token that ends with the text, if there is one. Errs only when out of memory.
fn end(tokens: &mut Vec<Token>, mode: Mode) -> Result<(), AllocError>
    ensures { OnOk result (map lexeme tokens.new.items ≡ map lexeme tokens.old.items
        ++ last_lexeme (place mode)) }
{
    match mode {
        Mode::Between => Ok(()),
        Mode::InWord(word) => Ok(tokens.push(Token::Word(word))?),
        Mode::InQuotes(text) | Mode::BehindQuote(text) => Ok(tokens.push(Token::Quoted(text))?),
    }
}

/// Returns the bytes with one more. Errs only when out of memory.
fn with(mut bytes: Vec<u8>, b: u8) -> Result<Vec<u8>, AllocError>
    ensures { IfOk result (λ made. made.items ≡ bytes.items ++ b ∷ []) }
{
    bytes.push(b)?;
    Ok(bytes)
}

/// Whether a byte is a bracket that opens.
pub(crate) fn is_open(b: u8) -> bool
    ensures { result ≡ is_open b }
{
    b == b'[' || b == b'('
}

/// Whether a byte is a bracket that closes.
pub(crate) fn is_close(b: u8) -> bool
    ensures { result ≡ is_close b }
{
    b == b']' || b == b')'
}

/// Whether a byte is a bracket or a comma.
fn is_mark(b: u8) -> bool
    ensures { result ≡ is_mark b }
{
    is_open(b) || is_close(b) || b == b','
}

/// Whether a byte is a blank.
fn is_blank(b: u8) -> bool
    ensures { result ≡ is_blank b }
{
    b == b' ' || b == b'\t' || b == b'\n' || b == b'\r'
}

/// Whether two tokens are the same.
fn is_same_token(a: &Token, b: &Token) -> bool
    ensures { result ≡ is_same_lexeme (lexeme a.now) (lexeme b.now) }
{
    match (a, b) {
        (Token::Mark(x), Token::Mark(y)) => *x == *y,
        (Token::Quoted(x), Token::Quoted(y)) => x.as_slice() == y.as_slice(),
        (Token::Word(x), Token::Word(y)) => x.as_slice() == y.as_slice(),
        _ => false,
    }
}

/// Whether two texts have the same tokens.
pub(crate) fn are_same_tokens(a: &[Token], b: &[Token]) -> bool
    ensures { result ≡ are_same_lexemes (map lexeme a.now) (map lexeme b.now) }
{
    let mut others = b.iter();
    for x in a {
        if !matches!(others.next(), Some(y) if is_same_token(x, y)) {
            return false;
        }
    }
    others.next().is_none()
}
