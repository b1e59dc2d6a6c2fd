//! What is found in a file of a format that is not read, where more is said than its name.
ghost use Rattle.std.specs.Prelude.{◌≡◌, ◌≤◌, IfOk, IfSome, flat_map, length, option_map, string_bytes, take};
ghost use Rattle.std.specs.Char.{encode_utf8};
ghost use Rattle.arrow_values.specs.Texts.{text_of};
ghost use Rattle.column_files.specs.Files.{IsForeign};
ghost use Rattle.column_files.specs.ForeignFound.{looked_at, code_end, code_behind, code_at, code_in};
ghost use Rattle.column_files.specs.ForeignFound.{with_code, with_first, found_by, foreign_found};

use crate::columns::FileFault;
use crate::foreign::Foreign;
use crate::form::{rest_of, stands};
use std::alloc::{AllocError, Global};

/// How many letters and digits the code of an error page has at most.
const CODE_LEN: usize = 40;

impl Foreign {
    /// How many of the first bytes of a file of the format tell what is found in it.
    pub(crate) fn looked_at(self) -> usize
        ensures { result ≡ looked_at self }
    {
        match self {
            Foreign::Xml => 1024,
            Foreign::Unknown => 16,
            _ => 0,
        }
    }
}

/// Why a file of a format that is not read is refused.
pub(crate) fn foreign_fault(alloc: Global, foreign: Foreign, bytes: &[u8]) -> FileFault
    ensures { IsForeign foreign (foreign_found foreign bytes.now) result }
{
    let first = first_of(bytes, foreign.looked_at());
    match found_by(alloc, foreign, first) {
        Ok(found) => FileFault::Foreign(foreign, found),
        Err(AllocError) => FileFault::OutOfMemory,
    }
}

/// What is found by these first bytes, where more is said than the name of the format.
fn found_by(alloc: Global, foreign: Foreign, first: &[u8]) -> Result<Option<String>, AllocError>
    ensures { IfOk result (λ found. option_map string_bytes found ≡ found_by foreign first.now) }
{
    match foreign {
        Foreign::Xml => match code_in(first) {
            Some(code) => Ok(Some(with_code(alloc, code)?)),
            None => Ok(None),
        },
        Foreign::Unknown => Ok(Some(with_first(alloc, first)?)),
        _ => Ok(None),
    }
}

/// The name of XML with the code of an error page.
fn with_code(alloc: Global, code: &[u8]) -> Result<String, AllocError>
    ensures { IfOk result (λ text. string_bytes text ≡ with_code code.now) }
{
    let mut text = String::from_str(alloc, "an XML document with the code ")?;
    text.push_str(ascii_text(alloc, code)?.as_str())?;
    Ok(text)
}

/// The name of bytes of no known format with the first of them.
fn with_first(alloc: Global, bytes: &[u8]) -> Result<String, AllocError>
    ensures { IfOk result (λ text. string_bytes text ≡ with_first bytes.now) }
{
    let mut text = String::from_str(alloc, "bytes of no known format, which begin with ")?;
    text.push_str(hex::encode(alloc, bytes)?.as_str())?;
    Ok(text)
}

/// Letters and digits of ASCII as a text.
fn ascii_text(alloc: Global, bytes: &[u8]) -> Result<String, AllocError>
    ensures { IfOk result (λ text. string_bytes text ≡ flat_map encode_utf8 bytes.now) }
{
    let mut text = String::with_capacity(alloc, bytes.len())?;
    for byte in bytes {
        text.push(char::from(*byte))?;
    }
    Ok(text)
}

/// The code in the first place where one stands between its marks.
fn code_in(text: &[u8]) -> Option<&[u8]>
    ensures { text_of result ≡ code_in text.now }
{
    let mut rest = text;
    while let [_, more @ ..] = rest {
        if let Some(code) = code_at(rest) {
            return Some(code);
        }
        rest = more;
    }
    None
}

/// The code at the begin of a text, between its marks.
fn code_at(text: &[u8]) -> Option<&[u8]>
    ensures { text_of result ≡ code_at text.now }
{
    if stands(0, b"<Code>", text) {
        return code_behind(rest_of(text, 6));
    }
    None
}

/// The code before its second mark.
fn code_behind(text: &[u8]) -> Option<&[u8]>
    ensures { text_of result ≡ code_behind text.now }
{
    match code_end(text) {
        Some(end) if 1 <= end && end <= CODE_LEN && stands(end, b"</Code>", text) => {
            Some(first_of(text, end))
        }
        _ => None,
    }
}

/// Where the letters and digits at the begin of a text end, if anything stands behind them.
fn code_end(text: &[u8]) -> Option<usize>
    ensures { result ≡ code_end text.now }
{
    text.iter().position(|byte| !byte.is_ascii_alphanumeric())
}

/// So many bytes of a text, or all of them.
fn first_of(text: &[u8], count: usize) -> &[u8]
    ensures { result.now ≡ take count text.now }
{
    &text[..text.len().min(count)]
}
