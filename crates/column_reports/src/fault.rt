//! Why a file is refused, as a line of JSON and in words.
ghost use Rattle.std.specs.Prelude.{◌≡◌, ◌≢◌, ◌++◌, All, IfOk, OnOk, map, option_map, string_bytes};
ghost use Rattle.arrow_values.specs.Texts.{text_of};
ghost use Rattle.column_files.specs.Refusals.{told};
ghost use Rattle.column_reports.specs.Objects.{AddsMembers};
ghost use Rattle.column_reports.specs.FindingWords.{each};
ghost use Rattle.column_reports.specs.Faults.{part_in, byte_in, line_in, index_in};
ghost use Rattle.column_reports.specs.Faults.{rule_of, place_of, words_of, fault_line};
ghost use Rattle.column_reports.specs.Faults.{number_words, place_parts, said_words, fault_words};

use crate::finding_json::put_more;
use crate::put::{put_number_if, put_text, put_text_if};
use crate::sentence::{add, around, placed};
use column_check::Severity;
use column_files::{Fault, Place};
use json::Writer;
use std::alloc::{AllocError, Global};
use value_tokens::text_of;

/// Returns why a file is refused as a line of JSON: an object with the keys `kind`, which is
/// `finding`, `severity`, `code`, `file`, `index`, `in`, `byte`, `line`, `found`, `expected` and `help`, in this order
/// and without blanks (docs/FORMAT.md, 2.8), and without a line feed. What does not apply is left
/// out, and `file` where none is named. Errs only when out of memory.
///
/// ```rust
/// let refused = FileFault::NoField(1, LineFault::NotObject);
/// let fault = fault_of(Form::Lines, &refused);
/// let line = fault_line(alloc, Some("a.json"), &fault)?;
/// assert_eq!(rt; line.as_str(), r#"{"kind":"finding","severity":"error","code":"BadLine","file":"a.json","line":2,"found":"JSON that is no object","expected":"a JSON object"}"#);
/// ```
pub fn fault_line(
    alloc: Global,
    file: Option<&str>,
    fault: &Fault<'_>,
) -> Result<String, AllocError>
    ensures text { IfOk result (λ line. string_bytes line ≡ fault_line (text_of file.entry) 0 (told fault.now)) }
    ensures one_line { IfOk result (λ line. All (λ b. b ≢ 10) (string_bytes line)) }
{
    line_with(alloc, file, 0, fault)
}

/// Returns the line of a fault, as [`fault_line`] does, with how many more there are, if there are
/// any.
pub(crate) fn line_with(
    alloc: Global,
    file: Option<&str>,
    more: usize,
    fault: &Fault<'_>,
) -> Result<String, AllocError>
    ensures text { IfOk result (λ line. string_bytes line ≡ fault_line (text_of file.entry) more (told fault.now)) }
    ensures one_line { IfOk result (λ line. All (λ b. b ≢ 10) (string_bytes line)) }
{
    let mut out = Writer::new(Vec::new(alloc));
    out.begin_object()?;
    put_rule(&mut out, file, fault)?;
    put_place(&mut out, fault.place)?;
    put_words(&mut out, more, fault)?;
    out.end_object()?;
    Ok(text_of(out))
}

/// Writes what the object is, that a fault is an error, its code, and the name of the file.
fn put_rule(out: &mut Writer, file: Option<&str>, fault: &Fault<'_>) -> Result<(), AllocError>
    ensures { OnOk result (AddsMembers (rule_of (text_of file.entry) (told fault.now)) out.old out.new) }
{
    put_text(out, "kind", "finding")?;
    put_text(out, "severity", Severity::Error.word())?;
    put_text(out, "code", fault.code)?;
    put_text_if(out, "file", file)
}

/// Writes a place.
fn put_place(out: &mut Writer, place: Place) -> Result<(), AllocError>
    ensures { OnOk result (AddsMembers (place_of place) out.old out.new) }
{
    put_number_if(out, "index", index_in(place))?;
    put_text_if(out, "in", part_in(place))?;
    put_number_if(out, "byte", byte_in(place))?;
    put_number_if(out, "line", line_in(place))
}

/// Writes what is found, what is expected, what helps, and how many more there are.
fn put_words(out: &mut Writer, more: usize, fault: &Fault<'_>) -> Result<(), AllocError>
    ensures { OnOk result (AddsMembers (words_of more (told fault.now)) out.old out.new) }
{
    put_text(out, "found", fault.found)?;
    put_text(out, "expected", fault.expected)?;
    put_text_if(out, "help", fault.help)?;
    put_more(out, more)
}

/// Returns why a file is refused, in words (docs/FORMAT.md, 2.8): `error[CODE] IN, byte N, line N:
/// found FOUND; expected EXPECTED. HELP`, where parts that do not apply are left out. Errs only when
/// out of memory.
///
/// ```rust
/// let refused = FileFault::NoField(1, LineFault::NotObject);
/// let fault = fault_of(Form::Lines, &refused);
/// let text = "error[BadLine] line 2: found JSON that is no object; expected a JSON object";
/// assert_eq!(rt; fault_words(alloc, &fault)?.as_str(), text);
/// ```
pub fn fault_words(alloc: Global, fault: &Fault<'_>) -> Result<String, AllocError>
    ensures { IfOk result (λ text. string_bytes text ≡ fault_words (told fault.now)) }
{
    let code = fault.code;
    let parts = place_parts(alloc, fault.place)?;
    let place = placed(alloc, parts.as_slice())?;
    let said = said_words(alloc, fault)?;
    format!(in alloc; "error[{code}]{place}: {said}")
}

/// The parts of a place.
fn place_parts(alloc: Global, place: Place) -> Result<Vec<String>, AllocError>
    ensures { IfOk result (λ parts. map string_bytes parts.items ≡ place_parts place) }
{
    let mut parts = Vec::new(alloc);
    add(&mut parts, number_words(alloc, "column ", index_in(place))?)?;
    add_text(alloc, &mut parts, part_in(place))?;
    add(&mut parts, number_words(alloc, "byte ", byte_in(place))?)?;
    add(&mut parts, number_words(alloc, "line ", line_in(place))?)?;
    Ok(parts)
}

/// Adds a part, if it is there.
fn add_text(alloc: Global, parts: &mut Vec<String>, part: Option<&str>) -> Result<(), AllocError>
    ensures { OnOk result (map string_bytes parts.new.items ≡ map string_bytes parts.old.items ++ each (text_of part.entry)) }
{
    match part {
        Some(part) => add(parts, Some(String::from_str(alloc, part)?)),
        None => Ok(()),
    }
}

/// A number, and what it is of.
fn number_words(alloc: Global, of: &str, number: Option<u64>) -> Result<Option<String>, AllocError>
    ensures { IfOk result (λ text. option_map string_bytes text ≡ number_words of.now number) }
{
    match number {
        Some(number) => Ok(Some(format!(in alloc; "{of}{number}")?)),
        None => Ok(None),
    }
}

/// What is found, what is expected, and what helps.
fn said_words(alloc: Global, fault: &Fault<'_>) -> Result<String, AllocError>
    ensures { IfOk result (λ text. string_bytes text ≡ said_words (told fault.now)) }
{
    let (found, expected) = (fault.found, fault.expected);
    let help = around(alloc, ". ", fault.help, "")?;
    format!(in alloc; "found {found}; expected {expected}{help}")
}

/// The part of the file that a place is in.
fn part_in(place: Place) -> Option<&'static str>
    ensures { text_of result ≡ part_in place }
{
    match place {
        Place::FooterByte(_) => Some("footer"),
        Place::Elements(_) => Some("elements"),
        _ => None,
    }
}

/// The byte of a place.
fn byte_in(place: Place) -> Option<u64>
    ensures { result ≡ byte_in place }
{
    match place {
        Place::LineByte(_, byte) | Place::Byte(byte) | Place::FooterByte(byte) => Some(byte),
        Place::Elements(byte) => byte,
        Place::File | Place::Line(_) | Place::Column(_) => None,
    }
}

/// The line of a place.
fn line_in(place: Place) -> Option<u64>
    ensures { result ≡ line_in place }
{
    match place {
        Place::Line(line) | Place::LineByte(line, _) => Some(line),
        _ => None,
    }
}

/// The column of a place, by its index.
fn index_in(place: Place) -> Option<u64>
    ensures { result ≡ index_in place }
{
    match place {
        Place::Column(index) => Some(index),
        _ => None,
    }
}
