//! The findings of differences as lines of JSON.
ghost use Rattle.std.specs.Prelude.{◌≡◌, ◌∷◌, [], ◌++◌, IfOk, OnOk, map, string_bytes};
ghost use Rattle.json.specs.Json.{string};
ghost use Rattle.arrow_values.specs.Texts.{text_of};
ghost use Rattle.column_reports.specs.Objects.{AddsMembers, string_if};
ghost use Rattle.same_columns.specs.Lines.{rule_members, unlike_line, unlike_lines, unlike_text, words_members};
ghost use Rattle.same_columns.specs.Unlike.{unlike_view, words_view};

use crate::unlike::{Unlike, Words};
use json::Writer;
use std::alloc::{AllocError, Global};
use value_tokens::text_of;

/// Returns the lines of JSON of findings, each with a line feed: an object with the keys `kind`,
/// which is `finding`, `severity`, `code`, `file`, `column`, `found`, `expected` and `help`, in this
/// order and without blanks (docs/FORMAT.md, 2.9 and 5.1). `found` is left out where it is nothing,
/// and `file`, the name of the later file, where none is given. Errs only when out of memory.
///
/// ```rust
/// let words = Words {
///     found: None,
///     expected: String::from_str(alloc, "int64")?,
///     help: "The column is missing.",
/// };
/// let unlike = Unlike {
///     severity: Severity::Error,
///     code: SameCode::NotSame,
///     column: String::from_str(alloc, "id")?,
///     words,
/// };
/// let lines = unlike_lines(alloc, Some("b.arrow"), &[unlike])?;
/// assert_eq!(rt; lines.as_str(), "{\"kind\":\"finding\",\"severity\":\"error\",\"code\":\"NotSame\",\"file\":\"b.arrow\",\"column\":\"id\",\"expected\":\"int64\",\"help\":\"The column is missing.\"}\n");
/// ```
pub fn unlike_lines(
    alloc: Global,
    file: Option<&str>,
    unlike: &[Unlike],
) -> Result<String, AllocError>
    ensures { IfOk result (λ text. string_bytes text ≡ unlike_lines (text_of file.entry) (map unlike_view unlike.now)) }
{
    let mut text = String::new(alloc);
    for one in unlike {
        add_line(alloc, &mut text, file, one)?;
    }
    Ok(text)
}

/// Adds the line of a finding, with its line feed.
fn add_line(
    alloc: Global,
    text: &mut String,
    file: Option<&str>,
    one: &Unlike,
) -> Result<(), AllocError>
    ensures { OnOk result (string_bytes text.new ≡ string_bytes text.old ++ unlike_text (text_of file.entry) (unlike_view one.now)) }
{
    let line = unlike_line(alloc, file, one)?;
    text.push_str(line.as_str())?;
    text.push_str("\n")
}

/// Returns the line of a finding, without a line feed.
fn unlike_line(alloc: Global, file: Option<&str>, one: &Unlike) -> Result<String, AllocError>
    ensures { IfOk result (λ line. string_bytes line ≡ unlike_line (text_of file.entry) (unlike_view one.now)) }
{
    let mut out = Writer::new(Vec::new(alloc));
    out.begin_object()?;
    put_rule(&mut out, file, one)?;
    put_words(&mut out, &one.words)?;
    out.end_object()?;
    Ok(text_of(out))
}

/// Writes what the object is, how much the finding counts, its code, the file, and the column.
fn put_rule(out: &mut Writer, file: Option<&str>, one: &Unlike) -> Result<(), AllocError>
    ensures { OnOk result (AddsMembers (rule_members (text_of file.entry) (unlike_view one.now)) out.old out.new) }
{
    put_text(out, "kind", "finding")?;
    put_text(out, "severity", one.severity.word())?;
    put_text(out, "code", one.code.word())?;
    put_text_if(out, "file", file)?;
    put_text(out, "column", one.column.as_str())
}

/// Writes what is found, what is expected, and what differs.
fn put_words(out: &mut Writer, words: &Words) -> Result<(), AllocError>
    ensures { OnOk result (AddsMembers (words_members (words_view words.now)) out.old out.new) }
{
    put_text_if(out, "found", words.found.as_deref())?;
    put_text(out, "expected", words.expected.as_str())?;
    put_text(out, "help", words.help)
}

/// Writes a member whose value is a string.
fn put_text(out: &mut Writer, key: &str, text: &str) -> Result<(), AllocError>
    ensures { OnOk result (AddsMembers ((key.now, string text.now) ∷ []) out.old out.new) }
{
    out.key(key)?;
    out.string(text)
}

/// Writes a member whose value is a string, if there is one.
fn put_text_if(out: &mut Writer, key: &str, text: Option<&str>) -> Result<(), AllocError>
    ensures { OnOk result (AddsMembers (string_if key.now (text_of text.entry)) out.old out.new) }
{
    match text {
        Some(text) => put_text(out, key, text),
        None => Ok(()),
    }
}
