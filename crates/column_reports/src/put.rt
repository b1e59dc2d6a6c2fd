//! The members of a JSON object, written one after another.
ghost use Rattle.std.specs.Prelude.{◌∷◌, [], OnOk, decimal, map, string_bytes};
ghost use Rattle.json.specs.Json.{number, string};
ghost use Rattle.arrow_values.specs.Texts.{text_of};
ghost use Rattle.column_reports.specs.FactMembers.{one_text};
ghost use Rattle.column_reports.specs.Objects.{array_of, string_if, number_if, AddsMembers};

use json::Writer;
use std::alloc::AllocError;

/// Writes a member whose value is a string.
pub(crate) fn put_text(out: &mut Writer, key: &str, text: &str) -> Result<(), AllocError>
    ensures { OnOk result (AddsMembers ((key.now, string text.now) ∷ []) out.old out.new) }
{
    out.key(key)?;
    out.string(text)
}

/// Writes a member whose value is a string, if there is one.
pub(crate) fn put_text_if(out: &mut Writer, key: &str, text: Option<&str>) -> Result<(), AllocError>
    ensures { OnOk result (AddsMembers (string_if key.now (text_of text.entry)) out.old out.new) }
{
    match text {
        Some(text) => put_text(out, key, text),
        None => Ok(()),
    }
}

/// Writes a member whose value is a number.
pub(crate) fn put_number(out: &mut Writer, key: &str, n: u64) -> Result<(), AllocError>
    ensures { OnOk result (AddsMembers ((key.now, number (decimal n)) ∷ []) out.old out.new) }
{
    out.key(key)?;
    out.u64(n)
}

/// Writes a member whose value is a number, if there is one.
pub(crate) fn put_number_if(out: &mut Writer, key: &str, n: Option<u64>) -> Result<(), AllocError>
    ensures { OnOk result (AddsMembers (number_if key.now n) out.old out.new) }
{
    match n {
        Some(n) => put_number(out, key, n),
        None => Ok(()),
    }
}

/// Writes a member whose value is an array of one string.
pub(crate) fn put_one(out: &mut Writer, key: &str, text: &str) -> Result<(), AllocError>
    ensures { OnOk result (AddsMembers ((key.now, one_text text.now) ∷ []) out.old out.new) }
{
    out.key(key)?;
    out.begin_array()?;
    out.string(text)?;
    out.end_array()
}

/// Writes a member whose value is an array of strings.
pub(crate) fn put_texts(out: &mut Writer, key: &str, texts: &[String]) -> Result<(), AllocError>
    ensures { OnOk result (AddsMembers ((key.now, array_of (map string (map string_bytes texts.now))) ∷ []) out.old out.new) }
{
    out.key(key)?;
    out.begin_array()?;
    for text in texts {
        out.string(text.as_str())?;
    }
    out.end_array()
}
