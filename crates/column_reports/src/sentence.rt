//! What is found, in words.
ghost use Rattle.std.specs.Prelude.{◌≡◌, ◌++◌, IfOk, OnOk, map, option_map, string_bytes};
ghost use Rattle.arrow_values.specs.Texts.{text_of};
ghost use Rattle.column_reports.specs.FindingWords.{each, column_words, path_words, pointed};
ghost use Rattle.column_reports.specs.FindingWords.{part_words, byte_words, more_words};
ghost use Rattle.column_reports.specs.FindingWords.{place_parts, placed, around, said_words};
ghost use Rattle.column_reports.specs.FindingWords.{finding_words};

use crate::finding::Finding;
use crate::weighed::Weighed;
use std::alloc::{AllocError, Global};

/// Returns a finding in words (docs/FORMAT.md, 5.1), as it counts: `SEVERITY[CODE] column NAME, at A.B, IN
/// POINTER, byte N, and M more: found FOUND; expected EXPECTED. HELP`, where parts that do not
/// apply are left out. Errs only when out of memory.
///
/// ```rust
/// let path = vec![in alloc; String::from_str(alloc, "rings")?, String::from_str(alloc, "vertices")?]?;
/// let found = Some(String::from_str(alloc, "nullable")?);
/// let code = WarningCode::NullableInner;
/// let finding = Finding::Column(NamedBy::Field, Warning { code, path, pointer: None, found, wanted: None, more: 4 });
/// let finding = Weighed { severity: Severity::Warning, more: 4, finding };
/// let text = "warning[NullableInner] at rings.vertices, field, and 4 more: found nullable; expected not null";
/// assert_eq!(rt; finding_words(alloc, &finding)?.as_str(), text);
///
/// let finding = GeoFinding {
///     code: GeoCode::Epoch,
///     column: Some(String::from_str(alloc, "geom")?),
///     source: FactSource::Geo,
///     pointer: String::from_str(alloc, "/columns/geom/epoch")?,
///     found: Some(String::from_str(alloc, "\"2020\"")?),
///     wanted: None,
///     more: 0,
/// };
/// let finding = Finding::Geo(Version::V1_1, finding);
/// let words = finding_words(alloc, &Weighed { severity: Severity::Error, more: 0, finding })?;
/// let text = "error[GeoEpoch] column geom, geo /columns/geom/epoch: found \"2020\"; expected a number. A number has no quotes.";
/// assert_eq!(rt; words.as_str(), text);
/// ```
pub fn finding_words(alloc: Global, found: &Weighed<'_>) -> Result<String, AllocError>
    ensures { IfOk result (λ text. string_bytes text ≡ finding_words found.now) }
{
    let finding = &found.finding;
    let severity = found.severity.word();
    let word = finding.code().word();
    let parts = place_parts(alloc, found)?;
    let place = placed(alloc, parts.as_slice())?;
    let said = said_words(alloc, finding)?;
    format!(in alloc; "{severity}[{word}]{place}: {said}")
}

/// The parts of a place behind a blank, with commas between them; nothing where there are none.
pub(crate) fn placed(alloc: Global, parts: &[String]) -> Result<String, AllocError>
    ensures { IfOk result (λ text. string_bytes text ≡ placed (map string_bytes parts.now)) }
{
    if parts.is_empty() {
        return Ok(String::new(alloc));
    }
    let place = parts.join(alloc, ", ")?;
    led(alloc, " ", place.as_str())
}

/// The parts of the place of a finding.
fn place_parts(alloc: Global, found: &Weighed<'_>) -> Result<Vec<String>, AllocError>
    ensures { IfOk result (λ parts. map string_bytes parts.items ≡ place_parts found.now) }
{
    let finding = &found.finding;
    let mut parts = Vec::new(alloc);
    add(&mut parts, column_words(alloc, finding.column())?)?;
    add(&mut parts, path_words(alloc, finding.path())?)?;
    add(
        &mut parts,
        part_words(alloc, finding.part(), finding.pointer())?,
    )?;
    add(&mut parts, byte_words(alloc, finding.byte())?)?;
    add(&mut parts, more_words(alloc, found.more)?)?;
    Ok(parts)
}

/// Adds a part, if it is there.
pub(crate) fn add(parts: &mut Vec<String>, part: Option<String>) -> Result<(), AllocError>
    ensures { OnOk result (map string_bytes parts.new.items ≡ map string_bytes parts.old.items ++ each (option_map string_bytes part)) }
{
    if let Some(part) = part {
        parts.push(part)?;
    }
    Ok(())
}

/// The name of a column.
fn column_words(alloc: Global, name: Option<&str>) -> Result<Option<String>, AllocError>
    ensures { IfOk result (λ text. option_map string_bytes text ≡ column_words (text_of name.entry)) }
{
    match name {
        Some(name) => Ok(Some(format!(in alloc; "column {name}")?)),
        None => Ok(None),
    }
}

/// The names of child fields, with dots between them.
fn path_words(alloc: Global, path: &[String]) -> Result<Option<String>, AllocError>
    ensures { IfOk result (λ text. option_map string_bytes text ≡ path_words (map string_bytes path.now)) }
{
    if path.is_empty() {
        return Ok(None);
    }
    let names = path.join(alloc, ".")?;
    Ok(Some(led(alloc, "at ", names.as_str())?))
}

/// The part of the file, and the pointer into it.
fn part_words(
    alloc: Global,
    part: Option<&str>,
    pointer: Option<&str>,
) -> Result<Option<String>, AllocError>
    ensures { IfOk result (λ text. option_map string_bytes text ≡ part_words (text_of part.entry) (text_of pointer.entry)) }
{
    match part {
        Some(part) => Ok(Some(pointed(alloc, part, pointer)?)),
        None => Ok(None),
    }
}

/// A part, and behind it a pointer, unless it is that of the whole.
fn pointed(alloc: Global, part: &str, pointer: Option<&str>) -> Result<String, AllocError>
    ensures { IfOk result (λ text. string_bytes text ≡ pointed part.now (text_of pointer.entry)) }
{
    match pointer {
        Some(pointer) if !pointer.is_empty() => format!(in alloc; "{part} {pointer}"),
        _ => String::from_str(alloc, part),
    }
}

/// A byte.
fn byte_words(alloc: Global, byte: Option<u64>) -> Result<Option<String>, AllocError>
    ensures { IfOk result (λ text. option_map string_bytes text ≡ byte_words byte) }
{
    match byte {
        Some(byte) => Ok(Some(format!(in alloc; "byte {byte}")?)),
        None => Ok(None),
    }
}

/// How many more there are, if there are any.
fn more_words(alloc: Global, more: usize) -> Result<Option<String>, AllocError>
    ensures { IfOk result (λ text. option_map string_bytes text ≡ more_words more) }
{
    if more == 0 {
        return Ok(None);
    }
    Ok(Some(format!(in alloc; "and {more} more")?))
}

/// What is found, what is expected, and what helps.
fn said_words(alloc: Global, finding: &Finding<'_>) -> Result<String, AllocError>
    ensures { IfOk result (λ text. string_bytes text ≡ said_words finding.now) }
{
    let found = finding.found(alloc)?;
    let found = around(alloc, "found ", found.as_deref(), "; ")?;
    let expected = finding.expected(alloc)?;
    let help = finding.help(alloc)?;
    let help = around(alloc, ". ", help.as_deref(), "")?;
    format!(in alloc; "{found}expected {expected}{help}")
}

/// A text between two others; nothing where there is none.
pub(crate) fn around(
    alloc: Global,
    before: &str,
    text: Option<&str>,
    behind: &str,
) -> Result<String, AllocError>
    ensures { IfOk result (λ s. string_bytes s ≡ around before.now (text_of text.entry) behind.now) }
{
    match text {
        Some(text) => between(alloc, before, text, behind),
        None => Ok(String::new(alloc)),
    }
}

/// A text behind another.
fn led(alloc: Global, before: &str, text: &str) -> Result<String, AllocError>
    ensures { IfOk result (λ s. string_bytes s ≡ before.now ++ text.now) }
{
    format!(in alloc; "{before}{text}")
}

/// A text between two others.
fn between(alloc: Global, before: &str, text: &str, behind: &str) -> Result<String, AllocError>
    ensures { IfOk result (λ s. string_bytes s ≡ before.now ++ (text.now ++ behind.now)) }
{
    format!(in alloc; "{before}{text}{behind}")
}
