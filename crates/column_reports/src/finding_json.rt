//! What is found, as JSON.
ghost use Rattle.std.specs.Prelude.{◌≡◌, ◌≢◌, All, IfOk, OnOk, codes, map, string_bytes};
ghost use Rattle.arrow_values.specs.Texts.{text_of};
ghost use Rattle.json.specs.Tree.{json_tokens};
ghost use Rattle.value_tokens.specs.Adds.{Adds};
ghost use Rattle.column_reports.specs.Objects.{member_if, AddsMembers};
ghost use Rattle.column_reports.specs.FindingLines.{rule_members, path_if, place_members, more_if};
ghost use Rattle.column_reports.specs.FindingLines.{words_members, finding_value, findings_in};
ghost use Rattle.column_reports.specs.FindingLines.{finding_text};

use crate::finding::Finding;
use crate::put::{put_number, put_number_if, put_text, put_text_if, put_texts};
use crate::weighed::Weighed;
use json::Writer;
use std::alloc::{AllocError, Global};
use value_tokens::text_of;

/// Returns a finding as a line of JSON: an object with the keys `kind`, which is `finding`,
/// `severity`, `code`, `file`, `column`, `path`, `in`, `pointer`, `byte`, `found`, `expected`, `help` and `more`, in this order
/// and without blanks (docs/FORMAT.md, 5.1), and without a line feed. What does not apply is left
/// out, and `file` where none is named. Errs only when out of memory.
///
/// ```rust
/// let finding = GeoFinding {
///     code: GeoCode::Version,
///     column: None,
///     source: FactSource::Geo,
///     pointer: String::from_str(alloc, "/version")?,
///     found: Some(String::from_str(alloc, "1")?),
///     wanted: None,
///     more: 0,
/// };
/// let finding = Finding::Geo(Version::V1_1, finding);
/// let line = finding_line(alloc, None, &Weighed { severity: Severity::Error, more: 0, finding })?;
/// let text = r#"{"kind":"finding","severity":"error","code":"GeoVersion","in":"geo","pointer":"/version","found":"1","expected":"1.1.0","help":"The rules of 1.1.0 are used."}"#;
/// assert_eq!(rt; line.as_str(), text);
///
/// let text = FooterText { bytes: &[0xff, b'a'], byte: 8 };
/// let finding = Finding::Text(FooterFinding { code: FooterCode::KeyNotText, text });
/// let note = Weighed { severity: Severity::Note, more: 0, finding };
/// let line = finding_line(alloc, Some("a.parquet"), &note)?;
/// let text = r#"{"kind":"finding","severity":"note","code":"KeyNotText","file":"a.parquet","in":"footer","byte":8,"found":"\\xffa","expected":"UTF-8","help":"It is passed over."}"#;
/// assert_eq!(rt; line.as_str(), text);
/// ```
pub fn finding_line(
    alloc: Global,
    file: Option<&str>,
    found: &Weighed<'_>,
) -> Result<String, AllocError>
    ensures text { IfOk result (λ line. string_bytes line ≡ finding_text (text_of file.entry) found.now) }
    ensures one_line { IfOk result (λ line. All (λ b. b ≢ 10) (string_bytes line)) }
{
    let mut out = Writer::new(Vec::new(alloc));
    put_finding(alloc, &mut out, Some("finding"), file, found)?;
    Ok(text_of(out))
}

/// Writes the member of what is found of a column, if anything is.
pub(crate) fn put_findings(
    alloc: Global,
    out: &mut Writer,
    findings: &[Weighed<'_>],
) -> Result<(), AllocError>
    ensures { OnOk result (AddsMembers (member_if (codes "findings") (findings_in findings.now)) out.old out.new) }
{
    if findings.is_empty() {
        return Ok(());
    }
    out.key("findings")?;
    out.begin_array()?;
    for finding in findings {
        put_finding(alloc, out, None, None, finding)?;
    }
    out.end_array()
}

/// Writes the object of a finding.
fn put_finding(
    alloc: Global,
    out: &mut Writer,
    kind: Option<&str>,
    file: Option<&str>,
    found: &Weighed<'_>,
) -> Result<(), AllocError>
    ensures { OnOk result (Adds (json_tokens (finding_value (text_of kind.entry) (text_of file.entry) found.now)) out.old out.new) }
{
    out.begin_object()?;
    put_rule(out, kind, file, found)?;
    put_place(out, &found.finding)?;
    put_words(alloc, out, found)?;
    out.end_object()
}

/// Writes what the object is, where it is a line, how much the finding counts, the rule, and the
/// file.
fn put_rule(
    out: &mut Writer,
    kind: Option<&str>,
    file: Option<&str>,
    found: &Weighed<'_>,
) -> Result<(), AllocError>
    ensures { OnOk result (AddsMembers (rule_members (text_of kind.entry) (text_of file.entry) found.now) out.old out.new) }
{
    put_text_if(out, "kind", kind)?;
    put_text(out, "severity", found.severity.word())?;
    put_text(out, "code", found.finding.code().word())?;
    put_text_if(out, "file", file)
}

/// Writes the place.
fn put_place(out: &mut Writer, finding: &Finding<'_>) -> Result<(), AllocError>
    ensures { OnOk result (AddsMembers (place_members finding.now) out.old out.new) }
{
    put_text_if(out, "column", finding.column())?;
    put_path(out, finding.path())?;
    put_text_if(out, "in", finding.part())?;
    put_text_if(out, "pointer", finding.pointer())?;
    put_number_if(out, "byte", finding.byte())
}

/// Writes the names of child fields, if there are any.
fn put_path(out: &mut Writer, path: &[String]) -> Result<(), AllocError>
    ensures { OnOk result (AddsMembers (path_if (map string_bytes path.now)) out.old out.new) }
{
    if path.is_empty() {
        return Ok(());
    }
    put_texts(out, "path", path)
}

/// Writes what is found, what is expected, what helps, and how many more there are.
fn put_words(alloc: Global, out: &mut Writer, weighed: &Weighed<'_>) -> Result<(), AllocError>
    ensures { OnOk result (AddsMembers (words_members weighed.now) out.old out.new) }
{
    let finding = &weighed.finding;
    let found = finding.found(alloc)?;
    let expected = finding.expected(alloc)?;
    let help = finding.help(alloc)?;
    put_text_if(out, "found", found.as_deref())?;
    put_text(out, "expected", expected.as_str())?;
    put_text_if(out, "help", help.as_deref())?;
    put_more(out, weighed.more)
}

/// Writes how many more there are, if there are any.
pub(crate) fn put_more(out: &mut Writer, more: usize) -> Result<(), AllocError>
    ensures { OnOk result (AddsMembers (more_if more) out.old out.new) }
{
    if more == 0 {
        return Ok(());
    }
    put_number(out, "more", more as u64)
}
