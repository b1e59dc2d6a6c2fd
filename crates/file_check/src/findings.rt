//! What is found of a file, in words.
ghost use Rattle.std.specs.Prelude.{◌≡◌, ◌++◌, IfOk, OnOk, string_bytes};
ghost use Rattle.file_check.specs.Findings.{finding_line, findings_text};

use crate::text::shown;
use column_reports::{Weighed, finding_words};
use std::alloc::{AllocError, Global};

/// Returns what is found of a file, a line for each finding (docs/FORMAT.md, 2.7). Errs only when out
/// of memory.
///
/// ```rust
/// let finding = GeoFinding {
///     code: GeoCode::Version,
///     column: None,
///     source: FactSource::Geo,
///     pointer: String::from_str(alloc, "/version")?,
///     found: Some(String::from_str(alloc, "1")?),
///     wanted: None,
///     more: 0,
/// };
/// let finding = Finding::Geo(Version::V1_1, finding);
/// let findings = vec![in alloc; Weighed { severity: Severity::Error, more: 0, finding }]?;
/// let text = findings_text(alloc, findings.as_slice())?;
/// let line = "error[GeoVersion] geo /version: found 1; expected 1.1.0. The rules of 1.1.0 are used.\n";
/// assert_eq!(rt; text.as_str(), line);
/// ```
pub fn findings_text(alloc: Global, findings: &[Weighed<'_>]) -> Result<String, AllocError>
    ensures { IfOk result (λ text. string_bytes text ≡ findings_text findings.now) }
{
    let mut text = String::new(alloc);
    for finding in findings {
        push_line(alloc, &mut text, finding)?;
    }
    Ok(text)
}

/// Adds the line of a finding.
fn push_line(alloc: Global, text: &mut String, finding: &Weighed<'_>) -> Result<(), AllocError>
    ensures { OnOk result (string_bytes text.new ≡ string_bytes text.old ++ finding_line finding.now) }
{
    let words = finding_words(alloc, finding)?;
    text.push_str(shown(alloc, words.as_str())?.as_str())?;
    text.push_str("\n")
}
