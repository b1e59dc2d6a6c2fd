//! The lines of what is found.
ghost use Rattle.std.specs.Prelude.{◌≡◌, ◌++◌, IfOk, OnOk, string_bytes};
ghost use Rattle.arrow_values.specs.Texts.{text_of};
ghost use Rattle.column_reports.specs.FindingLines.{shown_text, findings_text};

use crate::finding_json::finding_line;
use crate::weighed::Weighed;
use std::alloc::{AllocError, Global};

/// Returns the lines of findings, each with a line feed. `file` is the name that the lines give the
/// file, if any. Errs only when out of memory.
///
/// ```rust
/// let text = FooterText { bytes: &[0xff], byte: 8 };
/// let finding = Finding::Text(FooterFinding { code: FooterCode::KeyNotText, text });
/// let findings = vec![in alloc; Weighed { severity: Severity::Note, more: 0, finding }]?;
/// let lines = finding_lines(alloc, None, findings.as_slice())?;
/// assert_eq!(rt; lines.as_str().lines().count(), 1);
/// ```
pub fn finding_lines(
    alloc: Global,
    file: Option<&str>,
    findings: &[Weighed<'_>],
) -> Result<String, AllocError>
    ensures { IfOk result (λ text. string_bytes text ≡ findings_text (text_of file.entry) findings.now) }
{
    let mut text = String::new(alloc);
    for finding in findings {
        add_line(alloc, &mut text, file, finding)?;
    }
    Ok(text)
}

/// Adds the line of a finding, with its line feed.
fn add_line(
    alloc: Global,
    text: &mut String,
    file: Option<&str>,
    finding: &Weighed<'_>,
) -> Result<(), AllocError>
    ensures { OnOk result (string_bytes text.new ≡ string_bytes text.old ++ shown_text (text_of file.entry) finding.now) }
{
    let line = finding_line(alloc, file, finding)?;
    text.push_str(line.as_str())?;
    text.push_str("\n")
}
