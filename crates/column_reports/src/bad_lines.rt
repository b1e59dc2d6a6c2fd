//! The lines of bad lines.
ghost use Rattle.std.specs.Prelude.{◌≡◌, ◌++◌, IfOk, OnOk, string_bytes};
ghost use Rattle.arrow_values.specs.Texts.{text_of};
ghost use Rattle.column_reports.specs.Faults.{bad_text, bad_texts, kept_text};

use crate::fault::line_with;
use column_files::{BadLine, BadLines, bad_line_fault};
use std::alloc::{AllocError, Global};

/// Returns the lines of JSON of the bad lines of a file, each with a line feed: that of a refused
/// file (docs/FORMAT.md, 2.8); the last says how many more there are, if there are any. `file` is the
/// name that the lines give the file, if any. Errs only when out of memory.
///
/// ```rust
/// let mut bad_lines = BadLines::new(alloc);
/// bad_lines.add(BadLine { before: 1, fault: LineFault::NotObject })?;
/// let lines = bad_line_lines(alloc, None, &bad_lines)?;
/// assert_eq!(rt; lines.as_str(), "{\"kind\":\"finding\",\"severity\":\"error\",\"code\":\"BadLine\",\"line\":2,\"found\":\"JSON that is no object\",\"expected\":\"a JSON object\"}\n");
/// ```
pub fn bad_line_lines(
    alloc: Global,
    file: Option<&str>,
    bad_lines: &BadLines,
) -> Result<String, AllocError>
    ensures { IfOk result (λ text. string_bytes text ≡ kept_text (text_of file.entry) bad_lines.now) }
{
    let bad = bad_lines.first.as_slice();
    let others = bad.len().saturating_sub(1);
    let mut text = lines_of(alloc, file, 0, &bad[..others])?;
    let last = lines_of(alloc, file, bad_lines.more, &bad[others..])?;
    text.push_str(last.as_str())?;
    Ok(text)
}

/// Returns the lines of bad lines, each of which says how many more there are.
fn lines_of(
    alloc: Global,
    file: Option<&str>,
    more: usize,
    bad: &[BadLine],
) -> Result<String, AllocError>
    ensures { IfOk result (λ text. string_bytes text ≡ bad_texts (text_of file.entry) more bad.now) }
{
    let mut text = String::new(alloc);
    for line in bad {
        add_line(alloc, &mut text, file, more, line)?;
    }
    Ok(text)
}

/// Adds the line of a bad line, with its line feed.
fn add_line(
    alloc: Global,
    text: &mut String,
    file: Option<&str>,
    more: usize,
    bad: &BadLine,
) -> Result<(), AllocError>
    ensures { OnOk result (string_bytes text.new ≡ string_bytes text.old ++ bad_text (text_of file.entry) more bad.now) }
{
    let line = line_with(alloc, file, more, &bad_line_fault(*bad))?;
    text.push_str(line.as_str())?;
    text.push_str("\n")
}
