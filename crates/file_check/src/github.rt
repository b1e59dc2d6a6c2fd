//! What is told of a file, as commands of a workflow of GitHub (docs/FORMAT.md, 2.7).
use crate::names::named;
use crate::text::push_shown;
use crate::told::Told;
use column_check::Severity;
use std::alloc::{AllocError, Global};

/// Returns the line of what is told of a file, with its line feed: of standard input without a file.
pub(crate) fn github_line(alloc: Global, file: &str, told: &Told) -> Result<String, AllocError> {
    let command = command(told.severity);
    let code = told.rule.code;
    let text = escaped(alloc, told.text(), false)?;
    match named(file) {
        Some(name) => {
            let name = escaped(alloc, name, true)?;
            format!(in alloc; "::{command} file={name},title={code}::{text}\n")
        }
        None => format!(in alloc; "::{command} title={code}::{text}\n"),
    }
}

/// The command of a severity.
fn command(severity: Severity) -> &'static str {
    match severity {
        Severity::Error => "error",
        Severity::Warning => "warning",
        Severity::Note => "notice",
    }
}

/// A text of a message or of a property, as a workflow reads it, and else as it is shown.
fn escaped(alloc: Global, text: &str, is_property: bool) -> Result<String, AllocError> {
    let mut escaped = String::with_capacity(alloc, text.len())?;
    for character in text.chars() {
        match character {
            '%' => escaped.push_str("%25")?,
            '\r' => escaped.push_str("%0D")?,
            '\n' => escaped.push_str("%0A")?,
            ':' if is_property => escaped.push_str("%3A")?,
            ',' if is_property => escaped.push_str("%2C")?,
            _ => push_shown(&mut escaped, character)?,
        }
    }
    Ok(escaped)
}
