//! What stands where something is found, what is expected there, and what helps.
ghost use Rattle.std.specs.Prelude.{◌≡◌, IfOk, option_map, string_bytes};
ghost use Rattle.arrow_values.specs.Texts.{text_of};
ghost use Rattle.column_reports.specs.Found.{found_in, bracketed, expected_in, help_in};

use crate::bytes::bytes_shown;
use crate::finding::Finding;
use std::alloc::{AllocError, Global};

impl<'a> Finding<'a> {
    /// Returns what stands there, if something does: bytes of a footer that are not UTF-8 with two
    /// hexadecimal digits behind `\x` for each that is not ASCII; at most 120 characters of it, and
    /// `..` behind them where there are more. Errs only when out of memory.
    ///
    /// ```rust
    /// let text = FooterText { bytes: &[b'a', 0xff], byte: 8 };
    /// let finding = Finding::Text(FooterFinding { code: FooterCode::KeyNotText, text });
    /// let found = finding.found(alloc)?;
    /// assert_eq!(rt; found.as_deref(), Some("a\\xff"));
    /// ```
    pub fn found(&self, alloc: Global) -> Result<Option<String>, AllocError>
        ensures { IfOk result (λ text. option_map string_bytes text ≡ found_in self.now) }
    {
        match self {
            Finding::Column(_, warning) => copied(alloc, warning.found.as_deref()),
            Finding::Text(finding) => Ok(Some(bytes_shown(alloc, finding.text.bytes)?)),
            Finding::File(finding) => copied(alloc, finding.found.as_deref()),
            Finding::Geo(_, finding) => copied(alloc, finding.found.as_deref()),
            Finding::Asked(finding) => copied(alloc, finding.found.as_deref()),
        }
    }

    /// Returns what is expected in place of what is found, in words: of a column the layout of its
    /// extension name, where that is wanted; else that of the code, and behind it in brackets what is
    /// wanted there, if it says more. Errs only when out of memory.
    pub fn expected(&self, alloc: Global) -> Result<String, AllocError>
        ensures { IfOk result (λ text. string_bytes text ≡ expected_in self.now) }
    {
        match self {
            Finding::Column(_, warning) => String::from_str(alloc, warning.expected()),
            Finding::Text(finding) => String::from_str(alloc, finding.code.expected()),
            Finding::File(finding) => {
                bracketed(alloc, finding.code.expected(), finding.wanted.as_deref())
            }
            Finding::Geo(version, finding) => finding.expected(alloc, *version),
            Finding::Asked(finding) => String::from_str(alloc, finding.expected.as_str()),
        }
    }

    /// Returns what helps, in words, if there is something to say. Errs only when out of memory.
    pub fn help(&self, alloc: Global) -> Result<Option<String>, AllocError>
        ensures { IfOk result (λ text. option_map string_bytes text ≡ help_in self.now) }
    {
        match self {
            Finding::Column(_, warning) => copied(alloc, warning.help()),
            Finding::Text(finding) => copied(alloc, Some(finding.code.help())),
            Finding::File(finding) => copied(alloc, Some(finding.code.help())),
            Finding::Geo(version, finding) => finding.help(alloc, *version),
            Finding::Asked(finding) => copied(alloc, finding.help.as_deref()),
        }
    }
}

/// A text with another behind it in brackets, if there is one.
fn bracketed(alloc: Global, text: &str, wanted: Option<&str>) -> Result<String, AllocError>
    ensures { IfOk result (λ made. string_bytes made ≡ bracketed text.now (text_of wanted.entry)) }
{
    match wanted {
        Some(wanted) => format!(in alloc; "{text} ({wanted})"),
        None => String::from_str(alloc, text),
    }
}

/// A copy of a text, if there is one.
fn copied(alloc: Global, text: Option<&str>) -> Result<Option<String>, AllocError>
    ensures { IfOk result (λ made. option_map string_bytes made ≡ text_of text.entry) }
{
    match text {
        Some(text) => Ok(Some(String::from_str(alloc, text)?)),
        None => Ok(None),
    }
}
