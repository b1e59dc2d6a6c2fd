//! The codes of findings, as they are printed without a file (docs/FORMAT.md, 2.7).
use column_check::WarningCode;
use column_reports::{AskedCode, Code};
use file_check::{NOT_SAME, REFUSALS, Rule};
use geoparquet::{GeoCode, Version};
use parquet_columns::FileCode;
use parquet_footer::FooterCode;
use std::alloc::{AllocError, Global};
use strsim::levenshtein;

/// The codes of texts in a footer that are not UTF-8.
const FOOTER_CODES: [FooterCode; 2] = [FooterCode::NameNotText, FooterCode::KeyNotText];

/// How many edits lead from a word to a code that it is like, at most.
const EDITS: usize = 3;

/// A code that is known.
#[derive(Clone, Copy)]
enum Known {
    /// Of a finding of a file that is reported.
    Found(Code),
    /// With which a file is refused.
    Refused(Rule),
    /// Of a difference from the first file.
    Compared(Rule),
}

impl Known {
    /// Whether its findings count whatever is said of it.
    fn always_counts(self) -> bool {
        matches!(self, Known::Refused(_) | Known::Found(Code::Asked(_)))
    }

    /// The code as a word.
    fn word(self) -> &'static str {
        match self {
            Known::Found(code) => code.word(),
            Known::Refused(rule) | Known::Compared(rule) => rule.code,
        }
    }

    /// The section of docs/FORMAT.md that has the rule.
    fn section(self) -> &'static str {
        match self {
            Known::Found(Code::Column(_)) => "2.6",
            Known::Found(Code::Asked(_)) => "2.7",
            Known::Refused(_) => "2.8",
            Known::Compared(_) => "2.9",
            Known::Found(Code::Text(_)) => "4.3",
            Known::Found(Code::File(_)) => "4.5",
            Known::Found(Code::Geo(_)) => "5",
        }
    }

    /// The line of the code: its severity, the code, and when it is found.
    fn line(self, alloc: Global) -> Result<String, AllocError> {
        let word = self.word();
        let (severity, rule) = match self {
            Known::Found(code) => (code.severity().word(), code.rule()),
            Known::Refused(rule) | Known::Compared(rule) => ("error", rule.words),
        };
        format!(in alloc; "{severity}[{word}]: {rule}\n")
    }
}

/// Returns each code, in the order of docs/FORMAT.md: those of columns, of what is asked, of refused files, of files that
/// are to be the same, of footers, of the other parts of a Parquet file, and of GeoParquet metadata. Errs only when out of memory.
fn all_codes(alloc: Global) -> Result<Vec<Known>, AllocError> {
    let mut codes = Vec::new(alloc);
    for code in &WarningCode::ALL {
        codes.push(Known::Found(Code::Column(*code)))?;
    }
    for code in &AskedCode::ALL {
        codes.push(Known::Found(Code::Asked(*code)))?;
    }
    for rule in &REFUSALS {
        codes.push(Known::Refused(*rule))?;
    }
    codes.push(Known::Compared(NOT_SAME))?;
    for code in &FOOTER_CODES {
        codes.push(Known::Found(Code::Text(*code)))?;
    }
    for code in &FileCode::ALL {
        codes.push(Known::Found(Code::File(*code)))?;
    }
    for code in &GeoCode::ALL {
        codes.push(Known::Found(Code::Geo(*code)))?;
    }
    Ok(codes)
}

/// Returns a line for each code, in the order of `all_codes`. Errs only when out of memory.
pub(crate) fn codes_text(alloc: Global) -> Result<String, AllocError> {
    let mut text = String::new(alloc);
    for code in &all_codes(alloc)? {
        text.push_str(code.line(alloc)?.as_str())?;
    }
    Ok(text)
}

/// Returns what is known of a code, by the rules of GeoParquet 1.1.0; of one that stands in two tables
/// what is known of both; none where no code is so called. Errs only when out of memory.
pub(crate) fn explained(alloc: Global, word: &str) -> Result<Option<String>, AllocError> {
    let mut text = String::new(alloc);
    for code in &all_codes(alloc)? {
        if code.word() == word {
            text.push_str(known_text(alloc, *code)?.as_str())?;
        }
    }
    if text.is_empty() {
        return Ok(None);
    }
    Ok(Some(text))
}

/// What is known of a code: its line, what is expected and what helps, and where the rule stands.
fn known_text(alloc: Global, known: Known) -> Result<String, AllocError> {
    let mut text = known.line(alloc)?;
    if let Known::Found(code) = known {
        let expected = code.expected(Version::V1_1);
        text.push_str(format!(in alloc; "expected: {expected}\n")?.as_str())?;
        if let Some(help) = code.help(Version::V1_1) {
            text.push_str(format!(in alloc; "help: {help}\n")?.as_str())?;
        }
    }
    let section = known.section();
    text.push_str(format!(in alloc; "docs/FORMAT.md, {section}\n")?.as_str())?;
    Ok(text)
}

/// Returns whether a code of findings is so called. Errs only when out of memory.
pub(crate) fn is_code(alloc: Global, word: &str) -> Result<bool, AllocError> {
    let codes = all_codes(alloc)?;
    Ok(
        codes
            .iter()
            .any(|code| !code.always_counts() && code.word() == word),
    )
}

/// Returns whether a code with which files are refused is so called.
pub(crate) fn is_refusal(word: &str) -> bool {
    REFUSALS.iter().any(|rule| rule.code == word)
}

/// Returns whether a code of what is asked of a file is so called.
pub(crate) fn is_asked(word: &str) -> bool {
    AskedCode::ALL.iter().any(|code| code.word() == word)
}

/// Returns why a word that is no code is refused: with the code that it is most like, if it is like
/// one. Errs only when out of memory.
pub(crate) fn no_code(alloc: Global, word: &str) -> Result<String, AllocError> {
    match nearest(alloc, word)? {
        Some(code) => {
            format!(in alloc; "'{word}' is no code\n\n  tip: a similar code exists: '{code}'")
        }
        None => format!(in alloc; "'{word}' is no code"),
    }
}

/// The code that a word is most like, letters of ASCII alike.
fn nearest(alloc: Global, word: &str) -> Result<Option<&'static str>, AllocError> {
    let word = word.to_ascii_lowercase(alloc)?;
    let mut near = None;
    let mut least = EDITS + 1;
    for code in &all_codes(alloc)? {
        let name = code.word().to_ascii_lowercase(alloc)?;
        let edits = levenshtein(alloc, word.as_str(), name.as_str())?;
        if edits < least {
            near = Some(code.word());
            least = edits;
        }
    }
    Ok(near)
}
