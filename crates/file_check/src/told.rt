//! What is told of a file, each in a line of its own.
use crate::asked::{Asked, Output};
use crate::github::github_line;
use crate::numbers::Tally;
use crate::rules::{Rule, rule_of};
use crate::sarif::sarif_result;
use crate::screen::colored;
use crate::text::shown;
use column_check::Severity;
use column_files::{Fault, Place};
use column_reports::{ColumnReport, Finding, Weighed, fault_words, finding_words};
use std::alloc::{AllocError, Global};

/// Where in a file that is which is told.
#[derive(Debug, Clone, Copy)]
pub(crate) enum Region {
    /// A line, counted from 1.
    Line(u64),
    /// A byte, from 0.
    Byte(u64),
}

/// What is told of a file: a finding that is shown, why the file is refused, or what is asked of it
/// and not met.
#[derive(Drop)]
pub(crate) struct Told {
    /// How much it counts.
    pub(crate) severity: Severity,
    /// The code, and when it is told.
    pub(crate) rule: Rule,
    /// What stands behind the severity and the code: the place, and what is said.
    behind: String,
    /// Where in the file, if that is known.
    pub(crate) region: Option<Region>,
}

impl Told {
    /// An error by that rule.
    pub(crate) fn error(alloc: Global, rule: Rule, words: &str) -> Result<Told, AllocError> {
        Ok(Told {
            severity: Severity::Error,
            rule,
            behind: format!(in alloc; ": {words}")?,
            region: None,
        })
    }

    /// What is said of a column by that rule.
    pub(crate) fn column(
        alloc: Global,
        severity: Severity,
        rule: Rule,
        name: &str,
        words: &str,
    ) -> Result<Told, AllocError> {
        Ok(Told {
            severity,
            rule,
            behind: format!(in alloc; " column {name}: {words}")?,
            region: None,
        })
    }

    /// A fault of a file.
    pub(crate) fn fault(alloc: Global, fault: &Fault<'_>) -> Result<Told, AllocError> {
        let words = fault_words(alloc, fault)?;
        Ok(Told {
            severity: Severity::Error,
            rule: rule_of(fault.code),
            behind: behind_code(alloc, None, words.as_str())?,
            region: region_of_place(fault.place),
        })
    }

    /// A finding: of a column that is named, or of the file.
    pub(crate) fn finding(
        alloc: Global,
        column: Option<&str>,
        found: &Weighed<'_>,
    ) -> Result<Told, AllocError> {
        let words = finding_words(alloc, found)?;
        let code = found.finding.code();
        Ok(Told {
            severity: found.severity,
            rule: Rule {
                code: code.word(),
                words: code.rule(),
            },
            behind: behind_code(alloc, column, words.as_str())?,
            region: region_of_finding(&found.finding),
        })
    }

    /// The place, and what is said.
    pub(crate) fn text(&self) -> &str {
        let behind = self.behind.as_str();
        let said = behind.strip_prefix(':').unwrap_or(behind);
        said.strip_prefix(' ').unwrap_or(said)
    }
}

/// Where a fault is.
fn region_of_place(place: Place) -> Option<Region> {
    match place {
        Place::Line(line) | Place::LineByte(line, _) => Some(Region::Line(line)),
        Place::Byte(byte) | Place::FooterByte(byte) | Place::Elements(Some(byte)) => {
            Some(Region::Byte(byte))
        }
        Place::File | Place::Elements(None) | Place::Column(_) => None,
    }
}

/// Where a finding is: bytes of its other parts, which are decoded, are counted in these.
fn region_of_finding(finding: &Finding<'_>) -> Option<Region> {
    match (finding.part(), finding.byte()) {
        (Some("file" | "footer" | "elements"), Some(byte)) => Some(Region::Byte(byte)),
        _ => None,
    }
}

/// The words of a finding without its severity and its code, behind the column that is named.
fn behind_code(alloc: Global, column: Option<&str>, words: &str) -> Result<String, AllocError> {
    let behind = match words.split_once(']') {
        Some((_, behind)) => behind,
        None => words,
    };
    match (column, behind.strip_prefix(' ')) {
        (Some(name), Some(placed)) => format!(in alloc; " column {name}, {placed}"),
        (Some(name), None) => format!(in alloc; " column {name}{behind}"),
        (None, _) => String::from_str(alloc, behind),
    }
}

/// Adds the lines of what is found of a column and shown.
pub(crate) fn push_column(
    alloc: Global,
    asked: &Asked,
    file: &str,
    said: &ColumnReport,
    tally: &mut Tally,
    text: &mut String,
) -> Result<(), AllocError> {
    let column = Some(said.column.name.as_str());
    push_findings(
        alloc,
        asked,
        file,
        column,
        said.findings.as_slice(),
        tally,
        text,
    )
}

/// Adds the lines of findings: of a column that is named, or of the file.
pub(crate) fn push_findings(
    alloc: Global,
    asked: &Asked,
    file: &str,
    column: Option<&str>,
    findings: &[Weighed<'_>],
    tally: &mut Tally,
    text: &mut String,
) -> Result<(), AllocError> {
    for found in findings {
        let told = Told::finding(alloc, column, found)?;
        text.push_str(finding_line(alloc, asked, file, &told, tally)?.as_str())?;
    }
    Ok(())
}

/// The line of a finding; none where none is printed of it.
fn finding_line(
    alloc: Global,
    asked: &Asked,
    file: &str,
    told: &Told,
    tally: &mut Tally,
) -> Result<String, AllocError> {
    if asked.flags.quiet && !told.severity.is_error() {
        return Ok(String::new(alloc));
    }
    match asked.flags.output() {
        Output::Errors => words_line(alloc, asked, file, told),
        Output::Github => github_line(alloc, file, told),
        Output::Sarif => sarif_result(alloc, file, told, tally),
        Output::Table | Output::Json | Output::Lines | Output::Ipc => Ok(String::new(alloc)),
    }
}

/// The line in words of what is told, behind the file's name.
pub(crate) fn words_line(
    alloc: Global,
    asked: &Asked,
    file: &str,
    told: &Told,
) -> Result<String, AllocError> {
    let file = shown(alloc, file)?;
    let (severity, code) = (told.severity.word(), told.rule.code);
    let behind = shown(alloc, told.behind.as_str())?;
    let words = format!(in alloc; "{severity}[{code}]{behind}")?;
    let words = colored(alloc, asked, words)?;
    format!(in alloc; "{file}: {words}\n")
}
