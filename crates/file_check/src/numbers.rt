//! How many columns and findings there are: of a file, and of all files.
use crate::asked::Asked;
use crate::rules::Rule;
use column_check::Severity;
use column_reports::{ColumnReport, Weighed};
use std::alloc::{AllocError, Global};

/// How many columns and findings a file has, or several files have.
#[derive(Debug, Clone, Copy)]
pub struct Numbers {
    /// The columns.
    pub columns: u64,
    /// Those of geometries, inferred ones too.
    pub geometries: u64,
    /// What counts as an error: of findings those that are shown, bad lines, and what is asked and
    /// not met.
    pub errors: u64,
    /// The warnings that are shown.
    pub warnings: u64,
    /// The notes that are shown.
    pub notes: u64,
}

impl Numbers {
    /// Returns those of no column.
    pub fn new() -> Numbers {
        Numbers {
            columns: 0,
            geometries: 0,
            errors: 0,
            warnings: 0,
            notes: 0,
        }
    }

    /// Adds a column, and what is found of it.
    pub(crate) fn add_column(&mut self, said: &ColumnReport) {
        raise(&mut self.columns, 1);
        if said.finding.geometry().is_some() {
            raise(&mut self.geometries, 1);
        }
        self.add_findings(said.findings.as_slice());
    }

    /// Adds findings.
    pub(crate) fn add_findings(&mut self, findings: &[Weighed<'_>]) {
        for found in findings {
            self.add_one(found.severity);
        }
    }

    /// Adds a finding of that severity.
    pub(crate) fn add_one(&mut self, severity: Severity) {
        match severity {
            Severity::Error => raise(&mut self.errors, 1),
            Severity::Warning => raise(&mut self.warnings, 1),
            Severity::Note => raise(&mut self.notes, 1),
        }
    }

    /// Adds so many errors.
    pub(crate) fn add_errors(&mut self, count: usize) {
        raise(&mut self.errors, count as u64);
    }

    /// Adds those of a file.
    fn add(&mut self, other: Numbers) {
        raise(&mut self.columns, other.columns);
        raise(&mut self.geometries, other.geometries);
        raise(&mut self.errors, other.errors);
        raise(&mut self.warnings, other.warnings);
        raise(&mut self.notes, other.notes);
    }

    /// Whether there is a finding.
    fn has_findings(self) -> bool {
        self.errors > 0 || self.warnings > 0 || self.notes > 0
    }
}

/// Adds to a number, which stops at the greatest.
fn raise(number: &mut u64, more: u64) {
    *number = number.saturating_add(more);
}

/// What is counted over files, and kept of them.
#[derive(Debug, Drop)]
pub struct Tally {
    /// How many files there are.
    pub files: u64,
    /// How many of them are not read to their end.
    pub unread: u64,
    /// Of how many the status is 1.
    pub failed: u64,
    /// Of how many something is found.
    pub found_in: u64,
    /// The columns and findings of those that are read.
    pub numbers: Numbers,
    /// Of a log of SARIF the rules of its results.
    rules: Vec<Rule>,
    /// Whether a result is printed in it.
    pub(crate) has_results: bool,
    /// With `--same` the columns of the first file that is read.
    pub(crate) first: Option<Vec<ColumnReport>>,
    /// With `--same` the columns of the file that was read last, until they are compared.
    pub(crate) last: Option<Vec<ColumnReport>>,
    /// The columns and findings of the last file, if it is read to its end.
    of_last: Option<Numbers>,
}

impl Tally {
    /// Returns that of no file.
    pub fn new(alloc: Global) -> Tally {
        Tally {
            files: 0,
            unread: 0,
            failed: 0,
            found_in: 0,
            numbers: Numbers::new(),
            rules: Vec::new(alloc),
            has_results: false,
            first: None,
            last: None,
            of_last: None,
        }
    }

    /// Keeps the columns of a file that is read, where files are to be the same.
    pub(crate) fn keep(&mut self, asked: &Asked, columns: Vec<ColumnReport>) {
        if asked.flags.same {
            self.last = Some(columns);
        }
    }

    /// Keeps a rule, unless one of its code is kept.
    pub(crate) fn add_rule(&mut self, rule: Rule) -> Result<(), AllocError> {
        if self.rules.iter().any(|kept| kept.code == rule.code) {
            return Ok(());
        }
        Ok(self.rules.push(rule)?)
    }

    /// The rules that are kept.
    pub(crate) fn rules(&self) -> &[Rule] {
        self.rules.as_slice()
    }

    /// Adds a file that is read, of which so much is asked and not met.
    pub(crate) fn add_file(&mut self, numbers: Numbers, unmet: usize) {
        let mut numbers = numbers;
        numbers.add_errors(unmet);
        raise(&mut self.files, 1);
        self.of_last = Some(Numbers::new());
        self.add_found(numbers);
    }

    /// Adds what is found of the file that was read last.
    pub(crate) fn add_found(&mut self, numbers: Numbers) {
        let mut of_last = self.of_last.unwrap_or(Numbers::new());
        if numbers.has_findings() && !of_last.has_findings() {
            raise(&mut self.found_in, 1);
        }
        of_last.add(numbers);
        self.of_last = Some(of_last);
        self.numbers.add(numbers);
    }

    /// Returns how many columns and findings the last file has, if it is read to its end.
    pub(crate) fn of_last(&self) -> Option<Numbers> {
        self.of_last
    }

    /// Adds the status of a file, as it is behind all that is said of it.
    pub(crate) fn add_status(&mut self, status: u8) {
        if status == 1 {
            raise(&mut self.failed, 1);
        }
    }

    /// Adds a file that is not read to its end.
    pub(crate) fn add_unread(&mut self) {
        raise(&mut self.files, 1);
        raise(&mut self.unread, 1);
        self.of_last = None;
    }
}
