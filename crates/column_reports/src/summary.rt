//! What counts of a file for its status.
ghost use Rattle.std.specs.Prelude.{◌≡◌, ◌||◌, false, is_some};
ghost use Rattle.column_check.specs.States.{geometry_in};
ghost use Rattle.column_reports.specs.Summary.{has_error, status};

use crate::report::ColumnReport;
use crate::weighed::Weighed;
use column_check::Finding;

/// What counts of a file for its status: of its columns, of what is found of them and of it, and of
/// its bad lines.
#[derive(Debug, Clone, Copy)]
pub struct Summary {
    /// Whether a column holds geometries, or is taken for some: its state is `geometry` or `inferred`.
    pub has_geometry: bool,
    /// Whether a finding, of a column or of the file, counts as an error.
    pub has_failed: bool,
    /// Whether a line is bad: it is not blank, and denotes no column.
    pub has_bad_lines: bool,
}

impl Summary {
    /// Returns that of no column and no finding.
    pub fn new() -> Summary
        ensures geometry { result.has_geometry ≡ false }
        ensures failed { result.has_failed ≡ false }
        ensures bad { result.has_bad_lines ≡ false }
    {
        Summary {
            has_geometry: false,
            has_failed: false,
            has_bad_lines: false,
        }
    }

    /// Adds what is said of one more column, and what is found of it.
    pub fn add(&mut self, said: &ColumnReport)
        ensures geometry { self.new.has_geometry ≡ (self.old.has_geometry || is_some (geometry_in said.now.finding)) }
        ensures failed { self.new.has_failed ≡ (self.old.has_failed || has_error said.now.findings.items) }
        ensures bad { self.new.has_bad_lines ≡ self.old.has_bad_lines }
    {
        self.has_geometry = self.has_geometry | holds_geometries(&said.finding);
        self.has_failed = self.has_failed | has_error(said.findings.as_slice());
    }

    /// Returns the status of a file that is reported to its end (`docs/FORMAT.md`, 2.7): 2 where a
    /// line is bad; otherwise 1 where a finding counts as an error, as each that says why a column is
    /// invalid unless it is allowed, or where what is asked of the file is not met, and else 0.
    ///
    /// ```rust
    /// let summary = Summary::new();
    /// assert_eq!(rt; summary.status(false), 0);
    /// assert_eq!(rt; summary.status(true), 1);
    /// let failed = Summary { has_failed: true, ..summary };
    /// assert_eq!(rt; failed.status(false), 1);
    /// let bad = Summary { has_bad_lines: true, ..summary };
    /// assert_eq!(rt; bad.status(true), 2);
    /// ```
    pub fn status(&self, is_unmet: bool) -> u8
        ensures { result ≡ status self.now is_unmet }
    {
        if self.has_bad_lines {
            2
        } else if self.has_failed || is_unmet {
            1
        } else {
            0
        }
    }
}

/// Returns whether a column holds geometries, or is taken for some.
pub(crate) fn holds_geometries(finding: &Finding) -> bool
    ensures { result ≡ is_some (geometry_in finding.now) }
{
    matches!(finding, Finding::Geometry(_) | Finding::Inferred(_))
}

/// Returns whether one of some findings counts as an error.
pub(crate) fn has_error(findings: &[Weighed<'_>]) -> bool
    ensures { result ≡ has_error findings.now }
{
    findings.iter().any(|finding| finding.is_error())
}
