//! What findings weigh.
ghost use Rattle.std.specs.Prelude.{◌≡◌};
ghost use Rattle.std.specs.List.{list_any};
ghost use Rattle.geoparquet.specs.Weights.{is_error, is_shown};

use crate::finding::{GeoFinding, GeoReport};

impl GeoFinding {
    /// Returns whether the finding is an error: the file breaks a rule of its format, or
    /// contradicts itself (docs/FORMAT.md, 5).
    pub fn is_error(&self) -> bool
        ensures { result ≡ is_error self.now }
    {
        self.code.severity().is_error()
    }

    /// Returns whether the finding is shown: a note is shown where notes are asked for, any other
    /// finding always.
    pub fn is_shown(&self, notes: bool) -> bool
        ensures { result ≡ is_shown notes self.now }
    {
        notes || !self.code.severity().is_note()
    }
}

impl GeoReport {
    /// Returns whether one of the findings is an error.
    pub fn has_error(&self) -> bool
        ensures { result ≡ list_any is_error self.now.findings.items }
    {
        is_one_error(self.findings.as_slice())
    }
}

/// Whether one of some findings is an error.
fn is_one_error(findings: &[GeoFinding]) -> bool
    ensures { result ≡ list_any is_error findings.now }
{
    findings.iter().any(|finding| finding.is_error())
}
