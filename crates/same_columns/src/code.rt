//! The codes of differences.
ghost use Rattle.std.specs.Prelude.{◌≡◌};
ghost use Rattle.same_columns.specs.Unlike.{code_text, severity_of};

use column_check::Severity;

/// What a finding says of a column and that of the first file with which it is compared.
#[derive(Debug, Clone, Copy, PartialEq, Eq)]
pub enum SameCode {
    /// The column is not as in the first file.
    NotSame,
    /// Nothing tells whether its CRS is that of the first file.
    CrsNotCompared,
}

impl SameCode {
    /// Returns the code, as reports have it (docs/FORMAT.md, 2.9).
    pub fn word(self) -> &'static str
        ensures { result.now ≡ code_text self }
    {
        match self {
            SameCode::NotSame => "NotSame",
            SameCode::CrsNotCompared => "CrsNotCompared",
        }
    }

    /// Returns how much a finding of the code weighs.
    pub fn severity(self) -> Severity
        ensures { result ≡ severity_of self }
    {
        match self {
            SameCode::NotSame => Severity::Error,
            SameCode::CrsNotCompared => Severity::Note,
        }
    }
}
