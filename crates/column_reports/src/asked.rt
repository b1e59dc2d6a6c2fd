//! What is asked of a file and not met, as findings (docs/FORMAT.md, 2.7).
ghost use Rattle.std.specs.Prelude.{◌≡◌};
ghost use Rattle.column_reports.specs.Asked.{word_of, rule_of, expected_of, help_of, part_of};

/// The codes of what is asked of a file and not met, all errors.
#[derive(Debug, Clone, Copy, PartialEq, Eq)]
pub enum AskedCode {
    /// A column does not hold what is expected of it.
    Expect,
    /// No column holds geometries, where one is required.
    NoGeometry,
}

impl AskedCode {
    /// Each code, in the order of docs/FORMAT.md, 2.7.
    pub const ALL: [AskedCode; 2] = [AskedCode::Expect, AskedCode::NoGeometry];

    /// Returns the code as a word, as reports have it.
    pub fn word(self) -> &'static str
        ensures { result.now ≡ word_of self }
    {
        match self {
            Self::Expect => "Expect",
            Self::NoGeometry => "NoGeometry",
        }
    }

    /// Returns when the code is found, in words.
    pub fn rule(self) -> &'static str
        ensures { result.now ≡ rule_of self }
    {
        match self {
            Self::Expect => "a column does not hold what is expected of it, or is not there",
            Self::NoGeometry => "no column holds geometries, where one is required",
        }
    }

    /// Returns what is expected where the code is found, in words.
    pub fn expected(self) -> &'static str
        ensures { result.now ≡ expected_of self }
    {
        match self {
            Self::Expect => "what --expect says of the column",
            Self::NoGeometry => "a column of geometries",
        }
    }

    /// Returns what helps where the code is found, in words.
    pub fn help(self) -> &'static str
        ensures { result.now ≡ help_of self }
    {
        match self {
            Self::Expect => "The first part that the column does not have is named.",
            Self::NoGeometry => "With --infer columns count whose types tell geometries, too.",
        }
    }

    /// Returns the part of a file in which a finding of the code is, as reports have it.
    pub(crate) fn part(self) -> &'static str
        ensures { result.now ≡ part_of self }
    {
        match self {
            Self::Expect => "arguments",
            Self::NoGeometry => "file",
        }
    }
}

/// What is asked of a file and not met.
#[derive(Debug, Drop)]
pub struct AskedFinding {
    /// The code.
    pub code: AskedCode,
    /// The name of the column of which it is asked, if it is asked of one.
    pub column: Option<String>,
    /// What is there in its place; none where no column has the name.
    pub found: Option<String>,
    /// What is asked.
    pub expected: String,
    /// What helps, if there is something to say.
    pub help: Option<String>,
}
