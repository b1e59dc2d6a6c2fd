//! How much findings count, by what is asked of them.
ghost use Rattle.std.specs.Prelude.{◌≡◌, map};
ghost use Rattle.column_reports.specs.Weights.{code_weight, weighing, plain, weight_in};
ghost use Rattle.column_reports.specs.Weights.{counted, counted_by_group, counts_as};

use column_check::Severity;
use std::alloc::Global;

/// What is asked of findings.
#[derive(Clone, Copy, Debug, PartialEq, Eq)]
pub enum Weight {
    /// They are not shown, and do not count.
    Allow,
    /// They are shown, and count as errors.
    Deny,
}

/// What is asked of the findings of a code.
#[derive(Debug, Drop)]
pub struct CodeWeight {
    /// The code, as reports have it.
    pub code: String,
    /// What is asked of its findings.
    pub weight: Weight,
}

/// Which findings are shown, and how much each counts (docs/FORMAT.md, 2.7).
#[derive(Debug, Drop)]
pub struct Weights {
    /// Whether notes are shown.
    pub notes: bool,
    /// What is asked of all warnings, if something is.
    pub warnings: Option<Weight>,
    /// What is asked of codes, which counts before what is asked of warnings and notes; of a code
    /// that is there several times, the first counts.
    pub codes: Vec<CodeWeight>,
}

impl Weights {
    /// Returns that where nothing is asked of warnings and of codes: notes are shown or not, and each
    /// finding counts by its severity.
    pub fn new(alloc: Global, notes: bool) -> Weights
        ensures { weighing result ≡ plain notes }
    {
        Weights {
            notes,
            warnings: None,
            codes: Vec::new(alloc),
        }
    }

    /// Returns how much a finding of a code with a severity counts: as an error where it is denied; or
    /// `None` where it is not shown and does not count.
    ///
    /// ```rust
    /// let code = String::from_str(alloc, "AxisNames")?;
    /// let denied = CodeWeight { code, weight: Weight::Deny };
    /// let weights = Weights {
    ///     notes: false,
    ///     warnings: Some(Weight::Allow),
    ///     codes: vec![in alloc; denied]?,
    /// };
    /// assert_eq!(rt; weights.severity_of("AxisNames", Severity::Warning), Some(Severity::Error));
    /// assert_eq!(rt; weights.severity_of("CrsNumber", Severity::Warning), None);
    /// assert_eq!(rt; weights.severity_of("CrsNotWhole", Severity::Note), None);
    /// ```
    pub fn severity_of(&self, code: &str, severity: Severity) -> Option<Severity>
        ensures { result ≡ counts_as (weighing self.now) code.now severity }
    {
        counted(
            weight_in(self.codes.as_slice(), code),
            self.of_group(severity),
        )
    }

    /// How much a finding of a severity counts where nothing is asked of its code.
    fn of_group(&self, severity: Severity) -> Option<Severity>
        ensures { result ≡ counted_by_group (weighing self.now) severity }
    {
        match severity {
            Severity::Error => Some(Severity::Error),
            Severity::Warning => counted(self.warnings, Some(Severity::Warning)),
            Severity::Note if self.notes => Some(Severity::Note),
            Severity::Note => None,
        }
    }
}

/// What is asked of a code, if something is.
fn weight_in(codes: &[CodeWeight], code: &str) -> Option<Weight>
    ensures { result ≡ weight_in (map code_weight codes.now) code.now }
{
    let [first, rest @ ..] = codes else {
        return None;
    };
    if first.code.as_str() == code {
        return Some(first.weight);
    }
    weight_in(rest, code)
}

/// How much a finding counts where that is asked of it, and else.
fn counted(weight: Option<Weight>, otherwise: Option<Severity>) -> Option<Severity>
    ensures { result ≡ counted weight otherwise }
{
    match weight {
        Some(Weight::Deny) => Some(Severity::Error),
        Some(Weight::Allow) => None,
        None => otherwise,
    }
}
