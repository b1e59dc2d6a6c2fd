//! Findings that are shown, with how much each counts.
ghost use Rattle.std.specs.Prelude.{◌≡◌, ◌++◌, IfOk, OnOk};
ghost use Rattle.column_reports.specs.Weighed.{weighed_one, weighed, is_error};
ghost use Rattle.column_reports.specs.Weights.{weighing};

use crate::finding::Finding;
use crate::weights::Weights;
use column_check::Severity;
use std::alloc::{AllocError, Global};

/// A finding that is shown, and how much it counts.
#[derive(Debug, Drop)]
pub struct Weighed<'a> {
    /// How much it counts: as its code weighs, or as an error where it is denied.
    pub severity: Severity,
    /// How many more it stands for, which are not told one by one.
    pub more: usize,
    /// What is found.
    pub finding: Finding<'a>,
}

impl<'a> Weighed<'a> {
    /// Returns whether the finding counts as an error.
    pub fn is_error(&self) -> bool
        ensures { result ≡ is_error self.now }
    {
        self.severity.is_error()
    }
}

/// Returns those of findings that are shown, in their order, with how much each counts. Errs only when
/// out of memory.
pub(crate) fn weigh<'a>(
    alloc: Global,
    weights: &Weights,
    findings: Vec<Finding<'a>>,
) -> Result<Vec<Weighed<'a>>, AllocError>
    ensures { IfOk result (λ all. all.items ≡ weighed (weighing weights.now) findings.entry.items) }
{
    let mut all = Vec::new(alloc);
    for finding in findings {
        add_weighed(&mut all, weights, finding)?;
    }
    Ok(all)
}

/// Adds a finding, if it is shown.
fn add_weighed<'a>(
    all: &mut Vec<Weighed<'a>>,
    weights: &Weights,
    finding: Finding<'a>,
) -> Result<(), AllocError>
    ensures { OnOk result (all.new.items ≡ all.old.items ++ weighed_one (weighing weights.now) finding.entry) }
{
    let code = finding.code();
    if let Some(severity) = weights.severity_of(code.word(), code.severity()) {
        let more = finding.more();
        all.push(Weighed {
            severity,
            more,
            finding,
        })?;
    }
    Ok(())
}
