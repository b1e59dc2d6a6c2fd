//! What counts of a file for the status.
ghost use Rattle.std.specs.Prelude.{◌≡◌, IfOk, string_bytes};
ghost use Rattle.std.specs.List.{list_any};
ghost use Rattle.file_check.specs.Wants.{is_unmet, IsFoundIn, AreFoundIn};
ghost use Rattle.file_check.specs.Counted.{misses, status_of};

use crate::asked::{Asked, Want};
use crate::numbers::Numbers;
use crate::wants::Found;
use column_reports::{ColumnReport, Summary};
use std::alloc::{AllocError, Global};

/// What counts of a file for the status: of its columns and findings, and what is found of each
/// expectation; and how many columns and findings there are.
#[derive(Debug, Drop)]
pub(crate) struct Counted {
    pub(crate) summary: Summary,
    pub(crate) found: Vec<Found>,
    pub(crate) numbers: Numbers,
}

impl Counted {
    /// Whether what is asked of the file is not met.
    fn is_unmet(&self, asked: &Asked) -> bool
        ensures { result ≡ misses asked.now.flags self.now }
    {
        is_one_unmet(self.found.as_slice())
            || (asked.flags.require_geometry && !self.summary.has_geometry)
    }

    /// The status of the file, where all of it is reported.
    pub(crate) fn status(&self, asked: &Asked) -> u8
        ensures { result ≡ status_of asked.now.flags self.now }
    {
        self.summary.status(self.is_unmet(asked))
    }
}

/// Whether one of some expectations is not met.
fn is_one_unmet(found: &[Found]) -> bool
    ensures { result ≡ list_any is_unmet found.now }
{
    found.iter().any(|found| found.is_unmet())
}

/// What is found of each expectation in columns.
pub(crate) fn found_in(
    alloc: Global,
    wants: &[Want],
    columns: &[ColumnReport],
) -> Result<Vec<Found>, AllocError>
    ensures { IfOk result (λ found. AreFoundIn wants.now columns.now found.items) }
{
    let mut found = Vec::new(alloc);
    for want in wants {
        found.push(found_of(alloc, want, columns)?)?;
    }
    Ok(found)
}

/// What is found of an expectation in columns.
fn found_of(alloc: Global, want: &Want, columns: &[ColumnReport]) -> Result<Found, AllocError>
    ensures { IfOk result (IsFoundIn (string_bytes want.now.column) (string_bytes want.now.want) columns.now) }
{
    let mut found = Found::NoColumn(None);
    for said in columns {
        found.look_at(alloc, want, said)?;
    }
    Ok(found)
}
