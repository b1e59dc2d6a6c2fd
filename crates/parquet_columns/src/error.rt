//! Why a file has no columns.
ghost use Rattle.std.specs.Prelude.{◌≡◌};
ghost use Rattle.parquet_columns.specs.SchemaFault.{error_of};
ghost use Rattle.parquet_columns.specs.Rules.{error_message, error_wanted};
ghost use Rattle.parquet_columns.specs.declared.error.SchemaError.TheVariants.{OutOfMemory};

use crate::budget::{TOO_LARGE, WITHIN_BUDGET};
use crate::fault::ElementFault;
use parquet_footer::FooterError;
use std::alloc::{AllocError, AllocFailed};

/// Why a Parquet file has no columns.
#[derive(Debug, Clone, Copy, PartialEq, Eq)]
pub enum SchemaError {
    /// The file has no footer that is read, with the rule and the offset in the footer.
    Footer(FooterError),
    /// The footer has no bytes, or is longer than what stands before its length.
    Length,
    /// The elements of the schema have no shape of a tree, with the element's index.
    Elements(ElementFault),
    /// The extension metadata that geometry types give the columns have more bytes than
    /// `report_budget` of the footer's bytes.
    Budget,
    /// Out of memory.
    OutOfMemory,
}

impl SchemaError {
    /// Returns what is wrong.
    pub fn message(self) -> &'static str
        ensures { result.now ≡ error_message self }
    {
        match self {
            SchemaError::Footer(error) => error.message(),
            SchemaError::Length => "a footer of no bytes, or of more than stand before its size",
            SchemaError::Elements(fault) => fault.rule.message(),
            SchemaError::Budget => TOO_LARGE,
            SchemaError::OutOfMemory => "out of memory",
        }
    }

    /// Returns what is asked.
    pub fn wanted(self) -> &'static str
        ensures { result.now ≡ error_wanted self }
    {
        match self {
            SchemaError::Footer(error) => error.wanted(),
            SchemaError::Length => "a footer before its size",
            SchemaError::Elements(fault) => fault.rule.wanted(),
            SchemaError::Budget => WITHIN_BUDGET,
            SchemaError::OutOfMemory => "more memory",
        }
    }
}

impl From<AllocError> for SchemaError {
    ghost from_gives = { λ _ e. e ≡ OutOfMemory };

    fn from(_refused: AllocError) -> SchemaError {
        SchemaError::OutOfMemory
    }
}

impl<T: Drop> From<AllocFailed<T>> for SchemaError {
    ghost from_gives = { λ _ e. e ≡ OutOfMemory };

    fn from(_refused: AllocFailed<T>) -> SchemaError {
        SchemaError::OutOfMemory
    }
}

/// The error of a footer that is not read.
pub(crate) fn error_of(error: FooterError) -> SchemaError
    ensures { result ≡ error_of error }
{
    match error {
        FooterError::NotParquet => SchemaError::Footer(FooterError::NotParquet),
        FooterError::Encrypted => SchemaError::Footer(FooterError::Encrypted),
        FooterError::Invalid(rule, offset) => SchemaError::Footer(FooterError::Invalid(
            rule, offset,
        )),
        FooterError::Memory => SchemaError::OutOfMemory,
    }
}
