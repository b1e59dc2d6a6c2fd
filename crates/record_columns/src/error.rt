//! Why columns are not read.
ghost use Rattle.std.specs.Prelude.{◌≡◌};
ghost use Rattle.record_wire.specs.Fault.{broken};
ghost use Rattle.record_columns.specs.declared.error.Refusal.TheVariants as refusals;
ghost use Rattle.record_columns.specs.declared.error.RecordsError.TheVariants as errors;
ghost use Rattle.record_columns.specs.Errors.{refused};

use record_wire::{Fault, Rule, broken};
use std::alloc::{AllocError, AllocFailed};

/// Why a structure becomes no column.
#[derive(Clone, Copy, Debug, PartialEq, Eq)]
pub(crate) enum Refusal {
    /// It breaks a rule.
    Rule(Rule),
    /// Out of memory.
    OutOfMemory,
}

impl From<Rule> for Refusal {
    ghost from_gives = { λ rule e. e ≡ refusals.Rule rule };

    fn from(rule: Rule) -> Refusal {
        Refusal::Rule(rule)
    }
}

impl From<AllocError> for Refusal {
    ghost from_gives = { λ _ e. e ≡ refusals.OutOfMemory };

    fn from(_refused: AllocError) -> Refusal {
        Refusal::OutOfMemory
    }
}

impl<T: Drop> From<AllocFailed<T>> for Refusal {
    ghost from_gives = { λ _ e. e ≡ refusals.OutOfMemory };

    fn from(_refused: AllocFailed<T>) -> Refusal {
        Refusal::OutOfMemory
    }
}

/// Why no columns are read.
#[derive(Clone, Copy, Debug, PartialEq, Eq)]
pub enum RecordsError {
    /// The bytes break a rule.
    Fault(Fault),
    /// Out of memory.
    OutOfMemory,
}

impl From<Fault> for RecordsError {
    ghost from_gives = { λ fault e. e ≡ errors.Fault fault };

    fn from(fault: Fault) -> RecordsError {
        RecordsError::Fault(fault)
    }
}

impl From<AllocError> for RecordsError {
    ghost from_gives = { λ _ e. e ≡ errors.OutOfMemory };

    fn from(_refused: AllocError) -> RecordsError {
        RecordsError::OutOfMemory
    }
}

impl<T: Drop> From<AllocFailed<T>> for RecordsError {
    ghost from_gives = { λ _ e. e ≡ errors.OutOfMemory };

    fn from(_refused: AllocFailed<T>) -> RecordsError {
        RecordsError::OutOfMemory
    }
}

/// Returns why no columns are read, where the record at the front of the bytes is refused.
pub(crate) fn refused(refusal: Refusal, bytes: &[u8]) -> RecordsError
    ensures { result ≡ refused refusal bytes.now }
{
    match refusal {
        Refusal::Rule(rule) => RecordsError::Fault(broken(rule, bytes)),
        Refusal::OutOfMemory => RecordsError::OutOfMemory,
    }
}
