//! Why no column is made.
ghost use Rattle.std.specs.Prelude.{◌≡◌};
ghost use Rattle.field_makers.specs.declared.error.MakeError.TheVariants.{OutOfMemory};

use std::alloc::{AllocError, AllocFailed};

/// Why no column is made.
#[derive(Clone, Copy, Debug, PartialEq, Eq)]
pub enum MakeError {
    /// The text of the CRS, which is to be PROJJSON, is no object of JSON that nests at most 126
    /// levels, or has a number that is too large for a float of 64 bits, as `1e999`.
    NotProjjson,
    /// There is a CRS type, and no CRS.
    TypeWithoutCrs,
    /// Out of memory.
    OutOfMemory,
}

impl From<AllocError> for MakeError {
    ghost from_gives = { λ _ e. e ≡ OutOfMemory };

    fn from(_refused: AllocError) -> MakeError {
        MakeError::OutOfMemory
    }
}

impl<T: Drop> From<AllocFailed<T>> for MakeError {
    ghost from_gives = { λ _ e. e ≡ OutOfMemory };

    fn from(_refused: AllocFailed<T>) -> MakeError {
        MakeError::OutOfMemory
    }
}
