//! Why columns are not written.
ghost use Rattle.std.specs.Prelude.{◌≡◌};
ghost use Rattle.record_writer.specs.declared.error.Refusal.TheVariants as refusals;
ghost use Rattle.record_writer.specs.Refusals.{refusal_of, with_index};

use record_wire::WriteError as WireError;
use std::alloc::AllocError;

/// Why a column is not written.
#[derive(Clone, Copy, Debug, PartialEq, Eq)]
pub(crate) enum Refusal {
    /// A type has no format string.
    Format,
    /// A name has a NUL.
    Nul,
    /// A structure lies in more than 61.
    TooDeep,
    /// There are too many structures, or they take too many bytes.
    TooLarge,
    /// Out of memory.
    OutOfMemory,
}

impl From<AllocError> for Refusal {
    ghost from_gives = { λ _ e. e ≡ refusals.OutOfMemory };

    fn from(_refused: AllocError) -> Refusal {
        Refusal::OutOfMemory
    }
}

impl From<WireError> for Refusal {
    ghost from_gives = { λ error e. e ≡ refusal_of error };

    fn from(error: WireError) -> Refusal {
        refusal_of(error)
    }
}

/// Returns why a column is not written, of which records are refused.
pub(crate) fn refusal_of(error: WireError) -> Refusal
    ensures { result ≡ refusal_of error }
{
    match error {
        WireError::Nul => Refusal::Nul,
        WireError::TooLarge => Refusal::TooLarge,
        WireError::TooDeep => Refusal::TooDeep,
        WireError::OutOfMemory => Refusal::OutOfMemory,
    }
}

/// Why a schema, or a column, is not written.
#[derive(Clone, Copy, Debug, PartialEq, Eq)]
pub enum WriteError {
    /// The type of the column with that index, or of one that lies in it, has no format string: it
    /// is a list of negative size, a union whose type ids are not 0 to 127, each once, or none of
    /// the 26 data types, and more is known of it than a notation, or that is not one of a kind
    /// which a format string says, or has a time zone with a NUL.
    Column(usize),
    /// A name in the column with that index has a NUL, at which it would end.
    Nul(usize),
    /// In the column with that index structures are nested more than 61 levels deep.
    TooDeep(usize),
    /// They would take more than 2^28 bytes, or be more than 4,000,000 structures.
    TooLarge,
    /// Out of memory.
    OutOfMemory,
}

/// Returns why columns are not written, of which the one with that index is refused.
pub(crate) fn with_index(refusal: Refusal, index: usize) -> WriteError
    ensures { result ≡ with_index refusal index }
{
    match refusal {
        Refusal::Format => WriteError::Column(index),
        Refusal::Nul => WriteError::Nul(index),
        Refusal::TooDeep => WriteError::TooDeep(index),
        Refusal::TooLarge => WriteError::TooLarge,
        Refusal::OutOfMemory => WriteError::OutOfMemory,
    }
}
