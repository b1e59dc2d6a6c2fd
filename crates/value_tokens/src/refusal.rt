//! Why no value is taken.
ghost use Rattle.std.specs.Prelude.{◌≡◌};
ghost use Rattle.value_tokens.specs.declared.refusal.Refusal.TheVariants.{Text, Memory};

use json::Invalid;
use std::alloc::{AllocError, AllocFailed};

/// Why no value is taken.
#[derive(Debug, Clone, Copy, PartialEq, Eq)]
pub enum Refusal {
    /// The text is no JSON there, or nests deeper than it may.
    Text,
    /// Out of memory.
    Memory,
}

impl From<AllocError> for Refusal {
    ghost from_gives = { λ _ refusal. refusal ≡ Memory };

    fn from(_refused: AllocError) -> Refusal {
        Refusal::Memory
    }
}

impl<T: Drop> From<AllocFailed<T>> for Refusal {
    ghost from_gives = { λ _ refusal. refusal ≡ Memory };

    fn from(_refused: AllocFailed<T>) -> Refusal {
        Refusal::Memory
    }
}

impl From<Invalid> for Refusal {
    ghost from_gives = { λ _ refusal. refusal ≡ Text };

    fn from(_invalid: Invalid) -> Refusal {
        Refusal::Text
    }
}
