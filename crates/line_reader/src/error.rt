//! Why a line of a source is not held.

use std::alloc::AllocError;
use std::io;

/// Why the next line of a source is not held.
#[derive(Debug, Drop)]
pub enum LineError {
    /// The source cannot be read.
    Input(io::Error),
    /// So many lines are passed, and the next has more than [`crate::MAX_LINE_BYTES`] bytes.
    LongLine(usize),
    /// Out of memory.
    OutOfMemory,
}

impl From<AllocError> for LineError {
    ghost use Rattle.std.specs.Prelude.{◌≡◌};
    ghost use Rattle.line_reader.specs.declared.error.LineError.TheVariants.{OutOfMemory};

    ghost from_gives = { λ _ error. error ≡ OutOfMemory };

    fn from(_refused: AllocError) -> LineError {
        LineError::OutOfMemory
    }
}
