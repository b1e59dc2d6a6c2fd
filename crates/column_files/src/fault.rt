//! Why the columns of a source are not read.

use crate::columns::FileFault;
use line_reader::LineError;
use std::alloc::AllocError;
use std::io;

/// Why the columns of a source are not read to its end.
#[derive(Debug, Drop)]
pub enum ReadFault {
    /// The source cannot be read.
    Input(io::Error),
    /// So many lines denote columns, and the next has more than [`crate::MAX_LINE_BYTES`] bytes.
    LongLine(usize),
    /// What was read denotes no columns; or out of memory.
    File(FileFault),
}

impl From<io::Error> for ReadFault {
    ghost use Rattle.std.specs.Prelude.{◌≡◌};
    ghost use Rattle.column_files.specs.declared.fault.ReadFault.TheVariants.{Input};

    ghost from_gives = { λ error fault. fault ≡ Input error };

    fn from(error: io::Error) -> ReadFault {
        ReadFault::Input(error)
    }
}

impl From<FileFault> for ReadFault {
    ghost use Rattle.std.specs.Prelude.{◌≡◌};
    ghost use Rattle.column_files.specs.declared.fault.ReadFault.TheVariants.{File};

    ghost from_gives = { λ error fault. fault ≡ File error };

    fn from(error: FileFault) -> ReadFault {
        ReadFault::File(error)
    }
}

impl From<AllocError> for ReadFault {
    ghost use Rattle.std.specs.Prelude.{◌≡◌};
    ghost use Rattle.column_files.specs.declared.columns.FileFault.TheVariants.{OutOfMemory};
    ghost use Rattle.column_files.specs.declared.fault.ReadFault.TheVariants.{File};

    ghost from_gives = { λ _ fault. fault ≡ File OutOfMemory };

    fn from(_refused: AllocError) -> ReadFault {
        ReadFault::File(FileFault::OutOfMemory)
    }
}

impl From<LineError> for ReadFault {
    ghost use Rattle.std.specs.Prelude.{◌≡◌};
    ghost use Rattle.column_files.specs.Faults.{read_fault};

    ghost from_gives = { λ error fault. fault ≡ read_fault error };

    fn from(error: LineError) -> ReadFault {
        match error {
            LineError::Input(error) => ReadFault::Input(error),
            LineError::LongLine(before) => ReadFault::LongLine(before),
            LineError::OutOfMemory => ReadFault::File(FileFault::OutOfMemory),
        }
    }
}
