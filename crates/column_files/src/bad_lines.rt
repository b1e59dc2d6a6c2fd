//! The lines of a file that denote no column.
ghost use Rattle.std.specs.Prelude.{◌≡◌, [], ◌∷◌, ◌++◌, ◌≢◌, List, MatchBool, OnOk};
ghost use Rattle.column_files.specs.LineItems.{AreKept};
ghost use Rattle.column_files.specs.declared.bad_lines.BadLine.{BadLine};

use crate::line::LineFault;
use std::alloc::{AllocError, Global};

/// How many bad lines of a file are kept at most.
pub const MAX_BAD_LINES: usize = 100;

/// A line that is not blank and denotes no column (docs/FORMAT.md, 2.7).
#[derive(Debug, Clone, Copy, PartialEq, Eq)]
pub struct BadLine {
    /// How many lines stand before it, blank ones too.
    pub before: usize,
    /// Why it denotes no column.
    pub fault: LineFault,
}

/// The bad lines of a file: the first of them, and how many more there are.
#[derive(Debug, Drop)]
pub struct BadLines {
    /// The first of them, at most [`MAX_BAD_LINES`], in order.
    pub first: Vec<BadLine>,
    /// How many more there are, which stops at `usize::MAX`.
    pub more: usize,
}

impl BadLines {
    /// Returns no bad lines. Allocates nothing.
    pub fn new(alloc: Global) -> BadLines
        ensures { AreKept [] result }
    {
        BadLines {
            first: Vec::new(alloc),
            more: 0,
        }
    }

    /// Adds the next bad line of a file, which is only counted where [`MAX_BAD_LINES`] are kept.
    /// Errs only when out of memory.
    ///
    /// ```rust
    /// let mut bad_lines = BadLines::new(alloc);
    /// bad_lines.add(BadLine { before: 3, fault: LineFault::Name })?;
    /// assert_eq!(rt; bad_lines.first.len(), 1);
    /// assert_eq!(rt; bad_lines.more, 0);
    /// ```
    pub fn add(&mut self, line: BadLine) -> Result<(), AllocError>
        ensures { (bad : List BadLine) → AreKept bad self.old → OnOk result (AreKept (bad ++ line ∷ []) self.new) }
    {
        if self.first.len() < MAX_BAD_LINES {
            self.first.push(line)?;
        } else {
            self.more = self.more.saturating_add(1);
        }
        Ok(())
    }

    /// Whether there is none.
    pub fn is_empty(&self) -> bool
        ensures { MatchBool result (self.now.first.items ≡ []) (self.now.first.items ≢ []) }
    {
        self.first.is_empty()
    }
}
