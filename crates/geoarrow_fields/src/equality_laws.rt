//! Laws of `==`: it returns true for two values exactly if they are the same.
ghost use Rattle.std.specs.Prelude.{◌≡◌, ◌↔◌, IsTrue};

use crate::{Command, RunEnd};

/// A law: `==` returns true for two commands exactly if they are the same.
pub fn command_equality_is_exact(one: Command, other: Command) -> bool
    ensures { IsTrue result ↔ (one ≡ other) }
{
    one == other
}

/// A law: `==` returns true for two ends of a run exactly if they are the same.
pub fn run_end_equality_is_exact(one: RunEnd, other: RunEnd) -> bool
    ensures { IsTrue result ↔ (one ≡ other) }
{
    one == other
}
