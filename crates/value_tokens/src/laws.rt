//! The law of `==`.
ghost use Rattle.std.specs.Prelude.{◌≡◌, ◌↔◌, IsTrue};

use crate::refusal::Refusal;

/// A law: `==` returns true for two refusals exactly if they are the same.
pub fn refusal_equality_is_exact(one: Refusal, other: Refusal) -> bool
    ensures { IsTrue result ↔ (one ≡ other) }
{
    one == other
}
