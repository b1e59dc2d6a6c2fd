//! Laws of `==`: it returns true for two values exactly if they are the same.
ghost use Rattle.std.specs.Prelude.{◌≡◌, ◌↔◌, IsTrue};

use crate::coordinates::Dimensions;
use crate::error::AppendFault;
use crate::tree::{FixedName, UnionMode};

/// A law: `==` returns true for two dimensions exactly if variant and number are the same.
pub fn dimensions_equality_is_exact(one: Dimensions, other: Dimensions) -> bool
    ensures { IsTrue result ↔ (one ≡ other) }
{
    one == other
}

/// A law: `==` returns true for two faults of a union exactly if variant and type id are the same.
pub fn append_fault_equality_is_exact(one: AppendFault, other: AppendFault) -> bool
    ensures { IsTrue result ↔ (one ≡ other) }
{
    one == other
}

/// A law: `==` returns true for two modes of a union exactly if they are the same.
pub fn union_mode_equality_is_exact(one: UnionMode, other: UnionMode) -> bool
    ensures { IsTrue result ↔ (one ≡ other) }
{
    one == other
}

/// A law: `==` returns true for two names of a layout exactly if they are the same.
pub fn fixed_name_equality_is_exact(one: FixedName, other: FixedName) -> bool
    ensures { IsTrue result ↔ (one ≡ other) }
{
    one == other
}
