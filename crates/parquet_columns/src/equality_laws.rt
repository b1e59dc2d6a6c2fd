//! Laws of `==`: it returns true for two values exactly if they are the same.
ghost use Rattle.std.specs.Prelude.{◌≡◌, ◌↔◌, IsTrue};

use crate::code::FileCode;
use crate::fault::{ColumnsError, SchemaRule};
use crate::finding::FilePlace;

/// A law: `==` returns true for two rules exactly if they are the same.
pub fn rule_equality_is_exact(one: SchemaRule, other: SchemaRule) -> bool
    ensures { IsTrue result ↔ (one ≡ other) }
{
    one == other
}

/// A law: `==` returns true for two errors exactly if they are the same, with rule and element.
pub fn columns_error_equality_is_exact(one: ColumnsError, other: ColumnsError) -> bool
    ensures { IsTrue result ↔ (one ≡ other) }
{
    one == other
}

/// A law: `==` returns true for two codes exactly if they are the same.
pub fn file_code_equality_is_exact(one: FileCode, other: FileCode) -> bool
    ensures { IsTrue result ↔ (one ≡ other) }
{
    one == other
}

/// A law: `==` returns true for two places exactly if they are the same, with part and byte.
pub fn file_place_equality_is_exact(one: FilePlace, other: FilePlace) -> bool
    ensures { IsTrue result ↔ (one ≡ other) }
{
    one == other
}
