//! Laws of `==`: it returns true for two values exactly if they are the same.
ghost use Rattle.std.specs.Prelude.{◌≡◌, ◌↔◌, IsTrue};

use crate::code::GeoCode;

/// A law: `==` returns true for two codes exactly if they are the same.
pub fn geo_code_equality_is_exact(one: GeoCode, other: GeoCode) -> bool
    ensures { IsTrue result ↔ (one ≡ other) }
{
    one == other
}
