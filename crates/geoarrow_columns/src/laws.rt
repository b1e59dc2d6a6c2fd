//! Laws of `==`: it returns true for two values exactly if they are the same.
ghost use Rattle.std.specs.Prelude.{◌≡◌, ◌↔◌, IsTrue};
ghost use Rattle.geoarrow_columns.specs.Same.{SameColumn};

use crate::check::{Column, ColumnFault};
use geoarrow_schema::laws::type_test_is_exact;

/// A law: `==` returns true for two columns exactly if the variant is the same, and its fault or its type's kind and metadata.
#[tactic(auto, using(crate::proofs::Equality::column_test))]
pub fn equality_is_exact(one: &Column, other: &Column) -> bool
    ensures { IsTrue result ↔ SameColumn one.now other.now }
{
    type_test_is_exact();
    *one == *other
}

/// A law: `==` returns true for two faults of a column exactly if they are the same.
pub fn fault_equality_is_exact(one: ColumnFault, other: ColumnFault) -> bool
    ensures { IsTrue result ↔ (one ≡ other) }
{
    one == other
}
