//! The column that stands for an element that breaks a rule.
ghost use Rattle.std.specs.Prelude.{◌≡◌, IfOk};
ghost use Rattle.arrow_columns.specs.Column.{type_tree, column_tree};
ghost use Rattle.parquet_columns.specs.Unreadable.{unreadable_column, is_unreadable};

use crate::nodes::plain_column;
use arrow_columns::{AnyType, SchemaColumn};
use std::alloc::{AllocError, Global};

/// The notation of its type.
const UNREADABLE: &str = "unreadable";

/// The column of a name that stands for an element that breaks a rule. Errs only when out of
/// memory.
pub(crate) fn unreadable_column(alloc: Global, name: &[u8]) -> Result<SchemaColumn, AllocError>
    ensures { IfOk result (λ made. column_tree made ≡ unreadable_column name.now) }
{
    let text = String::from_str(alloc, UNREADABLE)?;
    plain_column(alloc, name, true, AnyType::leaf(alloc, text))
}

/// Returns whether a type is that of a column with an element that breaks a rule, which is not read
/// (`docs/FORMAT.md`, 4.4).
pub fn is_unreadable(any: &AnyType) -> bool
    ensures { result ≡ is_unreadable (type_tree any.now) }
{
    match any {
        AnyType::Data(_) => false,
        AnyType::Other(other) => other.notation.as_str() == UNREADABLE,
    }
}
