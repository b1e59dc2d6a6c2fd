//! The columns that wait.
ghost use Rattle.std.specs.Prelude.{◌≡◌, length};

use arrow_columns::SchemaColumn;

/// The columns that wait for the structure in which they lie, and the level of each.
#[derive(Drop)]
pub(crate) struct Waiting {
    /// The columns.
    pub columns: Vec<SchemaColumn>,
    /// As many levels.
    pub levels: Vec<u32>,
    ghost same: { length columns.items ≡ length levels.items },
}
