//! A column that is lent: that of a schema, or a field.
ghost use Rattle.std.specs.Prelude.{◌≡◌};
ghost use Rattle.arrow_columns.specs.Column.{column_of};
ghost use Rattle.record_writer.specs.Placed.{at};
ghost use Rattle.record_writer.specs.Views.{placed_in};

use arrow_values::{DataType, Field};
use std::collections::BTreeMap;

/// The type of a column that is lent.
#[derive(Clone, Copy)]
pub(crate) enum PartType<'a> {
    /// One of the 26 data types.
    Data(&'a DataType),
    /// One of which nothing is known but this notation.
    Leaf(&'a str),
}

/// A column, and in how many structures it lies.
#[derive(Clone, Copy)]
pub(crate) struct Part<'a> {
    /// The name.
    pub name: &'a str,
    /// The type.
    pub data_type: PartType<'a>,
    /// Whether values may be null.
    pub nullable: bool,
    /// The metadata.
    pub metadata: &'a BTreeMap<String, String>,
    /// In how many structures it lies.
    pub level: u32,
}

/// Returns a field as a column of a level.
pub(crate) fn part_of(field: &Field, level: u32) -> Part<'_>
    ensures { placed_in result ≡ at level (column_of field.now) }
{
    Part {
        name: field.name(),
        data_type: PartType::Data(field.data_type()),
        nullable: field.is_nullable(),
        metadata: field.metadata(),
        level,
    }
}
