//! Columns by their names.
ghost use Rattle.std.specs.Prelude.{◌≡◌, IfOk, map, option_map};
ghost use Rattle.arrow_columns.specs.Column.{column_tree};
ghost use Rattle.arrow_columns.specs.declared.column.SchemaColumn.{SchemaColumn};
ghost use Rattle.arrow_columns.specs.Names.{first_of, is_one};

use crate::column::SchemaColumn;
use std::alloc::{AllocError, Global};
use std::collections::BTreeMap;
use std::marker::Model;

/// Columns, of which the first of a name is found in time that grows with the logarithm of their number.
///
/// ```rust
/// let column = SchemaColumn {
///     name: String::from_str(alloc, "geom")?,
///     nullable: true,
///     data_type: AnyType::Data(DataType::Binary),
///     metadata: BTreeMap::new(alloc),
/// };
/// let columns = vec![in alloc; column]?;
/// let names = ColumnNames::new(alloc, columns.as_slice())?;
/// assert!(rt; names.first("geom").is_some() && names.is_one("geom"));
/// assert!(rt; names.first("place").is_none() && !names.is_one("place"));
/// ```
#[derive(Drop)]
pub struct ColumnNames<'c> {
    columns: &'c [SchemaColumn],
    named: BTreeMap<String, (&'c SchemaColumn, bool)>,
}

impl<'c> Model for ColumnNames<'c> {
    ghost use Rattle.std.specs.Prelude.{List, map};
    ghost use Rattle.std.specs.Coded.{codes};
    ghost use Rattle.arrow_columns.specs.Column.{column_tree};
    ghost use Rattle.arrow_columns.specs.Names.{AreNamed};
    ghost use Rattle.arrow_columns.specs.declared.column.SchemaColumn.{SchemaColumn};
    ghost use Rattle.arrow_columns.specs.contracts.column.SchemaColumn as row;

    ghost coded = { Prim.hlevel (codes, row.the_row.coded) };

    ghost Value = { List SchemaColumn };

    ghost view = { λ r. r.columns.now };

    ghost invariant = { λ r. AreNamed (map column_tree r.columns.now) r.named };
}

impl<'c> ColumnNames<'c> {
    /// These columns. Errs only when out of memory.
    pub fn new(alloc: Global, columns: &'c [SchemaColumn]) -> Result<ColumnNames<'c>, AllocError>
        ensures { IfOk result (λ names. names ≡ columns.now) }
    {
        let mut named: BTreeMap<String, (&'c SchemaColumn, bool)> = BTreeMap::new(alloc);
        'columns: for column in columns {
            let name = column.name.as_str();
            let found = match named.get(name) {
                Some(first) => (first.0, false),
                None => (column, true),
            };
            drop(named.insert(String::from_str(alloc, name)?, found)?);
        }
        Ok(ColumnNames { columns, named })
    }

    /// The first column of that name, if one has it.
    pub fn first(&self, name: &str) -> Option<&'c SchemaColumn>
        ensures { option_map (λ c. column_tree c.now) result ≡ first_of (map column_tree self.now) name.now }
    {
        match self.named.get(name) {
            Some(found) => Some(found.0),
            None => None,
        }
    }

    /// Whether one column, and no other, has that name.
    pub fn is_one(&self, name: &str) -> bool
        ensures { result ≡ is_one (map column_tree self.now) name.now }
    {
        match self.named.get(name) {
            Some(found) => found.1,
            None => false,
        }
    }
}
