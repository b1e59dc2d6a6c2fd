//! Laws of columns that are read: functions with nothing to run, whose contract is the law.
ghost use Rattle.std.specs.Prelude.{List, ℕ};
ghost use Rattle.record_wire.specs.Trees.{whole_at};
ghost use Rattle.record_columns.specs.Columns.{column_of, columns_of, columns_at, column_at};
ghost use Rattle.record_columns.specs.Columns.{IsMadeOf};

/// Says that what is read is made of the whole tree, as `record_wire` defines it, in which each
/// structure becomes a column. There is nothing to run.
pub fn whole_tree_is_read()
    ensures columns { (bytes : List ℕ)
        → IsMadeOf columns_of (whole_at column_of bytes) (columns_at bytes) }
    ensures column { (bytes : List ℕ)
        → IsMadeOf column_of (whole_at column_of bytes) (column_at bytes) }
{}
