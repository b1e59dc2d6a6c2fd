//! A report over the columns of a schema: what each holds.
#![tactic(auto)]

mod check;
pub mod laws;

pub use check::{Column, ColumnFault, check_column, check_columns};
