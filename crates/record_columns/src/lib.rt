//! Columns from the records of Arrow's C data interface: what the structures of a schema mean, as
//! the lines of the schema and its stream mean it (`docs/FORMAT.md`, 6).
#![tactic(auto)]

mod column;
mod columns;
mod error;
pub mod laws;
mod schema;
mod texts;
mod types;
mod waiting;

pub use columns::{read_column, read_columns};
pub use error::RecordsError;
pub use schema::{RecordSchema, is_schema, read_schema};
