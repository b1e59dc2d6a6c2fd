//! Columns of geometries that are made: of a kind, a CRS as it is written, its type and edges.
//!
//! [`make_column`] makes the column that `inspect_column` of `column_check` reads as exactly these,
//! as the laws say. A CRS is taken as it is, with numbers of any form.
#![tactic(auto)]

mod error;
pub mod laws;
mod make;
mod new_column;
mod told;

pub use error::MakeError;
pub use make::make_column;
pub use new_column::NewColumn;
pub use told::told_crs_type;
