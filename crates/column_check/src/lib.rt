//! What each column of a schema holds, with the reasons where it is invalid, whatever its coordinate reference system is.
//!
//! `geoarrow_columns` reports what `from_extension_field` answers; this report keeps every CRS, says what is wrong and where, and
//! has no error but out of memory. The contract of [`inspect_column`] is the relation `IsFinding` between the column and what is said of it.
//! [`warnings`] says what is found of a column: the reasons for which it is invalid, if it is, and what is doubtful of it.
#![tactic(auto)]

mod along;
mod check;
mod code;
mod coordinates;
mod crs;
mod data_type;
mod excerpt;
mod finding;
mod geometry_names;
mod key_case;
pub mod laws;
mod layout;
mod malformed;
mod meant;
mod metadata;
mod not_whole;
mod numbers;
mod old_names;
mod place;
mod reasons;
mod said;
mod severity;
mod walk;
mod warning;
mod way;

pub use check::{inspect_column, inspect_columns};
pub use code::{Severity, WarningCode};
pub use data_type::{TypeFault, kind_under};
pub use excerpt::{shown, shown_value};
pub use finding::{Finding, Geometry, Reasons};
pub use metadata::{ColumnMetadata, MetadataFault, read_metadata};
pub use place::{item_place, member_place};
pub use warning::{Warning, warnings};
