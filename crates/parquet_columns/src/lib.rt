//! The columns of a Parquet file: of the schema that Arrow's libraries store in its footer, or where they stored none of the elements of its own schema
//! ([`columns_of`]); with the extensions that its geometry types denote.
#![tactic(auto)]

mod annotation;
mod budget;
mod claim;
mod code;
mod columns;
mod elements;
mod entries;
mod equality_laws;
mod error;
mod excerpt;
mod fault;
mod file;
mod finding;
mod fits;
mod footer;
mod geo_keys;
mod geo_names;
mod geometry;
mod invalid;
mod keys;
mod layouts;
mod leaf;
mod levels;
mod marks;
mod meaning;
mod nodes;
mod places;
mod repeated;
mod reserved;
mod resolved;
mod storage;
mod stored;
mod type_names;
mod unreadable;
mod values;
mod ways;

pub use budget::{TOO_LARGE, WITHIN_BUDGET, report_budget};
pub use claim::ElementClaim;
pub use code::{FileCode, FilePart};
pub use columns::{ColumnFault, ElementColumns, NESTING_LIMIT, columns_of};
pub use entries::repeated_entries;
pub use equality_laws::{
    columns_error_equality_is_exact, file_code_equality_is_exact, file_place_equality_is_exact,
    rule_equality_is_exact,
};
pub use error::SchemaError;
pub use excerpt::shown;
pub use fault::{ColumnsError, ElementFault, SchemaRule};
pub use file::{FileColumns, footer_in, read_file};
pub use finding::{FileFinding, FilePlace};
pub use footer::{FooterColumns, columns_of_footer};
pub use geo_names::covers;
pub use geometry::EdgesClaim;
pub use keys::{ARROW_SCHEMA_KEY, GEO_KEY, value_of, value_or_empty};
pub use layouts::{ElementLayout, RootElement};
pub use repeated::values_text;
pub use reserved::is_reserved;
pub use unreadable::is_unreadable;
