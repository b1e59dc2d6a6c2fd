//! The footer of a Parquet file: a `FileMetaData` in Thrift's compact protocol, of which the schema and the
//! key-value metadata are read, and all else is passed over.
#![tactic(auto)]

mod code;
mod element;
mod equality_laws;
mod fault;
mod fields;
mod finding;
mod footer;
mod logical;
mod skip;
mod text;
mod wire;

pub use code::{FooterCode, Severity};
pub use element::{PhysicalType, Repetition, SchemaElement};
pub use equality_laws::{
    algorithm_equality_is_exact, footer_code_equality_is_exact, footer_error_equality_is_exact,
    physical_type_equality_is_exact, repetition_equality_is_exact, rule_equality_is_exact,
    severity_equality_is_exact, time_unit_equality_is_exact,
};
pub use fault::{FooterError, FooterRule};
pub use finding::FooterFinding;
pub use footer::{Footer, KeyValue, footer_length, read_footer};
pub use logical::{Algorithm, LogicalType, TimeUnit};
pub use skip::LEVELS;
pub use text::FooterText;
