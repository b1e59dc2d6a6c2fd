//! The answers of the programs as calls of C: each takes bytes as a pointer and a length, and
//! writes to the caller's buffer. The header `include/geoarrow.h` declares them, and says what a
//! caller owes; but for those of a schema, which `native/schema.c` calls with the records of a tree
//! of structures, and which no other object sees.
#![tactic(auto)]

mod answers;
mod buffer;
mod canonical;
mod file_lines;
mod lines_of_schemas;
mod made_lines;
mod place;
mod ranges;
mod records;
mod records_of_lines;
mod refusal;
mod report;
mod rule_of_schemas;
mod same;
mod schema;
mod schema_reports;
mod schema_streams;
mod status;
mod walk;

pub use answers::{geoarrow_answer, geoarrow_run};
pub use canonical::geoarrow_canonical;
pub use file_lines::geoarrow_lines;
pub use lines_of_schemas::{field_lines, schema_lines};
pub use made_lines::geoarrow_make;
pub use ranges::geoarrow_wanted;
pub use records_of_lines::schema_records;
pub use report::geoarrow_report;
pub use rule_of_schemas::schema_rule;
pub use same::geoarrow_same;
pub use schema::geoarrow_write_schema;
pub use schema_reports::{field_report, schema_report};
pub use schema_streams::schema_stream;
pub use status::geoarrow_version;
