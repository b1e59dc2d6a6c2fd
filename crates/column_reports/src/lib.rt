//! What is said of a column of a schema, as one value: [`report_column`] makes it of what
//! `inspect_column` and `warnings` of `column_check` answer, [`json_line`] writes it as a line of JSON,
//! and [`Summary`] keeps what counts of it for the status.
//! The report of a file, [`FileReport`], is made by one call, [`report_of`]: its columns, what is found
//! of the file, and what counts for the status; [`json_lines`] writes it. All that is found, of a column
//! or of a file, is a [`Finding`], which [`finding_line`] writes as JSON and [`finding_words`] in words;
//! [`Weights`] say which findings are shown, and how much each counts.
#![tactic(auto)]

mod asked;
mod bad_lines;
mod beside;
mod by_column;
mod bytes;
mod capped;
mod claims;
mod code;
mod fact_members;
mod fault;
mod file;
mod finding;
mod finding_json;
mod gathered;
mod geo;
mod line;
mod lines;
mod named;
mod put;
mod report;
mod said;
mod sentence;
mod shown_lines;
mod summary;
mod weighed;
mod weights;
mod words;

pub use asked::{AskedCode, AskedFinding};
pub use bad_lines::bad_line_lines;
pub use capped::{all_findings_count, few_findings_stay};
pub use code::Code;
pub use fault::{fault_line, fault_words};
pub use file::{FileReport, report_file, report_of, weighed_report};
pub use finding::Finding;
pub use finding_json::finding_line;
pub use line::json_line;
pub use lines::json_lines;
pub use named::NamedBy;
pub use parquet_columns::report_budget;
pub use report::{ColumnReport, Options, report_column, weighed_column};
pub use sentence::finding_words;
pub use shown_lines::finding_lines;
pub use summary::Summary;
pub use weighed::Weighed;
pub use weights::{CodeWeight, Weight, Weights};
pub use words::type_word;
