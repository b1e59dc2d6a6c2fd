//! Examples of how to use the crates: small callers, each with a contract that a user would want, and an extension type of one's
//! own; proved only from the public contracts of the crates below. Its tests are those of the repository in code.
#![tactic(auto)]

mod checker;
mod comparison;
mod conversion;
mod crs_text;
mod joiner;
mod own_extension_type;
mod planner;
mod reader;
#[cfg(test)]
mod tests;
mod writer;

pub use checker::{Survey, survey_columns};
pub use comparison::are_written_alike;
pub use conversion::any_type;
pub use crs_text::projjson_text;
pub use joiner::join_unions;
pub use own_extension_type::Marked;
pub use planner::keep_wanted;
pub use reader::column_kind;
pub use writer::write_column;
