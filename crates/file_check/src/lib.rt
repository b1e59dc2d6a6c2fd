//! The report of a file as people and programs are given it: [`check_source`] and [`check_file`] print
//! what its columns hold, as lines of JSON or as a table, or what is found of it, as commands of a
//! workflow, say why it is refused or what is asked of it and not met, and return the status;
//! [`check_bytes`] does so of bytes. Beside them the words: of columns as rows and as their table, of
//! findings.
#![tactic(auto)]

mod asked;
mod canonical;
mod cell;
mod check;
mod columns;
mod counted;
mod crs;
mod findings;
mod github;
mod lines;
mod names;
mod numbers;
mod object;
mod print;
mod refusal;
mod rules;
mod said;
mod same;
mod sarif;
mod schema;
mod screen;
mod summary;
mod table;
mod text;
mod told;
mod unmet;
mod wants;

pub use asked::{Asked, Flags, Format, Output, Screen, Want};
pub use cell::cut;
pub use check::{Answer, check_bytes, check_file, check_source};
pub use columns::row_of;
pub use crs::crs_name;
pub use findings::findings_text;
pub use numbers::{Numbers, Tally};
pub use refusal::refuse;
pub use rules::{NOT_SAME, REFUSALS, Rule};
pub use same::compare_columns;
pub use summary::{begin_output, end_file, end_output, summary_line};
pub use table::{Row, table_text};
pub use text::shown;
