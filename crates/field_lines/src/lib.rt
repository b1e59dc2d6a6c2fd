//! The line format: a field of Arrow as one line of JSON, and back.
//!
//! [`parse_line`] reads the field that a line denotes, and [`field_line`] writes the line of a field.
//! [`parse_line_with_scratch`] is cheaper for many lines.
//!
//! The format is this library's own; docs/FORMAT.md has its rules and a table of its words. `specs/Line` defines
//! what a line denotes: the field that its JSON value denotes (`specs/FieldOfValue`). It also defines the
//! value that is written for a field; by [`laws`] it is the only lean value (`specs/Lean`) that denotes
//! the field. No JSON value is made: a line is read by its tokens, and written as tokens.
#![tactic(auto)]

mod columns;
pub mod laws;
mod line;
mod metadata;
mod names;
mod notation;
mod parts;
mod printer;
mod scalars;
mod tokens;
mod unions;

pub use line::{field_line, other_line, parse_column, parse_line, parse_line_with_scratch};
