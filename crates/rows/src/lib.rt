//! Rows: test vectors in files, which a program reads, answers and judges.
//!
//! A program of rows has a folder in its `data/` for each layer that it tests, and a module of that name, with the commands of the
//! layer, which are named for the calls. A row is a question and its answer, in two lines: a command, a space and a text; and then
//! the answer, whole.
//!
//! ```text
//! # What the rows of this file show.
//! = what the rows that follow have in common
//! parse_point Struct(a: Utf8, b: Utf8)
//! separated XY
//! ```
//!
//! `judging` says which of them says more of a row: what may stand before a question, and how a long text is spelled.
//!
//! Without an argument each row is answered, and the program prints for each file how many answers are right, before that each wrong
//! row, and last `N passed, M failed`, rows counted. With the argument `faults`, and over the library that `bin/faults` makes,
//! the rows that speak of memory are answered while requests for memory are refused (`faults`).
//!
//! A command says its answer to a text that remembers whether it was out of memory (`said`). So saying cannot fail. Nor can
//! reading what a row spells: where it spells nothing, or memory is out, the answer is lacking, and another value stands in the
//! place of what is spelled, which is not dropped. So a command has no early ends with values to drop, and there is less to prove.
#![tactic(auto)]

pub mod asked;
pub mod compared;
mod faults;
pub mod judging;
mod memory;
pub mod notation;
mod repeated;
mod running;
pub mod said;
pub mod texts;

pub use judging::Layers;
pub use running::judge_rows;
