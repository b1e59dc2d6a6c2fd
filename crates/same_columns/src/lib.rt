//! In what the columns of two files differ, by their reports: [`differences`] compares the columns
//! of one name, the first with the first, the second with the second, whatever their order among
//! others; by their types, their encodings, their edges and their CRSs (docs/FORMAT.md, 2.9). Those
//! that are shown are findings, which [`unlike_columns`] makes and [`unlike_lines`] writes as lines of
//! JSON; [`same_files`] gives the lines by the bytes of two files.
#![tactic(auto)]

mod aspects;
mod code;
mod compare;
mod crs;
mod difference;
mod facts;
mod files;
mod laws;
mod lines;
mod ranks;
mod unlike;

pub use code::SameCode;
pub use compare::differences;
pub use crs::is_of_crs;
pub use difference::{Aspect, Difference};
pub use facts::{edges_word, encoding_word};
pub use files::{SameFault, same_files};
pub use laws::{differences_are_exchanged, nothing_differs_from_itself};
pub use lines::unlike_lines;
pub use unlike::{Unlike, Words, unlike_columns};
