//! The format strings of Arrow's C data interface, and the kinds of types that they say; of these
//! kinds the notations, too.
//!
//! A number in a format string is read only as it is written: in decimal, without a plus and
//! without zeros in front.
#![tactic(auto)]

pub mod laws;
mod notations;
mod numbers;
mod read;
mod words;
mod write;

pub use notations::read_notation;
pub use read::{Format, read_format};
pub use write::write_format;
