//! Which bytes of the begin and of the end of a file are wanted for its report.
//!
//! [`wanted_ranges`] is asked until what is wanted is given: then what is read of these bytes is
//! what is read of the whole file.
#![tactic(auto)]

mod footer;
pub mod laws;
mod ranges;
mod stream;

pub use ranges::{Ranges, wanted_ranges};
