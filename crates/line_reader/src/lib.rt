//! The lines of a source, one after another, in the memory of one line; and bytes of a source, read
//! behind those that are held.
#![tactic(auto)]

mod buffer;
mod error;
mod source;

pub use buffer::{LineBuffer, MAX_LINE_BYTES};
pub use error::LineError;
pub use source::read_up_to;
