//! Records of Arrow's C data interface from columns: what `record_columns` reads as these columns
//! (`docs/FORMAT.md`, 6).
//!
//! Columns of the 26 data types are written, with all that lies in them; so are those of which
//! nothing is known but a notation, as `timestamp[ms, tz=UTC]`, that is the notation of a kind which
//! a format string says. Any other type that is none of the 26 is refused, such as a list in which
//! one of these lies.
#![tactic(auto)]

mod error;
mod part;
mod structure;
mod texts;
mod trees;
mod types;
mod write;

pub use error::WriteError;
pub use write::{write_column, write_columns};
