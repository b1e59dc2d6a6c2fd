//! What the words on the command line of `geoarrow_check` ask: [`asked_by`] reads them, or gives
//! what is said in place of a report; and for which of its files a folder among them stands:
//! [`is_taken`].
#![tactic(auto)]

mod asked;
mod codes;
mod command;
mod flags;
mod folder;
mod terminal;
mod weights;

pub use asked::{Said, asked_by};
pub use folder::{is_left_out, is_taken, put_in_order};
pub use terminal::{Color, Terminal, screen_of};
