//! Records: the structures of Arrow's C data interface as bytes, one after the other, as
//! `native/records.c` copies them of a tree of `ArrowSchema`s, and makes such a tree of them
//! (`docs/FORMAT.md`, 6). What a structure means is for what reads them.
#![tactic(auto)]

mod fault;
mod record;
mod trees;
mod write;

pub use fault::{Fault, Rule, broken};
pub use record::{Record, number_at, record_at, utf8_at};
pub use trees::{
    LEVEL_LIMIT, Meaning, Records, STRUCTURE_LIMIT, head_at, inner_count, place_of, root_at,
};
pub use write::{WriteError, with_record};
