//! Schemas of Arrow's IPC format: the message at the head of a stream and the footer of a file, read from whatever
//! bytes come.
#![tactic(auto)]

mod entries;
mod fault;
pub mod laws;
mod nesting;
mod parts;
mod schema;
mod wire;
mod write;

pub use entries::{Entry, SchemaEntries, read_entries, read_file_entries};
pub use fault::{IpcError, IpcFault, IpcRule};
pub use schema::{Endianness, NESTING_LIMIT, Schema, read_file_footer, read_schema};
pub use write::{WriteError, write_schema};
