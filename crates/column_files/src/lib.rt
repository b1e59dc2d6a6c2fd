//! The columns of a file, whichever of the formats it is in: an Arrow or Parquet file, an Arrow stream, or lines of fields.
#![tactic(auto)]

mod bad_lines;
mod columns;
mod ending;
mod fault;
mod foreign;
mod form;
mod found;
mod geo;
mod in_file;
pub mod laws;
mod line;
mod lines;
mod mark;
mod opening;
mod parquet;
mod reading;
mod refusal;
mod schema_bytes;

pub use bad_lines::{BadLine, BadLines, MAX_BAD_LINES};
pub use columns::FileFault;
pub use ending::{EndFault, EndRule};
pub use fault::ReadFault;
pub use foreign::Foreign;
pub use form::{Form, form_of};
pub use geo::GeoText;
pub use line::{LineFault, column_line, parse_column_line};
pub use line_reader::MAX_LINE_BYTES;
pub use lines::columns_of_lines;
pub use opening::{File, open, open_end};
pub use reading::LineColumns;
pub use refusal::{Fault, Place, bad_line_fault, fault_of, long_line, write_fault};
pub use schema_bytes::{FileEnd, read_head, read_schema_bytes, read_schema_end};
