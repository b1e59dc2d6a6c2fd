//! The lines of an input and the answers to them: each line is one field, and has one line as its answer.
#![tactic(auto)]

mod answer;
mod arguments;
pub mod equality_laws;
pub mod laws;
mod lines;
mod output;
mod program;
mod reading;
mod words;

pub use answer::answer_line;
pub use arguments::{command_of, serve, status_of};
pub use geoarrow_layout::{coord_type_word, dimension_word, kind_word};
pub use lines::{is_within_limits, keeps_limits_or_passes_one, splits_at_line_feeds};
pub use program::{Outcome, ProgramEnd, answer_all, answer_bytes, exit_status};
pub use reading::run;

/// What is asked about the field of each line.
///
/// ```rust
/// let words = vec![in alloc; String::from_str(alloc, "canon")?]?;
/// assert!(rt; command_of(words.as_slice()) == Some(Command::Canon));
/// ```
#[derive(Debug, Clone, Copy, PartialEq, Eq)]
pub enum Command {
    /// Which GeoArrow type the field is read as.
    Read,
    /// Which type it is read as, or which is inferred if it has no GeoArrow name.
    Infer,
    /// The field in normal form, as GeoArrow writes it.
    Canon,
    /// What a column of the field holds.
    Columns,
}

/// How a run ended.
///
/// ```rust
/// for &(end, status) in [
///     (Some(RunEnd::Done), 0),
///     (Some(RunEnd::InputFault), 1),
///     (Some(RunEnd::Memory), 1),
///     (Some(RunEnd::OutputFault), 1),
///     (None, 2),
/// ]
/// .iter()
/// {
///     assert!(rt; status_of(end) == status, "{end:?}");
/// }
/// ```
#[derive(Debug, Clone, Copy, PartialEq, Eq)]
pub enum RunEnd {
    /// The end of the input was reached, and each line is answered.
    Done,
    /// The input exceeds a limit, or the reader failed. The last line of the output is `error input`.
    InputFault,
    /// Out of memory. The last line of the output is `error memory`.
    Memory,
    /// The writer failed, or accepted no bytes. Nothing more was written.
    OutputFault,
}
